//! Tapes, call by call. In a script a letter pushes its item, a digit makes a cursor so many items before the end, and `@` goes
//! back to the first cursor; `<` reads at the cursor and `~` one place further, `>` moves it on,
//! `-` releases it; `(` trims all that may go, `)` all but the last item; `#` asks how many items there are.
//!
//! Told is the letter of what is read, `_` where nothing is, the number of a cursor that is made, and how many items there are.

ghost use Rattle.std.specs.Prelude.{◌≡◌};

use crate::in_turn::{Script, expect_in_turn};
use rx_heap::{Heap, Memory};
use rx_note::Item;
use rx_tape::Tape;
use std::test::Fail;
use test_kit::{Tale, Told, item, sign_of_item};

/// A tape that is tried, the cursor that the script is at, what is told, and how many calls were refused for want of memory
/// and then made again.
struct Tried {
    tape: Tape,
    cursor: u32,
    told: Told,
    misses: u64,
}

// By hand: rx_heap says why.
impl Drop for Tried {
    fn drop(self) {
        let Tried {
            tape: _,
            cursor: _,
            told: _,
            misses: _,
        } = self;
    }
}

/// A new cursor, as far back as there are items.
pub(crate) fn cursor_of(tape: &mut Tape, back: usize) -> Result<u32, Memory>
    ensures { tape.new.items ≡ tape.old.items }
{
    let back = back.min(tape.len());
    tape.cursor(back)
}

// The sign of what is read.
fn sign_read(item: Option<&Item>) -> u8 {
    match item {
        Some(item) => sign_of_item(item),
        None => b'_',
    }
}

impl Tried {
    fn count_miss(&mut self) {
        self.misses = self.misses.saturating_add(1);
    }

    fn push(&mut self, heap: &Heap, text: &[u8]) -> Result<(), Memory> {
        if self.tape.push(item(heap, text)?).is_err() {
            self.count_miss();
            self.tape.push(item(heap, text)?)?;
        }
        Ok(())
    }

    fn make(&mut self, back: usize) -> Result<(), Memory> {
        self.cursor = match cursor_of(&mut self.tape, back) {
            Ok(cursor) => cursor,
            Err(Memory) => {
                self.count_miss();
                cursor_of(&mut self.tape, back)?
            }
        };
        self.told.put_digit(self.cursor as usize);
        Ok(())
    }

    fn read(&mut self) {
        let sign = sign_read(self.tape.read(self.cursor));
        self.told.put(sign);
    }

    fn read_ahead(&mut self) {
        let sign = sign_read(self.tape.read_ahead(self.cursor, 1));
        self.told.put(sign);
    }

    fn step(&mut self, heap: &Heap, sign: u8) -> Result<(), Memory> {
        match sign {
            b'<' => self.read(),
            b'~' => self.read_ahead(),
            b'#' => self.told.put_digit(self.tape.len()),
            b'>' => self.tape.advance(self.cursor),
            b'-' => self.tape.release(self.cursor),
            b'(' => self.tape.trim(0),
            b')' => self.tape.trim(1),
            b'@' => self.cursor = 0,
            b'0'..=b'9' => self.make(usize::from(sign - b'0'))?,
            letter => self.push(heap, &[letter])?,
        }
        Ok(())
    }

    fn run(&mut self, heap: &Heap, script: &[u8]) -> Result<(), Memory> {
        for sign in script {
            self.step(heap, *sign)?;
        }
        Ok(())
    }
}

/// A script for a tape.
#[derive(Clone, Copy)]
struct Row {
    script: &'static str,
}

impl Script for Row {
    // Tries a tape that grows by `tight`.
    fn tell(&self, free: &Heap, tight: &Heap) -> Result<Tale, Fail> {
        let mut tried = Tried {
            tape: Tape::new(tight.clone()?),
            cursor: 0,
            told: Told::new(),
            misses: 0,
        };
        tried.run(free, self.script.as_bytes())?;
        Ok(Tale {
            told: tried.told,
            misses: tried.misses,
        })
    }
}

// A script, and what is told.
const ROWS: [(&str, &str); 8] = [
    ("ab1<c><><)#1<", "0bc_11c"),
    ("<#(#", "_00"),
    ("ab2<~>~", "0ab_"),
    ("ab20(#@>(#>(#", "01210"),
    ("ab2-(#", "00"),
    ("ab1-c3-", "00"),
    ("ab20@-2<@<", "010aa"),
    ("abcd4)#>>>>>)#<", "041_"),
];

#[test]
fn tape_call_by_call(rt: HostRuntime) -> Result<(), Fail> {
    for (script, wanted) in &ROWS {
        expect_in_turn(&rt, rt.alloc(), &Row { script }, wanted, script)?;
    }
    Ok(())
}
