//! What is told of a run: signs that are put one behind the other, in a room of their own. Putting one never fails, so that
//! nothing is let go where a test goes on.

use crate::signs::{digit_of, sign_of};
use rx_note::{Answer, Note, Refusal};

/// How many signs are told at most.
const ROOM: usize = 256;

/// What is told. Signs for which there is no room are counted and not held.
#[derive(Clone, Copy)]
pub struct Told {
    signs: [u8; ROOM],
    len: usize,
}

impl Told {
    /// Nothing yet.
    pub fn new() -> Told {
        Told {
            signs: [0; ROOM],
            len: 0,
        }
    }

    /// How many signs.
    pub fn len(&self) -> usize {
        self.len
    }

    /// Puts a sign.
    pub fn put(&mut self, sign: u8) {
        if let Some(place) = self.signs.get_mut(self.len) {
            *place = sign;
        }
        self.len = self.len.saturating_add(1);
    }

    /// Puts the digit of a number; `+` where it has none.
    pub fn put_digit(&mut self, number: usize) {
        self.put(digit_of(number));
    }

    /// Puts these signs.
    pub fn put_all(&mut self, signs: &[u8]) {
        for sign in signs {
            self.put(*sign);
        }
    }

    /// Puts the signs of notes.
    pub fn put_notes(&mut self, notes: &[Note]) {
        for note in notes {
            self.put(sign_of(note));
        }
    }

    /// Puts what was answered: `A`, `L`, `R` or `J` with the observer for what was accepted, `n` for no such observer, `m` for
    /// want of memory or `!` for another refusal.
    pub fn put_answer(&mut self, answered: Result<Answer, Refusal>) {
        self.put(match answered {
            Ok(Answer::Admitted) => b'A',
            Ok(Answer::Joined(_)) => b'J',
            Ok(Answer::Asked) => b'R',
            Ok(Answer::Left) => b'L',
            Err(Refusal::NoObserver) => b'n',
            Err(Refusal::Memory) => b'm',
            Err(_) => b'!',
        });
        if let Ok(Answer::Joined(who)) = answered {
            self.put_digit(who as usize);
        }
    }

    /// All signs. Where there was no room for one, other words that no test wants.
    pub fn as_bytes(&self) -> &[u8] {
        self.signs
            .get(..self.len)
            .unwrap_or(b"more than there is room for".as_slice())
    }
}
