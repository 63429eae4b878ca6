ghost use Rattle.std.specs.Prelude.{length, ◌≡◌, ◌≤◌, ◌<◌, ◌+◌};

use crate::came::Came;
use crate::carriage::len_without_cr;
use crate::input_end::InputEnd;
use crate::reads::{Found, next_lf, read_more};
use crate::step::Step;
use crate::told::told_end;
use crate::window::Window;
use rx_proto::MAX_LINE;
use std::io::Read;

/// Reads the lines of a reader that stands beside it. It takes no memory.
#[derive(Drop)]
pub struct LineState {
    window: Window,
    taken: usize,
    reads: u64,
    end: Option<InputEnd>,
    ghost taken_here: { taken ≤ length window },
}

impl LineState {
    ghost use Rattle.std.specs.Prelude.{◌↔◌, IsTrue, cond, false, take, [], None};
    ghost use Rattle.rx_proto.specs.LineFeeds.{HasLf, HasNoLf};
    ghost use Rattle.rx_lines.specs.Reads.{ReadsOn};
    ghost use Rattle.rx_lines.specs.Steps.{unread, Advances, IsStepAt, LooksInHand};

    /// No line was read yet, and at most `max_reads` reads may be made.
    #[inline(always)] // so that its block is made where it stays
    pub fn new(max_reads: u64) -> LineState
        ensures unread { unread result ≡ [] }
        ensures reads { result.reads ≡ max_reads }
        ensures end { result.end ≡ None }
    {
        LineState {
            window: Window::new(),
            taken: 0,
            reads: max_reads,
            end: None,
        }
    }

    /// Whether the next line was read to its LF already, so that the next step makes no read. Lets go of the line last
    /// told.
    pub fn has_line(&mut self) -> bool
        ensures has { IsTrue result ↔ HasLf (unread self.new) }
        ensures none { result ≡ false → HasNoLf (unread self.new) }
        ensures unread { unread self.new ≡ unread self.old }
        ensures reads { self.new.reads ≡ self.old.reads }
        ensures end { self.new.end ≡ self.old.end }
    {
        self.let_go();
        self.window.find_lf().is_some()
    }

    /// Tells the next line where that was read to its LF already, so that no read is made. None where the next step makes a
    /// read or tells an end. Lets go of the line last told.
    #[inline] // once for each line that a script has in hand
    pub fn known(&mut self) -> Option<Step>
        ensures knows { LooksInHand result self.old self.new }
        ensures reads { self.new.reads ≡ self.old.reads }
        ensures end { self.new.end ≡ self.old.end }
    {
        if self.end.is_some() {
            return None;
        }
        self.let_go();
        match self.window.find_lf() {
            Some(len) => Some(self.step_at(len)),
            None => None,
        }
    }

    /// Tells the next line, for which it reads as often as it must, or the end. After an end no further read is made,
    /// and the same end is told again.
    #[inline(never)] // once for each block, or for each line of a session
    pub fn advance<R: Read>(&mut self, reader: &mut R) -> Step
        ensures advances { Advances result (R.remaining reader.old) (R.remaining reader.new) self.old self.new }
        ensures no_read { HasLf (unread self.old) → self.new.reads ≡ self.old.reads }
    {
        if let Some(end) = self.end {
            return told_end(end);
        }
        self.let_go();
        match next_lf(&mut self.window, &mut self.reads, reader) {
            Found::Lf(len) => self.step_at(len),
            Found::LongLf(len) => {
                self.taken = len + 1;
                Step::Long
            }
            Found::End(end) => {
                self.end = Some(end);
                told_end(end)
            }
        }
    }

    /// Lets go of all that is unread, where that is more than the longest line and its CR, and says whether it did. Lets go
    /// of the line last told too.
    pub fn shed(&mut self) -> bool
        ensures unread { unread self.new ≡ cond result [] (unread self.old) }
        ensures long { IsTrue result → 1101 < length (unread self.old) }
        ensures short { length (unread self.new) ≤ 1101 }
        ensures reads { self.new.reads ≡ self.old.reads }
        ensures end { self.new.end ≡ self.old.end }
    {
        self.let_go();
        if self.window.len() <= MAX_LINE + 1 {
            return false;
        }
        self.window.clear();
        true
    }

    /// One read, behind what is unread. Lets go of the line last told.
    pub fn come<R: Read>(&mut self, reader: &mut R) -> Came
        requires { length (unread self.old) < 8192 }
        ensures comes { ReadsOn result (R.remaining reader.old) (R.remaining reader.new) (unread self.old) (unread self.new) self.old.reads self.new.reads }
        ensures end { self.new.end ≡ self.old.end }
    {
        self.let_go();
        read_more(&mut self.window, &mut self.reads, reader)
    }

    /// Whether what is unread begins with this byte.
    pub fn begins_with(&self, byte: u8) -> bool {
        self.window.has_at(self.taken, byte)
    }

    /// The line last told, of so many bytes.
    pub fn line(&self, len: usize) -> &[u8]
        requires { len ≤ length self.now.window }
        ensures { result.now ≡ take len self.now.window }
    {
        self.window.front(len)
    }

    // Tells the line of so many bytes at the front of the window, behind which its LF stands.
    #[inline] // a part of `known`
    fn step_at(&mut self, len: usize) -> Step
        requires within { len < length self.old.window }
        requires few { len < 8192 }
        ensures step { IsStepAt result len self.new.window }
        ensures taken { self.new.taken ≡ len + 1 }
        ensures window { self.new.window ≡ self.old.window }
        ensures reads { self.new.reads ≡ self.old.reads }
        ensures end { self.new.end ≡ self.old.end }
    {
        self.taken = len + 1;
        let line = len_without_cr(self.window.front(len));
        if line > MAX_LINE {
            Step::Long
        } else {
            Step::Line(line)
        }
    }

    #[inline] // a part of `known`
    fn let_go(&mut self)
        ensures taken { self.new.taken ≡ 0 }
        ensures window { self.new.window ≡ unread self.old }
        ensures reads { self.new.reads ≡ self.old.reads }
        ensures end { self.new.end ≡ self.old.end }
    {
        self.window.drop_front(self.taken);
        self.taken = 0;
    }
}
