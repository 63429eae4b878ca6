ghost use Rattle.std.specs.Prelude.{◌≡◌, ◌<◌, ◌≤◌, ℕ, List, [], None, IfNone, IfSome, false, length, take};
ghost use Rattle.rx_proto.specs.LineFeeds.{HasNoLf};
ghost use Rattle.rx_lines.specs.Feeds.{Comes, FillsOn, IsRest, IsWhole, Tells};
ghost use Rattle.rx_lines.specs.Steps.{unread};

use crate::came::Came;
use crate::{LineState, Step};
use std::io::Read;

/// The lines of a reader whose reads wait for nobody.
#[derive(Drop)]
pub struct Feed {
    lines: LineState,
    // Of a line that is too long, its front was let go.
    skips: bool,
    ghost open: { lines.end ≡ None },
}

impl Feed {
    /// No line was read yet, and at most `max_reads` reads may be made.
    pub fn new(max_reads: u64) -> Feed
        ensures unread { unread result.lines ≡ [] }
        ensures skips { result.skips ≡ false }
        ensures reads { result.lines.reads ≡ max_reads }
    {
        Feed {
            lines: LineState::new(max_reads),
            skips: false,
        }
    }

    /// One read, where no line is in hand, and none where one is.
    pub fn fill<R: Read>(&mut self, reader: &mut R) -> Came
        ensures comes { (rest : List ℕ) → IsRest self.old.skips (unread self.old.lines) rest
            → Comes result (R.remaining reader.old) (R.remaining reader.new) rest self.new.skips (unread self.new.lines) }
        ensures on { FillsOn result self.old.lines self.new.lines }
    {
        if self.lines.has_line() {
            return Came::Bytes;
        }
        self.shed();
        self.lines.come(reader)
    }

    /// Tells the next line where it is in hand, without a read: one whose front was let go as too long.
    pub fn known(&mut self) -> Option<Step>
        ensures tells { (rest : List ℕ) → IsRest self.old.skips (unread self.old.lines) rest
            → Tells result rest self.new.lines.window self.new.skips (unread self.new.lines) }
        ensures whole { IsWhole result self.new.lines.window }
        ensures reads { self.new.lines.reads ≡ self.old.lines.reads }
        ensures took { IfSome result (λ _. length (unread self.new.lines) < length (unread self.old.lines)) }
        ensures none { IfNone result ((unread self.new.lines ≡ unread self.old.lines) × HasNoLf (unread self.old.lines)) }
    {
        match self.lines.known() {
            None => None,
            Some(step) => {
                if self.skips {
                    self.skips = false;
                    return Some(Step::Long);
                }
                Some(step)
            }
        }
    }

    /// The line last told, of so many bytes.
    pub fn line(&self, len: usize) -> &[u8]
        requires { len ≤ length self.now.lines.window }
        ensures { result.now ≡ take len self.now.lines.window }
    {
        self.lines.line(len)
    }

    /// Whether the next line, if there is one, begins with this byte.
    pub fn begins_with(&self, byte: u8) -> bool {
        self.lines.begins_with(byte)
    }

    // Lets go of the front of a line that is too long.
    fn shed(&mut self)
        requires { HasNoLf (unread self.old.lines) }
        ensures rest { (rest : List ℕ) → IsRest self.old.skips (unread self.old.lines) rest → IsRest self.new.skips (unread self.new.lines) rest }
        ensures no_lf { HasNoLf (unread self.new.lines) }
        ensures short { length (unread self.new.lines) ≤ 1101 }
        ensures reads { self.new.lines.reads ≡ self.old.lines.reads }
    {
        if !self.lines.shed() {
            return;
        }
        self.skips = true;
    }
}
