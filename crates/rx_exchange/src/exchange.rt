// Each answer is the last of its connection. Nothing is read behind a request: what a proxy forwards for somebody else is never taken
// for its body. A connection to a Unix socket costs next to nothing, and a stream of events goes to the end of its own in any
// case.
ghost use Rattle.std.specs.Prelude.{◌≡◌, ◌<◌, List, ℕ, Option, [], false, true, length};
ghost use Rattle.rx_exchange.specs.Meetings.{parties};

use crate::Front;
use crate::came::{Came, come};
use crate::met_request::{meet, send, tell};
use rx_http::HeadReader;
use rx_session::{SessionEnd, Turn};
use std::io::{Read, Write};

/// What a connection asks for and is answered, served turn by turn by one that serves others meanwhile: no turn waits for the reader or
/// the writer. It takes no memory.
#[derive(Drop)]
pub struct Exchange {
    head: HeadReader,
    reads: u64,
    // The request was answered, and nothing more is read.
    answered: bool,
    ghost open: { answered ≡ false → length head < 8192 },
}

impl Exchange {
    ghost use Rattle.rx_exchange.specs.Exchanges.{AsksOnce, HasGotOn, IsNew, OnlySends, Sits, Sitting};

    /// Nothing was read or answered yet, and at most `max_reads` reads may be made. One that would block counts too.
    pub fn new(max_reads: u64) -> Exchange
        ensures new { IsNew result }
        ensures reads { result.reads ≡ max_reads }
    {
        Exchange {
            head: HeadReader::new(),
            reads: max_reads,
            answered: false,
        }
    }

    /// One turn. It makes one read. Once the head and its body are whole, or longer than they may be, what they ask for is met, and the
    /// answer goes to the writer, of which it goes out what can now; the rest does in later turns. Where an observer joined, the server
    /// has the writer, and the exchange is over.
    ///
    /// A read that would block does nothing. An exchange whose answer is out is over as a session is that quit. There is no turn after
    /// one that is over.
    pub fn turn<R: Read, W: Write + Drop, D: Front<W>>(
        &mut self,
        reader: &mut R,
        writer: W,
        desk: &mut D,
    ) -> Turn<W>
        ensures sits { (start : D) (first : W) (read_old : Option (List ℕ))
            → Sitting (parties D.since D.looks D.joins D.emits D.emits_lines D.requests D.shows D.stops W.contents) start first read_old (R.remaining reader.old) desk.old writer self.old
            → Sits (parties D.since D.looks D.joins D.emits D.emits_lines D.requests D.shows D.stops W.contents) result start first read_old (R.remaining reader.new) desk.new self.new }
        ensures answered { self.old.answered ≡ true → desk.new ≡ desk.old }
        ensures sends { self.old.answered ≡ true → OnlySends W.contents result (R.remaining reader.old) (R.remaining reader.new) writer self.new }
        ensures asks_once { AsksOnce (parties D.since D.looks D.joins D.emits D.emits_lines D.requests D.shows D.stops W.contents) desk.old writer desk.new }
        ensures got_on { HasGotOn result self.old self.new }
    {
        if self.answered {
            return send(writer);
        }
        if self.reads == 0 {
            return Turn::Over(SessionEnd::TooManyReads, Some(writer));
        }
        self.reads -= 1;
        let (asked, from, size) = match come(&mut self.head, reader) {
            Came::Asks { asked, from, size } => (asked, from, size),
            Came::Partly => return Turn::Again(writer),
            Came::Nothing => return Turn::Waits(writer),
            Came::End(end) => return Turn::Over(end, Some(writer)),
        };
        self.answered = true;
        let text = &self.head.behind(from)[..size];
        match meet(asked, text, writer, desk) {
            Some((answer, writer)) => tell(answer, writer),
            None => Turn::Over(SessionEnd::HandedOver, None),
        }
    }
}
