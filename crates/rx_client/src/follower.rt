ghost use Rattle.std.specs.Prelude.{◌≡◌};
ghost use Rattle.rx_client.specs.Following.{after_heard, after_joined, end_gap, is_overflow, new_follower, tells_heard, tells_joined};

use crate::{Epoch, Heard, Telling, Told};

/// Tells what a subject has for an observer that comes again: each item once, in its order, and what it can't tell.
///
/// It is told when it has joined, and at which server, and then each line that it hears there.
#[derive(Clone, Copy, Debug)]
pub struct Follower {
    // Which server it has joined at last.
    pub(crate) server: Option<Epoch>,
    // The place of the item that is to come next. None before the first item, for who comes anew wants what there is.
    pub(crate) next: Option<u64>,
    // Its strategy is one by which the server ends an observer that is too slow.
    pub(crate) may_overflow: bool,
    // An item was offered since it joined last.
    pub(crate) is_offered: bool,
    // The seed of this server was told.
    pub(crate) heard_seed: bool,
    // An item was told since the last overflow. Twice with none in between is the subject's own error, or no room will ever do.
    pub(crate) heard_more: bool,
    // How the connection by which it joined last ended.
    pub(crate) ending: Ending,
}

/// How what is heard by one connection ended.
#[derive(Clone, Copy, Debug, PartialEq, Eq)]
pub enum Ending {
    /// It goes on.
    Open,
    /// It was too slow, and is to come again.
    Again,
    /// The subject is completed.
    Done,
    /// The subject has failed.
    Failed,
}

impl Follower {
    /// It has heard nothing. It wants the items from a place on, or, without one, what there is for who comes anew. Its strategy
    /// may be one by which who is too slow is told `OVERFLOW`.
    pub fn new(from: Option<u64>, may_overflow: bool) -> Follower
        ensures { result ≡ new_follower from may_overflow }
    {
        Follower {
            server: None,
            next: from,
            may_overflow,
            is_offered: false,
            heard_seed: false,
            heard_more: true,
            ending: Ending::Open,
        }
    }

    /// How the connection by which it joined last ended, as far as lines told it.
    pub fn ending(&self) -> Ending
        ensures { result ≡ self.now.ending }
    {
        self.ending
    }

    /// It has joined at this server. Told is what is lost, where that is another one.
    pub fn join(&mut self, server: Epoch) -> Option<Told<'static>>
        ensures told { result ≡ tells_joined self.old server }
        ensures after { self.new ≡ after_joined self.old server }
    {
        let before = *self;
        self.server = Some(server);
        self.is_offered = false;
        self.ending = Ending::Open;
        let Some(known) = before.server else {
            return None;
        };
        if known.made == server.made && known.file == server.file {
            self.next = Some(before.next.unwrap_or(0));
            return None;
        }
        self.next = Some(0);
        self.heard_seed = false;
        Some(Told::Lost(before.next.unwrap_or(0)))
    }

    /// It heard this at the server where it joined last.
    pub fn hear<'a>(&mut self, heard: Heard<'a>) -> Telling<'a>
        ensures told { result ≡ tells_heard self.old heard.entry }
        ensures after { self.new ≡ after_heard self.old heard.entry }
    {
        match heard {
            Heard::Item { place, from, text } => self.hear_item(place, from, text),
            Heard::Seed(text) => self.hear_seed(text),
            Heard::Done => self.end(Ending::Done, Told::Done),
            Heard::Failed(text) => self.hear_failed(text),
        }
    }

    fn hear_item<'a>(&mut self, place: u32, from: u32, text: &'a [u8]) -> Telling<'a>
        ensures told { result ≡ tells_heard self.old (Heard.Item place from text.entry) }
        ensures after { self.new ≡ after_heard self.old (Heard.Item place from text.entry) }
    {
        let at = u64::from(place);
        let awaited = self.next.unwrap_or(at);
        self.is_offered = true;
        if at < awaited {
            return Telling {
                gap: None,
                note: None,
            };
        }
        self.next = Some(at + 1);
        self.heard_more = true;
        let gap = if awaited < at {
            Some(Told::Missed {
                first: awaited,
                last: at - 1,
            })
        } else {
            None
        };
        Telling {
            gap,
            note: Some(Told::Item { place, from, text }),
        }
    }

    fn hear_seed<'a>(&mut self, text: &'a [u8]) -> Telling<'a>
        ensures told { result ≡ tells_heard self.old (Heard.Seed text.entry) }
        ensures after { self.new ≡ after_heard self.old (Heard.Seed text.entry) }
    {
        let note = if self.heard_seed {
            None
        } else {
            Some(Told::Seed(text))
        };
        self.is_offered = true;
        self.heard_seed = true;
        Telling { gap: None, note }
    }

    fn hear_failed<'a>(&mut self, text: &'a [u8]) -> Telling<'a>
        ensures told { result ≡ tells_heard self.old (Heard.Failed text.entry) }
        ensures after { self.new ≡ after_heard self.old (Heard.Failed text.entry) }
    {
        if self.may_overflow && self.heard_more && is_overflow(text) {
            self.heard_more = false;
            self.ending = Ending::Again;
            return Telling {
                gap: None,
                note: Some(Told::Overflow),
            };
        }
        self.end(Ending::Failed, Told::Failed(text))
    }

    // The subject ended so.
    fn end<'a>(&mut self, ending: Ending, note: Told<'a>) -> Telling<'a>
        ensures told { result ≡ record { gap = end_gap self.old; note = Some note.entry } }
        ensures after { self.new ≡ record self.old { ending = ending } }
    {
        self.ending = ending;
        let gap = match self.next {
            Some(next) if !self.is_offered => Some(Told::MissedFrom(next)),
            _ => None,
        };
        Telling {
            gap,
            note: Some(note),
        }
    }
}

// Whether an error says that its observer was too slow.
fn is_overflow(text: &[u8]) -> bool
    ensures { result ≡ is_overflow text.now }
{
    text == b"OVERFLOW".as_slice()
}
