//! A desk that answers all alike.
use rx_heap::Heap;
use rx_note::{Note, Policy};
use rx_proto::{Name, Response, Version, Word};
use rx_session::{Desk, Follow};
use test_kit::Told;

/// Has one subject, `s`, answers each note for it alike, keeps a writer or gives it back, and notes what it was asked.
#[derive(Drop)]
pub(crate) struct Clerk<'a> {
    pub(crate) heap: &'a Heap,
    pub(crate) asked: Told,
    pub(crate) takes: bool,
}

impl<'a> Clerk<'a> {
    pub(crate) fn new(heap: &'a Heap, takes: bool) -> Clerk<'a> {
        Clerk {
            heap,
            asked: Told::new(),
            takes,
        }
    }
}

fn is_s(name: &Name) -> bool {
    name.as_bytes() == b"s".as_slice()
}

impl<'a, W: Drop> Desk<W> for Clerk<'a> {
    ghost use Rattle.std.specs.Prelude.{◌≡◌};

    ghost knows = { λ desk name. Unit {0} };

    ghost emits = { λ old name note response new. Unit {0} };

    ghost waits = { λ base begun now. ⊥ };

    ghost follows = { λ old name policy version writer answer new. Unit {0} };

    fn memory(&self, name: &Name) -> Option<&Heap> {
        if is_s(name) {
            return Some(self.heap);
        }
        None
    }

    fn emit(&mut self, name: &Name, note: Note) -> Response {
        if !is_s(name) {
            return Response::Refused(Word::Subject);
        }
        self.asked.put(sign_of(&note));
        Response::Done
    }

    fn begin(&mut self, _name: &Name, note: Note, _behind: u32) -> Result<(), Note> {
        Err(note)
    }

    fn answer(&mut self) -> Response {
        Response::Done
    }

    fn follow(&mut self, _name: &Name, _policy: Policy, version: Version, writer: W) -> Follow<W> {
        self.asked.put(match version {
            Version::One => b's',
            Version::Two => b't',
        });
        if self.takes {
            Follow::Taken
        } else {
            Follow::Back(Response::Refused(Word::Full), writer)
        }
    }
}

fn sign_of(note: &Note) -> u8 {
    match note {
        Note::Next(_) => b'n',
        Note::Completed => b'c',
        Note::Failed(_) => b'f',
    }
}
