use crate::{Credit, Id, IdempotencyKey, LookForm, NoteKind, ObserverId};
use rx_note::Policy;
use rx_proto::Name;

/// What a request asks for.
#[derive(Drop, Debug, PartialEq, Eq)]
pub enum Asked {
    /// `GET /subjects/NAME`: the events of a subject.
    Events {
        /// The subject's name. Whether there is such a subject is still to be seen.
        subject: Name,
        /// How its reader wants to be served.
        policy: Policy,
        /// How many items it is owed, and who asks for more.
        credit: Credit,
        /// What it knows; None where it knows nothing.
        known: Option<Id>,
    },
    /// `POST /subjects/NAME`, or `/end` or `/fail` behind it: a note for a subject.
    Emission {
        /// The subject's name. Whether there is such a subject is still to be seen.
        subject: Name,
        /// What is said to it.
        kind: NoteKind,
        /// How many bytes the body has, which is the text: 1,024 at most.
        size: u32,
        /// By what its producer names it; None where it doesn't.
        key: Option<IdempotencyKey>,
    },
    /// `POST /subjects/NAME?lines=1`: items for a subject, one for each line of the body.
    Texts {
        /// The subject's name. Whether there is such a subject is still to be seen.
        subject: Name,
        /// How many bytes the body has.
        size: u32,
    },
    /// `POST /subjects/NAME/observers/EPOCH-WHO`: items for an observer, which asks for them itself.
    Request {
        /// The subject's name. Whether there is such a subject is still to be seen.
        subject: Name,
        /// The observer. Whether there is such an observer is still to be seen.
        observer: ObserverId,
        /// How many items more it is owed.
        items: u32,
    },
    /// `GET /`, `/stats`, `/stats.txt` and `/metrics`: what is seen of the server.
    Look(LookForm),
    /// `GET /healthz`: whether all is well.
    Health,
    /// `POST /stop`: that the server stops.
    Stop {
        /// How many seconds it waits at most for who has something waiting, up to 3,600.
        within: u32,
    },
}
