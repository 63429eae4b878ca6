//! A bounded box of letters between threads: numbered ports put letters in, one inbox takes them out. What arrives of
//! each port is what it put, whole and in its order.
//!
//! Nothing is said of the order of letters of two ports, nor of when a letter comes, and a call that waits isn't promised
//! to return.
//!
//! The crates above rest on [`settle`]: where each port of a box has ended and each Bye was received, the letters received
//! of a port are just those that it put. `specs/Letters.antt`, `Boxes.antt` and `Settling.antt` have the words of the
//! contracts; `Rule.antt` has the rule that the channel of a box keeps at every moment. Whoever made several boxes of one kind
//! and handed out their ports in rows, one of each box, ends them together by [`settle_each`], of which `Parts.antt` has the words.
//!
//! Its tests stand in `crates/test_threads`.
#![tactic(auto)]

pub(crate) mod bell;
pub(crate) mod channel;
pub(crate) mod inbox;
pub(crate) mod letter;
pub(crate) mod opening;
pub(crate) mod port;
pub(crate) mod settlement;

pub use inbox::try_recv_fault::TryRecvFault;
pub use inbox::{Gone, Inbox};
pub use letter::{Letter, Post};
pub use opening::{MAX_CAPACITY, MAX_PORTS, OpenError, open};
pub use port::Port;
pub use port::ended_port::EndedPort;
pub use port::ends_of_ports::{finish_all, let_go_all};
pub use port::rings_of_ports::{nudge_all, ring_all, ring_at, try_ring_all, try_ring_at};
pub use settlement::box_parts::BoxParts;
pub use settlement::deal_of_rows::{Twice, deal, parts_of, put_inbox};
pub use settlement::each_box::settle_each;
pub use settlement::rest::settle_rest;
pub use settlement::settle;
pub use settlement::settle_cause::SettleCause;
pub use settlement::settled::Settled;
pub use settlement::unsettled::Unsettled;
