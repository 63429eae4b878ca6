//! Sessions over the subjects of a configuration, served by workers.
//!
//! A [`Worker`] serves all connections that are dealt to it by one desk, each by a session that has its turns among those of the
//! others, as its [`Readiness`] tells;
//! [`serve_connections`] has a worker for each desk, in a thread of its own, and deals the connections of a [`Listener`] to
//! them. Nothing here makes a desk, a pump or a drainer, and nothing is said of when a connection or a reply comes.
//!
//! The crate above rests on what [`serve_connections`] says (`specs/Service.antt`): each connection was served by the worker to
//! which it was dealt, and the desks are where they were, as their calls left them. Below that stand what a worker does and leaves (`Working.antt`, `Workers.antt`) and where connections go
//! (`Accepting.antt`).
//!
//! What it does is tested over a server, in `test_edge`.
#![tactic(auto)]

pub(crate) mod crew;
mod listener;
mod readiness;
mod shared_moments;
mod watch_log;
pub(crate) mod worker;

pub use crew::acceptor::{AcceptStop, accept_all};
pub use crew::idle::Idle;
pub use crew::serve_connections;
pub use crew::serve_fault::ServeFault;
pub use listener::{AcceptFault, Listener, Watch};
pub use readiness::{Aim, Readiness, Ready, Waker, WatchFault};
pub use rx_desk::{ClientSink, Joined, Moments, SessionDesk};
pub use shared_moments::SharedMoments;
pub use watch_log::WatchLog;
pub use worker::Worker;
pub use worker::admission::{admit, begin};
pub use worker::client::{Client, Follower, Talk};
pub use worker::clients::Clients;
pub use worker::parting::{Pause, leave};
pub use worker::running_worker::{RunningWorker, start_worker};
pub use worker::worker_end::WorkerEnd;
