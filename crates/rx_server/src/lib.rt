//! A server: the threads of its subjects and sinks, the desks that call them, and its close.
//!
//! [`start`] makes the hubs and boxes of a configuration and starts its pumps and drainers, and so does [`start_unread`], where
//! nobody reads what sinks left; [`Server::desk`] hands out desks, and
//! [`Server::serve`] serves the connections of a listener by those that are left; [`Server::close`] ends what is left, waits
//! until all threads have ended, settles each box that the server made, and reports. Nothing is said of when a thread runs, and
//! `close` isn't promised to return.
//!
//! The programs above rest on this: a server is wired as its configuration says (`specs/Wirings.antt`); a report tells what each
//! pump and each drainer did, and of each port of each box that the box received all that it put (`Servers.antt`).
//!
//! The configuration, and the desks of sessions with their workers, stand in crates of their own below this one, and are
//! exported again.
//!
//! Its tests stand in `crates/test_edge`.
#![tactic(auto)]

pub(crate) mod close;
mod hosted;
pub mod laws;
mod server;
pub(crate) mod wired;

pub use close::close_fault::{CloseCause, CloseFault};
pub use close::report::{Report, SubjectReport};
pub use close::report_lines::write_report_lines;
pub use rx_config::{Budget, Config, ConfigError, SubjectConfig, read_config};
pub use rx_desk::{Grants, SharedStop, Stop};
pub use rx_face::{Closer, Doorway, Entrance};
pub use rx_http::Epoch;
pub use rx_session::response_to;
pub use rx_workers::{
    AcceptFault, AcceptStop, Aim, ClientSink, Idle, Joined, Listener, Moments, Readiness, Ready,
    RunningWorker, ServeFault, SessionDesk, SharedMoments, Waker, Watch, WatchFault, Worker,
    WorkerEnd, accept_all, serve_connections, start_worker,
};
pub use server::{Server, start, start_unread};
pub use wired::start_fault::{Role, StartCause, StartFault};
