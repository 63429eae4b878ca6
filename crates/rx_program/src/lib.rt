//! The program `rxline` as a library: its command line, its faults, and a configuration served on a Unix socket.
//!
//! [`read_words`] says what a command line asks for (`specs/CommandLines.antt`), and [`run_words`] is the program over any
//! streams (`specs/Programs.antt`). It runs and audits scripts by `rx_script`, tells a configuration by `rx_config`, and serves by
//! `rx_server`.
//!
//! Its tests stand in `crates/test_program`, `crates/test_edge` and `tests/program`.
#![tactic(auto)]

pub(crate) mod command_line;
pub(crate) mod notices;
pub(crate) mod program;
pub(crate) mod socket;

pub use command_line::read_words;
pub use command_line::subscription::Subscription;
pub use command_line::task::Task;
pub use notices::about::About;
pub use notices::cause::{CAUSES, Cause, EACH};
pub use notices::counted::{Notices, SharedNotices};
pub use notices::notice_line::write_notice;
pub use notices::patience::Patience;
pub use notices::rate::Rate;
pub use notices::subject_line::{write_end, write_refusal};
pub use notices::telling::Telling;
pub use program::host::Host;
pub use program::program_fault::ProgramFault;
pub use program::run_words;
pub use program::told_fault::tell;
pub use rx_client::Plain;
pub use socket::Socket;
pub use socket::face_closer::FaceCloser;
pub use socket::face_socket::FaceSocket;
pub use socket::gathering::MOST_WAITING;
pub use socket::incoming::Incoming;
pub use socket::link::Link;
pub use socket::outgoing::Outgoing;
pub use socket::poll_waker::PollWaker;
pub use socket::polling::Polling;
pub use socket::terms::Terms;
