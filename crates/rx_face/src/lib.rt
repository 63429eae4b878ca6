//! The face of a server: a worker serves those who ask for events.
//!
//! A [`Face`] serves all connections that come to its [`Doorway`] by one desk, each by an exchange that has its turns among those of the
//! others; [`start_face`] has it serve in a thread of its own. Once an exchange has handed its writer over, its connection is watched
//! for the hang-up alone, and its observer disposed of then. The clients of a worker, and how their connections are watched, are those of
//! `rx_workers`. Nothing here makes a desk or opens a socket, and nothing is said of when a connection or a reply comes.
//!
//! The crates above rest on what [`Face::serve`] says (`specs/Facing.antt`): what the desk was asked for is what the exchanges ask for and
//! the disposals of their observers, in this order, and the desk comes back as these calls left it.
//!
//! What it does is tried over the program, in `tests/events`.
#![tactic(auto)]

mod attendance;
mod doorway;
mod entrance;
mod face;
mod running_face;

pub use doorway::{Closer, Doorway};
pub use entrance::Entrance;
pub use face::Face;
pub use running_face::{RunningFace, Unfaced, start_face};
