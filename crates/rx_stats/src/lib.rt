//! What is seen of the subjects of a server and of its connections, put together for who looks: as JSON, in the text format of Prometheus, as plain lines, or as a page for a browser.
//!
//! What is seen of a subject is exact (`rx_hub`'s `Hub::look`); the connections are counted by a [`Crowd`], of which nothing is promised. How it is told no clause says: it is tried over the program, in `tests/events`.
#![tactic(auto)]

mod browser_page;
mod crowd;
mod gauge;
mod lines;
mod metrics;
mod page;
mod pieces;
mod stats;
mod words;

pub use crowd::crowd_look::CrowdLook;
pub use crowd::door::Door;
pub use crowd::door_look::DoorLook;
pub use crowd::guest::Guest;
pub use crowd::{Crowd, SharedCrowd};
pub use page::page_of;
