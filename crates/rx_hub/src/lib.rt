//! The core of one subject: a hub takes the subject's events one by one and gives each observer its notes.
//!
//! It starts no thread, waits for nothing and reaches nothing outside. The crates above rest on one contract, exact
//! delivery: for every history that a hub stands for, a step answers and gives what `rx_history` defines for that
//! history and the event, and the hub then stands for the history with the event.
//!
//! Its tests stand in `crates/test_core`.
#![tactic(auto)]

mod audience;
mod backlog;
mod emission;
mod hub;
mod multicast;
mod no_observer;
mod observer_look;
mod passes;
mod run;
mod seat;
mod step;
mod subject_end;
mod subject_look;
mod subscription;

pub use backlog::Backlog;
pub use hub::{Hub, HubError};
pub use no_observer::NoObserver;
pub use observer_look::ObserverLook;
pub use run::Run;
pub use rx_note::Given;
pub use step::Step;
pub use subject_end::SubjectEnd;
pub use subject_look::SubjectLook;
