//! Scripts: the lines of a reader, each of which asks something of a subject of a configuration.
//!
//! [`run_script`] has the subjects' hubs take what the lines ask, and writes each answer and each note that is given at once
//! (`specs/Transcripts.antt`). [`run_audit`] answers no line: it prints at the end what the stored histories of the same lines
//! say of each observer (`specs/Audits.antt`). Nothing here waits, and nothing is of a server but its configuration.
//!
//! Its tests stand in `crates/test_scripts`.
#![tactic(auto)]

mod asked;
mod audit;
mod ledger;
mod ledger_list;
mod line_event;
mod observed;
mod printed_note;
mod script;
mod told;
mod topic;

pub use audit::run_audit;
pub use script::run_script;
