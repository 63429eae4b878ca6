//! The configuration of a server: its subjects, how many threads and connections it has, and where it tells events over HTTP;
//! and how it is told to whoever wrote it.
//!
//! [`read_config`] reads it from the bytes of a TOML text, [`config_lines`] tells one that was accepted, and [`advise`] which
//! keys of one that was refused are at fault. Nothing here opens a file, and nothing is made of a configuration but the
//! [`Budget`] of a subject that has one: the rest is for the crates above.
//!
//! They rest on what a configuration says (`specs/Configurations.antt`): exactly the settings that stand in its table, or the
//! first cause that holds; on the ranges that each [`Config`] and each [`SubjectConfig`] keeps; and on the lines of its
//! settings (`specs/Listings.antt`). What is told of a refused one no contract says.
//!
//! Its tests stand in `crates/test_scripts`.
#![tactic(auto)]

mod budget;
mod config;
mod config_error;
mod http;
mod keys;
mod listing;
mod reader;
mod subject_config;

pub use budget::Budget;
pub use config::Config;
pub use config_error::ConfigError;
pub use http::Http;
pub use listing::lines::config_lines;
pub use listing::refusal::advise;
pub use listing::shown::Shown;
pub use reader::read_config;
pub use subject_config::SubjectConfig;
