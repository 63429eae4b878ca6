//! The line protocol: which lines a session and a script take, what each means, and how responses and notes are printed.
//!
//! Nothing here reads or serves: a line comes in as its bytes, and what is printed goes to a writer. The crates above rest
//! on one fact: [`parse_line`] and [`parse_script`] accept exactly the lines of the grammar (`specs/Grammar.antt`), each
//! with its meaning. [`laws`] says so both ways, and that what is printed tells what was meant.
//!
//! Its tests stand in `crates/test_core`.
#![tactic(auto)]

mod command;
mod decimal;
mod grammar;
pub mod laws;
mod line;
mod line_bytes;
mod line_error;
mod name;
mod parser;
mod printer;
mod response;
mod script_line;
mod version;
mod word;
mod words;
mod writer;

pub use command::Command;
pub use decimal::{MAX_DIGITS, write_digits};
pub use grammar::{MAX_LINE, read_line_without_lf, read_script_without_lf};
pub use line::Line;
pub use line_bytes::LineBytes;
pub use line_error::{BadLine, LineError};
pub use name::Name;
pub use parser::{parse_line, parse_script};
pub use printer::{item_origin, refusal_line, reply_line};
pub use response::Response;
pub use script_line::ScriptLine;
pub use version::Version;
pub use word::Word;
pub use writer::{WriteFault, write_bytes, write_joined, write_note, write_reply};
