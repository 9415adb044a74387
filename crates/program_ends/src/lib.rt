//! The two ends of a program: the words of its command line, and the line and the status with which it ends.
//!
//! `arguments` gives the words behind the program's name. An `Ending` has the status of a call and the line that tells it, which `tell` writes
//! to standard error. It stands on `mib_model` for lines and on `tool_words` for what may be wrong with words.
#![tactic(auto)]

mod ending;
mod words;

pub use ending::Ending;
pub use words::arguments;
