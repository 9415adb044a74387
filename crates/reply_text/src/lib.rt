//! The lines of replies to a desk and of exit codes.
//!
//! Each call appends exactly the text that a definition of `run_model` gives to a `Line`, and takes no memory. It rests on
//! `mib_model` and `run_model` for definitions and types, and on `itoa` for numbers.
#![tactic(auto)]

mod code;
mod fault;
mod reply;

pub use code::code_line;
pub use fault::add_number;
pub use reply::reply_line;
