//! The line of one value, drawn with a mark as far as it doesn't depend on what is kept.
//!
//! `draw_at` draws it by the plan at a place alone, so any thread may do it. A `Mark` says what is known: the line, with which nothing is told (`Told`); the
//! line of a number that is nominal whatever is kept (`Nominal`); or nothing, where the line depends on what is kept (`Open`). It rests on `param_state` for
//! what plans make of values and on `record_text` for the line.
#![tactic(auto)]

mod drawing;
mod mark;

pub use drawing::draw_at;
pub use mark::Mark;
