//! Soundness of a monitoring database: the first flaw of its tables, by table, row and code.
//!
//! `sound` answers `Ok` exactly where no flaw stands, and else exactly the first. It notes the key of each row once, and asks
//! `row_flaws` what else is wrong with a row. `sound_by` answers it of a book whose index is at hand, and `sound_beside` of a
//! book beside a sound base, of which it tests the tables alone that read something new. It rests on the definitions of
//! `mib_model`, on the `Book` of `mib_tables`, on `mib_index` for rows by their keys, on `row_flaws` for the rules of each table,
//! and on `row_laws` and `row_sameness` for rows that are the same.
#![tactic(auto)]

mod beside;
mod fault;
mod kept;
mod keyed;
mod known;
mod read;
mod soundness;
mod twice;

pub use beside::{sound_beside, sound_with};
pub use fault::SoundFault;
pub use kept::same_tables;
pub use known::{all_tables, same_beside, without};
pub use soundness::{sound, sound_by};
