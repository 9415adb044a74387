// What is known of a value ahead.
use mib_model::Eng;

/// What is known of a value before it is known what is kept.
#[derive(Clone, Copy)]
pub enum Mark {
    /// Its line, with which nothing is told, and nothing else is kept.
    Told,
    /// Its line; it has this number, which is nominal.
    Nominal(Eng),
    /// Nothing: its line depends on what is kept.
    Open,
}
