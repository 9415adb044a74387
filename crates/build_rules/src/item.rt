use mib_model::Name;

/// A value that a packet is to have: its parameter's name, and its raw number, which is 0 for a sort without one.
#[derive(Clone, Copy)]
pub struct Item {
    pub name: Name,
    pub raw: i128,
}
