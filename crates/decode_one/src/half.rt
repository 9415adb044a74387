use mib_model::{Ended, Found, Header};

/// A packet that was decoded: its header, what it is, how its values end, and how many there are.
#[derive(Clone, Copy)]
pub struct Half {
    pub header: Header,
    pub found: Found,
    pub ended: Ended,
    pub used: u32,
}
