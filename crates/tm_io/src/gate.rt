/// What a worker calls before it works on a packet. A call changes nothing that a clause speaks of, and returns.
pub trait Gate {
    /// `n` is the packet's number, from 1 on.
    fn before(&self, n: u64);
}

/// A gate that lets every packet through at once.
#[derive(Clone, Copy, Debug)]
pub struct NoGate;

impl Gate for NoGate {
    fn before(&self, _n: u64) {}
}
