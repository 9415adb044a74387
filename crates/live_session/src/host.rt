use std::alloc::Global;

/// What a live run shares with its threads: the runtime, the allocator, and the gate that a worker calls before it works on a packet.
pub struct Host<'a, R, G> {
    pub rt: &'a R,
    pub alloc: Global,
    pub gate: &'a G,
}

/// By hand, so that it asks nothing of `R` and `G`.
impl<'a, R, G> Drop for Host<'a, R, G> {
    fn drop(self) {
        let Host {
            rt: _,
            alloc: _,
            gate: _,
        } = self;
    }
}
