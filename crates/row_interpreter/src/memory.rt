ghost use Rattle.std.specs.Prelude.{◌≡◌, OnOk};
ghost use Rattle.mib_model.specs.Kept as Spec;
ghost use Rattle.row_interpreter.specs.Memories.{kept_as, memory_of};

use crate::kept::KeptOf;
use mib_model::Name;
use std::alloc::{AllocError, Global};
use std::collections::HashMap;

/// What is kept of each parameter from packet to packet. Contracts see what is kept of every name, by `memory_of`.
pub struct Memory {
    kept: HashMap<Name, KeptOf>,
}

/// By hand, so that whoever lets one go proves one call.
impl Drop for Memory {
    fn drop(self) {
        let Memory { kept: _kept } = self;
    }
}

impl Memory {
    /// At the start nothing is kept.
    pub fn new(alloc: Global) -> Memory
        ensures { memory_of result ≡ Spec.empty_memory }
    {
        Memory {
            kept: HashMap::new(alloc),
        }
    }

    /// What is kept of a name.
    pub fn of(&self, name: &Name) -> KeptOf
        ensures { kept_as result ≡ memory_of self.now name.now }
    {
        match self.kept.get(name) {
            Some(kept) => *kept,
            None => KeptOf {
                latest: None,
                spoken: None,
                run: 0,
                previous: None,
            },
        }
    }

    /// Keeps something else of one name. An error is want of memory.
    pub fn keep(&mut self, name: Name, kept: KeptOf) -> Result<(), AllocError>
        ensures kept { OnOk result (memory_of self.new ≡ Spec.keeping (memory_of self.old) name (kept_as kept)) }
    {
        self.kept.insert(name, kept)?;
        Ok(())
    }

    /// Whether the latest raw number of a name is this number.
    pub fn holds(&self, name: &Name, number: i128) -> bool
        ensures { result ≡ Spec.holds (memory_of self.now) name.now number }
    {
        self.of(name).latest == Some(number)
    }

    /// Whether there is no condition, or one that holds.
    pub fn is_met(&self, name: &Option<Name>, number: i128) -> bool
        ensures { result ≡ Spec.is_met (memory_of self.now) name.now number }
    {
        match name {
            Some(name) => self.holds(name, number),
            None => true,
        }
    }
}
