//! The smallest machine.
ghost use Rattle.std.specs.Prelude.{◌+◌, ◌%◌, ◌^◌};

use crate::machine::Machine;

/// A sum modulo 2^64. An entry is an amount that is added, and the reply is the sum before it.
#[derive(Drop)]
pub struct Sum {
    pub total: u64,
}

impl Machine for Sum {
    type Entry = u64;

    type Reply = u64;

    type State = u64;

    type Event = u64;

    type Answer = u64;

    ghost state = { λ sum. sum.total };

    ghost event = { λ amount. amount };

    ghost answer = { λ before. before };

    ghost reply = { λ total amount. total };

    ghost after = { λ total amount. (total + amount) % 2 ^ 64 };

    ghost fits = { λ total amount. Unit {0} };

    ghost gives = { λ total amount before. Unit {0} };

    ghost may = { λ number amount. Unit {0} };

    fn act(&mut self, entry: u64) -> u64 {
        let before = self.total;
        self.total = self.total.wrapping_add(entry);
        before
    }
}
