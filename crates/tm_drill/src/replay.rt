ghost use Rattle.std.specs.Prelude.{◌≡◌, Some};

use tm_io::{Failed, Source};

/// A feed in memory, which is read from its start on. It never fails.
#[derive(Drop)]
pub struct Replay<'a> {
    rest: &'a [u8],
}

impl<'a> Replay<'a> {
    /// A feed that has these octets.
    pub fn new(octets: &'a [u8]) -> Replay<'a>
        ensures { ⟦<Replay<'a> as Source>⟧.left result ≡ Some octets.now }
    {
        Replay { rest: octets }
    }
}

impl Source for Replay<'_> {
    ghost left = { λ replay. Some replay.rest.now };

    ghost faults = { λ _. 0 };

    fn read(&mut self, buf: &mut [u8]) -> Result<usize, Failed> {
        let count = buf.len().min(self.rest.len());
        buf[..count].copy_from_slice(&self.rest[..count]);
        self.rest = &self.rest[count..];
        Ok(count)
    }

    fn at_hand(&self) -> &[u8] {
        self.rest
    }
}
