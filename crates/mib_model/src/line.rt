ghost use Rattle.std.specs.Prelude.{◌≡◌, ◌≤◌, ◌+◌, ◌++◌, [], length};
ghost use Rattle.mib_model.specs.declared.line.TheConstants.{LINE_ROOM};

use std::marker::Model;

/// The octets that a line has room for.
pub const LINE_ROOM: usize = 4200;

/// Octets that are being written, in a room of `N`.
#[derive(Drop)]
struct Buffer<const N: usize> {
    room: [u8; N],
    used: usize,
}

impl<const N: usize> Model for Buffer<N> {
    ghost use Rattle.std.specs.Prelude.{List, ℕ, take, ◌≤◌};

    ghost Value = { List ℕ };

    ghost view = { λ b. take b.used b.room };

    ghost invariant = { λ b. b.used ≤ N };
}

impl<const N: usize> Buffer<N> {
    fn new() -> Self
        ensures { result ≡ [] }
    {
        Buffer {
            room: [0; N],
            used: 0,
        }
    }

    fn clear(&mut self)
        ensures { self.new ≡ [] }
    {
        self.used = 0;
    }

    fn add(&mut self, octets: &[u8])
        requires { length self.old + length octets.now ≤ N }
        ensures { self.new ≡ self.old ++ octets.now }
    {
        let end = self.used + octets.len();
        let room = &mut self.room[..];
        room[self.used..end].copy_from_slice(octets);
        self.used = end;
    }

    fn bytes(&self) -> &[u8]
        ensures bytes { result.now ≡ self.now }
        ensures fits { length result.now ≤ N }
    {
        &self.room[..self.used]
    }
}

/// A line of text that is being written, with room for 4,200 octets. Contracts see the octets so far.
#[derive(Drop)]
pub struct Line {
    buffer: Buffer<LINE_ROOM>,
}

impl Model for Line {
    ghost use Rattle.std.specs.Prelude.{List, ℕ};

    ghost Value = { List ℕ };

    ghost view = { λ l. l.buffer };
}

impl Line {
    /// An empty line.
    pub fn new() -> Line
        ensures { result ≡ [] }
    {
        Line {
            buffer: Buffer::new(),
        }
    }

    /// Makes it empty again.
    pub fn clear(&mut self)
        ensures { self.new ≡ [] }
    {
        self.buffer.clear();
    }

    /// Appends octets, for which there must be room.
    pub fn add(&mut self, octets: &[u8])
        requires { length self.old + length octets.now ≤ LINE_ROOM }
        ensures text { self.new ≡ self.old ++ octets.now }
        ensures room { length self.new ≡ length self.old + length octets.now }
    {
        self.buffer.add(octets);
    }

    /// The octets so far.
    pub fn bytes(&self) -> &[u8]
        ensures bytes { result.now ≡ self.now }
        ensures fits { length result.now ≤ LINE_ROOM }
    {
        self.buffer.bytes()
    }
}
