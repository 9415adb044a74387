ghost use Rattle.std.specs.Prelude.{◌≡◌, ◌≤◌, [], length};

use mib_model::Line;
use std::io::Write;

/// How a program ends: its status, and the line that tells it, with room for its line feed.
#[derive(Drop)]
pub struct Ending {
    status: u8,
    line: Line,
    ghost short: { length line ≤ 150 },
}

impl Ending {
    /// The ending of this status and this line, which is empty where nothing is to be told.
    pub fn new(status: u8, line: Line) -> Ending
        requires { length line ≤ 150 }
        ensures status { result.status ≡ status }
        ensures line { result.line ≡ line }
    {
        Ending { status, line }
    }

    /// Writes the line to standard error, unless it is empty, and gives the status.
    pub fn tell<W: Write>(self, stderr: &mut W) -> u8
        ensures status { result ≡ self.status }
        ensures silent { self.line ≡ [] → stderr.new ≡ stderr.old }
    {
        let Ending { status, mut line } = self;
        if line.bytes().is_empty() {
            return status;
        }
        line.add(b"\n");
        // Nothing is left to tell a failure to.
        let _ = stderr.write_all(line.bytes());
        status
    }
}
