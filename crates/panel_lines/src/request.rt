//! The request that a line is.
ghost use Rattle.std.specs.Prelude.{◌≡◌, ◌⊎◌, true, false, codes};
ghost use Rattle.std.specs.Str.{bytes_eq};
ghost use Rattle.std.specs.Str.Lines.{strip_carriage_return};
ghost use Rattle.run_model.specs.DeskLines as Spec;
ghost use Rattle.panel_lines.specs.Requests.{panel_asked};

use desk_lines::{Request, request_of};

/// What a line asks a desk among several for.
#[derive(Clone, Copy)]
pub enum PanelLine<'a> {
    /// The newest edition.
    Take,
    /// What a single desk is asked for too.
    Plain(Request<'a>),
}

// Whether a line, without a CR at its end, is the word `take`.

fn is_take(line: &[u8]) -> bool
    ensures { result ≡ bytes_eq (strip_carriage_return line.now) (codes "take") }
{
    let text = if line.last() == Some(&b'\r') {
        &line[..line.len() - 1]
    } else {
        line
    };
    text == b"take".as_slice()
}

/// What a line asks a desk among several for.
pub fn panel_request_of(line: &[u8]) -> PanelLine<'_>
    ensures { panel_asked result ≡ Spec.request_of true line.now }
{
    if is_take(line) {
        PanelLine::Take
    } else {
        PanelLine::Plain(request_of(line))
    }
}
