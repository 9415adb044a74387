// The end of a line.
ghost use Rattle.std.specs.Prelude.{◌≡◌};
ghost use Rattle.std.specs.Str.Lines.{strip_carriage_return};

/// A piece without the one CR at its end.
pub fn without_return(piece: &[u8]) -> &[u8]
    ensures { result.now ≡ strip_carriage_return piece.now }
{
    match piece.strip_suffix(b"\r") {
        Some(line) => line,
        None => piece,
    }
}
