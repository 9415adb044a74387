// The lines of a text.
ghost use Rattle.std.specs.Prelude.{◌≡◌, ◌∷◌, [], IfNone, IfSome};
ghost use Rattle.std.specs.Str.Lines.{strip_carriage_return};
ghost use Rattle.mib_model.specs.Lines.{lines_of};

// A piece without the one CR at its end.
fn without_return(piece: &[u8]) -> &[u8]
    ensures { result.now ≡ strip_carriage_return piece.now }
{
    match piece.strip_suffix(b"\r") {
        Some(line) => line,
        None => piece,
    }
}

/// The line that a piece between two LF octets is: none where it is empty without the one CR at its end.
#[tactic(auto, unfolding(mib_model::specs::Lines::lines_of))]
pub(crate) fn line_in(piece: &[u8]) -> Option<&[u8]>
    ensures line { IfSome result (λ line. lines_of (piece.now ∷ []) ≡ line.now ∷ []) }
    ensures none { IfNone result (lines_of (piece.now ∷ []) ≡ []) }
{
    let line = without_return(piece);
    if line.is_empty() {
        return None;
    }
    Some(line)
}
