// The lines of a text.
ghost use Rattle.std.specs.Prelude.{◌≡◌, ◌≤◌, ◌<◌, ◌+◌, ◌∷◌, [], IfNone, IfSome, drop, length, take};
ghost use Rattle.std.specs.List.{before_first, position, position_or_len};
ghost use Rattle.mib_model.specs.Lines.{is_feed};
ghost use Rattle.tm_audit.specs.TextLines.{text_lines};

// Where the first LF stands, if there is one.
fn feed_place(text: &[u8]) -> Option<usize>
    ensures { result ≡ position is_feed text.now }
{
    text.iter().position(|octet| *octet == b'\n')
}

// How many octets stand before the first LF, or all where there is none.
#[tactic(auto, using(crate::proofs::LineFacts::places))]
fn before_feed(text: &[u8]) -> usize
    ensures place { result ≡ position_or_len is_feed text.now }
    ensures fits { result ≤ length text.now }
{
    match feed_place(text) {
        Some(at) => at,
        None => text.len(),
    }
}

// How many octets the first line of a text has, its LF among them.
fn line_size(text: &[u8]) -> usize
    requires { 0 < length text.now }
    ensures some { 0 < result }
    ensures fits { result ≤ length text.now }
    ensures lines { text_lines text.now ≡ take result text.now ∷ text_lines (drop result text.now) }
{
    let before = before_feed(text);
    if before < text.len() {
        before + 1
    } else {
        before
    }
}

/// The first line of a text, its LF with it, and what stands behind it, if there is a line.
pub(crate) fn cut_line(text: &[u8]) -> Option<(&[u8], &[u8])>
    ensures lines { IfSome result (λ parts. text_lines text.now ≡ parts.0.now ∷ text_lines parts.1.now) }
    ensures shorter { IfSome result (λ parts. length parts.1.now < length text.now) }
    ensures none { IfNone result (text_lines text.now ≡ []) }
{
    if text.is_empty() {
        return None;
    }
    let size = line_size(text);
    Some((&text[..size], &text[size..]))
}

/// A line without its LF.
pub(crate) fn without_feed(line: &[u8]) -> &[u8]
    ensures { result.now ≡ before_first is_feed line.now }
{
    &line[..before_feed(line)]
}
