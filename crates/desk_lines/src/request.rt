ghost use Rattle.std.specs.Prelude.{◌≡◌, ◌==◌, ◌<◌, ◌∷◌, [], ℕ, false, List, length, IfSome, option_map};
ghost use Rattle.std.specs.List.{position};
ghost use Rattle.std.specs.Result.{result_map_both};
ghost use Rattle.std.specs.Str.Lines.{strip_carriage_return};
ghost use Rattle.run_model.specs.DeskLines as Spec;
ghost use Rattle.mib_model.specs.Digits.{natural_in};
ghost use Rattle.mib_model.specs.declared.kind.Kind.{Kind};
ghost use Rattle.desk_lines.specs.Requests.{asked, cut, from_in, only, table_order};

use dec_num::{are_digits, digits_number};
use mib_model::Kind;

/// The most octets of a line.
pub const LINE_MOST: usize = 4_096;

/// What a line asks for.
#[derive(Clone, Copy)]
pub enum Request<'a> {
    Comment,
    TooLong,
    BadLine,
    BadTable,
    /// A row, as its line.
    Put { table: Kind, row: &'a [u8] },
    /// A key, as the fields of its columns.
    Delete { table: Kind, key: &'a [u8] },
    Save,
    Drop,
    /// An edition, 0 for a number that is none.
    Use { edition: u32 },
    /// An edition, 0 for a number that is none, and the packet from which on it is used.
    UseFrom { edition: u32, from: u64 },
    Go,
}

/// A line without the CR at its end.
pub fn without_return(line: &[u8]) -> &[u8]
    ensures { result.now ≡ strip_carriage_return line.now }
{
    if line.last() == Some(&b'\r') {
        &line[..line.len() - 1]
    } else {
        line
    }
}

/// Whether a text is empty or a comment.
pub fn is_comment(text: &[u8]) -> bool
    ensures { result ≡ Spec.is_comment text.now }
{
    match text {
        [] => true,
        [first, ..] => *first == b'#',
    }
}

// The place of the first octet of that kind.
fn place_of(text: &[u8], octet: u8) -> Option<usize>
    ensures place { result ≡ position (λ other. other == octet) text.now }
    ensures inside { IfSome result (λ place. place < length text.now) }
{
    text.iter().position(|&other| other == octet)
}

// The parts of a text before and behind its first octet of that kind.
fn cut_at(text: &[u8], octet: u8) -> Option<(&[u8], &[u8])>
    ensures { option_map (λ parts. (parts.0.now, parts.1.now)) result ≡ cut (λ other. other == octet) text.now }
{
    match place_of(text, octet) {
        Some(place) => Some((&text[..place], &text[place + 1..])),
        None => None,
    }
}

// The text, where it is one word.
#[tactic(auto, using(crate::proofs::WordFacts::only_cut, crate::proofs::WordFacts::only_whole))]
fn only_word(text: &[u8]) -> Option<&[u8]>
    ensures { option_map (λ word. word.now) result ≡ only (Spec.words_of text.now) }
{
    match cut_at(text, b' ') {
        Some(_) => None,
        None => Some(text),
    }
}

fn is_word(word: &[u8]) -> bool
    ensures { result ≡ Spec.is_word word.now }
{
    !word.is_empty() && !word.contains(&b' ')
}

fn natural(word: &[u8]) -> Option<u64>
    ensures { result ≡ natural_in word.now }
{
    if !are_digits(word, 1, 20) {
        return None;
    }
    u64::try_from(digits_number(word)).ok()
}

fn edition_in(word: &[u8]) -> Option<u32>
    ensures { result ≡ Spec.edition_in word.now }
{
    let number = natural(word)?;
    Some(u32::try_from(number).unwrap_or(0))
}

// The table and what stands behind the TAB after its name.
#[tactic(auto, using(crate::proofs::WordFacts::table_cut, crate::proofs::WordFacts::table_whole))]
fn on_table(rest: &[u8]) -> Result<(Kind, &[u8]), Request<'_>>
    ensures { (make : Kind → List ℕ → Spec.Request) → Spec.table_request make rest.now
        ≡ table_order make (result_map_both (λ parts. (parts.0, parts.1.now)) (λ other. other) result) }
{
    let Some((word, text)) = cut_at(rest, b'\t') else {
        return Err(Request::BadLine);
    };
    if !is_word(word) {
        return Err(Request::BadLine);
    }
    match Kind::from_name(word) {
        Some(table) => Ok((table, text)),
        None => Err(Request::BadTable),
    }
}

fn put_request(rest: &[u8]) -> Request<'_>
    ensures { asked result ≡ Spec.table_request Spec.Put rest.now }
{
    match on_table(rest) {
        Ok((table, row)) => Request::Put { table, row },
        Err(other) => other,
    }
}

fn delete_request(rest: &[u8]) -> Request<'_>
    ensures { asked result ≡ Spec.table_request Spec.Delete rest.now }
{
    match on_table(rest) {
        Ok((table, key)) => Request::Delete { table, key },
        Err(other) => other,
    }
}

// The number behind `from `, which is the last word.
#[tactic(auto, using(crate::proofs::WordFacts::from_cut, crate::proofs::WordFacts::from_whole))]
fn from_number(text: &[u8]) -> Option<u64>
    ensures { result ≡ from_in (Spec.words_of text.now) }
{
    let Some((word, rest)) = cut_at(text, b' ') else {
        return None;
    };
    if word != b"from".as_slice() {
        return None;
    }
    match only_word(rest) {
        Some(number) => natural(number),
        None => None,
    }
}

#[tactic(auto, using(crate::proofs::WordFacts::use_cut, crate::proofs::WordFacts::use_whole))]
fn use_request(text: &[u8]) -> Option<Request<'_>>
    ensures { option_map asked result ≡ Spec.use_request (Spec.words_of text.now) }
{
    let Some((word, rest)) = cut_at(text, b' ') else {
        return match edition_in(text) {
            Some(edition) => Some(Request::Use { edition }),
            None => None,
        };
    };
    match (edition_in(word), from_number(rest)) {
        (Some(edition), Some(from)) => Some(Request::UseFrom { edition, from }),
        _ => None,
    }
}

// A line that is one word.
fn single_word(word: &[u8]) -> Option<Request<'_>>
    ensures { option_map asked result ≡ Spec.word_request false (word.now ∷ []) }
{
    match word {
        b"save" => Some(Request::Save),
        b"drop" => Some(Request::Drop),
        b"go" => Some(Request::Go),
        _ => None,
    }
}

#[tactic(auto, using(crate::proofs::WordFacts::word_cut, crate::proofs::WordFacts::word_whole))]
fn word_request(text: &[u8]) -> Option<Request<'_>>
    ensures { option_map asked result ≡ Spec.word_request false (Spec.words_of text.now) }
{
    let Some((word, rest)) = cut_at(text, b' ') else {
        return single_word(text);
    };
    if word == b"use".as_slice() {
        use_request(rest)
    } else {
        None
    }
}

// What a line asks for that is no comment and not too long.
fn request_in(text: &[u8]) -> Request<'_>
    ensures { asked result ≡ Spec.request_in false text.now }
{
    if text.starts_with(b"put ") {
        return put_request(&text[4..]);
    }
    if text.starts_with(b"del ") {
        return delete_request(&text[4..]);
    }
    match word_request(text) {
        Some(request) => request,
        None => Request::BadLine,
    }
}

/// What a line asks for; a comment may have any length.
#[tactic(auto, unfolding(run_model::specs::DeskLines::request_of))]
pub fn request_of(line: &[u8]) -> Request<'_>
    ensures { asked result ≡ Spec.request_of false line.now }
{
    let text = without_return(line);
    if is_comment(text) {
        return Request::Comment;
    }
    if line.len() > LINE_MOST {
        return Request::TooLong;
    }
    request_in(text)
}
