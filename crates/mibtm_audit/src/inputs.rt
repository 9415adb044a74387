// The words of the command: a folder of tables, a feed, a desk's script and a printed text.
ghost use Rattle.std.specs.Prelude.{◌≡◌, ◌≤◌, ◌<◌, length, map, option_map, string_bytes};
ghost use Rattle.std.specs.List.{list_any, position, position_or_len, slice_index_or};
ghost use Rattle.std.specs.Result.{result_map_both};
ghost use Rattle.run_model.specs.Words as Spec;
ghost use Rattle.mibtm_audit.specs.Operands.{ends_options, four, inputs_by, inputs_in, is_shared, named, without};

use run_model::Misuse;

/// A folder of tables, a feed, a desk's script and a printed text.
#[derive(Clone, Copy)]
pub(crate) struct AuditInputs<'a> {
    pub folder: &'a str,
    pub feed: &'a str,
    pub desk: &'a str,
    pub text: &'a str,
}

// Whether a word that stands before `--` is an option.
fn is_option(word: &str) -> bool
    ensures { result ≡ Spec.is_option word.now }
{
    word.starts_with('-') && word != "-"
}

// Whether a word ends the options.
fn is_end(word: &str) -> bool
    ensures { result ≡ ends_options word.now }
{
    word == "--"
}

// Where the word stands that ends the options, if there is one.
fn end_place(words: &[String]) -> Option<usize>
    ensures { result ≡ position (λ word. ends_options (string_bytes word)) words.now }
{
    words.iter().position(|word| is_end(word.as_str()))
}

// How many words stand before the one that ends the options.
#[tactic(auto, using(tm_audit::proofs::LineFacts::places))]
fn before_end(words: &[String]) -> usize
    ensures place { result ≡ position_or_len (λ word. ends_options (string_bytes word)) words.now }
    ensures fits { result ≤ length words.now }
{
    match end_place(words) {
        Some(at) => at,
        None => words.len(),
    }
}

// Whether one of the words is an option.
fn has_option(words: &[String]) -> bool
    ensures { result ≡ list_any (λ word. Spec.is_option (string_bytes word)) words.now }
{
    words.iter().any(|word| is_option(word.as_str()))
}

// How many words there are without the one at `end`.
fn count_without(words: &[String], end: usize) -> usize
    requires { end ≤ length words.now }
    ensures { result ≡ length (without end (map string_bytes words.now)) }
{
    if end < words.len() {
        words.len() - 1
    } else {
        words.len()
    }
}

// A word, by its place among all but the one at `end`.
fn operand(words: &[String], end: usize, at: usize) -> &str
    requires end { end ≤ length words.now }
    requires within { at < length (without end (map string_bytes words.now)) }
    ensures { result.now ≡ slice_index_or (without end (map string_bytes words.now)) at result.now }
{
    if at < end {
        return words[at].as_str();
    }
    words[at + 1].as_str()
}

// Whether more than one of the inputs is standard input.
fn is_shared(feed: &str, desk: &str, text: &str) -> bool
    ensures { result ≡ is_shared feed.now desk.now text.now }
{
    if feed == "-" {
        return desk == "-" || text == "-";
    }
    desk == "-" && text == "-"
}

// The inputs that four words name, which are all but the one at `end`.
fn inputs_at(words: &[String], end: usize) -> Option<AuditInputs<'_>>
    requires end { end ≤ length words.now }
    requires four { length (without end (map string_bytes words.now)) ≡ 4 }
    ensures { option_map named result ≡ four (without end (map string_bytes words.now)) }
{
    let feed = operand(words, end, 1);
    let desk = operand(words, end, 2);
    let text = operand(words, end, 3);
    if is_shared(feed, desk, text) {
        return None;
    }
    Some(AuditInputs {
        folder: operand(words, end, 0),
        feed,
        desk,
        text,
    })
}

// The inputs that the words behind the command are.
fn inputs_of(words: &[String]) -> Option<AuditInputs<'_>>
    ensures { option_map named result ≡ inputs_by (map string_bytes words.now) }
{
    let end = before_end(words);
    if has_option(&words[..end]) {
        return None;
    }
    if count_without(words, end) != 4 {
        return None;
    }
    inputs_at(words, end)
}

/// The inputs that the words behind the program's name are.
pub(crate) fn inputs_in(words: &[String]) -> Result<AuditInputs<'_>, Misuse>
    ensures { result_map_both named (λ misuse. misuse) result ≡ inputs_in (map string_bytes words.now) }
{
    match words {
        [] => Err(Misuse::Command),
        [command, rest @ ..] => {
            if command.as_str() == "audit" {
                match inputs_of(rest) {
                    Some(inputs) => Ok(inputs),
                    None => Err(Misuse::Words),
                }
            } else {
                Err(Misuse::Command)
            }
        }
    }
}
