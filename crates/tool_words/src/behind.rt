// The words of a program that has one command of its own.
ghost use Rattle.std.specs.Prelude.{◌≡◌, [], codes, map, string_bytes, Some, option_map};
ghost use Rattle.run_model.specs.Words as Words;
ghost use Rattle.tool_words.specs.Behind as Spec;
ghost use Rattle.tool_words.specs.Requests.{texts};

// Whether a word names standard input.
fn is_standard(word: &str) -> bool
    ensures { result ≡ Words.is_standard word.now }
{
    word == "-"
}

/// Whether more than one of the names is standard input.
pub(crate) fn share_standard(names: &[&str]) -> bool
    ensures { result ≡ Spec.share_standard (texts names.now) }
{
    names.iter().filter(|name| is_standard(name)).count() > 1
}

/// The words behind the first, where that is this command.
pub(crate) fn words_behind<'a>(command: &str, words: &'a [String]) -> Option<&'a [String]>
    ensures { option_map (λ rest. map string_bytes rest.now) result ≡ Spec.words_behind command.now (map string_bytes words.now) }
{
    match words {
        [word, rest @ ..] if word.as_str() == command => Some(rest),
        _ => None,
    }
}
