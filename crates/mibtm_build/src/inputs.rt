// The words of the command: a folder of tables, and the file of asks.
ghost use Rattle.std.specs.Prelude.{◌≡◌, ◌∷◌, [], map, string_bytes, option_map};
ghost use Rattle.std.specs.Result.{result_map_both};
ghost use Rattle.run_model.specs.Words as Spec;
ghost use Rattle.mibtm_build.specs.Operands.{inputs_by, inputs_in, named, two};

use run_model::Misuse;

/// A folder of tables, and the file of asks.
#[derive(Clone, Copy)]
pub(crate) struct BuildInputs<'a> {
    pub folder: &'a str,
    pub asks: &'a str,
}

// Whether a word that stands before `--` is an option.
fn is_option(word: &str) -> bool
    ensures { result ≡ Spec.is_option word.now }
{
    word.starts_with('-') && word != "-"
}

// Two words, of which none is an option.
fn plain<'a>(folder: &'a str, asks: &'a str) -> Option<BuildInputs<'a>>
    ensures { option_map named result ≡ inputs_by (folder.now ∷ asks.now ∷ []) }
{
    if is_option(folder) {
        return None;
    }
    if is_option(asks) {
        return None;
    }
    Some(BuildInputs { folder, asks })
}

// Three words, of which one ends the options.
fn around_end<'a>(first: &'a str, second: &'a str, third: &'a str) -> Option<BuildInputs<'a>>
    ensures { option_map named result ≡ inputs_by (first.now ∷ second.now ∷ third.now ∷ []) }
{
    if first == "--" {
        return Some(BuildInputs {
            folder: second,
            asks: third,
        });
    }
    if is_option(first) {
        return None;
    }
    if second == "--" {
        return Some(BuildInputs {
            folder: first,
            asks: third,
        });
    }
    if is_option(second) {
        return None;
    }
    if third == "--" {
        return Some(BuildInputs {
            folder: first,
            asks: second,
        });
    }
    None
}

// The inputs that the words behind the command are.
fn inputs_of(words: &[String]) -> Option<BuildInputs<'_>>
    ensures { option_map named result ≡ inputs_by (map string_bytes words.now) }
{
    match words {
        [] => None,
        [_] => None,
        [folder, asks] => plain(folder.as_str(), asks.as_str()),
        [first, second, third] => around_end(first.as_str(), second.as_str(), third.as_str()),
        _ => None,
    }
}

/// The inputs that the words behind the program's name are.
pub(crate) fn inputs_in(words: &[String]) -> Result<BuildInputs<'_>, Misuse>
    ensures { result_map_both named (λ misuse. misuse) result ≡ inputs_in (map string_bytes words.now) }
{
    match words {
        [] => Err(Misuse::Command),
        [command, rest @ ..] => {
            if command.as_str() == "build" {
                match inputs_of(rest) {
                    Some(inputs) => Ok(inputs),
                    None => Err(Misuse::Words),
                }
            } else {
                Err(Misuse::Command)
            }
        }
    }
}
