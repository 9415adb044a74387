ghost use Rattle.std.specs.Prelude.{◌≡◌, map, string_bytes, option_map, option_and_then};
ghost use Rattle.mib_model.specs.Digits as Digits;
ghost use Rattle.run_model.specs.Words as Words;
ghost use Rattle.tool_words.specs.Requests.{texts, verb_of, asked, command_by, Asks};

use crate::line::{line_matches, values};
use dec_num::{are_digits, digits_number};
use run_model::Misuse;
use std::alloc::Global;

/// What the words ask for.
#[derive(Clone, Copy, Debug, PartialEq, Eq)]
pub enum ToolRequest<'a> {
    Check {
        folder: &'a str,
    },
    Decode {
        folder: &'a str,
        feed: &'a str,
        workers: u8,
    },
    Live {
        folder: &'a str,
        feed: &'a str,
        desk: &'a str,
        workers: u8,
    },
    Drill {
        seed: u64,
    },
}

/// Why words ask for nothing.
#[derive(Clone, Copy, Debug, PartialEq, Eq)]
pub enum WordsFault {
    Misuse(Misuse),
    /// Memory ran out.
    Memory,
}

/// The word of a command.
#[derive(Clone, Copy)]
enum Verb {
    Check,
    Decode,
    Live,
    Drill,
}

// The command that a word is.
fn verb_of(word: &str) -> Option<Verb>
    ensures { result ≡ verb_of word.now }
{
    match word {
        "check" => Some(Verb::Check),
        "decode" => Some(Verb::Decode),
        "live" => Some(Verb::Live),
        "drill" => Some(Verb::Drill),
        _ => None,
    }
}

// The number of workers that a word is.
fn workers_in(word: &str) -> Option<u8>
    ensures { result ≡ Words.workers_in word.now }
{
    let digits = word.as_bytes();
    if !are_digits(digits, 1, 2) {
        return None;
    }
    let number = digits_number(digits);
    if 1 <= number && number <= 16 {
        Some(number as u8)
    } else {
        None
    }
}

/// The number of workers by all words that give one.
pub(crate) fn workers_of(words: &[&str]) -> Option<u8>
    ensures { result ≡ Words.workers_of (texts words.now) }
{
    match words {
        [] => Some(1),
        [word] => workers_in(word),
        _ => None,
    }
}

// The seed that a word is.
fn natural_in(word: &str) -> Option<u64>
    ensures { result ≡ Digits.natural_in word.now }
{
    let digits = word.as_bytes();
    if !are_digits(digits, 1, 20) {
        return None;
    }
    let number = digits_number(digits);
    if number < 0x1_0000_0000_0000_0000 {
        Some(number as u64)
    } else {
        None
    }
}

// `check` with its words.
fn check_of<'a>(words: &[&'a str]) -> Option<ToolRequest<'a>>
    ensures { option_map command_by result ≡ Words.check_of_words (texts words.now) }
{
    match words {
        [folder] => Some(ToolRequest::Check { folder }),
        _ => None,
    }
}

// `decode` with its words.
fn decode_of<'a>(words: &[&'a str], workers: u8) -> Option<ToolRequest<'a>>
    ensures { option_map command_by result ≡ Words.decode_of_words workers (texts words.now) }
{
    match words {
        [folder, feed] => Some(ToolRequest::Decode {
            folder,
            feed,
            workers,
        }),
        _ => None,
    }
}

// `live` with its words.
fn live_of<'a>(words: &[&'a str], workers: u8) -> Option<ToolRequest<'a>>
    ensures { option_map command_by result ≡ Words.live_of_words workers (texts words.now) }
{
    match words {
        [folder, feed, desk] if !(*feed == "-" && *desk == "-") => Some(ToolRequest::Live {
            folder,
            feed,
            desk,
            workers,
        }),
        _ => None,
    }
}

// `drill` with its words.
fn drill_of<'a>(words: &[&'a str]) -> Option<ToolRequest<'a>>
    ensures { option_map command_by result ≡ Words.drill_of_words (texts words.now) }
{
    match words {
        [seed] => match natural_in(seed) {
            Some(seed) => Some(ToolRequest::Drill { seed }),
            None => None,
        },
        _ => None,
    }
}

// A command with its words and the numbers of workers.
fn request_by<'a>(verb: Verb, words: &[&'a str], workers: &[&'a str]) -> Option<ToolRequest<'a>>
    ensures { option_map command_by result ≡ asked verb (record { positional = texts words.now; workers = texts workers.now }) }
{
    match (verb, workers_of(workers)) {
        (Verb::Check, _) if workers.is_empty() => check_of(words),
        (Verb::Drill, _) if workers.is_empty() => drill_of(words),
        (Verb::Decode, Some(workers)) => decode_of(words, workers),
        (Verb::Live, Some(workers)) => live_of(words, workers),
        _ => None,
    }
}

// What the words behind a command ask for.
fn verb_request<'a>(
    alloc: Global,
    verb: Verb,
    words: &'a [String],
) -> Result<ToolRequest<'a>, WordsFault>
    ensures { Asks result (Words.or_words (option_and_then (asked verb) (Words.parted (map string_bytes words.now)))) }
{
    let matches = match line_matches(alloc, words) {
        Ok(matches) => matches,
        Err(fault) => return Err(fault),
    };
    let none: [&str; 0] = [];
    let positional = values(&matches, "words", &none);
    let workers = values(&matches, "workers", &none);
    match request_by(verb, positional, workers) {
        Some(request) => Ok(request),
        None => Err(WordsFault::Misuse(Misuse::Words)),
    }
}

/// What the words behind the program's name ask for.
pub fn request_in<'a>(alloc: Global, words: &'a [String]) -> Result<ToolRequest<'a>, WordsFault>
    ensures { Asks result (Words.command_of (map string_bytes words.now)) }
{
    match words {
        [word, rest @ ..] => match verb_of(word.as_str()) {
            Some(verb) => verb_request(alloc, verb, rest),
            None => Err(WordsFault::Misuse(Misuse::Command)),
        },
        [] => Err(WordsFault::Misuse(Misuse::Command)),
    }
}
