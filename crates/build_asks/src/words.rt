// The words of a line.
ghost use Rattle.std.specs.Prelude.{◌≡◌, ◌==◌, ◌<◌, ◌∷◌, [], length, IfSome, option_map, MatchOption};
ghost use Rattle.std.specs.List.{position};
ghost use Rattle.desk_lines.specs.Requests.{cut};
ghost use Rattle.run_model.specs.DeskLines as Spec;

use std::marker::Model;

/// The words of a line that are still to come. Contracts see them as a list.
#[derive(Drop)]
pub(crate) struct Words<'a> {
    rest: Option<&'a [u8]>,
}

impl<'a> Model for Words<'a> {
    ghost use Rattle.std.specs.Prelude.{ℕ, List, []};
    ghost use Rattle.std.specs.Option.{option_map_or};
    ghost use Rattle.run_model.specs.DeskLines.{words_of};

    ghost Value = { List (List ℕ) };

    ghost view = { λ words. option_map_or (λ rest. words_of rest.now) words.rest [] };
}

// The place of the first space.
fn space_in(text: &[u8]) -> Option<usize>
    ensures place { result ≡ position Spec.is_blank text.now }
    ensures inside { IfSome result (λ place. place < length text.now) }
{
    text.iter().position(|&octet| octet == b' ')
}

// The parts of a text before and behind its first space.
fn cut_at_space(text: &[u8]) -> Option<(&[u8], &[u8])>
    ensures { option_map (λ parts. (parts.0.now, parts.1.now)) result ≡ cut Spec.is_blank text.now }
{
    match space_in(text) {
        Some(place) => Some((&text[..place], &text[place + 1..])),
        None => None,
    }
}

impl<'a> Words<'a> {
    /// The words of a text.
    pub(crate) fn of(text: &'a [u8]) -> Words<'a>
        ensures { result ≡ Spec.words_of text.now }
    {
        Words { rest: Some(text) }
    }

    /// Takes the next word.
    pub(crate) fn next(&mut self) -> Option<&'a [u8]>
        ensures { MatchOption result (self.old ≡ []) (λ word. self.old ≡ word.now ∷ self.new) }
    {
        let text = self.rest?;
        match cut_at_space(text) {
            Some((word, rest)) => {
                self.rest = Some(rest);
                Some(word)
            }
            None => {
                self.rest = None;
                Some(text)
            }
        }
    }
}
