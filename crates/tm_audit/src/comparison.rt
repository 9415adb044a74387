ghost use Rattle.std.specs.Prelude.{◌≡◌, ◌≢◌, ◌≤◌, ◌<◌, true, false, None, ◌+◌, ◌++◌, [], ℕ, List, drop, length, slice_index, take};
ghost use Rattle.std.specs.List.{count_by};
ghost use Rattle.mib_model.specs.Lines.{is_feed};
ghost use Rattle.tm_audit.specs.Comparing.{parting_with};
ghost use Rattle.tm_audit.specs.TextLines.{parting};
ghost use Rattle.tm_audit.specs.declared.code.TheConstants.{TEXT_MOST};

use std::marker::Model;

/// A text that is compared with the octets that are expected of it, which come piece by piece and aren't kept.
#[derive(Drop)]
pub struct Comparison<'a> {
    text: &'a [u8],
    // As many octets of the text as are the ones expected.
    at: usize,
    // Whether the next octet of the text isn't the one expected.
    is_apart: bool,
}

impl<'a> Model for Comparison<'a> {
    ghost use Rattle.std.specs.Prelude.{◌≤◌, length};
    ghost use Rattle.tm_audit.specs.Comparing.{Compared};
    ghost use Rattle.tm_audit.specs.declared.code.TheConstants.{TEXT_MOST};

    ghost Value = { Compared };

    ghost view = { λ c. record { text = c.text.now; at = c.at; is_apart = c.is_apart } };

    ghost invariant = { λ c. (c.at ≤ length c.text.now) × (length c.text.now ≤ TEXT_MOST) };
}

// How many octets two texts have in common at their fronts.
fn common_octets(text: &[u8], other: &[u8]) -> usize
    ensures front { take result text.now ≡ take result other.now }
    ensures text { result ≤ length text.now }
    ensures other { result ≤ length other.now }
    ensures apart { result < length text.now → result < length other.now → slice_index text.now result ≢ slice_index other.now result }
{
    let most = text.len().min(other.len());
    for k in 0..most {
        if text[k] != other[k] {
            return k;
        }
    }
    most
}

// How many LF octets have.
fn feeds(octets: &[u8]) -> usize
    ensures count { result ≡ count_by is_feed octets.now }
    ensures few { result ≤ length octets.now }
{
    octets.iter().filter(|octet| **octet == b'\n').count()
}

// The octets from a place on.
fn octets_from(text: &[u8], at: usize) -> &[u8]
    requires { at ≤ length text.now }
    ensures { result.now ≡ drop at text.now }
{
    &text[at..]
}

impl<'a> Comparison<'a> {
    /// The comparison of a text of at most `TEXT_MOST` octets before the first is expected.
    pub fn new(text: &'a [u8]) -> Comparison<'a>
        requires { length text.now ≤ TEXT_MOST }
        ensures { (more : List ℕ) → parting_with result more ≡ parting 1 more text.now }
    {
        Comparison {
            text,
            at: 0,
            is_apart: false,
        }
    }

    /// Goes on with octets that are expected next.
    pub fn expect(&mut self, piece: &[u8])
        ensures { (more : List ℕ) → parting_with self.new more ≡ parting_with self.old (piece.now ++ more) }
    {
        if self.is_apart {
            return;
        }
        let common = common_octets(octets_from(self.text, self.at), piece);
        self.at += common;
        self.is_apart = common < piece.len();
    }

    /// Whether the text parts already from what is expected.
    pub fn is_apart(&self) -> bool
        ensures apart { (more : List ℕ) → result ≡ true → parting_with self.now more ≡ parting_with self.now [] }
        ensures together { result ≡ false → (more : List ℕ) × (parting_with self.now more ≡ None) }
    {
        self.is_apart
    }

    /// The line in which the text parts from all that was expected, if it does.
    pub fn parting(&self) -> Option<u32>
        ensures { result ≡ parting_with self.now [] }
    {
        if !self.is_apart && self.at == self.text.len() {
            return None;
        }
        Some(1 + feeds(&self.text[..self.at]) as u32)
    }
}
