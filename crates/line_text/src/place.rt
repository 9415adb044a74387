// Octets that are put at a place of a line.
ghost use Rattle.std.specs.Prelude.{◌≡◌, ◌≤◌, ◌<◌, ◌+◌, ◌++◌, [], ◌∷◌, codes, drop, length, take};
ghost use Rattle.mib_model.specs.declared.limits.TheConstants.{NAME_SIZE};

use mib_model::{NAME_SIZE, Name};

/// Puts a known count of octets at a place, which the compiler makes one or two stores of.
#[inline(always)]
pub(crate) fn put<const N: usize>(octets: &mut [u8], at: usize, word: &[u8; N])
    requires { at + N ≤ length octets.old }
    ensures text { take (at + N) octets.new ≡ take at octets.old ++ word.now }
    ensures kept { length octets.new ≡ length octets.old }
{
    for i in 0..N {
        octets[at + i] = word[i];
    }
}

/// The octets of a text from a place on.
#[inline(always)]
pub(crate) fn part<const N: usize>(text: &[u8], at: usize) -> [u8; N]
    requires { at + N ≤ length text.now }
    ensures { result ≡ take N (drop at text.now) }
{
    let mut part = [0; N];
    part.copy_from_slice(&text[at..at + N]);
    part
}

// Puts a text at a place by its first and its last octets, which may overlap. Both are copied first: the compiler can't see
// that the text lies elsewhere.
#[inline(always)]
fn put_ends<const N: usize>(octets: &mut [u8], at: usize, text: &[u8])
    requires fits { at + length text.now ≤ length octets.old }
    requires some { N ≤ length text.now }
    requires few { length text.now ≤ N + N }
    ensures text { take (at + length text.now) octets.new ≡ take at octets.old ++ text.now }
    ensures kept { length octets.new ≡ length octets.old }
{
    let rest = text.len() - N;
    let first = part::<N>(text, 0);
    let last = part::<N>(text, rest);
    put(octets, at, &first);
    put(octets, at + rest, &last);
}

/// Appends an octet at a place of a line, and gives the place behind it.
#[inline(always)]
pub fn add_octet(octet: u8, line: &mut [u8], used: usize) -> usize
    requires { used < length line.old }
    ensures text { take result line.new ≡ take used line.old ++ octet ∷ [] }
    ensures room { result ≡ used + 1 }
    ensures kept { length line.new ≡ length line.old }
{
    line[used] = octet;
    used + 1
}

/// Appends a word of a known count of octets at a place.
#[inline(always)]
pub fn add_word<const N: usize>(word: &[u8; N], line: &mut [u8], used: usize) -> usize
    requires { used + N ≤ length line.old }
    ensures text { take result line.new ≡ take used line.old ++ word.now }
    ensures room { result ≡ used + N }
    ensures kept { length line.new ≡ length line.old }
{
    put(line, used, word);
    used + N
}

/// Appends the first of some octets. Those behind them are written too, and cut off.
#[inline(always)]
pub(crate) fn add_first<const N: usize>(
    word: &[u8; N],
    count: u8,
    line: &mut [u8],
    used: usize,
) -> usize
    requires few { count ≤ N }
    requires room { used + N ≤ length line.old }
    ensures text { take result line.new ≡ take used line.old ++ take count word.now }
    ensures room { result ≡ used + count }
    ensures kept { length line.new ≡ length line.old }
{
    put(line, used, word);
    used + usize::from(count)
}

/// Appends a text at a place.
pub fn add_text(text: &[u8], line: &mut [u8], used: usize) -> usize
    requires { used + length text.now ≤ length line.old }
    ensures text { take result line.new ≡ take used line.old ++ text.now }
    ensures room { result ≡ used + length text.now }
    ensures kept { length line.new ≡ length line.old }
{
    let end = used + text.len();
    line[used..end].copy_from_slice(text);
    end
}

/// Appends a name, whatever its length by the same two stores: its room is put whole, of which the octets behind the name
/// are cut off.
#[inline(always)]
pub fn add_name(name: &Name, line: &mut [u8], used: usize) -> usize
    requires { used + NAME_SIZE ≤ length line.old }
    ensures text { take result line.new ≡ take used line.old ++ name.now }
    ensures room { result ≤ used + NAME_SIZE }
    ensures kept { length line.new ≡ length line.old }
{
    let room = *name.room();
    put(line, used, &room);
    used + name.bytes().len()
}

/// Appends a name behind two spaces and before one, as a value's line begins.
#[inline(always)]
pub fn add_indented(name: &Name, line: &mut [u8], used: usize) -> usize
    requires { used + 35 ≤ length line.old }
    ensures text { take result line.new ≡ take used line.old ++ codes "  " ++ name.now ++ codes " " }
    ensures room { result ≤ used + 35 }
    ensures kept { length line.new ≡ length line.old }
{
    let used = add_word(b"  ", line, used);
    let used = add_name(name, line, used);
    add_octet(b' ', line, used)
}

/// Appends a text of so many octets by its first and its last.
#[inline(always)]
pub fn add_ends<const N: usize>(text: &[u8], line: &mut [u8], used: usize) -> usize
    requires fits { used + length text.now ≤ length line.old }
    requires some { N ≤ length text.now }
    requires few { length text.now ≤ N + N }
    ensures text { take result line.new ≡ take used line.old ++ text.now }
    ensures room { result ≡ used + length text.now }
    ensures kept { length line.new ≡ length line.old }
{
    put_ends::<N>(line, used, text);
    used + text.len()
}
