// What a line asks for.
ghost use Rattle.std.specs.Prelude.{◌≡◌, ◌<◌, ◌≤◌, ◌^◌, ◌++◌, length, true, Some, None, IfSome, IfOk, option_map, if◌then◌else◌};
ghost use Rattle.std.specs.Char.{is_ascii_digit};
ghost use Rattle.std.specs.List.{list_all};
ghost use Rattle.std.specs.Str.Lines.{strip_carriage_return};
ghost use Rattle.build_rules.specs.Asks as Spec;
ghost use Rattle.build_rules.specs.Asks.{asked_in, items_in};
ghost use Rattle.run_model.specs.DeskLines as Lines;
ghost use Rattle.mib_model.specs.Digits.{digits_value};
ghost use Rattle.build_asks.specs.Asking.{ask_with};

use crate::words::Words;
use build_rules::Item;
use dec_num::{are_digits, digits_number};
use desk_lines::{LINE_MOST, is_comment, without_return};
use mib_model::Name;
use std::alloc::AllocError;

/// The packet that a line asks for, but for its items.
#[derive(Clone, Copy)]
pub struct Ask {
    pub spid: u128,
    pub count: u16,
}

/// Whether a line of any length asks for nothing: it is empty, or a comment.
pub fn is_passed_over(line: &[u8]) -> bool
    ensures { result ≡ Lines.is_comment (strip_carriage_return line.now) }
{
    is_comment(without_return(line))
}

// The number that at most 19 digits spell, the most significant first.
fn short_number(digits: &[u8]) -> u64
    requires short { length digits.now ≤ 19 }
    requires digits { list_all is_ascii_digit digits.now ≡ true }
    ensures { result ≡ digits_value digits.now }
{
    let mut number = 0;
    for digit in digits {
        number = 10 * number + u64::from(*digit - b'0');
    }
    number
}

// The number of a word of 1 to 20 digits.
fn number_in(word: &[u8]) -> Option<u128>
    ensures value { result ≡ Spec.number_in word.now }
    ensures within { IfSome result (λ n. n < 10 ^ 20) }
{
    if !are_digits(word, 1, 20) {
        return None;
    }
    if word.len() < 20 {
        return Some(u128::from(short_number(word)));
    }
    Some(digits_number(word))
}

// The raw number of a word: 1 to 20 digits, with a minus before them or not.
fn raw_in(word: &[u8]) -> Option<i128>
    ensures { result ≡ Spec.raw_in word.now }
{
    match word {
        [] => None,
        [b'-', digits @ ..] => match number_in(digits) {
            Some(number) => Some(-(number as i128)),
            None => None,
        },
        _ => match number_in(word) {
            Some(number) => Some(number as i128),
            None => None,
        },
    }
}

// The item of a name and a raw number.
fn item_in(name: &[u8], number: &[u8]) -> Option<Item>
    ensures { result ≡ Spec.item_in name.now number.now }
{
    let name = Name::new(name)?;
    let raw = raw_in(number)?;
    Some(Item { name, raw })
}

// The sequence count of a word.
fn count_in(word: &[u8]) -> Option<u16>
    ensures value { result ≡ Spec.count_in word.now }
    ensures few { IfSome result (λ n. n < 2 ^ 14) }
{
    let number = number_in(word)?;
    if number < 0x4000 {
        Some(number as u16)
    } else {
        None
    }
}

// Adds the items of words, names and raw numbers in turn, and says whether the words are such.
fn add_items(words: &mut Words<'_>, items: &mut Vec<Item>) -> Result<bool, AllocError>
    ensures { IfOk result (λ are. option_map (λ more. items.old.items ++ more) (items_in words.old) ≡ (if are then Some items.new.items else None)) }
{
    while let Some(name) = words.next() {
        let Some(number) = words.next() else {
            return Ok(false);
        };
        let Some(item) = item_in(name, number) else {
            return Ok(false);
        };
        items.push(item)?;
    }
    Ok(true)
}

// The SPID and the sequence count that words begin with.
fn take_ask(words: &mut Words<'_>) -> Option<Ask>
    ensures few { IfSome result (λ ask. ask.count < 2 ^ 14) }
    ensures value { Spec.asked_of words.old ≡ ask_with result (items_in words.new) }
{
    let spid = words.next()?;
    let count = words.next()?;
    let spid = number_in(spid)?;
    let count = count_in(count)?;
    Some(Ask { spid, count })
}

/// What a line asks for, if anything; its items take the place of those that stand.
pub fn ask_in(line: &[u8], items: &mut Vec<Item>) -> Result<Option<Ask>, AllocError>
    ensures few { IfOk result (λ asked. IfSome asked (λ ask. ask.count < 2 ^ 14)) }
    ensures value { IfOk result (λ asked. asked_in line.now ≡ ask_with asked (Some items.new.items)) }
{
    items.clear();
    if line.len() > LINE_MOST {
        return Ok(None);
    }
    let mut words = Words::of(without_return(line));
    let Some(ask) = take_ask(&mut words) else {
        return Ok(None);
    };
    match add_items(&mut words, items)? {
        true => Ok(Some(ask)),
        false => Ok(None),
    }
}
