// The zeros at the front and at the end of digits, which stand in two parts one behind the other.
ghost use Rattle.std.specs.Prelude.{◌≡◌, ◌≤◌, ◌+◌, ◌++◌, length, true};
ghost use Rattle.std.specs.Char.{is_ascii_digit};
ghost use Rattle.std.specs.List.{list_all};
ghost use Rattle.mib_model.specs.Decimals as Spec;

fn strip_front(digits: &[u8]) -> &[u8]
    ensures left { result.now ≡ Spec.without_leading digits.now }
    ensures digits { list_all is_ascii_digit digits.now ≡ true → list_all is_ascii_digit result.now ≡ true }
    ensures shorter { length result.now ≤ length digits.now }
{
    let mut rest = digits;
    while let [b'0', after @ ..] = rest {
        rest = after;
    }
    rest
}

fn strip_end(digits: &[u8]) -> &[u8]
    ensures left { result.now ≡ Spec.without_trailing digits.now }
    ensures digits { list_all is_ascii_digit digits.now ≡ true → list_all is_ascii_digit result.now ≡ true }
    ensures shorter { length result.now ≤ length digits.now }
{
    let mut rest = digits;
    while let [before @ .., b'0'] = rest {
        rest = before;
    }
    rest
}

/// The digits without the zeros at their front.
pub fn without_leading<'a>(whole: &'a [u8], fraction: &'a [u8]) -> (&'a [u8], &'a [u8])
    ensures left { result.0.now ++ result.1.now ≡ Spec.without_leading (whole.now ++ fraction.now) }
    ensures whole { list_all is_ascii_digit whole.now ≡ true → list_all is_ascii_digit result.0.now ≡ true }
    ensures fraction { list_all is_ascii_digit fraction.now ≡ true → list_all is_ascii_digit result.1.now ≡ true }
    ensures shorter { length result.0.now + length result.1.now ≤ length whole.now + length fraction.now }
{
    let rest = strip_front(whole);
    if rest.is_empty() {
        (rest, strip_front(fraction))
    } else {
        (rest, fraction)
    }
}

/// The digits without the zeros at their end.
pub fn without_trailing<'a>(whole: &'a [u8], fraction: &'a [u8]) -> (&'a [u8], &'a [u8])
    ensures left { result.0.now ++ result.1.now ≡ Spec.without_trailing (whole.now ++ fraction.now) }
    ensures whole { list_all is_ascii_digit whole.now ≡ true → list_all is_ascii_digit result.0.now ≡ true }
    ensures fraction { list_all is_ascii_digit fraction.now ≡ true → list_all is_ascii_digit result.1.now ≡ true }
    ensures shorter { length result.0.now + length result.1.now ≤ length whole.now + length fraction.now }
{
    let rest = strip_end(fraction);
    if rest.is_empty() {
        (strip_end(whole), rest)
    } else {
        (whole, rest)
    }
}
