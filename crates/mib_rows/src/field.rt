// What a field is in its column, by the column's form. A `must` column has no default; the fault of a field is that
// of the column's number.
ghost use Rattle.std.specs.Prelude.{◌≡◌, ◌≤◌, ◌≤ℤ◌, IfOk, IfSome, true, false};
ghost use Rattle.mib_model.specs.Columns.{cell_of, Must, Optional, Filled};
ghost use Rattle.mib_model.specs.Forms.{fault_in, Named, Natural, Integer, Letter, Capital, Decimal, AnyText, Bounding, zero_decimal, no_bound};

use crate::fields::Field;
use crate::forms::{capital, code, number};
use dec_num::{read_dec, trim};
use mib_model::{Bound, Dec, LineFault, MibCode, Name, Text};

pub fn fault(column: u8, code: MibCode) -> LineFault
    ensures { result ≡ fault_in column code }
{
    LineFault { column, code }
}

impl Field<'_> {
    /// A name.
    #[tactic(auto, unfolding(mib_model::specs::Columns::cell_of, mib_model::specs::Forms::content_of))]
    pub fn name(self) -> Result<Name, LineFault>
        ensures { result ≡ cell_of (Must self.entry.column Named) self.entry.octets.now }
    {
        Name::new(trim(self.octets)).ok_or(fault(self.column, MibCode::BadName))
    }

    /// A name, or none where the field is empty.
    #[tactic(auto, unfolding(mib_model::specs::Columns::cell_of, mib_model::specs::Forms::content_of))]
    pub fn name_or_none(self) -> Result<Option<Name>, LineFault>
        ensures { result ≡ cell_of (Optional self.entry.column Named) self.entry.octets.now }
    {
        if trim(self.octets).is_empty() {
            return Ok(None);
        }
        Ok(Some(self.name()?))
    }

    /// A number of a range from 0 on.
    #[tactic(auto, unfolding(mib_model::specs::Columns::cell_of, mib_model::specs::Forms::content_of))]
    pub fn natural(self, low: u64, high: u64) -> Result<u64, LineFault>
        ensures value { result ≡ cell_of (Must self.entry.column (Natural low high)) self.entry.octets.now }
        ensures within { IfOk result (λ n. n ≤ high) }
    {
        match number(trim(self.octets), i128::from(low), i128::from(high)) {
            Some(value) => Ok(value as u64),
            None => Err(fault(self.column, MibCode::BadNumber)),
        }
    }

    /// A number of a range from 0 on, or a value where the field is empty.
    #[tactic(auto, unfolding(mib_model::specs::Columns::cell_of, mib_model::specs::Forms::content_of))]
    pub fn natural_or(self, low: u64, high: u64, empty: u64) -> Result<u64, LineFault>
        requires { empty ≤ high }
        ensures value { result ≡ cell_of (Filled self.entry.column (Natural low high) empty) self.entry.octets.now }
        ensures within { IfOk result (λ n. n ≤ high) }
    {
        if trim(self.octets).is_empty() {
            return Ok(empty);
        }
        self.natural(low, high)
    }

    /// A number of a range from 0 on, or none where the field is empty.
    #[tactic(auto, unfolding(mib_model::specs::Columns::cell_of, mib_model::specs::Forms::content_of))]
    pub fn natural_or_none(self, low: u64, high: u64) -> Result<Option<u64>, LineFault>
        ensures value { result ≡ cell_of (Optional self.entry.column (Natural low high)) self.entry.octets.now }
        ensures within { IfOk result (λ o. IfSome o (λ n. n ≤ high)) }
    {
        if trim(self.octets).is_empty() {
            return Ok(None);
        }
        Ok(Some(self.natural(low, high)?))
    }

    /// A number of a range that may be below 0.
    #[tactic(auto, unfolding(mib_model::specs::Columns::cell_of, mib_model::specs::Forms::content_of))]
    pub fn integer(self, low: i128, high: i128) -> Result<i128, LineFault>
        ensures value { result ≡ cell_of (Must self.entry.column (Integer low high)) self.entry.octets.now }
        ensures low { IfOk result (λ n. low ≤ℤ n) }
        ensures high { IfOk result (λ n. n ≤ℤ high) }
    {
        number(trim(self.octets), low, high).ok_or(fault(self.column, MibCode::BadNumber))
    }

    /// A number of a range, or a value where the field is empty.
    #[tactic(auto, unfolding(mib_model::specs::Columns::cell_of, mib_model::specs::Forms::content_of))]
    pub fn integer_or(self, low: i128, high: i128, empty: i128) -> Result<i128, LineFault>
        requires low { low ≤ℤ empty }
        requires high { empty ≤ℤ high }
        ensures value { result ≡ cell_of (Filled self.entry.column (Integer low high) empty) self.entry.octets.now }
        ensures low { IfOk result (λ n. low ≤ℤ n) }
        ensures high { IfOk result (λ n. n ≤ℤ high) }
    {
        if trim(self.octets).is_empty() {
            return Ok(empty);
        }
        self.integer(low, high)
    }

    /// One of some letters.
    #[tactic(auto, unfolding(mib_model::specs::Columns::cell_of, mib_model::specs::Forms::content_of))]
    pub fn letter(self, letters: &[u8]) -> Result<u8, LineFault>
        ensures { result ≡ cell_of (Must self.entry.column (Letter letters.now)) self.entry.octets.now }
    {
        code(trim(self.octets), letters).ok_or(fault(self.column, MibCode::BadCode))
    }

    /// One of some letters, or a letter where the field is empty.
    #[tactic(auto, unfolding(mib_model::specs::Columns::cell_of, mib_model::specs::Forms::content_of))]
    pub fn letter_or(self, letters: &[u8], empty: u8) -> Result<u8, LineFault>
        ensures { result ≡ cell_of (Filled self.entry.column (Letter letters.now) empty) self.entry.octets.now }
    {
        if trim(self.octets).is_empty() {
            return Ok(empty);
        }
        self.letter(letters)
    }

    /// A letter from A to Z, with one where the field is empty.
    #[tactic(auto, unfolding(mib_model::specs::Columns::cell_of, mib_model::specs::Forms::content_of))]
    pub fn capital_or(self, empty: u8) -> Result<u8, LineFault>
        ensures { result ≡ cell_of (Filled self.entry.column Capital empty) self.entry.octets.now }
    {
        let octets = trim(self.octets);
        if octets.is_empty() {
            return Ok(empty);
        }
        capital(octets).ok_or(fault(self.column, MibCode::BadCode))
    }

    /// A text.
    #[tactic(auto, unfolding(mib_model::specs::Columns::cell_of, mib_model::specs::Forms::content_of))]
    pub fn text(self) -> Result<Text, LineFault>
        ensures { result ≡ cell_of (Must self.entry.column AnyText) self.entry.octets.now }
    {
        Text::new(self.octets).ok_or(fault(self.column, MibCode::BadName))
    }

    /// A text, or none where the field is empty.
    #[tactic(auto, unfolding(mib_model::specs::Columns::cell_of, mib_model::specs::Forms::content_of))]
    pub fn text_or_none(self) -> Result<Option<Text>, LineFault>
        ensures { result ≡ cell_of (Optional self.entry.column AnyText) self.entry.octets.now }
    {
        if self.octets.is_empty() {
            return Ok(None);
        }
        Ok(Some(self.text()?))
    }

    /// A decimal.
    #[tactic(auto, unfolding(mib_model::specs::Columns::cell_of, mib_model::specs::Forms::content_of))]
    pub fn decimal(self) -> Result<Dec, LineFault>
        ensures { result ≡ cell_of (Must self.entry.column Decimal) self.entry.octets.now }
    {
        match read_dec(trim(self.octets)) {
            Ok(decimal) => Ok(decimal),
            Err(_) => Err(fault(self.column, MibCode::BadNumber)),
        }
    }

    /// A decimal, or 0 where the field is empty.
    #[tactic(auto, unfolding(mib_model::specs::Columns::cell_of, mib_model::specs::Forms::content_of))]
    pub fn decimal_or_zero(self) -> Result<Dec, LineFault>
        ensures { result ≡ cell_of (Filled self.entry.column Decimal zero_decimal) self.entry.octets.now }
    {
        if trim(self.octets).is_empty() {
            return Ok(Dec { m: 0, e: 0 });
        }
        self.decimal()
    }

    // A bound that is a decimal or empty.
    #[tactic(auto, unfolding(mib_model::specs::Columns::cell_of, mib_model::specs::Forms::content_of))]
    fn limit(self) -> Result<Bound, LineFault>
        ensures { result ≡ cell_of (Filled self.entry.column (Bounding false) (no_bound false)) self.entry.octets.now }
    {
        if trim(self.octets).is_empty() {
            return Ok(Bound::Empty);
        }
        Ok(Bound::Number(self.decimal()?))
    }

    // A bound that is a text.
    #[tactic(auto, unfolding(mib_model::specs::Columns::cell_of, mib_model::specs::Forms::content_of))]
    fn state(self) -> Result<Bound, LineFault>
        ensures { result ≡ cell_of (Filled self.entry.column (Bounding true) (no_bound true)) self.entry.octets.now }
    {
        Ok(Bound::Words(self.text()?))
    }

    /// A bound: a text where the check is of states, and else a decimal or empty.
    pub fn bound(self, states: bool) -> Result<Bound, LineFault>
        ensures { result ≡ cell_of (Filled self.entry.column (Bounding states) (no_bound states)) self.entry.octets.now }
    {
        if states { self.state() } else { self.limit() }
    }
}
