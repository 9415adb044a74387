// A line that is being written.
ghost use Rattle.std.specs.Prelude.{◌≡◌, ◌≤◌, ◌-◌, ◌++◌, ◌∷◌, [], replicate, decimal, OnOk};
ghost use Rattle.std.specs.Fmt.{signed_decimal};
ghost use Rattle.mib_model.specs.Forms.{Named, Natural, AnyText};
ghost use Rattle.mib_model.specs.Writing.{decimal_text, bound_text, option_text};

use itoa::Buffer;
use mib_model::{Bound, Dec, Name, Text};
use std::alloc::{AllocError, Global};

/// A line that is being written: its octets, and the column that it stands in.
#[derive(Drop)]
pub struct LineWriter {
    pub line: Vec<u8>,
    pub at: u8,
}

impl LineWriter {
    /// An empty line, in the first column.
    pub fn new(alloc: Global) -> LineWriter
        ensures line { result.line.items ≡ [] }
        ensures at { result.at ≡ 1 }
    {
        LineWriter {
            line: Vec::new(alloc),
            at: 1,
        }
    }

    // Goes on to a column.
    fn go(&mut self, column: u8) -> Result<(), AllocError>
        requires { self.old.at ≤ column }
        ensures line { OnOk result (self.new.line.items ≡ self.old.line.items ++ replicate (column - self.old.at) 9) }
        ensures at { OnOk result (self.new.at ≡ column) }
    {
        for i in self.at..column {
            self.line.push(b'\t')?;
        }
        self.at = column;
        Ok(())
    }

    /// Writes octets into a column.
    pub fn octets(&mut self, column: u8, octets: &[u8]) -> Result<(), AllocError>
        requires { self.old.at ≤ column }
        ensures line { OnOk result (self.new.line.items ≡ self.old.line.items ++ replicate (column - self.old.at) 9 ++ octets.now) }
        ensures at { OnOk result (self.new.at ≡ column) }
    {
        self.go(column)?;
        self.line.extend_from_slice(octets)
    }

    /// Writes a name.
    pub fn name(&mut self, column: u8, name: &Name) -> Result<(), AllocError>
        requires { self.old.at ≤ column }
        ensures line { OnOk result (self.new.line.items ≡ self.old.line.items ++ replicate (column - self.old.at) 9 ++ name.now) }
        ensures at { OnOk result (self.new.at ≡ column) }
    {
        self.octets(column, name.bytes())
    }

    /// Writes a name, or nothing.
    pub fn name_or_none(&mut self, column: u8, name: &Option<Name>) -> Result<(), AllocError>
        requires { self.old.at ≤ column }
        ensures line { OnOk result (self.new.line.items ≡ self.old.line.items ++ replicate (column - self.old.at) 9 ++ option_text Named name.now) }
        ensures at { OnOk result (self.new.at ≡ column) }
    {
        match name {
            Some(name) => self.name(column, name),
            None => self.octets(column, &[]),
        }
    }

    /// Writes a text.
    pub fn text(&mut self, column: u8, text: &Text) -> Result<(), AllocError>
        requires { self.old.at ≤ column }
        ensures line { OnOk result (self.new.line.items ≡ self.old.line.items ++ replicate (column - self.old.at) 9 ++ text.now) }
        ensures at { OnOk result (self.new.at ≡ column) }
    {
        self.octets(column, text.bytes())
    }

    /// Writes a text, or nothing.
    pub fn text_or_none(&mut self, column: u8, text: &Option<Text>) -> Result<(), AllocError>
        requires { self.old.at ≤ column }
        ensures line { OnOk result (self.new.line.items ≡ self.old.line.items ++ replicate (column - self.old.at) 9 ++ option_text AnyText text.now) }
        ensures at { OnOk result (self.new.at ≡ column) }
    {
        match text {
            Some(text) => self.text(column, text),
            None => self.octets(column, &[]),
        }
    }

    /// Writes a number from 0 on.
    pub fn natural(&mut self, column: u8, number: u64) -> Result<(), AllocError>
        requires { self.old.at ≤ column }
        ensures line { OnOk result (self.new.line.items ≡ self.old.line.items ++ replicate (column - self.old.at) 9 ++ decimal number) }
        ensures at { OnOk result (self.new.at ≡ column) }
    {
        let mut buffer = Buffer::new();
        self.octets(column, buffer.format(number).as_bytes())
    }

    /// Writes a number from 0 on, or nothing.
    pub fn natural_or_none(&mut self, column: u8, number: Option<u64>) -> Result<(), AllocError>
        requires { self.old.at ≤ column }
        ensures line { OnOk result (self.new.line.items ≡ self.old.line.items ++ replicate (column - self.old.at) 9 ++ option_text (Natural 0 0) number) }
        ensures at { OnOk result (self.new.at ≡ column) }
    {
        match number {
            Some(number) => self.natural(column, number),
            None => self.octets(column, &[]),
        }
    }

    /// Writes a number.
    pub fn integer(&mut self, column: u8, number: i128) -> Result<(), AllocError>
        requires { self.old.at ≤ column }
        ensures line { OnOk result (self.new.line.items ≡ self.old.line.items ++ replicate (column - self.old.at) 9 ++ signed_decimal number) }
        ensures at { OnOk result (self.new.at ≡ column) }
    {
        let mut buffer = Buffer::new();
        self.octets(column, buffer.format(number).as_bytes())
    }

    /// Writes a letter.
    pub fn letter(&mut self, column: u8, letter: u8) -> Result<(), AllocError>
        requires { self.old.at ≤ column }
        ensures line { OnOk result (self.new.line.items ≡ self.old.line.items ++ replicate (column - self.old.at) 9 ++ letter ∷ []) }
        ensures at { OnOk result (self.new.at ≡ column) }
    {
        self.octets(column, &[letter])
    }

    /// Writes a decimal: its digits, E and its exponent.
    #[tactic(auto, unfolding(mib_model::specs::Writing::decimal_text))]
    pub fn decimal(&mut self, column: u8, number: Dec) -> Result<(), AllocError>
        requires { self.old.at ≤ column }
        ensures line { OnOk result (self.new.line.items ≡ self.old.line.items ++ replicate (column - self.old.at) 9 ++ decimal_text number) }
        ensures at { OnOk result (self.new.at ≡ column) }
    {
        let mut buffer = Buffer::new();
        self.octets(column, buffer.format(number.m).as_bytes())?;
        self.line.extend_from_slice(b"E")?;
        let mut buffer = Buffer::new();
        self.line
            .extend_from_slice(buffer.format(number.e).as_bytes())
    }

    /// Writes a bound.
    pub fn bound(&mut self, column: u8, bound: &Bound) -> Result<(), AllocError>
        requires { self.old.at ≤ column }
        ensures line { OnOk result (self.new.line.items ≡ self.old.line.items ++ replicate (column - self.old.at) 9 ++ bound_text bound.now) }
        ensures at { OnOk result (self.new.at ≡ column) }
    {
        match bound {
            Bound::Empty => self.octets(column, &[]),
            Bound::Number(number) => self.decimal(column, *number),
            Bound::Words(text) => self.text(column, text),
        }
    }
}
