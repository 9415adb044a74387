use crate::fault::MibCode;

/// What is wrong with a line, apart from its table and row. Columns count from 1, and 0 is the line as a whole.
#[derive(Clone, Copy, Debug, PartialEq, Eq)]
pub struct LineFault {
    pub column: u8,
    pub code: MibCode,
}
