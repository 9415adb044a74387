use crate::kind::Kind;

/// What is wrong with a table. Each has a number and a word in docs/FORMATS.md.
#[derive(Clone, Copy, Debug, PartialEq, Eq)]
pub enum MibCode {
    /// The text begins with a byte order mark.
    Mark,
    /// A row has more than 4,096 octets.
    LineLong,
    /// There are more than 100,000 rows.
    Rows,
    /// A row ends before its last column that must be there.
    FewFields,
    /// A number is out of form or range.
    BadNumber,
    /// A code is none of its letters.
    BadCode,
    /// A name or a text is out of form.
    BadName,
    /// An earlier row has the same key.
    Twice,
    /// A reference has no row.
    NoRef,
    /// A type is not one that is known, or not one that may stand here.
    BadType,
    /// A curve has too few points, or one that isn't a number or stands twice.
    Points,
    /// A group or a choice of a structure is out of form.
    Group,
    /// A width is below that of the type.
    Width,
    /// A parameter has a curve and selections of curves.
    Both,
    /// The text has more than 67,108,864 octets.
    Big,
}

/// What is wrong with the tables, and where. Rows and columns count from 1, and 0 means none; `first` is the
/// earlier row of a `Twice`, and 0 for all other codes.
#[derive(Clone, Copy, Debug, PartialEq, Eq)]
pub struct MibFault {
    pub table: Kind,
    pub row: u32,
    pub column: u8,
    pub first: u32,
    pub code: MibCode,
}
