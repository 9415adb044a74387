//! Laws of the rows of tables: what is read of any line.
//!
//! Each law is the contract of a function with an empty body.
//! It rests on the definitions of `mib_model` and the lemmas of `dec_num` and `mib_rows`.
#![tactic(auto)]

ghost use Rattle.row_laws.specs.Reads.{ReadFits};
ghost use Rattle.row_laws.specs.Same.{SameIsEqual};

/// A row that is read of a line is one of the line's table, and one that a line can be.
pub fn read_fits()
    ensures { ReadFits }
{}

/// The values of two rows are the same exactly where they are equal.
pub fn same_is_equal()
    ensures { SameIsEqual }
{}
