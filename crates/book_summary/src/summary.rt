// The text of a summary.
ghost use Rattle.std.specs.Prelude.{◌≡◌, ◌++◌, IfOk, OnOk, decimal};
ghost use Rattle.std.specs.List.{flat_map};
ghost use Rattle.mib_model.specs.Kinds.{kinds};
ghost use Rattle.mib_model.specs.Summaries.{count_line, summary};

use crate::plans::count_plans;
use itoa::Buffer;
use mib_model::{KINDS, Kind};
use mib_tables::Book;
use std::alloc::{AllocError, Global};

// Appends a number's digits.
fn add_number(out: &mut Vec<u8>, n: u64) -> Result<(), AllocError>
    ensures { OnOk result (out.new.items ≡ out.old.items ++ decimal n) }
{
    out.extend_from_slice(Buffer::new().format(n).as_bytes())
}

// Appends a table's line.
fn add_table(out: &mut Vec<u8>, book: &Book, kind: Kind) -> Result<(), AllocError>
    ensures { OnOk result (out.new.items ≡ out.old.items ++ count_line book.now kind) }
{
    out.extend_from_slice(kind.name().as_bytes())?;
    out.extend_from_slice(b" ")?;
    add_number(out, book.count(kind) as u64)?;
    out.extend_from_slice(b"\n")
}

// Appends a line for each table.
fn add_tables(out: &mut Vec<u8>, book: &Book) -> Result<(), AllocError>
    ensures { OnOk result (out.new.items ≡ out.old.items ++ flat_map (count_line book.now) kinds) }
{
    for kind in KINDS {
        add_table(out, book, kind)?;
    }
    Ok(())
}

/// The summary of a database: a line for each table with its name and its number of rows, and a last line with the
/// number of plans.
#[tactic(auto, unfolding(mib_model::specs::Summaries::summary))]
pub fn summary_of(alloc: Global, book: &Book) -> Result<Vec<u8>, AllocError>
    ensures { IfOk result (λ text. text.items ≡ summary book.now) }
{
    let plans = count_plans(alloc, book)?;
    let mut text = Vec::new(alloc);
    add_tables(&mut text, book)?;
    text.extend_from_slice(b"PLANS ")?;
    add_number(&mut text, plans)?;
    text.extend_from_slice(b"\n")?;
    Ok(text)
}
