// How many plans a database asks for.
ghost use Rattle.std.specs.Prelude.{◌≡◌, ◌≤◌, length, filter, map, IfOk};
ghost use Rattle.std.specs.BTreeSet.{IsFromIterResult};
ghost use Rattle.std.specs.Ordering.{nat_cmp};
ghost use Rattle.mib_model.specs.Plans.{has_plan, distinct, plans};
ghost use Rattle.mib_model.specs.Fixed.{has_layout};

use mib_model::{PcfRow, PidRow, VpdRow};
use mib_tables::Book;
use std::alloc::{AllocError, Global};
use std::collections::BTreeSet;

// A parameter that is measured and not deduced.
fn has_plan(row: &PcfRow) -> bool
    ensures { result ≡ has_plan row.now }
{
    row.is_measured() && !row.is_deduced()
}

// The parameters with a plan.
fn count_parameters(rows: &[PcfRow]) -> usize
    ensures count { result ≡ length (filter has_plan rows.now) }
    ensures within { result ≤ length rows.now }
{
    rows.iter().filter(|row| has_plan(row)).count()
}

// The packets of fixed layout.
fn count_layouts(rows: &[PidRow]) -> usize
    ensures count { result ≡ length (filter has_layout rows.now) }
    ensures within { result ≤ length rows.now }
{
    rows.iter().filter(|row| row.has_layout()).count()
}

// The numbers of the structures, each once.
fn structures(alloc: Global, rows: &[VpdRow]) -> Result<BTreeSet<u32>, AllocError>
    ensures { IfOk result (IsFromIterResult nat_cmp (map (λ row. row.tpsd) rows.now)) }
{
    rows.iter().map(|row| row.tpsd).collect(alloc)
}

// The structures, each once however many rows it has.
fn count_structures(alloc: Global, rows: &[VpdRow]) -> Result<usize, AllocError>
    ensures count { IfOk result (λ count. count ≡ length (distinct (map (λ row. row.tpsd) rows.now))) }
    ensures within { IfOk result (λ count. count ≤ length rows.now) }
{
    Ok(structures(alloc, rows)?.len())
}

/// One for each measured parameter that isn't deduced, each packet of fixed layout and each structure, and one for
/// the identification of packets.
pub fn count_plans(alloc: Global, book: &Book) -> Result<u64, AllocError>
    ensures { IfOk result (λ count. count ≡ length (plans book.now)) }
{
    let parameters = count_parameters(book.pcf());
    let layouts = count_layouts(book.pid());
    let structures = count_structures(alloc, book.vpd())?;
    Ok((parameters + layouts + structures + 1) as u64)
}
