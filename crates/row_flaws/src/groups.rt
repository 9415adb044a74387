// The rules for the rows of structures. [SCOS-2000 Database Import ICD, vpd.]
ghost use Rattle.std.specs.Prelude.{◌≡◌, ◌-◌, ◌==◌, ◌&&◌, ◌||◌, not, drop, take, position, None};
ghost use Rattle.std.specs.Option.{option_copied};
ghost use Rattle.mib_model.specs.Parameters.{parameter as parameter_of};
ghost use Rattle.mib_model.specs.GroupFlaws.{is_bad_group, vpd_rules, is_unmeasured, counts, has_group, does_too_much, repeats_nothing, needs_number};
ghost use Rattle.mib_model.specs.Kept.{has_number};
ghost use Rattle.row_flaws.specs.Firsts.{flaw_by};
ghost use Rattle.row_flaws.specs.Indexes.{cut};
ghost use Rattle.row_flaws.specs.Structures.{is_same_place, spots_in, passes_spots, RisesByPos};

use crate::flaw::At;
use crate::lookups::Lookups;
use crate::structures::StructureSpots;
use crate::types::encoding;
use mib_model::{Kind, MibCode, MibFault, PcfRow, Sort, VpdRow};

fn either(a: bool, b: bool) -> bool
    ensures { result ≡ (a || b) }
{
    a || b
}

fn is_unmeasured(row: Option<&PcfRow>) -> bool
    ensures { result ≡ is_unmeasured (option_copied row.entry) }
{
    match row {
        Some(row) => !row.is_measured(),
        None => false,
    }
}

fn has_number(sort: Sort) -> bool
    ensures { result ≡ has_number sort }
{
    match sort {
        Sort::Unsigned | Sort::Signed => true,
        _ => false,
    }
}

// Whether values of a parameter have numbers; nothing is asked of one that isn't there.
fn counts(row: Option<&PcfRow>) -> bool
    ensures { result ≡ counts (option_copied row.entry) }
{
    match row {
        Some(row) => match encoding(row) {
            Some(shape) => has_number(shape.sort()),
            None => false,
        },
        None => true,
    }
}

fn has_group(row: &VpdRow) -> bool
    ensures { result ≡ has_group row.now }
{
    row.grpsize != 0
}

fn is_choice(row: &VpdRow) -> bool
    ensures { result ≡ row.now.choice == 89 }
{
    row.choice == b'Y'
}

fn is_reference(row: &VpdRow) -> bool
    ensures { result ≡ row.now.pidref == 89 }
{
    row.pidref == b'Y'
}

fn does_too_much(row: &VpdRow) -> bool
    ensures { result ≡ does_too_much row.now }
{
    let choice = is_choice(row);
    let reference = is_reference(row);
    let group = has_group(row);
    (choice && reference) || (choice && group) || (reference && group)
}

fn repeats_nothing(row: &VpdRow) -> bool
    ensures { result ≡ repeats_nothing row.now }
{
    row.fixrep != 0 && !has_group(row)
}

fn needs_number(row: &VpdRow) -> bool
    ensures { result ≡ needs_number row.now }
{
    is_choice(row) || is_reference(row) || (has_group(row) && row.fixrep == 0)
}

// Whether the group of a row passes the end of its structure, or of a group in which the row stands.
fn passes_spots(structure: Option<&StructureSpots>, row: &VpdRow) -> bool
    requires { RisesByPos (spots_in (option_copied structure)) }
    ensures { result ≡ passes_spots (spots_in (option_copied structure.entry)) row.now }
{
    match structure {
        Some(structure) => structure.passes(row),
        None => true,
    }
}

// Whether the group, the choice or the reference of a row is out of form.
fn is_bad_group(
    lookups: &Lookups<'_>,
    number: u32,
    parameter: Option<&PcfRow>,
    row: &VpdRow,
) -> bool
    requires own { option_copied parameter ≡ parameter_of lookups.now.pcf row.now.name }
    requires first { cut (number - 1) (position (is_same_place row.now) lookups.now.vpd) ≡ None }
    ensures { result ≡ is_bad_group lookups.now (take (number - 1) lookups.now.vpd) row.now }
{
    let passes = passes_spots(lookups.structure(row.tpsd), row);
    let no_number = lacks_number(row, parameter);
    let shape = either(does_too_much(row), repeats_nothing(row));
    either(either(shape, passes), no_number)
}

fn lacks_number(row: &VpdRow, parameter: Option<&PcfRow>) -> bool
    ensures { result ≡ (needs_number row.now && not (counts (option_copied parameter.entry))) }
{
    needs_number(row) && !counts(parameter)
}

/// VPD: the parameter of a row, and its group, choice or reference.
pub fn vpd_flaw(lookups: &Lookups<'_>, number: u32, row: &VpdRow) -> Option<MibFault>
    requires { cut (number - 1) (position (is_same_place row.now) lookups.now.vpd) ≡ None }
    ensures { result ≡ flaw_by Kind.Vpd number (drop 1 (vpd_rules lookups.now)) (take (number - 1) lookups.now.vpd) row.now }
{
    let at = At::new(Kind::Vpd, number);
    let parameter = lookups.parameter(row.name);
    let unmeasured = is_unmeasured(parameter);
    let bad = is_bad_group(lookups, number, parameter, row);
    at.missing(&[(3, parameter.is_some())])
        .or(at.flaw_if(MibCode::BadType, unmeasured))
        .or(at.flaw_if(MibCode::Group, bad))
}
