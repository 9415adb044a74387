// The rules of soundness, table by table, but for rows that stand twice: the first flaw of a row.
// [SCOS-2000 Database Import ICD, integrity of the lookups.]
ghost use Rattle.std.specs.Prelude.{◌≡◌, ◌-◌, ◌==◌, ◌&&◌, ◌||◌, int_lt, pos, drop, take, is_some, is_none, Option, Some, None};
ghost use Rattle.std.specs.Option.{option_copied};
ghost use Rattle.mib_model.specs.Fixed.{has_layout};
ghost use Rattle.mib_model.specs.Parameters.{parameter, parameter_encoding};
ghost use Rattle.mib_model.specs.References.{has_parameter, has_structure, has_curve, if_given};
ghost use Rattle.mib_model.specs.RowFlaws.{pcf_rules, pid_rules, plf_rules, ocf_rules, ocp_rules, has_selections, is_narrow, is_measured_deduced};
ghost use Rattle.mib_model.specs.CurveFlaws.{cur_rules, caf_rules, has_curve_of};
ghost use Rattle.row_flaws.specs.Firsts.{flaw_by};

use crate::flaw::At;
use crate::lookups::Lookups;
use crate::types::encoding;
use mib_model::{
    CafRow, CurRow, Kind, MibCode, MibFault, Name, OcfRow, OcpRow, PcfRow, PidRow, PlfRow,
};

// A curve of a category.
fn has_curve(lookups: &Lookups<'_>, categ: u8, name: Name) -> bool
    ensures { result ≡ has_curve lookups.now categ name }
{
    match categ {
        b'S' => lookups.has_texts(name),
        b'T' => true,
        _ => {
            lookups.has_points(name) || lookups.has_polynomial(name) || lookups.has_logarithm(name)
        }
    }
}

// A parameter that may be left out.
fn has_given_parameter(lookups: &Lookups<'_>, name: Option<Name>) -> bool
    ensures { result ≡ if_given name (has_parameter lookups.now) }
{
    match name {
        Some(name) => lookups.has_parameter(name),
        None => true,
    }
}

// A curve that may be left out.
fn has_given_curve(lookups: &Lookups<'_>, categ: u8, name: Option<Name>) -> bool
    ensures { result ≡ if_given name (has_curve lookups.now categ) }
{
    match name {
        Some(name) => has_curve(lookups, categ, name),
        None => true,
    }
}

// The width of the row is below that of its type.
fn is_narrow(row: &PcfRow) -> bool
    ensures { result ≡ is_narrow row.now.width (parameter_encoding row.now) }
{
    match encoding(row) {
        Some(shape) => row.width != 0 && row.width < u32::from(shape.width()),
        None => false,
    }
}

fn has_selections(lookups: &Lookups<'_>, name: Name) -> bool
    ensures { result ≡ has_selections lookups.now name }
{
    lookups.selections(name) != 0
}

fn has_unknown_type(row: &PcfRow) -> bool
    ensures { result ≡ is_none (parameter_encoding row.now) }
{
    encoding(row).is_none()
}

/// PCF: references of measured parameters, their types and widths, and a curve beside selections.
pub fn pcf_flaw(lookups: &Lookups<'_>, number: u32, row: &PcfRow) -> Option<MibFault>
    ensures { result ≡ flaw_by Kind.Pcf number (drop 1 (pcf_rules lookups.now)) (take (number - 1) lookups.now.pcf) row.now }
{
    let at = At::new(Kind::Pcf, number);
    let valid = !row.is_measured() || has_given_parameter(lookups, row.valid);
    let curve = !row.is_measured() || has_given_curve(lookups, row.categ, row.curtx);
    let bad_type = row.is_measured() && has_unknown_type(row);
    let narrow = row.is_measured() && !row.is_deduced() && is_narrow(row);
    let both = row.is_measured() && row.curtx.is_some() && has_selections(lookups, row.name);
    at.missing(&[(8, valid), (12, curve)])
        .or(at.flaw_if(MibCode::BadType, bad_type))
        .or(at.flaw_if(MibCode::Width, narrow))
        .or(at.flaw_if(MibCode::Both, both))
}

fn has_given_structure(lookups: &Lookups<'_>, row: &PidRow) -> bool
    ensures { result ≡ (has_layout row.now || has_structure lookups.now row.now.tpsd) }
{
    row.has_layout() || lookups.structure_rows(row.tpsd.unsigned_abs()) != 0
}

/// PID: the structure of a packet.
pub fn pid_flaw(lookups: &Lookups<'_>, number: u32, row: &PidRow) -> Option<MibFault>
    ensures { result ≡ flaw_by Kind.Pid number (drop 1 (pid_rules lookups.now)) (take (number - 1) lookups.now.pid) row.now }
{
    let at = At::new(Kind::Pid, number);
    at.missing(&[(9, has_given_structure(lookups, row))])
}

fn is_measured_deduced(row: Option<&PcfRow>) -> bool
    ensures { result ≡ is_measured_deduced (option_copied row.entry) }
{
    match row {
        Some(row) => row.is_measured() && row.is_deduced(),
        None => false,
    }
}

/// PLF: a parameter and a packet, and no deduced parameter.
pub fn plf_flaw(lookups: &Lookups<'_>, number: u32, row: &PlfRow) -> Option<MibFault>
    ensures { result ≡ flaw_by Kind.Plf number (drop 1 (plf_rules lookups.now)) (take (number - 1) lookups.now.plf) row.now }
{
    let at = At::new(Kind::Plf, number);
    let parameter = lookups.parameter(row.name);
    let deduced = is_measured_deduced(parameter);
    at.missing(&[(1, parameter.is_some()), (2, lookups.has_packet(row.spid))])
        .or(at.flaw_if(MibCode::BadType, deduced))
}

// A curve of the category of a parameter.
fn has_curve_of(lookups: &Lookups<'_>, row: Option<&PcfRow>, name: Name) -> bool
    ensures { result ≡ has_curve_of lookups.now (option_copied row.entry) name }
{
    match row {
        Some(row) => has_curve(lookups, row.categ, name),
        None => true,
    }
}

/// CUR: the parameters and the curve of a selection.
pub fn cur_flaw(lookups: &Lookups<'_>, number: u32, row: &CurRow) -> Option<MibFault>
    ensures { result ≡ flaw_by Kind.Cur number (drop 1 (cur_rules lookups.now)) (take (number - 1) lookups.now.cur) row.now }
{
    let at = At::new(Kind::Cur, number);
    let parameter = lookups.parameter(row.pname);
    let curve = has_curve_of(lookups, parameter, row.curve);
    at.missing(&[
        (1, parameter.is_some()),
        (3, lookups.has_parameter(row.rlchk)),
        (5, curve),
    ])
}

/// CAF: two points at least, where the raw values are whole numbers.
pub fn caf_flaw(lookups: &Lookups<'_>, number: u32, row: &CafRow) -> Option<MibFault>
    ensures { result ≡ flaw_by Kind.Caf number (drop 1 (caf_rules lookups.now)) (take (number - 1) lookups.now.caf) row.now }
{
    let at = At::new(Kind::Caf, number);
    let few = row.rawfmt != b'R' && lookups.points(row.numbr) < 2;
    at.flaw_if(MibCode::Points, few)
}

/// OCF: the parameter of a check.
pub fn ocf_flaw(lookups: &Lookups<'_>, number: u32, row: &OcfRow) -> Option<MibFault>
    ensures { result ≡ flaw_by Kind.Ocf number (drop 1 (ocf_rules lookups.now)) (take (number - 1) lookups.now.ocf) row.now }
{
    let at = At::new(Kind::Ocf, number);
    at.missing(&[(1, lookups.has_parameter(row.name))])
}

/// OCP: the check of a limit, and the parameter of its condition.
pub fn ocp_flaw(lookups: &Lookups<'_>, number: u32, row: &OcpRow) -> Option<MibFault>
    ensures { result ≡ flaw_by Kind.Ocp number (drop 1 (ocp_rules lookups.now)) (take (number - 1) lookups.now.ocp) row.now }
{
    let at = At::new(Kind::Ocp, number);
    let condition = has_given_parameter(lookups, row.rlchk);
    at.missing(&[(1, lookups.has_check(row.name)), (6, condition)])
}
