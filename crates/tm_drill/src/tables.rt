// The tables of a generated run.
ghost use Rattle.std.specs.Prelude.{◌≡◌, ◌+◌, ◌<◌, ◌≤◌, ◌∷◌, [], map, codes, length, pos, IfOk};
ghost use Rattle.std.specs.List.{range_with_len};
ghost use Rattle.mib_model.specs.declared.limits.TheConstants.{TEXT_SIZE};
ghost use Rattle.mib_model.specs.Soundness.{IsSound};
ghost use Rattle.tm_drill.specs.Tables as Spec;

use itoa::Buffer;
use mib_model::{
    Bound, CafRow, CapRow, Dec, Line, Name, OcfRow, OcpRow, PcfRow, PidRow, PlfRow, Tables, Text,
};
use mib_tables::Book;
use std::alloc::{AllocError, Global};

/// The number of parameters.
pub const PARAMETERS: u8 = 16;

/// The number of kinds of packets.
pub const KINDS: u8 = 8;

// The name of a parameter.
fn parameter_name(number: u8) -> Name
    ensures { result ≡ Spec.parameter_name number }
{
    let mut digits = Buffer::new();
    let mut text = Line::new();
    text.add(b"D");
    text.add(digits.format(number).as_bytes());
    Name::new(text.bytes()).unwrap()
}

// The name of the curve.
fn curve_name() -> Name
    ensures { result ≡ Spec.curve_name }
{
    Name::new(b"CV").unwrap()
}

// A decimal of one digit and an exponent.
fn decimal_by(digit: u8, exponent: i8) -> Dec
    ensures { result ≡ record { m = pos digit; e = exponent } }
{
    Dec {
        m: i64::from(digit),
        e: exponent,
    }
}

// A parameter.
fn parameter(number: u8) -> PcfRow
    ensures { result ≡ Spec.parameter number }
{
    let curtx = if number % 2 == 0 {
        Some(curve_name())
    } else {
        None
    };
    PcfRow {
        name: parameter_name(number),
        pid: None,
        ptc: 3,
        pfc: 12,
        width: 0,
        valid: None,
        categ: b'N',
        natur: b'R',
        curtx,
        decim: 0,
        valpar: 1,
        endian: b'B',
    }
}

// The curve.
fn curve() -> CafRow
    ensures { result ≡ Spec.curve }
{
    CafRow {
        numbr: curve_name(),
        engfmt: b'R',
        rawfmt: b'U',
        radix: b'D',
        inter: b'F',
    }
}

// A point of the curve.
fn point(xvals: &[u8], yvals: Dec) -> CapRow
    requires { length xvals.now ≤ TEXT_SIZE }
    ensures { result ≡ record { numbr = Spec.curve_name; xvals = xvals.now; yvals = yvals } }
{
    CapRow {
        numbr: curve_name(),
        xvals: Text::new(xvals).unwrap(),
        yvals,
    }
}

// A packet.
fn packet(spid: u8) -> PidRow
    ensures { result ≡ Spec.packet spid }
{
    PidRow {
        service: 3,
        subtype: 25,
        apid: 99 + u16::from(spid),
        pi1_val: 0,
        pi2_val: 0,
        spid: u32::from(spid),
        tpsd: -1,
        dfhsize: 0,
    }
}

// The place of a parameter.
fn place(number: u8) -> PlfRow
    ensures { result ≡ Spec.place number }
{
    PlfRow {
        name: parameter_name(number),
        spid: u32::from(number / 2) + 1,
        offby: if number % 2 == 0 { 10 } else { 12 },
        offbi: 0,
        nbocc: 1,
        lgocc: 0,
    }
}

// The check of a parameter.
fn check(number: u8) -> OcfRow
    ensures { result ≡ Spec.check number }
{
    OcfRow {
        name: parameter_name(number),
        nbchck: 2,
        inter: b'U',
        codin: b'R',
    }
}

// The limits of a parameter.
fn limits(number: u8) -> OcpRow
    ensures { result ≡ Spec.limits number }
{
    OcpRow {
        name: parameter_name(number),
        pos: 1,
        sort: b'S',
        lvalu: Bound::Number(decimal_by(1, 3)),
        hvalu: Bound::Number(decimal_by(6, 4)),
        rlchk: None,
        valpar: 1,
    }
}

fn parameters(alloc: Global, count: u8) -> Result<Vec<PcfRow>, AllocError>
    ensures { IfOk result (λ rows. rows.items ≡ map Spec.parameter (range_with_len 0 count)) }
{
    (0..count).map(|number| parameter(number)).collect(alloc)
}

fn packets(alloc: Global, count: u8) -> Result<Vec<PidRow>, AllocError>
    requires { count < 255 }
    ensures { IfOk result (λ rows. rows.items ≡ map Spec.packet (range_with_len 1 count)) }
{
    (1..count + 1).map(|spid| packet(spid)).collect(alloc)
}

fn places(alloc: Global, count: u8) -> Result<Vec<PlfRow>, AllocError>
    ensures { IfOk result (λ rows. rows.items ≡ map Spec.place (range_with_len 0 count)) }
{
    (0..count).map(|number| place(number)).collect(alloc)
}

fn checks(alloc: Global, count: u8) -> Result<Vec<OcfRow>, AllocError>
    ensures { IfOk result (λ rows. rows.items ≡ map Spec.check (range_with_len 0 count)) }
{
    (0..count).map(|number| check(number)).collect(alloc)
}

fn all_limits(alloc: Global, count: u8) -> Result<Vec<OcpRow>, AllocError>
    ensures { IfOk result (λ rows. rows.items ≡ map Spec.limits (range_with_len 0 count)) }
{
    (0..count).map(|number| limits(number)).collect(alloc)
}

/// The tables of a run. An error is want of memory.
#[tactic(auto, unfolding(crate::specs::Tables::drill_database))]
pub fn drill_tables(alloc: Global) -> Result<Book, AllocError>
    ensures { IfOk result (λ book. book ≡ Spec.drill_database) }
{
    let points = [
        point(b"0", decimal_by(0, 0)),
        point(b"65535", decimal_by(1, 3)),
    ];
    let tables = Tables {
        pcf: parameters(alloc, PARAMETERS)?,
        pid: packets(alloc, KINDS)?,
        pic: Vec::new(alloc),
        tpcf: Vec::new(alloc),
        plf: places(alloc, PARAMETERS)?,
        vpd: Vec::new(alloc),
        cur: Vec::new(alloc),
        caf: Vec::from_slice(alloc, &[curve()])?,
        cap: Vec::from_slice(alloc, &points)?,
        txf: Vec::new(alloc),
        txp: Vec::new(alloc),
        mcf: Vec::new(alloc),
        lgf: Vec::new(alloc),
        ocf: checks(alloc, PARAMETERS)?,
        ocp: all_limits(alloc, PARAMETERS)?,
    };
    Book::new(alloc, tables)
}

/// A run's tables are sound.
pub fn tables_are_sound()
    ensures { IsSound Spec.drill_database }
{}
