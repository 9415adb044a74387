//! The rows of the 15 tables. A field is a column of the SCOS-2000 Database Import ICD in lower case, in the
//! profile of docs/FORMATS.md; a code is its letter. Contracts see names and texts as octets, numbers as numbers.

use crate::discriminant_width::DiscriminantWidth;
use crate::name::{Name, Text};
use crate::number::Dec;

/// A parameter.
#[derive(Clone, Copy, PartialEq, Eq)]
pub struct PcfRow {
    pub name: Name,
    pub pid: Option<u32>,
    pub ptc: u8,
    pub pfc: u16,
    pub width: u32,
    pub valid: Option<Name>,
    pub categ: u8,
    pub natur: u8,
    pub curtx: Option<Name>,
    pub decim: u8,
    pub valpar: i128,
    pub endian: u8,
}

/// A packet: TYPE is `service` and STYPE is `subtype`.
#[derive(Clone, Copy, PartialEq, Eq)]
pub struct PidRow {
    pub service: u8,
    pub subtype: u8,
    pub apid: u16,
    pub pi1_val: u64,
    pub pi2_val: u64,
    pub spid: u32,
    pub tpsd: i32,
    pub dfhsize: u8,
}

/// Where the discriminants of a kind of packet stand: offsets in octets (-1 is none), widths in bits.
#[derive(Clone, Copy, PartialEq, Eq)]
pub struct PicRow {
    pub service: u8,
    pub subtype: u8,
    pub pi1_off: i32,
    pub pi1_wid: DiscriminantWidth,
    pub pi2_off: i32,
    pub pi2_wid: DiscriminantWidth,
    pub apid: Option<u16>,
}

/// The name of a packet.
#[derive(Clone, Copy, PartialEq, Eq)]
pub struct TpcfRow {
    pub spid: u32,
    pub name: Option<Text>,
}

/// The place of a parameter in a packet of fixed layout: an octet, a bit, and occurrences `lgocc` bits apart.
#[derive(Clone, Copy, PartialEq, Eq)]
pub struct PlfRow {
    pub name: Name,
    pub spid: u32,
    pub offby: u32,
    pub offbi: u8,
    pub nbocc: u16,
    pub lgocc: u16,
}

/// A row of a structure.
#[derive(Clone, Copy, PartialEq, Eq)]
pub struct VpdRow {
    pub tpsd: u32,
    pub pos: u16,
    pub name: Name,
    pub grpsize: u16,
    pub fixrep: u16,
    pub choice: u8,
    pub pidref: u8,
    pub offset: i32,
}

/// The selection of a curve by a condition.
#[derive(Clone, Copy, PartialEq, Eq)]
pub struct CurRow {
    pub pname: Name,
    pub pos: u16,
    pub rlchk: Name,
    pub valpar: i128,
    pub curve: Name,
}

/// A curve by points.
#[derive(Clone, Copy, PartialEq, Eq)]
pub struct CafRow {
    pub numbr: Name,
    pub engfmt: u8,
    pub rawfmt: u8,
    pub radix: u8,
    pub inter: u8,
}

/// A point of a curve.
#[derive(Clone, Copy, PartialEq, Eq)]
pub struct CapRow {
    pub numbr: Name,
    pub xvals: Text,
    pub yvals: Dec,
}

/// A curve by status texts.
#[derive(Clone, Copy, PartialEq, Eq)]
pub struct TxfRow {
    pub numbr: Name,
    pub rawfmt: u8,
}

/// A status text of a range: FROM is `low` and TO is `high`.
#[derive(Clone, Copy, PartialEq, Eq)]
pub struct TxpRow {
    pub numbr: Name,
    pub low: Text,
    pub high: Text,
    pub altxt: Text,
}

/// A polynomial.
#[derive(Clone, Copy, PartialEq, Eq)]
pub struct McfRow {
    pub ident: Name,
    pub pol1: Dec,
    pub pol2: Dec,
    pub pol3: Dec,
    pub pol4: Dec,
    pub pol5: Dec,
}

/// A logarithmic curve.
#[derive(Clone, Copy, PartialEq, Eq)]
pub struct LgfRow {
    pub ident: Name,
}

/// How a parameter is checked.
#[derive(Clone, Copy, PartialEq, Eq)]
pub struct OcfRow {
    pub name: Name,
    pub nbchck: u8,
    pub inter: u8,
    pub codin: u8,
}

/// A bound of a check: a decimal for limits and deltas, a text for status checks.
#[derive(Clone, Copy, PartialEq, Eq)]
pub enum Bound {
    Empty,
    Number(Dec),
    Words(Text),
}

/// A limit, delta or status check: OCP_TYPE is `sort`.
#[derive(Clone, Copy, PartialEq, Eq)]
pub struct OcpRow {
    pub name: Name,
    pub pos: u16,
    pub sort: u8,
    pub lvalu: Bound,
    pub hvalu: Bound,
    pub rlchk: Option<Name>,
    pub valpar: i128,
}

/// A row of any table.
#[derive(Clone, Copy, PartialEq, Eq)]
pub enum Row {
    Pcf(PcfRow),
    Pid(PidRow),
    Pic(PicRow),
    Tpcf(TpcfRow),
    Plf(PlfRow),
    Vpd(VpdRow),
    Cur(CurRow),
    Caf(CafRow),
    Cap(CapRow),
    Txf(TxfRow),
    Txp(TxpRow),
    Mcf(McfRow),
    Lgf(LgfRow),
    Ocf(OcfRow),
    Ocp(OcpRow),
}
