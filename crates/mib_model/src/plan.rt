use crate::name::Name;
use crate::rows::{
    CafRow, CapRow, CurRow, LgfRow, McfRow, OcfRow, OcpRow, PcfRow, PicRow, PidRow, PlfRow, TxfRow,
    TxpRow, VpdRow,
};
use crate::shape::Endian;
use std::collections::LinkedList;

/// What a layout depends on of a parameter: its name, its type, its width in structures, its nature and its octet order.
#[derive(Clone, Copy, PartialEq, Eq)]
pub struct TypeItem {
    pub name: Name,
    pub ptc: u8,
    pub pfc: u16,
    pub width: u32,
    pub natur: u8,
    pub endian: Endian,
}

/// The name of a compiled plan.
#[derive(Clone, Copy, PartialEq, Eq)]
pub enum PlanName {
    Param(Name),
    Layout(u32),
    Structure(u32),
    Ident,
}

/// The rows of a curve, as contracts see it.
pub enum CurveRows {
    /// A curve by points.
    Points {
        caf: CafRow,
        caps: LinkedList<CapRow>,
    },
    /// A curve by status texts.
    Texts {
        txf: TxfRow,
        txps: LinkedList<TxpRow>,
    },
    /// A polynomial.
    Poly {
        mcf: McfRow,
    },
    /// A logarithmic curve.
    Log {
        lgf: LgfRow,
    },
}

/// The rows that a plan depends on, as contracts see them.
pub enum Slice {
    /// Of a parameter: its row, its selections, a curve for each name of one, its check and its limits.
    Param {
        pcf: PcfRow,
        curs: LinkedList<CurRow>,
        curves: LinkedList<Option<CurveRows>>,
        ocf: Option<OcfRow>,
        ocps: LinkedList<OcpRow>,
    },
    /// Of a fixed layout: the packet's row, its places and their types.
    Layout {
        pid: PidRow,
        plfs: LinkedList<PlfRow>,
        types: LinkedList<TypeItem>,
    },
    /// Of a structure: its rows and their types.
    Structure {
        vpds: LinkedList<VpdRow>,
        types: LinkedList<TypeItem>,
    },
    /// Of the identification of packets.
    Ident {
        pids: LinkedList<PidRow>,
        pics: LinkedList<PicRow>,
    },
}

/// A compiled plan as contracts see it: its name and what it depends on.
pub struct Plan {
    pub name: PlanName,
    pub slice: Slice,
}
