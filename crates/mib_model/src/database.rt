use crate::rows::{
    CafRow, CapRow, CurRow, LgfRow, McfRow, OcfRow, OcpRow, PcfRow, PicRow, PidRow, PlfRow,
    TpcfRow, TxfRow, TxpRow, VpdRow,
};
use std::collections::LinkedList;

/// A monitoring database as contracts see it: its 15 tables, each the list of its rows in the order of its file. No
/// value of it is ever made; tables in memory are `Tables`.
pub struct Database {
    pub pcf: LinkedList<PcfRow>,
    pub pid: LinkedList<PidRow>,
    pub pic: LinkedList<PicRow>,
    pub tpcf: LinkedList<TpcfRow>,
    pub plf: LinkedList<PlfRow>,
    pub vpd: LinkedList<VpdRow>,
    pub cur: LinkedList<CurRow>,
    pub caf: LinkedList<CafRow>,
    pub cap: LinkedList<CapRow>,
    pub txf: LinkedList<TxfRow>,
    pub txp: LinkedList<TxpRow>,
    pub mcf: LinkedList<McfRow>,
    pub lgf: LinkedList<LgfRow>,
    pub ocf: LinkedList<OcfRow>,
    pub ocp: LinkedList<OcpRow>,
}
