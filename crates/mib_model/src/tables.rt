use crate::rows::{
    CafRow, CapRow, CurRow, LgfRow, McfRow, OcfRow, OcpRow, PcfRow, PicRow, PidRow, PlfRow,
    TpcfRow, TxfRow, TxpRow, VpdRow,
};

/// The rows of the 15 tables, each in the order of its file. Contracts see them by `database_of`.
#[derive(Drop)]
pub struct Tables {
    pub pcf: Vec<PcfRow>,
    pub pid: Vec<PidRow>,
    pub pic: Vec<PicRow>,
    pub tpcf: Vec<TpcfRow>,
    pub plf: Vec<PlfRow>,
    pub vpd: Vec<VpdRow>,
    pub cur: Vec<CurRow>,
    pub caf: Vec<CafRow>,
    pub cap: Vec<CapRow>,
    pub txf: Vec<TxfRow>,
    pub txp: Vec<TxpRow>,
    pub mcf: Vec<McfRow>,
    pub lgf: Vec<LgfRow>,
    pub ocf: Vec<OcfRow>,
    pub ocp: Vec<OcpRow>,
}

/// The rows of one table, in the order of its file. Contracts see them by `kind_held` and `rows_held`.
#[derive(Drop)]
pub enum TableRows {
    Pcf(Vec<PcfRow>),
    Pid(Vec<PidRow>),
    Pic(Vec<PicRow>),
    Tpcf(Vec<TpcfRow>),
    Plf(Vec<PlfRow>),
    Vpd(Vec<VpdRow>),
    Cur(Vec<CurRow>),
    Caf(Vec<CafRow>),
    Cap(Vec<CapRow>),
    Txf(Vec<TxfRow>),
    Txp(Vec<TxpRow>),
    Mcf(Vec<McfRow>),
    Lgf(Vec<LgfRow>),
    Ocf(Vec<OcfRow>),
    Ocp(Vec<OcpRow>),
}
