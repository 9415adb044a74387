// Some of the tables.

/// Some of the 15 tables: those whose flags are set.
#[derive(Clone, Copy)]
pub struct TableSet {
    pub pcf: bool,
    pub pid: bool,
    pub pic: bool,
    pub tpcf: bool,
    pub plf: bool,
    pub vpd: bool,
    pub cur: bool,
    pub caf: bool,
    pub cap: bool,
    pub txf: bool,
    pub txp: bool,
    pub mcf: bool,
    pub lgf: bool,
    pub ocf: bool,
    pub ocp: bool,
}

impl TableSet {
    /// None of the tables.
    pub const NONE: TableSet = TableSet {
        pcf: false,
        pid: false,
        pic: false,
        tpcf: false,
        plf: false,
        vpd: false,
        cur: false,
        caf: false,
        cap: false,
        txf: false,
        txp: false,
        mcf: false,
        lgf: false,
        ocf: false,
        ocp: false,
    };
}
