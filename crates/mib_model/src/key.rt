ghost use Rattle.std.specs.Prelude.{◌≡◌};
ghost use Rattle.mib_model.specs.Keys.{key_in};

use crate::name::{Name, Text};
use crate::rows::Row;

/// The key of a row: the key columns of its table, in their order.
#[derive(Clone, Copy, PartialEq, Eq, Hash)]
pub enum Key {
    Pcf {
        name: Name,
    },
    Pid {
        spid: u32,
    },
    Pic {
        service: u8,
        subtype: u8,
        apid: Option<u16>,
    },
    Tpcf {
        spid: u32,
    },
    Plf {
        name: Name,
        spid: u32,
    },
    Vpd {
        tpsd: u32,
        pos: u16,
    },
    Cur {
        pname: Name,
        pos: u16,
    },
    Caf {
        numbr: Name,
    },
    Cap {
        numbr: Name,
        xvals: Text,
    },
    Txf {
        numbr: Name,
    },
    Txp {
        numbr: Name,
        low: Text,
    },
    Mcf {
        ident: Name,
    },
    Lgf {
        ident: Name,
    },
    Ocf {
        name: Name,
    },
    Ocp {
        name: Name,
        pos: u16,
    },
}

impl Row {
    /// The row's key.
    pub fn key(&self) -> Key
        ensures { result ≡ key_in self.now }
    {
        match self {
            Row::Pcf(row) => Key::Pcf { name: row.name },
            Row::Pid(row) => Key::Pid { spid: row.spid },
            Row::Pic(row) => Key::Pic {
                service: row.service,
                subtype: row.subtype,
                apid: row.apid,
            },
            Row::Tpcf(row) => Key::Tpcf { spid: row.spid },
            Row::Plf(row) => Key::Plf {
                name: row.name,
                spid: row.spid,
            },
            Row::Vpd(row) => Key::Vpd {
                tpsd: row.tpsd,
                pos: row.pos,
            },
            Row::Cur(row) => Key::Cur {
                pname: row.pname,
                pos: row.pos,
            },
            Row::Caf(row) => Key::Caf { numbr: row.numbr },
            Row::Cap(row) => Key::Cap {
                numbr: row.numbr,
                xvals: row.xvals,
            },
            Row::Txf(row) => Key::Txf { numbr: row.numbr },
            Row::Txp(row) => Key::Txp {
                numbr: row.numbr,
                low: row.low,
            },
            Row::Mcf(row) => Key::Mcf { ident: row.ident },
            Row::Lgf(row) => Key::Lgf { ident: row.ident },
            Row::Ocf(row) => Key::Ocf { name: row.name },
            Row::Ocp(row) => Key::Ocp {
                name: row.name,
                pos: row.pos,
            },
        }
    }
}
