// Rows and books that the tests share.
use mib_model::{Name, PcfRow, PidRow, PlfRow, Row, VpdRow};
use mib_tables::Book;
use std::alloc::{AllocError, Global};
use std::process::Abort;

pub(crate) fn name<R: Abort>(rt: &R, octets: &[u8]) -> Name {
    Name::new(octets).expect(rt, "a name")
}

/// A parameter, deduced where it has a PID, of unsigned integers of this format and width (0: the format's).
pub(crate) fn parameter(name: Name, pid: Option<u32>, pfc: u16, width: u32) -> Row {
    Row::Pcf(PcfRow {
        name,
        pid,
        ptc: 3,
        pfc,
        width,
        valid: None,
        categ: b'N',
        natur: b'R',
        curtx: None,
        decim: 0,
        valpar: 1,
        endian: b'B',
    })
}

pub(crate) fn packet(spid: u32, apid: u16) -> Row {
    Row::Pid(PidRow {
        service: 3,
        subtype: 25,
        apid,
        pi1_val: 0,
        pi2_val: 0,
        spid,
        tpsd: -1,
        dfhsize: 10,
    })
}

pub(crate) fn place(name: Name, spid: u32) -> Row {
    Row::Plf(PlfRow {
        name,
        spid,
        offby: 10,
        offbi: 0,
        nbocc: 1,
        lgocc: 0,
    })
}

pub(crate) fn structure_row(tpsd: u32, pos: u16, name: Name) -> Row {
    Row::Vpd(VpdRow {
        tpsd,
        pos,
        name,
        grpsize: 0,
        fixrep: 0,
        choice: b'N',
        pidref: b'N',
        offset: 0,
    })
}

/// A book of these rows.
pub(crate) fn book_of(alloc: Global, rows: &[Row]) -> Result<Book, AllocError> {
    let mut book = Book::empty(alloc);
    for row in rows {
        book.put(*row)?;
    }
    Ok(book)
}
