ghost use Rattle.std.specs.Prelude.{◌≡◌, ◌≤◌, length, true, false, Err, IfOk, OnOk, OnErr};
ghost use Rattle.mib_model.specs.Database.{database_of, no_rows};
ghost use Rattle.mib_model.specs.Drafts.{is_held, put_in, rows_of, with_rows, without_key};
ghost use Rattle.mib_model.specs.Keys.{key_in};
ghost use Rattle.mib_model.specs.RowTexts.{kind_in};
ghost use Rattle.mib_model.specs.TableLists.{kind_held, rows_held};
ghost use Rattle.mib_model.specs.declared.limits.TheConstants.{HELD_MOST};
ghost use Rattle.mib_tables.specs.Kinds.{kind_of_key};
ghost use Rattle.mib_tables.specs.Parts.{part_of};
ghost use Rattle.mib_tables.specs.Puts.{put_made};

use crate::table::{DelFault, Put, Table};
use crate::table_set::TableSet;
use mib_model::{
    CafRow, CapRow, CurRow, Key, Kind, LgfRow, McfRow, OcfRow, OcpRow, PcfRow, PicRow, PidRow,
    PlfRow, Row, TableRows, Tables, TpcfRow, TxfRow, TxpRow, VpdRow,
};
use std::alloc::{AllocError, Global};
use std::marker::Model;

/// The 15 tables that operators edit. Contracts see the database that they are.
pub struct Book {
    alloc: Global,
    pcf: Table<PcfRow>,
    pid: Table<PidRow>,
    pic: Table<PicRow>,
    tpcf: Table<TpcfRow>,
    plf: Table<PlfRow>,
    vpd: Table<VpdRow>,
    cur: Table<CurRow>,
    caf: Table<CafRow>,
    cap: Table<CapRow>,
    txf: Table<TxfRow>,
    txp: Table<TxpRow>,
    mcf: Table<McfRow>,
    lgf: Table<LgfRow>,
    ocf: Table<OcfRow>,
    ocp: Table<OcpRow>,
}

/// By hand, so that whoever lets one go proves one call.
impl Drop for Book {
    fn drop(self) {
        let Book {
            alloc: _,
            pcf: _pcf,
            pid: _pid,
            pic: _pic,
            tpcf: _tpcf,
            plf: _plf,
            vpd: _vpd,
            cur: _cur,
            caf: _caf,
            cap: _cap,
            txf: _txf,
            txp: _txp,
            mcf: _mcf,
            lgf: _lgf,
            ocf: _ocf,
            ocp: _ocp,
        } = self;
    }
}

impl Model for Book {
    ghost use Rattle.mib_model.specs.declared.database.Database.{Database};

    ghost Value = { Database };

    ghost view = { λ book. record {
      pcf = book.pcf;
      pid = book.pid;
      pic = book.pic;
      tpcf = book.tpcf;
      plf = book.plf;
      vpd = book.vpd;
      cur = book.cur;
      caf = book.caf;
      cap = book.cap;
      txf = book.txf;
      txp = book.txp;
      mcf = book.mcf;
      lgf = book.lgf;
      ocf = book.ocf;
      ocp = book.ocp;
    } };
}

impl Book {
    /// The rows of tables; more than `HELD_MOST` in one of them are want of memory.
    pub fn new(alloc: Global, tables: Tables) -> Result<Book, AllocError>
        ensures { IfOk result (λ book. book ≡ database_of tables) }
    {
        Ok(Book {
            alloc,
            pcf: Table::new(alloc, tables.pcf)?,
            pid: Table::new(alloc, tables.pid)?,
            pic: Table::new(alloc, tables.pic)?,
            tpcf: Table::new(alloc, tables.tpcf)?,
            plf: Table::new(alloc, tables.plf)?,
            vpd: Table::new(alloc, tables.vpd)?,
            cur: Table::new(alloc, tables.cur)?,
            caf: Table::new(alloc, tables.caf)?,
            cap: Table::new(alloc, tables.cap)?,
            txf: Table::new(alloc, tables.txf)?,
            txp: Table::new(alloc, tables.txp)?,
            mcf: Table::new(alloc, tables.mcf)?,
            lgf: Table::new(alloc, tables.lgf)?,
            ocf: Table::new(alloc, tables.ocf)?,
            ocp: Table::new(alloc, tables.ocp)?,
        })
    }

    /// A book with no rows.
    pub fn empty(alloc: Global) -> Book
        ensures { result ≡ no_rows }
    {
        Book {
            alloc,
            pcf: Table::empty(),
            pid: Table::empty(),
            pic: Table::empty(),
            tpcf: Table::empty(),
            plf: Table::empty(),
            vpd: Table::empty(),
            cur: Table::empty(),
            caf: Table::empty(),
            cap: Table::empty(),
            txf: Table::empty(),
            txp: Table::empty(),
            mcf: Table::empty(),
            lgf: Table::empty(),
            ocf: Table::empty(),
            ocp: Table::empty(),
        }
    }

    /// Gives a table these rows in place of its own; more than `HELD_MOST` are want of memory.
    pub fn fill(&mut self, rows: TableRows) -> Result<(), AllocError>
        ensures rows { OnOk result (self.new ≡ with_rows self.old (kind_held rows) (rows_held rows)) }
        ensures kept { OnErr result (self.new ≡ self.old) }
    {
        match rows {
            TableRows::Pcf(rows) => self.pcf.fill(self.alloc, rows),
            TableRows::Pid(rows) => self.pid.fill(self.alloc, rows),
            TableRows::Pic(rows) => self.pic.fill(self.alloc, rows),
            TableRows::Tpcf(rows) => self.tpcf.fill(self.alloc, rows),
            TableRows::Plf(rows) => self.plf.fill(self.alloc, rows),
            TableRows::Vpd(rows) => self.vpd.fill(self.alloc, rows),
            TableRows::Cur(rows) => self.cur.fill(self.alloc, rows),
            TableRows::Caf(rows) => self.caf.fill(self.alloc, rows),
            TableRows::Cap(rows) => self.cap.fill(self.alloc, rows),
            TableRows::Txf(rows) => self.txf.fill(self.alloc, rows),
            TableRows::Txp(rows) => self.txp.fill(self.alloc, rows),
            TableRows::Mcf(rows) => self.mcf.fill(self.alloc, rows),
            TableRows::Lgf(rows) => self.lgf.fill(self.alloc, rows),
            TableRows::Ocf(rows) => self.ocf.fill(self.alloc, rows),
            TableRows::Ocp(rows) => self.ocp.fill(self.alloc, rows),
        }
    }

    /// Puts a row in the place of the first row of its table that has its key, or behind all others. A table of
    /// `HELD_MOST` rows takes no more: want of memory.
    #[tactic(auto, unfolding(mib_model::specs::Drafts::rows_of))]
    pub fn put(&mut self, row: Row) -> Result<Put, AllocError>
        ensures rows { let table = kind_in row in OnOk result (self.new ≡ with_rows self.old table (put_in row (rows_of self.old table))) }
        ensures made { IfOk result (λ made. made ≡ put_made (is_held (key_in row) (rows_of self.old (kind_in row)))) }
        ensures kept { OnErr result (self.new ≡ self.old) }
    {
        match row {
            Row::Pcf(row) => self.pcf.put(self.alloc, row),
            Row::Pid(row) => self.pid.put(self.alloc, row),
            Row::Pic(row) => self.pic.put(self.alloc, row),
            Row::Tpcf(row) => self.tpcf.put(self.alloc, row),
            Row::Plf(row) => self.plf.put(self.alloc, row),
            Row::Vpd(row) => self.vpd.put(self.alloc, row),
            Row::Cur(row) => self.cur.put(self.alloc, row),
            Row::Caf(row) => self.caf.put(self.alloc, row),
            Row::Cap(row) => self.cap.put(self.alloc, row),
            Row::Txf(row) => self.txf.put(self.alloc, row),
            Row::Txp(row) => self.txp.put(self.alloc, row),
            Row::Mcf(row) => self.mcf.put(self.alloc, row),
            Row::Lgf(row) => self.lgf.put(self.alloc, row),
            Row::Ocf(row) => self.ocf.put(self.alloc, row),
            Row::Ocp(row) => self.ocp.put(self.alloc, row),
        }
    }

    /// Takes the first row with a key out of the key's table.
    #[tactic(auto, unfolding(mib_model::specs::Drafts::rows_of))]
    pub fn del(&mut self, key: &Key) -> Result<(), DelFault>
        ensures held { OnOk result (is_held key.now (rows_of self.old (kind_of_key key.now)) ≡ true) }
        ensures missing { result ≡ Err DelFault.NoRow → is_held key.now (rows_of self.old (kind_of_key key.now)) ≡ false }
        ensures rows { let table = kind_of_key key.now in OnOk result (self.new ≡ with_rows self.old table (without_key key.now (rows_of self.old table))) }
        ensures kept { OnErr result (self.new ≡ self.old) }
    {
        match key {
            Key::Pcf { .. } => self.pcf.del(self.alloc, key),
            Key::Pid { .. } => self.pid.del(self.alloc, key),
            Key::Pic { .. } => self.pic.del(self.alloc, key),
            Key::Tpcf { .. } => self.tpcf.del(self.alloc, key),
            Key::Plf { .. } => self.plf.del(self.alloc, key),
            Key::Vpd { .. } => self.vpd.del(self.alloc, key),
            Key::Cur { .. } => self.cur.del(self.alloc, key),
            Key::Caf { .. } => self.caf.del(self.alloc, key),
            Key::Cap { .. } => self.cap.del(self.alloc, key),
            Key::Txf { .. } => self.txf.del(self.alloc, key),
            Key::Txp { .. } => self.txp.del(self.alloc, key),
            Key::Mcf { .. } => self.mcf.del(self.alloc, key),
            Key::Lgf { .. } => self.lgf.del(self.alloc, key),
            Key::Ocf { .. } => self.ocf.del(self.alloc, key),
            Key::Ocp { .. } => self.ocp.del(self.alloc, key),
        }
    }

    /// A book of its own with this database.
    pub fn copy(&self) -> Result<Book, AllocError>
        ensures { IfOk result (λ book. book ≡ self.now) }
    {
        let alloc = self.alloc;
        Ok(Book {
            alloc,
            pcf: self.pcf.copy()?,
            pid: self.pid.copy()?,
            pic: self.pic.copy()?,
            tpcf: self.tpcf.copy()?,
            plf: self.plf.copy()?,
            vpd: self.vpd.copy()?,
            cur: self.cur.copy()?,
            caf: self.caf.copy()?,
            cap: self.cap.copy()?,
            txf: self.txf.copy()?,
            txp: self.txp.copy()?,
            mcf: self.mcf.copy()?,
            lgf: self.lgf.copy()?,
            ocf: self.ocf.copy()?,
            ocp: self.ocp.copy()?,
        })
    }

    /// A book of its own with the rows of some tables, and none of the others.
    pub fn part(&self, tables: TableSet) -> Result<Book, AllocError>
        ensures { IfOk result (λ part. part ≡ part_of tables self.now) }
    {
        let alloc = self.alloc;
        Ok(Book {
            alloc,
            pcf: self.pcf.copy_if(tables.pcf)?,
            pid: self.pid.copy_if(tables.pid)?,
            pic: self.pic.copy_if(tables.pic)?,
            tpcf: self.tpcf.copy_if(tables.tpcf)?,
            plf: self.plf.copy_if(tables.plf)?,
            vpd: self.vpd.copy_if(tables.vpd)?,
            cur: self.cur.copy_if(tables.cur)?,
            caf: self.caf.copy_if(tables.caf)?,
            cap: self.cap.copy_if(tables.cap)?,
            txf: self.txf.copy_if(tables.txf)?,
            txp: self.txp.copy_if(tables.txp)?,
            mcf: self.mcf.copy_if(tables.mcf)?,
            lgf: self.lgf.copy_if(tables.lgf)?,
            ocf: self.ocf.copy_if(tables.ocf)?,
            ocp: self.ocp.copy_if(tables.ocp)?,
        })
    }

    /// The number of rows of a table.
    #[tactic(auto, unfolding(mib_model::specs::Drafts::rows_of))]
    pub fn count(&self, kind: Kind) -> usize
        ensures { result ≡ length (rows_of self.now kind) }
    {
        match kind {
            Kind::Pcf => self.pcf.rows().len(),
            Kind::Pid => self.pid.rows().len(),
            Kind::Pic => self.pic.rows().len(),
            Kind::Tpcf => self.tpcf.rows().len(),
            Kind::Plf => self.plf.rows().len(),
            Kind::Vpd => self.vpd.rows().len(),
            Kind::Cur => self.cur.rows().len(),
            Kind::Caf => self.caf.rows().len(),
            Kind::Cap => self.cap.rows().len(),
            Kind::Txf => self.txf.rows().len(),
            Kind::Txp => self.txp.rows().len(),
            Kind::Mcf => self.mcf.rows().len(),
            Kind::Lgf => self.lgf.rows().len(),
            Kind::Ocf => self.ocf.rows().len(),
            Kind::Ocp => self.ocp.rows().len(),
        }
    }

    /// The parameters.
    pub fn pcf(&self) -> &[PcfRow]
        ensures rows { result.now ≡ self.now.pcf }
        ensures few { length result.now ≤ HELD_MOST }
    {
        self.pcf.rows()
    }

    /// The packets.
    pub fn pid(&self) -> &[PidRow]
        ensures rows { result.now ≡ self.now.pid }
        ensures few { length result.now ≤ HELD_MOST }
    {
        self.pid.rows()
    }

    /// The criteria by which packets are told apart.
    pub fn pic(&self) -> &[PicRow]
        ensures rows { result.now ≡ self.now.pic }
        ensures few { length result.now ≤ HELD_MOST }
    {
        self.pic.rows()
    }

    /// The names of packets.
    pub fn tpcf(&self) -> &[TpcfRow]
        ensures rows { result.now ≡ self.now.tpcf }
        ensures few { length result.now ≤ HELD_MOST }
    {
        self.tpcf.rows()
    }

    /// The places of parameters in packets of fixed layout.
    pub fn plf(&self) -> &[PlfRow]
        ensures rows { result.now ≡ self.now.plf }
        ensures few { length result.now ≤ HELD_MOST }
    {
        self.plf.rows()
    }

    /// The rows of structures.
    pub fn vpd(&self) -> &[VpdRow]
        ensures rows { result.now ≡ self.now.vpd }
        ensures few { length result.now ≤ HELD_MOST }
    {
        self.vpd.rows()
    }

    /// The selections of curves.
    pub fn cur(&self) -> &[CurRow]
        ensures rows { result.now ≡ self.now.cur }
        ensures few { length result.now ≤ HELD_MOST }
    {
        self.cur.rows()
    }

    /// The curves by points.
    pub fn caf(&self) -> &[CafRow]
        ensures rows { result.now ≡ self.now.caf }
        ensures few { length result.now ≤ HELD_MOST }
    {
        self.caf.rows()
    }

    /// The points of curves.
    pub fn cap(&self) -> &[CapRow]
        ensures rows { result.now ≡ self.now.cap }
        ensures few { length result.now ≤ HELD_MOST }
    {
        self.cap.rows()
    }

    /// The curves by texts.
    pub fn txf(&self) -> &[TxfRow]
        ensures rows { result.now ≡ self.now.txf }
        ensures few { length result.now ≤ HELD_MOST }
    {
        self.txf.rows()
    }

    /// The texts of curves.
    pub fn txp(&self) -> &[TxpRow]
        ensures rows { result.now ≡ self.now.txp }
        ensures few { length result.now ≤ HELD_MOST }
    {
        self.txp.rows()
    }

    /// The polynomials.
    pub fn mcf(&self) -> &[McfRow]
        ensures rows { result.now ≡ self.now.mcf }
        ensures few { length result.now ≤ HELD_MOST }
    {
        self.mcf.rows()
    }

    /// The logarithmic curves.
    pub fn lgf(&self) -> &[LgfRow]
        ensures rows { result.now ≡ self.now.lgf }
        ensures few { length result.now ≤ HELD_MOST }
    {
        self.lgf.rows()
    }

    /// The checks of parameters.
    pub fn ocf(&self) -> &[OcfRow]
        ensures rows { result.now ≡ self.now.ocf }
        ensures few { length result.now ≤ HELD_MOST }
    {
        self.ocf.rows()
    }

    /// The bounds of checks.
    pub fn ocp(&self) -> &[OcpRow]
        ensures rows { result.now ≡ self.now.ocp }
        ensures few { length result.now ≤ HELD_MOST }
    {
        self.ocp.rows()
    }
}
