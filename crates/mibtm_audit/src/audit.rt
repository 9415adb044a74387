// Where an audit of a text stands, and what it expects next.
ghost use Rattle.std.specs.Prelude.{◌≡◌, ◌≤◌, ℕ, List, [], ◌++◌, ◌∷◌, None, false, true, length, IfOk, OnOk};
ghost use Rattle.mib_model.specs.Headers.{header_of};
ghost use Rattle.mib_model.specs.Texts.{cut_text};
ghost use Rattle.tm_audit.specs.Audit.{compared, refused, tables_of};
ghost use Rattle.tm_audit.specs.Comparing.{parting_with};
ghost use Rattle.tm_audit.specs.declared.code.TheConstants.{TEXT_MOST};
ghost use Rattle.mibtm_audit.specs.Courses.{Against, IsUnderway, Stands};

use mib_model::Header;
use record_text::{Lines, cut_line};
use row_records::{Course, Stamped};
use row_searches::RowSearches;
use std::alloc::{AllocError, Global};
use tm_audit::{AuditCode, Comparison, ShownEditions};

/// Where an audit of a text stands: the rows of the editions, what the packets so far have left, and how far the text was compared.
#[derive(Drop)]
pub(crate) struct Audit<'a> {
    saved: &'a [RowSearches],
    course: Course<'a>,
    // The editions that the text shows for the packets still to come.
    shown: ShownEditions<'a>,
    // How many packets there were.
    packets: u64,
    comparison: Comparison<'a>,
    lines: Lines,
}

impl<'a> Audit<'a> {
    /// Before the first packet. An error is want of memory.
    pub fn new(
        alloc: Global,
        first: &'a RowSearches,
        saved: &'a [RowSearches],
        text: &'a [u8],
    ) -> Result<Audit<'a>, AllocError>
        requires some { 1 ≤ length saved.now }
        requires few { length saved.now ≤ 64 }
        requires admitted { refused (length saved.now) text.now ≡ None }
        requires short { length text.now ≤ TEXT_MOST }
        ensures { IfOk result (Stands (record { first = first.now; saved = saved.now; text = text.now }) []) }
    {
        let course = Course::new(alloc, first);
        let shown = ShownEditions::new(saved.len() as u32, text);
        let comparison = Comparison::new(text);
        let lines = Lines::new(alloc)?;
        Ok(Audit {
            saved,
            course,
            shown,
            packets: 0,
            comparison,
            lines,
        })
    }

    // The rows of an edition.
    fn rows_of(&self, edition: u32) -> &'a RowSearches
        requires some { 1 ≤ edition }
        requires known { edition ≤ length self.now.saved.now }
        ensures { result.now ≡ tables_of self.now.saved.now edition }
    {
        &self.saved[edition as usize - 1]
    }

    /// Expects the record of the next packet. An error is want of memory.
    pub fn expect_packet(
        &mut self,
        alloc: Global,
        header: &Header,
        packet: &[u8],
    ) -> Result<(), AllocError>
        requires header { header.now ≡ header_of packet.now }
        requires short { length packet.now ≤ 65542 }
        requires underway { IsUnderway self.old }
        requires few { self.old.packets ≤ TEXT_MOST }
        ensures stands { OnOk result ((a : Against) (packets : List (List ℕ)) → Stands a packets self.old → Stands a (packets ++ packet.now ∷ []) self.new) }
    {
        let edition = self.shown.take();
        let rows = self.rows_of(edition);
        let stamped = Stamped {
            number: self.packets + 1,
            header,
            packet,
            edition,
            rows,
        };
        self.lines.clear();
        self.course.take(alloc, &stamped, &mut self.lines)?;
        self.comparison.expect(self.lines.bytes());
        self.packets += 1;
        Ok(())
    }

    /// Expects the line of a feed that ends inside a packet, of which so many octets are there.
    pub fn expect_rest(&mut self, octets: u32)
        ensures { (more : List ℕ) → parting_with self.new.comparison more ≡ parting_with self.old.comparison (cut_text octets ++ more) }
    {
        self.lines.clear();
        cut_line(octets, &mut self.lines);
        self.comparison.expect(self.lines.bytes());
    }

    /// What is found of the text by all that was expected.
    pub fn found(&self) -> AuditCode
        ensures { result ≡ compared (parting_with self.now.comparison []) }
    {
        match self.comparison.parting() {
            None => AuditCode::Same,
            Some(line) => AuditCode::Differs { line },
        }
    }

    /// Whether the text parts already from what is expected.
    pub fn is_apart(&self) -> bool
        ensures apart { (more : List ℕ) → result ≡ true → parting_with self.now.comparison more ≡ parting_with self.now.comparison [] }
        ensures together { result ≡ false → (more : List ℕ) × (parting_with self.now.comparison more ≡ None) }
    {
        self.comparison.is_apart()
    }
}
