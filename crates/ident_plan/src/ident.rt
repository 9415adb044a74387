ghost use Rattle.std.specs.Prelude.{◌≡◌, ◌+◌, ◌≤◌, ◌==◌, ◌&&◌, [], length, IfOk, OnOk, OnErr, IsTrue, Some, None, false};
ghost use Rattle.std.specs.List.{find, list_any};
ghost use Rattle.std.specs.Option.{option_copied};
ghost use Rattle.mib_model.specs.Headers.{header_of};
ghost use Rattle.mib_model.specs.Match as Spec;
ghost use Rattle.ident_plan.specs.Rows.{has_apid};
ghost use Rattle.mib_model.specs.Match.{lacks_service, is_criterion, found_with, match_by};

use crate::fast::kin::{Kin, kins_of};
use first_rows::FirstRows;
use mib_model::{BadWhy, Found, Header, IDLE_APID, PicRow, PidRow, Steps};
use packet_keys::{ByCriterion, ByPacket, CriterionKey, PacketKey, discriminants, found_by, types};
use std::alloc::{AllocError, Global};
use std::marker::Model;
use std::sync::ledger::Ledger;

/// The tables pid and pic, compiled for identification. Contracts see the rows compiled.
#[derive(Drop)]
pub struct Ident {
    pids: FirstRows<ByPacket>,
    pics: FirstRows<ByCriterion>,
    // Whether a row of pic is of an APID of its own.
    has_own: bool,
    // Whether there is no row of pic.
    pub(crate) is_bare: bool,
    // The rows of pid of each APID, where they are none or one.
    pub(crate) kins: Vec<Kin>,
}

impl Model for Ident {
    ghost use Rattle.std.specs.Prelude.{◌≡◌, [], IsTrue};
    ghost use Rattle.std.specs.List.{list_any};
    ghost use Rattle.ident_plan.specs.Kins.{AreKins};
    ghost use Rattle.ident_plan.specs.Rows.{IdentRows, has_apid};

    ghost Value = { IdentRows };

    ghost view = { λ ident. record { pids = ident.pids; pics = ident.pics } };

    ghost invariant = { λ ident. (ident.has_own ≡ list_any has_apid ident.pics) × AreKins ident.pids ident.kins.items
        × (IsTrue ident.is_bare → ident.pics ≡ []) };
}

// Whether a row of pic is of an APID of its own.
fn have_apids(pics: &[PicRow]) -> bool
    ensures { result ≡ list_any has_apid pics.now }
{
    pics.iter().any(|row| row.apid.is_some())
}

// Whether there is no row of pic.
#[tactic(auto, using(std::proofs::lemmas::List::nil_from_length))]
fn are_none(pics: &[PicRow]) -> bool
    ensures { IsTrue result → pics.now ≡ [] }
{
    pics.is_empty()
}

impl Ident {
    /// Compiles all rows of pid and pic, in file order, in one step. An error is want of memory, and takes no step.
    pub fn compile<L: Ledger>(
        alloc: Global,
        pids: &[PidRow],
        pics: &[PicRow],
        steps: &mut Steps<L>,
    ) -> Result<Ident, AllocError>
        ensures rows { IfOk result (λ ident. ident ≡ record { pids = pids.now; pics = pics.now }) }
        ensures step { OnOk result (steps.new ≡ steps.old + 1) }
        ensures refused { OnErr result (steps.new ≡ steps.old) }
    {
        let has_own = have_apids(pics);
        let is_bare = are_none(pics);
        let kins = kins_of(alloc, pids)?;
        let pids = FirstRows::with_numbers(alloc, pids)?;
        let pics = FirstRows::with_numbers(alloc, pics)?;
        steps.tick();
        Ok(Ident {
            pids,
            pics,
            has_own,
            is_bare,
            kins,
        })
    }

    // The first row of pic with this key.
    fn row_of_pic(&self, key: CriterionKey) -> Option<&PicRow>
        ensures { option_copied result ≡ find (is_criterion key.service key.subtype key.apid) self.now.pics }
    {
        self.pics.find(&key)
    }

    // The first row of pic of these types and this APID.
    fn own_row(&self, service: u8, subtype: u8, apid: u16) -> Option<&PicRow>
        ensures { option_copied result ≡ find (is_criterion service subtype (Some apid)) self.now.pics }
    {
        if !self.has_own {
            return None;
        }
        self.row_of_pic(CriterionKey {
            service,
            subtype,
            apid: Some(apid),
        })
    }

    // The row of pic that stands for a packet: that with its APID before that with none.
    #[tactic(auto, unfolding(mib_model::specs::Match::criterion))]
    fn criterion(&self, header: &Header, packet: &[u8]) -> Option<&PicRow>
        requires header { header.now ≡ header_of packet.now }
        requires long { lacks_service packet.now ≡ false }
        ensures { option_copied result ≡ Spec.criterion self.now.pics packet.now }
    {
        let (service, subtype) = types(packet, header.secondary);
        let own = self.own_row(service, subtype, header.apid);
        if own.is_some() {
            return own;
        }
        self.row_of_pic(CriterionKey {
            service,
            subtype,
            apid: None,
        })
    }

    // The two discriminants of a packet by a search through pic, none where one passes the end.
    #[inline(never)]
    fn values_by_rows(&self, header: &Header, packet: &[u8]) -> Option<(u64, u64)>
        requires header { header.now ≡ header_of packet.now }
        requires long { lacks_service packet.now ≡ false }
        ensures { result ≡ Spec.discriminants packet.now (Spec.criterion self.now.pics packet.now) }
    {
        discriminants(packet, self.criterion(header, packet))
    }

    // The two discriminants of a packet, which are 0 where pic has no rows.
    #[tactic(auto, unfolding(mib_model::specs::Match::criterion))]
    fn values(&self, header: &Header, packet: &[u8]) -> Option<(u64, u64)>
        requires header { header.now ≡ header_of packet.now }
        requires long { lacks_service packet.now ≡ false }
        ensures { result ≡ Spec.discriminants packet.now (Spec.criterion self.now.pics packet.now) }
    {
        if self.is_bare {
            return Some((0, 0));
        }
        self.values_by_rows(header, packet)
    }

    /// The first row of pid with this key, by a probe.
    #[inline(never)]
    pub(crate) fn probed(&self, key: PacketKey) -> Option<&PidRow>
        ensures { option_copied result ≡ find (λ row. (row.apid == key.apid) && (row.service == key.service)
            && (row.subtype == key.subtype) && (row.pi1_val == key.pi1_val) && (row.pi2_val == key.pi2_val)) self.now.pids }
    {
        self.pids.find(&key)
    }

    // What a packet is with these discriminants.
    fn identified(&self, header: &Header, packet: &[u8], values: (u64, u64)) -> Found
        requires header { header.now ≡ header_of packet.now }
        requires long { lacks_service packet.now ≡ false }
        ensures { result ≡ found_with self.now.pids packet.now (Some (values.0, values.1)) }
    {
        let (service, subtype) = types(packet, header.secondary);
        let row = self.row_of_pid(PacketKey {
            apid: header.apid,
            service,
            subtype,
            pi1_val: values.0,
            pi2_val: values.1,
        });
        found_by(row, service, subtype)
    }

    // What a packet is whose header and types refuse nothing, by its discriminants.
    #[inline(never)]
    fn among_rows(&self, header: &Header, packet: &[u8]) -> Found
        requires header { header.now ≡ header_of packet.now }
        requires long { lacks_service packet.now ≡ false }
        ensures { result ≡ found_with self.now.pids packet.now (Spec.discriminants packet.now (Spec.criterion self.now.pics packet.now)) }
    {
        match self.values(header, packet) {
            Some(values) => self.identified(header, packet, values),
            None => Found::Bad(BadWhy::Short),
        }
    }

    // What a packet is whose header and types refuse nothing.
    #[inline(always)]
    fn among(&self, header: &Header, packet: &[u8]) -> Found
        requires header { header.now ≡ header_of packet.now }
        requires long { lacks_service packet.now ≡ false }
        ensures { result ≡ found_with self.now.pids packet.now (Spec.discriminants packet.now (Spec.criterion self.now.pics packet.now)) }
    {
        match self.at_once(header, packet) {
            Some(found) => found,
            None => self.among_rows(header, packet),
        }
    }

    /// What a packet is, by the first rule that applies, where its header was read before. It takes no memory.
    #[inline(always)]
    pub fn find_by(&self, header: &Header, packet: &[u8]) -> Found
        requires packet { 7 ≤ length packet.now }
        requires header { header.now ≡ header_of packet.now }
        ensures { result ≡ match_by self.now.pids self.now.pics packet.now }
    {
        if header.version != 0 {
            return Found::Bad(BadWhy::Version);
        }
        if header.telecommand {
            return Found::Bad(BadWhy::Telecommand);
        }
        if header.apid == IDLE_APID {
            return Found::Idle;
        }
        if header.secondary && packet.len() < 9 {
            return Found::Bad(BadWhy::Short);
        }
        self.among(header, packet)
    }

    /// What a packet of 7 octets or more is, by the first rule that applies. It takes no memory.
    pub fn find(&self, packet: &[u8]) -> Found
        requires { 7 ≤ length packet.now }
        ensures { result ≡ match_by self.now.pids self.now.pics packet.now }
    {
        let header = Header::read(&[
            packet[0], packet[1], packet[2], packet[3], packet[4], packet[5],
        ]);
        self.find_by(&header, packet)
    }
}
