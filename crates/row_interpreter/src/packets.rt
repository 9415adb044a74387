ghost use Rattle.std.specs.Prelude.{◌≡◌, ◌≤◌, ◌==◌, ◌&&◌, [], length, IfOk, IsTrue, Some, None, false};
ghost use Rattle.std.specs.List.{find};
ghost use Rattle.std.specs.Option.{option_copied};
ghost use Rattle.mib_model.specs.Headers.{header_of};
ghost use Rattle.mib_model.specs.Match as Spec;

use first_rows::FirstRows;
use mib_model::{BadWhy, Found, Header, IDLE_APID, PicRow, PidRow, TpcfRow};
use packet_keys::{ByCriterion, ByPacket, CriterionKey, PacketKey, discriminants, found_by, types};
use row_keys::BySpid;
use std::alloc::{AllocError, Global};
use std::marker::Model;

/// The rows by which packets are identified and named. Contracts see the tables.
pub struct PacketRows {
    packets: FirstRows<ByPacket>,
    criteria: FirstRows<ByCriterion>,
    titles: FirstRows<BySpid<TpcfRow>>,
}

/// By hand, so that whoever lets one go proves one call.
impl Drop for PacketRows {
    fn drop(self) {
        let PacketRows {
            packets: _packets,
            criteria: _criteria,
            titles: _titles,
        } = self;
    }
}

impl Model for PacketRows {
    ghost use Rattle.row_interpreter.specs.Tables.{PacketTables};

    ghost Value = { PacketTables };

    ghost view = { λ rows. record { pid = rows.packets; pic = rows.criteria; tpcf = rows.titles } };
}

impl PacketRows {
    /// The rows of pid, pic and tpcf. An error is want of memory.
    pub fn new(
        alloc: Global,
        pid: &[PidRow],
        pic: &[PicRow],
        tpcf: &[TpcfRow],
    ) -> Result<PacketRows, AllocError>
        ensures { IfOk result (λ rows. rows ≡ record { pid = pid.now; pic = pic.now; tpcf = tpcf.now }) }
    {
        Ok(PacketRows {
            packets: FirstRows::new(alloc, pid)?,
            criteria: FirstRows::new(alloc, pic)?,
            titles: FirstRows::new(alloc, tpcf)?,
        })
    }

    // The first criterion of a key.
    fn criterion_of(&self, key: CriterionKey) -> Option<&PicRow>
        ensures { option_copied result ≡ find (Spec.is_criterion key.service key.subtype key.apid) self.now.pic }
    {
        self.criteria.find(&key)
    }

    // The criterion of a packet: that for its APID, else that for none.
    #[tactic(auto, unfolding(mib_model::specs::Match::criterion))]
    fn criterion(&self, header: &Header, packet: &[u8]) -> Option<&PicRow>
        requires header { header.now ≡ header_of packet.now }
        requires long { Spec.lacks_service packet.now ≡ false }
        ensures { option_copied result ≡ Spec.criterion self.now.pic packet.now }
    {
        let (service, subtype) = types(packet, header.secondary);
        let own = self.criterion_of(CriterionKey {
            service,
            subtype,
            apid: Some(header.apid),
        });
        if own.is_some() {
            return own;
        }
        self.criterion_of(CriterionKey {
            service,
            subtype,
            apid: None,
        })
    }

    // The first packet of a key.
    fn packet_of(&self, key: PacketKey) -> Option<&PidRow>
        ensures { option_copied result ≡ find (λ row. (row.apid == key.apid) && (row.service == key.service)
            && (row.subtype == key.subtype) && (row.pi1_val == key.pi1_val) && (row.pi2_val == key.pi2_val)) self.now.pid }
    {
        self.packets.find(&key)
    }

    // What a packet with these discriminants is: by the first row that agrees with it.
    fn found_with(&self, header: &Header, packet: &[u8], values: (u64, u64)) -> Found
        requires header { header.now ≡ header_of packet.now }
        requires long { Spec.lacks_service packet.now ≡ false }
        ensures { result ≡ Spec.found_with self.now.pid packet.now (Some (values.0, values.1)) }
    {
        let (service, subtype) = types(packet, header.secondary);
        let row = self.packet_of(PacketKey {
            apid: header.apid,
            service,
            subtype,
            pi1_val: values.0,
            pi2_val: values.1,
        });
        found_by(row, service, subtype)
    }

    // What a packet is by its rows, which has a service type and a subtype where it has a secondary header.
    fn identified(&self, header: &Header, packet: &[u8]) -> Found
        requires header { header.now ≡ header_of packet.now }
        requires long { Spec.lacks_service packet.now ≡ false }
        ensures { result ≡ Spec.found_with self.now.pid packet.now (Spec.discriminants packet.now (Spec.criterion self.now.pic packet.now)) }
    {
        match discriminants(packet, self.criterion(header, packet)) {
            Some(values) => self.found_with(header, packet, values),
            None => Found::Bad(BadWhy::Short),
        }
    }

    /// What a packet is, whose header this is: the first of version, type, idle APID, length and identification decides.
    pub fn matched(&self, header: &Header, packet: &[u8]) -> Found
        requires { header.now ≡ header_of packet.now }
        ensures { result ≡ Spec.match_by self.now.pid self.now.pic packet.now }
    {
        if header.version != 0 {
            Found::Bad(BadWhy::Version)
        } else if header.telecommand {
            Found::Bad(BadWhy::Telecommand)
        } else if header.apid == IDLE_APID {
            Found::Idle
        } else if header.secondary && packet.len() < 9 {
            Found::Bad(BadWhy::Short)
        } else {
            self.identified(header, packet)
        }
    }

    /// The first name of a SPID, if it has a row.
    pub fn title_row(&self, spid: u32) -> Option<&TpcfRow>
        ensures { option_copied result ≡ find (λ row. row.spid == spid) self.now.tpcf }
    {
        self.titles.find(&spid)
    }
}
