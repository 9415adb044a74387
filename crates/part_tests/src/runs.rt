//! Whole runs over a database without rows.
ghost use Rattle.std.specs.Prelude.{◌≡◌, ◌≤◌, [], IfOk};

use decode_session::{RunEnd, RunFault, Stop, decode_run};
use edition_plans::{Ident, Layout, Params, Plans, Structure, Structures};
use mib_model::{Steps, Text, TypeItem};
use std::alloc::{AllocError, Global};
use std::marker::Brand;
use std::sync::ledger::{Blank, Ledger};
use std::test::Fail;
use std::thread::Threads;
use tm_io::{Failed, MemFile, MemShelf, MemSink, Shelf, Sink, Source};

// The plans of a database without rows.
#[derive(Drop)]
struct Bare {
    ident: Ident,
    params: Params,
    ghost no_ident: { ident ≡ record { pids = []; pics = [] } },
    ghost no_params: { params ≡ [] },
}

impl Structures for Bare {
    ghost use Rattle.mib_model.specs.Database.{no_rows};

    ghost tables = { λ _. no_rows };

    #[tactic(auto, unfolding(mib_model::specs::Soundness::flaws, mib_model::specs::Flaws::table_flaws, mib_model::specs::Structures::structure, mib_model::specs::Orders::sorted_by))]
    fn structure(&self, _tpsd: i128) -> Option<&Structure> {
        None
    }

    #[tactic(auto, unfolding(mib_model::specs::Structures::deduced))]
    fn deduced(&self, _pid: i128) -> Option<TypeItem> {
        None
    }
}

impl Plans for Bare {
    #[tactic(auto, unfolding(mib_model::specs::Soundness::flaws, mib_model::specs::Flaws::table_flaws))]
    fn ident(&self) -> &Ident {
        &self.ident
    }

    #[tactic(auto, unfolding(edition_plans::specs::Layouts::layout_of))]
    fn layout(&self, _spid: u32) -> Option<&Layout> {
        None
    }

    #[tactic(auto, unfolding(mib_model::specs::Soundness::flaws, mib_model::specs::Flaws::table_flaws, mib_model::specs::Orders::sorted_by, edition_plans::specs::Params::param_slices))]
    fn params(&self) -> &Params {
        &self.params
    }

    fn title(&self, _spid: u32) -> Option<&Text> {
        None
    }
}

fn ident_with<L: Ledger>(alloc: Global, blank: Blank) -> Result<Ident, AllocError>
    requires name { blank.name ≡ L.name }
    requires parts { blank.parts ≡ L.parts }
    requires one { blank.parts ≡ 1 }
    ensures { IfOk result (λ ident. ident ≡ record { pids = []; pics = [] }) }
{
    Ident::compile(alloc, &[], &[], &mut Steps::<L>::new(blank))
}

fn bare_plans(alloc: Global) -> Result<Bare, AllocError> {
    Ok(Bare {
        ident: ident_with::<Brand>(alloc, Blank::new(1))?,
        params: Params::new(alloc, Vec::new(alloc))?,
    })
}

// A run with these plans.
fn run<R: Threads + Sync, S: Source, O: Sink>(
    rt: &R,
    alloc: Global,
    source: &mut S,
    out: &mut O,
    workers: u8,
) -> Result<Result<RunEnd, RunFault>, Fail>
    requires { 1 ≤ workers }
{
    let plans = bare_plans(alloc)?;
    Ok(decode_run(rt, alloc, &plans, source, out, workers))
}

// A feed of this file, which fails at these positions and gives so many octets at once.
fn feed(alloc: Global, octets: &[u8], fails: &[u64], most: usize) -> Result<MemShelf, Fail>
    requires { 1 ≤ most }
{
    let file = MemFile {
        name: String::from_str(alloc, "feed")?,
        bytes: Vec::from_slice(alloc, octets)?,
        fails: Vec::from_slice(alloc, fails)?,
    };
    let mut shelf = MemShelf::new(vec![in alloc; file]?, most);
    let _turned = shelf.aim("feed");
    Ok(shelf)
}

// So many packets of APID 100, counted from 0.
fn packets(alloc: Global, count: u8) -> Result<Vec<u8>, Fail> {
    let mut octets = Vec::new(alloc);
    for n in 0..count {
        octets.extend_from_slice(&[0x08, 0x64, 0xC0, n, 0x00, 0x02, 0x10, 0x03, 0x19])?;
    }
    Ok(octets)
}

// A source of which nothing is known to be there.
#[derive(Drop)]
struct Late<S> {
    source: S,
}

impl<S: Source> Source for Late<S> {
    ghost left = { λ late. S.left late.source };

    ghost faults = { λ late. S.faults late.source };

    ghost holds = { λ late. S.holds late.source };

    ghost missed = { λ late. S.missed late.source };

    ghost borrow = { λ late. S.borrow late.source };

    fn read(&mut self, buf: &mut [u8]) -> Result<usize, Failed> {
        self.source.read(buf)
    }

    fn at_hand(&self) -> &[u8] {
        &[]
    }
}

// Counts how often it was asked to hand on.
#[derive(Drop)]
struct Flushes {
    count: u64,
}

impl Sink for Flushes {
    ghost use Rattle.std.specs.Prelude.{None};

    ghost written = { λ _. None };

    ghost handed = { λ _. None };

    ghost faults = { λ _. 0 };

    fn write(&mut self, piece: &[u8]) -> Result<usize, Failed> {
        Ok(piece.len())
    }

    fn flush(&mut self) -> Result<(), Failed> {
        self.count = self.count.wrapping_add(1);
        Ok(())
    }
}

#[test]
fn what_was_written_is_handed_on_before_a_wait(rt: HostRuntime) -> Result<(), Fail> {
    let alloc = rt.alloc();
    let octets = packets(alloc, 9)?;
    let mut out = Flushes { count: 0 };
    let mut source = feed(alloc, &octets, &[], 5)?;
    let ended = run(&rt, alloc, &mut source, &mut out, 2)?;
    assert_eq!(rt; ended, Ok(RunEnd::Whole));
    assert_eq!(rt; out.count, 2);
    out.count = 0;
    let mut source = Late {
        source: feed(alloc, &octets, &[], 5)?,
    };
    let ended = run(&rt, alloc, &mut source, &mut out, 2)?;
    assert_eq!(rt; ended, Ok(RunEnd::Whole));
    assert_eq!(rt; out.count, 11);
    Ok(())
}
