//! What each entry does to the state of a register.
ghost use Rattle.std.specs.Prelude.{◌≡◌, ◌+◌, ◌<◌, true, false, Some, MatchOption, nat_le, IfOk};
ghost use Rattle.std.specs.Arc.{arc_value};
ghost use Rattle.run_model.specs.Register.{answer_to, count_of_editions, has_edition, is_disorder, last_pending, opening};
ghost use Rattle.run_model.specs.RegisterHistories.{MayEnter};
ghost use Rattle.edition_register.specs.Bounded.{bounded_after};
ghost use Rattle.edition_register.specs.Stored.{answer_of, begins, event_of, state_of, Does, Fits, FitsUse, Gives};
ghost use Rattle.edition_register.specs.declared.entry.Entry.TheVariants as entry;

use crate::editions::Editions;
use crate::entry::{Entry, Reply};
use crate::start::{Pending, Start};
use mib_model::{MadeFor, Rows};
use std::alloc::{AllocError, Global};
use std::collections::VecDeque;
use std::snapshot::Snapshot;
use std::sync::Arc;
use turn_cell::Machine;

// The most editions, and the most activations that are pending.
const MOST_EDITIONS: usize = 64;

const MOST_PENDING: usize = 16;

impl<E: Rows + Drop, B: MadeFor + Drop> Editions<E, B> {
    /// Over the first edition. Room is reserved for all that a register may keep.
    pub fn new(alloc: Global, first: Arc<E>) -> Result<Editions<E, B>, AllocError>
        ensures opens { IfOk result (λ s. state_of s ≡ opening (E.tables (arc_value first))) }
    {
        let mut handles = Vec::with_capacity(alloc, MOST_EDITIONS)?;
        let waiting = VecDeque::with_capacity(alloc, MOST_PENDING)?;
        handles.push_reserved(first);
        Ok(Editions {
            next: 1,
            handles,
            from: 0,
            edition: 1,
            waiting,
        })
    }

    /// The number of the next packet, and how many editions there are.
    pub fn end(self) -> (u64, u32)
        ensures next { result.0 ≡ (state_of self).next }
        ensures editions { result.1 ≡ count_of_editions (state_of self) }
    {
        (self.next, self.handles.len() as u32)
    }

    fn count(&self) -> u32
        ensures { result ≡ count_of_editions (state_of self.now) }
    {
        self.handles.len() as u32
    }

    fn has(&self, edition: u32) -> bool
        ensures { result ≡ has_edition (state_of self.now) edition }
    {
        1 <= edition && edition <= self.count()
    }

    // Whether an activation begins with the next packet.
    fn begins(&self) -> bool
        ensures { result ≡ begins (state_of self.now) }
    {
        match self.waiting.front() {
            Some(first) => first.from == self.next,
            None => false,
        }
    }

    // The first packet of the last activation that is pending.
    fn last(&self) -> Option<u64>
        ensures { result ≡ last_pending (state_of self.now) }
    {
        let last = self.waiting.back()?;
        Some(last.from)
    }

    // The packet of the last pending activation, where it is this packet or a later one.
    fn disorder(&self, from: u64) -> Option<u64>
        ensures { MatchOption result (is_disorder from (last_pending (state_of self.now)) ≡ false)
            (λ last. (last_pending (state_of self.now) ≡ Some last) × (nat_le from last ≡ true)) }
    {
        let last = self.last()?;
        if from <= last { Some(last) } else { None }
    }
}

impl<E: Rows + Drop, B: MadeFor + Drop> Editions<E, B> {
    // A stamp with which no activation begins.
    fn go_on(&mut self) -> Reply<E, B>
        requires number { (state_of self.old).next < 18446744073709551615 }
        requires begins { begins (state_of self.old) ≡ false }
        ensures does { Does E.tables E.plans B.made_for (state_of self.old) entry.Stamp result (state_of self.new) }
    {
        let number = self.next;
        self.next += 1;
        let edition = self.edition;
        let tables = Snapshot::of(&*self.handles[(edition - 1) as usize]);
        Reply::Stamped {
            number,
            edition,
            tables,
            start: None,
        }
    }

    // A stamp that begins an activation.
    fn begin(&mut self) -> Reply<E, B>
        requires number { (state_of self.old).next < 18446744073709551615 }
        requires begins { begins (state_of self.old) ≡ true }
        ensures does { Does E.tables E.plans B.made_for (state_of self.old) entry.Stamp result (state_of self.new) }
    {
        let Some(
            Pending {
                from,
                edition,
                start,
            },
        ) = self.waiting.pop_front()
        else {
            unreachable!()
        };
        let number = self.next;
        self.next += 1;
        self.from = from;
        self.edition = edition;
        let tables = Snapshot::of(&*self.handles[(edition - 1) as usize]);
        Reply::Stamped {
            number,
            edition,
            tables,
            start: Some(start),
        }
    }

    fn stamp(&mut self) -> Reply<E, B>
        requires number { (state_of self.old).next < 18446744073709551615 }
        ensures does { Does E.tables E.plans B.made_for (state_of self.old) entry.Stamp result (state_of self.new) }
    {
        if self.begins() {
            self.begin()
        } else {
            self.go_on()
        }
    }

    fn add(&mut self, payload: Arc<E>) -> Reply<E, B>
        ensures does { Does E.tables E.plans B.made_for (state_of self.old) (entry.Add payload) result (state_of self.new) }
    {
        if self.handles.len() >= MOST_EDITIONS {
            return Reply::FullEditions { payload };
        }
        self.handles.push_reserved(payload);
        Reply::Added {
            edition: self.handles.len() as u32,
        }
    }

    fn add_on(&mut self, base: u32, payload: Arc<E>) -> Reply<E, B>
        ensures does { Does E.tables E.plans B.made_for (state_of self.old) (entry.AddOn base payload) result (state_of self.new) }
    {
        let newest = self.count();
        if base != newest {
            return Reply::Stale { newest, payload };
        }
        self.add(payload)
    }

    fn use_now(&mut self, edition: u32, start: Option<Start<E, B>>) -> Reply<E, B>
        requires fits { FitsUse E.tables B.made_for (state_of self.old) edition start }
        ensures does { Does E.tables E.plans B.made_for (state_of self.old) (entry.Use edition start) result (state_of self.new) }
    {
        let Some(start) = start else {
            let count = self.count();
            return Reply::NoEdition { count, start: None };
        };
        let from = self.next;
        self.waiting.clear();
        self.waiting.push_back_reserved(Pending {
            from,
            edition,
            start,
        });
        Reply::Used { from }
    }

    fn use_from(&mut self, edition: u32, from: u64, start: Option<Start<E, B>>) -> Reply<E, B>
        requires fits { FitsUse E.tables B.made_for (state_of self.old) edition start }
        ensures does { Does E.tables E.plans B.made_for (state_of self.old) (entry.UseFrom edition from start) result (state_of self.new) }
    {
        let Some(start) = start else {
            let count = self.count();
            return Reply::NoEdition { count, start: None };
        };
        let next = self.next;
        if from < next {
            return Reply::Late {
                next,
                start: Some(start),
            };
        }
        if let Some(last) = self.disorder(from) {
            return Reply::Disorder {
                last,
                start: Some(start),
            };
        }
        if self.waiting.len() >= MOST_PENDING {
            return Reply::FullPending { start: Some(start) };
        }
        self.waiting.push_back_reserved(Pending {
            from,
            edition,
            start,
        });
        Reply::Used { from }
    }

    fn newest(&mut self) -> Reply<E, B>
        ensures does { Does E.tables E.plans B.made_for (state_of self.old) entry.Newest result (state_of self.new) }
    {
        let edition = self.count();
        let handle = Arc::try_clone(&self.handles[(edition - 1) as usize]);
        let tables = Snapshot::of(&*self.handles[(edition - 1) as usize]);
        Reply::Drawn {
            edition,
            tables,
            handle,
        }
    }

    fn look(&mut self, edition: u32) -> Reply<E, B>
        ensures does { Does E.tables E.plans B.made_for (state_of self.old) (entry.Look edition) result (state_of self.new) }
    {
        if !self.has(edition) {
            let count = self.count();
            return Reply::NoEdition { count, start: None };
        }
        let handle = Arc::try_clone(&self.handles[(edition - 1) as usize]);
        let tables = Snapshot::of(&*self.handles[(edition - 1) as usize]);
        Reply::Drawn {
            edition,
            tables,
            handle,
        }
    }
}

impl<E: Rows + Drop, B: MadeFor + Drop> Machine for Editions<E, B> {
    type Entry = Entry<E, B>;

    type Reply = Reply<E, B>;

    type State = run_model::Register;

    type Event = run_model::Entry;

    type Answer = run_model::Answer;

    ghost state = { λ s. state_of s };

    ghost event = { λ e. event_of E.tables E.plans e };

    ghost answer = { λ r. answer_of E.tables r };

    ghost reply = { answer_to };

    ghost after = { bounded_after };

    ghost fits = { Fits E.tables B.made_for };

    ghost gives = { Gives E.tables B.made_for };

    ghost may = { MayEnter };

    #[inline(always)]
    fn act(&mut self, entry: Entry<E, B>) -> Reply<E, B> {
        match entry {
            Entry::Stamp => self.stamp(),
            Entry::Add(payload) => self.add(payload),
            Entry::AddOn { base, payload } => self.add_on(base, payload),
            Entry::Use { edition, start } => self.use_now(edition, start),
            Entry::UseFrom {
                edition,
                from,
                start,
            } => self.use_from(edition, from, start),
            Entry::Newest => self.newest(),
            Entry::Look { edition } => self.look(edition),
        }
    }
}
