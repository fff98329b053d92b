//! A participant without its domain, between its end and the close of the domain.
ghost use Rattle.std.specs.Prelude.{◌≡◌, [], None, MatchResult};
ghost use Rattle.sdd_domain_core.specs.Domain.{home_of, gamma_of};
ghost use Rattle.sdd_domain_steps.specs.LocalState.{HasOpenGuard};

use crate::domain::Domain;
use crate::local_core::LocalCore;
use sdd_atomics::{DomainSeat, SeatAtTable};
use sdd_core::Limits;
use sdd_domain_steps::collectors::private_table::PrivateTable;
use sdd_domain_steps::epoch::due_items::DueItems;
use sdd_domain_steps::jobs::deferred_jobs::DeferredJobs;
use sdd_domain_steps::slots::free_slot_hints::FreeSlotHints;
use sdd_participants::{Job, Participant, RunningTally, Tally};
use sdd_space::Item;
use sdd_values::ReadSection;
use std::marker::Model;

/// A core with no guard open, which takes no part in its domain until it wakes there.
#[derive(Drop)]
pub struct DetachedLocal<J: Job> {
    seat: DomainSeat,
    limits: Limits,
    place: usize,
    own: Participant,
    due: DueItems,
    known: FreeSlotHints,
    jobs: DeferredJobs<J>,
    next_job: u32,
    privates: PrivateTable,
    next_cell: u32,
    section: ReadSection,
    tally: RunningTally,
}

impl<J: Job> Model for DetachedLocal<J> {
    ghost use Rattle.sdd_domain_steps.specs.LocalState.{LocalState};
    ghost use Rattle.sdd_domain_core.specs.DetachedLocal.{IsDormant};

    ghost Value = { LocalState J };

    ghost view = { λ d. record {
      home = d.seat.table_id;
      gamma = d.seat.me.0.fractions.gamma;
      limits = d.limits;
      place = d.place;
      reader = record { home = d.section.home; number = d.section.number };
      own = d.own;
      known = d.seat.me.0.epoch.known;
      since = d.seat.me.0.epoch.since;
      tally = d.tally;
      sizes = d.seat.me.0.sizes;
      slots = d.seat.me.0.slots;
      shown = d.seat.me.0.fractions.sees;
      filled = d.seat.me.0.fractions.filled;
      words = d.seat.me.0.words;
      due = d.due.items;
      jobs = d.jobs;
      collectors = d.privates.entries;
    } };

    ghost invariant = { λ d. IsDormant d.limits d.place d.own d.due d.known.slots d.jobs d.privates.entries d.section d.seat d.tally };
}

impl<T: Item<T>, J: Job> LocalCore<'_, T, J> {
    /// Takes no part in its domain from now on. Its place stays its own.
    pub fn rest(self) -> DetachedLocal<J>
        requires shut { ¬ (HasOpenGuard self) }
        requires settled { self.due ≡ [] }
        requires closes { self.slots.closes ≡ None }
        ensures { result ≡ self.entry }
    {
        let LocalCore {
            domain,
            seat,
            place,
            state: _,
            nesting: _,
            own,
            due,
            known,
            jobs,
            next_job,
            privates,
            next_cell,
            section,
            tally,
        } = self;
        DetachedLocal {
            seat: seat.into_seat(),
            limits: domain.limits,
            place,
            own,
            due,
            known,
            jobs,
            next_job,
            privates,
            next_cell,
            section,
            tally,
        }
    }
}

impl<J: Job> DetachedLocal<J> {
    /// How many items it made, reclaimed and dropped in place.
    pub fn tally(&self) -> Tally
        ensures { result ≡ self.now.tally }
    {
        self.tally.total()
    }

    /// Takes part in its domain again. It comes back where the domain's limits are others.
    pub fn wake<T: Item<T>>(
        self,
        domain: &Domain<T>,
    ) -> Result<LocalCore<'_, T, J>, DetachedLocal<J>>
        requires home { (self.home ≡ home_of domain.now) × (self.gamma ≡ gamma_of domain.now) }
        ensures shut { ¬ (HasOpenGuard self) }
        ensures settled { self.due ≡ [] }
        ensures closes { self.slots.closes ≡ None }
        ensures same { MatchResult result (λ core. core ≡ self) (λ dormant. dormant ≡ self) }
    {
        if self.limits != domain.limits {
            return Err(self);
        }
        let DetachedLocal {
            seat,
            limits: _,
            place,
            own,
            due,
            known,
            jobs,
            next_job,
            privates,
            next_cell,
            section,
            tally,
        } = self;
        let table = &domain.table;
        Ok(LocalCore {
            domain,
            seat: SeatAtTable { table, seat },
            place,
            state: table.state_word(place),
            nesting: domain.limits.nesting as u32,
            own,
            due,
            known,
            jobs,
            next_job,
            privates,
            next_cell,
            section,
            tally,
        })
    }
}
