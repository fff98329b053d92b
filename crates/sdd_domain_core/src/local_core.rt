//! A participant's part in a domain: its guards, what waits with it, and the items that it makes and lets go.
ghost use Rattle.std.specs.Prelude.{◌≡◌, ◌≢◌, ◌↔◌, ◌⊎◌, ◌+◌, ◌*◌, ◌/◌, ◌^◌, ◌<◌, ◌≤◌, ◌==◌, ℕ, List, [], ◌∷◌, false, All, IsTrue, not, IfSome, IfOk, IfErr, MatchOption, MatchResult, None, Some, option_map};
ghost use Rattle.sdd_shared_values.specs.SharedValues.{showing};
ghost use Rattle.sdd_participants.specs.Slab.{entry_at};
ghost use Rattle.sdd_participants.specs.declared.waiting.LimboEntry.{LimboEntry as Entry};
ghost use Rattle.sdd_participants.specs.declared.waiting.LimboEntry.TheVariants.{Item as item};
ghost use Rattle.sdd_domain_steps.specs.WaitingItems.{items_in};
ghost use Rattle.sdd_participants.specs.EpochState.{accelerated, due_next, has_garbage, nested, settled, with_garbage};
ghost use Rattle.sdd_domain_core.specs.Domain.{home_of, gamma_of, limits_of};
ghost use Rattle.sdd_domain_steps.specs.SpaceIds.{home_at, home_in};
ghost use Rattle.sdd_domain_steps.specs.Items.{slots_home};
ghost use Rattle.sdd_domain_steps.specs.Sightings.{AreSeenTaken};
ghost use Rattle.sdd_domain_steps.specs.LocalState.{waits, CanNest, HasOpenGuard, IsNew, IsEntered, GoesOn, LocalState, GuardCloses, IsTold};
ghost use Rattle.sdd_domain_core.specs.Collectors.{GoesFirst};
ghost use Rattle.sdd_domain_steps.specs.InBags.{TellsCollectors};
ghost use Rattle.sdd_domain_core.specs.ScanAtClose.{TellsScan};
ghost use Rattle.sdd_domain_core.specs.TakenSeat.{IsTakenAt};
ghost use Rattle.sdd_domain_invariant.specs.Words.{state_word};
ghost use Rattle.sdd_atomics.specs.TableFacts.{facts_of, sizes_of, places_of};
ghost use Rattle.sdd_space.specs.Guard.{reader_of};
ghost use Rattle.sdd_world_model.specs.OwnerOrCell.{AreOf};
ghost use Rattle.sdd_values.specs.declared.read_sections.SectionState.TheVariants.{Closed as is_closed};

use crate::domain::Domain;
use sdd_atomics::steps::epoch;
use sdd_atomics::{DomainTable, SeatAtTable};
use sdd_core::Refused;
use sdd_domain_steps::collectors::private_table::PrivateTable;
use sdd_domain_steps::epoch::changes::arrive;
use sdd_domain_steps::epoch::due_items::{DueItems, count_items};
use sdd_domain_steps::epoch::ended_counts::EndedCounts;
use sdd_domain_steps::epoch::last_close::{close_last, scan_and_close};
use sdd_domain_steps::epoch::places::{take_place, want_of_memory};
use sdd_domain_steps::epoch::scan::ScanEnd;
use sdd_domain_steps::jobs::deferred_jobs::DeferredJobs;
use sdd_domain_steps::sightings::Sightings;
use sdd_domain_steps::slots::free_slot_hints::FreeSlotHints;
use sdd_domain_steps::slots::values::take_value;
use sdd_participants::{Bags, Job, LimboEntry, Participant, RunningTally, Tally};
use sdd_rights::{GhostKeys, WHOLE};
use sdd_space::inner::{guard_with, into_section};
use sdd_space::{Guard, Item};
use sdd_values::{ReadSection, SectionState};
use std::alloc::{AllocError, Global};
use std::marker::Model;

mod cells;
mod collectors;
pub mod detached_local;
mod in_place;
mod items;
mod jobs;
mod pointers;
mod raw;
mod raw_cells;

/// A participant's core of a domain: its place, its bags, and what it knows of the words.
///
/// It must be spent by `end`.
pub struct LocalCore<'d, T: Item<T>, J: Job> {
    domain: &'d Domain<T>,
    seat: SeatAtTable<'d>,
    place: usize,
    /// Where the state of its place is, as an opening and a close write there.
    state: usize,
    /// How many of its guards may be open at once, as the domain's limits say.
    nesting: u32,
    own: Participant,
    /// What an opening took out of the bags, and has still to reclaim.
    due: DueItems,
    known: FreeSlotHints,
    jobs: DeferredJobs<J>,
    /// Where it looks for a free place of a job first: behind that of the job before. Jobs run in the order in which they were deferred, so that it is the
    /// one that was free for longest.
    next_job: u32,
    /// For which collectors its items wait.
    privates: PrivateTable,
    /// Where it looks for a free cell first.
    next_cell: u32,
    /// What its open guards don't have of its section: each of them has one unit.
    section: ReadSection,
    tally: RunningTally,
}

impl<'d, T: Item<T>, J: Job> Model for LocalCore<'d, T, J> {
    ghost use Rattle.std.specs.Prelude.{◌≡◌};
    ghost use Rattle.sdd_atomics.specs.TableFacts.{facts_of};
    ghost use Rattle.sdd_domain_core.specs.Domain.{gamma_of};
    ghost use Rattle.sdd_domain_core.specs.Noted.{HasNoted};
    ghost use Rattle.sdd_domain_steps.specs.LocalState.{LocalState};
    ghost use Rattle.sdd_domain_steps.specs.BetweenCalls.{IsBetweenCalls, AreLentTo, IsSectionOf, AgreesWithView};
    ghost use Rattle.sdd_domain_steps.specs.InBags.{known_waiting};
    ghost use Rattle.sdd_domain_steps.specs.Receipt.{IsTallied};

    ghost Value = { LocalState J };

    ghost view = { λ l. record {
      home = l.seat.table_id;
      gamma = gamma_of l.domain.now;
      limits = l.domain.now.limits;
      place = l.place;
      reader = record { home = l.section.home; number = l.section.number };
      own = l.own;
      known = l.seat.me.0.epoch.known;
      since = l.seat.me.0.epoch.since;
      tally = l.tally;
      sizes = l.seat.me.0.sizes;
      slots = l.seat.me.0.slots;
      shown = l.seat.me.0.fractions.sees;
      filled = l.seat.me.0.fractions.filled;
      words = l.seat.me.0.words;
      due = l.due.items;
      jobs = l.jobs;
      collectors = l.privates.entries;
    } };

    ghost invariant = { λ l. IsBetweenCalls (facts_of l.domain.now.table) l.place l.own l.seat
        × HasNoted (facts_of l.domain.now.table) l.domain.now.limits l.place l.nesting l.state
        × IsSectionOf l.own l.section × AreLentTo l.section.lifetime l.seat.me.1
        × AgreesWithView (facts_of l.domain.now.table) l.own l.due l.known.slots l.jobs l.privates.entries (known_waiting l.seat.me.0.slots)
        × IsTallied 0 l.tally l.seat.me.0.fractions.counts };
}

/// The memory of a participant.
struct Room<J: Job> {
    bags: Bags,
    due: DueItems,
    known: FreeSlotHints,
    jobs: DeferredJobs<J>,
    privates: PrivateTable,
}

impl<J: Job> Room<J> {
    ghost use Rattle.std.specs.Prelude.{◌≤◌, [], None, replicate};

    /// That for so many slots, and so many places of jobs.
    fn new(alloc: Global, slots: u32, jobs: u32) -> Result<Room<J>, AllocError>
        requires small { slots + jobs < 2 ^ 32 }
        ensures bags { IfOk result (λ room. room.bags ≡ record { waiting = []; room = slots + jobs }) }
        ensures due { IfOk result (λ room. (room.due.items ≡ []) × (slots + jobs ≤ room.due.room)) }
        ensures known { IfOk result (λ room. room.known.slots ≡ slots) }
        ensures jobs { IfOk result (λ room. room.jobs ≡ replicate jobs None) }
        ensures privates { IfOk result (λ room. room.privates.entries ≡ replicate slots None) }
    {
        let most = (slots + jobs) as usize;
        let bags = Bags::with_room(alloc, most)?;
        let due = DueItems::with_room(alloc, most)?;
        let known = FreeSlotHints::new(alloc, slots)?;
        let privates = PrivateTable::new(alloc, slots)?;
        let jobs = DeferredJobs::new(alloc, jobs)?;
        Ok(Room {
            bags,
            due,
            known,
            jobs,
            privates,
        })
    }
}

/// Where the share of the slots begins in which the participant of a place looks first: the places divide the slots evenly.
fn share_of(place: usize, places: usize, slots: u32) -> u32
    requires inside { place < places }
    requires few { places ≤ 2 ^ 32 }
    ensures begins { result ≡ slots * place / places }
    ensures inside { result ≤ slots }
{
    (slots as usize * place / places) as u32
}

/// A law, which does nothing when the program runs: a count that was found fits its type.
#[inline]
fn is_a_count(count: u64)
    ensures { count < 2 ^ 64 }
{
    let _ = count;
}

/// The section of a new participant, whole and with no guard open: the only one of its home.
fn own_section() -> ReadSection
    ensures reader { (result.home.size ≡ 1) × (result.number ≡ 0) }
    ensures closed { result.kind ≡ is_closed }
    ensures whole { result.units ≡ WHOLE }
{
    let mut keys = GhostKeys::new(1);
    keys.issue(&SectionState::Closed)
}

/// A seat with a place, and where the state of that is. Where there is none each place was found taken, which is told for clauses.
fn take_seat(table: &DomainTable) -> Result<(SeatAtTable<'_>, usize, usize), Sightings>
    ensures taken { IfOk result (λ t. IsTakenAt (facts_of table.now) t.1 t.0) }
    ensures state { IfOk result (λ t. t.2 ≡ state_word (sizes_of (facts_of table.now)) t.1) }
    ensures seen { IfErr result (AreSeenTaken 0 (places_of (facts_of table.now))) }
{
    let mut seat = epoch::sit(table);
    let place = match take_place(&mut seat) {
        Ok(place) => place,
        Err(seen) => return Err(seen),
    };
    let state = table.state_word(place);
    epoch::write(&mut seat, state, 0);
    Ok((seat, place, state))
}

impl<'d, T: Item<T>, J: Job> LocalCore<'d, T, J> {
    /// Registers a participant.
    ///
    /// All memory is taken here, and none later: for what may wait with it, for the slots that it gave back, as many as there are slots, and for the
    /// jobs that it defers, as many as the table of jobs has places. `NoPlace` where all places were found taken, which is told for clauses; `NoMemory` where
    /// this memory was refused.
    #[tactic(auto, using(sdd_domain_steps::proofs::MovedValues::carries_nothing, sdd_domain_steps::proofs::MovedValues::none_lent))]
    pub fn register(domain: &'d Domain<T>) -> Result<LocalCore<'d, T, J>, (Refused, Sightings)>
        ensures registered { IfOk result (IsNew (home_of domain.now) (gamma_of domain.now) (limits_of domain.now)) }
        ensures refused { IfErr result (λ e. ((e.0 ≡ Refused.NoPlace) × AreSeenTaken 0 (limits_of domain.now).participants e.1)
            ⊎ (e.0 ≡ Refused.NoMemory)) }
    {
        let slots = domain.limits.slots as u32;
        let jobs = domain.limits.jobs as u32;
        let Ok(room) = Room::new(domain.alloc, slots, jobs) else {
            return Err(want_of_memory(&domain.table));
        };
        let Room {
            bags,
            due,
            mut known,
            jobs: table,
            privates,
        } = room;
        let (seat, place, state) = match take_seat(&domain.table) {
            Ok(taken) => taken,
            Err(seen) => {
                table.destroy();
                return Err((Refused::NoPlace, seen));
            }
        };
        known.begin_at(share_of(place, domain.table.places(), slots));
        Ok(LocalCore {
            domain,
            seat,
            place,
            state,
            nesting: domain.limits.nesting as u32,
            own: Participant::new(bags),
            due,
            known,
            jobs: table,
            next_job: share_of(place, domain.table.places(), jobs),
            privates,
            next_cell: share_of(place, domain.table.places(), domain.limits.cells as u32),
            section: own_section(),
            tally: RunningTally::new(),
        })
    }

    /// Ends the participant, with which nothing waits and so no job, whose place isn't free again.
    pub fn end(self) -> EndedCounts
        requires shut { ¬ (HasOpenGuard self) }
        requires idle { waits self ≡ false }
        requires settled { self.due ≡ [] }
        ensures { result ≡ record { home = slots_home self.entry; tally = self.entry.tally; waits = false } }
    {
        let LocalCore {
            domain,
            mut seat,
            place: _,
            state,
            nesting: _,
            own: _,
            due: _,
            known: _,
            jobs,
            next_job: _,
            privates: _,
            next_cell: _,
            section: _,
            tally,
        } = self;
        jobs.destroy();
        epoch::end(&mut seat, state);
        EndedCounts::new(seat.into_seat(), domain.limits.slots, tally.total())
    }

    /// Something waits with the participant.
    pub fn waits(&self) -> bool
        ensures { result ≡ waits self.now }
    {
        !self.own.bags.is_empty()
    }

    /// How many items its next change makes due.
    pub fn next_due(&self) -> usize
        ensures { result ≡ items_in (due_next self.now.own) }
    {
        count_items(self.own.bags.due())
    }

    /// How many items an opening has still to reclaim.
    pub fn now_due(&self) -> usize
        ensures { result ≡ items_in self.now.due }
    {
        self.due.items()
    }

    /// What an opening has to reclaim next.
    #[inline]
    pub fn first_due(&self) -> Option<LimboEntry>
        ensures { MatchOption result (self.now.due ≡ []) (λ what. (rest : List Entry) × (self.now.due ≡ what ∷ rest)) }
    {
        self.due.first()
    }

    /// Its domain.
    pub fn domain(&self) -> &'d Domain<T>
        ensures home { home_at (home_of result.now) (gamma_of result.now) (limits_of result.now) ≡ home_in self.now }
        ensures limits { limits_of result.now ≡ self.now.limits }
    {
        self.domain
    }

    /// How many items it made, reclaimed and dropped in place.
    pub fn tally(&self) -> Tally
        ensures { result ≡ self.now.tally }
    {
        self.tally.total()
    }

    /// A guard is open.
    #[inline]
    pub fn is_guarded(&self) -> bool
        ensures { IsTrue result ↔ HasOpenGuard self.now }
    {
        self.own.guards > 0
    }

    /// Opens one more guard beside others.
    ///
    /// `TooManyGuards` where as many are open as may nest.
    #[inline(always)]
    pub fn nest(&mut self) -> Result<Guard, Refused>
        requires { HasOpenGuard self.old }
        ensures { MatchResult result
            (λ guard. (reader_of guard ≡ self.old.reader) × CanNest self.old × (self.new ≡ record self.old { own = nested self.old.own }))
            (λ e. (e ≡ Refused.TooManyGuards) × ¬ (CanNest self.old) × (self.new ≡ self.old)) }
    {
        if self.own.guards < self.nesting {
            self.own.guards += 1;
            Ok(guard_with(self.section.split(1)))
        } else {
            Err(Refused::TooManyGuards)
        }
    }

    /// The outermost opening. Where it finds another count than the last one, and something waits, it is true: then what is due is to be reclaimed.
    #[inline(always)]
    pub fn enter(&mut self) -> (Guard, bool)
        requires shut { ¬ (HasOpenGuard self.old) }
        requires settled { self.old.due ≡ [] }
        ensures reader { reader_of result.0 ≡ self.old.reader }
        ensures nests { CanNest self.old }
        ensures entered { (count : ℕ) × (entered : LocalState J) × IsEntered count self.old entered × GoesOn count result.1 self.old entered self.new }
    {
        let goes_on = arrive(
            &mut self.seat,
            self.place,
            self.state,
            &mut self.own,
            &mut self.due,
        );
        self.own.guards = 1;
        self.section.set(&SectionState::Open, &());
        (guard_with(self.section.split(1)), goes_on)
    }

    /// Moves the value out of the item that is due before all others, in this slot, which is given back. None where the close of its collector came first.
    #[inline]
    pub fn reclaim(&mut self, slot: u32) -> Option<T>
        requires first { (rest : List Entry) × (self.old.due ≡ item slot ∷ rest) }
        requires closes { self.old.slots.closes ≡ None }
        ensures gone { GoesFirst slot (option_map (λ (value : T). showing T.row value) result) self.old self.new }
        ensures home { IfSome result (λ value. AreOf (home_in self.old) (T.holds value)) }
    {
        if !self.claim_first(slot) {
            return None;
        }
        self.due.next();
        let value = take_value(&self.domain.values, &mut self.seat, slot);
        self.known.remember(slot);
        self.tally.count_reclaimed();
        Some(value)
    }

    /// It is decided whether anything waits.
    #[inline]
    pub fn settle(&mut self)
        ensures { self.new ≡ record self.old { own = settled self.old.own } }
    {
        self.own.settle();
    }

    /// What is always true of a participant, as a call that does nothing when the program runs: it has a place, and while a guard is open the count
    /// that it knows is the one at its publish or the next; its table tells for which collectors its items wait; what is due comes once;
    /// and for a collector that it closes nothing waits with it but what is due.
    #[inline]
    pub fn stands(&self)
        ensures inside { self.now.place < self.now.limits.participants }
        ensures looked { self.now.slots.closes ≡ None → self.now.slots.looked ≡ 0 }
        ensures collectors { TellsCollectors self.now.limits.slots self.now.collectors self.now.slots.privates }
        ensures once { (slot : ℕ) (rest : List Entry) → self.now.due ≡ item slot ∷ rest → All (λ what. what ≢ item slot) rest }
        ensures none { (collector : ℕ) → self.now.slots.closes ≡ Some collector → self.now.due ≡ [] →
            (slot : ℕ) → entry_at self.now.collectors slot ≢ Some collector }
        ensures near { HasOpenGuard self.now → (self.now.since ≤ self.now.known) × (self.now.known ≤ self.now.since + 1) }
    {
        let _seat = &self.seat;
    }

    /// Closes a guard; the last one publishes the end, after a scan at countdown 0, and tells how that ended. Since the guard is here, one is open.
    #[inline(always)]
    pub fn close_guard(&mut self, guard: Guard) -> Option<ScanEnd>
        requires { reader_of guard ≡ self.old.reader }
        ensures closed { GuardCloses self.old self.new }
        ensures told { TellsScan result self.old self.new }
    {
        let mut share = into_section(guard);
        self.section.apart(&mut share);
        // Behind a scan the number of guards is stored once more: without that, paths that scan nothing were found an instruction longer.
        let (left, told) = if self.own.guards > 1 {
            let left = self.own.guards - 1;
            self.own.guards = left;
            self.section.join(share);
            (left, None)
        } else {
            if self.own.countdown != 0 {
                self.close_last(share);
                return None;
            }
            (0, Some(self.close_last_after_scan(share)))
        };
        prove!(left == self.own.guards);
        self.own.guards = left;
        told
    }

    /// The last close, which gives back the one part of the section that was out: the section ends.
    #[inline(always)]
    fn close_last(&mut self, share: ReadSection)
        requires last { self.old.own.guards ≡ 1 }
        requires unscanned { self.old.own.countdown ≢ 0 }
        requires reader { (share.home ≡ self.old.reader.home) × (share.number ≡ self.old.reader.number) }
        requires single { share.units ≡ 1 }
        ensures closed { GuardCloses self.old self.new }
    {
        is_a_count(self.own.found);
        // No place is marked as ended yet.
        self.own.leave(false);
        close_last(
            &mut self.seat,
            self.place,
            self.state,
            &mut self.section,
            share,
        );
    }

    /// The same at countdown 0, after a scan. Tells how that ended.
    #[inline(always)]
    fn close_last_after_scan(&mut self, share: ReadSection) -> ScanEnd
        requires last { self.old.own.guards ≡ 1 }
        requires scans { self.old.own.countdown ≡ 0 }
        requires reader { (share.home ≡ self.old.reader.home) × (share.number ≡ self.old.reader.number) }
        requires single { share.units ≡ 1 }
        ensures closed { GuardCloses self.old self.new }
        ensures told { TellsScan (Some result) self.old self.new }
    {
        is_a_count(self.own.found);
        // No place is marked as ended yet.
        self.own.leave(false);
        scan_and_close(
            &mut self.seat,
            self.place,
            self.state,
            self.own.found,
            &mut self.section,
            share,
        )
    }

    /// The count of epochs at this moment.
    #[inline]
    pub fn count(&mut self) -> u64
        ensures { IsTold result self.old self.new }
    {
        epoch::read(&mut self.seat)
    }

    /// Something may wait with the participant.
    #[inline]
    pub fn has_garbage(&self) -> bool
        ensures { result ≡ has_garbage self.now.own }
    {
        self.own.has_garbage()
    }

    /// Has the participant count down to a scan, as a retirement does.
    #[inline]
    pub fn set_has_garbage(&mut self)
        ensures { self.new ≡ record self.old { own = with_garbage self.old.own } }
    {
        self.own.set_has_garbage();
    }

    /// Has the last close of the participant scan.
    #[inline]
    pub fn accelerate(&mut self)
        ensures { self.new ≡ record self.old { own = accelerated self.old.own } }
    {
        self.own.countdown = 0;
    }
}
