//! The collector as a machine of single steps, each of which is one atomic step of one participant.
//!
//! Whatever steps are taken in whatever order, what the contract of [`safety`] says holds of each moment.

ghost use Rattle.std.specs.Prelude.{◌≡◌, ◌<◌, ◌≤◌, ◌↔◌, ◌||◌, false, true, length, IfOk, IsOkUnless, IsTrue, List, slice_index_or};
ghost use Rattle.sdd_machine.specs.Table.{is_free, is_open, is_closed, is_reading};
ghost use Rattle.sdd_machine.specs.Views.{gathered, free_post};
ghost use Rattle.sdd_machine.specs.Sizes.{greatest, place_named, item_named, size_for};
ghost use Rattle.sdd_machine.specs.History.{Safe, Exact};
ghost use Rattle.sdd_machine.specs.Laws.{AtEachMoment, ReclaimsWhatWasDue, WaitsWithOneHolder, IsRaisedAtMostOnce, KeepsGenerations, state_after};

mod bags;
mod chains;
mod places;
mod steps;

use crate::inner::machine_for;
use bags::Bags;
use places::{
    Phase, PlacePhase, Scan, adopts, advanced, advances, free_ended, holds, is_idle, looks, skip,
};
use sdd_core::Refused;
use std::alloc::Global;
use std::marker::Model;
pub use steps::{Did, Step};

/// The greatest number of places.
pub const MAX_PLACES: u32 = 1024;

/// The greatest number of items.
pub const MAX_ITEMS: u32 = 16_777_216;

/// The collector as single steps: places, their bags, the count and the lock.
///
/// What a step does is the table that [`Machine::step`] cites; [`safety`] says what every list of steps keeps.
#[derive(Drop)]
pub struct Machine {
    count: u64,
    posts: Vec<PlacePhase>,
    bags: Bags,
    retired: Vec<bool>,
    scan: Option<Scan>,
}

impl Model for Machine {
    ghost use Rattle.sdd_machine.specs.Table.{State};

    ghost Value = { State };

    ghost use Rattle.std.specs.Coded.{codes};
    ghost use Rattle.sdd_machine.specs.Bags.{items_code};

    ghost coded = { Prim.hlevel (codes, items_code) };

    ghost use Rattle.sdd_machine.specs.Views.{places_of, IsMachineState};

    ghost view = { λ a. record {
      count = a.count;
      places = places_of a.posts.items a.bags.trios;
      retired = a.retired.items;
      scan = a.scan;
    } };

    ghost invariant = { λ a. IsMachineState a.posts.items a.bags a.retired.items a.scan };
}

impl Machine {
    ghost use Rattle.sdd_machine.specs.Table.{State, new_state, place_at, with_place, phased, posted, rotated, greatest_size, are_limits, size_of, possible, after, did, did_possible, happens, holds, adopts, looks, advances, passes};
    ghost use Rattle.sdd_machine.specs.Views.{IsHeld};
    ghost use Rattle.std.specs.FinSet as set;

    /// A machine with all places free, the count 0, the lock free and no item retired.
    ///
    /// Refused with `BadLimits` outside of 1 to [`MAX_PLACES`] places and 1 to [`MAX_ITEMS`] items, and with
    /// `NoMemory` where memory was refused.
    pub fn new(alloc: Global, places: u32, items: u32) -> Result<Machine, Refused>
        ensures machine { IfOk result (λ machine. machine ≡ new_state (size_of places items)) }
        // Both ways: limits out of range are refused as such, and other ones only for want of memory.
        ensures bad_limits { (result ≡ Err Refused.BadLimits) ↔ (are_limits (size_of places items) ≡ false) }
        ensures no_memory { IsTrue (are_limits (size_of places items)) → IsOkUnless result Refused.NoMemory }
        ensures greatest { size_of MAX_PLACES MAX_ITEMS ≡ greatest_size }
    {
        if places < 1 || MAX_PLACES < places || items < 1 || MAX_ITEMS < items {
            return Err(Refused::BadLimits);
        }
        Ok(Machine {
            count: 0,
            posts: vec![in alloc; PlacePhase::FREE; places as usize]?,
            bags: Bags::new(alloc, places, items)?,
            retired: vec![in alloc; false; items as usize]?,
            scan: None,
        })
    }

    fn phase(&self, place: u32) -> Phase
        ensures { result ≡ (place_at self.now place).phase }
    {
        match self.posts.get(place as usize) {
            Some(post) => post.phase,
            None => Phase::Free,
        }
    }

    fn found(&self, place: u32) -> u64
        ensures { result ≡ (place_at self.now place).found }
    {
        match self.posts.get(place as usize) {
            Some(post) => post.found,
            None => 0,
        }
    }

    fn places(&self) -> u32
        ensures places { result ≡ length self.now.places }
        ensures few { result ≤ 1024 }
    {
        self.posts.len() as u32
    }

    fn items(&self) -> usize
        ensures { result ≡ length self.now.retired }
    {
        self.retired.len()
    }

    fn count(&self) -> u64
        ensures { result ≡ self.now.count }
    {
        self.count
    }

    fn scan(&self) -> Option<Scan>
        ensures scan { result ≡ self.now.scan }
        ensures held { IsHeld self.now result }
    {
        self.scan
    }

    fn set_count(&mut self, count: u64)
        ensures { self.new ≡ record self.old { count = count } }
    {
        self.count = count;
    }

    fn set_scan(&mut self, scan: Option<Scan>)
        requires { IsHeld self.old scan }
        ensures { self.new ≡ record self.old { scan = scan } }
    {
        self.scan = scan;
    }

    fn is_retired(&self, item: u32) -> bool
        ensures { result ≡ slice_index_or self.now.retired item false }
    {
        match self.retired.get(item as usize) {
            Some(retired) => *retired,
            None => false,
        }
    }

    fn set_phase(&mut self, place: u32, phase: Phase)
        requires place { place < length self.old.places }
        requires other { holds place self.old.scan ≡ true → is_open (place_at self.old place).phase ≡ false }
        requires busy { is_free phase ≡ false }
        ensures { self.new ≡ with_place self.old place (phased phase) }
    {
        self.posts[place as usize].phase = phase;
    }

    fn set_post(&mut self, place: u32, phase: Phase, found: u64)
        requires place { place < length self.old.places }
        requires other { holds place self.old.scan ≡ true → is_open (place_at self.old place).phase ≡ false }
        requires busy { is_free phase ≡ false }
        ensures { self.new ≡ with_place self.old place (posted phase found) }
    {
        self.posts[place as usize] = PlacePhase { phase, found };
    }

    fn rotate(&mut self, place: u32) -> u32
        requires { place < length self.old.places }
        ensures taken { result ≡ set.len (place_at self.old place).next }
        ensures moved { self.new ≡ with_place self.old place rotated }
    {
        self.bags.rotate(place)
    }

    fn retire(&mut self, place: u32, item: u32)
        requires place { place < length self.old.places }
        requires item { item < length self.old.retired }
        requires busy { is_free (place_at self.old place).phase ≡ false }
        requires fresh { slice_index_or self.old.retired item false ≡ false }
        ensures { self.new ≡ after self.old (Step.Retire place item) }
    {
        self.bags.put(place, item);
        self.retired[item as usize] = true;
    }

    fn adopt(&mut self, place: u32)
        requires { adopts place self.old.scan ≡ true }
        ensures { self.new ≡ after self.old (Step.Adopt place) }
    {
        gather(&mut self.bags, self.posts.as_slice(), place);
        free_ended(self.posts.as_mut_slice());
    }

    fn register(&mut self, place: u32)
        requires place { place < length self.old.places }
        requires free { is_free (place_at self.old place).phase ≡ true }
        ensures { self.new ≡ after self.old (Step.Register place) }
    {
        self.posts[place as usize] = PlacePhase {
            phase: Phase::Closed,
            found: 0,
        };
    }

    fn read(&mut self, place: u32)
        requires { is_closed (place_at self.old place).phase ≡ true }
        ensures { self.new ≡ after self.old (Step.Read place) }
    {
        let count = self.count();
        self.set_phase(place, Phase::Reading(count));
    }

    fn lock(&mut self, place: u32)
        requires { is_open (place_at self.old place).phase ≡ true }
        ensures { self.new ≡ after self.old (Step.Lock place) }
    {
        self.set_scan(Some(Scan {
            holder: place,
            cursor: skip(place, 0),
            failed: false,
            advanced: false,
        }));
    }

    fn publish(&mut self, place: u32) -> Did
        requires { is_reading (place_at self.old place).phase ≡ true }
        ensures did { result ≡ did_possible self.old (Step.Publish place) }
        ensures new { self.new ≡ after self.old (Step.Publish place) }
    {
        let count = self.phase(place).read();
        let changed = count != self.found(place);
        self.set_post(place, Phase::Open, count);
        let reclaimed = if changed { self.rotate(place) } else { 0 };
        Did::Opened {
            count,
            changed,
            reclaimed,
        }
    }

    fn passes(&self, scan: Scan) -> bool
        ensures { result ≡ passes (place_at self.now scan.holder).found (place_at self.now scan.cursor) }
    {
        !self.phase(scan.cursor).is_open() || self.found(scan.cursor) == self.found(scan.holder)
    }

    fn look(&mut self, place: u32) -> Did
        requires { looks (length self.old.places) place self.old.scan ≡ true }
        ensures did { result ≡ did_possible self.old (Step.Look place) }
        ensures new { self.new ≡ after self.old (Step.Look place) }
    {
        let places = self.places();
        match self.scan() {
            None => Did::Looked { passed: false },
            Some(scan) => {
                let passed = self.passes(scan);
                let cursor = if scan.cursor < places {
                    skip(scan.holder, scan.cursor + 1)
                } else {
                    scan.cursor
                };
                self.set_scan(Some(Scan {
                    holder: scan.holder,
                    cursor,
                    failed: !passed,
                    advanced: scan.advanced,
                }));
                Did::Looked { passed }
            }
        }
    }

    fn advance(&mut self, place: u32) -> Did
        ensures did { result ≡ did_possible self.old (Step.Advance place) }
        ensures new { self.new ≡ after self.old (Step.Advance place) }
    {
        let count = self.count();
        let raised = count == self.found(place) && count < u64::MAX;
        let scan = advanced(self.scan());
        if raised {
            self.set_count(count + 1);
        }
        self.set_scan(scan);
        Did::Advanced { raised }
    }

    fn may_retire(&self, place: u32) -> bool
        ensures { let phase = (place_at self.now place).phase in result ≡ (is_closed phase || is_open phase) }
    {
        let phase = self.phase(place);
        phase.is_closed() || phase.is_open()
    }

    fn is_possible(&self, step: Step) -> bool
        ensures { result ≡ possible self.now step }
    {
        match step {
            Step::Register(place) => place < self.places() && self.phase(place).is_free(),
            Step::Read(place) => self.phase(place).is_closed(),
            Step::Publish(place) => self.phase(place).is_reading(),
            Step::Retire(place, item) => {
                self.may_retire(place) && (item as usize) < self.items() && !self.is_retired(item)
            }
            Step::Lock(place) => self.phase(place).is_open() && is_idle(self.scan()),
            Step::Adopt(place) => adopts(place, self.scan()),
            Step::Look(place) => looks(self.places(), place, self.scan()),
            Step::Advance(place) => advances(self.places(), place, self.scan()),
            Step::Unlock(place) => holds(place, self.scan()),
            Step::Close(place) => self.phase(place).is_open() && !holds(place, self.scan()),
            Step::End(place) => self.phase(place).is_closed(),
        }
    }

    fn take(&mut self, step: Step) -> Did
        requires { possible self.old step ≡ true }
        ensures did { result ≡ did_possible self.old step }
        ensures new { self.new ≡ after self.old step }
    {
        match step {
            Step::Publish(place) => return self.publish(place),
            Step::Look(place) => return self.look(place),
            Step::Advance(place) => return self.advance(place),
            Step::Register(place) => self.register(place),
            Step::Read(place) => self.read(place),
            Step::Retire(place, item) => self.retire(place, item),
            Step::Lock(place) => self.lock(place),
            Step::Adopt(place) => self.adopt(place),
            Step::Unlock(_) => self.set_scan(None),
            Step::Close(place) => self.set_phase(place, Phase::Closed),
            Step::End(place) => self.set_phase(place, Phase::Ended),
        }
        Did::Done
    }

    /// Takes one step, and says what it did. One that isn't possible changes nothing. It takes no memory.
    pub fn step(&mut self, step: Step) -> Did
        ensures did { result ≡ did self.old step }
        ensures new { self.new ≡ happens self.old step }
    {
        if self.is_possible(step) {
            self.take(step)
        } else {
            Did::NotPossible
        }
    }
}

/// Moves everything left by ended places into the current bag of a place that isn't ended.
fn gather(bags: &mut Bags, posts: &[PlacePhase], place: u32)
    requires few { length posts.now ≤ 1024 }
    requires place { place < length posts.now }
    requires same { length bags.old.trios ≡ length posts.now }
    requires open { is_open (slice_index_or posts.now place free_post).phase ≡ true }
    ensures { bags.new ≡ record bags.old { trios = gathered place posts.now bags.old.trios } }
{
    for (number, post) in posts.iter().enumerate() {
        if post.phase.is_ended() {
            bags.join(place, number as u32);
        }
    }
}

/// As many places as the steps name.
pub(crate) fn places_for(steps: &[Step]) -> u32
    ensures { result ≡ (size_for steps.now).places }
{
    let mut greatest = 0;
    for step in steps {
        greatest = step.place().max(greatest);
    }
    greatest.min(MAX_PLACES - 1) + 1
}

/// As many items as the steps name.
pub(crate) fn items_for(steps: &[Step]) -> u32
    ensures { result ≡ (size_for steps.now).items }
{
    let mut greatest = 0;
    for step in steps {
        greatest = step.item().max(greatest);
    }
    greatest.min(MAX_ITEMS - 1) + 1
}

/// Takes the steps in order, in a machine with as many places and items as they name.
///
/// The history is safe and exact after each of them, in this machine and in one of any other size.
///
/// Refused with `NoMemory` where memory was refused.
pub fn safety(alloc: Global, steps: &[Step]) -> Result<Machine, Refused>
    ensures machine { IfOk result (λ machine. machine ≡ state_after steps.now) }
    ensures no_memory { IsOkUnless result Refused.NoMemory }

    // No retired item is reclaimed while a guard published at its retirement is open.
    ensures safe { AtEachMoment steps.now Safe }
    // None is reclaimed twice, and each at its holder's third change. A publish tells whether it is a change, and how
    // many items it reclaims.
    ensures exact { AtEachMoment steps.now Exact }
    ensures reclaimed { AtEachMoment steps.now ReclaimsWhatWasDue }
    ensures one_holder { AtEachMoment steps.now WaitsWithOneHolder }
    ensures at_most_once { AtEachMoment steps.now IsRaisedAtMostOnce }
    ensures generations { AtEachMoment steps.now KeepsGenerations }
{
    let mut machine = machine_for(alloc, steps)?;
    for step in steps {
        machine.step(*step);
    }
    Ok(machine)
}
