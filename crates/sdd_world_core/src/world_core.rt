ghost use Rattle.std.specs.Prelude.{◌≡◌, ℕ, ◌+◌, ◌^◌, ◌<◌, [], None, replicate, IfOk, IsTrue, ◌↔◌};
ghost use Rattle.sdd_participants.specs.Slab.{entry_at};
ghost use Rattle.sdd_values.specs.Block.{unlent};
ghost use Rattle.sdd_world_model.specs.Cells.{null_pointer};
ghost use Rattle.sdd_participants.specs.EpochState as time;
ghost use Rattle.sdd_world_model.specs.OwnerOrCell.{ValuesAreOf};
ghost use Rattle.sdd_world_model.specs.World.{IsBlank, AnyGuardOpen};
ghost use Rattle.sdd_world_core.specs.Closing.{NothingIsOut};
ghost use Rattle.sdd_world_core.specs.Lending.{AreLent};

mod cells;
mod changes;
mod collectors;
mod giving;
mod guards;
mod items;
mod lending;
mod owners;
mod places;
mod raw_cells;
mod reclaiming;

use sdd_participants::{EpochState, Job, Jobs, RunningTally, Tally};
use sdd_space::Item;
use sdd_values::ReadSections;
use sdd_world_slots::{WorldCells, WorldSlots};
use std::alloc::{AllocError, Global};
use std::marker::Model;

/// The items and cells of a world, and those who wait with them.
pub struct WorldCore<T: Item<T>, J: Job> {
    time: EpochState,
    slots: WorldSlots<T>,
    cells: WorldCells,
    jobs: Jobs<J>,
    sections: ReadSections,
    tally: RunningTally,
}

impl<T: Item<T>, J: Job> Model for WorldCore<T, J> {
    ghost use Rattle.sdd_participants.specs.Jobs.{places_of};
    ghost use Rattle.sdd_world_core.specs.WorldCore.{WorldCore, IsSound};

    ghost Value = { WorldCore T J };

    ghost view = { λ c. record {
      world = record {
        home = record { slots = c.slots.home; cells = c.cells.home; readers = c.sections.home };
        time = c.time;
        standings = c.slots.standings;
        values = c.slots.values;
        cells = c.cells.cells;
        pointers = c.cells.pointers;
        jobs = places_of c.jobs;
        tally = c.tally;
      };
      lending = record { fractions = c.slots.fractions; sections = c.sections };
      deferred = c.jobs;
    } };

    ghost invariant = { λ c. IsSound T.holds c.time c.slots c.cells (places_of c.jobs) c.sections };
}

impl<T: Item<T>, J: Job> WorldCore<T, J> {
    /// A core without items, with time as it is.
    pub fn new(
        alloc: Global,
        time: EpochState,
        participants: u32,
        slots: u32,
        cells: u32,
        jobs: u32,
    ) -> Result<WorldCore<T, J>, AllocError>
        requires idle { time.places ≡ [] }
        requires room { time.room ≡ slots + jobs }
        requires participants { time.participants ≡ participants }
        requires nesting { time.nesting < 2 ^ 32 }
        ensures blank { IfOk result (λ core. IsBlank time slots cells jobs core.world) }
        ensures lent { IfOk result AreLent }
        ensures idle { IfOk result (λ core. core.deferred ≡ replicate jobs None) }
    {
        let sections = ReadSections::new(alloc, participants as usize)?;
        let jobs = Jobs::new(alloc, jobs)?;
        match free_tables(alloc, slots, cells, participants) {
            Ok((slots, cells)) => Ok(WorldCore {
                time,
                slots,
                cells,
                jobs,
                sections,
                tally: RunningTally::new(),
            }),
            Err(refused) => {
                jobs.destroy();
                Err(refused)
            }
        }
    }

    /// Lets go of a core whose slots and cells are all free, and with which no job waits.
    pub fn destroy(self) -> Tally
        requires unused { NothingIsOut self.world }
        requires idle { (number : ℕ) → entry_at self.world.jobs number ≡ None }
        ensures { result ≡ self.world.tally }
    {
        let WorldCore {
            time: _,
            slots,
            cells,
            jobs,
            sections: _,
            tally,
        } = self;
        slots.destroy();
        cells.destroy();
        jobs.destroy();
        tally.total()
    }

    /// Every slot and every cell is free.
    pub fn is_unused(&self) -> bool
        ensures { IsTrue result ↔ NothingIsOut self.now.world }
    {
        self.slots.is_unused() && self.cells.is_unused()
    }

    /// A guard of some place is open.
    pub fn is_guarded(&self) -> bool
        ensures { IsTrue result ↔ AnyGuardOpen self.now.world }
    {
        self.time.is_any_open()
    }

    /// What the values hold is of the world. It does nothing when the program runs.
    pub fn values_are_of_home(&self)
        ensures { ValuesAreOf T.holds self.now.world.home self.now.world.values }
    {
        let _slots = &self.slots;
    }

    /// The count of epochs, with its participants and what waits with them.
    pub fn time(&self) -> &EpochState
        ensures { result.now ≡ self.now.world.time }
    {
        &self.time
    }

    /// How many items were made, reclaimed and dropped in place so far.
    pub fn tally(&self) -> Tally
        ensures { result ≡ self.now.world.tally }
    {
        self.tally.total()
    }
}

/// Slots, and cells for their owners, all free.
fn free_tables<T>(
    alloc: Global,
    slots: u32,
    cells: u32,
    readers: u32,
) -> Result<(WorldSlots<T>, WorldCells), AllocError>
    ensures standings { IfOk result (λ both. both.0.standings ≡ replicate slots None) }
    ensures values { IfOk result (λ both. both.0.values ≡ replicate slots None) }
    ensures fractions { IfOk result (λ both. both.0.fractions ≡ unlent slots readers) }
    ensures readers { IfOk result (λ both. both.0.readers ≡ readers) }
    ensures cells { IfOk result (λ both. both.1.cells ≡ replicate cells None) }
    ensures pointers { IfOk result (λ both. both.1.pointers ≡ replicate cells null_pointer) }
    ensures held { IfOk result (λ both. both.1.slots ≡ both.0.home) }
{
    let mut slots = WorldSlots::new(alloc, slots, readers)?;
    match WorldCells::new(alloc, cells, slots.badge()) {
        Ok(cells) => Ok((slots, cells)),
        Err(refused) => {
            slots.destroy();
            Err(refused)
        }
    }
}
