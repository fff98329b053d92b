//! A value gives up to a place what it holds.
ghost use Rattle.std.specs.Prelude.{◌≡◌, IsSome};
ghost use Rattle.sdd_rights.specs.Right.{number_of, home_of};
ghost use Rattle.sdd_space.specs.Shared as shared;
ghost use Rattle.sdd_space.specs.RawCell as raw_cell;
ghost use Rattle.sdd_participants.specs.EpochState as time;
ghost use Rattle.sdd_world_model.specs.OwnerOrCell.{AreOf};
ghost use Rattle.sdd_space.specs.CallerId.{caller_for, IsSeated, IsExact};
ghost use Rattle.sdd_world_model.specs.KnownEpochs.{KnowsOn, nothing_told};
ghost use Rattle.sdd_world_model.specs.Loans.{Loans};
ghost use Rattle.sdd_world_model.specs.ParticipantChanges.{KeepsMoreWaiting};
ghost use Rattle.sdd_space.specs.Owned.{slots_home, cells_home, holding_of, cell_holding};
ghost use Rattle.sdd_world_model.specs.World.{KeepsSizes, place_at, HasPlace};
ghost use Rattle.sdd_world_model.specs.WorldChanges.{dropped, given, given_all};
ghost use Rattle.sdd_world_model.specs.InPlace.{MayInPlace};
ghost use Rattle.sdd_world_model.specs.WorldInvariant.{IsWhole};
ghost use Rattle.sdd_participants.specs.Slab.{Entries};
ghost use Rattle.sdd_world_core.specs.WorldCore.{kept_of};
ghost use Rattle.sdd_world_core.specs.Lending.{AreLent};

use super::WorldCore;
use sdd_participants::Job;
use sdd_rights::{Right, StandingKind};
use sdd_space::{AtomicOwned, AtomicRaw, AtomicShared, Giver, Item, Owned, Shared, inner};

/// Retires for a place what it is given.
struct Retirement<'c, T: Item<T>, J: Job> {
    core: &'c mut WorldCore<T, J>,
    place: usize,
}

impl<T: Item<T>, J: Job> Drop for Retirement<'_, T, J> {
    fn drop(self)
        ensures { self.exit.0.now ≡ self.entry.core.now }
    {
        let Retirement { core: _, place: _ } = self;
    }
}

impl<T: Item<T>, J: Job> Giver<T> for Retirement<'_, T, J> {
    ghost world = { λ r. r.core.now.world };

    ghost caller = { λ r. caller_for r.core.now.world r.place r.core.ghost_name };

    ghost own = { λ r. place_at r.core.now.world r.place };

    ghost known = { λ _. nothing_told };

    ghost Kept = { Loans × Entries J };

    ghost kept = { λ r. kept_of r.core.now };

    fn owned(&mut self, owner: Owned<T>)
        requires seated { IsSeated (caller_for self.old.core.now.world self.old.place self.old.core.ghost_name) }
        requires home { slots_home owner ≡ self.old.core.now.world.home.slots }
        ensures caller { caller_for self.new.core.now.world self.new.place self.new.core.ghost_name ≡
            caller_for self.old.core.now.world self.old.place self.old.core.ghost_name }
        ensures own { KeepsMoreWaiting (place_at self.old.core.now.world self.old.place) (place_at self.new.core.now.world self.new.place) }
        ensures known { KnowsOn nothing_told nothing_told }
        ensures kept { kept_of self.new.core.now ≡ kept_of self.old.core.now }
        ensures exact { IsExact (caller_for self.old.core.now.world self.old.place self.old.core.ghost_name) →
            self.new.core.now.world ≡ given self.old.core.now.world self.old.place (holding_of owner) }
    {
        let _ = self.core.release(
            self.place,
            inner::right_of_owner(owner),
            StandingKind::Owned,
        );
    }

    fn shared(&mut self, owner: Shared<T>)
        requires seated { IsSeated (caller_for self.old.core.now.world self.old.place self.old.core.ghost_name) }
        requires home { shared.slots_home owner ≡ self.old.core.now.world.home.slots }
        ensures caller { caller_for self.new.core.now.world self.new.place self.new.core.ghost_name ≡
            caller_for self.old.core.now.world self.old.place self.old.core.ghost_name }
        ensures own { KeepsMoreWaiting (place_at self.old.core.now.world self.old.place) (place_at self.new.core.now.world self.new.place) }
        ensures known { KnowsOn nothing_told nothing_told }
        ensures kept { kept_of self.new.core.now ≡ kept_of self.old.core.now }
        ensures exact { IsExact (caller_for self.old.core.now.world self.old.place self.old.core.ghost_name) →
            self.new.core.now.world ≡ given self.old.core.now.world self.old.place (shared.holding_of owner) }
    {
        let _ = self.core.release(
            self.place,
            inner::right_of_owner(owner),
            StandingKind::Shared,
        );
    }

    fn atomic_owned(&mut self, cell: AtomicOwned<T>)
        requires seated { IsSeated (caller_for self.old.core.now.world self.old.place self.old.core.ghost_name) }
        requires home { cells_home cell ≡ self.old.core.now.world.home.cells }
        ensures caller { caller_for self.new.core.now.world self.new.place self.new.core.ghost_name ≡
            caller_for self.old.core.now.world self.old.place self.old.core.ghost_name }
        ensures own { KeepsMoreWaiting (place_at self.old.core.now.world self.old.place) (place_at self.new.core.now.world self.new.place) }
        ensures known { KnowsOn nothing_told nothing_told }
        ensures kept { kept_of self.new.core.now ≡ kept_of self.old.core.now }
        ensures exact { IsExact (caller_for self.old.core.now.world self.old.place self.old.core.ghost_name) →
            self.new.core.now.world ≡ given self.old.core.now.world self.old.place (cell_holding cell) }
    {
        self.core.close_cell(self.place, inner::right_of_cell(cell), StandingKind::Owned);
    }

    fn atomic_shared(&mut self, cell: AtomicShared<T>)
        requires seated { IsSeated (caller_for self.old.core.now.world self.old.place self.old.core.ghost_name) }
        requires home { shared.cells_home cell ≡ self.old.core.now.world.home.cells }
        ensures caller { caller_for self.new.core.now.world self.new.place self.new.core.ghost_name ≡
            caller_for self.old.core.now.world self.old.place self.old.core.ghost_name }
        ensures own { KeepsMoreWaiting (place_at self.old.core.now.world self.old.place) (place_at self.new.core.now.world self.new.place) }
        ensures known { KnowsOn nothing_told nothing_told }
        ensures kept { kept_of self.new.core.now ≡ kept_of self.old.core.now }
        ensures exact { IsExact (caller_for self.old.core.now.world self.old.place self.old.core.ghost_name) →
            self.new.core.now.world ≡ given self.old.core.now.world self.old.place (shared.cell_holding cell) }
    {
        self.core.close_cell(self.place, inner::right_of_cell(cell), StandingKind::Shared);
    }

    fn atomic_raw(&mut self, cell: AtomicRaw<T>)
        requires seated { IsSeated (caller_for self.old.core.now.world self.old.place self.old.core.ghost_name) }
        requires home { raw_cell.cells_home cell ≡ self.old.core.now.world.home.cells }
        ensures caller { caller_for self.new.core.now.world self.new.place self.new.core.ghost_name ≡
            caller_for self.old.core.now.world self.old.place self.old.core.ghost_name }
        ensures own { KeepsMoreWaiting (place_at self.old.core.now.world self.old.place) (place_at self.new.core.now.world self.new.place) }
        ensures known { KnowsOn nothing_told nothing_told }
        ensures kept { kept_of self.new.core.now ≡ kept_of self.old.core.now }
        ensures exact { IsExact (caller_for self.old.core.now.world self.old.place self.old.core.ghost_name) →
            self.new.core.now.world ≡ given self.old.core.now.world self.old.place (raw_cell.cell_holding cell) }
    {
        self.core.close_raw_cell(inner::right_of_raw_cell(cell));
    }
}

impl<T: Item<T>, J: Job> WorldCore<T, J> {
    /// A value that was taken out of its slot gives up to a place what it holds.
    pub(super) fn give_up(&mut self, place: usize, value: T)
        requires place { HasPlace self.old.world place }
        requires held { AreOf self.old.world.home (T.holds value) }
        ensures { self.new ≡ record self.old { world = given_all self.old.world place (T.holds value) } }
    {
        let mut giver = Retirement { core: self, place };
        value.give_up(&mut giver);
    }

    /// An owner that is alone drops its item in its place, whose value gives up to the place what it holds.
    pub fn drop_in_place(&mut self, place: usize, right: Right)
        requires place { HasPlace self.old.world place }
        requires home { home_of right ≡ self.old.world.home.slots }
        requires may { MayInPlace self.old.world (number_of right) }
        requires lent { AreLent self.old }
        ensures dropped { self.new ≡ record self.old { world = dropped T.holds self.old.world place (number_of right) } }
        ensures sizes { KeepsSizes self.old.world self.new.world }
        ensures whole { IsSome (time.phase_at self.old.world.time place) → IsWhole self.old.world → IsWhole self.new.world }
        ensures lent { AreLent self.new }
    {
        let value = self.slots.take(right);
        self.tally.count_in_place();
        self.give_up(place, value);
    }
}
