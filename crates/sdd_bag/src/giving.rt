//! What the values of a bag that is closed give up to its space.
ghost use Rattle.std.specs.Prelude.{◌≡◌, ℕ};
ghost use Rattle.sdd_space.specs.CallerId.{IsSeated, IsExact};
ghost use Rattle.sdd_world_model.specs.KnownEpochs.{KnowsOn};
ghost use Rattle.sdd_space.specs.Owned.{slots_home, cells_home, holding_of, cell_holding};
ghost use Rattle.sdd_world_model.specs.OwnerOrCell.{AreOf};
ghost use Rattle.sdd_world_model.specs.ParticipantChanges.{KeepsMoreWaiting};
ghost use Rattle.sdd_space.specs.RawCell as raw_cell;
ghost use Rattle.sdd_space.specs.Shared as shared;
ghost use Rattle.sdd_space.specs.Undisturbed.{Unmoved};
ghost use Rattle.sdd_world_model.specs.WorldChanges.{given, given_all};

use sdd_space::{
    AtomicOwned, AtomicRaw, AtomicShared, Cells, Giver, Item, Items, Owned, RawCells, Shared,
};

/// Gives up to a space what it is given.
struct Surrender<'s, S> {
    space: &'s mut S,
}

impl<S> Drop for Surrender<'_, S> {
    fn drop(self)
        ensures { self.exit.0.now ≡ self.entry.space.now }
    {
        let Surrender { space: _ } = self;
    }
}

impl<I: Item<I>, S: Items<I> + Cells<I> + RawCells<I>> Giver<I> for Surrender<'_, S> {
    ghost world = { λ g. S.world g.space.now };

    ghost caller = { λ g. S.caller g.space.now };

    ghost own = { λ g. S.own g.space.now };

    ghost known = { λ g. S.known g.space.now };

    ghost Kept = { ℕ };

    ghost kept = { λ g. g.space.ghost_name };

    fn owned(&mut self, owner: Owned<I>)
        requires seated { IsSeated (S.caller self.old.space.now) }
        requires home { slots_home owner ≡ (S.caller self.old.space.now).home.slots }
        ensures caller { S.caller self.new.space.now ≡ S.caller self.old.space.now }
        ensures own { KeepsMoreWaiting (S.own self.old.space.now) (S.own self.new.space.now) }
        ensures known { KnowsOn (S.known self.old.space.now) (S.known self.new.space.now) }
        ensures kept { self.new.space.ghost_name ≡ self.old.space.ghost_name }
        ensures exact { IsExact (S.caller self.old.space.now) →
            S.world self.new.space.now ≡ given (S.world self.old.space.now) (S.caller self.old.space.now).place (holding_of owner) }
    {
        owner.retire(&mut *self.space);
    }

    fn shared(&mut self, owner: Shared<I>)
        requires seated { IsSeated (S.caller self.old.space.now) }
        requires home { shared.slots_home owner ≡ (S.caller self.old.space.now).home.slots }
        ensures caller { S.caller self.new.space.now ≡ S.caller self.old.space.now }
        ensures own { KeepsMoreWaiting (S.own self.old.space.now) (S.own self.new.space.now) }
        ensures known { KnowsOn (S.known self.old.space.now) (S.known self.new.space.now) }
        ensures kept { self.new.space.ghost_name ≡ self.old.space.ghost_name }
        ensures exact { IsExact (S.caller self.old.space.now) →
            S.world self.new.space.now ≡ given (S.world self.old.space.now) (S.caller self.old.space.now).place (shared.holding_of owner) }
    {
        let _ = owner.release(&mut *self.space);
    }

    fn atomic_owned(&mut self, cell: AtomicOwned<I>)
        requires seated { IsSeated (S.caller self.old.space.now) }
        requires home { cells_home cell ≡ (S.caller self.old.space.now).home.cells }
        ensures caller { S.caller self.new.space.now ≡ S.caller self.old.space.now }
        ensures own { KeepsMoreWaiting (S.own self.old.space.now) (S.own self.new.space.now) }
        ensures known { KnowsOn (S.known self.old.space.now) (S.known self.new.space.now) }
        ensures kept { self.new.space.ghost_name ≡ self.old.space.ghost_name }
        ensures exact { IsExact (S.caller self.old.space.now) →
            S.world self.new.space.now ≡ given (S.world self.old.space.now) (S.caller self.old.space.now).place (cell_holding cell) }
    {
        cell.close(&mut *self.space);
    }

    fn atomic_shared(&mut self, cell: AtomicShared<I>)
        requires seated { IsSeated (S.caller self.old.space.now) }
        requires home { shared.cells_home cell ≡ (S.caller self.old.space.now).home.cells }
        ensures caller { S.caller self.new.space.now ≡ S.caller self.old.space.now }
        ensures own { KeepsMoreWaiting (S.own self.old.space.now) (S.own self.new.space.now) }
        ensures known { KnowsOn (S.known self.old.space.now) (S.known self.new.space.now) }
        ensures kept { self.new.space.ghost_name ≡ self.old.space.ghost_name }
        ensures exact { IsExact (S.caller self.old.space.now) →
            S.world self.new.space.now ≡ given (S.world self.old.space.now) (S.caller self.old.space.now).place (shared.cell_holding cell) }
    {
        cell.close(&mut *self.space);
    }

    fn atomic_raw(&mut self, cell: AtomicRaw<I>)
        requires seated { IsSeated (S.caller self.old.space.now) }
        requires home { raw_cell.cells_home cell ≡ (S.caller self.old.space.now).home.cells }
        ensures caller { S.caller self.new.space.now ≡ S.caller self.old.space.now }
        ensures own { KeepsMoreWaiting (S.own self.old.space.now) (S.own self.new.space.now) }
        ensures known { KnowsOn (S.known self.old.space.now) (S.known self.new.space.now) }
        ensures kept { self.new.space.ghost_name ≡ self.old.space.ghost_name }
        ensures exact { IsExact (S.caller self.old.space.now) →
            S.world self.new.space.now ≡ given (S.world self.old.space.now) (S.caller self.old.space.now).place (raw_cell.cell_holding cell) }
    {
        cell.close(&mut *self.space);
    }
}

/// A value gives up what it holds.
pub(crate) fn give_up<I: Item<I>, T: Item<I>, S: Items<I> + Cells<I> + RawCells<I>>(
    value: T,
    s: &mut S,
)
    requires seated { IsSeated (S.caller s.old) }
    requires home { AreOf (S.caller s.old).home (T.holds value) }
    requires exact { IsExact (S.caller s.old) }
    ensures unmoved { Unmoved S.caller S.known S.shows s.old s.new }
    ensures own { KeepsMoreWaiting (S.own s.old) (S.own s.new) }
    ensures world { S.world s.new ≡ given_all (S.world s.old) (S.caller s.old).place (T.holds value) }
{
    let mut giver = Surrender { space: s };
    value.give_up(&mut giver);
}
