ghost use Rattle.std.specs.Prelude.{◌≡◌, List, []};
ghost use Rattle.sdd_participants.specs.declared.participant.Participant.{Participant};
ghost use Rattle.sdd_world_model.specs.OwnerOrCell.{OwnerOrCell, AreOf};
ghost use Rattle.sdd_world_model.specs.World.{World};
ghost use Rattle.sdd_space.specs.CallerId.{CallerId, IsSeated, IsExact};
ghost use Rattle.sdd_world_model.specs.KnownEpochs.{KnownEpochs, KnowsOn};
ghost use Rattle.sdd_world_model.specs.ParticipantChanges.{KeepsMoreWaiting};
ghost use Rattle.sdd_world_model.specs.WorldChanges.{given, given_all};
ghost use Rattle.sdd_space.specs.Owned.{slots_home, cells_home, holding_of, cell_holding};
ghost use Rattle.sdd_space.specs.Shared as shared;
ghost use Rattle.sdd_space.specs.RawCell as raw_cell;

use crate::atomic_cell::{AtomicOwned, AtomicShared};
use crate::atomic_raw::AtomicRaw;
use crate::owner::{Owned, Shared};

mod composed;
mod plain;

/// Takes what a value gives up: each last owner among it is retired at that moment, by the participant that reclaims the value.
pub trait Giver<I> {
    /// What the calls change.
    ghost world: { Self → World I };
    /// Who reclaims, and where: no call changes it.
    ghost caller: { Self → CallerId };
    /// What the participant that reclaims keeps of its own.
    ghost own: { Self → Participant };
    /// What the participant that reclaims knows of the count of epochs.
    ghost known: { Self → KnownEpochs };

    ghost Kept: { Type 0 };
    /// What no call changes beside: what is lent of the values, say.
    ghost kept: { Self → Kept };

    /// Retires the owner's item.
    fn owned(&mut self, owner: Owned<I>)
        requires seated { IsSeated (caller self.old) }
        requires home { slots_home owner ≡ (caller self.old).home.slots }
        ensures caller { caller self.new ≡ caller self.old }
        ensures own { KeepsMoreWaiting (own self.old) (own self.new) }
        ensures known { KnowsOn (known self.old) (known self.new) }
        ensures kept { kept self.new ≡ kept self.old }
        ensures exact { IsExact (caller self.old) → world self.new ≡ given (world self.old) (caller self.old).place (holding_of owner) };

    /// Gives a shared owner up; the last one's item is retired.
    fn shared(&mut self, owner: Shared<I>)
        requires seated { IsSeated (caller self.old) }
        requires home { shared.slots_home owner ≡ (caller self.old).home.slots }
        ensures caller { caller self.new ≡ caller self.old }
        ensures own { KeepsMoreWaiting (own self.old) (own self.new) }
        ensures known { KnowsOn (known self.old) (known self.new) }
        ensures kept { kept self.new ≡ kept self.old }
        ensures exact { IsExact (caller self.old) → world self.new ≡ given (world self.old) (caller self.old).place (shared.holding_of owner) };

    /// Frees the cell, and retires what it held.
    fn atomic_owned(&mut self, cell: AtomicOwned<I>)
        requires seated { IsSeated (caller self.old) }
        requires home { cells_home cell ≡ (caller self.old).home.cells }
        ensures caller { caller self.new ≡ caller self.old }
        ensures own { KeepsMoreWaiting (own self.old) (own self.new) }
        ensures known { KnowsOn (known self.old) (known self.new) }
        ensures kept { kept self.new ≡ kept self.old }
        ensures exact { IsExact (caller self.old) → world self.new ≡ given (world self.old) (caller self.old).place (cell_holding cell) };

    /// Frees the cell, and gives up what it held.
    fn atomic_shared(&mut self, cell: AtomicShared<I>)
        requires seated { IsSeated (caller self.old) }
        requires home { shared.cells_home cell ≡ (caller self.old).home.cells }
        ensures caller { caller self.new ≡ caller self.old }
        ensures own { KeepsMoreWaiting (own self.old) (own self.new) }
        ensures known { KnowsOn (known self.old) (known self.new) }
        ensures kept { kept self.new ≡ kept self.old }
        ensures exact { IsExact (caller self.old) → world self.new ≡ given (world self.old) (caller self.old).place (shared.cell_holding cell) };

    /// Frees the cell.
    fn atomic_raw(&mut self, cell: AtomicRaw<I>)
        requires seated { IsSeated (caller self.old) }
        requires home { raw_cell.cells_home cell ≡ (caller self.old).home.cells }
        ensures caller { caller self.new ≡ caller self.old }
        ensures own { KeepsMoreWaiting (own self.old) (own self.new) }
        ensures known { KnowsOn (known self.old) (known self.new) }
        ensures kept { kept self.new ≡ kept self.old }
        ensures exact { IsExact (caller self.old) → world self.new ≡ given (world self.old) (caller self.old).place (raw_cell.cell_holding cell) };
}

/// A value that may hold owners and cells of a space of items `I`.
///
/// A space of `T` needs `T: Item<T>`. Whole numbers, `bool`, `char`, `()` and `String` give up nothing, whatever `I` is; an `Option`, a
/// tuple or an array gives up what its parts do, in their order.
pub trait Item<I>: Sized {
    /// What it gives up, in order.
    ghost holds: { Self → List OwnerOrCell };

    /// Consumes the value, and gives up every owner and cell that it holds.
    fn give_up<G: Giver<I>>(self, giver: &mut G)
        requires seated { IsSeated (G.caller giver.old) }
        requires home { AreOf (G.caller giver.old).home (holds self) }
        ensures caller { G.caller giver.new ≡ G.caller giver.old }
        ensures own { KeepsMoreWaiting (G.own giver.old) (G.own giver.new) }
        ensures known { KnowsOn (G.known giver.old) (G.known giver.new) }
        ensures kept { G.kept giver.new ≡ G.kept giver.old }
        ensures exact { IsExact (G.caller giver.old) → G.world giver.new ≡ given_all (G.world giver.old) (G.caller giver.old).place (holds self) };
}
