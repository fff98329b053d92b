//! How items are made.
ghost use Rattle.std.specs.Prelude.{◌≡◌, ◌<◌, ℕ, Some};
ghost use Rattle.sdd_participants.specs.Slab.{IsEmptyAt, IsFull};
ghost use Rattle.sdd_world_model.specs.WorldChanges.{made_as, nulled};
ghost use Rattle.sdd_world_model.specs.OwnerOrCell.{AreOf};
ghost use Rattle.sdd_script_model.specs.Val.{Val, body_of, owner_in, link_of, link_home};
ghost use Rattle.sdd_interpreter.specs.Owners.{owner_holding};
ghost use Rattle.sdd_script_model.specs.Held.{standing_first, holding_first};
ghost use Rattle.sdd_world_model.specs.World.{World, IsPlaceOf, value_at};
ghost use Rattle.sdd_space.specs.Guard.{reader_of};
ghost use Rattle.sdd_space.specs.CallerId.{reader_at};
ghost use Rattle.sdd_world_model.specs.UnderGuards.{CannotGo};
ghost use Rattle.sdd_world.specs.Place.{index_of};

use crate::commands::step::ItemCommand;
use crate::holding::AnyOwner;
use sdd_lists::LinkedEntry;
use sdd_script_model::{Body, OwnerKind, Val};
use sdd_space::{Cells, Guard, Items, Owned, Shared, SharedItems, Shows};
use sdd_world::inner::ptr_at;
use sdd_world::{Place, World};

/// A new item, which holds this, and a cell for its link.
pub struct MakeItem {
    pub body: Body,
    pub ownership: OwnerKind,
}

impl ItemCommand for MakeItem {
    type Out = AnyOwner;

    ghost asks = { λ step home _ world. ¬ (IsFull world.cells) × ¬ (IsFull world.standings) × AreOf home (owner_in step.body) };

    ghost does = { λ step home _ before made after. (k cell : ℕ) × (entry : Val) × (owner_holding made ≡ holding_first step.ownership k home.slots)
        × IsEmptyAt before.cells cell × IsEmptyAt before.standings k
        × (body_of entry ≡ step.body) × (link_of entry ≡ cell) × (link_home entry ≡ home.cells)
        × (after ≡ made_as (nulled before cell) k entry (standing_first step.ownership)) };

    fn done<S: Items<Val> + SharedItems<Val> + Cells<Val>>(self, s: &mut S) -> AnyOwner {
        let MakeItem { body, ownership } = self;
        let value = match LinkedEntry::new(body, s) {
            Ok(value) => value,
            Err(_) => unreachable!(),
        };
        match ownership {
            OwnerKind::Sole => match Owned::new(value, s) {
                Ok(owner) => AnyOwner::Sole(owner),
                Err(_) => unreachable!(),
            },
            OwnerKind::Shared => match Shared::new(value, s) {
                Ok(owner) => AnyOwner::Share(owner),
                Err(_) => unreachable!(),
            },
        }
    }
}

/// The value in a slot, as a pointer to its item shows it under a guard of the participant.
pub fn value_shown<'g>(
    world: &mut World<Val>,
    place: &Place,
    guard: &'g Guard,
    slot: u32,
) -> &'g Val
    requires place { IsPlaceOf world.old (index_of place.now) }
    requires reader { reader_of guard.now ≡ reader_at world.old (index_of place.now) }
    requires stays { CannotGo world.old (index_of place.now) slot }
    ensures shown { value_at world.old slot ≡ Some result.now }
    ensures home { link_home result.now ≡ world.old.home.cells }
    ensures world { world.new ≡ world.old }
{
    let ptr = ptr_at(world, place, slot, guard);
    let Some(value) = ptr.as_ref(world) else {
        unreachable!()
    };
    world.shown_is_of_home();
    value
}
