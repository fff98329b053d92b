//! Programs that know by the ledger of a world what becomes of their owners and cells, whatever others call.
ghost use Rattle.std.specs.Prelude.{◌≡◌, ◌+◌, ℕ, IfOk, IsTrue, option_copied};
ghost use Rattle.sdd_space.specs.Guard.{reader_of};
ghost use Rattle.sdd_world_model.specs.OwnerOrCell.{AreOf};
ghost use Rattle.sdd_world_model.specs.Ledger.{Claim, right_to, claims, one, CallsBeside, IsLedger, IsStill};
ghost use Rattle.sdd_space.specs.CallerId.{IsExact, IsSeated, reader_at};
ghost use Rattle.sdd_space.specs.Shared.{cell_of, cells_home, slot_of, slots_home};
ghost use Rattle.sdd_world_model.specs.WorldChanges.{made_shared, with_standing};
ghost use Rattle.sdd_world_model.specs.World.{IsPlaceOf};
ghost use Rattle.sdd_participants.specs.Slab.{IsEmptyAt};
ghost use Rattle.sdd_world.specs.Place.{index_of};

use sdd_core::Refused;
use sdd_participants::Standing;
use sdd_space::{AtomicShared, Guard, Item, Items, Shared, SharedItems};
use sdd_world::{Place, World};

/// What somebody else calls meanwhile: opens a guard, if one more may be open, and closes it. What waited for that is reclaimed, and gives up what it held.
pub fn comes_by<T: Item<T>>(world: &mut World<T>, other: &Place)
    requires { IsPlaceOf world.old (index_of other.now) }
    ensures beside { (u : Claim) (theirs : Claim → ℕ) → CallsBeside T.holds u world.old theirs world.new theirs }
    ensures places { (p : ℕ) → IsPlaceOf world.old p → IsPlaceOf world.new p }
    ensures home { world.new.home ≡ world.old.home }
{
    let Ok(guard) = Guard::new(&mut world.at(other)) else {
        return;
    };
    guard.close(&mut world.at(other));
}

/// Makes an item with two owners.
///
/// `NoSlot` where no slot is free; the value comes back.
pub fn made_for_two<T: Item<T>, S: Items<T> + SharedItems<T>>(
    value: T,
    s: &mut S,
) -> Result<(Shared<T>, Shared<T>), (T, Refused)>
    requires seated { IsSeated (S.caller s.old) }
    requires exact { IsExact (S.caller s.old) }
    requires home { AreOf (S.caller s.old).home (T.holds value) }
    ensures caller { S.caller s.new ≡ S.caller s.old }
    ensures home { IfOk result (λ both. (slots_home both.0 ≡ (S.caller s.old).home.slots) × (slots_home both.1 ≡ (S.caller s.old).home.slots)) }
    ensures same { IfOk result (λ both. slot_of both.1 ≡ slot_of both.0) }
    ensures made { IfOk result (λ both. IsEmptyAt (S.world s.old).standings (slot_of both.0) ×
        (S.world s.new ≡ with_standing (made_shared (S.world s.old) (slot_of both.0) value) (slot_of both.0) (Standing.Shared 2))) }
{
    let first = Shared::new(value, s)?;
    let Ok(second) = first.clone(s) else {
        unreachable!()
    };
    Ok((first, second))
}

/// Makes an item with two owners and releases both, while somebody else comes by in between: the second release answers that it was the last.
///
/// `NoSlot` where no slot is free; the value comes back.
pub fn second_is_the_last<T: Item<T>>(
    value: T,
    world: &mut World<T>,
    mine: &Place,
    other: &Place,
) -> Result<bool, (T, Refused)>
    requires mine { IsPlaceOf world.old (index_of mine.now) }
    requires other { IsPlaceOf world.old (index_of other.now) }
    requires home { AreOf world.old.home (T.holds value) }
    ensures last { (others : Claim → ℕ) → IsLedger T.holds (λ u. others u + claims (T.holds value) u) world.old → IfOk result (λ last. IsTrue last) }
{
    world.keeps_its_ledger();
    world.is_whole();
    let (first, second) = made_for_two(value, &mut world.at(mine))?;
    let _ = first.release(&mut world.at(mine));
    comes_by(world, other);
    Ok(second.release(&mut world.at(mine)))
}

/// Looks at what a cell holds, before and after somebody else comes by: the cell holds what it held, and that has the value that it had.
pub fn finds_it_again<'g, T: Item<T>>(
    cell: &AtomicShared<T>,
    guard: &'g Guard,
    world: &mut World<T>,
    mine: &Place,
    other: &Place,
) -> (Option<&'g T>, Option<&'g T>)
    requires mine { IsPlaceOf world.old (index_of mine.now) }
    requires other { IsPlaceOf world.old (index_of other.now) }
    requires home { cells_home cell.now ≡ world.old.home.cells }
    requires guard { reader_of guard.now ≡ reader_at world.old (index_of mine.now) }
    ensures still { (others : Claim → ℕ) → IsLedger T.holds (λ u. one (right_to (cell_of cell.now)) u + others u) world.old →
        IsStill world.old world.new (right_to (cell_of cell.now)) × (option_copied result.1 ≡ option_copied result.0) }
{
    world.keeps_its_ledger();
    world.is_whole();
    let first = cell.load(guard, &mut world.at(mine));
    let before = first.as_ref(&*world);
    comes_by(world, other);
    let second = cell.load(guard, &mut world.at(mine));
    let after = second.as_ref(&*world);
    (before, after)
}
