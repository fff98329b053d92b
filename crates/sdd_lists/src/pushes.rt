//! Entries that come to a list at its front.
ghost use Rattle.std.specs.Prelude.{◌≡◌, ◌≢◌, ◌⊎◌, ℕ, true, IfErr, IfOk, IfSome, List, MatchOption, MatchResult, None, Option, Some};
ghost use Rattle.sdd_space.specs.Guard.{reader_of};
ghost use Rattle.sdd_world_model.specs.OwnerOrCell.{AreOf};
ghost use Rattle.sdd_space.specs.Undisturbed.{Undisturbed, Unmoved};
ghost use Rattle.sdd_world_model.specs.ParticipantChanges.{KeepsMoreWaiting};
ghost use Rattle.sdd_space.specs.Refusals.{IsRefusedBy};
ghost use Rattle.sdd_space.specs.CallerId.{IsSeated, IsExact};
ghost use Rattle.sdd_space.specs.Shared.{right_of, slot_of, slots_home, cell_of, cells_home};
ghost use Rattle.sdd_core.specs.declared.tag.Tag.{Tag};
ghost use Rattle.sdd_core.specs.declared.tag.Tag.TheVariants.{None as no_tag};
ghost use Rattle.sdd_participants.specs.Slab.{IsEmptyAt, IsFull, entry_at};
ghost use Rattle.sdd_world_model.specs.World.{value_at};
ghost use Rattle.sdd_world_model.specs.WorldChanges.{made_as};
ghost use Rattle.sdd_lists.specs.Ends.{IsLastOf, appended, is_spent};
ghost use Rattle.sdd_lists.specs.Filling.{RefusesPush};
ghost use Rattle.sdd_lists.specs.Lists.{Apart, Entry, IsList, IsPushed, first_slot, left, linked_in, trimmed};
ghost use Rattle.sdd_lists.specs.Queue.{IsEnqueued, IsQueue};
ghost use Rattle.sdd_lists.specs.StackCloning.{IsAppended, LastIs};

use crate::linked_list::LinkedList;
use crate::moves::{give_up, put_in_front, trim};
use crate::walks::Front;
use sdd_core::{Refused, Tag};
use sdd_participants::Standing;
use sdd_space::inner::{make_two, owner_of};
use sdd_space::laws::values_fit_slots;
use sdd_space::{AtomicShared, Cells, Guard, Item, Items, LookThrough, Several, Shared};

/// Pushes a value, whose link is clear, in front of the list in a cell. The deleted entries in front are let go of.
///
/// `NoSlot` where no slot is free: the value comes back, and nothing has changed.
pub(crate) fn push_first<T: LinkedList, S: Items<T> + Several<T> + Cells<T> + LookThrough<T>>(
    cell: &AtomicShared<T>,
    value: T,
    guard: &Guard,
    s: &mut S,
) -> Result<Shared<T>, (T, Refused)>
    requires seated { IsSeated (S.caller s.old) }
    requires home { cells_home cell.now ≡ (S.caller s.old).home.cells }
    requires value { AreOf (S.caller s.old).home (T.holds value) }
    requires reader { reader_of guard.now ≡ (S.caller s.old).reader }
    ensures unmoved { Unmoved S.caller S.known S.shows s.old s.new }
    ensures own { KeepsMoreWaiting (S.own s.old) (S.own s.new) }
    ensures owner { IfOk result (λ owner. slots_home owner ≡ (S.caller s.old).home.slots) }
    ensures value { IfOk result (λ owner. S.owns_value s.new (right_of owner) value) }
    ensures back { IfErr result (λ e. (e.0 ≡ value) × IsRefusedBy (S.caller s.old) Refused.NoSlot e.1) }
    ensures refused { IsExact (S.caller s.old) →
        IfErr result (λ e. IsFull (S.world s.old).standings × (e.1 ≡ Refused.NoSlot) × (S.world s.new ≡ S.world s.old)) }
    ensures exact { IsExact (S.caller s.old) → (t : Tag) (es : List (Entry T)) → IsList T.link (S.world s.old) (cell_of cell.now) t es →
        entry_at (S.world s.old).cells (T.link value) ≡ Some (record { held = None; tag = no_tag }) → cell_of cell.now ≢ T.link value →
        Apart T.link (T.link value) es →
        IfOk result (λ owner. IsPushed T.link (S.world s.old) (S.caller s.old).place (cell_of cell.now) t es (slot_of owner) value (S.world s.new)) }
{
    values_fit_slots::<T, S>(s);
    let (owner, kept) = match make_two(value, s) {
        Ok(owners) => owners,
        Err(back) => return Err(back),
    };
    let _ = trim(cell, guard, s);
    let entry = owner.get_guarded_ref(guard, s);
    s.shown_is_of_home();
    put_in_front(cell, kept, entry.link_ref(), s);
    Ok(owner)
}

/// Puts a value into a free slot, with three owners at once.
///
/// `NoSlot` where none is free; `Contended`, in a domain alone, where as many exchanges were lost as its limits allow. The value comes back.
fn make_three<T: Item<T>, S: Several<T>>(
    value: T,
    s: &mut S,
) -> Result<(Shared<T>, Shared<T>, Shared<T>), (T, Refused)>
    requires seated { IsSeated (S.caller s.old) }
    requires home { AreOf (S.caller s.old).home (T.holds value) }
    ensures undisturbed { Undisturbed S.caller S.own S.known S.shows s.old s.new }
    ensures home { IfOk result (λ all. (slots_home all.0 ≡ (S.caller s.old).home.slots) × (slots_home all.1 ≡ (S.caller s.old).home.slots) ×
        (slots_home all.2 ≡ (S.caller s.old).home.slots)) }
    ensures one { IfOk result (λ all. (slot_of all.1 ≡ slot_of all.0) × (slot_of all.2 ≡ slot_of all.0)) }
    ensures shown { IfOk result (λ all. S.owns_value s.new (right_of all.0) value) }
    ensures back { IfErr result (λ e. (e.0 ≡ value) × IsRefusedBy (S.caller s.old) Refused.NoSlot e.1) }
    ensures exact { IsExact (S.caller s.old) → MatchResult result
        (λ all. IsEmptyAt (S.world s.old).standings (slot_of all.0) ×
        (S.world s.new ≡ made_as (S.world s.old) (slot_of all.0) value (Standing.Shared 3)))
        (λ e. IsFull (S.world s.old).standings × (e ≡ (value, Refused.NoSlot)) × (S.world s.new ≡ S.world s.old)) }
{
    let (first, others) = match s.make_several(value, 3) {
        Ok(made) => made,
        Err(refused) => return Err(refused),
    };
    let (second, others) = s.split_off(&first, others);
    let Some(others) = others else { unreachable!() };
    let (third, rest) = s.split_off(&first, others);
    match rest {
        None => Ok((owner_of(first), owner_of(second), owner_of(third))),
        Some(_) => unreachable!(),
    }
}

/// Puts an entry, whose link is clear, between a cell and what that holds. The deleted entries in front of that are let go of.
#[inline(always)]
fn put_behind<T: LinkedList, S: Items<T> + Cells<T> + LookThrough<T>>(
    cell: &AtomicShared<T>,
    owner: &Shared<T>,
    kept: Shared<T>,
    guard: &Guard,
    s: &mut S,
)
    requires seated { IsSeated (S.caller s.old) }
    requires home { cells_home cell.now ≡ (S.caller s.old).home.cells }
    requires owner { slots_home owner.now ≡ (S.caller s.old).home.slots }
    requires kept { slots_home kept ≡ (S.caller s.old).home.slots }
    requires reader { reader_of guard.now ≡ (S.caller s.old).reader }
    ensures unmoved { Unmoved S.caller S.known S.shows s.old s.new }
    ensures own { KeepsMoreWaiting (S.own s.old) (S.own s.new) }
    ensures exact { IsExact (S.caller s.old) → (t : Tag) (es : List (Entry T)) (v : T) → IsList T.link (S.world s.old) (cell_of cell.now) t es →
        slot_of kept ≡ slot_of owner.now → value_at (S.world s.old) (slot_of owner.now) ≡ Some v →
        entry_at (S.world s.old).cells (T.link v) ≡ Some (record { held = None; tag = no_tag }) → cell_of cell.now ≢ T.link v → Apart T.link (T.link v) es →
        (S.world s.new ≡ linked_in (trimmed T.link (S.world s.old) (S.caller s.old).place (cell_of cell.now) t es) (cell_of cell.now) t (T.link v)
        (slot_of owner.now) (first_slot (left es))) }
{
    let _ = trim(cell, guard, s);
    let entry = owner.get_guarded_ref(guard, s);
    s.shown_is_of_home();
    put_in_front::<T, S>(cell, kept, entry.link_ref(), s);
}

/// Puts an entry behind the last one that isn't deleted, and was found, or in front of the list where there is none. The deleted entries behind that are
/// let go of.
#[inline(always)]
fn put_last<T: LinkedList, S: Items<T> + Cells<T> + LookThrough<T>>(
    cell: &AtomicShared<T>,
    last: Option<Front<'_, T>>,
    owner: &Shared<T>,
    kept: Shared<T>,
    guard: &Guard,
    s: &mut S,
)
    requires seated { IsSeated (S.caller s.old) }
    requires home { cells_home cell.now ≡ (S.caller s.old).home.cells }
    requires last { IfSome last (λ f. cells_home f.link.now ≡ (S.caller s.old).home.cells) }
    requires owner { slots_home owner.now ≡ (S.caller s.old).home.slots }
    requires kept { slots_home kept ≡ (S.caller s.old).home.slots }
    requires reader { reader_of guard.now ≡ (S.caller s.old).reader }
    ensures unmoved { Unmoved S.caller S.known S.shows s.old s.new }
    ensures own { KeepsMoreWaiting (S.own s.old) (S.own s.new) }
    ensures exact { IsExact (S.caller s.old) → (t : Tag) (es : List (Entry T)) (v : T) → IsList T.link (S.world s.old) (cell_of cell.now) t es →
        MatchOption last.entry (is_spent es ≡ true)
        (λ f. (e : Entry T) × (rest : List (Entry T)) × IsLastOf es e rest × (f.entry.now ≡ e.value) ×
        (cell_of f.link.now ≡ T.link e.value)) →
        slot_of kept ≡ slot_of owner.now → value_at (S.world s.old) (slot_of owner.now) ≡ Some v →
        entry_at (S.world s.old).cells (T.link v) ≡ Some (record { held = None; tag = no_tag }) → cell_of cell.now ≢ T.link v → Apart T.link (T.link v) es →
        (S.world s.new ≡ appended T.link (S.world s.old) (S.caller s.old).place (cell_of cell.now) t es (T.link v) (slot_of owner.now)) }
{
    match last {
        Some(front) => put_behind(front.link, owner, kept, guard, s),
        None => put_behind(cell, owner, kept, guard, s),
    }
}

/// Pushes a value, whose link is clear, behind the last entry of a queue that isn't deleted, and was found. What is deleted behind that is let go of. The
/// second cell gives up what it holds first, and owns the new entry then.
///
/// `NoSlot` where no slot is free: the value comes back, and nothing has changed.
#[inline(always)]
pub(crate) fn push_last<T: LinkedList, S: Items<T> + Several<T> + Cells<T> + LookThrough<T>>(
    oldest: &AtomicShared<T>,
    newest: &AtomicShared<T>,
    last: Option<Front<'_, T>>,
    value: T,
    guard: &Guard,
    s: &mut S,
) -> Result<Shared<T>, (T, Refused)>
    requires seated { IsSeated (S.caller s.old) }
    requires oldest { cells_home oldest.now ≡ (S.caller s.old).home.cells }
    requires newest { cells_home newest.now ≡ (S.caller s.old).home.cells }
    requires last { IfSome last (λ f. cells_home f.link.now ≡ (S.caller s.old).home.cells) }
    requires value { AreOf (S.caller s.old).home (T.holds value) }
    requires reader { reader_of guard.now ≡ (S.caller s.old).reader }
    ensures unmoved { Unmoved S.caller S.known S.shows s.old s.new }
    ensures own { KeepsMoreWaiting (S.own s.old) (S.own s.new) }
    ensures owner { IfOk result (λ owner. slots_home owner ≡ (S.caller s.old).home.slots) }
    ensures value { IfOk result (λ owner. S.owns_value s.new (right_of owner) value) }
    ensures back { IfErr result (λ e. (e.0 ≡ value) × IsRefusedBy (S.caller s.old) Refused.NoSlot e.1) }
    ensures refused { IsExact (S.caller s.old) →
        IfErr result (λ e. IsFull (S.world s.old).standings × (e.1 ≡ Refused.NoSlot) × (S.world s.new ≡ S.world s.old)) }
    ensures exact { IsExact (S.caller s.old) → (es : List (Entry T)) (second : Option ℕ) →
        IsQueue T.link (S.world s.old) (record { oldest = cell_of oldest.now; newest = cell_of newest.now }) es second →
        MatchOption last.entry (is_spent es ≡ true)
        (λ f. (e : Entry T) × (rest : List (Entry T)) × IsLastOf es e rest × (f.entry.now ≡ e.value) ×
        (cell_of f.link.now ≡ T.link e.value)) →
        entry_at (S.world s.old).cells (T.link value) ≡ Some (record { held = None; tag = no_tag }) → cell_of oldest.now ≢ T.link value →
        cell_of newest.now ≢ T.link value → Apart T.link (T.link value) es →
        IfOk result (λ owner. IsEnqueued T.link (S.world s.old) (S.caller s.old).place
        (record { oldest = cell_of oldest.now; newest = cell_of newest.now }) es second (slot_of owner) value (S.world s.new)) }
{
    values_fit_slots::<T, S>(s);
    let (owner, kept, second) = match make_three(value, s) {
        Ok(owners) => owners,
        Err(back) => return Err(back),
    };
    let (was, _) = newest.swap((Some(second), Tag::None), s);
    give_up(was, s);
    put_last(oldest, last, &owner, kept, guard, s);
    Ok(owner)
}

/// A push would find a slot and a cell: the cell is claimed, and free again.
///
/// `NoSlot` where no slot is free, else `NoCell` where no cell is; `Contended`, in a domain alone, where as many exchanges were lost as its limits allow.
pub(crate) fn has_room<T: Item<T>, S: Items<T> + Cells<T>>(s: &mut S) -> Result<(), Refused>
    requires seated { IsSeated (S.caller s.old) }
    ensures unmoved { Unmoved S.caller S.known S.shows s.old s.new }
    ensures own { KeepsMoreWaiting (S.own s.old) (S.own s.new) }
    ensures back { IfErr result (λ e. (e ≡ Refused.NoSlot) ⊎ IsRefusedBy (S.caller s.old) Refused.NoCell e) }
    ensures exact { IsExact (S.caller s.old) → (S.world s.new ≡ S.world s.old) × MatchResult result
        (λ _. ¬ (IsFull (S.world s.old).standings) × ¬ (IsFull (S.world s.old).cells)) (RefusesPush (S.world s.old)) }
{
    let free = s.has_slot();
    if !free {
        return Err(Refused::NoSlot);
    }
    match AtomicShared::null(s) {
        Ok(cell) => {
            cell.close(s);
            Ok(())
        }
        Err(refused) => Err(refused),
    }
}

/// The entry of an owner, with its value and its link.
fn front_of<'g, T: LinkedList, S: Items<T>>(
    owner: &Shared<T>,
    guard: &'g Guard,
    s: &mut S,
) -> Front<'g, T>
    requires seated { IsSeated (S.caller s.old) }
    requires owner { slots_home owner.now ≡ (S.caller s.old).home.slots }
    requires reader { reader_of guard.now ≡ (S.caller s.old).reader }
    ensures undisturbed { Undisturbed S.caller S.own S.known S.shows s.old s.new }
    ensures home { cells_home result.link.now ≡ (S.caller s.old).home.cells }
    ensures link { cell_of result.link.now ≡ T.link result.entry.now }
    ensures value { S.shows s.new (slot_of owner.now) result.entry.now }
    ensures exact { IsExact (S.caller s.old) → S.world s.new ≡ S.world s.old }
{
    let ptr = owner.get_guarded_ptr(guard, s);
    let entry = owner.get_guarded_ref(guard, s);
    s.shown_is_of_home();
    Front {
        ptr,
        entry,
        link: entry.link_ref(),
    }
}

/// Puts a value, whose link is clear, behind the last entry of the list in a cell that isn't deleted, and was found, or in front where there is none. The
/// list alone owns it. Answers the new entry.
///
/// `NoSlot` where no slot is free: the value comes back, and nothing has changed.
pub(crate) fn append<'g, T: LinkedList, S: Items<T> + Several<T> + Cells<T> + LookThrough<T>>(
    cell: &AtomicShared<T>,
    last: Option<Front<'g, T>>,
    value: T,
    guard: &'g Guard,
    s: &mut S,
) -> Result<Front<'g, T>, (T, Refused)>
    requires seated { IsSeated (S.caller s.old) }
    requires home { cells_home cell.now ≡ (S.caller s.old).home.cells }
    requires last { IfSome last (λ f. cells_home f.link.now ≡ (S.caller s.old).home.cells) }
    requires value { AreOf (S.caller s.old).home (T.holds value) }
    requires reader { reader_of guard.now ≡ (S.caller s.old).reader }
    ensures unmoved { Unmoved S.caller S.known S.shows s.old s.new }
    ensures own { KeepsMoreWaiting (S.own s.old) (S.own s.new) }
    ensures home { IfOk result (λ f. cells_home f.link.now ≡ (S.caller s.old).home.cells) }
    ensures back { IfErr result (λ e. (e.0 ≡ value) × IsRefusedBy (S.caller s.old) Refused.NoSlot e.1) }
    ensures refused { IsExact (S.caller s.old) →
        IfErr result (λ e. IsFull (S.world s.old).standings × (e.1 ≡ Refused.NoSlot) × (S.world s.new ≡ S.world s.old)) }
    ensures exact { IsExact (S.caller s.old) → (t : Tag) (es : List (Entry T)) → IsList T.link (S.world s.old) (cell_of cell.now) t es →
        LastIs T.link last.entry es → entry_at (S.world s.old).cells (T.link value) ≡ Some (record { held = None; tag = no_tag }) →
        cell_of cell.now ≢ T.link value → Apart T.link (T.link value) es →
        IfOk result (λ f. (k : ℕ) × IsAppended T.link (S.world s.old) (S.caller s.old).place (cell_of cell.now) t es k value (S.world s.new) ×
        (f.entry.now ≡ value) × (cell_of f.link.now ≡ T.link value)) }
{
    values_fit_slots::<T, S>(s);
    let (owner, kept) = match make_two(value, s) {
        Ok(owners) => owners,
        Err(back) => return Err(back),
    };
    put_last(cell, last, &owner, kept, guard, s);
    let front = front_of(&owner, guard, s);
    give_up(Some(owner), s);
    Ok(front)
}
