//! What the spaces need beyond the public surface: an owner, a cell, a guard and a pointer as what they are made of.
ghost use Rattle.std.specs.Prelude.{◌≡◌, IfErr, IfOk, IfSome, MatchResult, None, Some, option_copied};
ghost use Rattle.sdd_rights.specs.Right.{home_of, kind_of};
ghost use Rattle.sdd_space.specs.Owner.{slot_of, slots_home, right_of, cell_of, cell_right, cells_home};
ghost use Rattle.sdd_world_model.specs.OwnerOrCell.{AreOf};
ghost use Rattle.sdd_world_model.specs.World.{World};
ghost use Rattle.sdd_space.specs.CallerId.{IsSeated, IsExact};
ghost use Rattle.sdd_space.specs.Refusals.{IsRefusedBy};
ghost use Rattle.sdd_space.specs.Undisturbed.{Undisturbed};
ghost use Rattle.sdd_world_model.specs.WorldChanges.{held_in, made_as};
ghost use Rattle.sdd_world_model.specs.Cells.{slot_held};
ghost use Rattle.sdd_participants.specs.Slab.{IsEmptyAt, IsFull, entry_at};
ghost use Rattle.sdd_space.specs.RawPtr as raw;
ghost use Rattle.sdd_space.specs.Ptr.{slot_named, shown_by, tag_of};
ghost use Rattle.sdd_space.specs.Guard.{reader_of, ReaderId};
ghost use Rattle.sdd_space.specs.Collector.{collector_of};
ghost use Rattle.sdd_core.specs.declared.tag.Tag.TheVariants.{None as no_tag};

use crate::atomic_cell::{AtomicCell, AtomicShared};
use crate::atomic_raw::AtomicRaw;
use crate::guard::Guard;
use crate::item::Item;
use crate::owner::{Owner, Shared};
use crate::ownership::Ownership;
use crate::private_collector::PrivateCollector;
use crate::ptr::Ptr;
use crate::raw_ptr::RawPtr;
use crate::space::{HeldItems, Several};
use sdd_core::{Refused, SlotName, Tag};
use sdd_participants::{CellContents, RawCellContents, Standing};
use sdd_rights::{RawRight, Right, StandingKind};
use sdd_values::{ReadSection, SectionState};

/// The owner whose right this is.
pub fn owner_of<K: Ownership, T>(right: Right) -> Owner<K, T>
    requires { kind_of right ≡ K.kind }
    ensures { right_of result ≡ right }
{
    Owner::of_right(right)
}

/// The right of an owner.
pub fn right_of_owner<K: Ownership, T>(owner: Owner<K, T>) -> Right
    ensures right { result ≡ right_of owner }
    ensures kind { kind_of result ≡ K.kind }
{
    owner.into_right()
}

/// The same right, for as long as the owner is borrowed.
pub fn right_in_shared<T>(owner: &Shared<T>) -> &Right
    ensures right { result.now ≡ right_of owner.now }
    ensures kind { kind_of result.now ≡ StandingKind.Shared }
{
    owner.right()
}

/// The cell whose right this is.
pub fn cell_with<K: Ownership, T>(right: Right) -> AtomicCell<K, T>
    requires { kind_of right ≡ K.kind }
    ensures { cell_right result ≡ right }
{
    AtomicCell::of_right(right)
}

/// The right of a cell.
pub fn right_of_cell<K: Ownership, T>(cell: AtomicCell<K, T>) -> Right
    ensures right { result ≡ cell_right cell }
    ensures kind { kind_of result ≡ K.kind }
{
    cell.into_right()
}

/// The slot that a pointer names, if it isn't null.
pub fn slot_of_ptr<T>(ptr: &Ptr<'_, T>) -> Option<SlotName>
    ensures { result ≡ slot_named ptr.now }
{
    ptr.slot()
}

/// The value that a pointer shows, if it isn't null.
pub fn value_of_ptr<'g, T>(ptr: Ptr<'g, T>) -> Option<&'g T>
    ensures { option_copied result ≡ shown_by ptr.entry }
{
    ptr.value()
}

/// The slot of an owner's item.
pub fn slot_of_owner<K: Ownership, T>(owner: &Owner<K, T>) -> SlotName
    ensures { result ≡ slot_of owner.now }
{
    owner.slot()
}

/// A null pointer with a tag.
pub fn null_with<'g, T>(tag: Tag) -> Ptr<'g, T>
    ensures slot { slot_named result ≡ None }
    ensures shown { shown_by result ≡ None }
    ensures tag { tag_of result ≡ tag }
{
    Ptr::null().with_tag(tag)
}

/// A raw pointer to what a cell holds.
pub fn raw_ptr_to<T>(cell: CellContents) -> RawPtr<T>
    ensures { raw.cell_seen result ≡ cell }
{
    RawPtr::of(cell.held, cell.tag)
}

/// A pointer to the item in a slot that shows this value.
pub fn ptr_to<'g, T>(slot: SlotName, value: &'g T) -> Ptr<'g, T>
    ensures slot { slot_named result ≡ Some slot }
    ensures shown { shown_by result ≡ Some value.now }
    ensures tag { tag_of result ≡ no_tag }
{
    Ptr::to(slot, value)
}

/// The guard that has this unit of a section.
pub fn guard_with(section: ReadSection) -> Guard
    requires open { section.kind ≡ SectionState.Open }
    requires single { section.units ≡ 1 }
    ensures { reader_of result ≡ record { home = section.home; number = section.number } }
{
    Guard::of_section(section)
}

/// The unit of its reader's section that a guard has.
pub fn into_section(guard: Guard) -> ReadSection
    ensures reader { reader_of guard ≡ record { home = result.home; number = result.number } }
    ensures open { result.kind ≡ SectionState.Open }
    ensures single { result.units ≡ 1 }
{
    guard.into_section()
}

/// The same, for as long as the guard is borrowed.
pub fn section_of(guard: &Guard) -> &ReadSection
    ensures reader { reader_of guard.now ≡ record { home = result.now.home; number = result.now.number } }
    ensures open { result.now.kind ≡ SectionState.Open }
    ensures single { result.now.units ≡ 1 }
{
    guard.section()
}

/// The right of a raw cell.
pub fn right_of_raw_cell<T>(cell: AtomicRaw<T>) -> RawRight
    ensures { result ≡ cell.right }
{
    cell.into_right()
}

/// The right of a collector's cell.
pub fn right_of_collector<T>(collector: PrivateCollector<T>) -> RawRight
    ensures { result ≡ collector.right }
{
    collector.into_right()
}

/// The number of a collector, which is that of its cell.
pub fn number_of_collector<T>(collector: &PrivateCollector<T>) -> u32
    ensures { result ≡ collector_of collector.now }
{
    collector.number()
}

/// The pointer that a raw cell has.
pub fn raw_ptr_of<T>(pointer: RawCellContents) -> RawPtr<T>
    ensures { raw.pointer_of result ≡ pointer }
{
    RawPtr::of_pointer(pointer)
}

/// What a raw cell has that points to the same.
pub fn pointer_of_raw<T>(ptr: &RawPtr<T>) -> RawCellContents
    ensures { result ≡ raw.pointer_of ptr.now }
{
    ptr.pointer()
}

/// Puts a value into a free slot, with two owners at once.
///
/// `NoSlot` where none is free; `Contended`, in a domain alone, where as many exchanges were lost as its limits allow. The value comes back.
pub fn make_two<T: Item<T>, S: Several<T>>(
    value: T,
    s: &mut S,
) -> Result<(Shared<T>, Shared<T>), (T, Refused)>
    requires seated { IsSeated (S.caller s.old) }
    requires home { AreOf (S.caller s.old).home (T.holds value) }
    ensures undisturbed { Undisturbed S.caller S.own S.known S.shows s.old s.new }
    ensures home { IfOk result (λ both. (slots_home both.0 ≡ (S.caller s.old).home.slots) × (slots_home both.1 ≡ (S.caller s.old).home.slots)) }
    ensures one { IfOk result (λ both. slot_of both.1 ≡ slot_of both.0) }
    ensures shown { IfOk result (λ both. S.owns_value s.new (right_of both.0) value × S.owns_value s.new (right_of both.1) value) }
    ensures back { IfErr result (λ e. (e.0 ≡ value) × IsRefusedBy (S.caller s.old) Refused.NoSlot e.1) }
    ensures exact { IsExact (S.caller s.old) → MatchResult result
        (λ both. IsEmptyAt (S.world s.old).standings (slot_of both.0) ×
        (S.world s.new ≡ made_as (S.world s.old) (slot_of both.0) value (Standing.Shared 2)))
        (λ e. IsFull (S.world s.old).standings × (e ≡ (value, Refused.NoSlot)) × (S.world s.new ≡ S.world s.old)) }
{
    let (first, other) = match s.make_several(value, 2) {
        Ok(made) => made,
        Err(refused) => return Err(refused),
    };
    let (second, rest) = s.split_off(&first, other);
    match rest {
        None => Ok((Shared::of_right(first), Shared::of_right(second))),
        Some(_) => unreachable!(),
    }
}

/// Where the right of the owner lies that a cell of shared owners holds, if it holds one.
pub fn right_in<'a, T: Item<T>, S: HeldItems<T>>(
    cell: &AtomicShared<T>,
    s: &'a S,
) -> &'a Option<Right>
    requires home { cells_home cell.now ≡ (S.caller s.now).home.cells }
    ensures home { IfSome result.now (λ owner. home_of owner ≡ (S.caller s.now).home.slots) }
    ensures exact { IsExact (S.caller s.now) → slot_held result.now ≡ held_in (entry_at (S.world s.now).cells (cell_of cell.now)) }
{
    s.right_in(cell.right())
}

/// The tag of a cell of shared owners.
pub fn tag_held_in<T: Item<T>, S: HeldItems<T>>(cell: &AtomicShared<T>, s: &S) -> Tag
    requires home { cells_home cell.now ≡ (S.caller s.now).home.cells }
    ensures exact { IsExact (S.caller s.now) → IfSome (entry_at (S.world s.now).cells (cell_of cell.now)) (λ held. held.tag ≡ result) }
{
    s.contents(cell.right()).tag
}
