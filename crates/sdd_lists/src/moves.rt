//! What lists let go of, and what is put into them: owners that are moved from cell to cell.
ghost use Rattle.std.specs.Prelude.{◌≡◌, ◌≢◌, ℕ, IfErr, IfOk, IfSome, IsOk, List, [], Option, MatchOption, None, Some, if◌then◌else◌, option_map};
ghost use Rattle.sdd_space.specs.Guard.{reader_of};
ghost use Rattle.sdd_space.specs.Undisturbed.{Undisturbed, Unmoved};
ghost use Rattle.sdd_world_model.specs.ParticipantChanges.{KeepsMoreWaiting};
ghost use Rattle.sdd_space.specs.Ptr.{PtrIsShown, slot_named, tag_of};
ghost use Rattle.sdd_space.specs.CallerId.{IsSeated, IsExact};
ghost use Rattle.sdd_space.specs.Shared.{IsOfSlots, slot_of, slots_home, cell_of, cells_home};
ghost use Rattle.sdd_world_model.specs.WorldChanges.{owner_given, with_cell};
ghost use Rattle.sdd_world_model.specs.World.{standing_at};
ghost use Rattle.sdd_core.specs.declared.tag.Tag.{Tag};
ghost use Rattle.sdd_core.specs.declared.tag.Tag.TheVariants.{None as no_tag, Second as deleting};
ghost use Rattle.sdd_world_model.specs.Slots.{IsSharedBy};
ghost use Rattle.sdd_participants.specs.Slab.{entry_at};
ghost use Rattle.sdd_participants.specs.declared.standing.CellContents.{CellContents};
ghost use Rattle.sdd_participants.specs.declared.standing.Standing.TheVariants.{Shared as shared_by};
ghost use Rattle.sdd_lists.specs.Queue.{cell_emptied};
ghost use Rattle.sdd_lists.specs.Lists.{Entry, IsList, emptied, first_slot, left, let_go_first, linked_in, may_delete, trimmed};

use crate::linked_list::LinkedList;
use crate::walks::{first_in, reach};
use sdd_core::{Refused, Tag};
use sdd_space::{AtomicShared, Cells, Guard, Item, Items, LookThrough, Ptr, Shared};

/// Gives an owner up, if there is one.
#[inline]
pub(crate) fn give_up<T: Item<T>, S: Items<T>>(owner: Option<Shared<T>>, s: &mut S)
    requires seated { IsSeated (S.caller s.old) }
    requires home { IsOfSlots (S.caller s.old).home.slots owner }
    ensures unmoved { Unmoved S.caller S.known S.shows s.old s.new }
    ensures own { KeepsMoreWaiting (S.own s.old) (S.own s.new) }
    ensures exact { IsExact (S.caller s.old) → MatchOption owner (S.world s.new ≡ S.world s.old) (λ o. (owners : ℕ) ×
        IsSharedBy owners (standing_at (S.world s.old) (slot_of o)) ×
        (S.world s.new ≡ owner_given (S.world s.old) (S.caller s.old).place (slot_of o) (Some (shared_by owners)))) }
{
    if let Some(owner) = owner {
        let _ = owner.release(s);
    }
}

/// Gives up what a cell holds. It holds nothing then, without a tag.
pub(crate) fn empty_cell<T: Item<T>, S: Items<T> + Cells<T>>(cell: &AtomicShared<T>, s: &mut S)
    requires seated { IsSeated (S.caller s.old) }
    requires home { cells_home cell.now ≡ (S.caller s.old).home.cells }
    ensures unmoved { Unmoved S.caller S.known S.shows s.old s.new }
    ensures own { KeepsMoreWaiting (S.own s.old) (S.own s.new) }
    ensures exact { IsExact (S.caller s.old) → (held : Option ℕ) (t : Tag) →
        entry_at (S.world s.old).cells (cell_of cell.now) ≡ Some (record { held = held; tag = t }) →
        S.world s.new ≡ cell_emptied (S.world s.old) (S.caller s.old).place (cell_of cell.now) held }
{
    let (held, _) = cell.swap((None, Tag::None), s);
    give_up(held, s);
}

/// The same, if it is to be done.
pub(crate) fn empty_cell_if<T: Item<T>, S: Items<T> + Cells<T>>(
    is_due: bool,
    cell: &AtomicShared<T>,
    s: &mut S,
)
    requires seated { IsSeated (S.caller s.old) }
    requires home { cells_home cell.now ≡ (S.caller s.old).home.cells }
    ensures unmoved { Unmoved S.caller S.known S.shows s.old s.new }
    ensures own { KeepsMoreWaiting (S.own s.old) (S.own s.new) }
    ensures exact { IsExact (S.caller s.old) → (held : Option ℕ) (t : Tag) →
        entry_at (S.world s.old).cells (cell_of cell.now) ≡ Some (record { held = held; tag = t }) →
        S.world s.new ≡ (if is_due then cell_emptied (S.world s.old) (S.caller s.old).place (cell_of cell.now) held else S.world s.old) }
{
    if is_due {
        empty_cell(cell, s);
    }
}

/// The first of two cells holds an entry, whose link is the second. The entry is deleted, if it isn't, and let go of: the first cell holds what the link
/// held instead.
#[inline(always)]
pub(crate) fn let_go_of_first<T: LinkedList, S: Items<T> + Cells<T>>(
    cell: &AtomicShared<T>,
    link: &AtomicShared<T>,
    s: &mut S,
)
    requires seated { IsSeated (S.caller s.old) }
    requires home { cells_home cell.now ≡ (S.caller s.old).home.cells }
    requires link { cells_home link.now ≡ (S.caller s.old).home.cells }
    ensures unmoved { Unmoved S.caller S.known S.shows s.old s.new }
    ensures own { KeepsMoreWaiting (S.own s.old) (S.own s.new) }
    ensures exact { IsExact (S.caller s.old) → (k : ℕ) (t was : Tag) (next : Option ℕ) →
        entry_at (S.world s.old).cells (cell_of cell.now) ≡ Some (record { held = Some k; tag = t }) →
        entry_at (S.world s.old).cells (cell_of link.now) ≡ Some (record { held = next; tag = was }) →
        cell_of cell.now ≢ cell_of link.now →
        S.world s.new ≡ let_go_first (S.world s.old) (S.caller s.old).place (cell_of cell.now) t k (cell_of link.now) next }
{
    let tag = cell.tag(s);
    let (next, _) = link.swap((None, Tag::Second), s);
    let (first, _) = cell.swap((next, tag), s);
    give_up(first, s);
}

/// Lets go of the deleted entries that a cell holds in front, and points to the first that isn't deleted.
///
/// `Contended` where there are as many deleted ones as slots and one more, as where links run in a ring.
#[inline]
pub(crate) fn trim<'g, T: LinkedList, S: Items<T> + Cells<T> + LookThrough<T>>(
    cell: &AtomicShared<T>,
    guard: &'g Guard,
    s: &mut S,
) -> Result<Ptr<'g, T>, Refused>
    requires seated { IsSeated (S.caller s.old) }
    requires home { cells_home cell.now ≡ (S.caller s.old).home.cells }
    requires reader { reader_of guard.now ≡ (S.caller s.old).reader }
    ensures unmoved { Unmoved S.caller S.known S.shows s.old s.new }
    ensures own { KeepsMoreWaiting (S.own s.old) (S.own s.new) }
    ensures shown { IfOk result (PtrIsShown (S.shows s.new)) }
    ensures tag { IfOk result (λ ptr. tag_of ptr ≡ no_tag) }
    ensures back { IfErr result (λ e. e ≡ Refused.Contended) }
    ensures exact { IsExact (S.caller s.old) → (t : Tag) (es : List (Entry T)) → IsList T.link (S.world s.old) (cell_of cell.now) t es →
        IsOk result × IfOk result (λ ptr. slot_named ptr ≡ first_slot (left es)) ×
        IsList T.link (S.world s.new) (cell_of cell.now) t (left es) ×
        (S.world s.new ≡ trimmed T.link (S.world s.old) (S.caller s.old).place (cell_of cell.now) t es) }
{
    let first = cell.load(guard, s);
    let Some(entry) = first.as_ref(&*s) else {
        return Ok(first.without_tag());
    };
    s.shown_is_of_home();
    match entry.link_ref().tag(s) {
        Tag::Second => trim_deleted(cell, guard, s),
        _ => Ok(first.without_tag()),
    }
}

/// The same where the entry in the cell is deleted, or isn't.
///
/// `Contended` where there are as many deleted ones as slots and one more, as where links run in a ring.
#[cold]
#[inline(never)]
fn trim_deleted<'g, T: LinkedList, S: Items<T> + Cells<T> + LookThrough<T>>(
    cell: &AtomicShared<T>,
    guard: &'g Guard,
    s: &mut S,
) -> Result<Ptr<'g, T>, Refused>
    requires seated { IsSeated (S.caller s.old) }
    requires home { cells_home cell.now ≡ (S.caller s.old).home.cells }
    requires reader { reader_of guard.now ≡ (S.caller s.old).reader }
    ensures unmoved { Unmoved S.caller S.known S.shows s.old s.new }
    ensures own { KeepsMoreWaiting (S.own s.old) (S.own s.new) }
    ensures shown { IfOk result (PtrIsShown (S.shows s.new)) }
    ensures tag { IfOk result (λ ptr. tag_of ptr ≡ no_tag) }
    ensures back { IfErr result (λ e. e ≡ Refused.Contended) }
    ensures exact { IsExact (S.caller s.old) → (t : Tag) (es : List (Entry T)) → IsList T.link (S.world s.old) (cell_of cell.now) t es →
        IsOk result × IfOk result (λ ptr. slot_named ptr ≡ first_slot (left es)) ×
        IsList T.link (S.world s.new) (cell_of cell.now) t (left es) ×
        (S.world s.new ≡ trimmed T.link (S.world s.old) (S.caller s.old).place (cell_of cell.now) t es) }
{
    let most = reach::<T, S>(s);
    for _step in 0..most {
        let first = cell.load(guard, s);
        let Some(entry) = first.as_ref(&*s) else {
            return Ok(first.without_tag());
        };
        s.shown_is_of_home();
        let link = entry.link_ref();
        let Tag::Second = link.tag(s) else {
            return Ok(first.without_tag());
        };
        let_go_of_first(cell, link, s);
    }
    if cell.is_null(s) {
        Ok(Ptr::null())
    } else {
        Err(Refused::Contended)
    }
}

/// Deletes the entries of the list in a cell that aren't deleted, and lets go of all, one after another.
pub(crate) fn let_go_of_all<T: LinkedList, S: Items<T> + Cells<T> + LookThrough<T>>(
    cell: &AtomicShared<T>,
    guard: &Guard,
    s: &mut S,
)
    requires seated { IsSeated (S.caller s.old) }
    requires home { cells_home cell.now ≡ (S.caller s.old).home.cells }
    requires reader { reader_of guard.now ≡ (S.caller s.old).reader }
    ensures unmoved { Unmoved S.caller S.known S.shows s.old s.new }
    ensures own { KeepsMoreWaiting (S.own s.old) (S.own s.new) }
    ensures exact { IsExact (S.caller s.old) → (t : Tag) (es : List (Entry T)) → IsList T.link (S.world s.old) (cell_of cell.now) t es →
        IsList T.link (S.world s.new) (cell_of cell.now) t [] ×
        (S.world s.new ≡ emptied T.link (S.world s.old) (S.caller s.old).place (cell_of cell.now) t es) }
{
    let most = reach::<T, S>(s);
    for _step in 0..most {
        let Some(front) = first_in(cell, guard, s) else {
            return;
        };
        let_go_of_first(cell, front.link, s);
    }
}

/// Deletes the entry of a link, if it isn't deleted, and answers whether it did.
pub(crate) fn delete<T: Item<T>, S: Cells<T>>(link: &AtomicShared<T>, s: &mut S) -> bool
    requires seated { IsSeated (S.caller s.old) }
    requires home { cells_home link.now ≡ (S.caller s.old).home.cells }
    ensures undisturbed { Undisturbed S.caller S.own S.known S.shows s.old s.new }
    ensures exact { IsExact (S.caller s.old) → (cell : CellContents) ×
        (entry_at (S.world s.old).cells (cell_of link.now) ≡ Some cell) × (result ≡ may_delete cell.tag) ×
        (S.world s.new ≡ (if result then with_cell (S.world s.old) (cell_of link.now) (record cell { tag = deleting }) else S.world s.old)) }
{
    let changed = link.update_tag_if(
        Tag::Second,
        |held| matches!(held.tag(), Tag::None | Tag::First),
        s,
    );
    match changed {
        Ok(changed) => changed,
        Err(_) => false,
    }
}

/// Puts an entry, whose link is clear, between a cell and what it holds, and gives the cell this tag.
pub(crate) fn put_with_tag<T: LinkedList, S: Items<T> + Cells<T>>(
    cell: &AtomicShared<T>,
    owner: Shared<T>,
    tag: Tag,
    link: &AtomicShared<T>,
    s: &mut S,
)
    requires seated { IsSeated (S.caller s.old) }
    requires home { cells_home cell.now ≡ (S.caller s.old).home.cells }
    requires owner { slots_home owner ≡ (S.caller s.old).home.slots }
    requires link { cells_home link.now ≡ (S.caller s.old).home.cells }
    ensures unmoved { Unmoved S.caller S.known S.shows s.old s.new }
    ensures own { KeepsMoreWaiting (S.own s.old) (S.own s.new) }
    ensures exact { IsExact (S.caller s.old) → (t : Tag) (next : Option ℕ) →
        entry_at (S.world s.old).cells (cell_of cell.now) ≡ Some (record { held = next; tag = t }) →
        entry_at (S.world s.old).cells (cell_of link.now) ≡ Some (record { held = None; tag = no_tag }) →
        cell_of cell.now ≢ cell_of link.now →
        S.world s.new ≡ linked_in (S.world s.old) (cell_of cell.now) tag (cell_of link.now) (slot_of owner) next }
{
    let (next, _) = cell.swap((Some(owner), tag), s);
    match next {
        Some(next) => {
            let (rest, _) = link.swap((Some(next), Tag::None), s);
            give_up(rest, s);
        }
        None => {}
    }
}

/// Puts an entry, whose link is clear, between a cell and what it holds.
pub(crate) fn put_in_front<T: LinkedList, S: Items<T> + Cells<T>>(
    cell: &AtomicShared<T>,
    owner: Shared<T>,
    link: &AtomicShared<T>,
    s: &mut S,
)
    requires seated { IsSeated (S.caller s.old) }
    requires home { cells_home cell.now ≡ (S.caller s.old).home.cells }
    requires owner { slots_home owner ≡ (S.caller s.old).home.slots }
    requires link { cells_home link.now ≡ (S.caller s.old).home.cells }
    ensures unmoved { Unmoved S.caller S.known S.shows s.old s.new }
    ensures own { KeepsMoreWaiting (S.own s.old) (S.own s.new) }
    ensures exact { IsExact (S.caller s.old) → (t : Tag) (next : Option ℕ) →
        entry_at (S.world s.old).cells (cell_of cell.now) ≡ Some (record { held = next; tag = t }) →
        entry_at (S.world s.old).cells (cell_of link.now) ≡ Some (record { held = None; tag = no_tag }) →
        cell_of cell.now ≢ cell_of link.now →
        S.world s.new ≡ linked_in (S.world s.old) (cell_of cell.now) t (cell_of link.now) (slot_of owner) next }
{
    let tag = cell.tag(s);
    put_with_tag(cell, owner, tag, link, s);
}
