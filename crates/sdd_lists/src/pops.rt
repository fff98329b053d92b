//! Entries that leave a list at its front.
ghost use Rattle.std.specs.Prelude.{◌≡◌, ◌⊎◌, ℕ, IfErr, IfOk, IsOk, Option, List, [], ◌∷◌, MatchOption, MatchResult, Some, false};
ghost use Rattle.sdd_space.specs.Guard.{reader_of};
ghost use Rattle.sdd_space.specs.Undisturbed.{Undisturbed, Unmoved};
ghost use Rattle.sdd_world_model.specs.ParticipantChanges.{KeepsMoreWaiting};
ghost use Rattle.sdd_space.specs.Ptr.{PtrIsShown, slot_named};
ghost use Rattle.sdd_space.specs.CallerId.{IsSeated, IsExact};
ghost use Rattle.sdd_space.specs.Shared.{IsOfSlots, slots_home, cell_of, cells_home};
ghost use Rattle.sdd_world_model.specs.World.{standing_at};
ghost use Rattle.sdd_core.specs.declared.tag.Tag.{Tag};
ghost use Rattle.sdd_world_model.specs.Slots.{IsSharedBy};
ghost use Rattle.sdd_lists.specs.Lists.{Entry, IsCrowded, IsKept, IsList, IsTaken, Pops, is_deleted, left, removed};
ghost use Rattle.sdd_lists.specs.Queue.{Dequeues, IsCleared, IsDequeued, IsQueue};

use crate::linked_list::LinkedList;
use crate::moves::{delete, empty_cell, empty_cell_if, let_go_of_first, trim};
use crate::walks::{Front, find_first, first_in, is_let_go_of, is_named, slot_in};
use sdd_core::{Refused, Tag};
use sdd_space::{AtomicShared, Cells, Guard, Items, LookThrough, Shared, SharedItems};

/// Deletes the first entry of the list in a cell that isn't deleted, whose link is the other one, and lets go of it, with what is deleted before it.
pub(crate) fn remove_first<T: LinkedList, S: Items<T> + Cells<T> + LookThrough<T>>(
    cell: &AtomicShared<T>,
    link: &AtomicShared<T>,
    guard: &Guard,
    s: &mut S,
) -> Result<(), Refused>
    requires seated { IsSeated (S.caller s.old) }
    requires home { cells_home cell.now ≡ (S.caller s.old).home.cells }
    requires link { cells_home link.now ≡ (S.caller s.old).home.cells }
    requires reader { reader_of guard.now ≡ (S.caller s.old).reader }
    ensures unmoved { Unmoved S.caller S.known S.shows s.old s.new }
    ensures own { KeepsMoreWaiting (S.own s.old) (S.own s.new) }
    ensures back { IfErr result (λ e. e ≡ Refused.Contended) }
    ensures exact { IsExact (S.caller s.old) → (t : Tag) (es : List (Entry T)) → IsList T.link (S.world s.old) (cell_of cell.now) t es →
        (e : Entry T) (rest : List (Entry T)) → left es ≡ e ∷ rest → cell_of link.now ≡ T.link e.value → IsOk result ×
        (S.world s.new ≡ removed T.link (S.world s.old) (S.caller s.old).place (cell_of cell.now) t es e rest) ×
        IsList T.link (S.world s.new) (cell_of cell.now) t rest }
{
    if let Err(refused) = trim(cell, guard, s) {
        return Err(refused);
    }
    remove_head(cell, link, s)
}

/// Deletes the first entry of the list in a cell, which isn't deleted, and whose link this is, and lets go of it.
#[inline(always)]
fn remove_head<T: LinkedList, S: Items<T> + Cells<T>>(
    cell: &AtomicShared<T>,
    link: &AtomicShared<T>,
    s: &mut S,
) -> Result<(), Refused>
    requires seated { IsSeated (S.caller s.old) }
    requires home { cells_home cell.now ≡ (S.caller s.old).home.cells }
    requires link { cells_home link.now ≡ (S.caller s.old).home.cells }
    ensures unmoved { Unmoved S.caller S.known S.shows s.old s.new }
    ensures own { KeepsMoreWaiting (S.own s.old) (S.own s.new) }
    ensures back { IfErr result (λ e. e ≡ Refused.Contended) }
    ensures exact { IsExact (S.caller s.old) → (t : Tag) (e : Entry T) (rest : List (Entry T)) →
        IsList T.link (S.world s.old) (cell_of cell.now) t (e ∷ rest) → is_deleted e ≡ false → cell_of link.now ≡ T.link e.value → IsOk result ×
        (S.world s.new ≡ removed T.link (S.world s.old) (S.caller s.old).place (cell_of cell.now) t [] e rest) ×
        IsList T.link (S.world s.new) (cell_of cell.now) t rest }
{
    let deleted = delete(link, s);
    if !deleted {
        return Err(Refused::Contended);
    }
    let_go_of_first(cell, link, s);
    Ok(())
}

/// Takes the first entry of the list in a cell that isn't deleted, and was found: it is deleted, and what is deleted before it is let go of with it.
///
/// `TooManyOwners` where 2^62 own the entry.
pub(crate) fn take_first<T: LinkedList, S: Items<T> + SharedItems<T> + Cells<T> + LookThrough<T>>(
    cell: &AtomicShared<T>,
    front: Front<'_, T>,
    guard: &Guard,
    s: &mut S,
) -> Result<Shared<T>, Refused>
    requires seated { IsSeated (S.caller s.old) }
    requires home { cells_home cell.now ≡ (S.caller s.old).home.cells }
    requires reader { reader_of guard.now ≡ (S.caller s.old).reader }
    requires link { cells_home front.link.now ≡ (S.caller s.old).home.cells }
    requires shown { PtrIsShown (S.shows s.old) front.ptr }
    ensures unmoved { Unmoved S.caller S.known S.shows s.old s.new }
    ensures own { KeepsMoreWaiting (S.own s.old) (S.own s.new) }
    ensures owner { IfOk result (λ owner. slots_home owner ≡ (S.caller s.old).home.slots) }
    ensures back { IfErr result (λ e. (e ≡ Refused.TooManyOwners) ⊎ (e ≡ Refused.Contended)) }
    ensures exact { IsExact (S.caller s.old) → (t : Tag) (es : List (Entry T)) → IsList T.link (S.world s.old) (cell_of cell.now) t es →
        (e : Entry T) (rest : List (Entry T)) → left es ≡ e ∷ rest → slot_named front.entry.ptr ≡ Some e.slot →
        cell_of front.entry.link.now ≡ T.link e.value → ((n : ℕ) × IsSharedBy n (standing_at (S.world s.old) e.slot)) → MatchResult result
        (λ owner. IsTaken T.link (S.world s.old) (S.caller s.old).place (cell_of cell.now) t es e rest owner (S.world s.new))
        (λ why. IsCrowded (S.world s.old) e why (S.world s.new)) }
{
    let link = front.link;
    let owner = match keep_first(front, s) {
        Ok(owner) => owner,
        Err(refused) => return Err(refused),
    };
    match remove_first(cell, link, guard, s) {
        Ok(()) => Ok(owner),
        Err(refused) => {
            let _ = owner.release(s);
            Err(refused)
        }
    }
}

/// Takes the first entry of the list in a cell, which isn't deleted, and was found.
///
/// `TooManyOwners` where 2^62 own the entry.
#[inline]
fn take_head<T: LinkedList, S: Items<T> + SharedItems<T> + Cells<T>>(
    cell: &AtomicShared<T>,
    front: Front<'_, T>,
    s: &mut S,
) -> Result<Shared<T>, Refused>
    requires seated { IsSeated (S.caller s.old) }
    requires home { cells_home cell.now ≡ (S.caller s.old).home.cells }
    requires link { cells_home front.link.now ≡ (S.caller s.old).home.cells }
    requires shown { PtrIsShown (S.shows s.old) front.ptr }
    ensures unmoved { Unmoved S.caller S.known S.shows s.old s.new }
    ensures own { KeepsMoreWaiting (S.own s.old) (S.own s.new) }
    ensures owner { IfOk result (λ owner. slots_home owner ≡ (S.caller s.old).home.slots) }
    ensures back { IfErr result (λ e. (e ≡ Refused.TooManyOwners) ⊎ (e ≡ Refused.Contended)) }
    ensures exact { IsExact (S.caller s.old) → (t : Tag) (e : Entry T) (rest : List (Entry T)) →
        IsList T.link (S.world s.old) (cell_of cell.now) t (e ∷ rest) → is_deleted e ≡ false → slot_named front.entry.ptr ≡ Some e.slot →
        cell_of front.entry.link.now ≡ T.link e.value → ((n : ℕ) × IsSharedBy n (standing_at (S.world s.old) e.slot)) → MatchResult result
        (λ owner. IsTaken T.link (S.world s.old) (S.caller s.old).place (cell_of cell.now) t (e ∷ rest) e rest owner (S.world s.new))
        (λ why. IsCrowded (S.world s.old) e why (S.world s.new)) }
{
    let link = front.link;
    let owner = match keep_first(front, s) {
        Ok(owner) => owner,
        Err(refused) => return Err(refused),
    };
    match remove_head(cell, link, s) {
        Ok(()) => Ok(owner),
        Err(refused) => {
            let _ = owner.release(s);
            Err(refused)
        }
    }
}

/// One owner more of an entry that was found. Nothing else changes.
///
/// `TooManyOwners` where 2^62 own the entry.
pub(crate) fn keep_first<T: LinkedList, S: SharedItems<T>>(
    front: Front<'_, T>,
    s: &mut S,
) -> Result<Shared<T>, Refused>
    requires seated { IsSeated (S.caller s.old) }
    requires shown { PtrIsShown (S.shows s.old) front.ptr }
    ensures undisturbed { Undisturbed S.caller S.own S.known S.shows s.old s.new }
    ensures owner { IfOk result (λ owner. slots_home owner ≡ (S.caller s.old).home.slots) }
    ensures back { IfErr result (λ e. (e ≡ Refused.TooManyOwners) ⊎ (e ≡ Refused.Contended)) }
    ensures exact { IsExact (S.caller s.old) → (e : Entry T) → slot_named front.entry.ptr ≡ Some e.slot →
        ((n : ℕ) × IsSharedBy n (standing_at (S.world s.old) e.slot)) → MatchResult result
        (λ owner. IsKept (S.world s.old) e owner (S.world s.new)) (λ why. IsCrowded (S.world s.old) e why (S.world s.new)) }
{
    match front.ptr.get_shared(s) {
        Ok(Some(owner)) => Ok(owner),
        Ok(None) => Err(Refused::Contended),
        Err(refused) => Err(refused),
    }
}

/// Pops the first entry of the list in a cell that isn't deleted: it is deleted, and what is deleted before it is let go of with it.
///
/// `TooManyOwners` where 2^62 own the entry; nothing has changed then.
#[inline]
pub(crate) fn pop_first<T: LinkedList, S: Items<T> + SharedItems<T> + Cells<T> + LookThrough<T>>(
    cell: &AtomicShared<T>,
    guard: &Guard,
    s: &mut S,
) -> Result<Option<Shared<T>>, Refused>
    requires seated { IsSeated (S.caller s.old) }
    requires home { cells_home cell.now ≡ (S.caller s.old).home.cells }
    requires reader { reader_of guard.now ≡ (S.caller s.old).reader }
    ensures unmoved { Unmoved S.caller S.known S.shows s.old s.new }
    ensures own { KeepsMoreWaiting (S.own s.old) (S.own s.new) }
    ensures owner { IfOk result (IsOfSlots (S.caller s.old).home.slots) }
    ensures back { IfErr result (λ e. (e ≡ Refused.TooManyOwners) ⊎ (e ≡ Refused.Contended)) }
    ensures exact { IsExact (S.caller s.old) → (t : Tag) (es : List (Entry T)) → IsList T.link (S.world s.old) (cell_of cell.now) t es →
        Pops T.link (S.world s.old) (S.caller s.old).place (cell_of cell.now) t es result (S.world s.new) }
{
    let Some(front) = first_in(cell, guard, s) else {
        return Ok(None);
    };
    if let Tag::Second = front.link.tag(s) {
        return pop_past_deleted(cell, guard, s);
    }
    match take_head(cell, front, s) {
        Ok(owner) => Ok(Some(owner)),
        Err(refused) => Err(refused),
    }
}

/// The same where the entry in the cell is deleted, or isn't.
///
/// `TooManyOwners` where 2^62 own the entry; nothing has changed then.
#[cold]
#[inline(never)]
fn pop_past_deleted<T: LinkedList, S: Items<T> + SharedItems<T> + Cells<T> + LookThrough<T>>(
    cell: &AtomicShared<T>,
    guard: &Guard,
    s: &mut S,
) -> Result<Option<Shared<T>>, Refused>
    requires seated { IsSeated (S.caller s.old) }
    requires home { cells_home cell.now ≡ (S.caller s.old).home.cells }
    requires reader { reader_of guard.now ≡ (S.caller s.old).reader }
    ensures unmoved { Unmoved S.caller S.known S.shows s.old s.new }
    ensures own { KeepsMoreWaiting (S.own s.old) (S.own s.new) }
    ensures owner { IfOk result (IsOfSlots (S.caller s.old).home.slots) }
    ensures back { IfErr result (λ e. (e ≡ Refused.TooManyOwners) ⊎ (e ≡ Refused.Contended)) }
    ensures exact { IsExact (S.caller s.old) → (t : Tag) (es : List (Entry T)) → IsList T.link (S.world s.old) (cell_of cell.now) t es →
        Pops T.link (S.world s.old) (S.caller s.old).place (cell_of cell.now) t es result (S.world s.new) }
{
    match find_first(cell, guard, s) {
        Ok(Some(front)) => match take_first(cell, front, guard, s) {
            Ok(owner) => Ok(Some(owner)),
            Err(refused) => Err(refused),
        },
        Ok(None) => match trim(cell, guard, s) {
            Ok(_) => Ok(None),
            Err(refused) => Err(refused),
        },
        Err(refused) => Err(refused),
    }
}

/// Takes the first entry of a queue that isn't deleted, and was found: it is deleted, and what is deleted before it is let go of with it. The second cell
/// gives up what it holds first, if that is one of these.
///
/// `TooManyOwners` where 2^62 own the entry.
pub(crate) fn take_oldest<T: LinkedList, S: Items<T> + SharedItems<T> + Cells<T> + LookThrough<T>>(
    oldest: &AtomicShared<T>,
    newest: &AtomicShared<T>,
    front: Front<'_, T>,
    guard: &Guard,
    s: &mut S,
) -> Result<Shared<T>, Refused>
    requires seated { IsSeated (S.caller s.old) }
    requires oldest { cells_home oldest.now ≡ (S.caller s.old).home.cells }
    requires newest { cells_home newest.now ≡ (S.caller s.old).home.cells }
    requires reader { reader_of guard.now ≡ (S.caller s.old).reader }
    requires link { cells_home front.link.now ≡ (S.caller s.old).home.cells }
    requires shown { PtrIsShown (S.shows s.old) front.ptr }
    ensures unmoved { Unmoved S.caller S.known S.shows s.old s.new }
    ensures own { KeepsMoreWaiting (S.own s.old) (S.own s.new) }
    ensures owner { IfOk result (λ owner. slots_home owner ≡ (S.caller s.old).home.slots) }
    ensures back { IfErr result (λ e. (e ≡ Refused.TooManyOwners) ⊎ (e ≡ Refused.Contended)) }
    ensures exact { IsExact (S.caller s.old) → (es : List (Entry T)) (second : Option ℕ) →
        IsQueue T.link (S.world s.old) (record { oldest = cell_of oldest.now; newest = cell_of newest.now }) es second →
        (e : Entry T) (rest : List (Entry T)) → left es ≡ e ∷ rest → slot_named front.entry.ptr ≡ Some e.slot →
        cell_of front.entry.link.now ≡ T.link e.value → ((n : ℕ) × IsSharedBy n (standing_at (S.world s.old) e.slot)) → MatchResult result
        (λ owner. IsDequeued T.link (S.world s.old) (S.caller s.old).place (record { oldest = cell_of oldest.now; newest = cell_of newest.now }) es second
        e rest owner (S.world s.new))
        (λ why. IsCrowded (S.world s.old) e why (S.world s.new)) }
{
    let link = front.link;
    let second = slot_in(newest, guard, s);
    let goes = is_let_go_of(oldest, second, guard, s);
    let owner = match keep_first(front, s) {
        Ok(owner) => owner,
        Err(refused) => return Err(refused),
    };
    empty_cell_if(goes, newest, s);
    match remove_first(oldest, link, guard, s) {
        Ok(()) => Ok(owner),
        Err(refused) => {
            let _ = owner.release(s);
            Err(refused)
        }
    }
}

/// Takes the first entry of a queue, which isn't deleted, and was found. The second cell gives up what it holds first, if that is this one.
///
/// `TooManyOwners` where 2^62 own the entry.
#[inline]
fn take_head_of_queue<T: LinkedList, S: Items<T> + SharedItems<T> + Cells<T>>(
    oldest: &AtomicShared<T>,
    newest: &AtomicShared<T>,
    front: Front<'_, T>,
    guard: &Guard,
    s: &mut S,
) -> Result<Shared<T>, Refused>
    requires seated { IsSeated (S.caller s.old) }
    requires oldest { cells_home oldest.now ≡ (S.caller s.old).home.cells }
    requires newest { cells_home newest.now ≡ (S.caller s.old).home.cells }
    requires reader { reader_of guard.now ≡ (S.caller s.old).reader }
    requires link { cells_home front.link.now ≡ (S.caller s.old).home.cells }
    requires shown { PtrIsShown (S.shows s.old) front.ptr }
    ensures unmoved { Unmoved S.caller S.known S.shows s.old s.new }
    ensures own { KeepsMoreWaiting (S.own s.old) (S.own s.new) }
    ensures owner { IfOk result (λ owner. slots_home owner ≡ (S.caller s.old).home.slots) }
    ensures back { IfErr result (λ e. (e ≡ Refused.TooManyOwners) ⊎ (e ≡ Refused.Contended)) }
    ensures exact { IsExact (S.caller s.old) → (e : Entry T) (rest : List (Entry T)) (second : Option ℕ) →
        IsQueue T.link (S.world s.old) (record { oldest = cell_of oldest.now; newest = cell_of newest.now }) (e ∷ rest) second → is_deleted e ≡ false →
        slot_named front.entry.ptr ≡ Some e.slot → cell_of front.entry.link.now ≡ T.link e.value →
        ((n : ℕ) × IsSharedBy n (standing_at (S.world s.old) e.slot)) → MatchResult result
        (λ owner. IsDequeued T.link (S.world s.old) (S.caller s.old).place (record { oldest = cell_of oldest.now; newest = cell_of newest.now }) (e ∷ rest)
        second e rest owner (S.world s.new))
        (λ why. IsCrowded (S.world s.old) e why (S.world s.new)) }
{
    let link = front.link;
    let second = slot_in(newest, guard, s);
    let is_newest = is_named(&front.ptr, second);
    let owner = match keep_first(front, s) {
        Ok(owner) => owner,
        Err(refused) => return Err(refused),
    };
    empty_cell_if(is_newest, newest, s);
    match remove_head(oldest, link, s) {
        Ok(()) => Ok(owner),
        Err(refused) => {
            let _ = owner.release(s);
            Err(refused)
        }
    }
}

/// Lets go of a queue whose entries are deleted all. The second cell gives up what it holds first.
pub(crate) fn clear<T: LinkedList, S: Items<T> + Cells<T> + LookThrough<T>>(
    oldest: &AtomicShared<T>,
    newest: &AtomicShared<T>,
    guard: &Guard,
    s: &mut S,
) -> Result<(), Refused>
    requires seated { IsSeated (S.caller s.old) }
    requires oldest { cells_home oldest.now ≡ (S.caller s.old).home.cells }
    requires newest { cells_home newest.now ≡ (S.caller s.old).home.cells }
    requires reader { reader_of guard.now ≡ (S.caller s.old).reader }
    ensures unmoved { Unmoved S.caller S.known S.shows s.old s.new }
    ensures own { KeepsMoreWaiting (S.own s.old) (S.own s.new) }
    ensures back { IfErr result (λ e. e ≡ Refused.Contended) }
    ensures exact { IsExact (S.caller s.old) → (es : List (Entry T)) (second : Option ℕ) →
        IsQueue T.link (S.world s.old) (record { oldest = cell_of oldest.now; newest = cell_of newest.now }) es second → left es ≡ [] → IsOk result ×
        IsCleared T.link (S.world s.old) (S.caller s.old).place (record { oldest = cell_of oldest.now; newest = cell_of newest.now }) es second
        (S.world s.new) }
{
    empty_cell(newest, s);
    match trim(oldest, guard, s) {
        Ok(_) => Ok(()),
        Err(refused) => Err(refused),
    }
}

/// Pops the first entry of a queue that isn't deleted: it is deleted, and what is deleted before it is let go of with it.
///
/// `TooManyOwners` where 2^62 own the entry; nothing has changed then.
#[inline]
pub(crate) fn pop_oldest<T: LinkedList, S: Items<T> + SharedItems<T> + Cells<T> + LookThrough<T>>(
    oldest: &AtomicShared<T>,
    newest: &AtomicShared<T>,
    guard: &Guard,
    s: &mut S,
) -> Result<Option<Shared<T>>, Refused>
    requires seated { IsSeated (S.caller s.old) }
    requires oldest { cells_home oldest.now ≡ (S.caller s.old).home.cells }
    requires newest { cells_home newest.now ≡ (S.caller s.old).home.cells }
    requires reader { reader_of guard.now ≡ (S.caller s.old).reader }
    ensures unmoved { Unmoved S.caller S.known S.shows s.old s.new }
    ensures own { KeepsMoreWaiting (S.own s.old) (S.own s.new) }
    ensures owner { IfOk result (IsOfSlots (S.caller s.old).home.slots) }
    ensures back { IfErr result (λ e. (e ≡ Refused.TooManyOwners) ⊎ (e ≡ Refused.Contended)) }
    ensures exact { IsExact (S.caller s.old) → (es : List (Entry T)) (second : Option ℕ) →
        IsQueue T.link (S.world s.old) (record { oldest = cell_of oldest.now; newest = cell_of newest.now }) es second →
        Dequeues T.link (S.world s.old) (S.caller s.old).place (record { oldest = cell_of oldest.now; newest = cell_of newest.now }) es second result
        (S.world s.new) }
{
    let Some(front) = first_in(oldest, guard, s) else {
        return pop_past_deleted_of_queue(oldest, newest, guard, s);
    };
    if let Tag::Second = front.link.tag(s) {
        return pop_past_deleted_of_queue(oldest, newest, guard, s);
    }
    match take_head_of_queue(oldest, newest, front, guard, s) {
        Ok(owner) => Ok(Some(owner)),
        Err(refused) => Err(refused),
    }
}

/// The same where the entry in the first cell is deleted, or isn't.
///
/// `TooManyOwners` where 2^62 own the entry; nothing has changed then.
#[inline(never)]
fn pop_past_deleted_of_queue<
    T: LinkedList,
    S: Items<T> + SharedItems<T> + Cells<T> + LookThrough<T>,
>(
    oldest: &AtomicShared<T>,
    newest: &AtomicShared<T>,
    guard: &Guard,
    s: &mut S,
) -> Result<Option<Shared<T>>, Refused>
    requires seated { IsSeated (S.caller s.old) }
    requires oldest { cells_home oldest.now ≡ (S.caller s.old).home.cells }
    requires newest { cells_home newest.now ≡ (S.caller s.old).home.cells }
    requires reader { reader_of guard.now ≡ (S.caller s.old).reader }
    ensures unmoved { Unmoved S.caller S.known S.shows s.old s.new }
    ensures own { KeepsMoreWaiting (S.own s.old) (S.own s.new) }
    ensures owner { IfOk result (IsOfSlots (S.caller s.old).home.slots) }
    ensures back { IfErr result (λ e. (e ≡ Refused.TooManyOwners) ⊎ (e ≡ Refused.Contended)) }
    ensures exact { IsExact (S.caller s.old) → (es : List (Entry T)) (second : Option ℕ) →
        IsQueue T.link (S.world s.old) (record { oldest = cell_of oldest.now; newest = cell_of newest.now }) es second →
        Dequeues T.link (S.world s.old) (S.caller s.old).place (record { oldest = cell_of oldest.now; newest = cell_of newest.now }) es second result
        (S.world s.new) }
{
    match find_first(oldest, guard, s) {
        Ok(Some(front)) => match take_oldest(oldest, newest, front, guard, s) {
            Ok(owner) => Ok(Some(owner)),
            Err(refused) => Err(refused),
        },
        Ok(None) => match clear(oldest, newest, guard, s) {
            Ok(()) => Ok(None),
            Err(refused) => Err(refused),
        },
        Err(refused) => Err(refused),
    }
}
