//! Looks along a list, which change nothing.
ghost use Rattle.std.specs.Prelude.{◌≡◌, ◌≤◌, ℕ, false, true, Option, IfErr, IfOk, IfSome, List, [], ◌∷◌, MatchOption, MatchResult, None, Some, length, option_copied, if◌then◌else◌};
ghost use Rattle.sdd_space.specs.Guard.{reader_of};
ghost use Rattle.sdd_space.specs.Undisturbed.{Undisturbed};
ghost use Rattle.sdd_space.specs.Ptr.{PtrIsShown, shown_by, slot_named, tag_of};
ghost use Rattle.sdd_core.specs.declared.tag.Tag.TheVariants.{None as no_tag};
ghost use Rattle.sdd_space.specs.CallerId.{IsSeated, IsExact};
ghost use Rattle.sdd_space.specs.Shared.{cell_of, cells_home};
ghost use Rattle.sdd_world_model.specs.World.{standing_at};
ghost use Rattle.sdd_world_model.specs.Slots.{IsSharedBy};
ghost use Rattle.sdd_participants.specs.Slab.{entry_at};
ghost use Rattle.sdd_participants.specs.declared.standing.CellContents.{CellContents};
ghost use Rattle.sdd_core.specs.declared.tag.Tag.{Tag};
ghost use Rattle.sdd_lists.specs.Ends.{EndsWith, IsLastOf, is_spent};
ghost use Rattle.sdd_lists.specs.Lists.{AreLinked, Entry, IsList, content, first_slot, first_value, is_deleted, is_deleting, left};
ghost use Rattle.sdd_lists.specs.Queue.{IsQueue, IsSecond, is_at, lets_go_of};

use crate::linked_list::LinkedList;
use sdd_core::{Refused, SlotName, Tag};
use sdd_space::inner::slot_of_ptr;
use sdd_space::laws::values_fit_slots;
use sdd_space::{AtomicShared, Cells, Guard, Item, Items, LookThrough, Ptr};

/// How many entries a list has at most, as no two of them are in one slot.
pub(crate) fn reach<T: LinkedList, S: Items<T>>(s: &S) -> u64
    ensures { IsExact (S.caller s.now) → (es : List (Entry T)) → AreLinked T.link (S.world s.now) es → length es ≤ result }
{
    values_fit_slots::<T, S>(s);
    s.slots()
}

/// The entry that a cell holds, with its value and its link.
#[derive(Drop)]
pub(crate) struct Front<'g, T> {
    pub(crate) ptr: Ptr<'g, T>,
    pub(crate) entry: &'g T,
    pub(crate) link: &'g AtomicShared<T>,
}

/// The entry that a cell holds, if it holds one.
pub(crate) fn first_in<'g, T: LinkedList, S: Cells<T> + LookThrough<T>>(
    cell: &AtomicShared<T>,
    guard: &'g Guard,
    s: &mut S,
) -> Option<Front<'g, T>>
    requires seated { IsSeated (S.caller s.old) }
    requires home { cells_home cell.now ≡ (S.caller s.old).home.cells }
    requires reader { reader_of guard.now ≡ (S.caller s.old).reader }
    ensures undisturbed { Undisturbed S.caller S.own S.known S.shows s.old s.new }
    ensures home { IfSome result (λ f. cells_home f.link.now ≡ (S.caller s.old).home.cells) }
    ensures link { IfSome result (λ f. cell_of f.link.now ≡ T.link f.entry.now) }
    ensures shown { IfSome result (λ f. PtrIsShown (S.shows s.new) f.ptr) }
    ensures value { IfSome result (λ f. shown_by f.ptr ≡ Some f.entry.now) }
    ensures world { IsExact (S.caller s.old) → S.world s.new ≡ S.world s.old }
    ensures exact { IsExact (S.caller s.old) → (es : List (Entry T)) → AreLinked T.link (S.world s.old) es →
        (held : CellContents) → entry_at (S.world s.old).cells (cell_of cell.now) ≡ Some held → held.held ≡ first_slot es →
        MatchOption result (es ≡ []) (λ f. (e : Entry T) × (rest : List (Entry T)) × (es ≡ e ∷ rest) × (slot_named f.ptr ≡ Some e.slot) ×
        (f.entry.now ≡ e.value) × ((n : ℕ) × IsSharedBy n (standing_at (S.world s.old) e.slot))) }
{
    let ptr = cell.load(guard, s);
    let Some(entry) = ptr.as_ref(&*s) else {
        return None;
    };
    s.shown_is_of_home();
    Some(Front {
        ptr,
        entry,
        link: entry.link_ref(),
    })
}

/// The first entry of the list in a cell that isn't deleted.
///
/// `Contended` where there are as many deleted ones as slots and one more, as where links run in a ring.
#[inline]
pub(crate) fn find_first<'g, T: LinkedList, S: Items<T> + Cells<T> + LookThrough<T>>(
    cell: &AtomicShared<T>,
    guard: &'g Guard,
    s: &mut S,
) -> Result<Option<Front<'g, T>>, Refused>
    requires seated { IsSeated (S.caller s.old) }
    requires home { cells_home cell.now ≡ (S.caller s.old).home.cells }
    requires reader { reader_of guard.now ≡ (S.caller s.old).reader }
    ensures undisturbed { Undisturbed S.caller S.own S.known S.shows s.old s.new }
    ensures home { IfOk result (λ o. IfSome o (λ f. cells_home f.link.now ≡ (S.caller s.old).home.cells)) }
    ensures link { IfOk result (λ o. IfSome o (λ f. cell_of f.link.now ≡ T.link f.entry.now)) }
    ensures shown { IfOk result (λ o. IfSome o (λ f. PtrIsShown (S.shows s.new) f.ptr)) }
    ensures value { IfOk result (λ o. IfSome o (λ f. shown_by f.ptr ≡ Some f.entry.now)) }
    ensures back { IfErr result (λ e. e ≡ Refused.Contended) }
    ensures world { IsExact (S.caller s.old) → S.world s.new ≡ S.world s.old }
    ensures exact { IsExact (S.caller s.old) → (es : List (Entry T)) → AreLinked T.link (S.world s.old) es →
        (held : CellContents) → entry_at (S.world s.old).cells (cell_of cell.now) ≡ Some held → held.held ≡ first_slot es →
        MatchResult result (λ o. MatchOption o (left es ≡ []) (λ f. (e : Entry T) × (rest : List (Entry T)) × (left es ≡ e ∷ rest) ×
        (slot_named f.ptr ≡ Some e.slot) × (f.entry.now ≡ e.value) × ((n : ℕ) × IsSharedBy n (standing_at (S.world s.old) e.slot))))
        (λ _. ⊥) }
{
    let Some(front) = first_in(cell, guard, s) else {
        return Ok(None);
    };
    match front.link.tag(s) {
        Tag::Second => find_past_deleted(cell, guard, s),
        _ => Ok(Some(front)),
    }
}

/// The same where the entry in the cell is deleted, or isn't.
///
/// `Contended` where there are as many deleted ones as slots and one more, as where links run in a ring.
#[cold]
#[inline(never)]
fn find_past_deleted<'g, T: LinkedList, S: Items<T> + Cells<T> + LookThrough<T>>(
    cell: &AtomicShared<T>,
    guard: &'g Guard,
    s: &mut S,
) -> Result<Option<Front<'g, T>>, Refused>
    requires seated { IsSeated (S.caller s.old) }
    requires home { cells_home cell.now ≡ (S.caller s.old).home.cells }
    requires reader { reader_of guard.now ≡ (S.caller s.old).reader }
    ensures undisturbed { Undisturbed S.caller S.own S.known S.shows s.old s.new }
    ensures home { IfOk result (λ o. IfSome o (λ f. cells_home f.link.now ≡ (S.caller s.old).home.cells)) }
    ensures link { IfOk result (λ o. IfSome o (λ f. cell_of f.link.now ≡ T.link f.entry.now)) }
    ensures shown { IfOk result (λ o. IfSome o (λ f. PtrIsShown (S.shows s.new) f.ptr)) }
    ensures value { IfOk result (λ o. IfSome o (λ f. shown_by f.ptr ≡ Some f.entry.now)) }
    ensures back { IfErr result (λ e. e ≡ Refused.Contended) }
    ensures world { IsExact (S.caller s.old) → S.world s.new ≡ S.world s.old }
    ensures exact { IsExact (S.caller s.old) → (es : List (Entry T)) → AreLinked T.link (S.world s.old) es →
        (held : CellContents) → entry_at (S.world s.old).cells (cell_of cell.now) ≡ Some held → held.held ≡ first_slot es →
        MatchResult result (λ o. MatchOption o (left es ≡ []) (λ f. (e : Entry T) × (rest : List (Entry T)) × (left es ≡ e ∷ rest) ×
        (slot_named f.ptr ≡ Some e.slot) × (f.entry.now ≡ e.value) × ((n : ℕ) × IsSharedBy n (standing_at (S.world s.old) e.slot))))
        (λ _. ⊥) }
{
    find_by_walking(cell, guard, s)
}

/// The same, by a walk from the entry in the cell on.
///
/// `Contended` where there are as many deleted ones as slots and one more, as where links run in a ring.
fn find_by_walking<'g, T: LinkedList, S: Items<T> + Cells<T> + LookThrough<T>>(
    cell: &AtomicShared<T>,
    guard: &'g Guard,
    s: &mut S,
) -> Result<Option<Front<'g, T>>, Refused>
    requires seated { IsSeated (S.caller s.old) }
    requires home { cells_home cell.now ≡ (S.caller s.old).home.cells }
    requires reader { reader_of guard.now ≡ (S.caller s.old).reader }
    ensures undisturbed { Undisturbed S.caller S.own S.known S.shows s.old s.new }
    ensures home { IfOk result (λ o. IfSome o (λ f. cells_home f.link.now ≡ (S.caller s.old).home.cells)) }
    ensures link { IfOk result (λ o. IfSome o (λ f. cell_of f.link.now ≡ T.link f.entry.now)) }
    ensures shown { IfOk result (λ o. IfSome o (λ f. PtrIsShown (S.shows s.new) f.ptr)) }
    ensures value { IfOk result (λ o. IfSome o (λ f. shown_by f.ptr ≡ Some f.entry.now)) }
    ensures back { IfErr result (λ e. e ≡ Refused.Contended) }
    ensures world { IsExact (S.caller s.old) → S.world s.new ≡ S.world s.old }
    ensures exact { IsExact (S.caller s.old) → (es : List (Entry T)) → AreLinked T.link (S.world s.old) es →
        (held : CellContents) → entry_at (S.world s.old).cells (cell_of cell.now) ≡ Some held → held.held ≡ first_slot es →
        MatchResult result (λ o. MatchOption o (left es ≡ []) (λ f. (e : Entry T) × (rest : List (Entry T)) × (left es ≡ e ∷ rest) ×
        (slot_named f.ptr ≡ Some e.slot) × (f.entry.now ≡ e.value) × ((n : ℕ) × IsSharedBy n (standing_at (S.world s.old) e.slot))))
        (λ _. ⊥) }
{
    let most = reach::<T, S>(s);
    let Some(mut at) = first_in(cell, guard, s) else {
        return Ok(None);
    };
    for _step in 0..most {
        let Tag::Second = at.link.tag(s) else {
            return Ok(Some(at));
        };
        let Some(next) = first_in(at.link, guard, s) else {
            return Ok(None);
        };
        at = next;
    }
    Err(Refused::Contended)
}

/// The same, or None where that is refused.
pub(crate) fn front_in<'g, T: LinkedList, S: Items<T> + Cells<T> + LookThrough<T>>(
    cell: &AtomicShared<T>,
    guard: &'g Guard,
    s: &mut S,
) -> Option<Front<'g, T>>
    requires seated { IsSeated (S.caller s.old) }
    requires home { cells_home cell.now ≡ (S.caller s.old).home.cells }
    requires reader { reader_of guard.now ≡ (S.caller s.old).reader }
    ensures undisturbed { Undisturbed S.caller S.own S.known S.shows s.old s.new }
    ensures home { IfSome result (λ f. cells_home f.link.now ≡ (S.caller s.old).home.cells) }
    ensures link { IfSome result (λ f. cell_of f.link.now ≡ T.link f.entry.now) }
    ensures world { IsExact (S.caller s.old) → S.world s.new ≡ S.world s.old }
    ensures exact { IsExact (S.caller s.old) → (es : List (Entry T)) → AreLinked T.link (S.world s.old) es →
        (held : CellContents) → entry_at (S.world s.old).cells (cell_of cell.now) ≡ Some held → held.held ≡ first_slot es →
        MatchOption result (left es ≡ []) (λ f. (e : Entry T) × (rest : List (Entry T)) × (left es ≡ e ∷ rest) × (slot_named f.ptr ≡ Some e.slot) ×
        (f.entry.now ≡ e.value) × ((n : ℕ) × IsSharedBy n (standing_at (S.world s.old) e.slot))) }
{
    match find_by_walking(cell, guard, s) {
        Ok(front) => front,
        Err(_) => None,
    }
}

/// The value of the first entry of the list in a cell that isn't deleted.
///
/// `Contended` where `find_first` is refused so.
pub(crate) fn first_value_in<'g, T: LinkedList, S: Items<T> + Cells<T> + LookThrough<T>>(
    cell: &AtomicShared<T>,
    guard: &'g Guard,
    s: &mut S,
) -> Result<Option<&'g T>, Refused>
    requires seated { IsSeated (S.caller s.old) }
    requires home { cells_home cell.now ≡ (S.caller s.old).home.cells }
    requires reader { reader_of guard.now ≡ (S.caller s.old).reader }
    ensures undisturbed { Undisturbed S.caller S.own S.known S.shows s.old s.new }
    ensures back { IfErr result (λ e. e ≡ Refused.Contended) }
    ensures world { IsExact (S.caller s.old) → S.world s.new ≡ S.world s.old }
    ensures exact { IsExact (S.caller s.old) → (t : Tag) (es : List (Entry T)) → IsList T.link (S.world s.old) (cell_of cell.now) t es →
        MatchResult result (λ o. option_copied o ≡ first_value (left es)) (λ _. ⊥) }
{
    match find_first(cell, guard, s) {
        Ok(Some(front)) => Ok(Some(front.entry)),
        Ok(None) => Ok(None),
        Err(refused) => Err(refused),
    }
}

/// The same, or None where that is refused.
pub(crate) fn shown_in<'g, T: LinkedList, S: Items<T> + Cells<T> + LookThrough<T>>(
    cell: &AtomicShared<T>,
    guard: &'g Guard,
    s: &mut S,
) -> Option<&'g T>
    requires seated { IsSeated (S.caller s.old) }
    requires home { cells_home cell.now ≡ (S.caller s.old).home.cells }
    requires reader { reader_of guard.now ≡ (S.caller s.old).reader }
    ensures undisturbed { Undisturbed S.caller S.own S.known S.shows s.old s.new }
    ensures world { IsExact (S.caller s.old) → S.world s.new ≡ S.world s.old }
    ensures exact { IsExact (S.caller s.old) → (t : Tag) (es : List (Entry T)) → IsList T.link (S.world s.old) (cell_of cell.now) t es →
        option_copied result ≡ first_value (left es) }
{
    match first_value_in(cell, guard, s) {
        Ok(shown) => shown,
        Err(_) => None,
    }
}

/// 1 for the link of an entry that isn't deleted, and else 0.
fn one_if_kept<T: Item<T>, S: Cells<T>>(link: &AtomicShared<T>, s: &mut S) -> u64
    requires seated { IsSeated (S.caller s.old) }
    requires home { cells_home link.now ≡ (S.caller s.old).home.cells }
    ensures undisturbed { Undisturbed S.caller S.own S.known S.shows s.old s.new }
    ensures most { result ≤ 1 }
    ensures exact { IsExact (S.caller s.old) → (S.world s.new ≡ S.world s.old) × ((cell : CellContents) ×
        (entry_at (S.world s.old).cells (cell_of link.now) ≡ Some cell) × (result ≡ (if is_deleting cell.tag then 0 else 1))) }
{
    match link.tag(s) {
        Tag::Second => 0,
        _ => 1,
    }
}

/// How many entries of the list in a cell aren't deleted.
pub(crate) fn count<T: LinkedList, S: Items<T> + Cells<T> + LookThrough<T>>(
    cell: &AtomicShared<T>,
    guard: &Guard,
    s: &mut S,
) -> u64
    requires seated { IsSeated (S.caller s.old) }
    requires home { cells_home cell.now ≡ (S.caller s.old).home.cells }
    requires reader { reader_of guard.now ≡ (S.caller s.old).reader }
    ensures undisturbed { Undisturbed S.caller S.own S.known S.shows s.old s.new }
    ensures world { IsExact (S.caller s.old) → S.world s.new ≡ S.world s.old }
    ensures exact { IsExact (S.caller s.old) → (t : Tag) (es : List (Entry T)) → IsList T.link (S.world s.old) (cell_of cell.now) t es →
        result ≡ length (content es) }
{
    let most = reach::<T, S>(s);
    let mut count = 0;
    let Some(mut at) = first_in(cell, guard, s) else {
        return count;
    };
    for _step in 0..most {
        count += one_if_kept(at.link, s);
        let Some(next) = first_in(at.link, guard, s) else {
            return count;
        };
        at = next;
    }
    count
}

/// The slot of what a cell holds.
pub(crate) fn slot_in<T: Item<T>, S: Cells<T>>(
    cell: &AtomicShared<T>,
    guard: &Guard,
    s: &mut S,
) -> Option<u32>
    requires seated { IsSeated (S.caller s.old) }
    requires home { cells_home cell.now ≡ (S.caller s.old).home.cells }
    requires reader { reader_of guard.now ≡ (S.caller s.old).reader }
    ensures undisturbed { Undisturbed S.caller S.own S.known S.shows s.old s.new }
    ensures exact { IsExact (S.caller s.old) → (S.world s.new ≡ S.world s.old) × ((t : Tag) ×
        (entry_at (S.world s.old).cells (cell_of cell.now) ≡ Some (record { held = result; tag = t }))) }
{
    number_of(&cell.load(guard, s))
}

/// The number of the slot that the pointer names, if it isn't null.
fn number_of<T>(ptr: &Ptr<'_, T>) -> Option<u32>
    ensures { result ≡ slot_named ptr.now }
{
    slot_of_ptr(ptr).map(SlotName::number)
}

/// The pointer names the slot.
pub(crate) fn is_named<T>(ptr: &Ptr<'_, T>, watched: Option<u32>) -> bool
    ensures { (e : Entry T) → slot_named ptr.now ≡ Some e.slot → result ≡ is_at watched e }
{
    match (number_of(ptr), watched) {
        (Some(slot), Some(other)) => slot == other,
        _ => false,
    }
}

/// The watched slot is that of the first entry that isn't deleted, or of one before it.
pub(crate) fn is_let_go_of<T: LinkedList, S: Items<T> + Cells<T> + LookThrough<T>>(
    cell: &AtomicShared<T>,
    watched: Option<u32>,
    guard: &Guard,
    s: &mut S,
) -> bool
    requires seated { IsSeated (S.caller s.old) }
    requires home { cells_home cell.now ≡ (S.caller s.old).home.cells }
    requires reader { reader_of guard.now ≡ (S.caller s.old).reader }
    ensures undisturbed { Undisturbed S.caller S.own S.known S.shows s.old s.new }
    ensures world { IsExact (S.caller s.old) → S.world s.new ≡ S.world s.old }
    ensures exact { IsExact (S.caller s.old) → (t : Tag) (es : List (Entry T)) → IsList T.link (S.world s.old) (cell_of cell.now) t es →
        result ≡ lets_go_of watched es }
{
    let most = reach::<T, S>(s);
    let Some(mut seen) = first_in(cell, guard, s) else {
        return false;
    };
    for _step in 0..most {
        if is_named(&seen.ptr, watched) {
            return true;
        }
        let Tag::Second = seen.link.tag(s) else {
            return false;
        };
        let Some(next) = first_in(seen.link, guard, s) else {
            return false;
        };
        seen = next;
    }
    false
}

/// What a cell holds, if it is an entry that isn't deleted.
pub(crate) fn kept_in<'g, T: LinkedList, S: Cells<T> + LookThrough<T>>(
    cell: &AtomicShared<T>,
    guard: &'g Guard,
    s: &mut S,
) -> Option<Front<'g, T>>
    requires seated { IsSeated (S.caller s.old) }
    requires home { cells_home cell.now ≡ (S.caller s.old).home.cells }
    requires reader { reader_of guard.now ≡ (S.caller s.old).reader }
    ensures undisturbed { Undisturbed S.caller S.own S.known S.shows s.old s.new }
    ensures home { IfSome result (λ f. cells_home f.link.now ≡ (S.caller s.old).home.cells) }
    ensures link { IfSome result (λ f. cell_of f.link.now ≡ T.link f.entry.now) }
    ensures shown { IfSome result (λ f. PtrIsShown (S.shows s.new) f.ptr) }
    ensures value { IfSome result (λ f. shown_by f.ptr ≡ Some f.entry.now) }
    ensures world { IsExact (S.caller s.old) → S.world s.new ≡ S.world s.old }
    ensures exact { IsExact (S.caller s.old) → (es : List (Entry T)) → AreLinked T.link (S.world s.old) es →
        (held : CellContents) → entry_at (S.world s.old).cells (cell_of cell.now) ≡ Some held → IsSecond T.link (S.world s.old) held.held es →
        IfSome result (λ f. (e : Entry T) × (rest : List (Entry T)) × EndsWith es e rest × (is_deleted e ≡ false) × (slot_named f.ptr ≡ Some e.slot) ×
        (f.entry.now ≡ e.value) × ((n : ℕ) × IsSharedBy n (standing_at (S.world s.old) e.slot))) }
{
    let Some(front) = first_in(cell, guard, s) else {
        return None;
    };
    match front.link.tag(s) {
        Tag::Second => None,
        _ => Some(front),
    }
}

/// From an entry on that isn't deleted, the last one that isn't.
///
/// `Contended` where as many follow as there are slots, as where links run in a ring.
fn last_from<'g, T: LinkedList, S: Items<T> + Cells<T> + LookThrough<T>>(
    front: Front<'g, T>,
    guard: &'g Guard,
    s: &mut S,
) -> Result<Front<'g, T>, Refused>
    requires seated { IsSeated (S.caller s.old) }
    requires home { cells_home front.link.now ≡ (S.caller s.old).home.cells }
    requires link { cell_of front.link.now ≡ T.link front.entry.now }
    requires shown { PtrIsShown (S.shows s.old) front.ptr }
    requires value { shown_by front.ptr ≡ Some front.entry.now }
    requires reader { reader_of guard.now ≡ (S.caller s.old).reader }
    ensures undisturbed { Undisturbed S.caller S.own S.known S.shows s.old s.new }
    ensures home { IfOk result (λ f. cells_home f.link.now ≡ (S.caller s.old).home.cells) }
    ensures link { IfOk result (λ f. cell_of f.link.now ≡ T.link f.entry.now) }
    ensures shown { IfOk result (λ f. PtrIsShown (S.shows s.new) f.ptr) }
    ensures value { IfOk result (λ f. shown_by f.ptr ≡ Some f.entry.now) }
    ensures back { IfErr result (λ e. e ≡ Refused.Contended) }
    ensures world { IsExact (S.caller s.old) → S.world s.new ≡ S.world s.old }
    ensures exact { IsExact (S.caller s.old) → (es : List (Entry T)) → AreLinked T.link (S.world s.old) es →
        (e : Entry T) (rest : List (Entry T)) → EndsWith es e rest → is_deleted e ≡ false → front.entry.entry.now ≡ e.value →
        MatchResult result (λ f. (last : Entry T) × (behind : List (Entry T)) × IsLastOf es last behind × (f.entry.now ≡ last.value)) (λ _. ⊥) }
{
    let most = reach::<T, S>(s);
    let mut at = front;
    for _step in 0..most {
        match find_first(at.link, guard, s) {
            Ok(Some(next)) => at = next,
            Ok(None) => return Ok(at),
            Err(refused) => return Err(refused),
        }
    }
    Err(Refused::Contended)
}

/// The last entry that isn't deleted, of the list in the first cell. The second holds one of its entries, or one that it has let go
/// of, or nothing: where that isn't deleted, what comes before it isn't looked at.
///
/// `Contended` where `find_first` or the walk from there is refused so.
#[inline(always)]
pub(crate) fn find_last<'g, T: LinkedList, S: Items<T> + Cells<T> + LookThrough<T>>(
    oldest: &AtomicShared<T>,
    newest: &AtomicShared<T>,
    guard: &'g Guard,
    s: &mut S,
) -> Result<Option<Front<'g, T>>, Refused>
    requires seated { IsSeated (S.caller s.old) }
    requires oldest { cells_home oldest.now ≡ (S.caller s.old).home.cells }
    requires newest { cells_home newest.now ≡ (S.caller s.old).home.cells }
    requires reader { reader_of guard.now ≡ (S.caller s.old).reader }
    ensures undisturbed { Undisturbed S.caller S.own S.known S.shows s.old s.new }
    ensures home { IfOk result (λ o. IfSome o (λ f. cells_home f.link.now ≡ (S.caller s.old).home.cells)) }
    ensures back { IfErr result (λ e. e ≡ Refused.Contended) }
    ensures world { IsExact (S.caller s.old) → S.world s.new ≡ S.world s.old }
    ensures exact { IsExact (S.caller s.old) → (es : List (Entry T)) (second : Option ℕ) →
        IsQueue T.link (S.world s.old) (record { oldest = cell_of oldest.now; newest = cell_of newest.now }) es second →
        MatchResult result (λ o. MatchOption o (is_spent es ≡ true) (λ f. (e : Entry T) × (rest : List (Entry T)) × IsLastOf es e rest ×
        (f.entry.now ≡ e.value) × (cell_of f.link.now ≡ T.link e.value))) (λ _. ⊥) }
{
    if let Some(front) = kept_in(newest, guard, s) {
        return match last_from(front, guard, s) {
            Ok(last) => Ok(Some(last)),
            Err(refused) => Err(refused),
        };
    }
    match find_first(oldest, guard, s) {
        Ok(Some(front)) => match last_from(front, guard, s) {
            Ok(last) => Ok(Some(last)),
            Err(refused) => Err(refused),
        },
        Ok(None) => Ok(None),
        Err(refused) => Err(refused),
    }
}

/// The value of a front, if there is one.
pub(crate) fn value_at_front<'g, T>(front: &Option<Front<'g, T>>) -> Option<&'g T>
    ensures { MatchOption front.now (result ≡ None) (λ f. result ≡ Some f.entry) }
{
    match front {
        Some(front) => Some(front.entry),
        None => None,
    }
}

/// A pointer to the first entry of the list in a cell that isn't deleted, without a tag; null where there is none.
pub(crate) fn first_ptr_in<'g, T: LinkedList, S: Items<T> + Cells<T> + LookThrough<T>>(
    cell: &AtomicShared<T>,
    guard: &'g Guard,
    s: &mut S,
) -> Ptr<'g, T>
    requires seated { IsSeated (S.caller s.old) }
    requires home { cells_home cell.now ≡ (S.caller s.old).home.cells }
    requires reader { reader_of guard.now ≡ (S.caller s.old).reader }
    ensures undisturbed { Undisturbed S.caller S.own S.known S.shows s.old s.new }
    ensures world { IsExact (S.caller s.old) → S.world s.new ≡ S.world s.old }
    ensures shown { PtrIsShown (S.shows s.new) result }
    ensures tag { tag_of result ≡ no_tag }
    ensures exact { IsExact (S.caller s.old) → (t : Tag) (es : List (Entry T)) → IsList T.link (S.world s.old) (cell_of cell.now) t es →
        slot_named result ≡ first_slot (left es) }
{
    let front = match find_first(cell, guard, s) {
        Ok(Some(front)) => front,
        Ok(None) => return Ptr::null(),
        Err(_) => return Ptr::null(),
    };
    front.ptr.without_tag()
}
