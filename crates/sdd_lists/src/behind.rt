//! What comes behind an entry, and what is reached from it.
ghost use Rattle.std.specs.Prelude.{◌≡◌, ◌≢◌, ◌⊎◌, ℕ, ◌∷◌, false, true, IfErr, IfOk, IfSome, IsOk, List, MatchResult, None, Option, Some};
ghost use Rattle.sdd_core.specs.declared.tag.Tag.{Tag};
ghost use Rattle.sdd_core.specs.declared.tag.Tag.TheVariants.{None as no_tag, Second as deleting};
ghost use Rattle.sdd_participants.specs.Slab.{entry_at};
ghost use Rattle.sdd_participants.specs.declared.standing.CellContents.{CellContents};
ghost use Rattle.sdd_space.specs.CallerId.{IsSeated, IsExact};
ghost use Rattle.sdd_space.specs.Guard.{reader_of};
ghost use Rattle.sdd_world_model.specs.ParticipantChanges.{KeepsMoreWaiting};
ghost use Rattle.sdd_space.specs.Ptr.{PtrIsShown, slot_named, tag_of};
ghost use Rattle.sdd_space.specs.Refusals.{IsContended};
ghost use Rattle.sdd_space.specs.Shared.{IsOfSlots, cell_of, cells_home, right_of, slot_of, slots_home};
ghost use Rattle.sdd_space.specs.Undisturbed.{Unmoved};
ghost use Rattle.sdd_world_model.specs.World.{standing_at};
ghost use Rattle.sdd_world_model.specs.Slots.{IsSharedBy};
ghost use Rattle.sdd_lists.specs.Behind.{IsFresh, IsLinkedBehind, IsReached, Reaches, mark_tag};
ghost use Rattle.sdd_lists.specs.Lists.{Entry, IsCrowded, IsList, left, linked_in};
ghost use Rattle.sdd_lists.specs.Marks.{says_deleted};

use crate::linked_list::LinkedList;
use crate::moves::{put_with_tag, trim};
use crate::pops::keep_first;
use crate::walks::{Front, find_first};
use sdd_core::{Refused, Tag};
use sdd_space::{AtomicShared, Cells, Guard, Items, LookThrough, Ptr, Shared, SharedItems};

/// The tag of the link of an entry that is marked, or has no mark.
fn tag_of_mark(mark: bool) -> Tag
    ensures { result ≡ mark_tag mark }
{
    if mark { Tag::First } else { Tag::None }
}

/// Puts an entry behind the one of a link, which has this tag then. Answers a pointer to the entry, with that tag.
fn put_behind_link<'g, T: LinkedList, S: Items<T> + Cells<T> + LookThrough<T>>(
    link: &AtomicShared<T>,
    entry: Shared<T>,
    tag: Tag,
    guard: &'g Guard,
    s: &mut S,
) -> Ptr<'g, T>
    requires seated { IsSeated (S.caller s.old) }
    requires home { cells_home link.now ≡ (S.caller s.old).home.cells }
    requires owner { slots_home entry ≡ (S.caller s.old).home.slots }
    requires reader { reader_of guard.now ≡ (S.caller s.old).reader }
    ensures unmoved { Unmoved S.caller S.known S.shows s.old s.new }
    ensures own { KeepsMoreWaiting (S.own s.old) (S.own s.new) }
    ensures shown { PtrIsShown (S.shows s.new) result }
    ensures slot { (slot_named result ≡ Some (slot_of entry)) × (tag_of result ≡ tag) }
    ensures list { IsExact (S.caller s.old) → (t : Tag) (es : List (Entry T)) (v : T) → IsList T.link (S.world s.old) (cell_of link.now) t es →
        IsFresh T.link (S.world s.old) (slot_of entry) v (cell_of link.now) es → t ≢ deleting →
        IsLinkedBehind T.link (S.world s.old) (cell_of link.now) tag es (slot_of entry) v (S.world s.new) }
{
    let ptr = entry.get_guarded_ptr(guard, s);
    let value = entry.get_guarded_ref(guard, s);
    s.shown_is_of_home();
    put_with_tag(link, entry, tag, value.link_ref(), s);
    ptr.with_tag(tag)
}

/// Links an entry behind the one of a link, which is marked by that, or has no mark then; where it is deleted, the entry comes back.
pub(crate) fn link_behind<'g, T: LinkedList, S: Items<T> + Cells<T> + LookThrough<T>>(
    link: &AtomicShared<T>,
    entry: Shared<T>,
    mark: bool,
    guard: &'g Guard,
    s: &mut S,
) -> Result<Ptr<'g, T>, (Shared<T>, Option<Refused>)>
    requires seated { IsSeated (S.caller s.old) }
    requires home { cells_home link.now ≡ (S.caller s.old).home.cells }
    requires owner { slots_home entry ≡ (S.caller s.old).home.slots }
    requires reader { reader_of guard.now ≡ (S.caller s.old).reader }
    ensures unmoved { Unmoved S.caller S.known S.shows s.old s.new }
    ensures own { KeepsMoreWaiting (S.own s.old) (S.own s.new) }
    ensures shown { IfOk result (PtrIsShown (S.shows s.new)) }
    ensures slot { IfOk result (λ ptr. (slot_named ptr ≡ Some (slot_of entry)) × (tag_of ptr ≡ mark_tag mark)) }
    ensures back { IfErr result (λ e. (right_of e.0 ≡ right_of entry) × IfSome e.1 (IsContended (S.caller s.old))) }
    ensures refused { IsExact (S.caller s.old) → (cell : CellContents) → entry_at (S.world s.old).cells (cell_of link.now) ≡ Some cell → MatchResult result
        (λ _. says_deleted cell.tag ≡ false) (λ e. (says_deleted cell.tag ≡ true) × (e.1 ≡ None) × (S.world s.new ≡ S.world s.old)) }
    ensures list { IsExact (S.caller s.old) → (t : Tag) (es : List (Entry T)) (v : T) → IsList T.link (S.world s.old) (cell_of link.now) t es →
        IsFresh T.link (S.world s.old) (slot_of entry) v (cell_of link.now) es →
        IfOk result (λ _. IsLinkedBehind T.link (S.world s.old) (cell_of link.now) (mark_tag mark) es (slot_of entry) v (S.world s.new)) }
{
    match link.tag(s) {
        Tag::Second | Tag::Both => Err((entry, None)),
        Tag::None | Tag::First => Ok(put_behind_link(link, entry, tag_of_mark(mark), guard, s)),
    }
}

/// One owner more of the first entry of the list in a cell that isn't deleted, and was found. What is deleted before it is let go of.
///
/// `TooManyOwners` where 2^62 own the entry.
fn reach_first<T: LinkedList, S: Items<T> + SharedItems<T> + Cells<T> + LookThrough<T>>(
    cell: &AtomicShared<T>,
    front: Front<'_, T>,
    guard: &Guard,
    s: &mut S,
) -> Result<Shared<T>, Refused>
    requires seated { IsSeated (S.caller s.old) }
    requires home { cells_home cell.now ≡ (S.caller s.old).home.cells }
    requires reader { reader_of guard.now ≡ (S.caller s.old).reader }
    requires shown { PtrIsShown (S.shows s.old) front.ptr }
    ensures unmoved { Unmoved S.caller S.known S.shows s.old s.new }
    ensures own { KeepsMoreWaiting (S.own s.old) (S.own s.new) }
    ensures owner { IfOk result (λ owner. slots_home owner ≡ (S.caller s.old).home.slots) }
    ensures back { IfErr result (λ e. (e ≡ Refused.TooManyOwners) ⊎ (e ≡ Refused.Contended)) }
    ensures exact { IsExact (S.caller s.old) → (t : Tag) (es : List (Entry T)) → IsList T.link (S.world s.old) (cell_of cell.now) t es →
        (e : Entry T) (rest : List (Entry T)) → left es ≡ e ∷ rest → slot_named front.entry.ptr ≡ Some e.slot →
        ((n : ℕ) × IsSharedBy n (standing_at (S.world s.old) e.slot)) → MatchResult result
        (λ owner. IsReached T.link (S.world s.old) (S.caller s.old).place (cell_of cell.now) t es e rest owner (S.world s.new))
        (λ why. IsCrowded (S.world s.old) e why (S.world s.new)) }
{
    let owner = match keep_first(front, s) {
        Ok(owner) => owner,
        Err(refused) => return Err(refused),
    };
    match trim(cell, guard, s) {
        Ok(_) => Ok(owner),
        Err(refused) => {
            let _ = owner.release(s);
            Err(refused)
        }
    }
}

/// An owner of the first entry of the list in a cell that isn't deleted. What is deleted before it is let go of.
///
/// `TooManyOwners` where 2^62 own the entry; nothing has changed then.
pub(crate) fn next_in<T: LinkedList, S: Items<T> + SharedItems<T> + Cells<T> + LookThrough<T>>(
    cell: &AtomicShared<T>,
    guard: &Guard,
    s: &mut S,
) -> Result<Option<Shared<T>>, Refused>
    requires seated { IsSeated (S.caller s.old) }
    requires home { cells_home cell.now ≡ (S.caller s.old).home.cells }
    requires reader { reader_of guard.now ≡ (S.caller s.old).reader }
    ensures unmoved { Unmoved S.caller S.known S.shows s.old s.new }
    ensures own { KeepsMoreWaiting (S.own s.old) (S.own s.new) }
    ensures owner { IfOk result (IsOfSlots (S.caller s.old).home.slots) }
    ensures back { IfErr result (λ e. (e ≡ Refused.TooManyOwners) ⊎ (e ≡ Refused.Contended)) }
    ensures exact { IsExact (S.caller s.old) → (t : Tag) (es : List (Entry T)) → IsList T.link (S.world s.old) (cell_of cell.now) t es →
        Reaches T.link (S.world s.old) (S.caller s.old).place (cell_of cell.now) t es result (S.world s.new) }
{
    match find_first(cell, guard, s) {
        Ok(Some(front)) => match reach_first(cell, front, guard, s) {
            Ok(owner) => Ok(Some(owner)),
            Err(refused) => Err(refused),
        },
        Ok(None) => match trim(cell, guard, s) {
            Ok(_) => Ok(None),
            Err(refused) => Err(refused),
        },
        Err(refused) => Err(refused),
    }
}
