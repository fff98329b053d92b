//! The link of an entry in a slot, by which it is marked and deleted.
ghost use Rattle.std.specs.Prelude.{◌≡◌, ◌↔◌, ◌⊎◌, ℕ, ◌∷◌, false, true, IfErr, IfOk, IfSome, IsOk, IsSome, List, MatchResult, None, Option, Some, if◌then◌else◌};
ghost use Rattle.sdd_core.specs.declared.tag.Tag.{Tag};
ghost use Rattle.sdd_core.specs.declared.tag.Tag.TheVariants as tag;
ghost use Rattle.sdd_participants.specs.Slab.{entry_at};
ghost use Rattle.sdd_participants.specs.declared.standing.CellContents.{CellContents};
ghost use Rattle.sdd_space.specs.CallerId.{IsSeated, IsExact};
ghost use Rattle.sdd_space.specs.Guard.{reader_of};
ghost use Rattle.sdd_world_model.specs.ParticipantChanges.{KeepsMoreWaiting};
ghost use Rattle.sdd_space.specs.Ptr.{IsNull, PtrIsShown, shown_by, slot_named, tag_of};
ghost use Rattle.sdd_space.specs.Refusals.{IsContended};
ghost use Rattle.sdd_space.specs.Shared.{IsOfSlots, right_of, slot_of, slots_home};
ghost use Rattle.sdd_space.specs.Undisturbed.{Undisturbed, Unmoved};
ghost use Rattle.sdd_world_model.specs.WorldChanges.{with_cell};
ghost use Rattle.sdd_lists.specs.Behind.{IsFresh, IsLinkedBehind, Reaches, mark_tag, spliced};
ghost use Rattle.sdd_lists.specs.Ends.{EndsWith};
ghost use Rattle.sdd_lists.specs.Lists.{Entry, IsList, first_slot, left, may_delete, trimmed};
ghost use Rattle.sdd_lists.specs.Queue.{IsQueue, QueueCells};

use crate::linked_list::LinkedList;
use sdd_core::Refused;
use sdd_space::{Caller, Cells, Guard, Items, LookThrough, Ptr, Shared, SharedItems};
use std::alloc::AllocError;

/// An entry in a slot, for as long as a guard is borrowed: its link can be used while the space is borrowed too.
pub struct Link<'g, T> {
    entry: &'g T,
}

impl<'g, T> Clone for Link<'g, T> {
    ghost use Rattle.std.specs.Prelude.{◌≡◌};

    ghost is_clone = { λ x y. y ≡ x };

    ghost is_infallible = { λ _. Unit {0} };

    fn clone(&self) -> Result<Self, AllocError> {
        Ok(*self)
    }
}

impl<'g, T> Copy for Link<'g, T> {}

impl<'g, T: LinkedList> Link<'g, T> {
    ghost use Rattle.sdd_lists.specs.Marks.{entry_of, retagged, says_clear, says_deleted, says_marked};

    /// The link of the entry that a pointer names; None for null.
    pub fn of<S: Caller<T> + LookThrough<T>>(ptr: Ptr<'g, T>, at: &S) -> Option<Link<'g, T>>
        requires shown { PtrIsShown (S.shows at.now) ptr }
        ensures null { IsSome result ↔ ¬ (IsNull ptr.entry) }
        ensures entry { IfSome result (λ link. shown_by ptr.entry ≡ Some (entry_of link)) }
        ensures home { IfSome result (λ link. T.link_home (entry_of link) ≡ (S.caller at.now).home.cells) }
    {
        let Some(entry) = ptr.as_ref(at) else {
            return None;
        };
        at.shown_is_of_home();
        Some(Link { entry })
    }

    /// The entry is neither marked nor deleted.
    pub fn is_clear<S: Cells<T>>(&self, s: &mut S) -> bool
        requires seated { IsSeated (S.caller s.old) }
        requires home { T.link_home (entry_of self.now) ≡ (S.caller s.old).home.cells }
        ensures undisturbed { Undisturbed S.caller S.own S.known S.shows s.old s.new }
        ensures exact { IsExact (S.caller s.old) → (S.world s.new ≡ S.world s.old) × ((cell : CellContents) ×
            (entry_at (S.world s.old).cells (T.link (entry_of self.now)) ≡ Some cell) × (result ≡ says_clear cell.tag)) }
    {
        self.entry.is_clear(s)
    }

    /// The entry is marked.
    pub fn is_marked<S: Cells<T>>(&self, s: &mut S) -> bool
        requires seated { IsSeated (S.caller s.old) }
        requires home { T.link_home (entry_of self.now) ≡ (S.caller s.old).home.cells }
        ensures undisturbed { Undisturbed S.caller S.own S.known S.shows s.old s.new }
        ensures exact { IsExact (S.caller s.old) → (S.world s.new ≡ S.world s.old) × ((cell : CellContents) ×
            (entry_at (S.world s.old).cells (T.link (entry_of self.now)) ≡ Some cell) × (result ≡ says_marked cell.tag)) }
    {
        self.entry.is_marked(s)
    }

    /// The entry is deleted.
    pub fn is_deleted<S: Cells<T>>(&self, s: &mut S) -> bool
        requires seated { IsSeated (S.caller s.old) }
        requires home { T.link_home (entry_of self.now) ≡ (S.caller s.old).home.cells }
        ensures undisturbed { Undisturbed S.caller S.own S.known S.shows s.old s.new }
        ensures exact { IsExact (S.caller s.old) → (S.world s.new ≡ S.world s.old) × ((cell : CellContents) ×
            (entry_at (S.world s.old).cells (T.link (entry_of self.now)) ≡ Some cell) × (result ≡ says_deleted cell.tag)) }
    {
        self.entry.is_deleted(s)
    }

    /// Marks the entry, if it is clear, and answers whether it did.
    ///
    /// `Contended`, in a domain alone, where as many exchanges were lost as its limits allow.
    pub fn mark<S: Cells<T>>(&self, s: &mut S) -> Result<bool, Refused>
        requires seated { IsSeated (S.caller s.old) }
        requires home { T.link_home (entry_of self.now) ≡ (S.caller s.old).home.cells }
        ensures undisturbed { Undisturbed S.caller S.own S.known S.shows s.old s.new }
        ensures back { IfErr result (IsContended (S.caller s.old)) }
        ensures exact { IsExact (S.caller s.old) → IsOk result × IfOk result (λ changed. (cell : CellContents) ×
            (entry_at (S.world s.old).cells (T.link (entry_of self.now)) ≡ Some cell) × (changed ≡ says_clear cell.tag) × (S.world s.new ≡
            (if changed then with_cell (S.world s.old) (T.link (entry_of self.now)) (record cell { tag = tag.First }) else S.world s.old))) }
        ensures list { IsExact (S.caller s.old) → (c : ℕ) (t : Tag) (es : List (Entry T)) → IsList T.link (S.world s.old) c t es →
            (e : Entry T) (rest : List (Entry T)) → EndsWith es e rest → e.value ≡ entry_of self.now → IfOk result (λ changed.
            (changed ≡ says_clear e.tag) × IsList T.link (S.world s.new) c t (if changed then retagged e.slot tag.First es else es)) }
        ensures queue { IsExact (S.caller s.old) → (q : QueueCells) (es : List (Entry T)) (second : Option ℕ) →
            IsQueue T.link (S.world s.old) q es second → (e : Entry T) (rest : List (Entry T)) → EndsWith es e rest → e.value ≡ entry_of self.now →
            IfOk result (λ changed. IsQueue T.link (S.world s.new) q (if changed then retagged e.slot tag.First es else es) second) }
    {
        self.entry.mark(s)
    }

    /// Takes the mark away, if the entry is marked, and answers whether it did.
    ///
    /// `Contended`, in a domain alone, where as many exchanges were lost as its limits allow.
    pub fn unmark<S: Cells<T>>(&self, s: &mut S) -> Result<bool, Refused>
        requires seated { IsSeated (S.caller s.old) }
        requires home { T.link_home (entry_of self.now) ≡ (S.caller s.old).home.cells }
        ensures undisturbed { Undisturbed S.caller S.own S.known S.shows s.old s.new }
        ensures back { IfErr result (IsContended (S.caller s.old)) }
        ensures exact { IsExact (S.caller s.old) → IsOk result × IfOk result (λ changed. (cell : CellContents) ×
            (entry_at (S.world s.old).cells (T.link (entry_of self.now)) ≡ Some cell) × (changed ≡ says_marked cell.tag) × (S.world s.new ≡
            (if changed then with_cell (S.world s.old) (T.link (entry_of self.now)) (record cell { tag = tag.None }) else S.world s.old))) }
        ensures list { IsExact (S.caller s.old) → (c : ℕ) (t : Tag) (es : List (Entry T)) → IsList T.link (S.world s.old) c t es →
            (e : Entry T) (rest : List (Entry T)) → EndsWith es e rest → e.value ≡ entry_of self.now → IfOk result (λ changed.
            (changed ≡ says_marked e.tag) × IsList T.link (S.world s.new) c t (if changed then retagged e.slot tag.None es else es)) }
        ensures queue { IsExact (S.caller s.old) → (q : QueueCells) (es : List (Entry T)) (second : Option ℕ) →
            IsQueue T.link (S.world s.old) q es second → (e : Entry T) (rest : List (Entry T)) → EndsWith es e rest → e.value ≡ entry_of self.now →
            IfOk result (λ changed. IsQueue T.link (S.world s.new) q (if changed then retagged e.slot tag.None es else es) second) }
    {
        self.entry.unmark(s)
    }

    /// Deletes the entry, if it is clear or marked, and answers whether it did. A list that it is in lets go of it at a later call.
    ///
    /// `Contended`, in a domain alone, where as many exchanges were lost as its limits allow.
    pub fn delete_self<S: Cells<T>>(&self, s: &mut S) -> Result<bool, Refused>
        requires seated { IsSeated (S.caller s.old) }
        requires home { T.link_home (entry_of self.now) ≡ (S.caller s.old).home.cells }
        ensures undisturbed { Undisturbed S.caller S.own S.known S.shows s.old s.new }
        ensures back { IfErr result (IsContended (S.caller s.old)) }
        ensures exact { IsExact (S.caller s.old) → IsOk result × IfOk result (λ changed. (cell : CellContents) ×
            (entry_at (S.world s.old).cells (T.link (entry_of self.now)) ≡ Some cell) × (changed ≡ may_delete cell.tag) × (S.world s.new ≡
            (if changed then with_cell (S.world s.old) (T.link (entry_of self.now)) (record cell { tag = tag.Second }) else S.world s.old))) }
        ensures list { IsExact (S.caller s.old) → (c : ℕ) (t : Tag) (es : List (Entry T)) → IsList T.link (S.world s.old) c t es →
            (e : Entry T) (rest : List (Entry T)) → EndsWith es e rest → e.value ≡ entry_of self.now → IfOk result (λ changed.
            (changed ≡ may_delete e.tag) × IsList T.link (S.world s.new) c t (if changed then retagged e.slot tag.Second es else es)) }
        ensures queue { IsExact (S.caller s.old) → (q : QueueCells) (es : List (Entry T)) (second : Option ℕ) →
            IsQueue T.link (S.world s.old) q es second → (e : Entry T) (rest : List (Entry T)) → EndsWith es e rest → e.value ≡ entry_of self.now →
            IfOk result (λ changed. IsQueue T.link (S.world s.new) q (if changed then retagged e.slot tag.Second es else es) second) }
    {
        self.entry.delete_self(s)
    }

    /// Links an entry directly behind this one, which is marked by that, or has no mark then. Answers a pointer to the entry, with the tag that this one's
    /// link has now.
    ///
    /// Without a refusal where this one is deleted; `Contended`, in a domain alone, where as many exchanges were lost as its limits allow. The owner comes
    /// back, and nothing has changed.
    ///
    /// That the entry is clear, in no list, with an empty link, and not this one, is the caller's condition.
    pub fn push_back<'h, S: Items<T> + Cells<T> + LookThrough<T>>(
        &self,
        entry: Shared<T>,
        mark: bool,
        guard: &'h Guard,
        s: &mut S,
    ) -> Result<Ptr<'h, T>, (Shared<T>, Option<Refused>)>
        requires seated { IsSeated (S.caller s.old) }
        requires home { T.link_home (entry_of self.now) ≡ (S.caller s.old).home.cells }
        requires owner { slots_home entry ≡ (S.caller s.old).home.slots }
        requires reader { reader_of guard.now ≡ (S.caller s.old).reader }
        ensures unmoved { Unmoved S.caller S.known S.shows s.old s.new }
        ensures own { KeepsMoreWaiting (S.own s.old) (S.own s.new) }
        ensures shown { IfOk result (PtrIsShown (S.shows s.new)) }
        ensures slot { IfOk result (λ ptr. (slot_named ptr ≡ Some (slot_of entry)) × (tag_of ptr ≡ mark_tag mark)) }
        ensures back { IfErr result (λ e. (right_of e.0 ≡ right_of entry) × IfSome e.1 (IsContended (S.caller s.old))) }
        ensures refused { IsExact (S.caller s.old) → (cell : CellContents) → entry_at (S.world s.old).cells (T.link (entry_of self.now)) ≡ Some cell →
            MatchResult result (λ _. says_deleted cell.tag ≡ false)
            (λ e. (says_deleted cell.tag ≡ true) × (e.1 ≡ None) × (S.world s.new ≡ S.world s.old)) }
        ensures list { IsExact (S.caller s.old) → (t : Tag) (es : List (Entry T)) (v : T) → IsList T.link (S.world s.old) (T.link (entry_of self.now)) t es →
            IsFresh T.link (S.world s.old) (slot_of entry) v (T.link (entry_of self.now)) es → IfOk result (λ _.
            IsLinkedBehind T.link (S.world s.old) (T.link (entry_of self.now)) (mark_tag mark) es (slot_of entry) v (S.world s.new)) }
    {
        self.entry.push_back(entry, mark, guard, s)
    }

    /// A pointer to the next entry that isn't deleted, without a tag; null where there is none. Deleted entries between are let go of.
    ///
    /// `Contended`, in a domain alone.
    pub fn next_ptr<'h, S: Items<T> + Cells<T> + LookThrough<T>>(
        &self,
        guard: &'h Guard,
        s: &mut S,
    ) -> Result<Ptr<'h, T>, Refused>
        requires seated { IsSeated (S.caller s.old) }
        requires home { T.link_home (entry_of self.now) ≡ (S.caller s.old).home.cells }
        requires reader { reader_of guard.now ≡ (S.caller s.old).reader }
        ensures unmoved { Unmoved S.caller S.known S.shows s.old s.new }
        ensures own { KeepsMoreWaiting (S.own s.old) (S.own s.new) }
        ensures shown { IfOk result (PtrIsShown (S.shows s.new)) }
        ensures tag { IfOk result (λ ptr. tag_of ptr ≡ tag.None) }
        ensures back { IfErr result (λ e. e ≡ Refused.Contended) }
        ensures list { IsExact (S.caller s.old) → (t : Tag) (es : List (Entry T)) → IsList T.link (S.world s.old) (T.link (entry_of self.now)) t es →
            IsOk result × IfOk result (λ ptr. slot_named ptr ≡ first_slot (left es)) ×
            IsList T.link (S.world s.new) (T.link (entry_of self.now)) t (left es) ×
            (S.world s.new ≡ trimmed T.link (S.world s.old) (S.caller s.old).place (T.link (entry_of self.now)) t es) }
        ensures around { IsExact (S.caller s.old) → (c : ℕ) (t : Tag) (es : List (Entry T)) → IsList T.link (S.world s.old) c t es →
            (e : Entry T) (rest : List (Entry T)) → EndsWith es e rest → e.value ≡ entry_of self.now →
            IsList T.link (S.world s.new) c t (spliced e.slot (e ∷ left rest) es) }
        ensures queue { IsExact (S.caller s.old) → (q : QueueCells) (es : List (Entry T)) (second : Option ℕ) →
            IsQueue T.link (S.world s.old) q es second → (e : Entry T) (rest : List (Entry T)) → EndsWith es e rest → e.value ≡ entry_of self.now →
            IsQueue T.link (S.world s.new) q (spliced e.slot (e ∷ left rest) es) second }
    {
        self.entry.next_ptr(guard, s)
    }

    /// An owner of the next entry that isn't deleted; None where there is none. Deleted entries between are let go of.
    ///
    /// `TooManyOwners` where 2^62 own the entry, cells counted: nothing has changed then. `Contended`, in a domain alone.
    pub fn next_shared<S: Items<T> + SharedItems<T> + Cells<T> + LookThrough<T>>(
        &self,
        guard: &Guard,
        s: &mut S,
    ) -> Result<Option<Shared<T>>, Refused>
        requires seated { IsSeated (S.caller s.old) }
        requires home { T.link_home (entry_of self.now) ≡ (S.caller s.old).home.cells }
        requires reader { reader_of guard.now ≡ (S.caller s.old).reader }
        ensures unmoved { Unmoved S.caller S.known S.shows s.old s.new }
        ensures own { KeepsMoreWaiting (S.own s.old) (S.own s.new) }
        ensures owner { IfOk result (IsOfSlots (S.caller s.old).home.slots) }
        ensures back { IfErr result (λ e. (e ≡ Refused.TooManyOwners) ⊎ (e ≡ Refused.Contended)) }
        ensures list { IsExact (S.caller s.old) → (t : Tag) (es : List (Entry T)) → IsList T.link (S.world s.old) (T.link (entry_of self.now)) t es →
            Reaches T.link (S.world s.old) (S.caller s.old).place (T.link (entry_of self.now)) t es result (S.world s.new) }
        ensures around { IsExact (S.caller s.old) → (c : ℕ) (t : Tag) (es : List (Entry T)) → IsList T.link (S.world s.old) c t es →
            (e : Entry T) (rest : List (Entry T)) → EndsWith es e rest → e.value ≡ entry_of self.now → MatchResult result
            (λ _. IsList T.link (S.world s.new) c t (spliced e.slot (e ∷ left rest) es)) (λ _. IsList T.link (S.world s.new) c t es) }
        ensures queue { IsExact (S.caller s.old) → (q : QueueCells) (es : List (Entry T)) (second : Option ℕ) →
            IsQueue T.link (S.world s.old) q es second → (e : Entry T) (rest : List (Entry T)) → EndsWith es e rest → e.value ≡ entry_of self.now →
            MatchResult result
            (λ _. IsQueue T.link (S.world s.new) q (spliced e.slot (e ∷ left rest) es) second)
            (λ _. IsQueue T.link (S.world s.new) q es second) }
    {
        self.entry.next_shared(guard, s)
    }
}
