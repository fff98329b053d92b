//! Entries in slots, one behind another.
ghost use Rattle.std.specs.Prelude.{◌≡◌, ◌≢◌, ◌⊎◌, ℕ, ◌∷◌, false, true, IfErr, IfOk, IfSome, IsOk, List, MatchResult, None, Option, Some, if◌then◌else◌};
ghost use Rattle.sdd_core.specs.declared.tag.Tag.{Tag};
ghost use Rattle.sdd_core.specs.declared.tag.Tag.TheVariants as tag;
ghost use Rattle.sdd_participants.specs.Slab.{entry_at};
ghost use Rattle.sdd_participants.specs.declared.standing.CellContents.{CellContents};
ghost use Rattle.sdd_space.specs.CallerId.{IsSeated, IsExact};
ghost use Rattle.sdd_space.specs.Guard.{reader_of};
ghost use Rattle.sdd_world_model.specs.OwnerOrCell.{SpaceId, AreOf};
ghost use Rattle.sdd_world_model.specs.ParticipantChanges.{KeepsMoreWaiting};
ghost use Rattle.sdd_space.specs.Ptr.{PtrIsShown, cell_seen, slot_named, tag_of};
ghost use Rattle.sdd_space.specs.Refusals.{IsContended};
ghost use Rattle.sdd_space.specs.Shared.{IsOfSlots, cell_of, cells_home, right_of, slot_of, slots_home};
ghost use Rattle.sdd_space.specs.Undisturbed.{Undisturbed, Unmoved};
ghost use Rattle.sdd_world_model.specs.World.{value_at};
ghost use Rattle.sdd_world_model.specs.WorldChanges.{with_cell};
ghost use Rattle.sdd_rights.specs.Units as units;
ghost use Rattle.sdd_lists.specs.Behind.{IsFresh, IsLinkedBehind, Reaches, entry_made, mark_tag, spliced};
ghost use Rattle.sdd_lists.specs.Ends.{EndsWith};
ghost use Rattle.sdd_lists.specs.Lists.{Entry, IsList, first_slot, left, may_delete, trimmed};
ghost use Rattle.sdd_lists.specs.Marks.{retagged, says_clear, says_deleted, says_marked};
ghost use Rattle.sdd_lists.specs.Queue.{IsQueue, QueueCells};

use crate::behind::{link_behind, next_in};
use crate::marks::{delete_link, mark_link, unmark_link};
use crate::moves::trim;
use sdd_core::{Refused, Tag};
use sdd_space::{AtomicShared, Cells, Guard, Item, Items, LookThrough, Ptr, Shared, SharedItems};

/// An entry of a list: it has a link, a cell that holds the entry behind it. The tag of the link says whether the entry is marked or deleted.
///
/// The calls are those of a `Link` too, which is for an entry in a slot of the space that is borrowed.
pub trait LinkedList: Item<Self> {
    /// The number of the link's cell.
    ghost link: { Self → ℕ };
    /// Where that is numbered.
    ghost link_home: { Self → units.GhostName };

    /// The link, which is always the same cell.
    fn link_ref(&self) -> &AtomicShared<Self>
        ensures link { cell_of result.now ≡ link self.now }
        ensures home { cells_home result.now ≡ link_home self.now };

    /// A value holds its link.
    ghost link_is_held: { (home : SpaceId) (v : Self) → AreOf home (Self.holds v) → link_home v ≡ home.cells };

    /// The entry is neither marked nor deleted.
    final fn is_clear<S: Cells<Self>>(&self, s: &mut S) -> bool
        requires seated { IsSeated (S.caller s.old) }
        requires home { link_home self.now ≡ (S.caller s.old).home.cells }
        ensures undisturbed { Undisturbed S.caller S.own S.known S.shows s.old s.new }
        ensures exact { IsExact (S.caller s.old) → (S.world s.new ≡ S.world s.old) × ((cell : CellContents) ×
            (entry_at (S.world s.old).cells (link self.now) ≡ Some cell) × (result ≡ says_clear cell.tag)) }
    {
        matches!(self.link_ref().tag(s), Tag::None)
    }

    /// The entry is marked.
    final fn is_marked<S: Cells<Self>>(&self, s: &mut S) -> bool
        requires seated { IsSeated (S.caller s.old) }
        requires home { link_home self.now ≡ (S.caller s.old).home.cells }
        ensures undisturbed { Undisturbed S.caller S.own S.known S.shows s.old s.new }
        ensures exact { IsExact (S.caller s.old) → (S.world s.new ≡ S.world s.old) × ((cell : CellContents) ×
            (entry_at (S.world s.old).cells (link self.now) ≡ Some cell) × (result ≡ says_marked cell.tag)) }
    {
        matches!(self.link_ref().tag(s), Tag::First)
    }

    /// The entry is deleted.
    final fn is_deleted<S: Cells<Self>>(&self, s: &mut S) -> bool
        requires seated { IsSeated (S.caller s.old) }
        requires home { link_home self.now ≡ (S.caller s.old).home.cells }
        ensures undisturbed { Undisturbed S.caller S.own S.known S.shows s.old s.new }
        ensures exact { IsExact (S.caller s.old) → (S.world s.new ≡ S.world s.old) × ((cell : CellContents) ×
            (entry_at (S.world s.old).cells (link self.now) ≡ Some cell) × (result ≡ says_deleted cell.tag)) }
    {
        matches!(self.link_ref().tag(s), Tag::Second | Tag::Both)
    }

    /// Marks the entry, if it is clear, and answers whether it did.
    ///
    /// `Contended`, in a domain alone, where as many exchanges were lost as its limits allow.
    final fn mark<S: Cells<Self>>(&self, s: &mut S) -> Result<bool, Refused>
        requires seated { IsSeated (S.caller s.old) }
        requires home { link_home self.now ≡ (S.caller s.old).home.cells }
        ensures undisturbed { Undisturbed S.caller S.own S.known S.shows s.old s.new }
        ensures back { IfErr result (IsContended (S.caller s.old)) }
        ensures exact { IsExact (S.caller s.old) → IsOk result × IfOk result (λ changed. (cell : CellContents) ×
            (entry_at (S.world s.old).cells (link self.now) ≡ Some cell) × (changed ≡ says_clear cell.tag) × (S.world s.new ≡
            (if changed then with_cell (S.world s.old) (link self.now) (record cell { tag = tag.First }) else S.world s.old))) }
        ensures list { IsExact (S.caller s.old) → (c : ℕ) (t : Tag) (es : List (Entry Self)) → IsList link (S.world s.old) c t es →
            (e : Entry Self) (rest : List (Entry Self)) → EndsWith es e rest → e.value ≡ self.now → IfOk result (λ changed.
            (changed ≡ says_clear e.tag) × IsList link (S.world s.new) c t (if changed then retagged e.slot tag.First es else es)) }
        ensures queue { IsExact (S.caller s.old) → (q : QueueCells) (es : List (Entry Self)) (second : Option ℕ) →
            IsQueue link (S.world s.old) q es second → (e : Entry Self) (rest : List (Entry Self)) → EndsWith es e rest → e.value ≡ self.now →
            IfOk result (λ changed. IsQueue link (S.world s.new) q (if changed then retagged e.slot tag.First es else es) second) }
    {
        mark_link(self.link_ref(), s)
    }

    /// Takes the mark away, if the entry is marked, and answers whether it did.
    ///
    /// `Contended`, in a domain alone, where as many exchanges were lost as its limits allow.
    final fn unmark<S: Cells<Self>>(&self, s: &mut S) -> Result<bool, Refused>
        requires seated { IsSeated (S.caller s.old) }
        requires home { link_home self.now ≡ (S.caller s.old).home.cells }
        ensures undisturbed { Undisturbed S.caller S.own S.known S.shows s.old s.new }
        ensures back { IfErr result (IsContended (S.caller s.old)) }
        ensures exact { IsExact (S.caller s.old) → IsOk result × IfOk result (λ changed. (cell : CellContents) ×
            (entry_at (S.world s.old).cells (link self.now) ≡ Some cell) × (changed ≡ says_marked cell.tag) × (S.world s.new ≡
            (if changed then with_cell (S.world s.old) (link self.now) (record cell { tag = tag.None }) else S.world s.old))) }
        ensures list { IsExact (S.caller s.old) → (c : ℕ) (t : Tag) (es : List (Entry Self)) → IsList link (S.world s.old) c t es →
            (e : Entry Self) (rest : List (Entry Self)) → EndsWith es e rest → e.value ≡ self.now → IfOk result (λ changed.
            (changed ≡ says_marked e.tag) × IsList link (S.world s.new) c t (if changed then retagged e.slot tag.None es else es)) }
        ensures queue { IsExact (S.caller s.old) → (q : QueueCells) (es : List (Entry Self)) (second : Option ℕ) →
            IsQueue link (S.world s.old) q es second → (e : Entry Self) (rest : List (Entry Self)) → EndsWith es e rest → e.value ≡ self.now →
            IfOk result (λ changed. IsQueue link (S.world s.new) q (if changed then retagged e.slot tag.None es else es) second) }
    {
        unmark_link(self.link_ref(), s)
    }

    /// Deletes the entry, if it is clear or marked, and answers whether it did. A list that it is in lets go of it at a later call.
    ///
    /// `Contended`, in a domain alone, where as many exchanges were lost as its limits allow.
    final fn delete_self<S: Cells<Self>>(&self, s: &mut S) -> Result<bool, Refused>
        requires seated { IsSeated (S.caller s.old) }
        requires home { link_home self.now ≡ (S.caller s.old).home.cells }
        ensures undisturbed { Undisturbed S.caller S.own S.known S.shows s.old s.new }
        ensures back { IfErr result (IsContended (S.caller s.old)) }
        ensures exact { IsExact (S.caller s.old) → IsOk result × IfOk result (λ changed. (cell : CellContents) ×
            (entry_at (S.world s.old).cells (link self.now) ≡ Some cell) × (changed ≡ may_delete cell.tag) × (S.world s.new ≡
            (if changed then with_cell (S.world s.old) (link self.now) (record cell { tag = tag.Second }) else S.world s.old))) }
        ensures list { IsExact (S.caller s.old) → (c : ℕ) (t : Tag) (es : List (Entry Self)) → IsList link (S.world s.old) c t es →
            (e : Entry Self) (rest : List (Entry Self)) → EndsWith es e rest → e.value ≡ self.now → IfOk result (λ changed.
            (changed ≡ may_delete e.tag) × IsList link (S.world s.new) c t (if changed then retagged e.slot tag.Second es else es)) }
        ensures queue { IsExact (S.caller s.old) → (q : QueueCells) (es : List (Entry Self)) (second : Option ℕ) →
            IsQueue link (S.world s.old) q es second → (e : Entry Self) (rest : List (Entry Self)) → EndsWith es e rest → e.value ≡ self.now →
            IfOk result (λ changed. IsQueue link (S.world s.new) q (if changed then retagged e.slot tag.Second es else es) second) }
    {
        delete_link(self.link_ref(), s)
    }

    /// Links an entry directly behind this one, which is marked by that, or has no mark then. Answers a pointer to the entry, with the tag that this one's
    /// link has now.
    ///
    /// Without a refusal where this one is deleted; `Contended`, in a domain alone, where as many exchanges were lost as its limits allow. The owner comes
    /// back, and nothing has changed.
    ///
    /// That the entry is clear, in no list, with an empty link, and not this one, is the caller's condition.
    final fn push_back<'g, S: Items<Self> + Cells<Self> + LookThrough<Self>>(
        &self,
        entry: Shared<Self>,
        mark: bool,
        guard: &'g Guard,
        s: &mut S,
    ) -> Result<Ptr<'g, Self>, (Shared<Self>, Option<Refused>)>
        requires seated { IsSeated (S.caller s.old) }
        requires home { link_home self.now ≡ (S.caller s.old).home.cells }
        requires owner { slots_home entry ≡ (S.caller s.old).home.slots }
        requires reader { reader_of guard.now ≡ (S.caller s.old).reader }
        ensures unmoved { Unmoved S.caller S.known S.shows s.old s.new }
        ensures own { KeepsMoreWaiting (S.own s.old) (S.own s.new) }
        ensures shown { IfOk result (PtrIsShown (S.shows s.new)) }
        ensures slot { IfOk result (λ ptr. (slot_named ptr ≡ Some (slot_of entry)) × (tag_of ptr ≡ mark_tag mark)) }
        ensures back { IfErr result (λ e. (right_of e.0 ≡ right_of entry) × IfSome e.1 (IsContended (S.caller s.old))) }
        ensures refused { IsExact (S.caller s.old) → (cell : CellContents) → entry_at (S.world s.old).cells (link self.now) ≡ Some cell → MatchResult result
            (λ _. says_deleted cell.tag ≡ false) (λ e. (says_deleted cell.tag ≡ true) × (e.1 ≡ None) × (S.world s.new ≡ S.world s.old)) }
        ensures list { IsExact (S.caller s.old) → (t : Tag) (es : List (Entry Self)) (v : Self) → IsList link (S.world s.old) (link self.now) t es →
            IsFresh link (S.world s.old) (slot_of entry) v (link self.now) es →
            IfOk result (λ _. IsLinkedBehind link (S.world s.old) (link self.now) (mark_tag mark) es (slot_of entry) v (S.world s.new)) }
    {
        link_behind(self.link_ref(), entry, mark, guard, s)
    }

    /// A pointer to the next entry that isn't deleted, without a tag; null where there is none. Deleted entries between are let go of.
    ///
    /// `Contended`, in a domain alone.
    final fn next_ptr<'g, S: Items<Self> + Cells<Self> + LookThrough<Self>>(
        &self,
        guard: &'g Guard,
        s: &mut S,
    ) -> Result<Ptr<'g, Self>, Refused>
        requires seated { IsSeated (S.caller s.old) }
        requires home { link_home self.now ≡ (S.caller s.old).home.cells }
        requires reader { reader_of guard.now ≡ (S.caller s.old).reader }
        ensures unmoved { Unmoved S.caller S.known S.shows s.old s.new }
        ensures own { KeepsMoreWaiting (S.own s.old) (S.own s.new) }
        ensures shown { IfOk result (PtrIsShown (S.shows s.new)) }
        ensures tag { IfOk result (λ ptr. tag_of ptr ≡ tag.None) }
        ensures back { IfErr result (λ e. e ≡ Refused.Contended) }
        ensures list { IsExact (S.caller s.old) → (t : Tag) (es : List (Entry Self)) → IsList link (S.world s.old) (link self.now) t es →
            IsOk result × IfOk result (λ ptr. slot_named ptr ≡ first_slot (left es)) × IsList link (S.world s.new) (link self.now) t (left es) ×
            (S.world s.new ≡ trimmed link (S.world s.old) (S.caller s.old).place (link self.now) t es) }
        ensures around { IsExact (S.caller s.old) → (c : ℕ) (t : Tag) (es : List (Entry Self)) → IsList link (S.world s.old) c t es →
            (e : Entry Self) (rest : List (Entry Self)) → EndsWith es e rest → e.value ≡ self.now →
            IsList link (S.world s.new) c t (spliced e.slot (e ∷ left rest) es) }
        ensures queue { IsExact (S.caller s.old) → (q : QueueCells) (es : List (Entry Self)) (second : Option ℕ) →
            IsQueue link (S.world s.old) q es second → (e : Entry Self) (rest : List (Entry Self)) → EndsWith es e rest → e.value ≡ self.now →
            IsQueue link (S.world s.new) q (spliced e.slot (e ∷ left rest) es) second }
    {
        trim(self.link_ref(), guard, s)
    }

    /// An owner of the next entry that isn't deleted; None where there is none. Deleted entries between are let go of.
    ///
    /// `TooManyOwners` where 2^62 own the entry, cells counted: nothing has changed then. `Contended`, in a domain alone.
    final fn next_shared<S: Items<Self> + SharedItems<Self> + Cells<Self> + LookThrough<Self>>(
        &self,
        guard: &Guard,
        s: &mut S,
    ) -> Result<Option<Shared<Self>>, Refused>
        requires seated { IsSeated (S.caller s.old) }
        requires home { link_home self.now ≡ (S.caller s.old).home.cells }
        requires reader { reader_of guard.now ≡ (S.caller s.old).reader }
        ensures unmoved { Unmoved S.caller S.known S.shows s.old s.new }
        ensures own { KeepsMoreWaiting (S.own s.old) (S.own s.new) }
        ensures owner { IfOk result (IsOfSlots (S.caller s.old).home.slots) }
        ensures back { IfErr result (λ e. (e ≡ Refused.TooManyOwners) ⊎ (e ≡ Refused.Contended)) }
        ensures list { IsExact (S.caller s.old) → (t : Tag) (es : List (Entry Self)) → IsList link (S.world s.old) (link self.now) t es →
            Reaches link (S.world s.old) (S.caller s.old).place (link self.now) t es result (S.world s.new) }
        ensures around { IsExact (S.caller s.old) → (c : ℕ) (t : Tag) (es : List (Entry Self)) → IsList link (S.world s.old) c t es →
            (e : Entry Self) (rest : List (Entry Self)) → EndsWith es e rest → e.value ≡ self.now → MatchResult result
            (λ _. IsList link (S.world s.new) c t (spliced e.slot (e ∷ left rest) es)) (λ _. IsList link (S.world s.new) c t es) }
        ensures queue { IsExact (S.caller s.old) → (q : QueueCells) (es : List (Entry Self)) (second : Option ℕ) →
            IsQueue link (S.world s.old) q es second → (e : Entry Self) (rest : List (Entry Self)) → EndsWith es e rest → e.value ≡ self.now →
            MatchResult result
            (λ _. IsQueue link (S.world s.new) q (spliced e.slot (e ∷ left rest) es) second)
            (λ _. IsQueue link (S.world s.new) q es second) }
    {
        next_in(self.link_ref(), guard, s)
    }
}
