//! A container whose newest value comes out first.
ghost use Rattle.std.specs.Prelude.{◌≡◌, ◌↔◌, ◌⊎◌, ℕ, [], ◌∷◌, ◌++◌, IfErr, IfOk, IfSome, IsTrue, List, MatchOption, MatchResult, None, Some, drop, length, option_copied, slice_get};
ghost use Rattle.std.specs.Borrow.{Bor};
ghost use Rattle.std.specs.Iterator.{IsFinite, YieldsThen};
ghost use Rattle.std.specs.List.{AllZip};
ghost use Rattle.sdd_space.specs.Guard.{reader_of};
ghost use Rattle.sdd_world_model.specs.OwnerOrCell.{AreOf};
ghost use Rattle.sdd_space.specs.Undisturbed.{Undisturbed, Unmoved};
ghost use Rattle.sdd_world_model.specs.ParticipantChanges.{KeepsMoreWaiting};
ghost use Rattle.sdd_space.specs.Ptr.{PtrIsShown, slot_named, tag_of};
ghost use Rattle.sdd_space.specs.Refusals.{IsRefusedBy};
ghost use Rattle.sdd_space.specs.CallerId.{IsSeated, IsExact};
ghost use Rattle.sdd_space.specs.Shared.{IsOfSlots, cell_of, cells_home, slot_of, slots_home};
ghost use Rattle.sdd_world_model.specs.World.{standing_at};
ghost use Rattle.sdd_world_model.specs.WorldChanges.{nulled, without_cell};
ghost use Rattle.sdd_core.specs.declared.tag.Tag.TheVariants.{None as no_tag};
ghost use Rattle.sdd_participants.specs.Slab.{IsEmptyAt, IsFull};
ghost use Rattle.sdd_world_model.specs.Slots.{IsSharedBy};
ghost use Rattle.sdd_lists.specs.Asking.{kept_by, was_held};
ghost use Rattle.sdd_lists.specs.Entries.{link_of, value_of};
ghost use Rattle.std.specs.Iterator.{AlwaysYields};
ghost use Rattle.std.specs.Iterator.Runs.{EachRunFrom, ItemsMapTo};
ghost use Rattle.sdd_lists.specs.Iter.{GivesInOrder, GoesInOrder, IsIterOf, space_of};
ghost use Rattle.sdd_lists.specs.Lists.{Entry, Pops, content, emptied, first_slot, first_value, left};

use crate::asking::{asks, asks_of_any};
use crate::clone_value::CloneValue;
use crate::iter::{Iter, iter_in};
use crate::linked_entry::LinkedEntry;
use crate::moves::{give_up, let_go_of_all, trim};
use crate::pops::{keep_first, pop_first, take_first};
use crate::pushes::{append, has_room, push_first};
use crate::unfinished::Unfinished;
use crate::unpopped::Unpopped;
use crate::walk::{Walk, walk_in};
use crate::walks::{Front, count, find_first, first_ptr_in, first_value_in, shown_in};
use sdd_core::{Refused, Tag};
use sdd_space::laws::values_fit_slots;
use sdd_space::{
    AtomicShared, Cells, Guard, HeldItems, Item, Items, LookThrough, Ptr, Several, Shared,
    SharedItems,
};

/// Entries, of which the newest is popped first.
pub struct Stack<T> {
    newest: AtomicShared<LinkedEntry<T>>,
}

impl<T: Item<LinkedEntry<T>>> Stack<T> {
    ghost use Rattle.sdd_lists.specs.Stack.{IsStack, PopsIf, PushesOnto, cell_in, home_in, poured};
    ghost use Rattle.sdd_lists.specs.Cloning.{AreBeside, RefusesClone};
    ghost use Rattle.sdd_lists.specs.StackCloning.{AppendsTo, ExtendsStack, IsStackBeside, LastIs, StackClones, both};
    ghost use Rattle.sdd_lists.specs.Filling.{AddsOnto, Builds, FillsStack, RefusesPush, stack_of, why_not};
    ghost use Rattle.sdd_lists.specs.Values.{StackHas};
    ghost use Rattle.sdd_lists.specs.Walk.{IsWalkOf, ShowsInOrder, StandsBefore, shown_of};

    /// An empty stack.
    ///
    /// `NoCell` where no cell is free; `Contended`, in a domain alone, where as many exchanges were lost as its limits allow.
    pub fn new<S: Cells<LinkedEntry<T>>>(s: &mut S) -> Result<Stack<T>, Refused>
        requires seated { IsSeated (S.caller s.old) }
        ensures undisturbed { Undisturbed S.caller S.own S.known S.shows s.old s.new }
        ensures home { IfOk result (λ stack. home_in stack ≡ (S.caller s.old).home.cells) }
        ensures back { IfErr result (IsRefusedBy (S.caller s.old) Refused.NoCell) }
        ensures world { IsExact (S.caller s.old) → MatchResult result
            (λ stack. IsEmptyAt (S.world s.old).cells (cell_in stack) × (S.world s.new ≡ nulled (S.world s.old) (cell_in stack)))
            (λ e. IsFull (S.world s.old).cells × (e ≡ Refused.NoCell) × (S.world s.new ≡ S.world s.old)) }
        ensures list { IsExact (S.caller s.old) → IfOk result (λ stack. IsStack (S.world s.new) (cell_in stack) []) }
        ensures values { IsExact (S.caller s.old) → IfOk result (λ stack. StackHas (S.world s.new) stack []) }
    {
        match AtomicShared::null(s) {
            Ok(newest) => Ok(Stack { newest }),
            Err(refused) => Err(refused),
        }
    }

    /// Pushes a value, and answers an owner of its entry. Deleted entries in front are let go of.
    ///
    /// `NoSlot` where no slot is free, else `NoCell` where no cell is; `Contended`, in a domain alone, where as many exchanges were lost as its limits allow.
    /// The value comes back.
    pub fn push<
        S: Items<LinkedEntry<T>>
            + Several<LinkedEntry<T>>
            + Cells<LinkedEntry<T>>
            + LookThrough<LinkedEntry<T>>,
    >(&self, value: T, guard: &Guard, s: &mut S) -> Result<Shared<LinkedEntry<T>>, (T, Refused)>
        requires seated { IsSeated (S.caller s.old) }
        requires home { home_in self.now ≡ (S.caller s.old).home.cells }
        requires value { AreOf (S.caller s.old).home (T.holds value) }
        requires reader { reader_of guard.now ≡ (S.caller s.old).reader }
        ensures unmoved { Unmoved S.caller S.known S.shows s.old s.new }
        ensures own { KeepsMoreWaiting (S.own s.old) (S.own s.new) }
        ensures owner { IfOk result (λ owner. slots_home owner ≡ (S.caller s.old).home.slots) }
        ensures back { IfErr result (λ e. (e.0 ≡ value) × ((e.1 ≡ Refused.NoSlot) ⊎ IsRefusedBy (S.caller s.old) Refused.NoCell e.1)) }
        ensures refused { IsExact (S.caller s.old) → IfErr result (λ e. (S.world s.new ≡ S.world s.old) ×
            (IsFull (S.world s.old).standings × (e.1 ≡ Refused.NoSlot) ⊎
            ¬ (IsFull (S.world s.old).standings) × IsFull (S.world s.old).cells × (e.1 ≡ Refused.NoCell))) }
        ensures list { IsExact (S.caller s.old) → (es : List (Entry (LinkedEntry T))) → IsStack (S.world s.old) (cell_in self.now) es →
            IfOk result (λ owner. PushesOnto (S.world s.old) (S.caller s.old).place (cell_in self.now) es value owner (S.world s.new)) }
        ensures values { IsExact (S.caller s.old) → (vs : List T) → StackHas (S.world s.old) self.now vs → MatchResult result
            (λ _. StackHas (S.world s.new) self.now (value ∷ vs))
            (λ _. S.world s.new ≡ S.world s.old) }
    {
        let free = s.has_slot();
        if !free {
            return Err((value, Refused::NoSlot));
        }
        let entry = match LinkedEntry::new(value, s) {
            Ok(entry) => entry,
            Err(back) => return Err(back),
        };
        match push_first(&self.newest, entry, guard, s) {
            Ok(owner) => Ok(owner),
            Err((entry, refused)) => Err((entry.close(s), refused)),
        }
    }

    /// Pushes a value, whose entry the stack alone owns then.
    fn add<
        S: Items<LinkedEntry<T>>
            + Several<LinkedEntry<T>>
            + Cells<LinkedEntry<T>>
            + LookThrough<LinkedEntry<T>>,
    >(&self, value: T, guard: &Guard, s: &mut S) -> Result<(), (T, Refused)>
        requires seated { IsSeated (S.caller s.old) }
        requires home { home_in self.now ≡ (S.caller s.old).home.cells }
        requires value { AreOf (S.caller s.old).home (T.holds value) }
        requires reader { reader_of guard.now ≡ (S.caller s.old).reader }
        ensures unmoved { Unmoved S.caller S.known S.shows s.old s.new }
        ensures own { KeepsMoreWaiting (S.own s.old) (S.own s.new) }
        ensures back { IfErr result (λ e. (e.0 ≡ value) × ((e.1 ≡ Refused.NoSlot) ⊎ IsRefusedBy (S.caller s.old) Refused.NoCell e.1)) }
        ensures refused { IsExact (S.caller s.old) → IfErr result (λ e. (S.world s.new ≡ S.world s.old) × RefusesPush (S.world s.old) e.1) }
        ensures list { IsExact (S.caller s.old) → (es : List (Entry (LinkedEntry T))) → IsStack (S.world s.old) (cell_in self.now) es →
            IfOk result (λ _. (fs : List (Entry (LinkedEntry T))) ×
            AddsOnto (S.world s.old) (S.caller s.old).place (cell_in self.now) es value (S.world s.new) fs) }
    {
        match self.push(value, guard, s) {
            Ok(owner) => {
                give_up(Some(owner), s);
                Ok(())
            }
            Err(back) => Err(back),
        }
    }

    /// Pushes what an iterator gives, one after another.
    fn add_all<
        I: Iterator<Item = T>,
        S: Items<LinkedEntry<T>>
            + Several<LinkedEntry<T>>
            + Cells<LinkedEntry<T>>
            + LookThrough<LinkedEntry<T>>,
    >(&self, items: &mut I, guard: &Guard, s: &mut S) -> Result<(), (T, Refused)>
        requires seated { IsSeated (S.caller s.old) }
        requires home { home_in self.now ≡ (S.caller s.old).home.cells }
        requires reader { reader_of guard.now ≡ (S.caller s.old).reader }
        requires can { I.can_next items.old }
        requires ends { IsFinite (I.remaining items.old) }
        requires values { (i j : I) (value : T) → I.next_gives i (Some value) j → AreOf (S.caller s.old).home (T.holds value) }
        ensures unmoved { Unmoved S.caller S.known S.shows s.old s.new }
        ensures own { KeepsMoreWaiting (S.own s.old) (S.own s.new) }
        ensures back { IfErr result (λ e. (e.1 ≡ Refused.NoSlot) ⊎ IsRefusedBy (S.caller s.old) Refused.NoCell e.1) }
        ensures list { IsExact (S.caller s.old) → (es : List (Entry (LinkedEntry T))) → IsStack (S.world s.old) (cell_in self.now) es →
            (xs : List T) × (fs : List (Entry (LinkedEntry T))) ×
            FillsStack (S.caller s.old).place (cell_in self.now) (S.world s.old) es xs (S.world s.new) fs × MatchResult result
            (λ _. YieldsThen I.next_gives items.old xs None items.new)
            (λ e. YieldsThen I.next_gives items.old xs (Some e.0) items.new × RefusesPush (S.world s.new) e.1) }
    {
        while let Some(value) = items.next() {
            match self.add(value, guard, s) {
                Ok(()) => {}
                Err(back) => return Err(back),
            }
        }
        Ok(())
    }

    /// A stack of what an iterator gives, each pushed onto those before it.
    ///
    /// `NotBegun` with `NoCell` where no cell is free: nothing is taken of the iterator then. Where a push is refused, `Part` with the stack as it is by then,
    /// and the item that was refused. `Contended`, in a domain alone.
    pub fn from_iter<
        I: Iterator<Item = T>,
        S: Items<LinkedEntry<T>>
            + Several<LinkedEntry<T>>
            + Cells<LinkedEntry<T>>
            + LookThrough<LinkedEntry<T>>,
    >(items: &mut I, guard: &Guard, s: &mut S) -> Result<Stack<T>, Unfinished<Stack<T>, T>>
        requires seated { IsSeated (S.caller s.old) }
        requires reader { reader_of guard.now ≡ (S.caller s.old).reader }
        requires can { I.can_next items.old }
        requires ends { IsFinite (I.remaining items.old) }
        requires values { (i j : I) (value : T) → I.next_gives i (Some value) j → AreOf (S.caller s.old).home (T.holds value) }
        ensures unmoved { Unmoved S.caller S.known S.shows s.old s.new }
        ensures own { KeepsMoreWaiting (S.own s.old) (S.own s.new) }
        ensures home { IfSome (stack_of result) (λ stack. home_in stack ≡ (S.caller s.old).home.cells) }
        ensures back { IfErr result (λ u. (why_not u ≡ Refused.NoSlot) ⊎ IsRefusedBy (S.caller s.old) Refused.NoCell (why_not u)) }
        ensures list { IsExact (S.caller s.old) →
            Builds I.next_gives (S.caller s.old).place (S.world s.old) items.old result items.new (S.world s.new) }
    {
        let stack = match Stack::new(s) {
            Ok(stack) => stack,
            Err(refused) => return Err(Unfinished::NotBegun(refused)),
        };
        match stack.add_all(items, guard, s) {
            Ok(()) => Ok(stack),
            Err((item, refused)) => Err(Unfinished::Part(stack, Some(item), refused)),
        }
    }

    /// Puts a value behind the last entry that isn't deleted, and was found. The stack alone owns its entry, which is answered.
    fn append<
        'g,
        S: Items<LinkedEntry<T>>
            + Several<LinkedEntry<T>>
            + Cells<LinkedEntry<T>>
            + LookThrough<LinkedEntry<T>>,
    >(
        &self,
        last: Option<Front<'g, LinkedEntry<T>>>,
        value: T,
        guard: &'g Guard,
        s: &mut S,
    ) -> Result<Front<'g, LinkedEntry<T>>, (T, Refused)>
        requires seated { IsSeated (S.caller s.old) }
        requires home { home_in self.now ≡ (S.caller s.old).home.cells }
        requires last { IfSome last (λ f. cells_home f.link.now ≡ (S.caller s.old).home.cells) }
        requires value { AreOf (S.caller s.old).home (T.holds value) }
        requires reader { reader_of guard.now ≡ (S.caller s.old).reader }
        ensures unmoved { Unmoved S.caller S.known S.shows s.old s.new }
        ensures own { KeepsMoreWaiting (S.own s.old) (S.own s.new) }
        ensures front { IfOk result (λ f. cells_home f.link.now ≡ (S.caller s.old).home.cells) }
        ensures back { IfErr result (λ e. (e.0 ≡ value) × ((e.1 ≡ Refused.NoSlot) ⊎ IsRefusedBy (S.caller s.old) Refused.NoCell e.1)) }
        ensures refused { IsExact (S.caller s.old) → IfErr result (λ e. (S.world s.new ≡ S.world s.old) × RefusesPush (S.world s.old) e.1) }
        ensures list { IsExact (S.caller s.old) → (es : List (Entry (LinkedEntry T))) → IsStack (S.world s.old) (cell_in self.now) es →
            LastIs link_of last.entry es → IfOk result (λ f. (gs : List (Entry (LinkedEntry T))) ×
            AppendsTo (S.world s.old) (S.caller s.old).place (cell_in self.now) es value (S.world s.new) gs × LastIs link_of (Some f) gs) }
    {
        let free = s.has_slot();
        if !free {
            return Err((value, Refused::NoSlot));
        }
        let entry = match LinkedEntry::new(value, s) {
            Ok(entry) => entry,
            Err(back) => return Err(back),
        };
        match append(&self.newest, last, entry, guard, s) {
            Ok(front) => Ok(front),
            Err((entry, refused)) => Err((entry.close(s), refused)),
        }
    }

    /// Puts a clone of a value behind the last entry that isn't deleted, and was found. The value is cloned where an entry would find a place.
    fn append_clone<
        'g,
        S: Items<LinkedEntry<T>>
            + Several<LinkedEntry<T>>
            + Cells<LinkedEntry<T>>
            + LookThrough<LinkedEntry<T>>,
    >(
        &self,
        last: Option<Front<'g, LinkedEntry<T>>>,
        value: &T,
        guard: &'g Guard,
        s: &mut S,
    ) -> Result<Front<'g, LinkedEntry<T>>, (Option<T>, Refused)>
    where
        T: CloneValue,
        requires seated { IsSeated (S.caller s.old) }
        requires home { home_in self.now ≡ (S.caller s.old).home.cells }
        requires last { IfSome last (λ f. cells_home f.link.now ≡ (S.caller s.old).home.cells) }
        requires values { (v : T) → T.is_clone value.now v → AreOf (S.caller s.old).home (T.holds v) }
        requires reader { reader_of guard.now ≡ (S.caller s.old).reader }
        ensures unmoved { Unmoved S.caller S.known S.shows s.old s.new }
        ensures own { KeepsMoreWaiting (S.own s.old) (S.own s.new) }
        ensures front { IfOk result (λ f. cells_home f.link.now ≡ (S.caller s.old).home.cells) }
        ensures back { IfErr result (λ e. (e.1 ≡ Refused.NoMemory) ⊎ (e.1 ≡ Refused.NoSlot) ⊎ IsRefusedBy (S.caller s.old) Refused.NoCell e.1) }
        ensures refused { IsExact (S.caller s.old) → IfErr result (λ e. (S.world s.new ≡ S.world s.old) × (e.0 ≡ None) ×
            RefusesClone T.is_clone T.is_infallible (S.world s.old) value.now e.1) }
        ensures list { IsExact (S.caller s.old) → (es : List (Entry (LinkedEntry T))) → IsStack (S.world s.old) (cell_in self.now) es →
            LastIs link_of last.entry es → IfOk result (λ f. (v : T) × T.is_clone value.now v × (gs : List (Entry (LinkedEntry T))) ×
            AppendsTo (S.world s.old) (S.caller s.old).place (cell_in self.now) es v (S.world s.new) gs × LastIs link_of (Some f) gs) }
    {
        if let Err(refused) = has_room::<LinkedEntry<T>, S>(s) {
            return Err((None, refused));
        }
        let copied = match value.clone_value() {
            Ok(copied) => copied,
            Err(_) => return Err((None, Refused::NoMemory)),
        };
        match self.append(last, copied, guard, s) {
            Ok(front) => Ok(front),
            Err((item, refused)) => Err((Some(item), refused)),
        }
    }

    /// Puts clones of the values that a walk shows into a stack that has no entries, in order. The stack from which it shows them stays as it is.
    fn append_clones<
        'g,
        S: Items<LinkedEntry<T>>
            + Several<LinkedEntry<T>>
            + Cells<LinkedEntry<T>>
            + LookThrough<LinkedEntry<T>>,
    >(&self, walk: Walk<'g, T>, guard: &'g Guard, s: &mut S) -> Result<(), (Option<T>, Refused)>
    where
        T: CloneValue,
        requires seated { IsSeated (S.caller s.old) }
        requires home { home_in self.now ≡ (S.caller s.old).home.cells }
        requires walk { IsWalkOf (S.caller s.old).home.cells walk }
        requires values { (u v : T) → T.is_clone u v → AreOf (S.caller s.old).home (T.holds v) }
        requires reader { reader_of guard.now ≡ (S.caller s.old).reader }
        ensures unmoved { Unmoved S.caller S.known S.shows s.old s.new }
        ensures own { KeepsMoreWaiting (S.own s.old) (S.own s.new) }
        ensures back { IfErr result (λ e. (e.1 ≡ Refused.NoMemory) ⊎ (e.1 ≡ Refused.NoSlot) ⊎ IsRefusedBy (S.caller s.old) Refused.NoCell e.1) }
        ensures list { IsExact (S.caller s.old) → IsStack (S.world s.old) (cell_in self.now) [] → (from : ℕ) (now fs : List (Entry (LinkedEntry T))) →
            StandsBefore (S.world s.old) walk.entry now → AreBeside now (both (cell_in self.now)) [] →
            IsStackBeside (S.world s.old) from fs (cell_in self.now) [] → (first others xs : List T) × (gs : List (Entry (LinkedEntry T))) ×
            (shown_of now ≡ first ++ others) × AllZip T.is_clone first xs ×
            ExtendsStack (S.caller s.old).place (cell_in self.now) (S.world s.old) [] xs (S.world s.new) gs × IsStack (S.world s.new) from fs ×
            MatchResult result (λ _. others ≡ []) (λ e. (e.0 ≡ None) × (u : T) × (us : List T) × (others ≡ u ∷ us) ×
            RefusesClone T.is_clone T.is_infallible (S.world s.new) u e.1) }
    {
        let mut walk = walk;
        let mut last: Option<Front<'g, LinkedEntry<T>>> = None;
        while let Some(value) = walk.next(guard, s) {
            values_fit_slots::<LinkedEntry<T>, S>(s);
            match self.append_clone(last, value, guard, s) {
                Ok(front) => last = Some(front),
                Err(back) => return Err(back),
            }
        }
        Ok(())
    }

    /// Another stack with clones of the values, in order, whose entries are new and have no mark.
    ///
    /// `NotBegun` with `NoCell` where no cell is free. Where a clone finds no place, or is refused memory, `Part` with the stack as it is by then, of the first
    /// values; a value is cloned only where an entry would find a place. `Contended`, in a domain alone, where the clone may come back too.
    pub fn clone<
        S: Items<LinkedEntry<T>>
            + Several<LinkedEntry<T>>
            + Cells<LinkedEntry<T>>
            + LookThrough<LinkedEntry<T>>,
    >(&self, guard: &Guard, s: &mut S) -> Result<Stack<T>, Unfinished<Stack<T>, T>>
    where
        T: CloneValue,
        requires seated { IsSeated (S.caller s.old) }
        requires home { home_in self.now ≡ (S.caller s.old).home.cells }
        requires values { (u v : T) → T.is_clone u v → AreOf (S.caller s.old).home (T.holds v) }
        requires reader { reader_of guard.now ≡ (S.caller s.old).reader }
        ensures unmoved { Unmoved S.caller S.known S.shows s.old s.new }
        ensures own { KeepsMoreWaiting (S.own s.old) (S.own s.new) }
        ensures home { IfSome (stack_of result) (λ stack. home_in stack ≡ (S.caller s.old).home.cells) }
        ensures back { IfErr result (λ u. (why_not u ≡ Refused.NoMemory) ⊎ (why_not u ≡ Refused.NoSlot) ⊎
            IsRefusedBy (S.caller s.old) Refused.NoCell (why_not u)) }
        ensures list { IsExact (S.caller s.old) → (es : List (Entry (LinkedEntry T))) → IsStack (S.world s.old) (cell_in self.now) es →
            StackClones T.is_clone T.is_infallible (S.caller s.old).place (S.world s.old) (cell_in self.now) es result (S.world s.new) }
    {
        let copy = match Stack::new(s) {
            Ok(copy) => copy,
            Err(refused) => return Err(Unfinished::NotBegun(refused)),
        };
        let walk = self.walk(guard, s);
        match copy.append_clones(walk, guard, s) {
            Ok(()) => Ok(copy),
            Err((item, refused)) => Err(Unfinished::Part(copy, item, refused)),
        }
    }

    /// Pops the newest entry that isn't deleted: it is deleted and let go of, with the deleted entries in front of it. None where there is none; deleted
    /// entries are let go of then too.
    ///
    /// `TooManyOwners` where 2^62 own the entry, cells counted: nothing has changed then. `Contended`, in a domain alone.
    pub fn pop<
        S: Items<LinkedEntry<T>>
            + SharedItems<LinkedEntry<T>>
            + Cells<LinkedEntry<T>>
            + LookThrough<LinkedEntry<T>>,
    >(&self, guard: &Guard, s: &mut S) -> Result<Option<Shared<LinkedEntry<T>>>, Refused>
        requires seated { IsSeated (S.caller s.old) }
        requires home { home_in self.now ≡ (S.caller s.old).home.cells }
        requires reader { reader_of guard.now ≡ (S.caller s.old).reader }
        ensures unmoved { Unmoved S.caller S.known S.shows s.old s.new }
        ensures own { KeepsMoreWaiting (S.own s.old) (S.own s.new) }
        ensures owner { IfOk result (IsOfSlots (S.caller s.old).home.slots) }
        ensures back { IfErr result (λ e. (e ≡ Refused.TooManyOwners) ⊎ (e ≡ Refused.Contended)) }
        ensures list { IsExact (S.caller s.old) → (es : List (Entry (LinkedEntry T))) → IsStack (S.world s.old) (cell_in self.now) es →
            Pops link_of (S.world s.old) (S.caller s.old).place (cell_in self.now) no_tag es result (S.world s.new) }
        ensures values { IsExact (S.caller s.old) → (vs : List T) → StackHas (S.world s.old) self.now vs → MatchResult result
            (λ popped. StackHas (S.world s.new) self.now (drop 1 vs) × MatchOption popped (slice_get vs 0 ≡ None)
            (λ owner. (entry : LinkedEntry T) × S.shows s.new (slot_of owner) entry × (slice_get vs 0 ≡ Some (value_of entry))))
            (λ _. S.world s.new ≡ S.world s.old) }
    {
        pop_first(&self.newest, guard, s)
    }

    /// A pointer to the newest entry that isn't deleted, without a tag; null where there is none.
    pub fn peek<'g, S: Items<LinkedEntry<T>> + Cells<LinkedEntry<T>> + LookThrough<LinkedEntry<T>>>(
        &self,
        guard: &'g Guard,
        s: &mut S,
    ) -> Ptr<'g, LinkedEntry<T>>
        requires seated { IsSeated (S.caller s.old) }
        requires home { home_in self.now ≡ (S.caller s.old).home.cells }
        requires reader { reader_of guard.now ≡ (S.caller s.old).reader }
        ensures undisturbed { Undisturbed S.caller S.own S.known S.shows s.old s.new }
        ensures world { IsExact (S.caller s.old) → S.world s.new ≡ S.world s.old }
        ensures shown { PtrIsShown (S.shows s.new) result }
        ensures tag { tag_of result ≡ no_tag }
        ensures list { IsExact (S.caller s.old) → (es : List (Entry (LinkedEntry T))) → IsStack (S.world s.old) (cell_in self.now) es →
            slot_named result ≡ first_slot (left es) }
    {
        first_ptr_in(&self.newest, guard, s)
    }

    /// The values of the entries that aren't deleted, the newest first, while the space is borrowed for that, so that nobody changes the stack meanwhile.
    pub fn iter<'a, S: Items<LinkedEntry<T>> + HeldItems<LinkedEntry<T>>>(
        &self,
        _guard: &'a Guard,
        s: &'a S,
    ) -> Iter<'a, T, S>
        requires home { home_in self.now ≡ (S.caller s.now).home.cells }
        ensures space { space_of result ≡ s.now }
        ensures home { IsIterOf (S.caller s.now).home.slots result }
        ensures list { IsExact (S.caller s.now) → (vs : List T) → StackHas (S.world s.now) self.now vs → GivesInOrder (S.world s.now) result vs }
        ensures items { IsExact (S.caller s.now) → (vs : List T) → StackHas (S.world s.now) self.now vs →
            AlwaysYields (GoesInOrder S.caller S.world) (λ v. v.now) result vs }
        ensures runs { IsExact (S.caller s.now) → (vs : List T) → StackHas (S.world s.now) self.now vs →
            EachRunFrom (GoesInOrder S.caller S.world) result (λ p. ItemsMapTo p (λ v. v.now) vs) }
    {
        iter_in(&self.newest, s)
    }

    /// The values that `iter` gives, without a guard: what a cell holds stays, since nobody changes the space while it is borrowed.
    pub fn iter_unguarded<'a, S: Items<LinkedEntry<T>> + HeldItems<LinkedEntry<T>>>(
        &self,
        s: &'a S,
    ) -> Iter<'a, T, S>
        requires home { home_in self.now ≡ (S.caller s.now).home.cells }
        ensures space { space_of result ≡ s.now }
        ensures home { IsIterOf (S.caller s.now).home.slots result }
        ensures list { IsExact (S.caller s.now) → (vs : List T) → StackHas (S.world s.now) self.now vs → GivesInOrder (S.world s.now) result vs }
    {
        iter_in(&self.newest, s)
    }

    /// A walk along the entries that aren't deleted, the newest first.
    pub fn walk<'g, S: Items<LinkedEntry<T>> + Cells<LinkedEntry<T>> + LookThrough<LinkedEntry<T>>>(
        &self,
        guard: &'g Guard,
        s: &mut S,
    ) -> Walk<'g, T>
        requires seated { IsSeated (S.caller s.old) }
        requires home { home_in self.now ≡ (S.caller s.old).home.cells }
        requires reader { reader_of guard.now ≡ (S.caller s.old).reader }
        ensures undisturbed { Undisturbed S.caller S.own S.known S.shows s.old s.new }
        ensures home { IsWalkOf (S.caller s.old).home.cells result }
        ensures world { IsExact (S.caller s.old) → S.world s.new ≡ S.world s.old }
        ensures list { IsExact (S.caller s.old) → (es : List (Entry (LinkedEntry T))) → IsStack (S.world s.old) (cell_in self.now) es →
            ShowsInOrder (S.world s.new) result (shown_of es) }
        ensures entries { IsExact (S.caller s.old) → (es : List (Entry (LinkedEntry T))) → IsStack (S.world s.old) (cell_in self.now) es →
            StandsBefore (S.world s.new) result (left es) }
    {
        walk_in(&self.newest, guard, s)
    }

    /// How many entries aren't deleted.
    pub fn len<S: Items<LinkedEntry<T>> + Cells<LinkedEntry<T>> + LookThrough<LinkedEntry<T>>>(
        &self,
        guard: &Guard,
        s: &mut S,
    ) -> u64
        requires seated { IsSeated (S.caller s.old) }
        requires home { home_in self.now ≡ (S.caller s.old).home.cells }
        requires reader { reader_of guard.now ≡ (S.caller s.old).reader }
        ensures undisturbed { Undisturbed S.caller S.own S.known S.shows s.old s.new }
        ensures world { IsExact (S.caller s.old) → S.world s.new ≡ S.world s.old }
        ensures list { IsExact (S.caller s.old) → (es : List (Entry (LinkedEntry T))) → IsStack (S.world s.old) (cell_in self.now) es →
            result ≡ length (content es) }
    {
        count(&self.newest, guard, s)
    }

    /// Each entry is deleted.
    pub fn is_empty<S: Items<LinkedEntry<T>> + Cells<LinkedEntry<T>> + LookThrough<LinkedEntry<T>>>(
        &self,
        guard: &Guard,
        s: &mut S,
    ) -> bool
        requires seated { IsSeated (S.caller s.old) }
        requires home { home_in self.now ≡ (S.caller s.old).home.cells }
        requires reader { reader_of guard.now ≡ (S.caller s.old).reader }
        ensures undisturbed { Undisturbed S.caller S.own S.known S.shows s.old s.new }
        ensures world { IsExact (S.caller s.old) → S.world s.new ≡ S.world s.old }
        ensures list { IsExact (S.caller s.old) → (es : List (Entry (LinkedEntry T))) → IsStack (S.world s.old) (cell_in self.now) es →
            IsTrue result ↔ (left es ≡ []) }
    {
        self.peek(guard, s).is_null()
    }

    /// Ends the stack: each entry is deleted and let go of, the newest first, and the stack's cell is free.
    pub fn close<S: Items<LinkedEntry<T>> + Cells<LinkedEntry<T>> + LookThrough<LinkedEntry<T>>>(
        self,
        guard: &Guard,
        s: &mut S,
    )
        requires seated { IsSeated (S.caller s.old) }
        requires home { home_in self ≡ (S.caller s.old).home.cells }
        requires reader { reader_of guard.now ≡ (S.caller s.old).reader }
        ensures unmoved { Unmoved S.caller S.known S.shows s.old s.new }
        ensures own { KeepsMoreWaiting (S.own s.old) (S.own s.new) }
        ensures list { IsExact (S.caller s.old) → (es : List (Entry (LinkedEntry T))) → IsStack (S.world s.old) (cell_in self) es →
            S.world s.new ≡ without_cell (emptied link_of (S.world s.old) (S.caller s.old).place (cell_in self) no_tag es) (cell_in self) }
    {
        let Stack { newest } = self;
        let_go_of_all(&newest, guard, s);
        newest.close(s);
    }

    /// The same as `push`, if the condition holds of the newest entry that isn't deleted, or of none; it is asked first, and once.
    ///
    /// Without a refusal where it failed: the value comes back, and nothing has changed. Else refused as `push` is; `Contended`, in a domain alone, before
    /// the condition was asked too.
    pub fn push_if<
        F: FnMut(Option<&LinkedEntry<T>>) -> bool,
        S: Items<LinkedEntry<T>>
            + Several<LinkedEntry<T>>
            + Cells<LinkedEntry<T>>
            + LookThrough<LinkedEntry<T>>,
    >(
        &self,
        value: T,
        condition: F,
        guard: &Guard,
        s: &mut S,
    ) -> Result<Shared<LinkedEntry<T>>, (T, Option<Refused>)>
        requires seated { IsSeated (S.caller s.old) }
        requires home { home_in self.now ≡ (S.caller s.old).home.cells }
        requires value { AreOf (S.caller s.old).home (T.holds value) }
        requires callable { F.IsAlwaysCallable condition }
        requires reader { reader_of guard.now ≡ (S.caller s.old).reader }
        ensures unmoved { Unmoved S.caller S.known S.shows s.old s.new }
        ensures own { KeepsMoreWaiting (S.own s.old) (S.own s.new) }
        ensures owner { IfOk result (λ owner. slots_home owner ≡ (S.caller s.old).home.slots) }
        ensures back { IfErr result (λ e. (e.0 ≡ value) ×
            IfSome e.1 (λ why. (why ≡ Refused.NoSlot) ⊎ (why ≡ Refused.NoCell) ⊎ (why ≡ Refused.Contended))) }
        ensures asked { IsExact (S.caller s.old) → (es : List (Entry (LinkedEntry T))) → IsStack (S.world s.old) (cell_in self.now) es →
            (shown : _) × (option_copied shown ≡ first_value (left es)) × F.post condition shown (was_held result) }
        ensures refused { IsExact (S.caller s.old) → (es : List (Entry (LinkedEntry T))) → IsStack (S.world s.old) (cell_in self.now) es →
            IfErr result (λ e. (S.world s.new ≡ S.world s.old) × IfSome e.1 (λ why. IsFull (S.world s.old).standings × (why ≡ Refused.NoSlot) ⊎
            ¬ (IsFull (S.world s.old).standings) × IsFull (S.world s.old).cells × (why ≡ Refused.NoCell))) }
        ensures list { IsExact (S.caller s.old) → (es : List (Entry (LinkedEntry T))) → IsStack (S.world s.old) (cell_in self.now) es →
            IfOk result (λ owner. PushesOnto (S.world s.old) (S.caller s.old).place (cell_in self.now) es value owner (S.world s.new)) }
    {
        let shown = match first_value_in(&self.newest, guard, s) {
            Ok(shown) => shown,
            Err(refused) => {
                drop(condition);
                return Err((value, Some(refused)));
            }
        };
        let holds = asks_of_any(condition, shown);
        if !holds {
            return Err((value, None));
        }
        match self.push(value, guard, s) {
            Ok(owner) => Ok(owner),
            Err((value, refused)) => Err((value, Some(refused))),
        }
    }

    /// The same as `pop`, if the condition holds of the newest entry that isn't deleted; where there is none it isn't asked.
    ///
    /// `Kept` where it failed, with one owner more of that entry: nothing is let go of. Else refused as `pop` is; where the condition failed too, with
    /// `TooManyOwners`, as 2^62 own the entry.
    pub fn pop_if<
        F: FnMut(&LinkedEntry<T>) -> bool,
        S: Items<LinkedEntry<T>>
            + SharedItems<LinkedEntry<T>>
            + Cells<LinkedEntry<T>>
            + LookThrough<LinkedEntry<T>>,
    >(
        &self,
        condition: F,
        guard: &Guard,
        s: &mut S,
    ) -> Result<Option<Shared<LinkedEntry<T>>>, Unpopped<T>>
        requires seated { IsSeated (S.caller s.old) }
        requires home { home_in self.now ≡ (S.caller s.old).home.cells }
        requires callable { F.IsAlwaysCallable condition }
        requires reader { reader_of guard.now ≡ (S.caller s.old).reader }
        ensures unmoved { Unmoved S.caller S.known S.shows s.old s.new }
        ensures own { KeepsMoreWaiting (S.own s.old) (S.own s.new) }
        ensures owner { MatchResult result (IsOfSlots (S.caller s.old).home.slots) (λ e. IsOfSlots (S.caller s.old).home.slots (kept_by e)) }
        ensures list { IsExact (S.caller s.old) → (es : List (Entry (LinkedEntry T))) → IsStack (S.world s.old) (cell_in self.now) es →
            PopsIf (λ value held. (shown : Bor (LinkedEntry T)) × (shown.now ≡ value) × F.post condition shown held)
            (S.world s.old) (S.caller s.old).place (cell_in self.now) es result (S.world s.new) }
    {
        match find_first(&self.newest, guard, s) {
            Ok(Some(front)) => {
                let holds = asks(condition, front.entry);
                self.pop_asked(holds, front, guard, s)
            }
            Ok(None) => {
                drop(condition);
                match trim(&self.newest, guard, s) {
                    Ok(_) => Ok(None),
                    Err(refused) => Err(Unpopped::Refused(refused)),
                }
            }
            Err(refused) => {
                drop(condition);
                Err(Unpopped::Refused(refused))
            }
        }
    }

    /// Pops the newest entry that isn't deleted, and was found, where the condition held of it; else there is one owner more of it.
    fn pop_asked<
        S: Items<LinkedEntry<T>>
            + SharedItems<LinkedEntry<T>>
            + Cells<LinkedEntry<T>>
            + LookThrough<LinkedEntry<T>>,
    >(
        &self,
        holds: bool,
        front: Front<'_, LinkedEntry<T>>,
        guard: &Guard,
        s: &mut S,
    ) -> Result<Option<Shared<LinkedEntry<T>>>, Unpopped<T>>
        requires seated { IsSeated (S.caller s.old) }
        requires home { home_in self.now ≡ (S.caller s.old).home.cells }
        requires reader { reader_of guard.now ≡ (S.caller s.old).reader }
        requires link { cells_home front.link.now ≡ (S.caller s.old).home.cells }
        requires shown { PtrIsShown (S.shows s.old) front.ptr }
        ensures unmoved { Unmoved S.caller S.known S.shows s.old s.new }
        ensures own { KeepsMoreWaiting (S.own s.old) (S.own s.new) }
        ensures owner { MatchResult result (IsOfSlots (S.caller s.old).home.slots) (λ e. IsOfSlots (S.caller s.old).home.slots (kept_by e)) }
        ensures list { IsExact (S.caller s.old) → (es : List (Entry (LinkedEntry T))) → IsStack (S.world s.old) (cell_in self.now) es →
            (e : Entry (LinkedEntry T)) (rest : List (Entry (LinkedEntry T))) → left es ≡ e ∷ rest → slot_named front.entry.ptr ≡ Some e.slot →
            cell_of front.entry.link.now ≡ link_of e.value → ((n : ℕ) × IsSharedBy n (standing_at (S.world s.old) e.slot)) →
            PopsIf (λ value held. (value ≡ e.value) × (held ≡ holds)) (S.world s.old) (S.caller s.old).place (cell_in self.now) es result (S.world s.new) }
    {
        if holds {
            match take_first(&self.newest, front, guard, s) {
                Ok(owner) => Ok(Some(owner)),
                Err(refused) => Err(Unpopped::Refused(refused)),
            }
        } else {
            match keep_first(front, s) {
                Ok(owner) => Err(Unpopped::Kept(owner)),
                Err(refused) => Err(Unpopped::Refused(refused)),
            }
        }
    }

    /// Another stack with all the entries, deleted ones too. None is let go of, and this one is empty then.
    ///
    /// `NoCell` where no cell is free; `Contended`, in a domain alone, where as many exchanges were lost as its limits allow.
    pub fn pop_all<S: Items<LinkedEntry<T>> + Cells<LinkedEntry<T>>>(
        &self,
        _guard: &Guard,
        s: &mut S,
    ) -> Result<Stack<T>, Refused>
        requires seated { IsSeated (S.caller s.old) }
        requires home { home_in self.now ≡ (S.caller s.old).home.cells }
        ensures unmoved { Unmoved S.caller S.known S.shows s.old s.new }
        ensures own { KeepsMoreWaiting (S.own s.old) (S.own s.new) }
        ensures home { IfOk result (λ stack. home_in stack ≡ (S.caller s.old).home.cells) }
        ensures back { IfErr result (IsRefusedBy (S.caller s.old) Refused.NoCell) }
        ensures refused { IsExact (S.caller s.old) →
            IfErr result (λ e. IsFull (S.world s.old).cells × (e ≡ Refused.NoCell) × (S.world s.new ≡ S.world s.old)) }
        ensures list { IsExact (S.caller s.old) → (es : List (Entry (LinkedEntry T))) → IsStack (S.world s.old) (cell_in self.now) es →
            IfOk result (λ all. IsEmptyAt (S.world s.old).cells (cell_in all) × IsStack (S.world s.new) (cell_in self.now) [] ×
            IsStack (S.world s.new) (cell_in all) es ×
            (S.world s.new ≡ poured (S.world s.old) (cell_in self.now) (cell_in all) es)) }
    {
        let newest = match AtomicShared::null(s) {
            Ok(newest) => newest,
            Err(refused) => return Err(refused),
        };
        let (first, _) = self.newest.swap((None, Tag::None), s);
        let (nothing, _) = newest.swap((first, Tag::None), s);
        give_up(nothing, s);
        Ok(Stack { newest })
    }

    /// What the reader makes of the newest entry that isn't deleted, or of none.
    pub fn peek_with<
        R,
        F: FnOnce(Option<&LinkedEntry<T>>) -> R,
        S: Items<LinkedEntry<T>> + Cells<LinkedEntry<T>> + LookThrough<LinkedEntry<T>>,
    >(&self, reader: F, guard: &Guard, s: &mut S) -> R
        requires seated { IsSeated (S.caller s.old) }
        requires home { home_in self.now ≡ (S.caller s.old).home.cells }
        requires callable { F.IsAlwaysCallable reader }
        requires reader_of_guard { reader_of guard.now ≡ (S.caller s.old).reader }
        ensures undisturbed { Undisturbed S.caller S.own S.known S.shows s.old s.new }
        ensures world { IsExact (S.caller s.old) → S.world s.new ≡ S.world s.old }
        ensures list { IsExact (S.caller s.old) → (es : List (Entry (LinkedEntry T))) → IsStack (S.world s.old) (cell_in self.now) es →
            (shown : _) × (option_copied shown ≡ first_value (left es)) × F.post reader shown result }
    {
        let shown = shown_in(&self.newest, guard, s);
        reader(shown)
    }
}
