//! The bag.
ghost use Rattle.std.specs.Prelude.{◌≡◌, ◌≢◌, ◌↔◌, ◌⊎◌, ◌+◌, ◌^◌, ◌<◌, ◌≤◌, ◌++◌, ℕ, All, IfErr, IfOk, IfSome, IsTrue, List, MatchOption, MatchResult, None, Some, [], drop, is_some, length, map};
ghost use Rattle.sdd_bag.specs.KeyedPlaces.{PlaceName};
ghost use Rattle.sdd_bag.specs.Storages.{StorageName};
ghost use Rattle.sdd_bag.specs.Storage.{AreEmpty, AreFull, IsEmptyAt, IsFullWith, empty_place, names_of, value_at, with_value_at};
ghost use Rattle.sdd_bag.specs.Values.{AreInSomeOrder, HasOneMore};
ghost use Rattle.sdd_space.specs.CallerId.{IsSeated, IsExact};
ghost use Rattle.sdd_space.specs.Guard.{reader_of};
ghost use Rattle.sdd_world_model.specs.ParticipantChanges.{KeepsMoreWaiting};
ghost use Rattle.sdd_space.specs.Refusals.{IsRefusedBy};
ghost use Rattle.sdd_space.specs.Undisturbed.{Undisturbed, Unmoved};
ghost use Rattle.sdd_lists.specs.declared.linked_entry.LinkedEntry.{LinkedEntry as Linked};
ghost use Rattle.sdd_lists.specs.declared.stack.Stack.{Stack as Storages};
ghost use Rattle.sdd_lists.specs.Lists.{Entry};
ghost use Rattle.sdd_lists.specs.Iter.{GivesInOrder, IsIterOf, space_of};
ghost use Rattle.sdd_lists.specs.Walk.{shown_of};
ghost use Rattle.sdd_bag.specs.Lent.{AreEmptyFrom, AwaitsValue, TakesOut};
ghost use Rattle.sdd_bag.specs.Spots.{HasFirst, IsInOrder, StandsIn, places_of, start_of, whole_at, with_places};
ghost use Rattle.sdd_lists.specs.Stack.{IsStack, cell_in, home_in};
ghost use Rattle.sdd_participants.specs.EpochState.{due_at};
ghost use Rattle.sdd_world_model.specs.OwnerOrCell.{AreOf, OwnerOrCell};
ghost use Rattle.sdd_bag.specs.Closing.{AreBeside, ClosesBag, EmptiesStorages};
ghost use Rattle.sdd_bag.specs.Counting.{HasStoragesFor};
ghost use Rattle.sdd_bag.specs.Changing.{ChangesEach};
ghost use Rattle.sdd_bag.specs.Folding.{Folds, FoldsOn};
ghost use Rattle.sdd_bag.specs.Overflow.{AddsStorage, KeepsPlaces, Lies, LiesOn, MayEmpty, OverflowParts, RefusesStorage, RemovesStorage, RemovesStorages};
ghost use Rattle.sdd_participants.specs.Slab.{IsEmptyAt as IsEmptyCell};
ghost use Rattle.sdd_lists.specs.Queue.{HasOneAtMost};
ghost use Rattle.sdd_space.specs.Shared.{cell_of, cells_home};
ghost use Rattle.sdd_world_model.specs.World.{World};
ghost use Rattle.sdd_world_model.specs.WorldChanges.{closed, nulled, opened};
ghost use Rattle.sdd_lists.specs.Filling.{AddsOnto, RefusesPush};
ghost use Rattle.sdd_bag.specs.Bag.{BagParts, HasSameCells, HasStorageMore, PopsBehind, PopsInside, PushesBehind, PushesInside, IsBag, IsOfCells, KeepsStorages, overflow_of, primary_of, values_of};

use crate::behind::{Behind, storage_on};
use crate::front::first_storage;
use crate::giving::give_up;
use crate::primary::Primary;
use crate::shelf::Shelf;
use crate::storage::Storage;
use crate::storage_keys::StorageKeys;
use sdd_core::Refused;
use sdd_lists::iter::Iter;
use sdd_lists::{LinkedEntry, Stack};
use sdd_space::inner::{cell_with, right_of_cell};
use sdd_space::{
    AtomicShared, Cells, Guard, HeldItems, Item, Items, LookThrough, RawCells, Several, SharedItems,
};
use std::marker::Model;

/// Values, of which at most `ARRAY_LEN` lie in the bag itself, and the others in storages, each an item of a space, on the entries of a stack.
///
/// It has the keys of the places of all its storages. It can't be dropped, since it has cells and items of the space: `close` ends it.
pub struct Bag<T, const ARRAY_LEN: usize, B> {
    primary: Primary<T, ARRAY_LEN>,
    stack: Stack<B>,
    keys: StorageKeys<T, ARRAY_LEN>,
}

impl<T, const ARRAY_LEN: usize, B> Model for Bag<T, ARRAY_LEN, B> {
    ghost use Rattle.std.specs.Prelude.{◌<◌, ◌≤◌};
    ghost use Rattle.sdd_bag.specs.Bag.{BagParts};

    ghost Value = { BagParts T B };

    ghost view = { λ b. record { primary = b.primary; overflow = record { stack = b.stack; places = b.keys } } };

    ghost invariant = { λ _. (0 < ARRAY_LEN) × (ARRAY_LEN ≤ 32) };
}

impl<T, const ARRAY_LEN: usize, B: Shelf<T, ARRAY_LEN>> Bag<T, ARRAY_LEN, B> {
    /// Puts a value into the first storage. If there is none, or it is full, the value comes back.
    fn push_front<S: Items<LinkedEntry<B>> + Cells<LinkedEntry<B>> + LookThrough<LinkedEntry<B>>>(
        &mut self,
        value: T,
        guard: &Guard,
        s: &mut S,
    ) -> Result<(), T>
        requires seated { IsSeated (S.caller s.old) }
        requires home { home_in self.old.overflow.stack ≡ (S.caller s.old).home.cells }
        requires reader { reader_of guard.now ≡ (S.caller s.old).reader }
        requires exact { IsExact (S.caller s.old) }
        requires lies { Lies B.shown ARRAY_LEN (S.world s.old) self.old.overflow }
        ensures undisturbed { Undisturbed S.caller S.own S.known S.shows s.old s.new }
        ensures world { S.world s.new ≡ S.world s.old }
        ensures keeps { KeepsStorages self.old self.new }
        ensures pushed { MatchResult result
            (λ _. ((at : ℕ) × (at < ARRAY_LEN) × IsEmptyAt at self.old.overflow.places ×
            (self.new.overflow.places ≡ with_value_at self.old.overflow.places at (Some value))) ×
            HasOneMore value (overflow_of self.old) (overflow_of self.new))
            (λ back. (back ≡ value) × AreFull ARRAY_LEN self.old.overflow.places × (self.new ≡ self.old)) }
    {
        match first_storage(&self.stack, guard, s) {
            Some(storage) => self.keys.push(storage.places(), value),
            None => Err(value),
        }
    }

    /// Takes a value out of the first storage, if there is one that has a value.
    fn pop_front<S: Items<LinkedEntry<B>> + Cells<LinkedEntry<B>> + LookThrough<LinkedEntry<B>>>(
        &mut self,
        guard: &Guard,
        s: &mut S,
    ) -> Option<T>
        requires seated { IsSeated (S.caller s.old) }
        requires home { home_in self.old.overflow.stack ≡ (S.caller s.old).home.cells }
        requires reader { reader_of guard.now ≡ (S.caller s.old).reader }
        requires exact { IsExact (S.caller s.old) }
        requires lies { Lies B.shown ARRAY_LEN (S.world s.old) self.old.overflow }
        ensures undisturbed { Undisturbed S.caller S.own S.known S.shows s.old s.new }
        ensures world { S.world s.new ≡ S.world s.old }
        ensures keeps { KeepsStorages self.old self.new }
        ensures popped { MatchOption result
            (AreEmpty ARRAY_LEN self.old.overflow.places × (self.new ≡ self.old))
            (λ value. ((at : ℕ) × (at < ARRAY_LEN) × IsFullWith value at self.old.overflow.places ×
            (self.new.overflow.places ≡ with_value_at self.old.overflow.places at None)) ×
            HasOneMore value (overflow_of self.new) (overflow_of self.old)) }
    {
        if self.is_front_empty() {
            return None;
        }
        match first_storage(&self.stack, guard, s) {
            Some(storage) => self.keys.pop(storage.places()),
            None => None,
        }
    }

    /// No place of the first storage has a value, or there is no storage.
    fn is_front_empty(&self) -> bool
        ensures { IsTrue result ↔ AreEmpty ARRAY_LEN self.now.overflow.places }
    {
        self.keys.is_front_empty()
    }

    /// A storage without values, with this cell, on a new entry in front of the others. Where the entry finds no place the cell comes back.
    fn push_storage<
        S: Items<LinkedEntry<B>>
            + Several<LinkedEntry<B>>
            + Cells<LinkedEntry<B>>
            + LookThrough<LinkedEntry<B>>,
    >(
        &mut self,
        cell: AtomicShared<LinkedEntry<B>>,
        guard: &Guard,
        s: &mut S,
    ) -> Result<(), (AtomicShared<LinkedEntry<B>>, Refused)>
        requires seated { IsSeated (S.caller s.old) }
        requires home { home_in self.old.overflow.stack ≡ (S.caller s.old).home.cells }
        requires cell { cells_home cell ≡ (S.caller s.old).home.cells }
        requires reader { reader_of guard.now ≡ (S.caller s.old).reader }
        requires exact { IsExact (S.caller s.old) }
        requires lies { Lies B.shown ARRAY_LEN (S.world s.old) self.old.overflow }
        requires full { AreFull ARRAY_LEN self.old.overflow.places }
        requires few { length self.old.overflow.places < 2 ^ 80 }
        ensures unmoved { Unmoved S.caller S.known S.shows s.old s.new }
        ensures own { KeepsMoreWaiting (S.own s.old) (S.own s.new) }
        ensures same { IfErr result (λ _. self.new ≡ self.old) }
        ensures back { IfErr result (λ e. (cell_of e.0 ≡ cell_of cell) × (cells_home e.0 ≡ cells_home cell)) }
        ensures refused { IfErr result (λ e. (S.world s.new ≡ S.world s.old) × RefusesPush (S.world s.old) e.1) }
        ensures pushed { IfOk result (λ _. HasStorageMore ARRAY_LEN self.old self.new) }
        ensures list { (es : List (Entry (Linked B))) → LiesOn B.shown ARRAY_LEN (S.world s.old) es self.old.overflow → IfOk result (λ _.
            (shelf : B) × (storage : StorageName) × (B.shown shelf ≡ Some storage) × (storage.cell ≡ cell_of cell) × (storage.home ≡ cells_home cell) ×
            (fs : List (Entry (Linked B))) ×
            AddsOnto (S.world s.old) (S.caller s.old).place (cell_in self.old.overflow.stack) es shelf (S.world s.new) fs ×
            LiesOn B.shown ARRAY_LEN (S.world s.new) fs self.new.overflow) }
    {
        let places = self.keys.add_places();
        let storage = Storage::new(places, right_of_cell(cell));
        match self.stack.push(B::with_storage(storage), guard, s) {
            Ok(owner) => {
                let _ = owner.release(s);
                Ok(())
            }
            Err((shelf, refused)) => {
                self.keys.remove_places();
                match shelf.into_storage() {
                    Ok(storage) => Err((cell_with(storage.into_cell()), refused)),
                    Err(_) => unreachable!(),
                }
            }
        }
    }

    /// A storage without values in front of the others.
    ///
    /// `NoSlot` where no slot is free, else `NoCell` where no two cells are.
    fn add_storage<
        S: Items<LinkedEntry<B>>
            + Several<LinkedEntry<B>>
            + Cells<LinkedEntry<B>>
            + LookThrough<LinkedEntry<B>>,
    >(&mut self, guard: &Guard, s: &mut S) -> Result<(), Refused>
        requires seated { IsSeated (S.caller s.old) }
        requires home { home_in self.old.overflow.stack ≡ (S.caller s.old).home.cells }
        requires reader { reader_of guard.now ≡ (S.caller s.old).reader }
        requires exact { IsExact (S.caller s.old) }
        requires lies { Lies B.shown ARRAY_LEN (S.world s.old) self.old.overflow }
        requires full { AreFull ARRAY_LEN self.old.overflow.places }
        ensures unmoved { Unmoved S.caller S.known S.shows s.old s.new }
        ensures own { KeepsMoreWaiting (S.own s.old) (S.own s.new) }
        ensures same { IfErr result (λ _. self.new ≡ self.old) }
        ensures refused { IfErr result (λ why. (S.world s.new ≡ S.world s.old) × RefusesStorage (S.world s.old) why) }
        ensures added { IfOk result (λ _. HasStorageMore ARRAY_LEN self.old self.new) }
        ensures list { (es : List (Entry (Linked B))) → LiesOn B.shown ARRAY_LEN (S.world s.old) es self.old.overflow → IfOk result (λ _.
            (fs : List (Entry (Linked B))) ×
            AddsStorage B.shown (S.world s.old) (S.caller s.old).place self.old.overflow.stack es (S.world s.new) fs ×
            LiesOn B.shown ARRAY_LEN (S.world s.new) fs self.new.overflow) }
    {
        // Once a field is looked at, what is always so of a bag is known: an array has 1 to 32 places.
        let _ = &self.primary;
        s.values_fit_slots();
        let _ = s.slots();
        let free = s.has_slot();
        if !free {
            return Err(Refused::NoSlot);
        }
        let cell = match AtomicShared::null(s) {
            Ok(cell) => cell,
            Err(refused) => return Err(refused),
        };
        match self.push_storage(cell, guard, s) {
            Ok(()) => Ok(()),
            Err((cell, refused)) => {
                cell.close(s);
                Err(refused)
            }
        }
    }

    /// Puts a value into the first of the other storages that has room, or into one more.
    fn push_behind<
        S: Items<LinkedEntry<B>>
            + Several<LinkedEntry<B>>
            + Cells<LinkedEntry<B>>
            + LookThrough<LinkedEntry<B>>,
    >(&mut self, value: T, guard: &Guard, s: &mut S) -> Result<(), (T, Refused)>
        requires seated { IsSeated (S.caller s.old) }
        requires home { home_in self.old.overflow.stack ≡ (S.caller s.old).home.cells }
        requires reader { reader_of guard.now ≡ (S.caller s.old).reader }
        requires exact { IsExact (S.caller s.old) }
        requires lies { Lies B.shown ARRAY_LEN (S.world s.old) self.old.overflow }
        ensures unmoved { Unmoved S.caller S.known S.shows s.old s.new }
        ensures own { KeepsMoreWaiting (S.own s.old) (S.own s.new) }
        ensures primary { self.new.primary ≡ self.old.primary }
        ensures stack { self.new.overflow.stack ≡ self.old.overflow.stack }
        ensures pushed { MatchResult result
            (λ _. HasOneMore value (overflow_of self.old) (overflow_of self.new) × ¬ (AreEmpty ARRAY_LEN self.new.overflow.places))
            (λ e. (e.0 ≡ value) × (self.new ≡ self.old) × (S.world s.new ≡ S.world s.old) × RefusesStorage (S.world s.old) e.1 ×
            AreFull ARRAY_LEN self.old.overflow.places) }
        ensures list { (es : List (Entry (Linked B))) → LiesOn B.shown ARRAY_LEN (S.world s.old) es self.old.overflow → IfOk result (λ _.
            (fs : List (Entry (Linked B))) × LiesOn B.shown ARRAY_LEN (S.world s.new) fs self.new.overflow ×
            ((S.world s.new ≡ S.world s.old) ⊎ AreFull ARRAY_LEN self.old.overflow.places ×
            AddsStorage B.shown (S.world s.old) (S.caller s.old).place self.old.overflow.stack es (S.world s.new) fs)) }
    {
        // Once a field is looked at, what is always so of a bag is known: an array has 1 to 32 places.
        let _ = &self.primary;
        let value = match self.push_front(value, guard, s) {
            Ok(()) => return Ok(()),
            Err(value) => value,
        };
        match self.add_storage(guard, s) {
            Ok(()) => {}
            Err(refused) => return Err((value, refused)),
        }
        match self.push_front(value, guard, s) {
            Ok(()) => Ok(()),
            Err(_) => unreachable!(),
        }
    }

    /// The first of the other storages, whose places have no values, is let go of, and its item retired.
    fn remove_storage<
        S: Items<LinkedEntry<B>>
            + SharedItems<LinkedEntry<B>>
            + Cells<LinkedEntry<B>>
            + LookThrough<LinkedEntry<B>>,
    >(&mut self, guard: &Guard, s: &mut S)
        requires seated { IsSeated (S.caller s.old) }
        requires home { home_in self.old.overflow.stack ≡ (S.caller s.old).home.cells }
        requires reader { reader_of guard.now ≡ (S.caller s.old).reader }
        requires exact { IsExact (S.caller s.old) }
        requires lies { Lies B.shown ARRAY_LEN (S.world s.old) self.old.overflow }
        requires some { 0 < length self.old.overflow.places }
        requires empty { AreEmpty ARRAY_LEN self.old.overflow.places }
        ensures unmoved { Unmoved S.caller S.known S.shows s.old s.new }
        ensures own { KeepsMoreWaiting (S.own s.old) (S.own s.new) }
        ensures cells { HasSameCells self.old self.new }
        ensures primary { self.new.primary ≡ self.old.primary }
        ensures places { self.new.overflow.places ≡ drop ARRAY_LEN self.old.overflow.places }
        ensures full { AreFull ARRAY_LEN self.new.overflow.places }
        ensures list { (es : List (Entry (Linked B))) → LiesOn B.shown ARRAY_LEN (S.world s.old) es self.old.overflow → (fs : List (Entry (Linked B))) ×
            RemovesStorage (S.world s.old) (S.caller s.old).place (cell_in self.old.overflow.stack) es (S.world s.new) fs ×
            LiesOn B.shown ARRAY_LEN (S.world s.new) fs self.new.overflow }
    {
        let owner = match self.stack.pop(guard, s) {
            Ok(Some(owner)) => owner,
            Ok(None) => unreachable!(),
            Err(_) => unreachable!(),
        };
        let _ = owner.release(s);
        self.keys.remove_places();
    }

    /// Takes a value out of the first of the other storages, if there is one. A storage whose last value it was is let go of.
    fn pop_behind<
        S: Items<LinkedEntry<B>>
            + SharedItems<LinkedEntry<B>>
            + Cells<LinkedEntry<B>>
            + LookThrough<LinkedEntry<B>>,
    >(&mut self, guard: &Guard, s: &mut S) -> Option<T>
        requires seated { IsSeated (S.caller s.old) }
        requires home { home_in self.old.overflow.stack ≡ (S.caller s.old).home.cells }
        requires reader { reader_of guard.now ≡ (S.caller s.old).reader }
        requires exact { IsExact (S.caller s.old) }
        requires lies { Lies B.shown ARRAY_LEN (S.world s.old) self.old.overflow }
        ensures unmoved { Unmoved S.caller S.known S.shows s.old s.new }
        ensures own { KeepsMoreWaiting (S.own s.old) (S.own s.new) }
        ensures cells { HasSameCells self.old self.new }
        ensures popped { MatchOption result
            (AreEmpty ARRAY_LEN self.old.overflow.places × (self.new ≡ self.old) × (S.world s.new ≡ S.world s.old))
            (λ value. PopsBehind value self.old self.new) }
        ensures list { (es : List (Entry (Linked B))) → LiesOn B.shown ARRAY_LEN (S.world s.old) es self.old.overflow → IfSome result (λ _.
            (fs : List (Entry (Linked B))) × LiesOn B.shown ARRAY_LEN (S.world s.new) fs self.new.overflow ×
            (AreEmpty ARRAY_LEN self.new.overflow.places → fs ≡ []) ×
            ((S.world s.new ≡ S.world s.old) × (fs ≡ es) ⊎ (self.new.overflow.places ≡ drop ARRAY_LEN self.old.overflow.places) ×
            RemovesStorage (S.world s.old) (S.caller s.old).place (cell_in self.old.overflow.stack) es (S.world s.new) fs)) }
    {
        let value = match self.pop_front(guard, s) {
            Some(value) => value,
            None => return None,
        };
        let empty = self.is_front_empty();
        if !empty {
            return Some(value);
        }
        self.remove_storage(guard, s);
        Some(value)
    }

    /// Takes all values out of the first storage, if there is one, and folds them. What is made comes back, with `fold` as it is then.
    fn fold_front<
        R,
        F: FnMut(R, T) -> R,
        S: Items<LinkedEntry<B>> + Cells<LinkedEntry<B>> + LookThrough<LinkedEntry<B>>,
    >(&mut self, init: R, fold: F, guard: &Guard, s: &mut S) -> (R, F)
        requires seated { IsSeated (S.caller s.old) }
        requires home { home_in self.old.overflow.stack ≡ (S.caller s.old).home.cells }
        requires reader { reader_of guard.now ≡ (S.caller s.old).reader }
        requires exact { IsExact (S.caller s.old) }
        requires lies { Lies B.shown ARRAY_LEN (S.world s.old) self.old.overflow }
        requires callable { F.IsAlwaysCallable fold }
        ensures undisturbed { Undisturbed S.caller S.own S.known S.shows s.old s.new }
        ensures world { S.world s.new ≡ S.world s.old }
        ensures callable { F.IsAlwaysCallable result.1 }
        ensures keeps { KeepsStorages self.old self.new }
        ensures empty { AreEmpty ARRAY_LEN self.new.overflow.places }
        ensures behind { (k : ℕ) → ARRAY_LEN ≤ k → value_at self.new.overflow.places k ≡ value_at self.old.overflow.places k }
        ensures folded { FoldsOn F.step fold init (overflow_of self.old) result.1 result.0 (overflow_of self.new) }
    {
        match first_storage(&self.stack, guard, s) {
            Some(storage) => self.keys.fold_front(storage.places(), init, fold),
            None => (init, fold),
        }
    }

    /// Takes out all values that lie in the bag itself, and folds them. What is made comes back, with `fold` as it is then.
    fn fold_inside<R, F: FnMut(R, T) -> R>(&mut self, init: R, fold: F) -> (R, F)
        requires callable { F.IsAlwaysCallable fold }
        ensures callable { F.IsAlwaysCallable result.1 }
        ensures overflow { self.new.overflow ≡ self.old.overflow }
        ensures storage { self.new.primary.storage ≡ self.old.primary.storage }
        ensures empty { primary_of self.new ≡ [] }
        ensures folded { FoldsOn F.step fold init (primary_of self.old) result.1 result.0 [] }
    {
        self.primary.fold_all(init, fold)
    }

    /// Takes all values out of the first storage, which has one, folds them, and lets go of the storage. What is made comes back, with `fold` as it is then.
    fn fold_storage<
        R,
        F: FnMut(R, T) -> R,
        S: Items<LinkedEntry<B>>
            + SharedItems<LinkedEntry<B>>
            + Cells<LinkedEntry<B>>
            + LookThrough<LinkedEntry<B>>,
    >(&mut self, init: R, fold: F, guard: &Guard, s: &mut S) -> (R, F)
        requires may { MayEmpty B.shown ARRAY_LEN (S.caller s.old) (S.world s.old) (reader_of guard.now) self.old.overflow }
        requires callable { F.IsAlwaysCallable fold }
        ensures unmoved { Unmoved S.caller S.known S.shows s.old s.new }
        ensures own { KeepsMoreWaiting (S.own s.old) (S.own s.new) }
        ensures callable { F.IsAlwaysCallable result.1 }
        ensures cells { HasSameCells self.old self.new }
        ensures primary { self.new.primary ≡ self.old.primary }
        ensures full { AreFull ARRAY_LEN self.new.overflow.places }
        ensures fewer { length self.new.overflow.places < length self.old.overflow.places }
        ensures folded { FoldsOn F.step fold init (overflow_of self.old) result.1 result.0 (overflow_of self.new) }
        ensures list { (es : List (Entry (Linked B))) → LiesOn B.shown ARRAY_LEN (S.world s.old) es self.old.overflow → (fs : List (Entry (Linked B))) ×
            RemovesStorage (S.world s.old) (S.caller s.old).place (cell_in self.old.overflow.stack) es (S.world s.new) fs ×
            LiesOn B.shown ARRAY_LEN (S.world s.new) fs self.new.overflow }
    {
        let done = self.fold_front(init, fold, guard, s);
        self.remove_storage(guard, s);
        done
    }

    /// Lends all values that lie in the bag itself to be changed, one after another. `change` comes back as it is then.
    pub(crate) fn lend_inside<F: FnMut(&mut T)>(&mut self, change: F) -> F
        requires callable { F.IsAlwaysCallable change }
        ensures callable { F.IsAlwaysCallable result }
        ensures overflow { self.new.overflow ≡ self.old.overflow }
        ensures storage { self.new.primary.storage ≡ self.old.primary.storage }
        ensures changed { ChangesEach F.FnMut change (primary_of self.old) (primary_of self.new) result }
    {
        self.primary.lend_all(change)
    }

    /// Lends all values of the other storages to be changed, one after another. `change` comes back as it is then.
    pub(crate) fn lend_behind<
        F: FnMut(&mut T),
        S: Items<LinkedEntry<B>> + HeldItems<LinkedEntry<B>>,
    >(&mut self, change: F, s: &S) -> F
        requires home { home_in self.old.overflow.stack ≡ (S.caller s.now).home.cells }
        requires exact { IsExact (S.caller s.now) }
        requires lies { Lies B.shown ARRAY_LEN (S.world s.now) self.old.overflow }
        requires callable { F.IsAlwaysCallable change }
        ensures keeps { KeepsStorages self.old self.new }
        ensures same { (k : ℕ) → is_some (value_at self.new.overflow.places k) ≡ is_some (value_at self.old.overflow.places k) }
        ensures changed { ChangesEach F.FnMut change (overflow_of self.old) (overflow_of self.new) result }
    {
        let mut change = change;
        let mut start = 0u128;
        let mut storages = self.stack.iter_unguarded(s);
        while let Some(shelf) = storages.next() {
            let Some(storage) = shelf.storage() else {
                unreachable!()
            };
            change = self.keys.lend_array(start, storage.places(), change);
            start += ARRAY_LEN as u128;
        }
        change
    }

    /// Takes the value of a place out, if it has one, to be lent. It is a place of the storage where a cursor is. What is in the last full place of the first
    /// storage lies there meanwhile; which place that is comes with the value.
    pub(crate) fn take_at(
        &mut self,
        behind: &Option<Behind<'_, B>>,
        at: usize,
    ) -> Option<(T, usize)>
        requires stands { StandsIn B.shown ARRAY_LEN behind.now self.old }
        requires first { HasFirst ARRAY_LEN behind.now self.old }
        ensures few { start_of behind.now < 2 ^ 120 }
        ensures rest { self.new ≡ with_places behind.now (places_of behind.now self.new) self.old }
        ensures names { names_of (places_of behind.now self.new) ≡ names_of (places_of behind.now self.old) }
        ensures out { MatchOption result
            ((self.new ≡ self.old) × AreEmptyFrom ARRAY_LEN (start_of behind.now) at (places_of behind.now self.old))
            (λ r. (at < ARRAY_LEN) ×
            TakesOut ARRAY_LEN r.1 (start_of behind.now + at) r.0 (places_of behind.now self.old) (places_of behind.now self.new)) }
    {
        match behind {
            None => self.primary.take_out(at),
            Some(behind) => {
                let first = storage_on(behind.first).places();
                let here = storage_on(behind.here).places();
                self.keys.take_out(first, behind.start, here, at)
            }
        }
    }

    /// Puts a value that was lent back into its place, and what lay there meanwhile into the gap.
    pub(crate) fn put_at(&mut self, behind: &Option<Behind<'_, B>>, at: usize, gap: usize, value: T)
        requires inside { at < ARRAY_LEN }
        requires few { start_of behind.now < 2 ^ 120 }
        requires stands { StandsIn B.shown ARRAY_LEN behind.now self.old }
        requires awaits { AwaitsValue ARRAY_LEN gap (start_of behind.now + at) (places_of behind.now self.old) }
        ensures { self.new ≡ whole_at behind.now gap at (Some value) self.old }
    {
        match behind {
            None => self.primary.put_back(at, gap, value),
            Some(behind) => {
                let first = storage_on(behind.first).places();
                let here = storage_on(behind.here).places();
                self.keys
                    .put_back(first, behind.start, here, at, gap, value)
            }
        }
    }

    /// A law, which does nothing when the program runs: the values of each array are in its first places.
    pub(crate) fn lies_in_order(&self)
        ensures { IsInOrder ARRAY_LEN self.now }
    {
        self.primary.has_all_places();
        self.keys.fill_in_order();
    }

    /// The shelves of the storages behind the bag's own, where no guard is open.
    pub(crate) fn shelves<'s, S: Items<LinkedEntry<B>> + HeldItems<LinkedEntry<B>>>(
        &self,
        s: &'s S,
    ) -> Iter<'s, B, S>
        requires home { home_in self.now.overflow.stack ≡ (S.caller s.now).home.cells }
        requires exact { IsExact (S.caller s.now) }
        ensures space { space_of result ≡ s.now }
        ensures home { IsIterOf (S.caller s.now).home.slots result }
        ensures list { (es : List (Entry (Linked B))) → LiesOn B.shown ARRAY_LEN (S.world s.now) es self.now.overflow →
            GivesInOrder (S.world s.now) result (shown_of es) }
    {
        self.stack.iter_unguarded(s)
    }

    /// An empty bag. It holds 1 to 32 values itself, and has two cells.
    ///
    /// `NoCell` where no two cells are free; `Contended`, in a domain alone, where as many exchanges were lost as its limits allow.
    pub fn new<S: Items<LinkedEntry<B>> + Cells<LinkedEntry<B>>>(
        s: &mut S,
    ) -> Result<Bag<T, ARRAY_LEN, B>, Refused>
        requires some { 0 < ARRAY_LEN }
        requires fits { ARRAY_LEN ≤ 32 }
        requires seated { IsSeated (S.caller s.old) }
        ensures unmoved { Unmoved S.caller S.known S.shows s.old s.new }
        ensures own { KeepsMoreWaiting (S.own s.old) (S.own s.new) }
        ensures home { IfOk result (IsOfCells (S.caller s.old).home.cells) }
        ensures back { IfErr result (IsRefusedBy (S.caller s.old) Refused.NoCell) }
        ensures empty { IfOk result (λ bag. (primary_of bag ≡ []) × (overflow_of bag ≡ [])) }
        ensures world { IsExact (S.caller s.old) → MatchResult result
            (λ bag. IsEmptyCell (S.world s.old).cells bag.primary.storage.cell × IsEmptyCell (S.world s.old).cells (cell_in bag.overflow.stack) ×
            (bag.primary.storage.cell ≢ cell_in bag.overflow.stack) ×
            (S.world s.new ≡ nulled (nulled (S.world s.old) bag.primary.storage.cell) (cell_in bag.overflow.stack)))
            (λ e. HasOneAtMost (S.world s.old).cells × (e ≡ Refused.NoCell) × (S.world s.new ≡ S.world s.old)) }
        ensures bag { IsExact (S.caller s.old) → IfOk result (IsBag B.shown ARRAY_LEN (S.world s.new)) }
    {
        let cell = match AtomicShared::null(s) {
            Ok(cell) => cell,
            Err(refused) => return Err(refused),
        };
        match Stack::new(s) {
            Ok(stack) => Ok(Bag {
                primary: Primary::new(right_of_cell(cell)),
                stack,
                keys: StorageKeys::new(),
            }),
            Err(refused) => {
                cell.close(s);
                Err(refused)
            }
        }
    }

    /// Puts a value among those in the bag itself, if there are fewer than `ARRAY_LEN`, else into another storage: into the first, or into one more.
    ///
    /// `NoSlot` where a storage more is needed and no slot is free, else `NoCell` where no two cells are. The value comes back.
    pub fn push<
        S: Items<LinkedEntry<B>>
            + Several<LinkedEntry<B>>
            + Cells<LinkedEntry<B>>
            + LookThrough<LinkedEntry<B>>,
    >(&mut self, value: T, guard: &Guard, s: &mut S) -> Result<(), (T, Refused)>
        requires seated { IsSeated (S.caller s.old) }
        requires home { home_in self.old.overflow.stack ≡ (S.caller s.old).home.cells }
        requires reader { reader_of guard.now ≡ (S.caller s.old).reader }
        requires exact { IsExact (S.caller s.old) }
        requires bag { IsBag B.shown ARRAY_LEN (S.world s.old) self.old }
        ensures unmoved { Unmoved S.caller S.known S.shows s.old s.new }
        ensures own { KeepsMoreWaiting (S.own s.old) (S.own s.new) }
        ensures cells { HasSameCells self.old self.new }
        ensures bag { IsBag B.shown ARRAY_LEN (S.world s.new) self.new }
        ensures pushed { MatchResult result
            (λ _. PushesInside ARRAY_LEN value self.old self.new × (S.world s.new ≡ S.world s.old) ⊎ PushesBehind ARRAY_LEN value self.old self.new)
            (λ e. (length (primary_of self.old) ≡ ARRAY_LEN) × (e.0 ≡ value) × (self.new ≡ self.old) × (S.world s.new ≡ S.world s.old) ×
            RefusesStorage (S.world s.old) e.1 × AreFull ARRAY_LEN self.old.overflow.places) }
        ensures list { (es : List (Entry (Linked B))) → LiesOn B.shown ARRAY_LEN (S.world s.old) es self.old.overflow → IfOk result (λ _.
            (fs : List (Entry (Linked B))) × LiesOn B.shown ARRAY_LEN (S.world s.new) fs self.new.overflow ×
            ((S.world s.new ≡ S.world s.old) ⊎ AreFull ARRAY_LEN self.old.overflow.places ×
            AddsStorage B.shown (S.world s.old) (S.caller s.old).place self.old.overflow.stack es (S.world s.new) fs)) }
    {
        let value = match self.primary.push(value) {
            Ok(()) => return Ok(()),
            Err(value) => value,
        };
        match self.push_behind(value, guard, s) {
            Ok(()) => Ok(()),
            Err(back) => Err(back),
        }
    }

    /// Puts a value among those in the bag itself. If it holds `ARRAY_LEN` already, the value comes back.
    pub fn try_push(&mut self, value: T) -> Result<(), T>
        ensures overflow { self.new.overflow ≡ self.old.overflow }
        ensures storage { self.new.primary.storage ≡ self.old.primary.storage }
        ensures pushed { MatchResult result
            (λ _. (length (primary_of self.old) < ARRAY_LEN) × HasOneMore value (primary_of self.old) (primary_of self.new))
            (λ back. (back ≡ value) × (length (primary_of self.old) ≡ ARRAY_LEN) × (self.new ≡ self.old)) }
    {
        self.primary.push(value)
    }

    /// Takes out some value: one of those in the other storages while there are any, else one of those in the bag itself. None exactly where the bag is
    /// empty.
    ///
    /// A storage whose last value is taken is retired at once.
    pub fn pop<
        S: Items<LinkedEntry<B>>
            + SharedItems<LinkedEntry<B>>
            + Cells<LinkedEntry<B>>
            + LookThrough<LinkedEntry<B>>,
    >(&mut self, guard: &Guard, s: &mut S) -> Option<T>
        requires seated { IsSeated (S.caller s.old) }
        requires home { home_in self.old.overflow.stack ≡ (S.caller s.old).home.cells }
        requires reader { reader_of guard.now ≡ (S.caller s.old).reader }
        requires exact { IsExact (S.caller s.old) }
        requires bag { IsBag B.shown ARRAY_LEN (S.world s.old) self.old }
        ensures unmoved { Unmoved S.caller S.known S.shows s.old s.new }
        ensures own { KeepsMoreWaiting (S.own s.old) (S.own s.new) }
        ensures cells { HasSameCells self.old self.new }
        ensures bag { IsBag B.shown ARRAY_LEN (S.world s.new) self.new }
        ensures popped { MatchOption result
            ((primary_of self.old ≡ []) × (overflow_of self.old ≡ []) × (self.new ≡ self.old) × (S.world s.new ≡ S.world s.old))
            (λ value. PopsBehind value self.old self.new ⊎ PopsInside value self.old self.new × (S.world s.new ≡ S.world s.old)) }
        ensures list { (es : List (Entry (Linked B))) → LiesOn B.shown ARRAY_LEN (S.world s.old) es self.old.overflow →
            (fs : List (Entry (Linked B))) × LiesOn B.shown ARRAY_LEN (S.world s.new) fs self.new.overflow ×
            ((S.world s.new ≡ S.world s.old) × (fs ≡ es) ⊎ (self.new.overflow.places ≡ drop ARRAY_LEN self.old.overflow.places) ×
            RemovesStorage (S.world s.old) (S.caller s.old).place (cell_in self.old.overflow.stack) es (S.world s.new) fs) }
    {
        if let Some(value) = self.pop_behind(guard, s) {
            return Some(value);
        }
        self.primary.pop()
    }

    /// Takes out all values, one after another, in no said order: `fold` makes of what is made so far, `init` at first, and of a value what is made next.
    ///
    /// A storage whose last value is taken is retired at once. The bag is empty then, and can be used on.
    pub fn pop_all<
        R,
        F: FnMut(R, T) -> R,
        S: Items<LinkedEntry<B>>
            + SharedItems<LinkedEntry<B>>
            + Cells<LinkedEntry<B>>
            + LookThrough<LinkedEntry<B>>,
    >(&mut self, init: R, fold: F, guard: &Guard, s: &mut S) -> R
        requires seated { IsSeated (S.caller s.old) }
        requires home { home_in self.old.overflow.stack ≡ (S.caller s.old).home.cells }
        requires reader { reader_of guard.now ≡ (S.caller s.old).reader }
        requires exact { IsExact (S.caller s.old) }
        requires bag { IsBag B.shown ARRAY_LEN (S.world s.old) self.old }
        requires callable { F.IsAlwaysCallable fold }
        ensures unmoved { Unmoved S.caller S.known S.shows s.old s.new }
        ensures own { KeepsMoreWaiting (S.own s.old) (S.own s.new) }
        ensures cells { HasSameCells self.old self.new }
        ensures bag { IsBag B.shown ARRAY_LEN (S.world s.new) self.new }
        ensures empty { values_of self.new ≡ [] }
        ensures folded { (vs : List T) × AreInSomeOrder vs (values_of self.old) × Folds F.step fold init vs result }
        ensures list { (es : List (Entry (Linked B))) → LiesOn B.shown ARRAY_LEN (S.world s.old) es self.old.overflow →
            RemovesStorages (S.world s.old) (S.caller s.old).place (cell_in self.old.overflow.stack) es (S.world s.new) }
    {
        let mut made = init;
        let mut fold = fold;
        while !self.is_front_empty() {
            let (next, then) = self.fold_storage(made, fold, guard, s);
            made = next;
            fold = then;
        }
        let (made, _) = self.fold_inside(made, fold);
        made
    }

    /// How many values there are.
    pub fn len(&self) -> u128
        ensures { result ≡ length (primary_of self.now) + length (overflow_of self.now) }
    {
        self.primary.len() + self.keys.len()
    }

    /// A law, which does nothing when the program runs: in whatever world the bag is, it has as many other storages as the values in them divided by
    /// `ARRAY_LEN`, rounded up.
    pub fn storages_are_few(&self)
        ensures { (w : World (Linked B)) → HasStoragesFor B.shown ARRAY_LEN w self.now }
    {
        // Once a field is looked at, what is always so of a bag is known: an array has 1 to 32 places.
        let _ = &self.primary;
    }

    /// A law, which does nothing when the program runs: the close of a guard, whoever does it, leaves the bag in its world, on the same entries.
    pub fn stays_at_close(&self)
        ensures bag { (w : World (Linked B)) (p : ℕ) → IsBag B.shown ARRAY_LEN w self.now → IsBag B.shown ARRAY_LEN (closed w p) self.now }
        ensures list { (w : World (Linked B)) (p : ℕ) (es : List (Entry (Linked B))) → LiesOn B.shown ARRAY_LEN w es self.now.overflow →
            LiesOn B.shown ARRAY_LEN (closed w p) es self.now.overflow }
    {}

    /// A law, which does nothing when the program runs: so does an opening at which nothing is due, as that of one more guard of who has one.
    pub fn stays_at_opening(&self)
        ensures bag { (holds : Linked B → List OwnerOrCell) (w : World (Linked B)) (p : ℕ) → due_at w.time p ≡ [] →
            IsBag B.shown ARRAY_LEN w self.now → IsBag B.shown ARRAY_LEN (opened holds w p) self.now }
        ensures list { (holds : Linked B → List OwnerOrCell) (w : World (Linked B)) (p : ℕ) (es : List (Entry (Linked B))) → due_at w.time p ≡ [] →
            LiesOn B.shown ARRAY_LEN w es self.now.overflow → LiesOn B.shown ARRAY_LEN (opened holds w p) es self.now.overflow }
    {}

    /// There is no value.
    pub fn is_empty(&self) -> bool
        ensures { IsTrue result ↔ (primary_of self.now ≡ []) × (overflow_of self.now ≡ []) }
    {
        self.len() == 0
    }

    /// The values in the other storages give up what they hold, one after another. A storage whose last value it is is let go of before.
    fn give_up_behind<
        S: Items<LinkedEntry<B>>
            + SharedItems<LinkedEntry<B>>
            + Cells<LinkedEntry<B>>
            + RawCells<LinkedEntry<B>>
            + LookThrough<LinkedEntry<B>>,
    >(&mut self, guard: &Guard, s: &mut S)
    where
        T: Item<LinkedEntry<B>>,
        requires seated { IsSeated (S.caller s.old) }
        requires home { home_in self.old.overflow.stack ≡ (S.caller s.old).home.cells }
        requires reader { reader_of guard.now ≡ (S.caller s.old).reader }
        requires exact { IsExact (S.caller s.old) }
        requires bag { IsBag B.shown ARRAY_LEN (S.world s.old) self.old }
        requires held { All (λ v. AreOf (S.caller s.old).home (T.holds v)) (overflow_of self.old) }
        requires beside { (es : List (Entry (Linked B))) → LiesOn B.shown ARRAY_LEN (S.world s.old) es self.old.overflow →
            All (λ v. AreBeside (S.world s.old) (cell_in self.old.overflow.stack) es (T.holds v)) (overflow_of self.old) }
        ensures unmoved { Unmoved S.caller S.known S.shows s.old s.new }
        ensures own { KeepsMoreWaiting (S.own s.old) (S.own s.new) }
        ensures cells { HasSameCells self.old self.new }
        ensures primary { self.new.primary ≡ self.old.primary }
        ensures stack { IsStack (S.world s.new) (cell_in self.old.overflow.stack) [] }
        ensures list { (es : List (Entry (Linked B))) → LiesOn B.shown ARRAY_LEN (S.world s.old) es self.old.overflow → (vs : List T) ×
            AreInSomeOrder vs (overflow_of self.old) ×
            EmptiesStorages T.holds ARRAY_LEN (S.world s.old) (S.caller s.old).place (cell_in self.old.overflow.stack) es vs (S.world s.new) }
    {
        while let Some(value) = self.pop_behind(guard, s) {
            give_up(value, s);
        }
    }

    /// Ends the bag: the values that are left give up what they hold, in no said order, each other storage is retired before its last value does, and the
    /// bag's cells are free.
    ///
    /// It asks that nothing that the values in the other storages hold is of these storages themselves. What holds nothing is.
    pub fn close<
        S: Items<LinkedEntry<B>>
            + SharedItems<LinkedEntry<B>>
            + Cells<LinkedEntry<B>>
            + RawCells<LinkedEntry<B>>
            + LookThrough<LinkedEntry<B>>,
    >(self, guard: &Guard, s: &mut S)
    where
        T: Item<LinkedEntry<B>>,
        requires seated { IsSeated (S.caller s.old) }
        requires home { IsOfCells (S.caller s.old).home.cells self }
        requires reader { reader_of guard.now ≡ (S.caller s.old).reader }
        requires exact { IsExact (S.caller s.old) }
        requires bag { IsBag B.shown ARRAY_LEN (S.world s.old) self }
        requires held { All (λ v. AreOf (S.caller s.old).home (T.holds v)) (values_of self) }
        requires beside { (es : List (Entry (Linked B))) → LiesOn B.shown ARRAY_LEN (S.world s.old) es self.overflow →
            All (λ v. AreBeside (S.world s.old) (cell_in self.overflow.stack) es (T.holds v)) (overflow_of self) }
        ensures unmoved { Unmoved S.caller S.known S.shows s.old s.new }
        ensures own { KeepsMoreWaiting (S.own s.old) (S.own s.new) }
        ensures list { (es : List (Entry (Linked B))) → LiesOn B.shown ARRAY_LEN (S.world s.old) es self.overflow →
            ClosesBag T.holds ARRAY_LEN (S.world s.old) (S.caller s.old).place self es (S.world s.new) }
    {
        let mut bag = self;
        bag.give_up_behind(guard, s);
        let Bag {
            primary,
            stack,
            keys: _,
        } = bag;
        stack.close(guard, s);
        primary.close(s);
    }
}
