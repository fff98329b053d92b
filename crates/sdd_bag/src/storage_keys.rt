//! The keys of a bag's storages.
ghost use Rattle.std.specs.Prelude.{◌≡◌, ◌≢◌, ◌↔◌, ◌⊎◌, ◌+◌, ◌^◌, ◌<◌, ◌≤◌, ◌++◌, ℕ, IfOk, IfSome, IsTrue, List, [], MatchOption, MatchResult, None, Some, drop, false, is_some, length, map, slice_get, take, true};
ghost use Rattle.sdd_bag.specs.KeyedPlaces.{PlaceName};
ghost use Rattle.sdd_bag.specs.Storage.{KeptPlace, empty_place, value_at, with_value_at, IsEmptyAt, IsFullWith, AreFull, AreEmpty, StandInFront, names_of, values_in};
ghost use Rattle.sdd_bag.specs.Values.{HasOneMore};
ghost use Rattle.sdd_bag.specs.Folding.{FoldsOn};
ghost use Rattle.sdd_bag.specs.Changing.{ChangesOn};
ghost use Rattle.sdd_bag.specs.Lent.{AreEmptyFrom, AwaitsValue, IsArrayAt, IsGap, TakesLast, TakesOut, with_back};

use crate::place::{Keys, exchange, forget};
use crate::places::Places;
use std::marker::Model;

/// The keys of all places of any number of arrays, the newest array first. In it the first `count` places have a value, and in each other array all have.
#[derive(Drop)]
pub struct StorageKeys<T, const LEN: usize> {
    count: usize,
    arrays: u128,
    keys: Keys<T>,
}

impl<T, const LEN: usize> Model for StorageKeys<T, LEN> {
    ghost use Rattle.std.specs.Prelude.{List, map};
    ghost use Rattle.sdd_bag.specs.Storage.{AreCounted, KeptPlace, kept_place};

    ghost Value = { List (KeptPlace T) };

    ghost view = { λ k. map kept_place k.keys.kept };

    ghost invariant = { λ k. AreCounted LEN k.count k.arrays (map kept_place k.keys.kept) };
}

impl<T, const LEN: usize> StorageKeys<T, LEN> {
    /// Keys of no places yet. An array has 1 to 32.
    pub fn new() -> StorageKeys<T, LEN>
        requires some { 0 < LEN }
        requires fits { LEN ≤ 32 }
        ensures { result ≡ [] }
    {
        StorageKeys {
            count: 0,
            arrays: 0,
            keys: Keys::new(),
        }
    }

    /// A new array of places without values, in front of the others, whose places all have values.
    pub fn add_places(&mut self) -> Places<T, LEN>
        requires full { AreFull LEN self.old }
        requires few { length self.old < 2 ^ 80 }
        ensures long { length result ≡ LEN }
        ensures places { self.new ≡ map empty_place result ++ self.old }
    {
        let places = Places::new(&mut self.keys);
        self.arrays += 1;
        self.count = 0;
        places
    }

    /// Forgets the first array, whose places have no values. Its keys are of no use any more.
    pub fn remove_places(&mut self)
        requires some { 0 < length self.old }
        requires empty { AreEmpty LEN self.old }
        ensures places { self.new ≡ drop LEN self.old }
        ensures full { AreFull LEN self.new }
    {
        forget(&mut self.keys, LEN);
        self.arrays -= 1;
        self.count = if self.arrays > 0 { LEN } else { 0 };
    }

    /// How many places have a value.
    pub fn len(&self) -> u128
        ensures values { result ≡ length (values_in self.now) }
        ensures few { result < 2 ^ 127 }
    {
        if self.arrays == 0 {
            0
        } else {
            self.count as u128 + (self.arrays - 1) * LEN as u128
        }
    }

    /// No place of the first array has a value.
    pub fn is_front_empty(&self) -> bool
        ensures { IsTrue result ↔ AreEmpty LEN self.now }
    {
        self.count == 0
    }

    /// Moves a value into the first empty place of the first array. If there is none, the value comes back.
    pub fn push(&mut self, places: &Places<T, LEN>, value: T) -> Result<(), T>
        requires keys { StandInFront places.now self.old }
        ensures place { MatchResult result
            (λ _. (at : ℕ) × (at < LEN) × IsEmptyAt at self.old × (self.new ≡ with_value_at self.old at (Some value)))
            (λ back. (back ≡ value) × AreFull LEN self.old × (self.new ≡ self.old)) }
        ensures names { names_of self.new ≡ names_of self.old }
        ensures values { IfOk result (λ _. HasOneMore value (values_in self.old) (values_in self.new)) }
    {
        if self.count == LEN {
            return Err(value);
        }
        match places.exchange(&mut self.keys, self.count, Some(value)) {
            None => {}
            Some(_) => unreachable!(),
        }
        self.count += 1;
        Ok(())
    }

    /// Moves the value of the last full place of the first array out, if any is full.
    pub fn pop(&mut self, places: &Places<T, LEN>) -> Option<T>
        requires keys { StandInFront places.now self.old }
        ensures place { MatchOption result
            (AreEmpty LEN self.old × (self.new ≡ self.old))
            (λ value. (at : ℕ) × (at < LEN) × IsFullWith value at self.old × (self.new ≡ with_value_at self.old at None)) }
        ensures names { names_of self.new ≡ names_of self.old }
        ensures values { IfSome result (λ value. HasOneMore value (values_in self.new) (values_in self.old)) }
    {
        if self.count == 0 {
            return None;
        }
        self.count -= 1;
        match places.exchange(&mut self.keys, self.count, None) {
            Some(value) => Some(value),
            None => unreachable!(),
        }
    }

    /// Moves all values of the first array out, and folds them. What is made comes back, with `fold` as it is then.
    pub fn fold_front<R, F: FnMut(R, T) -> R>(
        &mut self,
        places: &Places<T, LEN>,
        init: R,
        fold: F,
    ) -> (R, F)
        requires keys { StandInFront places.now self.old }
        requires callable { F.IsAlwaysCallable fold }
        ensures callable { F.IsAlwaysCallable result.1 }
        ensures names { names_of self.new ≡ names_of self.old }
        ensures empty { AreEmpty LEN self.new }
        ensures behind { (k : ℕ) → LEN ≤ k → value_at self.new k ≡ value_at self.old k }
        ensures folded { FoldsOn F.step fold init (values_in self.old) result.1 result.0 (values_in self.new) }
    {
        let done = places.fold_out(&mut self.keys, self.count, init, fold);
        self.count = 0;
        done
    }

    /// How many places of an array have a value, which are its first ones. The keys of its places are those from `start` on: it is the first array, or one of
    /// the others.
    fn count_from(&self, start: u128) -> usize
        requires { (start ≡ 0) ⊎ (LEN ≤ start) }
        ensures most { result ≤ LEN }
        ensures full { (k : ℕ) → k < result → start + k < length self.now → is_some (value_at self.now (start + k)) ≡ true }
        ensures empty { (k : ℕ) → result ≤ k → k < LEN → start + k < length self.now → is_some (value_at self.now (start + k)) ≡ false }
        ensures few { length self.now < 2 ^ 120 }
    {
        if start == 0 {
            return self.count;
        }
        LEN
    }

    /// Lends the values of an array to be changed there, one after another. The keys of its places are those from `start` on: it is the first array, or one of
    /// the others. `change` comes back as it is then.
    pub fn lend_array<F: FnMut(&mut T)>(
        &mut self,
        start: u128,
        places: &Places<T, LEN>,
        change: F,
    ) -> F
        requires start { (start ≡ 0) ⊎ (LEN ≤ start) }
        requires long { length places.now ≡ LEN }
        requires keys { (k : ℕ) (name : PlaceName) → slice_get places.now k ≡ Some name → slice_get (names_of self.old) (start + k) ≡ Some name }
        requires callable { F.IsAlwaysCallable change }
        ensures callable { F.IsAlwaysCallable result }
        ensures few { start < 2 ^ 120 }
        ensures names { names_of self.new ≡ names_of self.old }
        ensures same { (k : ℕ) → is_some (value_at self.new k) ≡ is_some (value_at self.old k) }
        ensures changed { ChangesOn F.FnMut start (start + LEN) change self.old self.new result }
    {
        let count = self.count_from(start);
        places.lend_first(&mut self.keys, start, count, change)
    }

    /// A law, which does nothing when the program runs: an array has places, and if any place of the first one has a value, its first place has.
    pub fn fill_in_order(&self)
        ensures some { 0 < LEN }
        ensures first { ¬ (AreEmpty LEN self.now) → is_some (value_at self.now 0) ≡ true }
    {
        let _ = &self.count;
    }

    /// Moves the value of the last full place of the first array out, if any is full, and says which place that was.
    fn take_last(&mut self, first: &Places<T, LEN>) -> Option<(T, usize)>
        requires first { StandInFront first.now self.old }
        ensures names { names_of self.new ≡ names_of self.old }
        ensures taken { MatchOption result
            (AreEmpty LEN self.old × (self.new ≡ self.old))
            (λ r. TakesLast LEN r.1 r.0 self.old self.new) }
    {
        let Some(last) = self.count.checked_sub(1) else {
            return None;
        };
        self.count = last;
        match first.exchange(&mut self.keys, last, None) {
            Some(value) => Some((value, last)),
            None => unreachable!(),
        }
    }

    /// Moves a value into the first empty place of the first array.
    fn fill(&mut self, first: &Places<T, LEN>, gap: usize, value: T)
        requires first { StandInFront first.now self.old }
        requires gap { IsGap LEN gap self.old }
        ensures { self.new ≡ with_value_at self.old gap (Some value) }
    {
        match first.exchange(&mut self.keys, gap, Some(value)) {
            None => {}
            Some(_) => unreachable!(),
        }
        self.count = gap + 1;
    }

    /// Moves a value into a full place of an array, and the one that was there out.
    fn swap(&mut self, start: u128, places: &Places<T, LEN>, at: usize, value: T) -> T
        requires inside { at < LEN }
        requires few { start < 2 ^ 120 }
        requires array { IsArrayAt LEN start places.now self.old }
        requires full { is_some (value_at self.old (start + at)) ≡ true }
        ensures was { value_at self.old (start + at) ≡ Some result }
        ensures now { self.new ≡ with_value_at self.old (start + at) (Some value) }
    {
        let Some(place) = places.at(at) else {
            unreachable!()
        };
        match exchange(&mut self.keys, start + at as u128, place, Some(value)) {
            Some(was) => was,
            None => unreachable!(),
        }
    }

    /// Takes the value of a place out, if it has one, to be lent. The place is of the array whose keys are those from `start` on. What is in the last full
    /// place of the first array lies there meanwhile, so that of each array the first places have values. Which place that is comes with the value.
    pub fn take_out(
        &mut self,
        first: &Places<T, LEN>,
        start: u128,
        places: &Places<T, LEN>,
        at: usize,
    ) -> Option<(T, usize)>
        requires start { (start ≡ 0) ⊎ (LEN ≤ start) × ¬ (AreEmpty LEN self.old) }
        requires first { StandInFront first.now self.old }
        requires array { IsArrayAt LEN start places.now self.old }
        ensures names { names_of self.new ≡ names_of self.old }
        ensures few { start < 2 ^ 120 }
        ensures out { MatchOption result
            ((self.new ≡ self.old) × AreEmptyFrom LEN start at self.old)
            (λ r. (at < LEN) × TakesOut LEN r.1 (start + at) r.0 self.old self.new) }
    {
        // Once a field is looked at, what is always so of the keys is known: an array has 1 to 32 places.
        let _ = &self.count;
        if self.count_from(start) <= at {
            return None;
        }
        let Some((last, gap)) = self.take_last(first) else {
            return None;
        };
        if start + at as u128 == gap as u128 {
            return Some((last, gap));
        }
        Some((self.swap(start, places, at, last), gap))
    }

    /// Moves a value that was lent back into its place, and what lay there meanwhile into the gap.
    pub fn put_back(
        &mut self,
        first: &Places<T, LEN>,
        start: u128,
        places: &Places<T, LEN>,
        at: usize,
        gap: usize,
        value: T,
    )
        requires inside { at < LEN }
        requires few { start < 2 ^ 120 }
        requires first { StandInFront first.now self.old }
        requires array { IsArrayAt LEN start places.now self.old }
        requires awaits { AwaitsValue LEN gap (start + at) self.old }
        ensures names { names_of self.new ≡ names_of self.old }
        ensures back { self.new ≡ with_back gap (start + at) value self.old }
    {
        if start + at as u128 == gap as u128 {
            self.fill(first, gap, value);
            return;
        }
        let last = self.swap(start, places, at, value);
        self.fill(first, gap, last);
    }
}
