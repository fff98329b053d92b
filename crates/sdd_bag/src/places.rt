//! Places side by side.
ghost use Rattle.std.specs.Prelude.{◌≡◌, ◌+◌, ◌^◌, ◌<◌, ◌≤◌, ◌++◌, ℕ, List, IsSome, None, Some, is_some, length, map, option_copied, slice_get, true};
ghost use Rattle.sdd_bag.specs.Storage.{StandInFront, empty_place, kept_place, names_of, value_at, values_in, with_value_at};
ghost use Rattle.sdd_bag.specs.Folding.{FoldsOn};
ghost use Rattle.sdd_bag.specs.Changing.{ChangesOn};
ghost use Rattle.sdd_bag.specs.KeyedPlaces.{PlaceName};

use crate::place::{Keys, Place, exchange, lend, new_place};
use sdd_core::hint::assert_unchecked;
use std::array;
use std::marker::Model;

/// Places for values, side by side. Those that are dropped with values in them forget these.
#[derive(Drop)]
pub struct Places<T, const LEN: usize> {
    places: [Place<T>; LEN],
}

impl<T, const LEN: usize> Model for Places<T, LEN> {
    ghost Value = { List PlaceName };

    ghost view = { λ s. s.places };
}

impl<T, const LEN: usize> Places<T, LEN> {
    /// Places without values, whose keys go in front of the others, in order.
    pub(crate) fn new(keys: &mut Keys<T>) -> Places<T, LEN>
        ensures long { length result ≡ LEN }
        ensures kept { map kept_place keys.new.kept ≡ map empty_place result ++ map kept_place keys.old.kept }
    {
        let mut places: [Place<T>; LEN] = array::from_fn(|_| new_place(&mut Keys::new(), 0));
        for at in 0..LEN {
            places[at] = new_place(keys, at);
        }
        Places { places }
    }

    /// The place of that number.
    pub(crate) fn at(&self, at: usize) -> Option<&Place<T>>
        ensures place { slice_get self.now at ≡ option_copied result }
        ensures inside { at < LEN → IsSome result }
    {
        self.places.get(at)
    }

    /// Moves a value into the place of that number, or none, and the one that was there out, if there was one. The keys of these places are the first ones.
    pub(crate) fn exchange(&self, keys: &mut Keys<T>, at: usize, value: Option<T>) -> Option<T>
        requires inside { at < LEN }
        requires keys { StandInFront self.now (map kept_place keys.old.kept) }
        ensures there { at < length (map kept_place keys.old.kept) }
        ensures was { result ≡ value_at (map kept_place keys.old.kept) at }
        ensures now { map kept_place keys.new.kept ≡ with_value_at (map kept_place keys.old.kept) at value }
    {
        let Some(place) = self.at(at) else {
            unreachable!()
        };
        exchange(keys, at as u128, place, value)
    }

    /// Lends the values of the first so many places, each of which has one, to be changed there, one after another. The keys of these places are those from
    /// `start` on. `change` comes back as it is then.
    pub(crate) fn lend_first<F: FnMut(&mut T)>(
        &self,
        keys: &mut Keys<T>,
        start: u128,
        count: usize,
        change: F,
    ) -> F
        requires inside { count ≤ LEN }
        requires few { start < 2 ^ 120 }
        requires keys { (k : ℕ) (name : PlaceName) → slice_get self.now k ≡ Some name →
            slice_get (names_of (map kept_place keys.old.kept)) (start + k) ≡ Some name }
        requires full { (k : ℕ) → k < count → is_some (value_at (map kept_place keys.old.kept) (start + k)) ≡ true }
        requires callable { F.IsAlwaysCallable change }
        ensures callable { F.IsAlwaysCallable result }
        ensures names { names_of (map kept_place keys.new.kept) ≡ names_of (map kept_place keys.old.kept) }
        ensures same { (k : ℕ) → is_some (value_at (map kept_place keys.new.kept) k) ≡ is_some (value_at (map kept_place keys.old.kept) k) }
        ensures changed { ChangesOn F.FnMut start (start + count) change (map kept_place keys.old.kept) (map kept_place keys.new.kept) result }
    {
        let mut change = change;
        for at in 0..count {
            let Some(place) = self.at(at) else {
                unreachable!()
            };
            change = lend(keys, start + at as u128, place, change);
        }
        change
    }

    /// Moves the values of the first so many places out, each of which has one, and folds them, the last one first. What is made comes back, with `fold` as
    /// it is then.
    pub(crate) fn fold_out<R, F: FnMut(R, T) -> R>(
        &self,
        keys: &mut Keys<T>,
        count: usize,
        init: R,
        fold: F,
    ) -> (R, F)
        requires inside { count ≤ LEN }
        requires keys { StandInFront self.now (map kept_place keys.old.kept) }
        requires full { (k : ℕ) → k < count → is_some (value_at (map kept_place keys.old.kept) k) ≡ true }
        requires callable { F.IsAlwaysCallable fold }
        ensures callable { F.IsAlwaysCallable result.1 }
        ensures names { names_of (map kept_place keys.new.kept) ≡ names_of (map kept_place keys.old.kept) }
        ensures empty { (k : ℕ) → k < count → value_at (map kept_place keys.new.kept) k ≡ None }
        ensures others { (k : ℕ) → count ≤ k → value_at (map kept_place keys.new.kept) k ≡ value_at (map kept_place keys.old.kept) k }
        ensures folded { FoldsOn F.step fold init (values_in (map kept_place keys.old.kept)) result.1 result.0
            (values_in (map kept_place keys.new.kept)) }
    {
        let mut made = init;
        let mut fold = fold;
        let mut left = count;
        while left > 0 {
            left -= 1;
            let value = self.exchange(keys, left, None);
            assert_unchecked(value.is_some());
            let Some(value) = value else { unreachable!() };
            made = fold(made, value);
        }
        (made, fold)
    }
}
