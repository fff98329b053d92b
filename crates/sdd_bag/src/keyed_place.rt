//! A place and its key, and the keys of several places.
ghost use Rattle.std.specs.Prelude.{◌≡◌, ◌<◌, ℕ, List, [], Some, length, slice_get};
ghost use base.Stored.{coded_list};
ghost use Rattle.sdd_bag.specs.KeptValues.{KeptValue, kept_as, kept_coded, keys_own, inserted, without_at};
ghost use Rattle.sdd_bag.specs.KeyedPlaces.{PlaceName, name_coded, place_owns, place_shares, key_owns};

use std::marker::{Model, Move, Owns, PhantomData};

const _: () = prove!(size_of::<PlaceKey<u64>>() == 0);

const _: () = prove!(size_of::<PlaceKeys<u64>>() == 0);

/// A value in place, which changes behind a `&` for whoever has the place's key. In a clause it is its name, which no other place has.
pub struct KeyedPlace<T> {
    value: T,
}

impl<T> Owns for KeyedPlace<T> {
    ghost Value = { PlaceName };

    ghost coded = { name_coded };

    ghost shr_at = { λ name p κ. place_shares T.row name p κ };
}

impl<T> Move for KeyedPlace<T> {
    ghost own_val = { λ name vs. place_owns T.row name (λ x. Fields.own_val (record { value = x }) vs) };
}

/// The whole right to the value of the place that has this name. It has no bytes, and there is one of each place.
pub struct PlaceKey<T> {
    of: PhantomData<T>,
    pub ghost name: { PlaceName } by { name_coded },
    /// The value in the place.
    pub ghost value: { T },
}

impl<T> Model for PlaceKey<T> {
    ghost also_owns = { λ k. key_owns T.row k.name k.value };
}

/// The keys of any number of places, in order. They have no bytes, however many they are.
pub struct PlaceKeys<T> {
    of: PhantomData<T>,
    pub ghost kept: { List (KeptValue T) } by { coded_list (kept_coded T.code) },
}

impl<T> Model for PlaceKeys<T> {
    ghost also_owns = { λ k. keys_own T.row k.kept };
}

impl<T> KeyedPlace<T> {
    /// A place with this value, and its key.
    pub fn new(value: T) -> (KeyedPlace<T>, PlaceKey<T>)
        ensures name { result.1.name ≡ result.0 }
        ensures value { result.1.value ≡ value }
    {
        (KeyedPlace { value }, PlaceKey { of: PhantomData })
    }

    /// Moves another value into the place, and the one that was there out.
    pub fn replace(&self, key: &mut PlaceKey<T>, value: T) -> T
        requires key { key.old.name ≡ self.now }
        ensures was { result ≡ key.old.value }
        ensures now { key.new ≡ record key.old { value = value } }
    {
        let _ = key;
        let place = &raw const self.value as *mut T;
        unsafe {
            let was = place.read();
            place.write(value);
            was
        }
    }

    /// The value, by the key: the place is no more, and the key is of no use.
    pub fn open(self, key: &mut PlaceKey<T>) -> T
        requires key { key.old.name ≡ self }
        ensures value { result ≡ key.old.value }
        ensures key { key.new ≡ key.old }
    {
        let _ = key;
        let KeyedPlace { value } = self;
        value
    }

    /// Whatever value is in the place, which is no more. Nothing is known of it without the key.
    pub fn into_inner(self) -> T {
        let KeyedPlace { value } = self;
        value
    }
}

impl<T> PlaceKey<T> {
    /// Puts the key among others, at that index, before the one that was there; behind all where there are fewer.
    pub fn put(self, keys: &mut PlaceKeys<T>, at: u128)
        ensures { keys.new ≡ record keys.old { kept = inserted keys.old.kept at (kept_as self.name self.value) } }
    {
        let _ = keys;
        let _ = at;
        let PlaceKey { of: _ } = self;
    }
}

impl<T> PlaceKeys<T> {
    /// No keys.
    pub fn new() -> PlaceKeys<T>
        ensures { result.kept ≡ [] }
    {
        PlaceKeys { of: PhantomData }
    }

    /// The key at that index, which is no longer among these.
    pub fn take(&mut self, at: u128) -> PlaceKey<T>
        requires { at < length self.old.kept }
        ensures rest { self.new ≡ record self.old { kept = without_at self.old.kept at } }
        ensures key { slice_get self.old.kept at ≡ Some (kept_as result.name result.value) }
    {
        let _ = at;
        PlaceKey { of: PhantomData }
    }
}

impl<T: Drop> Drop for KeyedPlace<T> {
    fn drop(self) {
        drop(self.into_inner());
    }
}

impl<T> Drop for PlaceKey<T> {
    fn drop(self) {
        let PlaceKey { of: _ } = self;
    }
}

unsafe impl<T: Send> Send for KeyedPlace<T> {}

unsafe impl<T: Send> Sync for KeyedPlace<T> {}

unsafe impl<T> Send for PlaceKey<T> {}

unsafe impl<T> Sync for PlaceKey<T> {}

impl<T> Drop for PlaceKeys<T> {
    fn drop(self) {
        let PlaceKeys { of: _ } = self;
    }
}

unsafe impl<T> Send for PlaceKeys<T> {}

unsafe impl<T> Sync for PlaceKeys<T> {}
