//! The ghost map of a space, and the fractions of its numbers.
ghost use Rattle.std.specs.Prelude.{◌≡◌, ℕ, ◌+◌, ◌-◌, ◌<◌, ◌≤◌, []};
ghost use base.Stored.{Gv};
ghost use Rattle.sdd_rights.specs.Units.{GhostName, home_coded, keys_own, fraction_owns, fraction_shares, gv_coded};

use crate::read_fraction::ReadFraction;
use std::marker::{Model, PhantomData};

/// How many units a number has.
pub const WHOLE: u64 = 1 << 63;

const _: () = prove!(size_of::<GhostKeys<u8>>() == 0);

const _: () = prove!(size_of::<Fraction<u8>>() == 0);

/// The numbers of a home that were not issued yet: `next` and all above it.
pub struct GhostKeys<K> {
    of: PhantomData<K>,
    pub ghost home: { GhostName } by { home_coded },
    pub ghost next: { ℕ },
}

impl<K> Model for GhostKeys<K> {
    ghost also_owns = { λ b. keys_own b.home.name b.next };
}

/// Some units of a number of a ghost map, on whose lifetime, kind and value they agree with all its other units.
pub struct Fraction<K> {
    of: PhantomData<K>,
    pub ghost home: { GhostName } by { home_coded },
    pub ghost number: { ℕ },
    pub ghost units: { ℕ },
    pub ghost lifetime: { ℕ },
    pub ghost kind: { K },
    pub ghost shown: { Gv } by { gv_coded },
}

impl<K> Model for Fraction<K> {
    ghost also_owns = { λ p. fraction_owns K.row.coded p.home.name p.number p.units p.lifetime p.kind p.shown };

    ghost also_shares = { λ p _ κ. fraction_shares K.row.coded p.home.name p.number p.lifetime p.kind p.shown κ };
}

impl<K> GhostKeys<K> {
    /// A new ghost map, with a home that no other has. The size is a name alone: it says for how many numbers the ghost map is meant, and limits none.
    pub fn new(size: usize) -> GhostKeys<K>
        ensures size { result.home.size ≡ size }
        ensures first { result.next ≡ 0 }
        ensures tables { result.home.tables ≡ [] }
    {
        let _ = size;
        GhostKeys { of: PhantomData }
    }

    /// All units of the next number, in a lifetime of their own. They show no value yet.
    pub fn issue(&mut self, kind: &K) -> Fraction<K>
        ensures keys { self.new ≡ record self.old { next = self.old.next + 1 } }
        ensures home { result.home ≡ self.old.home }
        ensures number { result.number ≡ self.old.next }
        ensures units { result.units ≡ WHOLE }
        ensures kind { result.kind ≡ kind.now }
    {
        let _ = kind;
        Fraction { of: PhantomData }
    }
}

impl<K> Fraction<K> {
    /// Some units of the fraction, as a fraction of their own. At least one stays.
    pub fn split(&mut self, units: u64) -> Fraction<K>
        requires some { 0 < units }
        requires fewer { units < self.old.units }
        ensures rest { self.new ≡ record self.old { units = self.old.units - units } }
        ensures fraction { result ≡ record self.old { units = units } }
    {
        let _ = units;
        Fraction { of: PhantomData }
    }

    /// Two fractions of one number become one. They had agreed.
    pub fn join(&mut self, other: Fraction<K>)
        requires home { other.home ≡ self.old.home }
        requires number { other.number ≡ self.old.number }
        ensures joined { self.new ≡ record self.old { units = self.old.units + other.units } }
        ensures fits { self.new.units ≤ WHOLE }
        ensures lifetime { other.lifetime ≡ self.old.lifetime }
        ensures kind { other.kind ≡ self.old.kind }
        ensures shown { other.shown ≡ self.old.shown }
    {
        let Fraction { of: _ } = other;
    }

    /// A fraction of one unit, as a read fraction of its number.
    pub(crate) fn into_read_fraction(self) -> ReadFraction
        requires { self.units ≡ 1 }
        ensures { (result.gamma ≡ self.home.name) × (result.number ≡ self.number) }
    {
        let Fraction { of: _ } = self;
        ReadFraction { of: PhantomData }
    }

    /// Two fractions of one number have the same lifetime and kind, and show the same.
    pub fn agree(&self, other: &Fraction<K>)
        requires home { other.now.home ≡ self.now.home }
        requires number { other.now.number ≡ self.now.number }
        ensures lifetime { other.now.lifetime ≡ self.now.lifetime }
        ensures kind { other.now.kind ≡ self.now.kind }
        ensures shown { other.now.shown ≡ self.now.shown }
    {
        let _ = other;
    }

    /// Two fractions of one number have no unit in common. So who has all units is alone.
    pub fn apart(&mut self, other: &mut Fraction<K>)
        requires home { other.old.home ≡ self.old.home }
        requires number { other.old.number ≡ self.old.number }
        ensures kept { (self.new ≡ self.old) × (other.new ≡ other.old) }
        ensures some { (0 < self.old.units) × (0 < other.old.units) }
        ensures fits { self.old.units + other.old.units ≤ WHOLE }
    {
        let _ = other;
    }

    /// Who has all units of a number sets its kind and the value that it shows.
    pub fn set<T>(&mut self, kind: &K, value: &T)
        requires { self.old.units ≡ WHOLE }
        ensures { self.new ≡ record self.old { kind = kind.now; shown = T.row.coded.code value.now } }
    {
        let _ = kind;
        let _ = value;
    }

    /// What a fraction shows is the code of one value only.
    pub fn same<T>(&self, one: &T, other: &T)
        requires one { self.now.shown ≡ T.row.coded.code one.now }
        requires other { self.now.shown ≡ T.row.coded.code other.now }
        ensures { one.now ≡ other.now }
    {
        let _ = one;
        let _ = other;
    }
}

impl<K> Drop for GhostKeys<K> {
    fn drop(self) {
        let GhostKeys { of: _ } = self;
    }
}

impl<K> Drop for Fraction<K> {
    fn drop(self) {
        let Fraction { of: _ } = self;
    }
}

unsafe impl<K> Send for GhostKeys<K> {}

unsafe impl<K> Sync for GhostKeys<K> {}

unsafe impl<K> Send for Fraction<K> {}

unsafe impl<K> Sync for Fraction<K> {}
