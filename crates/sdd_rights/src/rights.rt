//! The units that a space keeps of the numbers of one ghost map.
ghost use Rattle.std.specs.Prelude.{◌≡◌, ◌+◌, ◌-◌, ◌<◌, ◌≤◌, IfOk, replicate, slice_set};
ghost use Rattle.sdd_rights.specs.StandingKind.{right_units, IsOwner};
ghost use Rattle.sdd_rights.specs.Right.{number_of, home_of, kind_of, raw_number_of, raw_home_of, badge_home};
ghost use Rattle.sdd_rights.specs.RightsAuthority.{kept_at, whole, granted};
ghost use Rattle.sdd_rights.specs.SharedRights as shares;

use crate::fraction::{Fraction, GhostKeys, WHOLE};
use crate::read_fraction::ReadFraction;
use crate::right::{NameWitness, RawRight, Right, SharedRights, StandingKind};
use sdd_core::SlotName;
use sdd_witness::Witness;
use std::alloc::{AllocError, Global};
use std::marker::Model;

/// What a space keeps of the numbers of its home: of each the kind, and some units, at least one.
///
/// A space has one beside what it knows of its slots. The fractions have no bytes; still `new` asks the allocator once, for none.
#[derive(Drop)]
pub struct RightsAuthority {
    keys: GhostKeys<StandingKind>,
    fractions: Vec<Fraction<StandingKind>>,
}

impl Model for RightsAuthority {
    ghost use Rattle.std.specs.Prelude.{map};
    ghost use Rattle.sdd_rights.specs.RightsAuthority.{RightsAuthority, AreFractionsOf, kept_of};

    ghost Value = { RightsAuthority };

    ghost view = { λ r. record { home = r.keys.home; kept = map kept_of r.fractions.items } };

    ghost invariant = { λ r. AreFractionsOf r.keys.home r.fractions.items };
}

impl RightsAuthority {
    /// A new home of that many numbers, all of this kind and kept whole.
    pub fn new(
        alloc: Global,
        size: usize,
        kind: StandingKind,
    ) -> Result<RightsAuthority, AllocError>
        ensures size { IfOk result (λ r. r.home.size ≡ size) }
        ensures kept { IfOk result (λ r. r.kept ≡ replicate size (whole kind)) }
    {
        let mut keys = GhostKeys::new(size);
        let mut fractions = Vec::with_capacity(alloc, size)?;
        for _number in 0..size {
            fractions.push_reserved(keys.issue(&kind));
        }
        Ok(RightsAuthority { keys, fractions })
    }

    /// A badge of this home.
    pub fn badge(&mut self) -> NameWitness
        ensures home { badge_home result ≡ self.old.home }
        ensures same { self.new ≡ self.old }
    {
        NameWitness {
            fraction: self.keys.issue(&StandingKind::Free),
        }
    }

    /// Gives some units of a number away. At least one stays.
    pub fn split(&mut self, number: usize, units: u64) -> Fraction<StandingKind>
        requires inside { number < self.old.home.size }
        requires some { 0 < units }
        requires fewer { units < (kept_at self.old number).units }
        ensures home { self.new.home ≡ self.old.home }
        ensures kept { self.new.kept ≡ slice_set self.old.kept number (record (kept_at self.old number) { units = (kept_at self.old number).units - units }) }
        ensures fraction_home { result.home ≡ self.old.home }
        ensures fraction_number { result.number ≡ number }
        ensures fraction_kind { result.kind ≡ (kept_at self.old number).kind }
        ensures fraction_units { result.units ≡ units }
    {
        self.fractions[number].split(units)
    }

    /// Takes units of a number back. All had agreed.
    pub fn join(&mut self, number: usize, mut fraction: Fraction<StandingKind>)
        requires inside { number < self.old.home.size }
        requires fraction_home { fraction.home ≡ self.old.home }
        requires fraction_number { fraction.number ≡ number }
        ensures home { self.new.home ≡ self.old.home }
        ensures kept { self.new.kept ≡ slice_set self.old.kept number
            (record (kept_at self.old number) { units = (kept_at self.old number).units + fraction.units }) }
        ensures some { (0 < (kept_at self.old number).units) × (0 < fraction.units) }
        ensures fits { (kept_at self.old number).units + fraction.units ≤ WHOLE }
        ensures kind { fraction.kind ≡ (kept_at self.old number).kind }
    {
        let kept = &mut self.fractions[number];
        kept.apart(&mut fraction);
        kept.join(fraction);
    }

    /// Sets the kind of a number that is kept whole.
    pub fn set(&mut self, number: usize, kind: StandingKind)
        requires inside { number < self.old.home.size }
        requires whole { (kept_at self.old number).units ≡ WHOLE }
        ensures home { self.new.home ≡ self.old.home }
        ensures kept { self.new.kept ≡ slice_set self.old.kept number (whole kind) }
    {
        self.fractions[number].set(&kind, &());
    }

    /// Who has units of a number knows its kind.
    pub fn agree(&self, number: usize, fraction: &Fraction<StandingKind>)
        requires inside { number < self.now.home.size }
        requires fraction_home { fraction.now.home ≡ self.now.home }
        requires fraction_number { fraction.now.number ≡ number }
        ensures { (kept_at self.now number).kind ≡ fraction.now.kind }
    {
        self.fractions[number].agree(fraction);
    }

    /// Grants the first right to a number that is kept whole: of all units but one, or, for a number that others may own too, of a single one.
    pub fn grant(&mut self, number: u32, kind: StandingKind) -> Right
        requires inside { number < self.old.home.size }
        requires whole { (kept_at self.old number).units ≡ WHOLE }
        requires owner { IsOwner kind }
        ensures right_home { home_of result ≡ self.old.home }
        ensures right_number { number_of result ≡ number }
        ensures right_kind { kind_of result ≡ kind }
        ensures home { self.new.home ≡ self.old.home }
        ensures kept { self.new.kept ≡ slice_set self.old.kept number (granted kind) }
    {
        let kept = &mut self.fractions[number as usize];
        kept.set(&kind, &());
        let fraction = kept.split(kind.units());
        Right {
            name: SlotName::of(number),
            fraction,
            witness: Witness::blank(),
            read_fraction: ReadFraction::blank(),
        }
    }

    /// Grants one right more to a number that several may own. At least one unit stays.
    pub fn grant_another(&mut self, number: u32) -> Right
        requires inside { number < self.old.home.size }
        requires kind { (kept_at self.old number).kind ≡ StandingKind.Shared }
        requires more { 1 < (kept_at self.old number).units }
        ensures right_home { home_of result ≡ self.old.home }
        ensures right_number { number_of result ≡ number }
        ensures right_kind { kind_of result ≡ StandingKind.Shared }
        ensures home { self.new.home ≡ self.old.home }
        ensures kept { self.new.kept ≡ slice_set self.old.kept number (record (kept_at self.old number) { units = (kept_at self.old number).units - 1 }) }
    {
        let fraction = self.fractions[number as usize].split(1);
        Right {
            name: SlotName::of(number),
            fraction,
            witness: Witness::blank(),
            read_fraction: ReadFraction::blank(),
        }
    }

    /// Takes a right back. What is kept of its number had agreed with it on the kind.
    pub fn redeem(&mut self, right: Right) -> u32
        requires { home_of right ≡ self.old.home }
        ensures number { result ≡ number_of right }
        ensures inside { result < self.old.home.size }
        ensures kind { (kept_at self.old result).kind ≡ kind_of right }
        ensures owner { IsOwner (kind_of right) }
        ensures some { 0 < (kept_at self.old result).units }
        ensures fits { (kept_at self.old result).units + right_units (kind_of right) ≤ WHOLE }
        ensures home { self.new.home ≡ self.old.home }
        ensures kept { self.new.kept ≡ slice_set self.old.kept result
            (record (kept_at self.old result) { units = (kept_at self.old result).units + right_units (kind_of right) }) }
    {
        let Right {
            name,
            mut fraction,
            witness: _,
            read_fraction,
        } = right;
        let number = name.number();
        read_fraction.discard();
        let kept = &mut self.fractions[number as usize];
        kept.apart(&mut fraction);
        kept.join(fraction);
        number
    }

    /// Grants so many rights more to a number that several may own, in one piece. At least one unit stays.
    pub fn grant_several(&mut self, number: u32, count: u64) -> SharedRights
        requires inside { number < self.old.home.size }
        requires kind { (kept_at self.old number).kind ≡ StandingKind.Shared }
        requires some { 1 ≤ count }
        requires more { count < (kept_at self.old number).units }
        ensures shares_home { shares.home_of result ≡ self.old.home }
        ensures shares_number { shares.number_of result ≡ number }
        ensures shares_count { shares.count_of result ≡ count }
        ensures home { self.new.home ≡ self.old.home }
        ensures kept { self.new.kept ≡ slice_set self.old.kept number
            (record (kept_at self.old number) { units = (kept_at self.old number).units - count }) }
    {
        let fraction = self.fractions[number as usize].split(count);
        SharedRights {
            name: SlotName::of(number),
            count,
            fraction,
        }
    }

    /// Takes rights back that were granted in one piece. What is kept of their number had agreed that several may own it.
    pub fn redeem_several(&mut self, several: SharedRights) -> u32
        requires { shares.home_of several ≡ self.old.home }
        ensures number { result ≡ shares.number_of several }
        ensures inside { result < self.old.home.size }
        ensures kind { (kept_at self.old result).kind ≡ StandingKind.Shared }
        ensures some { (0 < (kept_at self.old result).units) × (1 ≤ shares.count_of several) }
        ensures fits { (kept_at self.old result).units + shares.count_of several ≤ WHOLE }
        ensures home { self.new.home ≡ self.old.home }
        ensures kept { self.new.kept ≡ slice_set self.old.kept result
            (record (kept_at self.old result) { units = (kept_at self.old result).units + shares.count_of several }) }
    {
        let SharedRights {
            name,
            count: _,
            mut fraction,
        } = several;
        let number = name.number();
        let kept = &mut self.fractions[number as usize];
        kept.apart(&mut fraction);
        kept.join(fraction);
        number
    }

    /// Who has a right to a number agrees on its kind.
    pub fn agrees(&self, right: &Right)
        requires { home_of right.now ≡ self.now.home }
        ensures inside { number_of right.now < self.now.home.size }
        ensures kind { (kept_at self.now (number_of right.now)).kind ≡ kind_of right.now }
        ensures owner { IsOwner (kind_of right.now) }
    {
        self.fractions[right.name.number() as usize].agree(&right.fraction);
    }

    /// Grants a right to a number that is kept whole, which is out as raw from then on.
    pub fn grant_raw(&mut self, number: u32) -> RawRight
        requires inside { number < self.old.home.size }
        requires whole { (kept_at self.old number).units ≡ WHOLE }
        ensures right_home { raw_home_of result ≡ self.old.home }
        ensures right_number { raw_number_of result ≡ number }
        ensures home { self.new.home ≡ self.old.home }
        ensures kept { self.new.kept ≡ slice_set self.old.kept number (granted StandingKind.Raw) }
    {
        let kept = &mut self.fractions[number as usize];
        kept.set(&StandingKind::Raw, &());
        let fraction = kept.split(StandingKind::Raw.units());
        RawRight {
            number,
            fraction,
            witness: Witness::blank(),
        }
    }

    /// Takes a right to a number that is out as raw back.
    pub fn redeem_raw(&mut self, right: RawRight) -> u32
        requires { raw_home_of right ≡ self.old.home }
        ensures number { result ≡ raw_number_of right }
        ensures inside { result < self.old.home.size }
        ensures kind { (kept_at self.old result).kind ≡ StandingKind.Raw }
        ensures home { self.new.home ≡ self.old.home }
        ensures kept { self.new.kept ≡ slice_set self.old.kept result
            (record (kept_at self.old result) { units = (kept_at self.old result).units + right_units StandingKind.Raw }) }
    {
        let RawRight {
            number,
            mut fraction,
            witness: _,
        } = right;
        let kept = &mut self.fractions[number as usize];
        kept.apart(&mut fraction);
        kept.join(fraction);
        number
    }

    /// Who has a right to a number that is out as raw agrees on that.
    pub fn agrees_raw(&self, raw: &RawRight)
        requires { raw_home_of raw.now ≡ self.now.home }
        ensures inside { raw_number_of raw.now < self.now.home.size }
        ensures kind { (kept_at self.now (raw_number_of raw.now)).kind ≡ StandingKind.Raw }
    {
        self.fractions[raw.number as usize].agree(&raw.fraction);
    }
}
