ghost use Rattle.std.specs.Fn.{FnOnceReturnsAtMut};
ghost use Rattle.sdd_values.specs.Block.{IsUnlent, IsFreeFor, fraction_at, lent, settled, unlent};
ghost use Rattle.std.specs.Prelude.{ℕ, ◌≡◌, ◌≢◌, ◌+◌, ◌^◌, ◌<◌, ◌≤◌, ◌↔◌, All, IfErr, IfNone, IfOk, IfSome, IsNone, IsSome, IsTrue, MatchOption, MatchResult, None, OnErr, OnSome, Some, length, replicate, unwrap_or};
ghost use Rattle.sdd_rights.specs.StandingKind.{IsOwner};
ghost use Rattle.sdd_rights.specs.Right.{number_of, home_of, kind_of, badge_home};
ghost use Rattle.sdd_rights.specs.SharedRights as shares;
ghost use Rattle.sdd_participants.specs.Slab.{IsEmptyAt, IsFull};
ghost use Rattle.sdd_world_model.specs.Slots.{standing_at, value_at, with_made, with_standing, with_value, without_slot, first_standing, released_standing, released_to, has_others, owners_of, IsOwnedBy, IsSharedBy, IsWaiting};

use sdd_core::SlotName;
use sdd_core::hint::assert_unchecked;
use sdd_participants::{Slab, Standing, StandingLookup};
use sdd_rights::{NameWitness, Right, RightsAuthority, SharedRights, StandingKind};
use sdd_values::{EndedSection, LentValues, ReadSection};
use std::alloc::{AllocError, Global};
use std::marker::Model;

/// How many owners may share an item.
pub const MOST_OWNERS: u64 = 1 << 62;

/// Slots for values, each free or with a value and a standing.
///
/// Memory is taken when the slots are made, and never again. No call's cost depends on how many slots there are.
pub struct WorldSlots<T> {
    rights: RightsAuthority,
    standings: Slab<Standing>,
    places: LentValues<T>,
}

impl<T> Model for WorldSlots<T> {
    ghost use Rattle.sdd_world_model.specs.Slots.{Slots, SlotsMatch};

    ghost Value = { Slots T };

    ghost view = { λ s. record {
      home = s.rights.home;
      standings = s.standings;
      values = s.places.values;
      fractions = s.places.fractions;
      readers = s.places.readers;
    } };

    ghost invariant = { λ s. SlotsMatch s.rights.home s.rights.kept s.standings s.places.values };
}

impl<T> WorldSlots<T> {
    /// That many slots, all free, in a home of their own.
    pub fn new(alloc: Global, size: u32, readers: u32) -> Result<WorldSlots<T>, AllocError>
        ensures size { IfOk result (λ slots. slots.home.size ≡ size) }
        ensures standings { IfOk result (λ slots. slots.standings ≡ replicate size None) }
        ensures values { IfOk result (λ slots. slots.values ≡ replicate size None) }
        ensures fractions { IfOk result (λ slots. (slots.fractions ≡ unlent size readers) × (slots.readers ≡ readers)) }
    {
        let rights = RightsAuthority::new(alloc, size as usize, StandingKind::Free)?;
        let standings = Slab::new(alloc, size, Standing::Retired)?;
        let places = LentValues::new(alloc, size as usize, readers)?;
        Ok(WorldSlots {
            rights,
            standings,
            places,
        })
    }

    /// A badge of the home of these slots.
    pub fn badge(&mut self) -> NameWitness
        ensures home { badge_home result ≡ self.old.home }
        ensures same { self.new ≡ self.old }
    {
        self.rights.badge()
    }

    /// How many slots there are.
    pub fn len(&self) -> usize
        ensures home { result ≡ self.now.home.size }
        ensures standings { result ≡ length self.now.standings }
        ensures values { result ≡ length self.now.values }
    {
        self.places.len()
    }

    /// Every slot is free.
    pub fn is_unused(&self) -> bool
        ensures { IsTrue result ↔ All (λ standing. IsNone standing) self.now.standings }
    {
        self.standings.is_empty()
    }

    /// No slot is free.
    pub fn is_full(&self) -> bool
        ensures { IsTrue result ↔ IsFull self.now.standings }
    {
        self.standings.is_full()
    }

    /// Puts a value into some free slot, whose owner has a right of this kind; where none is free the value comes back.
    pub fn new_item(&mut self, value: T, kind: StandingKind) -> Result<Right, T>
        requires owner { IsOwner kind }
        ensures home { IfOk result (λ right. home_of right ≡ self.old.home) }
        ensures kind { IfOk result (λ right. kind_of right ≡ kind) }
        ensures free { IfOk result (λ right. IsEmptyAt self.old.standings (number_of right)) }
        ensures made { MatchResult result
            (λ right. self.new ≡ with_made self.old (number_of right) value (first_standing kind))
            (λ _. self.new ≡ self.old) }
        ensures full { OnErr result (IsFull self.old.standings) }
        ensures back { IfErr result (λ back. back ≡ value) }
    {
        let Ok(slot) = self.standings.claim(first_standing(kind)) else {
            return Err(value);
        };
        self.places.put(slot as usize, value);
        Ok(self.rights.grant(slot, kind))
    }

    /// Puts a value into some free slot for so many owners at once, who share it: the right of one, and those of the others in one piece. Where none is free
    /// the value comes back.
    pub fn new_shared(&mut self, value: T, owners: u64) -> Result<(Right, SharedRights), T>
        requires several { 2 ≤ owners }
        requires most { owners ≤ 2 ^ 62 }
        ensures home { IfOk result (λ made. home_of made.0 ≡ self.old.home) }
        ensures kind { IfOk result (λ made. kind_of made.0 ≡ StandingKind.Shared) }
        ensures free { IfOk result (λ made. IsEmptyAt self.old.standings (number_of made.0)) }
        ensures made { MatchResult result
            (λ made. self.new ≡ with_made self.old (number_of made.0) value (Standing.Shared owners))
            (λ _. self.new ≡ self.old) }
        ensures others { IfOk result (λ made. (shares.home_of made.1 ≡ self.old.home) × (shares.number_of made.1 ≡ number_of made.0) ×
            (shares.count_of made.1 + 1 ≡ owners)) }
        ensures full { OnErr result (IsFull self.old.standings) }
        ensures back { IfErr result (λ back. back ≡ value) }
    {
        let Ok(slot) = self.standings.claim(Standing::Shared(owners)) else {
            return Err(value);
        };
        self.places.put(slot as usize, value);
        let right = self.rights.grant(slot, StandingKind::Shared);
        Ok((right, self.rights.grant_several(slot, owners - 1)))
    }

    /// The slot of an owner, in which its value is.
    pub fn slot_of(&self, right: &Right) -> u32
        requires { home_of right.now ≡ self.now.home }
        ensures slot { result ≡ number_of right.now }
        ensures owned { IsOwnedBy (kind_of right.now) (standing_at self.now result) }
        ensures taken { IsSome (standing_at self.now result) }
    {
        self.rights.agrees(right);
        right.number()
    }

    /// The value of an owner.
    pub fn value<'a>(&'a self, right: &Right) -> &'a T
        requires { home_of right.now ≡ self.now.home }
        ensures value { value_at self.now (number_of right.now) ≡ Some result.now }
    {
        self.places.value(self.slot_of(right) as usize)
    }

    /// The value in a slot that is not free.
    pub fn value_in(&self, slot: u32) -> &T
        requires { IsSome (value_at self.now slot) }
        ensures { value_at self.now slot ≡ Some result.now }
    {
        self.places.value(slot as usize)
    }

    /// How the item in a slot stands; nothing where the slot is free.
    pub fn standing(&self, slot: u32) -> Option<Standing>
        ensures { result ≡ standing_at self.now slot }
    {
        if !self.is_taken(slot) {
            return None;
        }
        Some(self.standings.at(slot))
    }

    /// How many owners share the item in a slot; of one that is not shared nothing.
    pub fn owners(&self, slot: u32) -> Option<u64>
        ensures owners { result ≡ owners_of (standing_at self.now slot) }
        ensures shared { IfSome result (λ owners. IsSharedBy owners (standing_at self.now slot)) }
    {
        let _ = &self.standings;
        match self.standing(slot) {
            Some(Standing::Shared(owners)) => Some(owners),
            _ => None,
        }
    }

    /// How many owners share the item of an owner that may have others beside it.
    pub fn owners_with(&self, right: &Right) -> u64
        requires home { home_of right.now ≡ self.now.home }
        requires kind { kind_of right.now ≡ StandingKind.Shared }
        ensures { IsSharedBy result (standing_at self.now (number_of right.now)) }
    {
        let standing = self.standings.at(self.slot_of(right));
        assert_unchecked(matches!(standing, Standing::Shared(_)));
        match standing {
            Standing::Shared(owners) => owners,
            _ => unreachable!(),
        }
    }

    /// One owner more of an item that is shared, where fewer share it than may.
    pub fn clone_owner(&mut self, slot: u32, owners: u64) -> Right
        requires shared { IsSharedBy owners (standing_at self.old slot) }
        requires fewer { owners < 2 ^ 62 }
        ensures home { home_of result ≡ self.old.home }
        ensures slot { number_of result ≡ slot }
        ensures kind { kind_of result ≡ StandingKind.Shared }
        ensures added { self.new ≡ with_standing self.old slot (Standing.Shared (owners + 1)) }
    {
        self.standings.replace(slot, Standing::Shared(owners + 1));
        self.rights.grant_another(slot)
    }

    /// So many owners more at once, in one piece, of an item that is shared, where with them no more share it than may.
    pub fn add_owners(&mut self, slot: u32, owners: u64, more: u64) -> SharedRights
        requires shared { IsSharedBy owners (standing_at self.old slot) }
        requires some { 1 ≤ more }
        requires fits { owners + more ≤ 2 ^ 62 }
        ensures home { shares.home_of result ≡ self.old.home }
        ensures slot { shares.number_of result ≡ slot }
        ensures count { shares.count_of result ≡ more }
        ensures added { self.new ≡ with_standing self.old slot (Standing.Shared (owners + more)) }
    {
        self.standings
            .replace(slot, Standing::Shared(owners + more));
        self.rights.grant_several(slot, more)
    }

    /// Lets owners go that came in one piece, all but one. So nothing waits afterwards.
    pub fn release_all_but_one(&mut self, several: SharedRights) -> Right
        requires { shares.home_of several ≡ self.old.home }
        ensures home { home_of result ≡ self.old.home }
        ensures slot { number_of result ≡ shares.number_of several }
        ensures kind { kind_of result ≡ StandingKind.Shared }
        ensures gone { (others : ℕ) × IsSharedBy (others + shares.count_of several) (standing_at self.old (shares.number_of several))
            × (self.new ≡ with_standing self.old (shares.number_of several) (Standing.Shared (others + 1))) }
    {
        let count = several.count();
        let slot = self.rights.redeem_several(several);
        let Standing::Shared(owners) = self.standings.at(slot) else {
            unreachable!()
        };
        self.standings
            .replace(slot, Standing::Shared(owners - count + 1));
        self.rights.grant_another(slot)
    }

    /// Lets an owner of this kind go that has others beside it.
    pub fn release(&mut self, right: Right, kind: StandingKind)
        requires home { home_of right ≡ self.old.home }
        requires kind { kind_of right ≡ kind }
        requires others { IsTrue (has_others (standing_at self.old (number_of right))) }
        ensures owned { IsOwnedBy (kind_of right) (standing_at self.old (number_of right)) }
        ensures gone { self.new ≡ with_standing self.old (number_of right) (released_standing (standing_at self.old (number_of right))) }
    {
        let slot = self.slot_of(&right);
        let owners = self.owners_beside(&right, kind);
        self.rights.redeem(right);
        self.standings.replace(slot, Standing::Shared(owners - 1));
    }

    /// Lets the last owner go: the item waits, and stands so.
    pub fn retire(&mut self, right: Right, last: Standing)
        requires home { home_of right ≡ self.old.home }
        requires alone { ¬ (IsTrue (has_others (standing_at self.old (number_of right)))) }
        requires waits { IsWaiting (Some last) }
        ensures owned { IsOwnedBy (kind_of right) (standing_at self.old (number_of right)) }
        ensures gone { self.new ≡ with_standing self.old (number_of right) (released_to last (standing_at self.old (number_of right))) }
    {
        let slot = self.slot_of(&right);
        self.rights.redeem(right);
        self.standings.replace(slot, last);
        self.rights.set(slot as usize, StandingKind::Retired);
    }

    /// The item of the one owner is out as raw, with nobody's right.
    pub fn into_raw(&mut self, right: Right) -> u32
        requires home { home_of right ≡ self.old.home }
        requires kind { kind_of right ≡ StandingKind.Owned }
        ensures slot { result ≡ number_of right }
        ensures owned { standing_at self.old (number_of right) ≡ Some Standing.Owned }
        ensures raw { self.new ≡ with_standing self.old (number_of right) Standing.Raw }
    {
        let slot = self.slot_of(&right);
        self.rights.redeem(right);
        self.rights.set(slot as usize, StandingKind::Raw);
        self.standings.replace(slot, Standing::Raw);
        slot
    }

    /// The right of an owner to a slot whose item is out as raw; to any other slot none.
    pub fn from_raw(&mut self, slot: u32) -> Option<Right>
        ensures home { IfSome result (λ right. home_of right ≡ self.old.home) }
        ensures slot { IfSome result (λ right. number_of right ≡ slot) }
        ensures kind { IfSome result (λ right. kind_of right ≡ StandingKind.Owned) }
        ensures back { MatchOption result
            ((standing_at self.old slot ≢ Some Standing.Raw) × (self.new ≡ self.old))
            (λ _. (standing_at self.old slot ≡ Some Standing.Raw) × (self.new ≡ with_standing self.old slot Standing.Owned)) }
    {
        let Some(Standing::Raw) = self.standing(slot) else {
            return None;
        };
        self.standings.replace(slot, Standing::Owned);
        Some(self.rights.grant(slot, StandingKind::Owned))
    }

    /// Takes the value of a slot that waits, which is free then; of any other slot nothing.
    pub fn reclaim(&mut self, slot: u32) -> Option<T>
        requires home { IsWaiting (standing_at self.old slot) → IsUnlent self.old.fractions slot }
        ensures waited { IsSome result ↔ IsWaiting (standing_at self.old slot) }
        ensures was { IfSome result (λ value. value_at self.old slot ≡ Some value) }
        ensures freed { OnSome result (self.new ≡ without_slot self.old slot) }
        ensures unchanged { IfNone result (self.new ≡ self.old) }
    {
        if !self.is_waiting(slot) {
            return None;
        }
        let value = self.places.take(slot as usize);
        self.standings.release(slot);
        self.rights.set(slot as usize, StandingKind::Free);
        Some(value)
    }

    /// Others share the item of an owner. For the owner of an item that is not shared nothing is looked up.
    pub fn has_others(&self, right: &Right, kind: StandingKind) -> bool
        requires home { home_of right.now ≡ self.now.home }
        requires kind { kind_of right.now ≡ kind }
        ensures others { IsTrue result ↔ IsTrue (has_others (standing_at self.now (number_of right.now))) }
        ensures owned { IsOwnedBy (kind_of right.now) (standing_at self.now (number_of right.now)) }
    {
        let _ = self.slot_of(right);
        self.owners_beside(right, kind) > 1
    }

    /// Changes the value of an owner's item, which is lent to nobody.
    pub fn get_mut<R, F: FnOnce(&mut T) -> R>(&mut self, right: &Right, f: F) -> R
        requires right { home_of right.now ≡ self.old.home }
        requires home { IsUnlent self.old.fractions (number_of right.now) }
        requires callable { F.IsAlwaysCallable f }
        ensures { (was : T) × (now : T) × (value_at self.old (number_of right.now) ≡ Some was) × FnOnceReturnsAtMut F.FnOnce f was result now ×
            (self.new ≡ with_value self.old (number_of right.now) now) }
    {
        let slot = self.slot_of(right);
        self.places.edit(slot as usize, f)
    }

    /// Takes the value of an owner that is alone, which is lent to nobody. The slot is free then.
    pub fn take(&mut self, right: Right) -> T
        requires right { home_of right ≡ self.old.home }
        requires alone { ¬ (IsTrue (has_others (standing_at self.old (number_of right)))) }
        requires home { IsUnlent self.old.fractions (number_of right) }
        ensures owned { IsOwnedBy (kind_of right) (standing_at self.old (number_of right)) }
        ensures value { value_at self.old (number_of right) ≡ Some result }
        ensures taken { self.new ≡ without_slot self.old (number_of right) }
    {
        let slot = self.slot_of(&right);
        self.rights.redeem(right);
        self.rights.set(slot as usize, StandingKind::Free);
        self.standings.release(slot);
        self.places.take(slot as usize)
    }

    /// The value in a slot that isn't free, for a reader, for as long as its section is borrowed.
    pub fn look<'g>(&mut self, slot: u32, reader: usize, section: &'g ReadSection) -> &'g T
        requires taken { IsSome (standing_at self.old slot) }
        requires reader { reader < self.old.readers }
        requires free { IsFreeFor section.now.lifetime (fraction_at self.old.fractions slot reader) }
        ensures value { value_at self.old slot ≡ Some result.now }
        ensures lent { self.new ≡ record self.old { fractions = lent slot reader section.now.lifetime self.old.fractions } }
    {
        self.places.look(slot as usize, reader, section)
    }

    /// What a reader was lent in a section that has ended is home again.
    pub fn settle(&mut self, reader: usize, ended: &EndedSection)
        requires { (at : ℕ) → IsFreeFor ended.now.name (fraction_at self.old.fractions at reader) }
        ensures { self.new ≡ record self.old { fractions = settled reader self.old.fractions } }
    {
        self.places.settle(reader, ended);
    }

    /// Lets go of slots that are all free. Their values need not be `Drop`, since there are none.
    pub fn destroy(self)
        requires { All (λ standing. IsNone standing) self.standings }
    {
        let WorldSlots {
            rights: _,
            standings: _,
            places,
        } = self;
        places.destroy();
    }

    /// How many owners an owner's item has, itself among them. For the owner of an item that is not shared nothing is looked up.
    fn owners_beside(&self, right: &Right, kind: StandingKind) -> u64
        requires home { home_of right.now ≡ self.now.home }
        requires kind { kind_of right.now ≡ kind }
        ensures { result ≡ unwrap_or (owners_of (standing_at self.now (number_of right.now))) 1 }
    {
        let _ = self.slot_of(right);
        match kind {
            StandingKind::Shared => self.owners_with(right),
            StandingKind::Free | StandingKind::Owned | StandingKind::Raw | StandingKind::Retired =>
                1,
        }
    }

    fn is_waiting(&self, slot: u32) -> bool
        ensures { IsTrue result ↔ IsWaiting (standing_at self.now slot) }
    {
        !matches!(
            self.standing(slot),
            None | Some(Standing::Owned | Standing::Raw | Standing::Shared(_))
        )
    }

    /// The slot isn't free: a value is there.
    fn is_taken(&self, slot: u32) -> bool
        ensures { IsTrue result ↔ IsSome (standing_at self.now slot) }
    {
        match self.places.get(slot as usize) {
            Some(_) => true,
            None => false,
        }
    }
}

impl<T> StandingLookup for WorldSlots<T> {
    ghost use Rattle.sdd_world_model.specs.Slots.{Slots};

    ghost standings = { λ s. s.standings };

    fn stands(&self, slot: SlotName) -> Option<Standing> {
        self.standing(slot.number())
    }
}

/// How the item of a new owner stands.
fn first_standing(kind: StandingKind) -> Standing
    ensures { result ≡ first_standing kind }
{
    match kind {
        StandingKind::Shared => Standing::Shared(1),
        StandingKind::Free | StandingKind::Owned | StandingKind::Raw | StandingKind::Retired =>
            Standing::Owned,
    }
}
