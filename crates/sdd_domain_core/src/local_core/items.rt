//! Items in slots: a participant makes one, looks at it beside its owner, and lets it go.
ghost use Rattle.std.specs.Prelude.{◌≡◌, ◌<◌, ◌⊎◌, ℕ, true, IfOk, IfSome, IsTrue, MatchOption, MatchResult, Some, slice_set};
ghost use base.Stored.{Gv};
ghost use Rattle.sdd_rights.specs.StandingKind.{IsOwner, is_shared};
ghost use Rattle.sdd_rights.specs.Right.{number_of, home_of, kind_of};
ghost use Rattle.sdd_space.specs.Guard.{reader_of};
ghost use Rattle.sdd_world_model.specs.OwnerOrCell.{AreOf};
ghost use Rattle.sdd_domain_steps.specs.SpaceIds.{home_in};
ghost use Rattle.sdd_shared_values.specs.SharedValues.{showing};
ghost use Rattle.sdd_domain_invariant.specs.Codes.{claimed_word};
ghost use Rattle.sdd_domain_steps.specs.LocalState.{IsFree, IsLone, IsUsedUp, KnowsOwner, MakesAt, LooksAt, OwnerGoes, AddsAt, HasMost};
ghost use Rattle.sdd_domain_steps.specs.Items.{slots_home, HasValue, IsRightTo, IsSameOwner};
ghost use Rattle.sdd_domain_steps.specs.SeenOwners.{HasNoOwner, KnowsStill, OwnsNoMore, ShowsTo};
ghost use Rattle.sdd_domain_steps.specs.SeenSlots.{IsOnce};

use crate::local_core::LocalCore;
use sdd_atomics::steps::slots::{
    MOST_SHARED, OWNED, SHARED_BY_ONE, add_owner, cut, draw_unit, recall, take_in, watch,
};
use sdd_atomics::steps::values::look;
use sdd_core::{Refused, SlotName};
use sdd_domain_steps::cells::values::bind;
use sdd_domain_steps::sightings::without_sightings;
use sdd_domain_steps::slots::claims::{claim_free, finds_free};
use sdd_domain_steps::slots::seen_owners::own_seen;
use sdd_domain_steps::slots::values::{let_one_go, put_value};
use sdd_participants::{Job, LimboEntry};
use sdd_rights::{Right, StandingKind};
use sdd_shared_values::GhostValues;
use sdd_space::inner::section_of;
use sdd_space::{Guard, Item};

/// An owner of this kind may be one of several.
#[inline]
pub(super) fn is_one_of_several(kind: StandingKind) -> bool
    ensures { result ≡ is_shared kind }
{
    match kind {
        StandingKind::Shared => true,
        StandingKind::Free | StandingKind::Owned | StandingKind::Raw | StandingKind::Retired =>
            false,
    }
}

/// The word by which a slot is claimed for the first owner of an item.
#[inline]
fn first_word(shared: bool) -> u64
    ensures { result ≡ claimed_word shared }
{
    if shared { SHARED_BY_ONE } else { OWNED }
}

impl<'d, T: Item<T>, J: Job> LocalCore<'d, T, J> {
    /// Puts a value into a free slot, for an owner of this kind, and enters it in the ghost values. No memory is taken.
    ///
    /// The value comes back where it is refused: `NoSlot` where a walk over all slots found none free; `Contended` where as many exchanges
    /// were lost as the limits allow.
    #[inline(always)]
    pub fn new_item(
        &mut self,
        value: T,
        kind: StandingKind,
        ghost_values: &mut GhostValues<T>,
    ) -> Result<Right, (T, Refused)>
        requires owner { IsOwner kind }
        requires home { AreOf (home_in self.old) (T.holds value) }
        ensures made { MatchResult result
            (λ right. MakesAt (number_of right) (is_shared kind) (showing T.row value) self.old self.new × IsRightTo self.old kind (showing T.row value) right)
            (λ e. (e.0 ≡ value) × (self.new ≡ self.old) × ((e.1 ≡ Refused.NoSlot) ⊎ (e.1 ≡ Refused.Contended))
            × (IsLone self.old → (e.1 ≡ Refused.NoSlot) × IsUsedUp self.old)) }
        ensures entry { MatchResult result
            (λ right. ghost_values.new.entries ≡ slice_set ghost_values.old.entries (number_of right) (Some (value, showing T.row value)))
            (λ _. ghost_values.new.entries ≡ ghost_values.old.entries) }
    {
        let limits = &self.domain.limits;
        let shared = is_one_of_several(kind);
        let word = first_word(shared);
        match claim_free(&mut self.seat, &mut self.known, limits, word) {
            Ok(slot) => {
                ghost_values.fill(slot as usize, &value);
                let (owner, read_fraction) = put_value(
                    &self.domain.values,
                    &mut self.seat,
                    slot,
                    shared,
                    value,
                );
                self.tally.count_made();
                let slots = limits.slots as usize;
                Ok(Right::of_witness(slot, slots, kind, owner, read_fraction))
            }
            Err(missed) => Err((value, without_sightings(missed))),
        }
    }

    /// Makes a value and puts it into a free slot; where it is refused, as `make` is, it isn't made.
    #[inline]
    pub fn new_item_with<F: FnOnce() -> T>(
        &mut self,
        make: F,
        kind: StandingKind,
        ghost_values: &mut GhostValues<T>,
    ) -> Result<Right, (F, Refused)>
        requires callable { F.pre make }
        requires owner { IsOwner kind }
        requires home { (value : T) → F.post make value → AreOf (home_in self.old) (T.holds value) }
        ensures { MatchResult result
            (λ right. (value : T) × F.post make value × MakesAt (number_of right) (is_shared kind) (showing T.row value) self.old self.new
            × IsRightTo self.old kind (showing T.row value) right
            × (ghost_values.new.entries ≡ slice_set ghost_values.old.entries (number_of right) (Some (value, showing T.row value))))
            (λ e. (e.0 ≡ make) × (self.new ≡ self.old) × ((e.1 ≡ Refused.NoSlot) ⊎ (e.1 ≡ Refused.Contended))
            × (IsLone self.old → (e.1 ≡ Refused.NoSlot) × IsUsedUp self.old) × (ghost_values.new.entries ≡ ghost_values.old.entries)) }
    {
        let limits = &self.domain.limits;
        let shared = is_one_of_several(kind);
        let word = first_word(shared);
        match claim_free(&mut self.seat, &mut self.known, limits, word) {
            Ok(slot) => {
                let value = make();
                ghost_values.fill(slot as usize, &value);
                let (owner, read_fraction) = put_value(
                    &self.domain.values,
                    &mut self.seat,
                    slot,
                    shared,
                    value,
                );
                self.tally.count_made();
                let slots = limits.slots as usize;
                Ok(Right::of_witness(slot, slots, kind, owner, read_fraction))
            }
            Err(missed) => Err((make, without_sightings(missed))),
        }
    }

    /// A slot is found free. What others do meanwhile isn't known.
    pub fn has_slot(&mut self) -> bool
        ensures same { self.new ≡ self.old }
        ensures found { IsTrue result → IsLone self.old → (slot : ℕ) × (slot < self.old.limits.slots) × IsFree self.old slot }
        ensures missed { ¬ (IsTrue result) → IsLone self.old → IsUsedUp self.old }
    {
        let slots = self.domain.limits.slots;
        finds_free(&mut self.seat, slots as u32)
    }

    /// The value of an owner's item, for as long as the guard is borrowed. The owner may be with another participant of the domain.
    #[inline]
    pub fn get_guarded<'g>(&mut self, right: &Right, guard: &'g Guard) -> &'g T
        requires home { home_of right.now ≡ slots_home self.old }
        requires reader { reader_of guard.now ≡ self.old.reader }
        ensures looks { LooksAt (number_of right.now) (is_shared (kind_of right.now)) (showing T.row result.now) self.old self.new }
        ensures once { IsOnce self.new.shown }
        ensures value { HasValue (showing T.row result.now) right.now }
        ensures home { AreOf (home_in self.old) (T.holds result.now) }
        ensures recalled { IsLone self.old → KnowsOwner self.old (number_of right.now) (is_shared (kind_of right.now)) (showing T.row result.now) }
    {
        let section = section_of(guard);
        self.section.agree(section);
        let owner = right.witness();
        recall(&mut self.seat, owner);
        watch(&mut self.seat, owner);
        look(
            &self.domain.values,
            right.number() as usize,
            &mut self.seat,
            section,
        )
    }

    /// Beside an owner a lone participant knows that it moved into the slot last what the owner tells. Nothing changes.
    pub fn recall_owner(&mut self, right: &Right)
        requires { home_of right.now ≡ slots_home self.old }
        ensures same { self.new ≡ self.old }
        ensures recalled { IsLone self.old → (value : Gv) × HasValue value right.now
            × KnowsOwner self.old (number_of right.now) (is_shared (kind_of right.now)) value }
    {
        recall(&mut self.seat, right.witness());
    }

    /// One owner more of the item of an owner that may have others, by one addition. No memory is taken.
    ///
    /// `TooManyOwners` where as many own it as may.
    #[inline]
    pub fn clone_owner(&mut self, right: &Right) -> Result<Right, Refused>
        requires home { home_of right.now ≡ slots_home self.old }
        requires kind { kind_of right.now ≡ StandingKind.Shared }
        ensures came { (word : ℕ) × MatchResult result
            (λ other. AddsAt (number_of right.now) word self.old self.new × IsSameOwner right.now other)
            (λ e. (e ≡ Refused.TooManyOwners) × HasMost (number_of right.now) word self.old self.new) }
        ensures recalled { IsLone self.old → (value : Gv) × KnowsOwner self.old (number_of right.now) true value }
    {
        let slot = right.number();
        let slots = self.domain.limits.slots as usize;
        let owner = right.witness();
        recall(&mut self.seat, owner);
        if add_owner(&mut self.seat, slot, owner) >= MOST_SHARED {
            return Err(Refused::TooManyOwners);
        }
        let read_fraction = draw_unit(&mut self.seat, slot).into_read_fraction();
        let other = cut(&mut self.seat);
        Ok(Right::of_witness(slot, slots, StandingKind::Shared, other, read_fraction))
    }

    /// One owner more of an item whose value nobody moves, as its guards see it or nobody else takes part, if it may have several and has one still. No
    /// memory is taken.
    ///
    /// `TooManyOwners` where as many own it as may; `Contended` where others came or went meanwhile as often as the limits allow.
    pub fn own_seen(&mut self, slot: u32) -> Result<Option<Right>, Refused>
        requires still { KnowsStill self.old slot }
        ensures came { MatchResult result
            (λ o. MatchOption o ((self.new ≡ self.old) × HasNoOwner self.old slot)
            (λ right. (number_of right ≡ slot) × ((word : ℕ) × AddsAt slot word self.old self.new)))
            (λ e. (self.new ≡ self.old) × OwnsNoMore self.old slot e) }
        ensures right { IfOk result (λ o. IfSome o (λ right. (value : Gv) × IsRightTo self.old StandingKind.Shared value right × ShowsTo self.old slot value)) }
    {
        let slots = self.domain.limits.slots;
        if slot as u64 >= slots {
            return Ok(None);
        }
        let tries = self.domain.limits.tries;
        let table = &self.domain.table;
        let loose = match own_seen(&mut self.seat, slot, tries) {
            Ok(loose) => loose,
            Err(refused) => return Err(refused),
        };
        Ok(bind(table, slots, loose, StandingKind::Shared))
    }

    /// Lets an owner of this kind go, and answers whether it was the last. The last one's item waits until three changes were seen. No memory is taken.
    #[inline(always)]
    pub fn release(&mut self, right: Right, kind: StandingKind) -> bool
        requires home { home_of right ≡ slots_home self.old }
        requires kind { kind_of right ≡ kind }
        ensures went { OwnerGoes (number_of right) (is_shared (kind_of right)) result self.old self.new }
        ensures unique { kind_of right ≡ StandingKind.Owned → IsTrue result }
        ensures recalled { IsLone self.old → (value : Gv) × KnowsOwner self.old (number_of right) (is_shared (kind_of right)) value }
    {
        let slot = right.number();
        let (owner, read_fraction) = right.into_owner();
        recall(&mut self.seat, &owner);
        take_in(&mut self.seat, owner);
        let shared = is_one_of_several(kind);
        if !let_one_go(&mut self.seat, slot, read_fraction, shared) {
            return false;
        }
        self.own.bags.push(LimboEntry::Item(SlotName::of(slot)));
        self.own.set_has_garbage();
        true
    }
}
