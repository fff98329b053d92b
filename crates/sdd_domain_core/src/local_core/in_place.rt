//! Items in their place: the value of an owner that is alone is changed, or dropped at once.
ghost use Rattle.std.specs.Prelude.{◌≡◌, ◌⊎◌, true, MatchOption, MatchResult, None, Some, slice_set};
ghost use Rattle.std.specs.Fn.{FnOnceReturnsAtMut};
ghost use base.Stored.{Gv};
ghost use Rattle.sdd_rights.specs.StandingKind.{is_shared};
ghost use Rattle.sdd_rights.specs.Right.{number_of, home_of, kind_of};
ghost use Rattle.sdd_world_model.specs.OwnerOrCell.{AreOf};
ghost use Rattle.sdd_shared_values.specs.SharedValues.{showing};
ghost use Rattle.sdd_domain_steps.specs.SpaceIds.{home_in};
ghost use Rattle.sdd_domain_steps.specs.LocalState.{IsLone, KnowsOwner, ChangesAt, DropsAt, GoesBeside, HasOthers, SeesGuard};
ghost use Rattle.sdd_domain_steps.specs.Items.{slots_home, HasValue, IsRightTo};

use crate::local_core::LocalCore;
use crate::local_core::items::is_one_of_several;
use sdd_atomics::steps::slots::recall;
use sdd_core::Refused;
use sdd_domain_steps::slots::holding::{change_alone, go_in_place, hold_alone};
use sdd_participants::Job;
use sdd_rights::{Right, StandingKind};
use sdd_shared_values::GhostValues;
use sdd_space::Item;

impl<'d, T: Item<T>, J: Job> LocalCore<'d, T, J> {
    /// Changes the value of an owner's item in its place, and enters it in the ghost values. No memory is taken.
    ///
    /// `f` comes back uncalled: `NotAlone` where others own the item, and else `GuardOpen` where a guard is open at some place, the own one too.
    pub fn get_mut<R, F: FnOnce(&mut T) -> R>(
        &mut self,
        right: &mut Right,
        kind: StandingKind,
        f: F,
        ghost_values: &mut GhostValues<T>,
    ) -> Result<R, (F, Refused)>
        requires home { home_of right.old ≡ slots_home self.old }
        requires kind { kind_of right.old ≡ kind }
        requires closes { self.old.slots.closes ≡ None }
        requires callable { F.IsAlwaysCallable f }
        requires held { (was now : T) (r : R) → FnOnceReturnsAtMut F.FnOnce f was r now →
            AreOf (home_in self.old) (T.holds was) → AreOf (home_in self.old) (T.holds now) }
        ensures changed { MatchResult result
            (λ r. (was now : T) × HasValue (showing T.row was) right.old × FnOnceReturnsAtMut F.FnOnce f was r now
            × ChangesAt (number_of right.old) (is_shared kind) (showing T.row now) self.old self.new
            × IsRightTo self.old kind (showing T.row now) right.new × AreOf (home_in self.old) (T.holds now)
            × (ghost_values.new.entries ≡ slice_set ghost_values.old.entries (number_of right.old) (Some (now, showing T.row now))))
            (λ e. (e.0 ≡ f) × (right.new ≡ right.old) × (ghost_values.new.entries ≡ ghost_values.old.entries)
            × (((e.1 ≡ Refused.NotAlone) × HasOthers (number_of right.old) (is_shared kind) self.old self.new)
            ⊎ ((e.1 ≡ Refused.GuardOpen) × SeesGuard (number_of right.old) (is_shared kind) self.old self.new))) }
        ensures slot { number_of right.new ≡ number_of right.old }
        ensures recalled { IsLone self.old → (value : Gv) × HasValue value right.old × KnowsOwner self.old (number_of right.old) (is_shared kind) value }
    {
        let slot = right.number();
        let slots = self.domain.limits.slots as usize;
        let shared = is_one_of_several(kind);
        let (owner, read_fraction) = right.take().into_owner();
        recall(&mut self.seat, &owner);
        match hold_alone(&mut self.seat, slot, shared, owner) {
            Ok(()) => {
                let values = &self.domain.values;
                let (owner, read_fraction, answer) = change_alone(
                    values,
                    &mut self.seat,
                    ghost_values,
                    slot,
                    shared,
                    read_fraction,
                    f,
                );
                right.put(Right::of_witness(slot, slots, kind, owner, read_fraction));
                Ok(answer)
            }
            Err((owner, hindrance)) => {
                right.put(Right::of_witness(slot, slots, kind, owner, read_fraction));
                Err((f, hindrance.refused()))
            }
        }
    }

    /// Lets an owner go, whose item is dropped in its place where it is the last: then its value comes out, and its slot is free at once.
    ///
    /// The owner comes back: `GuardOpen` where it is the last and a guard is open at some place, the own one too; `Contended` where others came or went
    /// meanwhile as often as the limits allow.
    pub fn drop_in_place(
        &mut self,
        right: Right,
        kind: StandingKind,
    ) -> Result<Option<T>, (Right, Refused)>
        requires home { home_of right ≡ slots_home self.old }
        requires kind { kind_of right ≡ kind }
        requires closes { self.old.slots.closes ≡ None }
        ensures gone { MatchResult result
            (λ gone. MatchOption gone
            (GoesBeside (number_of right) (is_shared kind) self.old self.new)
            (λ value. HasValue (showing T.row value) right × DropsAt (number_of right) (is_shared kind) self.old self.new
            × AreOf (home_in self.old) (T.holds value)))
            (λ e. (e.0 ≡ right) × (((e.1 ≡ Refused.GuardOpen) × SeesGuard (number_of right) (is_shared kind) self.old self.new)
            ⊎ ((e.1 ≡ Refused.Contended) × (self.new ≡ self.old) × (is_shared kind ≡ true) × ¬ (IsLone self.old)))) }
        ensures recalled { IsLone self.old → (value : Gv) × HasValue value right × KnowsOwner self.old (number_of right) (is_shared kind) value }
    {
        let slot = right.number();
        let slots = self.domain.limits.slots as usize;
        let tries = self.domain.limits.tries;
        let shared = is_one_of_several(kind);
        let (owner, read_fraction) = right.into_owner();
        recall(&mut self.seat, &owner);
        match go_in_place(
            &self.domain.values,
            &mut self.seat,
            slot,
            shared,
            owner,
            read_fraction,
            tries,
        ) {
            Ok(gone) => match gone {
                Some(value) => {
                    self.known.remember(slot);
                    self.tally.count_in_place();
                    Ok(Some(value))
                }
                None => Ok(None),
            },
            Err((owner, read_fraction, refused)) => {
                Err((
                    Right::of_witness(slot, slots, kind, owner, read_fraction),
                    refused,
                ))
            }
        }
    }
}
