//! Items that are out as raw: a participant puts one out, takes it back, and looks at it under a guard meanwhile.
ghost use Rattle.std.specs.Prelude.{◌≡◌, ◌<◌, false, MatchOption};
ghost use base.Stored.{Gv};
ghost use Rattle.sdd_rights.specs.Right.{number_of, home_of, kind_of};
ghost use Rattle.sdd_space.specs.Guard.{reader_of};
ghost use Rattle.sdd_world_model.specs.OwnerOrCell.{AreOf};
ghost use Rattle.sdd_shared_values.specs.SharedValues.{showing};
ghost use Rattle.sdd_domain_steps.specs.SpaceIds.{home_in};
ghost use Rattle.sdd_domain_steps.specs.LocalState.{IsLone, KnowsOwner, LooksAt};
ghost use Rattle.sdd_domain_steps.specs.Items.{slots_home, IsRightTo};
ghost use Rattle.sdd_domain_steps.specs.SeenSlots.{IsOnce};
ghost use Rattle.sdd_domain_steps.specs.RawItems.{put_out as after_put_out, taken_back, IsOut, KnowsRaw};

use crate::local_core::LocalCore;
use sdd_atomics::steps::raw::{RAW, look_for_raw};
use sdd_atomics::steps::slots::{recall, take_in};
use sdd_atomics::steps::values::look;
use sdd_domain_steps::raw::values::{put_out, take_back};
use sdd_participants::Job;
use sdd_rights::{Right, StandingKind};
use sdd_space::inner::section_of;
use sdd_space::{Guard, Item};

impl<'d, T: Item<T>, J: Job> LocalCore<'d, T, J> {
    /// Puts the item of an owner out as raw that is the only one that there could be.
    #[inline]
    pub fn into_raw(&mut self, right: Right) -> u32
        requires home { home_of right ≡ slots_home self.old }
        requires kind { kind_of right ≡ StandingKind.Owned }
        ensures slot { result ≡ number_of right }
        ensures out { self.new ≡ after_put_out (number_of right) self.old }
        ensures recalled { IsLone self.old → (value : Gv) × KnowsOwner self.old (number_of right) false value }
    {
        let slot = right.number();
        let (owner, read_fraction) = right.into_owner();
        recall(&mut self.seat, &owner);
        take_in(&mut self.seat, owner);
        put_out(&mut self.seat, slot, read_fraction);
        slot
    }

    /// The only owner of an item that is out as raw, by one exchange; of any other slot none.
    #[inline]
    pub fn from_raw(&mut self, slot: u32) -> Option<Right>
        ensures { MatchOption result
            ((self.new ≡ self.old) × (IsLone self.old → (slot < self.old.limits.slots) → ¬ (IsOut self.old slot)))
            (λ right. (number_of right ≡ slot) × (slot < self.old.limits.slots) × (self.new ≡ taken_back slot self.old)
            × ((value : Gv) × IsRightTo self.old StandingKind.Owned value right × (IsLone self.old → KnowsRaw self.old slot value))) }
    {
        let slots = self.domain.limits.slots;
        if slot as u64 >= slots {
            return None;
        }
        let (owner, read_fraction) = take_back(&mut self.seat, slot)?;
        Some(Right::of_witness(
            slot,
            slots as usize,
            StandingKind::Owned,
            owner,
            read_fraction,
        ))
    }

    /// The value of an item that is out as raw, for as long as the guard is borrowed; of any other slot none.
    #[inline]
    pub fn get_guarded_raw<'g>(&mut self, slot: u32, guard: &'g Guard) -> Option<&'g T>
        requires reader { reader_of guard.now ≡ self.old.reader }
        ensures { MatchOption result
            ((self.new ≡ self.old) × (IsLone self.old → (slot < self.old.limits.slots) → ¬ (IsOut self.old slot)))
            (λ value. (slot < self.old.limits.slots) × LooksAt slot false (showing T.row value.now) self.old self.new × IsOnce self.new.shown
            × AreOf (home_in self.old) (T.holds value.now) × (IsLone self.old → KnowsRaw self.old slot (showing T.row value.now))) }
    {
        if slot as u64 >= self.domain.limits.slots {
            return None;
        }
        let section = section_of(guard);
        self.section.agree(section);
        if look_for_raw(&mut self.seat, slot) != RAW {
            return None;
        }
        Some(look(&self.domain.values, slot as usize, &mut self.seat, section))
    }
}
