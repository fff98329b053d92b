//! A participant as the generic calls of guards and items have it.
ghost use Rattle.sdd_shared_values.specs.SharedValues.{showing};

mod cells;
mod collectors;
mod raw_cells;

use crate::local::Local;
use sdd_core::{Refused, SlotName};
use sdd_domain_core::reclaiming::LocalGiver;
use sdd_participants::Job;
use sdd_rights::{Right, StandingKind};
use sdd_space::inner::value_of_ptr;
use sdd_space::{
    Caller, Deferrals, Guard, Guards, InPlaceItems, Item, Items, Look, LookThrough, Ptr, RawItems,
    SharedItems, SharedOwners, Shows, Space,
};

/// Others may change the domain between two calls, unless there is one participant alone.
impl<T: Item<T>, J: Job> Space<T> for Local<'_, T, J> {
    ghost use Rattle.std.specs.Prelude.{false};

    const ALONE: bool = false;

    ghost is_alone = { false };

    ghost alone_is_exact = { λ _ alone. absurd cc };
}

impl<T: Item<T>, J: Job> Shows<T> for Local<'_, T, J> {
    ghost use Rattle.sdd_domain_steps.specs.SpaceIds.{home_in};
    ghost use Rattle.sdd_domain_steps.specs.Items.{HasValue};
    ghost use Rattle.sdd_domain_core.specs.Space.{Shows};
    ghost use Rattle.sdd_domain_steps.specs.Values.{one_value};

    ghost home = { λ p. home_in p.member };

    ghost shows = { λ p slot value. Shows (showing T.row) T.holds p slot value };

    ghost owns_value = { λ _ right value. HasValue (showing T.row value) right };

    fn shown_is_of_home(&self) {
        let _giver = &self.giver;
    }

    ghost one_owned = { λ _ right u v a b. one_value T.row right u v a b };

    ghost keeps_owned = { λ _ _ _ _ _ _ owns. owns };
}

/// An owner looks at its item without a guard. Its seat tells the value, so that no step is needed.
impl<T: Item<T>, J: Job> Look<T> for Local<'_, T, J> {
    ghost knows_slots = { λ _. ⊥ };

    #[inline]
    fn value<'a>(&'a self, right: &'a Right) -> &'a T {
        self.giver
            .core
            .domain()
            .values
            .view(right.number() as usize, right.read_fraction())
    }
}

impl<T: Item<T>, J: Job> LookThrough<T> for Local<'_, T, J> {
    ghost use Rattle.std.specs.Prelude.{◌≡◌, option_copied};
    ghost use Rattle.sdd_space.specs.Ptr.{shown_by};
    ghost use Rattle.sdd_domain_core.specs.Space.{is_lone};
    ghost use Rattle.sdd_domain_core.specs.Laws.{one_shown};

    #[inline]
    fn look<'g>(&self, ptr: Ptr<'g, T>) -> Option<&'g T>
        ensures { option_copied result ≡ shown_by ptr.entry }
    {
        value_of_ptr(ptr)
    }

    ghost one_value = { λ p slot u v a b. one_shown T.row p T.holds slot u v (is_lone p.member) a b };
}

impl<T: Item<T>, J: Job> Caller<T> for Local<'_, T, J> {
    ghost use Rattle.std.specs.Prelude.{refl};
    ghost use Rattle.sdd_domain_steps.specs.Local.{world_of};
    ghost use Rattle.sdd_domain_core.specs.Space.{caller_of, known_of, is_lone};
    ghost use Rattle.sdd_domain_core.specs.Laws.{own_is_place, shows_is_value};

    ghost caller = { λ p. caller_of p };

    ghost own = { λ p. p.member.own };

    ghost known = { λ p. known_of p };

    ghost world = { λ p. world_of p };

    fn values_fit_slots(&self) {}

    ghost home_is_caller = { λ _. refl };

    ghost own_is_place = { λ p _. own_is_place p };

    ghost shows_is_value = { λ p exact slot value. shows_is_value (showing T.row) T.holds p (is_lone p.member) exact slot value };
}

impl<T: Item<T>, J: Job> Guards<T> for Local<'_, T, J> {
    ghost use Rattle.std.specs.Prelude.{◌≡◌, Option, MatchResult, IfOk, IsTrue};
    ghost use Rattle.sdd_participants.specs.EpochState.{CanNest, is_open};
    ghost use Rattle.sdd_space.specs.CallerId.{IsSeated, IsExact, IsLone, MayNest};
    ghost use Rattle.sdd_world_model.specs.ParticipantChanges.{GuardOpened};
    ghost use Rattle.sdd_world_model.specs.KnownEpochs.{KnowsOn, KnowsOpened};
    ghost use Rattle.sdd_space.specs.Guard.{reader_of};
    ghost use Rattle.sdd_space.specs.Ptr.{KeepsShown};
    ghost use Rattle.sdd_world_model.specs.WorldChanges.{opened};
    ghost use Rattle.sdd_domain_steps.specs.Local.{world_of};
    ghost use Rattle.sdd_domain_steps.specs.declared.epoch.scan.ScanEnd.{ScanEnd};
    ghost use Rattle.sdd_domain_core.specs.OpeningTally.{CountsReclaimed};
    ghost use Rattle.sdd_domain_core.specs.ScanAtClose.{TellsScan};
    ghost use Rattle.sdd_domain_core.specs.Space.{Shows, caller_of, known_of};

    ghost says_at_opening = { λ p q. CountsReclaimed p.member q.member };

    ghost says_at_close = { λ p q. (told : Option ScanEnd) × TellsScan told p.member q.member };

    // The compiler puts an opening into its caller as long as it is short: that is all but spent. Five instructions more here, and each guard takes 12 more.
    #[inline(always)]
    fn new_guard(&mut self) -> Result<Guard, Refused>
        requires seated { IsSeated (caller_of self.old) }
        ensures caller { caller_of self.new ≡ caller_of self.old }
        ensures reader { IfOk result (λ guard. reader_of guard ≡ (caller_of self.old).reader) }
        ensures own { MatchResult result
            (λ _. MayNest (caller_of self.old) self.old.member.own × GuardOpened self.old.member.own self.new.member.own)
            (λ e. (e ≡ Refused.TooManyGuards) × ¬ (MayNest (caller_of self.old) self.old.member.own) × (self.new.member.own ≡ self.old.member.own)) }
        ensures known { MatchResult result
            (λ _. KnowsOpened (known_of self.old) self.old.member.own self.new.member.own (known_of self.new))
            (λ _. KnowsOn (known_of self.old) (known_of self.new)) }
        ensures lone { IsLone (caller_of self.old) → (known_of self.new).told ≡ (known_of self.old).told }
        ensures exact { IsExact (caller_of self.old) → MatchResult result
            (λ _. CanNest (world_of self.old).time (caller_of self.old).place ×
            (world_of self.new ≡ opened T.holds (world_of self.old) (caller_of self.old).place))
            (λ e. (e ≡ Refused.TooManyGuards) × ¬ (CanNest (world_of self.old).time (caller_of self.old).place) ×
            (world_of self.new ≡ world_of self.old)) }
        ensures keeps { IsTrue (is_open self.old.member.own) →
            KeepsShown (Shows (showing T.row) T.holds self.old) (Shows (showing T.row) T.holds self.new) }
        ensures says { CountsReclaimed self.old.member self.new.member }
    {
        if self.giver.core.is_guarded() {
            return self.giver.core.nest();
        }
        let (guard, goes_on) = self.giver.core.enter();
        if goes_on {
            self.giver.change();
        }
        Ok(guard)
    }

    #[inline(always)]
    fn close_guard(&mut self, guard: Guard) {
        let _told = self.giver.core.close_guard(guard);
    }

    #[inline]
    fn count(&mut self) -> u64 {
        self.giver.core.count()
    }

    #[inline]
    fn has_garbage(&self) -> bool {
        self.giver.core.has_garbage()
    }

    #[inline]
    fn set_has_garbage(&mut self) {
        self.giver.core.set_has_garbage();
    }

    #[inline]
    fn accelerate(&mut self) {
        self.giver.core.accelerate();
    }
}

impl<T: Item<T>, J: Job> Items<T> for Local<'_, T, J> {
    ghost use Rattle.sdd_participants.specs.Slab.{IsFull};
    ghost use Rattle.sdd_domain_steps.specs.Local.{world_of};

    ghost is_used_up = { λ p. IsFull (world_of p).standings };

    ghost used_up_is_full = { λ _ _. (λ full. full, λ full. full) };

    #[inline(always)]
    fn new_item(&mut self, value: T, kind: StandingKind) -> Result<Right, (T, Refused)> {
        let LocalGiver { core, ghost_values } = &mut self.giver;
        core.new_item(value, kind, ghost_values)
    }

    fn new_item_with<F: FnOnce() -> T>(
        &mut self,
        make: F,
        kind: StandingKind,
    ) -> Result<Right, (F, Refused)> {
        let LocalGiver { core, ghost_values } = &mut self.giver;
        core.new_item_with(make, kind, ghost_values)
    }

    #[inline]
    fn get_guarded<'g>(&mut self, right: &Right, guard: &'g Guard) -> &'g T {
        self.giver.ghost_values.codes();
        self.giver.core.get_guarded(right, guard)
    }

    #[inline(always)]
    fn release(&mut self, right: Right, kind: StandingKind) -> bool {
        self.giver.core.release(right, kind)
    }

    #[inline]
    fn slots(&self) -> u64 {
        self.giver.core.domain().limits.slots
    }

    fn has_slot(&mut self) -> bool {
        self.giver.core.has_slot()
    }

    #[inline]
    fn owned_is_shown(&mut self, right: &Right) {
        self.giver.ghost_values.codes();
        self.giver.core.recall_owner(right);
    }
}

impl<T: Item<T>, J: Job> SharedOwners<T> for Local<'_, T, J> {
    #[inline]
    fn clone_owner(&mut self, right: &Right) -> Result<Right, Refused> {
        self.giver.core.clone_owner(right)
    }
}

/// Where others take part, what a slot's word tells isn't enough: while an item is being made its word counts an owner already. Who sees the item by a guard
/// of its own knows that it is there.
impl<T: Item<T>, J: Job> SharedItems<T> for Local<'_, T, J> {
    ghost use Rattle.sdd_domain_steps.specs.LocalState.{IsLone};
    ghost use Rattle.sdd_domain_core.specs.Laws.{lone_asks_nothing};

    ghost asks_shown = { λ p. ¬ (IsLone p.member) };

    fn get_shared(&mut self, slot: SlotName) -> Result<Option<Right>, Refused> {
        self.giver.ghost_values.codes();
        self.giver.core.own_seen(slot.number())
    }

    ghost exact_asks_nothing = { λ p exact. lone_asks_nothing p.member exact };
}

impl<T: Item<T>, J: Job> InPlaceItems<T> for Local<'_, T, J> {
    fn get_mut<R, F: FnOnce(&mut T) -> R>(
        &mut self,
        right: &mut Right,
        kind: StandingKind,
        f: F,
    ) -> Result<R, (F, Refused)> {
        let LocalGiver { core, ghost_values } = &mut self.giver;
        ghost_values.codes();
        core.get_mut(right, kind, f, ghost_values)
    }

    fn drop_in_place(
        &mut self,
        right: Right,
        kind: StandingKind,
    ) -> Result<bool, (Right, Refused)> {
        self.giver.drop_in_place(right, kind)
    }
}

impl<T: Item<T>, J: Job> RawItems<T> for Local<'_, T, J> {
    #[inline]
    fn into_raw(&mut self, right: Right) -> SlotName {
        SlotName::of(self.giver.core.into_raw(right))
    }

    #[inline]
    fn from_raw(&mut self, slot: SlotName) -> Option<Right> {
        self.giver.core.from_raw(slot.number())
    }

    #[inline]
    fn get_guarded_raw<'g>(&mut self, slot: SlotName, guard: &'g Guard) -> Option<&'g T> {
        self.giver.ghost_values.codes();
        self.giver.core.get_guarded_raw(slot.number(), guard)
    }
}

/// The table of jobs is the domain's; the job itself stays with the participant that deferred it.
impl<T: Item<T>, J: Job> Deferrals<T> for Local<'_, T, J> {
    type Job = J;

    #[inline]
    fn defer_execute(&mut self, job: J) -> Result<u32, (J, Refused)> {
        self.giver.core.defer_execute(job)
    }
}
