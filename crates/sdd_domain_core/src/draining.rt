//! A participant reclaims what waits with it, where nobody else takes part any more.
ghost use Rattle.std.specs.Prelude.{◌≡◌, ◌≢◌, ◌+◌, ◌-◌, ◌^◌, ◌<◌, ◌≤◌, [], None, true};
ghost use Rattle.sdd_participants.specs.EpochState.{due_next};
ghost use Rattle.sdd_domain_steps.specs.LocalState.{HasOpenGuard, IsLone, waits};
ghost use Rattle.sdd_domain_steps.specs.Receipt.{with_reclaimed};
ghost use Rattle.sdd_domain_core.specs.Draining.{IsDrained};
ghost use Rattle.sdd_domain_core.specs.Space.{slots_home};
ghost use Rattle.sdd_domain_steps.specs.WaitingItems.{items_in};

use crate::reclaiming::LocalGiver;
use sdd_participants::Job;
use sdd_space::Item;

impl<T: Item<T>, J: Job> LocalGiver<'_, T, J> {
    /// Opens an accelerated guard and closes it. How many items were reclaimed, and whether the opening was a change with which something waited.
    fn turn_over(&mut self) -> (usize, bool)
        requires shut { ¬ (HasOpenGuard self.old.member) }
        requires settled { self.old.member.due ≡ [] }
        requires closes { self.old.member.slots.closes ≡ None }
        ensures shut { ¬ (HasOpenGuard self.new.member) }
        ensures settled { self.new.member.due ≡ [] }
        ensures closes { self.new.member.slots.closes ≡ None }
        ensures home { slots_home self.new ≡ slots_home self.old }
        ensures few { result.0 ≤ items_in (due_next self.old.member.own) }
        ensures reclaimed { self.new.member.tally ≡ with_reclaimed result.0 self.old.member.tally }
        ensures limits { self.new.member.limits ≡ self.old.member.limits }
        ensures knows { self.old.member.known ≤ self.new.member.known }
        ensures found { IsLone self.old.member → self.new.member.own.found ≡ self.old.member.known }
        ensures risen { IsLone self.old.member → self.old.member.known + 1 < 2 ^ 64 → self.new.member.known ≡ self.old.member.known + 1 }
        ensures changed { IsLone self.old.member → waits self.old.member ≡ true → self.old.member.own.found ≢ self.old.member.known → result.1 ≡ true }
    {
        let (guard, goes_on) = self.core.enter();
        let due = self.core.now_due();
        let before = self.core.tally().reclaimed;
        if goes_on {
            self.change();
        }
        // Of what was due some may have been claimed by the close of its collector.
        let items = self.core.tally().reclaimed - before;
        prove!(items <= due as u128);
        let items = items as usize;
        self.core.accelerate();
        self.core.close_guard(guard);
        (items, goes_on)
    }

    /// Reclaims what waits, and what that gives up, as many items as are left at most. It stops where the count of epochs doesn't rise.
    ///
    /// An item is due after three changes, and what its value holds waits from then on: so four turns for each slot, and four more, are enough. A job
    /// that waits runs at its third change, and isn't counted.
    pub fn drain(&mut self, left: &mut usize)
        requires shut { ¬ (HasOpenGuard self.old.member) }
        requires settled { self.old.member.due ≡ [] }
        requires closes { self.old.member.slots.closes ≡ None }
        ensures shut { ¬ (HasOpenGuard self.new.member) }
        ensures settled { self.new.member.due ≡ [] }
        ensures closes { self.new.member.slots.closes ≡ None }
        ensures home { slots_home self.new ≡ slots_home self.old }
        ensures few { left.new ≤ left.old }
        ensures reclaimed { self.new.member.tally ≡ with_reclaimed (left.old - left.new) self.old.member.tally }
        ensures drained { IsLone self.old.member → IsDrained left.new self.old.member self.new.member }
    {
        let slots = self.core.domain().limits.slots as usize;
        for turn in 0..4 * (slots + 1) {
            if !self.core.waits() || self.core.next_due() > *left {
                return;
            }
            let (items, goes_on) = self.turn_over();
            *left -= items;
            if turn > 0 && !goes_on {
                return;
            }
        }
    }
}
