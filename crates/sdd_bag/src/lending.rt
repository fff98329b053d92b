//! The values of a bag, lent one after another to be changed in their places.
ghost use Rattle.std.specs.Prelude.{◌≡◌, List, MatchResult};
ghost use Rattle.sdd_space.specs.CallerId.{IsExact};
ghost use Rattle.sdd_world_model.specs.World.{AnyGuardOpen};
ghost use Rattle.sdd_lists.specs.declared.linked_entry.LinkedEntry.{LinkedEntry as Linked};
ghost use Rattle.sdd_lists.specs.Lists.{Entry};
ghost use Rattle.sdd_lists.specs.Stack.{home_in};
ghost use Rattle.sdd_bag.specs.Overflow.{LiesOn};
ghost use Rattle.sdd_bag.specs.Bag.{HasSameCells, IsBag};
ghost use Rattle.sdd_bag.specs.Lending.{ChangesBag};

use crate::bag::Bag;
use crate::shelf::Shelf;
use sdd_core::Refused;
use sdd_lists::LinkedEntry;
use sdd_space::{HeldItems, Items};

impl<T, const ARRAY_LEN: usize, B: Shelf<T, ARRAY_LEN>> Bag<T, ARRAY_LEN, B> {
    /// Lends `change` each value, one after another, to be changed in its place: first those that lie in the bag itself, and then the others. Nobody adds or
    /// takes out a value meanwhile, since the bag and its space are borrowed for that.
    ///
    /// `GuardOpen` where a guard is open, of whatever participant: no value is lent then.
    ///
    /// `bag.for_each_mut(|value| *value = value.wrapping_add(1), s)` adds one to each number of a bag.
    pub fn for_each_mut<F: FnMut(&mut T), S: Items<LinkedEntry<B>> + HeldItems<LinkedEntry<B>>>(
        &mut self,
        change: F,
        s: &S,
    ) -> Result<(), Refused>
        requires home { home_in self.old.overflow.stack ≡ (S.caller s.now).home.cells }
        requires exact { IsExact (S.caller s.now) }
        requires bag { IsBag B.shown ARRAY_LEN (S.world s.now) self.old }
        requires callable { F.IsAlwaysCallable change }
        ensures cells { HasSameCells self.old self.new }
        ensures bag { IsBag B.shown ARRAY_LEN (S.world s.now) self.new }
        ensures list { (es : List (Entry (Linked B))) → LiesOn B.shown ARRAY_LEN (S.world s.now) es self.old.overflow →
            LiesOn B.shown ARRAY_LEN (S.world s.now) es self.new.overflow }
        ensures lent { MatchResult result
            (λ _. ¬ (AnyGuardOpen (S.world s.now)) × ChangesBag F.FnMut change self.old self.new)
            (λ why. AnyGuardOpen (S.world s.now) × (why ≡ Refused.GuardOpen) × (self.new ≡ self.old)) }
    {
        if s.is_guarded() {
            return Err(Refused::GuardOpen);
        }
        let change = self.lend_inside(change);
        let _ = self.lend_behind(change, s);
        Ok(())
    }
}
