//! The entries of queues and stacks.
ghost use Rattle.std.specs.Prelude.{◌≡◌, ◌⊎◌, IfErr, IfOk, MatchResult};
ghost use Rattle.sdd_world_model.specs.OwnerOrCell.{AreOf};
ghost use Rattle.sdd_space.specs.Undisturbed.{Undisturbed, Unmoved};
ghost use Rattle.sdd_world_model.specs.ParticipantChanges.{HasContentsGivenUp, KeepsMoreWaiting};
ghost use Rattle.sdd_space.specs.Refusals.{IsRefusedBy};
ghost use Rattle.sdd_space.specs.CallerId.{IsSeated, IsExact};
ghost use Rattle.sdd_space.specs.Shared.{cell_of, cells_home};
ghost use Rattle.sdd_world_model.specs.WorldChanges.{cell_closed, nulled};
ghost use Rattle.sdd_participants.specs.Slab.{IsEmptyAt, IsFull};

use crate::clone_value::CloneValue;
use crate::linked_list::LinkedList;
use sdd_core::Refused;
use sdd_space::{AtomicShared, Cells, Giver, Item, Items};
use std::fmt::{self, Display, Formatter};
use std::ops::{Deref, DerefMut};

/// A value, and a link to the entry behind it.
///
/// It must be spent: put into a slot, or closed.
pub struct LinkedEntry<T> {
    instance: T,
    next: AtomicShared<LinkedEntry<T>>,
}

impl<T: Item<LinkedEntry<T>>> LinkedEntry<T> {
    ghost use Rattle.sdd_lists.specs.Entries.{link_of, link_home_of, value_of};

    /// An entry with this value, whose link holds nothing.
    ///
    /// `NoCell` where no cell is free; `Contended`, in a domain alone, where as many exchanges were lost as its limits allow. The value comes back.
    pub fn new<S: Cells<LinkedEntry<T>>>(
        instance: T,
        s: &mut S,
    ) -> Result<LinkedEntry<T>, (T, Refused)>
        requires seated { IsSeated (S.caller s.old) }
        ensures undisturbed { Undisturbed S.caller S.own S.known S.shows s.old s.new }
        ensures value { IfOk result (λ entry. value_of entry ≡ instance) }
        ensures home { IfOk result (λ entry. link_home_of entry ≡ (S.caller s.old).home.cells) }
        ensures back { IfErr result (λ e. (e.0 ≡ instance) × IsRefusedBy (S.caller s.old) Refused.NoCell e.1) }
        ensures exact { IsExact (S.caller s.old) → MatchResult result
            (λ entry. IsEmptyAt (S.world s.old).cells (link_of entry) × (S.world s.new ≡ nulled (S.world s.old) (link_of entry)))
            (λ e. IsFull (S.world s.old).cells × (e ≡ (instance, Refused.NoCell)) × (S.world s.new ≡ S.world s.old)) }
    {
        match AtomicShared::null(s) {
            Ok(next) => Ok(LinkedEntry { instance, next }),
            Err(refused) => Err((instance, refused)),
        }
    }

    /// An entry with a clone of this one's value, whose link holds nothing.
    ///
    /// `NoCell` where no cell is free; else `NoMemory` where the value's clone is refused memory; `Contended`, in a domain alone, where as many exchanges
    /// were lost as its limits allow.
    pub fn clone<S: Items<LinkedEntry<T>> + Cells<LinkedEntry<T>>>(
        &self,
        s: &mut S,
    ) -> Result<LinkedEntry<T>, Refused>
    where
        T: CloneValue,
        requires seated { IsSeated (S.caller s.old) }
        ensures unmoved { Unmoved S.caller S.known S.shows s.old s.new }
        ensures own { KeepsMoreWaiting (S.own s.old) (S.own s.new) }
        ensures value { IfOk result (λ entry. T.is_clone (value_of self.now) (value_of entry)) }
        ensures home { IfOk result (λ entry. link_home_of entry ≡ (S.caller s.old).home.cells) }
        ensures back { IfErr result (λ e. IsRefusedBy (S.caller s.old) Refused.NoCell e ⊎ (e ≡ Refused.NoMemory) × ¬ (T.is_infallible (value_of self.now))) }
        ensures exact { IsExact (S.caller s.old) → MatchResult result
            (λ entry. IsEmptyAt (S.world s.old).cells (link_of entry) × (S.world s.new ≡ nulled (S.world s.old) (link_of entry)))
            (λ e. (IsFull (S.world s.old).cells × (e ≡ Refused.NoCell) ⊎ ¬ (IsFull (S.world s.old).cells) × (e ≡ Refused.NoMemory)) ×
            (S.world s.new ≡ S.world s.old)) }
    {
        let next = match AtomicShared::null(s) {
            Ok(next) => next,
            Err(refused) => return Err(refused),
        };
        match self.instance.clone_value() {
            Ok(instance) => Ok(LinkedEntry { instance, next }),
            Err(_) => {
                next.close(s);
                Err(Refused::NoMemory)
            }
        }
    }

    /// Frees the link, and gives up what it holds. The value comes back.
    pub fn close<S: Items<LinkedEntry<T>> + Cells<LinkedEntry<T>>>(self, s: &mut S) -> T
        requires seated { IsSeated (S.caller s.old) }
        requires home { link_home_of self ≡ (S.caller s.old).home.cells }
        ensures value { result ≡ value_of self }
        ensures unmoved { Unmoved S.caller S.known S.shows s.old s.new }
        ensures own { HasContentsGivenUp (S.own s.old) (S.own s.new) }
        ensures exact { IsExact (S.caller s.old) → S.world s.new ≡ cell_closed (S.world s.old) (S.caller s.old).place (link_of self) }
    {
        let LinkedEntry { instance, next } = self;
        next.close(s);
        instance
    }
}

impl<T: Item<LinkedEntry<T>>> Item<LinkedEntry<T>> for LinkedEntry<T> {
    ghost use Rattle.sdd_lists.specs.Entries.{holdings_of};

    ghost holds = { holdings_of T.holds };

    fn give_up<G: Giver<LinkedEntry<T>>>(self, giver: &mut G) {
        let LinkedEntry { instance, next } = self;
        instance.give_up(giver);
        giver.atomic_shared(next);
    }
}

impl<T: Item<LinkedEntry<T>>> LinkedList for LinkedEntry<T> {
    ghost use Rattle.sdd_lists.specs.Entries.{link_of, link_home_of, link_part, value_of};
    ghost use Rattle.sdd_space.proofs.Composed.{rest-of};
    ghost use Rattle.sdd_world_model.specs.OwnerOrCell.{AreOf};

    ghost link = { link_of };

    ghost link_home = { link_home_of };

    fn link_ref(&self) -> &AtomicShared<Self> {
        &self.next
    }

    ghost link_is_held = { λ home v are. let parts : AreOf home (link_part v) = rest-of home (T.holds (value_of v)) (link_part v) are in parts.0 };
}

impl<T> AsRef<T> for LinkedEntry<T> {
    ghost use Rattle.std.specs.Prelude.{◌≡◌};
    ghost use Rattle.sdd_lists.specs.Entries.{value_of};

    fn as_ref(&self) -> &T
        ensures { result.now ≡ value_of self.now }
    {
        &self.instance
    }
}

impl<T> Deref for LinkedEntry<T> {
    ghost use Rattle.std.specs.Prelude.{◌≡◌};
    ghost use Rattle.sdd_lists.specs.Entries.{value_of};

    type Target = T;

    ghost deref_gives = { λ entry value. value ≡ value_of entry };

    fn deref(&self) -> &T {
        &self.instance
    }
}

impl<T> AsMut<T> for LinkedEntry<T> {
    ghost use Rattle.std.specs.Prelude.{◌≡◌};
    ghost use Rattle.std.specs.Borrow.{Lends, sem};
    ghost use Rattle.sdd_lists.specs.contracts.linked_entry.LinkedEntry.{the_row};
    ghost use Rattle.sdd_lists.specs.Entries.{value_of, with_value};

    fn as_mut(&mut self) -> &mut T
        ensures* writes_back { sem 𝓛 (Lends (the_row T.row) T.row self.entry result (with_value self.old)) }
        ensures value { result.now ≡ value_of self.old }
    {
        &mut self.instance
    }
}

impl<T> DerefMut for LinkedEntry<T> {
    ghost use Rattle.std.specs.Prelude.{◌≡◌};
    ghost use Rattle.std.specs.Borrow.{Lends, sem};
    ghost use Rattle.sdd_lists.specs.contracts.linked_entry.LinkedEntry.{the_row};
    ghost use Rattle.sdd_lists.specs.Entries.{value_of, with_value};

    ghost deref_mut_gives = { λ entry value. value ≡ value_of entry };

    fn deref_mut(&mut self) -> &mut T
        ensures* writes_back { sem 𝓛 (Lends (the_row T.row) T.row self.entry result (with_value self.old)) }
        ensures value { result.now ≡ value_of self.old }
    {
        &mut self.instance
    }
}

/// Entries are equal exactly if their values are, whatever their links hold.
impl<T: PartialEq> PartialEq for LinkedEntry<T> {
    ghost use Rattle.std.proofs.Common.{rules};
    ghost use Rattle.std.specs.Cmp.Rules.{comparing};
    ghost use Rattle.std.specs.Ordering.{on};
    ghost use Rattle.sdd_lists.specs.Entries.{value_of};

    ghost eq = { on value_of T.eq };

    ghost laws = { Prim.search (comparing, rules) };

    fn eq(&self, other: &Self) -> bool {
        self.instance == other.instance
    }
}

impl<T: Eq> Eq for LinkedEntry<T> {
    ghost use Rattle.std.proofs.Common.{rules};
    ghost use Rattle.std.specs.Cmp.Rules.{comparing};

    ghost laws = { Prim.search (comparing, rules) };
}

impl<T: Display> Display for LinkedEntry<T> {
    fn fmt<W: fmt::Write>(&self, f: &mut Formatter<W>) -> fmt::Result {
        write!(f, "Some({})", self.instance)
    }
}
