ghost use Rattle.std.specs.Prelude.{◌≡◌, ◌+◌, ◌^◌, ◌≤◌, IfErr, IfOk, IfSome, MatchOption, MatchResult};
ghost use Rattle.sdd_world_model.specs.World.{World};
ghost use Rattle.sdd_space.specs.CallerId.{IsSeated, IsExact};
ghost use Rattle.sdd_space.specs.Refusals.{IsRefusedBy};
ghost use Rattle.sdd_space.specs.Undisturbed.{Undisturbed};
ghost use Rattle.sdd_world_model.specs.OwnerOrCell.{AreOf};
ghost use Rattle.sdd_rights.specs.Right.{number_of, home_of, kind_of};
ghost use Rattle.sdd_rights.specs.SharedRights as shares;
ghost use Rattle.sdd_participants.specs.Slab.{IsEmptyAt, IsFull};
ghost use Rattle.sdd_world_model.specs.WorldChanges.{made_as};

use crate::item::Item;
use crate::space::caller::Caller;
use sdd_core::Refused;
use sdd_participants::Standing;
use sdd_rights::{Right, SharedRights, StandingKind};

/// Items that several owners have from the first moment on, as the entry of a list: it is no part of what every space offers.
pub trait Several<T: Item<T>>: Caller<T> {
    /// Puts a value into a free slot, for so many owners at once, who share it: the right of one, and those of the others in one piece.
    ///
    /// `NoSlot` where none is free; `Contended`, in a domain alone, where as many exchanges were lost as its limits allow. The value comes back.
    fn make_several(&mut self, value: T, owners: u64) -> Result<(Right, SharedRights), (T, Refused)>
        requires seated { IsSeated (Self.caller self.old) }
        requires home { AreOf (Self.caller self.old).home (T.holds value) }
        requires several { 2 ≤ owners }
        requires most { owners ≤ 2 ^ 62 }
        ensures undisturbed { Undisturbed Self.caller Self.own Self.known Self.shows self.old self.new }
        ensures home { IfOk result (λ made. (home_of made.0 ≡ (Self.caller self.old).home.slots)
            × (shares.home_of made.1 ≡ (Self.caller self.old).home.slots)) }
        ensures kind { IfOk result (λ made. kind_of made.0 ≡ StandingKind.Shared) }
        ensures others { IfOk result (λ made. (shares.number_of made.1 ≡ number_of made.0) × (shares.count_of made.1 + 1 ≡ owners)) }
        ensures shown { IfOk result (λ made. Self.owns_value self.new made.0 value) }
        ensures back { IfErr result (λ e. (e.0 ≡ value) × IsRefusedBy (Self.caller self.old) Refused.NoSlot e.1) }
        ensures exact { IsExact (Self.caller self.old) → MatchResult result
            (λ made. IsEmptyAt (Self.world self.old).standings (number_of made.0) ×
            (Self.world self.new ≡ made_as (Self.world self.old) (number_of made.0) value (Standing.Shared owners)))
            (λ e. IsFull (Self.world self.old).standings × (e ≡ (value, Refused.NoSlot)) × (Self.world self.new ≡ Self.world self.old)) };

    /// One of the rights that came in one piece, and the others, if there are more. It has the value of an owner of the same item.
    fn split_off(&mut self, right: &Right, several: SharedRights) -> (Right, Option<SharedRights>)
        requires seated { IsSeated (Self.caller self.old) }
        requires home { home_of right.now ≡ (Self.caller self.old).home.slots }
        requires kind { kind_of right.now ≡ StandingKind.Shared }
        requires same { (shares.home_of several ≡ home_of right.now) × (shares.number_of several ≡ number_of right.now) }
        ensures undisturbed { Undisturbed Self.caller Self.own Self.known Self.shows self.old self.new }
        ensures home { home_of result.0 ≡ home_of right.now }
        ensures slot { number_of result.0 ≡ number_of right.now }
        ensures kind { kind_of result.0 ≡ StandingKind.Shared }
        ensures value { (v : T) → Self.owns_value self.old right.now v → Self.owns_value self.new result.0 v }
        ensures others { IfSome result.1 (λ rest. (shares.home_of rest ≡ home_of right.now) × (shares.number_of rest ≡ number_of right.now)) }
        ensures count { MatchOption result.1 (shares.count_of several ≡ 1) (λ rest. shares.count_of rest + 1 ≡ shares.count_of several) }
        ensures exact { IsExact (Self.caller self.old) → Self.world self.new ≡ Self.world self.old };
}
