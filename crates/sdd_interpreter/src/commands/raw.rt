//! What participants do with items in their place, and with those that are out as raw.
ghost use Rattle.std.specs.Prelude.{◌≡◌, ◌≢◌, IfSome, ℕ, Some, MatchOption, MatchResult};
ghost use Rattle.sdd_space.specs.Guard.{reader_of};
ghost use Rattle.sdd_world_model.specs.OwnerOrCell.{IsOf};
ghost use Rattle.sdd_world_model.specs.InPlace.{MayInPlace, RefusedInPlace};
ghost use Rattle.sdd_space.specs.Owned.{slot_of, slots_home};
ghost use Rattle.sdd_world_model.specs.WorldChanges.{with_standing};
ghost use Rattle.sdd_world_model.specs.World.{standing_at, value_at};
ghost use Rattle.sdd_script_model.specs.InPlace.{Puts, Drops, RefusesDrop};
ghost use Rattle.sdd_script_model.specs.Val.{Val, Renumbers};
ghost use Rattle.sdd_interpreter.specs.Owners.{owner_holding};
ghost use Rattle.sdd_core.specs.declared.refused.Refused.TheVariants as refused;
ghost use Rattle.sdd_participants.specs.declared.standing.Standing.TheVariants as standing;
ghost use Rattle.sdd_script_model.specs.ScriptState as state;

use crate::commands::step::{InPlaceCommand, RawCommand};
use crate::holding::AnyOwner;
use sdd_core::{Refused, Tag};
use sdd_participants::RawCellContents;
use sdd_script_model::Val;
use sdd_script_text::Reply;
use sdd_space::inner::raw_ptr_of;
use sdd_space::{Guard, InPlaceItems, LookThrough, Owned, RawItems};

/// The number of an owner's item is changed in its place; an owner of the same item comes back.
pub struct PutNumber {
    pub owner: AnyOwner,
    pub number: u64,
}

impl InPlaceCommand for PutNumber {
    type Out = (AnyOwner, Result<(), Refused>);

    ghost asks = { λ step home _ _. IsOf home (owner_holding step.owner) };

    ghost does = { λ step _ _ before out after. (owner_holding out.0 ≡ owner_holding step.owner)
        × ((k : ℕ) × (state.slot_of (Some (owner_holding step.owner)) ≡ Some k)
        × MatchResult out.1 (λ _. MayInPlace before k × Puts before k step.number after) (λ e. RefusedInPlace before k e × (after ≡ before))) };

    fn done<S: InPlaceItems<Val>>(self, s: &mut S) -> (AnyOwner, Result<(), Refused>) {
        let PutNumber { owner, number } = self;
        let put = move |value: &mut Val|
            ensures { Renumbers value.old number value.new }
        {
            value.as_mut().put(number);
        };
        match owner {
            AnyOwner::Sole(mut held) => match held.get_mut(put, s) {
                Ok(()) => (AnyOwner::Sole(held), Ok(())),
                Err((_, refused)) => (AnyOwner::Sole(held), Err(refused)),
            },
            AnyOwner::Share(mut held) => match held.get_mut(put, s) {
                Ok(()) => (AnyOwner::Share(held), Ok(())),
                Err((_, refused)) => (AnyOwner::Share(held), Err(refused)),
            },
        }
    }
}

/// An owner goes, and its item is dropped in its place if it was alone; the reply tells of a shared one which.
pub struct DropOwner {
    pub owner: AnyOwner,
}

impl InPlaceCommand for DropOwner {
    type Out = Result<Reply, (AnyOwner, Refused)>;

    ghost asks = { λ step home _ _. IsOf home (owner_holding step.owner) };

    ghost does = { λ step _ place before out after. MatchResult out
        (λ reply. Drops before place (owner_holding step.owner) reply after)
        (λ e. (owner_holding e.0 ≡ owner_holding step.owner) × (e.1 ≡ refused.GuardOpen) × RefusesDrop before (owner_holding step.owner)
        × (after ≡ before)) };

    fn done<S: InPlaceItems<Val>>(self, s: &mut S) -> Result<Reply, (AnyOwner, Refused)> {
        let DropOwner { owner } = self;
        match owner {
            AnyOwner::Sole(held) => match held.drop_in_place(s) {
                Ok(()) => Ok(Reply::Done),
                Err((held, refused)) => Err((AnyOwner::Sole(held), refused)),
            },
            AnyOwner::Share(held) => match held.drop_in_place(s) {
                Ok(was_last) => Ok(Reply::Truth(was_last)),
                Err((held, refused)) => Err((AnyOwner::Share(held), refused)),
            },
        }
    }
}

/// The only owner's item is out as raw from now on.
pub struct GoRaw {
    pub owner: Owned<Val>,
}

impl RawCommand for GoRaw {
    type Out = ();

    ghost asks = { λ step home _ _. slots_home step.owner ≡ home.slots };

    ghost does = { λ step _ _ before _ after. (standing_at before (slot_of step.owner) ≡ Some standing.Owned)
        × (after ≡ with_standing before (slot_of step.owner) standing.Raw) };

    fn done<S: RawItems<Val> + LookThrough<Val>>(self, s: &mut S) {
        let GoRaw { owner } = self;
        let _ = owner.into_raw(s);
    }
}

/// The owner of the item in a slot that is out as raw.
pub struct ComeBack {
    pub slot: u32,
}

impl RawCommand for ComeBack {
    type Out = Option<Owned<Val>>;

    ghost asks = { λ _ _ _ _. Unit {0} };

    ghost does = { λ step home _ before out after. (IfSome out (λ owner. (slot_of owner ≡ step.slot) × (slots_home owner ≡ home.slots)))
        × MatchOption out ((standing_at before step.slot ≢ Some standing.Raw) × (after ≡ before))
        (λ _. (standing_at before step.slot ≡ Some standing.Raw) × (after ≡ with_standing before step.slot standing.Owned)) };

    fn done<S: RawItems<Val> + LookThrough<Val>>(self, s: &mut S) -> Option<Owned<Val>> {
        let ComeBack { slot } = self;
        let ptr = raw_ptr_of(RawCellContents {
            named: Some(slot),
            tag: Tag::None,
        });
        Owned::from_raw(ptr, s)
    }
}

/// The value of the item in a slot that is out as raw, under a guard of the participant.
pub struct SeeRaw<'g> {
    pub slot: u32,
    pub guard: &'g Guard,
}

impl<'g> RawCommand for SeeRaw<'g> {
    type Out = Option<&'g Val>;

    ghost asks = { λ step _ reader _. reader_of step.guard.now ≡ reader };

    ghost does = { λ step _ _ before out after. MatchOption out (standing_at before step.slot ≢ Some standing.Raw)
        (λ value. (standing_at before step.slot ≡ Some standing.Raw) × (value_at before step.slot ≡ Some value.now)) × (after ≡ before) };

    fn done<S: RawItems<Val> + LookThrough<Val>>(self, s: &mut S) -> Option<&'g Val> {
        let SeeRaw { slot, guard } = self;
        let ptr = raw_ptr_of(RawCellContents {
            named: Some(slot),
            tag: Tag::None,
        });
        ptr.into_ptr(s, guard)?.as_ref(s)
    }
}
