//! What a participant does in a space, as a value. There is a trait for what it does it with: of the space a command asks no more than what it calls.
ghost use Rattle.std.specs.Prelude.{◌≡◌, ℕ};
ghost use Rattle.sdd_space.specs.Guard.{ReaderId};
ghost use Rattle.sdd_world_model.specs.OwnerOrCell.{SpaceId};
ghost use Rattle.sdd_space.specs.CallerId.{IsSeated, IsExact, reader_at};
ghost use Rattle.sdd_world_model.specs.World.{World, IsPlaceOf};
ghost use Rattle.sdd_world.specs.Place.{index_of};
ghost use Rattle.sdd_script_model.specs.Val.{Val};

use sdd_script_model::Val;
use sdd_space::{
    Cells, Collectors, Guards, InPlaceItems, Items, LookThrough, RawCells, RawItems, Several,
    SharedItems,
};
use sdd_world::{Place, World};

/// What a participant does with guards, in a space that nobody else changes.
pub trait GuardCommand: Sized {
    type Out;

    /// What must be so of the participant with these guards.
    ghost asks: { Self → ReaderId → Type 0 };
    /// What is so then: of the participant with these guards, at a place, of the world before, of the answer and of the world after.
    ghost does: { Self → ReaderId → ℕ → World Val → Self.Out → World Val → Type 0 };

    fn done<S: Guards<Val>>(self, s: &mut S) -> Self::Out
        requires seated { IsSeated (S.caller s.old) }
        requires exact { IsExact (S.caller s.old) }
        requires asked { asks self (S.caller s.old).reader }
        ensures caller { S.caller s.new ≡ S.caller s.old }
        ensures done { does self (S.caller s.old).reader (S.caller s.old).place (S.world s.old) result (S.world s.new) };

    /// The same by a participant at its place of a world, when it is its turn.
    fn at(self, world: &mut World<Val>, place: &Place) -> Self::Out
        requires place { IsPlaceOf world.old (index_of place.now) }
        requires asked { asks self (reader_at world.old (index_of place.now)) }
        ensures done { does self (reader_at world.old (index_of place.now)) (index_of place.now) world.old result world.new }
    {
        let mut turn = world.at(place);
        self.done(&mut turn)
    }
}

/// What a participant does with items and their owners, in a space that nobody else changes.
pub trait ItemCommand: Sized {
    type Out;

    /// What must be so in a home, of the participant with these guards, and of the world.
    ghost asks: { Self → SpaceId → ReaderId → World Val → Type 0 };
    /// What is so then: at a home and a place, of the world before, of the answer and of the world after.
    ghost does: { Self → SpaceId → ℕ → World Val → Self.Out → World Val → Type 0 };

    fn done<S: Items<Val> + SharedItems<Val> + Cells<Val>>(self, s: &mut S) -> Self::Out
        requires seated { IsSeated (S.caller s.old) }
        requires exact { IsExact (S.caller s.old) }
        requires asked { asks self (S.caller s.old).home (S.caller s.old).reader (S.world s.old) }
        ensures caller { S.caller s.new ≡ S.caller s.old }
        ensures done { does self (S.caller s.old).home (S.caller s.old).place (S.world s.old) result (S.world s.new) };

    /// The same by a participant at its place of a world, when it is its turn.
    fn at(self, world: &mut World<Val>, place: &Place) -> Self::Out
        requires place { IsPlaceOf world.old (index_of place.now) }
        requires asked { asks self world.old.home (reader_at world.old (index_of place.now)) world.old }
        ensures done { does self world.old.home (index_of place.now) world.old result world.new }
    {
        let mut turn = world.at(place);
        self.done(&mut turn)
    }
}

/// What a participant does with items in their place, in a space that nobody else changes.
pub trait InPlaceCommand: Sized {
    type Out;

    /// What must be so in a home, of the participant with these guards, and of the world.
    ghost asks: { Self → SpaceId → ReaderId → World Val → Type 0 };
    /// What is so then: at a home and a place, of the world before, of the answer and of the world after.
    ghost does: { Self → SpaceId → ℕ → World Val → Self.Out → World Val → Type 0 };

    fn done<S: InPlaceItems<Val>>(self, s: &mut S) -> Self::Out
        requires seated { IsSeated (S.caller s.old) }
        requires exact { IsExact (S.caller s.old) }
        requires asked { asks self (S.caller s.old).home (S.caller s.old).reader (S.world s.old) }
        ensures caller { S.caller s.new ≡ S.caller s.old }
        ensures done { does self (S.caller s.old).home (S.caller s.old).place (S.world s.old) result (S.world s.new) };

    /// The same by a participant at its place of a world, when it is its turn.
    fn at(self, world: &mut World<Val>, place: &Place) -> Self::Out
        requires place { IsPlaceOf world.old (index_of place.now) }
        requires asked { asks self world.old.home (reader_at world.old (index_of place.now)) world.old }
        ensures done { does self world.old.home (index_of place.now) world.old result world.new }
    {
        let mut turn = world.at(place);
        self.done(&mut turn)
    }
}

/// What a participant does with items that are out as raw, in a space that nobody else changes.
pub trait RawCommand: Sized {
    type Out;

    /// What must be so in a home, of the participant with these guards, and of the world.
    ghost asks: { Self → SpaceId → ReaderId → World Val → Type 0 };
    /// What is so then: at a home and a place, of the world before, of the answer and of the world after.
    ghost does: { Self → SpaceId → ℕ → World Val → Self.Out → World Val → Type 0 };

    fn done<S: RawItems<Val> + LookThrough<Val>>(self, s: &mut S) -> Self::Out
        requires seated { IsSeated (S.caller s.old) }
        requires exact { IsExact (S.caller s.old) }
        requires asked { asks self (S.caller s.old).home (S.caller s.old).reader (S.world s.old) }
        ensures caller { S.caller s.new ≡ S.caller s.old }
        ensures done { does self (S.caller s.old).home (S.caller s.old).place (S.world s.old) result (S.world s.new) };

    /// The same by a participant at its place of a world, when it is its turn.
    fn at(self, world: &mut World<Val>, place: &Place) -> Self::Out
        requires place { IsPlaceOf world.old (index_of place.now) }
        requires asked { asks self world.old.home (reader_at world.old (index_of place.now)) world.old }
        ensures done { does self world.old.home (index_of place.now) world.old result world.new }
    {
        let mut turn = world.at(place);
        self.done(&mut turn)
    }
}

/// What a participant does with cells, in a space that nobody else changes.
pub trait CellCommand: Sized {
    type Out;

    /// What must be so in a home, of the participant with these guards, and of the world.
    ghost asks: { Self → SpaceId → ReaderId → World Val → Type 0 };
    /// What is so then: at a home and a place, of the world before, of the answer and of the world after.
    ghost does: { Self → SpaceId → ℕ → World Val → Self.Out → World Val → Type 0 };

    fn done<S: Cells<Val>>(self, s: &mut S) -> Self::Out
        requires seated { IsSeated (S.caller s.old) }
        requires exact { IsExact (S.caller s.old) }
        requires asked { asks self (S.caller s.old).home (S.caller s.old).reader (S.world s.old) }
        ensures caller { S.caller s.new ≡ S.caller s.old }
        ensures done { does self (S.caller s.old).home (S.caller s.old).place (S.world s.old) result (S.world s.new) };

    /// The same by a participant at its place of a world, when it is its turn.
    fn at(self, world: &mut World<Val>, place: &Place) -> Self::Out
        requires place { IsPlaceOf world.old (index_of place.now) }
        requires asked { asks self world.old.home (reader_at world.old (index_of place.now)) world.old }
        ensures done { does self world.old.home (index_of place.now) world.old result world.new }
    {
        let mut turn = world.at(place);
        self.done(&mut turn)
    }
}

/// What a participant does with collectors, in a space that nobody else changes.
pub trait CollectorCommand: Sized {
    type Out;

    /// What must be so in a home, of the participant with these guards, and of the world.
    ghost asks: { Self → SpaceId → ReaderId → World Val → Type 0 };
    /// What is so then: at a home and a place, of the world before, of the answer and of the world after.
    ghost does: { Self → SpaceId → ℕ → World Val → Self.Out → World Val → Type 0 };

    fn done<S: RawCells<Val> + Collectors<Val>>(self, s: &mut S) -> Self::Out
        requires seated { IsSeated (S.caller s.old) }
        requires exact { IsExact (S.caller s.old) }
        requires asked { asks self (S.caller s.old).home (S.caller s.old).reader (S.world s.old) }
        ensures caller { S.caller s.new ≡ S.caller s.old }
        ensures done { does self (S.caller s.old).home (S.caller s.old).place (S.world s.old) result (S.world s.new) };

    /// The same by a participant at its place of a world, when it is its turn.
    fn at(self, world: &mut World<Val>, place: &Place) -> Self::Out
        requires place { IsPlaceOf world.old (index_of place.now) }
        requires asked { asks self world.old.home (reader_at world.old (index_of place.now)) world.old }
        ensures done { does self world.old.home (index_of place.now) world.old result world.new }
    {
        let mut turn = world.at(place);
        self.done(&mut turn)
    }
}

/// What a participant does with queues, stacks and bags, in a space that nobody else changes.
pub trait ListCommand: Sized {
    type Out;

    /// What must be so in a home, of the participant with these guards, and of the world.
    ghost asks: { Self → SpaceId → ReaderId → World Val → Type 0 };
    /// What is so then: at a home and a place, of the world before, of the answer and of the world after.
    ghost does: { Self → SpaceId → ℕ → World Val → Self.Out → World Val → Type 0 };

    fn done<S: Items<Val> + Several<Val> + SharedItems<Val> + Cells<Val> + LookThrough<Val>>(
        self,
        s: &mut S,
    ) -> Self::Out
        requires seated { IsSeated (S.caller s.old) }
        requires exact { IsExact (S.caller s.old) }
        requires asked { asks self (S.caller s.old).home (S.caller s.old).reader (S.world s.old) }
        ensures caller { S.caller s.new ≡ S.caller s.old }
        ensures done { does self (S.caller s.old).home (S.caller s.old).place (S.world s.old) result (S.world s.new) };

    /// The same by a participant at its place of a world, when it is its turn.
    fn at(self, world: &mut World<Val>, place: &Place) -> Self::Out
        requires place { IsPlaceOf world.old (index_of place.now) }
        requires asked { asks self world.old.home (reader_at world.old (index_of place.now)) world.old }
        ensures done { does self world.old.home (index_of place.now) world.old result world.new }
    {
        let mut turn = world.at(place);
        self.done(&mut turn)
    }
}
