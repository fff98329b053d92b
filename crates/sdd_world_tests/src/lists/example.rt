//! Examples over the parts of a space that lists are used in, and the world that they are run in.
ghost use Rattle.std.specs.Prelude.{◌≡◌};
ghost use Rattle.sdd_space.specs.CallerId.{IsSeated};

use sdd_core::Limits;
use sdd_lists::LinkedEntry;
use sdd_space::{Cells, Guards, HeldItems, Item, Items, Look, Several, SharedItems};
use sdd_world::{Place, Turn, World};
use std::marker::Model;
use std::process::Abort;

/// An entry of a queue or stack of numbers.
pub type Entry = LinkedEntry<u64>;

/// Enough of everything.
pub const AMPLE: Limits = Limits {
    participants: 8,
    slots: 64,
    cells: 64,
    jobs: 8,
    nesting: 8,
    tries: 1,
};

/// The parts of a space that queues and stacks of numbers are used in.
pub trait Lists: Look<Entry>
    + Guards<Entry>
    + Items<Entry>
    + Several<Entry>
    + SharedItems<Entry>
    + Cells<Entry>
    + HeldItems<Entry> {}

impl Lists for Turn<'_, Entry> {}

/// What one participant does with lists of numbers. It asserts what it is answered.
pub trait Example {
    fn run<R: Abort, S: Lists>(&self, rt: &R, s: &mut S)
        requires seated { IsSeated (S.caller s.old) }
        ensures caller { S.caller s.new ≡ S.caller s.old };
}

/// A world, and the participant that makes the calls.
pub struct Setting<T: Item<T>> {
    pub world: World<T>,
    pub place: Place,
}

impl<T: Item<T>> Model for Setting<T> {
    ghost use Rattle.sdd_world_model.specs.World.{IsPlaceOf};
    ghost use Rattle.sdd_world.specs.Place.{index_of};

    ghost Value = { Unit {0} };

    ghost view = { λ _. tt };

    ghost invariant = { λ s. IsPlaceOf s.world (index_of s.place) };
}

impl<T: Item<T>> Setting<T> {
    /// A new world with one participant.
    pub fn new<R: Abort + AllocGlobal>(rt: &R, limits: Limits) -> Setting<T> {
        let mut world = World::new(rt.alloc(), limits).expect(rt, "the limits are in range");
        let place = world.register().expect(rt, "a place is free");
        Setting { world, place }
    }

    /// Ends the world, of which so many items were made.
    pub fn closed(self, rt: &impl Abort, made: u128) {
        let Setting { world, place: _ } = self;
        ended(rt, world, made);
    }
}

/// Ends a world, by which all that was made is reclaimed. So many items were made.
pub fn ended<T: Item<T>>(rt: &impl Abort, world: World<T>, made: u128) {
    match world.close() {
        Ok(tally) => {
            assert_eq!(rt;
                (tally.made, tally.reclaimed, tally.in_place),
                (made, made, 0)
            );
        }
        Err((_world, refused)) => panic!(rt; "{refused:?}"),
    }
}

impl Setting<Entry> {
    /// The participant does this.
    pub fn run<E: Example>(&mut self, rt: &impl Abort, example: &E) {
        example.run(rt, &mut self.world.at(&self.place));
    }
}

/// The participant of a world with these limits does this. So many items are made.
pub fn in_a_world<E: Example, R: Abort + AllocGlobal>(
    rt: &R,
    limits: Limits,
    example: &E,
    made: u128,
) {
    let mut setting: Setting<Entry> = Setting::new(rt, limits);
    setting.run(rt, example);
    setting.closed(rt, made);
}
