//! Examples over the parts of a space that bags are used in, and the world that they are run in.
ghost use Rattle.std.specs.Prelude.{◌≡◌};
ghost use Rattle.sdd_bag.specs.There.{MayCall};

use sdd_bag::{Bag, Storage};
use sdd_core::Limits;
use sdd_lists::LinkedEntry;
use sdd_space::{
    Cells, Guards, HeldItems, Item, Items, LookThrough, RawCells, Several, SharedItems,
};
use sdd_world::{Place, Turn, World};
use std::marker::Model;
use std::mem::ManuallyDrop;
use std::process::Abort;

/// What is in a slot that has a storage.
pub type Entry<T, const LEN: usize> = LinkedEntry<Storage<T, LEN>>;

/// A bag whose entries have nothing but storages.
pub type StorageBag<T, const LEN: usize> = Bag<T, LEN, Storage<T, LEN>>;

/// Enough of everything.
pub const AMPLE: Limits = Limits {
    participants: 8,
    slots: 64,
    cells: 130,
    jobs: 8,
    nesting: 8,
    tries: 1,
};

/// The parts of a space that bags are used in.
pub trait Bags<I: Item<I>>: LookThrough<I>
    + Guards<I>
    + Items<I>
    + Several<I>
    + SharedItems<I>
    + Cells<I>
    + RawCells<I>
    + HeldItems<I> {}

impl<I: Item<I>> Bags<I> for Turn<'_, I> {}

/// What one participant does with bags. It asserts what it is answered.
pub trait Example<I: Item<I>> {
    fn run<R: Abort, S: Bags<I>>(&self, rt: &R, s: &mut S)
        requires may { MayCall (S.caller s.old) }
        ensures caller { S.caller s.new ≡ S.caller s.old };
}

/// A world, and the participant that makes the calls.
struct Setting<I: Item<I>> {
    world: World<I>,
    place: Place,
}

impl<I: Item<I>> Model for Setting<I> {
    ghost use Rattle.sdd_world_model.specs.World.{IsPlaceOf};
    ghost use Rattle.sdd_world.specs.Place.{index_of};

    ghost Value = { Unit {0} };

    ghost view = { λ _. tt };

    ghost invariant = { λ s. IsPlaceOf s.world (index_of s.place) };
}

impl<I: Item<I>> Setting<I> {
    /// A new world with one participant.
    fn new<R: Abort + AllocGlobal>(rt: &R, limits: Limits) -> Setting<I> {
        let mut world = World::new(rt.alloc(), limits).expect(rt, "the limits are in range");
        let place = world.register().expect(rt, "a place is free");
        Setting { world, place }
    }

    /// The participant does this.
    fn run<E: Example<I>>(&mut self, rt: &impl Abort, example: &E) {
        example.run(rt, &mut self.world.at(&self.place));
    }

    /// Ends the world, by which all that was made is reclaimed. So many storages were made.
    fn closed(self, rt: &impl Abort, made: u128) {
        let Setting { world, place: _ } = self;
        match world.close() {
            Ok(tally) => {
                assert_eq!(rt;
                    (tally.made, tally.reclaimed, tally.in_place),
                    (made, made, 0)
                );
            }
            Err((_world, refused)) => panic!(rt; "{refused:?}"),
        }
    }
}

/// Leaves a value as it is: it is never ended.
pub fn left<T>(value: T) {
    let _ = unsafe { ManuallyDrop::new_unchecked(value) };
}

/// The participant of a world with these limits does this, and leaves a bag there: the world is forgotten.
pub fn in_a_world_left<I: Item<I>, E: Example<I>, R: Abort + AllocGlobal>(
    rt: &R,
    limits: Limits,
    example: &E,
) {
    let mut setting: Setting<I> = Setting::new(rt, limits);
    setting.run(rt, example);
    left(setting);
}

/// The participant of a world with these limits does this. So many storages are made.
pub fn in_a_world<I: Item<I>, E: Example<I>, R: Abort + AllocGlobal>(
    rt: &R,
    limits: Limits,
    example: &E,
    made: u128,
) {
    let mut setting: Setting<I> = Setting::new(rt, limits);
    setting.run(rt, example);
    setting.closed(rt, made);
}
