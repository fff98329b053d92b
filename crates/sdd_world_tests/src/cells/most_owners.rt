//! As many owners of one item as there may be. Most of them come in one piece.
ghost use Rattle.std.specs.Prelude.{◌≡◌, ◌≤◌};
ghost use Rattle.sdd_space.specs.CallerId.{IsSeated};
ghost use Rattle.sdd_world_model.specs.World.{IsPlaceOf};
ghost use Rattle.sdd_world.specs.Place.{index_of};
ghost use Rattle.sdd_space.specs.Shared.{slots_home, cells_home};

use crate::cells::example::AMPLE;
use crate::cells::steps::{close, opened, owners, seen, shared};
use sdd_core::{Limits, Refused};
use sdd_participants::Standing;
use sdd_rights::SharedRights;
use sdd_space::{AtomicShared, Cells, Items, Shared, SharedItems, Space, inner};
use sdd_world::inner::{add_owners, release_all_but_one, standing_of};
use sdd_world::{Place, World};
use std::marker::Model;
use std::process::Abort;

/// 2^62.
const MOST: u64 = 4_611_686_018_427_387_904;

/// What one owner more is refused with, by each call that gives one.
#[derive(Clone, Copy, Debug, PartialEq)]
struct Refusals {
    /// Another owner.
    copy: Option<Refused>,
    /// An owner of a pointer.
    upgrade: Option<Refused>,
    /// An owner of what the cell holds.
    owner: Option<Refused>,
    /// A copy of the cell.
    cell: Option<Refused>,
}

const NONE: Refusals = Refusals {
    copy: None,
    upgrade: None,
    owner: None,
    cell: None,
};

const TOO_MANY: Refusals = Refusals {
    copy: Some(Refused::TooManyOwners),
    upgrade: Some(Refused::TooManyOwners),
    owner: Some(Refused::TooManyOwners),
    cell: Some(Refused::TooManyOwners),
};

/// An owner of an item, a cell that holds another, and more owners in one piece.
struct Crowd {
    world: World<u64>,
    place: Place,
    owner: Shared<u64>,
    cell: AtomicShared<u64>,
    more: SharedRights,
}

impl Model for Crowd {
    ghost use Rattle.std.specs.Prelude.{◌≡◌};
    ghost use Rattle.sdd_world_model.specs.World.{IsPlaceOf};
    ghost use Rattle.sdd_space.specs.Shared.{slots_home, cells_home};
    ghost use Rattle.sdd_rights.specs.SharedRights.{home_of};
    ghost use Rattle.sdd_world.specs.Place.{index_of};

    ghost Value = { Unit {0} };

    ghost view = { λ _. tt };

    ghost invariant = { λ c. IsPlaceOf c.world (index_of c.place) × (slots_home c.owner ≡ c.world.home.slots) ×
        (cells_home c.cell ≡ c.world.home.cells) × (home_of c.more ≡ c.world.home.slots) };
}

impl Crowd {
    /// So many owners in one piece, beside the owner and the one in the cell.
    fn new<R: Abort + AllocGlobal>(rt: &R, limits: Limits, more: u64) -> Crowd
        requires { 1 ≤ more }
    {
        let mut world = World::new(rt.alloc(), limits).expect(rt, "the limits are in range");
        let place = world.register().expect(rt, "a place is free");
        let (owner, cell) = first_owners_at(rt, &mut world, &place);
        let more = add_owners(&mut world, &owner, more).expect(rt, "so many may own it");
        Crowd {
            world,
            place,
            owner,
            cell,
            more,
        }
    }

    /// How the item stands.
    fn standing(&self) -> Option<Standing> {
        standing_of(&self.world, inner::slot_of_owner(&self.owner).number())
    }

    /// What one owner more is refused with, and beside it yet another. Who is had is given up again.
    fn refusals(&mut self, rt: &impl Abort) -> (Refusals, Option<Refusals>) {
        refusals_of_two(rt, &mut self.world.at(&self.place), &self.owner, &self.cell)
    }

    /// What so many owners more are refused with.
    fn refused_more(&mut self, rt: &impl Abort, more: u64) -> Refused
        requires { 1 ≤ more }
    {
        match add_owners(&mut self.world, &self.owner, more) {
            Ok(_several) => panic!(rt; "so many may own it"),
            Err(refused) => refused,
        }
    }

    /// All but one of those in one piece go, then the owner and the cell. The one is the last.
    fn closed(self, rt: &impl Abort) {
        let Crowd {
            mut world,
            place,
            owner,
            cell,
            more,
        } = self;
        let last = release_all_but_one(&mut world, more);
        all_go(rt, &mut world.at(&place), owner, cell, last);
        match world.close() {
            Ok(tally) => assert_eq!(rt; (tally.made, tally.reclaimed), (1, 1)),
            Err((_world, refused)) => panic!(rt; "{refused:?}"),
        }
    }
}

/// The participant makes an item, and has an owner of it and a cell that holds another.
fn first_owners_at(
    rt: &impl Abort,
    world: &mut World<u64>,
    place: &Place,
) -> (Shared<u64>, AtomicShared<u64>)
    requires place { IsPlaceOf world.old (index_of place.now) }
    ensures place { IsPlaceOf world.new (index_of place.now) }
    ensures owner { slots_home result.0 ≡ world.new.home.slots }
    ensures cell { cells_home result.1 ≡ world.new.home.cells }
{
    first_owners(rt, &mut world.at(place))
}

/// An owner of a new item, and a cell that holds another.
fn first_owners<S: Items<u64> + SharedItems<u64> + Cells<u64>>(
    rt: &impl Abort,
    s: &mut S,
) -> (Shared<u64>, AtomicShared<u64>)
    requires seated { IsSeated (S.caller s.old) }
    ensures caller { S.caller s.new ≡ S.caller s.old }
    ensures owner { slots_home result.0 ≡ (S.caller s.new).home.slots }
    ensures cell { cells_home result.1 ≡ (S.caller s.new).home.cells }
{
    let owner = shared::made(rt, s, 7);
    let other = shared::copied(rt, s, &owner);
    match AtomicShared::from(other, s) {
        Ok(cell) => (owner, cell),
        Err((_owner, refused)) => panic!(rt; "{refused:?}"),
    }
}

/// The owner and the cell go, and then the last owner.
fn all_go<S: Items<u64> + Cells<u64>>(
    rt: &impl Abort,
    s: &mut S,
    owner: Shared<u64>,
    cell: AtomicShared<u64>,
    last: Shared<u64>,
)
    requires seated { IsSeated (S.caller s.old) }
    requires owner { slots_home owner ≡ (S.caller s.old).home.slots }
    requires cell { cells_home cell ≡ (S.caller s.old).home.cells }
    requires last { slots_home last ≡ (S.caller s.old).home.slots }
    ensures caller { S.caller s.new ≡ S.caller s.old }
{
    assert!(rt; !shared::release(s, owner));
    owners::close_cell(s, cell);
    assert!(rt; shared::release(s, last));
}

/// What one owner more is refused with, and beside it yet another. Who is had is given up again.
fn refusals_of_two<S: Space<u64>>(
    rt: &impl Abort,
    s: &mut S,
    owner: &Shared<u64>,
    cell: &AtomicShared<u64>,
) -> (Refusals, Option<Refusals>)
    requires seated { IsSeated (S.caller s.old) }
    requires owner { slots_home owner.now ≡ (S.caller s.old).home.slots }
    requires cell { cells_home cell.now ≡ (S.caller s.old).home.cells }
    ensures caller { S.caller s.new ≡ S.caller s.old }
{
    let first = refusals_of(rt, s, owner, cell);
    match owner.clone(s) {
        Ok(other) => {
            let second = refusals_of(rt, s, owner, cell);
            let _ = shared::release(s, other);
            (first, Some(second))
        }
        Err(_refused) => (first, None),
    }
}

/// What one owner more is refused with, by each call that gives one. Who is had is given up again.
fn refusals_of<S: Space<u64>>(
    rt: &impl Abort,
    s: &mut S,
    owner: &Shared<u64>,
    cell: &AtomicShared<u64>,
) -> Refusals
    requires seated { IsSeated (S.caller s.old) }
    requires owner { slots_home owner.now ≡ (S.caller s.old).home.slots }
    requires cell { cells_home cell.now ≡ (S.caller s.old).home.cells }
    ensures caller { S.caller s.new ≡ S.caller s.old }
{
    let guard = opened(rt, s);
    let ptr = owner.get_guarded_ptr(&guard, s);
    let refusals = Refusals {
        copy: shared::refused_copy(s, owner),
        upgrade: shared::refused_upgrade(s, ptr),
        owner: shared::refused_owner(s, cell, &guard),
        cell: shared::refused_cell(s, cell, &guard),
    };
    assert!(rt; seen(s, ptr) == Some(7));
    close(s, guard);
    refusals
}

#[test]
fn where_2_62_own_an_item_nobody_more_may(rt: HostRuntime) {
    let mut crowd = Crowd::new(&rt, AMPLE, MOST - 2);
    assert_eq!(rt; crowd.refusals(&rt), (TOO_MANY, None));
    assert!(rt; crowd.refused_more(&rt, 1) == Refused::TooManyOwners);
    assert!(rt; crowd.refused_more(&rt, u64::MAX) == Refused::TooManyOwners);
    assert!(rt; crowd.standing() == Some(Standing::Shared(MOST)));
    crowd.closed(&rt);
}

#[test]
fn where_one_fewer_own_it_one_more_may(rt: HostRuntime) {
    let mut crowd = Crowd::new(&rt, AMPLE, MOST - 3);
    assert_eq!(rt; crowd.refusals(&rt), (NONE, Some(TOO_MANY)));
    assert!(rt; crowd.refused_more(&rt, 2) == Refused::TooManyOwners);
    assert!(rt; crowd.standing() == Some(Standing::Shared(MOST - 1)));
    crowd.closed(&rt);
}
