//! The same calls of guards over a turn at a world, and over the only participant of a domain.
ghost use Rattle.std.specs.Prelude.{◌≡◌};
ghost use Rattle.sdd_space.specs.CallerId.{IsSeated};
ghost use Rattle.sdd_world_model.specs.World.{IsPlaceOf};
ghost use Rattle.sdd_world.specs.Place.{index_of};
ghost use Rattle.sdd_space.specs.Guard.{reader_of};
ghost use Rattle.sdd_domain.specs.Space.{caller_of};
ghost use Rattle.sdd_world_tests.specs.Stays.{Stays};

use crate::steps::{closed, joined, new_world};
use sdd_core::{Limits, Refused};
use sdd_domain::{Domain, Local, Receipt};
use sdd_space::{Guard, Guards, Item};
use sdd_world::{Place, World};
use std::process::Abort;

/// One participant, of whom two guards may be open at once.
const LONE: Limits = Limits {
    participants: 1,
    slots: 8,
    cells: 8,
    jobs: 8,
    nesting: 2,
    tries: 1,
};

/// What is done under a guard.
#[derive(Clone, Copy)]
enum Under {
    Nothing,
    Stir,
    Accelerate,
}

/// What the calls of one guard answered.
#[derive(Clone, Copy, Debug, PartialEq, Eq)]
struct Shown {
    epoch: u8,
    had_garbage: bool,
    has_garbage: bool,
    inner_epoch: u8,
    third: Option<Refused>,
}

/// Opens a guard, does something under it, opens one in it, tries a third, and closes them.
fn two_guards<T: Item<T>, S: Guards<T>>(rt: &impl Abort, s: &mut S, under: Under) -> Shown
    requires { IsSeated (S.caller s.old) }
    ensures { S.caller s.new ≡ S.caller s.old }
{
    let outer = Guard::new(s).expect(rt, "no guard is open");
    let epoch = u8::from(outer.epoch(s));
    let had_garbage = outer.has_garbage(s);
    act(&outer, s, under);
    let has_garbage = outer.has_garbage(s);
    let inner = Guard::new(s).expect(rt, "two guards may be open");
    let inner_epoch = u8::from(inner.epoch(s));
    let third = refusal(rt, s);
    inner.close(s);
    outer.close(s);
    Shown {
        epoch,
        had_garbage,
        has_garbage,
        inner_epoch,
        third,
    }
}

/// Does this under the guard.
fn act<T: Item<T>, S: Guards<T>>(guard: &Guard, s: &mut S, under: Under)
    requires { IsSeated (S.caller s.old) }
    ensures { S.caller s.new ≡ S.caller s.old }
{
    match under {
        Under::Nothing => {}
        Under::Stir => guard.set_has_garbage(s),
        Under::Accelerate => guard.accelerate(s),
    }
}

/// What a third guard is refused with.
fn refusal<T: Item<T>, S: Guards<T>>(rt: &impl Abort, s: &mut S) -> Option<Refused>
    requires { IsSeated (S.caller s.old) }
    ensures { S.caller s.new ≡ S.caller s.old }
{
    match Guard::new(s) {
        Ok(_guard) => panic!(rt; "two guards are open"),
        Err(refused) => Some(refused),
    }
}

fn at_world(rt: &impl Abort, world: &mut World<u64>, place: &Place, under: Under) -> Shown
    requires place { IsPlaceOf world.old (index_of place.now) }
    ensures stays { Stays world.old world.new }
{
    let mut turn = world.at(place);
    two_guards(rt, &mut turn, under)
}

fn at_domain(rt: &impl Abort, local: &mut Local<'_, u64>, under: Under) -> Shown
    requires { IsSeated (caller_of local.old) }
    ensures { caller_of local.new ≡ caller_of local.old }
{
    two_guards::<u64, Local<'_, u64>>(rt, local, under)
}

#[test]
fn the_only_participant_of_a_domain_is_answered_as_a_turn_is(rt: HostRuntime) {
    let mut world: World<u64> = new_world(&rt, LONE, 0);
    let place = joined(&rt, &mut world);
    let domain: Domain<u64> = Domain::new(rt.alloc(), LONE).expect(&rt, "the limits are in range");
    let mut local = Local::register(&domain).expect(&rt, "a place is free");
    for call in 0u32..600 {
        let under = match call % 200 {
            0..5 => Under::Accelerate,
            5 => Under::Stir,
            _ => Under::Nothing,
        };
        let shown = at_domain(&rt, &mut local, under);
        assert_eq!(rt;
            shown,
            at_world(&rt, &mut world, &place, under),
            "at guard {call}"
        );
        assert!(rt; shown.third == Some(Refused::TooManyGuards));
    }
    match local.end() {
        Ok(receipt) => assert!(rt; !receipt.waits()),
        Err(_local) => panic!(rt; "a guard is open"),
    }
    let receipts: Vec<Receipt<u64>> = Vec::new(rt.alloc());
    match domain.close(receipts) {
        Ok(_tally) => {}
        Err((_domain, _receipts, refused)) => panic!(rt; "refused: {refused:?}"),
    }
    closed(&rt, world);
}
