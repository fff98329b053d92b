//! What a domain drops: values that count how many of them there are.
ghost use Rattle.std.specs.Prelude.{◌≡◌};
ghost use Rattle.sdd_space.specs.CallerId.{IsSeated};
ghost use Rattle.sdd_domain.specs.Space.{caller_of};

use crate::steps::{ONE_SLOT, closed, ended, is_tally, new_domain, registered, turn};
use crate::worked::in_place::counts;
use sdd_core::Limits;
use sdd_domain::Local;
use sdd_space::{Giver, Item, Owned};
use std::alloc::Global;
use std::process::Abort;
use std::sync::Arc;

/// A value that holds no owner, and is there as long as it wasn't dropped.
#[derive(Drop)]
struct Counted {
    alive: Arc<(), Global>,
}

impl<I> Item<I> for Counted {
    ghost use Rattle.std.specs.Prelude.{[]};

    ghost holds = { λ _. [] };

    fn give_up<G: Giver<I>>(self, _giver: &mut G) {}
}

/// Two slots.
const TWO_SLOTS: Limits = Limits {
    slots: 2,
    ..ONE_SLOT
};

/// Makes a value, and retires it at once.
fn makes_and_retires(rt: &impl Abort, local: &mut Local<'_, Counted>, alive: &Arc<(), Global>)
    requires { IsSeated (caller_of local.old) }
    ensures { caller_of local.new ≡ caller_of local.old }
{
    let alive = Arc::try_clone(alive).expect(rt, "it is counted");
    match Owned::new(Counted { alive }, local) {
        Ok(owner) => owner.retire(local),
        Err((_value, refused)) => panic!(rt; "refused: {refused:?}"),
    }
}

/// The first one is dropped by its participant, at the fourth opening. The second one was retired
/// after the first change, and is dropped by the close.
#[test]
fn each_value_is_dropped_once(rt: HostRuntime) {
    let alive = Arc::new(rt.alloc(), ()).expect(&rt, "there is memory");
    let domain = new_domain::<Counted>(&rt, TWO_SLOTS);
    let mut local = registered(&rt, &domain);
    makes_and_retires(&rt, &mut local, &alive);
    turn(&rt, &mut local);
    turn(&rt, &mut local);
    makes_and_retires(&rt, &mut local, &alive);
    turn(&rt, &mut local);
    assert_eq!(rt; Arc::strong_count(&alive), 3);
    turn(&rt, &mut local);
    assert_eq!(rt; Arc::strong_count(&alive), 2);
    let receipts = vec![in rt.alloc(); ended(&rt, local)].expect(&rt, "there is memory");
    assert_eq!(rt; Arc::strong_count(&alive), 2);
    is_tally(&rt, closed(&rt, domain, receipts), 2, 2);
    assert_eq!(rt; Arc::strong_count(&alive), 1);
}

/// The value stays where it is.
#[test]
fn what_waits_in_a_leaked_domain_is_not_dropped(rt: HostRuntime) {
    let alive = Arc::new(rt.alloc(), ()).expect(&rt, "there is memory");
    let domain = new_domain::<Counted>(&rt, TWO_SLOTS);
    let mut local = registered(&rt, &domain);
    makes_and_retires(&rt, &mut local, &alive);
    is_tally(&rt, ended(&rt, local).tally(), 1, 0);
    domain.leak();
    assert_eq!(rt; Arc::strong_count(&alive), 2);
}

/// Makes a value, and drops it in its place at once.
fn makes_and_drops(rt: &impl Abort, local: &mut Local<'_, Counted>, alive: Arc<(), Global>)
    requires { IsSeated (caller_of local.old) }
    ensures { caller_of local.new ≡ caller_of local.old }
{
    let owner = match Owned::new(Counted { alive }, local) {
        Ok(owner) => owner,
        Err((_value, refused)) => panic!(rt; "refused: {refused:?}"),
    };
    match owner.drop_in_place(local) {
        Ok(()) => {}
        Err((_owner, refused)) => panic!(rt; "refused: {refused:?}"),
    }
}

/// One more value is made and dropped, and nothing of it is left.
fn nothing_is_left(rt: &impl Abort, local: &mut Local<'_, Counted>, alive: &Arc<(), Global>)
    requires { IsSeated (caller_of local.old) }
    ensures { caller_of local.new ≡ caller_of local.old }
{
    let counted = Arc::try_clone(alive).expect(rt, "it is counted");
    makes_and_drops(rt, local, counted);
    assert_eq!(rt; Arc::strong_count(alive), 1);
}

/// The value is dropped at once, and its slot is free.
#[test]
fn a_value_that_is_dropped_in_its_place_is_dropped_once(rt: HostRuntime) {
    let alive = Arc::new(rt.alloc(), ()).expect(&rt, "there is memory");
    let domain = new_domain::<Counted>(&rt, ONE_SLOT);
    let mut local = registered(&rt, &domain);
    nothing_is_left(&rt, &mut local, &alive);
    nothing_is_left(&rt, &mut local, &alive);
    nothing_is_left(&rt, &mut local, &alive);
    let receipts = vec![in rt.alloc(); ended(&rt, local)].expect(&rt, "there is memory");
    counts(&rt, closed(&rt, domain, receipts), 3, 0, 3);
    assert_eq!(rt; Arc::strong_count(&alive), 1);
}
