//! The calls of each of many threads that share few items. What a call may be refused with is all that is known, since others come between.
ghost use Rattle.std.specs.Prelude.{◌≡◌};
ghost use Rattle.sdd_space.specs.CallerId.{IsSeated};
ghost use Rattle.sdd_space.specs.Guard.{reader_of};
ghost use Rattle.sdd_space.specs.Shared as shared;

use crate::drawn::generator::Generator;
use crate::owners::counted::Counted;
use crate::with_jobs::{Adds, Total, adding, number};
use sdd_core::Refused;
use sdd_space::{
    Deferrals, Guard, Guards, InPlaceItems, Items, Look, Owned, RawItems, RawPtr, Shared,
    SharedOwners, Space,
};
use std::process::Abort;
use std::sync::atomic::Ordering;

/// What the threads of a round count together.
#[derive(Drop)]
pub struct Counts {
    /// The seed of the next thread.
    pub seeds: Total,
    /// The values that were dropped.
    pub drops: Total,
    /// The values that found no slot.
    pub refused: Total,
    /// The owners that were told that they were the last.
    pub last: Total,
    pub deferred: Total,
    /// The jobs that ran.
    pub runs: Total,
    /// How often the tag of a cell went on by one.
    pub turned: Total,
}

impl Counts {
    pub fn new(rt: &(impl Abort + AllocGlobal), seed: u64) -> Counts {
        let counts = Counts {
            seeds: number(rt),
            drops: number(rt),
            refused: number(rt),
            last: number(rt),
            deferred: number(rt),
            runs: number(rt),
            turned: number(rt),
        };
        counts.seeds.store(seed, Ordering::SeqCst);
        counts
    }
}

/// What was given to a thread is with it, or was taken out of its place.
pub fn is_taken<X>(rt: &impl Abort, given: Option<X>) {
    if let Some(_given) = given {
        panic!(rt; "it was taken")
    }
}

/// A guard shows one number at each look, whoever would change it.
fn looks<S: Items<Counted> + Guards<Counted>>(rt: &impl Abort, s: &mut S, owner: &Shared<Counted>)
    requires seated { IsSeated (S.caller s.old) }
    requires home { shared.slots_home owner.now ≡ (S.caller s.old).home.slots }
    ensures { S.caller s.new ≡ S.caller s.old }
{
    let guard = Guard::new(s).expect(rt, "a guard may be opened");
    let seen = owner.get_guarded_ref(&guard, s);
    let number = seen.number;
    let again = owner.get_guarded_ref(&guard, s);
    assert_eq!(rt; (seen.number, again.number), (number, number));
    guard.accelerate(s);
    guard.close(s);
}

/// Adds one to the number.
fn adds_one<S: InPlaceItems<Counted>>(
    rt: &impl Abort,
    s: &mut S,
    owner: &mut Shared<Counted>,
) -> Option<Refused>
    requires seated { IsSeated (S.caller s.old) }
    requires home { shared.slots_home owner.old ≡ (S.caller s.old).home.slots }
    ensures caller { S.caller s.new ≡ S.caller s.old }
    ensures home { shared.slots_home owner.new ≡ shared.slots_home owner.old }
{
    match owner.get_mut(|value| value.number = value.number.wrapping_add(1), s) {
        Ok(()) => None,
        Err((_add, refused)) => {
            assert!(rt; refused == Refused::NotAlone || refused == Refused::GuardOpen);
            Some(refused)
        }
    }
}

/// Beside another owner it isn't the last, and no guard keeps it.
fn drops_beside<S: Items<Counted> + InPlaceItems<Counted>>(
    rt: &impl Abort,
    s: &mut S,
    other: Shared<Counted>,
)
    requires seated { IsSeated (S.caller s.old) }
    requires home { shared.slots_home other ≡ (S.caller s.old).home.slots }
    ensures { S.caller s.new ≡ S.caller s.old }
{
    match other.drop_in_place(s) {
        Ok(last) => assert!(rt; !last),
        Err((other, refused)) => {
            assert_eq!(rt; refused, Refused::Contended);
            assert!(rt; !other.release(s));
        }
    }
}

/// Has another owner for a while, beside which nothing is changed.
fn shares<S: Items<Counted> + SharedOwners<Counted> + InPlaceItems<Counted>>(
    rt: &impl Abort,
    s: &mut S,
    owner: &mut Shared<Counted>,
    in_place: bool,
)
    requires seated { IsSeated (S.caller s.old) }
    requires home { shared.slots_home owner.old ≡ (S.caller s.old).home.slots }
    ensures caller { S.caller s.new ≡ S.caller s.old }
    ensures home { shared.slots_home owner.new ≡ shared.slots_home owner.old }
{
    let other = owner.clone(s).expect(rt, "there are few owners");
    assert!(rt; adds_one(rt, s, owner) == Some(Refused::NotAlone));
    if in_place {
        drops_beside(rt, s, other);
    } else {
        assert!(rt; !other.release(s));
    }
}

/// Whoever takes back what is out changes it, if no guard is open, and puts it out again.
fn takes_back<S: RawItems<Counted> + InPlaceItems<Counted>>(
    rt: &impl Abort,
    s: &mut S,
    out: RawPtr<Counted>,
)
    requires { IsSeated (S.caller s.old) }
    ensures { S.caller s.new ≡ S.caller s.old }
{
    let Some(mut owner) = Owned::from_raw(out, s) else {
        return;
    };
    match owner.get_mut(|value| value.number = value.number.wrapping_add(1), s) {
        Ok(()) => {}
        Err((_add, refused)) => assert_eq!(rt; refused, Refused::GuardOpen),
    }
    assert!(rt; owner.into_raw(s) == out);
}

/// What a guard shows of something that is out.
fn shown_out<'g, S: Look<Counted> + RawItems<Counted>>(
    s: &mut S,
    out: RawPtr<Counted>,
    guard: &'g Guard,
) -> Option<&'g Counted>
    requires seated { IsSeated (S.caller s.old) }
    requires reader { reader_of guard.now ≡ (S.caller s.old).reader }
    ensures { S.caller s.new ≡ S.caller s.old }
{
    let ptr = out.into_ptr(s, guard)?;
    ptr.as_ref(s)
}

/// A guard that finds something out shows one number at each look, whoever takes it back.
fn sees_out<S: Look<Counted> + RawItems<Counted> + Guards<Counted>>(
    rt: &impl Abort,
    s: &mut S,
    out: RawPtr<Counted>,
)
    requires { IsSeated (S.caller s.old) }
    ensures { S.caller s.new ≡ S.caller s.old }
{
    let guard = Guard::new(s).expect(rt, "a guard may be opened");
    if let Some(seen) = shown_out(s, out, &guard) {
        let number = seen.number;
        if let Some(again) = shown_out(s, out, &guard) {
            assert_eq!(rt; again.number, number);
        }
        assert_eq!(rt; seen.number, number);
    }
    guard.accelerate(s);
    guard.close(s);
}

/// An item that no other thread knows goes out and comes back, and is dropped in its place or retired.
fn makes_own<S: Items<Counted> + RawItems<Counted> + InPlaceItems<Counted>>(
    rt: &impl Abort,
    s: &mut S,
    counts: &Counts,
)
    requires { IsSeated (S.caller s.old) }
    ensures { S.caller s.new ≡ S.caller s.old }
{
    let owner = match Owned::new(Counted::new(rt, 0, &counts.drops), s) {
        Ok(owner) => owner,
        Err((_value, refused)) => {
            assert!(rt; refused == Refused::NoSlot || refused == Refused::Contended);
            counts.refused.fetch_add(1, Ordering::SeqCst);
            return;
        }
    };
    let ptr = owner.into_raw(s);
    let Some(owner) = Owned::from_raw(ptr, s) else {
        panic!(rt; "nobody else knows it")
    };
    match owner.drop_in_place(s) {
        Ok(()) => {}
        Err((owner, refused)) => {
            assert_eq!(rt; refused, Refused::GuardOpen);
            owner.retire(s);
        }
    }
}

fn defers<S: Guards<Counted> + Deferrals<Counted, Job = Adds>>(
    rt: &impl Abort,
    s: &mut S,
    counts: &Counts,
)
    requires { IsSeated (S.caller s.old) }
    ensures { S.caller s.new ≡ S.caller s.old }
{
    let guard = Guard::new(s).expect(rt, "a guard may be opened");
    match guard.defer_execute(adding(rt, &counts.runs, 1), s) {
        Ok(()) => {
            counts.deferred.fetch_add(1, Ordering::SeqCst);
        }
        Err((_job, refused)) => {
            assert!(rt; refused == Refused::NoJob || refused == Refused::Contended);
        }
    }
    guard.accelerate(s);
    guard.close(s);
}

/// One call, drawn.
fn draw<S: Space<Counted> + Deferrals<Counted, Job = Adds>>(
    rt: &impl Abort,
    s: &mut S,
    counts: &Counts,
    out: RawPtr<Counted>,
    owner: &mut Shared<Counted>,
    call: u64,
)
    requires seated { IsSeated (S.caller s.old) }
    requires home { shared.slots_home owner.old ≡ (S.caller s.old).home.slots }
    ensures caller { S.caller s.new ≡ S.caller s.old }
    ensures home { shared.slots_home owner.new ≡ shared.slots_home owner.old }
{
    match call {
        0 => looks(rt, s, owner),
        1 => shares(rt, s, owner, true),
        2 => shares(rt, s, owner, false),
        3 => takes_back(rt, s, out),
        4 => sees_out(rt, s, out),
        5 => makes_own(rt, s, counts),
        6 => defers(rt, s, counts),
        _ => {
            let _ = adds_one(rt, s, owner);
        }
    }
}

/// So many calls, drawn.
pub fn draws<S: Space<Counted> + Deferrals<Counted, Job = Adds>>(
    rt: &impl Abort,
    s: &mut S,
    counts: &Counts,
    out: RawPtr<Counted>,
    owner: &mut Shared<Counted>,
    drawn: &mut Generator,
    calls: u64,
)
    requires seated { IsSeated (S.caller s.old) }
    requires home { shared.slots_home owner.old ≡ (S.caller s.old).home.slots }
    ensures caller { S.caller s.new ≡ S.caller s.old }
    ensures home { shared.slots_home owner.new ≡ shared.slots_home owner.old }
{
    for _ in 0..calls {
        draw(rt, s, counts, out, owner, drawn.below(8));
    }
}

/// The owner goes, in its place where it may, and is counted if it was the last.
pub fn is_let_go<S: Items<Counted> + InPlaceItems<Counted>>(
    s: &mut S,
    counts: &Counts,
    owner: Shared<Counted>,
    in_place: bool,
)
    requires seated { IsSeated (S.caller s.old) }
    requires home { shared.slots_home owner ≡ (S.caller s.old).home.slots }
    ensures { S.caller s.new ≡ S.caller s.old }
{
    let last = if in_place {
        match owner.drop_in_place(s) {
            Ok(last) => last,
            Err((owner, _refused)) => owner.release(s),
        }
    } else {
        owner.release(s)
    };
    if last {
        counts.last.fetch_add(1, Ordering::SeqCst);
    }
}
