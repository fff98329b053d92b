//! One example of each call that a turn at a world and the only participant of a domain both have, with what both answer, also where the domain has a place
//! more.
ghost use Rattle.std.specs.Prelude.{◌≡◌};
ghost use Rattle.sdd_space.specs.CallerId.{IsSeated};
ghost use Rattle.sdd_space.specs.Guard.{reader_of};
ghost use Rattle.sdd_space.specs.Shared as shared;

use crate::answers::{Answer, note};
use crate::both_spaces::{Plays, compared};
use crate::owners::steps::{
    copied, dropped_in_place, owned_item, put, released, seen, shared_item, stays_in_place,
    turn_shows,
};
use crate::steps::ONE_SLOT;
use crate::with_jobs::{Adds, Total, adding};
use sdd_core::{Limits, Refused, Tag};
use sdd_participants::Tally;
use sdd_space::{
    AtomicShared, Cells, Deferrals, Guard, Guards, InPlaceItems, Items, Look, Owned, Ptr, RawItems,
    RawPtr, SharedOwners, Space,
};
use std::process::Abort;
use std::sync::atomic::Ordering;

/// One place for a job, beside one slot.
const ONE_SLOT_AND_ONE_JOB: Limits = Limits {
    jobs: 1,
    ..ONE_SLOT
};

/// Owners of one item, beside each other and alone.
fn shares<S: Items<u64> + SharedOwners<u64> + InPlaceItems<u64> + Guards<u64>>(
    rt: &impl Abort,
    s: &mut S,
    answers: &mut Vec<Answer>,
)
    requires { IsSeated (S.caller s.old) }
    ensures { S.caller s.new ≡ S.caller s.old }
{
    let mut owner = shared_item(rt, s, 38);
    note(rt, answers, Answer::of_number(put(s, &mut owner, 39)));
    let other = copied(rt, s, &owner);
    note(rt, answers, Answer::of_number(put(s, &mut owner, 40)));
    let guard = Guard::new(s).expect(rt, "a guard may be opened");
    note(rt, answers, Answer::Number(seen(s, &guard, &other)));
    note(rt, answers, Answer::Told(released(s, other)));
    note(rt, answers, Answer::of_number(put(s, &mut owner, 41)));
    let owner = stays_in_place(rt, s, owner);
    guard.close(s);
    note(rt, answers, Answer::Told(dropped_in_place(rt, s, owner)));
}

/// What a cell shows under a guard, and its tag.
fn held<S: Look<u64> + Guards<u64> + Cells<u64>>(
    rt: &impl Abort,
    s: &mut S,
    cell: &AtomicShared<u64>,
) -> Answer
    requires seated { IsSeated (S.caller s.old) }
    requires home { shared.cells_home cell.now ≡ (S.caller s.old).home.cells }
    ensures { S.caller s.new ≡ S.caller s.old }
{
    let guard = Guard::new(s).expect(rt, "a guard may be opened");
    let ptr = cell.load(&guard, s);
    let answer = Answer::Held(ptr.as_ref(s).copied(), ptr.tag());
    guard.close(s);
    answer
}

/// What a cell answers to an exchange that expects it to hold nothing.
fn emptied<S: Look<u64> + Guards<u64> + Cells<u64>>(
    rt: &impl Abort,
    s: &mut S,
    cell: &AtomicShared<u64>,
) -> Answer
    requires seated { IsSeated (S.caller s.old) }
    requires home { shared.cells_home cell.now ≡ (S.caller s.old).home.cells }
    ensures { S.caller s.new ≡ S.caller s.old }
{
    let guard = Guard::new(s).expect(rt, "a guard may be opened");
    let answer = match cell.compare_exchange(Ptr::null(), (None, Tag::Both), &guard, s) {
        Ok(_) => panic!(rt; "the cell holds an owner"),
        Err((back, now)) => {
            if let Some(_owner) = back {
                panic!(rt; "nothing was handed in")
            }
            Answer::Exchanged(false, None, now.as_ref(s).copied(), now.tag())
        }
    };
    guard.close(s);
    answer
}

/// The one slot and the one cell are taken, and what the cell held comes out.
fn holds<S: Look<u64> + Items<u64> + InPlaceItems<u64> + Guards<u64> + Cells<u64>>(
    rt: &impl Abort,
    s: &mut S,
    answers: &mut Vec<Answer>,
)
    requires { IsSeated (S.caller s.old) }
    ensures { S.caller s.new ≡ S.caller s.old }
{
    let owner = shared_item(rt, s, 5);
    let cell = match AtomicShared::from(owner, s) {
        Ok(cell) => cell,
        Err((_owner, refused)) => panic!(rt; "refused: {refused:?}"),
    };
    note(rt, answers, held(rt, s, &cell));
    match AtomicShared::<u64>::null(s) {
        Ok(_cell) => panic!(rt; "no cell is free"),
        Err(refused) => note(rt, answers, Answer::Refused(refused)),
    }
    let tagged = cell.update_tag_if(Tag::First, |ptr| ptr.tag() == Tag::None, s);
    note(rt, answers, Answer::Told(tagged == Ok(true)));
    note(rt, answers, emptied(rt, s, &cell));
    let (old, tag) = cell.swap((None, Tag::Second), s);
    let Some(owner) = old else {
        panic!(rt; "the cell held an owner")
    };
    note(rt, answers, Answer::Held(Some(*owner.get(s)), tag));
    note(rt, answers, held(rt, s, &cell));
    cell.close(s);
    note(rt, answers, Answer::Told(dropped_in_place(rt, s, owner)));
}

/// What a guard shows of something that is out.
fn shown<S: Look<u64> + RawItems<u64>>(s: &mut S, ptr: RawPtr<u64>, guard: &Guard) -> Answer
    requires seated { IsSeated (S.caller s.old) }
    requires reader { reader_of guard.now ≡ (S.caller s.old).reader }
    ensures { S.caller s.new ≡ S.caller s.old }
{
    match ptr.into_ptr(s, guard) {
        Some(ptr) => Answer::of_look(ptr.as_ref(s).copied()),
        None => Answer::Nothing,
    }
}

/// An item goes out as raw under a guard, comes back and is retired, and its slot isn't free.
fn goes_out<S: Look<u64> + Items<u64> + RawItems<u64> + Guards<u64>>(
    rt: &impl Abort,
    s: &mut S,
    answers: &mut Vec<Answer>,
)
    requires { IsSeated (S.caller s.old) }
    ensures { S.caller s.new ≡ S.caller s.old }
{
    let owner = owned_item(rt, s, 7);
    let ptr = owner.into_raw(s);
    let guard = Guard::new(s).expect(rt, "a guard may be opened");
    note(rt, answers, shown(s, ptr, &guard));
    let Some(owner) = Owned::from_raw(ptr, s) else {
        panic!(rt; "the item is out")
    };
    note(rt, answers, shown(s, ptr, &guard));
    note(rt, answers, Answer::Number(*owner.get(s)));
    if let Some(_owner) = Owned::from_raw(ptr, s) {
        panic!(rt; "the item came back")
    }
    owner.retire(s);
    guard.close(s);
    match Owned::new(9, s) {
        Ok(_owner) => panic!(rt; "no slot is free"),
        Err((value, refused)) => {
            note(rt, answers, Answer::Number(value));
            note(rt, answers, Answer::Refused(refused));
        }
    }
}

/// Defers a job that adds this. Where it is refused it comes back.
fn deferred<S: Deferrals<u64, Job = Adds>>(
    rt: &impl Abort,
    s: &mut S,
    guard: &Guard,
    total: &Total,
    amount: u64,
) -> Answer
    requires seated { IsSeated (S.caller s.old) }
    requires reader { reader_of guard.now ≡ (S.caller s.old).reader }
    ensures { S.caller s.new ≡ S.caller s.old }
{
    match guard.defer_execute(adding(rt, total, amount), s) {
        Ok(()) => Answer::Done,
        Err((job, refused)) => {
            assert!(rt; job.amount() == amount);
            Answer::Refused(refused)
        }
    }
}

/// A job finds the one place, and another one doesn't. Two guards are open, and a third one may not be.
fn defers<S: Guards<u64> + Deferrals<u64, Job = Adds>>(
    rt: &impl Abort,
    s: &mut S,
    total: &Total,
    answers: &mut Vec<Answer>,
)
    requires { IsSeated (S.caller s.old) }
    ensures { S.caller s.new ≡ S.caller s.old }
{
    let outer = Guard::new(s).expect(rt, "a guard may be opened");
    note(rt, answers, deferred(rt, s, &outer, total, 5));
    note(rt, answers, deferred(rt, s, &outer, total, 100));
    let inner = Guard::new(s).expect(rt, "two guards may be open");
    match Guard::new(s) {
        Ok(_guard) => panic!(rt; "two guards are open"),
        Err(refused) => note(rt, answers, Answer::Refused(refused)),
    }
    inner.close(s);
    outer.close(s);
}

/// The epochs of the next accelerated guards, whether something may wait, and what the jobs added so far.
fn goes_on<S: Guards<u64>>(rt: &impl Abort, s: &mut S, total: &Total, answers: &mut Vec<Answer>)
    requires { IsSeated (S.caller s.old) }
    ensures { S.caller s.new ≡ S.caller s.old }
{
    for _ in 0..5 {
        let (epoch, waits) = turn_shows(rt, s);
        note(rt, answers, Answer::Number(u64::from(epoch)));
        note(rt, answers, Answer::Told(waits));
        note(rt, answers, Answer::Number(total.load(Ordering::SeqCst)));
    }
}

/// What is answered, in that order.
const ANSWERS: [Answer; 36] = [
    Answer::Held(Some(5), Tag::None),
    Answer::Refused(Refused::NoCell),
    Answer::Told(true),
    Answer::Exchanged(false, None, Some(5), Tag::First),
    Answer::Held(Some(5), Tag::First),
    Answer::Held(None, Tag::Second),
    Answer::Told(true),
    Answer::Number(38),
    Answer::Refused(Refused::NotAlone),
    Answer::Number(39),
    Answer::Told(false),
    Answer::Refused(Refused::GuardOpen),
    Answer::Told(true),
    Answer::Number(7),
    Answer::Nothing,
    Answer::Number(7),
    Answer::Number(9),
    Answer::Refused(Refused::NoSlot),
    Answer::Done,
    Answer::Refused(Refused::NoJob),
    Answer::Refused(Refused::TooManyGuards),
    Answer::Number(0),
    Answer::Told(true),
    Answer::Number(0),
    Answer::Number(1),
    Answer::Told(true),
    Answer::Number(0),
    Answer::Number(2),
    Answer::Told(true),
    Answer::Number(0),
    Answer::Number(3),
    Answer::Told(false),
    Answer::Number(5),
    Answer::Number(4),
    Answer::Told(false),
    Answer::Number(5),
];

struct Example;

impl Plays for Example {
    fn play<R: Abort + AllocGlobal, S: Space<u64> + Deferrals<u64, Job = Adds>>(
        &self,
        rt: &R,
        s: &mut S,
        total: &Total,
        answers: &mut Vec<Answer>,
    ) {
        holds(rt, s, answers);
        shares(rt, s, answers);
        goes_out(rt, s, answers);
        defers(rt, s, total, answers);
        goes_on(rt, s, total, answers);
    }
}

#[test]
fn a_lone_participant_answers_as_a_turn_does(rt: HostRuntime) {
    let outcome = compared(&rt, &Example, ONE_SLOT_AND_ONE_JOB);
    assert_eq!(rt; outcome.answers.as_slice(), ANSWERS.as_slice());
    let counted = Tally {
        made: 3,
        reclaimed: 1,
        in_place: 2,
    };
    assert_eq!(rt; outcome.before, counted);
}
