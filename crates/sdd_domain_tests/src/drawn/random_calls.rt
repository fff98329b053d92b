//! Lists of calls as they come, which a turn at a world and the only participant of a domain answer alike, also where the domain has a place more.
ghost use Rattle.std.specs.Prelude.{◌≡◌, IfSome};
ghost use Rattle.sdd_space.specs.CallerId.{IsSeated};
ghost use Rattle.sdd_space.specs.Guard.{reader_of};
ghost use Rattle.sdd_domain_tests.specs.Hands.{IsHandOf};

use crate::answers::{Answer, note};
use crate::both_spaces::{Plays, compared};
use crate::drawn::generator::Generator;
use crate::drawn::in_hand::{InHand, let_hand_go, take_last_guard};
use crate::drawn::{
    collector_calls, guard_calls, owned_calls, owned_cell_calls, raw_cell_calls, shared_calls,
    shared_cell_calls,
};
use crate::hand::Hand;
use crate::steps::ONE_SLOT;
use crate::with_jobs::{Adds, Total};
use sdd_core::{Limits, Refused};
use sdd_space::{Deferrals, Guard, Space};
use std::process::Abort;
use std::sync::atomic::Ordering;

/// So many lists in the gate, in less than a second. By hand 100,000 of them take some minutes.
const LISTS: u64 = 300;

/// The calls of one list.
const CALLS: u64 = 100;

/// So few of everything that each refusal comes.
const FEW: Limits = Limits {
    slots: 3,
    cells: 3,
    jobs: 2,
    ..ONE_SLOT
};

/// The next call with something in hand, under this guard, if it needs one.
#[tactic(auto, unfolding(crate::specs::Hands::IsHandOf))]
fn call_under<S: Space<u64>>(
    rt: &impl Abort,
    s: &mut S,
    hand: &mut Hand,
    guard: &Option<Guard>,
    what: u64,
    drawn: &mut Generator,
) -> Option<Answer>
    requires seated { IsSeated (S.caller s.old) }
    requires hand { IsHandOf (S.caller s.old) hand.old }
    requires reader { IfSome guard.now (λ g. reader_of g ≡ (S.caller s.old).reader) }
    ensures caller { S.caller s.new ≡ S.caller s.old }
    ensures hand { IsHandOf (S.caller s.old) hand.new }
{
    match what {
        0 => owned_calls::call(rt, s, &mut hand.owned, guard, drawn),
        1 => shared_calls::call(rt, s, &mut hand.shared, guard, drawn),
        2 => owned_calls::raw_call(rt, s, hand, guard, drawn),
        3 => owned_cell_calls::call(rt, s, &mut hand.owned, guard, drawn),
        4 => shared_cell_calls::call(rt, s, &mut hand.shared, guard, drawn),
        5 => collector_calls::call(rt, s, hand, guard, drawn),
        _ => raw_cell_calls::call(rt, s, hand, guard, drawn),
    }
}

/// The same under the guard that was opened last, which is in hand afterwards as before.
fn call_in_hand<S: Space<u64>>(
    rt: &impl Abort,
    s: &mut S,
    hand: &mut Hand,
    what: u64,
    drawn: &mut Generator,
) -> Option<Answer>
    requires seated { IsSeated (S.caller s.old) }
    requires hand { IsHandOf (S.caller s.old) hand.old }
    ensures caller { S.caller s.new ≡ S.caller s.old }
    ensures hand { IsHandOf (S.caller s.old) hand.new }
{
    let last = take_last_guard(hand);
    let answer = call_under(rt, s, hand, &last, what, drawn);
    if let Some(guard) = last {
        guard.keep(rt, hand);
    }
    answer
}

/// The next call, with what there is.
fn call<S: Space<u64> + Deferrals<u64, Job = Adds>>(
    rt: &impl Abort,
    s: &mut S,
    hand: &mut Hand,
    total: &Total,
    drawn: &mut Generator,
) -> Option<Answer>
    requires seated { IsSeated (S.caller s.old) }
    requires hand { IsHandOf (S.caller s.old) hand.old }
    ensures caller { S.caller s.new ≡ S.caller s.old }
    ensures hand { IsHandOf (S.caller s.old) hand.new }
{
    let what = drawn.below(10);
    if what < 7 {
        call_in_hand(rt, s, hand, what, drawn)
    } else {
        guard_calls::call(rt, s, hand, total, drawn)
    }
}

/// A list of calls that this seed draws.
#[derive(Drop)]
struct Drawn {
    seed: u64,
}

impl Plays for Drawn {
    fn play<R: Abort + AllocGlobal, S: Space<u64> + Deferrals<u64, Job = Adds>>(
        &self,
        rt: &R,
        s: &mut S,
        total: &Total,
        answers: &mut Vec<Answer>,
    ) {
        let mut drawn = Generator::new(self.seed);
        let mut hand = Hand::new(rt.alloc());
        for _ in 0..CALLS {
            let answer = call(rt, s, &mut hand, total, &mut drawn);
            note(rt, answers, answer.unwrap_or(Answer::Nothing));
            note(rt, answers, Answer::Number(total.load(Ordering::SeqCst)));
        }
        let_hand_go(rt, s, hand);
    }
}

/// Whether a refusal came among the answers.
fn has_met(answers: &[Answer], refused: Refused) -> bool {
    for answer in answers {
        if *answer == Answer::Refused(refused) {
            return true;
        }
    }
    false
}

/// Plays lists from this seed on, and answers how many of them met each refusal.
fn lists_that_meet(rt: &(impl Abort + AllocGlobal), refusals: &[Refused; 6], met: &mut [u64; 6]) {
    for seed in 0..LISTS {
        let answers = compared(rt, &Drawn { seed }, FEW).answers;
        for place in 0..6usize {
            if has_met(&answers, refusals[place]) {
                met[place] = met[place].saturating_add(1);
            }
        }
    }
}

#[test]
fn a_lone_participant_answers_drawn_calls_as_a_turn_does(rt: HostRuntime) {
    let refusals = [
        Refused::NoSlot,
        Refused::NoCell,
        Refused::NoJob,
        Refused::TooManyGuards,
        Refused::GuardOpen,
        Refused::NotAlone,
    ];
    let mut met = [0; 6];
    lists_that_meet(&rt, &refusals, &mut met);
    for count in met {
        assert!(rt; count > 0, "{met:?}");
    }
}
