//! Calls with guards.
ghost use Rattle.std.specs.Prelude.{◌≡◌};
ghost use Rattle.sdd_space.specs.CallerId.{IsSeated};
ghost use Rattle.sdd_space.specs.Guard.{reader_of};
ghost use Rattle.sdd_domain_tests.specs.Hands.{IsHandOf};

use crate::answers::Answer;
use crate::drawn::generator::Generator;
use crate::drawn::in_hand::{InHand, keep_made, take_last_guard};
use crate::hand::Hand;
use crate::with_jobs::{Adds, Total, adding};
use sdd_space::{Deferrals, Guard, Guards};
use std::process::Abort;

#[derive(Clone, Copy)]
enum GuardCall {
    Open,
    Close,
    Show,
    Ask,
    Stir,
    Accelerate,
    Defer,
}

impl GuardCall {
    /// Guards are opened and closed more often than all else.
    fn drawn(drawn: &mut Generator) -> GuardCall {
        match drawn.below(10) {
            0 | 3 => GuardCall::Open,
            1 | 4 | 7 => GuardCall::Close,
            2 => GuardCall::Show,
            5 => GuardCall::Ask,
            6 => GuardCall::Stir,
            8 => GuardCall::Accelerate,
            _ => GuardCall::Defer,
        }
    }
}

fn closes<S: Guards<u64>>(s: &mut S, hand: &mut Hand) -> Option<Answer>
    requires seated { IsSeated (S.caller s.old) }
    requires hand { IsHandOf (S.caller s.old) hand.old }
    ensures caller { S.caller s.new ≡ S.caller s.old }
    ensures hand { IsHandOf (S.caller s.old) hand.new }
{
    take_last_guard(hand)?.close(s);
    Some(Answer::Done)
}

/// Defers a job that adds this.
fn defers<S: Deferrals<u64, Job = Adds>>(
    rt: &impl Abort,
    s: &mut S,
    guard: &Guard,
    total: &Total,
    amount: u64,
) -> Answer
    requires seated { IsSeated (S.caller s.old) }
    requires reader { reader_of guard.now ≡ (S.caller s.old).reader }
    ensures { S.caller s.new ≡ S.caller s.old }
{
    match guard.defer_execute(adding(rt, total, amount), s) {
        Ok(()) => Answer::Done,
        Err((_job, refused)) => Answer::Refused(refused),
    }
}

/// One of the calls with a guard that stays open: the epoch that it shows, whether something may wait, and what stirs or accelerates it.
fn called<S: Guards<u64> + Deferrals<u64, Job = Adds>>(
    rt: &impl Abort,
    s: &mut S,
    guard: &Guard,
    total: &Total,
    call: GuardCall,
    amount: u64,
) -> Answer
    requires seated { IsSeated (S.caller s.old) }
    requires reader { reader_of guard.now ≡ (S.caller s.old).reader }
    ensures { S.caller s.new ≡ S.caller s.old }
{
    match call {
        GuardCall::Show => Answer::Number(u64::from(u8::from(guard.epoch(s)))),
        GuardCall::Ask => Answer::Told(guard.has_garbage(s)),
        GuardCall::Stir => {
            guard.set_has_garbage(s);
            Answer::Done
        }
        GuardCall::Accelerate => {
            guard.accelerate(s);
            Answer::Done
        }
        _ => defers(rt, s, guard, total, amount),
    }
}

fn calls<S: Guards<u64> + Deferrals<u64, Job = Adds>>(
    rt: &impl Abort,
    s: &mut S,
    hand: &mut Hand,
    total: &Total,
    call: GuardCall,
    amount: u64,
) -> Option<Answer>
    requires seated { IsSeated (S.caller s.old) }
    requires hand { IsHandOf (S.caller s.old) hand.old }
    ensures caller { S.caller s.new ≡ S.caller s.old }
    ensures hand { IsHandOf (S.caller s.old) hand.new }
{
    let guard = take_last_guard(hand)?;
    let answer = called(rt, s, &guard, total, call, amount);
    guard.keep(rt, hand);
    Some(answer)
}

/// The next of these calls.
pub fn call<S: Guards<u64> + Deferrals<u64, Job = Adds>>(
    rt: &impl Abort,
    s: &mut S,
    hand: &mut Hand,
    total: &Total,
    drawn: &mut Generator,
) -> Option<Answer>
    requires seated { IsSeated (S.caller s.old) }
    requires hand { IsHandOf (S.caller s.old) hand.old }
    ensures caller { S.caller s.new ≡ S.caller s.old }
    ensures hand { IsHandOf (S.caller s.old) hand.new }
{
    let call = GuardCall::drawn(drawn);
    let amount = drawn.below(1000);
    match call {
        GuardCall::Open => keep_made(rt, hand, Guard::new(s)),
        GuardCall::Close => closes(s, hand),
        _ => calls(rt, s, hand, total, call, amount),
    }
}
