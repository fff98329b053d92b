//! Calls with collectors.
ghost use Rattle.std.specs.Prelude.{◌≡◌, IfSome};
ghost use Rattle.sdd_space.specs.CallerId.{IsSeated};
ghost use Rattle.sdd_space.specs.Collector.{cells_home};
ghost use Rattle.sdd_space.specs.Guard.{reader_of};
ghost use Rattle.sdd_domain_tests.specs.Hands.{IsHandOf, AreOwnersOf};

use crate::answers::Answer;
use crate::drawn::generator::Generator;
use crate::drawn::in_hand::{InHand, keep_made};
use crate::hand::{Hand, OwnersInHand};
use sdd_space::{
    Collectors, Guard, Owned, PrivateCollector, RawCells, Shared, SharedOwnership, UniqueOwnership,
};
use std::process::Abort;

/// The item of an owner that is taken waits for the collector.
fn collected<S: Collectors<u64>>(
    s: &mut S,
    owners: &mut OwnersInHand<UniqueOwnership>,
    collector: &PrivateCollector<u64>,
    guard: &Guard,
    pick: usize,
) -> Option<Answer>
    requires seated { IsSeated (S.caller s.old) }
    requires owners { AreOwnersOf (S.caller s.old) owners.old }
    requires collector { cells_home collector.now ≡ (S.caller s.old).home.cells }
    requires reader { reader_of guard.now ≡ (S.caller s.old).reader }
    ensures caller { S.caller s.new ≡ S.caller s.old }
    ensures owners { AreOwnersOf (S.caller s.old) owners.new }
{
    let owner = Owned::take(owners, pick)?;
    collector.collect_owned(owner, guard, s);
    Some(Answer::Done)
}

/// The same of an owner that may have others beside it. Whether it was the last.
fn shared_collected<S: Collectors<u64>>(
    s: &mut S,
    owners: &mut OwnersInHand<SharedOwnership>,
    collector: &PrivateCollector<u64>,
    guard: &Guard,
    pick: usize,
) -> Option<Answer>
    requires seated { IsSeated (S.caller s.old) }
    requires owners { AreOwnersOf (S.caller s.old) owners.old }
    requires collector { cells_home collector.now ≡ (S.caller s.old).home.cells }
    requires reader { reader_of guard.now ≡ (S.caller s.old).reader }
    ensures caller { S.caller s.new ≡ S.caller s.old }
    ensures owners { AreOwnersOf (S.caller s.old) owners.new }
{
    let owner = Shared::take(owners, pick)?;
    Some(Answer::Told(collector.collect_shared(owner, guard, s)))
}

/// One of the two, with the collector that is taken.
#[tactic(auto, unfolding(crate::specs::Hands::IsHandOf))]
fn collects<S: Collectors<u64>>(
    rt: &impl Abort,
    s: &mut S,
    hand: &mut Hand,
    guard: &Guard,
    pick: usize,
    alone: bool,
) -> Option<Answer>
    requires seated { IsSeated (S.caller s.old) }
    requires hand { IsHandOf (S.caller s.old) hand.old }
    requires reader { reader_of guard.now ≡ (S.caller s.old).reader }
    ensures caller { S.caller s.new ≡ S.caller s.old }
    ensures hand { IsHandOf (S.caller s.old) hand.new }
{
    let collector = PrivateCollector::take(hand, pick)?;
    let answer = if alone {
        collected(s, &mut hand.owned, &collector, guard, pick)
    } else {
        shared_collected(s, &mut hand.shared, &collector, guard, pick)
    };
    collector.keep(rt, hand);
    answer
}

/// What waits for the collector that is taken goes at once, and its cell is free; or it is refused, and kept.
fn closes<S: Collectors<u64>>(
    rt: &impl Abort,
    s: &mut S,
    hand: &mut Hand,
    pick: usize,
) -> Option<Answer>
    requires seated { IsSeated (S.caller s.old) }
    requires hand { IsHandOf (S.caller s.old) hand.old }
    ensures caller { S.caller s.new ≡ S.caller s.old }
    ensures hand { IsHandOf (S.caller s.old) hand.new }
{
    let collector = PrivateCollector::take(hand, pick)?;
    match collector.close(s) {
        Ok(()) => Some(Answer::Done),
        Err((back, refused)) => {
            back.keep(rt, hand);
            Some(Answer::Refused(refused))
        }
    }
}

/// The next of these calls.
pub fn call<S: RawCells<u64> + Collectors<u64>>(
    rt: &impl Abort,
    s: &mut S,
    hand: &mut Hand,
    guard: &Option<Guard>,
    drawn: &mut Generator,
) -> Option<Answer>
    requires seated { IsSeated (S.caller s.old) }
    requires hand { IsHandOf (S.caller s.old) hand.old }
    requires reader { IfSome guard.now (λ g. reader_of g ≡ (S.caller s.old).reader) }
    ensures caller { S.caller s.new ≡ S.caller s.old }
    ensures hand { IsHandOf (S.caller s.old) hand.new }
{
    let call = drawn.below(4);
    let pick = drawn.below(1000) as usize;
    match call {
        0 => keep_made(rt, hand, PrivateCollector::new(s)),
        1 => collects(rt, s, hand, guard.as_ref()?, pick, true),
        2 => collects(rt, s, hand, guard.as_ref()?, pick, false),
        _ => closes(rt, s, hand, pick),
    }
}
