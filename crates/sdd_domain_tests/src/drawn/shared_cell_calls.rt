//! Calls with cells of owners that may have others beside them.
ghost use Rattle.std.specs.Prelude.{◌≡◌, IfSome};
ghost use Rattle.sdd_space.specs.CallerId.{IsSeated};
ghost use Rattle.sdd_space.specs.Guard.{reader_of};
ghost use Rattle.sdd_domain_tests.specs.Hands.{AreOwnersOf};

use crate::answers::Answer;
use crate::drawn::cell_calls::{self, CellCall, kept};
use crate::drawn::generator::Generator;
use crate::drawn::in_hand::{InHand, keep_made};
use crate::hand::OwnersInHand;
use sdd_space::{AtomicShared, Cells, Guard, Items, Look, SharedItems, SharedOwnership};
use std::process::Abort;

/// Another cell, which holds an owner more of the same item, or nothing as this one does.
fn clones<S: Cells<u64>>(
    rt: &impl Abort,
    s: &mut S,
    owners: &mut OwnersInHand<SharedOwnership>,
    guard: &Guard,
    pick: usize,
) -> Option<Answer>
    requires seated { IsSeated (S.caller s.old) }
    requires owners { AreOwnersOf (S.caller s.old) owners.old }
    requires reader { reader_of guard.now ≡ (S.caller s.old).reader }
    ensures caller { S.caller s.new ≡ S.caller s.old }
    ensures owners { AreOwnersOf (S.caller s.old) owners.new }
{
    let cell = AtomicShared::take(owners, pick)?;
    let answer = keep_made(rt, owners, cell.clone(guard, s));
    cell.keep(rt, owners);
    answer
}

/// One owner more of what a cell holds is kept, if it holds anything.
fn shares<S: Look<u64> + Items<u64> + SharedItems<u64> + Cells<u64>>(
    rt: &impl Abort,
    s: &mut S,
    owners: &mut OwnersInHand<SharedOwnership>,
    guard: &Guard,
    pick: usize,
) -> Option<Answer>
    requires seated { IsSeated (S.caller s.old) }
    requires owners { AreOwnersOf (S.caller s.old) owners.old }
    requires reader { reader_of guard.now ≡ (S.caller s.old).reader }
    ensures caller { S.caller s.new ≡ S.caller s.old }
    ensures owners { AreOwnersOf (S.caller s.old) owners.new }
{
    let cell = AtomicShared::take(owners, pick)?;
    let shared = cell.get_shared(guard, s);
    cell.keep(rt, owners);
    match shared {
        Ok(owner) => Some(Answer::Number(kept(rt, s, owners, owner)?)),
        Err(refused) => Some(Answer::Refused(refused)),
    }
}

/// A cell is free again, and what it held comes out.
fn comes_out<S: Look<u64> + Items<u64> + Cells<u64>>(
    rt: &impl Abort,
    s: &mut S,
    owners: &mut OwnersInHand<SharedOwnership>,
    pick: usize,
) -> Option<Answer>
    requires seated { IsSeated (S.caller s.old) }
    requires owners { AreOwnersOf (S.caller s.old) owners.old }
    ensures caller { S.caller s.new ≡ S.caller s.old }
    ensures owners { AreOwnersOf (S.caller s.old) owners.new }
{
    let out = AtomicShared::take(owners, pick)?.into_shared(s);
    Some(Answer::Number(kept(rt, s, owners, out)?))
}

/// The next of the calls with these cells.
pub fn call<S: Look<u64> + Items<u64> + SharedItems<u64> + Cells<u64>>(
    rt: &impl Abort,
    s: &mut S,
    owners: &mut OwnersInHand<SharedOwnership>,
    guard: &Option<Guard>,
    drawn: &mut Generator,
) -> Option<Answer>
    requires seated { IsSeated (S.caller s.old) }
    requires owners { AreOwnersOf (S.caller s.old) owners.old }
    requires reader { IfSome guard.now (λ g. reader_of g ≡ (S.caller s.old).reader) }
    ensures caller { S.caller s.new ≡ S.caller s.old }
    ensures owners { AreOwnersOf (S.caller s.old) owners.new }
{
    let call = CellCall::drawn(drawn);
    let value = drawn.below(1000);
    let pick = value as usize;
    let draw = drawn.below(16);
    match call {
        CellCall::Clone => clones(rt, s, owners, guard.as_ref()?, pick),
        CellCall::Share => shares(rt, s, owners, guard.as_ref()?, pick),
        CellCall::ComeOut => comes_out(rt, s, owners, pick),
        _ => cell_calls::call(rt, s, owners, guard, call, value, draw),
    }
}
