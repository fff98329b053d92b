//! The operations by a participant of a domain.
ghost use Rattle.std.specs.Prelude.{◌≡◌, All, Err};
ghost use Rattle.sdd_core.specs.Limits.{AreInRange};
ghost use Rattle.sdd_space.specs.CallerId.{IsSeated};
ghost use Rattle.sdd_space.specs.Shared as shared;
ghost use Rattle.sdd_domain.specs.Domain.{slots_in};
ghost use Rattle.sdd_domain.specs.Receipt.{Receipt as EndedCounts};
ghost use Rattle.sdd_domain.specs.Space.{caller_of};

use crate::operation::Task;
use crate::{cells, configuration, turns};
use sdd_core::{Limits, Refused};
use sdd_domain::{Domain, Local, Receipt};
use sdd_participants::Tally;
use sdd_space::{Owned, Shared};
use std::alloc::Global;

/// Half of the slots.
const HALF: u64 = 512;

/// Does the task that often, and answers the participant's tally, and the sum of what was seen. Where `beside` is set there is a participant more, which
/// does nothing.
///
/// No clause says that tally, or when a guard is refused: the loops are written for every space, and a space does not tell a participant's own tally.
pub fn run(
    alloc: Global,
    limits: Limits,
    beside: bool,
    task: Task,
    turns: u64,
) -> Result<(Tally, u64), Refused>
    ensures limits { ¬ (AreInRange limits) → result ≡ Err Refused.BadLimits }
{
    let domain: Domain<u64> = Domain::new(alloc, limits)?;
    let mut receipts = Vec::new(alloc);
    let done = in_domain(&domain, &mut receipts, beside, task, turns);
    match domain.close(receipts) {
        Ok(_all) => done,
        Err((domain, _receipts, refused)) => {
            domain.leak();
            Err(refused)
        }
    }
}

fn in_domain(
    domain: &Domain<u64>,
    receipts: &mut Vec<Receipt<u64>>,
    beside: bool,
    task: Task,
    turns: u64,
) -> Result<(Tally, u64), Refused>
    requires { All (λ (r : EndedCounts). r.home ≡ slots_in domain.now) receipts.old.items }
    ensures { All (λ (r : EndedCounts). r.home ≡ slots_in domain.now) receipts.new.items }
{
    if !beside {
        return by_one(domain, receipts, task, turns);
    }
    let idle = Local::register(domain)?;
    let done = by_one(domain, receipts, task, turns);
    match idle.end() {
        Ok(receipt) => keep(domain, receipts, receipt)?,
        Err(_) => unreachable!(),
    }
    done
}

fn by_one(
    domain: &Domain<u64>,
    receipts: &mut Vec<Receipt<u64>>,
    task: Task,
    turns: u64,
) -> Result<(Tally, u64), Refused>
    requires { All (λ (r : EndedCounts). r.home ≡ slots_in domain.now) receipts.old.items }
    ensures { All (λ (r : EndedCounts). r.home ≡ slots_in domain.now) receipts.new.items }
{
    let mut local = Local::register(domain)?;
    let done = worked(&mut local, task, turns);
    match local.end() {
        Ok(receipt) => {
            let tally = receipt.tally();
            keep(domain, receipts, receipt)?;
            Ok((tally, done?))
        }
        Err(_) => unreachable!(),
    }
}

/// One receipt more for the close.
pub fn keep(
    domain: &Domain<u64>,
    receipts: &mut Vec<Receipt<u64>>,
    receipt: Receipt<u64>,
) -> Result<(), Refused>
    requires all { All (λ (r : EndedCounts). r.home ≡ slots_in domain.now) receipts.old.items }
    requires one { receipt.home ≡ slots_in domain.now }
    ensures { All (λ (r : EndedCounts). r.home ≡ slots_in domain.now) receipts.new.items }
{
    let _ = domain;
    match receipts.push(receipt) {
        Ok(()) => Ok(()),
        Err(_) => Err(Refused::NoMemory),
    }
}

/// Does the task that often, and answers the sum of what was seen.
#[inline(always)]
pub fn worked(local: &mut Local<'_, u64>, task: Task, turns: u64) -> Result<u64, Refused>
    requires { IsSeated (caller_of local.old) }
    ensures { (caller_of local.new ≡ caller_of local.old) × (local.new.member.own.guards ≡ local.old.member.own.guards) }
{
    match task {
        Task::Guards(guarding) => turns::guards(local, guarding, turns)?,
        Task::Items => turns::items(local, turns)?,
        Task::HalfFull => turns::items_beside(local, HALF, turns)?,
        Task::Looks => return turns::sights(local, false, turns),
        Task::Reads => return turns::sights(local, true, turns),
        Task::Gets => return gets(local, turns),
        Task::Jobs => turns::jobs(local, turns)?,
        Task::Raws => return raws(local, turns),
        Task::Changes => return changes(local, turns),
        Task::Shares => turns::shares(local, turns)?,
        Task::Loads => return cells::loads(local, turns),
        Task::Swaps => cells::swaps(local, turns)?,
        Task::OfCell(work) => return configuration::alone(local, work, turns),
    }
    Ok(0)
}

/// Makes two items, has their owners look that often through the domain, and retires both.
#[inline(always)]
fn gets(local: &mut Local<'_, u64>, turns: u64) -> Result<u64, Refused>
    requires { IsSeated (caller_of local.old) }
    ensures { (caller_of local.new ≡ caller_of local.old) × (local.new.member.own.guards ≡ local.old.member.own.guards) }
{
    let one = match Owned::new(1, local) {
        Ok(one) => one,
        Err((_value, refused)) => return Err(refused),
    };
    match Owned::new(3, local) {
        Ok(other) => {
            let sum = turns::reads(local.domain(), &one, &other, turns);
            one.retire(local);
            other.retire(local);
            Ok(sum)
        }
        Err((_value, refused)) => {
            one.retire(local);
            Err(refused)
        }
    }
}

/// Makes an item, which goes raw and comes back that often, and retires it. Answers how often it came back.
#[inline(always)]
fn raws(local: &mut Local<'_, u64>, turns: u64) -> Result<u64, Refused>
    requires { IsSeated (caller_of local.old) }
    ensures { (caller_of local.new ≡ caller_of local.old) × (local.new.member.own.guards ≡ local.old.member.own.guards) }
{
    let mut owner = match Owned::new(1, local) {
        Ok(owner) => owner,
        Err((_value, refused)) => return Err(refused),
    };
    for turn in 0..turns {
        let raw = owner.into_raw(local);
        owner = match Owned::from_raw(raw, local) {
            Some(owner) => owner,
            None => return Ok(turn),
        };
    }
    owner.retire(local);
    Ok(turns)
}

/// Makes an item, which its owner changes that often, and retires it. Answers its last value.
#[inline(always)]
fn changes(local: &mut Local<'_, u64>, turns: u64) -> Result<u64, Refused>
    requires { IsSeated (caller_of local.old) }
    ensures { (caller_of local.new ≡ caller_of local.old) × (local.new.member.own.guards ≡ local.old.member.own.guards) }
{
    let mut owner = match Owned::new(1, local) {
        Ok(owner) => owner,
        Err((_value, refused)) => return Err(refused),
    };
    for turn in 0..turns {
        if let Err((_change, refused)) = owner.get_mut(
            |value| std::mem::replace(value, turn),
            local,
        ) {
            owner.retire(local);
            return Err(refused);
        }
    }
    let last = *owner.get(local);
    owner.retire(local);
    Ok(last)
}

/// Clones an owner, whose item may have others, and releases the clone, that often.
#[inline(always)]
pub fn clones(local: &mut Local<'_, u64>, owner: &Shared<u64>, turns: u64) -> Result<(), Refused>
    requires seated { IsSeated (caller_of local.old) }
    requires home { shared.slots_home owner.now ≡ (caller_of local.old).home.slots }
    ensures { (caller_of local.new ≡ caller_of local.old) × (local.new.member.own.guards ≡ local.old.member.own.guards) }
{
    for _turn in 0..turns {
        let other = owner.clone(local)?;
        let _ = other.release(local);
    }
    Ok(())
}
