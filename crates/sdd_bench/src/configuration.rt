//! What a participant of a domain does with a cell that others have too.
ghost use Rattle.std.specs.Prelude.{◌≡◌};
ghost use Rattle.sdd_space.specs.CallerId.{IsSeated};
ghost use Rattle.sdd_space.specs.Guard.{reader_of};
ghost use Rattle.sdd_space.specs.Shared.{IsOfSlots, cells_home};
ghost use Rattle.sdd_domain.specs.Space.{caller_of};

use crate::operation::CellWork;
use sdd_core::{Refused, Tag};
use sdd_domain::Local;
use sdd_space::{AtomicShared, Guard, Shared};

/// Does the work with a cell of its own that often, and answers the sum of what was seen.
#[inline(always)]
pub fn alone(local: &mut Local<'_, u64>, work: CellWork, turns: u64) -> Result<u64, Refused>
    requires { IsSeated (caller_of local.old) }
    ensures { (caller_of local.new ≡ caller_of local.old) × (local.new.member.own.guards ≡ local.old.member.own.guards) }
{
    match AtomicShared::new(1, local) {
        Ok(cell) => {
            let sum = with_cell(local, &cell, work, turns);
            cell.close(local);
            sum
        }
        Err((_value, refused)) => Err(refused),
    }
}

/// Does the work that often, and answers the sum of what was seen.
#[inline(always)]
pub fn with_cell(
    local: &mut Local<'_, u64>,
    cell: &AtomicShared<u64>,
    work: CellWork,
    turns: u64,
) -> Result<u64, Refused>
    requires seated { IsSeated (caller_of local.old) }
    requires home { cells_home cell.now ≡ (caller_of local.old).home.cells }
    ensures { (caller_of local.new ≡ caller_of local.old) × (local.new.member.own.guards ≡ local.old.member.own.guards) }
{
    match work {
        CellWork::Loads => loads(local, cell, turns),
        CellWork::Exchanges => exchanges(local, cell, turns),
        CellWork::Reads => reads(local, cell, turns),
        CellWork::Publishes => publishes(local, cell, turns),
        CellWork::MostlyReads => mostly_reads(local, cell, turns),
    }
}

/// What the cell holds, under a guard.
#[inline(always)]
fn found(local: &mut Local<'_, u64>, cell: &AtomicShared<u64>, guard: &Guard) -> u64
    requires seated { IsSeated (caller_of local.old) }
    requires home { cells_home cell.now ≡ (caller_of local.old).home.cells }
    requires reader { reader_of guard.now ≡ (caller_of local.old).reader }
    ensures { (caller_of local.new ≡ caller_of local.old) × (local.new.member.own.guards ≡ local.old.member.own.guards) }
{
    match cell.load(guard, local).as_ref(local) {
        Some(value) => *value,
        None => 0,
    }
}

#[inline(never)]
fn loads(local: &mut Local<'_, u64>, cell: &AtomicShared<u64>, turns: u64) -> Result<u64, Refused>
    requires seated { IsSeated (caller_of local.old) }
    requires home { cells_home cell.now ≡ (caller_of local.old).home.cells }
    ensures { (caller_of local.new ≡ caller_of local.old) × (local.new.member.own.guards ≡ local.old.member.own.guards) }
{
    let guard = Guard::new(local)?;
    let sum = sum_found(local, cell, &guard, turns);
    guard.close(local);
    Ok(sum)
}

#[inline(always)]
fn sum_found(local: &mut Local<'_, u64>, cell: &AtomicShared<u64>, guard: &Guard, turns: u64) -> u64
    requires seated { IsSeated (caller_of local.old) }
    requires home { cells_home cell.now ≡ (caller_of local.old).home.cells }
    requires reader { reader_of guard.now ≡ (caller_of local.old).reader }
    ensures { (caller_of local.new ≡ caller_of local.old) × (local.new.member.own.guards ≡ local.old.member.own.guards) }
{
    let mut sum = 0u64;
    for _turn in 0..turns {
        sum = sum.wrapping_add(found(local, cell, guard));
    }
    sum
}

#[inline(always)]
fn read(local: &mut Local<'_, u64>, cell: &AtomicShared<u64>) -> Result<u64, Refused>
    requires seated { IsSeated (caller_of local.old) }
    requires home { cells_home cell.now ≡ (caller_of local.old).home.cells }
    ensures { (caller_of local.new ≡ caller_of local.old) × (local.new.member.own.guards ≡ local.old.member.own.guards) }
{
    let guard = Guard::new(local)?;
    let value = found(local, cell, &guard);
    guard.close(local);
    Ok(value)
}

#[inline(never)]
fn reads(local: &mut Local<'_, u64>, cell: &AtomicShared<u64>, turns: u64) -> Result<u64, Refused>
    requires seated { IsSeated (caller_of local.old) }
    requires home { cells_home cell.now ≡ (caller_of local.old).home.cells }
    ensures { (caller_of local.new ≡ caller_of local.old) × (local.new.member.own.guards ≡ local.old.member.own.guards) }
{
    let mut sum = 0u64;
    for _turn in 0..turns {
        sum = sum.wrapping_add(read(local, cell)?);
    }
    Ok(sum)
}

/// Lets go of what came out.
#[inline(always)]
fn let_go(local: &mut Local<'_, u64>, owner: Option<Shared<u64>>)
    requires seated { IsSeated (caller_of local.old) }
    requires home { IsOfSlots (caller_of local.old).home.slots owner }
    ensures { (caller_of local.new ≡ caller_of local.old) × (local.new.member.own.guards ≡ local.old.member.own.guards) }
{
    if let Some(owner) = owner {
        let _ = owner.release(local);
    }
}

/// Another item takes the place of the one in the cell.
#[inline(always)]
fn replace(local: &mut Local<'_, u64>, cell: &AtomicShared<u64>, value: u64) -> Result<(), Refused>
    requires seated { IsSeated (caller_of local.old) }
    requires home { cells_home cell.now ≡ (caller_of local.old).home.cells }
    ensures { (caller_of local.new ≡ caller_of local.old) × (local.new.member.own.guards ≡ local.old.member.own.guards) }
{
    match Shared::new(value, local) {
        Ok(next) => {
            let (before, _tag) = cell.swap((Some(next), Tag::None), local);
            let_go(local, before);
            Ok(())
        }
        Err((_value, refused)) => Err(refused),
    }
}

#[inline(always)]
fn publish(local: &mut Local<'_, u64>, cell: &AtomicShared<u64>, value: u64) -> Result<(), Refused>
    requires seated { IsSeated (caller_of local.old) }
    requires home { cells_home cell.now ≡ (caller_of local.old).home.cells }
    ensures { (caller_of local.new ≡ caller_of local.old) × (local.new.member.own.guards ≡ local.old.member.own.guards) }
{
    let guard = Guard::new(local)?;
    let done = replace(local, cell, value);
    guard.close(local);
    done
}

#[inline(never)]
fn publishes(
    local: &mut Local<'_, u64>,
    cell: &AtomicShared<u64>,
    turns: u64,
) -> Result<u64, Refused>
    requires seated { IsSeated (caller_of local.old) }
    requires home { cells_home cell.now ≡ (caller_of local.old).home.cells }
    ensures { (caller_of local.new ≡ caller_of local.old) × (local.new.member.own.guards ≡ local.old.member.own.guards) }
{
    for turn in 0..turns {
        publish(local, cell, turn)?;
    }
    Ok(turns)
}

/// Another item takes the place of the one in the cell, if that is still there.
#[inline(always)]
fn exchange(
    local: &mut Local<'_, u64>,
    cell: &AtomicShared<u64>,
    guard: &Guard,
    value: u64,
) -> Result<(), Refused>
    requires seated { IsSeated (caller_of local.old) }
    requires home { cells_home cell.now ≡ (caller_of local.old).home.cells }
    requires reader { reader_of guard.now ≡ (caller_of local.old).reader }
    ensures { (caller_of local.new ≡ caller_of local.old) × (local.new.member.own.guards ≡ local.old.member.own.guards) }
{
    let current = cell.load(guard, local);
    let next = match Shared::new(value, local) {
        Ok(next) => next,
        Err((_value, refused)) => return Err(refused),
    };
    match cell.compare_exchange(current, (Some(next), Tag::None), guard, local) {
        Ok((old, _now)) => let_go(local, old),
        Err((back, _now)) => let_go(local, back),
    }
    Ok(())
}

#[inline(never)]
fn exchanges(
    local: &mut Local<'_, u64>,
    cell: &AtomicShared<u64>,
    turns: u64,
) -> Result<u64, Refused>
    requires seated { IsSeated (caller_of local.old) }
    requires home { cells_home cell.now ≡ (caller_of local.old).home.cells }
    ensures { (caller_of local.new ≡ caller_of local.old) × (local.new.member.own.guards ≡ local.old.member.own.guards) }
{
    for turn in 0..turns {
        let guard = Guard::new(local)?;
        let done = exchange(local, cell, &guard, turn);
        guard.close(local);
        done?;
    }
    Ok(turns)
}

#[inline(never)]
fn mostly_reads(
    local: &mut Local<'_, u64>,
    cell: &AtomicShared<u64>,
    turns: u64,
) -> Result<u64, Refused>
    requires seated { IsSeated (caller_of local.old) }
    requires home { cells_home cell.now ≡ (caller_of local.old).home.cells }
    ensures { (caller_of local.new ≡ caller_of local.old) × (local.new.member.own.guards ≡ local.old.member.own.guards) }
{
    let mut sum = 0u64;
    for turn in 0..turns {
        if turn % 1024 == 1023 {
            publish(local, cell, turn)?;
        } else {
            sum = sum.wrapping_add(read(local, cell)?);
        }
    }
    Ok(sum)
}
