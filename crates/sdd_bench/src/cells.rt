//! The loops with cells, written once for every space.
ghost use Rattle.std.specs.Prelude.{◌≡◌, ◌+◌, IfOk, MatchResult};
ghost use Rattle.sdd_participants.specs.Slab.{without_entry};
ghost use Rattle.sdd_space.specs.Guard.{reader_of};
ghost use Rattle.sdd_world_model.specs.Out.{out};
ghost use Rattle.sdd_space.specs.Owned.{cell_of, cells_home};
ghost use Rattle.sdd_space.specs.CallerId.{IsExact, IsSeated};
ghost use Rattle.sdd_bench.specs.Leaves.{IsFilled, Leaves};

use sdd_core::{Refused, Tag};
use sdd_space::{AtomicOwned, Cells, Guard, Guards, Items, Look, Owned};

/// Opens a guard, puts two items into cells, loads from them that often, and gives all back.
#[inline(always)]
pub fn loads<S: Look<u64> + Guards<u64> + Items<u64> + Cells<u64>>(
    space: &mut S,
    turns: u64,
) -> Result<u64, Refused>
    requires { IsSeated (S.caller space.old) }
    ensures { Leaves (S.caller space.old) (S.own space.old) (S.world space.old) (S.caller space.new) (S.own space.new) (S.world space.new) }
{
    let guard = Guard::new(space)?;
    let sum = loads_under(space, &guard, turns);
    guard.close(space);
    sum
}

#[inline(always)]
fn loads_under<S: Look<u64> + Items<u64> + Cells<u64>>(
    space: &mut S,
    guard: &Guard,
    turns: u64,
) -> Result<u64, Refused>
    requires seated { IsSeated (S.caller space.old) }
    requires reader { reader_of guard.now ≡ (S.caller space.old).reader }
    ensures { Leaves (S.caller space.old) (S.own space.old) (S.world space.old) (S.caller space.new) (S.own space.new) (S.world space.new) }
{
    let one = match AtomicOwned::new(1, space) {
        Ok(one) => one,
        Err((_value, refused)) => return Err(refused),
    };
    match AtomicOwned::new(3, space) {
        Ok(other) => {
            let sum = sum_loaded(space, &one, &other, guard, turns);
            empties(space, one);
            empties(space, other);
            Ok(sum)
        }
        Err((_value, refused)) => {
            empties(space, one);
            Err(refused)
        }
    }
}

/// The sum of what was loaded from two cells in turn.
///
/// What was found so far decides which cell is loaded from, so that no load can be left out.
#[inline(always)]
fn sum_loaded<S: Look<u64> + Cells<u64>>(
    space: &mut S,
    one: &AtomicOwned<u64>,
    other: &AtomicOwned<u64>,
    guard: &Guard,
    turns: u64,
) -> u64
    requires seated { IsSeated (S.caller space.old) }
    requires one { cells_home one.now ≡ (S.caller space.old).home.cells }
    requires other { cells_home other.now ≡ (S.caller space.old).home.cells }
    requires reader { reader_of guard.now ≡ (S.caller space.old).reader }
    ensures caller { S.caller space.new ≡ S.caller space.old }
    ensures own { S.own space.new ≡ S.own space.old }
    ensures exact { IsExact (S.caller space.old) → S.world space.new ≡ S.world space.old }
{
    let mut sum = 0u64;
    for _turn in 0..turns {
        let cell = if sum % 2 == 0 { one } else { other };
        if let Some(value) = cell.load(guard, space).as_ref(space) {
            sum = sum.wrapping_add(*value);
        }
    }
    sum
}

/// Frees a cell that holds an owner, and retires the item.
#[inline(always)]
fn empties<S: Items<u64> + Cells<u64>>(space: &mut S, cell: AtomicOwned<u64>)
    requires seated { IsSeated (S.caller space.old) }
    requires home { cells_home cell ≡ (S.caller space.old).home.cells }
    requires filled { IsExact (S.caller space.old) → IsFilled (S.world space.old) (cell_of cell) }
    ensures caller { S.caller space.new ≡ S.caller space.old }
    ensures guards { (S.own space.new).guards ≡ (S.own space.old).guards }
    ensures cells { IsExact (S.caller space.old) → (S.world space.new).cells ≡ without_entry (S.world space.old).cells (cell_of cell) }
    ensures out { IsExact (S.caller space.old) → out (S.world space.new) + 2 ≡ out (S.world space.old) }
{
    if let Some(owner) = cell.into_owned(space) {
        owner.retire(space);
    }
}

/// Puts an item into a cell, puts another one there and retires the one before that often, and gives all back.
#[inline(always)]
pub fn swaps<S: Guards<u64> + Items<u64> + Cells<u64>>(
    space: &mut S,
    turns: u64,
) -> Result<(), Refused>
    requires { IsSeated (S.caller space.old) }
    ensures { Leaves (S.caller space.old) (S.own space.old) (S.world space.old) (S.caller space.new) (S.own space.new) (S.world space.new) }
{
    match AtomicOwned::new(0, space) {
        Ok(cell) => {
            let done = swaps_in(space, &cell, turns);
            empties(space, cell);
            done
        }
        Err((_value, refused)) => Err(refused),
    }
}

#[inline(always)]
fn swaps_in<S: Guards<u64> + Items<u64> + Cells<u64>>(
    space: &mut S,
    cell: &AtomicOwned<u64>,
    turns: u64,
) -> Result<(), Refused>
    requires seated { IsSeated (S.caller space.old) }
    requires home { cells_home cell.now ≡ (S.caller space.old).home.cells }
    requires filled { IsExact (S.caller space.old) → IsFilled (S.world space.old) (cell_of cell.now) }
    ensures leaves { Leaves (S.caller space.old) (S.own space.old) (S.world space.old) (S.caller space.new) (S.own space.new) (S.world space.new) }
    ensures filled { IsExact (S.caller space.old) → IsFilled (S.world space.new) (cell_of cell.now) }
{
    for turn in 0..turns {
        let guard = Guard::new(space)?;
        let done = swap(space, cell, turn);
        guard.close(space);
        done?;
    }
    Ok(())
}

/// The cell holds a new item, and the one that it held is retired.
#[inline(always)]
fn swap<S: Items<u64> + Cells<u64>>(
    space: &mut S,
    cell: &AtomicOwned<u64>,
    value: u64,
) -> Result<(), Refused>
    requires seated { IsSeated (S.caller space.old) }
    requires home { cells_home cell.now ≡ (S.caller space.old).home.cells }
    requires filled { IsExact (S.caller space.old) → IsFilled (S.world space.old) (cell_of cell.now) }
    ensures leaves { Leaves (S.caller space.old) (S.own space.old) (S.world space.old) (S.caller space.new) (S.own space.new) (S.world space.new) }
    ensures filled { IsExact (S.caller space.old) → IsFilled (S.world space.new) (cell_of cell.now) }
{
    match Owned::new(value, space) {
        Ok(next) => {
            if let (Some(old), _) = cell.swap((Some(next), Tag::None), space) {
                old.retire(space);
            }
            Ok(())
        }
        Err((_value, refused)) => Err(refused),
    }
}
