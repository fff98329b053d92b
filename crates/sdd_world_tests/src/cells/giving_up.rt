//! Values that hold owners and cells: what they hold goes three changes after them.
ghost use Rattle.std.specs.Prelude.{◌≡◌};
ghost use Rattle.sdd_world_model.specs.OwnerOrCell.{AreOf};
ghost use Rattle.sdd_space.specs.CallerId.{IsSeated};
ghost use Rattle.sdd_world_tests.specs.Value.{holdings_of};

use crate::cells::Value;
use crate::cells::example::{AMPLE, Setting};
use crate::cells::steps::{owned, raw, shared};
use sdd_core::Limits;
use sdd_space::{Cells, Items, RawCells, RawPtr};
use std::process::Abort;

/// A value with the owner of another is retired.
fn nests<S: Items<Value>>(rt: &impl Abort, s: &mut S)
    requires seated { IsSeated (S.caller s.old) }
    ensures caller { S.caller s.new ≡ S.caller s.old }
{
    let inner = owned::made(rt, s, Value::Number(7));
    let outer = owned::made(rt, s, Value::Of(inner));
    owned::retire(s, outer);
}

#[test]
fn what_a_value_held_goes_three_changes_later(rt: HostRuntime) {
    let table = [
        (0, 0, true),
        (1, 0, true),
        (2, 0, true),
        (3, 1, true),
        (4, 1, true),
        (5, 1, true),
        (6, 2, false),
    ];
    let mut setting: Setting<Value> = Setting::new(&rt, AMPLE);
    nests(&rt, &mut setting.world.at(&setting.place));
    setting.shows(&rt, &table);
    setting.closed(&rt, 0);
}

/// A value that holds one item by each kind of owner and of cell that owns, and a raw cell.
fn with_each<S: Items<Value> + Cells<Value> + RawCells<Value>>(rt: &impl Abort, s: &mut S) -> Value
    requires seated { IsSeated (S.caller s.old) }
    ensures caller { S.caller s.new ≡ S.caller s.old }
    ensures home { AreOf (S.caller s.new).home (holdings_of result) }
{
    let first = owned::made(rt, s, Value::Number(1));
    let second = shared::made(rt, s, Value::Number(2));
    let third = owned::cell(rt, s, Value::Number(3));
    let fourth = shared::cell(rt, s, Value::Number(4));
    let fifth = raw::cell(rt, s, RawPtr::null());
    Value::Each(first, second, third, fourth, fifth)
}

/// It is retired.
fn holds_each<S: Items<Value> + Cells<Value> + RawCells<Value>>(rt: &impl Abort, s: &mut S)
    requires seated { IsSeated (S.caller s.old) }
    ensures caller { S.caller s.new ≡ S.caller s.old }
{
    let value = with_each(rt, s);
    let outer = owned::made(rt, s, value);
    owned::retire(s, outer);
}

/// The greatest sizes, with an eighth of the most slots and cells, as more take a minute. A body that refuses beyond some size with `NoMemory` meets
/// every contract.
const GREATEST: Limits = Limits {
    participants: 1024,
    slots: 2_097_152,
    cells: 2_097_152,
    jobs: 65_536,
    nesting: 4_294_967_295,
    tries: 65_535,
};

#[test]
fn a_value_gives_up_each_kind_of_owner_and_cell_in_a_world_of_the_greatest_size(rt: HostRuntime) {
    let table = [
        (0, 0, true),
        (1, 0, true),
        (2, 0, true),
        (3, 1, true),
        (4, 1, true),
        (5, 1, true),
        (6, 5, false),
    ];
    let mut setting: Setting<Value> = Setting::new(&rt, GREATEST);
    holds_each(&rt, &mut setting.world.at(&setting.place));
    setting.shows(&rt, &table);
    setting.closed(&rt, 0);
}
