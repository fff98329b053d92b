//! The calls of each of many threads that collect what comes out of cells, for a few collectors, and close them, while others look at it. What a call may be
//! refused with is all that is known, since others come between.
ghost use Rattle.std.specs.Prelude.{◌≡◌, IfSome};
ghost use Rattle.sdd_space.specs.CallerId.{IsSeated};
ghost use Rattle.sdd_space.specs.Collector.{cells_home};
ghost use Rattle.sdd_space.specs.Owned as owned;
ghost use Rattle.sdd_space.specs.Shared as shared;
ghost use Rattle.sdd_domain_tests.specs.FewCells.{AreFewOf};
ghost use Rattle.sdd_domain_tests.specs.FewCollectors.{AreCollectorsOf};

use crate::drawn::generator::Generator;
use crate::few::{FewCells, FewCollectors};
use crate::owners::counted::Counted;
use crate::threads::cell_crowd_calls::{
    self, is_refused, new_owner, shared_of, shows_twice, swaps,
};
use crate::threads::crowd_calls::Counts;
use sdd_core::{Refused, Tag};
use sdd_space::{
    AtomicOwned, AtomicShared, Cells, Collectors, Guard, Guards, Items, PrivateCollector, RawCells,
    Space,
};
use std::process::Abort;

/// A new item, or nothing where no slot is free, takes the place of what a cell held, which waits for the collector: given up by the only owner that there
/// may be.
fn collects_owned<S: Items<Counted> + Guards<Counted> + Cells<Counted> + Collectors<Counted>>(
    rt: &impl Abort,
    s: &mut S,
    counts: &Counts,
    cell: &AtomicOwned<Counted>,
    collector: &PrivateCollector<Counted>,
)
    requires seated { IsSeated (S.caller s.old) }
    requires cell { owned.cells_home cell.now ≡ (S.caller s.old).home.cells }
    requires collector { cells_home collector.now ≡ (S.caller s.old).home.cells }
    ensures { S.caller s.new ≡ S.caller s.old }
{
    let next = new_owner(rt, s, counts, 0);
    let (old, _tag) = cell.swap((next, Tag::None), s);
    let Some(owner) = old else {
        return;
    };
    let guard = Guard::new(s).expect(rt, "a guard may be opened");
    collector.collect_owned(owner, &guard, s);
    guard.close(s);
}

/// The same by an owner that may have others beside it.
fn collects_shared<S: Items<Counted> + Guards<Counted> + Cells<Counted> + Collectors<Counted>>(
    rt: &impl Abort,
    s: &mut S,
    counts: &Counts,
    cell: &AtomicShared<Counted>,
    collector: &PrivateCollector<Counted>,
)
    requires seated { IsSeated (S.caller s.old) }
    requires cell { shared.cells_home cell.now ≡ (S.caller s.old).home.cells }
    requires collector { cells_home collector.now ≡ (S.caller s.old).home.cells }
    ensures { S.caller s.new ≡ S.caller s.old }
{
    let next = new_owner(rt, s, counts, 0);
    let (old, _tag) = cell.swap((next, Tag::None), s);
    let Some(owner) = old else {
        return;
    };
    let guard = Guard::new(s).expect(rt, "a guard may be opened");
    let _ = collector.collect_shared(owner, &guard, s);
    guard.close(s);
}

/// The same by an owner that is had of what a cell holds still, or held. The guard shows it whatever becomes of it.
fn collects_beside<S: Space<Counted>>(
    rt: &impl Abort,
    s: &mut S,
    cell: &AtomicShared<Counted>,
    collector: &PrivateCollector<Counted>,
)
    requires seated { IsSeated (S.caller s.old) }
    requires cell { shared.cells_home cell.now ≡ (S.caller s.old).home.cells }
    requires collector { cells_home collector.now ≡ (S.caller s.old).home.cells }
    ensures { S.caller s.new ≡ S.caller s.old }
{
    let guard = Guard::new(s).expect(rt, "a guard may be opened");
    let ptr = cell.load(&guard, s);
    if let Some(owner) = shared_of(rt, s, ptr) {
        let _ = collector.collect_shared(owner, &guard, s);
    }
    shows_twice(rt, s, ptr);
    guard.accelerate(s);
    guard.close(s);
}

/// An accelerated guard, by whose opening what is due goes.
fn turns<S: Guards<Counted>>(rt: &impl Abort, s: &mut S)
    requires seated { IsSeated (S.caller s.old) }
    ensures { S.caller s.new ≡ S.caller s.old }
{
    let guard = Guard::new(s).expect(rt, "a guard may be opened");
    guard.accelerate(s);
    guard.close(s);
}

/// An item waits for a collector, or what is due goes.
fn collects_one<S: Space<Counted>>(
    rt: &impl Abort,
    s: &mut S,
    counts: &Counts,
    cells: &FewCells<Counted>,
    collector: &PrivateCollector<Counted>,
    drawn: u64,
)
    requires seated { IsSeated (S.caller s.old) }
    requires cells { AreFewOf (S.caller s.old).home.cells cells.now }
    requires collector { cells_home collector.now ≡ (S.caller s.old).home.cells }
    ensures { S.caller s.new ≡ S.caller s.old }
{
    match drawn {
        0 => collects_owned(rt, s, counts, &cells.third, collector),
        1 => collects_shared(rt, s, counts, &cells.first, collector),
        2 => collects_beside(rt, s, &cells.first, collector),
        _ => turns(rt, s),
    }
}

/// Looks at what a cell holds, or has something else in its place.
fn looks_on<S: Space<Counted>>(
    rt: &impl Abort,
    s: &mut S,
    counts: &Counts,
    cells: &FewCells<Counted>,
    drawn: u64,
)
    requires seated { IsSeated (S.caller s.old) }
    requires cells { AreFewOf (S.caller s.old).home.cells cells.now }
    ensures { S.caller s.new ≡ S.caller s.old }
{
    match drawn {
        0 => swaps(rt, s, counts, &cells.third, drawn),
        1 => swaps(rt, s, counts, &cells.first, drawn),
        2 => cell_crowd_calls::looks(rt, s, &cells.third),
        _ => cell_crowd_calls::looks(rt, s, &cells.first),
    }
}

/// So many looks that are drawn.
pub fn looks<S: Space<Counted>>(
    rt: &impl Abort,
    s: &mut S,
    counts: &Counts,
    cells: &FewCells<Counted>,
    drawn: &mut Generator,
    calls: u64,
)
    requires seated { IsSeated (S.caller s.old) }
    requires cells { AreFewOf (S.caller s.old).home.cells cells.now }
    ensures { S.caller s.new ≡ S.caller s.old }
{
    for _ in 0..calls {
        looks_on(rt, s, counts, cells, drawn.below(4));
    }
}

/// So many calls with collectors that are drawn.
pub fn collects<S: Space<Counted>>(
    rt: &impl Abort,
    s: &mut S,
    counts: &Counts,
    cells: &FewCells<Counted>,
    collectors: &FewCollectors<Counted>,
    drawn: &mut Generator,
    calls: u64,
)
    requires seated { IsSeated (S.caller s.old) }
    requires cells { AreFewOf (S.caller s.old).home.cells cells.now }
    requires collectors { AreCollectorsOf (S.caller s.old).home.cells collectors.now }
    ensures { S.caller s.new ≡ S.caller s.old }
{
    for _ in 0..calls {
        let collector = match drawn.below(4) {
            0 => &collectors.first,
            1 => &collectors.second,
            2 => &collectors.third,
            _ => &collectors.fourth,
        };
        collects_one(rt, s, counts, cells, collector, drawn.below(4));
    }
}

/// Another collector in place of one that was closed, if a cell is free.
fn another<S: RawCells<Counted> + Collectors<Counted>>(
    rt: &impl Abort,
    s: &mut S,
) -> Option<PrivateCollector<Counted>>
    requires seated { IsSeated (S.caller s.old) }
    ensures caller { S.caller s.new ≡ S.caller s.old }
    ensures home { IfSome result (λ collector. cells_home collector ≡ (S.caller s.old).home.cells) }
{
    match PrivateCollector::new(s) {
        Ok(collector) => Some(collector),
        Err(refused) => {
            is_refused(rt, refused, Refused::NoCell);
            None
        }
    }
}

/// The collector is closed, where no guard is found open, and another one takes its place. It comes back else.
fn renewed<S: RawCells<Counted> + Collectors<Counted>>(
    rt: &impl Abort,
    s: &mut S,
    collector: PrivateCollector<Counted>,
) -> Option<PrivateCollector<Counted>>
    requires seated { IsSeated (S.caller s.old) }
    requires collector { cells_home collector ≡ (S.caller s.old).home.cells }
    ensures caller { S.caller s.new ≡ S.caller s.old }
    ensures home { IfSome result (λ collector. cells_home collector ≡ (S.caller s.old).home.cells) }
{
    match collector.close(s) {
        Ok(()) => another(rt, s),
        Err((back, refused)) => {
            assert_eq!(rt; refused, Refused::GuardOpen);
            Some(back)
        }
    }
}

/// Collects for a collector of its own, and tries so often to close it. One that isn't closed comes back, if there is one.
pub fn closes<S: Space<Counted>>(
    rt: &impl Abort,
    s: &mut S,
    counts: &Counts,
    cells: &FewCells<Counted>,
    collector: PrivateCollector<Counted>,
    drawn: &mut Generator,
    calls: u64,
) -> Option<PrivateCollector<Counted>>
    requires seated { IsSeated (S.caller s.old) }
    requires cells { AreFewOf (S.caller s.old).home.cells cells.now }
    requires collector { cells_home collector ≡ (S.caller s.old).home.cells }
    ensures caller { S.caller s.new ≡ S.caller s.old }
    ensures home { IfSome result (λ collector. cells_home collector ≡ (S.caller s.old).home.cells) }
{
    let mut kept = collector;
    for _ in 0..calls {
        collects_one(rt, s, counts, cells, &kept, drawn.below(4));
        match renewed(rt, s, kept) {
            Some(next) => kept = next,
            None => return None,
        }
    }
    Some(kept)
}
