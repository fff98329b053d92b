//! Eight threads collect for each other's collectors what comes out of cells, and close some, while others look at it.
ghost use Rattle.std.specs.Prelude.{◌≡◌, IfSome};
ghost use Rattle.sdd_space.specs.CallerId.{IsSeated};
ghost use Rattle.sdd_space.specs.Collector.{cells_home};
ghost use Rattle.sdd_domain.specs.Domain.{cells_in, slots_in};
ghost use Rattle.sdd_domain.specs.Space.{caller_of};
ghost use Rattle.sdd_domain_tests.specs.FewCells.{AreFewOf};
ghost use Rattle.sdd_domain_tests.specs.FewCollectors.{AreCollectorsOf, IsOneOf, AreBothOf, AreFourOf, IsGivenOf, IsLeftOf};
ghost use Rattle.sdd_domain_tests.specs.Slots.{AreReceiptsIn};

use crate::drawn::generator::Generator;
use crate::few::{FewCells, FewCollectors};
use crate::owners::counted::Counted;
use crate::steps::{ONE_SLOT, add, closed, ended, new_domain, registered};
use crate::threads::cell_crowd::{adds_up, close_all, new_cells};
use crate::threads::collector_crowd_calls::{closes, collects, looks};
use crate::threads::crowd_calls::{Counts, is_taken};
use sdd_core::Limits;
use sdd_domain::{Domain, Local, Receipt};
use sdd_space::PrivateCollector;
use std::process::Abort;
use std::sync::atomic::Ordering;
use std::thread::{Threads, join};

/// So many rounds in the gate, in about a second. By hand 2400 of them take a minute.
const ROUNDS: u64 = 40;

/// The calls of a thread in one round, before the collectors are closed.
const CALLS: u64 = 60;

/// How often one tries to close a collector, and how often one looks meanwhile.
const TRIES: u64 = 40;

/// Nine participants share sixteen slots and nine cells.
const FEW: Limits = Limits {
    participants: 9,
    slots: 16,
    cells: 9,
    tries: 3,
    ..ONE_SLOT
};

/// A participant of the domain.
type One<'d> = Local<'d, Counted>;

/// What two threads are given, one of which is to close a collector.
type Given<'d> = ((One<'d>, One<'d>), PrivateCollector<Counted>);

/// What two threads leave of which one was to close a collector: it may be open still.
type Left<'d> = ((One<'d>, One<'d>), Option<PrivateCollector<Counted>>);

/// What a thread does first: it registers, and makes its calls.
fn collecting<'d>(
    rt: &impl Abort,
    domain: &'d Domain<Counted>,
    counts: &Counts,
    cells: &FewCells<Counted>,
    collectors: &FewCollectors<Counted>,
) -> One<'d>
    requires cells { AreFewOf (cells_in domain.now) cells.now }
    requires collectors { AreCollectorsOf (cells_in domain.now) collectors.now }
    ensures { IsOneOf domain.now result }
{
    let mut drawn = Generator::new(counts.seeds.fetch_add(1, Ordering::SeqCst));
    let mut local = registered(rt, domain);
    collects(rt, &mut local, counts, cells, collectors, &mut drawn, CALLS);
    local
}

/// Two threads do so.
fn two_collecting<'d>(
    rt: &(impl Abort + Threads + Sync),
    domain: &'d Domain<Counted>,
    counts: &Counts,
    cells: &FewCells<Counted>,
    collectors: &FewCollectors<Counted>,
) -> (One<'d>, One<'d>)
    requires cells { AreFewOf (cells_in domain.now) cells.now }
    requires collectors { AreCollectorsOf (cells_in domain.now) collectors.now }
    ensures { AreBothOf domain.now result }
{
    join(
        rt,
        || collecting(rt, domain, counts, cells, collectors),
        || collecting(rt, domain, counts, cells, collectors),
    )
}

/// Four threads do so.
fn four_collecting<'d>(
    rt: &(impl Abort + Threads + Sync),
    domain: &'d Domain<Counted>,
    counts: &Counts,
    cells: &FewCells<Counted>,
    collectors: &FewCollectors<Counted>,
) -> ((One<'d>, One<'d>), (One<'d>, One<'d>))
    requires cells { AreFewOf (cells_in domain.now) cells.now }
    requires collectors { AreCollectorsOf (cells_in domain.now) collectors.now }
    ensures { AreFourOf domain.now result }
{
    join(
        rt,
        ||
            requires { AreFewOf (cells_in domain.now) cells.now × AreCollectorsOf (cells_in domain.now) collectors.now }
        { two_collecting(rt, domain, counts, cells, collectors) },
        ||
            requires { AreFewOf (cells_in domain.now) cells.now × AreCollectorsOf (cells_in domain.now) collectors.now }
        { two_collecting(rt, domain, counts, cells, collectors) },
    )
}

/// What a thread does then that closes nothing: it looks at the cells, out of which others collect what they hold.
fn looking<'d>(
    rt: &impl Abort,
    domain: &Domain<Counted>,
    counts: &Counts,
    cells: &FewCells<Counted>,
    given: &mut Option<One<'d>>,
) -> One<'d>
    requires cells { AreFewOf (cells_in domain.now) cells.now }
    requires given { IfSome given.old (IsOneOf domain.now) }
    ensures { IsOneOf domain.now result }
{
    let _ = domain;
    let Some(mut local) = given.take() else {
        panic!(rt; "a participant was given")
    };
    let mut drawn = Generator::new(counts.seeds.fetch_add(1, Ordering::SeqCst));
    looks(rt, &mut local, counts, cells, &mut drawn, TRIES);
    local
}

/// What a thread does then that is to close a collector.
fn closing<'d>(
    rt: &impl Abort,
    domain: &Domain<Counted>,
    counts: &Counts,
    cells: &FewCells<Counted>,
    given: &mut Option<(One<'d>, PrivateCollector<Counted>)>,
) -> (One<'d>, Option<PrivateCollector<Counted>>)
    requires cells { AreFewOf (cells_in domain.now) cells.now }
    requires given { IfSome given.old (λ g. IsOneOf domain.now g.0 × (cells_home g.1 ≡ cells_in domain.now)) }
    ensures local { IsOneOf domain.now result.0 }
    ensures left { IfSome result.1 (λ collector. cells_home collector ≡ cells_in domain.now) }
{
    let _ = domain;
    let Some((mut local, collector)) = given.take() else {
        panic!(rt; "a collector was given")
    };
    let mut drawn = Generator::new(counts.seeds.fetch_add(1, Ordering::SeqCst));
    let left = closes(rt, &mut local, counts, cells, collector, &mut drawn, TRIES);
    (local, left)
}

/// One of two threads closes a collector.
fn two_closing<'d>(
    rt: &(impl Abort + Threads + Sync),
    domain: &Domain<Counted>,
    counts: &Counts,
    cells: &FewCells<Counted>,
    given: &mut Option<Given<'d>>,
) -> Left<'d>
    requires cells { AreFewOf (cells_in domain.now) cells.now }
    requires given { IfSome given.old (IsGivenOf domain.now) }
    ensures { IsLeftOf domain.now result }
{
    let Some(((first, second), collector)) = given.take() else {
        panic!(rt; "participants were given")
    };
    let mut to_close = Some((first, collector));
    let mut to_look = Some(second);
    let ((first, left), second) = join(
        rt,
        || closing(rt, domain, counts, cells, &mut to_close),
        || looking(rt, domain, counts, cells, &mut to_look),
    );
    is_taken(rt, to_close);
    is_taken(rt, to_look);
    ((first, second), left)
}

/// Two of four threads close one each.
fn two_pairs_closing<'d>(
    rt: &(impl Abort + Threads + Sync),
    domain: &Domain<Counted>,
    counts: &Counts,
    cells: &FewCells<Counted>,
    these: Given<'d>,
    those: Given<'d>,
) -> (Left<'d>, Left<'d>)
    requires cells { AreFewOf (cells_in domain.now) cells.now }
    requires these { IsGivenOf domain.now these }
    requires those { IsGivenOf domain.now those }
    ensures { IsLeftOf domain.now result.0 × IsLeftOf domain.now result.1 }
{
    let mut these = Some(these);
    let mut those = Some(those);
    let left = join(
        rt,
        ||
            requires { AreFewOf (cells_in domain.now) cells.now × IfSome these (IsGivenOf domain.now) }
        { two_closing(rt, domain, counts, cells, &mut these) },
        ||
            requires { AreFewOf (cells_in domain.now) cells.now × IfSome those (IsGivenOf domain.now) }
        { two_closing(rt, domain, counts, cells, &mut those) },
    );
    is_taken(rt, these);
    is_taken(rt, those);
    left
}

/// The same of what is given to them.
fn four_closing<'d>(
    rt: &(impl Abort + Threads + Sync),
    domain: &Domain<Counted>,
    counts: &Counts,
    cells: &FewCells<Counted>,
    given: &mut Option<(Given<'d>, Given<'d>)>,
) -> (Left<'d>, Left<'d>)
    requires cells { AreFewOf (cells_in domain.now) cells.now }
    requires given { IfSome given.old (λ g. IsGivenOf domain.now g.0 × IsGivenOf domain.now g.1) }
    ensures { IsLeftOf domain.now result.0 × IsLeftOf domain.now result.1 }
{
    let Some((these, those)) = given.take() else {
        panic!(rt; "participants were given")
    };
    two_pairs_closing(rt, domain, counts, cells, these, those)
}

/// Four of eight threads close one each.
fn eight_closing<'d>(
    rt: &(impl Abort + Threads + Sync),
    domain: &Domain<Counted>,
    counts: &Counts,
    cells: &FewCells<Counted>,
    these: (Given<'d>, Given<'d>),
    those: (Given<'d>, Given<'d>),
) -> ((Left<'d>, Left<'d>), (Left<'d>, Left<'d>))
    requires cells { AreFewOf (cells_in domain.now) cells.now }
    requires these { IsGivenOf domain.now these.0 × IsGivenOf domain.now these.1 }
    requires those { IsGivenOf domain.now those.0 × IsGivenOf domain.now those.1 }
    ensures these { IsLeftOf domain.now result.0.0 × IsLeftOf domain.now result.0.1 }
    ensures those { IsLeftOf domain.now result.1.0 × IsLeftOf domain.now result.1.1 }
{
    let mut these = Some(these);
    let mut those = Some(those);
    let left = join(
        rt,
        ||
            requires { AreFewOf (cells_in domain.now) cells.now × IfSome these (λ g. IsGivenOf domain.now g.0 × IsGivenOf domain.now g.1) }
        { four_closing(rt, domain, counts, cells, &mut these) },
        ||
            requires { AreFewOf (cells_in domain.now) cells.now × IfSome those (λ g. IsGivenOf domain.now g.0 × IsGivenOf domain.now g.1) }
        { four_closing(rt, domain, counts, cells, &mut those) },
    );
    is_taken(rt, these);
    is_taken(rt, those);
    left
}

/// No guard is open any more: what is left of a collector's close succeeds, and both participants end.
fn finishes(
    rt: &(impl Abort + AllocGlobal),
    domain: &Domain<Counted>,
    receipts: &mut Vec<Receipt<Counted>>,
    left: Left<'_>,
)
    requires all { AreReceiptsIn (slots_in domain.now) receipts.old.items }
    requires left { IsLeftOf domain.now left }
    ensures { AreReceiptsIn (slots_in domain.now) receipts.new.items }
{
    let ((mut first, second), collector) = left;
    if let Some(collector) = collector {
        match collector.close(&mut first) {
            Ok(()) => {}
            Err((_collector, refused)) => panic!(rt; "refused: {refused:?}"),
        }
    }
    add(rt, domain, receipts, ended(rt, first));
    add(rt, domain, receipts, ended(rt, second));
}

fn made(rt: &impl Abort, local: &mut One<'_>) -> PrivateCollector<Counted>
    requires seated { IsSeated (caller_of local.old) }
    ensures caller { caller_of local.new ≡ caller_of local.old }
    ensures home { cells_home result ≡ (caller_of local.old).home.cells }
{
    PrivateCollector::new(local).expect(rt, "a cell is free")
}

fn new_collectors(rt: &impl Abort, local: &mut One<'_>) -> FewCollectors<Counted>
    requires seated { IsSeated (caller_of local.old) }
    ensures caller { caller_of local.new ≡ caller_of local.old }
    ensures home { AreCollectorsOf (caller_of local.old).home.cells result }
{
    let first = made(rt, local);
    let second = made(rt, local);
    let third = made(rt, local);
    let fourth = made(rt, local);
    FewCollectors {
        first,
        second,
        third,
        fourth,
    }
}

/// Eight threads collect for four collectors; then four of them close one each, and another one in its place, while the others look on.
fn plays_a_round(rt: &(impl Abort + AllocGlobal + Threads + Sync), seed: u64) {
    let counts = Counts::new(rt, seed);
    let domain = new_domain::<Counted>(rt, FEW);
    let mut local = registered(rt, &domain);
    let cells = new_cells(rt, &mut local, &counts);
    let collectors = new_collectors(rt, &mut local);
    let (these, those) = join(
        rt,
        ||
            requires { AreFewOf (cells_in domain) cells × AreCollectorsOf (cells_in domain) collectors }
        { four_collecting(rt, &domain, &counts, &cells, &collectors) },
        ||
            requires { AreFewOf (cells_in domain) cells × AreCollectorsOf (cells_in domain) collectors }
        { four_collecting(rt, &domain, &counts, &cells, &collectors) },
    );
    let FewCollectors {
        first,
        second,
        third,
        fourth,
    } = collectors;
    let (these, those) = eight_closing(
        rt,
        &domain,
        &counts,
        &cells,
        ((these.0, first), (these.1, second)),
        ((those.0, third), (those.1, fourth)),
    );
    let mut receipts = Vec::new(rt.alloc());
    finishes(rt, &domain, &mut receipts, these.0);
    finishes(rt, &domain, &mut receipts, these.1);
    finishes(rt, &domain, &mut receipts, those.0);
    finishes(rt, &domain, &mut receipts, those.1);
    close_all(&mut local, cells);
    add(rt, &domain, &mut receipts, ended(rt, local));
    adds_up(rt, closed(rt, domain, receipts), &counts);
}

#[test]
fn eight_threads_collect_for_few_collectors(rt: HostRuntime) {
    for round in 0..ROUNDS {
        plays_a_round(&rt, round.wrapping_mul(8));
    }
}
