//! Eight threads share few cells: they look, swap, exchange, copy, share and tag.
ghost use Rattle.std.specs.Prelude.{◌≡◌};
ghost use Rattle.sdd_space.specs.CallerId.{IsSeated};
ghost use Rattle.sdd_space.specs.Owned as owned;
ghost use Rattle.sdd_space.specs.RawCell as raw_cell;
ghost use Rattle.sdd_space.specs.Shared as shared;
ghost use Rattle.sdd_domain.specs.Domain.{cells_in, slots_in};
ghost use Rattle.sdd_domain.specs.Space.{caller_of};
ghost use Rattle.sdd_domain_tests.specs.FewCells.{AreFewOf};
ghost use Rattle.sdd_domain_tests.specs.Slots.{IsReceiptIn, AreReceiptsIn};

use crate::answers::tag_of;
use crate::drawn::generator::Generator;
use crate::few::FewCells;
use crate::owners::counted::Counted;
use crate::steps::{ONE_SLOT, add, add_all, closed, ended, new_domain, registered};
use crate::threads::cell_crowd_calls::draws;
use crate::threads::crowd_calls::Counts;
use sdd_core::Limits;
use sdd_domain::{Domain, Local, Receipt};
use sdd_participants::Tally;
use sdd_space::{AtomicOwned, AtomicRaw, AtomicShared};
use std::process::Abort;
use std::sync::atomic::Ordering;
use std::thread::{Threads, join};

/// So many rounds in the gate, in about a second. By hand 2400 of them take a minute.
const ROUNDS: u64 = 40;

/// The calls of a thread in one round.
const CALLS: u64 = 100;

/// Nine participants share eight slots and seven cells.
const FEW: Limits = Limits {
    participants: 9,
    slots: 8,
    cells: 7,
    tries: 3,
    ..ONE_SLOT
};

/// What a thread does: it registers, makes its calls, and ends.
fn works(
    rt: &impl Abort,
    domain: &Domain<Counted>,
    counts: &Counts,
    cells: &FewCells<Counted>,
) -> Receipt<Counted>
    requires few { AreFewOf (cells_in domain.now) cells.now }
    ensures { IsReceiptIn (slots_in domain.now) result }
{
    let mut drawn = Generator::new(counts.seeds.fetch_add(1, Ordering::SeqCst));
    let mut local = registered(rt, domain);
    draws(rt, &mut local, counts, cells, &mut drawn, CALLS);
    ended(rt, local)
}

/// What two threads leave.
fn two(
    rt: &(impl Abort + Threads + Sync),
    domain: &Domain<Counted>,
    counts: &Counts,
    cells: &FewCells<Counted>,
) -> (Receipt<Counted>, Receipt<Counted>)
    requires few { AreFewOf (cells_in domain.now) cells.now }
    ensures { IsReceiptIn (slots_in domain.now) result.0 × IsReceiptIn (slots_in domain.now) result.1 }
{
    join(
        rt,
        || works(rt, domain, counts, cells),
        || works(rt, domain, counts, cells),
    )
}

/// What four threads leave.
fn four(
    rt: &(impl Abort + AllocGlobal + Threads + Sync),
    domain: &Domain<Counted>,
    counts: &Counts,
    cells: &FewCells<Counted>,
) -> Vec<Receipt<Counted>>
    requires few { AreFewOf (cells_in domain.now) cells.now }
    ensures { AreReceiptsIn (slots_in domain.now) result.items }
{
    let ((first, second), (third, fourth)) = join(
        rt,
        ||
            requires { AreFewOf (cells_in domain.now) cells.now }
        { two(rt, domain, counts, cells) },
        ||
            requires { AreFewOf (cells_in domain.now) cells.now }
        { two(rt, domain, counts, cells) },
    );
    vec![in rt.alloc(); first, second, third, fourth].expect(rt, "there is memory")
}

/// What eight threads leave.
fn eight(
    rt: &(impl Abort + AllocGlobal + Threads + Sync),
    domain: &Domain<Counted>,
    counts: &Counts,
    cells: &FewCells<Counted>,
) -> Vec<Receipt<Counted>>
    requires few { AreFewOf (cells_in domain.now) cells.now }
    ensures { AreReceiptsIn (slots_in domain.now) result.items }
{
    let (mut receipts, others) = join(
        rt,
        ||
            requires { AreFewOf (cells_in domain.now) cells.now }
        { four(rt, domain, counts, cells) },
        ||
            requires { AreFewOf (cells_in domain.now) cells.now }
        { four(rt, domain, counts, cells) },
    );
    add_all(rt, domain, &mut receipts, others);
    receipts
}

/// A cell that holds an owner that may have others beside it.
fn shared_cell(
    rt: &impl Abort,
    local: &mut Local<'_, Counted>,
    counts: &Counts,
) -> AtomicShared<Counted>
    requires seated { IsSeated (caller_of local.old) }
    ensures caller { caller_of local.new ≡ caller_of local.old }
    ensures home { shared.cells_home result ≡ (caller_of local.old).home.cells }
{
    match AtomicShared::new(Counted::new(rt, 0, &counts.drops), local) {
        Ok(cell) => cell,
        Err((_value, refused)) => panic!(rt; "refused: {refused:?}"),
    }
}

/// A cell that holds nothing.
fn owned_cell(rt: &impl Abort, local: &mut Local<'_, Counted>) -> AtomicOwned<Counted>
    requires seated { IsSeated (caller_of local.old) }
    ensures caller { caller_of local.new ≡ caller_of local.old }
    ensures home { owned.cells_home result ≡ (caller_of local.old).home.cells }
{
    AtomicOwned::null(local).expect(rt, "a cell is free")
}

/// A cell without a pointer.
fn pointer_cell(rt: &impl Abort, local: &mut Local<'_, Counted>) -> AtomicRaw<Counted>
    requires seated { IsSeated (caller_of local.old) }
    ensures caller { caller_of local.new ≡ caller_of local.old }
    ensures home { raw_cell.cells_home result ≡ (caller_of local.old).home.cells }
{
    AtomicRaw::null(local).expect(rt, "a cell is free")
}

/// What the threads share.
pub fn new_cells(
    rt: &impl Abort,
    local: &mut Local<'_, Counted>,
    counts: &Counts,
) -> FewCells<Counted>
    requires seated { IsSeated (caller_of local.old) }
    ensures caller { caller_of local.new ≡ caller_of local.old }
    ensures cells { AreFewOf (caller_of local.old).home.cells result }
{
    let first = shared_cell(rt, local, counts);
    let second = shared_cell(rt, local, counts);
    let third = owned_cell(rt, local);
    let fourth = owned_cell(rt, local);
    let fifth = pointer_cell(rt, local);
    FewCells {
        first,
        second,
        third,
        fourth,
        fifth,
    }
}

/// Each cell is free again.
pub fn close_all(local: &mut Local<'_, Counted>, cells: FewCells<Counted>)
    requires seated { IsSeated (caller_of local.old) }
    requires cells { AreFewOf (caller_of local.old).home.cells cells }
    ensures { caller_of local.new ≡ caller_of local.old }
{
    let FewCells {
        first,
        second,
        third,
        fourth,
        fifth,
    } = cells;
    first.close(local);
    second.close(local);
    third.close(local);
    fourth.close(local);
    fifth.close(local);
}

/// Each value was dropped once, and all that was made is gone.
pub fn adds_up(rt: &impl Abort, tally: Tally, counts: &Counts) {
    let refused = u128::from(counts.refused.load(Ordering::SeqCst));
    let drops = u128::from(counts.drops.load(Ordering::SeqCst));
    assert_eq!(rt; (tally.reclaimed, tally.in_place), (tally.made, 0));
    assert_eq!(rt; drops, tally.made.saturating_add(refused));
}

fn plays_a_round(rt: &(impl Abort + AllocGlobal + Threads + Sync), seed: u64) {
    let counts = Counts::new(rt, seed);
    let domain = new_domain::<Counted>(rt, FEW);
    let mut local = registered(rt, &domain);
    let cells = new_cells(rt, &mut local, &counts);
    let mut receipts = eight(rt, &domain, &counts, &cells);
    let turned = counts.turned.load(Ordering::SeqCst);
    assert_eq!(rt; cells.fifth.tag(&mut local), tag_of(turned));
    close_all(&mut local, cells);
    add(rt, &domain, &mut receipts, ended(rt, local));
    adds_up(rt, closed(rt, domain, receipts), &counts);
}

#[test]
fn eight_threads_share_few_cells(rt: HostRuntime) {
    for round in 0..ROUNDS {
        plays_a_round(&rt, round.wrapping_mul(8));
    }
}
