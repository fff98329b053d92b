//! The first example in the original crate's README, call by call, in each space: cells of both kinds of owners and of pointers, what goes into them and
//! comes out, what a guard shows meanwhile, a job, and a private collector. The owners that are nested are of another type, and so of another space.
ghost use Rattle.std.specs.Prelude.{◌≡◌};
ghost use Rattle.sdd_space.specs.CallerId.{IsSeated};
ghost use Rattle.sdd_space.specs.Guard.{reader_of};
ghost use Rattle.sdd_space.specs.Owned as alone;
ghost use Rattle.sdd_space.specs.RawCell.{cells_home as raw_cells_home};
ghost use Rattle.sdd_space.specs.Shared as common;

use crate::cells::Value;
use crate::cells::example::{
    AMPLE, Example, Setting, Shown, all_went, closed, ended, in_each_space, local_shows,
    new_domain, registered,
};
use crate::cells::steps::{close, collectors, opened, owned, owners, raw, seen, shared};
use sdd_core::{Limits, Tag};
use sdd_participants::Idle;
use sdd_space::{
    AtomicOwned, AtomicRaw, AtomicShared, Cells, Collectors, Deferrals, Guard, Guards, Items, Look,
    Ptr, RawCells, RawItems, RawPtr, Shared, Space,
};
use std::process::Abort;

/// A pointer to what the first cell holds. Each cell has a tag from then on.
fn tags<'g, S: Look<u64> + Cells<u64> + RawCells<u64>>(
    rt: &impl Abort,
    s: &mut S,
    cell: &AtomicOwned<u64>,
    shared_cell: &AtomicShared<u64>,
    raw_cell: &AtomicRaw<u64>,
    guard: &'g Guard,
) -> Ptr<'g, u64>
    requires seated { IsSeated (S.caller s.old) }
    requires cell { alone.cells_home cell.now ≡ (S.caller s.old).home.cells }
    requires shared_cell { common.cells_home shared_cell.now ≡ (S.caller s.old).home.cells }
    requires raw_cell { raw_cells_home raw_cell.now ≡ (S.caller s.old).home.cells }
    requires reader { reader_of guard.now ≡ (S.caller s.old).reader }
    ensures caller { S.caller s.new ≡ S.caller s.old }
{
    let ptr = owners::load(s, cell, guard);
    assert!(rt; seen(s, ptr) == Some(19));
    assert!(rt; owners::tagged(rt, s, cell, Tag::First));
    assert!(rt; owners::tagged(rt, s, shared_cell, Tag::Second));
    let null = RawPtr::null();
    let tagged = null.with_tag(Tag::Both);
    assert!(rt; raw_cell.compare_exchange(null, tagged, guard, s) == Ok(null));
    ptr
}

/// An exchange is refused that expects no tag, and the pointer is given the cell's.
fn expects_no_tag<'g, S: Look<u64> + Items<u64> + Cells<u64>>(
    rt: &impl Abort,
    s: &mut S,
    cell: &AtomicOwned<u64>,
    ptr: Ptr<'g, u64>,
    guard: &'g Guard,
) -> Ptr<'g, u64>
    requires seated { IsSeated (S.caller s.old) }
    requires home { alone.cells_home cell.now ≡ (S.caller s.old).home.cells }
    requires reader { reader_of guard.now ≡ (S.caller s.old).reader }
    ensures caller { S.caller s.new ≡ S.caller s.old }
{
    let mut ptr = ptr;
    assert!(rt;
        owners::exchanged(rt, s, cell, ptr, 18, Tag::First, guard)
            == Err((Some(18), Some(19), Tag::First))
    );
    assert!(rt; ptr.set_tag(Tag::First) == Tag::None);
    ptr
}

/// Another owner takes the place of the one in the cell, and comes out of it.
fn replaced<S: Look<u64> + Items<u64> + Cells<u64>>(
    rt: &impl Abort,
    s: &mut S,
    cell: AtomicShared<u64>,
) -> Shared<u64>
    requires seated { IsSeated (S.caller s.old) }
    requires home { common.cells_home cell ≡ (S.caller s.old).home.cells }
    ensures caller { S.caller s.new ≡ S.caller s.old }
    ensures home { common.slots_home result ≡ (S.caller s.new).home.slots }
{
    assert!(rt; owners::swapped(rt, s, &cell, Some(19), Tag::None) == (Some(17), Tag::Second));
    let owner = shared::into_shared(s, cell).expect(rt, "the cell holds an owner");
    assert!(rt; *owner.get(s) == 19);
    owner
}

/// An item goes out, and a cell names it.
fn puts_out<S: Items<u64> + RawItems<u64> + RawCells<u64>>(
    rt: &impl Abort,
    s: &mut S,
    cell: &AtomicRaw<u64>,
    value: u64,
)
    requires seated { IsSeated (S.caller s.old) }
    requires home { raw_cells_home cell.now ≡ (S.caller s.old).home.cells }
    ensures caller { S.caller s.new ≡ S.caller s.old }
{
    let owner = owned::made(rt, s, value);
    let out = owned::raw(s, owner);
    cell.store(out, s);
}

/// Whoever takes back what the cell names owns it. The number that the guard showed before, and that the owner gave up.
fn takes_back<S: Look<u64> + Items<u64> + RawItems<u64> + RawCells<u64>>(
    s: &mut S,
    cell: &AtomicRaw<u64>,
    guard: &Guard,
) -> (Option<u64>, Option<u64>)
    requires seated { IsSeated (S.caller s.old) }
    requires home { raw_cells_home cell.now ≡ (S.caller s.old).home.cells }
    requires reader { reader_of guard.now ≡ (S.caller s.old).reader }
    ensures caller { S.caller s.new ≡ S.caller s.old }
{
    let named = cell.load(guard, s);
    let shown = owned::see(s, named, guard);
    let back = owned::unraw(s, named);
    (shown, owners::spent(s, back))
}

/// A job waits until no guard of now is open.
fn defers<S: Deferrals<u64, Job = Idle>>(rt: &impl Abort, s: &mut S, guard: &Guard)
    requires seated { IsSeated (S.caller s.old) }
    requires reader { reader_of guard.now ≡ (S.caller s.old).reader }
    ensures caller { S.caller s.new ≡ S.caller s.old }
{
    match guard.defer_execute(Idle, s) {
        Ok(()) => {}
        Err((_job, refused)) => panic!(rt; "{refused:?}"),
    }
}

/// An owner of each kind is collected, each under a guard of its own, and the close reclaims both at once.
fn collects<S: Guards<u64> + Items<u64> + RawCells<u64> + Collectors<u64>>(
    rt: &impl Abort,
    s: &mut S,
)
    requires seated { IsSeated (S.caller s.old) }
    ensures caller { S.caller s.new ≡ S.caller s.old }
{
    let collector = collectors::made(rt, s);
    collectors::collect(rt, s, &collector, 37);
    let owner = shared::made(rt, s, 43);
    assert!(rt; collectors::collect_shared(rt, s, &collector, owner));
    collectors::closed(rt, s, collector);
}

/// What a guard saw it shows for as long as it is open, whatever is given up meanwhile.
struct Manages;

impl Example for Manages {
    fn run<R: Abort, S: Space<u64> + Deferrals<u64, Job = Idle>>(rt: &R, s: &mut S) {
        let cell = owned::cell(rt, s, 19);
        let shared_cell = shared::cell(rt, s, 17);
        let raw_cell = raw::cell(rt, s, RawPtr::null());
        let guard = opened(rt, s);
        let ptr = tags(rt, s, &cell, &shared_cell, &raw_cell, &guard);
        let ptr = expects_no_tag(rt, s, &cell, ptr, &guard);
        let owner = replaced(rt, s, shared_cell);
        puts_out(rt, s, &raw_cell, 7);
        assert!(rt; shared::release(s, owner));
        owners::close_cell(s, cell);
        assert!(rt; (seen(s, ptr), ptr.tag()) == (Some(19), Tag::First));
        assert!(rt; takes_back(s, &raw_cell, &guard) == (Some(7), Some(7)));
        defers(rt, s, &guard);
        close(s, guard);
        raw_cell.close(s);
        collects(rt, s);
    }
}

/// The two that were collected have gone already when the first guard is opened, and the others go at their third change.
#[test]
fn a_guard_shows_what_its_owners_gave_up(rt: HostRuntime) {
    in_each_space::<Manages, _>(
        &rt,
        AMPLE,
        &[(0, 2, true), (1, 2, true), (2, 2, true), (3, 7, false)],
        0,
    );
}

/// An owner of a value that holds the owner of one that holds an owner of a number.
fn nested<S: Items<Value>>(rt: &impl Abort, s: &mut S) -> Shared<Value>
    requires seated { IsSeated (S.caller s.old) }
    ensures caller { S.caller s.new ≡ S.caller s.old }
    ensures home { common.slots_home result ≡ (S.caller s.new).home.slots }
{
    let inner = shared::made(rt, s, Value::Number(20));
    let middle = owned::made(rt, s, Value::Beside(inner));
    shared::made(rt, s, Value::Of(middle))
}

/// The number of the innermost value, by owners alone.
fn innermost<S: Look<Value>>(s: &S, owner: &Shared<Value>) -> Option<u64>
    requires { common.slots_home owner.now ≡ (S.home s.now).slots }
{
    let Value::Of(middle) = owner.get(s) else {
        return None;
    };
    let Value::Beside(inner) = middle.get(s) else {
        return None;
    };
    match inner.get(s) {
        Value::Number(number) => Some(*number),
        _ => None,
    }
}

/// The next owner is given up where the value that holds it is reclaimed.
fn nests<S: Look<Value> + Items<Value>>(rt: &impl Abort, s: &mut S)
    requires seated { IsSeated (S.caller s.old) }
    ensures caller { S.caller s.new ≡ S.caller s.old }
{
    let owner = nested(rt, s);
    assert!(rt; innermost(s, &owner) == Some(20));
    assert!(rt; owner.release(s));
}

/// What a value held goes three changes after it.
const GOES_IN_TURN: [Shown; 10] = [
    (0, 0, true),
    (1, 0, true),
    (2, 0, true),
    (3, 1, true),
    (4, 1, true),
    (5, 1, true),
    (6, 2, true),
    (7, 2, true),
    (8, 2, true),
    (9, 3, false),
];

#[test]
fn owners_are_nested(rt: HostRuntime) {
    let mut setting: Setting<Value> = Setting::new(&rt, AMPLE);
    nests(&rt, &mut setting.world.at(&setting.place));
    setting.shows(&rt, GOES_IN_TURN.as_slice());
    setting.closed(&rt, 0);
    for participants in 1..3u64 {
        let domain = new_domain::<Value>(
            &rt,
            Limits {
                participants,
                ..AMPLE
            },
        );
        let mut local = registered(&rt, &domain);
        nests(&rt, &mut local);
        local_shows(&rt, &mut local, GOES_IN_TURN.as_slice());
        let receipt = ended(&rt, local);
        all_went(&rt, closed(&rt, domain, receipt), 0);
    }
}
