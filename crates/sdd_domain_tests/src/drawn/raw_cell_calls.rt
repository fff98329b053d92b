//! Calls with cells of pointers. Slots may be numbered otherwise in another space, so what is answered of a pointer is whether it names one, and its tag.
ghost use Rattle.std.specs.Prelude.{◌≡◌, IfSome};
ghost use Rattle.sdd_space.specs.CallerId.{IsSeated};
ghost use Rattle.sdd_space.specs.Guard.{reader_of};
ghost use Rattle.sdd_space.specs.RawCell.{cells_home};
ghost use Rattle.sdd_domain_tests.specs.Hands.{IsHandOf};

use crate::answers::{Answer, tag_of};
use crate::drawn::generator::Generator;
use crate::drawn::in_hand::{InHand, keep_made};
use crate::hand::Hand;
use sdd_core::Tag;
use sdd_space::{AtomicRaw, Guard, RawCells, RawPtr};
use std::process::Abort;

/// What is answered of a pointer that a cell had.
fn pointed(done: bool, ptr: RawPtr<u64>) -> Answer {
    Answer::Pointed(done, !ptr.is_null(), ptr.tag())
}

/// Something that is out, or null, with a tag.
fn pointer(out: &Vec<RawPtr<u64>>, pick: usize, draw: u64) -> RawPtr<u64> {
    if out.is_empty() || draw % 3 == 0 {
        return RawPtr::null().with_tag(tag_of(draw));
    }
    let place = pick % out.len();
    out[place].with_tag(tag_of(draw))
}

/// What a cell has.
fn seen<S: RawCells<u64>>(
    rt: &impl Abort,
    s: &mut S,
    cell: &AtomicRaw<u64>,
    guard: &Guard,
) -> Answer
    requires seated { IsSeated (S.caller s.old) }
    requires home { cells_home cell.now ≡ (S.caller s.old).home.cells }
    requires reader { reader_of guard.now ≡ (S.caller s.old).reader }
    ensures { S.caller s.new ≡ S.caller s.old }
{
    let ptr = cell.load(guard, s);
    assert!(rt; (cell.is_null(s), cell.tag(s)) == (ptr.is_null(), ptr.tag()));
    pointed(false, ptr)
}

/// Another pointer takes the place of the one that the cell has, if that is the one that is expected: in some calls one with another tag, or null.
fn exchanged<S: RawCells<u64>>(
    s: &mut S,
    cell: &AtomicRaw<u64>,
    next: RawPtr<u64>,
    guard: &Guard,
    draw: u64,
) -> Answer
    requires seated { IsSeated (S.caller s.old) }
    requires home { cells_home cell.now ≡ (S.caller s.old).home.cells }
    requires reader { reader_of guard.now ≡ (S.caller s.old).reader }
    ensures { S.caller s.new ≡ S.caller s.old }
{
    let loaded = cell.load(guard, s);
    let current = match draw % 4 {
        0 => loaded.with_tag(tag_of(draw / 4)),
        1 => RawPtr::null(),
        _ => loaded,
    };
    match cell.compare_exchange(current, next, guard, s) {
        Ok(old) => pointed(true, old),
        Err(now) => pointed(false, now),
    }
}

/// Sets a tag where the cell has the tag that is asked for. The condition is asked once, of what the cell has.
fn tagged<S: RawCells<u64>>(
    rt: &impl Abort,
    s: &mut S,
    cell: &AtomicRaw<u64>,
    wanted: Tag,
    tag: Tag,
) -> Answer
    requires seated { IsSeated (S.caller s.old) }
    requires home { cells_home cell.now ≡ (S.caller s.old).home.cells }
    ensures { S.caller s.new ≡ S.caller s.old }
{
    let mut times = 0u8;
    let mut shown = RawPtr::null();
    let condition = |ptr: RawPtr<u64>| {
        times = times.wrapping_add(1);
        shown = ptr;
        ptr.tag() == wanted
    };
    let changed = cell.update_tag_if(tag, condition, s);
    assert!(rt; times == 1);
    match changed {
        Ok(changed) => pointed(changed, shown),
        Err(refused) => Answer::Refused(refused),
    }
}

/// The cell has the pointer that a closure makes of its own, if it makes one. The closure is called once.
fn updated<S: RawCells<u64>>(
    rt: &impl Abort,
    s: &mut S,
    cell: &AtomicRaw<u64>,
    next: RawPtr<u64>,
    guard: &Guard,
) -> Answer
    requires seated { IsSeated (S.caller s.old) }
    requires home { cells_home cell.now ≡ (S.caller s.old).home.cells }
    requires reader { reader_of guard.now ≡ (S.caller s.old).reader }
    ensures { S.caller s.new ≡ S.caller s.old }
{
    let mut times = 0u8;
    let update = |ptr: RawPtr<u64>| {
        times = times.wrapping_add(1);
        if ptr.tag() == next.tag() {
            None
        } else {
            Some(next)
        }
    };
    let updated = cell.fetch_update(update, guard, s);
    assert!(rt; times == 1);
    match updated {
        Ok(Ok(old)) => pointed(true, old),
        Ok(Err(now)) => pointed(false, now),
        Err(refused) => Answer::Refused(refused),
    }
}

/// One of the calls with a cell.
fn called<S: RawCells<u64>>(
    rt: &impl Abort,
    s: &mut S,
    cell: &AtomicRaw<u64>,
    ptr: RawPtr<u64>,
    guard: &Guard,
    draw: u64,
) -> Answer
    requires seated { IsSeated (S.caller s.old) }
    requires home { cells_home cell.now ≡ (S.caller s.old).home.cells }
    requires reader { reader_of guard.now ≡ (S.caller s.old).reader }
    ensures { S.caller s.new ≡ S.caller s.old }
{
    match draw / 16 {
        0 => seen(rt, s, cell, guard),
        1 => {
            cell.store(ptr, s);
            Answer::Done
        }
        2 => pointed(true, cell.swap(ptr, guard, s)),
        3 => exchanged(s, cell, ptr, guard, draw),
        4 => tagged(rt, s, cell, tag_of(draw), tag_of(draw / 4)),
        _ => updated(rt, s, cell, ptr, guard),
    }
}

/// The same with the cell that is taken.
fn calls<S: RawCells<u64>>(
    rt: &impl Abort,
    s: &mut S,
    hand: &mut Hand,
    guard: &Guard,
    ptr: RawPtr<u64>,
    pick: usize,
    draw: u64,
) -> Option<Answer>
    requires seated { IsSeated (S.caller s.old) }
    requires hand { IsHandOf (S.caller s.old) hand.old }
    requires reader { reader_of guard.now ≡ (S.caller s.old).reader }
    ensures caller { S.caller s.new ≡ S.caller s.old }
    ensures hand { IsHandOf (S.caller s.old) hand.new }
{
    let cell = AtomicRaw::take(hand, pick)?;
    let answer = called(rt, s, &cell, ptr, guard, draw);
    cell.keep(rt, hand);
    Some(answer)
}

/// A cell is free again.
fn closes<S: RawCells<u64>>(s: &mut S, hand: &mut Hand, pick: usize) -> Option<Answer>
    requires seated { IsSeated (S.caller s.old) }
    requires hand { IsHandOf (S.caller s.old) hand.old }
    ensures caller { S.caller s.new ≡ S.caller s.old }
    ensures hand { IsHandOf (S.caller s.old) hand.new }
{
    AtomicRaw::take(hand, pick)?.close(s);
    Some(Answer::Done)
}

/// The next of these calls.
pub fn call<S: RawCells<u64>>(
    rt: &impl Abort,
    s: &mut S,
    hand: &mut Hand,
    guard: &Option<Guard>,
    drawn: &mut Generator,
) -> Option<Answer>
    requires seated { IsSeated (S.caller s.old) }
    requires hand { IsHandOf (S.caller s.old) hand.old }
    requires reader { IfSome guard.now (λ g. reader_of g ≡ (S.caller s.old).reader) }
    ensures caller { S.caller s.new ≡ S.caller s.old }
    ensures hand { IsHandOf (S.caller s.old) hand.new }
{
    let call = drawn.below(5);
    let pick = drawn.below(1000) as usize;
    let draw = drawn.below(96);
    let ptr = pointer(&hand.out, pick, draw);
    match call {
        0 => keep_made(rt, hand, AtomicRaw::new(ptr, s)),
        1 => closes(s, hand, pick),
        _ => calls(rt, s, hand, guard.as_ref()?, ptr, pick, draw),
    }
}
