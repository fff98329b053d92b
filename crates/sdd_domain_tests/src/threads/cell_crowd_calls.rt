//! The calls of each of many threads that share few cells. What a call may be refused with is all that is known, since others come between.
ghost use Rattle.std.specs.Prelude.{◌≡◌};
ghost use Rattle.sdd_space.specs.CallerId.{IsSeated};
ghost use Rattle.sdd_space.specs.Guard.{reader_of};
ghost use Rattle.sdd_space.specs.Owner.{IsOfSlots, cells_home};
ghost use Rattle.sdd_space.specs.Ptr.{PtrIsShown};
ghost use Rattle.sdd_space.specs.RawCell as raw_cell;
ghost use Rattle.sdd_domain_tests.specs.FewCells.{AreFewOf};

use crate::answers::tag_of;
use crate::drawn::generator::Generator;
use crate::few::FewCells;
use crate::owners::counted::Counted;
use crate::threads::crowd_calls::{Counts, is_taken};
use sdd_core::{Refused, Tag};
use sdd_space::{
    AtomicCell, AtomicOwned, AtomicRaw, AtomicShared, Cells, Guard, Guards, InPlaceItems, Items,
    Look, Owned, Owner, Ownership, Ptr, RawCells, RawPtr, Shared, SharedItems, SharedOwnership,
    Space, UniqueOwnership,
};
use std::process::Abort;
use std::sync::atomic::Ordering;

/// What a guard shows stays the same, whatever becomes of the cell.
pub fn shows_twice<S: Look<Counted>>(rt: &impl Abort, s: &S, ptr: Ptr<'_, Counted>) {
    let Some(seen) = ptr.as_ref(s) else {
        return;
    };
    let number = seen.number;
    match ptr.as_ref(s) {
        Some(again) => assert_eq!(rt; (again.number, seen.number), (number, number)),
        None => panic!(rt; "it was seen"),
    }
}

/// Something found no place.
pub fn is_refused(rt: &impl Abort, refused: Refused, wanted: Refused) {
    assert!(rt;
        refused == wanted || refused == Refused::Contended,
        "refused: {refused:?}"
    );
}

/// The owner of a new item, if a slot is free.
pub fn new_owner<K: Ownership, S: Items<Counted>>(
    rt: &impl Abort,
    s: &mut S,
    counts: &Counts,
    number: u64,
) -> Option<Owner<K, Counted>>
    requires seated { IsSeated (S.caller s.old) }
    ensures caller { S.caller s.new ≡ S.caller s.old }
    ensures home { IsOfSlots (S.caller s.old).home.slots result }
{
    match Owner::new(Counted::new(rt, number, &counts.drops), s) {
        Ok(owner) => Some(owner),
        Err((_value, refused)) => {
            is_refused(rt, refused, Refused::NoSlot);
            counts.refused.fetch_add(1, Ordering::SeqCst);
            None
        }
    }
}

/// How an owner of this kind goes.
pub trait Goes: Ownership + Sized {
    /// Takes the owner out of its place, if there is one, adds one to its number, where that isn't refused, and lets it go.
    fn change_and_go<R: Abort, S: Items<Counted> + InPlaceItems<Counted>>(
        rt: &R,
        s: &mut S,
        place: &mut Option<Owner<Self, Counted>>,
    )
        requires seated { IsSeated (S.caller s.old) }
        requires home { IsOfSlots (S.caller s.old).home.slots place.old }
        ensures { S.caller s.new ≡ S.caller s.old };
}

impl Goes for UniqueOwnership {
    fn change_and_go<R: Abort, S: Items<Counted> + InPlaceItems<Counted>>(
        rt: &R,
        s: &mut S,
        place: &mut Option<Owned<Counted>>,
    ) {
        let Some(mut owner) = place.take() else {
            return;
        };
        match owner.get_mut(|value| value.number = value.number.wrapping_add(1), s) {
            Ok(()) => {}
            Err((_add, refused)) => assert_eq!(rt; refused, Refused::GuardOpen),
        }
        owner.retire(s);
    }
}

impl Goes for SharedOwnership {
    fn change_and_go<R: Abort, S: Items<Counted> + InPlaceItems<Counted>>(
        rt: &R,
        s: &mut S,
        place: &mut Option<Shared<Counted>>,
    ) {
        let Some(mut owner) = place.take() else {
            return;
        };
        match owner.get_mut(|value| value.number = value.number.wrapping_add(1), s) {
            Ok(()) => {}
            Err((_add, refused)) => {
                assert!(rt; refused == Refused::NotAlone || refused == Refused::GuardOpen);
            }
        }
        let _ = owner.release(s);
    }
}

/// Changes what the owner has, if there is one, and lets it go.
fn changes<K: Goes, S: Items<Counted> + InPlaceItems<Counted>>(
    rt: &impl Abort,
    s: &mut S,
    mut owner: Option<Owner<K, Counted>>,
)
    requires seated { IsSeated (S.caller s.old) }
    requires home { IsOfSlots (S.caller s.old).home.slots owner }
    ensures { S.caller s.new ≡ S.caller s.old }
{
    K::change_and_go(rt, s, &mut owner);
    is_taken(rt, owner);
}

/// Looks twice at what a cell holds.
pub fn looks<K: Ownership, S: Look<Counted> + Guards<Counted> + Cells<Counted>>(
    rt: &impl Abort,
    s: &mut S,
    cell: &AtomicCell<K, Counted>,
)
    requires seated { IsSeated (S.caller s.old) }
    requires home { cells_home cell.now ≡ (S.caller s.old).home.cells }
    ensures { S.caller s.new ≡ S.caller s.old }
{
    let guard = Guard::new(s).expect(rt, "a guard may be opened");
    let ptr = cell.load(&guard, s);
    shows_twice(rt, s, ptr);
    let later = cell.load(&guard, s);
    shows_twice(rt, s, ptr);
    shows_twice(rt, s, later);
    guard.accelerate(s);
    guard.close(s);
}

/// A new item, or nothing where no slot is free, takes the place of what a cell held, which goes.
pub fn swaps<K: Goes, S: Items<Counted> + InPlaceItems<Counted> + Cells<Counted>>(
    rt: &impl Abort,
    s: &mut S,
    counts: &Counts,
    cell: &AtomicCell<K, Counted>,
    draw: u64,
)
    requires seated { IsSeated (S.caller s.old) }
    requires home { cells_home cell.now ≡ (S.caller s.old).home.cells }
    ensures { S.caller s.new ≡ S.caller s.old }
{
    let next = new_owner(rt, s, counts, draw);
    let (old, _tag) = cell.swap((next, tag_of(draw)), s);
    changes(rt, s, old);
}

/// The same where the cell still holds what was loaded. Whoever goes, the pointer shows what it showed.
fn exchanges<K: Goes, S: Space<Counted>>(
    rt: &impl Abort,
    s: &mut S,
    counts: &Counts,
    cell: &AtomicCell<K, Counted>,
    draw: u64,
)
    requires seated { IsSeated (S.caller s.old) }
    requires home { cells_home cell.now ≡ (S.caller s.old).home.cells }
    ensures { S.caller s.new ≡ S.caller s.old }
{
    let guard = Guard::new(s).expect(rt, "a guard may be opened");
    let ptr = cell.load(&guard, s);
    let next = new_owner(rt, s, counts, draw);
    match cell.compare_exchange(ptr, (next, tag_of(draw)), &guard, s) {
        Ok((old, now)) => {
            assert!(rt; old.is_none() == ptr.is_null());
            shows_twice(rt, s, now);
            changes(rt, s, old);
        }
        Err((back, now)) => {
            shows_twice(rt, s, now);
            changes(rt, s, back);
        }
    }
    shows_twice(rt, s, ptr);
    guard.accelerate(s);
    guard.close(s);
}

/// Another cell holds what this one does, for a while.
fn copies<S: Space<Counted>>(
    rt: &impl Abort,
    s: &mut S,
    cell: &AtomicShared<Counted>,
    comes_out: bool,
)
    requires seated { IsSeated (S.caller s.old) }
    requires home { cells_home cell.now ≡ (S.caller s.old).home.cells }
    ensures { S.caller s.new ≡ S.caller s.old }
{
    let guard = Guard::new(s).expect(rt, "a guard may be opened");
    let copied = cell.clone(&guard, s);
    guard.accelerate(s);
    guard.close(s);
    match copied {
        Ok(copy) => {
            looks(rt, s, &copy);
            if comes_out {
                let owner = copy.into_shared(s);
                changes(rt, s, owner);
            } else {
                copy.close(s);
            }
        }
        Err(refused) => is_refused(rt, refused, Refused::NoCell),
    }
}

/// One owner more of what a pointer names, if it is still owned.
pub fn shared_of<S: SharedItems<Counted>>(
    rt: &impl Abort,
    s: &mut S,
    ptr: Ptr<'_, Counted>,
) -> Option<Shared<Counted>>
    requires seated { IsSeated (S.caller s.old) }
    requires shown { S.asks_shown s.old → PtrIsShown (S.shows s.old) ptr }
    ensures caller { S.caller s.new ≡ S.caller s.old }
    ensures home { IsOfSlots (S.caller s.old).home.slots result }
{
    match ptr.get_shared(s) {
        Ok(owner) => owner,
        Err(refused) => {
            assert_eq!(rt; refused, Refused::Contended);
            None
        }
    }
}

/// The same by a call that gives the pointer back where there is none.
fn converted<S: SharedItems<Counted>>(
    rt: &impl Abort,
    s: &mut S,
    ptr: Ptr<'_, Counted>,
) -> Option<Shared<Counted>>
    requires seated { IsSeated (S.caller s.old) }
    requires shown { S.asks_shown s.old → PtrIsShown (S.shows s.old) ptr }
    ensures caller { S.caller s.new ≡ S.caller s.old }
    ensures home { IsOfSlots (S.caller s.old).home.slots result }
{
    match Shared::try_from_ptr(ptr, s) {
        Ok(owner) => Some(owner),
        Err((back, refused)) => {
            assert!(rt; back == ptr);
            assert!(rt; refused.is_none() || refused == Some(Refused::Contended));
            None
        }
    }
}

/// What an owner has is what a pointer shows, by which it came.
fn is_shown<S: Look<Counted> + Items<Counted>>(
    rt: &impl Abort,
    s: &S,
    ptr: Ptr<'_, Counted>,
    owner: &Option<Shared<Counted>>,
)
    requires seated { IsSeated (S.caller s.now) }
    requires home { IsOfSlots (S.caller s.now).home.slots owner.now }
{
    let Some(owner) = owner else {
        return;
    };
    match ptr.as_ref(s) {
        Some(seen) => assert_eq!(rt; owner.get(s).number, seen.number),
        None => panic!(rt; "it was seen"),
    }
}

/// An owner comes of what a cell holds, while others let go of it, by either of the two calls, and goes.
fn shares<S: Space<Counted>>(
    rt: &impl Abort,
    s: &mut S,
    cell: &AtomicShared<Counted>,
    converts: bool,
)
    requires seated { IsSeated (S.caller s.old) }
    requires home { cells_home cell.now ≡ (S.caller s.old).home.cells }
    ensures { S.caller s.new ≡ S.caller s.old }
{
    let guard = Guard::new(s).expect(rt, "a guard may be opened");
    let ptr = cell.load(&guard, s);
    let owner = if converts {
        converted(rt, s, ptr)
    } else {
        shared_of(rt, s, ptr)
    };
    is_shown(rt, s, ptr, &owner);
    shows_twice(rt, s, ptr);
    guard.accelerate(s);
    guard.close(s);
    changes(rt, s, owner);
}

/// The same by a call of the cell.
fn shares_held<S: Space<Counted>>(rt: &impl Abort, s: &mut S, cell: &AtomicShared<Counted>)
    requires seated { IsSeated (S.caller s.old) }
    requires home { cells_home cell.now ≡ (S.caller s.old).home.cells }
    ensures { S.caller s.new ≡ S.caller s.old }
{
    let guard = Guard::new(s).expect(rt, "a guard may be opened");
    let had = cell.get_shared(&guard, s);
    guard.accelerate(s);
    guard.close(s);
    match had {
        Ok(owner) => changes(rt, s, owner),
        Err(refused) => assert_eq!(rt; refused, Refused::Contended),
    }
}

/// What has an only owner can't be shared, whoever swaps it meanwhile.
fn shares_none<S: Look<Counted> + Guards<Counted> + SharedItems<Counted> + Cells<Counted>>(
    rt: &impl Abort,
    s: &mut S,
    cell: &AtomicOwned<Counted>,
)
    requires seated { IsSeated (S.caller s.old) }
    requires home { cells_home cell.now ≡ (S.caller s.old).home.cells }
    ensures { S.caller s.new ≡ S.caller s.old }
{
    let guard = Guard::new(s).expect(rt, "a guard may be opened");
    let ptr = cell.load(&guard, s);
    match ptr.get_shared(s) {
        Ok(None) => shows_twice(rt, s, ptr),
        Ok(Some(_owner)) => panic!(rt; "it has an only owner"),
        Err(refused) => panic!(rt; "refused: {refused:?}"),
    }
    guard.accelerate(s);
    guard.close(s);
}

/// The tag after this one, and the first one after the last.
fn tag_after(tag: Tag) -> Tag {
    tag_of(u64::from(u8::from(tag)).wrapping_add(1))
}

/// The tag of a cell goes on by one, which is counted.
fn turns_tag<S: Guards<Counted> + RawCells<Counted>>(
    rt: &impl Abort,
    s: &mut S,
    counts: &Counts,
    cell: &AtomicRaw<Counted>,
)
    requires seated { IsSeated (S.caller s.old) }
    requires home { raw_cell.cells_home cell.now ≡ (S.caller s.old).home.cells }
    ensures { S.caller s.new ≡ S.caller s.old }
{
    let guard = Guard::new(s).expect(rt, "a guard may be opened");
    let turn = |ptr: RawPtr<Counted>| Some(ptr.with_tag(tag_after(ptr.tag())));
    match cell.fetch_update(turn, &guard, s) {
        Ok(Ok(_before)) => {
            counts.turned.fetch_add(1, Ordering::SeqCst);
        }
        Ok(Err(_now)) => panic!(rt; "the closure makes one"),
        Err(refused) => assert_eq!(rt; refused, Refused::Contended),
    }
    guard.close(s);
}

/// Sets another tag where the condition holds.
fn tags<S: Cells<Counted>>(rt: &impl Abort, s: &mut S, cells: &FewCells<Counted>, draw: u64)
    requires seated { IsSeated (S.caller s.old) }
    requires cells { AreFewOf (S.caller s.old).home.cells cells.now }
    ensures { S.caller s.new ≡ S.caller s.old }
{
    let wanted = tag_of(draw / 4);
    if let Err(refused) = cells
        .first
        .update_tag_if(tag_of(draw), |ptr| ptr.tag() == wanted, s)
    {
        assert_eq!(rt; refused, Refused::Contended);
    }
    if let Err(refused) = cells
        .third
        .update_tag_if(tag_of(draw), |ptr| ptr.tag() != wanted, s)
    {
        assert_eq!(rt; refused, Refused::Contended);
    }
}

/// A cell of its own, which holds a new item, if one is free.
fn makes_own<S: Items<Counted> + Cells<Counted>>(rt: &impl Abort, s: &mut S, counts: &Counts)
    requires seated { IsSeated (S.caller s.old) }
    ensures { S.caller s.new ≡ S.caller s.old }
{
    match AtomicOwned::new(Counted::new(rt, 7, &counts.drops), s) {
        Ok(cell) => {
            assert!(rt; !cell.is_null(s));
            cell.close(s);
        }
        Err((_value, refused)) => {
            assert!(rt;
                refused == Refused::NoSlot
                    || refused == Refused::NoCell
                    || refused == Refused::Contended
            );
            counts.refused.fetch_add(1, Ordering::SeqCst);
        }
    }
}

/// One call, drawn.
fn draw<S: Space<Counted>>(
    rt: &impl Abort,
    s: &mut S,
    counts: &Counts,
    cells: &FewCells<Counted>,
    drawn: &mut Generator,
)
    requires seated { IsSeated (S.caller s.old) }
    requires cells { AreFewOf (S.caller s.old).home.cells cells.now }
    ensures { S.caller s.new ≡ S.caller s.old }
{
    let call = drawn.below(16);
    let draw = drawn.below(16);
    match call {
        0 => looks(rt, s, &cells.first),
        1 => looks(rt, s, &cells.third),
        2 => swaps(rt, s, counts, &cells.first, draw),
        3 => swaps(rt, s, counts, &cells.third, draw),
        4 => exchanges(rt, s, counts, &cells.second, draw),
        5 => exchanges(rt, s, counts, &cells.fourth, draw),
        6 => copies(rt, s, &cells.first, draw % 2 == 0),
        7 => copies(rt, s, &cells.second, draw % 2 == 0),
        8 => tags(rt, s, cells, draw),
        9 => shares(rt, s, &cells.first, false),
        10 => shares(rt, s, &cells.second, false),
        11 => shares_held(rt, s, &cells.first),
        12 => shares(rt, s, &cells.second, true),
        13 => shares_none(rt, s, &cells.third),
        14 => turns_tag(rt, s, counts, &cells.fifth),
        _ => makes_own(rt, s, counts),
    }
}

/// So many calls, drawn.
pub fn draws<S: Space<Counted>>(
    rt: &impl Abort,
    s: &mut S,
    counts: &Counts,
    cells: &FewCells<Counted>,
    drawn: &mut Generator,
    calls: u64,
)
    requires seated { IsSeated (S.caller s.old) }
    requires cells { AreFewOf (S.caller s.old).home.cells cells.now }
    ensures { S.caller s.new ≡ S.caller s.old }
{
    for _ in 0..calls {
        draw(rt, s, counts, cells, drawn);
    }
}
