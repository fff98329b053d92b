//! Entries of a type with a link of its own, by the calls of `LinkedList`.
ghost use Rattle.std.specs.Prelude.{◌≡◌};
ghost use Rattle.sdd_space.specs.CallerId.{IsSeated};
ghost use Rattle.sdd_space.specs.Guard.{reader_of};
ghost use Rattle.sdd_space.specs.Shared.{slots_home};
ghost use Rattle.sdd_world_tests.specs.Station.{link_home_of};

use crate::lists::example::{AMPLE, Setting};
use crate::lists::station::Station;
use sdd_lists::LinkedList;
use sdd_space::{AtomicShared, Cells, Guard, Guards, Items, Look, Shared, SharedItems};
use sdd_world::Turn;
use std::process::Abort;

/// The parts of a space that stations are used in.
pub trait Railway: Look<Station>
    + Guards<Station>
    + Items<Station>
    + SharedItems<Station>
    + Cells<Station> {}

impl Railway for Turn<'_, Station> {}

/// A station that is in no line.
fn station<S: Railway>(rt: &impl Abort, s: &mut S, number: u64) -> Station
    requires seated { IsSeated (S.caller s.old) }
    ensures caller { S.caller s.new ≡ S.caller s.old }
    ensures home { link_home_of result ≡ (S.caller s.new).home.cells }
{
    let next = AtomicShared::null(s).expect(rt, "a cell is free");
    Station { number, next }
}

/// An owner of such a station.
fn built<S: Railway>(rt: &impl Abort, s: &mut S, number: u64) -> Shared<Station>
    requires seated { IsSeated (S.caller s.old) }
    ensures caller { S.caller s.new ≡ S.caller s.old }
    ensures home { slots_home result ≡ (S.caller s.new).home.slots }
{
    let station = station(rt, s, number);
    match Shared::new(station, s) {
        Ok(owner) => owner,
        Err((_station, refused)) => panic!(rt; "{refused:?}"),
    }
}

/// Ends a line: what its link holds is given up.
fn torn_down<S: Railway>(s: &mut S, head: Station)
    requires seated { IsSeated (S.caller s.old) }
    requires home { link_home_of head ≡ (S.caller s.old).home.cells }
    ensures caller { S.caller s.new ≡ S.caller s.old }
{
    let Station { number: _, next } = head;
    next.close(s);
}

/// Whether a station is clear, marked and deleted.
fn shown<S: Railway>(s: &mut S, station: &Station) -> (bool, bool, bool)
    requires seated { IsSeated (S.caller s.old) }
    requires home { link_home_of station.now ≡ (S.caller s.old).home.cells }
    ensures caller { S.caller s.new ≡ S.caller s.old }
{
    (
        station.is_clear(s),
        station.is_marked(s),
        station.is_deleted(s),
    )
}

/// Marks a station, takes the mark away and deletes it, and tells whether each changed it.
fn changed<S: Railway>(rt: &impl Abort, s: &mut S, station: &Station) -> (bool, bool, bool)
    requires seated { IsSeated (S.caller s.old) }
    requires home { link_home_of station.now ≡ (S.caller s.old).home.cells }
    ensures caller { S.caller s.new ≡ S.caller s.old }
{
    let marked = station.mark(s).expect(rt, "nobody else changes it");
    let unmarked = station.unmark(s).expect(rt, "nobody else changes it");
    let deleted = station.delete_self(s).expect(rt, "nobody else changes it");
    (marked, unmarked, deleted)
}

/// Links a new station behind another one, and tells the number of the one that is next then, by a pointer and by an owner.
fn extended<S: Railway>(
    rt: &impl Abort,
    s: &mut S,
    station: &Station,
    number: u64,
    guard: &Guard,
) -> (Option<u64>, Option<u64>)
    requires seated { IsSeated (S.caller s.old) }
    requires home { link_home_of station.now ≡ (S.caller s.old).home.cells }
    requires reader { reader_of guard.now ≡ (S.caller s.old).reader }
    ensures caller { S.caller s.new ≡ S.caller s.old }
{
    let owner = built(rt, s, number);
    match station.push_back(owner, true, guard, s) {
        Ok(_) => {}
        Err((_owner, _)) => panic!(rt; "the station isn't deleted"),
    }
    (
        next_number(rt, s, station, guard),
        next_owned(rt, s, station, guard),
    )
}

/// The number of the next station.
fn next_number<S: Railway>(
    rt: &impl Abort,
    s: &mut S,
    station: &Station,
    guard: &Guard,
) -> Option<u64>
    requires seated { IsSeated (S.caller s.old) }
    requires home { link_home_of station.now ≡ (S.caller s.old).home.cells }
    requires reader { reader_of guard.now ≡ (S.caller s.old).reader }
    ensures caller { S.caller s.new ≡ S.caller s.old }
{
    match station.next_ptr(guard, s) {
        Ok(next) => match next.as_ref(&*s) {
            Some(next) => Some(next.number),
            None => None,
        },
        Err(refused) => panic!(rt; "{refused:?}"),
    }
}

/// The same by an owner.
fn next_owned<S: Railway>(
    rt: &impl Abort,
    s: &mut S,
    station: &Station,
    guard: &Guard,
) -> Option<u64>
    requires seated { IsSeated (S.caller s.old) }
    requires home { link_home_of station.now ≡ (S.caller s.old).home.cells }
    requires reader { reader_of guard.now ≡ (S.caller s.old).reader }
    ensures caller { S.caller s.new ≡ S.caller s.old }
{
    match station.next_shared(guard, s) {
        Ok(Some(owner)) => {
            let number = owner.get(&*s).number;
            let _ = owner.release(s);
            Some(number)
        }
        Ok(None) => None,
        Err(refused) => panic!(rt; "{refused:?}"),
    }
}

/// A line of three stations, the first of which is in no slot.
fn runs<S: Railway>(rt: &impl Abort, s: &mut S)
    requires seated { IsSeated (S.caller s.old) }
    ensures caller { S.caller s.new ≡ S.caller s.old }
{
    let guard = Guard::new(s).expect(rt, "a guard may be opened");
    let head = station(rt, s, 0);
    assert!(rt; head.link_ref().is_null(s));
    assert!(rt; shown(s, &head) == (true, false, false));
    assert!(rt; extended(rt, s, &head, 2, &guard) == (Some(2), Some(2)));
    assert!(rt; extended(rt, s, &head, 1, &guard) == (Some(1), Some(1)));
    assert!(rt; shown(s, &head) == (false, true, false));
    assert!(rt; changed(rt, s, &head) == (false, true, true));
    assert!(rt; shown(s, &head) == (false, false, true));
    torn_down(s, head);
    guard.close(s);
}

#[test]
fn a_type_of_its_own_is_linked(rt: HostRuntime) {
    let mut setting: Setting<Station> = Setting::new(&rt, AMPLE);
    runs(&rt, &mut setting.world.at(&setting.place));
    setting.closed(&rt, 2);
}
