//! Examples over any space, and the worlds and domains that they are run in.
ghost use Rattle.std.specs.Prelude.{◌≡◌};
ghost use Rattle.sdd_space.specs.CallerId.{IsSeated};
ghost use Rattle.sdd_domain.specs.Space.{caller_of, slots_home};
ghost use Rattle.sdd_domain.specs.Domain.{slots_in};

use crate::cells::steps::accelerated;
use sdd_core::Limits;
use sdd_domain::{Domain, Local, Receipt};
use sdd_participants::{Idle, Tally};
use sdd_space::{Deferrals, Item, Space};
use sdd_world::{Place, World};
use std::marker::Model;
use std::process::Abort;

/// Enough of everything.
pub const AMPLE: Limits = Limits {
    participants: 8,
    slots: 64,
    cells: 64,
    jobs: 8,
    nesting: 8,
    tries: 1,
};

/// Of an opening: the epoch that its guard shows, how many items are reclaimed by then, and whether something may wait with the participant.
pub type Shown = (u8, u128, bool);

/// What one participant does in some space of numbers. It asserts what it is answered.
pub trait Example {
    fn run<R: Abort, S: Space<u64> + Deferrals<u64, Job = Idle>>(rt: &R, s: &mut S)
        requires seated { IsSeated (S.caller s.old) }
        ensures caller { S.caller s.new ≡ S.caller s.old };
}

/// A world, and the participant that makes the calls.
pub struct Setting<T: Item<T>> {
    pub world: World<T>,
    pub place: Place,
}

impl<T: Item<T>> Model for Setting<T> {
    ghost use Rattle.sdd_world_model.specs.World.{IsPlaceOf};
    ghost use Rattle.sdd_world.specs.Place.{index_of};

    ghost Value = { Unit {0} };

    ghost view = { λ _. tt };

    ghost invariant = { λ s. IsPlaceOf s.world (index_of s.place) };
}

impl<T: Item<T>> Setting<T> {
    /// A new world with one participant.
    pub fn new<R: Abort + AllocGlobal>(rt: &R, limits: Limits) -> Setting<T> {
        let mut world = World::new(rt.alloc(), limits).expect(rt, "the limits are in range");
        let place = world.register().expect(rt, "a place is free");
        Setting { world, place }
    }

    /// Opens, accelerates and closes a guard.
    fn accelerated(&mut self, rt: &impl Abort) -> (u8, bool) {
        accelerated(rt, &mut self.world.at(&self.place))
    }

    /// The participant's next accelerated guards show this.
    pub fn shows(&mut self, rt: &impl Abort, table: &[Shown]) {
        for (epoch, reclaimed, garbage) in table {
            assert_eq!(rt; self.accelerated(rt), (*epoch, *garbage));
            assert_eq!(rt;
                self.world.tally().reclaimed,
                *reclaimed,
                "at epoch {epoch}"
            );
        }
    }

    /// Ends the world, by which all that was made and not dropped in its place is reclaimed. So many were dropped.
    pub fn closed(self, rt: &impl Abort, in_place: u128) {
        let Setting { world, place: _ } = self;
        match world.close() {
            Ok(tally) => all_went(rt, tally, in_place),
            Err((_world, refused)) => panic!(rt; "{refused:?}"),
        }
    }
}

/// All that was made is reclaimed, but for so many items that were dropped in their place.
pub fn all_went(rt: &impl Abort, tally: Tally, in_place: u128) {
    let gone = tally.reclaimed.saturating_add(tally.in_place);
    assert_eq!(rt; (gone, tally.in_place), (tally.made, in_place));
}

impl Setting<u64> {
    /// The participant does this. Here a turn is taken for the whole of a space, which takes most of the time that the examples' proof takes.
    pub fn run<E: Example>(&mut self, rt: &impl Abort) {
        E::run(rt, &mut self.world.at(&self.place));
    }
}

/// A new domain.
pub fn new_domain<T: Item<T>>(rt: &(impl Abort + AllocGlobal), limits: Limits) -> Domain<T> {
    Domain::new(rt.alloc(), limits).expect(rt, "the limits are in range")
}

/// A participant of it.
pub fn registered<'d, T: Item<T>>(rt: &impl Abort, domain: &'d Domain<T>) -> Local<'d, T>
    ensures seated { IsSeated (caller_of result) }
    ensures home { slots_home result ≡ slots_in domain.now }
{
    Local::register(domain).expect(rt, "a place is free")
}

/// The participant's next accelerated guards show this.
pub fn local_shows<T: Item<T>>(rt: &impl Abort, local: &mut Local<'_, T>, table: &[Shown])
    requires seated { IsSeated (caller_of local.old) }
    ensures caller { caller_of local.new ≡ caller_of local.old }
{
    for (epoch, reclaimed, garbage) in table {
        assert_eq!(rt; accelerated(rt, local), (*epoch, *garbage));
        assert_eq!(rt; local.tally().reclaimed, *reclaimed, "at epoch {epoch}");
    }
}

/// Ends the participant.
pub fn ended<T: Item<T>>(rt: &impl Abort, local: Local<'_, T>) -> Receipt<T>
    ensures { result.home ≡ slots_home local.entry }
{
    match local.end() {
        Ok(receipt) => receipt,
        Err(_local) => panic!(rt; "a guard is open"),
    }
}

/// Closes the domain, whose one participant ended.
pub fn closed<T: Item<T>>(
    rt: &(impl Abort + AllocGlobal),
    domain: Domain<T>,
    receipt: Receipt<T>,
) -> Tally
    requires { receipt.home ≡ slots_in domain }
{
    let receipts = vec![in rt.alloc(); receipt].expect(rt, "there is memory");
    match domain.close(receipts) {
        Ok(tally) => tally,
        Err((_domain, _receipts, refused)) => panic!(rt; "{refused:?}"),
    }
}

/// A participant of a domain with these limits does this, and its guards show this afterwards.
pub fn in_a_domain<E: Example, R: Abort + AllocGlobal>(
    rt: &R,
    limits: Limits,
    table: &[Shown],
    in_place: u128,
) {
    let domain: Domain<u64> = new_domain(rt, limits);
    let mut local = registered(rt, &domain);
    E::run(rt, &mut local);
    local_shows(rt, &mut local, table);
    let receipt = ended(rt, local);
    all_went(rt, closed(rt, domain, receipt), in_place);
}

/// A participant of a world, the only one of a domain, and one of a domain that has a place more do this.
pub fn in_each_space<E: Example, R: Abort + AllocGlobal>(
    rt: &R,
    limits: Limits,
    table: &[Shown],
    in_place: u128,
) {
    let mut setting: Setting<u64> = Setting::new(rt, limits);
    setting.run::<E>(rt);
    setting.shows(rt, table);
    setting.closed(rt, in_place);
    for participants in 1..3u64 {
        let limits = Limits {
            participants,
            ..limits
        };
        in_a_domain::<E, R>(rt, limits, table, in_place);
    }
}
