//! The only participant of a domain is answered as a participant of a world is: one function does for both.
ghost use Rattle.std.specs.Prelude.{◌≡◌, ◌⊎◌, ◌+◌, ◌^◌, ◌<◌, ◌≤◌, ℕ, Contains, IfOk, IsSome, MatchResult, None, Some, length};
ghost use Rattle.sdd_participants.specs.EpochState.{CanNest};
ghost use Rattle.sdd_participants.specs.Slab.{IsEmptyAt, IsFull, entry_at};
ghost use Rattle.sdd_participants.specs.declared.waiting.LimboEntry.{LimboEntry};
ghost use Rattle.sdd_participants.specs.declared.waiting.LimboEntry.TheVariants as entry;
ghost use Rattle.sdd_world_model.specs.AcceleratedGuards.{HavePassed};
ghost use Rattle.sdd_space.specs.Guard.{reader_of};
ghost use Rattle.sdd_space.specs.Owned.{slot_of, slots_home};
ghost use Rattle.sdd_world_model.specs.ReclaimBound.{WaitsWith, IsCleared, accelerated_guard, four_guards};
ghost use Rattle.sdd_world_model.specs.WorkingGuards.{WorkingGuardsReclaim};
ghost use Rattle.sdd_space.specs.CallerId.{IsSeated, IsExact};
ghost use Rattle.sdd_world_model.specs.WorldChanges.{made, opened, retired, deferred, reclaims};
ghost use Rattle.sdd_world_model.specs.World.{World, IsPlaceOf, value_at};
ghost use Rattle.sdd_world_model.specs.WorldInvariant.{taken, times_deferred};
ghost use Rattle.sdd_world.specs.Place.{index_of};
ghost use Rattle.sdd_domain.specs.Domain.{limits_of};
ghost use Rattle.sdd_domain.specs.Local.{world_of, IsLone};
ghost use Rattle.sdd_domain.specs.Space.{caller_of};

use crate::guards::accelerated;
use crate::items::raw_and_back;
use sdd_core::Refused;
use sdd_domain::{Domain, Local};
use sdd_participants::Job;
use sdd_space::{Guard, Item, Items, Owned};
use sdd_world::{Place, World};

/// Makes an item and retires it: it waits with the participant.
///
/// `NoSlot` where no slot is free; the value comes back.
pub fn made_and_retired<S: Items<u64>>(value: u64, s: &mut S) -> Result<(), (u64, Refused)>
    requires seated { IsSeated (S.caller s.old) }
    ensures caller { S.caller s.new ≡ S.caller s.old }
    ensures exact { IsExact (S.caller s.old) → MatchResult result
        (λ _. (slot : ℕ) × IsEmptyAt (S.world s.old).standings slot × (S.world s.new ≡ retired (made (S.world s.old) slot value) (S.caller s.old).place slot))
        (λ e. IsFull (S.world s.old).standings × (e ≡ (value, Refused.NoSlot)) × (S.world s.new ≡ S.world s.old)) }
{
    let owner = Owned::new(value, s)?;
    owner.retire(s);
    Ok(())
}

/// The same by a participant of a world.
pub fn in_a_world(value: u64, world: &mut World<u64>, place: &Place) -> Result<(), (u64, Refused)>
    requires { IsPlaceOf world.old (index_of place.now) }
    ensures { MatchResult result
        (λ _. (slot : ℕ) × IsEmptyAt world.old.standings slot × (world.new ≡ retired (made world.old slot value) (index_of place.now) slot))
        (λ e. IsFull world.old.standings × (e ≡ (value, Refused.NoSlot)) × (world.new ≡ world.old)) }
{
    made_and_retired(value, &mut world.at(place))
}

/// The same by the only participant of a domain.
pub fn in_a_domain(value: u64, local: &mut Local<'_, u64>) -> Result<(), (u64, Refused)>
    requires seated { IsSeated (caller_of local.old) }
    requires lone { IsLone local.old.member }
    ensures caller { caller_of local.new ≡ caller_of local.old }
    ensures exact { MatchResult result
        (λ _. (slot : ℕ) × IsEmptyAt (world_of local.old).standings slot ×
        (world_of local.new ≡ retired (made (world_of local.old) slot value) local.old.member.place slot))
        (λ e. IsFull (world_of local.old).standings × (e ≡ (value, Refused.NoSlot)) × (world_of local.new ≡ world_of local.old)) }
{
    made_and_retired(value, local)
}

/// Registers the only participant of a domain, which makes the first item, looks at it and retires it: answers what it saw.
///
/// `NoPlace` or `NoMemory` where the participant can't register, and nothing else: a guard may be opened, and a slot is free.
pub fn first_item(domain: &Domain<u64>) -> Result<u64, Refused>
    requires lone { (limits_of domain.now).participants ≡ 1 }
    requires nesting { 0 < (limits_of domain.now).nesting }
    requires slots { 0 < (limits_of domain.now).slots }
    ensures { MatchResult result (λ seen. seen ≡ 7) (λ e. (e ≡ Refused.NoPlace) ⊎ (e ≡ Refused.NoMemory)) }
{
    let mut local = Local::register(domain)?;
    let Ok(owner) = Owned::new(7, &mut local) else {
        unreachable!()
    };
    let Ok(guard) = Guard::new(&mut local) else {
        unreachable!()
    };
    let seen = *owner.get_guarded_ref(&guard, &mut local);
    owner.retire(&mut local);
    guard.close(&mut local);
    match local.end() {
        Ok(_receipt) => Ok(seen),
        Err(_) => unreachable!(),
    }
}

/// Four accelerated guards of the only participant of a domain, one after another: what waited is reclaimed, and jobs that waited ran.
pub fn four_guards<T: Item<T>>(local: &mut Local<'_, T>)
    requires seated { IsSeated (caller_of local.old) }
    requires lone { IsLone local.old.member }
    requires shut { local.old.member.own.guards ≡ 0 }
    requires nesting { 0 < local.old.member.limits.nesting }
    requires early { local.old.member.known + 4 ≤ 2 ^ 64 }
    ensures passed { world_of local.new ≡ four_guards T.holds (world_of local.old) local.old.member.place }
    ensures reclaimed { (what : LimboEntry) (seen : ℕ) → WaitsWith (world_of local.old) local.old.member.place what seen → IsCleared (world_of local.new) what }
{
    local.is_whole();
    local.four_guards_reclaim();
    goes_on(local);
    goes_on(local);
    goes_on(local);
    goes_on(local);
}

/// An accelerated guard of the only participant of a domain, which has none open.
fn goes_on<T: Item<T>>(local: &mut Local<'_, T>)
    requires seated { IsSeated (caller_of local.old) }
    requires lone { IsLone local.old.member }
    requires shut { local.old.member.own.guards ≡ 0 }
    requires nesting { 0 < local.old.member.limits.nesting }
    ensures caller { caller_of local.new ≡ caller_of local.old }
    ensures shut { local.new.member.own.guards ≡ 0 }
    ensures passed { world_of local.new ≡ accelerated_guard T.holds (world_of local.old) local.old.member.place }
{
    local.is_whole();
    local.accelerated_guards_pass();
    accelerated::<T, Local<'_, T>>(local);
    local.is_whole();
}

/// What waits with the only participant of a domain has gone after four openings of its guards, whatever it does under them, where each is accelerated.
pub fn goes_under_work<T: Item<T>>(local: &Local<'_, T>)
    requires lone { IsLone local.now.member }
    ensures { WorkingGuardsReclaim T.holds (world_of local.now) }
{
    local.working_guards_reclaim();
}

/// The only participant of a domain makes a number and retires it, where a slot is free: it waits, and as much is out as was.
pub fn number_passes(local: &mut Local<'_, u64>)
    requires seated { IsSeated (caller_of local.old) }
    requires lone { IsLone local.old.member }
    requires room { taken (world_of local.old) < length (world_of local.old).standings }
    requires few { (world_of local.old).tally.made + 1 < 2 ^ 128 }
    ensures caller { caller_of local.new ≡ caller_of local.old }
    ensures passed { HavePassed 1 (world_of local.old) (world_of local.new) }
{
    local.is_whole();
    local.items_pass();
    local.counts_what_is_out();
    let Ok(()) = in_a_domain(7, local) else {
        unreachable!()
    };
}

/// An item of the only participant of a domain goes out as raw and comes back: answers what is read then, which is what was in its slot.
pub fn out_and_back(owner: Owned<u64>, local: &mut Local<'_, u64>) -> (Owned<u64>, u64)
    requires seated { IsSeated (caller_of local.old) }
    requires lone { IsLone local.old.member }
    requires home { slots_home owner ≡ (caller_of local.old).home.slots }
    ensures caller { caller_of local.new ≡ caller_of local.old }
    ensures home { slots_home result.0 ≡ (caller_of local.new).home.slots }
    ensures same { slot_of result.0 ≡ slot_of owner }
    ensures read { value_at (world_of local.old) (slot_of owner) ≡ Some result.1 }
    ensures world { world_of local.new ≡ world_of local.old }
{
    raw_and_back(owner, local)
}

/// A job that the only participant of a domain defers under a guard waits once, in a place that was free.
///
/// `NoJob` where no place is free; the job comes back.
pub fn waits_once<T: Item<T>, J: Job>(
    job: J,
    guard: &Guard,
    local: &mut Local<'_, T, J>,
) -> Result<(), (J, Refused)>
    requires seated { IsSeated (caller_of local.old) }
    requires lone { IsLone local.old.member }
    requires reader { reader_of guard.now ≡ (caller_of local.old).reader }
    ensures caller { caller_of local.new ≡ caller_of local.old }
    ensures once { MatchResult result
        (λ _. (place : ℕ) × IsEmptyAt (world_of local.old).jobs place × (times_deferred (world_of local.new) place ≡ 1) ×
        (world_of local.new ≡ deferred (world_of local.old) local.old.member.place place))
        (λ e. IsFull (world_of local.old).jobs × (e ≡ (job, Refused.NoJob)) × (world_of local.new ≡ world_of local.old)) }
{
    let answer = guard.defer_execute(job, local);
    local.runs_jobs_once();
    answer
}

/// Opens a guard of the only participant of a domain: the place of each job that is due was taken, and is free then; every other is as before.
///
/// `TooManyGuards` where as many are open as may nest.
pub fn frees_what_is_due<T: Item<T>, J: Job>(local: &mut Local<'_, T, J>) -> Result<Guard, Refused>
    requires seated { IsSeated (caller_of local.old) }
    requires lone { IsLone local.old.member }
    ensures caller { caller_of local.new ≡ caller_of local.old }
    ensures reader { IfOk result (λ guard. reader_of guard ≡ (caller_of local.old).reader) }
    ensures freed { IfOk result (λ _. (place : ℕ) → Contains (reclaims (world_of local.old) local.old.member.place) (entry.Job place) →
        IsSome (entry_at (world_of local.old).jobs place) × (entry_at (world_of local.new).jobs place ≡ None)) }
    ensures kept { IfOk result (λ _. (place : ℕ) → ¬ (Contains (reclaims (world_of local.old) local.old.member.place) (entry.Job place)) →
        entry_at (world_of local.new).jobs place ≡ entry_at (world_of local.old).jobs place) }
    ensures exact { MatchResult result
        (λ _. CanNest (world_of local.old).time local.old.member.place × (world_of local.new ≡ opened T.holds (world_of local.old) local.old.member.place))
        (λ e. (e ≡ Refused.TooManyGuards) × ¬ (CanNest (world_of local.old).time local.old.member.place) × (world_of local.new ≡ world_of local.old)) }
{
    local.is_whole();
    local.runs_jobs_once();
    Guard::new(local)
}
