//! A scan of all places.
ghost use Rattle.std.specs.Prelude.{◌≡◌, ℕ, ◌<◌, true, false};
ghost use Rattle.sdd_domain_invariant.specs.Epoch.{IsOpen, IsLone, Scans};
ghost use Rattle.sdd_domain_invariant.specs.Epoch.EpochSteps.{IsNext, Locks, passed_by};
ghost use Rattle.sdd_domain_invariant.specs.Words.{state_word};
ghost use Rattle.sdd_atomics.specs.SeatAtTable.{sizes_of, places_of};
ghost use Rattle.sdd_atomics.specs.DomainSeat.{epoch, IsSameBut, Stepped};
ghost use Rattle.sdd_domain_steps.specs.Scan.{looked_to, Raises, Scanned, Tells};

use sdd_atomics::SeatAtTable;
use sdd_atomics::steps::epoch;

/// How a scan ended.
#[derive(Clone, Copy)]
pub enum ScanEnd {
    /// The count is raised by one.
    Raised,
    /// Another count was found than the one that is to be raised.
    Outdated,
    /// Another participant was found to scan.
    Locked,
    /// A place was found open with another count.
    Held,
    /// Another count was found when this one was to be raised.
    Overtaken,
    /// No count comes after this one.
    Last,
}

/// The next place has no guard open, or has published this count. The state of the first one is at that word.
fn passes(seat: &mut SeatAtTable<'_>, first: usize, place: usize, count: u64) -> bool
    requires first { first ≡ state_word (sizes_of seat.old) 0 }
    requires next { (place < places_of seat.old) × IsNext (epoch seat.old) place }
    requires count { count ≡ (epoch seat.old).count }
    ensures same { IsSameBut seat.old seat.new }
    ensures passed { result ≡ true → epoch seat.new ≡ passed_by (epoch seat.old) place }
    ensures failed { result ≡ false → epoch seat.new ≡ epoch seat.old }
{
    if epoch::look_at_state(seat, first, place) != epoch::OPEN {
        return true;
    }
    epoch::look_at_count(seat, first, place) == count
}

/// Every place but the own one passes.
fn all_pass(seat: &mut SeatAtTable<'_>, place: usize, count: u64) -> bool
    requires own { (place ≡ (epoch seat.old).place) × (place < places_of seat.old) }
    requires scans { Scans (epoch seat.old) × ((epoch seat.old).looked ≡ 0) }
    requires count { count ≡ (epoch seat.old).count }
    ensures same { IsSameBut seat.old seat.new }
    ensures lone { places_of seat.old ≡ 1 → result ≡ true }
    ensures looked { (k : ℕ) × (epoch seat.new ≡ looked_to (epoch seat.old) k) }
    ensures passed { result ≡ true → IsNext (epoch seat.new) (places_of seat.old) }
{
    let first = seat.first_state();
    for other in 0..seat.places() {
        if other != place && !passes(seat, first, other, count) {
            return false;
        }
    }
    true
}

/// Raises the count by one, if it is the own one still. The last count stays.
fn raise(seat: &mut SeatAtTable<'_>, count: u64) -> ScanEnd
    requires count { count ≡ (epoch seat.old).count }
    requires passed { IsNext (epoch seat.old) (places_of seat.old) }
    ensures same { IsSameBut seat.old seat.new }
    ensures raised { Raises result (epoch seat.old) (epoch seat.new) }
{
    if count == u64::MAX {
        return ScanEnd::Last;
    }
    if epoch::advance(seat, count) == count {
        ScanEnd::Raised
    } else {
        ScanEnd::Overtaken
    }
}

/// Tries to take the lock, where a look finds it free: an exchange would take its line from all others that look there, also where it fails.
/// Someone else had it where this isn't 0.
fn try_lock(seat: &mut SeatAtTable<'_>) -> u64
    requires open { IsOpen (epoch seat.old) × ¬ (Scans (epoch seat.old)) }
    ensures { Stepped Locks seat.old result seat.new }
{
    let found = epoch::look_at_lock(seat);
    if found != 0 {
        return found;
    }
    epoch::lock(seat)
}

/// Raises the count by one, if it is the own one, nobody else scans, and every other place passes. The last count stays. Tells how that ended.
#[inline]
pub(crate) fn scan(seat: &mut SeatAtTable<'_>, place: usize, count: u64) -> ScanEnd
    requires own { (place ≡ (epoch seat.old).place) × (place < places_of seat.old) }
    requires sized { (epoch seat.old).all ≡ places_of seat.old }
    requires open { IsOpen (epoch seat.old) × ¬ (Scans (epoch seat.old)) }
    requires count { count ≡ (epoch seat.old).count }
    ensures same { IsSameBut seat.old seat.new }
    ensures scanned { Scanned (epoch seat.old) (epoch seat.new) }
    ensures told { Tells result (IsLone (epoch seat.old)) (epoch seat.old).count (epoch seat.new).known }
{
    if epoch::read(seat) != count {
        return ScanEnd::Outdated;
    }
    if try_lock(seat) != 0 {
        return ScanEnd::Locked;
    }
    let end = if all_pass(seat, place, count) {
        raise(seat, count)
    } else {
        ScanEnd::Held
    };
    epoch::unlock(seat);
    end
}
