//! The atomic steps of the epoch, one function each.
ghost use Rattle.std.specs.Prelude.{◌≡◌, ◌+◌, ◌^◌, ◌<◌, [], None};
ghost use Rattle.sdd_domain_invariant.specs.Words as words;
ghost use Rattle.sdd_domain_invariant.specs.Epoch.{IsClosed, IsOpen, Scans};
ghost use Rattle.sdd_rights.specs.Views.{nobody};
ghost use Rattle.sdd_domain_invariant.specs.Epoch.EpochSteps.{IsNext, Registers, Reads, Counts, Locks, LooksAtLock, LooksAtState, LooksAtCount, Advances, Unlocks};
ghost use Rattle.sdd_domain_invariant.specs.WordInvariant.{idle};
ghost use Rattle.sdd_atomics.specs.DomainTable as of_table;
ghost use Rattle.sdd_atomics.specs.SeatAtTable.{sizes_of, gamma_of, places_of};
ghost use Rattle.sdd_domain_invariant.specs.Slots.SlotSteps.{blank};
ghost use Rattle.sdd_domain_invariant.specs.Epoch.Barred.{IsNobodys, Bars};
ghost use Rattle.sdd_domain_invariant.specs.Fractions.FractionSteps.{CarriesSeen, EndsAll};
ghost use Rattle.sdd_atomics.specs.DomainSeat.{view, epoch, words_known, Stepped, Taught, HasPublished, HasClosed, slots};

pub mod counts;

use crate::domain_table::DomainTable;
use crate::plays::{
    Advance, Bar, Close, End, Lock, LookAtCount, LookAtLock, LookAtState, NewSeat, Publish, Read,
    Register, Unlock, Write,
};
use crate::seat_at_table::SeatAtTable;
use crate::words::{GLOBAL, LOCK};

/// Nobody's place.
pub const FREE: u64 = 0;
/// A participant's, with no guard open.
pub const CLOSED: u64 = 1;
/// A participant's, with a guard open.
pub const OPEN: u64 = 2;
/// Its participant has ended.
pub const ENDED: u64 = 3;
/// Nobody's, and nobody takes part there any more.
pub const BARRED: u64 = 4;

/// A seat without a place.
pub fn sit(table: &DomainTable) -> SeatAtTable<'_>
    ensures { (result.table_id ≡ of_table.id_of table.now) × (result.me ≡ (idle (of_table.sizes_of table.now) (of_table.gamma_of table.now), [])) }
{
    let (_, seat) = table.atomic.shared.load_new_seat::<NewSeat>(GLOBAL);
    SeatAtTable { table, seat }
}

/// Tries to take a place, and answers its state before.
pub fn register(seat: &mut SeatAtTable<'_>, place: usize) -> u64
    requires inside { place < places_of seat.old }
    requires idle { (epoch seat.old ≡ nobody (places_of seat.old)) × (words_known seat.old ≡ blank (sizes_of seat.old)) }
    ensures { Stepped (Registers (sizes_of seat.old) (words.state_word (sizes_of seat.old) place)) seat.old result seat.new }
{
    let SeatAtTable { table, seat } = seat;
    table
        .atomic
        .shared
        .compare_exchange::<Register>(seat, table.state_word(place), FREE, CLOSED)
}

/// Reads the global count.
#[inline]
pub fn read(seat: &mut SeatAtTable<'_>) -> u64
    ensures { Stepped Reads seat.old result seat.new }
{
    let SeatAtTable { table, seat } = seat;
    table.atomic.shared.load::<Read>(seat, GLOBAL)
}

/// Writes the own count word, which stands behind that of the state, while no guard is open.
#[inline]
pub fn write(seat: &mut SeatAtTable<'_>, state: usize, count: u64)
    requires own { (state ≡ words.state_word (sizes_of seat.old) (epoch seat.old).place) × ((epoch seat.old).place < places_of seat.old) }
    requires closed { IsClosed (epoch seat.old) }
    ensures { Stepped Counts seat.old count seat.new }
{
    let SeatAtTable { table, seat } = seat;
    table.atomic.shared.store::<Write>(seat, state + 1, count);
}

/// Publishes, at the state of the own place, the count that stands in the own count word. Another one than before is a change for each item that waits.
#[inline]
pub fn publish(seat: &mut SeatAtTable<'_>, state: usize)
    requires own { (state ≡ words.state_word (sizes_of seat.old) (epoch seat.old).place) × ((epoch seat.old).place < places_of seat.old) }
    requires closed { IsClosed (epoch seat.old) }
    requires count { (epoch seat.old).count ≡ (epoch seat.old).known }
    ensures { HasPublished seat.old seat.new }
{
    let SeatAtTable { table, seat } = seat;
    table.atomic.shared.store::<Publish>(seat, state, OPEN);
}

/// Publishes, at the state of the own place, that no guard is open, so that none sees anything: all fractions go home.
#[inline]
pub fn close(seat: &mut SeatAtTable<'_>, state: usize)
    requires rests { (view seat.old).fractions.moves ≡ None }
    requires carries { CarriesSeen (gamma_of seat.old) (places_of seat.old) (epoch seat.old).place (view seat.old).fractions.sees seat.old.me.1 }
    requires own { (state ≡ words.state_word (sizes_of seat.old) (epoch seat.old).place) × ((epoch seat.old).place < places_of seat.old) }
    requires open { IsOpen (epoch seat.old) × ¬ (Scans (epoch seat.old)) }
    ensures { HasClosed seat.old seat.new }
{
    let SeatAtTable { table, seat } = seat;
    table.atomic.shared.store::<Close>(seat, state, CLOSED);
}

/// Ends the own place, whose state this is, which the seat counts from then on.
pub fn end(seat: &mut SeatAtTable<'_>, state: usize)
    requires rests { (view seat.old).fractions.moves ≡ None }
    requires own { (state ≡ words.state_word (sizes_of seat.old) (epoch seat.old).place) × ((epoch seat.old).place < places_of seat.old) }
    requires closed { IsClosed (epoch seat.old) }
    requires within { (slots seat.old).over ≡ None }
    ensures { Taught EndsAll seat.old 3 seat.new }
{
    let SeatAtTable { table, seat } = seat;
    table.atomic.shared.store::<End>(seat, state, ENDED);
}

/// Bars a place that is nobody's as long as it is in this state, by a seat without a place. Answers its state before: it is barred then where this is
/// that state, or `BARRED`.
pub fn bar(seat: &mut SeatAtTable<'_>, place: usize, state: u64) -> u64
    requires next { (place < places_of seat.old) × (place ≡ (view seat.old).places.ended) }
    requires nobodys { IsNobodys state }
    ensures { Taught (Bars (sizes_of seat.old) state (words.state_word (sizes_of seat.old) place)) seat.old result seat.new }
{
    let SeatAtTable { table, seat } = seat;
    table
        .atomic
        .shared
        .compare_exchange::<Bar>(seat, table.state_word(place), state, BARRED)
}

/// Tries to take the lock of a scan. Someone else had it where this isn't 0.
pub fn lock(seat: &mut SeatAtTable<'_>) -> u64
    requires open { IsOpen (epoch seat.old) × ¬ (Scans (epoch seat.old)) }
    ensures { Stepped Locks seat.old result seat.new }
{
    let SeatAtTable { table, seat } = seat;
    table
        .atomic
        .shared
        .compare_exchange::<Lock>(seat, LOCK, 0, 1)
}

/// Looks at the lock of a scan, which nobody writes by that. Someone else has it where this isn't 0.
pub fn look_at_lock(seat: &mut SeatAtTable<'_>) -> u64
    requires open { IsOpen (epoch seat.old) × ¬ (Scans (epoch seat.old)) }
    ensures { Stepped LooksAtLock seat.old result seat.new }
{
    let SeatAtTable { table, seat } = seat;
    table.atomic.shared.load::<LookAtLock>(seat, LOCK)
}

/// Looks at the state of the next place, by where that of the first one is.
pub fn look_at_state(seat: &mut SeatAtTable<'_>, first: usize, place: usize) -> u64
    requires first { first ≡ words.state_word (sizes_of seat.old) 0 }
    requires next { (place < places_of seat.old) × IsNext (epoch seat.old) place }
    ensures { Stepped (LooksAtState (sizes_of seat.old) (words.state_word (sizes_of seat.old) place)) seat.old result seat.new }
{
    let SeatAtTable { table, seat } = seat;
    table
        .atomic
        .shared
        .load::<LookAtState>(seat, table.state_from(first, place))
}

/// Looks at the count of the next place, by where the state of the first one is.
pub fn look_at_count(seat: &mut SeatAtTable<'_>, first: usize, place: usize) -> u64
    requires first { first ≡ words.state_word (sizes_of seat.old) 0 }
    requires next { (place < places_of seat.old) × IsNext (epoch seat.old) place }
    ensures { Stepped (LooksAtCount (sizes_of seat.old) (words.count_word (sizes_of seat.old) place)) seat.old result seat.new }
{
    let SeatAtTable { table, seat } = seat;
    table
        .atomic
        .shared
        .load::<LookAtCount>(seat, table.count_from(first, place))
}

/// Raises the global count, if it is the own one still, once all other places were looked at and passed.
pub fn advance(seat: &mut SeatAtTable<'_>, count: u64) -> u64
    requires count { (count ≡ (epoch seat.old).count) × (count + 1 < 2 ^ 64) }
    requires passed { IsNext (epoch seat.old) (places_of seat.old) }
    ensures { Stepped Advances seat.old result seat.new }
{
    let SeatAtTable { table, seat } = seat;
    table
        .atomic
        .shared
        .compare_exchange::<Advance>(seat, GLOBAL, count, count + 1)
}

/// Frees the lock.
pub fn unlock(seat: &mut SeatAtTable<'_>)
    requires scans { Scans (epoch seat.old) }
    ensures { Stepped Unlocks seat.old 0 seat.new }
{
    let SeatAtTable { table, seat } = seat;
    table.atomic.shared.store::<Unlock>(seat, LOCK, 0);
}
