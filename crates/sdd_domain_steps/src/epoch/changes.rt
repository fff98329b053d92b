//! An outermost opening: the count is published, and where that is a change what is due comes out of the bags.
ghost use Rattle.std.specs.Prelude.{◌≡◌, ◌≤◌, ℕ, [], true, false};
ghost use Rattle.sdd_participants.specs.EpochState.{nested};
ghost use Rattle.sdd_participants.specs.EpochState as time;
ghost use Rattle.sdd_domain_steps.specs.WaitingItems.{due_at, Arrives, HasArrived};
ghost use Rattle.sdd_atomics.specs.SeatAtTable.{sizes_of, facts_at};
ghost use Rattle.sdd_domain_invariant.specs.Words as words;
ghost use Rattle.sdd_domain_steps.specs.BetweenCalls.{IsBetweenCalls};

use crate::epoch::due_items::DueItems;
use sdd_atomics::SeatAtTable;
use sdd_atomics::steps::epoch;
use sdd_participants::{NO_GARBAGE, Participant};

/// Another count was found: what waits has seen one change more, and what has seen three then is due. Where nothing waited that is all, and it is false.
#[inline]
fn change(own: &mut Participant, due: &mut DueItems, count: u64) -> bool
    requires none { due.old.items ≡ [] }
    requires room { own.old.bags.room ≤ due.old.room }
    ensures own { result ≡ true → own.new ≡ time.rotated count own.old }
    ensures idle { result ≡ false → (own.old.bags.waiting ≡ []) × (own.new ≡ time.settled (time.rotated count own.old)) }
    ensures due { due.new.items ≡ time.due_next own.old }
    ensures room { own.old.bags.room ≤ due.new.room }
{
    own.found = count;
    if own.bags.is_empty() {
        own.countdown = NO_GARBAGE;
        return false;
    }
    due.rotate(&mut own.bags);
    true
}

/// Reads the count, writes it where it isn't there already, and then publishes it. Where this is true, the count was another one than was found last,
/// and something waited: what is due then is to be reclaimed.
#[inline]
pub fn arrive(
    seat: &mut SeatAtTable<'_>,
    place: usize,
    state: usize,
    own: &mut Participant,
    due: &mut DueItems,
) -> bool
    requires between_calls { IsBetweenCalls (facts_at seat.old) place own.old seat.old }
    requires state { state ≡ words.state_word (sizes_of seat.old) place }
    requires closed { own.old.guards ≡ 0 }
    requires none { due.old.items ≡ [] }
    requires room { own.old.bags.room ≤ due.old.room }
    ensures between_calls { IsBetweenCalls (facts_at seat.old) place (nested own.new) seat.new }
    ensures arrived { (count : ℕ) × Arrives count own.old seat.old seat.new × HasArrived count result own.old own.new
        × (due.new.items ≡ due_at count own.old) }
    ensures room { own.old.bags.room ≤ due.new.room }
{
    let count = epoch::read(seat);
    if count == own.found {
        epoch::publish(seat, state);
        return false;
    }
    epoch::write(seat, state, count);
    epoch::publish(seat, state);
    change(own, due, count)
}
