//! The last close of a participant's guards.
ghost use Rattle.std.specs.Prelude.{◌≡◌, ◌+◌, ◌<◌, None};
ghost use Rattle.sdd_values.specs.declared.read_sections.SectionState.TheVariants.{Closed as is_closed};
ghost use Rattle.sdd_rights.specs.declared.views.View.{View};
ghost use Rattle.sdd_domain_invariant.specs.Slots.SlotSteps.{ClosesAll};
ghost use Rattle.sdd_domain_invariant.specs.Epoch.{IsOpen, Scans};
ghost use Rattle.sdd_atomics.specs.SeatAtTable.{sizes_of, gamma_of, places_of};
ghost use Rattle.sdd_domain_invariant.specs.Words as words;
ghost use Rattle.sdd_domain_invariant.specs.Fractions.FractionSteps.{unsighted};
ghost use Rattle.sdd_atomics.specs.DomainSeat.{view, epoch};
ghost use Rattle.sdd_domain_steps.specs.BetweenCalls.{CarriesSeenOnly, AreLentTo};
ghost use Rattle.sdd_domain_steps.specs.Scan.{ClosedAfterScan};

use crate::epoch::scan::{ScanEnd, scan};
use sdd_atomics::SeatAtTable;
use sdd_atomics::steps::epoch;
use sdd_atomics::steps::values::settle;
use sdd_rights::WHOLE;
use sdd_values::{ReadSection, SectionState, end_section};

/// Ends a section of the participant of a place, whose state is that word, by the one part of it that was out, and publishes that no guard is open: all
/// fractions that were lent to it go home.
pub fn close_last(
    seat: &mut SeatAtTable<'_>,
    place: usize,
    state: usize,
    section: &mut ReadSection,
    share: ReadSection,
)
    requires rests { (view seat.old).fractions.moves ≡ None }
    requires own { (place ≡ (epoch seat.old).place) × (place < places_of seat.old) }
    requires state { state ≡ words.state_word (sizes_of seat.old) place }
    requires open { IsOpen (epoch seat.old) × ¬ (Scans (epoch seat.old)) }
    requires carries { CarriesSeenOnly (gamma_of seat.old) (places_of seat.old) place (view seat.old).fractions.sees seat.old.me.1 }
    requires lent { AreLentTo section.old.lifetime seat.old.me.1 }
    requires reader { (share.home ≡ section.old.home) × (share.number ≡ section.old.number) }
    requires whole { section.old.units + share.units ≡ WHOLE }
    ensures home { (seat.new.table_id ≡ seat.old.table_id) × (seat.new.id ≡ seat.old.id) }
    ensures closed { (v : View) × ClosesAll (view seat.old) 1 v × (view seat.new ≡ unsighted v) }
    ensures carries { CarriesSeenOnly (gamma_of seat.old) (places_of seat.old) place (view seat.new).fractions.sees seat.new.me.1 }
    ensures lent { AreLentTo section.new.lifetime seat.new.me.1 }
    ensures reader { (section.new.home ≡ section.old.home) × (section.new.number ≡ section.old.number) }
    ensures whole { (section.new.units ≡ WHOLE) × (section.new.kind ≡ is_closed) }
{
    section.join(share);
    section.set(&SectionState::Closed, &());
    let ended = end_section(section);
    settle(seat, &ended);
    epoch::close(seat, state);
}

/// The same after a scan at this count. Tells how that ended.
// A function of its own, so that the close of a guard stays short enough to be compiled into its caller. It has both, so that where the state is is known
// before the scan frees the lock, and nothing is read for it between the two.
#[cold]
#[inline(never)]
pub fn scan_and_close(
    seat: &mut SeatAtTable<'_>,
    place: usize,
    state: usize,
    count: u64,
    section: &mut ReadSection,
    share: ReadSection,
) -> ScanEnd
    requires rests { (view seat.old).fractions.moves ≡ None }
    requires own { (place ≡ (epoch seat.old).place) × (place < places_of seat.old) }
    requires sized { (epoch seat.old).all ≡ places_of seat.old }
    requires state { state ≡ words.state_word (sizes_of seat.old) place }
    requires open { IsOpen (epoch seat.old) × ¬ (Scans (epoch seat.old)) }
    requires count { count ≡ (epoch seat.old).count }
    requires carries { CarriesSeenOnly (gamma_of seat.old) (places_of seat.old) place (view seat.old).fractions.sees seat.old.me.1 }
    requires lent { AreLentTo section.old.lifetime seat.old.me.1 }
    requires reader { (share.home ≡ section.old.home) × (share.number ≡ section.old.number) }
    requires whole { section.old.units + share.units ≡ WHOLE }
    ensures home { (seat.new.table_id ≡ seat.old.table_id) × (seat.new.id ≡ seat.old.id) }
    ensures closed { ClosedAfterScan result seat.old seat.new }
    ensures carries { CarriesSeenOnly (gamma_of seat.old) (places_of seat.old) place (view seat.new).fractions.sees seat.new.me.1 }
    ensures lent { AreLentTo section.new.lifetime seat.new.me.1 }
    ensures reader { (section.new.home ≡ section.old.home) × (section.new.number ≡ section.old.number) }
    ensures whole { (section.new.units ≡ WHOLE) × (section.new.kind ≡ is_closed) }
{
    let end = scan(seat, place, count);
    close_last(seat, place, state, section, share);
    end
}
