//! The last fraction in a slot, all of whose fractions a seat has: what goes to the bank and with the owner is cut off it, and comes back to it.
ghost use Rattle.std.specs.Prelude.{◌≡◌, ◌-◌, ◌<◌};
ghost use base.Stored.{Gv};
ghost use Rattle.sdd_shared_values.specs.SharedValues.{content};
ghost use Rattle.sdd_domain_invariant.specs.Fractions.FractionsAtHome.{CarriedFractions, fraction_at, spare};
ghost use Rattle.sdd_domain_invariant.specs.Fractions.FractionSteps.{CarriesAll, IsValue};
ghost use Rattle.sdd_atomics.specs.DomainTable as of_table;
ghost use Rattle.sdd_atomics.specs.SeatAtTable.{gamma_of, places_of, slots_of};
ghost use Rattle.sdd_atomics.specs.ReadFractions.{IsReadFractionOf, IsUnitOf};
ghost use Rattle.sdd_atomics.specs.DomainSeat.{view};

use crate::domain_table::DomainTable;
use crate::seat_at_table::SeatAtTable;
use sdd_rights::{ReadFraction, WHOLE};
use sdd_shared_values::ValueFraction;

impl DomainTable {
    /// Where the last fraction in a slot is at home.
    #[inline]
    fn last_home(&self, slot: u32) -> usize
        requires { slot < of_table.slots_of self.now }
        ensures { result ≡ fraction_at (of_table.places_of self.now) slot (of_table.places_of self.now) }
    {
        slot as usize * (self.places() + 1) + self.places()
    }

    /// How many units of a value's place are neither its own nor in the fractions at home.
    #[inline]
    fn spare(&self) -> u64
        ensures { result ≡ spare (of_table.places_of self.now) }
    {
        WHOLE - 2 - self.places() as u64
    }
}

/// Cuts all units but one off the last fraction in a slot, all of whose fractions the seat took last: one goes with the slot's owner, the rest to the bank.
#[inline]
pub fn cut_rest(seat: &mut SeatAtTable<'_>, slot: u32) -> (ReadFraction, ValueFraction)
    requires inside { slot < slots_of seat.old }
    requires row { (value : Gv) × (others : CarriedFractions)
        × CarriesAll (gamma_of seat.old) slot (places_of seat.old) 0 (IsValue value) others seat.old.me.1 }
    ensures seat { (seat.new.table_id ≡ seat.old.table_id) × (seat.new.id ≡ seat.old.id) × (view seat.new ≡ view seat.old) }
    ensures row { (value : Gv) (others : CarriedFractions) → CarriesAll (gamma_of seat.old) slot (places_of seat.old) 0 (IsValue value) others seat.old.me.1
        → CarriesAll (gamma_of seat.old) slot (places_of seat.old) (spare (places_of seat.old)) (IsValue value) others seat.new.me.1
        × IsReadFractionOf (gamma_of seat.old) slot value result.0 × (result.1.content.shown ≡ value) }
    ensures rest { result.1.content ≡ content (gamma_of seat.old) slot result.1.content.lifetime result.1.content.shown (spare (places_of seat.old) - 1) }
{
    let SeatAtTable { table, seat } = seat;
    let home = table.last_home(slot);
    let last = seat.slot_mut(&table.atomic.shared, home);
    let mut rest = last.split(table.spare());
    let read_fraction = rest.split(1).into_read_fraction();
    (read_fraction, rest)
}

/// All units but those at home come back to the last fraction in a slot, all of whose fractions the seat took last.
#[inline]
pub fn join_rest(seat: &mut SeatAtTable<'_>, slot: u32, rest: ValueFraction)
    requires inside { slot < slots_of seat.old }
    requires rest { rest.content ≡ content (gamma_of seat.old) slot rest.content.lifetime rest.content.shown (spare (places_of seat.old)) }
    requires row { (value : Gv) × (others : CarriedFractions)
        × CarriesAll (gamma_of seat.old) slot (places_of seat.old) (spare (places_of seat.old)) (IsValue value) others seat.old.me.1 }
    ensures seat { (seat.new.table_id ≡ seat.old.table_id) × (seat.new.id ≡ seat.old.id) × (view seat.new ≡ view seat.old) }
    ensures row { (value : Gv) (others : CarriedFractions)
        → CarriesAll (gamma_of seat.old) slot (places_of seat.old) (spare (places_of seat.old)) (IsValue value) others seat.old.me.1
        → CarriesAll (gamma_of seat.old) slot (places_of seat.old) 0 (IsValue value) others seat.new.me.1 }
{
    let SeatAtTable { table, seat } = seat;
    let home = table.last_home(slot);
    let last = seat.slot_mut(&table.atomic.shared, home);
    last.join(rest);
}

/// An owner's unit, as a fraction.
#[inline]
pub fn unit_of(seat: &SeatAtTable<'_>, slot: u32, read_fraction: ReadFraction) -> ValueFraction
    requires { IsUnitOf (gamma_of seat.now) slot read_fraction }
    ensures unit { result.content ≡ content (gamma_of seat.now) slot result.content.lifetime result.content.shown 1 }
    ensures shown { result.content.shown ≡ read_fraction.shown }
{
    let _ = seat;
    let _ = slot;
    ValueFraction::of_read_fraction(read_fraction)
}
