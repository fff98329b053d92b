//! The item of an owner goes out as raw, and comes back to one.
ghost use Rattle.std.specs.Prelude.{◌≡◌, ◌<◌, ◌∷◌, [], None, false, MatchOption};
ghost use base.Stored.{Gv};
ghost use Rattle.sdd_domain_invariant.specs.Codes.{raw_word};
ghost use Rattle.sdd_domain_invariant.specs.Epoch.{IsLone};
ghost use Rattle.sdd_domain_invariant.specs.Slots.{Holds};
ghost use Rattle.sdd_domain_invariant.specs.Slots.FilledInvariant.{HasRecord};
ghost use Rattle.sdd_domain_invariant.specs.Slots.Records.{IsIn};
ghost use Rattle.sdd_rights.specs.Owner.{witness_of_owner};
ghost use Rattle.sdd_atomics.specs.SeatAtTable.{id_of, gamma_of, slots_of, IsReady};
ghost use Rattle.sdd_atomics.specs.DomainSeat.{view, epoch, slots, Moved};
ghost use Rattle.sdd_atomics.specs.ReadFractions.{IsReadFractionOf, IsUnitOf};
ghost use Rattle.sdd_domain_steps.specs.Claims.{IsUnmoved};
ghost use Rattle.sdd_domain_steps.specs.RawItems.{IsKnownOut, PutsOut, TakesBack};

use sdd_atomics::SeatAtTable;
use sdd_atomics::read_fractions::unit_of;
use sdd_atomics::steps::raw::{RAW, regain, turn_raw};
use sdd_atomics::steps::slots::{cut, draw_unit, enter_unit};
use sdd_rights::ReadFraction;
use sdd_witness::Witness;

/// Puts the item of an owner out as raw that was taken in, and whose unit goes to the bank.
#[inline]
pub fn put_out(seat: &mut SeatAtTable<'_>, slot: u32, read_fraction: ReadFraction)
    requires inside { slot < slots_of seat.old }
    requires ready { IsReady seat.old }
    requires own { ((slots seat.old).owns ≡ slot ∷ []) × ¬ (Holds (view seat.old) slot) × ((slots seat.old).drawn ≡ slot ∷ []) }
    requires told { (value : Gv) × HasRecord (view seat.old).fractions.owns (record { slot = slot; shared = false; value = value }) }
    requires unit { IsUnitOf (gamma_of seat.old) slot read_fraction }
    requires shows { IsIn (view seat.old).fractions.owns slot read_fraction.shown }
    ensures { Moved (PutsOut slot) seat.old (raw_word 0) seat.new }
{
    let unit = unit_of(seat, slot, read_fraction);
    enter_unit(seat, slot, unit);
    turn_raw(seat, slot);
}

/// Takes an item back that is out as raw, by one exchange: its owner is a seat of its own then, which shows the value, with a unit of the place's number.
#[inline]
pub fn take_back(seat: &mut SeatAtTable<'_>, slot: u32) -> Option<(Witness, ReadFraction)>
    requires inside { slot < slots_of seat.old }
    requires ready { IsReady seat.old }
    requires quiet { ((slots seat.old).owns ≡ []) × ((slots seat.old).drawn ≡ []) × ((slots seat.old).holds ≡ None) × ((view seat.old).fractions.owns ≡ []) }
    ensures { MatchOption result
        (IsUnmoved seat.old seat.new × (IsLone (epoch seat.old) → ¬ (IsKnownOut seat.old slot)))
        (λ owner. (value : Gv) × TakesBack slot value seat.old seat.new
        × (owner.0.table_id ≡ id_of seat.old) × (owner.0.views ≡ witness_of_owner slot false value)
        × IsReadFractionOf (gamma_of seat.old) slot value owner.1) }
{
    if regain(seat, slot) != RAW {
        return None;
    }
    let read_fraction = draw_unit(seat, slot).into_read_fraction();
    Some((cut(seat), read_fraction))
}
