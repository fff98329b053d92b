//! The close of a domain: what waits is reclaimed, and once nobody takes part any more and all slots are free, all fractions are gathered.
ghost use Rattle.std.specs.Prelude.{◌≡◌, ◌-◌, ◌≤◌, ◌<◌, ◌↔◌, ℕ, [], ◌∷◌, true, false, All, IfSome, IsTrue, slice_index_or};
ghost use Rattle.core.specs.Mem.Slots.{slots_items, slots_filled, slots_len};
ghost use Rattle.sdd_shared_values.specs.SharedValues.{AreVacant};
ghost use Rattle.sdd_domain_invariant.specs.Codes as codes;
ghost use Rattle.sdd_domain_invariant.specs.Slots.{slot_at};
ghost use Rattle.sdd_rights.specs.Views.{no_counts};
ghost use Rattle.sdd_domain_invariant.specs.Fractions.FractionsAtHome.{AreHome};
ghost use Rattle.sdd_atomics.specs.SeatAtTable.{id_of};
ghost use Rattle.sdd_atomics.specs.Sizes.{AreSmall};
ghost use Rattle.sdd_atomics.specs.DomainSeat.{view};
ghost use Rattle.sdd_domain_core.specs.Domain.{slots_in};
ghost use Rattle.sdd_domain_steps.specs.Receipt.{Receipt as EndedCounts, AreSettled, HasTaken};

use crate::domain::Domain;
use crate::receipt::Receipt;
use atomic_table::Closed;
use sdd_atomics::SeatAtTable;
use sdd_atomics::steps::epoch::counts::take_counts;
use sdd_domain_invariant::gather_home;
use sdd_participants::Job;
use sdd_rights::views::Sizes;
use sdd_shared_values::{FractionList, ValueFraction, ValuesName};
use sdd_space::Item;
use std::alloc::Global;
use std::mem;

/// Each participant in turn reclaims what waits with it, all together as many items as are left at most.
// The last receipt stands in the place of the one that is being settled.
pub fn settle_all<T: Item<T>, J: Job>(
    domain: &Domain<T>,
    receipts: &mut Vec<Receipt<T, J>>,
    left: &mut usize,
)
    requires homes { All (λ (r : EndedCounts). r.home ≡ slots_in domain.now) receipts.old.items }
    ensures few { left.new ≤ left.old }
    ensures settled { AreSettled (left.old - left.new) receipts.old.items receipts.new.items }
{
    let Some(mut held) = receipts.pop() else {
        return;
    };
    for index in 0..receipts.len() {
        let receipt = mem::replace(&mut receipts[index], held);
        held = mem::replace(&mut receipts[index], receipt.settle(domain, left));
    }
    receipts.push_reserved(held.settle(domain, left));
}

/// With none of the participants anything waits.
pub fn are_over<T: Item<T>, J: Job>(receipts: &Vec<Receipt<T, J>>) -> bool
    ensures { IsTrue result ↔ All (λ (r : EndedCounts). r.waits ≡ false) receipts.now.items }
{
    for receipt in receipts {
        if receipt.waits() {
            return false;
        }
    }
    true
}

/// Takes the counts of all receipts in.
pub fn take_all_counts<T: Item<T>, J: Job>(
    seat: &mut SeatAtTable<'_>,
    mut receipts: Vec<Receipt<T, J>>,
)
    requires homes { All (λ (r : EndedCounts). r.home.tables ≡ id_of seat.old ∷ []) receipts.items }
    requires over { All (λ (r : EndedCounts). r.waits ≡ false) receipts.items }
    requires none { (view seat.old).fractions.counts ≡ no_counts }
    ensures home { seat.new.table_id ≡ id_of seat.old }
    ensures places { (view seat.new).places ≡ (view seat.old).places }
    ensures counts { HasTaken receipts.items (view seat.new).fractions.counts }
{
    while let Some(receipt) = receipts.pop() {
        let counts = receipt.into_counts(seat.table);
        take_counts(seat, counts);
    }
    receipts.destroy_empty();
}

/// All fractions, of a closed table in which all slots are free.
pub fn gather_all_fractions(
    closed: &mut Closed<ValueFraction, Global>,
    values_name: &ValuesName,
    sizes: &Sizes,
) -> FractionList
    requires small { AreSmall sizes.now }
    requires home { AreHome values_name.now.gamma sizes.now (slots_len closed.old.slots) closed.old }
    requires free { (i : ℕ) → i < sizes.now.slots → codes.full (slot_at sizes.now (slots_items closed.old.words) i) ≡ 0 }
    ensures fraction_list { AreVacant values_name.now.gamma 0 sizes.now.slots result.contents }
    ensures emptied { (k : ℕ) → k < slots_len closed.new.slots → slice_index_or (slots_filled closed.new.slots) k false ≡ false }
{
    let mut fraction_list = FractionList::new();
    let mut left = closed.slot_count();
    let mut slot = sizes.slots as u32;
    while slot > 0 {
        slot -= 1;
        gather_home(closed, values_name, sizes, slot, &mut left).redeem(&mut fraction_list);
    }
    fraction_list
}
