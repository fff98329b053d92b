//! The fractions of all homes, gathered again.
ghost use Rattle.std.specs.Prelude.{◌≡◌, ◌+◌, ◌<◌};
ghost use mathlib.Core.Option.{some};
ghost use lib.ListN.{get_elem?};
ghost use Rattle.core.specs.Mem.Slots.{slots_items};
ghost use Rattle.sdd_shared_values.specs.SharedValues.{most, HasAllUnits, IsNoValueCode, AreVacant};
ghost use Rattle.sdd_domain_invariant.specs.Codes.{full};
ghost use Rattle.sdd_domain_invariant.specs.Slots.{slot_at};
ghost use Rattle.sdd_domain_invariant.specs.Fractions.FractionsAtHome.{fraction_at, none_away, all_vacant, AreLaidTo, AreLaid, AreHome};

use atomic_table::Closed;
use sdd_rights::views::Sizes;
use sdd_shared_values::{FractionList, ValueFraction, ValuesName};
use std::alloc::Allocator;

/// The fractions in the last slot, as one.
fn gather_slot(
    laid: &mut Vec<ValueFraction>,
    values_name: &ValuesName,
    slot: u32,
    participants: u32,
) -> ValueFraction
    requires laid { AreLaidTo values_name.now.gamma participants (fraction_at participants (slot + 1) 0) none_away all_vacant laid.old.items }
    requires few { participants < most }
    ensures whole { HasAllUnits values_name.now.gamma slot result.content }
    ensures vacant { IsNoValueCode result.content.shown }
    ensures laid { AreLaidTo values_name.now.gamma participants (fraction_at participants slot 0) none_away all_vacant laid.new.items }
{
    let _ = values_name;
    let _ = slot;
    let mut whole = laid.take_last();
    for _place in 0..participants {
        whole.join(laid.take_last());
    }
    whole
}

/// All fractions that were laid for a table which couldn't be made, as they were in the list of fractions.
pub fn gather_all(
    mut laid: Vec<ValueFraction>,
    values_name: &ValuesName,
    participants: u32,
    slots: u32,
) -> FractionList
    requires laid { AreLaid values_name.now.gamma participants slots laid.items }
    requires few { participants < most }
    ensures { AreVacant values_name.now.gamma 0 slots result.contents }
{
    let mut fraction_list = FractionList::new();
    let mut slot = slots;
    while slot > 0 {
        slot -= 1;
        gather_slot(&mut laid, values_name, slot, participants).redeem(&mut fraction_list);
    }
    laid.destroy_empty();
    fraction_list
}

/// The last fraction that lies in a closed table.
fn take_last_home<A: Allocator>(
    closed: &mut Closed<ValueFraction, A>,
    values_name: &ValuesName,
    sizes: &Sizes,
    left: &mut usize,
) -> ValueFraction
    requires home { AreHome values_name.now.gamma sizes.now left.old closed.old }
    requires some { 0 < left.old }
    ensures home { AreHome values_name.now.gamma sizes.now left.new closed.new }
    ensures one { left.new + 1 ≡ left.old }
    ensures fraction { get_elem? (slots_items closed.old.slots) left.new ≡ some result }
    ensures same { (closed.new.words ≡ closed.old.words) × (slots_items closed.new.slots ≡ slots_items closed.old.slots) }
{
    let _ = values_name;
    let _ = sizes;
    *left -= 1;
    closed.take(*left)
}

/// The fractions in the last slot of a closed table, which is free, as one.
pub fn gather_home<A: Allocator>(
    closed: &mut Closed<ValueFraction, A>,
    values_name: &ValuesName,
    sizes: &Sizes,
    slot: u32,
    left: &mut usize,
) -> ValueFraction
    requires inside { slot < sizes.now.slots }
    requires few { sizes.now.participants < most }
    requires left { left.old ≡ fraction_at sizes.now.participants (slot + 1) 0 }
    requires home { AreHome values_name.now.gamma sizes.now left.old closed.old }
    requires free { full (slot_at sizes.now (slots_items closed.old.words) slot) ≡ 0 }
    ensures whole { HasAllUnits values_name.now.gamma slot result.content }
    ensures vacant { IsNoValueCode result.content.shown }
    ensures home { AreHome values_name.now.gamma sizes.now left.new closed.new }
    ensures left { left.new ≡ fraction_at sizes.now.participants slot 0 }
    ensures words { closed.new.words ≡ closed.old.words }
{
    let _ = slot;
    let mut whole = take_last_home(closed, values_name, sizes, left);
    for _place in 0..sizes.participants {
        whole.join(take_last_home(closed, values_name, sizes, left));
    }
    whole
}
