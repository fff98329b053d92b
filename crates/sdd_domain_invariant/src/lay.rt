//! The fractions in the places of new values, dealt to their homes.
ghost use Rattle.std.specs.Prelude.{◌≡◌, ◌+◌, ◌<◌, ◌≤◌, [], vec_len, vec_capacity};
ghost use Rattle.sdd_shared_values.specs.SharedValues.{most, HasAllUnits, IsNoValueCode, AreVacant};
ghost use Rattle.sdd_domain_invariant.specs.Fractions.FractionsAtHome.{fraction_at, homes_for, none_away, all_vacant, AreLaidTo, AreLaid};

use sdd_shared_values::{FractionList, ValueFraction, ValuesName};

/// Deals the fractions in one slot: one unit for each place, and the rest.
fn lay_slot(laid: &mut Vec<ValueFraction>, whole: ValueFraction, slot: u32, participants: u32)
    requires laid { AreLaidTo whole.content.gamma participants (fraction_at participants slot 0) none_away all_vacant laid.old.items }
    requires room { vec_len laid.old + participants < vec_capacity laid.old }
    requires few { participants < most }
    requires whole { HasAllUnits whole.content.gamma slot whole.content }
    requires vacant { IsNoValueCode whole.content.shown }
    ensures laid { AreLaidTo whole.content.gamma participants (fraction_at participants (slot + 1) 0) none_away all_vacant laid.new.items }
    ensures capacity { vec_capacity laid.new ≡ vec_capacity laid.old }
{
    let _ = slot;
    let mut rest = whole;
    for _place in 0..participants {
        laid.push_reserved(rest.split(1));
    }
    laid.push_reserved(rest);
}

/// Deals all fractions in the places of new values to the homes of so many slots. No memory is taken.
pub fn lay_all(
    laid: &mut Vec<ValueFraction>,
    mut fraction_list: FractionList,
    values_name: &ValuesName,
    participants: u32,
    slots: u32,
)
    requires empty { laid.old.items ≡ [] }
    requires room { homes_for participants slots ≤ vec_capacity laid.old }
    requires few { participants < most }
    requires fraction_list { AreVacant values_name.now.gamma 0 slots fraction_list.contents }
    ensures { AreLaid values_name.now.gamma participants slots laid.new.items }
{
    let _ = values_name;
    for slot in 0..slots {
        lay_slot(laid, fraction_list.issue(), slot, participants);
    }
    fraction_list.discard();
}
