//! What was lent to a section is lent no more, once it has ended.
ghost use Rattle.core.specs.Prelude.{◌≡◌};
ghost use Rattle.sdd_shared_values.specs.ValueFractions.{AllFreeFor};
ghost use Rattle.sdd_shared_values.specs.CarriedFractions.{contents, plain};

use crate::value_fraction::ValueFraction;
use atomic_table::{Seat, Shared, TableRule};
use sdd_values::EndedSection;

/// What the seat carries was lent to no other section; now it is lent no more.
pub fn settle<V, K, P: TableRule<ValueFraction, V, K>>(
    seat: &mut Seat<ValueFraction, V>,
    table: &Shared<ValueFraction, V, K, P>,
    ended: &EndedSection,
)
    requires table { seat.old.table_id ≡ table.now.table_id }
    requires lent { AllFreeFor ended.now.name (contents seat.old.me.1) }
    ensures { seat.new ≡ record seat.old { me = (seat.old.me.0, plain seat.old.me.1) } }
{
    let _ = table;
    let _ = ended;
}
