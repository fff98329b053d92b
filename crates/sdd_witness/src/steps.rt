//! Steps of a seat on no word.
ghost use Rattle.core.specs.Prelude.{◌≡◌, [], ◌∷◌};
ghost use Rattle.atomic_table.specs.Table.{Me, Splits, Joins};
ghost use Rattle.sdd_witness.specs.Steps.{AllowsAlone, AllowsBeside};

use crate::witness::Witness;
use atomic_table::{Join, Seat, Shared, Split, TableRule};
use std::marker::PhantomData;

/// What a step on no word tells.
pub trait GhostUpdate<S, V> {
    // Of the seat before and the seat after.
    ghost then: { Me S V → Me S V → Type 0 };
}

/// What a step beside a witness tells.
pub trait GhostUpdateBeside<S, V> {
    // Of the witness's view, the seat before and the seat after.
    ghost then: { V → Me S V → Me S V → Type 0 };
}

/// A step of the seat on no word.
pub fn step_alone<S, V, K, P: TableRule<S, V, K>, M: GhostUpdate<S, V>>(
    table: &Shared<S, V, K, P>,
    seat: &mut Seat<S, V>,
)
    requires table { seat.old.table_id ≡ table.now.table_id }
    requires allowed { AllowsAlone (P.holds table.now.key) table.now.table_id.slots seat.old.id seat.old.me (M.then seat.old.me) }
    ensures seat { (seat.new.table_id ≡ seat.old.table_id) × (seat.new.id ≡ seat.old.id) }
    ensures then { M.then seat.old.me seat.new.me }
{
    let _ = table;
}

/// A step of the seat on no word, beside a witness.
pub fn step_beside<S, V, K, P: TableRule<S, V, K>, M: GhostUpdateBeside<S, V>>(
    table: &Shared<S, V, K, P>,
    seat: &mut Seat<S, V>,
    witness: &Witness,
)
    requires { (seat.old.table_id ≡ table.now.table_id)
        × (witness.now.table_id ≡ table.now.table_id)
        × ((w : V) × (witness.now.views ≡ V.row.coded.code w ∷ [])
        × AllowsBeside (P.holds table.now.key) table.now.table_id.slots seat.old.id seat.old.me witness.now.id w
        (M.then w seat.old.me)) }
    ensures { (seat.new.table_id ≡ seat.old.table_id) × (seat.new.id ≡ seat.old.id)
        × ((w : V) × (witness.now.views ≡ V.row.coded.code w ∷ []) × M.then w seat.old.me seat.new.me) }
{
    let _ = table;
    let _ = witness;
}

/// Cuts the view in two. The second part leaves as a witness.
pub fn part<S, V, K, P: TableRule<S, V, K>, M: Split<V>>(
    table: &Shared<S, V, K, P>,
    seat: &mut Seat<S, V>,
) -> Witness
    requires { (seat.old.table_id ≡ table.now.table_id)
        × Splits (P.holds table.now.key) seat.old.id seat.old.me.0 (M.left seat.old.me.0) (M.right seat.old.me.0) }
    ensures seat { (seat.new.table_id ≡ seat.old.table_id) × (seat.new.id ≡ seat.old.id) × (seat.new.me ≡ (M.left seat.old.me.0, seat.old.me.1)) }
    ensures witness { (result.table_id ≡ seat.old.table_id) × (result.views ≡ V.row.coded.code (M.right seat.old.me.0) ∷ []) }
{
    let _ = table;
    Witness {
        marker: PhantomData,
    }
}

/// A witness comes back into a seat.
pub fn rejoin<S, V, K, P: TableRule<S, V, K>, M: Join<V>>(
    table: &Shared<S, V, K, P>,
    seat: &mut Seat<S, V>,
    witness: Witness,
)
    requires { (seat.old.table_id ≡ table.now.table_id)
        × (witness.table_id ≡ table.now.table_id)
        × ((w : V) × (witness.views ≡ V.row.coded.code w ∷ [])
        × Joins (P.holds table.now.key) seat.old.id seat.old.me.0 witness.id w (M.both seat.old.me.0 w) M.spent) }
    ensures { (seat.new.table_id ≡ seat.old.table_id) × (seat.new.id ≡ seat.old.id)
        × ((w : V) × (witness.views ≡ V.row.coded.code w ∷ []) × (seat.new.me ≡ (M.both seat.old.me.0 w, seat.old.me.1))) }
{
    witness.enter::<S, V, K, P, M>(table, seat);
}
