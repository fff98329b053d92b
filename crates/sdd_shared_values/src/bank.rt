//! Units that lie in an invariant beside a table's.
ghost use Rattle.std.specs.Prelude.{◌≡◌, ℕ, List, []};
ghost use Rattle.atomic_table.specs.Seated.{TableId, table_id_coded};
ghost use Rattle.atomic_table.specs.Table.{Splits};
ghost use Rattle.sdd_shared_values.specs.ValueFractions.{FractionContent};
ghost use Rattle.sdd_shared_values.specs.Bank.{Mine, AllowsDeal, Leaves};

use crate::value_fraction::ValueFraction;
use atomic_table::{Seat, Shared, Split, TableRule};
use std::marker::{Model, PhantomData};

/// How views tell of a bank.
pub trait Treasury<V> {
    // Whether a view may be the bank's.
    ghost ours: { V → Type 0 };

    // What the bank has, by its view.
    ghost banked: { V → List FractionContent };
}

/// What a deal with a bank tells.
pub trait Deals<V> {
    // Of the number that is dealt in, the seat before, what was dealt, and the seat after.
    ghost then: { ℕ → Mine V → FractionContent → Mine V → Type 0 };
}

/// Units in an invariant beside a table's. One seat's view is with them there, and tells which they are. No bytes, and nothing that could be lost.
pub struct Bank<V, K, P: TableRule<ValueFraction, V, K>, B: Treasury<V>> {
    pub(crate) marker: PhantomData<(P, V, K, B)>,
    pub ghost table_id: { TableId } by { table_id_coded },
    pub ghost id: { ℕ },
    pub ghost key: { K },
}

impl<V, K, P: TableRule<ValueFraction, V, K>, B: Treasury<V>> Model for Bank<V, K, P, B> {
    ghost use denote.Sharing.{said};
    ghost use Rattle.sdd_shared_values.specs.contracts.value_fraction.ValueFraction.{the_row};
    ghost use Rattle.sdd_shared_values.specs.Bank.{bank_owns};

    ghost also_owns = { λ b. bank_owns the_row V.row.coded.code (P.holds b.key) B.ours B.banked b.table_id b.id };

    ghost also_shares = { λ b _ κ. said (bank_owns the_row V.row.coded.code (P.holds b.key) B.ours B.banked b.table_id b.id) κ };
}

impl<V, K, P: TableRule<ValueFraction, V, K>, B: Treasury<V>> Bank<V, K, P, B> {
    /// A bank that has nothing yet. The seat's view is cut in two, and the second part is the bank's.
    pub fn found<M: Split<V>>(
        table: &Shared<ValueFraction, V, K, P>,
        seat: &mut Seat<ValueFraction, V>,
    ) -> Bank<V, K, P, B>
        requires table { seat.old.table_id ≡ table.now.table_id }
        requires cut { Splits (P.holds table.now.key) seat.old.id seat.old.me.0 (M.left seat.old.me.0) (M.right seat.old.me.0) }
        requires empty { B.ours (M.right seat.old.me.0) × (B.banked (M.right seat.old.me.0) ≡ []) }
        ensures seat { (seat.new.table_id ≡ seat.old.table_id) × (seat.new.id ≡ seat.old.id) × (seat.new.me ≡ (M.left seat.old.me.0, seat.old.me.1)) }
        ensures bank { (result.table_id ≡ table.now.table_id) × (result.key ≡ table.now.key) }
    {
        let _ = table;
        Bank {
            marker: PhantomData,
        }
    }

    /// Some units go out. The number says of what; it isn't read when the program runs.
    #[inline]
    pub fn draw<M: Deals<V>>(
        &self,
        table: &Shared<ValueFraction, V, K, P>,
        seat: &mut Seat<ValueFraction, V>,
        number: u64,
    ) -> ValueFraction
        requires table { (seat.old.table_id ≡ table.now.table_id) × (self.now.table_id ≡ table.now.table_id) }
        requires allowed { AllowsDeal (P.holds self.now.key) Leaves B.ours B.banked table.now.table_id.slots seat.old.id seat.old.me self.now.id
            (λ _. Unit {0}) (M.then number seat.old.me) }
        ensures seat { (seat.new.table_id ≡ seat.old.table_id) × (seat.new.id ≡ seat.old.id) }
        ensures then { M.then number seat.old.me result.content seat.new.me }
    {
        let _ = table;
        let _ = number;
        ValueFraction { of: PhantomData }
    }
}

impl<V, K, P: TableRule<ValueFraction, V, K>, B: Treasury<V>> Drop for Bank<V, K, P, B> {
    fn drop(self) {
        let Self { marker: _ } = self;
    }
}

unsafe impl<V, K, P: TableRule<ValueFraction, V, K>, B: Treasury<V>> Send for Bank<V, K, P, B> {}

unsafe impl<V, K, P: TableRule<ValueFraction, V, K>, B: Treasury<V>> Sync for Bank<V, K, P, B> {}
