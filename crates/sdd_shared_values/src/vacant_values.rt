//! Room for values, before the table is there that the fractions in them will lie in.
ghost use Rattle.std.specs.Prelude.{◌≡◌, ℕ, IfOk};
ghost use Rattle.sdd_shared_values.specs.SharedValues.{plot_owns, AreVacant};
ghost use Rattle.std_alloc.specs.Vec.Ownership.{FitsInBlock};

use crate::fraction_list::FractionList;
use crate::shared_values::{SharedValues, ValueInvariant};
use crate::unused_memory::UnusedMemory;
use crate::value_fraction::ValueFraction;
use crate::values_name::ValuesName;
use atomic_table::{Shared, TableRule};
use sdd_values::{Freeable, UninitBlock};
use std::alloc::{AllocError, Allocator};
use std::marker::{Model, PhantomData};

/// Room for values, side by side, each with a number of one ghost map. All places are vacant, and nobody else knows them.
pub struct VacantValues<T> {
    pub(crate) ptr: *mut T,
    pub ghost gamma: { ℕ },
    pub ghost size: { ℕ },
}

impl<T> Model for VacantValues<T> {
    ghost also_owns = { λ p. plot_owns T.row p.ptr p.gamma p.size };
}

impl<T> VacantValues<T> {
    ghost use Rattle.sdd_shared_values.specs.Memory.{IsHoldOf, IsOn};

    /// That many vacant places, with the fractions in them and the right to free their memory. The number of a place is where it stands.
    pub fn new<A: Allocator>(
        alloc: &A,
        size: usize,
    ) -> Result<(VacantValues<T>, FractionList, Freeable<T, A>), AllocError>
        requires fits { FitsInBlock T.row size }
        ensures size { IfOk result (λ made. made.0.size ≡ size) }
        ensures fraction_list { IfOk result (λ made. AreVacant made.0.gamma 0 size made.1.contents) }
        ensures hold { IfOk result (λ made. IsHoldOf made.0 alloc.now made.2) }
    {
        let room = UninitBlock::new(alloc, size)?;
        Ok(VacantValues::of(room))
    }

    /// Vacant places, as many as there is room for.
    pub(crate) fn of<A: Allocator>(
        room: UninitBlock<T, A>,
    ) -> (VacantValues<T>, FractionList, Freeable<T, A>)
        requires fits { FitsInBlock T.row room.len }
        ensures size { result.0.size ≡ room.len }
        ensures fraction_list { AreVacant result.0.gamma 0 room.len result.1.contents }
        ensures hold { IsHoldOf result.0 room.alloc result.2 }
    {
        let UninitBlock { ptr, len, by } = room;
        (
            VacantValues { ptr },
            FractionList { of: PhantomData },
            Freeable { ptr, len, by },
        )
    }

    /// Which ghost map its places are of.
    pub fn values_name(&self) -> ValuesName
        ensures { result.gamma ≡ self.now.gamma }
    {
        ValuesName { of: PhantomData }
    }

    /// The values of these places, whose fractions lie in this table.
    pub fn found<F: ValueInvariant<T>, V, K, P: TableRule<ValueFraction, V, K>>(
        self,
        table: &Shared<ValueFraction, V, K, P>,
    ) -> SharedValues<T, F>
        ensures places { IsOn self result }
        ensures table { result.table ≡ table.now.table_id }
    {
        let _ = table;
        let VacantValues { ptr } = self;
        SharedValues {
            ptr,
            of: PhantomData,
        }
    }

    /// Gives the memory back, by the fractions in all places.
    pub fn close<A: Allocator>(self, alloc: &A, fraction_list: FractionList, hold: Freeable<T, A>)
        requires hold { IsHoldOf self alloc.now hold }
        requires fraction_list { AreVacant self.gamma 0 self.size fraction_list.contents }
    {
        fraction_list.discard();
        self.clear().free(alloc, hold);
    }

    /// The memory of the places. Nobody else knows them.
    fn clear(self) -> UnusedMemory<T>
        ensures place { result.ptr ≡ self.ptr }
        ensures size { result.size ≡ self.size }
    {
        let VacantValues { ptr } = self;
        UnusedMemory { ptr }
    }
}
