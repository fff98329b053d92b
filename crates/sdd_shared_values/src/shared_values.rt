//! Values side by side in memory that threads share.
ghost use Rattle.std.specs.Prelude.{◌≡◌, ◌<◌, ℕ};
ghost use Rattle.atomic_table.specs.Seated.{TableId, table_id_coded};
ghost use Rattle.sdd_shared_values.specs.CarriedFractions.{contents, OnlyLends};
ghost use Rattle.sdd_shared_values.specs.SharedValues.{values_owns, values_shares, CanShow, HasFractionShowing, IsValueCode, IsNoValueCode, HasWhole, AreWhole, showing, vacant, all_turned, AreVacant};

use crate::fraction_list::FractionList;
use crate::unused_memory::UnusedMemory;
use crate::value_fraction::ValueFraction;
use crate::values_name::ValuesName;
use atomic_table::{Seat, Shared, TableRule};
use sdd_rights::ReadFraction;
use sdd_values::{Freeable, ReadSection};
use std::alloc::Allocator;
use std::marker::{Model, PhantomData};

/// Which values may be shared.
pub trait ValueInvariant<T> {
    /// The value may lie among values whose fractions lie in this table, and which has so many places of this ghost map.
    ghost fits: { TableId → ℕ → ℕ → T → Type 0 };
}

/// Places for values that fit, side by side, each with a number of one ghost map. A place is vacant or full, as its units show.
pub struct SharedValues<T, F: ValueInvariant<T>> {
    pub(crate) ptr: *mut T,
    pub(crate) of: PhantomData<F>,
    pub ghost gamma: { ℕ },
    pub ghost size: { ℕ },
    pub ghost table: { TableId } by { table_id_coded },
}

impl<T, F: ValueInvariant<T>> Model for SharedValues<T, F> {
    ghost also_owns = { λ s. values_owns T.row (F.fits s.table s.gamma s.size) s.ptr s.gamma s.size };

    ghost also_shares = { λ s _ κ. values_shares T.row (F.fits s.table s.gamma s.size) s.ptr s.gamma s.size κ };
}

impl<T, F: ValueInvariant<T>> SharedValues<T, F> {
    ghost use Rattle.sdd_shared_values.specs.Memory.{IsHoldOfValues};

    /// Which ghost map its places are of.
    pub fn values_name(&self) -> ValuesName
        ensures { result.gamma ≡ self.now.gamma }
    {
        ValuesName { of: PhantomData }
    }

    /// Gives the memory back, by the fractions in all places. They are vacant.
    pub fn close<A: Allocator>(self, alloc: &A, fraction_list: FractionList, hold: Freeable<T, A>)
        requires hold { IsHoldOfValues self alloc.now hold }
        requires fraction_list { AreVacant self.gamma 0 self.size fraction_list.contents }
    {
        self.clear(fraction_list).free(alloc, hold);
    }

    /// The memory of the places, by the fractions in all of them. They are vacant.
    fn clear(self, fraction_list: FractionList) -> UnusedMemory<T>
        requires { AreVacant self.gamma 0 self.size fraction_list.contents }
        ensures place { result.ptr ≡ self.ptr }
        ensures size { result.size ≡ self.size }
    {
        let FractionList { of: _ } = fraction_list;
        let SharedValues { ptr, of: _ } = self;
        UnusedMemory { ptr }
    }

    /// Lets go of the places. Their memory, and the values in it, stay where they are.
    pub fn leak<A: Allocator>(self, hold: Freeable<T, A>) {
        let SharedValues { ptr: _, of: _ } = self;
        let Freeable {
            ptr: _,
            len: _,
            by: _,
        } = hold;
    }

    /// The value of a full place, for as long as the section is borrowed, by any fraction in it that the seat carries. It is lent to the section.
    pub fn look<'g, V, K, P: TableRule<ValueFraction, V, K>>(
        &self,
        at: usize,
        seat: &mut Seat<ValueFraction, V>,
        table: &Shared<ValueFraction, V, K, P>,
        section: &'g ReadSection,
    ) -> &'g T
        requires table { seat.old.table_id ≡ table.now.table_id }
        requires inside { at < self.now.size }
        requires fraction { CanShow self.now.gamma at section.now.lifetime (contents seat.old.me.1) }
        ensures seat { seat.new ≡ record seat.old { me = (seat.old.me.0, seat.new.me.1) } }
        ensures lent { OnlyLends section.now.lifetime seat.old.me.1 seat.new.me.1 }
        ensures value { HasFractionShowing self.now.gamma at (showing T.row result.now) (contents seat.old.me.1) }
        ensures fits { F.fits self.now.table self.now.gamma self.now.size result.now }
    {
        let _ = seat;
        let _ = table;
        let _ = section;
        unsafe { &*self.ptr.add(at) }
    }

    /// The value of a full place, for as long as the read fraction of its owner is borrowed. No guard is asked for.
    pub fn view<'a>(&'a self, at: usize, read_fraction: &'a ReadFraction) -> &'a T
        requires inside { at < self.now.size }
        requires gamma { read_fraction.now.gamma ≡ self.now.gamma }
        requires number { read_fraction.now.number ≡ at }
        ensures value { read_fraction.now.shown ≡ showing T.row result.now }
        ensures fits { F.fits self.now.table self.now.gamma self.now.size result.now }
    {
        let _ = read_fraction;
        unsafe { &*self.ptr.add(at) }
    }

    /// Moves the value out of a full place, by all units of its number but the place's own, which are in the `count` fractions that the seat took last.
    pub fn take<V, K, P: TableRule<ValueFraction, V, K>>(
        &self,
        at: usize,
        seat: &mut Seat<ValueFraction, V>,
        table: &Shared<ValueFraction, V, K, P>,
        count: usize,
    ) -> T
        requires table { seat.old.table_id ≡ table.now.table_id }
        requires inside { at < self.now.size }
        requires whole { HasWhole self.now.gamma at count IsValueCode (contents seat.old.me.1) }
        ensures seat { (lifetime : ℕ) × (seat.new ≡ record seat.old { me = (seat.old.me.0, all_turned lifetime vacant count seat.old.me.1) }) }
        ensures value { (lifetime : ℕ) × AreWhole self.now.gamma at lifetime (showing T.row result) count (contents seat.old.me.1) }
        ensures fits { F.fits self.now.table self.now.gamma self.now.size result }
    {
        let _ = seat;
        let _ = table;
        let _ = count;
        let p = self.ptr;
        unsafe { p.add(at).read() }
    }

    /// Moves a value into a vacant place, by all units of its number but the place's own, which are in the `count` fractions that the seat took last.
    pub fn put<V, K, P: TableRule<ValueFraction, V, K>>(
        &self,
        at: usize,
        seat: &mut Seat<ValueFraction, V>,
        table: &Shared<ValueFraction, V, K, P>,
        count: usize,
        value: T,
    )
        requires table { seat.old.table_id ≡ table.now.table_id }
        requires inside { at < self.now.size }
        requires whole { HasWhole self.now.gamma at count IsNoValueCode (contents seat.old.me.1) }
        requires fits { F.fits self.now.table self.now.gamma self.now.size value }
        ensures seat { (lifetime : ℕ) × (seat.new ≡ record seat.old { me = (seat.old.me.0, all_turned lifetime (showing T.row value) count seat.old.me.1) }) }
    {
        let _ = seat;
        let _ = table;
        let _ = count;
        let p = self.ptr;
        unsafe { p.add(at).write(value) }
    }
}

unsafe impl<T: Send + Sync, F: ValueInvariant<T>> Send for SharedValues<T, F> {}

unsafe impl<T: Send + Sync, F: ValueInvariant<T>> Sync for SharedValues<T, F> {}
