//! What a participant does with the values of slots, by the fractions in them that it has out. No word is touched.
ghost use Rattle.std.specs.Prelude.{◌≡◌, ◌<◌, ℕ};
ghost use Rattle.sdd_shared_values.specs.CarriedFractions.{contents, plain, OnlyLends};
ghost use Rattle.sdd_shared_values.specs.ValueFractions.{AllFreeFor};
ghost use Rattle.sdd_shared_values.specs.SharedValues.{CanShow, HasFractionShowing, IsValueCode, IsNoValueCode, HasWhole, AreWhole, showing, vacant, all_turned};

use crate::seat_at_table::SeatAtTable;
use sdd_shared_values::{SharedValues, ValueInvariant};
use sdd_values::{EndedSection, ReadSection};

/// Moves a value into the vacant place of a slot, by the `count` fractions that the seat took last.
#[inline]
pub fn put<T, F: ValueInvariant<T>>(
    values: &SharedValues<T, F>,
    slot: usize,
    seat: &mut SeatAtTable<'_>,
    count: usize,
    value: T,
)
    requires inside { slot < values.now.size }
    requires whole { HasWhole values.now.gamma slot count IsNoValueCode (contents seat.old.me.1) }
    requires fits { F.fits values.now.table values.now.gamma values.now.size value }
    ensures seat { (lifetime : ℕ) × (seat.new ≡ record seat.old { me = (seat.old.me.0, all_turned lifetime (showing T.row value) count seat.old.me.1) }) }
{
    let SeatAtTable { table, seat } = seat;
    values.put(slot, seat, &table.atomic.shared, count, value);
}

/// Moves the value out of the place of a slot, by the `count` fractions that the seat took last.
#[inline]
pub fn take<T, F: ValueInvariant<T>>(
    values: &SharedValues<T, F>,
    slot: usize,
    seat: &mut SeatAtTable<'_>,
    count: usize,
) -> T
    requires inside { slot < values.now.size }
    requires whole { HasWhole values.now.gamma slot count IsValueCode (contents seat.old.me.1) }
    ensures seat { (lifetime : ℕ) × (seat.new ≡ record seat.old { me = (seat.old.me.0, all_turned lifetime vacant count seat.old.me.1) }) }
    ensures value { (lifetime : ℕ) × AreWhole values.now.gamma slot lifetime (showing T.row result) count (contents seat.old.me.1) }
    ensures fits { F.fits values.now.table values.now.gamma values.now.size result }
{
    let SeatAtTable { table, seat } = seat;
    values.take(slot, seat, &table.atomic.shared, count)
}

/// The value of a slot, for as long as the section is borrowed, by any fraction in it that the seat carries. It is lent to the section.
#[inline]
pub fn look<'g, T, F: ValueInvariant<T>>(
    values: &SharedValues<T, F>,
    slot: usize,
    seat: &mut SeatAtTable<'_>,
    section: &'g ReadSection,
) -> &'g T
    requires inside { slot < values.now.size }
    requires fraction { CanShow values.now.gamma slot section.now.lifetime (contents seat.old.me.1) }
    ensures seat { seat.new ≡ record seat.old { me = (seat.old.me.0, seat.new.me.1) } }
    ensures lent { OnlyLends section.now.lifetime seat.old.me.1 seat.new.me.1 }
    ensures value { HasFractionShowing values.now.gamma slot (showing T.row result.now) (contents seat.old.me.1) }
    ensures fits { F.fits values.now.table values.now.gamma values.now.size result.now }
{
    let SeatAtTable { table, seat } = seat;
    values.look(slot, seat, &table.atomic.shared, section)
}

/// What the seat carries was lent to no other section; now it is lent no more.
#[inline]
pub fn settle(seat: &mut SeatAtTable<'_>, ended: &EndedSection)
    requires lent { AllFreeFor ended.now.name (contents seat.old.me.1) }
    ensures { seat.new ≡ record seat.old { me = (seat.old.me.0, plain seat.old.me.1) } }
{
    let SeatAtTable { table, seat } = seat;
    sdd_shared_values::settle(seat, &table.atomic.shared, ended);
}
