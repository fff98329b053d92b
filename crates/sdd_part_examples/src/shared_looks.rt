//! The calls of shared values, one after the other, over the rule of any table.
ghost use Rattle.std.specs.Prelude.{◌≡◌, ◌<◌, ℕ, None, length};
ghost use Rattle.sdd_shared_values.specs.ValueFractions.{AllFreeFor};
ghost use Rattle.sdd_shared_values.specs.CarriedFractions.{contents, plain};
ghost use Rattle.sdd_shared_values.specs.SharedValues.{CanShow, HasFractionShowing, showing, IsValueCode, IsNoValueCode, HasWhole, vacant, all_turned};

use atomic_table::{Seat, Shared, TableRule};
use sdd_rights::WHOLE;
use sdd_shared_values::{SharedValues, VacantValues, ValueFraction, ValueInvariant, settle};
use sdd_values::{EndedSection, ReadSection, end_section};
use std::alloc::{AllocError, Allocator};

/// A value that is shown can be shown again under the same section: by one fraction, both are the same value.
pub fn shows_again<'g, T, F: ValueInvariant<T>, V, K, P: TableRule<ValueFraction, V, K>>(
    values: &SharedValues<T, F>,
    at: usize,
    seat: &mut Seat<ValueFraction, V>,
    table: &Shared<ValueFraction, V, K, P>,
    section: &'g ReadSection,
) -> (&'g T, &'g T)
    requires table { seat.old.table_id ≡ table.now.table_id }
    requires inside { at < values.now.size }
    requires single { length seat.old.me.1 ≡ 1 }
    requires fraction { CanShow values.now.gamma at section.now.lifetime (contents seat.old.me.1) }
    requires free { AllFreeFor section.now.lifetime (contents seat.old.me.1) }
    ensures same { result.1.now ≡ result.0.now }
    ensures free { AllFreeFor section.now.lifetime (contents seat.new.me.1) }
{
    let first = values.look(at, seat, table, section);
    let second = values.look(at, seat, table, section);
    (first, second)
}

/// What was put is taken, once the section has ended under which it was shown.
pub fn takes_what_was_put<T, F: ValueInvariant<T>, V, K, P: TableRule<ValueFraction, V, K>>(
    values: &SharedValues<T, F>,
    at: usize,
    seat: &mut Seat<ValueFraction, V>,
    table: &Shared<ValueFraction, V, K, P>,
    count: usize,
    section: &mut ReadSection,
    value: T,
) -> T
    requires table { seat.old.table_id ≡ table.now.table_id }
    requires inside { at < values.now.size }
    requires whole { HasWhole values.now.gamma at count IsNoValueCode (contents seat.old.me.1) }
    requires free { AllFreeFor section.old.lifetime (contents seat.old.me.1) }
    requires all { section.old.units ≡ WHOLE }
    requires fits { F.fits values.now.table values.now.gamma values.now.size value }
    ensures value { result ≡ value }
{
    values.put(at, seat, table, count, value);
    let _shown = values.look(at, seat, table, section);
    let ended = end_section(section);
    settle(seat, table, &ended);
    values.take(at, seat, table, count)
}

/// A value is taken by fractions that were lent to a section, once it has ended.
pub fn takes_what_was_shown<T, F: ValueInvariant<T>, V, K, P: TableRule<ValueFraction, V, K>>(
    values: &SharedValues<T, F>,
    at: usize,
    seat: &mut Seat<ValueFraction, V>,
    table: &Shared<ValueFraction, V, K, P>,
    count: usize,
    ended: &EndedSection,
) -> T
    requires table { seat.old.table_id ≡ table.now.table_id }
    requires inside { at < values.now.size }
    requires free { AllFreeFor ended.now.name (contents seat.old.me.1) }
    requires whole { HasWhole values.now.gamma at count IsValueCode (contents (plain seat.old.me.1)) }
    ensures seat { (lifetime : ℕ) × (seat.new ≡ record seat.old { me = (seat.old.me.0, all_turned lifetime vacant count (plain seat.old.me.1)) }) }
{
    settle(seat, table, ended);
    values.take(at, seat, table, count)
}

/// What was shown under one section is shown under the next one, once the first has ended.
pub fn shows_what_was_shown<'g, T, F: ValueInvariant<T>, V, K, P: TableRule<ValueFraction, V, K>>(
    values: &SharedValues<T, F>,
    at: usize,
    seat: &mut Seat<ValueFraction, V>,
    table: &Shared<ValueFraction, V, K, P>,
    first: &EndedSection,
    next: &'g ReadSection,
) -> &'g T
    requires table { seat.old.table_id ≡ table.now.table_id }
    requires inside { at < values.now.size }
    requires free { AllFreeFor first.now.name (contents seat.old.me.1) }
    requires fraction { CanShow values.now.gamma at next.now.lifetime (contents (plain seat.old.me.1)) }
    ensures value { HasFractionShowing values.now.gamma at (showing T.row result.now) (contents (plain seat.old.me.1)) }
{
    settle(seat, table, first);
    values.look(at, seat, table, next)
}

/// By a unit that is cut off a fraction in a full place, the same value is viewed each time. The fraction has the unit back in the end.
pub fn views_by_a_read_fraction<T: Copy, F: ValueInvariant<T>>(
    values: &SharedValues<T, F>,
    at: usize,
    fraction: &mut ValueFraction,
) -> (T, T)
    requires inside { at < values.now.size }
    requires gamma { fraction.old.content.gamma ≡ values.now.gamma }
    requires number { fraction.old.content.number ≡ at }
    requires full { IsValueCode fraction.old.content.shown }
    requires more { 1 < fraction.old.content.units }
    requires free { fraction.old.content.lent ≡ None }
    ensures value { fraction.old.content.shown ≡ showing T.row result.0 }
    ensures same { result.1 ≡ result.0 }
    ensures fraction { fraction.new.content ≡ fraction.old.content }
{
    let read_fraction = fraction.split(1).into_read_fraction();
    let first = *values.view(at, &read_fraction);
    let second = *values.view(at, &read_fraction);
    fraction.join(ValueFraction::of_read_fraction(read_fraction));
    (first, second)
}

/// Numbers of places, each smaller than how many places there are.
pub struct Numbers;

impl ValueInvariant<usize> for Numbers {
    ghost fits = { λ _ _ size number. number < size };
}

/// The number in a place goes down by one, and stays zero. It is one of a place still.
pub fn counts_down<V, K, P: TableRule<ValueFraction, V, K>>(
    values: &SharedValues<usize, Numbers>,
    at: usize,
    seat: &mut Seat<ValueFraction, V>,
    table: &Shared<ValueFraction, V, K, P>,
    count: usize,
)
    requires table { seat.old.table_id ≡ table.now.table_id }
    requires inside { at < values.now.size }
    requires whole { HasWhole values.now.gamma at count IsValueCode (contents seat.old.me.1) }
    ensures { HasWhole values.now.gamma at count IsValueCode (contents seat.new.me.1) }
{
    let number = values.take(at, seat, table, count);
    let next = number.saturating_sub(1);
    values.put(at, seat, table, count, next);
}

/// Values of vacant places alone are closed by the fractions and the hold that came with their plot.
pub fn closes_what_was_founded<
    F: ValueInvariant<u64>,
    A: Allocator,
    V,
    K,
    P: TableRule<ValueFraction, V, K>,
>(alloc: &A, table: &Shared<ValueFraction, V, K, P>) -> Result<(), AllocError> {
    let (plot, fraction_list, hold) = VacantValues::new(alloc, 2)?;
    let values: SharedValues<u64, F> = plot.found(table);
    values.close(alloc, fraction_list, hold);
    Ok(())
}
