//! How a space uses places and sections: readers look at a value, and it is taken when nobody can look at it any more.
ghost use Rattle.std.specs.Prelude.{◌≡◌, ◌≢◌, ◌<◌, ℕ, IsSome, Some, None, length, slice_set};
ghost use Rattle.sdd_values.specs.Block.{IsUnlent, IsFreeFor, fraction_at, lent};
ghost use Rattle.sdd_values.specs.LentValues.{value_at};
ghost use Rattle.sdd_values.specs.ReadSections.{kept_at};

use sdd_rights::WHOLE;
use sdd_values::{LentValues, ReadSection, ReadSections};

/// A reader sees one value for as long as it has its guard, whatever is put elsewhere meanwhile.
pub fn sees_one<'g, T>(
    places: &mut LentValues<T>,
    reader: usize,
    guard: &'g ReadSection,
    at: usize,
    other: usize,
    value: T,
) -> (&'g T, &'g T)
    requires inside { (at < length places.old.values) × (other < length places.old.values) }
    requires reader { reader < places.old.readers }
    requires filled { IsSome (value_at places.old at) }
    requires empty { value_at places.old other ≡ None }
    requires free { IsFreeFor guard.now.lifetime (fraction_at places.old.fractions at reader) }
    ensures first { value_at places.old at ≡ Some result.0.now }
    ensures same { result.0.now ≡ result.1.now }
{
    let first = places.look(at, reader, guard);
    places.put(other, value);
    let second = places.look(at, reader, guard);
    (first, second)
}

/// A reader opens two guards, looks, closes the outer guard first, looks again, and closes. Then the value is taken.
pub fn takes_after<T>(
    places: &mut LentValues<T>,
    sections: &mut ReadSections,
    reader: usize,
    at: usize,
) -> T
    requires inside { at < length places.old.values }
    requires reader { (reader < places.old.readers) × (reader < sections.old.home.size) }
    requires count { length sections.old.kept ≡ sections.old.home.size }
    requires filled { IsSome (value_at places.old at) }
    requires closed { (kept_at sections.old reader).units ≡ WHOLE }
    requires home { (k : ℕ) → IsUnlent places.old.fractions k }
    ensures value { value_at places.old at ≡ Some result }
{
    sections.begin(reader);
    let outer = sections.split(reader);
    let inner = sections.split(reader);
    let _ = places.look(at, reader, &outer);
    sections.join(reader, outer);
    let _ = places.look(at, reader, &inner);
    sections.join(reader, inner);
    let ended = sections.end(reader);
    places.settle(reader, &ended);
    places.take(at)
}

fn crosses<X: Send + Sync>(value: X) -> X
    ensures { result ≡ value }
{
    value
}

/// Places and sections may cross threads where the values may.
pub fn crosses_threads<T: Send + Sync>(
    places: LentValues<T>,
    sections: ReadSections,
) -> (LentValues<T>, ReadSections)
    ensures { (result.0 ≡ places) × (result.1 ≡ sections) }
{
    (crosses(places), crosses(sections))
}
