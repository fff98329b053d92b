//! A small space: places, readers with a guard each, and the law that whatever is lent is lent to a guard that is open.
//!
//! It shows how a space keeps that law in its invariant, and what the law gives: a look asks only for a guard of the space, and a value can be taken
//! when nobody has a guard.
ghost use Rattle.std.specs.Prelude.{◌≡◌, ◌≢◌, ◌-◌, ◌<◌, ℕ, IsSome, None, Some, length, slice_set};
ghost use Rattle.sdd_values.specs.Block.{IsUnlent, fraction_at};
ghost use Rattle.sdd_values.specs.ReadSections.{kept_at};
ghost use Rattle.sdd_part_examples.specs.SmallSpace.{value_in, kept_in};

use sdd_rights::WHOLE;
use sdd_values::{LentValues, ReadSection, ReadSections, SectionState};
use std::marker::Model;

/// Places, and readers that look at them.
pub struct SmallSpace<T> {
    places: LentValues<T>,
    sections: ReadSections,
}

impl<T> Model for SmallSpace<T> {
    ghost use Rattle.sdd_part_examples.specs.SmallSpace.{SmallSpace, IsSound};

    ghost Value = { SmallSpace T };

    ghost view = { λ h. record { places = h.places; sections = h.sections } };

    ghost invariant = { λ h. IsSound h.places h.sections };
}

impl<T> SmallSpace<T> {
    /// A space of these places and readers. Nothing is lent, and nobody has a part of a section.
    pub fn new(places: LentValues<T>, sections: ReadSections) -> SmallSpace<T>
        requires readers { places.readers ≡ sections.home.size }
        requires count { length sections.kept ≡ sections.home.size }
        requires home { (at : ℕ) → IsUnlent places.fractions at }
        requires whole { (reader : ℕ) → reader < sections.home.size → (kept_at sections reader).units ≡ WHOLE }
        ensures places { result.places ≡ places }
        ensures sections { result.sections ≡ sections }
    {
        SmallSpace { places, sections }
    }

    /// A guard of a reader that has none.
    pub fn open(&mut self, reader: usize) -> ReadSection
        requires inside { reader < self.old.sections.home.size }
        requires closed { (kept_in self.old reader).kind ≡ SectionState.Closed }
        ensures home { result.home ≡ self.old.sections.home }
        ensures number { result.number ≡ reader }
        ensures open { result.kind ≡ SectionState.Open }
        ensures kept { kept_in self.new reader ≡ record (kept_in self.old reader) { kind = SectionState.Open; units = WHOLE - 1 } }
        ensures others { (other : ℕ) → other ≢ reader → kept_in self.new other ≡ kept_in self.old other }
        ensures places { self.new.places ≡ self.old.places }
        ensures space { self.new.sections.home ≡ self.old.sections.home }
    {
        self.sections.begin(reader);
        self.sections.split(reader)
    }

    /// The value in a place, for as long as the guard is borrowed.
    pub fn look<'g>(&mut self, at: usize, reader: usize, guard: &'g ReadSection) -> &'g T
        requires inside { (at < length self.old.places.values) × (reader < self.old.sections.home.size) }
        requires home { guard.now.home ≡ self.old.sections.home }
        requires number { guard.now.number ≡ reader }
        requires open { guard.now.kind ≡ SectionState.Open }
        requires filled { IsSome (value_in self.old at) }
        ensures value { value_in self.old at ≡ Some result.now }
        ensures values { self.new.places.values ≡ self.old.places.values }
        ensures space { self.new.sections ≡ self.old.sections }
    {
        self.sections.agree(reader, guard);
        self.places.look(at, reader, guard)
    }

    /// The reader's guard closes: nothing is lent to it any more.
    pub fn close(&mut self, reader: usize, guard: ReadSection)
        requires inside { reader < self.old.sections.home.size }
        requires home { guard.home ≡ self.old.sections.home }
        requires number { guard.number ≡ reader }
        requires only { (kept_in self.old reader).units ≡ WHOLE - 1 }
        ensures values { self.new.places.values ≡ self.old.places.values }
        ensures home { (at : ℕ) → fraction_at self.new.places.fractions at reader ≡ None }
        ensures closed { (kept_in self.new reader).kind ≡ SectionState.Closed }
        ensures others { (other : ℕ) → other ≢ reader → kept_in self.new other ≡ kept_in self.old other }
        ensures space { self.new.sections.home ≡ self.old.sections.home }
    {
        self.sections.join(reader, guard);
        let ended = self.sections.end(reader);
        self.places.settle(reader, &ended);
    }

    /// Takes the value out of a place, while nobody has a guard.
    pub fn take(&mut self, at: usize) -> T
        requires inside { at < length self.old.places.values }
        requires filled { IsSome (value_in self.old at) }
        requires closed { (reader : ℕ) → (kept_in self.old reader).kind ≡ SectionState.Closed }
        ensures value { value_in self.old at ≡ Some result }
        ensures taken { self.new.places.values ≡ slice_set self.old.places.values at None }
        ensures space { self.new.sections ≡ self.old.sections }
    {
        self.places.take(at)
    }
}

/// A reader looks at a value and closes its guard. Then nobody has a guard, and the value is taken.
pub fn takes_after_a_look<T>(hall: &mut SmallSpace<T>, reader: usize, at: usize) -> T
    requires inside { (at < length hall.old.places.values) × (reader < hall.old.sections.home.size) }
    requires filled { IsSome (value_in hall.old at) }
    requires closed { (other : ℕ) → (kept_in hall.old other).kind ≡ SectionState.Closed }
    ensures value { value_in hall.old at ≡ Some result }
    ensures taken { hall.new.places.values ≡ slice_set hall.old.places.values at None }
{
    let guard = hall.open(reader);
    let _ = hall.look(at, reader, &guard);
    hall.close(reader, guard);
    hall.take(at)
}
