//! The sections of the readers of one space, each a number of a ghost map, whose lifetime is the section's own.
ghost use Rattle.std.specs.Prelude.{◌≡◌, ◌≢◌, ◌+◌, ◌-◌, ◌<◌, ◌≤◌, ℕ, IfOk, length, slice_set};
ghost use Rattle.sdd_values.specs.ReadSections.{kept_at, whole};

use crate::ended_section::{EndedSection, end_section};
use sdd_rights::{Fraction, GhostKeys, WHOLE};
use std::alloc::{AllocError, Global};
use std::marker::Model;

/// Whether a reader has a guard.
#[derive(Clone, Copy, Debug, PartialEq, Eq)]
pub enum SectionState {
    Closed,
    Open,
}

/// Some units of a reader's section, as an open guard has one. While it is borrowed, the section lasts.
pub type ReadSection = Fraction<SectionState>;

/// What a space keeps of the sections of its readers. Each open guard has one unit.
///
/// They have no bytes; still `new` asks the allocator once, for none.
#[derive(Drop)]
pub struct ReadSections {
    keys: GhostKeys<SectionState>,
    sections: Vec<ReadSection>,
}

impl Model for ReadSections {
    ghost use Rattle.std.specs.Prelude.{map};
    ghost use Rattle.sdd_values.specs.ReadSections.{ReadSections, AreSectionsOf, kept_of};

    ghost Value = { ReadSections };

    ghost view = { λ t. record { home = t.keys.home; kept = map kept_of t.sections.items } };

    ghost invariant = { λ t. AreSectionsOf t.keys.home t.sections.items };
}

impl ReadSections {
    /// A home of their own for that many readers, none of which has a guard.
    pub fn new(alloc: Global, size: usize) -> Result<ReadSections, AllocError>
        ensures size { IfOk result (λ sections. sections.home.size ≡ size) }
        ensures count { IfOk result (λ sections. length sections.kept ≡ size) }
        ensures closed { IfOk result (λ sections. (k : ℕ) → k < size → ((kept_at sections k).kind ≡ SectionState.Closed)
            × ((kept_at sections k).units ≡ WHOLE)) }
    {
        let mut keys = GhostKeys::new(size);
        let mut sections = Vec::with_capacity(alloc, size)?;
        for _number in 0..size {
            sections.push_reserved(keys.issue(&SectionState::Closed));
        }
        Ok(ReadSections { keys, sections })
    }

    /// The reader has a guard now, its first.
    pub fn begin(&mut self, reader: usize)
        requires inside { reader < self.old.home.size }
        requires whole { (kept_at self.old reader).units ≡ WHOLE }
        ensures home { self.new.home ≡ self.old.home }
        ensures kept { self.new.kept ≡ slice_set self.old.kept reader (whole SectionState.Open (kept_at self.old reader).lifetime) }
    {
        self.sections[reader].set(&SectionState::Open, &());
    }

    /// A guard's part of the reader's section.
    pub fn split(&mut self, reader: usize) -> ReadSection
        requires inside { reader < self.old.home.size }
        requires more { 1 < (kept_at self.old reader).units }
        ensures home { self.new.home ≡ self.old.home }
        ensures kept { self.new.kept ≡ slice_set self.old.kept reader (record (kept_at self.old reader) { units = (kept_at self.old reader).units - 1 }) }
        ensures section_home { result.home ≡ self.old.home }
        ensures section_number { result.number ≡ reader }
        ensures section_lifetime { result.lifetime ≡ (kept_at self.old reader).lifetime }
        ensures section_kind { result.kind ≡ (kept_at self.old reader).kind }
        ensures section_units { result.units ≡ 1 }
    {
        self.sections[reader].split(1)
    }

    /// A guard gives its part back.
    pub fn join(&mut self, reader: usize, mut section: ReadSection)
        requires inside { reader < self.old.home.size }
        requires section_home { section.home ≡ self.old.home }
        requires section_number { section.number ≡ reader }
        ensures home { self.new.home ≡ self.old.home }
        ensures kept { self.new.kept ≡ slice_set self.old.kept reader
            (record (kept_at self.old reader) { units = (kept_at self.old reader).units + section.units }) }
        ensures some { (0 < (kept_at self.old reader).units) × (0 < section.units) }
        ensures fits { (kept_at self.old reader).units + section.units ≤ WHOLE }
        ensures kind { section.kind ≡ (kept_at self.old reader).kind }
        ensures lifetime { section.lifetime ≡ (kept_at self.old reader).lifetime }
    {
        let kept = &mut self.sections[reader];
        kept.apart(&mut section);
        kept.join(section);
    }

    /// Who has a part of a reader's section knows which it is, and whether the reader has a guard.
    pub fn agree(&self, reader: usize, section: &ReadSection)
        requires inside { reader < self.now.home.size }
        requires section_home { section.now.home ≡ self.now.home }
        requires section_number { section.now.number ≡ reader }
        ensures kind { (kept_at self.now reader).kind ≡ section.now.kind }
        ensures lifetime { (kept_at self.now reader).lifetime ≡ section.now.lifetime }
    {
        self.sections[reader].agree(section);
    }

    /// The reader has no guard any more: its section ends, since all parts are here, and the next one has another name.
    pub fn end(&mut self, reader: usize) -> EndedSection
        requires inside { reader < self.old.home.size }
        requires whole { (kept_at self.old reader).units ≡ WHOLE }
        ensures ended { result.name ≡ (kept_at self.old reader).lifetime }
        ensures home { self.new.home ≡ self.old.home }
        ensures kept { (next : ℕ) × (self.new.kept ≡ slice_set self.old.kept reader (whole SectionState.Closed next)) }
        ensures another { (kept_at self.new reader).lifetime ≢ (kept_at self.old reader).lifetime }
    {
        let kept = &mut self.sections[reader];
        kept.set(&SectionState::Closed, &());
        end_section(kept)
    }
}
