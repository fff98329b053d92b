//! Values side by side, each of which is lent to readers or not.
ghost use Rattle.std.specs.Prelude.{◌≡◌, ◌<◌, ℕ, Option, List, [], length, slice_index_or};
ghost use Rattle.sdd_values.specs.Block.{block_owns, block_shares, fractions_coded, IsUnlent, IsFreeFor, fraction_at, lent, settled, unlent};

use crate::ended_section::EndedSection;
use crate::raw_slice::RawSlice;
use sdd_rights::Fraction;
use std::marker::Model;

mod edits;

/// Values side by side. For each value, each reader has a fraction, which is home or lent to a section.
pub struct Block<T> {
    pub(crate) ptr: *mut T,
    pub ghost values: { List T },
    pub ghost fractions: { List (List (Option ℕ)) } by { fractions_coded },
}

impl<T> Model for Block<T> {
    ghost also_owns = { λ b. block_owns T.row b.ptr b.values b.fractions };

    ghost also_shares = { λ b _ κ. block_shares T.row b.ptr b.values b.fractions κ };
}

impl<T> Block<T> {
    /// All fractions of all values are home.
    pub(crate) fn of(strip: RawSlice<T>, readers: u32) -> Block<T>
        ensures place { result.ptr ≡ strip.ptr }
        ensures values { result.values ≡ strip.items }
        ensures fractions { result.fractions ≡ unlent (length strip.items) readers }
    {
        let _ = readers;
        let RawSlice { ptr } = strip;
        Block { ptr }
    }

    /// The values, of which none is lent.
    pub(crate) fn into_strip(self) -> RawSlice<T>
        requires { (at : ℕ) → IsUnlent self.fractions at }
        ensures place { result.ptr ≡ self.ptr }
        ensures values { result.items ≡ self.values }
    {
        let Block { ptr } = self;
        RawSlice { ptr }
    }

    /// A value, for as long as the block isn't changed.
    pub fn get(&self, at: usize) -> &T
        requires { at < length self.now.values }
        ensures { (d : T) → result.now ≡ slice_index_or self.now.values at d }
    {
        unsafe { &*self.ptr.add(at) }
    }

    /// A value, for as long as the section is borrowed, whatever becomes of the block.
    pub fn look<'g, K>(&mut self, at: usize, reader: usize, section: &'g Fraction<K>) -> &'g T
        requires inside { at < length self.old.values }
        requires reader { reader < length (slice_index_or self.old.fractions at []) }
        requires free { IsFreeFor section.now.lifetime (fraction_at self.old.fractions at reader) }
        ensures value { (d : T) → result.now ≡ slice_index_or self.old.values at d }
        ensures values { self.new.values ≡ self.old.values }
        ensures fractions { self.new.fractions ≡ lent at reader section.now.lifetime self.old.fractions }
        ensures place { self.new.ptr ≡ self.old.ptr }
    {
        let _ = reader;
        let _ = section;
        unsafe { &*self.ptr.add(at) }
    }

    /// What a reader was lent in a section that has ended is home again.
    pub fn settle(&mut self, reader: usize, ended: &EndedSection)
        requires { (at : ℕ) → IsFreeFor ended.now.name (fraction_at self.old.fractions at reader) }
        ensures values { self.new.values ≡ self.old.values }
        ensures fractions { self.new.fractions ≡ settled reader self.old.fractions }
        ensures place { self.new.ptr ≡ self.old.ptr }
    {
        let _ = reader;
        let _ = ended;
    }
}

unsafe impl<T: Send + Sync> Send for Block<T> {}

unsafe impl<T: Send + Sync> Sync for Block<T> {}
