//! Places for values, each empty or with a value, which can be lent to readers.
ghost use Rattle.std.specs.Fn.{FnOnceReturnsAtMut};
ghost use Rattle.std.specs.Prelude.{◌≡◌, ◌<◌, ℕ, IfOk, IsSome, None, Some, length, option_copied, replicate, slice_set};
ghost use Rattle.core.specs.Mem.Slots.{slots_items, slots_ptr, slots_len, IsFull};
ghost use Rattle.sdd_values.specs.Block.{IsUnlent, IsFreeFor, fraction_at, lent, settled, unlent};
ghost use Rattle.sdd_values.specs.LentValues.{value_at};

use crate::block::Block;
use crate::ended_section::EndedSection;
use crate::raw_slice::RawSlice;
use crate::uninit_block::{Freeable, UninitBlock};
use core::slots::Slots;
use sdd_core::hint::assert_unchecked;
use sdd_rights::Fraction;
use std::alloc::{AllocError, Global};
use std::marker::Model;
use std_alloc::room::may_hold;

/// Places side by side in one block of memory, which is taken when they are made.
///
/// A reader may look at a value for as long as its section is borrowed. While a value is lent to some reader, it is neither taken nor changed.
pub struct LentValues<T> {
    block: Block<Option<T>>,
    size: usize,
    readers: u32,
    hold: Freeable<Option<T>, Global>,
    alloc: Global,
    ghost counted: { size ≡ length block.values },
    ghost held: { (hold.ptr ≡ block.ptr) × (hold.len ≡ size) × (hold.alloc ≡ alloc) },
}

impl<T> Model for LentValues<T> {
    ghost use Rattle.sdd_values.specs.LentValues.{LentValues, AreFractions};

    ghost Value = { LentValues T };

    ghost view = { λ p. record { values = p.block.values; fractions = p.block.fractions; readers = p.readers } };

    ghost invariant = { λ p. AreFractions p.block.values p.block.fractions p.readers };
}

/// No place of the row has a value.
fn empty<T>(row: &mut Slots<Option<T>>, size: usize)
    requires { slots_len row.old ≡ size }
    ensures full { IsFull row.new }
    ensures items { slots_items row.new ≡ replicate size None }
    ensures place { (slots_ptr row.new ≡ slots_ptr row.old) × (slots_len row.new ≡ slots_len row.old) }
{
    for at in 0..size {
        row.put(at, None);
    }
}

impl<T> LentValues<T> {
    /// That many places, all empty, for that many readers.
    pub fn new(alloc: Global, size: usize, readers: u32) -> Result<LentValues<T>, AllocError>
        ensures values { IfOk result (λ places. places.values ≡ replicate size None) }
        ensures fractions { IfOk result (λ places. places.fractions ≡ unlent size readers) }
        ensures readers { IfOk result (λ places. places.readers ≡ readers) }
    {
        if !may_hold::<Option<T>>(size) {
            return Err(AllocError);
        }
        let room = UninitBlock::new(&alloc, size)?;
        let none = None;
        let (mut row, hold) = room.open(&none);
        let None = none else { unreachable!() };
        empty(&mut row, size);
        let block = Block::of(RawSlice::of(row), readers);
        Ok(LentValues {
            block,
            size,
            readers,
            hold,
            alloc,
        })
    }

    /// How many places there are.
    pub fn len(&self) -> usize
        ensures { result ≡ length self.now.values }
    {
        self.size
    }

    /// The value in a place, if there is such a place and it has one.
    pub fn get(&self, at: usize) -> Option<&T>
        ensures { option_copied result ≡ value_at self.now at }
    {
        if at < self.size {
            self.block.get(at).as_ref()
        } else {
            None
        }
    }

    /// The value in a place that has one.
    pub fn value(&self, at: usize) -> &T
        requires inside { at < length self.now.values }
        requires filled { IsSome (value_at self.now at) }
        ensures { value_at self.now at ≡ Some result.now }
    {
        let value = self.block.get(at);
        assert_unchecked(value.is_some());
        let Some(value) = value else { unreachable!() };
        value
    }

    /// Puts a value into an empty place.
    pub fn put(&mut self, at: usize, value: T)
        requires inside { at < length self.old.values }
        requires empty { value_at self.old at ≡ None }
        ensures { self.new ≡ record self.old { values = slice_set self.old.values at (Some value) } }
    {
        match self.block.edit(at).replace(value) {
            None => {}
            Some(_) => unreachable!(),
        }
    }

    /// Takes the value out of a place. It is lent to nobody.
    pub fn take(&mut self, at: usize) -> T
        requires inside { at < length self.old.values }
        requires filled { IsSome (value_at self.old at) }
        requires home { IsUnlent self.old.fractions at }
        ensures value { value_at self.old at ≡ Some result }
        ensures taken { self.new ≡ record self.old { values = slice_set self.old.values at None } }
    {
        let value = self.block.edit(at).take();
        assert_unchecked(value.is_some());
        let Some(value) = value else { unreachable!() };
        value
    }

    /// The value in a place, for a reader, for as long as its section is borrowed, whatever becomes of the places.
    pub fn look<'g, K>(&mut self, at: usize, reader: usize, section: &'g Fraction<K>) -> &'g T
        requires inside { at < length self.old.values }
        requires reader { reader < self.old.readers }
        requires filled { IsSome (value_at self.old at) }
        requires free { IsFreeFor section.now.lifetime (fraction_at self.old.fractions at reader) }
        ensures value { value_at self.old at ≡ Some result.now }
        ensures lent { self.new ≡ record self.old { fractions = lent at reader section.now.lifetime self.old.fractions } }
    {
        let value = self.block.look(at, reader, section);
        assert_unchecked(value.is_some());
        let Some(value) = value else { unreachable!() };
        value
    }

    /// What a reader was lent in a section that has ended is home again, in all places at once.
    pub fn settle(&mut self, reader: usize, ended: &EndedSection)
        requires { (at : ℕ) → IsFreeFor ended.now.name (fraction_at self.old.fractions at reader) }
        ensures { self.new ≡ record self.old { fractions = settled reader self.old.fractions } }
    {
        self.block.settle(reader, ended);
    }

    /// Puts another value into a place that has one, which comes out. It is lent to nobody.
    pub fn replace(&mut self, at: usize, value: T) -> T
        requires inside { at < length self.old.values }
        requires filled { IsSome (value_at self.old at) }
        requires home { IsUnlent self.old.fractions at }
        ensures was { value_at self.old at ≡ Some result }
        ensures now { self.new ≡ record self.old { values = slice_set self.old.values at (Some value) } }
    {
        let Some(was) = self.block.edit(at).replace(value) else {
            unreachable!()
        };
        was
    }

    /// Changes the value in a place. It is lent to nobody.
    pub fn edit<R, F: FnOnce(&mut T) -> R>(&mut self, at: usize, f: F) -> R
        requires inside { at < length self.old.values }
        requires filled { IsSome (value_at self.old at) }
        requires home { IsUnlent self.old.fractions at }
        requires callable { F.IsAlwaysCallable f }
        ensures { (was : T) × (now : T) × (value_at self.old at ≡ Some was) × FnOnceReturnsAtMut F.FnOnce f was result now ×
            (self.new ≡ record self.old { values = slice_set self.old.values at (Some now) }) }
    {
        let Some(value) = self.block.edit(at) else {
            unreachable!()
        };
        f(value)
    }

    /// Gives the memory back. The places are empty.
    pub fn destroy(self)
        requires { (at : ℕ) → value_at self at ≡ None }
    {
        let LentValues {
            block,
            size: _,
            readers: _,
            hold,
            alloc,
        } = self;
        hold.release(&alloc, block.into_strip());
    }
}
