ghost use Rattle.std.specs.Prelude.{◌≡◌, ℕ, ◌<◌, ◌≤◌, All, IsNone, IsSome, IsTrue, ◌↔◌, IfOk, MatchResult, Some, None, length, replicate, vec_capacity};
ghost use Rattle.std.specs.List.{range_with_len};
ghost use Rattle.sdd_participants.specs.Slab.{Entries, entry_at, with_entry, without_entry, IsEmptyAt, IsFull};

use std::alloc::{AllocError, Global};
use std::marker::Model;

/// A table of a fixed number of places, each empty or with an entry.
///
/// An empty place is found at once, by a list of the empty ones. The list alone tells that a place is empty, so who asks for an entry has to know that
/// one is there. Memory is taken when the table is made, and never again.
#[derive(Drop)]
pub struct Slab<E> {
    /// Each entry, and in an empty place one that counts for nothing.
    entries: Vec<E>,
    empty: Vec<u32>,
}

impl<E> Model for Slab<E> {
    ghost use Rattle.sdd_participants.specs.Slab.{Entries, IsListed, but_empty};
    ghost use Rattle.std.specs.Prelude.{vec_capacity};

    ghost Value = { Entries E };

    ghost view = { λ t. but_empty t.entries.items t.empty.items };

    ghost invariant = { λ t. IsListed (but_empty t.entries.items t.empty.items) t.empty.items (vec_capacity t.empty) };
}

/// The numbers from 0 on, so many.
fn numbers_below(alloc: Global, size: u32) -> Result<Vec<u32>, AllocError>
    ensures items { IfOk result (λ numbers. numbers.items ≡ range_with_len 0 size) }
    ensures room { IfOk result (λ numbers. size ≤ vec_capacity numbers) }
{
    let mut numbers = Vec::with_capacity(alloc, size as usize)?;
    for number in 0..size {
        numbers.push_reserved(number);
    }
    Ok(numbers)
}

/// So many of the same.
fn copies<E: Copy>(alloc: Global, size: u32, entry: E) -> Result<Vec<E>, AllocError>
    ensures { IfOk result (λ entries. entries.items ≡ replicate size entry) }
{
    let mut entries = Vec::with_capacity(alloc, size as usize)?;
    for _place in 0..size {
        entries.push_reserved(entry);
    }
    Ok(entries)
}

impl<E: Copy> Slab<E> {
    /// A table of that many places, all empty. The blank is what lies in a place that never had an entry; it shows nowhere.
    pub fn new(alloc: Global, size: u32, blank: E) -> Result<Slab<E>, AllocError>
        ensures { IfOk result (λ t. t ≡ replicate size None) }
    {
        let entries = copies(alloc, size, blank)?;
        let empty = numbers_below(alloc, size)?;
        Ok(Slab { entries, empty })
    }

    /// How many places there are.
    pub fn len(&self) -> usize
        ensures { result ≡ length self.now }
    {
        self.entries.len()
    }

    /// Puts an entry into some empty place, and tells which; where none is empty it comes back.
    pub fn claim(&mut self, entry: E) -> Result<u32, E>
        ensures claimed { MatchResult result
            (λ k. IsEmptyAt self.old k × (self.new ≡ with_entry self.old k entry))
            (λ back. IsFull self.old × (back ≡ entry) × (self.new ≡ self.old)) }
    {
        let Some(place) = self.empty.pop() else {
            return Err(entry);
        };
        self.entries[place as usize] = entry;
        Ok(place)
    }

    /// Takes an entry out, and leaves its place empty.
    pub fn release(&mut self, place: u32)
        requires { IsSome (entry_at self.old place) }
        ensures { self.new ≡ without_entry self.old place }
    {
        self.empty.push_reserved(place);
    }

    /// Puts another entry in the place of one.
    pub fn replace(&mut self, place: u32, entry: E)
        requires { IsSome (entry_at self.old place) }
        ensures { self.new ≡ with_entry self.old place entry }
    {
        self.entries[place as usize] = entry;
    }

    /// The entry in a place that is not empty.
    pub fn at(&self, place: u32) -> E
        requires { IsSome (entry_at self.now place) }
        ensures { entry_at self.now place ≡ Some result }
    {
        self.entries[place as usize]
    }

    /// Every place is empty.
    pub fn is_empty(&self) -> bool
        ensures { IsTrue result ↔ All (λ e. IsNone e) self.now }
    {
        self.empty.len() == self.len()
    }

    /// No place is empty.
    pub fn is_full(&self) -> bool
        ensures { IsTrue result ↔ IsFull self.now }
    {
        self.empty.is_empty()
    }
}
