ghost use Rattle.std.specs.Prelude.{◌≡◌, ◌↔◌, ◌+◌, ◌<◌, ◌≤◌, [], ◌∷◌, ◌++◌, length, option_to_list, All, IsSome, IfOk, IfSome, vec_capacity};

use std::alloc::{AllocError, Global};

/// Where a participant looks for a free slot: among those that it gave back, and then from where it found one last.
#[derive(Drop)]
pub struct FreeSlotHints {
    given_back: Vec<u32>,
    next: u32,
    slots: u32,
    ghost inside: { All (λ slot. slot < slots) given_back.items × (next ≤ slots) },
}

impl FreeSlotHints {
    /// One that has given none back. Memory for all slots is taken here, and none later.
    pub fn new(alloc: Global, slots: u32) -> Result<FreeSlotHints, AllocError>
        ensures slots { IfOk result (λ known. known.slots ≡ slots) }
        ensures first { IfOk result (λ known. (known.given_back.items ≡ []) × (known.next ≡ 0)) }
        ensures room { IfOk result (λ known. slots ≤ vec_capacity known.given_back) }
    {
        Ok(FreeSlotHints {
            given_back: Vec::with_capacity(alloc, slots as usize)?,
            next: 0,
            slots,
        })
    }

    /// How many it remembers.
    pub fn len(&self) -> usize
        ensures { result ≡ length self.now.given_back.items }
    {
        self.given_back.len()
    }

    /// Where a walk over all slots begins.
    pub fn next(&self) -> u32
        ensures { (result ≡ self.now.next) × (result ≤ self.now.slots) }
    {
        self.next
    }

    /// The next walk begins at this slot.
    pub fn begin_at(&mut self, slot: u32)
        requires { slot ≤ self.old.slots }
        ensures slots { self.new.slots ≡ self.old.slots }
        ensures next { self.new.next ≡ slot }
        ensures given_back { self.new.given_back ≡ self.old.given_back }
    {
        self.next = slot;
    }

    /// A slot was found: the next walk begins behind it.
    pub fn find(&mut self, slot: u32)
        requires { slot < self.old.slots }
        ensures slots { self.new.slots ≡ self.old.slots }
        ensures next { self.new.next ≡ slot + 1 }
        ensures given_back { self.new.given_back ≡ self.old.given_back }
    {
        self.next = slot + 1;
    }

    /// The one that was given back last, which is forgotten.
    pub fn pop(&mut self) -> Option<u32>
        ensures inside { IfSome result (λ slot. slot < self.old.slots) }
        ensures slots { self.new.slots ≡ self.old.slots }
        ensures next { self.new.next ≡ self.old.next }
        ensures last { self.old.given_back.items ≡ self.new.given_back.items ++ option_to_list result }
        ensures some { IsSome result ↔ (0 < length self.old.given_back.items) }
        ensures room { vec_capacity self.new.given_back ≡ vec_capacity self.old.given_back }
    {
        self.given_back.pop()
    }

    /// Remembers a slot that was given back, as long as there is room.
    pub fn remember(&mut self, slot: u32)
        requires { slot < self.old.slots }
        ensures slots { self.new.slots ≡ self.old.slots }
        ensures next { self.new.next ≡ self.old.next }
        ensures remembered { length self.old.given_back.items < vec_capacity self.old.given_back
            → self.new.given_back.items ≡ self.old.given_back.items ++ slot ∷ [] }
        ensures full { ¬ (length self.old.given_back.items < vec_capacity self.old.given_back) → self.new.given_back ≡ self.old.given_back }
        ensures room { vec_capacity self.new.given_back ≡ vec_capacity self.old.given_back }
    {
        if self.given_back.len() < self.given_back.capacity() {
            self.given_back.push_reserved(slot);
        }
    }
}
