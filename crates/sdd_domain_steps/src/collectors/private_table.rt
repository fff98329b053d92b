//! Which items wait with a participant for a collector, and for which.
ghost use Rattle.std.specs.Prelude.{◌≡◌, ◌<◌, IfOk, None, length, replicate, true, false};
ghost use Rattle.sdd_participants.specs.Slab.{entry_at, with_entry, without_entry};
ghost use Rattle.sdd_domain_steps.specs.PrivateTable.{standings_of};

use sdd_core::SlotName;
use sdd_participants::{Standing, StandingLookup};
use std::alloc::{AllocError, Global};
use std::marker::Model;

/// For which collector the item of each slot waits with the participant, where it does.
#[derive(Drop)]
pub struct PrivateTable {
    collectors: Vec<Option<u32>>,
    /// Nothing was put in yet, so that nothing is looked for.
    unused: bool,
}

impl Model for PrivateTable {
    ghost use Rattle.std.specs.Prelude.{◌≡◌, ℕ, None, true};
    ghost use Rattle.sdd_participants.specs.Slab.{entry_at};
    ghost use Rattle.sdd_domain_steps.specs.PrivateTable.{PrivateEntries};

    ghost Value = { PrivateEntries };

    ghost view = { λ t. record { entries = t.collectors.items; unused = t.unused } };

    ghost invariant = { λ t. t.unused ≡ true → (slot : ℕ) → entry_at t.collectors.items slot ≡ None };
}

impl StandingLookup for PrivateTable {
    ghost standings = { λ t. standings_of t.entries };

    fn stands(&self, slot: SlotName) -> Option<Standing> {
        match self.collector(slot.number()) {
            Some(collector) => Some(Standing::Private(collector)),
            None => None,
        }
    }
}

/// So many slots, none of whose items waits for a collector.
fn no_collectors(alloc: Global, slots: u32) -> Result<Vec<Option<u32>>, AllocError>
    ensures { IfOk result (λ collectors. collectors.items ≡ replicate slots None) }
{
    let mut collectors = Vec::with_capacity(alloc, slots as usize)?;
    for _slot in 0..slots {
        collectors.push_reserved(None);
    }
    Ok(collectors)
}

impl PrivateTable {
    /// None, with memory for so many slots. No memory is taken later.
    pub fn new(alloc: Global, slots: u32) -> Result<PrivateTable, AllocError>
        ensures none { IfOk result (λ made. made.entries ≡ replicate slots None) }
        ensures unused { IfOk result (λ made. made.unused ≡ true) }
    {
        Ok(PrivateTable {
            collectors: no_collectors(alloc, slots)?,
            unused: true,
        })
    }

    /// The collector for which the item of a slot waits, if it does.
    fn collector(&self, slot: u32) -> Option<u32>
        ensures { result ≡ entry_at self.now.entries slot }
    {
        self.collectors.get(slot as usize).copied().flatten()
    }

    /// The item of a slot waits for a collector.
    pub fn put(&mut self, slot: u32, collector: u32)
        requires { slot < length self.old.entries }
        ensures entry { self.new.entries ≡ with_entry self.old.entries slot collector }
        ensures used { self.new.unused ≡ false }
    {
        self.unused = false;
        self.collectors[slot as usize] = Some(collector);
    }

    /// The item of a slot waits for no collector any more. For which it did, if it did.
    #[inline]
    pub fn take(&mut self, slot: u32) -> Option<u32>
        requires { slot < length self.old.entries }
        ensures collector { result ≡ entry_at self.old.entries slot }
        ensures taken { self.new.entries ≡ without_entry self.old.entries slot }
        ensures unused { self.new.unused ≡ self.old.unused }
    {
        if self.unused {
            return None;
        }
        self.collectors[slot as usize].take()
    }
}
