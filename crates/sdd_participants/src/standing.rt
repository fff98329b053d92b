ghost use Rattle.std.specs.Prelude.{◌≡◌};
ghost use Rattle.sdd_participants.specs.Slab.{Entries, entry_at};
ghost use Rattle.sdd_participants.specs.declared.standing.Standing.{Standing};

use sdd_core::{SlotName, Tag};

/// How an item stands. A slot without an item is free.
#[derive(Clone, Copy, Debug, PartialEq, Eq)]
pub enum Standing {
    /// Out as owned.
    Owned,
    /// Out as raw.
    Raw,
    /// Shared by that many owners.
    Shared(u64),
    /// It waits as an ordinary item.
    Retired,
    /// It waits for the collector of that number.
    Private(u32),
}

/// What a cell holds: an owned or shared item by its slot, or nothing, and a tag.
#[derive(Clone, Copy, Debug, PartialEq, Eq)]
pub struct CellContents {
    pub held: Option<SlotName>,
    pub tag: Tag,
}

/// What a raw pointer names: the item in a slot, by the number of the slot's name, or nothing; and its tag.
#[derive(Clone, Copy, Debug, PartialEq, Eq)]
pub struct RawCellContents {
    pub named: Option<u32>,
    pub tag: Tag,
}

/// Who knows how each slot stands.
pub trait StandingLookup {
    ghost standings: { Self → Entries Standing };

    /// How the item in a slot stands; nothing where the slot is free.
    fn stands(&self, slot: SlotName) -> Option<Standing>
        ensures { result ≡ entry_at (standings self.now) slot };
}
