//! One owner more of an item whose value nobody moves, of whose owners there may be several.
ghost use Rattle.std.specs.Prelude.{◌<◌, None};
ghost use Rattle.sdd_domain_invariant.specs.Epoch.{HasPlace};
ghost use Rattle.sdd_domain_invariant.specs.Fractions.FractionSteps.{IsStill};
ghost use Rattle.sdd_atomics.specs.SeatAtTable.{slots_of, facts_at};
ghost use Rattle.sdd_atomics.specs.DomainSeat.{view, epoch, slots};
ghost use Rattle.sdd_domain_steps.specs.InPlace.{IsBare};
ghost use Rattle.sdd_domain_steps.specs.SeenOwners.{Ends, Tries};

use crate::cells::values::{LooseOwner, part_with};
use sdd_atomics::SeatAtTable;
use sdd_atomics::steps::slots::{HELD, MOST_SHARED, add_seen, look};
use sdd_core::Refused;

/// So much does the word of a slot have whose item several may own, and none does any more.
const NO_OWNER: u64 = 1 << 63;

/// What a try at one owner more came to.
pub enum Tried {
    /// There is one.
    Came(LooseOwner),
    /// The item has no owner that counts any more.
    Gone,
    /// As many own it as may.
    Most,
    /// Others changed the slot's word meanwhile, or one holds the slot.
    Lost,
}

/// Tries to have one owner more of an item whose value nobody moves.
pub fn try_seen(seat: &mut SeatAtTable<'_>, slot: u32) -> Tried
    requires inside { slot < slots_of seat.old }
    requires place { HasPlace (epoch seat.old) }
    requires bare { IsBare (view seat.old) }
    requires still { IsStill slot (view seat.old) }
    ensures { Tries (facts_at seat.old) slot result seat.old seat.new }
{
    let word = look(seat, slot);
    if word == HELD {
        return Tried::Lost;
    }
    if word <= NO_OWNER {
        return Tried::Gone;
    }
    if word >= MOST_SHARED {
        return Tried::Most;
    }
    if add_seen(seat, slot, word) != word {
        return Tried::Lost;
    }
    Tried::Came(part_with(seat, slot))
}

/// The same, tried so often. None where the item has no owner that counts any more.
///
/// `TooManyOwners` where as many own it as may; `Contended` where so many tries were lost.
pub fn own_seen(
    seat: &mut SeatAtTable<'_>,
    slot: u32,
    tries: u64,
) -> Result<Option<LooseOwner>, Refused>
    requires inside { slot < slots_of seat.old }
    requires place { HasPlace (epoch seat.old) }
    requires bare { IsBare (view seat.old) }
    requires still { IsStill slot (view seat.old) }
    requires tries { 0 < tries }
    ensures { Ends (facts_at seat.old) slot result seat.old seat.new }
{
    for _attempt in 0..tries {
        match try_seen(seat, slot) {
            Tried::Came(owner) => return Ok(Some(owner)),
            Tried::Gone => return Ok(None),
            Tried::Most => return Err(Refused::TooManyOwners),
            Tried::Lost => {}
        }
    }
    Err(Refused::Contended)
}
