//! What the crates above need beyond the public surface.

ghost use Rattle.std.specs.Prelude.{◌≡◌, IfOk, IsOkUnless};
ghost use Rattle.sdd_machine.specs.Table.{new_state};
ghost use Rattle.sdd_machine.specs.Sizes.{size_for};

use crate::machine::{Machine, Step, items_for, places_for};
use sdd_core::Refused;
use std::alloc::Global;

/// A new machine with as many places and items as the steps name.
///
/// Refused with `NoMemory` where memory was refused.
pub fn machine_for(alloc: Global, steps: &[Step]) -> Result<Machine, Refused>
    ensures machine { IfOk result (λ machine. machine ≡ new_state (size_for steps.now)) }
    ensures no_memory { IsOkUnless result Refused.NoMemory }
{
    Machine::new(alloc, places_for(steps), items_for(steps))
}
