//! The arguments of a verb.

use super::Argument;
use std::marker::Model;

/// No verb has more arguments.
const MOST_ARGUMENTS: usize = 8;

/// The arguments of a verb, in order. They take no memory of the allocator.
#[derive(Drop)]
pub(super) struct Arguments {
    items: [Argument; MOST_ARGUMENTS],
    count: usize,
}

impl Model for Arguments {
    ghost use Rattle.std.specs.Prelude.{List, take, ◌≤◌};
    ghost use Rattle.sdd_script_text.specs.declared.call.Argument.{Argument};

    ghost Value = { List Argument };

    ghost view = { λ arguments. take arguments.count arguments.items };

    ghost invariant = { λ arguments. arguments.count ≤ 8 };
}

impl Arguments {
    ghost use Rattle.std.specs.Prelude.{◌≡◌, ◌≤◌, ◌<◌, [], ◌∷◌, ◌++◌, length, MatchOption};
    ghost use Rattle.sdd_script_text.specs.Reading.{most_arguments};

    /// No arguments.
    pub(super) fn none() -> Arguments
        ensures { result ≡ [] }
    {
        Arguments {
            items: [Argument::Number(0); MOST_ARGUMENTS],
            count: 0,
        }
    }

    /// Adds an argument at the end, or answers `None` where there are as many as may be.
    pub(super) fn push(&mut self, argument: Argument) -> Option<()>
        ensures { MatchOption result (most_arguments ≤ length self.old)
            (λ _. (length self.old < most_arguments) × (self.new ≡ self.old ++ argument ∷ [])) }
    {
        if self.count == MOST_ARGUMENTS {
            return None;
        }
        self.items[self.count] = argument;
        self.count += 1;
        Some(())
    }

    pub(super) fn as_slice(&self) -> &[Argument]
        ensures { result.now ≡ self.now }
    {
        &self.items[..self.count]
    }
}
