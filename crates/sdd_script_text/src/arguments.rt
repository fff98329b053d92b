//! What the program's arguments ask for.
ghost use Rattle.std.specs.Prelude.{◌↔◌, IsTrue, drop, map, MatchOption, string_bytes};
ghost use Rattle.sdd_core.specs.declared.limits.Limits.{Limits};
ghost use Rattle.sdd_script_text.specs.Choice.{AreLimits, AreSteps, Chooses};

use crate::inner::number;
use sdd_core::Limits;

/// What the arguments ask for.
#[derive(Clone, Copy, Debug, PartialEq, Eq)]
pub enum Choice {
    /// To play the script of standard input on a world within these limits, which may be out of their ranges.
    Script(Limits),
    /// To play the schedule of standard input, which has a step of the machine on each line.
    Steps,
    /// Nothing that the program does: it tells how it is used.
    Usage,
}

/// The limits of a script where none are given.
pub const USUAL_LIMITS: Limits = Limits {
    participants: 8,
    slots: 64,
    cells: 128,
    jobs: 8,
    nesting: 8,
    tries: 1,
};

/// What the arguments ask for, the first of which is the program's name.
pub fn asked(arguments: &[String]) -> Choice
    ensures { Chooses (map string_bytes (drop 1 arguments.now)) result }
{
    match arguments {
        [_name, words @ ..] => chosen(words),
        [] => chosen(&[]),
    }
}

/// What the words behind the program's name ask for: no word for the usual limits, six numbers in the order of
/// `Limits`, written as in a script, or the one word `steps`.
pub fn chosen(words: &[String]) -> Choice
    ensures { Chooses (map string_bytes words.now) result }
{
    if words.is_empty() {
        return Choice::Script(USUAL_LIMITS);
    }
    if are_steps(words) {
        return Choice::Steps;
    }
    match limits(words) {
        Some(limits) => Choice::Script(limits),
        None => Choice::Usage,
    }
}

/// Whether the words ask for a schedule.
#[tactic(auto, using(crate::proofs::Lines::lone_word))]
fn are_steps(words: &[String]) -> bool
    ensures { IsTrue result ↔ AreSteps (map string_bytes words.now) }
{
    match words {
        [word] => word.as_str() == "steps",
        _ => false,
    }
}

fn limits(words: &[String]) -> Option<Limits>
    ensures { MatchOption result (¬ ((limits : Limits) × AreLimits limits (map string_bytes words.now)))
        (λ limits. AreLimits limits (map string_bytes words.now)) }
{
    let [participants, slots, cells, jobs, nesting, tries] = words else {
        return None;
    };
    Some(Limits {
        participants: number(participants.as_str())?,
        slots: number(slots.as_str())?,
        cells: number(cells.as_str())?,
        jobs: number(jobs.as_str())?,
        nesting: number(nesting.as_str())?,
        tries: number(tries.as_str())?,
    })
}
