//! A line of a schedule, which is a step.

ghost use Rattle.std.specs.Prelude.{◌≡◌, ℕ, ◌≤◌, length, MatchOption, OnSome};
ghost use Rattle.sdd_script.specs.ScheduleLine.{IsBelow, IsTextOf, IsStepText};
ghost use Rattle.sdd_script.specs.ScheduleReading.{called, steps_at};

use sdd_machine::Step;
use sdd_machine::machine::{MAX_ITEMS, MAX_PLACES};
use sdd_script_text::inner::{number, split_word};
use std::str;

/// The step whose text a line is, without a line feed, or `None` where it is that of no step: a verb, the number of a
/// place and, behind `retire`, that of an item, as in `publish 0` and `retire 0 7`.
#[tactic(auto, using(crate::proofs::ScheduleLines::short_from_step, crate::proofs::ScheduleLines::utf8_from_step))]
pub fn parse(line: &[u8]) -> Option<Step>
    ensures step { MatchOption result (¬ IsStepText line.now) (λ step. IsTextOf step line.now) }

    // So a longer line is no step.
    ensures short { OnSome result (length line.now ≤ 200) }
{
    match str::from_utf8(line) {
        Ok(text) => step(text),
        Err(_) => None,
    }
}

#[tactic(auto, using(crate::proofs::ScheduleLines::one_step))]
fn step(text: &str) -> Option<Step>
    ensures { MatchOption result (¬ IsStepText text.now) (λ step. IsTextOf step text.now) }
{
    let (verb, rest) = split_word(text)?;
    match split_word(rest) {
        None => at_place(verb, below(MAX_PLACES, rest)?),
        Some((place, item)) => match verb {
            "retire" => Some(Step::Retire(below(MAX_PLACES, place)?, below(MAX_ITEMS, item)?)),
            _ => None,
        },
    }
}

/// The step with this verb that names a place alone.
fn at_place(verb: &str, place: u32) -> Option<Step>
    ensures { result ≡ called verb.now (steps_at place) }
{
    match verb {
        "register" => Some(Step::Register(place)),
        "read" => Some(Step::Read(place)),
        "publish" => Some(Step::Publish(place)),
        "lock" => Some(Step::Lock(place)),
        "adopt" => Some(Step::Adopt(place)),
        "look" => Some(Step::Look(place)),
        "advance" => Some(Step::Advance(place)),
        "unlock" => Some(Step::Unlock(place)),
        "close" => Some(Step::Close(place)),
        "end" => Some(Step::End(place)),
        _ => None,
    }
}

/// The number below a limit that a word is.
#[tactic(auto, using(crate::proofs::ScheduleLines::one_number))]
fn below(limit: u32, word: &str) -> Option<u32>
    ensures { MatchOption result (¬ ((n : ℕ) × IsBelow limit n word.now)) (λ n. IsBelow limit n word.now) }
{
    let number = number(word)?;
    if number < u64::from(limit) {
        Some(number as u32)
    } else {
        None
    }
}
