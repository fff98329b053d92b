//! What calls answer, as it is compared.
use sdd_core::{Refused, Tag};
use std::process::Abort;

/// What one call answered.
#[derive(Clone, Copy, Debug, PartialEq)]
pub enum Answer {
    /// There was nothing to call it with.
    Nothing,
    Done,
    Told(bool),
    Number(u64),
    /// What a cell holds, and its tag.
    Held(Option<u64>, Tag),
    /// Whether a cell of a pointer was given another one, or a tag, whether the one that it had before names something, and its tag.
    Pointed(bool, bool, Tag),
    /// Whether a cell was exchanged, what came out of it, or back, what it holds now, and its tag.
    Exchanged(bool, Option<u64>, Option<u64>, Tag),
    Refused(Refused),
}

impl Answer {
    /// The answer of a call that tells a number.
    pub fn of_number(told: Result<u64, Refused>) -> Answer {
        match told {
            Ok(number) => Answer::Number(number),
            Err(refused) => Answer::Refused(refused),
        }
    }

    /// The answer of a look.
    pub fn of_look(seen: Option<u64>) -> Answer {
        match seen {
            Some(number) => Answer::Number(number),
            None => Answer::Nothing,
        }
    }
}

/// One answer more.
pub fn note(rt: &impl Abort, answers: &mut Vec<Answer>, answer: Answer) {
    answers.push(answer).expect(rt, "there is memory");
}

/// A tag by a number that was drawn.
pub fn tag_of(draw: u64) -> Tag {
    match draw % 4 {
        0 => Tag::None,
        1 => Tag::First,
        2 => Tag::Second,
        _ => Tag::Both,
    }
}
