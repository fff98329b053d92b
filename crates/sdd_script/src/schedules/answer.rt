//! The answers of a schedule, each of which is a line.

ghost use Rattle.std.specs.Prelude.{◌≡◌, ◌++◌, codes, OnOk, IfOk, IfErr, string_bytes};
ghost use Rattle.sdd_script.specs.ScheduleAnswer.{found, text_of, text_of_all, text_of_fault};

use sdd_core::Refused;
use sdd_machine::Did;
use std::alloc::{AllocError, Global};

/// The text of answers: a line for each, ended by a line feed.
///
/// Refused with `NoMemory` alone.
pub fn print_all(alloc: Global, answers: &[Did]) -> Result<Vec<u8>, Refused>
    ensures text { IfOk result (λ bytes. bytes.items ≡ text_of_all answers.now) }
    ensures err { IfErr result (λ refused. refused ≡ Refused.NoMemory) }
{
    let mut text = String::new(alloc);
    for answer in answers {
        push_answer(&mut text, *answer)?;
    }
    Ok(text.into_bytes())
}

/// The text that tells that the line with this number, counted from 1, is the first that is no step.
///
/// Refused with `NoMemory` alone.
pub fn print_fault(alloc: Global, line: u64) -> Result<Vec<u8>, Refused>
    ensures text { IfOk result (λ bytes. bytes.items ≡ text_of_fault line) }
    ensures err { IfErr result (λ refused. refused ≡ Refused.NoMemory) }
{
    let text = format!(in alloc; "line {line}: not a step\n")?;
    Ok(text.into_bytes())
}

fn push_answer(text: &mut String, answer: Did) -> Result<(), AllocError>
    ensures { OnOk result
        (string_bytes text.new ≡ string_bytes text.old ++ (text_of answer ++ codes "\n")) }
{
    match answer {
        Did::NotPossible => text.push_str("not possible\n"),
        Did::Done => text.push_str("done\n"),
        Did::Opened {
            count,
            changed,
            reclaimed,
        } => write!(
            text,
            "opened {count} {} reclaimed {reclaimed}\n",
            found(changed)
        ),
        Did::Looked { passed: true } => text.push_str("passed\n"),
        Did::Looked { passed: false } => text.push_str("not passed\n"),
        Did::Advanced { raised: true } => text.push_str("raised\n"),
        Did::Advanced { raised: false } => text.push_str("not raised\n"),
    }
}

/// What is said of a count, beside the one found at the opening before.
fn found(changed: bool) -> &'static str
    ensures { result.now ≡ found changed }
{
    if changed { "changed" } else { "same" }
}
