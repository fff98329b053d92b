//! A whole script: its lines as calls, or the first that is no call.

ghost use Rattle.std.specs.Prelude.{◌≡◌, List, ◌<◌, MatchOption, IfOk, IfErr};
ghost use Rattle.sdd_script_text.specs.Call.{IsTextOf, IsCallText};
ghost use Rattle.sdd_script_text.specs.declared.call.Call.{Call};
ghost use Rattle.sdd_script_text.specs.Script.{most_calls, AreCalls, IsCalls, IsScript};

use crate::call::Call;
use crate::first::first_line;
use sdd_core::Refused;
use std::alloc::Global;

/// At most so many lines are calls, and the next is not.
pub const MOST_CALLS: usize = 65536;

/// What a text is as a script.
#[derive(Debug, Drop)]
pub enum Script {
    /// Every line is a call.
    Calls(Vec<Call>),
    /// The line with this number, counted from 1, is the first that is no call.
    Fault(u64),
}

/// Reads a text, line by line, as a script. The last line may lack its line feed; a text without a byte has no line.
///
/// Refused with `NoMemory` alone.
#[tactic(auto, using(crate::proofs::Scripts::one_script))]
pub fn parse_all(alloc: Global, text: &[u8]) -> Result<Script, Refused>
    ensures script { IfOk result (λ script. IsScript text.now script) }

    // No other calls have this text.
    ensures only { IfOk result
        (λ script. (calls : List Call) → AreCalls text.now calls → IsCalls calls script) }
    ensures err { IfErr result (λ refused. refused ≡ Refused.NoMemory) }
{
    let mut calls = Vec::new(alloc);
    let mut rest = text;
    while !rest.is_empty() {
        let (line, after) = first_line(rest);
        match call_after(calls.len(), line) {
            Some(call) => calls.push(call)?,
            None => return Ok(Script::Fault(calls.len() as u64 + 1)),
        }
        rest = after;
    }
    Ok(Script::Calls(calls))
}

/// The call that a line is, with so many calls before it.
fn call_after(before: usize, line: &[u8]) -> Option<Call>
    ensures { MatchOption result (¬ ((before < most_calls) × IsCallText line.now))
        (λ call. (before < most_calls) × IsTextOf call line.now) }
{
    if before < MOST_CALLS {
        Call::parse(line)
    } else {
        None
    }
}
