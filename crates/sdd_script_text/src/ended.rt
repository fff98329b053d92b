//! How a play of a script or a schedule ends.

/// How a play of a script ended, or of a schedule, which has a step on each line.
#[derive(Clone, Copy, Debug, PartialEq, Eq)]
pub enum Ended {
    /// Every line was a call, or a step, and the answers are written.
    Played,
    /// The line with this number, counted from 1, is the first that is no call; nothing was run.
    NotACall(u64),
    /// The same of a schedule, for the first line that is no step.
    NotAStep(u64),
    LimitsOutOfRange,
    CannotRead,
    /// A beginning of the answers is written.
    CannotWrite,
    NoMemory,
}
