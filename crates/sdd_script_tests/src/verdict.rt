//! What comes of an example.

use sdd_script::Ended;
use std::fmt;

#[derive(Drop)]
pub enum Verdict {
    /// So many lines are answered as expected, and the scene closes so.
    AsExpected(u64),
    /// The line of this number is none that an example has.
    NoLine(u64),
    /// The play ends before all lines are answered.
    Ended(Ended),
    /// The answers are these.
    Answered(Vec<u8>),
    /// The tally at the close is this.
    Closed(String),
}

impl fmt::Display for Verdict {
    fn fmt<W: fmt::Write>(&self, f: &mut fmt::Formatter<W>) -> fmt::Result {
        match self {
            Verdict::AsExpected(lines) => write!(f, "{lines} lines as expected"),
            Verdict::NoLine(number) => write!(f, "NOT AN EXAMPLE at line {number}"),
            Verdict::Ended(ended) => write!(f, "NOT AS EXPECTED, but ended {ended:?}"),
            Verdict::Answered(written) => {
                write!(
                    f,
                    "NOT AS EXPECTED, but\n{:?}",
                    str::from_utf8(written.as_slice())
                )
            }
            Verdict::Closed(tally) => write!(f, "NOT AS EXPECTED, but closed {tally}"),
        }
    }
}
