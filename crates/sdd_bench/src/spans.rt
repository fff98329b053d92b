//! When participants worked, and what a turn took them.
use std::alloc::{AllocError, Global};
use std::fmt;
use std::fmt::Display;

/// When a participant worked in a round, in nanoseconds.
#[derive(Clone, Copy, Debug, PartialEq, Eq)]
pub struct Span {
    pub begin: u64,
    pub end: u64,
}

/// A tenth of a nanosecond, so often.
#[derive(Clone, Copy, Debug, PartialEq, Eq, PartialOrd, Ord)]
pub struct Tenths(pub u64);

impl Display for Tenths {
    fn fmt<W: fmt::Write>(&self, f: &mut fmt::Formatter<W>) -> fmt::Result {
        write!(f, "{}.{}", self.0 / 10, self.0 % 10)
    }
}

/// The spans of several participants in one round.
#[derive(Clone, Copy)]
struct Overlap {
    /// When the last one began.
    begin: u64,
    /// When the first one ended.
    end: u64,
    longest: u64,
    total: u64,
    participants: u64,
}

impl Overlap {
    fn new() -> Overlap {
        Overlap {
            begin: 0,
            end: u64::MAX,
            longest: 0,
            total: 0,
            participants: 0,
        }
    }

    /// The same with one participant more.
    fn with(self, span: Span) -> Overlap {
        let length = span.end.saturating_sub(span.begin);
        Overlap {
            begin: self.begin.max(span.begin),
            end: self.end.min(span.end),
            longest: self.longest.max(length),
            total: self.total.saturating_add(length),
            participants: self.participants.saturating_add(1),
        }
    }

    /// All worked at once for four fifths of the longest span.
    fn counts(&self) -> bool {
        let common = self.end.saturating_sub(self.begin);
        common.saturating_mul(5) >= self.longest.saturating_mul(4)
    }

    /// What each of so many turns took, in the mean over the participants.
    fn mean(&self, turns: u64) -> Option<Tenths> {
        let all_turns = self.participants.saturating_mul(turns);
        let tenths = self.total.saturating_mul(10).saturating_add(all_turns / 2);
        Some(Tenths(tenths.checked_div(all_turns)?))
    }
}

/// What a turn took in that round, if all participants worked at once then.
fn mean_in(spans: &[Vec<Span>], round: usize, turns: u64) -> Option<Tenths> {
    let mut overlap = Overlap::new();
    for of_participant in spans {
        overlap = overlap.with(*of_participant.get(round)?);
    }
    if overlap.counts() {
        overlap.mean(turns)
    } else {
        None
    }
}

/// What a turn took in each round that counts.
fn means_of(alloc: Global, spans: &[Vec<Span>], turns: u64) -> Result<Vec<Tenths>, AllocError> {
    let mut means = Vec::new(alloc);
    let rounds = spans.first().map_or(0, Vec::len);
    for round in 0..rounds {
        if let Some(mean) = mean_in(spans, round, turns) {
            means.push(mean)?;
        }
    }
    Ok(means)
}

/// What a turn took in the median over the rounds that count, if any does.
pub fn median_of(
    alloc: Global,
    spans: &[Vec<Span>],
    turns: u64,
) -> Result<Option<Tenths>, AllocError> {
    let mut means = means_of(alloc, spans, turns)?;
    means.sort_unstable();
    Ok(means.get(means.len() / 2).copied())
}
