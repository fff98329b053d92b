//! What is needed where numbers and lines are read as those of a script.

ghost use Rattle.std.specs.Prelude.{ℕ, MatchOption};
ghost use Rattle.sdd_script_text.specs.Call.{IsWordOf};

use crate::call::reading;
pub use crate::first::{first_line, split_word};

/// The number of 64 bits that a word is in its one form, or `None` where it is none.
pub fn number(word: &str) -> Option<u64>
    ensures { MatchOption result (¬ ((n : ℕ) × IsWordOf n word.now)) (λ n. IsWordOf n word.now) }
{
    reading::number(word)
}
