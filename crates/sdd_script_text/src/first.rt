//! What a text begins with: its first line, the first word of a line.

ghost use Rattle.std.specs.Prelude.{◌≡◌, ◌≢◌, ℕ, ◌<◌, [], ◌∷◌, length, slice_index, MatchOption};
ghost use Rattle.sdd_script_text.specs.Call.{words};
ghost use Rattle.sdd_script_text.specs.Script.{lines};

/// Where a byte first stands.
fn first_at(bytes: &[u8], wanted: u8) -> Option<usize>
    ensures { MatchOption result ((i : ℕ) → i < length bytes.now → slice_index bytes.now i ≢ wanted)
        (λ k. (k < length bytes.now) × (slice_index bytes.now k ≡ wanted)
        × ((i : ℕ) → i < k → slice_index bytes.now i ≢ wanted)) }
{
    bytes.iter().position(|byte| *byte == wanted)
}

/// The line that a text begins with, without its line feed, and what follows it.
#[tactic(auto, using(crate::proofs::Scripts::lines_at, crate::proofs::Scripts::lines_none, std::proofs::lemmas::List::take_rest))]
pub fn first_line(text: &[u8]) -> (&[u8], &[u8])
    requires { 0 < length text.now }
    ensures lines { lines text.now ≡ result.0.now ∷ lines result.1.now }
    ensures shorter { length result.1.now < length text.now }
{
    match first_at(text, b'\n') {
        Some(end) => (&text[..end], &text[end + 1..]),
        None => (text, &[]),
    }
}

/// The first word of a line, and what follows the space behind it, if there is one.
#[tactic(auto, using(crate::proofs::Lines::by_space))]
pub fn split_word(text: &str) -> Option<(&str, &str)>
    ensures { MatchOption result (words text.now ≡ text.now ∷ []) (λ parts. words text.now ≡ parts.0.now ∷ words parts.1.now) }
{
    let space = first_at(text.as_bytes(), b' ')?;
    Some((&text[..space], &text[space + 1..]))
}
