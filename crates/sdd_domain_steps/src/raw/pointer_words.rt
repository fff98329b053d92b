//! The words of what raw cells point to.
ghost use Rattle.std.specs.Prelude.{◌≡◌, ◌<◌, ℕ};
ghost use Rattle.sdd_domain_invariant.specs.Codes.{pointers_end};
ghost use Rattle.sdd_domain_steps.specs.Local.{pointer_by};

use crate::cells::words::tag_in;
use sdd_participants::RawCellContents;

/// The word by which a raw cell points to this; no other word tells the same.
#[inline]
pub fn word_to(pointer: RawCellContents) -> u64
    ensures small { result < pointers_end }
    ensures tells { pointer_by result ≡ pointer }
    ensures only { (word : ℕ) → pointer_by word ≡ pointer → word ≡ result }
{
    let number = u8::from(pointer.tag) as u64;
    match pointer.named {
        Some(slot) => 4 * (slot as u64 + 1) + number,
        None => number,
    }
}

/// What a raw cell points to by this word.
#[inline]
pub fn pointer_in(word: u64) -> RawCellContents
    requires { word < pointers_end }
    ensures { result ≡ pointer_by word }
{
    let slot = word / 4;
    let named = if slot == 0 {
        None
    } else {
        Some((slot - 1) as u32)
    };
    RawCellContents {
        named,
        tag: tag_in(word),
    }
}
