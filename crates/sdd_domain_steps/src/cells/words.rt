//! The words of cells that hold owners.
ghost use Rattle.std.specs.Prelude.{◌≡◌, ◌-◌, ◌%◌, ◌^◌, ◌<◌, ◌≤◌, [], ◌∷◌, ◌↔◌, IfSome, IsTrue, MatchOption, None, Some, slice_get};
ghost use Rattle.sdd_core.specs.Tag.{number_of};
ghost use Rattle.sdd_domain_invariant.specs.Codes.{held_slots};
ghost use Rattle.sdd_domain_steps.specs.CellWords.{listed};
ghost use Rattle.sdd_domain_steps.specs.Local.{contents_of, tag_by};

use sdd_core::{SlotName, Tag};
use sdd_participants::CellContents;

/// So much of a cell's word says which slot it holds an owner of, and has its tag.
const BELOW_GENERATION: u64 = 134_217_728;

/// No slot has such a number, nor a greater one.
const UNNAMED: u32 = 33_554_431;

/// The word of a cell that holds none and has no tag: none is held below the generation.
pub const NULL_WORD: u64 = BELOW_GENERATION;

/// Where the value of the item lies whose owner a cell holds that has this word, if it holds one.
#[inline]
pub fn value_held(word: u64) -> Option<usize>
    ensures held { result ≡ slice_get (held_slots word) 0 }
    ensures small { IfSome result (λ slot. slot < 2 ^ 25 - 1) }
{
    let named = (word % BELOW_GENERATION / 4) as usize;
    if named == 0 { None } else { Some(named - 1) }
}

/// The slot whose owner a cell holds that has this word, if it holds one.
#[inline]
pub fn held_slot(word: u64) -> Option<u32>
    ensures held { result ≡ slice_get (held_slots word) 0 }
    ensures small { IfSome result (λ slot. slot < 2 ^ 25 - 1) }
{
    let slot = ((word % BELOW_GENERATION / 4) as u32).wrapping_sub(1);
    if slot < UNNAMED { Some(slot) } else { None }
}

/// The tag of a cell that has this word.
#[inline]
pub fn tag_in(word: u64) -> Tag
    ensures { result ≡ tag_by (word % 4) }
{
    match word % 4 {
        1 => Tag::First,
        2 => Tag::Second,
        3 => Tag::Both,
        _ => Tag::None,
    }
}

/// What a cell holds that has this word.
#[inline]
pub fn contents_in(word: u64) -> CellContents
    ensures contents { result ≡ contents_of word }
    ensures small { IfSome result.held (λ slot. slot < 2 ^ 25 - 1) }
{
    CellContents {
        held: held_slot(word).map(SlotName::of),
        tag: tag_in(word),
    }
}

/// The word of a cell that holds the owner of a slot, or none, with a tag.
#[inline]
pub fn word_with(held: Option<u32>, tag: Tag) -> u64
    requires { IfSome held (λ slot. slot < 2 ^ 25 - 1) }
    ensures taken { 0 < result }
    ensures held { held_slots result ≡ listed held }
    ensures contents { contents_of result ≡ record { held = held; tag = tag } }
{
    let number = u8::from(tag) as u64;
    match held {
        Some(slot) => 4 * (slot as u64 + 1) + number,
        None => NULL_WORD + number,
    }
}

/// The slot whose owner a cell holds that holds this, if it holds one.
#[inline]
pub fn slot_in(contents: &CellContents) -> Option<u32>
    ensures { result ≡ contents.now.held }
{
    contents.held.map(SlotName::number)
}

/// The word that calls write into a cell that is to hold this. None where the slot's number is greater than any cell's word can tell.
#[inline]
pub fn expected_word(contents: &CellContents) -> Option<u64>
    ensures { MatchOption result (IfSome contents.now.held (λ slot. 2 ^ 25 - 1 ≤ slot)) (λ word. (0 < word) × (contents_of word ≡ contents.now)) }
{
    match contents.held {
        Some(slot) if slot.number() >= UNNAMED => None,
        _ => Some(word_with(slot_in(contents), contents.tag)),
    }
}

/// A cell that has this word holds this.
#[inline]
pub fn holds(word: u64, contents: CellContents) -> bool
    ensures { IsTrue result ↔ (contents_of word ≡ contents) }
{
    contents_in(word) == contents
}
