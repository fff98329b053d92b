ghost use Rattle.std.specs.Prelude.{◌≡◌, Ok};
ghost use Rattle.sdd_core.specs.Tag.{number_of, tag_numbered};

/// What a pointer carries beside the item that it names: two marks, in two bits.
///
/// A tag's number is 0 to 3, and the order of tags is that of their numbers.
#[derive(Clone, Copy, Debug, PartialEq, Eq, PartialOrd, Ord)]
pub enum Tag {
    None = 0,
    First = 1,
    Second = 2,
    Both = 3,
}

impl TryFrom<u8> for Tag {
    /// The number, where it is no tag's.
    type Error = u8;

    ghost try_from_gives = { λ number answer. answer ≡ tag_numbered number };

    fn try_from(number: u8) -> Result<Tag, u8> {
        match number {
            0 => Ok(Tag::None),
            1 => Ok(Tag::First),
            2 => Ok(Tag::Second),
            3 => Ok(Tag::Both),
            _ => Err(number),
        }
    }
}

impl From<Tag> for u8 {
    ghost from_gives = { λ tag number. (number ≡ number_of tag) × (tag_numbered number ≡ Ok tag) };

    fn from(tag: Tag) -> u8 {
        tag as u8
    }
}
