//! Tags and their numbers.
ghost use Rattle.std.specs.Prelude.{◌≡◌, ◌<◌, ◌↔◌, IsTrue, Ok};
ghost use Rattle.sdd_core.specs.Tag.{number_of};

use sdd_core::Tag;

// What a caller's proof gets of the contracts: they compose to the laws.

fn by_number(tag: Tag) -> Result<Tag, u8>
    ensures { result ≡ Ok tag }
{
    Tag::try_from(u8::from(tag))
}

fn is_before(tag: Tag, other: Tag) -> bool
    ensures { IsTrue result ↔ (number_of tag < number_of other) }
{
    tag < other
}

fn is_same(tag: Tag, other: Tag) -> bool
    ensures { IsTrue result ↔ (tag ≡ other) }
{
    tag == other
}

#[test]
fn tags_have_the_numbers_0_to_3(rt: HostRuntime) {
    let tags = [Tag::None, Tag::First, Tag::Second, Tag::Both];
    for (number, tag) in (0..4).zip(tags) {
        assert!(rt; u8::from(tag) == number);
        assert!(rt; by_number(tag) == Ok(tag));
        assert!(rt; is_before(tag, Tag::Both) == (number < 3));
        assert!(rt; is_same(tag, Tag::First) == (number == 1));
    }
    assert!(rt; Tag::try_from(4) == Err(4));
}
