//! Pointers to nothing: their texts, their tags, and which are equal.
use sdd_core::Tag;
use sdd_space::{Ptr, RawPtr};
use std::test::Fail;

#[test]
fn a_raw_pointer_has_a_text(rt: HostRuntime) -> Result<(), Fail> {
    let null: RawPtr<u64> = RawPtr::null().with_tag(Tag::Second);
    let shown = format!(in rt.alloc(); "{null:?}")?;
    assert!(rt; shown.as_str() == "RawPtr { slot: None, tag: Second }");
    Ok(())
}

#[test]
fn a_default_pointer_is_null_and_has_no_tag(rt: HostRuntime) {
    let mut raw: RawPtr<u64> = RawPtr::default();
    assert!(rt; raw.is_null());
    assert!(rt; raw.set_tag(Tag::First) == Tag::None);
    assert!(rt; raw.is_null());
    assert!(rt; raw != RawPtr::null());
    assert!(rt; raw.without_tag().tag() == Tag::None);
    assert!(rt; raw.unset_tag() == Tag::First);
    assert!(rt; raw == RawPtr::null());
    let mut ptr: Ptr<'_, u64> = Ptr::default();
    assert!(rt; ptr.is_null());
    assert!(rt; ptr.set_tag(Tag::Both) == Tag::None);
    assert!(rt; ptr.without_tag().tag() == Tag::None);
    assert!(rt; ptr.unset_tag() == Tag::Both);
    assert!(rt; ptr == Ptr::null());
}
