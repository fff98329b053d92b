//! Cells of raw pointers in a domain: what a lone participant is answered, and one of two.
ghost use Rattle.std.specs.Prelude.{◌≡◌};
ghost use Rattle.sdd_space.specs.CallerId.{IsSeated};
ghost use Rattle.sdd_space.specs.RawCell.{cells_home};
ghost use Rattle.sdd_domain.specs.Space.{caller_of};

use crate::steps::{
    ONE_SLOT, TWO_AND_ONE_SLOT, close, closed_with_one, closed_with_two, ended, is_tally,
    new_domain, opened, registered,
};
use sdd_core::{Refused, Tag};
use sdd_domain::Local;
use sdd_space::{AtomicRaw, RawPtr};
use std::process::Abort;

/// A cell that is null is given other tags, by each call that may.
fn is_tagged(rt: &impl Abort, local: &mut Local<'_, u64>, cell: &AtomicRaw<u64>)
    requires seated { IsSeated (caller_of local.old) }
    requires home { cells_home cell.now ≡ (caller_of local.old).home.cells }
    ensures { caller_of local.new ≡ caller_of local.old }
{
    let null: RawPtr<u64> = RawPtr::null();
    let first = null.with_tag(Tag::First);
    let both = null.with_tag(Tag::Both);
    let guard = opened(rt, local);
    assert!(rt; cell.load(&guard, local) == null);
    cell.store(first, local);
    assert!(rt; cell.swap(both, &guard, local) == first);
    assert!(rt; cell.compare_exchange(first, null, &guard, local) == Err(both));
    assert!(rt; cell.compare_exchange(both, first, &guard, local) == Ok(both));
    assert!(rt; cell.update_tag_if(Tag::Second, |ptr| ptr.tag() == Tag::Both, local) == Ok(false));
    assert!(rt; cell.update_tag_if(Tag::Second, |ptr| ptr.tag() == Tag::First, local) == Ok(true));
    assert!(rt; cell.tag(local) == Tag::Second);
    assert!(rt;
        cell.fetch_update(|_ptr| None, &guard, local) == Ok(Err(null.with_tag(Tag::Second)))
    );
    assert!(rt;
        cell.fetch_update(|_ptr| Some(both), &guard, local) == Ok(Ok(null.with_tag(Tag::Second)))
    );
    assert!(rt; (cell.is_null(local), cell.tag(local)) == (true, Tag::Both));
    close(guard, local);
}

/// No cell is free.
fn has_no_cell(rt: &impl Abort, local: &mut Local<'_, u64>)
    requires seated { IsSeated (caller_of local.old) }
    ensures { caller_of local.new ≡ caller_of local.old }
{
    match AtomicRaw::<u64>::null(local) {
        Ok(_cell) => panic!(rt; "no cell is free"),
        Err(refused) => assert!(rt; refused == Refused::NoCell),
    }
}

/// The only cell is claimed and freed, and claimed again, and a new one points to what it is given.
fn are_claimed(rt: &impl Abort, local: &mut Local<'_, u64>)
    requires seated { IsSeated (caller_of local.old) }
    ensures { caller_of local.new ≡ caller_of local.old }
{
    let cell = AtomicRaw::<u64>::null(local).expect(rt, "a cell is free");
    has_no_cell(rt, local);
    is_tagged(rt, local, &cell);
    cell.close(local);
    let tagged: RawPtr<u64> = RawPtr::null().with_tag(Tag::First);
    let cell = AtomicRaw::new(tagged, local).expect(rt, "it is free again");
    assert!(rt; cell.tag(local) == Tag::First);
    cell.close(local);
}

#[test]
fn a_raw_cell_of_a_lone_participant_has_what_it_was_given(rt: HostRuntime) {
    let domain = new_domain::<u64>(&rt, ONE_SLOT);
    let mut local = registered(&rt, &domain);
    are_claimed(&rt, &mut local);
    let receipt = ended(&rt, local);
    is_tally(&rt, closed_with_one(&rt, domain, receipt), 0, 0);
}

#[test]
fn each_of_two_participants_has_a_raw_cell_in_turn(rt: HostRuntime) {
    let domain = new_domain::<u64>(&rt, TWO_AND_ONE_SLOT);
    let mut one = registered(&rt, &domain);
    let mut other = registered(&rt, &domain);
    are_claimed(&rt, &mut one);
    are_claimed(&rt, &mut other);
    let one = ended(&rt, one);
    let other = ended(&rt, other);
    is_tally(&rt, closed_with_two(&rt, domain, one, other), 0, 0);
}
