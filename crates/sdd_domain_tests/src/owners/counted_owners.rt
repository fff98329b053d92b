//! Owners that are counted, let go in one thread and in two.
ghost use Rattle.std.specs.Prelude.{◌≡◌, ◌<◌};
ghost use Rattle.sdd_part_examples.specs.CountedOwners.{owner_views, IsFree};

use sdd_part_examples::counted_owners::{Owners, Participant};
use sdd_witness::Witness;
use std::test::Fail;
use std::thread::join;

#[test]
fn the_last_owner_is_told(rt: HostRuntime) -> Result<(), Fail> {
    let (owners, mut participant) = Owners::new(rt.alloc())?;
    let first = owners.cut(&mut participant);
    let second = owners.another(&mut participant, &first);
    let third = owners.another(&mut participant, &second);
    assert!(rt; owners.table.shared.peek(0) == 3);
    let told = [
        owners.release(&mut participant, first),
        owners.release(&mut participant, third),
        owners.release(&mut participant, second),
    ];
    assert!(rt; told == [false, false, true] && owners.table.shared.peek(0) == 0);
    Ok(())
}

// Makes owners beside one and lets them go, and answers how often it was told that one was the last.
fn comes_and_goes(owners: &Owners, mut participant: Participant, owner: &Witness) -> u64
    requires home { participant.table_id ≡ owners.now.table.shared.table_id }
    requires free { IsFree participant.me.0 }
    requires room { 1 < participant.me.0.room }
    requires owner { (owner.now.table_id ≡ owners.now.table.shared.table_id) × (owner.now.views ≡ owner_views) }
{
    let first = owners.another(&mut participant, owner);
    let second = owners.another(&mut participant, &first);
    let told = owners.release(&mut participant, first);
    let again = owners.release(&mut participant, second);
    u64::from(told) + u64::from(again)
}

#[test]
fn two_threads_beside_one_owner(rt: HostRuntime) -> Result<(), Fail> {
    let (owners, mut participant) = Owners::new(rt.alloc())?;
    let owner = owners.cut(&mut participant);
    let one = owners.participant(&mut participant);
    let other = owners.participant(&mut participant);
    let (here, there) = join(
        &rt,
        || comes_and_goes(&owners, one, &owner),
        || comes_and_goes(&owners, other, &owner),
    );
    assert!(rt; here == 0 && there == 0 && owners.table.shared.peek(0) == 1);
    assert!(rt; owners.release(&mut participant, owner));
    Ok(())
}
