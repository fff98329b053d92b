//! Epochs, which turn round at 64.
ghost use Rattle.std.specs.Prelude.{◌≡◌, ◌<◌, ◌≤◌, ◌↔◌, IsTrue, Ok, Err};

use sdd_core::Epoch;
use sdd_core::inner::epoch_of_count;

// What a caller's proof gets of the contracts: they compose to the laws.

fn there_and_back(epoch: Epoch) -> Epoch
    ensures { result ≡ epoch }
{
    epoch.next().prev()
}

fn back_and_there(epoch: Epoch) -> Epoch
    ensures { result ≡ epoch }
{
    epoch.prev().next()
}

fn by_number(epoch: Epoch) -> Result<Epoch, Epoch>
    ensures { result ≡ Ok epoch }
{
    Epoch::try_from(u8::from(epoch))
}

fn is_before(epoch: Epoch, other: Epoch) -> bool
    ensures { IsTrue result ↔ (epoch < other) }
{
    epoch < other
}

fn is_same(epoch: Epoch, other: Epoch) -> bool
    ensures { IsTrue result ↔ (epoch ≡ other) }
{
    epoch == other
}

#[test]
fn numbers_turn_round_at_64(rt: HostRuntime) {
    assert!(rt; u8::from(Epoch::default().prev()) == 63);
    assert!(rt; Epoch::try_from(64) == Err(Epoch::default()));
    assert!(rt; Epoch::try_from(255) == Err(epoch_of_count(63)));
    assert!(rt; u8::from(epoch_of_count(62).next_generation()) == 1);
    assert!(rt; u8::from(epoch_of_count(u64::MAX)) == 63);
}

#[test]
fn a_generation_is_three_epochs(rt: HostRuntime) {
    let last = epoch_of_count(63);
    for (number, wanted) in [(63, true), (0, true), (1, true), (2, false), (62, false)] {
        assert_eq!(rt;
            last.in_same_generation(epoch_of_count(number)),
            wanted,
            "epoch {number}"
        );
    }
}

#[test]
fn laws_of_epochs_hold_for_each(rt: HostRuntime) {
    for count in 0..64 {
        let epoch = epoch_of_count(count);
        assert!(rt; there_and_back(epoch) == epoch);
        assert!(rt; back_and_there(epoch) == epoch);
        assert!(rt; by_number(epoch) == Ok(epoch));
        assert!(rt; is_before(epoch, epoch.next()) == (count < 63));
        assert!(rt; is_same(epoch, epoch_of_count(count + 64)));
    }
}
