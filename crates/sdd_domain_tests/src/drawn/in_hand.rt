//! What is taken out of a hand, kept in it, and let go, each kind of it alike.
ghost use Rattle.std.specs.Prelude.{◌≡◌, All, IfOk, IfSome};
ghost use Rattle.sdd_space.specs.CallerId.{CallerId, IsSeated};
ghost use Rattle.sdd_space.specs.Collector as collector;
ghost use Rattle.sdd_space.specs.Guard.{reader_of};
ghost use Rattle.sdd_space.specs.Owner.{slots_home, cells_home};
ghost use Rattle.sdd_space.specs.RawCell as raw_cell;
ghost use Rattle.sdd_domain_tests.specs.Hands.{IsHandOf, AreOwnersOf};

use crate::answers::Answer;
use crate::hand::{Hand, OwnersInHand};
use sdd_core::Refused;
use sdd_space::{
    AtomicCell, AtomicRaw, Guard, Owned, Owner, Ownership, PrivateCollector, RawItems, RawPtr,
    Shared, Space,
};
use std::process::Abort;

/// What may be a caller's.
pub trait OfCaller {
    ghost is_of: { CallerId → Self → Type 0 };
}

impl OfCaller for Hand {
    ghost is_of = { IsHandOf };
}

impl<K: Ownership> OfCaller for OwnersInHand<K> {
    ghost is_of = { λ caller held. AreOwnersOf caller held };
}

impl<K: Ownership> OfCaller for Owner<K, u64> {
    ghost is_of = { λ caller owner. slots_home owner ≡ caller.home.slots };
}

impl<K: Ownership> OfCaller for AtomicCell<K, u64> {
    ghost is_of = { λ caller cell. cells_home cell ≡ caller.home.cells };
}

impl OfCaller for AtomicRaw<u64> {
    ghost is_of = { λ caller cell. raw_cell.cells_home cell ≡ caller.home.cells };
}

impl OfCaller for PrivateCollector<u64> {
    ghost is_of = { λ caller one. collector.cells_home one ≡ caller.home.cells };
}

impl OfCaller for Guard {
    ghost is_of = { λ caller guard. reader_of guard ≡ caller.reader };
}

/// One kind of what a participant has in hand, or in this part of it.
pub trait InHand<H: OfCaller>: OfCaller + Sized {
    /// Takes one of this kind, whichever is picked, if there is one.
    fn take(hand: &mut H, pick: usize) -> Option<Self>
        ensures rest { (caller : CallerId) → H.is_of caller hand.old → H.is_of caller hand.new }
        ensures taken { (caller : CallerId) → H.is_of caller hand.old → IfSome result (Self.is_of caller) };

    fn keep<R: Abort>(self, rt: &R, hand: &mut H)
        ensures { (caller : CallerId) → H.is_of caller hand.old → Self.is_of caller self → H.is_of caller hand.new };
}

/// Takes one of these, if there is one.
fn taken<X: OfCaller>(all: &mut Vec<X>, pick: usize) -> Option<X>
    ensures rest { (caller : CallerId) → All (X.is_of caller) all.old.items → All (X.is_of caller) all.new.items }
    ensures taken { (caller : CallerId) → All (X.is_of caller) all.old.items → IfSome result (X.is_of caller) }
{
    if all.is_empty() {
        return None;
    }
    let place = pick % all.len();
    Some(all.remove(place))
}

impl<K: Ownership> InHand<OwnersInHand<K>> for Owner<K, u64> {
    #[tactic(auto, unfolding(crate::specs::Hands::AreOwnersOf))]
    fn take(hand: &mut OwnersInHand<K>, pick: usize) -> Option<Owner<K, u64>> {
        taken(&mut hand.owners, pick)
    }

    #[tactic(auto, unfolding(crate::specs::Hands::AreOwnersOf))]
    fn keep<R: Abort>(self, rt: &R, hand: &mut OwnersInHand<K>) {
        hand.owners.push(self).expect(rt, "there is memory");
    }
}

impl<K: Ownership> InHand<OwnersInHand<K>> for AtomicCell<K, u64> {
    #[tactic(auto, unfolding(crate::specs::Hands::AreOwnersOf))]
    fn take(hand: &mut OwnersInHand<K>, pick: usize) -> Option<AtomicCell<K, u64>> {
        taken(&mut hand.cells, pick)
    }

    #[tactic(auto, unfolding(crate::specs::Hands::AreOwnersOf))]
    fn keep<R: Abort>(self, rt: &R, hand: &mut OwnersInHand<K>) {
        hand.cells.push(self).expect(rt, "there is memory");
    }
}

impl InHand<Hand> for AtomicRaw<u64> {
    #[tactic(auto, unfolding(crate::specs::Hands::IsHandOf))]
    fn take(hand: &mut Hand, pick: usize) -> Option<AtomicRaw<u64>> {
        taken(&mut hand.raw_cells, pick)
    }

    #[tactic(auto, unfolding(crate::specs::Hands::IsHandOf))]
    fn keep<R: Abort>(self, rt: &R, hand: &mut Hand) {
        hand.raw_cells.push(self).expect(rt, "there is memory");
    }
}

impl InHand<Hand> for PrivateCollector<u64> {
    #[tactic(auto, unfolding(crate::specs::Hands::IsHandOf))]
    fn take(hand: &mut Hand, pick: usize) -> Option<PrivateCollector<u64>> {
        taken(&mut hand.collectors, pick)
    }

    #[tactic(auto, unfolding(crate::specs::Hands::IsHandOf))]
    fn keep<R: Abort>(self, rt: &R, hand: &mut Hand) {
        hand.collectors.push(self).expect(rt, "there is memory");
    }
}

/// Takes the guard that was opened last, if one is open.
#[tactic(auto, unfolding(crate::specs::Hands::IsHandOf))]
pub fn take_last_guard(hand: &mut Hand) -> Option<Guard>
    ensures rest { (caller : CallerId) → IsHandOf caller hand.old → IsHandOf caller hand.new }
    ensures taken { (caller : CallerId) → IsHandOf caller hand.old → IfSome result (λ guard. reader_of guard ≡ caller.reader) }
{
    hand.guards.pop()
}

impl InHand<Hand> for Guard {
    /// The one that was opened last.
    fn take(hand: &mut Hand, _pick: usize) -> Option<Guard> {
        take_last_guard(hand)
    }

    #[tactic(auto, unfolding(crate::specs::Hands::IsHandOf))]
    fn keep<R: Abort>(self, rt: &R, hand: &mut Hand) {
        hand.guards.push(self).expect(rt, "there is memory");
    }
}

/// Takes a pointer to something that is out.
#[tactic(auto, unfolding(crate::specs::Hands::IsHandOf))]
pub fn take_out(hand: &mut Hand, pick: usize) -> Option<RawPtr<u64>>
    ensures { (caller : CallerId) → IsHandOf caller hand.old → IsHandOf caller hand.new }
{
    if hand.out.is_empty() {
        return None;
    }
    let place = pick % hand.out.len();
    Some(hand.out.remove(place))
}

#[tactic(auto, unfolding(crate::specs::Hands::IsHandOf))]
pub fn keep_out(rt: &impl Abort, hand: &mut Hand, ptr: RawPtr<u64>)
    ensures { (caller : CallerId) → IsHandOf caller hand.old → IsHandOf caller hand.new }
{
    hand.out.push(ptr).expect(rt, "there is memory");
}

/// Keeps what was made, and answers how that went.
pub fn keep_made<H: OfCaller, X: InHand<H>, R: Abort>(
    rt: &R,
    hand: &mut H,
    made: Result<X, Refused>,
) -> Option<Answer>
    ensures { (caller : CallerId) → H.is_of caller hand.old → IfOk made (X.is_of caller) → H.is_of caller hand.new }
{
    match made {
        Ok(one) => {
            one.keep(rt, hand);
            Some(Answer::Done)
        }
        Err(refused) => Some(Answer::Refused(refused)),
    }
}

/// What a participant lets go of when it has done its calls.
trait LetGo: OfCaller {
    fn let_go<R: Abort, S: Space<u64>>(self, rt: &R, s: &mut S)
        requires seated { IsSeated (S.caller s.old) }
        requires home { Self.is_of (S.caller s.old) self }
        ensures { S.caller s.new ≡ S.caller s.old };
}

impl LetGo for Owned<u64> {
    fn let_go<R: Abort, S: Space<u64>>(self, _rt: &R, s: &mut S) {
        self.retire(s);
    }
}

impl LetGo for Shared<u64> {
    fn let_go<R: Abort, S: Space<u64>>(self, _rt: &R, s: &mut S) {
        let _ = self.release(s);
    }
}

impl<K: Ownership> LetGo for AtomicCell<K, u64> {
    fn let_go<R: Abort, S: Space<u64>>(self, _rt: &R, s: &mut S) {
        self.close(s);
    }
}

impl LetGo for AtomicRaw<u64> {
    fn let_go<R: Abort, S: Space<u64>>(self, _rt: &R, s: &mut S) {
        self.close(s);
    }
}

impl LetGo for PrivateCollector<u64> {
    /// No guard is open any more, so that the close succeeds.
    fn let_go<R: Abort, S: Space<u64>>(self, rt: &R, s: &mut S) {
        match self.close(s) {
            Ok(()) => {}
            Err((_collector, refused)) => panic!(rt; "refused: {refused:?}"),
        }
    }
}

impl LetGo for Guard {
    fn let_go<R: Abort, S: Space<u64>>(self, _rt: &R, s: &mut S) {
        self.close(s);
    }
}

/// Lets go of each.
fn let_all_go<X: LetGo, R: Abort, S: Space<u64>>(rt: &R, s: &mut S, mut all: Vec<X>)
    requires seated { IsSeated (S.caller s.old) }
    requires all { All (X.is_of (S.caller s.old)) all.items }
    ensures { S.caller s.new ≡ S.caller s.old }
{
    while let Some(one) = all.pop() {
        one.let_go(rt, s);
    }
    all.destroy_empty();
}

/// What is out comes back, and goes.
fn take_all_back<S: Space<u64>>(s: &mut S, out: Vec<RawPtr<u64>>)
    requires { IsSeated (S.caller s.old) }
    ensures { S.caller s.new ≡ S.caller s.old }
{
    for ptr in out {
        if let Some(owner) = Owned::from_raw(ptr, s) {
            owner.retire(s);
        }
    }
}

/// Lets go of all that is in hand: of the guards first, since a collector is closed while none is open.
#[tactic(auto, unfolding(crate::specs::Hands::IsHandOf, crate::specs::Hands::AreOwnersOf))]
pub fn let_hand_go<R: Abort, S: Space<u64>>(rt: &R, s: &mut S, hand: Hand)
    requires seated { IsSeated (S.caller s.old) }
    requires hand { IsHandOf (S.caller s.old) hand }
    ensures { S.caller s.new ≡ S.caller s.old }
{
    let Hand {
        owned,
        shared,
        raw_cells,
        collectors,
        out,
        guards,
    } = hand;
    let OwnersInHand {
        owners: owned,
        cells: owned_cells,
    } = owned;
    let OwnersInHand {
        owners: shared,
        cells: shared_cells,
    } = shared;
    let_all_go(rt, s, guards);
    let_all_go(rt, s, collectors);
    let_all_go(rt, s, owned_cells);
    let_all_go(rt, s, shared_cells);
    let_all_go(rt, s, raw_cells);
    let_all_go(rt, s, owned);
    let_all_go(rt, s, shared);
    take_all_back(s, out);
}
