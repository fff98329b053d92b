//! Items that hold a cell with the owner of the next one.
ghost use Rattle.std.specs.Prelude.{ℕ, ◌≡◌, IfSome, Some, option_copied};
ghost use Rattle.sdd_space.specs.Guard.{reader_of};
ghost use Rattle.sdd_space.specs.Ptr.{KeepsShown};
ghost use Rattle.sdd_space.specs.CallerId.{IsExact, IsSeated};

use sdd_space::{AtomicShared, Cells, Giver, Guard, Item, Look};

/// A value, and a cell with the owner of the next node, or with nothing.
pub struct Node {
    pub value: u64,
    pub next: AtomicShared<Node>,
}

impl Item<Node> for Node {
    ghost use Rattle.sdd_examples.specs.Node.{holdings_of};

    ghost holds = { holdings_of };

    fn give_up<G: Giver<Node>>(self, giver: &mut G) {
        let Node { value: _, next } = self;
        giver.atomic_shared(next);
    }
}

/// The node after one that some slot shows, as it is now. That its cell may be loaded from is a law of the space.
pub fn next_of<'g, S: Look<Node> + Cells<Node>>(
    node: &'g Node,
    guard: &'g Guard,
    s: &mut S,
) -> Option<&'g Node>
    requires seated { IsSeated (S.caller s.old) }
    requires shown { (slot : ℕ) × S.shows s.old slot node.now }
    requires reader { reader_of guard.now ≡ (S.caller s.old).reader }
    ensures caller { S.caller s.new ≡ S.caller s.old }
    ensures own { S.own s.new ≡ S.own s.old }
    ensures shown { IfSome (option_copied result) (λ next. (slot : ℕ) × S.shows s.new slot next) }
    ensures exact { IsExact (S.caller s.old) → S.world s.new ≡ S.world s.old }
    ensures keeps { KeepsShown (S.shows s.old) (S.shows s.new) }
{
    s.shown_is_of_home();
    node.next.load(guard, s).as_ref(s)
}
