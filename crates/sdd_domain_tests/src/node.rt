//! A value that may hold an owner.
ghost use Rattle.sdd_domain_tests.specs.Held.{holdings_of};

use sdd_space::{Giver, Item, Owned, Shared};

/// A number, and an owner of another one, if there is one: the only owner, or one that may have others beside it.
pub enum Node {
    Last(u64),
    Before(u64, Owned<Node>),
    Beside(u64, Shared<Node>),
}

impl Item<Node> for Node {
    ghost holds = { holdings_of };

    fn give_up<G: Giver<Node>>(self, giver: &mut G) {
        match self {
            Node::Last(_) => {}
            Node::Before(_, next) => giver.owned(next),
            Node::Beside(_, next) => giver.shared(next),
        }
    }
}
