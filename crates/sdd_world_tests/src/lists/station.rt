//! A type with a link of its own.
use sdd_lists::LinkedList;
use sdd_space::{AtomicShared, Giver, Item};

/// A station of a railway line, with a link to the one behind it.
pub struct Station {
    pub number: u64,
    pub next: AtomicShared<Station>,
}

impl Item<Station> for Station {
    ghost use Rattle.sdd_world_tests.specs.Station.{holdings_of};

    ghost holds = { holdings_of };

    fn give_up<G: Giver<Station>>(self, giver: &mut G) {
        let Station { number: _, next } = self;
        giver.atomic_shared(next);
    }
}

impl LinkedList for Station {
    ghost use Rattle.sdd_world_tests.specs.Station.{link_home_of, link_of};

    ghost link = { link_of };

    ghost link_home = { link_home_of };

    fn link_ref(&self) -> &AtomicShared<Self> {
        &self.next
    }

    ghost link_is_held = { λ home v are. are.0 };
}
