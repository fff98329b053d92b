//! A value that counts how often such a value was dropped.
use crate::with_jobs::Total;
use sdd_space::{Giver, Item};
use std::process::Abort;
use std::sync::Arc;
use std::sync::atomic::Ordering;

/// A number that holds no owner, and counts its drop.
pub struct Counted {
    pub number: u64,
    drops: Total,
}

impl Drop for Counted {
    fn drop(self) {
        let Counted { number: _, drops } = self;
        drops.fetch_add(1, Ordering::SeqCst);
    }
}

impl<I> Item<I> for Counted {
    ghost use Rattle.std.specs.Prelude.{[]};

    ghost holds = { λ _. [] };

    fn give_up<G: Giver<I>>(self, _giver: &mut G) {}
}

impl Counted {
    /// A value of this number, whose drop is counted there.
    pub fn new(rt: &impl Abort, number: u64, drops: &Total) -> Counted {
        Counted {
            number,
            drops: Arc::try_clone(drops).expect(rt, "the count has room"),
        }
    }
}
