ghost use Rattle.std.specs.Prelude.{◌≡◌, ◌≢◌, ◌+◌, ◌*◌, ℕ, ◌<◌, false, length, IfOk, replicate, slice_set};
ghost use Rattle.std.specs.FinSet as set;
ghost use Rattle.sdd_machine.specs.Bags.{trio_at, no_items, has, put_at, rotated_at, joined};

use super::chains::Chains;
use std::alloc::{AllocError, Global};
use std::marker::Model;

/// The three bags of each place, side by side: current, prev and next.
#[derive(Drop)]
pub struct Bags {
    chains: Chains,
}

impl Model for Bags {
    ghost use Rattle.sdd_machine.specs.Bags.{BagsOfPlaces, bagged_code, trios_of, AreTrios};

    ghost Value = { BagsOfPlaces };

    ghost coded = { bagged_code };

    ghost view = { λ a. record { items = a.chains.items; trios = trios_of a.chains.bags } };

    ghost invariant = { λ a. AreTrios a.chains.bags };
}

const CURRENT: usize = 0;

const PREV: usize = 1;

const NEXT: usize = 2;

const EACH: usize = 3;

impl Bags {
    pub fn new(alloc: Global, places: u32, items: u32) -> Result<Bags, AllocError>
        ensures { IfOk result (λ bags. bags ≡ record { items = items; trios = replicate places no_items }) }
    {
        Ok(Bags {
            chains: Chains::new(alloc, EACH * places as usize, items)?,
        })
    }

    /// Puts an item that is in no bag into the current bag of a place.
    pub fn put(&mut self, place: u32, item: u32)
        requires place { place < length self.old.trios }
        requires item { item < self.old.items }
        requires nowhere { (p : ℕ) → has (trio_at self.old.trios p) item ≡ false }
        ensures { self.new ≡ record self.old { trios = put_at place item self.old.trios } }
    {
        self.chains.put(EACH * place as usize + CURRENT, item);
    }

    /// Moves the bags of a place on by one, and says how many items that takes out. It touches no item.
    pub fn rotate(&mut self, place: u32) -> u32
        requires { place < length self.old.trios }
        ensures taken { result ≡ set.len (trio_at self.old.trios place).next }
        ensures moved { self.new ≡ record self.old { trios = rotated_at place self.old.trios } }
    {
        let first = EACH * place as usize;
        let taken = self.chains.clear(first + NEXT);
        self.chains.join(first + NEXT, first + PREV);
        self.chains.join(first + PREV, first + CURRENT);
        taken
    }

    /// Moves everything in the bags of one place into the current bag of another.
    pub fn join(&mut self, to: u32, from: u32)
        requires to { to < length self.old.trios }
        requires from { from < length self.old.trios }
        requires other { to ≢ from }
        ensures { self.new ≡ record self.old { trios = joined to from self.old.trios } }
    {
        let current = EACH * to as usize + CURRENT;
        let first = EACH * from as usize;
        self.chains.join(current, first + CURRENT);
        self.chains.join(current, first + PREV);
        self.chains.join(current, first + NEXT);
    }
}
