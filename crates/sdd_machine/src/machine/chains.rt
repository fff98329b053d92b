ghost use Rattle.std.specs.Prelude.{◌≡◌, ◌≢◌, ◌+◌, ◌++◌, ℕ, ◌<◌, ◌≤◌, ◌^◌, false, length, IfOk, replicate, slice_index_or, slice_set};
ghost use Rattle.std.specs.FinSet as set;
ghost use Rattle.sdd_machine.specs.Chains.{items_of, IsChain, occ, bag_at, put_in, emptied_at, moved_into};

use std::alloc::{AllocError, Global};
use std::marker::Model;

/// Items that are linked one to the next, from the first to the last.
#[derive(Clone, Copy)]
pub struct Chain {
    first: u32,
    last: u32,
    len: u32,
}

/// Bags of items, each a chain through one array that has a link for each item. No item is in two bags.
#[derive(Drop)]
pub struct Chains {
    links: Vec<u32>,
    chains: Vec<Chain>,
}

impl Model for Chains {
    ghost use Rattle.std.specs.Prelude.{length, map};
    ghost use Rattle.sdd_machine.specs.Chains.{ChainedBags, linked_code};

    ghost Value = { ChainedBags };

    ghost coded = { linked_code };

    ghost use Rattle.sdd_machine.specs.Chains.{bag_of, AreChains};

    ghost view = { λ a. record {
      items = length a.links.items;
      bags = map (bag_of a.links.items) a.chains.items;
    } };

    ghost invariant = { λ a. AreChains a.links.items a.chains.items };
}

impl Chain {
    const EMPTY: Chain = Chain {
        first: 0,
        last: 0,
        len: 0,
    };

    fn of(item: u32) -> Chain
        ensures { result ≡ record { first = item; last = item; len = 1 } }
    {
        Chain {
            first: item,
            last: item,
            len: 1,
        }
    }
}

/// Links the second chain behind the first. Every link but the one at the end of the first stays.
fn joined(links: &mut [u32], first: Chain, second: Chain) -> Chain
    requires one { IsChain links.old first }
    requires two { IsChain links.old second }
    requires once { (i : ℕ) → occ i (items_of links.old first ++ items_of links.old second) ≤ 1 }
    requires small { length links.old < 2 ^ 32 }
    ensures items { items_of links.new result ≡ items_of links.old first ++ items_of links.old second }
    ensures chain { IsChain links.new result }
    ensures others { (i : ℕ) → (0 < first.len → i ≢ first.last) →
        slice_index_or links.new i 0 ≡ slice_index_or links.old i 0 }
{
    if first.len == 0 {
        return second;
    }
    if second.len == 0 {
        return first;
    }
    links[first.last as usize] = second.first;
    Chain {
        first: first.first,
        last: second.last,
        len: first.len + second.len,
    }
}

impl Chains {
    pub fn new(alloc: Global, bags: usize, items: u32) -> Result<Chains, AllocError>
        ensures { IfOk result (λ chains. chains ≡ record { items = items; bags = replicate bags set.empty }) }
    {
        Ok(Chains {
            links: vec![in alloc; 0; items as usize]?,
            chains: vec![in alloc; Chain::EMPTY; bags]?,
        })
    }

    /// Puts an item that is in no bag into one.
    pub fn put(&mut self, bag: usize, item: u32)
        requires bag { bag < length self.old.bags }
        requires item { item < self.old.items }
        requires nowhere { (k : ℕ) → set.contains (bag_at self.old.bags k) item ≡ false }
        ensures { self.new ≡ record self.old { bags = put_in bag item self.old.bags } }
    {
        let chain = self.chains[bag];
        self.chains[bag] = joined(self.links.as_mut_slice(), Chain::of(item), chain);
    }

    /// Empties a bag, and says how many items were in it. It touches no link.
    pub fn clear(&mut self, bag: usize) -> u32
        requires { bag < length self.old.bags }
        ensures taken { result ≡ set.len (bag_at self.old.bags bag) }
        ensures cleared { self.new ≡ record self.old { bags = emptied_at bag self.old.bags } }
    {
        let taken = self.chains[bag].len;
        self.chains[bag] = Chain::EMPTY;
        taken
    }

    /// Moves everything in one bag into another, by one link.
    pub fn join(&mut self, to: usize, from: usize)
        requires to { to < length self.old.bags }
        requires from { from < length self.old.bags }
        requires other { to ≢ from }
        ensures { self.new ≡ record self.old { bags = moved_into to from self.old.bags } }
    {
        let first = self.chains[to];
        let second = self.chains[from];
        self.chains[from] = Chain::EMPTY;
        self.chains[to] = joined(self.links.as_mut_slice(), first, second);
    }
}
