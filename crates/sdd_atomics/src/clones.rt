//! One owner more beside one of several, as what a participant does while its pledge stands.
ghost use Rattle.sdd_atomics.specs.Clones.{MayAdd, HasAdded};

use crate::domain_table::{DomainRule, TableLayout};
use crate::plays::{OneMore, TakeBack};
use atomic_table::{Seat, Shared};
use sdd_rights::views::View;
use sdd_shared_values::ValueFraction;
use sdd_witness::Deed;

/// A word that counts as many owners as may share a slot.
pub const MOST_SHARED: u64 = (1 << 63) + (1 << 62);

/// Adds one owner to the count in a word, and takes it back where as many share the slot as may.
#[derive(Drop)]
pub struct AddOwner {
    pub word: usize,
}

impl Deed<ValueFraction, View, TableLayout, DomainRule> for AddOwner {
    ghost may = { λ d. MayAdd d.word };

    ghost then = { λ d _. HasAdded d.word };

    fn act(
        &self,
        table: &Shared<ValueFraction, View, TableLayout, DomainRule>,
        seat: &mut Seat<ValueFraction, View>,
    ) -> u64 {
        let found = table.fetch_add::<OneMore>(seat, self.word, 1);
        if found >= MOST_SHARED {
            table.fetch_sub::<TakeBack>(seat, self.word, 1);
        }
        found
    }
}
