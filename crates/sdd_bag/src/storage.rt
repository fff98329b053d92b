//! A storage of a bag.
ghost use Rattle.std.specs.Prelude.{◌≡◌, length};
ghost use Rattle.sdd_bag.specs.Storages.{StorageName, holdings_of};
ghost use Rattle.sdd_rights.specs.Right.{number_of, home_of, kind_of};

use crate::places::Places;
use sdd_rights::{Right, StandingKind};
use sdd_space::inner::cell_with;
use sdd_space::{Giver, Item};
use std::marker::Model;

/// Places for values, and a cell of a space, which the storage has for as long as it is there.
///
/// A `&` to it shows nothing of its values: they are with the bag, which has the keys of the places.
pub struct Storage<T, const ARRAY_LEN: usize> {
    places: Places<T, ARRAY_LEN>,
    cell: Right,
}

impl<T, const ARRAY_LEN: usize> Model for Storage<T, ARRAY_LEN> {
    ghost use Rattle.std.specs.Prelude.{◌≡◌};
    ghost use Rattle.sdd_bag.specs.Storages.{StorageName};
    ghost use Rattle.sdd_rights.specs.Right.{number_of, home_of, kind_of};
    ghost use Rattle.sdd_rights.specs.declared.right.StandingKind.TheVariants as kind;

    ghost Value = { StorageName };

    ghost view = { λ s. record { places = s.places; cell = number_of s.cell; home = home_of s.cell } };

    ghost invariant = { λ s. kind_of s.cell ≡ kind.Shared };
}

impl<T, const ARRAY_LEN: usize> Storage<T, ARRAY_LEN> {
    /// A storage of these places, with this cell.
    pub(crate) fn new(places: Places<T, ARRAY_LEN>, cell: Right) -> Storage<T, ARRAY_LEN>
        requires { kind_of cell ≡ StandingKind.Shared }
        ensures { result ≡ record { places = places; cell = number_of cell; home = home_of cell } }
    {
        Storage { places, cell }
    }

    /// The places.
    pub(crate) fn places(&self) -> &Places<T, ARRAY_LEN>
        ensures { result.now ≡ self.now.places }
    {
        &self.places
    }

    /// The cell. The places are no more, and forget what values they have.
    pub(crate) fn into_cell(self) -> Right
        ensures kind { kind_of result ≡ StandingKind.Shared }
        ensures number { number_of result ≡ self.cell }
        ensures home { home_of result ≡ self.home }
    {
        let Storage { places: _, cell } = self;
        cell
    }
}

impl<I, T: Item<I>, const ARRAY_LEN: usize> Item<I> for Storage<T, ARRAY_LEN> {
    ghost use Rattle.sdd_bag.specs.Storages.{holdings_of};

    ghost holds = { holdings_of };

    fn give_up<G: Giver<I>>(self, giver: &mut G) {
        giver.atomic_shared(cell_with(self.into_cell()));
    }
}
