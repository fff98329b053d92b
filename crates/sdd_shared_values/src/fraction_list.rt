//! Fractions that lie in no table's slots.
ghost use Rattle.std.specs.Prelude.{◌≡◌, List, [], ◌∷◌};
ghost use Rattle.sdd_shared_values.specs.ValueFractions.{FractionContent, contents_coded, holdings};

use crate::value_fraction::ValueFraction;
use std::marker::{Model, PhantomData};

const _: () = prove!(size_of::<FractionList>() == 0);

/// Fractions in a row, without bytes: those of a new plot before they come into the slots of a table, and those of values that are to be closed.
pub struct FractionList {
    pub(crate) of: PhantomData<u64>,
    pub ghost contents: { List FractionContent } by { contents_coded },
}

impl Model for FractionList {
    ghost also_owns = { λ s. holdings s.contents };
}

impl FractionList {
    /// No fraction.
    pub fn new() -> FractionList
        ensures { result.contents ≡ [] }
    {
        FractionList { of: PhantomData }
    }

    /// Takes out the first fraction.
    pub fn issue(&mut self) -> ValueFraction
        requires { (first : FractionContent) × (rest : List FractionContent) × (self.old.contents ≡ first ∷ rest) }
        ensures { self.old.contents ≡ result.content ∷ self.new.contents }
    {
        ValueFraction { of: PhantomData }
    }

    /// Lets go of the fractions.
    pub fn discard(self) {
        let FractionList { of: _ } = self;
    }
}

unsafe impl Send for FractionList {}
