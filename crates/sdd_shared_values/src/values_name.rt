//! Which ghost map the places of a plot and its values are of, for clauses.
ghost use Rattle.std.specs.Prelude.{ℕ};
ghost use base.Fml.{ftrue};

use std::marker::{Model, PhantomData};

const _: () = prove!(size_of::<ValuesName>() == 0);

/// The ghost map of a plot and its values, as a value without bytes that owns nothing.
pub struct ValuesName {
    pub(crate) of: PhantomData<u64>,
    pub ghost gamma: { ℕ },
}

impl Model for ValuesName {
    ghost also_owns = { λ _. ftrue };
}

impl Drop for ValuesName {
    fn drop(self) {
        let ValuesName { of: _ } = self;
    }
}
