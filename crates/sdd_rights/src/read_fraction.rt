//! The unit by which an owner looks at a value that threads share.
ghost use Rattle.std.specs.Prelude.{ℕ};
ghost use Rattle.std.specs.Coded.{prop_coded};
ghost use base.Stored.{Gv};
ghost use Rattle.sdd_rights.specs.Units.{gv_coded};
ghost use Rattle.sdd_rights.specs.ReadFraction.{IsValueCode, IsFull-prop, read_fraction_owns, read_fraction_shares};

use crate::fraction::GhostKeys;
use std::marker::{Model, PhantomData};

const _: () = prove!(size_of::<ReadFraction>() == 0);

/// One unit of the number of a value's place in a domain, by which the owner looks at the value: as long as it is out, the value stays.
///
/// In a world it is a blank one, of nobody's number.
///
/// It can be neither copied nor let go of by chance: its unit goes back to the others of its number.
pub struct ReadFraction {
    pub of: PhantomData<u64>,
    pub ghost gamma: { ℕ },
    pub ghost number: { ℕ },
    pub ghost lifetime: { ℕ },
    /// What all units of the number show.
    pub ghost shown: { Gv } by { gv_coded },
    pub ghost full: { IsValueCode shown } by { prop_coded (IsFull-prop shown) },
}

impl Model for ReadFraction {
    ghost also_owns = { λ g. read_fraction_owns g.gamma g.number g.lifetime g.shown };

    ghost also_shares = { λ g _ κ. read_fraction_shares g.gamma g.number g.lifetime g.shown κ };
}

impl ReadFraction {
    // of a ghost map of its own
    pub(crate) fn blank() -> ReadFraction {
        let mut keys = GhostKeys::new(0);
        let mut fraction = keys.issue(&());
        fraction.split(1).into_read_fraction()
    }

    /// Lets go of a blank one. Of a number of a place a unit is lost then, so that its value stays for good.
    pub fn discard(self) {
        let ReadFraction { of: _ } = self;
    }
}

unsafe impl Send for ReadFraction {}

unsafe impl Sync for ReadFraction {}
