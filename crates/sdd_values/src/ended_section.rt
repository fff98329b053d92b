//! The end of a section.
ghost use Rattle.std.specs.Prelude.{◌≡◌, ◌≢◌, ℕ};
ghost use Rattle.sdd_values.specs.ReadSection.{ended_owns, ended_shares};

use sdd_rights::{Fraction, WHOLE};
use std::marker::{Model, PhantomData};

const _: () = prove!(size_of::<EndedSection>() == 0);

/// What shows that a lifetime has ended: nothing that is lent to it is used any more.
pub struct EndedSection {
    of: PhantomData<u64>,
    pub ghost name: { ℕ },
}

impl Model for EndedSection {
    ghost also_owns = { λ e. ended_owns e.name };

    ghost also_shares = { λ e _ κ. ended_shares e.name κ };
}

/// The lifetime of a part that has all units ends, and the next begins. Since all units are here, nobody else has a part of the section.
pub fn end_section<K>(section: &mut Fraction<K>) -> EndedSection
    requires { section.old.units ≡ WHOLE }
    ensures ended { result.name ≡ section.old.lifetime }
    ensures next { section.new ≡ record section.old { lifetime = section.new.lifetime } }
    ensures another { section.new.lifetime ≢ section.old.lifetime }
{
    let _ = section;
    EndedSection { of: PhantomData }
}

impl Drop for EndedSection {
    fn drop(self) {
        let EndedSection { of: _ } = self;
    }
}

unsafe impl Send for EndedSection {}

unsafe impl Sync for EndedSection {}
