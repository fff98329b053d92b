//! Which value is in each place, for clauses.
ghost use Rattle.std.specs.Prelude.{◌≡◌, ℕ, Option, None, Some, List, replicate, slice_set, slice_index_or};
ghost use Rattle.std.specs.Coded.{coded_option};
ghost use base.Stored.{Gv, coded×, coded_list};
ghost use denote.Sharing.{said};
ghost use Rattle.atomic_table.specs.Seated.{fact};
ghost use Rattle.sdd_rights.specs.Units.{gv_coded};
ghost use Rattle.sdd_shared_values.specs.SharedValues.{showing};
ghost use Rattle.sdd_shared_values.specs.GhostValues.{AreCoded};

use std::marker::{Model, PhantomData};

const _: () = prove!(size_of::<GhostValues<u64>>() == 0);

/// Which value is in each place, and the code by which units show it. It has no bytes, and owns nothing.
pub struct GhostValues<T> {
    pub(crate) of: PhantomData<T>,
    pub ghost entries: { List (Option (T × Gv)) } by { coded_list (coded_option (coded× T.code gv_coded)) },
}

impl<T> Model for GhostValues<T> {
    ghost also_owns = { λ l. fact (AreCoded T.row l.entries) };

    ghost also_shares = { λ l _ κ. said (fact (AreCoded T.row l.entries)) κ };
}

impl<T> GhostValues<T> {
    /// Of so many places, all empty.
    pub fn new(size: usize) -> GhostValues<T>
        ensures { result.entries ≡ replicate size None }
    {
        let _ = size;
        GhostValues { of: PhantomData }
    }

    /// This value is in the place from now on.
    pub fn fill(&mut self, place: usize, value: &T)
        ensures { self.new.entries ≡ slice_set self.old.entries place (Some (value.now, showing T.row value.now)) }
    {
        let _ = place;
        let _ = value;
    }

    /// A law, which does nothing when the program runs: the code of each entry is that of its value.
    pub fn codes(&self)
        ensures { (place : ℕ) (v : T) (g : Gv) → slice_index_or self.now.entries place None ≡ Some (v, g) → g ≡ showing T.row v }
    {}
}

impl<T> Drop for GhostValues<T> {
    fn drop(self) {
        let GhostValues { of: _ } = self;
    }
}

unsafe impl<T> Send for GhostValues<T> {}
