//! A domain as what owners look at their items through, and pointers are looked through, where no participant is at hand.
ghost use Rattle.sdd_shared_values.specs.SharedValues.{showing};

use crate::domain::Domain;
use sdd_rights::Right;
use sdd_space::inner::value_of_ptr;
use sdd_space::{Item, Look, LookThrough, Ptr, Shows};

impl<T: Item<T>> Shows<T> for Domain<T> {
    ghost use Rattle.sdd_domain_core.specs.Domain.{home_of, gamma_of, limits_of};
    ghost use Rattle.sdd_domain_steps.specs.Items.{HasValue};
    ghost use Rattle.sdd_domain_steps.specs.SpaceIds.{home_at};
    ghost use Rattle.sdd_domain_steps.specs.Values.{one_value};

    ghost home = { λ d. home_at (home_of d) (gamma_of d) (limits_of d) };

    ghost shows = { λ _ _ _. ⊥ };

    ghost owns_value = { λ _ right value. HasValue (showing T.row value) right };

    fn shown_is_of_home(&self) {}

    ghost one_owned = { λ _ right u v a b. one_value T.row right u v a b };

    ghost keeps_owned = { λ _ _ _ _ _ _ owns. owns };
}

/// An owner looks at its item. Its seat tells the value, so that no step is needed.
impl<T: Item<T>> Look<T> for Domain<T> {
    ghost knows_slots = { λ _. ⊥ };

    #[inline]
    fn value<'a>(&'a self, right: &'a Right) -> &'a T {
        self.values
            .view(right.number() as usize, right.read_fraction())
    }
}

/// A pointer that was loaded under a guard of a participant, where that participant isn't at hand.
impl<T: Item<T>> LookThrough<T> for Domain<T> {
    ghost use Rattle.std.specs.Prelude.{◌≡◌, option_copied};
    ghost use Rattle.sdd_space.specs.Ptr.{shown_by};

    #[inline]
    fn look<'g>(&self, ptr: Ptr<'g, T>) -> Option<&'g T>
        ensures { option_copied result ≡ shown_by ptr.entry }
    {
        value_of_ptr(ptr)
    }

    ghost one_value = { λ _ _ _ _ none. absurd none };
}
