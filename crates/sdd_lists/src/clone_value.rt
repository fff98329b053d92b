//! Clones of values that may hold owners.
ghost use Rattle.std.specs.Prelude.{MatchResult};

use std::alloc::AllocError;

/// A second value like a first one, as `Clone` makes it: each type that has `Clone` has this. A type has `Clone` only where each of its values may be dropped;
/// one whose values may hold owners, which may not, has this by itself.
pub trait CloneValue: Sized {
    /// Holds of a value and each value that may be made of it.
    ghost is_clone: { Self → Self → Type 0 };
    /// Holds of a value of which one is made whenever it is asked.
    ghost is_infallible: { Self → Type 0 };

    /// A second value like this one. Refused where memory is.
    fn clone_value(&self) -> Result<Self, AllocError>
        ensures cases { MatchResult result (is_clone self.now) (λ _. ¬ (is_infallible self.now)) };
}

impl<T: Clone> CloneValue for T {
    ghost is_clone = { T.is_clone };

    ghost is_infallible = { T.is_infallible };

    fn clone_value(&self) -> Result<T, AllocError> {
        self.clone()
    }
}
