//! That a bag is not too large.
ghost use Rattle.sdd_bag.specs.Sizes.{IsSmall, small};

use std::marker::{Model, PhantomData};

/// Whoever has it knows that a bag of these has fewer than 2^63 bytes. It has none itself.
///
/// A call that takes a `&mut` to a bag owes that, and a `&mut` in a field doesn't tell it.
#[derive(Drop)]
pub struct Fits<T, const ARRAY_LEN: usize, B> {
    of: PhantomData<(T, B)>,
}

impl<T, const ARRAY_LEN: usize, B> Model for Fits<T, ARRAY_LEN, B> {
    ghost also_owns = { λ _. small T.row ARRAY_LEN.row B.row };
}

impl<T, const ARRAY_LEN: usize, B> Fits<T, ARRAY_LEN, B> {
    /// Knows it.
    pub(crate) fn new() -> Fits<T, ARRAY_LEN, B>
        requires { IsSmall T.row ARRAY_LEN.row B.row }
    {
        Fits { of: PhantomData }
    }

    /// Tells it.
    pub(crate) fn tell(&mut self)
        ensures { IsSmall T.row ARRAY_LEN.row B.row }
    {}
}
