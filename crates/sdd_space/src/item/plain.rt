//! Values that hold no owner and no cell.
ghost use Rattle.std.specs.Prelude.{[]};

use crate::item::{Giver, Item};

impl<I> Item<I> for bool {
    ghost holds = { λ _. [] };

    fn give_up<G: Giver<I>>(self, _giver: &mut G) {}
}

impl<I> Item<I> for char {
    ghost holds = { λ _. [] };

    fn give_up<G: Giver<I>>(self, _giver: &mut G) {}
}

impl<I> Item<I> for () {
    ghost holds = { λ _. [] };

    fn give_up<G: Giver<I>>(self, _giver: &mut G) {}
}

impl<I> Item<I> for u8 {
    ghost holds = { λ _. [] };

    fn give_up<G: Giver<I>>(self, _giver: &mut G) {}
}

impl<I> Item<I> for u16 {
    ghost holds = { λ _. [] };

    fn give_up<G: Giver<I>>(self, _giver: &mut G) {}
}

impl<I> Item<I> for u32 {
    ghost holds = { λ _. [] };

    fn give_up<G: Giver<I>>(self, _giver: &mut G) {}
}

impl<I> Item<I> for u64 {
    ghost holds = { λ _. [] };

    fn give_up<G: Giver<I>>(self, _giver: &mut G) {}
}

impl<I> Item<I> for u128 {
    ghost holds = { λ _. [] };

    fn give_up<G: Giver<I>>(self, _giver: &mut G) {}
}

impl<I> Item<I> for usize {
    ghost holds = { λ _. [] };

    fn give_up<G: Giver<I>>(self, _giver: &mut G) {}
}

impl<I> Item<I> for i8 {
    ghost holds = { λ _. [] };

    fn give_up<G: Giver<I>>(self, _giver: &mut G) {}
}

impl<I> Item<I> for i16 {
    ghost holds = { λ _. [] };

    fn give_up<G: Giver<I>>(self, _giver: &mut G) {}
}

impl<I> Item<I> for i32 {
    ghost holds = { λ _. [] };

    fn give_up<G: Giver<I>>(self, _giver: &mut G) {}
}

impl<I> Item<I> for i64 {
    ghost holds = { λ _. [] };

    fn give_up<G: Giver<I>>(self, _giver: &mut G) {}
}

impl<I> Item<I> for i128 {
    ghost holds = { λ _. [] };

    fn give_up<G: Giver<I>>(self, _giver: &mut G) {}
}

impl<I> Item<I> for isize {
    ghost holds = { λ _. [] };

    fn give_up<G: Giver<I>>(self, _giver: &mut G) {}
}

impl<I> Item<I> for String {
    ghost holds = { λ _. [] };

    fn give_up<G: Giver<I>>(self, _giver: &mut G) {}
}
