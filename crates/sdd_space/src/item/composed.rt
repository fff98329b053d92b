//! Values made of values.
ghost use Rattle.std.specs.Prelude.{[], ◌++◌, flat_map};
ghost use Rattle.sdd_world_model.specs.Composed.{held_if_some};

use crate::item::{Giver, Item};

impl<I, T: Item<I>> Item<I> for Option<T> {
    ghost holds = { held_if_some T.holds };

    fn give_up<G: Giver<I>>(self, giver: &mut G) {
        match self {
            Some(value) => value.give_up(giver),
            None => {}
        }
    }
}

impl<I, A: Item<I>, B: Item<I>> Item<I> for (A, B) {
    ghost holds = { λ parts. A.holds parts.0 ++ B.holds parts.1 };

    fn give_up<G: Giver<I>>(self, giver: &mut G) {
        let (first, second) = self;
        first.give_up(giver);
        second.give_up(giver);
    }
}

impl<I, A: Item<I>, B: Item<I>, C: Item<I>> Item<I> for (A, B, C) {
    ghost holds = { λ parts. A.holds parts.0 ++ (B.holds parts.1 ++ C.holds parts.2) };

    fn give_up<G: Giver<I>>(self, giver: &mut G) {
        let (first, second, third) = self;
        first.give_up(giver);
        (second, third).give_up(giver);
    }
}

impl<I, A: Item<I>, B: Item<I>, C: Item<I>, D: Item<I>> Item<I> for (A, B, C, D) {
    ghost holds = { λ parts. A.holds parts.0 ++ (B.holds parts.1 ++ (C.holds parts.2 ++ D.holds parts.3)) };

    fn give_up<G: Giver<I>>(self, giver: &mut G) {
        let (first, second, third, fourth) = self;
        first.give_up(giver);
        (second, third, fourth).give_up(giver);
    }
}

impl<I, T: Item<I>> Item<I> for [T; 1] {
    ghost holds = { λ parts. flat_map T.holds parts };

    fn give_up<G: Giver<I>>(self, giver: &mut G) {
        let [only] = self;
        only.give_up(giver);
    }
}

impl<I, T: Item<I>> Item<I> for [T; 2] {
    ghost holds = { λ parts. flat_map T.holds parts };

    fn give_up<G: Giver<I>>(self, giver: &mut G) {
        let [first, second] = self;
        (first, second).give_up(giver);
    }
}

impl<I, T: Item<I>> Item<I> for [T; 3] {
    ghost holds = { λ parts. flat_map T.holds parts };

    fn give_up<G: Giver<I>>(self, giver: &mut G) {
        let [first, second, third] = self;
        (first, second, third).give_up(giver);
    }
}

impl<I, T: Item<I>> Item<I> for [T; 4] {
    ghost holds = { λ parts. flat_map T.holds parts };

    fn give_up<G: Giver<I>>(self, giver: &mut G) {
        let [first, second, third, fourth] = self;
        (first, second, third, fourth).give_up(giver);
    }
}
