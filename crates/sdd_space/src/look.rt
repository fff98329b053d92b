ghost use Rattle.std.specs.Prelude.{◌≡◌, ℕ, option_copied};
ghost use Rattle.sdd_rights.specs.Right.{number_of, home_of};
ghost use Rattle.sdd_world_model.specs.OwnerOrCell.{SpaceId, AreOf};
ghost use Rattle.sdd_rights.specs.declared.right.Right.{Right};
ghost use Rattle.sdd_space.specs.Ptr.{shown_by, KeepsShown};

use crate::item::Item;
use crate::ptr::Ptr;
use sdd_rights::Right;

/// What the slots of a world or domain show.
pub trait Shows<T: Item<T>> {
    /// Where its slots, cells and readers are numbered.
    ghost home: { Self → SpaceId };
    /// The slot shows this value.
    ghost shows: { Self → ℕ → T → Type 0 };
    /// The owner's item has this value. The owner knows it, whatever others do meanwhile.
    ghost owns_value: { Self → Right → T → Type 0 };

    /// A law, which does nothing when the program runs: what a shown value holds is of this home. So a cell that stands in it can be loaded from.
    fn shown_is_of_home(&self)
        ensures { (k : ℕ) (value : T) → shows self.now k value → AreOf (home self.now) (T.holds value) };

    /// An owner's item has one value.
    ghost one_owned: { (s : Self) (right : Right) (u v : T) → owns_value s right u → owns_value s right v → u ≡ v };

    /// Where each slot of a home shows what it showed, an owner's item has the value that it had.
    ghost keeps_owned: { (s t : Self) → home s ≡ home t → KeepsShown (shows s) (shows t) →
        (right : Right) (v : T) → owns_value s right v → owns_value t right v };
}

/// Where pointers can be looked through: a world, a turn at it, a domain, a participant of it.
pub trait LookThrough<T: Item<T>>: Shows<T> {
    /// The value that a pointer was made with, whatever was called since; None for null.
    fn look<'g>(&self, ptr: Ptr<'g, T>) -> Option<&'g T>
        ensures { option_copied result ≡ shown_by ptr.entry };

    /// A slot shows one value.
    ghost one_value: { (s : Self) (k : ℕ) (u v : T) → Self.shows s k u → Self.shows s k v → u ≡ v };
}

/// Where items can be looked at by their owners too, without a guard: a world, a turn at it, a domain, a participant of it.
pub trait Look<T: Item<T>>: LookThrough<T> {
    /// It knows what each slot shows. A world does; a domain, whose slots others fill and free, knows an owner's item alone.
    ghost knows_slots: { Self → Type 0 };

    /// The value of an owner's item. What it holds is of this home, so that a cell that stands in it can be loaded from.
    fn value<'a>(&'a self, right: &'a Right) -> &'a T
        requires home { home_of right.now ≡ (Self.home self.now).slots }
        ensures shown { Self.knows_slots self.now → Self.shows self.now (number_of right.now) result.now }
        ensures value { Self.owns_value self.now right.now result.now }
        ensures held { AreOf (Self.home self.now) (T.holds result.now) };
}
