//! The values of a bag, lent one by one to be changed in their places.
ghost use Rattle.std.specs.Prelude.{◌≡◌, ◌^◌, ◌<◌, IfOk, IsTrue, MatchOption, MatchResult, None, Some, false, length, slice_get};
ghost use Rattle.sdd_space.specs.CallerId.{IsExact};
ghost use Rattle.sdd_world_model.specs.World.{AnyGuardOpen};
ghost use Rattle.sdd_lists.specs.Stack.{home_in};
ghost use Rattle.sdd_bag.specs.Bag.{IsBag, values_of};
ghost use Rattle.sdd_bag.specs.Spots.{start_of};

use crate::bag::Bag;
use crate::behind::{Behind, go_on};
use crate::fits::Fits;
use crate::shelf::Shelf;
use sdd_core::Refused;
use sdd_lists::LinkedEntry;
use sdd_lists::iter::Iter;
use sdd_space::{HeldItems, Items};

/// A cursor over the values of a bag, each of which `next` lends to be changed: first those that lie in the bag itself, and then the others. It borrows the bag
/// and its space, so that nobody adds or takes out a value meanwhile.
///
/// It must be spent: `close` puts the last value that was lent back. A value that is lent is out of its place, where another value of the bag lies meanwhile,
/// from the last full place of the first storage: so of each storage the first places have values, as ever.
pub struct IterMut<'b, T, const ARRAY_LEN: usize, B, S> {
    bag: &'b mut Bag<T, ARRAY_LEN, B>,
    shelves: Iter<'b, B, S>,
    behind: Option<Behind<'b, B>>,
    at: usize,
    gap: usize,
    held: Option<T>,
    fits: Fits<T, ARRAY_LEN, B>,
}

impl<T, const ARRAY_LEN: usize, B: Shelf<T, ARRAY_LEN>> Bag<T, ARRAY_LEN, B> {
    ghost use Rattle.std.specs.Borrow.{sem};
    ghost use Rattle.sdd_bag.specs.IterMut.{IsCursor, RestsIfRefused, bag_name, given, space_in, whole};

    /// A cursor over the values, which lends each of them to be changed in its place.
    ///
    /// `GuardOpen` where a guard is open, of whatever participant.
    pub fn iter_mut<'b, S: Items<LinkedEntry<B>> + HeldItems<LinkedEntry<B>>>(
        &'b mut self,
        s: &'b S,
    ) -> Result<IterMut<'b, T, ARRAY_LEN, B, S>, Refused>
        requires home { home_in self.old.overflow.stack ≡ (S.caller s.now).home.cells }
        requires exact { IsExact (S.caller s.now) }
        requires bag { IsBag B.shown ARRAY_LEN (S.world s.now) self.old }
        ensures* rests { sem 𝓛 (RestsIfRefused T.row ARRAY_LEN.row B.row self.entry result) }
        ensures begun { MatchResult result
            (λ it. ¬ AnyGuardOpen (S.world s.now) × IsCursor B.shown S.caller S.world it)
            (λ why. AnyGuardOpen (S.world s.now) × (why ≡ Refused.GuardOpen)) }
        ensures bag { IfOk result (λ it. (bag_name it ≡ self.entry.ghost_name) × (whole it ≡ self.old)) }
        ensures space { IfOk result (λ it. space_in it ≡ s.now) }
        ensures given { IfOk result (λ it. given it ≡ 0) }
    {
        if s.is_guarded() {
            return Err(Refused::GuardOpen);
        }
        self.lies_in_order();
        let shelves = self.shelves(s);
        Ok(IterMut {
            bag: self,
            shelves,
            behind: None,
            at: 0,
            gap: 0,
            held: None,
            fits: Fits::new(),
        })
    }
}

impl<
    'b,
    T,
    const ARRAY_LEN: usize,
    B: Shelf<T, ARRAY_LEN>,
    S: Items<LinkedEntry<B>> + HeldItems<LinkedEntry<B>>,
> IterMut<'b, T, ARRAY_LEN, B, S> {
    ghost use Rattle.std.specs.Borrow.{sem};
    ghost use Rattle.sdd_bag.specs.IterMut.{Ends, HasHere, IsCursor, IsPassed, Lends, LendsNext, Rests, bag_name, given, whole};

    /// The value that is lent, if any, goes back into its place.
    fn put_back(&mut self)
        requires cursor { IsCursor B.shown S.caller S.world self.old }
        ensures rests { Rests B.shown S.caller S.world self.old self.new }
    {
        let Some(value) = self.held.take() else {
            return;
        };
        self.fits.tell();
        self.bag.put_at(&self.behind, self.at, self.gap, value);
        self.at += 1;
    }

    /// Has this value, which lies elsewhere meanwhile.
    fn hold(&mut self, value: T, gap: usize)
        requires none { self.old.held ≡ None }
        ensures { self.new ≡ record self.old { held = Some value; gap = gap } }
    {
        match self.held.replace(value) {
            None => {}
            Some(_) => unreachable!(),
        }
        self.gap = gap;
    }

    /// Lends the value of the place where it is, if it has one.
    fn take_here(&mut self) -> bool
        requires cursor { IsCursor B.shown S.caller S.world self.old }
        requires none { self.old.held ≡ None }
        ensures few { start_of self.new.behind < 2 ^ 120 }
        ensures lent { IsTrue result → (v : T) × (self.new.held ≡ Some v) ×
            ((w : T) → Lends B.shown S.caller S.world v w self.old (record self.new { held = Some w })) }
        ensures rests { result ≡ false → Rests B.shown S.caller S.world self.old self.new }
        ensures passed { result ≡ false → IsPassed self.old × IsPassed self.new }
    {
        self.fits.tell();
        match self.bag.take_at(&self.behind, self.at) {
            Some((value, gap)) => {
                self.hold(value, gap);
                true
            }
            None => false,
        }
    }

    /// Goes on to the next storage, if there is one.
    fn enter_next(&mut self) -> bool
        requires cursor { IsCursor B.shown S.caller S.world self.old }
        requires none { self.old.held ≡ None }
        requires few { start_of self.old.behind < 2 ^ 120 }
        requires passed { IsPassed self.old }
        ensures rests { Rests B.shown S.caller S.world self.old self.new }
        ensures first { IsTrue result → HasHere self.new }
        ensures all { result ≡ false → given self.old ≡ length (values_of (whole self.old)) }
    {
        let Some(shelf) = self.shelves.next() else {
            return false;
        };
        go_on(&mut self.behind, shelf, ARRAY_LEN);
        self.at = 0;
        true
    }

    /// Lends the value that is next, if there is one.
    fn advance(&mut self)
        requires cursor { IsCursor B.shown S.caller S.world self.old }
        ensures moved { MatchOption self.new.held
            (Ends B.shown S.caller S.world self.old self.new)
            (λ v. (w : T) → Lends B.shown S.caller S.world v w self.old (record self.new { held = Some w })) }
    {
        self.put_back();
        if self.take_here() {
            return;
        }
        if self.enter_next() {
            self.take_here();
        }
    }

    /// The next value, to be changed. None exactly where each has been given.
    pub fn next(&mut self) -> Option<&mut T>
        requires cursor { IsCursor B.shown S.caller S.world self.old }
        ensures* lends { sem 𝓛 (LendsNext T.row ARRAY_LEN.row B.row S.row B.shown S.caller S.world self.entry result) }
        ensures value { MatchOption result
            (given self.old ≡ length (values_of (whole self.old)))
            (λ value. slice_get (values_of (whole self.old)) (given self.old) ≡ Some value.now) }
    {
        self.advance();
        self.held.as_mut()
    }

    /// Ends the cursor: the value that was lent last goes back into its place, and the bag comes back.
    pub fn close(self) -> &'b mut Bag<T, ARRAY_LEN, B>
        requires cursor { IsCursor B.shown S.caller S.world self }
        ensures same { result.ghost_name ≡ bag_name self.entry }
        ensures bag { result.now ≡ whole self.entry }
    {
        let IterMut {
            bag,
            shelves: _,
            behind,
            at,
            gap,
            held,
            fits,
        } = self;
        let mut fits = fits;
        fits.tell();
        match held {
            Some(value) => {
                bag.put_at(&behind, at, gap, value);
                bag
            }
            None => bag,
        }
    }
}
