ghost use Rattle.std.specs.Prelude.{◌≡◌};
ghost use Rattle.sdd_participants.specs.Tally.{no_items, one_in_place, one_made, one_more, one_reclaimed};

use crate::counter::Counter;
use std::marker::Model;

/// How many items a participant or a world made, reclaimed and dropped in place.
///
/// Items are values in slots; a deferred job counts nowhere. At 2^128 - 1 a number no longer grows.
#[derive(Clone, Copy, Debug, PartialEq, Eq)]
pub struct Tally {
    pub made: u128,
    pub reclaimed: u128,
    pub in_place: u128,
}

impl Tally {
    /// No item was made yet.
    pub fn new() -> Tally
        ensures { result ≡ no_items }
    {
        Tally {
            made: 0,
            reclaimed: 0,
            in_place: 0,
        }
    }
}

/// A tally that is being taken: each item more writes one word of it.
#[derive(Drop)]
pub struct RunningTally {
    made: Counter,
    reclaimed: Counter,
    in_place: Counter,
}

impl Model for RunningTally {
    ghost use Rattle.sdd_participants.specs.declared.tally.Tally.{Tally};

    ghost Value = { Tally };

    ghost view = { λ t. record { made = t.made; reclaimed = t.reclaimed; in_place = t.in_place } };
}

impl RunningTally {
    /// No item was made yet.
    pub fn new() -> RunningTally
        ensures { result ≡ no_items }
    {
        RunningTally {
            made: Counter::new(),
            reclaimed: Counter::new(),
            in_place: Counter::new(),
        }
    }

    /// The tally as it stands.
    pub fn total(&self) -> Tally
        ensures { result ≡ self.now }
    {
        Tally {
            made: self.made.get(),
            reclaimed: self.reclaimed.get(),
            in_place: self.in_place.get(),
        }
    }

    #[inline]
    pub fn count_made(&mut self)
        ensures { self.new ≡ one_made self.old }
    {
        self.made.count();
    }

    #[inline]
    pub fn count_reclaimed(&mut self)
        ensures { self.new ≡ one_reclaimed self.old }
    {
        self.reclaimed.count();
    }

    #[inline]
    pub fn count_in_place(&mut self)
        ensures { self.new ≡ one_in_place self.old }
    {
        self.in_place.count();
    }
}
