ghost use Rattle.std.specs.Prelude.{◌≡◌, ◌+◌, ◌-◌, ◌^◌, ◌%◌, min};
ghost use Rattle.sdd_participants.specs.Tally.{one_more};

use std::marker::Model;

/// A number from 0 to 2^128 - 1, at which it no longer grows. One more writes one word, but where that word is full.
#[derive(Drop)]
pub struct Counter {
    low: u64,
    high: u64,
}

impl Model for Counter {
    ghost use Rattle.std.specs.Prelude.{ℕ, ◌+◌, ◌*◌, ◌^◌, ◌<◌};

    ghost Value = { ℕ };

    ghost view = { λ c. c.high * 2 ^ 64 + c.low };

    ghost invariant = { λ c. (c.low < 2 ^ 64) × (c.high < 2 ^ 64) };
}

impl Counter {
    /// At 0.
    pub fn new() -> Counter
        ensures { result ≡ 0 }
    {
        Counter { low: 0, high: 0 }
    }

    /// The number.
    pub fn get(&self) -> u128
        ensures { result ≡ self.now }
    {
        self.high as u128 * (1 << 64) + self.low as u128
    }

    /// One more, unless there is no more room.
    #[inline]
    pub fn count(&mut self)
        ensures { self.new ≡ one_more self.old }
    {
        self.low = self.low.wrapping_add(1);
        if self.low == 0 {
            self.carry();
        }
    }

    /// The low word was full, and is 0 now: the high word counts one more; where that is full too, the number is the greatest again.
    #[inline(never)]
    fn carry(&mut self)
        requires { self.old % 2 ^ 64 ≡ 0 }
        ensures { self.new ≡ min (self.old + 2 ^ 64) (2 ^ 128 - 1) }
    {
        if self.high == u64::MAX {
            self.low = u64::MAX;
        } else {
            self.high += 1;
        }
    }
}
