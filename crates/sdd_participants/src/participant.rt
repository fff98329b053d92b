//! What a participant keeps of its own, in a world as in a domain: how its guards nest, when it scans, and what waits with it.
ghost use Rattle.std.specs.Prelude.{◌≡◌, ◌<◌, ◌==◌, Bool, length, if◌then◌else◌};
ghost use Rattle.sdd_participants.specs.EpochState.{has_garbage, newcomer, newcomer_with, passes, rested, settled, with_garbage};

use crate::bags::Bags;

/// The countdown of a participant without garbage: its closes don't count, and it doesn't scan.
pub const NO_GARBAGE: u8 = 128;

/// The countdown of a participant from the moment on when it has garbage, and after each scan: after so many outermost
/// closes the next one scans.
pub const CLOSES_TO_SCAN: u8 = 127;

/// What a participant keeps.
#[derive(Drop)]
pub struct Participant {
    /// The last count that it found, which it has published while a guard is open.
    pub found: u64,
    /// Outermost closes until one that scans, which is the one at 0; `NO_GARBAGE` without garbage.
    pub countdown: u8,
    /// How many guards are open.
    pub guards: u32,
    pub bags: Bags,
}

/// How far a participant is: the last count that it found, and its countdown.
#[derive(Clone, Copy, Debug, PartialEq, Eq)]
pub struct CountdownState {
    pub found: u64,
    pub countdown: u8,
}

impl Participant {
    /// One that has just registered, with these bags.
    pub fn new(bags: Bags) -> Participant
        ensures { result ≡ newcomer_with bags }
    {
        Participant {
            found: 0,
            countdown: NO_GARBAGE,
            guards: 0,
            bags,
        }
    }

    /// There is garbage.
    #[inline]
    pub fn has_garbage(&self) -> bool
        ensures { result ≡ has_garbage self.now }
    {
        self.countdown != NO_GARBAGE
    }

    /// There is garbage from now on.
    pub fn set_has_garbage(&mut self)
        ensures { self.new ≡ with_garbage self.old }
    {
        if self.countdown == NO_GARBAGE {
            self.countdown = CLOSES_TO_SCAN;
        }
    }

    /// The participant is a newcomer, with the bags that are there.
    pub fn begin(&mut self)
        ensures { self.new ≡ newcomer self.old.bags.room }
    {
        self.found = 0;
        self.countdown = NO_GARBAGE;
        self.guards = 0;
        self.bags.clear();
    }

    /// After a change: there is garbage exactly where something waits still.
    #[inline]
    pub fn settle(&mut self)
        ensures { self.new ≡ settled self.old }
    {
        self.countdown = if self.bags.is_empty() {
            NO_GARBAGE
        } else {
            CLOSES_TO_SCAN
        };
    }

    /// A scan at this count passes it.
    pub fn passes(&self, count: u64) -> bool
        ensures { result ≡ passes count self.now }
    {
        self.guards == 0 || self.found == count
    }

    /// The last guard is closed; the ended mark is as it was found.
    #[inline]
    pub fn leave(&mut self, marked: bool)
        ensures { self.new ≡ rested marked self.old }
    {
        match self.countdown {
            NO_GARBAGE => {
                if marked {
                    self.countdown = CLOSES_TO_SCAN;
                }
            }
            0 => self.countdown = CLOSES_TO_SCAN,
            countdown => self.countdown = countdown - 1,
        }
        self.guards = 0;
    }
}
