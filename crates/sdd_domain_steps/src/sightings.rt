//! What a search saw, for clauses.
ghost use Rattle.std.specs.Prelude.{◌≡◌, ◌<◌, None, length, replicate};
ghost use Rattle.sdd_domain_steps.specs.Sightings.{IsMarked, KeepsMarks};

use sdd_core::Refused;
use sdd_shared_values::GhostValues;
use std::marker::Model;

const _: () = prove!(size_of::<Sightings>() == 0);

/// Which numbers were found taken, each at some moment, and which exchanges were lost. It has no bytes.
///
/// Only the searches of this crate add to it.
#[derive(Drop)]
pub struct Sightings {
    taken: GhostValues<bool>,
    lost: GhostValues<bool>,
}

impl Model for Sightings {
    ghost use Rattle.sdd_domain_steps.specs.Sightings.{Seen};

    ghost Value = { Seen };

    ghost view = { λ s. record { taken = s.taken.entries; lost = s.lost.entries } };
}

impl Sightings {
    /// Nothing yet, of numbers below this one, and of so many exchanges.
    pub fn new(numbers: usize, tries: u64) -> Sightings
        ensures { result ≡ record { taken = replicate numbers None; lost = replicate tries None } }
    {
        Sightings {
            taken: GhostValues::new(numbers),
            lost: GhostValues::new(tries as usize),
        }
    }

    /// A number was found taken.
    #[tactic(auto, using(crate::proofs::Marks::is_marked, crate::proofs::Marks::still_marked))]
    #[inline]
    pub(crate) fn note(&mut self, number: usize)
        requires inside { number < length self.old.taken }
        ensures marked { IsMarked self.new.taken number }
        ensures kept { KeepsMarks self.old.taken self.new.taken }
        ensures lost { self.new.lost ≡ self.old.lost }
    {
        self.taken.fill(number, &true);
    }

    /// An exchange was lost: the one of this number.
    #[tactic(auto, using(crate::proofs::Marks::is_marked, crate::proofs::Marks::still_marked))]
    #[inline]
    pub(crate) fn lose(&mut self, number: u64)
        requires inside { number < length self.old.lost }
        ensures marked { IsMarked self.new.lost number }
        ensures kept { KeepsMarks self.old.lost self.new.lost }
        ensures taken { self.new.taken ≡ self.old.taken }
    {
        self.lost.fill(number as usize, &true);
    }
}

/// A refusal, without what was seen.
#[inline]
pub fn without_sightings(missed: (Refused, Sightings)) -> Refused
    ensures { result ≡ missed.0 }
{
    missed.0
}
