//! A participant of a domain. Where it is lone, it shows the world that its domain is then.
ghost use Rattle.std.specs.Prelude.{◌≡◌, ◌⊎◌, IfErr, IfOk, MatchResult};
ghost use Rattle.sdd_domain_core.specs.Domain.{home_of, gamma_of, limits_of};
ghost use Rattle.sdd_domain_steps.specs.SpaceIds.{home_at, home_in};
ghost use Rattle.sdd_domain_steps.specs.LocalState.{HasOpenGuard, IsLone, IsNew, waits};
ghost use Rattle.sdd_domain_core.specs.Space.{slots_home};

use sdd_core::Refused;
use sdd_domain_core::domain::Domain;
use sdd_domain_core::local_core::LocalCore;
use sdd_domain_core::receipt::Receipt;
use sdd_domain_core::reclaiming::LocalGiver;
use sdd_domain_steps::sightings::without_sightings;
use sdd_participants::{Idle, Job, Tally};
use sdd_shared_values::GhostValues;
use sdd_space::Item;
use std::marker::Model;

mod laws;

/// A participant of a domain.
///
/// What it defers is of one type, and this is `Idle`, a job that does nothing, where it defers nothing.
///
/// It must be spent by `end`. It is *lone* where its domain has one place: then nobody else changes the domain, and what its calls do is said exactly.
pub struct Local<'d, T: Item<T>, J: Job = Idle> {
    /// Its core, with which value it moved into each slot, for clauses.
    pub(crate) giver: LocalGiver<'d, T, J>,
}

impl<'d, T: Item<T>, J: Job> Model for Local<'d, T, J> {
    ghost use Rattle.sdd_domain_steps.specs.Local.{LocalModel};
    ghost use Rattle.sdd_domain_core.specs.Sound.{IsSound};

    ghost Value = { LocalModel T J };

    ghost view = { λ l. l.giver };

    ghost invariant = { λ l. IsSound T.holds l.giver };
}

impl<'d, T: Item<T>> Local<'d, T> {
    ghost use Rattle.sdd_domain_steps.specs.Local.{world_of, IsBlankAlone};

    /// Registers a participant that defers no jobs.
    ///
    /// All memory is taken here, and none later: for what may wait with it, and for the slots that it gave back, as many
    /// as there are slots. `NoPlace` where all places were found taken; `NoMemory` where this memory was refused.
    pub fn register(domain: &'d Domain<T>) -> Result<Local<'d, T>, Refused>
        ensures registered { IfOk result (λ local. IsNew (home_of domain.now) (gamma_of domain.now) (limits_of domain.now) local.member) }
        ensures blank { IfOk result (λ local. IsLone local.member → IsBlankAlone (limits_of domain.now) (world_of local)) }
        ensures refused { IfErr result (λ e. (e ≡ Refused.NoPlace) ⊎ (e ≡ Refused.NoMemory)) }
    {
        Local::register_with_jobs(domain)
    }
}

impl<'d, T: Item<T>, J: Job> Local<'d, T, J> {
    ghost use Rattle.sdd_domain_steps.specs.Local.{world_of, IsBlankAlone};

    /// Registers a participant that defers jobs of this type.
    ///
    /// All memory is taken here, and none later: for what may wait with it, for the slots that it gave back, as many as there are slots, and for the
    /// jobs that it defers, as many as the table of jobs has places. `NoPlace` where all places were found taken; `NoMemory` where this memory was
    /// refused.
    pub fn register_with_jobs(domain: &'d Domain<T>) -> Result<Local<'d, T, J>, Refused>
        ensures registered { IfOk result (λ local. IsNew (home_of domain.now) (gamma_of domain.now) (limits_of domain.now) local.member) }
        ensures blank { IfOk result (λ local. IsLone local.member → IsBlankAlone (limits_of domain.now) (world_of local)) }
        ensures refused { IfErr result (λ e. (e ≡ Refused.NoPlace) ⊎ (e ≡ Refused.NoMemory)) }
    {
        let core = match LocalCore::register(domain) {
            Ok(core) => core,
            Err(missed) => return Err(without_sightings(missed)),
        };
        let ghost_values = GhostValues::new(domain.limits.slots as usize);
        Ok(Local {
            giver: LocalGiver { core, ghost_values },
        })
    }

    /// Ends the participant. Its place isn't free again; what waits with it goes on waiting, in the receipt, and is reclaimed at the close of the
    /// domain.
    ///
    /// Where one of its guards is open it comes back.
    pub fn end(self) -> Result<Receipt<T, J>, Local<'d, T, J>>
        ensures { MatchResult result
            (λ receipt. ¬ (HasOpenGuard self.entry.member)
            × (receipt ≡ record { home = slots_home self.entry; tally = self.entry.member.tally; waits = waits self.entry.member }))
            (λ local. HasOpenGuard self.entry.member × (local ≡ self.entry)) }
    {
        if self.giver.core.is_guarded() {
            return Err(self);
        }
        let Local { giver } = self;
        Ok(Receipt::of(giver))
    }

    /// Its domain, through which owners look at their items also while the participant goes on.
    pub fn domain(&self) -> &'d Domain<T>
        ensures home { home_at (home_of result.now) (gamma_of result.now) (limits_of result.now) ≡ home_in self.now.member }
        ensures limits { limits_of result.now ≡ self.now.member.limits }
    {
        self.giver.core.domain()
    }

    /// How many items it made, reclaimed and dropped in place.
    pub fn tally(&self) -> Tally
        ensures { result ≡ self.now.member.tally }
    {
        self.giver.core.tally()
    }
}
