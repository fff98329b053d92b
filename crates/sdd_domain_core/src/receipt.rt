ghost use Rattle.std.specs.Prelude.{◌≡◌, ◌-◌, ◌≤◌, [], ◌∷◌, None, false};
ghost use Rattle.sdd_atomics.specs.DomainTable.{id_of};
ghost use Rattle.sdd_domain_core.specs.Domain.{slots_in};
ghost use Rattle.sdd_domain_steps.specs.LocalState.{HasOpenGuard, waits};
ghost use Rattle.sdd_domain_steps.specs.Receipt.{HasLeft, IsSettled, with_reclaimed};
ghost use Rattle.sdd_domain_core.specs.Space.{slots_home};

use crate::domain::Domain;
use crate::local_core::detached_local::DetachedLocal;
use crate::reclaiming::LocalGiver;
use sdd_atomics::DomainTable;
use sdd_domain_steps::epoch::ended_counts::EndedCounts;
use sdd_participants::{Idle, Job, Tally};
use sdd_shared_values::GhostValues;
use sdd_space::Item;
use sdd_witness::Witness;
use std::marker::Model;

/// A participant that takes no part any more, and with which items or jobs wait.
#[derive(Drop)]
pub struct EndedLocal<T: Item<T>, J: Job> {
    dormant: DetachedLocal<J>,
    ghost_values: GhostValues<T>,
}

impl<T: Item<T>, J: Job> Model for EndedLocal<T, J> {
    ghost use Rattle.sdd_domain_steps.specs.Local.{LocalModel};
    ghost use Rattle.sdd_domain_steps.specs.WordsAndValues.{WordsMatchValues};

    ghost Value = { LocalModel T J };

    ghost view = { λ e. record { member = e.dormant; entries = e.ghost_values.entries } };

    ghost invariant = { λ e. WordsMatchValues e.dormant e.ghost_values.entries };
}

impl<T: Item<T>, J: Job> EndedLocal<T, J> {
    /// Takes part in its domain again, and reclaims what waits with it, as many items as are left at most.
    fn settle(self, domain: &Domain<T>, left: &mut usize) -> Receipt<T, J>
        requires { slots_home self ≡ slots_in domain.now }
        ensures few { left.new ≤ left.old }
        ensures home { result.home ≡ slots_home self }
        ensures tally { result.tally ≡ with_reclaimed (left.old - left.new) self.member.tally }
    {
        let EndedLocal {
            dormant,
            ghost_values,
        } = self;
        let core = match dormant.wake(domain) {
            Ok(core) => core,
            Err(dormant) => {
                return Receipt {
                    left: ReceiptContents::Items(EndedLocal {
                        dormant,
                        ghost_values,
                    }),
                };
            }
        };
        let mut giver = LocalGiver { core, ghost_values };
        giver.drain(left);
        Receipt::of(giver)
    }
}

/// What is left of a participant.
#[derive(Drop)]
pub enum ReceiptContents<T: Item<T>, J: Job> {
    /// Nothing waited: its counts.
    Nothing(EndedCounts),
    /// Itself, with what waits.
    Items(EndedLocal<T, J>),
}

/// What a participant that has ended leaves, for the close of its domain: what it made and reclaimed, and what waits still.
#[derive(Drop)]
pub struct Receipt<T: Item<T>, J: Job = Idle> {
    left: ReceiptContents<T, J>,
}

impl<T: Item<T>, J: Job> Model for Receipt<T, J> {
    ghost use Rattle.sdd_domain_steps.specs.Receipt.{Receipt};
    ghost use Rattle.sdd_domain_core.specs.ReceiptContents.{receipt_of};

    ghost Value = { Receipt };

    ghost view = { λ r. receipt_of r.left };
}

impl<T: Item<T>, J: Job> Receipt<T, J> {
    /// What a participant leaves that has no guard open.
    pub fn of(giver: LocalGiver<'_, T, J>) -> Receipt<T, J>
        requires shut { ¬ (HasOpenGuard giver.member) }
        requires settled { giver.member.due ≡ [] }
        requires closes { giver.member.slots.closes ≡ None }
        ensures { result ≡ record { home = slots_home giver.entry; tally = giver.entry.member.tally; waits = waits giver.entry.member } }
    {
        let LocalGiver { core, ghost_values } = giver;
        let left = if core.waits() {
            let dormant = core.rest();
            ReceiptContents::Items(EndedLocal {
                dormant,
                ghost_values,
            })
        } else {
            ReceiptContents::Nothing(core.end())
        };
        Receipt { left }
    }

    /// How many items its participant made, reclaimed and dropped in place.
    pub fn tally(&self) -> Tally
        ensures { result ≡ self.now.tally }
    {
        match &self.left {
            ReceiptContents::Nothing(ended) => ended.tally(),
            ReceiptContents::Items(estate) => estate.dormant.tally(),
        }
    }

    /// Something of its participant waits still: the close of the domain reclaims the items, and runs the jobs.
    pub fn waits(&self) -> bool
        ensures { result ≡ self.now.waits }
    {
        match &self.left {
            ReceiptContents::Nothing(_) => false,
            ReceiptContents::Items(_) => true,
        }
    }

    /// Has its participant reclaim what waits with it, in its domain, as many items as are left at most.
    pub(crate) fn settle(self, domain: &Domain<T>, left: &mut usize) -> Receipt<T, J>
        requires { self.home ≡ slots_in domain.now }
        ensures few { left.new ≤ left.old }
        ensures settled { IsSettled (left.old - left.new) self result }
    {
        let Receipt { left: rest } = self;
        match rest {
            ReceiptContents::Nothing(ended) => Receipt {
                left: ReceiptContents::Nothing(ended),
            },
            ReceiptContents::Items(estate) => estate.settle(domain, left),
        }
    }

    /// The counts behind the tally of a participant with which nothing waits.
    pub(crate) fn into_counts(self, table: &DomainTable) -> Witness
        requires home { self.home.tables ≡ id_of table.now ∷ [] }
        requires over { self.waits ≡ false }
        ensures home { result.table_id ≡ id_of table.now }
        ensures counts { HasLeft result.views self.tally }
    {
        let Receipt { left } = self;
        match left {
            ReceiptContents::Nothing(ended) => ended.into_counts(table),
            ReceiptContents::Items(_) => unreachable!(),
        }
    }
}
