ghost use Rattle.std.specs.Prelude.{◌≡◌, ℕ, List, false, ◌+◌, ◌^◌, ◌≤◌, ◌⊎◌, [], All, IfErr, IfOk, MatchResult, length, vec_capacity};
ghost use Rattle.sdd_core.specs.Limits.{AreInRange};
ghost use Rattle.sdd_shared_values.specs.Memory.{IsHoldOf, IsHoldOfValues};
ghost use Rattle.sdd_shared_values.specs.SharedValues.{AreVacant};
ghost use Rattle.sdd_domain_invariant.specs.Fractions.FractionsAtHome.{homes_for};
ghost use Rattle.sdd_atomics.specs.DomainTable.{sizes_of};
ghost use Rattle.sdd_atomics.specs.TableFacts.{facts_of};
ghost use Rattle.sdd_domain_steps.specs.DomainValues.{sizes_in, IsValuesOf};
ghost use Rattle.sdd_domain_steps.specs.Receipt.{Receipt as EndedCounts, AddsUp, AreSettled, capped, sum_of, with_reclaimed};

use crate::closing::{are_over, gather_all_fractions, settle_all, take_all_counts};
use crate::receipt::Receipt;
use sdd_atomics::{DomainTable, TableLayout};
use sdd_core::{Limits, Refused};
use sdd_domain_invariant::{gather_all, lay_all};
use sdd_domain_steps::epoch::quiet::settled;
use sdd_domain_steps::slots::holds_own_domain::HoldsOwnDomain;
use sdd_participants::{Job, Tally};
use sdd_rights::views::Sizes;
use sdd_shared_values::{FractionList, SharedValues, VacantValues, ValueFraction};
use sdd_space::Item;
use sdd_values::Freeable;
use std::alloc::{AllocError, Global};
use std_alloc::room::may_hold;

/// What participants in several threads share: values of one type, in slots.
///
/// Each has a [`Local`](crate::Local) of its own. A domain must be spent by `close`.
pub struct Domain<T: Item<T>> {
    pub(crate) table: DomainTable,
    pub values: SharedValues<T, HoldsOwnDomain>,
    hold: Freeable<T, Global>,
    pub limits: Limits,
    pub(crate) alloc: Global,
    ghost limited: { AreInRange limits × (sizes_of table ≡ sizes_in limits) },
    ghost shelved: { IsValuesOf (facts_of table) values × IsHoldOfValues values alloc hold },
}

fn sizes_for(limits: &Limits) -> Sizes
    ensures { result ≡ sizes_in limits.now }
{
    Sizes {
        participants: limits.participants,
        slots: limits.slots,
        jobs: limits.jobs,
        cells: limits.cells,
    }
}

/// Room for so many values, none of which is there.
fn new_plot<T>(
    alloc: Global,
    slots: usize,
) -> Result<(VacantValues<T>, FractionList, Freeable<T, Global>), AllocError>
    ensures size { IfOk result (λ made. made.0.size ≡ slots) }
    ensures fraction_list { IfOk result (λ made. AreVacant made.0.gamma 0 slots made.1.contents) }
    ensures hold { IfOk result (λ made. IsHoldOf made.0 alloc made.2) }
{
    if !may_hold::<T>(slots) {
        return Err(AllocError);
    }
    VacantValues::new(&alloc, slots)
}

/// Room for the fractions of so many places in so many slots. They have no bytes.
fn new_homes(
    alloc: Global,
    participants: usize,
    slots: usize,
) -> Result<Vec<ValueFraction>, AllocError>
    requires few { participants ≤ 1024 }
    requires small { slots ≤ 2 ^ 24 }
    ensures empty { IfOk result (λ laid. laid.items ≡ []) }
    ensures room { IfOk result (λ laid. homes_for participants slots ≤ vec_capacity laid) }
{
    Vec::with_capacity(alloc, slots * (participants + 1))
}

fn add(sum: Tally, tally: Tally) -> Tally
    ensures made { result.made ≡ capped (sum.made + tally.made) }
    ensures reclaimed { result.reclaimed ≡ capped (sum.reclaimed + tally.reclaimed) }
    ensures in_place { result.in_place ≡ capped (sum.in_place + tally.in_place) }
{
    Tally {
        made: sum.made.saturating_add(tally.made),
        reclaimed: sum.reclaimed.saturating_add(tally.reclaimed),
        in_place: sum.in_place.saturating_add(tally.in_place),
    }
}

/// The tallies of all receipts together.
fn tally_of<T: Item<T>, J: Job>(receipts: &Vec<Receipt<T, J>>) -> Tally
    ensures { result ≡ sum_of receipts.now.items }
{
    let mut sum = Tally::new();
    for receipt in receipts {
        sum = add(sum, receipt.tally());
    }
    sum
}

impl<T: Item<T>> Domain<T> {
    ghost use Rattle.sdd_domain_core.specs.Domain.{limits_of, slots_in};

    /// A domain without participants, at epoch 0. All memory is taken here: for its words, and for as many values as there are slots.
    ///
    /// `BadLimits` where a limit is out of its range; `NoMemory` where this memory was refused.
    pub fn new(alloc: Global, limits: Limits) -> Result<Domain<T>, Refused>
        ensures new { IfOk result (λ domain. limits_of domain ≡ limits) }
        ensures limits { MatchResult result (λ _. AreInRange limits)
            (λ e. ((e ≡ Refused.BadLimits) × ¬ (AreInRange limits)) ⊎ ((e ≡ Refused.NoMemory) × AreInRange limits)) }
    {
        if !limits.are_in_range() {
            return Err(Refused::BadLimits);
        }
        let participants = limits.participants as u32;
        let slots = limits.slots as u32;
        let Ok(mut laid) = new_homes(alloc, participants as usize, slots as usize) else {
            return Err(Refused::NoMemory);
        };
        let Ok((plot, fraction_list, hold)) = new_plot(alloc, slots as usize) else {
            return Err(Refused::NoMemory);
        };
        let layout = TableLayout {
            sizes: sizes_for(&limits),
            values_name: plot.values_name(),
        };
        lay_all(
            &mut laid,
            fraction_list,
            &layout.values_name,
            participants,
            slots,
        );
        match DomainTable::new(alloc, &layout, laid) {
            Ok(table) => {
                let values = plot.found(&table.atomic.shared);
                Ok(Domain {
                    table,
                    values,
                    hold,
                    limits,
                    alloc,
                })
            }
            Err(laid) => {
                let fraction_list = gather_all(laid, &layout.values_name, participants, slots);
                plot.close(&alloc, fraction_list, hold);
                Err(Refused::NoMemory)
            }
        }
    }

    /// Closes a domain, with receipts of its participants, and answers their tallies together. What waits with them is reclaimed first, and what that
    /// gives up, and the jobs that wait with them run; all memory is given back. Where there is a receipt for each place, what was made was reclaimed.
    ///
    /// `OwnerOut` where something is still out: an item that has an owner, a participant that hasn't ended, or one with which items or jobs wait and
    /// whose receipt isn't here. The domain and the receipts come back, and what waited with them has been reclaimed.
    pub fn close<J: Job>(
        self,
        mut receipts: Vec<Receipt<T, J>>,
    ) -> Result<Tally, (Domain<T>, Vec<Receipt<T, J>>, Refused)>
        requires homes { All (λ (r : EndedCounts). r.home ≡ slots_in self) receipts.items }
        ensures settled { (waiting : ℕ) × (waiting ≤ (limits_of self).slots) × (settled : List EndedCounts) × AreSettled waiting receipts.items settled
            × MatchResult result
            (λ tally. (tally ≡ sum_of settled) × (tally ≡ with_reclaimed waiting (sum_of receipts.items)) × All (λ (r : EndedCounts). r.waits ≡ false) settled)
            (λ back. (back.0 ≡ self) × (back.1.items ≡ settled) × (back.2 ≡ Refused.OwnerOut)) }
        ensures again { IfErr result (λ back. All (λ (r : EndedCounts). r.home ≡ slots_in back.0) back.1.items) }
        ensures whole { IfOk result (λ tally. (length receipts.items ≤ (limits_of self).participants)
            × (length receipts.items ≡ (limits_of self).participants → AddsUp tally)) }
    {
        let slots = self.limits.slots;
        let mut left = slots as usize;
        settle_all(&self, &mut receipts, &mut left);
        if !are_over(&receipts) {
            return Err((self, receipts, Refused::OwnerOut));
        }
        let numbers = (slots + self.limits.jobs) as u32;
        let Ok(mut seat) = settled(&self.table, numbers) else {
            return Err((self, receipts, Refused::OwnerOut));
        };
        let tally = tally_of(&receipts);
        take_all_counts(&mut seat, receipts);
        let seat = seat.into_seat();
        let Domain {
            table,
            values,
            hold,
            limits,
            alloc,
        } = self;
        let values_name = values.values_name();
        let mut closed = table.close(seat);
        let fraction_list = gather_all_fractions(&mut closed, &values_name, &sizes_for(&limits));
        closed.free();
        values.close(&alloc, fraction_list, hold);
        Ok(tally)
    }

    /// Lets go of a domain in which something is out for ever. Its memory, and the values in it, stay where they are.
    pub fn leak(self) {
        let Domain {
            table: _,
            values,
            hold,
            limits: _,
            alloc: _,
        } = self;
        values.leak(hold);
    }
}
