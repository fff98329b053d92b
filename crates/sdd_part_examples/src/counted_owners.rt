//! A word that counts owners, over the kit's `atomic_table`: another owner is made beside a `&` to one, by the table's own addition.
ghost use Rattle.std.specs.Prelude.{◌≡◌, ◌<◌, ◌-◌, ◌/◌, ◌+◌, ℕ, [], IfOk};
ghost use Rattle.sdd_part_examples.specs.CountedOwners.{owner_views, IsFree, Spent, Freed};

mod plays;
mod views;

use crate::counted_owners::plays::{Cut, Found, Half, Leave, Make, Pledges, Rule, TakeIn};
use atomic_table::{Seat, Table};
use sdd_witness::{FetchAdd, Ledger, Witness, part};
use std::alloc::{AllocError, Global};
use std::marker::PhantomData;
pub use views::View;

/// What a participant steps with.
pub type Participant = Seat<(), View>;

/// The word, and the ledger of the pledges.
#[derive(Drop)]
pub struct Owners {
    pub table: Table<(), View, (), Rule, Global>,
    pub ledger: Ledger<(), View, (), Rule, Pledges>,
    ghost home: { (ledger.table_id ≡ table.shared.table_id) × (table.shared.table_id.words ≡ 1) },
}

impl Owners {
    /// A word with one owner, which the first participant has.
    pub fn new(alloc: Global) -> Result<(Owners, Participant), AllocError>
        ensures { IfOk result (λ t. (t.1.table_id ≡ t.0.table.shared.table_id) × (t.1.me.0.owned ≡ 1)
            × (t.1.me.0.room ≡ 9223372036854775807) × (t.1.me.0.last ≡ 0) × IsFree t.1.me.0) }
    {
        let (table, mut participant) = Table::<(), View, (), Rule, Global>::of_words(
            alloc,
            &[1],
            &(),
        )?;
        let ledger = Ledger::<(), View, (), Rule, Pledges>::found::<Found>(
            &table.shared,
            &mut participant,
        );
        Ok((Owners { table, ledger }, participant))
    }

    /// Another participant, who may make half as many owners as this one might.
    pub fn participant(&self, participant: &mut Participant) -> Participant
        requires home { participant.old.table_id ≡ self.now.table.shared.table_id }
        requires free { IsFree participant.old.me.0 }
        ensures this { (participant.new.table_id ≡ participant.old.table_id) × IsFree participant.new.me.0
            × (participant.new.me.0.owned ≡ participant.old.me.0.owned) × (participant.new.me.0.last ≡ participant.old.me.0.last)
            × (participant.new.me.0.room ≡ participant.old.me.0.room - participant.old.me.0.room / 2) }
        ensures other { (result.table_id ≡ participant.old.table_id) × IsFree result.me.0 × (result.me.0.owned ≡ 0) × (result.me.0.last ≡ 0)
            × (result.me.0.room ≡ participant.old.me.0.room / 2) }
    {
        self.table.shared.split_seat::<Half>(participant)
    }

    /// The owner that a participant has leaves as a token of its own. No word is touched.
    pub fn cut(&self, participant: &mut Participant) -> Witness
        requires home { participant.old.table_id ≡ self.now.table.shared.table_id }
        requires free { IsFree participant.old.me.0 }
        requires one { 0 < participant.old.me.0.owned }
        ensures owner { (result.table_id ≡ self.now.table.shared.table_id) × (result.views ≡ owner_views) }
        ensures participant { (participant.new.table_id ≡ participant.old.table_id) × IsFree participant.new.me.0
            × (participant.new.me.0.owned ≡ participant.old.me.0.owned - 1) × (participant.new.me.0.last ≡ participant.old.me.0.last)
            × (participant.new.me.0.room ≡ participant.old.me.0.room) }
    {
        part::<_, _, _, _, Cut>(&self.table.shared, participant)
    }

    /// Another owner, beside one.
    pub fn another(&self, participant: &mut Participant, owner: &Witness) -> Witness
        requires home { participant.old.table_id ≡ self.now.table.shared.table_id }
        requires free { IsFree participant.old.me.0 }
        requires room { 0 < participant.old.me.0.room }
        requires owner { (owner.now.table_id ≡ self.now.table.shared.table_id) × (owner.now.views ≡ owner_views) }
        ensures owner { (result.table_id ≡ self.now.table.shared.table_id) × (result.views ≡ owner_views) }
        ensures participant { (participant.new.table_id ≡ participant.old.table_id) × Spent participant.old.me.0 participant.new.me.0 }
    {
        let one_more = FetchAdd::<Make> {
            word: 0,
            k: 1,
            marker: PhantomData,
        };
        let _ = self
            .ledger
            .beside(&self.table.shared, participant, owner, &one_more);
        part::<_, _, _, _, Cut>(&self.table.shared, participant)
    }

    /// An owner goes. The answer is whether it was the last: then the participant knows that there is none, and never will be.
    pub fn release(&self, participant: &mut Participant, owner: Witness) -> bool
        requires home { participant.old.table_id ≡ self.now.table.shared.table_id }
        requires free { IsFree participant.old.me.0 }
        requires owner { (owner.table_id ≡ self.now.table.shared.table_id) × (owner.views ≡ owner_views) }
        ensures { (participant.new.table_id ≡ participant.old.table_id) × Freed participant.old.me.0 result participant.new.me.0 }
    {
        self.ledger
            .rejoin::<TakeIn>(&self.table.shared, participant, owner);
        self.table.shared.fetch_sub::<Leave>(participant, 0, 1) == 1
    }
}
