//! The words of a domain and the fractions in its values, under their rule, and the seat that a participant steps with.
ghost use Rattle.std.specs.Prelude.{◌≡◌, ◌+◌, ◌<◌, ◌≤◌, ℕ, MatchResult};
ghost use Rattle.sdd_domain_invariant.specs.Words as words;
ghost use Rattle.sdd_domain_invariant.specs.Words.{all_words};
ghost use Rattle.sdd_domain_invariant.specs.Codes.{full};
ghost use Rattle.sdd_domain_invariant.specs.Slots.{slot_at};
ghost use Rattle.core.specs.Mem.Slots.{slots_items, slots_len, IsFull};
ghost use Rattle.sdd_domain_invariant.specs.Fractions.FractionsAtHome.{AreLaid, AreHome};
ghost use Rattle.sdd_domain_invariant.specs.Counts.{made_by, gone_by, over_by, full_slots};
ghost use Rattle.sdd_atomics.specs.Sizes.{AreSmall};

use crate::plays::{Found, FoundLedger};
use crate::words::{LINE, first_place, first_pointer, first_slot, word_count};
use atomic_table::{Closed, Refused, Seat, Table, TableRule};
use sdd_rights::views::{Sizes, View};
use sdd_shared_values::{Bank, Treasury, ValueFraction, ValuesName};
use sdd_witness::{Books, Ledger};
use std::alloc::Global;

/// How many of each a domain has, and of which ghost map its values' places are.
#[derive(Drop)]
pub struct TableLayout {
    pub sizes: Sizes,
    pub values_name: ValuesName,
}

/// The rule that the words and the fractions keep.
pub struct DomainRule;

impl TableRule<ValueFraction, View, TableLayout> for DomainRule {
    ghost use Rattle.sdd_domain_invariant.specs.Fractions.BankInvariant.{founder};
    ghost use Rattle.sdd_domain_invariant.specs.DomainInvariant.{DomainInvariant};

    ghost holds = { λ layout s. DomainInvariant layout.values_name.gamma layout.sizes s };

    ghost first = { λ layout. founder layout.sizes layout.values_name.gamma };
}

/// How the bank's view tells what it has.
pub struct Vault;

impl Treasury<View> for Vault {
    ghost use Rattle.sdd_domain_invariant.specs.Fractions.BankInvariant as bank;

    ghost ours = { bank.IsBank };

    ghost banked = { bank.banked };
}

/// How the ledger's view tells of the pledges that are there, and a participant's of its own.
pub struct Pledges;

impl Books<View> for Pledges {
    ghost use Rattle.sdd_domain_invariant.specs.Fractions.PledgesInvariant as pledges;

    ghost ours = { pledges.IsLedger };

    ghost booked = { pledges.booked_by };

    ghost pledging = { pledges.pledging };

    ghost freeing = { pledges.freeing };
}

/// What a participant knows of the words, and the fractions that it has out.
pub type DomainSeat = Seat<ValueFraction, View>;

/// The words of a domain, and the homes of the fractions in its values.
#[derive(Drop)]
pub struct DomainTable {
    /// The words, under their rule.
    pub atomic: Table<ValueFraction, View, TableLayout, DomainRule, Global>,
    /// What is of the values that lie in slots, and neither in their fractions nor with their owners.
    pub bank: Bank<View, TableLayout, DomainRule, Vault>,
    /// Shares of the views of owners, beside which another owner comes.
    pub ledger: Ledger<ValueFraction, View, TableLayout, DomainRule, Pledges>,
    places: usize,
    /// Where the words of cells' pointers begin.
    first_pointer: usize,
    /// Where the places' words begin.
    first_place: usize,
    /// Where the slots' words begin.
    first_slot: usize,
    ghost sized: { AreSmall atomic.shared.key.sizes × (atomic.shared.table_id.words ≡ all_words atomic.shared.key.sizes) },
    ghost banked: { (bank.table_id ≡ atomic.shared.table_id) × (bank.key ≡ atomic.shared.key) },
    ghost ledgered: { (ledger.table_id ≡ atomic.shared.table_id) × (ledger.key ≡ atomic.shared.key) },
    ghost placed: { (places ≡ atomic.shared.key.sizes.participants) × (first_pointer ≡ words.pointer_word atomic.shared.key.sizes 0)
        × (first_place ≡ words.state_word atomic.shared.key.sizes 0)
        × (first_slot ≡ words.first_slot atomic.shared.key.sizes) },
}

impl DomainTable {
    ghost use Rattle.sdd_atomics.specs.DomainTable.{id_of, layout_of, sizes_of, gamma_of, places_of};

    /// The words of a domain of these sizes, as they are before anybody takes part, with all fractions at home.
    ///
    /// Where memory is wanting the fractions come back.
    pub fn new(
        alloc: Global,
        layout: &TableLayout,
        laid: Vec<ValueFraction>,
    ) -> Result<DomainTable, Vec<ValueFraction>>
        requires small { AreSmall layout.now.sizes }
        requires laid { AreLaid layout.now.values_name.gamma layout.now.sizes.participants layout.now.sizes.slots laid.items }
        ensures { MatchResult result (λ table. layout_of table ≡ layout.now) (λ back. back.items ≡ laid.items) }
    {
        let Ok(words) = vec![in alloc; 0u64; word_count(&layout.sizes) as usize] else {
            return Err(laid);
        };
        match Table::new(alloc, words.as_slice(), laid, layout) {
            Ok((atomic, mut seat)) => {
                let bank = Bank::found::<Found>(&atomic.shared, &mut seat);
                let ledger = Ledger::found::<FoundLedger>(&atomic.shared, &mut seat);
                Ok(DomainTable {
                    atomic,
                    bank,
                    ledger,
                    places: layout.sizes.participants as usize,
                    first_pointer: first_pointer(&layout.sizes) as usize,
                    first_place: first_place(&layout.sizes) as usize,
                    first_slot: first_slot(&layout.sizes) as usize,
                })
            }
            Err(Refused { slots }) => Err(slots),
        }
    }

    /// Where the word of a slot is, or of a job's place, whose number comes after those of the slots.
    #[inline]
    pub fn slot_word(&self, slot: u32) -> usize
        requires { slot < words.most_waiting (sizes_of self.now) }
        ensures { result ≡ words.slot_word (sizes_of self.now) slot }
    {
        self.first_slot + slot as usize
    }

    /// Where the word of a cell's pointer is. There are as many of these as cells, and they lie behind those.
    #[inline]
    pub fn pointer_word(&self, cell: u32) -> usize
        requires { cell < (sizes_of self.now).cells }
        ensures { result ≡ words.pointer_word (sizes_of self.now) cell }
    {
        self.first_pointer + cell as usize
    }

    /// Where the state of the first place is. Those of the others come behind it, a line apart.
    #[inline]
    pub fn first_state(&self) -> usize
        ensures { result ≡ words.state_word (sizes_of self.now) 0 }
    {
        self.first_place
    }

    /// Where the state of a place is, by where that of the first one is: who looks at all places reads that once.
    #[inline]
    pub fn state_from(&self, first: usize, place: usize) -> usize
        requires first { first ≡ words.state_word (sizes_of self.now) 0 }
        requires inside { place < places_of self.now }
        ensures { result ≡ words.state_word (sizes_of self.now) place }
    {
        LINE * place + first
    }

    /// Where the count of a place is, which nobody but its participant writes either.
    #[inline]
    pub fn count_from(&self, first: usize, place: usize) -> usize
        requires first { first ≡ words.state_word (sizes_of self.now) 0 }
        requires inside { place < places_of self.now }
        ensures { result ≡ words.count_word (sizes_of self.now) place }
    {
        self.state_from(first, place) + 1
    }

    /// Where the state of a place is.
    #[inline]
    pub fn state_word(&self, place: usize) -> usize
        requires { place < places_of self.now }
        ensures { result ≡ words.state_word (sizes_of self.now) place }
    {
        self.state_from(self.first_place, place)
    }

    /// How many places there are.
    #[inline]
    pub fn places(&self) -> usize
        ensures { result ≡ places_of self.now }
    {
        self.places
    }

    /// The words and the fractions, by a seat that knows that all places are barred: all fractions lie in their homes.
    /// Where it has the counts of all places, what was made has gone or lies in a slot. A slot that it knows to be quiet is free.
    pub fn close(self, seat: DomainSeat) -> Closed<ValueFraction, Global>
        requires home { seat.table_id ≡ id_of self }
        requires ended { places_of self ≤ seat.me.0.places.ended }
        ensures home { AreHome (gamma_of self) (sizes_of self) (slots_len result.slots) result }
        ensures places { over_by seat.me.0 ≤ places_of self }
        ensures counted { over_by seat.me.0 ≡ places_of self
            → made_by seat.me.0 ≡ gone_by seat.me.0 + full_slots (sizes_of self) (slots_items result.words) }
        ensures quiet { (i : ℕ) → i < seat.me.0.places.quiet → full (slot_at (sizes_of self) (slots_items result.words) i) ≡ 0 }
        ensures words { (slots_len result.words ≡ all_words (sizes_of self)) × IsFull result.words }
    {
        let DomainTable {
            atomic,
            bank: _,
            ledger: _,
            places: _,
            first_pointer: _,
            first_place: _,
            first_slot: _,
        } = self;
        atomic.close_with(seat)
    }
}
