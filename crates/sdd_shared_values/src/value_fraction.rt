//! Some units of a number, as a value without bytes.
ghost use Rattle.std.specs.Prelude.{◌≡◌, ◌+◌, ◌-◌, ◌<◌, ◌≤◌, ◌∷◌, None};
ghost use Rattle.sdd_shared_values.specs.ValueFractions.{FractionContent, content_coded, holding};

use crate::bank::{Bank, Deals, Treasury};
use crate::fraction_list::FractionList;
use atomic_table::{Seat, Shared, TableRule};
use sdd_rights::{ReadFraction, WHOLE};
use std::marker::{Model, PhantomData};

const _: () = prove!(size_of::<ValueFraction>() == 0);

/// Some units of a number of a ghost map, which agree with all its other units on a lifetime and on what they show. They may be lent to a section.
pub struct ValueFraction {
    pub(crate) of: PhantomData<u64>,
    pub ghost content: { FractionContent } by { content_coded },
}

impl Model for ValueFraction {
    ghost also_owns = { λ s. holding s.content };
}

impl ValueFraction {
    ghost use Rattle.sdd_shared_values.specs.SharedValues.{IsValueCode};
    ghost use Rattle.sdd_shared_values.specs.ReadFractions.{content_of};
    ghost use Rattle.sdd_shared_values.specs.Bank.{AllowsDeal, Comes};

    /// Some units, as a fraction of their own. At least one stays.
    pub fn split(&mut self, units: u64) -> ValueFraction
        requires some { 0 < units }
        requires fewer { units < self.old.content.units }
        requires free { self.old.content.lent ≡ None }
        ensures rest { self.new.content ≡ record self.old.content { units = self.old.content.units - units } }
        ensures part { result.content ≡ record self.old.content { units = units } }
    {
        let _ = units;
        ValueFraction { of: PhantomData }
    }

    /// Two fractions of one number become one. They had agreed.
    pub fn join(&mut self, other: ValueFraction)
        requires gamma { other.content.gamma ≡ self.old.content.gamma }
        requires number { other.content.number ≡ self.old.content.number }
        requires free { (self.old.content.lent ≡ None) × (other.content.lent ≡ None) }
        ensures joined { self.new.content ≡ record self.old.content { units = self.old.content.units + other.content.units } }
        ensures fits { self.new.content.units ≤ WHOLE }
        ensures lifetime { other.content.lifetime ≡ self.old.content.lifetime }
        ensures shown { other.content.shown ≡ self.old.content.shown }
    {
        let ValueFraction { of: _ } = other;
    }

    /// Puts the fraction before the others of a list of fractions.
    pub fn redeem(self, fraction_list: &mut FractionList)
        ensures { fraction_list.new.contents ≡ self.content ∷ fraction_list.old.contents }
    {
        let ValueFraction { of: _ } = self;
        let _ = fraction_list;
    }

    /// Goes into a bank.
    pub fn enter<V, K, P: TableRule<ValueFraction, V, K>, B: Treasury<V>, M: Deals<V>>(
        self,
        bank: &Bank<V, K, P, B>,
        table: &Shared<ValueFraction, V, K, P>,
        seat: &mut Seat<ValueFraction, V>,
    )
        requires table { (seat.old.table_id ≡ table.now.table_id) × (bank.now.table_id ≡ table.now.table_id) }
        requires allowed { AllowsDeal (P.holds bank.now.key) Comes B.ours B.banked table.now.table_id.slots seat.old.id seat.old.me bank.now.id
            (λ l. l ≡ self.content) (M.then self.content.number seat.old.me) }
        ensures seat { (seat.new.table_id ≡ seat.old.table_id) × (seat.new.id ≡ seat.old.id) }
        ensures then { M.then self.content.number seat.old.me self.content seat.new.me }
    {
        let _ = bank;
        let _ = table;
        let ValueFraction { of: _ } = self;
    }

    /// One unit of a full place's number, as its owner's read fraction.
    pub fn into_read_fraction(self) -> ReadFraction
        requires full { IsValueCode self.content.shown }
        requires one { self.content.units ≡ 1 }
        requires free { self.content.lent ≡ None }
        ensures { content_of result ≡ self.content }
    {
        let ValueFraction { of: _ } = self;
        ReadFraction { of: PhantomData }
    }

    /// An owner's read fraction, as the unit that it is.
    pub fn of_read_fraction(read_fraction: ReadFraction) -> ValueFraction
        ensures { result.content ≡ content_of read_fraction }
    {
        let ReadFraction { of: _ } = read_fraction;
        ValueFraction { of: PhantomData }
    }
}

impl Drop for ValueFraction {
    fn drop(self) {
        let ValueFraction { of: _ } = self;
    }
}

unsafe impl Send for ValueFraction {}
