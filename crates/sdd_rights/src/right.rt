ghost use Rattle.std.specs.Prelude.{◌≡◌, ◌≢◌, ◌<◌, ◌≤◌, [], true, false};
ghost use Rattle.sdd_rights.specs.declared.right.StandingKind.{StandingKind};
ghost use Rattle.sdd_rights.specs.StandingKind.{right_units, is_shared, IsOwner};
ghost use Rattle.sdd_rights.specs.declared.views.CellKind.{CellKind};
ghost use Rattle.sdd_rights.specs.Owner.{witness_of_owner, witness_of_cell, is_cell, cell_kind, codes-prop};

use crate::fraction::{Fraction, GhostKeys, WHOLE};
use crate::read_fraction::ReadFraction;
use sdd_core::SlotName;
use sdd_witness::Witness;
use std::marker::Model;
use std::mem::replace;

/// How a number of slots or cells stands, as all its units agree.
#[derive(Clone, Copy, Debug, PartialEq, Eq)]
pub enum StandingKind {
    /// Nothing is there.
    Free,
    /// One owner has a right to it.
    Owned,
    /// It is out as raw, with nobody's right.
    Raw,
    /// Several owners have a unit each.
    Shared,
    /// It waits to be reclaimed.
    Retired,
}

impl StandingKind {
    /// How many units an owner has.
    pub(crate) fn units(self) -> u64
        ensures { result ≡ right_units self }
    {
        match self {
            StandingKind::Owned => WHOLE - 1,
            StandingKind::Free | StandingKind::Raw | StandingKind::Shared | StandingKind::Retired =>
                1,
        }
    }
}

/// The right of an owner to a number: all its units but the one that its space keeps, where nobody else may be an owner, and a single one else.
///
/// In a domain there is no ghost map of the slots or cells, and its fraction, of a ghost map of its own, says the kind, and whether it is to a slot or a
/// cell. The
/// witness of a right to a slot is the seat of the slot's owner, and its read fraction is of the slot's number and shows what the seat does; that of a right to
/// a cell is the cell's seat.
///
/// It can be neither copied nor let go of by chance: it is redeemed where it was granted.
pub struct Right {
    pub(crate) name: SlotName,
    pub(crate) fraction: Fraction<StandingKind>,
    pub(crate) witness: Witness,
    pub(crate) read_fraction: ReadFraction,
    pub ghost named: { witness.views ≡ [] → fraction.number ≡ name },
    pub ghost inside: { name < fraction.home.size },
    pub ghost owner: { IsOwner fraction.kind },
    pub ghost due: { witness.views ≡ [] → fraction.units ≡ right_units fraction.kind },
    pub ghost tableless: { fraction.home.tables ≡ [] },
    pub ghost placed: { witness.views ≢ [] → is_cell fraction.number ≡ false → read_fraction.number ≡ name },
    pub ghost owns: { witness.views ≢ [] × (is_cell fraction.number ≡ false) → witness.views ≡ witness_of_owner name
        (is_shared fraction.kind) read_fraction.shown } by { codes-prop },
    pub ghost reaches: { witness.views ≢ [] × (is_cell fraction.number ≡ true) → witness.views ≡ witness_of_cell name (cell_kind
        (is_shared fraction.kind)) } by { codes-prop },
}

const _: () = prove!(size_of::<Right>() == 4);

impl Model for Right {
    ghost use Rattle.sdd_rights.specs.Owner.{is_cell};
    ghost use Rattle.sdd_rights.specs.RightModel.{RightModel, home_by, right_coded};

    ghost Value = { RightModel };

    ghost coded = { right_coded };

    ghost view = { λ r. record {
      number = r.name;
      home = home_by r.witness.views r.witness.table_id r.read_fraction.gamma (is_cell r.fraction.number) r.fraction.home;
      kind = r.fraction.kind;
      views = r.witness.views;
      owner = r.owner;
    } };
}

impl Right {
    ghost use Rattle.sdd_rights.specs.Right.{number_of, home_of, kind_of, views_of, home_of_table, cells_of_table, AreSlotsOfTable, AreCellsOfTable, IsOwnerBy, IsCellBy};

    /// The name of the slot that the right is to.
    #[inline(always)]
    pub fn name(&self) -> SlotName
        ensures { result ≡ number_of self.now }
    {
        self.name
    }

    /// The number of the slot or cell that the right is to.
    pub fn number(&self) -> u32
        ensures { result ≡ number_of self.now }
    {
        self.name.number()
    }

    /// The right to a slot of a domain, by the seat of its owner and a unit of the number of the slot's place. The domain has so many slots.
    pub fn of_witness(
        number: u32,
        size: usize,
        kind: StandingKind,
        witness: Witness,
        read_fraction: ReadFraction,
    ) -> Right
        requires owner { witness.views ≡ witness_of_owner number (is_shared kind) read_fraction.shown }
        requires place { read_fraction.number ≡ number }
        requires inside { number < size }
        requires kind { IsOwner kind }
        ensures number { number_of result ≡ number }
        ensures home { home_of result ≡ home_of_table witness.table_id read_fraction.gamma size }
        ensures kind { kind_of result ≡ kind }
        ensures views { views_of result ≡ witness.views }
    {
        let mut keys = GhostKeys::new(size);
        let fraction = keys.issue(&kind);
        Right {
            name: SlotName::of(number),
            fraction,
            witness,
            read_fraction,
        }
    }

    /// The right to a cell of a domain, by its seat. The domain has so many cells.
    pub fn of_cell(number: u32, size: usize, kind: StandingKind, witness: Witness) -> Right
        requires cell { witness.views ≡ witness_of_cell number (cell_kind (is_shared kind)) }
        requires inside { number < size }
        requires kind { IsOwner kind }
        ensures number { number_of result ≡ number }
        ensures home { home_of result ≡ cells_of_table witness.table_id size }
        ensures kind { kind_of result ≡ kind }
        ensures views { views_of result ≡ witness.views }
    {
        let mut keys = GhostKeys::new(size);
        let _ = keys.issue(&kind);
        let fraction = keys.issue(&kind);
        Right {
            name: SlotName::of(number),
            fraction,
            witness,
            read_fraction: ReadFraction::blank(),
        }
    }

    /// The right that has this unit of a number of a ghost map, which several may own.
    fn of_fraction(name: SlotName, fraction: Fraction<StandingKind>) -> Right
        requires named { fraction.number ≡ name }
        requires inside { name < fraction.home.size }
        requires kind { fraction.kind ≡ StandingKind.Shared }
        requires single { fraction.units ≡ 1 }
        requires tableless { fraction.home.tables ≡ [] }
        ensures number { number_of result ≡ name }
        ensures home { home_of result ≡ fraction.home }
        ensures kind { kind_of result ≡ StandingKind.Shared }
    {
        Right {
            name,
            fraction,
            witness: Witness::blank(),
            read_fraction: ReadFraction::blank(),
        }
    }

    /// A right to a number of a home of its own, to stand in another's place.
    fn to_nothing() -> Right {
        let mut keys = GhostKeys::new(1);
        let mut whole = keys.issue(&StandingKind::Shared);
        Right::of_fraction(SlotName::of(0), whole.split(1))
    }

    /// Takes the right out of where it is. One to nothing stands there, until it is put back.
    pub fn take(&mut self) -> Right
        ensures { result ≡ self.old }
    {
        replace(self, Right::to_nothing())
    }

    /// Puts a right there, and lets go of the one that stood there for ever.
    pub fn put(&mut self, right: Right)
        ensures { self.new ≡ right }
    {
        replace(self, right).forget();
    }

    /// Lets go of the right for ever: nobody has it again, nor redeems it.
    pub fn forget(self) {
        let (_owner, read_fraction) = self.into_owner();
        read_fraction.discard();
    }

    /// The seat of the owner of the slot, and the unit of the number of its place, in a domain; of a right to a cell the cell's seat, and a blank unit;
    /// blank ones else.
    pub fn into_owner(self) -> (Witness, ReadFraction)
        ensures views { result.0.views ≡ views_of self }
        ensures inside { number_of self < (home_of self).size }
        ensures owner { AreSlotsOfTable (home_of self) → IsOwnerBy (home_of self) (number_of self) (is_shared (kind_of self)) result.0 result.1 }
        ensures cell { AreCellsOfTable (home_of self) → IsCellBy (home_of self) (number_of self) (cell_kind (is_shared (kind_of self))) result.0 }
    {
        let Right {
            name: _,
            fraction: _,
            witness,
            read_fraction,
        } = self;
        (witness, read_fraction)
    }

    /// The seat of the owner of the slot, or of the right to the cell, in a domain; a blank one else.
    pub fn witness(&self) -> &Witness
        ensures views { result.now.views ≡ views_of self.now }
        ensures inside { number_of self.now < (home_of self.now).size }
        ensures owner { AreSlotsOfTable (home_of self.now) → (read_fraction : ReadFraction)
            × IsOwnerBy (home_of self.now) (number_of self.now) (is_shared (kind_of self.now)) result.now read_fraction }
        ensures cell { AreCellsOfTable (home_of self.now) →
            IsCellBy (home_of self.now) (number_of self.now) (cell_kind (is_shared (kind_of self.now))) result.now }
    {
        &self.witness
    }

    /// The unit of the number of the slot's place, in a domain; a blank one else.
    pub fn read_fraction(&self) -> &ReadFraction
        ensures inside { number_of self.now < (home_of self.now).size }
        ensures owner { AreSlotsOfTable (home_of self.now) → (witness : Witness) × (witness.views ≡ views_of self.now)
            × IsOwnerBy (home_of self.now) (number_of self.now) (is_shared (kind_of self.now)) witness result.now }
    {
        &self.read_fraction
    }
}

/// The rights of several owners of a number, in one piece.
///
/// It can't be copied, but be redeemed where it was granted, or let go of for ever.
pub struct SharedRights {
    pub(crate) name: SlotName,
    pub(crate) count: u64,
    pub(crate) fraction: Fraction<StandingKind>,
    pub ghost named: { fraction.number ≡ name },
    pub ghost inside: { name < fraction.home.size },
    pub ghost kind: { fraction.kind ≡ StandingKind.Shared },
    pub ghost some: { 1 ≤ count },
    pub ghost due: { fraction.units ≡ count },
    pub ghost tableless: { fraction.home.tables ≡ [] },
}

impl SharedRights {
    ghost use Rattle.std.specs.Prelude.{◌+◌, IfSome, MatchOption};
    ghost use Rattle.sdd_rights.specs.SharedRights.{number_of, home_of, count_of};
    ghost use Rattle.sdd_rights.specs.Right as right;

    /// The right of one of the owners, and those of the others, if there are more.
    pub fn split_off(self) -> (Right, Option<SharedRights>)
        ensures right_home { right.home_of result.0 ≡ home_of self }
        ensures right_number { right.number_of result.0 ≡ number_of self }
        ensures right_kind { right.kind_of result.0 ≡ StandingKind.Shared }
        ensures others { IfSome result.1 (λ rest. (home_of rest ≡ home_of self) × (number_of rest ≡ number_of self)) }
        ensures count { MatchOption result.1 (count_of self ≡ 1) (λ rest. count_of rest + 1 ≡ count_of self) }
    {
        let SharedRights {
            name,
            count,
            mut fraction,
        } = self;
        if count == 1 {
            return (Right::of_fraction(name, fraction), None);
        }
        let one = fraction.split(1);
        let rest = SharedRights {
            name,
            count: count - 1,
            fraction,
        };
        (Right::of_fraction(name, one), Some(rest))
    }

    /// The number that the rights are to.
    pub fn number(&self) -> u32
        ensures { result ≡ number_of self.now }
    {
        self.name.number()
    }

    /// How many owners' rights there are.
    pub fn count(&self) -> u64
        ensures { result ≡ count_of self.now }
    {
        self.count
    }
}

/// A right to a number that is out as raw: a cell of raw pointers has one. There is no owner of such a number.
///
/// In a domain its witness is the cell's seat, and its fraction is of a ghost map of its own.
///
/// It can't be copied, but be redeemed where it was granted, or let go of for ever.
pub struct RawRight {
    pub(crate) number: u32,
    pub(crate) fraction: Fraction<StandingKind>,
    pub(crate) witness: Witness,
    pub ghost named: { witness.views ≡ [] → fraction.number ≡ number },
    pub ghost inside: { number < fraction.home.size },
    pub ghost kind: { fraction.kind ≡ StandingKind.Raw },
    pub ghost due: { witness.views ≡ [] → fraction.units ≡ right_units fraction.kind },
    pub ghost tableless: { fraction.home.tables ≡ [] },
    pub ghost reaches: { witness.views ≢ [] → witness.views ≡ witness_of_cell number CellKind.Raw } by { codes-prop },
}

const _: () = prove!(size_of::<RawRight>() == 4);

impl Model for RawRight {
    ghost use Rattle.std.specs.Prelude.{true};
    ghost use Rattle.sdd_rights.specs.RightModel.{RawRightModel, home_by, raw_right_coded};

    ghost Value = { RawRightModel };

    ghost coded = { raw_right_coded };

    ghost view = { λ r. record { number = r.number; home = home_by r.witness.views r.witness.table_id 0 true r.fraction.home } };
}

impl RawRight {
    ghost use Rattle.sdd_rights.specs.Right.{raw_number_of, raw_home_of, cells_of_table, AreCellsOfTable, IsCellBy};

    /// The right to a cell of raw pointers of a domain, by its seat. The domain has so many cells.
    pub fn of_cell(number: u32, size: usize, witness: Witness) -> RawRight
        requires cell { witness.views ≡ witness_of_cell number CellKind.Raw }
        requires inside { number < size }
        ensures number { raw_number_of result ≡ number }
        ensures home { raw_home_of result ≡ cells_of_table witness.table_id size }
    {
        let mut keys = GhostKeys::new(size);
        RawRight {
            number,
            fraction: keys.issue(&StandingKind::Raw),
            witness,
        }
    }

    /// The cell's seat, in a domain; a blank one else.
    pub fn witness(&self) -> &Witness
        ensures cell { AreCellsOfTable (raw_home_of self.now) → IsCellBy (raw_home_of self.now) (raw_number_of self.now) CellKind.Raw result.now }
    {
        &self.witness
    }

    /// The same, of a right that is spent by that.
    pub fn into_witness(self) -> Witness
        ensures cell { AreCellsOfTable (raw_home_of self) → IsCellBy (raw_home_of self) (raw_number_of self) CellKind.Raw result }
    {
        let RawRight {
            number: _,
            fraction: _,
            witness,
        } = self;
        witness
    }

    /// Lets go of the right for ever: nobody has it again, nor redeems it.
    pub fn forget(self) {
        let RawRight {
            number: _,
            fraction: _,
            witness: _,
        } = self;
    }

    /// The number that the right is to.
    pub fn number(&self) -> u32
        ensures { result ≡ raw_number_of self.now }
    {
        self.number
    }
}

/// Whose numbers are meant: it names a home, and is a right to none of its numbers.
#[derive(Drop)]
pub struct NameWitness {
    pub(crate) fraction: Fraction<StandingKind>,
}

const _: () = prove!(size_of::<NameWitness>() == 0);
