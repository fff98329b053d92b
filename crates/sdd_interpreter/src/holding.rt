//! Owners and cells of a script, of either kind.
ghost use Rattle.std.specs.Prelude.{◌≡◌, Some};
ghost use Rattle.sdd_interpreter.specs.Owners.{owner_holding, cell_kind};
ghost use Rattle.sdd_script_model.specs.ScriptState.{slot_of};
ghost use Rattle.sdd_space.specs.Owned as owned;
ghost use Rattle.sdd_space.specs.Shared as shared;

use sdd_lists::{Queue, Stack};
use sdd_script_model::{Body, OwnerKind, Val};
use sdd_space::inner::slot_of_owner;
use sdd_space::{AtomicOwned, AtomicShared, Owned, Shared};

/// An owner of a script: an item's only one, or one of several.
pub enum AnyOwner {
    Sole(Owned<Val>),
    Share(Shared<Val>),
}

/// A cell of a script, for only owners or for shared ones.
pub enum AnyCell {
    Sole(AtomicOwned<Val>),
    Share(AtomicShared<Val>),
}

/// What goes into a cell of a script, or comes out of it: an owner of the cell's kind, or none.
pub enum CellOwner {
    Sole(Option<Owned<Val>>),
    Share(Option<Shared<Val>>),
}

/// A container of entries of a script.
#[derive(Clone, Copy)]
pub enum AnyList<'a> {
    Queue(&'a Queue<Body>),
    Stack(&'a Stack<Body>),
}

/// The number of the slot of an only owner's item.
pub fn slot_of_sole<T>(owner: &Owned<T>) -> u32
    ensures { result ≡ owned.slot_of owner.now }
{
    slot_of_owner(owner).number()
}

/// The number of the slot of a shared owner's item.
pub fn slot_of_share<T>(owner: &Shared<T>) -> u32
    ensures { result ≡ shared.slot_of owner.now }
{
    slot_of_owner(owner).number()
}

impl AnyCell {
    /// Which owners it is for.
    pub fn ownership(&self) -> OwnerKind
        ensures { result ≡ cell_kind self.now }
    {
        match self {
            AnyCell::Sole(_) => OwnerKind::Sole,
            AnyCell::Share(_) => OwnerKind::Shared,
        }
    }
}

impl AnyOwner {
    /// The slot of its item.
    pub fn slot(&self) -> u32
        ensures { slot_of (Some (owner_holding self.now)) ≡ Some result }
    {
        match self {
            AnyOwner::Sole(owner) => slot_of_sole(owner),
            AnyOwner::Share(owner) => slot_of_share(owner),
        }
    }
}
