//! Names: a letter and a number, given in the order of making, for each letter by itself.

ghost use Rattle.std.specs.Prelude.{◌≡◌, ◌↔◌, [], ◌∷◌, ◌++◌, IsTrue, OnOk, OnErr};

use std::alloc::{AllocError, Global};
use std::fmt;
use std::marker::Model;

/// The name of a participant's place, as `p0`.
#[derive(Clone, Copy, Debug, PartialEq, Eq, PartialOrd, Ord)]
pub struct PlaceName(pub u64);

/// The name of a guard, as `g0`.
#[derive(Clone, Copy, Debug, PartialEq, Eq, PartialOrd, Ord)]
pub struct GuardName(pub u64);

/// The name of an owner, as `o0`.
#[derive(Clone, Copy, Debug, PartialEq, Eq, PartialOrd, Ord)]
pub struct OwnerName(pub u64);

/// The name of an item, as `i0`.
#[derive(Clone, Copy, Debug, PartialEq, Eq, PartialOrd, Ord)]
pub struct ItemName(pub u64);

/// The name of a cell, as `c0`.
#[derive(Clone, Copy, Debug, PartialEq, Eq, PartialOrd, Ord)]
pub struct CellName(pub u64);

/// The name of a collector, as `k0`.
#[derive(Clone, Copy, Debug, PartialEq, Eq, PartialOrd, Ord)]
pub struct CollectorName(pub u64);

/// The name of a queue, as `q0`.
#[derive(Clone, Copy, Debug, PartialEq, Eq, PartialOrd, Ord)]
pub struct QueueName(pub u64);

/// The name of a stack, as `s0`.
#[derive(Clone, Copy, Debug, PartialEq, Eq, PartialOrd, Ord)]
pub struct StackName(pub u64);

/// The name of a bag, as `b0`.
#[derive(Clone, Copy, Debug, PartialEq, Eq, PartialOrd, Ord)]
pub struct BagName(pub u64);

/// The name of a container of entries: of a queue, as `q0`, or of a stack, as `s0`.
#[derive(Clone, Copy, Debug, PartialEq, Eq)]
pub enum ListName {
    Queue(QueueName),
    Stack(StackName),
}

/// The name of a job, as `j0`. No line takes one.
#[derive(Clone, Copy, Debug, PartialEq, Eq, PartialOrd, Ord)]
pub struct JobName(pub u64);

impl fmt::Display for PlaceName {
    ghost use Rattle.std.specs.Prelude.{Some};
    ghost use Rattle.sdd_script_text.specs.Name.{place};

    ghost output = { λ name. Some (place name) };

    fn fmt<W: fmt::Write>(&self, f: &mut fmt::Formatter<W>) -> fmt::Result {
        write!(f, "p{}", self.0)
    }
}

impl fmt::Display for GuardName {
    ghost use Rattle.std.specs.Prelude.{Some};
    ghost use Rattle.sdd_script_text.specs.Name.{guard};

    ghost output = { λ name. Some (guard name) };

    fn fmt<W: fmt::Write>(&self, f: &mut fmt::Formatter<W>) -> fmt::Result {
        write!(f, "g{}", self.0)
    }
}

impl fmt::Display for OwnerName {
    ghost use Rattle.std.specs.Prelude.{Some};
    ghost use Rattle.sdd_script_text.specs.Name.{owner};

    ghost output = { λ name. Some (owner name) };

    fn fmt<W: fmt::Write>(&self, f: &mut fmt::Formatter<W>) -> fmt::Result {
        write!(f, "o{}", self.0)
    }
}

impl fmt::Display for ItemName {
    ghost use Rattle.std.specs.Prelude.{Some};
    ghost use Rattle.sdd_script_text.specs.Name.{item};

    ghost output = { λ name. Some (item name) };

    fn fmt<W: fmt::Write>(&self, f: &mut fmt::Formatter<W>) -> fmt::Result {
        write!(f, "i{}", self.0)
    }
}

impl fmt::Display for CellName {
    ghost use Rattle.std.specs.Prelude.{Some};
    ghost use Rattle.sdd_script_text.specs.Name.{cell};

    ghost output = { λ name. Some (cell name) };

    fn fmt<W: fmt::Write>(&self, f: &mut fmt::Formatter<W>) -> fmt::Result {
        write!(f, "c{}", self.0)
    }
}

impl fmt::Display for CollectorName {
    ghost use Rattle.std.specs.Prelude.{Some};
    ghost use Rattle.sdd_script_text.specs.Name.{collector};

    ghost output = { λ name. Some (collector name) };

    fn fmt<W: fmt::Write>(&self, f: &mut fmt::Formatter<W>) -> fmt::Result {
        write!(f, "k{}", self.0)
    }
}

impl fmt::Display for QueueName {
    ghost use Rattle.std.specs.Prelude.{Some};
    ghost use Rattle.sdd_script_text.specs.Name.{queue};

    ghost output = { λ name. Some (queue name) };

    fn fmt<W: fmt::Write>(&self, f: &mut fmt::Formatter<W>) -> fmt::Result {
        write!(f, "q{}", self.0)
    }
}

impl fmt::Display for StackName {
    ghost use Rattle.std.specs.Prelude.{Some};
    ghost use Rattle.sdd_script_text.specs.Name.{stack};

    ghost output = { λ name. Some (stack name) };

    fn fmt<W: fmt::Write>(&self, f: &mut fmt::Formatter<W>) -> fmt::Result {
        write!(f, "s{}", self.0)
    }
}

impl fmt::Display for BagName {
    ghost use Rattle.std.specs.Prelude.{Some};
    ghost use Rattle.sdd_script_text.specs.Name.{bag};

    ghost output = { λ name. Some (bag name) };

    fn fmt<W: fmt::Write>(&self, f: &mut fmt::Formatter<W>) -> fmt::Result {
        write!(f, "b{}", self.0)
    }
}

impl fmt::Display for JobName {
    ghost use Rattle.std.specs.Prelude.{Some};
    ghost use Rattle.sdd_script_text.specs.Name.{job};

    ghost output = { λ name. Some (job name) };

    fn fmt<W: fmt::Write>(&self, f: &mut fmt::Formatter<W>) -> fmt::Result {
        write!(f, "j{}", self.0)
    }
}

/// Names in a row, as those of the items that a call reclaimed.
#[derive(Debug, Drop)]
pub struct Names<N> {
    items: Vec<N>,
}

impl<N> Model for Names<N> {
    ghost use Rattle.std.specs.Prelude.{List};

    ghost Value = { List N };

    ghost view = { λ names. names.items.items };
}

impl<N> Names<N> {
    /// No names. It takes no memory.
    pub fn new(alloc: Global) -> Names<N>
        ensures { result ≡ [] }
    {
        Names {
            items: Vec::new(alloc),
        }
    }

    /// These names.
    pub fn of(items: Vec<N>) -> Names<N>
        ensures { result ≡ items.items }
    {
        Names { items }
    }

    /// Adds a name at the end. An `Err` changes nothing.
    pub fn push(&mut self, name: N) -> Result<(), AllocError>
    where
        N: Drop,
        ensures ok { OnOk result (self.new ≡ self.old ++ name ∷ []) }
        ensures err { OnErr result (self.new ≡ self.old) }
    {
        self.items.push(name)?;
        Ok(())
    }

    pub fn is_empty(&self) -> bool
        ensures { IsTrue result ↔ (self.now ≡ []) }
    {
        self.items.is_empty()
    }

    pub fn as_slice(&self) -> &[N]
        ensures { result.now ≡ self.now }
    {
        self.items.as_slice()
    }
}
