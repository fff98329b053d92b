//! Numbers in a row.

ghost use Rattle.std.specs.Prelude.{◌≡◌, [], ◌∷◌, ◌++◌, OnOk, OnErr};

use std::alloc::{AllocError, Global};
use std::fmt;
use std::marker::Model;

/// Numbers in a row, as those of the entries of a stack.
#[derive(Debug, Drop)]
pub struct Numbers {
    items: Vec<u64>,
}

impl Model for Numbers {
    ghost use Rattle.std.specs.Prelude.{List, ℕ};

    ghost Value = { List ℕ };

    ghost view = { λ numbers. numbers.items.items };
}

impl fmt::Display for Numbers {
    ghost use Rattle.std.specs.Prelude.{Some};
    ghost use Rattle.sdd_script_text.specs.Call.{joined};
    ghost use Rattle.sdd_script_text.specs.Answer.{words_of_numbers};

    ghost output = { λ numbers. Some (joined (words_of_numbers numbers)) };

    #[tactic(auto, using(crate::proofs::Lines::in_row))]
    fn fmt<W: fmt::Write>(&self, f: &mut fmt::Formatter<W>) -> fmt::Result {
        let Some((first, others)) = self.items.as_slice().split_first() else {
            return write!(f, "none");
        };
        write!(f, "{first}")?;
        for number in others {
            write!(f, " {number}")?;
        }
        Ok(())
    }
}

impl Numbers {
    /// No numbers. It takes no memory.
    pub fn new(alloc: Global) -> Numbers
        ensures { result ≡ [] }
    {
        Numbers {
            items: Vec::new(alloc),
        }
    }

    /// These numbers, in their order.
    pub fn of(items: Vec<u64>) -> Numbers
        ensures { result ≡ items.items }
    {
        Numbers { items }
    }

    /// Adds a number at the end. An `Err` changes nothing.
    pub fn push(&mut self, number: u64) -> Result<(), AllocError>
        ensures ok { OnOk result (self.new ≡ self.old ++ number ∷ []) }
        ensures err { OnErr result (self.new ≡ self.old) }
    {
        self.items.push(number)?;
        Ok(())
    }

    pub fn as_slice(&self) -> &[u64]
        ensures { result.now ≡ self.now }
    {
        self.items.as_slice()
    }
}
