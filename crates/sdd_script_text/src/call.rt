//! The calls of a script, each of which is a line.

pub mod action;
mod arguments;
pub(crate) mod reading;

use crate::name::{
    BagName, CellName, CollectorName, GuardName, ItemName, ListName, OwnerName, PlaceName,
    QueueName, StackName,
};
pub use action::{
    Action, BagAction, CellAction, CollectorAction, ContainerAction, EntryAction, GuardAction,
    HeldAction, ItemAction, LinkAction, RawAction,
};
use sdd_core::Tag;
use std::str;

/// A call of a script.
#[derive(Clone, Copy, Debug, PartialEq, Eq)]
pub enum Call {
    Register,
    Tally,
    At(PlaceName, Action),
}

/// The value of a new item.
#[derive(Clone, Copy, Debug, PartialEq, Eq)]
pub enum Value {
    /// A number, as `7`.
    Number(u64),
    /// An owner that goes into the value, as `of o0`.
    Of(OwnerName),
}

/// An argument of a verb: a word of a line that is a number, a name, a tag or fixed.
#[derive(Clone, Copy)]
pub(crate) enum Argument {
    Number(u64),
    Guard(GuardName),
    /// An owner, or `none`.
    Owner(Option<OwnerName>),
    /// An item, or `null`.
    Item(Option<ItemName>),
    Cell(CellName),
    Collector(CollectorName),
    Queue(QueueName),
    Stack(StackName),
    Bag(BagName),
    Tag(Tag),
    Word(Word),
}

/// A word that a line has in a fixed place.
#[derive(Clone, Copy)]
pub(crate) enum Word {
    Owned,
    Shared,
    Of,
    If,
    Was,
    Now,
    Mark,
    Plain,
}

impl Call {
    ghost use Rattle.std.specs.Prelude.{◌≤◌, MatchOption, OnSome, length};
    ghost use Rattle.sdd_script_text.specs.Call.{IsTextOf, IsCallText};

    /// The call whose text a line is, without a line feed, or `None` where it is that of no call.
    #[tactic(auto, using(crate::proofs::Lines::call_at_answers, crate::proofs::Lines::short_from_call, crate::proofs::Lines::utf8_from_call))]
    pub fn parse(line: &[u8]) -> Option<Call>
        ensures call { MatchOption result (¬ IsCallText line.now) (λ call. IsTextOf call line.now) }

        // So a longer line is no call.
        ensures short { OnSome result (length line.now ≤ 200) }
    {
        match str::from_utf8(line) {
            Ok(text) => reading::call(text),
            Err(_) => None,
        }
    }
}
