//! The calls and answers of a script: their texts, and the bytes that they are read from and written to; and the command
//! line of `sdd-run`: what its arguments ask for, the lines that it prints itself, and its status.
//!
//! No world is known here: what a call does is said by the crate that runs it.
#![tactic(auto)]

pub mod answer;
mod arguments;
pub mod call;
pub mod device;
pub mod ended;
mod first;
pub mod inner;
pub mod name;
pub mod numbers;
mod outcome;
pub mod script;

pub use answer::{Answer, Reply, print_all, print_fault};
pub use arguments::{Choice, USUAL_LIMITS, asked, chosen};
pub use call::{
    Action, BagAction, Call, CellAction, CollectorAction, ContainerAction, EntryAction,
    GuardAction, HeldAction, ItemAction, LinkAction, RawAction, Value,
};
pub use device::{Fault, ReadEnd, Reader, Sink, Source, Writer, read_to_end, write_all};
pub use ended::Ended;
pub use name::{
    BagName, CellName, CollectorName, GuardName, ItemName, JobName, ListName, Names, OwnerName,
    PlaceName, QueueName, StackName,
};
pub use numbers::Numbers;
pub use outcome::{Outcome, after_printing, failure, line, status, without_arguments};
pub use script::{MOST_CALLS, Script, parse_all};
