//! Scripts: calls on a world, and what they answer; and schedules, which are steps of a machine.
#![tactic(auto)]

mod acts;
mod line;
pub mod player;
pub mod runner;
pub mod scene;
pub mod schedules;

pub use player::play;
pub use runner::run;
pub use scene::Scene;
pub use schedules::play_steps;
pub use sdd_script_model::Val;
pub use sdd_script_text::{
    Action, Answer, BagAction, BagName, Call, CellAction, CellName, CollectorAction, CollectorName,
    ContainerAction, Ended, EntryAction, Fault, GuardAction, GuardName, HeldAction, ItemAction,
    ItemName, JobName, LinkAction, ListName, Names, Numbers, OwnerName, PlaceName, QueueName,
    RawAction, Reader, Reply, Sink, Source, StackName, Value, Writer,
};
