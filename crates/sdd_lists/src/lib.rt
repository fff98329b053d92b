//! Lists of entries in a world or a domain: queues and stacks of values, and a trait for types that have a link of their own.
#![tactic(auto)]

mod asking;
mod behind;
pub mod clone_value;
pub mod iter;
pub mod laws;
pub mod link;
pub mod linked_entry;
pub mod linked_list;
mod marks;
mod moves;
mod pops;
mod pushes;
pub mod queue;
pub mod stack;
pub mod unfinished;
pub mod unpopped;
pub mod walk;
mod walks;

pub use clone_value::CloneValue;
pub use iter::Iter;
pub use link::Link;
pub use linked_entry::LinkedEntry;
pub use linked_list::LinkedList;
pub use queue::Queue;
pub use stack::Stack;
pub use unfinished::Unfinished;
pub use unpopped::Unpopped;
pub use walk::Walk;
