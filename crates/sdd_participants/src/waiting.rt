use sdd_core::SlotName;

/// What waits with a participant until it is due.
#[derive(Clone, Copy, Debug, PartialEq, Eq)]
pub enum LimboEntry {
    /// The item in a slot.
    Item(SlotName),
    /// The job in a place of the table of jobs.
    Job(u32),
}
