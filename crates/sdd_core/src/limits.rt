ghost use Rattle.std.specs.Prelude.{◌↔◌, IsTrue};

/// How much a world or domain may have at once. It never grows past these.
#[derive(Clone, Copy, Debug, PartialEq, Eq)]
pub struct Limits {
    /// Participants, 1 to 1024.
    pub participants: u64,
    /// Slots of items, 1 to 2^24.
    pub slots: u64,
    /// Cells, 1 to 2^24.
    pub cells: u64,
    /// Deferred jobs that wait, 0 to 65536.
    pub jobs: u64,
    /// Guards of one participant that are open at once, 1 to 2^32 - 1.
    pub nesting: u64,
    /// How many exchanges a call of a domain may lose, 1 to 65535: with as many it is refused, with `Contended`. One that is tried at once isn't counted,
    /// at the slot that the participant gave back last or at the place behind its job before.
    pub tries: u64,
}

impl Limits {
    ghost use Rattle.sdd_core.specs.Limits.{AreInRange};

    /// Each limit is in its range.
    pub fn are_in_range(&self) -> bool
        ensures { IsTrue result ↔ AreInRange self.now }
    {
        matches!(self.participants, 1..=1024)
            && matches!(self.slots, 1..=0x100_0000)
            && matches!(self.cells, 1..=0x100_0000)
            && self.jobs <= 65536
            && matches!(self.nesting, 1..=0xffff_ffff)
            && matches!(self.tries, 1..=65535)
    }
}
