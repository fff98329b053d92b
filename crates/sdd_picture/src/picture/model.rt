//! What is drawn of a run: participants with their guards, items with what became of them, raised epochs and adoptions.
//!
//! It is put together by [`Event`]s, in the order of the lines. A participant and an item are known by their place in the
//! order of their coming, which is also the order of their rows.

use std::alloc::{AllocError, Global};

/// What happened in a line.
#[derive(Clone, Copy)]
pub enum Event {
    /// A participant with this number in its name comes.
    Registered {
        name: u64,
    },
    Ended {
        participant: usize,
    },
    /// A phase begins, of the guard with this number in its name, if it has one.
    Begun {
        participant: usize,
        guard: Option<u64>,
        phase: GuardPhase,
    },
    /// The phase of such a guard is over.
    Over {
        participant: usize,
        guard: Option<u64>,
    },
    /// An item with this number in its name is there.
    Made {
        name: u64,
    },
    /// An item waits with a participant from now on.
    Waits {
        item: usize,
        with: usize,
    },
    Gone {
        item: usize,
        fate: Fate,
    },
    /// The epoch is raised to this one.
    Raised {
        epoch: u64,
    },
    /// A participant takes over what an ended one left.
    Adopted {
        from: usize,
        to: usize,
    },
}

/// How an item went.
#[derive(Clone, Copy)]
pub enum Fate {
    Reclaimed,
    DroppedInPlace,
}

/// How far a participant is with a guard.
#[derive(Clone, Copy)]
pub enum GuardPhase {
    /// It has read the count, and not published it yet.
    Reading,
    /// The guard is open, and shows this epoch.
    Open { epoch: u64 },
}

/// A guard in one of its phases.
#[derive(Clone, Copy)]
pub struct Bar {
    pub guard: Option<u64>,
    pub phase: GuardPhase,
    /// Guards that are open at once lie in lanes of their own.
    pub lane: usize,
    pub from: usize,
    /// The line in which it was over, if it was.
    pub to: Option<usize>,
}

/// A participant, and its row.
#[derive(Drop)]
pub struct ParticipantRow {
    pub name: u64,
    pub from: usize,
    /// The line in which it ended, if it did.
    pub to: Option<usize>,
    /// The line in which another took over what it left.
    pub adopted: Option<usize>,
    pub bars: Vec<Bar>,
    /// In each lane the bar that is still open, by its index.
    open: Vec<Option<usize>>,
}

/// A time in which an item was in use, or waited with a participant. It lasts until the next of its item begins, or the
/// item goes.
#[derive(Clone, Copy)]
pub struct Stay {
    pub from: usize,
    pub with: Option<usize>,
}

/// An item, and its row.
#[derive(Drop)]
pub struct ItemRow {
    pub name: u64,
    pub stays: Vec<Stay>,
    /// How it went, and in which line.
    pub end: Option<(Fate, usize)>,
}

/// A line in which the epoch was raised.
#[derive(Clone, Copy)]
pub struct Raise {
    pub line: usize,
    pub epoch: u64,
}

/// A line in which a participant took over what another had left.
#[derive(Clone, Copy)]
pub struct Adoption {
    pub line: usize,
    pub from: usize,
    pub to: usize,
}

/// All that is drawn of a run. Lines are counted from 0.
#[derive(Drop)]
pub struct Picture {
    alloc: Global,
    pub participants: Vec<ParticipantRow>,
    pub items: Vec<ItemRow>,
    pub raises: Vec<Raise>,
    pub adoptions: Vec<Adoption>,
}

impl ParticipantRow {
    fn new(alloc: Global, name: u64, line: usize) -> ParticipantRow {
        ParticipantRow {
            name,
            from: line,
            to: None,
            adopted: None,
            bars: Vec::new(alloc),
            open: Vec::new(alloc),
        }
    }

    /// How many guards were open at once at most.
    pub fn lanes(&self) -> usize {
        self.open.len()
    }

    fn notes(&mut self, line: usize, event: Event) -> Result<(), AllocError> {
        match event {
            Event::Begun { guard, phase, .. } => self.begins(line, guard, phase)?,
            Event::Over { guard, .. } => self.ends(line, guard),
            Event::Ended { .. } => self.to = Some(line),
            _ => {}
        }
        Ok(())
    }

    fn begins(
        &mut self,
        line: usize,
        guard: Option<u64>,
        phase: GuardPhase,
    ) -> Result<(), AllocError> {
        let bar = self.bars.len();
        let lane = self.free_lane();
        self.bars.push(Bar {
            guard,
            phase,
            lane,
            from: line,
            to: None,
        })?;
        match self.open.get_mut(lane) {
            Some(open) => *open = Some(bar),
            None => self.open.push(Some(bar))?,
        }
        Ok(())
    }

    /// The first lane with no open guard, or the one behind the last.
    fn free_lane(&self) -> usize {
        match self.open.iter().position(|open| open.is_none()) {
            Some(lane) => lane,
            None => self.open.len(),
        }
    }

    fn ends(&mut self, line: usize, guard: Option<u64>) {
        for open in self.open.iter_mut() {
            if let Some(index) = *open
                && let Some(bar) = self.bars.get_mut(index)
                && bar.guard == guard
            {
                bar.to = Some(line);
                *open = None;
            }
        }
    }
}

impl Picture {
    /// Of no lines yet.
    pub fn new(alloc: Global) -> Picture {
        Picture {
            alloc,
            participants: Vec::new(alloc),
            items: Vec::new(alloc),
            raises: Vec::new(alloc),
            adoptions: Vec::new(alloc),
        }
    }

    /// Adds what happened in a line. Of participants and items that never came it takes nothing.
    pub fn note(&mut self, line: usize, event: Event) -> Result<(), AllocError> {
        match event {
            Event::Registered { name } => {
                self.participants
                    .push(ParticipantRow::new(self.alloc, name, line))?;
            }
            Event::Made { name } => self.makes(line, name)?,
            Event::Waits { item, with } => self.waits(line, item, with)?,
            Event::Gone { item, fate } => self.goes(line, item, fate),
            Event::Raised { epoch } => self.raises.push(Raise { line, epoch })?,
            Event::Adopted { from, to } => self.adopts(line, from, to)?,
            Event::Ended { participant }
            | Event::Begun { participant, .. }
            | Event::Over { participant, .. } => {
                if let Some(participant) = self.participants.get_mut(participant) {
                    participant.notes(line, event)?;
                }
            }
        }
        Ok(())
    }

    fn makes(&mut self, line: usize, name: u64) -> Result<(), AllocError> {
        let mut stays = Vec::new(self.alloc);
        stays.push(Stay {
            from: line,
            with: None,
        })?;
        self.items.push(ItemRow {
            name,
            stays,
            end: None,
        })?;
        Ok(())
    }

    fn waits(&mut self, line: usize, item: usize, with: usize) -> Result<(), AllocError> {
        if let Some(item) = self.items.get_mut(item) {
            item.stays.push(Stay {
                from: line,
                with: Some(with),
            })?;
        }
        Ok(())
    }

    fn goes(&mut self, line: usize, item: usize, fate: Fate) {
        if let Some(item) = self.items.get_mut(item) {
            item.end = Some((fate, line));
        }
    }

    fn adopts(&mut self, line: usize, from: usize, to: usize) -> Result<(), AllocError> {
        self.adoptions.push(Adoption { line, from, to })?;
        if let Some(participant) = self.participants.get_mut(from) {
            participant.adopted = Some(line);
        }
        Ok(())
    }
}
