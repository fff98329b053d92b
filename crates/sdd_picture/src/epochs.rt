//! The epoch of a run, and what each participant has seen of it: by these rules a script raises it and adopts.
//!
//! The answers of a script tell neither, but each later opening shows the epoch.

use std::alloc::{AllocError, Global};

/// The countdown of a participant with which nothing waits.
const IDLE: u8 = 128;

/// What a participant has seen, and what waits with it.
#[derive(Clone, Copy)]
struct Standing {
    /// The count that its last outermost opening found.
    found: u64,
    countdown: u8,
    /// How many guards are open.
    guards: u64,
    /// How many items and jobs wait with it.
    waiting: u64,
    /// An opening found another count, and has not reclaimed yet.
    rotates: bool,
}

/// What an outermost close does beside closing.
#[derive(Clone, Copy)]
pub enum Scan {
    /// It does not scan, or another count stands than the one that it found.
    None,
    /// It adopts all that is left, and an open participant holds the count.
    Adopts,
    /// It adopts all that is left, and raises the count to this one.
    Raises(u64),
}

/// The count, and the participants in the order of their coming.
#[derive(Drop)]
pub struct Epochs {
    count: u64,
    /// A participant ended since the last scan.
    ended: bool,
    standings: Vec<Standing>,
}

impl Standing {
    const NEW: Standing = Standing {
        found: 0,
        countdown: IDLE,
        guards: 0,
        waiting: 0,
        rotates: false,
    };

    /// Something may wait from now on.
    fn leaves_idle(&mut self) {
        if self.countdown == IDLE {
            self.countdown = IDLE - 1;
        }
    }

    fn opens(&mut self, count: u64) {
        if self.guards == 0 && self.found != count {
            self.found = count;
            self.rotates = self.countdown != IDLE;
        }
        self.guards = self.guards.saturating_add(1);
    }

    fn settles(&mut self) {
        if self.rotates {
            self.rotates = false;
            self.countdown = if self.waiting == 0 { IDLE } else { IDLE - 1 };
        }
    }

    /// The countdown after an outermost close that finds it above 0.
    fn counts_down(&mut self, is_ended: bool) {
        if self.countdown != IDLE {
            self.countdown = self.countdown.saturating_sub(1);
        } else if is_ended {
            self.countdown = IDLE - 1;
        }
    }

    /// It is open, and has another count than this.
    fn holds(&self, count: u64) -> bool {
        self.guards > 0 && self.found != count
    }
}

impl Epochs {
    pub fn new(alloc: Global) -> Epochs {
        Epochs {
            count: 0,
            ended: false,
            standings: Vec::new(alloc),
        }
    }

    pub fn register(&mut self) -> Result<(), AllocError> {
        self.standings.push(Standing::NEW)?;
        Ok(())
    }

    pub fn end(&mut self) {
        self.ended = true;
    }

    pub fn open(&mut self, participant: usize) {
        let count = self.count;
        if let Some(standing) = self.standings.get_mut(participant) {
            standing.opens(count);
        }
    }

    /// Ends an opening, once what it reclaims is gone.
    pub fn settle(&mut self, participant: usize) {
        if let Some(standing) = self.standings.get_mut(participant) {
            standing.settles();
        }
    }

    /// The next outermost close scans.
    pub fn accelerate(&mut self, participant: usize) {
        if let Some(standing) = self.standings.get_mut(participant) {
            standing.countdown = 0;
        }
    }

    /// Something may wait with a participant, as it says.
    pub fn set_garbage(&mut self, participant: usize) {
        if let Some(standing) = self.standings.get_mut(participant) {
            standing.leaves_idle();
        }
    }

    /// An item or a job waits with a participant from now on.
    pub fn wait(&mut self, participant: usize) {
        if let Some(standing) = self.standings.get_mut(participant) {
            standing.waiting = standing.waiting.saturating_add(1);
            standing.leaves_idle();
        }
    }

    /// An item or a job waits with a participant no more.
    pub fn leave(&mut self, participant: usize) {
        if let Some(standing) = self.standings.get_mut(participant) {
            standing.waiting = standing.waiting.saturating_sub(1);
        }
    }

    /// Closes a guard.
    pub fn close(&mut self, participant: usize) -> Scan {
        let is_ended = self.ended;
        let Some(standing) = self.standings.get_mut(participant) else {
            return Scan::None;
        };
        if standing.guards <= 1 && standing.countdown == 0 {
            let found = standing.found;
            let scan = self.scan(found);
            self.after_scan(participant);
            return scan;
        }
        if standing.guards <= 1 {
            standing.counts_down(is_ended);
        }
        standing.guards = standing.guards.saturating_sub(1);
        Scan::None
    }

    fn after_scan(&mut self, participant: usize) {
        if let Some(standing) = self.standings.get_mut(participant) {
            standing.countdown = IDLE - 1;
            standing.guards = 0;
        }
    }

    /// A scan by a participant that found this count.
    fn scan(&mut self, found: u64) -> Scan {
        if found != self.count {
            return Scan::None;
        }
        self.ended = false;
        let count = self.count;
        if self.standings.iter().any(|standing| standing.holds(count)) {
            return Scan::Adopts;
        }
        match count.checked_add(1) {
            Some(raised) => {
                self.count = raised;
                Scan::Raises(raised)
            }
            None => Scan::Adopts,
        }
    }
}
