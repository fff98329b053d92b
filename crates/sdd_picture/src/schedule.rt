//! What is drawn of a schedule: its steps and what each did, gone over once.
//!
//! A publish tells how many items it reclaims. Which ones these are comes from the rule that an item goes at its holder's
//! third change.

use crate::picture::{Event, Fate, GuardPhase, Picture};
use sdd_machine::{Did, Step};
use std::alloc::{AllocError, Global};

/// An item goes at so many changes of its holder.
const CHANGES: u8 = 3;

/// The picture of steps and what they did.
pub fn picture_of(alloc: Global, steps: &[Step], answers: &[Did]) -> Result<Picture, AllocError> {
    let mut follower = Follower::new(alloc);
    for (step, did) in steps.iter().zip(answers.iter()) {
        follower.follow(*step, *did)?;
        follower.line = follower.line.saturating_add(1);
    }
    let Follower { picture, .. } = follower;
    Ok(picture)
}

/// An item that was retired.
#[derive(Clone, Copy)]
struct Retired {
    /// The participant with which it waits, if it still does.
    with: Option<usize>,
    /// How many changes of that participant it has seen.
    seen: u8,
}

/// A schedule as far as it was followed.
#[derive(Drop)]
struct Follower {
    alloc: Global,
    /// The line that is followed.
    line: usize,
    count: u64,
    /// The last participant at each place.
    places: Vec<Option<usize>>,
    /// The items in the order of their retirement.
    items: Vec<Retired>,
    /// The participants that ended, and whose bags none adopted yet.
    left: Vec<usize>,
    picture: Picture,
}

impl Follower {
    fn new(alloc: Global) -> Follower {
        Follower {
            alloc,
            line: 0,
            count: 0,
            places: Vec::new(alloc),
            items: Vec::new(alloc),
            left: Vec::new(alloc),
            picture: Picture::new(alloc),
        }
    }

    fn note(&mut self, event: Event) -> Result<(), AllocError> {
        self.picture.note(self.line, event)
    }

    fn follow(&mut self, step: Step, did: Did) -> Result<(), AllocError> {
        match (step, did) {
            (Step::Register(place), Did::Done) => self.registers(place),
            (Step::Read(place), Did::Done) => self.reads(self.at(place)),
            (Step::Publish(place), Did::Opened { count, changed, .. }) => {
                self.publishes(self.at(place), count, changed)
            }
            (Step::Retire(place, item), Did::Done) => self.retires(self.at(place), item),
            (Step::Adopt(place), Did::Done) => self.adopts(self.at(place)),
            (Step::Advance(_), Did::Advanced { raised: true }) => self.raises(),
            (Step::Close(place), Did::Done) => self.closes(self.at(place)),
            (Step::End(place), Did::Done) => self.ends(self.at(place)),
            _ => Ok(()),
        }
    }

    /// The participant at a place. A place that none took has one that never came.
    fn at(&self, place: u32) -> usize {
        match self.places.get(place as usize) {
            Some(Some(participant)) => *participant,
            _ => usize::MAX,
        }
    }

    fn registers(&mut self, place: u32) -> Result<(), AllocError> {
        let participant = self.picture.participants.len();
        for _ in self.places.len()..(place as usize).saturating_add(1) {
            self.places.push(None)?;
        }
        if let Some(at) = self.places.get_mut(place as usize) {
            *at = Some(participant);
        }
        self.note(Event::Registered {
            name: u64::from(place),
        })
    }

    fn reads(&mut self, participant: usize) -> Result<(), AllocError> {
        self.note(Event::Begun {
            participant,
            guard: None,
            phase: GuardPhase::Reading,
        })
    }

    fn publishes(
        &mut self,
        participant: usize,
        count: u64,
        is_changed: bool,
    ) -> Result<(), AllocError> {
        self.closes(participant)?;
        self.note(Event::Begun {
            participant,
            guard: None,
            phase: GuardPhase::Open { epoch: count },
        })?;
        if is_changed {
            self.changes(participant)
        } else {
            Ok(())
        }
    }

    /// What waits with a participant has seen one change more.
    fn changes(&mut self, participant: usize) -> Result<(), AllocError> {
        for (item, retired) in self.items.iter_mut().enumerate() {
            if retired.with == Some(participant) {
                retired.seen = retired.seen.saturating_add(1);
                if retired.seen >= CHANGES {
                    retired.with = None;
                    let gone = Event::Gone {
                        item,
                        fate: Fate::Reclaimed,
                    };
                    self.picture.note(self.line, gone)?;
                }
            }
        }
        Ok(())
    }

    fn retires(&mut self, participant: usize, name: u32) -> Result<(), AllocError> {
        let item = self.items.len();
        self.items.push(Retired {
            with: Some(participant),
            seen: 0,
        })?;
        self.note(Event::Made {
            name: u64::from(name),
        })?;
        self.note(Event::Waits {
            item,
            with: participant,
        })
    }

    /// A participant takes over what all those left that ended.
    fn adopts(&mut self, to: usize) -> Result<(), AllocError> {
        let left = std::mem::replace(&mut self.left, Vec::new(self.alloc));
        for from in left.iter() {
            self.note(Event::Adopted { from: *from, to })?;
            self.takes_over(*from, to)?;
        }
        Ok(())
    }

    fn takes_over(&mut self, from: usize, to: usize) -> Result<(), AllocError> {
        for (item, retired) in self.items.iter_mut().enumerate() {
            if retired.with == Some(from) {
                *retired = Retired {
                    with: Some(to),
                    seen: 0,
                };
                self.picture
                    .note(self.line, Event::Waits { item, with: to })?;
            }
        }
        Ok(())
    }

    fn raises(&mut self) -> Result<(), AllocError> {
        self.count = self.count.saturating_add(1);
        self.note(Event::Raised { epoch: self.count })
    }

    fn closes(&mut self, participant: usize) -> Result<(), AllocError> {
        self.note(Event::Over {
            participant,
            guard: None,
        })
    }

    fn ends(&mut self, participant: usize) -> Result<(), AllocError> {
        self.left.push(participant)?;
        self.note(Event::Ended { participant })
    }
}
