//! What is drawn of a script: its calls and their answers, gone over once.
//!
//! An item is followed through the owners and cells that the lines name. What no answer tells, when the epoch is raised
//! and who adopts, comes from the rules of [`Epochs`].

use crate::belongings::{Belongings, index_of};
use crate::epochs::{Epochs, Scan};
use crate::picture::{Event, Fate, GuardPhase, Picture};
use sdd_core::Epoch;
use sdd_script_text::{
    Action, Answer, Call, CellAction, CollectorAction, GuardAction, GuardName, HeldAction,
    ItemAction, JobName, OwnerName, RawAction, Reply, Value,
};
use std::alloc::{AllocError, Global};

/// How many epochs are told apart.
const EPOCHS: u64 = 64;

/// The picture of calls and what they answered.
pub fn picture_of(
    alloc: Global,
    calls: &[Call],
    answers: &[Answer],
) -> Result<Picture, AllocError> {
    let mut follower = Follower::new(alloc);
    for (call, answer) in calls.iter().zip(answers.iter()) {
        follower.follow(call, answer)?;
        follower.line = follower.line.saturating_add(1);
    }
    let Follower { picture, .. } = follower;
    Ok(picture)
}

/// A run as far as it was followed.
#[derive(Drop)]
struct Follower {
    alloc: Global,
    /// The line that is followed.
    line: usize,
    epochs: Epochs,
    belongings: Belongings,
    /// The participant with which each job waits.
    jobs: Vec<Option<usize>>,
    /// The participants that ended, and whose bags none adopted yet.
    left: Vec<usize>,
    picture: Picture,
}

impl Follower {
    fn new(alloc: Global) -> Follower {
        Follower {
            alloc,
            line: 0,
            epochs: Epochs::new(alloc),
            belongings: Belongings::new(alloc),
            jobs: Vec::new(alloc),
            left: Vec::new(alloc),
            picture: Picture::new(alloc),
        }
    }

    fn note(&mut self, event: Event) -> Result<(), AllocError> {
        self.picture.note(self.line, event)
    }

    fn follow(&mut self, call: &Call, answer: &Answer) -> Result<(), AllocError> {
        match *call {
            Call::Register => match answer.reply {
                Reply::Place(place) => self.register(place.0),
                _ => Ok(()),
            },
            Call::Tally => Ok(()),
            Call::At(place, action) => {
                let participant = place.0 as usize;
                self.acts(participant, action, &answer.reply)?;
                self.reclaims(participant, answer)
            }
        }
    }

    fn register(&mut self, name: u64) -> Result<(), AllocError> {
        self.epochs.register()?;
        self.note(Event::Registered { name })
    }

    /// What a participant does, where it was not refused.
    fn acts(
        &mut self,
        participant: usize,
        action: Action,
        reply: &Reply,
    ) -> Result<(), AllocError> {
        match (action, reply) {
            (Action::Open, Reply::Guard(guard, epoch)) => self.opens(participant, *guard, *epoch),
            (Action::Guard(action), _) => self.acts_on_guards(participant, action, reply),
            (Action::Item(action), _) => self.acts_on_items(participant, action, reply),
            (Action::Raw(action), _) => self.acts_in_place(participant, action, reply),
            (
                Action::Collector(CollectorAction::Collect(owner, _, _)),
                Reply::Done | Reply::Truth(_),
            ) => self.gives_up(participant, owner),
            (Action::Cell(action), _) => self.acts_on_cells(participant, action, reply),
            (Action::Held(action), _) => self.acts_on_owners_in_cells(action, reply),
            (Action::End, Reply::Done) => self.ends(participant),
            _ => Ok(()),
        }
    }

    /// What a participant does with guards and jobs.
    fn acts_on_guards(
        &mut self,
        participant: usize,
        action: GuardAction,
        reply: &Reply,
    ) -> Result<(), AllocError> {
        match (action, reply) {
            (GuardAction::Close(guard), Reply::Done) => self.closes(participant, guard),
            (GuardAction::Defer(_), Reply::Job(_)) => self.defers(participant),
            (GuardAction::Set(_), Reply::Done) => {
                self.epochs.set_garbage(participant);
                Ok(())
            }
            (GuardAction::Accelerate(_), Reply::Done) => {
                self.epochs.accelerate(participant);
                Ok(())
            }
            _ => Ok(()),
        }
    }

    fn opens(
        &mut self,
        participant: usize,
        guard: GuardName,
        epoch: Epoch,
    ) -> Result<(), AllocError> {
        self.epochs.open(participant);
        self.note(Event::Begun {
            participant,
            guard: Some(guard.0),
            phase: GuardPhase::Open {
                epoch: u64::from(u8::from(epoch)),
            },
        })
    }

    fn closes(&mut self, participant: usize, guard: GuardName) -> Result<(), AllocError> {
        self.note(Event::Over {
            participant,
            guard: Some(guard.0),
        })?;
        match self.epochs.close(participant) {
            Scan::None => Ok(()),
            Scan::Adopts => self.adopts(participant),
            Scan::Raises(count) => {
                self.adopts(participant)?;
                self.note(Event::Raised {
                    epoch: count % EPOCHS,
                })
            }
        }
    }

    fn ends(&mut self, participant: usize) -> Result<(), AllocError> {
        self.epochs.end();
        self.left.push(participant)?;
        self.note(Event::Ended { participant })
    }

    fn defers(&mut self, participant: usize) -> Result<(), AllocError> {
        self.jobs.push(Some(participant))?;
        self.epochs.wait(participant);
        Ok(())
    }

    /// A participant takes over what all those left that ended.
    fn adopts(&mut self, to: usize) -> Result<(), AllocError> {
        let left = std::mem::replace(&mut self.left, Vec::new(self.alloc));
        for from in left.iter() {
            self.takes_over(*from, to)?;
        }
        Ok(())
    }

    fn takes_over(&mut self, from: usize, to: usize) -> Result<(), AllocError> {
        self.note(Event::Adopted { from, to })?;
        for item in self.belongings.pass_on(self.alloc, from, to)?.iter() {
            self.epochs.wait(to);
            self.note(Event::Waits {
                item: *item,
                with: to,
            })?;
        }
        for job in self.jobs.iter_mut() {
            if *job == Some(from) {
                *job = Some(to);
                self.epochs.wait(to);
            }
        }
        Ok(())
    }

    /// What a participant does with items and their owners.
    fn acts_on_items(
        &mut self,
        participant: usize,
        action: ItemAction,
        reply: &Reply,
    ) -> Result<(), AllocError> {
        match (action, reply) {
            (ItemAction::Owned(value) | ItemAction::Shared(value), Reply::Item(_, item)) => {
                self.makes(item.0, value)
            }
            (ItemAction::Retire(owner), Reply::Done) => self.gives_up(participant, owner),
            (ItemAction::Release(owner), Reply::Truth(_)) => self.gives_up(participant, owner),
            (ItemAction::Clone(owner), Reply::Owner(_)) => {
                let item = self.belongings.of_owner(owner);
                self.belongings.add_owner(item)
            }
            (ItemAction::Upgrade(item, _), Reply::Owner(_)) => {
                self.belongings.add_owner(Some(index_of(item)))
            }
            _ => Ok(()),
        }
    }

    /// What a participant does with items in their place, and with those out as raw.
    fn acts_in_place(
        &mut self,
        participant: usize,
        action: RawAction,
        reply: &Reply,
    ) -> Result<(), AllocError> {
        match (action, reply) {
            (RawAction::Drop(owner), Reply::Done | Reply::Truth(_)) => {
                self.drops(participant, owner)
            }
            (RawAction::Raw(owner), Reply::Raw(_)) => {
                self.belongings.spend(owner);
                Ok(())
            }
            (RawAction::Unraw(item), Reply::Owner(_)) => {
                self.belongings.name_owner(Some(index_of(item)))
            }
            _ => Ok(()),
        }
    }

    fn makes(&mut self, name: u64, value: Value) -> Result<(), AllocError> {
        let inside = match value {
            Value::Number(_) => None,
            Value::Of(owner) => self.belongings.spend(owner),
        };
        self.belongings.make(inside)?;
        self.note(Event::Made { name })
    }

    /// Gives up an owner: after the last one the item waits.
    fn gives_up(&mut self, participant: usize, owner: OwnerName) -> Result<(), AllocError> {
        match self.belongings.spend(owner) {
            Some(item) => self.gives_up_item(participant, item),
            None => Ok(()),
        }
    }

    fn gives_up_item(&mut self, participant: usize, item: usize) -> Result<(), AllocError> {
        if !self.belongings.give_up(item) {
            return Ok(());
        }
        self.belongings.wait(item, participant);
        self.epochs.wait(participant);
        self.note(Event::Waits {
            item,
            with: participant,
        })
    }

    /// Gives up an owner: after the last one the item is dropped in its place.
    fn drops(&mut self, participant: usize, owner: OwnerName) -> Result<(), AllocError> {
        match self.belongings.spend(owner) {
            Some(item) if self.belongings.give_up(item) => {
                self.goes(participant, item, Fate::DroppedInPlace)
            }
            _ => Ok(()),
        }
    }

    /// An item goes, and its value gives up what it holds.
    fn goes(&mut self, participant: usize, item: usize, fate: Fate) -> Result<(), AllocError> {
        self.note(Event::Gone { item, fate })?;
        if let Some(with) = self.belongings.go(item) {
            self.epochs.leave(with);
        }
        match self.belongings.take_inside(item) {
            Some(inside) => self.gives_up_item(participant, inside),
            None => Ok(()),
        }
    }

    /// What a participant does with cells.
    fn acts_on_cells(
        &mut self,
        participant: usize,
        action: CellAction,
        reply: &Reply,
    ) -> Result<(), AllocError> {
        match (action, reply) {
            (CellAction::Owned(owner) | CellAction::Shared(owner), Reply::Cell(_)) => {
                let item = self.belongings.spend_if(owner);
                self.belongings.make_cell(item)
            }
            (CellAction::Close(cell), Reply::Done) => {
                match self.belongings.put_in_cell(cell, None) {
                    Some(item) => self.gives_up_item(participant, item),
                    None => Ok(()),
                }
            }
            _ => Ok(()),
        }
    }

    /// What is done with the owners in cells.
    fn acts_on_owners_in_cells(
        &mut self,
        action: HeldAction,
        reply: &Reply,
    ) -> Result<(), AllocError> {
        match (action, reply) {
            (HeldAction::Swap(cell, owner, _), Reply::Swapped(out, _))
            | (HeldAction::Exchange(cell, _, _, _, owner, _), Reply::Exchanged(out)) => {
                let item = self.belongings.spend_if(owner);
                let before = self.belongings.put_in_cell(cell, item);
                self.takes_out(before, out.is_some())
            }
            (HeldAction::Copy(cell, _), Reply::Cell(_)) => self.belongings.copy_cell(cell),
            (HeldAction::Share(cell, _), Reply::Owner(_)) => {
                let item = self.belongings.in_cell(cell);
                self.belongings.add_owner(item)
            }
            (HeldAction::Into(cell), Reply::Owner(_)) => {
                let before = self.belongings.put_in_cell(cell, None);
                self.takes_out(before, true)
            }
            _ => Ok(()),
        }
    }

    /// The owner that a cell held has a name again, if it held one.
    fn takes_out(&mut self, item: Option<usize>, is_named: bool) -> Result<(), AllocError> {
        if is_named {
            self.belongings.name_owner(item)
        } else {
            Ok(())
        }
    }

    /// The items and jobs that an answer names go.
    fn reclaims(&mut self, participant: usize, answer: &Answer) -> Result<(), AllocError> {
        for item in answer.reclaimed.as_slice() {
            self.goes(participant, index_of(*item), Fate::Reclaimed)?;
        }
        for job in answer.ran.as_slice() {
            self.runs(*job);
        }
        self.epochs.settle(participant);
        Ok(())
    }

    fn runs(&mut self, job: JobName) {
        if let Some(job) = self.jobs.get_mut(job.0 as usize)
            && let Some(with) = job.take()
        {
            self.epochs.leave(with);
        }
    }
}
