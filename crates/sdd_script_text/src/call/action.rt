//! What a participant is to do, by what it is about.

use super::Value;
use crate::name::{
    BagName, CellName, CollectorName, GuardName, ItemName, ListName, OwnerName, QueueName,
    StackName,
};
use sdd_core::Tag;

/// What a participant is to do.
#[derive(Clone, Copy, Debug, PartialEq, Eq)]
pub enum Action {
    /// `open`: opens a guard.
    Open,
    /// An open guard.
    Guard(GuardAction),
    /// An item and its owners.
    Item(ItemAction),
    /// An item in its place, or out as raw.
    Raw(RawAction),
    /// A collector.
    Collector(CollectorAction),
    /// A cell as a whole.
    Cell(CellAction),
    /// The owner that a cell holds.
    Held(HeldAction),
    /// The link of an entry.
    Link(LinkAction),
    /// A queue or a stack as a whole.
    Container(ContainerAction),
    /// The entries of a queue or a stack.
    Entry(EntryAction),
    /// A bag.
    Bag(BagAction),
    /// `end`: the participant takes part no more.
    End,
}

/// What is done with an open guard.
#[derive(Clone, Copy, Debug, PartialEq, Eq)]
pub enum GuardAction {
    /// `epoch G`: the epoch that a guard shows.
    Epoch(GuardName),
    /// `garbage G`: whether something may wait.
    Garbage(GuardName),
    /// `set G`: says that there is garbage.
    Set(GuardName),
    /// `accelerate G`: has the next outermost close try to raise the epoch.
    Accelerate(GuardName),
    /// `defer G`: defers a job that does nothing.
    Defer(GuardName),
    /// `close G`: closes a guard.
    Close(GuardName),
}

/// What is done with an item and its owners.
#[derive(Clone, Copy, Debug, PartialEq, Eq)]
pub enum ItemAction {
    /// `owned V`: makes an item with one owner.
    Owned(Value),
    /// `shared V`: makes an item whose owners are counted.
    Shared(Value),
    /// `read O`: the value of an owner's item.
    Read(OwnerName),
    /// `look I G`: the value of an item that has no owner at hand, through a pointer to it.
    Look(ItemName, GuardName),
    /// `upgrade I G`: an owner more of an item, through a pointer to it.
    Upgrade(ItemName, GuardName),
    /// `retire O`: retires the item of its one owner.
    Retire(OwnerName),
    /// `release O`: gives up one of the counted owners.
    Release(OwnerName),
    /// `clone O`: an owner more beside a counted one.
    Clone(OwnerName),
}

/// What is done with an item in its place, or out as raw.
#[derive(Clone, Copy, Debug, PartialEq, Eq)]
pub enum RawAction {
    /// `put O n`: the number that an owner's item holds becomes this one, in its place.
    Put(OwnerName, u64),
    /// `drop O`: gives up an owner; the item of one that is alone is dropped in its place.
    Drop(OwnerName),
    /// `raw O`: puts the item of its one owner out as raw, with no owner.
    Raw(OwnerName),
    /// `unraw I`: the owner of an item that is out as raw.
    Unraw(ItemName),
    /// `see I G`: the value of an item that is out as raw.
    See(ItemName, GuardName),
}

/// What is done with a collector.
#[derive(Clone, Copy, Debug, PartialEq, Eq)]
pub enum CollectorAction {
    /// `collector`: a collector of items that end with it at latest.
    Make,
    /// `collect O G K`: gives an owner to a collector.
    Collect(OwnerName, GuardName, CollectorName),
    /// `close K`: closes a collector, and reclaims what waits for it.
    Close(CollectorName),
}

/// What is done with a cell as a whole.
#[derive(Clone, Copy, Debug, PartialEq, Eq)]
pub enum CellAction {
    /// `cell owned X`: a cell that holds an owner, or `none`, and closes with it.
    Owned(Option<OwnerName>),
    /// `cell shared X`: a cell that holds a counted owner, or `none`.
    Shared(Option<OwnerName>),
    /// `load C G`: what a cell points to, under a guard.
    Load(CellName, GuardName),
    /// `tag C`: the tag of a cell.
    Tag(CellName),
    /// `tagif C T if T`: gives a cell the first tag where it has the second.
    TagIf(CellName, Tag, Tag),
    /// `close C`: closes a cell, and gives up what it holds.
    Close(CellName),
}

/// What is done with the owner that a cell holds.
#[derive(Clone, Copy, Debug, PartialEq, Eq)]
pub enum HeldAction {
    /// `swap C X T`: puts an owner, or `none`, and a tag into a cell, and takes out what was there.
    Swap(CellName, Option<OwnerName>, Tag),
    /// `cas C G was Y T now X T`: where a cell points to an item, or `null`, with a tag, swaps that for an owner, or `none`, and a tag.
    Exchange(CellName, GuardName, Option<ItemName>, Tag, Option<OwnerName>, Tag),
    /// `into C`: ends a cell, and takes out the owner in it.
    Into(CellName),
    /// `copy C G`: a cell with one more owner of what a shared cell holds.
    Copy(CellName, GuardName),
    /// `share C G`: one more owner of what a shared cell holds.
    Share(CellName, GuardName),
}

/// What is done with the link of an entry.
#[derive(Clone, Copy, Debug, PartialEq, Eq)]
pub enum LinkAction {
    /// `mark I`: marks the entry that an item is, if it is clear.
    Mark(ItemName),
    /// `unmark I`: takes the mark of an entry away, if it is marked.
    Unmark(ItemName),
    /// `delete I`: deletes an entry, if it is clear or marked.
    Delete(ItemName),
    /// `linktag I`: the tag of an entry's link.
    Tag(ItemName),
    /// `append I O mark G` or `append I O plain G`: puts an owner's entry directly behind an item, marked if so asked, unless that is deleted.
    Append(ItemName, OwnerName, bool, GuardName),
    /// `next I G`: the next item behind one in its list that isn't deleted; the deleted ones between are let go of.
    Next(ItemName, GuardName),
}

/// What is done with a queue or a stack as a whole.
#[derive(Clone, Copy, Debug, PartialEq, Eq)]
pub enum ContainerAction {
    /// `queue`: an empty queue of numbers.
    Queue,
    /// `stack`: an empty stack of numbers.
    Stack,
    /// `all S G`: puts all entries of a stack onto a new one.
    All(StackName, GuardName),
    /// `clonelist L G`: a copy of a container, with its numbers that aren't deleted, in order.
    Clone(ListName, GuardName),
    /// `close Q`: closes a queue, and lets go of its entries.
    CloseQueue(QueueName),
    /// `close S`: closes a stack, and lets go of its entries.
    CloseStack(StackName),
}

/// What is done with the entries of a queue or a stack.
#[derive(Clone, Copy, Debug, PartialEq, Eq)]
pub enum EntryAction {
    /// `push L n G`: puts a number behind a queue's entries, or in front of a stack's.
    Push(ListName, u64, GuardName),
    /// `pushif L n m G`: puts the first number among a container's, if the newest that isn't deleted is the second.
    PushIf(ListName, u64, u64, GuardName),
    /// `pop L G`: takes a container's first number out that isn't deleted: the oldest of a queue, the newest of a stack.
    Pop(ListName, GuardName),
    /// `popif L m G`: takes a container's first number out that isn't deleted, if it is this one.
    PopIf(ListName, u64, GuardName),
    /// `peek L G`: a container's first number that isn't deleted.
    Peek(ListName, GuardName),
    /// `len L G`: how many of a container's numbers aren't deleted.
    Len(ListName, GuardName),
    /// `list L G`: a container's numbers that aren't deleted, in order.
    List(ListName, GuardName),
}

/// What is done with a bag.
#[derive(Clone, Copy, Debug, PartialEq, Eq)]
pub enum BagAction {
    /// `bag`: an empty bag of numbers.
    Make,
    /// `add B n G`: puts a number into a bag.
    Add(BagName, u64, GuardName),
    /// `try B n`: puts a number among those that lie in the bag itself, if there is room.
    Try(BagName, u64),
    /// `take B G`: takes some number out of a bag.
    Take(BagName, GuardName),
    /// `drain B G`: takes all numbers out of a bag.
    Drain(BagName, GuardName),
    /// `len B G`: how many numbers are in a bag.
    Len(BagName, GuardName),
    /// `close B`: closes a bag, with the numbers in it.
    Close(BagName),
}
