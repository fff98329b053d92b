//! What is known of a domain: by a participant, by the seat of an owner, by the right to a cell, and by what stands beside the table.
//!
//! No value of these types is made: a seat carries one for the proofs alone. Who only carries a seat reads no more than this module; what words and views
//! have to do with one another is the rule of `sdd_domain_invariant`.
//!
//! No step of a domain sets these: `adopts` of an epoch's view; `links`; what is counted as `registered`; and what is `plain`. They are what `specs/Views` says
//! of a seat that knows nothing.
ghost use base.Stored.{Gv};
ghost use base.Fml.{ftrue};
ghost use Rattle.std.specs.Prelude.{List};
ghost use Rattle.atomic_table.specs.Seated.{itself};
ghost use Rattle.sdd_witness.specs.Ledger.{Pledge, pledges_coded};

use std::marker::Model;

/// What a participant knows of the epoch.
pub struct EpochView {
    /// How many places there are; 0 where it isn't a participant's seat.
    pub all: u64,
    pub place: u64,
    /// 0 with no place, 1 closed, 2 open.
    pub state: u64,
    /// What its own count word has.
    pub count: u64,
    /// The global count at its last publish.
    pub since: u64,
    /// The greatest global count that it knows.
    pub known: u64,
    /// The last count that it found.
    pub found: u64,
    /// 1 while it holds the lock.
    pub scans: u64,
    /// In its scan each other place below this one was looked at and passed.
    pub looked: u64,
    /// 1 once it has ended: its place is its own no more.
    pub ended: u64,
    /// The ended place whose items it has out, to adopt them.
    pub adopts: Option<u64>,
}

/// What is known of barred places, and of slots once all are barred.
pub struct EndedView {
    /// Each place below this one is barred: nobody takes part there, nor will.
    pub ended: u64,
    /// No slot below this one has an owner, and none will: all places are barred.
    pub quiet: u64,
}

/// An item or a job that waits with a participant.
pub struct WaitingItem {
    pub slot: u64,
    /// The global count at its retirement.
    pub retired_at: u64,
    /// How many changes of the count it has seen since.
    pub changes: u64,
    /// Which of all retirements its own is: a slot is used again, a retirement isn't. 0 as long as no step tells them apart.
    pub name: u64,
}

/// An item that waits with a participant for a collector, whose close may take it before its time.
pub struct PrivateItem {
    pub collector: u64,
    pub item: WaitingItem,
}

/// What a participant knows of slots. A clause reads an array as a list, of any length.
pub struct SlotsView {
    /// The slots of its owners, one entry for each owner. A slot's word says whether its owners are counted, so that there may be several.
    pub owns: [u64; 0],
    /// The slots whose owner here has its unit of the value's place.
    pub drawn: [u64; 0],
    /// The slots that it sees under its guards, one entry for each time.
    pub sees: [u64; 0],
    /// The items that wait with it, and the jobs, by their places in the table of jobs; but for private items.
    pub waits: [WaitingItem; 0],
    /// The private items that wait with it, each for its collector.
    pub privates: [PrivateItem; 0],
    /// The slots of those private items that it found emptied by their collector's close.
    pub emptied: [u64; 0],
    /// The slot of its own that it holds, so that nobody comes to see it.
    pub holds: Option<u64>,
    /// The collector for which it looks at the places.
    pub closes: Option<u64>,
    /// No place below this one has a guard that sees what is held or closed.
    pub looked: u64,
    /// The slot whose private item it moves out for a collector's close.
    pub empties: Option<u64>,
    /// Whether it found that the item's bag has let go of that slot, which is then its to give back.
    pub left: bool,
    /// The slot whose number of owners it has raised past the bound, until it takes that back.
    pub over: Option<u64>,
}

/// What a cell is for.
#[derive(Clone, Copy, Drop)]
pub enum CellKind {
    /// It holds an owner that is the only one.
    Owned,
    /// It holds one of several owners.
    Shared,
    /// It holds a raw pointer.
    Raw,
    /// It is that of a private collector which is being closed. One that is open has a cell of raw pointers.
    Collector,
}

/// The right to a cell.
pub struct CellRight {
    pub cell: u64,
    pub kind: CellKind,
}

/// What is known of cells.
pub struct CellsView {
    pub rights: [CellRight; 0],
}

/// What a slot shows, as the code of its value.
pub struct ShownValue {
    pub slot: u64,
    /// Whether its owner is one of several that there may be.
    pub shared: bool,
    pub ghost value: { Gv } by { itself },
}

impl Model for ShownValue {
    ghost also_owns = { λ _. ftrue };
}

/// How many items were made and have gone again.
pub struct CountsView {
    /// How many it made.
    pub made: u64,
    /// How many it gave back, whose values it had moved out.
    pub gone: u64,
    /// How many of these were dropped in place.
    pub in_place: u64,
    /// How many places these counts are of that have ended.
    pub over: u64,
    /// How many participants have registered so far, where it is the bank's.
    pub registered: u64,
}

/// Units of a value's place that lie in the bank.
pub struct Deposit {
    pub slot: u64,
    pub units: u64,
    pub lifetime: u64,
    pub ghost value: { Gv } by { itself },
}

impl Model for Deposit {
    ghost also_owns = { λ _. ftrue };
}

/// What a participant knows of the fractions in the values of slots, and of how many values it moved in and out.
pub struct FractionsView {
    /// The ghost map of the values' places.
    pub gamma: u64,
    /// The ghost map of the places of what is kept beside the values.
    pub links: u64,
    /// The slot whose value it moves in or out: it has all fractions in it out.
    pub moves: Option<u64>,
    /// Whether it is the bank's.
    pub bank: bool,
    /// Whether it may found the bank: one seat may, once.
    pub founds: bool,
    /// What lies in the bank, where it is the bank's.
    pub banked: [Deposit; 0],
    /// What the slots show that it has owners of, once the value was moved in, one entry for each owner.
    pub owns: [ShownValue; 0],
    /// What the slots show that it sees under its guards, one entry for each time.
    pub sees: [ShownValue; 0],
    /// What the slots show of the items that wait with it.
    pub waits: [ShownValue; 0],
    /// What it moved into slots, the newest first.
    pub filled: [ShownValue; 0],
    pub counts: CountsView,
}

/// Shares of other seats' views: a participant's own pledge while it takes a step beside such a seat, or all of the ledger's.
pub struct PledgesView {
    /// Whether it is the ledger's.
    pub ledger: bool,
    /// Whether it may found the ledger: one seat may, once.
    pub founds: bool,
    /// Its own pledge, or none.
    pub ghost own: { List Pledge } by { pledges_coded },
    /// What the ledger has.
    pub ghost booked: { List Pledge } by { pledges_coded },
}

impl Model for PledgesView {
    ghost also_owns = { λ _. ftrue };
}

/// What is kept of a slot beside its value.
pub struct Plain {
    /// The next slot of the chain that its item waits in.
    pub link: u64,
    pub generation: u64,
}

/// What a participant knows.
pub struct View {
    /// How many of each its domain has; none where it isn't a participant's seat.
    pub sizes: Sizes,
    pub epoch: EpochView,
    pub places: EndedView,
    pub slots: SlotsView,
    pub cells: CellsView,
    pub fractions: FractionsView,
    pub pledges: PledgesView,
    /// Where it is a lone participant: all words behind the places'.
    pub words: [u64; 0],
    /// Where it is a lone participant: what is kept of each slot beside its value.
    pub plain: [Plain; 0],
}

/// How many of each a domain has, which says where its words are.
#[derive(Drop)]
pub struct Sizes {
    pub participants: u64,
    pub slots: u64,
    pub jobs: u64,
    pub cells: u64,
}
