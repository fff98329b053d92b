//! What the program may be asked to do.
ghost use Rattle.std.specs.Prelude.{◌≡◌, MatchOption};
ghost use Rattle.sdd_bench.specs.Names.{name_of};

/// What is done with guards in each turn.
#[derive(Clone, Copy, Debug, PartialEq, Eq)]
pub enum Guarding {
    /// A guard is opened and closed.
    Outermost,
    /// The same under an open guard.
    Nested,
    /// A guard is opened, accelerated and closed, so that the next one finds another epoch.
    Accelerated,
}

/// What a participant of a domain does in each turn with a cell of owners that may have others.
#[derive(Clone, Copy, Debug, PartialEq, Eq)]
pub enum CellWork {
    /// A load under a guard that stays open, and a look through the pointer.
    Loads,
    /// Under a guard, an item is made and put into the cell by an exchange, and what the cell held is released; what is due is reclaimed.
    Exchanges,
    /// A read of a configuration: a guard is opened, the cell loaded from, the pointer looked through, and the guard closed.
    Reads,
    /// Another configuration is published: under a guard, an item is made and swapped into the cell, and what it held is released; what is due is
    /// reclaimed.
    Publishes,
    /// In one of 1,024 turns another configuration is published, and in each other one it is read.
    MostlyReads,
}

/// What a participant of a domain does in each turn.
#[derive(Clone, Copy, Debug, PartialEq, Eq)]
pub enum Task {
    Guards(Guarding),
    /// An item is made and retired under a guard, and what is due is reclaimed.
    Items,
    /// The same while half of the slots are taken.
    HalfFull,
    /// A look at an owner's item under a guard.
    Looks,
    /// A read through the reference that such a look gave.
    Reads,
    /// A look by an item's owner, without a guard.
    Gets,
    /// A job is deferred under a guard, and what is due runs.
    Jobs,
    /// An item goes raw and comes back.
    Raws,
    /// An owner changes its item, while no guard is open.
    Changes,
    /// A shared owner is cloned, and the clone released.
    Shares,
    /// A cell is loaded from under a guard, and the pointer looked through.
    Loads,
    /// Under a guard, an item is made and put into a cell, and what the cell held is retired; what is due is reclaimed.
    Swaps,
    OfCell(CellWork),
}

/// What is done in each turn with a list of numbers, in a world.
#[derive(Clone, Copy, Debug, PartialEq, Eq)]
pub enum Listing {
    /// Under a guard, a number is pushed onto a queue, and one popped; what is due is reclaimed.
    Queue,
    /// The same with a stack.
    Stack,
    /// A walk along the entries of a queue, under a guard that stays open.
    Walk,
    /// The same by an iterator, which borrows the space.
    Iter,
}

/// What is done in each turn with a bag of numbers, in a world.
#[derive(Clone, Copy, Debug, PartialEq, Eq)]
pub enum Bagging {
    /// Under a guard that stays open, a number is pushed into the bag itself, and popped.
    Inside,
    /// The same where the bag itself is full, so that the number goes into a storage.
    Behind,
    /// Under a guard, a bag of 256 numbers is made, its numbers are folded, and it is closed; what is due is reclaimed.
    All,
}

/// What is done in each turn, and where.
#[derive(Clone, Copy, Debug, PartialEq, Eq)]
pub enum Operation {
    /// In a world.
    World(Guarding),
    /// By the only participant of a domain.
    Local(Task),
    /// By a participant of a domain, beside one that does nothing.
    Beside(Task),
    /// As many participants as a domain may have register, and all end; and the domain is closed.
    Places,
    /// In a world, an item is made and retired under a guard, and what is due is reclaimed.
    Item,
    /// In a world, a job is deferred under a guard, and what is due runs.
    Job,
    /// In a world, an owner looks at its item.
    Read,
    /// In a world, a look at an owner's item under a guard.
    Look,
    /// In a world, a cell is loaded from under a guard, and the pointer looked through.
    Load,
    /// In a world, a shared owner is cloned, and the clone released.
    Share,
    /// In a world, an item goes raw and comes back.
    Raw,
    /// In a world, under a guard, an item is made and put into a cell, and what the cell held is retired; what is due is reclaimed.
    Swap,
    /// With a list, in a world.
    Listed(Listing),
    /// With a bag, in a world.
    Bagged(Bagging),
}

/// The operation of that name.
pub fn named(word: &str) -> Option<Operation>
    ensures { MatchOption result ((operation : Operation) → ¬ (word.now ≡ name_of operation)) (λ operation. word.now ≡ name_of operation) }
{
    match word {
        "world-outermost" => Some(Operation::World(Guarding::Outermost)),
        "world-nested" => Some(Operation::World(Guarding::Nested)),
        "world-accelerated" => Some(Operation::World(Guarding::Accelerated)),
        "world-item" => Some(Operation::Item),
        "world-job" => Some(Operation::Job),
        "world-read" => Some(Operation::Read),
        "world-look" => Some(Operation::Look),
        "world-load" => Some(Operation::Load),
        "world-share" => Some(Operation::Share),
        "world-raw" => Some(Operation::Raw),
        "world-swap" => Some(Operation::Swap),
        "local-outermost" => Some(Operation::Local(Task::Guards(Guarding::Outermost))),
        "local-nested" => Some(Operation::Local(Task::Guards(Guarding::Nested))),
        "local-accelerated" => Some(Operation::Local(Task::Guards(Guarding::Accelerated))),
        "local-item" => Some(Operation::Local(Task::Items)),
        "local-half-full" => Some(Operation::Local(Task::HalfFull)),
        "local-look" => Some(Operation::Local(Task::Looks)),
        "local-read" => Some(Operation::Local(Task::Reads)),
        "local-get" => Some(Operation::Local(Task::Gets)),
        "local-job" => Some(Operation::Local(Task::Jobs)),
        "local-raw" => Some(Operation::Local(Task::Raws)),
        "local-change" => Some(Operation::Local(Task::Changes)),
        "local-share" => Some(Operation::Local(Task::Shares)),
        "local-load" => Some(Operation::Local(Task::Loads)),
        "local-swap" => Some(Operation::Local(Task::Swaps)),
        "local-shared-load" => Some(Operation::Local(Task::OfCell(CellWork::Loads))),
        "local-exchange" => Some(Operation::Local(Task::OfCell(CellWork::Exchanges))),
        "local-config-read" => Some(Operation::Local(Task::OfCell(CellWork::Reads))),
        "local-publish" => Some(Operation::Local(Task::OfCell(CellWork::Publishes))),
        "local-config" => Some(Operation::Local(Task::OfCell(CellWork::MostlyReads))),
        "beside-outermost" => Some(Operation::Beside(Task::Guards(Guarding::Outermost))),
        "beside-nested" => Some(Operation::Beside(Task::Guards(Guarding::Nested))),
        "beside-accelerated" => Some(Operation::Beside(Task::Guards(Guarding::Accelerated))),
        "beside-item" => Some(Operation::Beside(Task::Items)),
        "beside-half-full" => Some(Operation::Beside(Task::HalfFull)),
        "beside-look" => Some(Operation::Beside(Task::Looks)),
        "beside-read" => Some(Operation::Beside(Task::Reads)),
        "beside-get" => Some(Operation::Beside(Task::Gets)),
        "beside-job" => Some(Operation::Beside(Task::Jobs)),
        "beside-raw" => Some(Operation::Beside(Task::Raws)),
        "beside-change" => Some(Operation::Beside(Task::Changes)),
        "beside-share" => Some(Operation::Beside(Task::Shares)),
        "beside-load" => Some(Operation::Beside(Task::Loads)),
        "beside-swap" => Some(Operation::Beside(Task::Swaps)),
        "beside-shared-load" => Some(Operation::Beside(Task::OfCell(CellWork::Loads))),
        "beside-exchange" => Some(Operation::Beside(Task::OfCell(CellWork::Exchanges))),
        "beside-config-read" => Some(Operation::Beside(Task::OfCell(CellWork::Reads))),
        "beside-publish" => Some(Operation::Beside(Task::OfCell(CellWork::Publishes))),
        "beside-config" => Some(Operation::Beside(Task::OfCell(CellWork::MostlyReads))),
        "domain-places" => Some(Operation::Places),
        "world-queue" => Some(Operation::Listed(Listing::Queue)),
        "world-stack" => Some(Operation::Listed(Listing::Stack)),
        "world-walk" => Some(Operation::Listed(Listing::Walk)),
        "world-iter" => Some(Operation::Listed(Listing::Iter)),
        "world-bag" => Some(Operation::Bagged(Bagging::Inside)),
        "world-bag-behind" => Some(Operation::Bagged(Bagging::Behind)),
        "world-bag-all" => Some(Operation::Bagged(Bagging::All)),
        _ => None,
    }
}
