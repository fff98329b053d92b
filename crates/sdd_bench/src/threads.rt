//! What participants in several threads take for what they do at once.
ghost use Rattle.std.specs.Prelude.{◌≡◌, All, IfOk};
ghost use Rattle.sdd_domain.specs.Domain.{cells_in, slots_in};
ghost use Rattle.sdd_domain.specs.Receipt.{Receipt as EndedCounts};
ghost use Rattle.sdd_space.specs.CallerId.{IsSeated};
ghost use Rattle.sdd_domain.specs.Space.{caller_of};
ghost use Rattle.sdd_bench.specs.Names.{name_of_timed};

use crate::local::keep;
use crate::operation::{CellWork, Guarding, Task};
use crate::rounds::{Course, Findings, Meeting, Trouble, takes_part};
use crate::spans::{Span, Tenths, median_of};
use sdd_core::{Limits, Refused};
use sdd_domain::{Domain, Local};
use sdd_space::{AtomicShared, Shared};
use std::alloc::Global;
use std::sync::Wait;
use std::thread::{Threads, join};
use std::time::{Clock, Instant};
use std::{io, thread};

/// While the thread of a participant rests under an open guard nothing is reclaimed: so many slots that the others find one in each turn of a round. And so
/// many
/// cells that the words of those which participants have for themselves lie in lines of their own.
const LIMITS: Limits = Limits {
    participants: 4,
    slots: 1 << 18,
    cells: 1024,
    jobs: 0,
    nesting: 2,
    tries: 65535,
};

/// One place more, for the participant that makes what the others share.
const FOR_ONE_MORE: Limits = Limits {
    participants: 5,
    ..LIMITS
};

/// What is timed.
#[derive(Clone, Copy, Debug, PartialEq, Eq)]
pub enum Timed {
    /// An outermost guard is opened and closed.
    Guard,
    /// The same under an open guard.
    Nested,
    /// A guard is opened, accelerated and closed.
    Accelerate,
    /// Under a guard, an item is made and retired, and what is due is reclaimed.
    MakeAndRetire,
    /// A shared owner is cloned, and the clone released: of an item of each thread's own.
    CloneOwn,
    /// The same of one item for all threads.
    CloneCommon,
    /// Under an open guard, a load from a cell that all threads have, and a look through the pointer.
    Load,
    /// Under a guard, an item is made and put into a cell of each thread's own, and what it held is retired; what is due is reclaimed.
    SwapAndRetire,
    /// All threads read one configuration, each under a guard of its own, and in one of 1,024 turns publish another one.
    Configuration,
}

const ALL_TIMED: [Timed; 9] = [
    Timed::Guard,
    Timed::Nested,
    Timed::Accelerate,
    Timed::MakeAndRetire,
    Timed::CloneOwn,
    Timed::CloneCommon,
    Timed::Load,
    Timed::SwapAndRetire,
    Timed::Configuration,
];

impl Timed {
    /// What stands in its rows.
    fn name(self) -> &'static str
        ensures { result.now ≡ name_of_timed self }
    {
        match self {
            Timed::Guard => "guard",
            Timed::Nested => "nested",
            Timed::Accelerate => "accelerate",
            Timed::MakeAndRetire => "make-and-retire",
            Timed::CloneOwn => "clone-own",
            Timed::CloneCommon => "clone-common",
            Timed::Load => "load",
            Timed::SwapAndRetire => "swap-and-retire",
            Timed::Configuration => "configuration",
        }
    }

    fn task(self) -> Task {
        match self {
            Timed::Guard => Task::Guards(Guarding::Outermost),
            Timed::Nested => Task::Guards(Guarding::Nested),
            Timed::Accelerate => Task::Guards(Guarding::Accelerated),
            Timed::MakeAndRetire => Task::Items,
            Timed::CloneOwn | Timed::CloneCommon => Task::Shares,
            Timed::Load => Task::OfCell(CellWork::Loads),
            Timed::SwapAndRetire => Task::Swaps,
            Timed::Configuration => Task::OfCell(CellWork::MostlyReads),
        }
    }

    /// What is done with a cell that all threads have.
    fn work(self) -> CellWork {
        match self {
            Timed::Load => CellWork::Loads,
            _ => CellWork::MostlyReads,
        }
    }

    fn limits(self) -> Limits {
        match self {
            Timed::CloneCommon | Timed::Load | Timed::Configuration => FOR_ONE_MORE,
            _ => LIMITS,
        }
    }

    /// So many turns take about a millisecond.
    fn turns(self) -> u64 {
        match self {
            Timed::Guard => 50_000,
            Timed::Nested => 100_000,
            Timed::Accelerate => 10_000,
            Timed::MakeAndRetire => 10_000,
            Timed::CloneOwn => 50_000,
            Timed::CloneCommon => 10_000,
            Timed::Load => 500_000,
            Timed::SwapAndRetire => 10_000,
            Timed::Configuration => 50_000,
        }
    }
}

/// How many threads there are.
#[derive(Clone, Copy, Debug, PartialEq, Eq)]
enum Crowd {
    One,
    Two,
    Four,
}

const CROWDS: [Crowd; 3] = [Crowd::One, Crowd::Two, Crowd::Four];

impl Crowd {
    fn threads(self) -> u64 {
        match self {
            Crowd::One => 1,
            Crowd::Two => 2,
            Crowd::Four => 4,
        }
    }
}

/// Prints the rows, up to the first that meets with trouble.
pub fn print_rows<R: Threads + Wait + Clock + Print + AllocGlobal + Sync>(
    rt: &R,
    turns: Option<u64>,
) -> io::Result<Result<(), Trouble>> {
    for timed in ALL_TIMED {
        let turns = turns.unwrap_or(timed.turns());
        if let Err(trouble) = print_rows_of(rt, timed, turns)? {
            return Ok(Err(trouble));
        }
    }
    Ok(Ok(()))
}

/// Prints a row for each number of threads that have a processor each.
fn print_rows_of<R: Threads + Wait + Clock + Print + AllocGlobal + Sync>(
    rt: &R,
    timed: Timed,
    turns: u64,
) -> io::Result<Result<(), Trouble>> {
    let processors = thread::available_parallelism(rt)?.get() as u64;
    for crowd in CROWDS {
        if crowd.threads() > processors {
            break;
        }
        match time_of(rt, rt.alloc(), timed, crowd, turns) {
            Ok(time) => print_row(rt, timed, crowd, time)?,
            Err(trouble) => return Ok(Err(trouble)),
        }
    }
    Ok(Ok(()))
}

/// The nanoseconds that a turn took, or a `-` where the threads never worked at once.
fn print_row(rt: &impl Print, timed: Timed, crowd: Crowd, time: Option<Tenths>) -> io::Result<()> {
    let name = timed.name();
    let threads = crowd.threads();
    match time {
        Some(tenths) => println!(rt; "{name} {threads} {tenths}"),
        None => println!(rt; "{name} {threads} -"),
    }
}

/// What a turn takes in a domain of its own.
fn time_of<R: Threads + Wait + Clock + Sync>(
    rt: &R,
    alloc: Global,
    timed: Timed,
    crowd: Crowd,
    turns: u64,
) -> Result<Option<Tenths>, Trouble> {
    let Ok(origin) = Instant::now(rt) else {
        return Err(Trouble::NoClock);
    };
    let domain: Domain<u64> = Domain::new(alloc, timed.limits())?;
    let meeting = Meeting::new(crowd.threads());
    let course = Course {
        domain: &domain,
        meeting: &meeting,
        origin,
        task: timed.task(),
        turns,
        common: &None,
        work: timed.work(),
        cell: &None,
    };
    let found = match timed {
        Timed::CloneCommon => shares_one(rt, alloc, crowd, &course, Common::Item),
        Timed::Load | Timed::Configuration => {
            shares_one(rt, alloc, crowd, &course, Common::Cell)
        }
        _ => runs(rt, alloc, crowd, &course),
    };
    match found {
        Ok(findings) => {
            let spans = closed(domain, findings)?;
            Ok(median_of(alloc, spans.as_slice(), turns)?)
        }
        Err(trouble) => {
            domain.leak();
            Err(trouble)
        }
    }
}

/// What all threads have.
#[derive(Clone, Copy, Debug, PartialEq, Eq)]
enum Common {
    /// An owner of one item.
    Item,
    /// A cell that holds one.
    Cell,
}

/// All threads run the course with what a participant more makes and lets go.
fn shares_one<R: Threads + Wait + Clock + Sync>(
    rt: &R,
    alloc: Global,
    crowd: Crowd,
    course: &Course<'_>,
    common: Common,
) -> Result<Findings, Trouble>
    ensures { IfOk result (λ found. All (λ (r : EndedCounts). r.home ≡ slots_in course.now.domain.now) found.receipts.items) }
{
    let mut local = Local::register(course.domain)?;
    let found = match common {
        Common::Item => runs_with_one(rt, alloc, crowd, course, &mut local),
        Common::Cell => runs_with_cell(rt, alloc, crowd, course, &mut local),
    };
    match local.end() {
        Ok(receipt) => {
            let mut found = found?;
            keep(course.domain, &mut found.receipts, receipt)?;
            Ok(found)
        }
        Err(_) => unreachable!(),
    }
}

/// The same by this participant.
fn runs_with_one<R: Threads + Wait + Clock + Sync>(
    rt: &R,
    alloc: Global,
    crowd: Crowd,
    course: &Course<'_>,
    local: &mut Local<'_, u64>,
) -> Result<Findings, Trouble>
    requires seated { IsSeated (caller_of local.old) }
    requires home { (caller_of local.old).home.slots ≡ slots_in course.now.domain.now }
    ensures found { IfOk result (λ found. All (λ (r : EndedCounts). r.home ≡ slots_in course.now.domain.now) found.receipts.items) }
    ensures caller { caller_of local.new ≡ caller_of local.old }
    ensures guards { local.new.member.own.guards ≡ local.old.member.own.guards }
{
    let owner = match Shared::new(1, local) {
        Ok(owner) => owner,
        Err((_value, refused)) => return Err(Trouble::Refused(refused)),
    };
    let common = Some(owner);
    let course = Course {
        domain: course.domain,
        meeting: course.meeting,
        origin: course.origin,
        task: course.task,
        turns: course.turns,
        common: &common,
        work: course.work,
        cell: &None,
    };
    let found = runs(rt, alloc, crowd, &course);
    if let Some(owner) = common {
        let _ = owner.release(local);
    }
    found
}

/// The same with a cell that all have.
fn runs_with_cell<R: Threads + Wait + Clock + Sync>(
    rt: &R,
    alloc: Global,
    crowd: Crowd,
    course: &Course<'_>,
    local: &mut Local<'_, u64>,
) -> Result<Findings, Trouble>
    requires seated { IsSeated (caller_of local.old) }
    requires home { (caller_of local.old).home.cells ≡ cells_in course.now.domain.now }
    ensures found { IfOk result (λ found. All (λ (r : EndedCounts). r.home ≡ slots_in course.now.domain.now) found.receipts.items) }
    ensures caller { caller_of local.new ≡ caller_of local.old }
    ensures guards { local.new.member.own.guards ≡ local.old.member.own.guards }
{
    let made = match AtomicShared::new(1, local) {
        Ok(made) => made,
        Err((_value, refused)) => return Err(Trouble::Refused(refused)),
    };
    let cell = Some(made);
    let course = Course {
        domain: course.domain,
        meeting: course.meeting,
        origin: course.origin,
        task: course.task,
        turns: course.turns,
        common: &None,
        work: course.work,
        cell: &cell,
    };
    let found = runs(rt, alloc, crowd, &course);
    if let Some(made) = cell {
        made.close(local);
    }
    found
}

/// Closes the domain. When each participant worked.
fn closed(domain: Domain<u64>, findings: Findings) -> Result<Vec<Vec<Span>>, Refused>
    requires { All (λ (r : EndedCounts). r.home ≡ slots_in domain) findings.receipts.items }
{
    let Findings { receipts, spans } = findings;
    match domain.close(receipts) {
        Ok(_tally) => Ok(spans),
        Err((domain, _receipts, refused)) => {
            domain.leak();
            Err(refused)
        }
    }
}

/// All threads run the course.
fn runs<R: Threads + Wait + Clock + Sync>(
    rt: &R,
    alloc: Global,
    crowd: Crowd,
    course: &Course<'_>,
) -> Result<Findings, Trouble>
    ensures { IfOk result (λ found. All (λ (r : EndedCounts). r.home ≡ slots_in course.now.domain.now) found.receipts.items) }
{
    match crowd {
        Crowd::One => takes_part(rt, alloc, course),
        Crowd::Two => two(rt, alloc, course),
        Crowd::Four => four(rt, alloc, course),
    }
}

fn two<R: Threads + Wait + Clock + Sync>(
    rt: &R,
    alloc: Global,
    course: &Course<'_>,
) -> Result<Findings, Trouble>
    ensures { IfOk result (λ found. All (λ (r : EndedCounts). r.home ≡ slots_in course.now.domain.now) found.receipts.items) }
{
    let part = move || -> Result<Findings, Trouble>
        ensures { IfOk result (λ found. All (λ (r : EndedCounts). r.home ≡ slots_in course.entry.now.domain.now) found.receipts.items) }
    { takes_part(rt, alloc, course) };
    let (first, second) = join(rt, &part, &part);
    together(course, first, second)
}

fn four<R: Threads + Wait + Clock + Sync>(
    rt: &R,
    alloc: Global,
    course: &Course<'_>,
) -> Result<Findings, Trouble>
    ensures { IfOk result (λ found. All (λ (r : EndedCounts). r.home ≡ slots_in course.now.domain.now) found.receipts.items) }
{
    let part = move || -> Result<Findings, Trouble>
        ensures { IfOk result (λ found. All (λ (r : EndedCounts). r.home ≡ slots_in course.entry.now.domain.now) found.receipts.items) }
    { two(rt, alloc, course) };
    let (first, second) = join(rt, &part, &part);
    together(course, first, second)
}

/// The findings of both, in one domain.
fn together(
    course: &Course<'_>,
    first: Result<Findings, Trouble>,
    second: Result<Findings, Trouble>,
) -> Result<Findings, Trouble>
    requires first { IfOk first (λ found. All (λ (r : EndedCounts). r.home ≡ slots_in course.now.domain.now) found.receipts.items) }
    requires second { IfOk second (λ found. All (λ (r : EndedCounts). r.home ≡ slots_in course.now.domain.now) found.receipts.items) }
    ensures { IfOk result (λ found. All (λ (r : EndedCounts). r.home ≡ slots_in course.now.domain.now) found.receipts.items) }
{
    let _ = course;
    let mut all = first?;
    let mut others = second?;
    all.receipts.append(&mut others.receipts)?;
    all.spans.append(&mut others.spans)?;
    Ok(all)
}
