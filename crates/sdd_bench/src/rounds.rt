//! Rounds in which several participants work at once, each in a thread of its own.
ghost use Rattle.std.specs.Option.{ForSome};
ghost use Rattle.std.specs.Prelude.{◌≡◌, All, IfOk};
ghost use Rattle.sdd_space.specs.CallerId.{IsSeated};
ghost use Rattle.sdd_space.specs.Shared.{cells_home, slots_home};
ghost use Rattle.sdd_domain.specs.Domain.{cells_in, slots_in};
ghost use Rattle.sdd_domain.specs.Receipt.{Receipt as EndedCounts};
ghost use Rattle.sdd_domain.specs.Space.{caller_of};

use crate::configuration::with_cell;
use crate::local::{clones, worked};
use crate::operation::{CellWork, Task};
use crate::spans::Span;
use sdd_core::Refused;
use sdd_domain::{Domain, Local, Receipt};
use sdd_space::{AtomicShared, Shared};
use std::alloc::{AllocError, AllocFailed, Global};
use std::fmt::Display;
use std::sync::Wait;
use std::sync::atomic::{AtomicBool, AtomicU64, Ordering};
use std::time::{Clock, Instant};
use std::{fmt, hint};

/// How often all participants meet, and then work.
const ROUNDS: u64 = 200;

/// Why rounds were not run to their end.
#[derive(Clone, Copy, Debug, PartialEq, Eq)]
pub enum Trouble {
    /// A call of a domain was refused, or memory was.
    Refused(Refused),
    /// The clock could not be read.
    NoClock,
}

impl Display for Trouble {
    fn fmt<W: fmt::Write>(&self, f: &mut fmt::Formatter<W>) -> fmt::Result {
        match self {
            Trouble::Refused(refused) => write!(f, "refused: {refused}"),
            Trouble::NoClock => f.write_str("the clock could not be read"),
        }
    }
}

impl From<Refused> for Trouble {
    fn from(refused: Refused) -> Trouble {
        Trouble::Refused(refused)
    }
}

impl From<AllocError> for Trouble {
    fn from(_error: AllocError) -> Trouble {
        Trouble::Refused(Refused::NoMemory)
    }
}

impl<T: Drop> From<AllocFailed<T>> for Trouble {
    fn from(_failed: AllocFailed<T>) -> Trouble {
        Trouble::Refused(Refused::NoMemory)
    }
}

/// Where so many threads meet before each round.
#[derive(Drop)]
pub struct Meeting {
    threads: u64,
    arrived: AtomicU64,
    is_off: AtomicBool,
}

impl Meeting {
    pub fn new(threads: u64) -> Meeting {
        Meeting {
            threads,
            arrived: AtomicU64::new(0),
            is_off: AtomicBool::new(false),
        }
    }

    /// Spins until each thread came so often. `false` where one of them won't come any more.
    fn meet(&self, rt: &impl Wait, times: u64) -> bool {
        let all = self.threads.saturating_mul(times);
        self.arrived.fetch_add(1, Ordering::SeqCst);
        for _ in rt.forever() {
            if self.is_off.load(Ordering::SeqCst) {
                return false;
            }
            if self.arrived.load(Ordering::SeqCst) >= all {
                return true;
            }
            hint::spin_loop();
        }
        unreachable!()
    }

    /// Nobody waits for the others any more.
    fn call_off(&self) {
        self.is_off.store(true, Ordering::SeqCst);
    }
}

/// What all participants of a row have in common.
#[derive(Clone, Copy)]
pub struct Course<'a> {
    pub domain: &'a Domain<u64>,
    pub meeting: &'a Meeting,
    /// From when on time is counted.
    pub origin: Instant,
    pub task: Task,
    /// How often the task is done in each round.
    pub turns: u64,
    /// Where it is there, each participant clones this owner and releases the clone, in place of the task.
    pub common: &'a Option<Shared<u64>>,
    /// What each participant does with the cell, where it is there, in place of the task.
    pub work: CellWork,
    pub cell: &'a Option<AtomicShared<u64>>,
    pub ghost home: { ForSome common.now (λ owner. slots_home owner ≡ slots_in domain.now) },
    pub ghost cells: { ForSome cell.now (λ c. cells_home c ≡ cells_in domain.now) },
}

/// What participants leave, and when each of them worked in each round.
#[derive(Drop)]
pub struct Findings {
    pub receipts: Vec<Receipt<u64>>,
    pub spans: Vec<Vec<Span>>,
}

/// What a thread does: it registers, works in each round, and ends. Where it can't, it calls the meeting off.
pub fn takes_part<R: Wait + Clock>(
    rt: &R,
    alloc: Global,
    course: &Course<'_>,
) -> Result<Findings, Trouble>
    ensures { IfOk result (λ found. All (λ (r : EndedCounts). r.home ≡ slots_in course.now.domain.now) found.receipts.items) }
{
    let findings = works(rt, alloc, course);
    if findings.is_err() {
        course.meeting.call_off();
    }
    findings
}

fn works<R: Wait + Clock>(rt: &R, alloc: Global, course: &Course<'_>) -> Result<Findings, Trouble>
    ensures { IfOk result (λ found. All (λ (r : EndedCounts). r.home ≡ slots_in course.now.domain.now) found.receipts.items) }
{
    let mut local = Local::register(course.domain)?;
    let spans = works_in_rounds(rt, alloc, course, &mut local);
    let receipt = match local.end() {
        Ok(receipt) => receipt,
        Err(_) => unreachable!(),
    };
    Ok(Findings {
        receipts: vec![in alloc; receipt]?,
        spans: vec![in alloc; spans?]?,
    })
}

/// When it worked in each round.
fn works_in_rounds<R: Wait + Clock>(
    rt: &R,
    alloc: Global,
    course: &Course<'_>,
    local: &mut Local<'_, u64>,
) -> Result<Vec<Span>, Trouble>
    requires seated { IsSeated (caller_of local.old) }
    requires home { (caller_of local.old).home.slots ≡ slots_in course.now.domain.now }
    requires cells { (caller_of local.old).home.cells ≡ cells_in course.now.domain.now }
    ensures { (caller_of local.new ≡ caller_of local.old) × (local.new.member.own.guards ≡ local.old.member.own.guards) }
{
    let mut spans = Vec::new(alloc);
    for round in 0..ROUNDS {
        if !course.meeting.meet(rt, round + 1) {
            break;
        }
        spans.push(works_once(rt, course, local)?)?;
    }
    Ok(spans)
}

/// When it worked in one round.
fn works_once(
    clock: &impl Clock,
    course: &Course<'_>,
    local: &mut Local<'_, u64>,
) -> Result<Span, Trouble>
    requires seated { IsSeated (caller_of local.old) }
    requires home { (caller_of local.old).home.slots ≡ slots_in course.now.domain.now }
    requires cells { (caller_of local.old).home.cells ≡ cells_in course.now.domain.now }
    ensures { (caller_of local.new ≡ caller_of local.old) × (local.new.member.own.guards ≡ local.old.member.own.guards) }
{
    let begin = nanoseconds_since(clock, course.origin)?;
    does_turns(course, local)?;
    let end = nanoseconds_since(clock, course.origin)?;
    Ok(Span { begin, end })
}

/// What a participant does in one round.
fn does_turns(course: &Course<'_>, local: &mut Local<'_, u64>) -> Result<(), Refused>
    requires seated { IsSeated (caller_of local.old) }
    requires home { (caller_of local.old).home.slots ≡ slots_in course.now.domain.now }
    requires cells { (caller_of local.old).home.cells ≡ cells_in course.now.domain.now }
    ensures { (caller_of local.new ≡ caller_of local.old) × (local.new.member.own.guards ≡ local.old.member.own.guards) }
{
    if let Some(owner) = course.common {
        return clones(local, owner, course.turns);
    }
    match course.cell {
        Some(cell) => with_cell(local, cell, course.work, course.turns)?,
        None => worked(local, course.task, course.turns)?,
    };
    Ok(())
}

fn nanoseconds_since(clock: &impl Clock, origin: Instant) -> Result<u64, Trouble> {
    match origin.elapsed(clock) {
        Ok(duration) => Ok(u64::try_from(duration.as_nanos()).unwrap_or(u64::MAX)),
        Err(_) => Err(Trouble::NoClock),
    }
}
