//! What the tests of participants share that defer jobs: their beginning and end, and a job whose runs can be counted.
ghost use Rattle.std.specs.Prelude.{◌≡◌};
ghost use Rattle.sdd_space.specs.CallerId.{IsSeated};
ghost use Rattle.sdd_domain.specs.Space.{caller_of, slots_home};
ghost use Rattle.sdd_domain.specs.Domain.{slots_in};
ghost use Rattle.sdd_domain_tests.specs.Slots.{IsReceiptIn, AreReceiptsIn};

use sdd_core::Refused;
use sdd_domain::{Domain, Local, Receipt};
use sdd_participants::{BoxedJob, Deferred, Job, Tally};
use sdd_space::Item;
use std::alloc::Global;
use std::process::Abort;
use std::sync::Arc;
use std::sync::atomic::{AtomicU64, Ordering};

/// A number that jobs add to.
pub type Total = Arc<AtomicU64, Global>;

/// Adds to a number that others look at.
#[derive(Drop)]
pub struct Adds {
    total: Total,
    amount: u64,
}

impl Adds {
    /// What it adds.
    pub fn amount(&self) -> u64 {
        self.amount
    }
}

impl Job for Adds {
    fn run(self) {
        self.total.fetch_add(self.amount, Ordering::SeqCst);
    }
}

impl BoxedJob for Adds {
    fn run_boxed(&mut self) {
        self.total.fetch_add(self.amount, Ordering::SeqCst);
    }
}

pub fn number(rt: &(impl Abort + AllocGlobal)) -> Total {
    Arc::new(rt.alloc(), AtomicU64::new(0)).expect(rt, "memory is there")
}

/// A job that adds this.
pub fn adding(rt: &impl Abort, total: &Total, amount: u64) -> Adds {
    Adds {
        total: Arc::try_clone(total).expect(rt, "the count has room"),
        amount,
    }
}

/// The same in a box.
pub fn job_adding(rt: &(impl Abort + AllocGlobal), total: &Total, amount: u64) -> Deferred {
    let adds = adding(rt, total, amount);
    let job: Box<dyn BoxedJob + Send> = Box::new(rt.alloc(), adds).expect(rt, "memory is there");
    Deferred::Boxed(job)
}

/// What jobs added so far.
pub fn is_total(rt: &impl Abort, total: &Total, sum: u64) {
    assert_eq!(rt; total.load(Ordering::SeqCst), sum);
}

pub fn registered<'d, T: Item<T>, J: Job>(rt: &impl Abort, domain: &'d Domain<T>) -> Local<'d, T, J>
    ensures seated { IsSeated (caller_of result) }
    ensures home { slots_home result ≡ slots_in domain.now }
{
    Local::register_with_jobs(domain).expect(rt, "a place is free")
}

pub fn ended<T: Item<T>, J: Job>(rt: &impl Abort, local: Local<'_, T, J>) -> Receipt<T, J>
    ensures { IsReceiptIn (slots_home local.entry) result }
{
    match local.end() {
        Ok(receipt) => receipt,
        Err(_local) => panic!(rt; "a guard is open"),
    }
}

pub fn closed<T: Item<T>, J: Job>(
    rt: &impl Abort,
    domain: Domain<T>,
    receipts: Vec<Receipt<T, J>>,
) -> Tally
    requires { AreReceiptsIn (slots_in domain) receipts.items }
{
    match domain.close(receipts) {
        Ok(tally) => tally,
        Err((_domain, _receipts, refused)) => panic!(rt; "refused: {refused:?}"),
    }
}

/// The same domain comes back, and receipts of it, since something is out.
pub fn not_closed<T: Item<T>, J: Job>(
    rt: &impl Abort,
    domain: Domain<T>,
    receipts: Vec<Receipt<T, J>>,
) -> (Domain<T>, Vec<Receipt<T, J>>)
    requires { AreReceiptsIn (slots_in domain) receipts.items }
    ensures home { slots_in result.0 ≡ slots_in domain }
    ensures receipts { AreReceiptsIn (slots_in result.0) result.1.items }
{
    match domain.close(receipts) {
        Ok(_tally) => panic!(rt; "something is out"),
        Err((domain, receipts, refused)) => {
            assert!(rt; refused == Refused::OwnerOut);
            (domain, receipts)
        }
    }
}

/// One receipt more of the domain.
pub fn keep<T: Item<T>, J: Job>(
    rt: &impl Abort,
    domain: &Domain<T>,
    receipts: &mut Vec<Receipt<T, J>>,
    receipt: Receipt<T, J>,
)
    requires all { AreReceiptsIn (slots_in domain.now) receipts.old.items }
    requires one { IsReceiptIn (slots_in domain.now) receipt }
    ensures { AreReceiptsIn (slots_in domain.now) receipts.new.items }
{
    let _ = domain;
    receipts.push(receipt).expect(rt, "there is memory");
}

/// The receipts of both, of the same domain.
pub fn keep_all<T: Item<T>, J: Job>(
    rt: &impl Abort,
    domain: &Domain<T>,
    receipts: &mut Vec<Receipt<T, J>>,
    mut others: Vec<Receipt<T, J>>,
)
    requires all { AreReceiptsIn (slots_in domain.now) receipts.old.items }
    requires others { AreReceiptsIn (slots_in domain.now) others.items }
    ensures { AreReceiptsIn (slots_in domain.now) receipts.new.items }
{
    let _ = domain;
    receipts.append(&mut others).expect(rt, "there is memory");
    others.destroy_empty();
}
