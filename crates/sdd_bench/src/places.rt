//! A domain all of whose places are taken, and its close.
ghost use Rattle.std.specs.Prelude.{◌≡◌, All};
ghost use Rattle.sdd_domain.specs.Domain.{slots_in};
ghost use Rattle.sdd_domain.specs.Receipt.{Receipt as EndedCounts};

use crate::local::keep;
use sdd_core::{Limits, Refused};
use sdd_domain::{Domain, Local, Receipt};
use sdd_participants::Tally;
use std::alloc::Global;

/// Makes and closes a domain that often, all of whose places were taken. The last tally, and how many participants registered.
pub fn run(alloc: Global, limits: Limits, turns: u64) -> Result<(Tally, u64), Refused> {
    let mut tally = Tally::new();
    let mut registered = 0u64;
    for _turn in 0..turns {
        tally = once(alloc, limits)?;
        registered = registered.wrapping_add(limits.participants);
    }
    Ok((tally, registered))
}

fn once(alloc: Global, limits: Limits) -> Result<Tally, Refused> {
    let domain: Domain<u64> = Domain::new(alloc, limits)?;
    let mut receipts = Vec::new(alloc);
    let done = register_all(&domain, &mut receipts, limits.participants);
    match domain.close(receipts) {
        Ok(tally) => {
            done?;
            Ok(tally)
        }
        Err((domain, _receipts, refused)) => {
            domain.leak();
            Err(refused)
        }
    }
}

/// So many participants register, and end once all have.
fn register_all(
    domain: &Domain<u64>,
    receipts: &mut Vec<Receipt<u64>>,
    participants: u64,
) -> Result<(), Refused>
    requires { All (λ (r : EndedCounts). r.home ≡ slots_in domain.now) receipts.old.items }
    ensures { All (λ (r : EndedCounts). r.home ≡ slots_in domain.now) receipts.new.items }
{
    if participants == 0 {
        return Ok(());
    }
    let local = Local::register(domain)?;
    let done = register_all(domain, receipts, participants - 1);
    match local.end() {
        Ok(receipt) => keep(domain, receipts, receipt)?,
        Err(_) => unreachable!(),
    }
    done
}
