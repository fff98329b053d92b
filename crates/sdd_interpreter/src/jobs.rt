//! Names of jobs: the places of the table of jobs that they have.
ghost use Rattle.std.specs.Prelude.{◌≡◌, ◌<◌, All, IfOk, length, map};
ghost use Rattle.sdd_script_model.specs.Held.{places_among};
ghost use Rattle.sdd_script_model.specs.Shown.{job_in};

use sdd_participants::LimboEntry;
use sdd_script_text::JobName;
use std::alloc::{AllocError, Global};

/// The places of the jobs among what waits.
pub(crate) fn places_among(alloc: Global, waiting: &[LimboEntry]) -> Result<Vec<u32>, AllocError>
    ensures { IfOk result (λ found. found.items ≡ places_among waiting.now) }
{
    let mut found = Vec::with_capacity(alloc, waiting.len())?;
    for what in waiting {
        match what {
            LimboEntry::Item(_) => {}
            LimboEntry::Job(place) => found.push_reserved(*place),
        }
    }
    Ok(found)
}

/// The names of the jobs that these places of the table of jobs had last.
pub(crate) fn jobs_of(
    alloc: Global,
    places: &[u32],
    deferred: &[u64],
) -> Result<Vec<JobName>, AllocError>
    requires inside { All (λ place. place < length deferred.now) places.now }
    ensures { IfOk result (λ found. found.items ≡ map (job_in deferred.now) places.now) }
{
    let mut found = Vec::with_capacity(alloc, places.len())?;
    for place in places {
        found.push_reserved(JobName(deferred[*place as usize]));
    }
    Ok(found)
}
