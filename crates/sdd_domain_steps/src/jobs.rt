//! Places of jobs: how a free one is found, and the jobs that a participant deferred.

pub mod claims;
pub mod deferred_jobs;
