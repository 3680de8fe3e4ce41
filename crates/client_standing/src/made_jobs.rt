//! The jobs that a client created over its connection.
ghost use Rattle.std.specs.Prelude.{◌≡◌, [], OnOk, OnErr};
ghost use Rattle.client_standing.specs.ClientStanding.{has_made, with_made};

use spool_types::JobId;
use std::alloc::{AllocError, Global};
use std::marker::Model;

// How many jobs are kept.
const MOST_MADE: usize = 64;

/// The numbers of the newest jobs that a client created, at most 64, the oldest first.
#[derive(Drop)]
pub struct MadeJobs {
    jobs: Vec<JobId>,
}

impl Model for MadeJobs {
    ghost use Rattle.std.specs.Prelude.{List, ℕ};

    ghost Value = { List ℕ };

    ghost view = { λ a. a.jobs.items };
}

impl MadeJobs {
    /// No job. Does not allocate.
    pub fn new(alloc: Global) -> MadeJobs
        ensures { result ≡ [] }
    {
        MadeJobs {
            jobs: Vec::new(alloc),
        }
    }

    /// The numbers, the oldest first.
    pub fn as_slice(&self) -> &[JobId]
        ensures { result.now ≡ self.now }
    {
        &self.jobs
    }

    /// Whether the client created this job.
    pub fn has(&self, job: JobId) -> bool
        ensures { result ≡ has_made self.now job }
    {
        self.jobs.iter().any(|other| *other == job)
    }

    /// Notes a job that the client created. If 64 are noted, the oldest is forgotten.
    pub fn note(&mut self, job: JobId) -> Result<(), AllocError>
        ensures ok { OnOk result (self.new ≡ with_made self.old job) }
        ensures err { OnErr result (self.new ≡ self.old) }
    {
        self.jobs.reserve(1)?;
        if MOST_MADE <= self.jobs.len() {
            self.jobs.remove(0);
        }
        self.jobs.push_reserved(job);
        Ok(())
    }
}
