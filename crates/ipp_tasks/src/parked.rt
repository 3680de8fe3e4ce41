//! The jobs that wait for their next request.
ghost use Rattle.std.specs.Prelude.{◌≡◌, ◌≤◌, IfOk, IfSome, None, Some, is_some, true};
ghost use Rattle.std.specs.Option.{option_copied};
ghost use Rattle.ipp_tasks.specs.ParkedJobs.{KeepsOthers, count_of, is_late, job_with, most_parked};

use crate::world::TIME_OUT;
use ipp_printing::PrintingJob;
use std::alloc::{AllocError, Global};
use std::collections::BTreeMap;

/// The most jobs that wait for their next request.
pub const MOST_PARKED: usize = 1_024;

/// The jobs that wait for their next request, by their numbers.
#[derive(Drop)]
pub struct Parked {
    jobs: BTreeMap<u32, PrintingJob>,
}

impl Parked {
    /// No jobs.
    pub fn new(alloc: Global) -> Parked
        ensures { count_of result ≡ 0 }
    {
        Parked {
            jobs: BTreeMap::new(alloc),
        }
    }

    /// Returns the job with this number.
    pub fn get(&self, number: u32) -> Option<&PrintingJob>
        ensures { option_copied result ≡ job_with self.now number }
    {
        self.jobs.get(&number)
    }

    /// Adds a job. If there are more than [`MOST_PARKED`] then, the one with the lowest number leaves, and is returned.
    ///
    /// # Errors
    ///
    /// Out of memory: the job is gone.
    pub fn put(&mut self, number: u32, job: PrintingJob) -> Result<Option<PrintingJob>, AllocError>
        ensures bounded { count_of self.old ≤ most_parked → count_of self.new ≤ most_parked }
        ensures added { IfOk result (λ first. first ≡ None → job_with self.new number ≡ Some job) }
        ensures others { IfOk result (λ first. first ≡ None → KeepsOthers number self.old self.new) }
        ensures full { IfOk result (λ first. is_some first ≡ true → most_parked ≤ count_of self.new) }
    {
        drop(self.jobs.insert(number, job)?);
        if self.jobs.len() <= MOST_PARKED {
            return Ok(None);
        }
        match self.jobs.pop_first() {
            Some((_, first)) => Ok(Some(first)),
            None => Ok(None),
        }
    }

    /// Removes and returns the job with this number.
    pub fn take(&mut self, number: u32) -> Option<PrintingJob>
        ensures value { result ≡ job_with self.old number }
        ensures others { KeepsOthers number self.old self.new }
        ensures fewer { count_of self.new ≤ count_of self.old }
    {
        self.jobs.remove(&number)
    }

    /// Removes and returns a job that no client has used for more than [`TIME_OUT`] seconds. It walks all jobs.
    pub fn take_late(&mut self, seconds: u64) -> Option<PrintingJob>
        ensures late { IfSome result (λ job. is_late seconds job ≡ true) }
        ensures fewer { count_of self.new ≤ count_of self.old }
    {
        match self.late(seconds) {
            Some(number) => self.take(number),
            None => None,
        }
    }

    // Returns the number of such a job.
    fn late(&self, seconds: u64) -> Option<u32>
        ensures { IfSome result (λ number. IfSome (job_with self.now number) (λ job. is_late seconds job ≡ true)) }
    {
        for (number, job) in &self.jobs {
            if seconds > job.used().saturating_add(TIME_OUT) {
                return Some(*number);
            }
        }
        None
    }
}
