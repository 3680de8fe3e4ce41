//! Listings of jobs, page by page.
ghost use Rattle.std.specs.Prelude.{◌≡◌, string_bytes, IfOk};
ghost use Rattle.std.specs.Option.{option_map};
ghost use Rattle.ipp_tasks.specs.Requests.{list_line};

use crate::job_changes::may_be_changed;
use crate::tasks::{Outcome, ShownJobs, Task, Work, done};
use crate::world::World;
use front_texts::JobShown;
use ipp_access::Place;
use ipp_answers::{JobFacts, JobQuery, WhichJobs, select_jobs};
use ipp_facts::{job_facts, jobs_shown_in};
use ipp_names::Status;
use ipp_printing::job_line;
use ipp_values::Group;
use line_words::decimal;
use std::alloc::{AllocError, Global};
use std::io::Write;

// The greatest number of a job.
const MOST_NUMBER: u64 = 2_147_483_647;

/// The listing of Get-Jobs, and of the requests that cancel several jobs.
#[derive(Drop)]
pub struct Listing {
    pub queue: Option<String>,
    pub which: WhichJobs,
    pub user: Option<String>,
    pub first_id: Option<u32>,
    pub first_index: Option<u32>,
    pub limit: Option<u32>,
    /// The numbers of the jobs, in ascending order. If there is none, all jobs are meant.
    pub ids: Vec<u32>,
    /// The place of a client that changes the jobs: those that it may not change are left out.
    pub changer: Option<Place>,
    pub facts: Vec<JobFacts>,
}

impl Listing {
    // Adds the jobs of a page, and returns the command for the next one, if there is one.
    fn add(
        &mut self,
        alloc: Global,
        user: &str,
        rows: &[Vec<u8>],
        last: &str,
    ) -> Result<Option<Vec<u8>>, AllocError> {
        for job in jobs_shown_in(alloc, rows)? {
            self.add_job(alloc, user, job)?;
        }
        match last.split_once(" more ") {
            Some((_, next)) => Ok(Some(list_line(alloc, &self.queue, number_in(next))?)),
            None => Ok(None),
        }
    }

    fn add_job(&mut self, alloc: Global, user: &str, job: JobShown) -> Result<(), AllocError> {
        if !self.is_asked(alloc, user, &job)? {
            return Ok(());
        }
        if let Some(facts) = job_facts(alloc, job)? {
            self.facts.push(facts)?;
        }
        Ok(())
    }

    // Returns whether a job is among those that are asked for, and may be changed if the request changes it.
    fn is_asked(&self, alloc: Global, user: &str, job: &JobShown) -> Result<bool, AllocError> {
        let number = job.asked.number.get();
        if !self.ids.is_empty() && self.ids.as_slice().binary_search(&number).is_err() {
            return Ok(false);
        }
        match self.changer {
            Some(place) => may_be_changed(alloc, place, user, job),
            None => Ok(true),
        }
    }

    // Returns the jobs that are asked for. Jobs that have ended come with the newest first.
    fn selected(&self, alloc: Global) -> Result<Vec<&JobFacts>, AllocError> {
        let mut all = Vec::new(alloc);
        for job in &self.facts {
            all.push(job)?;
        }
        if matches!(
            self.which,
            WhichJobs::Completed | WhichJobs::Aborted | WhichJobs::Canceled
        ) {
            all.reverse();
        }
        let query = JobQuery {
            queue: text_of(&self.queue),
            which: self.which,
            user: text_of(&self.user),
            first_id: self.first_id,
            first_index: self.first_index,
            limit: self.limit,
        };
        select_jobs(alloc, query, all.as_slice())
    }
}

impl ShownJobs {
    // Returns the attributes of the jobs that are asked for.
    fn groups(&self, alloc: Global, world: &World, host: &str) -> Result<Vec<Group>, AllocError> {
        let server = world.server(host);
        let mut groups = Vec::new(alloc);
        for job in self.listing.selected(alloc)? {
            groups.push(self.selection.group(alloc, &server, job)?)?;
        }
        Ok(groups)
    }
}

impl Task {
    /// Takes a page of the listing of Get-Jobs.
    pub(crate) fn heard_jobs(
        &mut self,
        alloc: Global,
        world: &World,
        rows: &[Vec<u8>],
        last: &str,
    ) -> Result<Outcome, AllocError> {
        let Work::Jobs(jobs) = &mut self.work else {
            return Ok(Outcome::Going);
        };
        if let Some(command) = jobs.listing.add(alloc, self.user.as_str(), rows, last)? {
            return self.going(command);
        }
        let groups = jobs.groups(alloc, world, self.host.as_str())?;
        Ok(Outcome::Done(Status::SuccessfulOk, groups))
    }

    /// Takes a page of the listing of the jobs to cancel, or the reply to `stop`.
    pub(crate) fn heard_canceled(
        &mut self,
        alloc: Global,
        rows: &[Vec<u8>],
        last: &str,
    ) -> Result<Outcome, AllocError> {
        let Work::CancelJobs(listing, stops) = &mut self.work else {
            return Ok(Outcome::Going);
        };
        if stops.is_listed {
            return self.stop_next(alloc);
        }
        if let Some(command) = listing.add(alloc, self.user.as_str(), rows, last)? {
            return self.going(command);
        }
        for job in &listing.selected(alloc)? {
            stops.jobs.push(job.id.get())?;
        }
        stops.is_listed = true;
        self.stop_next(alloc)
    }

    /// Stops the next job.
    pub(crate) fn stop_next(&mut self, alloc: Global) -> Result<Outcome, AllocError> {
        let Work::CancelJobs(_, stops) = &mut self.work else {
            return Ok(Outcome::Going);
        };
        let Some(job) = stops.jobs.get(stops.at) else {
            return Ok(done(alloc, Status::SuccessfulOk));
        };
        let command = job_line(alloc, "stop", *job)?;
        stops.at = stops.at.saturating_add(1);
        self.going(command)
    }
}

/// Returns the command for the jobs of a queue, or of all, from a number on.
pub fn list_line(alloc: Global, queue: &Option<String>, from: u32) -> Result<Vec<u8>, AllocError>
    ensures { IfOk result (λ line. line.items ≡ list_line (option_map string_bytes queue.now) from) }
{
    let mut line = Vec::from_slice(alloc, b"list")?;
    if let Some(queue) = queue {
        line.extend_from_slice(b" queue ")?;
        line.extend_from_slice(queue.as_str().as_bytes())?;
    }
    write!(line, " from {from} most 100\n").map_err(|_| AllocError)?;
    Ok(line)
}

fn number_in(word: &str) -> u32 {
    match decimal(word.as_bytes(), MOST_NUMBER) {
        Some(number) => number as u32,
        None => 0,
    }
}

fn text_of(text: &Option<String>) -> Option<&str> {
    match text {
        Some(text) => Some(text.as_str()),
        None => None,
    }
}
