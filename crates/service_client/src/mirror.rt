//! A mirror of the jobs and queues of a service.
ghost use Rattle.std.specs.Prelude.{◌≡◌, ◌==◌, ◌&&◌, if◌then◌else◌, [], List, ℕ, OnErr, OnOk, None, false, true, map};
ghost use Rattle.std.specs.Option.{option_map};
ghost use Rattle.service_client.specs.Mirrors.{is_whole, job_at, known, queue_at};
ghost use Rattle.service_client.specs.Notices.{job_after, jobs_after, known_after, known_after_all, queue_after, queues_after, said_of};
ghost use Rattle.service_client.specs.Notices.{job_gone as job_is_gone, job_is as job_has_row, listed as is_listed, queue_is as queue_has_row, refused as is_refused};

use crate::notices::{Notice, read_notice};
use crate::rows::{NamedRow, remove_row, row_named, set_row};
use std::alloc::{AllocError, Global};
use std::collections::BTreeMap;

/// The last row of each job and each queue of a service.
///
/// A client that keeps one sends `watch` over a connection of its own and reads the reply. Then, whenever [`Mirror::must_list`], it calls
/// [`Mirror::begin`] and sends `jobs` and `queues` over the same connection. It passes on every line that comes, also the last lines of
/// replies. The service sends rows and notices in the order of its changes, so each line is newer than the ones before it.
#[derive(Drop)]
pub struct Mirror {
    jobs: BTreeMap<u32, Vec<u8>>,
    queues: Vec<NamedRow>,
    // How many listings have not come.
    awaited: u8,
    // Whether all rows must be listed again.
    stale: bool,
}

// The listings of jobs and queues.
const LISTINGS: u8 = 2;

impl Mirror {
    /// A mirror that shows nothing and must be listed. Does not allocate.
    pub fn new(alloc: Global) -> Mirror
        ensures jobs { (job : ℕ) → job_at result job ≡ None }
        ensures queues { (queue : List ℕ) → queue_at result queue ≡ None }
        ensures known { known result ≡ record { awaited = 0; stale = true } }
    {
        Mirror {
            jobs: BTreeMap::new(alloc),
            queues: Vec::new(alloc),
            awaited: 0,
            stale: true,
        }
    }

    /// Returns whether it shows all jobs and queues.
    pub fn is_whole(&self) -> bool
        ensures { result ≡ is_whole self.now }
    {
        self.awaited == 0 && !self.stale
    }

    /// Returns whether `jobs` and `queues` must be sent now: rows are missing, and no listing is on its way.
    pub fn must_list(&self) -> bool
        ensures { result ≡ ((self.now.awaited == 0) && self.now.stale) }
    {
        self.awaited == 0 && self.stale
    }

    /// Forgets all rows. The caller sends `jobs` and `queues` now.
    pub fn begin(&mut self)
        ensures jobs { (job : ℕ) → job_at self.new job ≡ None }
        ensures queues { (queue : List ℕ) → queue_at self.new queue ≡ None }
        ensures known { known self.new ≡ record { awaited = 2; stale = false } }
    {
        self.jobs.clear();
        self.queues.clear();
        self.awaited = LISTINGS;
        self.stale = false;
    }

    /// Returns the row of a job, without its line feed.
    pub fn job(&self, job: u32) -> Option<&[u8]>
        ensures { option_map (λ row. row.now) result ≡ job_at self.now job }
    {
        match self.jobs.get(&job) {
            Some(row) => Some(row.as_slice()),
            None => None,
        }
    }

    /// Returns the row of a queue, without its line feed.
    pub fn queue(&self, name: &[u8]) -> Option<&[u8]>
        ensures { option_map (λ row. row.now) result ≡ queue_at self.now name.now }
    {
        row_named(&self.queues, name)
    }

    /// Returns the rows of the jobs, in the order of their numbers.
    pub fn jobs(&self) -> &BTreeMap<u32, Vec<u8>>
        ensures { result.now ≡ self.now.jobs }
    {
        &self.jobs
    }

    /// Returns the rows of the queues.
    pub fn queues(&self) -> &[NamedRow]
        ensures { result.now ≡ self.now.queues.items }
    {
        &self.queues
    }

    /// Takes the next line of the service. After an error all rows must be listed again.
    pub fn tell(&mut self, line: &[u8]) -> Result<(), AllocError>
        ensures jobs { OnOk result ((job : ℕ) → job_at self.new job ≡ job_after (said_of line.now) line.now job (job_at self.old job)) }
        ensures queues { OnOk result ((queue : List ℕ) → queue_at self.new queue ≡ queue_after (said_of line.now) line.now queue (queue_at self.old queue)) }
        ensures known { OnOk result (known self.new ≡ known_after (said_of line.now) (known self.old)) }
        ensures err { OnErr result (self.new.stale ≡ true) }
    {
        match read_notice(line) {
            Notice::JobIs(job) => self.set_job(job, line)?,
            Notice::QueueIs(name) => self.set_queue(name, line)?,
            Notice::JobGone(job) => self.remove_job(job),
            Notice::QueueGone(name) => remove_row(&mut self.queues, name),
            Notice::LeftOut => self.stale = true,
            Notice::Listed => self.end_listing(false),
            Notice::Refused => self.end_listing(true),
            Notice::Changed(_) | Notice::Other => {}
        }
        Ok(())
    }

    // Notes that a listing has come, or was refused.
    fn end_listing(&mut self, refused: bool)
        ensures known { known self.new ≡ known_after (if refused then is_refused else is_listed) (known self.old) }
        ensures kept { self.new ≡ record self.old { awaited = self.new.awaited; stale = self.new.stale } }
    {
        self.awaited = self.awaited.saturating_sub(1);
        self.stale = self.stale || refused;
    }

    fn set_job(&mut self, job: u32, line: &[u8]) -> Result<(), AllocError>
        ensures jobs { OnOk result ((other : ℕ) → job_at self.new other ≡ job_after (job_has_row job) line.now other (job_at self.old other)) }
        ensures kept { OnOk result (self.new ≡ record self.old { jobs = self.new.jobs }) }
        ensures err { OnErr result (self.new.stale ≡ true) }
    {
        let stale = self.stale;
        self.stale = true;
        let row = Vec::from_slice(*self.queues.allocator(), line)?;
        drop(self.jobs.insert(job, row)?);
        self.stale = stale;
        Ok(())
    }

    fn remove_job(&mut self, job: u32)
        ensures jobs { (other : ℕ) → job_at self.new other ≡ job_after (job_is_gone job) [] other (job_at self.old other) }
        ensures kept { self.new ≡ record self.old { jobs = self.new.jobs } }
    {
        drop(self.jobs.remove(&job));
    }

    fn set_queue(&mut self, name: &[u8], line: &[u8]) -> Result<(), AllocError>
        ensures queues { OnOk result ((other : List ℕ) → queue_at self.new other ≡ queue_after (queue_has_row name.now) line.now other (queue_at self.old other)) }
        ensures kept { OnOk result (self.new ≡ record self.old { queues = self.new.queues }) }
        ensures err { OnErr result (self.new.stale ≡ true) }
    {
        let stale = self.stale;
        self.stale = true;
        set_row(&mut self.queues, name, line)?;
        self.stale = stale;
        Ok(())
    }

    /// Takes these lines in order: the rows are their fold. After an error all rows must be listed again.
    pub fn tell_all(&mut self, lines: &[Vec<u8>]) -> Result<(), AllocError>
        ensures jobs { OnOk result ((job : ℕ) → job_at self.new job ≡ jobs_after (map (λ line. line.items) lines.now) job (job_at self.old job)) }
        ensures queues { OnOk result ((queue : List ℕ) → queue_at self.new queue ≡ queues_after (map (λ line. line.items) lines.now) queue (queue_at self.old queue)) }
        ensures known { OnOk result (known self.new ≡ known_after_all (map (λ line. line.items) lines.now) (known self.old)) }
        ensures err { OnErr result (self.new.stale ≡ true) }
    {
        for line in lines {
            self.tell(line.as_slice())?;
        }
        Ok(())
    }
}
