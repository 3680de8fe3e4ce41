//! Jobs whose client was lost. They are canceled, one after the other.
ghost use Rattle.std.specs.Prelude.{◌≡◌, ◌≢◌, ◌||◌, [], ◌∷◌, ◌++◌, cond, drop, true, OnOk};
ghost use Rattle.std.specs.Option.{option_map};
ghost use Rattle.ipp_submission.specs.JobParts.{given_up};
ghost use Rattle.ipp_printing.specs.PrintingJobs.{submission_of};
ghost use Rattle.ipp_loop.specs.SharedStates.{KeepsLost, starts_ended, submissions, unsent_of};

use ipp_printing::PrintingJob;
use service_client::Reply;
use std::alloc::{AllocError, Global};
use std::collections::VecDeque;

/// Jobs without a client.
#[derive(Drop)]
pub struct LostJobs {
    jobs: VecDeque<PrintingJob>,
    // The command of the first one.
    command: Option<Vec<u8>>,
    is_sent: bool,
    // The number of the first one.
    serial: u64,
}

impl LostJobs {
    pub fn new(alloc: Global) -> LostJobs
        ensures { result.jobs.items ≡ [] }
    {
        LostJobs {
            jobs: VecDeque::new(alloc),
            command: None,
            is_sent: false,
            serial: 0,
        }
    }

    /// Adds a job, which its client gives up.
    #[tactic(auto, using(crate::proofs::Losses::map_snoc))]
    pub fn push(&mut self, job: PrintingJob) -> Result<(), AllocError>
        ensures { OnOk result (submissions self.new ≡ submissions self.old ++ given_up (submission_of job) ∷ []) }
    {
        let mut job = job;
        job.give_up();
        self.jobs.push_back(job)?;
        Ok(())
    }

    /// Removes the first job if nothing more happens to it, or if the service is away. The service itself cancels the incoming jobs of a lost
    /// connection.
    pub fn forget_ended(&mut self, is_away: bool)
        ensures { submissions self.new ≡ cond (is_away || starts_ended (submissions self.old)) (drop 1 (submissions self.old)) (submissions self.old) }
    {
        let over = match self.jobs.front() {
            Some(job) => is_away || job.is_over(),
            None => false,
        };
        if over {
            drop(self.jobs.pop_front());
            self.command = None;
            self.is_sent = false;
            self.serial = self.serial.wrapping_add(1);
        }
    }

    /// Makes the command of the first job.
    pub fn prepare(&mut self, alloc: Global) -> Result<(), AllocError>
        ensures { submissions self.new ≡ submissions self.old }
    {
        if self.command.is_none() {
            if let Some(job) = self.jobs.front() {
                self.command = job.command(alloc)?;
            }
        }
        Ok(())
    }

    /// Returns the command of the first job, if it is not sent yet.
    pub fn unsent(&self) -> Option<&[u8]>
        ensures { option_map (λ command. command.now) result ≡ unsent_of self.now }
    {
        if self.is_sent {
            return None;
        }
        match &self.command {
            Some(command) => Some(command.as_slice()),
            None => None,
        }
    }

    /// Returns the number of the first job.
    pub fn serial(&self) -> u64
        ensures { result ≡ self.now.serial }
    {
        self.serial
    }

    /// Notes that the command is sent.
    pub fn note_sent(&mut self)
        ensures { self.new ≡ record self.old { is_sent = true } }
    {
        self.is_sent = true;
    }

    /// Takes the reply to the command of this job.
    pub fn heard(&mut self, alloc: Global, serial: u64, reply: &Reply) -> Result<(), AllocError>
        // A reply to a job that is gone changes nothing.
        ensures gone { serial ≢ self.old.serial → self.new ≡ self.old }
        ensures kept { KeepsLost self.old self.new }
    {
        if serial != self.serial {
            return Ok(());
        }
        self.command = None;
        self.is_sent = false;
        match self.jobs.front_mut() {
            Some(job) => job.heard(alloc, reply),
            None => Ok(()),
        }
    }

    /// Notes that the connection was lost before the reply.
    pub fn lost(&mut self, serial: u64)
        ensures gone { serial ≢ self.old.serial → self.new ≡ self.old }
        ensures kept { KeepsLost self.old self.new }
    {
        if serial != self.serial {
            return;
        }
        self.command = None;
        self.is_sent = false;
        if let Some(job) = self.jobs.front_mut() {
            job.lost();
        }
    }
}
