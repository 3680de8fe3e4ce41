//! Jobs by token, and incoming jobs whose clients have disconnected.
ghost use Rattle.std.specs.Prelude.{◌≡◌, ℕ, List, None, Some, IfOk, IfSome, OnOk};
ghost use Rattle.std.specs.FinMap as finite;
ghost use Rattle.std.specs.Option.{option_map};
ghost use Rattle.spool_types.specs.State.{job_at};
ghost use Rattle.service_texts.specs.LeftJobs.{all_left, still_incoming};
ghost use Rattle.service_texts.specs.SubmissionTokens.{HasPlace, HasSame, all_noted_for, entry_for};
ghost use Rattle.service_loop.specs.KnownJobs.{HasRoom, all_noted, created_for, created_token, event_sent_to, event_token, expected_token, job_sent_to, left_after, purged_for, purged_token, settled_for};

use command_lines::{Answer, Command};
use job_table::Table;
use service_texts::{LeftJobs, TokenText, Tokens, token_of};
use spool_types::{Event, JobId, OptionText};
use std::alloc::{AllocError, Global};

/// The jobs by token, and the incoming jobs whose clients have disconnected.
#[derive(Drop)]
pub(crate) struct KnownJobs {
    alloc: Global,
    pub tokens: Tokens,
    pub left: LeftJobs,
    /// The moment of the turn, in milliseconds.
    pub now: u64,
}

/// The token of the job that a command creates or purges, and the number of a job that it purges.
#[derive(Drop)]
pub(crate) struct ExpectedToken {
    token: TokenText,
    purged: Option<JobId>,
}

impl KnownJobs {
    /// The jobs of a table. Its incoming jobs were left at this moment, in milliseconds: a service that starts has no clients.
    pub fn of_table(alloc: Global, table: &Table, since: u64) -> Result<KnownJobs, AllocError>
        ensures tokens { IfOk result (λ known. (token : List ℕ) → entry_for known.tokens token ≡ all_noted_for token None (finite.values table.now.state.jobs)) }
        ensures left { IfOk result (λ known. known.left ≡ all_left since (finite.values table.now.state.jobs)) }
    {
        Ok(KnownJobs {
            alloc,
            tokens: Tokens::of_table(alloc, table)?,
            left: LeftJobs::of_table(alloc, table, since)?,
            now: since,
        })
    }

    /// Notes that the client that created these jobs has disconnected. If memory runs out, some of them are not noted.
    pub fn leave(&mut self, table: &Table, jobs: &[JobId]) -> Result<(), AllocError>
        ensures noted { OnOk result (still_incoming table.now.state self.new.left ≡ all_noted table.now.state self.old.now (still_incoming table.now.state self.old.left) jobs.now) }
        ensures kept { self.new ≡ record self.old { left = self.new.left } }
    {
        for job in jobs {
            self.left.note(table, *job, self.now)?;
        }
        Ok(())
    }

    /// Notes that bytes of a job were sent, if the answer to a send reports it.
    pub fn note_sent(&mut self, job: Option<JobId>, answer: &Answer)
        ensures { self.new ≡ record self.old { left = left_after self.old.now job answer.now self.old.left } }
    {
        if let (Some(job), Answer::Sent(_)) = (job, answer) {
            self.left.touch(job, self.now);
        }
    }

    /// Makes a place for the token of a job that a command creates. Returns this token, or that of a job that the command purges. Nothing is
    /// noted yet: the command may be refused.
    pub fn expect(
        &mut self,
        table: &Table,
        command: &Command,
    ) -> Result<Option<ExpectedToken>, AllocError>
        ensures token { IfOk result (λ expected. option_map (λ e. (e.token, e.purged)) expected ≡ expected_token table.now.state command.now) }
        ensures place { IfOk result (λ expected. IfSome expected (λ e. HasRoom self.new.tokens e.token e.purged)) }
        ensures same { HasSame self.old.tokens self.new.tokens }
        ensures kept { self.new ≡ record self.old { tokens = self.new.tokens } }
    {
        match command {
            Command::Create(creation) => self.expect_created(&creation.options),
            Command::Apply(event) => self.expect_by(table, event),
            _ => Ok(None),
        }
    }

    fn expect_by(&self, table: &Table, event: &Event) -> Result<Option<ExpectedToken>, AllocError>
        ensures token { IfOk result (λ expected. option_map (λ e. (e.token, e.purged)) expected ≡ event_token table.now.state event.now) }
        ensures place { IfOk result (λ expected. IfSome expected (λ e. HasRoom self.entry.now.tokens e.token e.purged)) }
    {
        match event {
            Event::Purge(job) => self.expect_purged(table, *job),
            _ => Ok(None),
        }
    }

    fn expect_created(&mut self, options: &OptionText) -> Result<Option<ExpectedToken>, AllocError>
        ensures token { IfOk result (λ expected. option_map (λ e. (e.token, e.purged)) expected ≡ created_token options.now) }
        ensures place { IfOk result (λ expected. IfSome expected (λ e. HasRoom self.new.tokens e.token e.purged)) }
        ensures same { HasSame self.old.tokens self.new.tokens }
        ensures kept { self.new ≡ record self.old { tokens = self.new.tokens } }
    {
        let Some(token) = token_of(self.alloc, options)? else {
            return Ok(None);
        };
        self.tokens.prepare(token.clone()?)?;
        Ok(Some(ExpectedToken {
            token,
            purged: None,
        }))
    }

    fn expect_purged(&self, table: &Table, job: JobId) -> Result<Option<ExpectedToken>, AllocError>
        ensures token { IfOk result (λ expected. option_map (λ e. (e.token, e.purged)) expected ≡ purged_token job (job_at table.now.state job)) }
        ensures place { IfOk result (λ expected. IfSome expected (λ e. HasRoom self.entry.now.tokens e.token e.purged)) }
    {
        let Some(row) = table.job(job) else {
            return Ok(None);
        };
        let Some(token) = token_of(self.alloc, &row.job.options)? else {
            return Ok(None);
        };
        Ok(Some(ExpectedToken {
            token,
            purged: Some(job),
        }))
    }

    /// Notes a job that was created, or forgets one that was purged, by the answer to the command and the table after it. Does not allocate.
    pub fn settle(&mut self, expected: &ExpectedToken, answer: &Answer, table: &Table)
        ensures entries { HasRoom self.old.tokens expected.now.token expected.now.purged → (token : List ℕ) →
            entry_for self.new.tokens token ≡ settled_for table.now.state answer.now token expected.now.token expected.now.purged (entry_for self.old.tokens token) }
        ensures kept { self.new ≡ record self.old { tokens = self.new.tokens } }
    {
        match expected.purged {
            Some(job) => self.settle_purged(&expected.token, job, table),
            None => self.settle_created(&expected.token, answer),
        }
    }

    // The same for a job to be created. If it was not, the place of its token is removed.
    fn settle_created(&mut self, token: &TokenText, answer: &Answer)
        ensures entries { HasPlace self.old.tokens token.now → (other : List ℕ) → entry_for self.new.tokens other ≡ created_for answer.now other token.now (entry_for self.old.tokens other) }
        ensures kept { self.new ≡ record self.old { tokens = self.new.tokens } }
    {
        match answer {
            Answer::Created(job) => self.tokens.note(token, *job),
            _ => self.tokens.tidy(token),
        }
    }

    // The same for a purge. A job that is still in the table was not purged.
    fn settle_purged(&mut self, token: &TokenText, job: JobId, table: &Table)
        ensures entries { (other : List ℕ) → entry_for self.new.tokens other ≡ purged_for table.now.state other token.now job (entry_for self.old.tokens other) }
        ensures kept { self.new ≡ record self.old { tokens = self.new.tokens } }
    {
        match table.job(job) {
            Some(_) => self.tokens.tidy(token),
            None => self.tokens.forget(token, job),
        }
    }
}

/// Returns the job that a command sends bytes of.
pub(crate) fn job_sent_to(command: &Command) -> Option<JobId>
    ensures { result ≡ job_sent_to command.now }
{
    match command {
        Command::Apply(event) => event_sent_to(event),
        _ => None,
    }
}

fn event_sent_to(event: &Event) -> Option<JobId>
    ensures { result ≡ event_sent_to event.now }
{
    match event {
        Event::Send { job, .. } => Some(*job),
        _ => None,
    }
}
