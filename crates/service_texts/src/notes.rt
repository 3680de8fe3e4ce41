//! Noted jobs and queues.
ghost use Rattle.std.specs.Prelude.{◌≡◌, ◌↔◌, ◌++◌, IfOk, IsTrue, OnOk, OnErr};
ghost use Rattle.std.specs.List.{flat_map};
ghost use Rattle.service_texts.specs.Notices.{nothing_noted, is_full, has_job, has_queue, with_job, with_queue, with_subject, noted_since, change_text, job_told, queue_told, missed_text, told};

use crate::job_texts::push_shown_line;
use client_standing::Standing;
use event_records::{Changes, Subject};
use job_table::Table;
use queue_sayings::push_shown_queue;
use spool_types::{JobId, QueueName};
use std::alloc::{AllocError, Global};
use std::io::Write;
use std::marker::Model;

// The most jobs and queues noted.
const MOST_NOTES: usize = 256;

/// The jobs and queues that have changed since some moment: at most 256, each once, in the order of their first changes. Of further ones it
/// only records that some were missed.
#[derive(Drop)]
pub struct Notes {
    jobs: Vec<JobId>,
    queues: Vec<QueueName>,
    // Whether more were missed.
    missed: bool,
}

impl Model for Notes {
    ghost use Rattle.service_texts.specs.Notices.{Noted};

    ghost Value = { Noted };

    ghost view = { λ a. record { jobs = a.jobs.items; queues = a.queues.items; missed = a.missed } };
}

impl Notes {
    fn new(alloc: Global) -> Notes
        ensures { result ≡ nothing_noted }
    {
        Notes {
            jobs: Vec::new(alloc),
            queues: Vec::new(alloc),
            missed: false,
        }
    }

    /// Notes what changed after the change of this number, or that some were missed if the number is not known.
    pub fn since(alloc: Global, changes: &Changes, number: u64) -> Result<Notes, AllocError>
        ensures { IfOk result (λ notes. notes ≡ noted_since changes.now number) }
    {
        let mut notes = Notes::new(alloc);
        if !changes.is_known(number) {
            notes.missed = true;
            return Ok(notes);
        }
        for at in changes.position_after(number)..changes.len() {
            if let Some(subject) = changes.subject(at) {
                notes.note(subject)?;
            }
        }
        Ok(notes)
    }

    /// Returns whether nothing has changed.
    pub fn is_nothing(&self) -> bool
        ensures { IsTrue result ↔ (self.now ≡ nothing_noted) }
    {
        self.jobs.is_empty() && self.queues.is_empty() && !self.missed
    }

    fn note_job(&mut self, job: JobId) -> Result<(), AllocError>
        ensures ok { OnOk result (self.new ≡ with_job self.old job) }
        ensures err { OnErr result (self.new ≡ self.old) }
    {
        if self.has_job(job) {
            return Ok(());
        }
        if self.is_full() {
            self.missed = true;
            return Ok(());
        }
        self.jobs.push(job)?;
        Ok(())
    }

    fn note_queue(&mut self, name: &QueueName) -> Result<(), AllocError>
        ensures ok { OnOk result (self.new ≡ with_queue self.old name.now) }
        ensures err { OnErr result (self.new ≡ self.old) }
    {
        if self.has_queue(name) {
            return Ok(());
        }
        if self.is_full() {
            self.missed = true;
            return Ok(());
        }
        let name = name.clone()?;
        self.queues.push(name)?;
        Ok(())
    }

    // Notes what a change changed.
    fn note(&mut self, subject: &Subject) -> Result<(), AllocError>
        ensures { OnOk result (self.new ≡ with_subject self.old subject.now) }
    {
        match subject {
            Subject::Job(job) => self.note_job(*job),
            Subject::Queue(name) => self.note_queue(name),
        }
    }

    fn has_job(&self, job: JobId) -> bool
        ensures { result ≡ has_job self.now job }
    {
        self.jobs.iter().any(|noted| *noted == job)
    }

    fn has_queue(&self, name: &QueueName) -> bool
        ensures { result ≡ has_queue self.now name.now }
    {
        self.queues.iter().any(|noted| noted == name)
    }

    fn is_full(&self) -> bool
        ensures { result ≡ is_full self.now }
    {
        MOST_NOTES <= self.jobs.len() + self.queues.len()
    }

    /// Returns a line for each job, and then for each queue, as the table has them and as far as the client may see them: its line of the
    /// listing, or `gone job N` or `gone queue NAME`. Then comes `missed`, if some were missed.
    pub fn lines(
        &self,
        alloc: Global,
        table: &Table,
        client: &Standing,
    ) -> Result<Vec<u8>, AllocError>
        ensures { IfOk result (λ lines. lines.items ≡ told client.now table.now.state self.now) }
    {
        let mut lines = Vec::new(alloc);
        push_jobs(&mut lines, table, &self.jobs, client)?;
        push_queues(&mut lines, table, &self.queues, client)?;
        if self.missed {
            lines.extend_from_slice(b"missed\n")?;
        }
        Ok(lines)
    }
}

/// Appends the line that ends what a client that counts the changes is sent: the number of the last change.
pub fn push_change(text: &mut Vec<u8>, number: u64) -> Result<(), AllocError>
    ensures { OnOk result (text.new.items ≡ text.old.items ++ change_text number) }
{
    write!(text, "change {number}\n").map_err(|_| AllocError)
}

fn push_jobs(
    text: &mut Vec<u8>,
    table: &Table,
    jobs: &[JobId],
    client: &Standing,
) -> Result<(), AllocError>
    ensures { OnOk result (text.new.items ≡ text.old.items ++ flat_map (job_told client.now table.now.state) jobs.now) }
{
    for job in jobs {
        push_job_news(text, table, *job, client)?;
    }
    Ok(())
}

fn push_job_news(
    text: &mut Vec<u8>,
    table: &Table,
    job: JobId,
    client: &Standing,
) -> Result<(), AllocError>
    ensures { OnOk result (text.new.items ≡ text.old.items ++ job_told client.now table.now.state job) }
{
    let Some(row) = table.job(job) else {
        let number = job.get();
        return write!(text, "gone job {number}\n").map_err(|_| AllocError);
    };
    push_shown_line(text, &row.job, client, &table.now())
}

fn push_queues(
    text: &mut Vec<u8>,
    table: &Table,
    names: &[QueueName],
    client: &Standing,
) -> Result<(), AllocError>
    ensures { OnOk result (text.new.items ≡ text.old.items ++ flat_map (queue_told client.now table.now.state) names.now) }
{
    for name in names {
        push_queue_news(text, table, name, client)?;
    }
    Ok(())
}

fn push_queue_news(
    text: &mut Vec<u8>,
    table: &Table,
    name: &QueueName,
    client: &Standing,
) -> Result<(), AllocError>
    ensures { OnOk result (text.new.items ≡ text.old.items ++ queue_told client.now table.now.state name.now) }
{
    let Some(row) = table.queue(name) else {
        let name = name.as_str();
        return write!(text, "gone queue {name}\n").map_err(|_| AllocError);
    };
    push_shown_queue(text, table, row, client)
}
