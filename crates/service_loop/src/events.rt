//! What the service records of the events that its engine accepts: which jobs and queues changed, when, and the lines of its log.
ghost use Rattle.std.specs.Prelude.{◌≡◌, ◌∷◌, ◌++◌, [], IfOk, Some, map, min};
ghost use Rattle.std.specs.Option.{option_copied};
ghost use Rattle.spool_types.specs.State.{job_at};
ghost use Rattle.event_records.specs.NumberedChanges.{HasNoted, greatest_change};
ghost use Rattle.event_records.specs.Deeds.{moves_queue};
ghost use Rattle.event_records.specs.SeenTimes.{HasSeen};
ghost use Rattle.event_records.specs.declared.changes.Subject.TheVariants as subjects;
ghost use Rattle.event_records.specs.declared.seen.Seen.{Seen as SeenOf};
ghost use Rattle.service_loop.specs.RecordedEvents.{AreDueBy, AreDueTo, HasRecorded, HasRecordedAll, HasSeenMove, HasSeenQueueDeed, HaveNoted, accepted_deeds, command_deed, due_deed, happened_deed, interrupts, listed_deed, listed_queue, queue_moved};

use command_lines::{Answer, Command};
use event_records::{
    Changes, Deed, JobDeed, QueueDeed, Seen, Subject, deed_of, has_line, push_job_event,
    push_purge_event, push_queue_event,
};
use job_table::Table;
use print_rounds::Happening;
use spool_types::{Event, Job, JobId, Moment, QueueName};
use std::alloc::{AllocError, Global};

/// A line of the log.
#[derive(Drop)]
pub(crate) struct EventLine {
    pub text: Vec<u8>,
    /// Whether it is of interest only to who follows everything.
    pub is_detail: bool,
}

/// The numbered changes, the times, and the lines of the log that are not written yet.
#[derive(Drop)]
pub(crate) struct Records {
    alloc: Global,
    pub changes: Changes,
    pub seen: Seen,
    /// The moment of the turn by the service's time, if a clock can be read.
    pub now: Option<Moment>,
    /// The number of the last change that the watching clients were sent.
    pub told: u64,
    pub lines: Vec<EventLine>,
    /// How many lines were left out because memory ran out.
    pub left_out: usize,
}

/// What a command does if its event is accepted: what is known of it before, and the jobs that a Clock changes.
#[derive(Drop)]
pub(crate) struct Expected {
    deed: Option<Deed>,
    due: Vec<JobId>,
}

/// Returns what a command does if its event is accepted.
pub(crate) fn expect(
    alloc: Global,
    table: &Table,
    command: &Command,
) -> Result<Expected, AllocError>
    ensures deed { IfOk result (λ expected. expected.deed ≡ command_deed table.now.state command.now) }
    ensures due { IfOk result (λ expected. AreDueTo table.now.state command.now expected.due.items) }
{
    let due = due_to(alloc, table, command)?;
    Ok(Expected {
        deed: command_deed(table, command)?,
        due,
    })
}

// Returns the jobs that a command changes without naming them.
fn due_to(alloc: Global, table: &Table, command: &Command) -> Result<Vec<JobId>, AllocError>
    ensures { IfOk result (λ due. AreDueTo table.now.state command.now due.items) }
{
    match command {
        Command::Apply(event) => due_by(alloc, table, event),
        _ => Ok(Vec::new(alloc)),
    }
}

// Returns the jobs that an event changes without naming them.
fn due_by(alloc: Global, table: &Table, event: &Event) -> Result<Vec<JobId>, AllocError>
    ensures { IfOk result (λ due. AreDueBy table.now.state event.now due.items) }
{
    match event {
        Event::Clock(moment) => table.changed_by(alloc, *moment),
        _ => Ok(Vec::new(alloc)),
    }
}

// Returns what a command does if its event is accepted, unless its job is not known yet.
fn command_deed(table: &Table, command: &Command) -> Result<Option<Deed>, AllocError>
    ensures { IfOk result (λ deed. deed ≡ command_deed table.now.state command.now) }
{
    match command {
        Command::Apply(event) => deed_of(event, interrupts(table, event)),
        Command::Queue(queue) => Ok(Some(Deed::Queue(queue.name.clone()?, QueueDeed::Added))),
        Command::Close { job, .. } => Ok(Some(Deed::Job(*job, JobDeed::Closed))),
        _ => Ok(None),
    }
}

// Returns whether an event cancels a processing job.
fn interrupts(table: &Table, event: &Event) -> bool
    ensures { result ≡ interrupts table.now.state event.now }
{
    match event {
        Event::Cancel(job) => match table.job(*job) {
            Some(row) => row.job.phase.is_processing(),
            None => false,
        },
        _ => false,
    }
}

// Returns the row of a job without its document.
fn row_of(table: &Table, job: JobId) -> Option<&Job>
    ensures { option_copied result ≡ job_at table.now.state job }
{
    match table.job(job) {
        Some(row) => Some(&row.job),
        None => None,
    }
}

impl Records {
    /// Returns records of no events. The next change has the number after this one.
    pub fn new(alloc: Global, last: u64) -> Result<Records, AllocError>
        ensures changes { IfOk result (λ records. (records.changes.last ≡ min last greatest_change) × (records.changes.items ≡ [])) }
        ensures told { IfOk result (λ records. records.told ≡ records.changes.last) }
    {
        let changes = Changes::new(alloc, last)?;
        let told = changes.last();
        Ok(Records {
            alloc,
            changes,
            seen: Seen::new(alloc),
            now: None,
            told,
            lines: Vec::new(alloc),
            left_out: 0,
        })
    }

    /// Records the events of a command, if this answer says that they were accepted. The table is the one after them.
    pub fn record_command(&mut self, expected: &Expected, answer: &Answer, table: &Table)
        ensures { HasRecordedAll table.now.state self.old (accepted_deeds expected.now.deed expected.now.due.items answer.now) self.new }
    {
        match answer {
            Answer::Created(job) => self.record(&Deed::Job(*job, JobDeed::Created), table),
            Answer::Done | Answer::Sent(_) | Answer::Closed { .. } => {
                self.record_expected(expected, table);
            }
            _ => {}
        }
    }

    fn record_expected(&mut self, expected: &Expected, table: &Table)
        ensures { HasRecordedAll table.now.state self.old (listed_deed expected.now.deed ++ map due_deed expected.now.due.items) self.new }
    {
        self.record_listed(&expected.deed, table);
        self.record_due(&expected.due, table);
    }

    // Records the event that a command names, if any.
    fn record_listed(&mut self, deed: &Option<Deed>, table: &Table)
        ensures { HasRecordedAll table.now.state self.old (listed_deed deed.now) self.new }
    {
        match deed {
            Some(deed) => self.record(deed, table),
            None => {}
        }
    }

    // Records that the clock changed these jobs.
    fn record_due(&mut self, jobs: &[JobId], table: &Table)
        ensures { HasRecordedAll table.now.state self.old (map due_deed jobs.now) self.new }
    {
        for job in jobs {
            self.record(&Deed::Job(*job, JobDeed::Due), table);
        }
    }

    /// Records the events of a tick. The table is the one after them.
    pub fn record_tick(&mut self, happened: &[Happening], table: &Table)
        ensures { HasRecordedAll table.now.state self.old (map happened_deed happened.now) self.new }
    {
        for happening in happened {
            self.record(&deed_in(*happening), table);
        }
    }

    // Records an event. The table is the one after it.
    fn record(&mut self, deed: &Deed, table: &Table)
        ensures { HasRecorded table.now.state self.old deed.now self.new }
    {
        match deed {
            Deed::Job(job, deed) => self.record_job(*job, *deed, row_of(table, *job)),
            Deed::Queue(name, deed) => self.record_queue(name, *deed),
        }
    }

    fn record_job(&mut self, job: JobId, deed: JobDeed, row: Option<&Job>)
        ensures changes { HaveNoted self.old.changes (subjects.Job job ∷ listed_queue (queue_moved (moves_queue deed) (option_copied row.entry))) self.new.changes }
        ensures seen { (mid : SeenOf) × HasSeen self.old.seen (record { job = job; deed = deed; row = option_copied row.entry; now = self.old.now }) mid × HasSeenMove self.old.now mid (queue_moved (moves_queue deed) (option_copied row.entry)) self.new.seen }
        ensures now { self.new.now ≡ self.old.now }
        ensures told { self.new.told ≡ self.old.told }
    {
        self.changes.note(Subject::Job(job));
        self.seen.see_job(job, deed, row, self.now);
        match row {
            Some(row) => {
                self.record_move(deed, row);
                self.log_job(deed, row);
            }
            None => self.log_purge(job),
        }
    }

    // Records the queue of a job, if the event also changes how it is shown.
    fn record_move(&mut self, deed: JobDeed, row: &Job)
        ensures changes { HaveNoted self.old.changes (listed_queue (queue_moved (moves_queue deed) (Some row.now))) self.new.changes }
        ensures seen { HasSeenMove self.old.now self.old.seen (queue_moved (moves_queue deed) (Some row.now)) self.new.seen }
        ensures kept { self.new ≡ record self.old { changes = self.new.changes; seen = self.new.seen } }
    {
        if !deed.moves_queue() {
            return;
        }
        self.changes.note_queue(&row.queue);
        self.seen.see_queue(&row.queue, self.now);
    }

    fn record_queue(&mut self, name: &QueueName, deed: QueueDeed)
        ensures changes { HasNoted self.old.changes (subjects.Queue name.now) self.new.changes }
        ensures seen { HasSeenQueueDeed self.old.now self.old.seen name.now deed self.new.seen }
        ensures now { self.new.now ≡ self.old.now }
        ensures told { self.new.told ≡ self.old.told }
    {
        self.changes.note_queue(name);
        self.see_queue(name, deed);
        self.log_queue(deed, name);
    }

    fn see_queue(&mut self, name: &QueueName, deed: QueueDeed)
        ensures seen { HasSeenQueueDeed self.old.now self.old.seen name.now deed self.new.seen }
        ensures kept { self.new ≡ record self.old { seen = self.new.seen } }
    {
        match deed {
            QueueDeed::Described => {}
            _ => self.seen.see_queue(name, self.now),
        }
    }

    // Adds the line about an event of a job, if it has one.
    fn log_job(&mut self, deed: JobDeed, row: &Job)
        ensures { self.new ≡ record self.old { lines = self.new.lines; left_out = self.new.left_out } }
    {
        if has_line(deed, row.phase) {
            let mut text = Vec::new(self.alloc);
            let pushed = push_job_event(&mut text, deed, row);
            self.add_line(text, pushed, false);
        }
    }

    // Adds the line about a job whose row was removed.
    fn log_purge(&mut self, job: JobId)
        ensures { self.new ≡ record self.old { lines = self.new.lines; left_out = self.new.left_out } }
    {
        let mut text = Vec::new(self.alloc);
        let pushed = push_purge_event(&mut text, job);
        self.add_line(text, pushed, true);
    }

    // Adds the line about an event of a queue.
    fn log_queue(&mut self, deed: QueueDeed, name: &QueueName)
        ensures { self.new ≡ record self.old { lines = self.new.lines; left_out = self.new.left_out } }
    {
        let mut text = Vec::new(self.alloc);
        let pushed = push_queue_event(&mut text, deed, name);
        self.add_line(text, pushed, matches!(deed, QueueDeed::Described));
    }

    // Adds a line, or counts it if memory ran out.
    fn add_line(&mut self, text: Vec<u8>, pushed: Result<(), AllocError>, is_detail: bool)
        ensures { self.new ≡ record self.old { lines = self.new.lines; left_out = self.new.left_out } }
    {
        let line = EventLine { text, is_detail };
        if pushed.is_err() || self.lines.push(line).is_err() {
            self.left_out = self.left_out.saturating_add(1);
        }
    }
}

fn deed_in(happening: Happening) -> Deed
    ensures { result ≡ happened_deed happening }
{
    match happening {
        Happening::Started(job) => Deed::Job(job, JobDeed::Started),
        Happening::Ended(job) => Deed::Job(job, JobDeed::Ended),
    }
}
