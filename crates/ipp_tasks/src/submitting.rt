//! Requests that create a job and send its documents.
ghost use Rattle.std.specs.Prelude.{◌≡◌, ◌≢◌, ◌⊎◌, ◌&&◌, true, false, Some, IfOk, OnOk};
ghost use Rattle.ipp_submission.specs.JobParts.{finished, is_ready, with_document};
ghost use Rattle.ipp_tasks.specs.Answers.{MayAnswer, may_succeed, prints};
ghost use Rattle.ipp_tasks.specs.Requests.{abandoned, waiting_by, waits_for_reply};
ghost use Rattle.ipp_tasks.specs.Submissions.{TakesSome, supplied_by};

use crate::answers::{created_names, unsupported_group};
use crate::tasks::{Outcome, Task, Work, done, refused};
use crate::world::World;
use ipp_answers::JobSelection;
use ipp_connections::Http;
use ipp_facts::{error_in, is_accepting, is_done, job_facts, queue_target, shown_in};
use ipp_names::Status;
use ipp_printing::{DocumentName, PrintingJob, RAW, job_line};
use ipp_requests::ServiceError;
use ipp_values::Group;
use requested_attributes::Asked;
use service_client::Reply;
use spool_types::MediaType;
use std::alloc::{AllocError, Global};
use std::collections::VecDeque;
use std::mem;

// The longest piece of a document, in bytes.
const LONGEST_PIECE: usize = 65_536;

// How long a command waits that the service has put off, in milliseconds.
const PAUSE: u64 = 250;

/// A job that is asked for, and what follows.
#[derive(Clone, Copy)]
pub enum NewKind {
    Validate,
    Create,
    Print,
}

/// A job that is asked for. Its queue is looked at first.
#[derive(Drop)]
pub struct NewJob {
    pub kind: NewKind,
    /// The type of the document, unless it is to be detected.
    pub media: Option<String>,
    pub job: PrintingJob,
    /// The attributes that are not supported.
    pub unsupported: Vec<String>,
}

/// A request that goes on with a submission.
#[derive(Drop)]
pub struct Submitting {
    pub job: PrintingJob,
    /// Whether the document of the request is not whole yet.
    pub takes: bool,
    /// Whether the document is the last.
    pub is_last: bool,
    /// The document of the request, until its first piece has come.
    pub further: Option<DocumentName>,
    pub unsupported: Vec<String>,
    /// Whether the last command shows the job, for the answer.
    pub shows: bool,
}

impl Submitting {
    /// Returns the job, if it waits for the next request.
    pub fn into_waiting(self) -> Option<PrintingJob>
        ensures { result ≡ waiting_by (Some self) }
    {
        if self.job.submission.is_ready() {
            Some(self.job)
        } else {
            None
        }
    }

    /// Returns the job, whose client is lost. `is_unanswered` states whether a command of the submission has no reply yet.
    pub fn into_lost(self, is_unanswered: bool) -> PrintingJob
        ensures { result.submission ≡ abandoned is_unanswered self }
    {
        let mut job = self.job;
        if is_unanswered {
            job.lost();
        }
        job
    }

    /// Returns whether a command of the submission is sent and has no reply yet, if `sent` of `count` commands are sent. The last one may only
    /// show the job.
    pub fn is_unanswered(&self, sent: usize, count: usize) -> bool
        ensures { result ≡ waits_for_reply self.now.shows sent count }
    {
        if self.shows {
            sent > 0 && count > 1
        } else {
            sent > 0 && count > 0
        }
    }

    /// Appends the commands for the next request, if there is one. After the last piece of a document, its close and the command for the answer
    /// are sent with it: they have no effect if the piece is refused.
    pub fn push_commands(
        &mut self,
        alloc: Global,
        commands: &mut VecDeque<Vec<u8>>,
    ) -> Result<(), AllocError>
        ensures { self.new.job ≡ self.old.job }
    {
        self.shows = false;
        if let Some(command) = self.job.command(alloc)? {
            commands.push_back(command)?;
        }
        if let Some(command) = self.job.follower(alloc)? {
            commands.push_back(command)?;
            commands.push_back(self.show_line(alloc)?)?;
            self.shows = true;
        }
        Ok(())
    }

    // Returns the command that shows the job.
    fn show_line(&self, alloc: Global) -> Result<Vec<u8>, AllocError> {
        job_line(alloc, "job", self.job.number().unwrap_or(0))
    }

    // Returns whether the client is to send the next part of its document.
    fn is_ready(&self) -> bool
        ensures { result ≡ is_ready self.now.job.submission }
    {
        self.job.submission.is_ready()
    }

    // Begins the document of the request, at its first piece. A further document has a job of its own. Returns whether that job begins.
    fn begin_document(&mut self) -> Result<bool, AllocError>
        requires { is_ready self.old.job.submission ≡ true }
        ensures kept { IfOk result (λ begins. begins ≡ false → self.new.job.submission ≡ self.old.job.submission) }
        ensures begun { IfOk result (λ begins. begins ≡ true → self.new.job.submission ≡ with_document self.old.job.submission) }
    {
        let Some(document) = self.further.take() else {
            return Ok(false);
        };
        if !self.job.has_document {
            self.job.documents.clear();
            self.job.documents.push(document)?;
            return Ok(false);
        }
        self.job.documents.push(document)?;
        self.job.submission.next_document()?;
        Ok(true)
    }

    // Moves the piece that has come into the submission.
    fn take_piece(&mut self, alloc: Global, http: &mut Http) -> Result<(), AllocError>
        ensures { OnOk result (TakesSome self.old.job.submission self.new.job.submission) }
    {
        if !self.is_ready() || self.begin_document()? {
            return Ok(());
        }
        self.job.has_document = true;
        self.job.piece = http.take_body(alloc, LONGEST_PIECE)?;
        let count = self.job.piece.len();
        if 0 < count && count <= LONGEST_PIECE {
            self.supply(count as u32, http.has_ended() && http.body().is_empty());
        }
        Ok(())
    }

    // Passes a piece on, which has `count` bytes. `is_end` states whether the document of the request ends with it. If it is the last one, and
    // the only one, its job is closed with it.
    fn supply(&mut self, count: u32, is_end: bool)
        requires some { count ≢ 0 }
        requires ready { is_ready self.old.job.submission ≡ true }
        ensures { self.new.job.submission ≡ supplied_by (is_end && self.old.is_last) self.old.job.submission count }
    {
        if is_end && self.is_last && self.job.submission.closes_with_last() {
            self.takes = false;
            self.job.submission.supplied_last(count);
        } else {
            self.job.submission.supplied(count);
        }
    }

    // Returns whether the request may be answered with successful-ok: after the last document, only if each job was accepted.
    fn may_succeed(&self) -> bool
        ensures { result ≡ may_succeed self.now }
    {
        !self.is_last || self.job.submission.is_accepted()
    }

    // Ends the last document.
    fn finish(&mut self)
        ensures { TakesSome self.old.job.submission self.new.job.submission }
    {
        if self.is_ready() {
            self.job.submission.finish();
        }
    }
}

impl Task {
    /// Takes the fields of the queue, and begins the submission.
    pub(crate) fn heard_target(
        &mut self,
        alloc: Global,
        world: &World,
        rows: &[Vec<u8>],
    ) -> Result<Outcome, AllocError>
        ensures accepted { prints self.old ≡ true → IfOk result (MayAnswer self.new) }
    {
        let Work::New(new) = &self.work else {
            return Ok(Outcome::Going);
        };
        if !is_accepting(rows) {
            return Ok(done(alloc, Status::NotAcceptingJobs));
        }
        if !takes(alloc, world, rows, new.media.as_ref())? {
            return Ok(done(alloc, Status::DocumentFormatNotSupported));
        }
        if matches!(new.kind, NewKind::Validate) {
            return self.validated(alloc);
        }
        self.submit(is_raw(alloc, rows)?);
        self.ask(alloc)
    }

    fn validated(&mut self, alloc: Global) -> Result<Outcome, AllocError> {
        let Work::New(new) = &self.work else {
            return Ok(Outcome::Going);
        };
        let groups = Vec::new(alloc);
        finished(alloc, new.unsupported.as_slice(), groups)
    }

    // Goes on with the job that was asked for.
    fn submit(&mut self, is_raw: bool) {
        let old = mem::replace(&mut self.work, Work::Command);
        if let Work::New(new) = old {
            let is_print = matches!(new.kind, NewKind::Print);
            let mut job = new.job;
            job.is_raw = is_raw;
            self.work = Work::Printing(Submitting {
                job,
                takes: is_print,
                is_last: is_print,
                further: None,
                unsupported: new.unsupported,
                shows: false,
            });
        }
    }

    /// Takes the reply to a command of the submission, or the fields of its job.
    pub(crate) fn heard_printing(
        &mut self,
        alloc: Global,
        world: &World,
        reply: &Reply,
        last: &str,
    ) -> Result<Outcome, AllocError>
        ensures { IfOk result (MayAnswer self.new) }
    {
        if self.shows() {
            return self.shown(alloc, world, reply, last);
        }
        let Work::Printing(submitting) = &mut self.work else {
            return Ok(Outcome::Going);
        };
        submitting.job.heard(alloc, reply)?;
        if submitting.job.is_put_off {
            self.not_before = world.millis.saturating_add(PAUSE);
        }
        Ok(Outcome::Going)
    }

    // Returns whether the reply has the fields of the job, for the answer. It is that to the last command.
    fn shows(&self) -> bool {
        match &self.work {
            Work::Printing(submitting) => submitting.shows && self.commands.is_empty(),
            _ => false,
        }
    }

    // Answers with the fields of the job, unless the job was not closed: then the submission goes on.
    fn shown(
        &self,
        alloc: Global,
        world: &World,
        reply: &Reply,
        last: &str,
    ) -> Result<Outcome, AllocError>
        ensures { IfOk result (MayAnswer self.now) }
    {
        let Work::Printing(submitting) = &self.work else {
            return Ok(Outcome::Going);
        };
        if !submitting.may_succeed() {
            return Ok(Outcome::Going);
        }
        if !is_done(last) {
            return Ok(shown_without_fields(alloc, submitting, last));
        }
        let groups = shown_group(alloc, world, self.host.as_str(), reply)?;
        let outcome = finished(alloc, submitting.unsupported.as_slice(), groups)?;
        Ok(outcome)
    }

    /// Goes on with a submission: takes the next piece of the body, or asks for the state of the job once its request is done.
    pub fn go_on(&mut self, alloc: Global, http: &mut Http) -> Result<Outcome, AllocError>
        // *Accepted*, as in `heard`.
        ensures accepted { IfOk result (MayAnswer self.new) }
    {
        if self.has_command() {
            return Ok(Outcome::Going);
        }
        let Work::Printing(submitting) = &mut self.work else {
            return Ok(Outcome::Going);
        };
        if submitting.job.submission.is_over() {
            return self.over(alloc);
        }
        if submitting.is_ready() {
            if !submitting.takes {
                return self.document_ended(alloc);
            }
            if !http.body().is_empty() {
                submitting.take_piece(alloc, http)?;
            } else if http.has_ended() {
                submitting.takes = false;
                return self.document_ended(alloc);
            } else {
                http.want_body()?;
                return Ok(Outcome::Going);
            }
        }
        self.ask(alloc)
    }

    // The document of the request is whole, or it has none. If it is the last one, the jobs are closed.
    fn document_ended(&mut self, alloc: Global) -> Result<Outcome, AllocError>
        ensures accepted { IfOk result (MayAnswer self.new) }
    {
        let Work::Printing(submitting) = &mut self.work else {
            return Ok(Outcome::Going);
        };
        if !submitting.is_last {
            return self.show(alloc);
        }
        submitting.finish();
        self.ask(alloc)
    }

    // Asks for the state of the job, for the answer.
    fn show(&mut self, alloc: Global) -> Result<Outcome, AllocError>
        ensures accepted { IfOk result (MayAnswer self.new) }
    {
        let Work::Printing(submitting) = &mut self.work else {
            return Ok(Outcome::Going);
        };
        submitting.shows = true;
        let command = submitting.show_line(alloc)?;
        self.going(command)
    }

    // The submission is over: successful-ok is answered only if every job was closed.
    fn over(&mut self, alloc: Global) -> Result<Outcome, AllocError>
        ensures accepted { IfOk result (MayAnswer self.new) }
    {
        let Work::Printing(submitting) = &mut self.work else {
            return Ok(Outcome::Going);
        };
        if submitting.job.submission.is_accepted() {
            return self.show(alloc);
        }
        let error = if submitting.job.submission.is_closed() {
            ServiceError::Unprintable
        } else {
            submitting.job.error
        };
        Ok(refused(alloc, error))
    }
}

// The service does not show the job. If it was accepted, the answer has no attributes of it.
fn shown_without_fields(alloc: Global, submitting: &Submitting, last: &str) -> Outcome {
    if submitting.job.submission.is_accepted() {
        done(alloc, Status::SuccessfulOk)
    } else {
        refused(alloc, error_in(last))
    }
}

// Returns the group of the job for the answer.
fn shown_group(
    alloc: Global,
    world: &World,
    host: &str,
    reply: &Reply,
) -> Result<Vec<Group>, AllocError> {
    let names = created_names(alloc)?;
    let selection = JobSelection::of(alloc, Asked::These(names.as_slice()))?;
    let mut groups = Vec::new(alloc);
    if let Some(shown) = shown_in(alloc, reply.rows.as_slice())? {
        if let Some(facts) = job_facts(alloc, shown)? {
            let server = world.server(host);
            groups.push(selection.group(alloc, &server, &facts)?)?;
        }
    }
    Ok(groups)
}

// Returns a successful answer, with the attributes that are not supported before the others.
fn finished(
    alloc: Global,
    unsupported: &[String],
    groups: Vec<Group>,
) -> Result<Outcome, AllocError> {
    if unsupported.is_empty() {
        return Ok(Outcome::Done(Status::SuccessfulOk, groups));
    }
    let mut all = Vec::new(alloc);
    all.push(unsupported_group(alloc, unsupported)?)?;
    for group in groups {
        all.push(group)?;
    }
    Ok(Outcome::Done(Status::SuccessfulOkIgnoredOrSubstitutedAttributes, all))
}

// Returns whether a queue prints any document as it is.
fn is_raw(alloc: Global, rows: &[Vec<u8>]) -> Result<bool, AllocError> {
    match queue_target(alloc, rows)? {
        Some(target) => Ok(target.as_str() == RAW),
        None => Ok(false),
    }
}

// Returns whether a queue takes documents of a type.
fn takes(
    alloc: Global,
    world: &World,
    rows: &[Vec<u8>],
    media: Option<&String>,
) -> Result<bool, AllocError> {
    let Some(media) = media else {
        return Ok(true);
    };
    let Some(from) = MediaType::from_word(alloc, media.as_bytes())? else {
        return Ok(false);
    };
    let Some(to) = queue_target(alloc, rows)? else {
        return Ok(false);
    };
    if from.as_str() == to.as_str() || to.as_str() == RAW {
        return Ok(true);
    }
    Ok(world.convs.chain(&from, &to)?.is_some())
}
