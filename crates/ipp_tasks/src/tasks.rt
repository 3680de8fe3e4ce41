//! The work of one request: the commands that it sends, and its answer.
ghost use Rattle.std.specs.Prelude.{◌≡◌, ◌⊎◌, ◌-◌, drop, true, false, string_bytes, Some, IfOk, OnOk};
ghost use Rattle.std.specs.Option.{option_map};
ghost use Rattle.ipp_submission.specs.JobParts.{deserted_in};
ghost use Rattle.ipp_tasks.specs.Answers.{MayAnswer, is_success, prints, says_ok};
ghost use Rattle.ipp_tasks.specs.Requests.{abandoned_by, has_command, is_of, is_unanswered, queue_line, sent_after, submission_in, unsent_of, waiting_by, waits_for_body};
ghost use Rattle.ipp_tasks.specs.Submissions.{GoesBy, LosesSome, progress_of};

use crate::answers::Header;
use crate::job_changes::JobChange;
use crate::listing::Listing;
use crate::submitting::{NewJob, Submitting};
use crate::world::World;
use ipp_access::Place;
use ipp_answers::JobSelection;
use ipp_facts::{error_in, is_done, job_facts, printer_facts, shown_in};
use ipp_names::Status;
use ipp_printing::PrintingJob;
use ipp_requests::{ServiceError, status_of};
use ipp_values::Group;
use printer_answers::PrinterSelection;
use service_client::Reply;
use std::alloc::{AllocError, Global};
use std::collections::VecDeque;
use std::io::Write;
use std::{mem, str};

/// The next step of a request.
#[derive(Drop)]
pub enum Outcome {
    /// A command is to be sent, or the body is awaited.
    Going,
    /// The request is answered.
    Done(Status, Vec<Group>),
}

/// The work of a request.
#[derive(Drop)]
pub enum Work {
    /// `queue NAME` for each printer.
    Printers(PrinterListing),
    /// `queues`, and then each printer.
    AllPrinters(AllPrinters),
    /// `list`, page by page.
    Jobs(ShownJobs),
    /// `list`, and then `stop` for each job.
    CancelJobs(Listing, Stops),
    /// `job N`.
    ShowJob(ShownJob),
    /// `job N`, and then a command.
    ChangeJob(JobChange),
    /// One command.
    Command,
    /// `queue NAME`, and then a job.
    New(NewJob),
    /// The commands of a submission.
    Printing(Submitting),
}

/// The printers that a request shows.
#[derive(Drop)]
pub struct PrinterListing {
    pub names: Vec<String>,
    /// How many were asked for.
    pub at: usize,
    pub selection: PrinterSelection,
    pub groups: Vec<Group>,
    /// Whether a missing printer is an error.
    pub is_one: bool,
}

/// The printers that a request lists.
#[derive(Drop)]
pub struct AllPrinters {
    pub selection: PrinterSelection,
    pub first: Option<String>,
    pub limit: Option<u32>,
}

/// The jobs that are stopped.
#[derive(Drop)]
pub struct Stops {
    pub jobs: Vec<u32>,
    /// How many were stopped.
    pub at: usize,
    /// Whether the jobs are listed.
    pub is_listed: bool,
}

/// The jobs that a request lists.
#[derive(Drop)]
pub struct ShownJobs {
    pub listing: Listing,
    pub selection: JobSelection,
}

/// A job that is shown.
#[derive(Drop)]
pub struct ShownJob {
    pub selection: JobSelection,
    /// The queue whose job it must be.
    pub queue: Option<String>,
}

/// A request in progress.
#[derive(Drop)]
pub struct Task {
    pub(crate) header: Header,
    pub(crate) host: String,
    pub(crate) user: String,
    pub(crate) place: Place,
    pub(crate) work: Work,
    /// The commands that are to be sent or wait for their replies, in their order.
    pub(crate) commands: VecDeque<Vec<u8>>,
    /// How many of them are sent.
    pub(crate) sent: usize,
    /// When a command may be sent, in milliseconds.
    pub(crate) not_before: u64,
}

impl Task {
    pub fn header(&self) -> Header
        ensures { result ≡ self.now.header }
    {
        self.header
    }

    /// Returns whether a command is to be sent or waits for its reply.
    pub fn has_command(&self) -> bool
        ensures { result ≡ has_command self.now }
    {
        !self.commands.is_empty()
    }

    /// Returns the next command that is to be sent now. Several are sent together, each before the replies to those before it.
    pub fn unsent(&self, millis: u64) -> Option<&[u8]>
        ensures { option_map (λ command. command.now) result ≡ unsent_of self.now millis }
    {
        if millis < self.not_before {
            return None;
        }
        match self.commands.get(self.sent) {
            Some(command) => Some(command.as_slice()),
            None => None,
        }
    }

    /// Notes that the next command is sent.
    pub fn note_sent(&mut self)
        ensures { self.new ≡ record self.old { sent = sent_after self.old } }
    {
        if self.sent < self.commands.len() {
            self.sent += 1;
        }
    }

    // Notes that the first command has its reply.
    fn note_answered(&mut self)
        ensures commands { self.new.commands.items ≡ drop 1 self.old.commands.items }
        ensures sent { self.new.sent ≡ self.old.sent - 1 }
        ensures work { self.new.work ≡ self.old.work }
    {
        drop(self.commands.pop_front());
        self.sent = self.sent.saturating_sub(1);
    }

    /// Returns whether the next part of the body is awaited.
    pub fn waits_for_body(&self) -> bool
        ensures { result ≡ waits_for_body self.now }
    {
        match &self.work {
            Work::Printing(submitting) => self.commands.is_empty() && submitting.takes,
            _ => false,
        }
    }

    /// Sets the only next command. The request goes on with it.
    pub(crate) fn going(&mut self, command: Vec<u8>) -> Result<Outcome, AllocError>
        ensures work { self.new.work ≡ self.old.work }
        ensures going { IfOk result (λ outcome. says_ok outcome ≡ false) }
    {
        self.commands.clear();
        self.sent = 0;
        self.commands.push_back(command)?;
        Ok(Outcome::Going)
    }

    /// Sets the commands of the submission's next request, if there is one.
    pub(crate) fn ask(&mut self, alloc: Global) -> Result<Outcome, AllocError>
        ensures submission { progress_of self.new ≡ progress_of self.old }
        ensures unsent { self.new.sent ≡ 0 }
        ensures going { IfOk result (λ outcome. says_ok outcome ≡ false) }
    {
        self.commands.clear();
        self.sent = 0;
        if let Work::Printing(submitting) = &mut self.work {
            submitting.push_commands(alloc, &mut self.commands)?;
        }
        Ok(Outcome::Going)
    }

    /// Takes the reply to the first command that has none.
    pub fn heard(
        &mut self,
        alloc: Global,
        world: &World,
        reply: &Reply,
    ) -> Result<Outcome, AllocError>
        // *Accepted*: a request that prints is answered with success only if the service has accepted the job of each document.
        ensures accepted { prints self.old ≡ true → IfOk result (MayAnswer self.new) }
    {
        self.note_answered();
        let last = match str::from_utf8(reply.last.as_slice()) {
            Ok(last) => last,
            Err(_) => "",
        };
        if matches!(self.work, Work::Printing(_)) {
            return self.heard_printing(alloc, world, reply, last);
        }
        if !is_done(last) {
            return self.failed(alloc, last);
        }
        self.heard_rows(alloc, world, reply.rows.as_slice(), last)
    }

    // Takes the rows of a reply without an error.
    fn heard_rows(
        &mut self,
        alloc: Global,
        world: &World,
        rows: &[Vec<u8>],
        last: &str,
    ) -> Result<Outcome, AllocError>
        ensures accepted { prints self.old ≡ true → IfOk result (MayAnswer self.new) }
    {
        match &self.work {
            Work::Printers(_) => self.heard_printer(alloc, world, rows),
            Work::AllPrinters(_) => self.heard_queues(alloc, rows),
            Work::Jobs(_) => self.heard_jobs(alloc, world, rows, last),
            Work::CancelJobs(..) => self.heard_canceled(alloc, rows, last),
            Work::ShowJob(_) => self.heard_job(alloc, world, rows),
            Work::ChangeJob(_) => self.heard_change(alloc, rows),
            Work::New(_) => self.heard_target(alloc, world, rows),
            Work::Command => Ok(done(alloc, Status::SuccessfulOk)),
            Work::Printing(_) => Ok(Outcome::Going),
        }
    }

    // Takes a reply with an error. A listing continues without the missing printer or job.
    fn failed(&mut self, alloc: Global, last: &str) -> Result<Outcome, AllocError>
        ensures accepted { prints self.old ≡ true → IfOk result (MayAnswer self.new) }
    {
        if self.lists_printers() {
            return self.show_next(alloc);
        }
        if self.stops_jobs() {
            return self.stop_next(alloc);
        }
        Ok(refused(alloc, error_in(last)))
    }

    fn lists_printers(&self) -> bool
        ensures { result ≡ true → prints self.now ≡ false }
    {
        match &self.work {
            Work::Printers(listing) => !listing.is_one,
            _ => false,
        }
    }

    fn stops_jobs(&self) -> bool
        ensures { result ≡ true → prints self.now ≡ false }
    {
        match &self.work {
            Work::CancelJobs(_, stops) => stops.is_listed,
            _ => false,
        }
    }

    // ## Printers

    fn heard_printer(
        &mut self,
        alloc: Global,
        world: &World,
        rows: &[Vec<u8>],
    ) -> Result<Outcome, AllocError> {
        let host = self.host.as_str();
        if let Work::Printers(listing) = &mut self.work {
            listing.add(alloc, world, host, rows)?;
        }
        self.show_next(alloc)
    }

    // Asks for the next printer, or answers with all of them.
    fn show_next(&mut self, alloc: Global) -> Result<Outcome, AllocError> {
        let next = match &mut self.work {
            Work::Printers(listing) => listing.next(alloc)?,
            _ => None,
        };
        match next {
            Some(command) => self.going(command),
            None => self.shown_printers(alloc),
        }
    }

    fn shown_printers(&mut self, alloc: Global) -> Result<Outcome, AllocError> {
        let Work::Printers(listing) = &mut self.work else {
            return Ok(Outcome::Going);
        };
        let groups = mem::replace(&mut listing.groups, Vec::new(alloc));
        Ok(Outcome::Done(Status::SuccessfulOk, groups))
    }

    fn heard_queues(&mut self, alloc: Global, rows: &[Vec<u8>]) -> Result<Outcome, AllocError> {
        let Work::AllPrinters(all) = &self.work else {
            return Ok(Outcome::Going);
        };
        let names = all.names_in(alloc, rows)?;
        let Some(first) = names.first() else {
            return Ok(done(alloc, Status::NotFound));
        };
        let command = queue_line(alloc, first.as_str())?;
        self.show_printers(alloc, names);
        self.going(command)
    }

    // Goes on with the printers of these names.
    fn show_printers(&mut self, alloc: Global, names: Vec<String>) {
        let old = mem::replace(&mut self.work, Work::Command);
        if let Work::AllPrinters(all) = old {
            self.work = Work::Printers(PrinterListing {
                names,
                at: 0,
                selection: all.selection,
                groups: Vec::new(alloc),
                is_one: false,
            });
        }
    }

    // ## A job

    fn heard_job(
        &mut self,
        alloc: Global,
        world: &World,
        rows: &[Vec<u8>],
    ) -> Result<Outcome, AllocError> {
        let Work::ShowJob(job) = &self.work else {
            return Ok(Outcome::Going);
        };
        let Some(shown) = shown_in(alloc, rows)? else {
            return Ok(done(alloc, Status::InternalError));
        };
        if !is_of(&job.queue, shown.asked.queue.as_str()) {
            return Ok(done(alloc, Status::NotFound));
        }
        let mut groups = Vec::new(alloc);
        if let Some(facts) = job_facts(alloc, shown)? {
            let server = world.server(self.host.as_str());
            groups.push(job.selection.group(alloc, &server, &facts)?)?;
        }
        Ok(Outcome::Done(Status::SuccessfulOk, groups))
    }

    // ## Losses

    /// Notes that a command has no reply, since the connection was lost, which has lost all of them. They are sent again, or their effect is
    /// examined. A further report of the same loss changes nothing.
    pub fn lost(&mut self, alloc: Global) -> Result<(), AllocError>
        ensures submission { GoesBy LosesSome (progress_of self.old) (progress_of self.new) }
        ensures unsent { self.new.sent ≡ 0 }
        ensures again { self.old.sent ≡ 0 → OnOk result (self.new ≡ self.old) }
    {
        let is_unanswered = self.is_unanswered();
        self.sent = 0;
        if !is_unanswered {
            return Ok(());
        }
        if let Work::Printing(submitting) = &mut self.work {
            submitting.job.lost();
            self.ask(alloc)?;
        }
        Ok(())
    }

    // Returns whether a command of a submission is sent and has no reply yet.
    fn is_unanswered(&self) -> bool
        ensures { result ≡ is_unanswered self.now }
    {
        match &self.work {
            Work::Printing(submitting) => submitting.is_unanswered(self.sent, self.commands.len()),
            _ => false,
        }
    }

    /// Notes that no service was reachable for too long.
    pub fn deserted(&mut self)
        ensures submission { GoesBy (λ old new. (new ≡ old) ⊎ (new ≡ deserted_in old)) (progress_of self.old) (progress_of self.new) }
    {
        if let Work::Printing(submitting) = &mut self.work {
            submitting.job.submission.deserted();
        }
    }

    /// Gives up the request, whose client is lost. Returns its job, if it has one.
    pub fn abandon(self) -> Option<PrintingJob>
        ensures { option_map (λ job. job.submission) result ≡ abandoned_by self (submission_in self.work) }
    {
        let is_unanswered = self.is_unanswered();
        match submission_in(self.work) {
            Some(submitting) => Some(submitting.into_lost(is_unanswered)),
            None => None,
        }
    }

    /// Ends the request. Returns its job, if that waits for the next request.
    pub fn into_waiting(self) -> Option<PrintingJob>
        ensures { result ≡ waiting_by (submission_in self.work) }
    {
        match submission_in(self.work) {
            Some(submitting) => submitting.into_waiting(),
            None => None,
        }
    }
}

// Returns the submission of a request, if it has one.
fn submission_in(work: Work) -> Option<Submitting>
    ensures { result ≡ submission_in work }
{
    match work {
        Work::Printing(submitting) => Some(submitting),
        _ => None,
    }
}

impl PrinterListing {
    // Adds a printer, as the service shows it.
    fn add(
        &mut self,
        alloc: Global,
        world: &World,
        host: &str,
        rows: &[Vec<u8>],
    ) -> Result<(), AllocError> {
        let Some(name) = self.names.get(self.at) else {
            return Ok(());
        };
        let types = world.types.as_slice();
        if let Some(facts) = printer_facts(alloc, rows, &world.convs, types)? {
            let printer = world.printers.printer(name.as_str());
            let server = world.server(host);
            let group = self.selection.group(alloc, &server, &printer, &facts)?;
            self.groups.push(group)?;
        }
        Ok(())
    }

    // Returns the command for the next printer, if there is one.
    fn next(&mut self, alloc: Global) -> Result<Option<Vec<u8>>, AllocError> {
        self.at = self.at.saturating_add(1);
        match self.names.get(self.at) {
            Some(name) => Ok(Some(queue_line(alloc, name.as_str())?)),
            None => Ok(None),
        }
    }
}

impl AllPrinters {
    // Returns the names in the rows of queues, from the first name on, up to the limit.
    fn names_in(&self, alloc: Global, rows: &[Vec<u8>]) -> Result<Vec<String>, AllocError> {
        let mut names = Vec::new(alloc);
        let most = self.limit.unwrap_or(u32::MAX) as usize;
        for row in rows {
            let (_, rest) = line_words::first_word(row.as_slice());
            let (name, _) = line_words::first_word(line_words::after_blanks(rest));
            if let Ok(name) = str::from_utf8(name) {
                if !self.is_before(name) && names.len() < most {
                    names.push(String::from_str(alloc, name)?)?;
                }
            }
        }
        Ok(names)
    }

    fn is_before(&self, name: &str) -> bool {
        match &self.first {
            Some(first) => name < first.as_str(),
            None => false,
        }
    }
}

/// Returns whether this is the queue, or no queue is asked for.
pub fn is_of(queue: &Option<String>, name: &str) -> bool
    ensures { result ≡ is_of (option_map string_bytes queue.now) name.now }
{
    match queue {
        Some(queue) => queue.as_str() == name,
        None => true,
    }
}

/// Returns an answer with a status alone.
pub fn done(alloc: Global, status: Status) -> Outcome
    ensures { says_ok result ≡ is_success status }
{
    Outcome::Done(status, Vec::new(alloc))
}

/// Returns the answer to a request that the service has refused.
#[tactic(auto, using(crate::proofs::Refusals::error_is_no_success))]
pub fn refused(alloc: Global, error: ServiceError) -> Outcome
    ensures { says_ok result ≡ false }
{
    done(alloc, status_of(error))
}

/// Returns `queue NAME`.
pub fn queue_line(alloc: Global, name: &str) -> Result<Vec<u8>, AllocError>
    ensures { IfOk result (λ line. line.items ≡ queue_line name.now) }
{
    let mut line = Vec::new(alloc);
    write!(line, "queue {name}\n").map_err(|_| AllocError)?;
    Ok(line)
}
