//! The work that a request begins.
ghost use Rattle.std.specs.Prelude.{◌≡◌, IfOk};
ghost use Rattle.ipp_tasks.specs.Requests.{answered_version, header_of};

use crate::answers::Header;
use crate::job_changes::{ChangeKind, JobChange};
use crate::listing::{Listing, list_line};
use crate::parked::Parked;
use crate::submitting::NewKind;
use crate::tasks::{
    AllPrinters, PrinterListing, ShownJob, ShownJobs, Stops, Task, Work, queue_line,
};
use crate::world::World;
use ipp_access::{Place, Right, may};
use ipp_answers::{JobSelection, WhichJobs};
use ipp_names::Status;
use ipp_options::{Hold, hold_in};
use ipp_printing::job_line;
use ipp_requests::{
    Action, JobListing, JobTarget, MessageValues, Printer, PrinterChange,
    PrinterListing as PrinterListingOf, Printers, Request,
};
use ipp_values::{Group, Message, Value};
use printer_answers::PrinterSelection;
use requested_attributes::Asked;
use std::alloc::{AllocError, Global};
use std::collections::VecDeque;

/// The longest name of a user, a job or a document, in bytes.
pub const LONGEST_NAME: usize = 255;

/// A request that begins.
#[derive(Drop)]
pub enum Begun {
    Task(Task),
    Answer(Header, Status, Vec<Group>),
}

/// A client, as a request needs to know it.
#[derive(Clone, Copy)]
pub struct Caller<'a> {
    /// The name by which it reaches the server.
    pub host: &'a str,
    /// Where it came from.
    pub place: Place,
    /// The digits from which the token of a new job is made.
    pub digits: &'a str,
}

/// Begins the work of a message.
pub fn begin(
    alloc: Global,
    world: &World,
    message: &Message,
    parked: &mut Parked,
    caller: Caller<'_>,
) -> Result<Begun, AllocError>
    ensures version { IfOk result (λ begun. (header_of begun).version ≡ answered_version message.now.version) }
    ensures request_id { IfOk result (λ begun. (header_of begun).request_id ≡ message.now.request_id) }
{
    let header = Header::of(message);
    match Request::of(alloc, message) {
        Ok(request) => {
            let user = user_of(alloc, &request)?;
            let beginning = Beginning {
                alloc,
                world,
                message,
                user: user.as_str(),
                caller,
            };
            beginning.task(header, &request.action, parked)
        }
        Err(status) => Ok(Begun::Answer(header, status, Vec::new(alloc))),
    }
}

// Returns the name of the user, as the client says it.
fn user_of(alloc: Global, request: &Request<'_>) -> Result<String, AllocError> {
    match &request.user {
        Some(user) => plain(alloc, user.as_str(), LONGEST_NAME),
        None => String::from_str(alloc, "anonymous"),
    }
}

/// The beginning of a request: work and its first command, or an answer.
#[derive(Drop)]
pub enum Worked {
    Work(Work, Option<Vec<u8>>),
    Answer(Status),
    Refused(Status, Vec<Group>),
}

/// A request that begins.
#[derive(Clone, Copy)]
pub struct Beginning<'a> {
    pub alloc: Global,
    pub world: &'a World,
    pub message: &'a Message,
    pub user: &'a str,
    pub caller: Caller<'a>,
}

impl<'a> Beginning<'a> {
    // Begins the work of an action.
    fn task(
        &self,
        header: Header,
        action: &Action<'_>,
        parked: &mut Parked,
    ) -> Result<Begun, AllocError>
        ensures { IfOk result (λ begun. header_of begun ≡ header) }
    {
        let host = String::from_str(self.alloc, self.caller.host)?;
        let user = String::from_str(self.alloc, self.user)?;
        match self.work(action, parked)? {
            Worked::Work(work, command) => Ok(Begun::Task(Task {
                header,
                host,
                user,
                place: self.caller.place,
                work,
                commands: first_of(self.alloc, command)?,
                sent: 0,
                not_before: 0,
            })),
            Worked::Answer(status) => Ok(Begun::Answer(header, status, Vec::new(self.alloc))),
            Worked::Refused(status, groups) => Ok(Begun::Answer(header, status, groups)),
        }
    }

    fn work(&self, action: &Action<'_>, parked: &mut Parked) -> Result<Worked, AllocError> {
        match action {
            Action::PrintJob(job) => self.new_job(NewKind::Print, job),
            Action::ValidateJob(job) => self.new_job(NewKind::Validate, job),
            Action::CreateJob(job) => self.new_job(NewKind::Create, job),
            Action::SendDocument(sent) => {
                let document = self.document(&sent.document)?;
                self.further(&sent.job, Some(document), sent.is_last, parked)
            }
            Action::CloseJob(job) => self.further(job, None, true, parked),
            Action::GetPrinterAttributes { printer, requested } => {
                self.printer(printer, requested.as_ref())
            }
            Action::ChangePrinter(change, printer) => self.change_printer(*change, printer),
            Action::GetDefault { requested } => {
                self.printer(&Printer::Default, requested.as_ref())
            }
            Action::GetPrinters(listing) => self.printers(listing),
            Action::IdentifyPrinter { .. } | Action::GetClasses(_) => {
                Ok(Worked::Answer(Status::SuccessfulOk))
            }
            _ => self.job_work(action),
        }
    }

    // The work of the requests about jobs that exist.
    fn job_work(&self, action: &Action<'_>) -> Result<Worked, AllocError> {
        match action {
            Action::CancelJob { job, .. } => self.change(job, ChangeKind::Cancel),
            Action::HoldJob { job, until } => self.hold(job, until.as_ref()),
            Action::ReleaseJob(job) => self.change(job, ChangeKind::Hold(Hold::Free)),
            Action::SetJobAttributes { job, until } => self.hold(job, Some(until)),
            Action::GetJobAttributes { job, requested } => self.show(job, requested.as_ref()),
            Action::GetJobs(listing) => self.jobs(listing),
            Action::CancelJobs(jobs) | Action::PurgeJobs(jobs) => {
                if jobs.mine || may(self.caller.place, Right::ChangeAllJobs) {
                    self.cancel(&jobs.printers, jobs.ids.as_ref(), jobs.mine, None)
                } else {
                    Ok(Worked::Answer(Status::NotAuthorized))
                }
            }
            Action::CancelMyJobs(jobs) => self.cancel(
                &jobs.printers,
                jobs.ids.as_ref(),
                true,
                None,
            ),
            _ => Ok(Worked::Answer(Status::InternalError)),
        }
    }

    // ## Printers

    // Returns the name of a printer.
    pub(crate) fn name(&self, printer: &Printer<'_>) -> Result<Option<String>, AllocError> {
        match printer {
            Printer::Named(name) => Ok(Some(String::from_str(self.alloc, name.as_str())?)),
            Printer::Default => match &self.world.default {
                Some(name) => Ok(Some(name.clone()?)),
                None => Ok(None),
            },
        }
    }

    // Returns the name of the printer, unless the jobs of all are meant.
    fn queue(&self, printers: &Printers<'_>) -> Result<Option<String>, AllocError> {
        match printers {
            Printers::All => Ok(None),
            Printers::One(printer) => self.name(printer),
        }
    }

    fn printers_asked(
        &self,
        requested: Option<&MessageValues<'_>>,
    ) -> Result<PrinterSelection, AllocError> {
        match requested {
            Some(values) => PrinterSelection::of(self.alloc, Asked::These(values.as_slice())),
            None => PrinterSelection::of(self.alloc, Asked::All),
        }
    }

    fn printer(
        &self,
        printer: &Printer<'_>,
        requested: Option<&MessageValues<'_>>,
    ) -> Result<Worked, AllocError> {
        let Some(name) = self.name(printer)? else {
            return Ok(Worked::Answer(Status::NotFound));
        };
        let command = queue_line(self.alloc, name.as_str())?;
        let mut names = Vec::new(self.alloc);
        names.push(name)?;
        let selection = self.printers_asked(requested)?;
        let work = Work::Printers(PrinterListing {
            names,
            at: 0,
            selection,
            groups: Vec::new(self.alloc),
            is_one: true,
        });
        Ok(Worked::Work(work, Some(command)))
    }

    fn printers(&self, listing: &PrinterListingOf<'_>) -> Result<Worked, AllocError> {
        let command = Vec::from_slice(self.alloc, b"queues\n")?;
        let first = match &listing.first {
            Some(first) => Some(String::from_str(self.alloc, first.as_str())?),
            None => None,
        };
        let selection = self.printers_asked(listing.requested.as_ref())?;
        let work = Work::AllPrinters(AllPrinters {
            selection,
            first,
            limit: listing.limit,
        });
        Ok(Worked::Work(work, Some(command)))
    }

    fn change_printer(
        &self,
        change: PrinterChange,
        printer: &Printer<'_>,
    ) -> Result<Worked, AllocError> {
        if !may(self.caller.place, Right::ChangePrinter) {
            return Ok(Worked::Answer(Status::Forbidden));
        }
        let Some(name) = self.name(printer)? else {
            return Ok(Worked::Answer(Status::NotFound));
        };
        let word = match change {
            PrinterChange::Pause => "disable",
            PrinterChange::Resume => "enable",
            PrinterChange::Accept => "accept",
            PrinterChange::Reject => "reject",
        };
        let name = name.as_str();
        let text = format!(in self.alloc; "{word} {name}\n")?;
        let command = Vec::from_slice(self.alloc, text.as_bytes())?;
        Ok(Worked::Work(Work::Command, Some(command)))
    }

    // ## Jobs that exist

    // Returns the number of a job and the queue whose job it must be, or `None` for the current job of a printer.
    pub(crate) fn number(
        &self,
        job: &JobTarget<'_>,
    ) -> Result<Option<(u32, Option<String>)>, AllocError> {
        match job {
            JobTarget::Number(job) => Ok(Some((job.get(), None))),
            JobTarget::NumberOf(printers, job) => Ok(Some((job.get(), self.queue(printers)?))),
            JobTarget::CurrentOf(_) => Ok(None),
        }
    }

    fn show(
        &self,
        job: &JobTarget<'_>,
        requested: Option<&MessageValues<'_>>,
    ) -> Result<Worked, AllocError> {
        let Some((number, queue)) = self.number(job)? else {
            return Ok(Worked::Answer(Status::NotPossible));
        };
        let command = job_line(self.alloc, "job", number)?;
        let selection = match requested {
            Some(values) => JobSelection::of(self.alloc, Asked::These(values.as_slice()))?,
            None => JobSelection::of(self.alloc, Asked::All)?,
        };
        Ok(Worked::Work(Work::ShowJob(ShownJob { selection, queue }), Some(command)))
    }

    pub(crate) fn change(
        &self,
        job: &JobTarget<'_>,
        kind: ChangeKind,
    ) -> Result<Worked, AllocError> {
        if let JobTarget::CurrentOf(printers) = job {
            return match kind {
                ChangeKind::Cancel => self.cancel(printers, None, true, Some(1)),
                _ => Ok(Worked::Answer(Status::NotPossible)),
            };
        }
        let Some((number, queue)) = self.number(job)? else {
            return Ok(Worked::Answer(Status::NotPossible));
        };
        let command = job_line(self.alloc, "job", number)?;
        let work = Work::ChangeJob(JobChange {
            job: number,
            queue,
            kind,
            is_allowed: false,
        });
        Ok(Worked::Work(work, Some(command)))
    }

    fn hold(
        &self,
        job: &JobTarget<'_>,
        until: Option<&MessageValues<'_>>,
    ) -> Result<Worked, AllocError> {
        let hold = match until {
            Some(values) => hold_in(values.as_slice(), self.world.moment()),
            None => Some(Hold::Indefinite),
        };
        match hold {
            Some(hold) => self.change(job, ChangeKind::Hold(hold)),
            None => Ok(Worked::Answer(Status::AttributesOrValuesNotSupported)),
        }
    }

    fn jobs(&self, asked: &JobListing<'_>) -> Result<Worked, AllocError> {
        let queue = self.queue(&asked.printers)?;
        let command = list_line(self.alloc, &queue, asked.first_job.unwrap_or(1))?;
        let user = self.mine(asked.mine)?;
        let ids = numbers(self.alloc, asked.ids.as_ref())?;
        let selection = match &asked.requested {
            Some(values) => JobSelection::of(self.alloc, Asked::These(values.as_slice()))?,
            None => JobSelection::of(self.alloc, Asked::JobIds)?,
        };
        let listing = Listing {
            queue,
            which: which_of(asked.which),
            user,
            first_id: asked.first_job,
            first_index: asked.first_index,
            limit: asked.limit,
            ids,
            changer: None,
            facts: Vec::new(self.alloc),
        };
        Ok(Worked::Work(Work::Jobs(ShownJobs { listing, selection }), Some(command)))
    }

    fn mine(&self, mine: bool) -> Result<Option<String>, AllocError> {
        if mine {
            Ok(Some(String::from_str(self.alloc, self.user)?))
        } else {
            Ok(None)
        }
    }

    // Cancels jobs that have not ended: those of the user, or of all users.
    fn cancel(
        &self,
        printers: &Printers<'_>,
        ids: Option<&MessageValues<'_>>,
        mine: bool,
        limit: Option<u32>,
    ) -> Result<Worked, AllocError> {
        let queue = self.queue(printers)?;
        let command = list_line(self.alloc, &queue, 1)?;
        let user = self.mine(mine)?;
        let ids = numbers(self.alloc, ids)?;
        let listing = Listing {
            queue,
            which: WhichJobs::NotCompleted,
            user,
            first_id: None,
            first_index: None,
            limit,
            ids,
            changer: Some(self.caller.place),
            facts: Vec::new(self.alloc),
        };
        let stops = Stops {
            jobs: Vec::new(self.alloc),
            at: 0,
            is_listed: false,
        };
        Ok(Worked::Work(Work::CancelJobs(listing, stops), Some(command)))
    }
}

fn which_of(which: ipp_requests::WhichJobs) -> WhichJobs {
    match which {
        ipp_requests::WhichJobs::Aborted => WhichJobs::Aborted,
        ipp_requests::WhichJobs::All => WhichJobs::All,
        ipp_requests::WhichJobs::Canceled => WhichJobs::Canceled,
        ipp_requests::WhichJobs::Completed => WhichJobs::Completed,
        ipp_requests::WhichJobs::NotCompleted => WhichJobs::NotCompleted,
        ipp_requests::WhichJobs::Pending => WhichJobs::Pending,
        ipp_requests::WhichJobs::PendingHeld => WhichJobs::PendingHeld,
        ipp_requests::WhichJobs::Processing => WhichJobs::Processing,
        ipp_requests::WhichJobs::ProcessingStopped => WhichJobs::ProcessingStopped,
    }
}

// Returns the positive numbers among the values, in ascending order.
fn numbers(alloc: Global, values: Option<&MessageValues<'_>>) -> Result<Vec<u32>, AllocError> {
    let mut numbers = Vec::new(alloc);
    if let Some(values) = values {
        for value in values.as_slice() {
            if let Value::Integer(number) = value {
                if *number > 0 {
                    numbers.push(*number as u32)?;
                }
            }
        }
    }
    numbers.as_mut_slice().sort_unstable();
    Ok(numbers)
}

// Returns the first command alone, if there is one.
fn first_of(alloc: Global, command: Option<Vec<u8>>) -> Result<VecDeque<Vec<u8>>, AllocError> {
    let mut commands = VecDeque::new(alloc);
    if let Some(command) = command {
        commands.push_back(command)?;
    }
    Ok(commands)
}

/// Returns at most this many bytes of a text, with `?` for each control character.
pub fn plain(alloc: Global, text: &str, most: usize) -> Result<String, AllocError> {
    let mut plain = String::new(alloc);
    for c in text.chars() {
        if plain.len() + c.len_utf8() > most {
            break;
        }
        plain.push(if c.is_ascii_control() { '?' } else { c })?;
    }
    Ok(plain)
}
