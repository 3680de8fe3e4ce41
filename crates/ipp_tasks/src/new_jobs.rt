//! The work of requests that create a job or send its documents.
use crate::answers::unsupported_group;
use crate::job_changes::ChangeKind;
use crate::parked::Parked;
use crate::requests::{Beginning, LONGEST_NAME, Worked, plain};
use crate::submitting::{NewJob, NewKind, Submitting};
use crate::tasks::{Work, queue_line};
use command_lines::push_quoted;
use ipp_access::prefix;
use ipp_names::Status;
use ipp_options::{Hold, JobSettings, SettingsFault, Unsupported, read_settings};
use ipp_printing::{DocumentName, PrintingJob, RAW};
use ipp_requests::{Document, JobTarget, MessageText, NewJob as NewJobOf, ServiceError};
use ipp_submission::Submission;
use ipp_values::{Attribute, Group, GroupTag, Message};
use std::alloc::{AllocError, Global};
use std::io::Write;

// The name of a document that has none.
const NO_NAME: &str = "document";

// The job attributes that may also be among the operation attributes, as CUPS sends them.
static STRAYS: [&str; 19] = [
    "copies",
    "finishings",
    "job-hold-until",
    "job-hold-until-time",
    "job-priority",
    "job-sheets",
    "media",
    "media-col",
    "multiple-document-handling",
    "number-up",
    "orientation-requested",
    "output-bin",
    "page-ranges",
    "print-color-mode",
    "print-content-optimize",
    "print-quality",
    "print-scaling",
    "printer-resolution",
    "sides",
];

impl<'a> Beginning<'a> {
    /// Begins a request for a job that waits for its documents.
    pub(crate) fn further(
        &self,
        job: &JobTarget<'_>,
        document: Option<DocumentName>,
        is_last: bool,
        parked: &mut Parked,
    ) -> Result<Worked, AllocError> {
        let Some((number, _)) = self.number(job)? else {
            return Ok(Worked::Answer(Status::NotPossible));
        };
        match parked.get(number) {
            Some(job) if !self.is_of_client(job) => {
                return Ok(Worked::Answer(Status::NotAuthorized));
            }
            Some(_) => {}
            None => return self.change(job, ChangeKind::Nothing),
        }
        let Some(job) = parked.take(number) else {
            return Ok(Worked::Answer(Status::NotFound));
        };
        let work = Work::Printing(Submitting {
            job,
            takes: document.is_some(),
            is_last,
            further: document,
            unsupported: Vec::new(self.alloc),
            shows: false,
        });
        Ok(Worked::Work(work, None))
    }

    // Whether the client is where the client of the job was, and names the same user.
    fn is_of_client(&self, job: &PrintingJob) -> bool {
        job.user.as_str() == self.user && prefix(job.place) == prefix(self.caller.place)
    }

    /// Returns the name and the type of a document.
    pub(crate) fn document(&self, document: &Document<'_>) -> Result<DocumentName, AllocError> {
        let media = media_of(self.alloc, document.format.as_ref())?;
        let name = match &document.name {
            Some(name) => plain(self.alloc, name.as_str(), LONGEST_NAME)?,
            None => String::from_str(self.alloc, NO_NAME)?,
        };
        Ok(DocumentName { name, media })
    }

    /// Begins a request for a new job.
    pub(crate) fn new_job(
        &self,
        kind: NewKind,
        asked: &NewJobOf<'_>,
    ) -> Result<Worked, AllocError> {
        match self.name(&asked.printer)? {
            Some(queue) => self.new_job_on(kind, asked, queue.as_str()),
            None => Ok(Worked::Answer(Status::NotFound)),
        }
    }

    fn new_job_on(
        &self,
        kind: NewKind,
        asked: &NewJobOf<'_>,
        queue: &str,
    ) -> Result<Worked, AllocError> {
        let printer = self.world.printers.printer(queue);
        let attributes = job_attributes(self.alloc, self.message)?;
        let read = read_settings(
            self.alloc,
            &printer,
            attributes.as_slice(),
            asked.is_exact,
            self.world.moment(),
        );
        match read {
            Ok(settings) => self.with_settings(kind, asked, queue, &settings),
            Err(fault) => self.unsettled(fault),
        }
    }

    fn with_settings(
        &self,
        kind: NewKind,
        asked: &NewJobOf<'_>,
        queue: &str,
        settings: &JobSettings<'_>,
    ) -> Result<Worked, AllocError> {
        let command = queue_line(self.alloc, queue)?;
        let media = media_of(self.alloc, asked.document.format.as_ref())?;
        let unsupported = names_of(self.alloc, settings.unsupported.as_slice())?;
        let job = self.printing(asked, queue, settings)?;
        let work = Work::New(NewJob {
            kind,
            media,
            job,
            unsupported,
        });
        Ok(Worked::Work(work, Some(command)))
    }

    // Refuses a job whose attributes may not be left out.
    fn unsettled(&self, fault: SettingsFault<'_>) -> Result<Worked, AllocError> {
        let status = Status::AttributesOrValuesNotSupported;
        match fault {
            SettingsFault::Memory => Err(AllocError),
            SettingsFault::TooLong => Ok(Worked::Answer(status)),
            SettingsFault::Unsupported(attributes) => {
                let groups = self.unsupported(attributes.as_slice())?;
                Ok(Worked::Refused(status, groups))
            }
        }
    }

    fn unsupported(&self, attributes: &[Unsupported<'_>]) -> Result<Vec<Group>, AllocError> {
        let names = names_of(self.alloc, attributes)?;
        let mut groups = Vec::new(self.alloc);
        groups.push(unsupported_group(self.alloc, names.as_slice())?)?;
        Ok(groups)
    }

    // Returns `create` and its words before the options.
    fn create_words(
        &self,
        asked: &NewJobOf<'_>,
        queue: &str,
        settings: &JobSettings<'_>,
    ) -> Result<Vec<u8>, AllocError> {
        let copies = settings.copies.get();
        let priority = settings.priority.get();
        let mut create = Vec::new(self.alloc);
        write!(create, "create {queue} ").map_err(|_| AllocError)?;
        push_quoted(&mut create, self.user)?;
        create.push(b' ')?;
        self.push_title(&mut create, asked)?;
        write!(create, " {copies} {priority} ").map_err(|_| AllocError)?;
        Ok(create)
    }

    // The title of a job without a name is that of its document.
    fn push_title(&self, create: &mut Vec<u8>, asked: &NewJobOf<'_>) -> Result<(), AllocError> {
        let name = match &asked.name {
            Some(name) => name.as_str(),
            None => match &asked.document.name {
                Some(name) => name.as_str(),
                None => NO_NAME,
            },
        };
        let title = plain(self.alloc, name, LONGEST_NAME)?;
        push_quoted(create, title.as_str())
    }

    fn printing(
        &self,
        asked: &NewJobOf<'_>,
        queue: &str,
        settings: &JobSettings<'_>,
    ) -> Result<PrintingJob, AllocError> {
        let place = prefix(self.caller.place);
        let digits = self.caller.digits;
        let holds = !matches!(settings.hold, Hold::Free);
        Ok(PrintingJob {
            create: self.create_words(asked, queue, settings)?,
            options: String::from_str(self.alloc, settings.options.as_str())?,
            token: format!(in self.alloc; "{place}{digits}")?,
            user: String::from_str(self.alloc, self.user)?,
            submission: Submission::new(self.alloc, holds)?,
            documents: self.documents(&asked.document)?,
            hold: settings.hold,
            place: self.caller.place,
            is_raw: false,
            has_document: false,
            piece: Vec::new(self.alloc),
            found: None,
            sent: None,
            error: ServiceError::Away,
            is_put_off: false,
            used: self.world.seconds,
        })
    }

    fn documents(&self, document: &Document<'_>) -> Result<Vec<DocumentName>, AllocError> {
        let mut documents = Vec::new(self.alloc);
        documents.push(self.document(document)?)?;
        Ok(documents)
    }
}

// Returns the names of attributes that are not supported.
fn names_of(alloc: Global, attributes: &[Unsupported<'_>]) -> Result<Vec<String>, AllocError> {
    let mut names = Vec::new(alloc);
    for other in attributes {
        names.push(String::from_str(alloc, other.attribute.name.as_str())?)?;
    }
    Ok(names)
}

// Returns the type of a document, unless it is to be detected.
fn media_of(alloc: Global, format: Option<&MessageText<'_>>) -> Result<Option<String>, AllocError> {
    match format {
        Some(format) if format.as_str() != RAW => {
            Ok(Some(String::from_str(alloc, format.as_str())?))
        }
        _ => Ok(None),
    }
}

// Returns the job attributes of a message. CUPS reads those among the operation attributes, too.
fn job_attributes<'m>(
    alloc: Global,
    message: &'m Message,
) -> Result<Vec<&'m Attribute>, AllocError> {
    let mut attributes = Vec::new(alloc);
    let job = message.group(GroupTag::Job);
    if let Some(group) = job {
        for attribute in group.attributes.as_slice() {
            attributes.push(attribute)?;
        }
    }
    if let Some(group) = message.group(GroupTag::Operation) {
        for attribute in group.attributes.as_slice() {
            if is_stray(job, attribute.name.as_str()) {
                attributes.push(attribute)?;
            }
        }
    }
    Ok(attributes)
}

// Returns whether the group of the job lacks a job attribute of this name.
fn is_stray(job: Option<&Group>, name: &str) -> bool {
    let is_known = STRAYS.iter().any(|stray| *stray == name);
    match job {
        Some(group) => is_known && group.attribute(name).is_none(),
        None => is_known,
    }
}
