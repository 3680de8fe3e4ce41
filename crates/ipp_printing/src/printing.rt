//! A job of a client, whose documents become jobs of the service.
ghost use Rattle.std.specs.Prelude.{◌≡◌, ◌⊎◌, ◌++◌, ℕ, List, None, [], false, codes, slice_get, string_bytes, IfOk, OnErr, OnOk};
ghost use Rattle.std.specs.Fmt.{decimal};
ghost use Rattle.std.specs.Option.{option_map};
ghost use Rattle.ipp_submission.specs.JobParts.{current, given_up, heard_in, is_ended, lost_in, next_request};
ghost use Rattle.ipp_options.specs.declared.hold.Hold.TheVariants.{Indefinite};
ghost use Rattle.ipp_printing.specs.JobCommands.{blank_after, close_line, closeat_line, closeat_words, command_of, create_line, document_media, document_name, document_words, find_line, follower_of, hold_line, job_line, last_line, media_of, media_word, option_text, search_line, size_after};
ghost use Rattle.ipp_printing.specs.PrintingJobs.{HearsSome, heard_by, heard_last, is_search, kept_by, kept_last, rows_reply, submission_of};

use command_lines::push_quoted;
use front_submission::{Found, Own, Reply, Request, Shown, Step};
use ipp_access::Place;
use ipp_facts::{error_in, shown_in};
use ipp_options::Hold;
use ipp_requests::ServiceError;
use ipp_submission::Submission;
use service_client::send_text;
use service_replies::{closing_reply, reply_in, shown_of};
use std::alloc::{AllocError, Global};
use std::io::Write;
use std::str;

/// The type of any bytes. A queue of this type prints each document as it is.
pub const RAW: &str = "application/octet-stream";

const NO_JOBS: Found = Found {
    own: None,
    another: None,
};

/// The name and the type of a document.
#[derive(Drop)]
pub struct DocumentName {
    pub name: String,
    /// The type, unless it is to be detected.
    pub media: Option<String>,
}

/// A job that is being created.
#[derive(Drop)]
pub struct PrintingJob {
    pub submission: Submission,
    /// `create` and its words before the options.
    pub create: Vec<u8>,
    pub options: String,
    pub token: String,
    pub hold: Hold,
    pub user: String,
    /// Where the client came from.
    pub place: Place,
    pub documents: Vec<DocumentName>,
    /// Whether the queue prints any document as it is.
    pub is_raw: bool,
    /// Whether the document of the last part has begun.
    pub has_document: bool,
    /// The piece that is sent.
    pub piece: Vec<u8>,
    /// The job that a search has found.
    pub found: Option<u32>,
    /// The reply to the last piece, until that to its close has come.
    pub sent: Option<Reply>,
    /// The last error of the service.
    pub error: ServiceError,
    /// Whether the service has put the last command off.
    pub is_put_off: bool,
    /// When a client used it last, in seconds.
    pub used: u64,
}

impl PrintingJob {
    /// Returns the number of the job of the first part, if there is one.
    pub fn number(&self) -> Option<u32> {
        match self.submission.parts().first() {
            Some(step) => number_in(*step),
            None => None,
        }
    }

    /// Returns whether nothing more happens: the jobs are closed, or the submission has failed.
    pub fn is_over(&self) -> bool
        ensures { result ≡ is_ended (current (submission_of self.now)) }
    {
        self.submission.is_over()
    }

    /// Notes that the client gives the job up.
    pub fn give_up(&mut self)
        ensures { submission_of self.new ≡ given_up (submission_of self.old) }
    {
        self.submission.give_up();
    }

    /// Returns when a client used the job last, in seconds.
    pub fn used(&self) -> u64
        ensures { result ≡ self.now.used }
    {
        self.used
    }

    /// Notes that a client uses the job now.
    pub fn note_use(&mut self, seconds: u64)
        ensures { self.new ≡ record self.old { used = seconds } }
    {
        self.used = seconds;
    }

    /// Returns the next command, if there is one.
    pub fn command(&self, alloc: Global) -> Result<Option<Vec<u8>>, AllocError>
        ensures { IfOk result (λ line. option_map (λ line. line.items) line ≡ command_of self.now) }
    {
        let next = self.submission.request();
        let line = match next.request {
            Request::Create => self.create_line(alloc, next.part)?,
            Request::Find => self.search_line(alloc, next.part)?,
            Request::Send {
                job,
                last: false,
                ..
            } => send_text(alloc, job, self.piece.as_slice())?,
            Request::Send {
                job,
                size,
                piece,
                ..
            } => self.last_line(alloc, next.part, job, size_after(size, piece))?,
            Request::Show { job } => job_line(alloc, "job", job)?,
            Request::Hold { job } => hold_line(alloc, job, &self.hold)?,
            Request::Close { job } => self.close_line(alloc, next.part, job)?,
            Request::Cancel { job } => job_line(alloc, "cancel", job)?,
            Request::Read { .. } | Request::Nothing => return Ok(None),
        };
        Ok(Some(line))
    }

    /// Returns the command that may be sent together with [`PrintingJob::command`], before its reply. It is the close after the last piece of the
    /// document. The replies to both are reported in their order.
    pub fn follower(&self, alloc: Global) -> Result<Option<Vec<u8>>, AllocError>
        ensures { IfOk result (λ line. option_map (λ line. line.items) line ≡ follower_of self.now) }
    {
        if self.sent.is_some() {
            return Ok(None);
        }
        let next = self.submission.request();
        match next.request {
            Request::Send {
                job,
                size,
                piece,
                last: true,
            } => {
                let size = size_after(size, piece);
                Ok(Some(self.closeat_line(alloc, next.part, job, size)?))
            }
            _ => Ok(None),
        }
    }

    fn create_line(&self, alloc: Global, part: usize) -> Result<Vec<u8>, AllocError>
        ensures { IfOk result (λ line. line.items ≡ create_line self.now part) }
    {
        let mut line = Vec::from_slice(alloc, self.create.as_slice())?;
        let text = self.option_text(alloc, part)?;
        push_quoted(&mut line, text.as_str())?;
        line.extend_from_slice(b"\n")?;
        Ok(line)
    }

    // Returns the options, and the token of a part.
    fn option_text(&self, alloc: Global, part: usize) -> Result<String, AllocError>
        ensures { IfOk result (λ text. string_bytes text ≡ option_text self.now part) }
    {
        let mut text = String::from_str(alloc, self.options.as_str())?;
        text.push_str(blank_after(self.options.as_str()))?;
        text.push_str("submission=")?;
        text.push_str(self.token.as_str())?;
        text.push_str(part_text(alloc, part)?.as_str())?;
        Ok(text)
    }

    // Returns the command for the number of the job of a part, or for its state once the number is known.
    fn search_line(&self, alloc: Global, part: usize) -> Result<Vec<u8>, AllocError>
        ensures { IfOk result (λ line. line.items ≡ search_line self.now.found self.now part) }
    {
        match self.found {
            Some(job) => job_line(alloc, "job", job),
            None => self.find_line(alloc, part),
        }
    }

    fn find_line(&self, alloc: Global, part: usize) -> Result<Vec<u8>, AllocError>
        ensures { IfOk result (λ line. line.items ≡ find_line self.now part) }
    {
        let token = self.token.as_str();
        let mut line = Vec::new(alloc);
        write!(line, "find {token}-{part}\n").map_err(|_| AllocError)?;
        Ok(line)
    }

    // Returns the command for the last piece, or for its close once the reply to the piece has come.
    fn last_line(
        &self,
        alloc: Global,
        part: usize,
        job: u32,
        size: u64,
    ) -> Result<Vec<u8>, AllocError>
        ensures { IfOk result (λ line. line.items ≡ last_line self.now.sent self.now part job size) }
    {
        match self.sent {
            Some(_) => self.closeat_line(alloc, part, job, size),
            None => send_text(alloc, job, self.piece.as_slice()),
        }
    }

    fn closeat_line(
        &self,
        alloc: Global,
        part: usize,
        job: u32,
        size: u64,
    ) -> Result<Vec<u8>, AllocError>
        ensures { IfOk result (λ line. line.items ≡ closeat_line self.now part job size) }
    {
        let mut line = closeat_words(alloc, job, size)?;
        self.push_document(&mut line, part)?;
        Ok(line)
    }

    fn close_line(&self, alloc: Global, part: usize, job: u32) -> Result<Vec<u8>, AllocError>
        ensures { IfOk result (λ line. line.items ≡ close_line self.now part job) }
    {
        let mut line = Vec::new(alloc);
        write!(line, "close {job} ").map_err(|_| AllocError)?;
        self.push_document(&mut line, part)?;
        Ok(line)
    }

    // Appends the name of a document, its type, and the end of the line.
    fn push_document(&self, line: &mut Vec<u8>, part: usize) -> Result<(), AllocError>
        ensures { OnOk result (line.new.items ≡ line.old.items ++ document_words self.now part) }
    {
        push_quoted(line, self.name(part))?;
        push_media(line, self.media(part))?;
        line.extend_from_slice(b"\n")?;
        Ok(())
    }

    // Returns the name of a document.
    fn name(&self, part: usize) -> &str
        ensures { result.now ≡ document_name (slice_get self.now.documents.items part) }
    {
        document_name(self.documents.get(part))
    }

    // Returns the type of a document, unless it is to be detected.
    fn media(&self, part: usize) -> Option<&str>
        ensures { option_map (λ media. media.now) result ≡ media_of self.now part }
    {
        if self.is_raw {
            Some(RAW)
        } else {
            document_media(self.documents.get(part))
        }
    }

    /// Takes the reply to the command.
    pub fn heard(&mut self, alloc: Global, reply: &service_client::Reply) -> Result<(), AllocError>
        ensures hears { OnOk result (HearsSome (submission_of self.old) (submission_of self.new)) }
        ensures heard { OnOk result (is_search (next_request (submission_of self.old)) ≡ false → (last : List ℕ) × ((last ≡ reply.now.last.items) ⊎ (last ≡ []))
            × (submission_of self.new ≡ heard_by self.old (next_request (submission_of self.old)) last reply.now.rows.items)
            × (self.new.sent ≡ kept_by self.old.sent (next_request (submission_of self.old)) last)) }
        ensures err { OnErr result (submission_of self.new ≡ submission_of self.old) }
    {
        let last = match str::from_utf8(reply.last.as_slice()) {
            Ok(last) => last,
            Err(_) => "",
        };
        self.take(alloc, last, reply.rows.as_slice())
    }

    // Takes a reply with this last line.
    fn take(&mut self, alloc: Global, last: &str, rows: &[Vec<u8>]) -> Result<(), AllocError>
        ensures hears { OnOk result (HearsSome (submission_of self.old) (submission_of self.new)) }
        ensures heard { OnOk result (is_search (next_request (submission_of self.old)) ≡ false →
            (submission_of self.new ≡ heard_by self.old (next_request (submission_of self.old)) last.now rows.now)
            × (self.new.sent ≡ kept_by self.old.sent (next_request (submission_of self.old)) last.now)) }
        ensures err { OnErr result (submission_of self.new ≡ submission_of self.old) }
    {
        let reply = reply_in(last);
        let request = self.submission.request().request;
        if let Request::Send { last: true, .. } = request {
            self.heard_last(last, reply);
            return Ok(());
        }
        self.note(last, reply);
        match request {
            Request::Find => self.heard_search(alloc, reply, rows),
            Request::Show { .. } => self.heard_rows(alloc, reply, rows),
            _ => {
                self.submission.heard(reply);
                Ok(())
            }
        }
    }

    // Takes the reply to the last piece, or that to its close. If the piece was refused, the close is refused for that alone.
    fn heard_last(&mut self, last: &str, reply: Reply)
        ensures heard { submission_of self.new ≡ heard_last self.old.sent (submission_of self.old) reply }
        ensures kept { self.new.sent ≡ kept_last self.old.sent reply }
    {
        match self.sent.take() {
            None => {
                self.note(last, reply);
                self.is_put_off = false;
                self.sent = Some(reply);
            }
            Some(sent) => {
                let both = closing_reply(sent, reply);
                self.is_put_off = matches!(both, Reply::Later);
                self.submission.heard(both);
            }
        }
    }

    // Notes the error of a reply, and whether the service has put the command off.
    fn note(&mut self, last: &str, reply: Reply)
        ensures submission { submission_of self.new ≡ submission_of self.old }
        ensures sent { self.new.sent ≡ self.old.sent }
    {
        self.is_put_off = matches!(reply, Reply::Later);
        if matches!(
            reply,
            Reply::Later | Reply::Denied | Reply::NotIncoming | Reply::Gone
        ) {
            self.error = error_in(last);
        }
    }

    // Takes the reply to `job N`.
    fn heard_rows(
        &mut self,
        alloc: Global,
        reply: Reply,
        rows: &[Vec<u8>],
    ) -> Result<(), AllocError>
        ensures ok { OnOk result (submission_of self.new ≡ heard_in (submission_of self.old) (rows_reply reply rows.now)) }
        ensures sent { self.new.sent ≡ self.old.sent }
        ensures err { OnErr result (submission_of self.new ≡ submission_of self.old) }
    {
        let reply = rows_reply(alloc, reply, rows)?;
        self.submission.heard(reply);
        Ok(())
    }

    // A search has two commands: the number of the job, and its state.
    fn heard_search(
        &mut self,
        alloc: Global,
        reply: Reply,
        rows: &[Vec<u8>],
    ) -> Result<(), AllocError>
        ensures ok { OnOk result (HearsSome (submission_of self.old) (submission_of self.new)) }
        ensures err { OnErr result (submission_of self.new ≡ submission_of self.old) }
    {
        if self.found.is_none() {
            self.heard_number(reply);
            return Ok(());
        }
        let found = found_in(alloc, rows, self.found)?;
        self.found = None;
        self.submission.heard(Reply::Jobs { found });
        Ok(())
    }

    // Takes the number of the job, whose state is asked for next.
    fn heard_number(&mut self, reply: Reply)
        ensures { HearsSome (submission_of self.old) (submission_of self.new) }
    {
        match reply {
            Reply::Created { job } => self.found = Some(job),
            Reply::Gone => self.submission.heard(Reply::Jobs { found: NO_JOBS }),
            reply => self.submission.heard(reply),
        }
    }

    /// Notes that the connection was lost before the reply.
    pub fn lost(&mut self)
        ensures submission { submission_of self.new ≡ lost_in (submission_of self.old) }
        ensures sent { self.new.sent ≡ None }
    {
        self.found = None;
        self.sent = None;
        self.is_put_off = false;
        self.submission.lost();
    }
}

fn part_text(alloc: Global, part: usize) -> Result<String, AllocError>
    ensures { IfOk result (λ text. string_bytes text ≡ codes "-" ++ decimal part) }
{
    format!(in alloc; "-{part}")
}

fn blank_after(options: &str) -> &'static str
    ensures { result.now ≡ blank_after options.now }
{
    if options.is_empty() { "" } else { " " }
}

fn document_name(document: Option<&DocumentName>) -> &str
    ensures { result.now ≡ document_name (option_map (λ document. document.now) document.entry) }
{
    match document {
        Some(document) => document.name.as_str(),
        None => "document",
    }
}

fn document_media(document: Option<&DocumentName>) -> Option<&str>
    ensures { option_map (λ media. media.now) result ≡ document_media (option_map (λ document. document.now) document.entry) }
{
    match &document?.media {
        Some(media) => Some(media.as_str()),
        None => None,
    }
}

fn closeat_words(alloc: Global, job: u32, size: u64) -> Result<Vec<u8>, AllocError>
    ensures { IfOk result (λ line. line.items ≡ closeat_words job size) }
{
    let mut line = Vec::new(alloc);
    write!(line, "closeat {job} {size} ").map_err(|_| AllocError)?;
    Ok(line)
}

// Returns the size of a document after a piece.
fn size_after(size: u64, piece: u32) -> u64
    ensures { result ≡ size_after size piece }
{
    size.saturating_add(u64::from(piece))
}

fn push_media(line: &mut Vec<u8>, media: Option<&str>) -> Result<(), AllocError>
    ensures { OnOk result (line.new.items ≡ line.old.items ++ media_word (option_map (λ media. media.now) media.entry)) }
{
    if let Some(media) = media {
        line.extend_from_slice(b" ")?;
        line.extend_from_slice(media.as_bytes())?;
    }
    Ok(())
}

// Returns what a reply to `job N` means.
fn rows_reply(alloc: Global, reply: Reply, rows: &[Vec<u8>]) -> Result<Reply, AllocError>
    ensures { IfOk result (λ found. found ≡ rows_reply reply rows.now) }
{
    if rows.is_empty() {
        return Ok(reply);
    }
    match shown_in(alloc, rows)? {
        Some(job) => Ok(Reply::Job {
            shown: shown_of(&job),
        }),
        None => Ok(Reply::Unclear),
    }
}

// Returns the job of a search, if it is still incoming.
fn found_in(alloc: Global, rows: &[Vec<u8>], job: Option<u32>) -> Result<Found, AllocError> {
    let mut found = NO_JOBS;
    let Some(job) = job else {
        return Ok(found);
    };
    if let Some(shown) = shown_in(alloc, rows)? {
        if let Shown::Arriving { size } = shown_of(&shown) {
            found.own = Some(Own { job, size });
        }
    }
    Ok(found)
}

fn number_in(step: Step) -> Option<u32> {
    match step {
        Step::Reading { job, .. }
        | Step::Sending { job, .. }
        | Step::Measuring { job, .. }
        | Step::Holding { job, .. }
        | Step::Closing { job, .. }
        | Step::Checking { job, .. }
        | Step::Canceling { job, .. } => Some(job),
        Step::Ended { end } => match end {
            front_submission::End::Accepted { job }
            | front_submission::End::Unprintable { job }
            | front_submission::End::Unknown { job } => Some(job),
            front_submission::End::Refused { job, .. } => job,
        },
        Step::Creating { .. } | Step::Finding | Step::Clearing { .. } => None,
    }
}

/// Returns a command with the number of a job.
pub fn job_line(alloc: Global, word: &str, job: u32) -> Result<Vec<u8>, AllocError>
    ensures { IfOk result (λ line. line.items ≡ job_line word.now job) }
{
    let mut line = Vec::new(alloc);
    write!(line, "{word} {job}\n").map_err(|_| AllocError)?;
    Ok(line)
}

/// Returns `hold`, or `release` for no hold.
pub fn hold_line(alloc: Global, job: u32, hold: &Hold) -> Result<Vec<u8>, AllocError>
    ensures { IfOk result (λ line. line.items ≡ hold_line job hold.now) }
{
    match hold {
        Hold::Free => job_line(alloc, "release", job),
        Hold::Indefinite => indefinite_line(alloc, job),
        Hold::Until(moment) => moment_line(alloc, job, moment.get()),
    }
}

fn indefinite_line(alloc: Global, job: u32) -> Result<Vec<u8>, AllocError>
    ensures { IfOk result (λ line. line.items ≡ hold_line job Indefinite) }
{
    let mut line = Vec::new(alloc);
    write!(line, "hold {job} indefinite\n").map_err(|_| AllocError)?;
    Ok(line)
}

fn moment_line(alloc: Global, job: u32, seconds: u64) -> Result<Vec<u8>, AllocError>
    ensures { IfOk result (λ line. line.items ≡ codes "hold " ++ decimal job ++ codes " " ++ decimal seconds ++ codes "\n") }
{
    let mut line = Vec::new(alloc);
    write!(line, "hold {job} {seconds}\n").map_err(|_| AllocError)?;
    Ok(line)
}
