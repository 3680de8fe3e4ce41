//! Printing files, each of which becomes a job.
ghost use Rattle.std.specs.Prelude.{◌≡◌, IsTrue};
ghost use Rattle.std.specs.Io.KnownBytes.{IsAtEnd};
ghost use Rattle.spool_front.specs.DocumentPieces.{rest_of};
ghost use Rattle.spool_front.specs.JobDrafts.{IsLastPart};
ghost use Rattle.spool_front.specs.Submissions.{is_refused, is_removed, status_at, told_of, was_closed};

use crate::client::{Client, pause};
use crate::commands::Draft;
use crate::document::Document;
use crate::draft::draft_of;
use crate::fault::{Fault, first_failure};
use crate::host::Screen;
use crate::json_lines::{accepted_json, print_json};
use crate::moments::{Clocks, clocks_for_job};
use crate::services::{Services, client_at, queue_of};
use crate::submit::Submitting;
use clean_texts::clean;
use front_submission::End;
use front_texts::{JobShown, JobState};
use front_words::Submission;
use std::io::{BufRead, Read};
use std::{fs, io};
use system_reasons::reason_of;

// The status if a document cannot be read, if the outcome of a job is unknown, and if a job was not completed.
const FAILED: u8 = 1;

const NOT_KNOWN: u8 = 3;

const NOT_COMPLETED: u8 = 5;

/// Prints the files in order, and returns the status of the first one that fails.
pub fn print_files(
    rt: &HostRuntime,
    services: Services<'_, '_>,
    asked: &Submission<'_>,
    screen: Screen,
) -> Result<u8, Fault> {
    let screen = Screen {
        shows: screen.shows && !asked.quiet,
        width: screen.width,
    };
    let (socket, queue) = queue_of(rt, services, asked.queue)?;
    let mut client = client_at(rt, services, socket);
    let status = print_all(rt, &mut client, asked, queue.as_str(), screen);
    drop(client);
    status
}

fn print_all(
    rt: &HostRuntime,
    client: &mut Client<'_>,
    asked: &Submission<'_>,
    queue: &str,
    screen: Screen,
) -> Result<u8, Fault> {
    let clocks = clocks_for_job(rt, client, asked)?;
    if asked.files.is_empty() {
        return print_input(rt, client, asked, clocks, queue, screen);
    }
    let mut status = 0;
    for file in &asked.files {
        let ended = print_named(rt, client, asked, clocks, queue, file, screen)?;
        status = first_failure(status, ended);
    }
    Ok(status)
}

fn print_named(
    rt: &HostRuntime,
    client: &mut Client<'_>,
    asked: &Submission<'_>,
    clocks: Clocks,
    queue: &str,
    file: &str,
    screen: Screen,
) -> Result<u8, Fault> {
    if file == "-" {
        return print_input(rt, client, asked, clocks, queue, screen);
    }
    let source = match fs::open(rt, file) {
        Ok(source) => source,
        Err(error) => return Ok(report_unopened(rt, file, &error)),
    };
    let size = size_of(rt, file);
    if is_refused(asked.filled, size) {
        drop(source);
        return Ok(report_empty(rt, file));
    }
    let name = base_name(file);
    let draft = draft_of(rt, asked, clocks, queue, name, name)?;
    let status = print_document(rt, client, asked, &draft, size, source, screen)?;
    if is_removed(asked.remove, status) {
        remove(rt, file);
    }
    Ok(status)
}

fn report_unopened(rt: &HostRuntime, file: &str, error: &io::Error) -> u8
    ensures { result ≡ 1 }
{
    let file = clean(file);
    let _ = match reason_of(rt.alloc(), error) {
        Ok(why) => eprintln!(rt; "spool: cannot open {file}: {why}"),
        Err(_) => eprintln!(rt; "spool: cannot open {file}"),
    };
    FAILED
}

fn report_empty(rt: &HostRuntime, file: &str) -> u8
    ensures { result ≡ 1 }
{
    let _ = eprintln!(rt; "spool: {} is empty, so nothing is printed", clean(file));
    FAILED
}

// Returns whether a document of this length is refused. The length of some documents is not known.
fn is_refused(filled: bool, size: Option<u64>) -> bool
    ensures { result ≡ is_refused filled size }
{
    match size {
        Some(size) => filled && size == 0,
        None => false,
    }
}

// Returns whether a file is removed: its job was accepted.
fn is_removed(remove: bool, status: u8) -> bool
    ensures { result ≡ is_removed remove status }
{
    remove && status == 0
}

fn remove(rt: &HostRuntime, file: &str) {
    if fs::remove_file(rt, file).is_err() {
        let _ = eprintln!(rt; "spool: cannot remove {}", clean(file));
    }
}

fn print_input(
    rt: &HostRuntime,
    client: &mut Client<'_>,
    asked: &Submission<'_>,
    clocks: Clocks,
    queue: &str,
    screen: Screen,
) -> Result<u8, Fault> {
    let mut source = rt.reader();
    if asked.filled && is_at_end(&mut source) {
        drop(source);
        return Ok(report_empty(rt, "standard input"));
    }
    let draft = draft_of(rt, asked, clocks, queue, "(stdin)", "")?;
    print_document(rt, client, asked, &draft, None, source, screen)
}

// Returns whether a document has no further byte. An error is reported by the next read.
fn is_at_end<S: BufRead>(source: &mut S) -> bool {
    match source.fill_buf() {
        Ok(bytes) => bytes.is_empty(),
        Err(_) => false,
    }
}

// Returns the length of a regular file in bytes. Other files have none that is known before they are read.
fn size_of(rt: &HostRuntime, file: &str) -> Option<u64> {
    match fs::metadata(rt, file) {
        Ok(found) if found.is_file() => Some(found.len()),
        _ => None,
    }
}

// Returns the last part of a path.
fn base_name(path: &str) -> &str
    ensures { IsLastPart path.now result.now }
{
    match path.rsplit_once('/') {
        Some((_, name)) => name,
        None => path,
    }
}

fn print_document<S: Read + Drop>(
    rt: &HostRuntime,
    client: &mut Client<'_>,
    asked: &Submission<'_>,
    draft: &Draft,
    size: Option<u64>,
    source: S,
    screen: Screen,
) -> Result<u8, Fault> {
    let mut document = Document::new(rt.alloc(), source)?;
    let submitting = Submitting::new(rt, draft, size, screen);
    let end = submit(rt, client, told_of(asked), submitting, &mut document);
    drop(document);
    match end {
        End::Accepted { job } if asked.wait => Ok(wait_for(rt, client, job, screen)),
        _ => Ok(end.status()),
    }
}

// How an accepted job is reported.
#[derive(Clone, Copy)]
enum Told {
    Nothing,
    Json,
    Text,
}

fn told_of(asked: &Submission<'_>) -> Told
    ensures { result ≡ told_of asked.now.quiet asked.now.json }
{
    if asked.quiet {
        Told::Nothing
    } else if asked.json {
        Told::Json
    } else {
        Told::Text
    }
}

// Submits a document and reports the outcome.
fn submit<S: Read + Drop>(
    rt: &HostRuntime,
    client: &mut Client<'_>,
    told: Told,
    submitting: Submitting<'_>,
    document: &mut Document<S>,
) -> End
    ensures { IsTrue (was_closed result) → IsAtEnd (rest_of (S.remaining document.new.source) document.new) }
{
    let mut submitting = submitting;
    let end = submitting.submit(client, document);
    submitting.end_line();
    report(rt, told, end, &submitting);
    drop(submitting);
    end
}

// Reports the outcome of a submission. A report that cannot be written does not change the status.
fn report(rt: &HostRuntime, told: Told, end: End, submitting: &Submitting<'_>) {
    let queue = clean(submitting.queue());
    match end {
        End::Accepted { job } => report_accepted(rt, told, submitting.queue(), job),
        End::Unprintable { job } => {
            let _ = eprintln!(rt;
                "spool: job {job} cannot be printed: no chain of filters converts it for {queue}"
            );
        }
        End::Unknown { job } => {
            let _ = eprintln!(rt; "spool: cannot determine whether job {job} will be printed");
        }
        End::Refused {
            job,
            cause,
            canceled,
        } => report_refused(
            rt,
            submitting.queue(),
            job,
            submitting.cause_text(cause),
            canceled,
        ),
    }
}

fn report_accepted(rt: &HostRuntime, told: Told, queue: &str, job: u32) {
    match told {
        Told::Nothing => {}
        Told::Json => {
            if let Ok(object) = accepted_json(rt.alloc(), queue, job) {
                let _ = print_json(rt, object);
            }
        }
        Told::Text => {
            let _ = println!(rt;
                "request id is {queue}-{job} (1 file(s))",
                queue = clean(queue)
            );
        }
    }
}

fn report_refused(rt: &HostRuntime, queue: &str, job: Option<u32>, cause: &str, canceled: bool) {
    let (queue, cause) = (clean(queue), clean(cause));
    let _ = match job {
        Some(job) if canceled => {
            eprintln!(rt; "spool: cannot print on {queue}: {cause}; job {job} was canceled")
        }
        Some(job) => {
            eprintln!(rt; "spool: cannot print on {queue}: {cause}; job {job} is not printed")
        }
        None => eprintln!(rt; "spool: cannot print on {queue}: {cause}"),
    };
}

// Waits until the job has ended, and returns the status. On a terminal it shows the progress.
fn wait_for(rt: &HostRuntime, client: &mut Client<'_>, job: u32, screen: Screen) -> u8 {
    for _ in 0..u64::MAX {
        if let Some(status) = status_of(rt, client, job, screen) {
            return status;
        }
        pause(rt);
    }
    NOT_KNOWN
}

// Returns the status if the job has ended or cannot be queried.
fn status_of(rt: &HostRuntime, client: &mut Client<'_>, job: u32, screen: Screen) -> Option<u8> {
    match client.job(job) {
        Ok(Some(shown)) => report_shown(rt, shown, screen),
        Ok(None) => Some(report_gone(rt, job)),
        Err(fault) => Some(report_unknown(rt, job, fault)),
    }
}

fn report_shown(rt: &HostRuntime, shown: JobShown, screen: Screen) -> Option<u8>
    ensures { result ≡ status_at shown.job_status.state }
{
    report_way(rt, &shown, screen);
    let status = end_of(rt, &shown);
    drop(shown);
    status
}

// Reports that a job was removed, so that it is unknown whether it was completed.
fn report_gone(rt: &HostRuntime, job: u32) -> u8
    ensures { result ≡ 5 }
{
    let _ = eprintln!(rt; "spool: job {job} has ended and was removed");
    NOT_COMPLETED
}

fn report_unknown(rt: &HostRuntime, job: u32, fault: Fault) -> u8
    ensures { result ≡ 3 }
{
    let _ = eprintln!(rt; "spool: cannot determine the outcome of job {job}: {fault}");
    drop(fault);
    NOT_KNOWN
}

fn report_way(rt: &HostRuntime, shown: &JobShown, screen: Screen) {
    if !screen.shows {
        return;
    }
    let pages = shown.job_status.pages;
    let _ = match shown.job_status.state {
        JobState::Processing => eprint!(rt; "\rspool: printing, {pages} pages done "),
        JobState::Completed => eprintln!(rt; "\rspool: done, {pages} pages         "),
        _ => eprint!(rt; "\rspool: queued                 "),
    };
}

// Returns the status if the job has ended, and reports why it is not completed.
fn end_of(rt: &HostRuntime, shown: &JobShown) -> Option<u8>
    ensures { result ≡ status_at shown.now.job_status.state }
{
    match shown.job_status.state {
        JobState::Completed => Some(0),
        JobState::Canceled | JobState::Aborted => {
            report_end(rt, shown);
            Some(NOT_COMPLETED)
        }
        _ => None,
    }
}

fn report_end(rt: &HostRuntime, shown: &JobShown) {
    let job = shown.asked.number.get();
    let state = shown.job_status.state.word();
    let _ = match &shown.job_status.reason {
        Some(reason) => {
            let reason = reason.as_str();
            eprintln!(rt; "spool: job {job} was {state}: {reason}")
        }
        None => eprintln!(rt; "spool: job {job} was {state}"),
    };
}
