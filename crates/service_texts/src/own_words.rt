//! The words of the service.
ghost use Rattle.std.specs.Prelude.{◌≡◌, IfOk, map};
ghost use Rattle.line_words.specs.WordFields.{bytes_of};
ghost use Rattle.command_lines.specs.CommandGrammar.{job_in};
ghost use Rattle.command_lines.specs.CommandNumbers.{number_of};
ghost use Rattle.command_lines.specs.CommandWords.{words_of};
ghost use Rattle.spool_types.specs.Values.{is_file_name, text_in};
ghost use Rattle.service_texts.specs.ServiceWords.{alone, close_at, close_at_word, close_word, find_word, followed, has_words, is_blank_line, list_word, lone_job, lone_number, own_word, queue_word, with_words};

use crate::selection::{Selection, selection_in};
use crate::token::TokenText;
use command_lines::{job_number, number_of, words_of};
use line_words::{Word, first_word};
use spool_types::{FileName, JobId, MediaType, QueueName};
use std::alloc::{AllocError, Global};

/// A request to the service itself.
#[derive(Drop)]
pub enum OwnWord {
    /// Show this job with all its fields.
    Job(JobId),
    /// Wait until this job has ended.
    Wait(JobId),
    /// Terminate the running child of this job.
    End(JobId),
    /// Cancel this job and terminate its running child.
    Stop(JobId),
    /// Send all changes from now on.
    Watch,
    /// Send all changes after this one.
    WatchFrom(u64),
    /// End the service.
    Shutdown,
    /// Name a folder by which the client proves who it is.
    Challenge,
    /// The folder is made.
    Prove,
    /// Show this queue with all its fields.
    Queue(QueueName),
    /// Show a piece of the jobs.
    List(Selection),
    /// Find the job that has this token among its options.
    Find(TokenText),
    /// Show the incoming jobs whose clients have disconnected.
    Incoming,
    /// Show how large a document may be that is accepted now.
    Room,
    /// Show the moment of the service.
    Now,
    /// Close this job, whose document has this name and this media type.
    CloseAs {
        job: JobId,
        name: FileName,
        media: MediaType,
    },
    /// Close this job if its document has this size. The document has this name and, if one is given, this media type.
    CloseAt {
        job: JobId,
        size: u64,
        name: FileName,
        media: Option<MediaType>,
    },
    /// Show all queues.
    Printers,
    /// Show why this job does not print.
    Why(JobId),
}

/// The request to the service on a line, if the line is one.
pub fn own_word(alloc: Global, line: &[u8]) -> Result<Option<OwnWord>, AllocError>
    ensures { IfOk result (λ word. word ≡ own_word line.now) }
{
    let (name, rest) = first_word(line);
    if is_blank_line(rest) {
        Ok(alone(name))
    } else {
        followed(alloc, name, rest)
    }
}

// The request of a word that nothing follows.
fn alone(name: &[u8]) -> Option<OwnWord>
    ensures { result ≡ alone name.now }
{
    if name == b"watch".as_slice() {
        return Some(OwnWord::Watch);
    }
    if name == b"shutdown".as_slice() {
        return Some(OwnWord::Shutdown);
    }
    if name == b"i-am".as_slice() {
        return Some(OwnWord::Challenge);
    }
    if name == b"made".as_slice() {
        return Some(OwnWord::Prove);
    }
    if name == b"list".as_slice() {
        return Some(OwnWord::List(Selection::all()));
    }
    if name == b"incoming".as_slice() {
        return Some(OwnWord::Incoming);
    }
    if name == b"room".as_slice() {
        return Some(OwnWord::Room);
    }
    if name == b"now".as_slice() {
        return Some(OwnWord::Now);
    }
    if name == b"printers".as_slice() {
        return Some(OwnWord::Printers);
    }
    None
}

// The request of a word and the rest of its line.
fn followed(alloc: Global, name: &[u8], rest: &[u8]) -> Result<Option<OwnWord>, AllocError>
    ensures { IfOk result (λ word. word ≡ followed name.now rest.now) }
{
    if name == b"job".as_slice() {
        return Ok(lone_job(rest).map(|job| OwnWord::Job(job)));
    }
    if name == b"wait".as_slice() {
        return Ok(lone_job(rest).map(|job| OwnWord::Wait(job)));
    }
    if name == b"end".as_slice() {
        return Ok(lone_job(rest).map(|job| OwnWord::End(job)));
    }
    if name == b"stop".as_slice() {
        return Ok(lone_job(rest).map(|job| OwnWord::Stop(job)));
    }
    if name == b"why".as_slice() {
        return Ok(lone_job(rest).map(|job| OwnWord::Why(job)));
    }
    if name == b"watch".as_slice() {
        return Ok(lone_number(rest).map(|number| OwnWord::WatchFrom(number)));
    }
    if !has_words(name) {
        return Ok(None);
    }
    match words_of(alloc, rest)? {
        Some(words) => with_words(alloc, name, &words),
        None => Ok(None),
    }
}

// Whether further words may follow this one.
fn has_words(name: &[u8]) -> bool
    ensures { result ≡ has_words name.now }
{
    name == b"queue".as_slice()
        || name == b"list".as_slice()
        || name == b"find".as_slice()
        || name == b"close".as_slice()
        || name == b"closeat".as_slice()
}

// The request of a word and further words.
fn with_words(alloc: Global, name: &[u8], words: &[Word<'_>]) -> Result<Option<OwnWord>, AllocError>
    ensures { IfOk result (λ word. word ≡ with_words name.now (map bytes_of words.now)) }
{
    if name == b"queue".as_slice() {
        return queue_word(alloc, words);
    }
    if name == b"list".as_slice() {
        return list_word(alloc, words);
    }
    if name == b"find".as_slice() {
        return find_word(alloc, words);
    }
    if name == b"close".as_slice() {
        return close_word(alloc, words);
    }
    if name == b"closeat".as_slice() {
        return close_at_word(alloc, words);
    }
    Ok(None)
}

// `queue NAME`
fn queue_word(alloc: Global, words: &[Word<'_>]) -> Result<Option<OwnWord>, AllocError>
    ensures { IfOk result (λ word. word ≡ queue_word (map bytes_of words.now)) }
{
    let [name] = words else {
        return Ok(None);
    };
    let name = QueueName::from_word(alloc, name.bytes())?;
    Ok(name.map(|name| OwnWord::Queue(name)))
}

// `list [queue Q] [state S] [user U] [from N] [most M]`
fn list_word(alloc: Global, words: &[Word<'_>]) -> Result<Option<OwnWord>, AllocError>
    ensures { IfOk result (λ word. word ≡ list_word (map bytes_of words.now)) }
{
    let selection = selection_in(alloc, words)?;
    Ok(selection.map(|selection| OwnWord::List(selection)))
}

// `find TOKEN`
fn find_word(alloc: Global, words: &[Word<'_>]) -> Result<Option<OwnWord>, AllocError>
    ensures { IfOk result (λ word. word ≡ find_word (map bytes_of words.now)) }
{
    let [token] = words else {
        return Ok(None);
    };
    let token = TokenText::from_word(alloc, token.bytes())?;
    Ok(token.map(|token| OwnWord::Find(token)))
}

// `close JOB NAME TYPE`
fn close_word(alloc: Global, words: &[Word<'_>]) -> Result<Option<OwnWord>, AllocError>
    ensures { IfOk result (λ word. word ≡ close_word (map bytes_of words.now)) }
{
    let [job, name, media] = words else {
        return Ok(None);
    };
    let name = FileName::from_word(alloc, name.bytes())?;
    let media = MediaType::from_word(alloc, media.bytes())?;
    match (job_number(job.bytes()), name, media) {
        (Some(job), Some(name), Some(media)) => Ok(Some(OwnWord::CloseAs { job, name, media })),
        _ => Ok(None),
    }
}

// `closeat JOB SIZE NAME [TYPE]`
fn close_at_word(alloc: Global, words: &[Word<'_>]) -> Result<Option<OwnWord>, AllocError>
    ensures { IfOk result (λ word. word ≡ close_at_word (map bytes_of words.now)) }
{
    match words {
        [job, size, name] => close_at(alloc, job.bytes(), size.bytes(), name.bytes(), None),
        [job, size, name, media] => {
            let Some(media) = MediaType::from_word(alloc, media.bytes())? else {
                return Ok(None);
            };
            close_at(alloc, job.bytes(), size.bytes(), name.bytes(), Some(media))
        }
        _ => Ok(None),
    }
}

// The request to close a job whose document has this size, from the words for both and for the document's name.
fn close_at(
    alloc: Global,
    job: &[u8],
    size: &[u8],
    name: &[u8],
    media: Option<MediaType>,
) -> Result<Option<OwnWord>, AllocError>
    ensures { IfOk result (λ word. word ≡ close_at (job_in job.now) (number_of size.now) (text_in is_file_name name.now) media) }
{
    let name = FileName::from_word(alloc, name)?;
    match (job_number(job), number_of(size), name) {
        (Some(job), Some(size), Some(name)) => Ok(Some(OwnWord::CloseAt {
            job,
            size,
            name,
            media,
        })),
        _ => Ok(None),
    }
}

// The number of a job, if nothing follows it on the line.
fn lone_job(line: &[u8]) -> Option<JobId>
    ensures { result ≡ lone_job line.now }
{
    let (word, rest) = first_word(line);
    if is_blank_line(rest) {
        job_number(word)
    } else {
        None
    }
}

// The number of a change, if nothing follows it on the line.
fn lone_number(line: &[u8]) -> Option<u64>
    ensures { result ≡ lone_number line.now }
{
    let (word, rest) = first_word(line);
    if is_blank_line(rest) {
        number_of(word)
    } else {
        None
    }
}

// Whether the line has blanks only.
fn is_blank_line(line: &[u8]) -> bool
    ensures { result ≡ is_blank_line line.now }
{
    let (word, _) = first_word(line);
    word.is_empty()
}
