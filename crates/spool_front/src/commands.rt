//! The commands that are sent to a service.
ghost use Rattle.std.specs.Prelude.{◌≡◌, ◌++◌, IfOk, OnOk};
ghost use Rattle.std.specs.List.{list_any};
ghost use Rattle.std.specs.Option.{option_map};
ghost use Rattle.front_proof.specs.Standings.{standing_of};
ghost use Rattle.spool_front.specs.SentCommands.{close_line, closeat_line, create_line, create_word, find_line, hold_line, identified_user, info_line, is_control, job_line, job_user, list_line, media_word, moment_word, name_line, names, queue_line, ranks, text_word};

use command_lines::push_quoted;
use front_proof::Caller;
use front_words::NewQueue;
use std::alloc::{AllocError, Global};
use std::io::Write;

/// The end of a hold.
#[derive(Clone, Copy)]
pub enum Until {
    Released,
    Reached(u64),
}

/// A job to be created.
#[derive(Drop)]
pub struct Draft {
    pub queue: String,
    /// The owner, if the service does not know who the client is.
    pub user: String,
    /// Whether the user has named the owner.
    pub is_named: bool,
    pub title: String,
    pub copies: u32,
    pub priority: u32,
    /// The options, including the token.
    pub options: String,
    /// The option that no other job has, which identifies this job.
    pub token: String,
    /// The moment by which the job must have started.
    pub by: Option<u64>,
    /// The end of the job's hold, if it is held.
    pub hold: Option<Until>,
    /// The name of its file, from which the type is detected.
    pub name: String,
    /// The media type, if the user names it.
    pub media: Option<String>,
}

/// Returns whether a text contains a control character. It could end the line of the command that contains the text.
pub fn has_control(text: &str) -> bool
    ensures { result ≡ list_any is_control text.now }
{
    text.as_bytes().iter().any(|b| *b < 32 || *b == 127)
}

/// Returns the owner of the job: a user who has proved who it is, unless the user has named the owner.
pub fn job_user<'a>(draft: &'a Draft, caller: Option<&'a Caller>) -> &'a str
    ensures { result.now ≡ job_user draft.now (option_map (λ caller. standing_of caller.now) caller.entry) }
{
    if draft.is_named {
        return draft.user.as_str();
    }
    match user_of(caller) {
        Some(name) => name,
        None => draft.user.as_str(),
    }
}

// Returns the name of a user whom the service has identified, and who is no operator.
fn user_of(caller: Option<&Caller>) -> Option<&str>
    ensures { option_map (λ name. name.now) result ≡ identified_user (option_map (λ caller. standing_of caller.now) caller.entry) }
{
    match caller {
        Some(caller) => caller.user(),
        None => None,
    }
}

/// Returns `create` for this owner, or `createby` if the draft has a moment.
pub fn create_line(alloc: Global, draft: &Draft, user: &str) -> Result<Vec<u8>, AllocError>
    ensures { IfOk result (λ line. line.items ≡ create_line draft.now user.now) }
{
    let mut line = create_word(alloc, draft.by)?;
    push_names(&mut line, draft, user)?;
    push_ranks(&mut line, draft)?;
    push_text(&mut line, draft.options.as_str())?;
    push_moment(&mut line, draft.by)?;
    line.extend_from_slice(b"\n")?;
    Ok(line)
}

fn create_word(alloc: Global, by: Option<u64>) -> Result<Vec<u8>, AllocError>
    ensures { IfOk result (λ line. line.items ≡ create_word by) }
{
    match by {
        Some(_) => Vec::from_slice(alloc, b"createby"),
        None => Vec::from_slice(alloc, b"create"),
    }
}

fn push_names(line: &mut Vec<u8>, draft: &Draft, user: &str) -> Result<(), AllocError>
    ensures { OnOk result (line.new.items ≡ line.old.items ++ names draft.now user.now) }
{
    push_text(line, draft.queue.as_str())?;
    push_text(line, user)?;
    push_text(line, draft.title.as_str())
}

fn push_ranks(line: &mut Vec<u8>, draft: &Draft) -> Result<(), AllocError>
    ensures { OnOk result (line.new.items ≡ line.old.items ++ ranks draft.now) }
{
    let copies = draft.copies;
    let priority = draft.priority;
    write!(line, " {copies} {priority}").map_err(|_| AllocError)
}

// Appends a blank and a text in quotes.
fn push_text(line: &mut Vec<u8>, text: &str) -> Result<(), AllocError>
    ensures { OnOk result (line.new.items ≡ line.old.items ++ text_word text.now) }
{
    line.extend_from_slice(b" ")?;
    push_quoted(line, text)
}

fn push_moment(line: &mut Vec<u8>, moment: Option<u64>) -> Result<(), AllocError>
    ensures { OnOk result (line.new.items ≡ line.old.items ++ moment_word moment) }
{
    let Some(moment) = moment else {
        return Ok(());
    };
    write!(line, " {moment}").map_err(|_| AllocError)
}

/// Returns `close`, with the media type if the draft has one.
pub fn close_line(alloc: Global, job: u32, draft: &Draft) -> Result<Vec<u8>, AllocError>
    ensures { IfOk result (λ line. line.items ≡ close_line job draft.now) }
{
    let mut line = Vec::new(alloc);
    write!(line, "close {job}").map_err(|_| AllocError)?;
    push_text(&mut line, draft.name.as_str())?;
    push_media(&mut line, &draft.media)?;
    line.extend_from_slice(b"\n")?;
    Ok(line)
}

/// Returns `closeat`, which closes a job only if its document has `size` bytes.
pub fn closeat_line(
    alloc: Global,
    job: u32,
    size: u64,
    draft: &Draft,
) -> Result<Vec<u8>, AllocError>
    ensures { IfOk result (λ line. line.items ≡ closeat_line job size draft.now) }
{
    let mut line = Vec::new(alloc);
    write!(line, "closeat {job} {size}").map_err(|_| AllocError)?;
    push_text(&mut line, draft.name.as_str())?;
    push_media(&mut line, &draft.media)?;
    line.extend_from_slice(b"\n")?;
    Ok(line)
}

fn push_media(line: &mut Vec<u8>, media: &Option<String>) -> Result<(), AllocError>
    ensures { OnOk result (line.new.items ≡ line.old.items ++ media_word media.now) }
{
    match media {
        Some(media) => push_text(line, media.as_str()),
        None => Ok(()),
    }
}

/// Returns `find`.
pub fn find_line(alloc: Global, token: &str) -> Result<Vec<u8>, AllocError>
    ensures { IfOk result (λ line. line.items ≡ find_line token.now) }
{
    let mut line = Vec::from_slice(alloc, b"find ")?;
    line.extend_from_slice(token.as_bytes())?;
    line.extend_from_slice(b"\n")?;
    Ok(line)
}

/// Returns `hold`.
pub fn hold_line(alloc: Global, job: u32, until: Until) -> Result<Vec<u8>, AllocError>
    ensures { IfOk result (λ line. line.items ≡ hold_line job until) }
{
    let mut line = Vec::new(alloc);
    match until {
        Until::Released => write!(line, "hold {job} indefinite\n").map_err(|_| AllocError)?,
        Until::Reached(moment) => write!(line, "hold {job} {moment}\n").map_err(|_| AllocError)?,
    }
    Ok(line)
}

/// Returns a command of a word and a job number.
pub fn job_line(alloc: Global, word: &str, job: u32) -> Result<Vec<u8>, AllocError>
    ensures { IfOk result (λ line. line.items ≡ job_line word.now job) }
{
    let mut line = Vec::new(alloc);
    write!(line, "{word} {job}\n").map_err(|_| AllocError)?;
    Ok(line)
}

/// Returns `list` for the jobs from a number on.
pub fn list_line(alloc: Global, from: u64) -> Result<Vec<u8>, AllocError>
    ensures { IfOk result (λ line. line.items ≡ list_line from) }
{
    let mut line = Vec::new(alloc);
    write!(line, "list from {from} most 100\n").map_err(|_| AllocError)?;
    Ok(line)
}

/// Returns a command of a word and the name of a queue.
pub fn name_line(alloc: Global, word: &str, name: &str) -> Result<Vec<u8>, AllocError>
    ensures { IfOk result (λ line. line.items ≡ name_line word.now name.now) }
{
    let mut line = Vec::from_slice(alloc, word.as_bytes())?;
    push_text(&mut line, name)?;
    line.extend_from_slice(b"\n")?;
    Ok(line)
}

/// Returns `info`.
pub fn info_line(
    alloc: Global,
    name: &str,
    info: &str,
    location: &str,
) -> Result<Vec<u8>, AllocError>
    ensures { IfOk result (λ line. line.items ≡ info_line name.now info.now location.now) }
{
    let mut line = Vec::from_slice(alloc, b"info")?;
    push_text(&mut line, name)?;
    push_text(&mut line, info)?;
    push_text(&mut line, location)?;
    line.extend_from_slice(b"\n")?;
    Ok(line)
}

/// Returns `queue`.
pub fn queue_line(alloc: Global, name: &str, queue: NewQueue<'_>) -> Result<Vec<u8>, AllocError>
    ensures { IfOk result (λ line. line.items ≡ queue_line name.now queue.entry) }
{
    let mut line = Vec::from_slice(alloc, b"queue")?;
    push_text(&mut line, name)?;
    push_text(&mut line, queue.uri)?;
    push_text(&mut line, queue.media)?;
    let policy = queue.policy;
    let interval = queue.interval;
    let limit = queue.limit;
    write!(line, " {policy} {interval} {limit}\n").map_err(|_| AllocError)?;
    Ok(line)
}
