//! The grammar of a line.
ghost use Rattle.std.specs.Prelude.{◌≡◌, IfOk, map};
ghost use Rattle.std.specs.Option.{option_map};
ghost use Rattle.spool_types.specs.declared.event.Event.{Event};
ghost use Rattle.command_lines.specs.declared.command.Command.{Command};
ghost use Rattle.command_lines.specs.declared.command.Kind.{Kind};
ghost use Rattle.spool_types.specs.Values.{is_queue_name, is_uri, is_note, text_in, media_in};
ghost use Rattle.line_words.specs.WordFields.{bytes_of};
ghost use Rattle.command_lines.specs.CommandGrammar.{kind_of, is_remark, kind_in, line_of, one_word, one_word_line, queue_line, new_queue_of, info_line, info_of, creation_in, create_line, createby_line, send_line, send_of, close_line, close_of, hold_line, jobs_line, queues_line, round_line, drain_line, checkpoint_line, rounds_in, queue_in, policy_in};

use crate::command::{Command, Creation, Kind, Rounds};
use crate::numbers::{job_number, moment_number, ranged_number, short_number, small_number};
use crate::words::words_of;
use line_words::Word;
use spool_types::{
    Copies, Event, FileName, Interval, MediaType, Moment, NewQueue, Note, OptionText, Policy,
    Priority, QueueName, QueueNotes, Title, Uri, UserName,
};
use std::alloc::{AllocError, Global};

/// The greatest length of a line in bytes, without its line feed. A remark may be longer.
pub const LONGEST_LINE: usize = 4096;

/// The first byte of a remark.
pub const REMARK: u8 = b'#';

// The interval in seconds and the limit of a queue that states none (JobRetryInterval and JobRetryLimit, cupsd.conf(5)).
const USUAL_INTERVAL: u32 = 30;

const USUAL_LIMIT: u16 = 5;

/// Returns the meaning of the line.
#[tactic(auto, unfolding(crate::specs::CommandGrammar::kind_of))]
pub fn kind_of(alloc: Global, line: &[u8]) -> Result<Kind, AllocError>
    ensures { IfOk result (λ kind. kind ≡ kind_of line.now) }
{
    if is_remark(line) {
        return Ok(Kind::Remark);
    }
    if LONGEST_LINE < line.len() {
        return Ok(Kind::Says(Command::Malformed));
    }
    let Some(words) = words_of(alloc, line)? else {
        return Ok(Kind::Says(Command::Malformed));
    };
    match kind_of_words(alloc, &words)? {
        Some(kind) => Ok(kind),
        None => Ok(Kind::Says(Command::Malformed)),
    }
}

// Returns whether the line has no reply: it is empty, or begins with `#`.
fn is_remark(line: &[u8]) -> bool
    ensures { result ≡ is_remark line.now }
{
    match line.first() {
        Some(b) => *b == REMARK,
        None => true,
    }
}

// Returns the meaning of the words of a line, or `None` if they are no command.
fn kind_of_words(alloc: Global, words: &[Word<'_>]) -> Result<Option<Kind>, AllocError>
    ensures { IfOk result (λ kind. kind ≡ kind_in (map bytes_of words.now)) }
{
    match words {
        [] => Ok(None),
        [name, words @ ..] => line_of_command(alloc, name.bytes(), words),
    }
}

// A line that asks for this event.
fn applies(event: Event) -> Kind
    ensures { result ≡ Kind.Says (Command.Apply event) }
{
    Kind::Says(Command::Apply(event))
}

// Returns the meaning of the words after the name of a command.
fn line_of_command(
    alloc: Global,
    name: &[u8],
    words: &[Word<'_>],
) -> Result<Option<Kind>, AllocError>
    ensures { IfOk result (λ kind. kind ≡ line_of name.now (map bytes_of words.now)) }
{
    if name == b"jobs".as_slice() {
        return Ok(jobs_line(words));
    }
    if name == b"queues".as_slice() {
        return Ok(queues_line(words));
    }
    if name == b"round".as_slice() {
        return Ok(round_line(words));
    }
    if name == b"drain".as_slice() {
        return Ok(drain_line(words));
    }
    if name == b"checkpoint".as_slice() {
        return Ok(checkpoint_line(words));
    }
    if name == b"queue".as_slice() {
        return queue_line(alloc, words);
    }
    if name == b"info".as_slice() {
        return info_line(alloc, words);
    }
    if name == b"create".as_slice() {
        return create_line(alloc, words);
    }
    if name == b"createby".as_slice() {
        return createby_line(alloc, words);
    }
    if name == b"send".as_slice() {
        return Ok(send_line(words));
    }
    if name == b"close".as_slice() {
        return close_line(alloc, words);
    }
    if name == b"hold".as_slice() {
        return Ok(hold_line(words));
    }
    one_word_line(alloc, name, words)
}

// A command of one word.
fn one_word_line(alloc: Global, name: &[u8], words: &[Word<'_>]) -> Result<Option<Kind>, AllocError>
    ensures { IfOk result (λ kind. kind ≡ one_word_line name.now (map bytes_of words.now)) }
{
    let [word] = words else {
        return Ok(None);
    };
    match event_of_word(alloc, name, word.bytes())? {
        Some(event) => Ok(Some(applies(event))),
        None => Ok(None),
    }
}

// Returns the event of a command of one word.
fn event_of_word(alloc: Global, name: &[u8], word: &[u8]) -> Result<Option<Event>, AllocError>
    ensures { IfOk result (λ event. event ≡ one_word name.now word.now) }
{
    if name == b"accept".as_slice() {
        return set_accept(alloc, word, true);
    }
    if name == b"reject".as_slice() {
        return set_accept(alloc, word, false);
    }
    if name == b"enable".as_slice() {
        return set_stop(alloc, word, false);
    }
    if name == b"disable".as_slice() {
        return set_stop(alloc, word, true);
    }
    if name == b"release".as_slice() {
        return Ok(job_number(word).map(|job| Event::Release(job)));
    }
    if name == b"cancel".as_slice() {
        return Ok(job_number(word).map(|job| Event::Cancel(job)));
    }
    if name == b"abandon".as_slice() {
        return Ok(job_number(word).map(|job| Event::Abandon(job)));
    }
    if name == b"purge".as_slice() {
        return Ok(job_number(word).map(|job| Event::Purge(job)));
    }
    if name == b"clock".as_slice() {
        return Ok(moment_number(word).map(|moment| Event::Clock(moment)));
    }
    Ok(None)
}

fn set_accept(alloc: Global, word: &[u8], accepting: bool) -> Result<Option<Event>, AllocError>
    ensures { IfOk result (λ event. event ≡ option_map (λ queue. Event.SetAccept queue accepting) (queue_in word.now)) }
{
    let queue = QueueName::from_word(alloc, word)?;
    Ok(queue.map(|queue| Event::SetAccept { queue, accepting }))
}

fn set_stop(alloc: Global, word: &[u8], stopped: bool) -> Result<Option<Event>, AllocError>
    ensures { IfOk result (λ event. event ≡ option_map (λ queue. Event.SetStop queue stopped) (queue_in word.now)) }
{
    let queue = QueueName::from_word(alloc, word)?;
    Ok(queue.map(|queue| Event::SetStop { queue, stopped }))
}

// `queue NAME URI TYPE POLICY [INTERVAL [LIMIT]]`
fn queue_line(alloc: Global, words: &[Word<'_>]) -> Result<Option<Kind>, AllocError>
    ensures { IfOk result (λ kind. kind ≡ queue_line (map bytes_of words.now)) }
{
    match words {
        [name, uri, target, policy] => new_queue(
            alloc,
            name.bytes(),
            uri.bytes(),
            target.bytes(),
            policy.bytes(),
            Interval::new(USUAL_INTERVAL),
            Some(USUAL_LIMIT),
        ),
        [name, uri, target, policy, interval] => new_queue(
            alloc,
            name.bytes(),
            uri.bytes(),
            target.bytes(),
            policy.bytes(),
            ranged_number(interval.bytes()),
            Some(USUAL_LIMIT),
        ),
        [name, uri, target, policy, interval, limit] => new_queue(
            alloc,
            name.bytes(),
            uri.bytes(),
            target.bytes(),
            policy.bytes(),
            ranged_number(interval.bytes()),
            short_number(limit.bytes()),
        ),
        _ => Ok(None),
    }
}

// Returns the queue of these words.
fn new_queue(
    alloc: Global,
    name: &[u8],
    uri: &[u8],
    target: &[u8],
    policy: &[u8],
    interval: Option<Interval>,
    limit: Option<u16>,
) -> Result<Option<Kind>, AllocError>
    ensures { IfOk result (λ kind. kind ≡ new_queue_of (text_in is_queue_name name.now) (text_in is_uri uri.now) (media_in target.now) (policy_in policy.now) interval limit) }
{
    let name = QueueName::from_word(alloc, name)?;
    let uri = Uri::from_word(alloc, uri)?;
    let target = MediaType::from_word(alloc, target)?;
    match (name, uri, target, policy_of(policy), interval, limit) {
        (Some(name), Some(uri), Some(target), Some(policy), Some(interval), Some(limit)) => {
            Ok(Some(Kind::Says(Command::Queue(NewQueue {
                name,
                uri,
                target,
                policy,
                interval,
                limit,
            }))))
        }
        _ => Ok(None),
    }
}

// `info QUEUE INFO LOCATION`
fn info_line(alloc: Global, words: &[Word<'_>]) -> Result<Option<Kind>, AllocError>
    ensures { IfOk result (λ kind. kind ≡ info_line (map bytes_of words.now)) }
{
    match words {
        [queue, info, location] => notes(alloc, queue.bytes(), info.bytes(), location.bytes()),
        _ => Ok(None),
    }
}

// Returns the notes on a queue in these words.
fn notes(
    alloc: Global,
    queue: &[u8],
    info: &[u8],
    location: &[u8],
) -> Result<Option<Kind>, AllocError>
    ensures { IfOk result (λ kind. kind ≡ info_of (text_in is_queue_name queue.now) (text_in is_note info.now) (text_in is_note location.now)) }
{
    let queue = QueueName::from_word(alloc, queue)?;
    let info = Note::from_word(alloc, info)?;
    let location = Note::from_word(alloc, location)?;
    match (queue, info, location) {
        (Some(queue), Some(info), Some(location)) => {
            Ok(Some(applies(Event::Info(QueueNotes {
                queue,
                info,
                location,
            }))))
        }
        _ => Ok(None),
    }
}

// `create QUEUE USER TITLE COPIES PRIORITY OPTIONS`
fn create_line(alloc: Global, words: &[Word<'_>]) -> Result<Option<Kind>, AllocError>
    ensures { IfOk result (λ kind. kind ≡ create_line (map bytes_of words.now)) }
{
    match words {
        [queue, user, title, copies, priority, options] => creation(
            alloc,
            queue.bytes(),
            user.bytes(),
            title.bytes(),
            copies.bytes(),
            priority.bytes(),
            options.bytes(),
            None,
        ),
        _ => Ok(None),
    }
}

// `createby QUEUE USER TITLE COPIES PRIORITY OPTIONS MOMENT`
fn createby_line(alloc: Global, words: &[Word<'_>]) -> Result<Option<Kind>, AllocError>
    ensures { IfOk result (λ kind. kind ≡ createby_line (map bytes_of words.now)) }
{
    let [queue, user, title, copies, priority, options, by] = words else {
        return Ok(None);
    };
    let Some(by) = moment_number(by.bytes()) else {
        return Ok(None);
    };
    creation(
        alloc,
        queue.bytes(),
        user.bytes(),
        title.bytes(),
        copies.bytes(),
        priority.bytes(),
        options.bytes(),
        Some(by),
    )
}

// Returns the job of these words, and the moment by which it must start, if any.
fn creation(
    alloc: Global,
    queue: &[u8],
    user: &[u8],
    title: &[u8],
    copies: &[u8],
    priority: &[u8],
    options: &[u8],
    by: Option<Moment>,
) -> Result<Option<Kind>, AllocError>
    ensures { IfOk result (λ kind. kind ≡ creation_in queue.now user.now title.now copies.now priority.now options.now by) }
{
    let queue = QueueName::from_word(alloc, queue)?;
    let user = UserName::from_word(alloc, user)?;
    let title = Title::from_word(alloc, title)?;
    let copies: Option<Copies> = ranged_number(copies);
    let priority: Option<Priority> = ranged_number(priority);
    let options = OptionText::from_word(alloc, options)?;
    match (queue, user, title, copies, priority, options) {
        (Some(queue), Some(user), Some(title), Some(copies), Some(priority), Some(options)) => {
            Ok(Some(Kind::Says(Command::Create(Creation {
                queue,
                user,
                title,
                copies,
                priority,
                options,
                by,
            }))))
        }
        _ => Ok(None),
    }
}

// `send JOB N`
fn send_line(words: &[Word<'_>]) -> Option<Kind>
    ensures { result ≡ send_line (map bytes_of words.now) }
{
    let [job, count] = words else {
        return None;
    };
    match (job_number(job.bytes()), small_number(count.bytes())) {
        (Some(job), Some(count)) => Some(Kind::Takes { job, count }),
        _ => None,
    }
}

// `close JOB NAME`
fn close_line(alloc: Global, words: &[Word<'_>]) -> Result<Option<Kind>, AllocError>
    ensures { IfOk result (λ kind. kind ≡ close_line (map bytes_of words.now)) }
{
    let [job, name] = words else {
        return Ok(None);
    };
    let name = FileName::from_word(alloc, name.bytes())?;
    match (job_number(job.bytes()), name) {
        (Some(job), Some(name)) => Ok(Some(Kind::Says(Command::Close { job, name }))),
        _ => Ok(None),
    }
}

// `hold JOB MOMENT` and `hold JOB indefinite`
fn hold_line(words: &[Word<'_>]) -> Option<Kind>
    ensures { result ≡ hold_line (map bytes_of words.now) }
{
    let [job, until] = words else {
        return None;
    };
    let job = job_number(job.bytes())?;
    let until = if until.bytes() == b"indefinite".as_slice() {
        None
    } else {
        Some(moment_number(until.bytes())?)
    };
    Some(applies(Event::Hold { job, until }))
}

// `jobs`
fn jobs_line(words: &[Word<'_>]) -> Option<Kind>
    ensures { result ≡ jobs_line (map bytes_of words.now) }
{
    match words {
        [] => Some(Kind::Says(Command::Jobs)),
        _ => None,
    }
}

// `queues`
fn queues_line(words: &[Word<'_>]) -> Option<Kind>
    ensures { result ≡ queues_line (map bytes_of words.now) }
{
    match words {
        [] => Some(Kind::Says(Command::Queues)),
        _ => None,
    }
}

// `round`
fn round_line(words: &[Word<'_>]) -> Option<Kind>
    ensures { result ≡ round_line (map bytes_of words.now) }
{
    match words {
        [] => Some(Kind::Says(Command::Round)),
        _ => None,
    }
}

// `drain ROUNDS`
fn drain_line(words: &[Word<'_>]) -> Option<Kind>
    ensures { result ≡ drain_line (map bytes_of words.now) }
{
    let [count] = words else {
        return None;
    };
    let most: Rounds = ranged_number(count.bytes())?;
    Some(Kind::Says(Command::Drain(most)))
}

// `checkpoint`
fn checkpoint_line(words: &[Word<'_>]) -> Option<Kind>
    ensures { result ≡ checkpoint_line (map bytes_of words.now) }
{
    match words {
        [] => Some(Kind::Says(Command::Checkpoint)),
        _ => None,
    }
}

fn policy_of(word: &[u8]) -> Option<Policy>
    ensures { result ≡ policy_in word.now }
{
    if word == Policy::AbortJob.word().as_bytes() {
        return Some(Policy::AbortJob);
    }
    if word == Policy::RetryJob.word().as_bytes() {
        return Some(Policy::RetryJob);
    }
    if word == Policy::RetryCurrentJob.word().as_bytes() {
        return Some(Policy::RetryCurrentJob);
    }
    if word == Policy::StopPrinter.word().as_bytes() {
        return Some(Policy::StopPrinter);
    }
    None
}
