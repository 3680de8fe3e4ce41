//! The output of `lpq`.
ghost use Rattle.std.specs.Prelude.{◌≡◌, ◌++◌, ◌+◌, ◌<◌, ◌≤◌, OnOk, IfOk};
ghost use Rattle.front_texts.specs.Lpq.{is_entry, has_entry, ready_line, rank_ending, rank_cell, owner_cell, number_cell, title_cell, bytes_part, entry_line, entry_part, next_rank, rank_after, entries, entries_text, queue_text};
ghost use Rattle.front_texts.specs.Lpq.{heading, long_entry, number_part, owner_part, short_entry};

use crate::job_line::JobLine;
use crate::lpstat::push_padded;
use crate::queue_line::QueueLine;
use crate::shown_user::owner_word;
use crate::states::{JobState, PrinterState};
use clean_texts::clean_text;
use spool_types::QueueName;
use std::alloc::{AllocError, Global};
use std::io::Write;

// The column names.
const HEADING: &str = "Rank    Owner   Job     File(s)                         Total Size\n";

/// Returns the output of `lpq` for a queue: its state, and its jobs that have not ended, in their order. In the long form a job has two
/// lines.
pub fn lpq(
    alloc: Global,
    queue: &QueueLine,
    jobs: &[JobLine],
    long: bool,
) -> Result<Vec<u8>, AllocError>
    ensures value { IfOk result (λ text. text.items ≡ queue_text long queue.now jobs.now) }
{
    let mut text = Vec::new(alloc);
    push_ready(&mut text, queue)?;
    push_listing(alloc, &mut text, jobs, &queue.name, long)?;
    Ok(text)
}

fn push_listing(
    alloc: Global,
    text: &mut Vec<u8>,
    jobs: &[JobLine],
    queue: &QueueName,
    long: bool,
) -> Result<(), AllocError>
    ensures { OnOk result (text.new.items ≡ text.old.items ++ entries_text long queue.now jobs.now) }
{
    if !has_entry(jobs, queue) {
        return text.extend_from_slice(b"no entries\n");
    }
    text.extend_from_slice(heading(long).as_bytes())?;
    push_entries(alloc, text, jobs, queue, long)
}

fn heading(long: bool) -> &'static str
    ensures { result.now ≡ heading long }
{
    if long { "\n" } else { HEADING }
}

fn has_entry(jobs: &[JobLine], queue: &QueueName) -> bool
    ensures { result ≡ has_entry queue.now jobs.now }
{
    jobs.iter().any(|job| is_entry(job, queue))
}

fn is_entry(job: &JobLine, queue: &QueueName) -> bool
    ensures { result ≡ is_entry queue.now job.now }
{
    !job.has_ended() && job.queue == *queue
}

fn push_ready(text: &mut Vec<u8>, queue: &QueueLine) -> Result<(), AllocError>
    ensures { OnOk result (text.new.items ≡ text.old.items ++ ready_line queue.now) }
{
    let name = queue.name.as_str();
    match queue.state {
        PrinterState::Idle => write!(text, "{name} is ready\n").map_err(|_| AllocError),
        PrinterState::Processing => {
            write!(text, "{name} is ready and printing\n").map_err(|_| AllocError)
        }
        PrinterState::Stopped => write!(text, "{name} is not ready\n").map_err(|_| AllocError),
    }
}

fn push_entries(
    alloc: Global,
    text: &mut Vec<u8>,
    jobs: &[JobLine],
    queue: &QueueName,
    long: bool,
) -> Result<(), AllocError>
    ensures { OnOk result (text.new.items ≡ text.old.items ++ entries long queue.now 1 jobs.now) }
{
    let mut rank: usize = 1;
    for job in jobs {
        rank = push_if_entry(alloc, text, job, queue, rank, long)?;
    }
    Ok(())
}

// Appends a job if it is shown, and returns the rank of the next one.
fn push_if_entry(
    alloc: Global,
    text: &mut Vec<u8>,
    job: &JobLine,
    queue: &QueueName,
    rank: usize,
    long: bool,
) -> Result<usize, AllocError>
    requires { rank < usize.MAX }
    ensures added { OnOk result (text.new.items ≡ text.old.items ++ entry_part long queue.now rank job.now) }
    ensures rank { IfOk result (λ next. next ≡ rank_after queue.now rank job.now) }
    ensures low { IfOk result (λ next. next ≤ rank + 1) }
{
    if !is_entry(job, queue) {
        return Ok(rank);
    }
    push_entry(alloc, text, job, rank, long)?;
    Ok(next_rank(job, rank))
}

// Returns the rank of the next job. A processing job has no rank.
fn next_rank(job: &JobLine, rank: usize) -> usize
    requires { rank < usize.MAX }
    ensures value { result ≡ next_rank rank job.now }
    ensures low { result ≤ rank + 1 }
{
    if job.state == JobState::Processing {
        rank
    } else {
        rank + 1
    }
}

fn push_entry(
    alloc: Global,
    text: &mut Vec<u8>,
    job: &JobLine,
    rank: usize,
    long: bool,
) -> Result<(), AllocError>
    ensures { OnOk result (text.new.items ≡ text.old.items ++ entry_line long rank job.now) }
{
    if long {
        push_long_entry(alloc, text, job, rank)
    } else {
        push_short_entry(alloc, text, job, rank)
    }
}

fn push_short_entry(
    alloc: Global,
    text: &mut Vec<u8>,
    job: &JobLine,
    rank: usize,
) -> Result<(), AllocError>
    ensures { OnOk result (text.new.items ≡ text.old.items ++ short_entry rank job.now) }
{
    push_rank(alloc, text, job, rank, 7)?;
    push_owner(alloc, text, job)?;
    push_number(alloc, text, job)?;
    push_title(alloc, text, job, 31)?;
    push_bytes(text, job)
}

fn push_long_entry(
    alloc: Global,
    text: &mut Vec<u8>,
    job: &JobLine,
    rank: usize,
) -> Result<(), AllocError>
    ensures { OnOk result (text.new.items ≡ text.old.items ++ long_entry rank job.now) }
{
    push_long_owner(alloc, text, job)?;
    push_rank(alloc, text, job, rank, 33)?;
    push_long_number(text, job)?;
    push_title(alloc, text, job, 39)?;
    push_bytes(text, job)
}

fn push_long_owner(alloc: Global, text: &mut Vec<u8>, job: &JobLine) -> Result<(), AllocError>
    ensures { OnOk result (text.new.items ≡ text.old.items ++ owner_part job.now) }
{
    let user = clean_text(alloc, owner_word(job.user.as_str()))?;
    text.extend_from_slice(b"\n")?;
    text.extend_from_slice(user.as_bytes())?;
    text.extend_from_slice(b": ")
}

fn push_long_number(text: &mut Vec<u8>, job: &JobLine) -> Result<(), AllocError>
    ensures { OnOk result (text.new.items ≡ text.old.items ++ number_part job.now) }
{
    let number = job.number.get();
    write!(text, "[job {number} localhost]\n        ").map_err(|_| AllocError)
}

fn push_rank(
    alloc: Global,
    text: &mut Vec<u8>,
    job: &JobLine,
    rank: usize,
    columns: usize,
) -> Result<(), AllocError>
    ensures { OnOk result (text.new.items ≡ text.old.items ++ rank_cell columns rank job.now) }
{
    if job.state == JobState::Processing {
        return push_padded(text, "active", columns);
    }
    let ending = rank_ending(rank);
    let word = format!(in alloc; "{rank}{ending}")?;
    push_padded(text, word.as_str(), columns)
}

// Returns the ending of a rank in English: 1st, 2nd, 3rd, 4th, 11th.
fn rank_ending(rank: usize) -> &'static str
    ensures { result.now ≡ rank_ending rank }
{
    if rank / 10 % 10 == 1 {
        return "th";
    }
    match rank % 10 {
        1 => "st",
        2 => "nd",
        3 => "rd",
        _ => "th",
    }
}

fn push_owner(alloc: Global, text: &mut Vec<u8>, job: &JobLine) -> Result<(), AllocError>
    ensures { OnOk result (text.new.items ≡ text.old.items ++ owner_cell job.now) }
{
    let user = clean_text(alloc, owner_word(job.user.as_str()))?;
    push_padded(text, user.as_str(), 7)
}

fn push_number(alloc: Global, text: &mut Vec<u8>, job: &JobLine) -> Result<(), AllocError>
    ensures { OnOk result (text.new.items ≡ text.old.items ++ number_cell job.now) }
{
    let number = job.number.get();
    let word = format!(in alloc; "{number}")?;
    push_padded(text, word.as_str(), 7)
}

fn push_title(
    alloc: Global,
    text: &mut Vec<u8>,
    job: &JobLine,
    columns: usize,
) -> Result<(), AllocError>
    ensures { OnOk result (text.new.items ≡ text.old.items ++ title_cell columns job.now) }
{
    let title = clean_text(alloc, job.title.as_str())?;
    push_padded(text, title.as_str(), columns)
}

fn push_bytes(text: &mut Vec<u8>, job: &JobLine) -> Result<(), AllocError>
    ensures { OnOk result (text.new.items ≡ text.old.items ++ bytes_part job.now) }
{
    let size = job.size;
    write!(text, "{size} bytes\n").map_err(|_| AllocError)
}
