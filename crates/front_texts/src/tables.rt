//! Tables for a terminal.
ghost use Rattle.std.specs.Prelude.{◌≡◌, ◌+◌, ◌≤◌, IfOk, length, vec_len, string_bytes};
ghost use Rattle.front_texts.specs.Cells.{AreLines, IsLine};

use crate::cells::{clean_line, push_cell, push_clean_cell, push_right};
use crate::job_line::JobLine;
use crate::queue_line::QueueLine;
use crate::sizes::size_text;
use clean_texts::clean_text;
use std::alloc::{AllocError, Global};
use unicode_width::UnicodeWidthStr;

// The widths of the columns that are the same in each table.
const NUMBER_COLUMNS: usize = 6;

const STATE_COLUMNS: usize = 10;

const SIZE_COLUMNS: usize = 8;

const PAGES_COLUMNS: usize = 5;

const ACCEPTS_COLUMNS: usize = 7;

// The least width of a terminal for which these columns are shown.
const WITH_USER: usize = 60;

const WITH_SIZES: usize = 76;

// The widths of the terminal and of the columns for queues and users.
#[derive(Clone, Copy)]
struct TableColumns {
    whole: usize,
    queue: usize,
    user: usize,
    ghost queue_there: { 1 ≤ queue },
    ghost user_there: { 1 ≤ user },
    ghost there: { 1 ≤ whole },
}

/// Returns the jobs as a table: a line of column names, and a line for each job. A narrow terminal gets fewer columns.
pub fn jobs_table(alloc: Global, jobs: &[JobLine], width: usize) -> Result<Vec<String>, AllocError>
    requires { 1 ≤ width }
    ensures fits { IfOk result (λ lines. AreLines width lines.items) }
    ensures count { IfOk result (λ lines. vec_len lines ≡ 1 + length jobs.now) }
{
    let columns = job_columns(alloc, jobs, width)?;
    let mut lines = Vec::new(alloc);
    lines.push(job_names(alloc, columns)?)?;
    for job in jobs {
        lines.push(job_row(alloc, job, columns)?)?;
    }
    Ok(lines)
}

// Returns the column widths. Those for queues and users fit the widest name, up to a share of the terminal's width.
fn job_columns(alloc: Global, jobs: &[JobLine], width: usize) -> Result<TableColumns, AllocError>
    requires { 1 ≤ width }
    ensures { IfOk result (λ columns. columns.whole ≡ width) }
{
    let mut queue: usize = 5;
    let mut user: usize = 4;
    for job in jobs {
        let shown = clean_text(alloc, job.user.as_str())?;
        queue = queue.max(job.queue.as_str().width());
        user = user.max(shown.as_str().width());
    }
    Ok(columns(width, queue, user))
}

fn columns(width: usize, queue: usize, user: usize) -> TableColumns
    requires { 1 ≤ width }
    ensures { result.whole ≡ width }
{
    let share = (width / 5).max(8);
    TableColumns {
        whole: width,
        queue: queue.min(share).max(1),
        user: user.min(share).max(1),
    }
}

fn job_names(alloc: Global, columns: TableColumns) -> Result<String, AllocError>
    ensures { IfOk result (λ line. IsLine columns.whole (string_bytes line)) }
{
    let mut line = String::new(alloc);
    push_right(&mut line, "JOB", NUMBER_COLUMNS)?;
    push_cell(alloc, &mut line, "QUEUE", columns.queue)?;
    push_cell(alloc, &mut line, "STATE", STATE_COLUMNS)?;
    if WITH_USER <= columns.whole {
        push_cell(alloc, &mut line, "USER", columns.user)?;
    }
    if WITH_SIZES <= columns.whole {
        push_right(&mut line, "SIZE", SIZE_COLUMNS)?;
        push_right(&mut line, "PAGES", PAGES_COLUMNS)?;
    }
    line.push_str("TITLE")?;
    clean_line(alloc, line.as_str(), columns.whole)
}

fn job_row(alloc: Global, job: &JobLine, columns: TableColumns) -> Result<String, AllocError>
    ensures { IfOk result (λ line. IsLine columns.whole (string_bytes line)) }
{
    let number = job.number.get();
    let mut line = String::new(alloc);
    push_right(
        &mut line,
        format!(in alloc; "{number}")?.as_str(),
        NUMBER_COLUMNS,
    )?;
    push_cell(alloc, &mut line, job.queue.as_str(), columns.queue)?;
    push_cell(alloc, &mut line, job.state_word(), STATE_COLUMNS)?;
    if WITH_USER <= columns.whole {
        push_clean_cell(alloc, &mut line, job.user.as_str(), columns.user)?;
    }
    if WITH_SIZES <= columns.whole {
        let pages = job.pages;
        push_right(
            &mut line,
            size_text(alloc, job.size)?.as_str(),
            SIZE_COLUMNS,
        )?;
        push_right(
            &mut line,
            format!(in alloc; "{pages}")?.as_str(),
            PAGES_COLUMNS,
        )?;
    }
    line.push_str(job.title.as_str())?;
    clean_line(alloc, line.as_str(), columns.whole)
}

/// Returns the queues as a table: a line of column names, and a line for each queue. Each line ends with the reasons and the message of the
/// queue, or with its media type if there are none.
pub fn queues_table(
    alloc: Global,
    queues: &[QueueLine],
    width: usize,
) -> Result<Vec<String>, AllocError>
    requires { 1 ≤ width }
    ensures fits { IfOk result (λ lines. AreLines width lines.items) }
    ensures count { IfOk result (λ lines. vec_len lines ≡ 1 + length queues.now) }
{
    let columns = queue_columns(queues, width);
    let mut lines = Vec::new(alloc);
    lines.push(queue_names(alloc, columns)?)?;
    for queue in queues {
        lines.push(queue_row(alloc, queue, columns)?)?;
    }
    Ok(lines)
}

fn queue_columns(queues: &[QueueLine], width: usize) -> TableColumns
    requires { 1 ≤ width }
    ensures { result.whole ≡ width }
{
    let mut name: usize = 5;
    for queue in queues {
        name = name.max(queue.name.as_str().width());
    }
    columns(width, name, 1)
}

fn queue_names(alloc: Global, columns: TableColumns) -> Result<String, AllocError>
    ensures { IfOk result (λ line. IsLine columns.whole (string_bytes line)) }
{
    let mut line = String::new(alloc);
    push_cell(alloc, &mut line, "QUEUE", columns.queue)?;
    push_cell(alloc, &mut line, "STATE", STATE_COLUMNS)?;
    push_cell(alloc, &mut line, "ACCEPTS", ACCEPTS_COLUMNS)?;
    line.push_str("NOTES")?;
    clean_line(alloc, line.as_str(), columns.whole)
}

fn queue_row(alloc: Global, queue: &QueueLine, columns: TableColumns) -> Result<String, AllocError>
    ensures { IfOk result (λ line. IsLine columns.whole (string_bytes line)) }
{
    let mut line = String::new(alloc);
    push_cell(alloc, &mut line, queue.name.as_str(), columns.queue)?;
    push_cell(alloc, &mut line, queue.state.word(), STATE_COLUMNS)?;
    push_cell(alloc, &mut line, queue.accepting_word(), ACCEPTS_COLUMNS)?;
    push_notes(&mut line, queue)?;
    clean_line(alloc, line.as_str(), columns.whole)
}

// Appends the reasons and the message of a queue, or its media type if there are none.
fn push_notes(line: &mut String, queue: &QueueLine) -> Result<(), AllocError> {
    if queue.reasons.as_slice().is_empty() && queue.message.as_str().is_empty() {
        return line.push_str(queue.target.as_str());
    }
    for reason in queue.reasons.as_slice() {
        line.push_str(reason.as_str())?;
        line.push(' ')?;
    }
    line.push_str(queue.message.as_str())
}
