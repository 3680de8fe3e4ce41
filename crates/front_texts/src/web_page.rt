//! The page of queues and jobs.
ghost use Rattle.std.specs.Prelude.{◌≡◌, ◌++◌, OnOk, IfOk};
ghost use Rattle.std.specs.List.{flat_map};
ghost use Rattle.std.specs.Option.{option_map};
ghost use Rattle.front_texts.specs.Page.{faint_part, note_part, note_text, queue_sentence, queue_state, reason_sentence};
ghost use Rattle.front_texts.specs.Page.{cell, text_html, number_cell, state_class, state_cell, reason_part, queue_notes, queue_html};
ghost use Rattle.front_texts.specs.Page.{queue_start, link_start, name_cell, queue_cells, queue_front, queue_rest, queue_if_shown, target_part, others_part, queue_rule};
ghost use Rattle.front_texts.specs.Page.{is_shown, is_job_shown, job_start, job_cells, job_front, age_text, age_cell, job_middle, job_numbers, left_html, left_part, job_waits, job_notes, job_html, ageless_html, job_if_shown};
ghost use Rattle.front_texts.specs.Page.{refresh, opening_html, style_html, time_html, stamp_html, only_html, queue_limit, user_limit, limits_html, head_html, queues_html, jobs_html, ageless_jobs_html, page_html, aged_page_html};

use crate::aged_jobs::{AgedJob, push_age_words};
use crate::escaping::push_escaped;
use crate::job_line::JobLine;
use crate::queue_line::QueueLine;
use crate::states::{JobState, PrinterState};
use clean_texts::clean_text;
use program_version::with_version;
use spool_types::{QueueName, Reason};
use std::alloc::{AllocError, Global};
use std::io::Write;

// The text before the page's title, without the line that reloads the page.
const OPENING: &str =
    "<!doctype html>\n<html lang=\"en\">\n<head>\n<meta charset=\"utf-8\">\n<meta name=\"viewport\" content=\"width=device-width, initial-scale=1\">\n";

// The line with which a browser reloads the page after five seconds.
const REFRESH: &str = "<meta http-equiv=\"refresh\" content=\"5\">\n";

// The rules of the page, which are followed by one for each queue. On a narrow screen each row is a block, with a line for each cell.
const STYLE: &str =
    "<title>Printers and jobs</title>\n<style>\n:root { color-scheme: light dark; --ink: #1c1c1e; --paper: #ffffff; --line: #d7d7dc; --faint: #63636a; --go: #0b6e3a; --wait: #7a5200; --stop: #b3261e; --done: #44546a }\n@media (prefers-color-scheme: dark) { :root { --ink: #ececf0; --paper: #17181b; --line: #3a3b41; --faint: #a3a3ab; --go: #63d297; --wait: #f0c063; --stop: #ff8d85; --done: #a9bcd6 } }\nbody { margin: 2rem auto; max-width: 72rem; padding: 0 1rem; font: 16px/1.5 system-ui, sans-serif; color: var(--ink); background: var(--paper) }\nh1 { font-size: 1.5rem } h2 { font-size: 1.15rem; margin: 2rem 0 .5rem } a { color: inherit }\ntable { width: 100%; border-collapse: collapse } th, td { padding: .4rem .6rem; text-align: left; vertical-align: top; border-bottom: 1px solid var(--line) } td:last-child { min-width: 9rem; overflow-wrap: anywhere }\nth { font-weight: 600; color: var(--faint) } .n { text-align: right; font-variant-numeric: tabular-nums; white-space: nowrap } .faint { color: var(--faint) }\n.state { font-weight: 600 } .idle, .completed { color: var(--done) } .processing { color: var(--go) } .pending, .arriving, .held { color: var(--wait) } .stopped, .aborted, .canceled { color: var(--stop) }\n.all { display: none } :root:has(tr:target) .all { display: block } tr:target td:first-child { font-weight: 600 }\n@media (max-width: 48rem) {\nbody { margin: 1rem auto } thead { display: none } .n { text-align: left }\ntbody tr { display: block; padding: .5rem 0; border-bottom: 1px solid var(--line) }\ntbody td { display: block; padding: .1rem 0 .1rem 7.5rem; border: 0; text-align: left; overflow-wrap: anywhere } td:empty { display: none }\ntd::before { display: inline-block; width: 7.5rem; margin-left: -7.5rem; font-weight: 400; color: var(--faint) }\n.printers td:nth-child(1)::before { content: \"Printer\" }\n.printers td:nth-child(2)::before { content: \"State\" }\n.printers td:nth-child(3)::before { content: \"Accepts jobs\" }\n.printers td:nth-child(4)::before { content: \"Prints\" }\n.printers td:nth-child(5)::before { content: \"Notes\" }\n.jobs td:nth-child(1)::before { content: \"Job\" }\n.jobs td:nth-child(2)::before { content: \"Printer\" }\n.jobs td:nth-child(3)::before { content: \"State\" }\n.jobs td:nth-child(4)::before { content: \"User\" }\n.jobs td:nth-child(5)::before { content: \"Age\" }\n.jobs td:nth-child(6)::before { content: \"Bytes\" }\n.jobs td:nth-child(7)::before { content: \"Pages\" }\n.jobs td:nth-child(8)::before { content: \"Title\" }\n}\n";

const HEADING: &str = "</style>\n</head>\n<body>\n<h1>Printers and jobs</h1>\n";

const QUEUES: &str =
    "<h2>Printers</h2>\n<table class=\"printers\">\n<thead><tr><th>Printer</th><th>State</th><th>Accepts jobs</th><th>Prints</th><th>Notes</th></tr></thead>\n<tbody>\n";

// The link ends the choice of one printer.
const JOBS: &str =
    "</tbody>\n</table>\n<h2>Jobs</h2>\n<p class=\"all\"><a href=\"#\">Show the jobs of all printers</a></p>\n<table class=\"jobs\">\n<thead><tr><th class=\"n\">Job</th><th>Printer</th><th>State</th><th>User</th><th class=\"n\">Age</th><th class=\"n\">Bytes</th><th class=\"n\">Pages</th><th>Title</th></tr></thead>\n<tbody>\n";

const CLOSING: &str = with_version!(
    "</tbody>\n</table>\n<p class=\"faint\">Cegmandi ",
    "</p>\n</body>\n</html>\n"
);

/// The contents of a page.
#[derive(Clone, Copy)]
pub struct PageView<'a> {
    /// The only printer, or all.
    pub queue: Option<&'a str>,
    /// The user whose jobs are shown, or all.
    pub user: Option<&'a str>,
    /// Whether a browser reloads the page every five seconds.
    pub follows: bool,
}

/// Returns all queues and jobs as an HTML page, without the ages of the jobs. It contains no script and needs no server. `stamp` is the time
/// of the page, or empty. With `follows` a browser reloads it every five seconds.
pub fn page(
    alloc: Global,
    queues: &[QueueLine],
    jobs: &[JobLine],
    stamp: &str,
    follows: bool,
) -> Result<Vec<u8>, AllocError>
    ensures value { IfOk result (λ page. page.items ≡ page_html queues.now jobs.now stamp.now follows) }
{
    let mut page = Vec::new(alloc);
    push_head(&mut page, queues, None, None, follows, stamp)?;
    push_queues(&mut page, queues, None)?;
    push_ageless_jobs(&mut page, queues, jobs)?;
    page.extend_from_slice(CLOSING.as_bytes())?;
    Ok(page)
}

/// Returns the same page of the queues and jobs that the view shows. At the time `stamp` the jobs have these ages.
pub fn aged_page(
    alloc: Global,
    queues: &[QueueLine],
    jobs: &[AgedJob],
    view: PageView<'_>,
    stamp: &str,
) -> Result<Vec<u8>, AllocError>
    ensures value { IfOk result (λ page. page.items
        ≡ aged_page_html queues.now jobs.now (option_map (λ name. name.now) view.entry.queue) (option_map (λ name. name.now) view.entry.user) view.entry.follows stamp.now) }
{
    let mut page = Vec::new(alloc);
    push_head(
        &mut page,
        queues,
        view.queue,
        view.user,
        view.follows,
        stamp,
    )?;
    push_queues(&mut page, queues, view.queue)?;
    push_jobs(&mut page, queues, jobs, view.queue, view.user)?;
    page.extend_from_slice(CLOSING.as_bytes())?;
    Ok(page)
}

fn push_head(
    page: &mut Vec<u8>,
    queues: &[QueueLine],
    queue: Option<&str>,
    user: Option<&str>,
    follows: bool,
    stamp: &str,
) -> Result<(), AllocError>
    ensures { OnOk result (page.new.items
        ≡ page.old.items ++ head_html queues.now (option_map (λ name. name.now) queue.entry) (option_map (λ name. name.now) user.entry) follows stamp.now) }
{
    push_opening(page, follows)?;
    push_style(page, queues)?;
    push_stamp(page, stamp)?;
    push_limits(page, queue, user)?;
    Ok(())
}

fn push_opening(page: &mut Vec<u8>, follows: bool) -> Result<(), AllocError>
    ensures { OnOk result (page.new.items ≡ page.old.items ++ opening_html follows) }
{
    page.extend_from_slice(OPENING.as_bytes())?;
    push_refresh(page, follows)
}

fn push_style(page: &mut Vec<u8>, queues: &[QueueLine]) -> Result<(), AllocError>
    ensures { OnOk result (page.new.items ≡ page.old.items ++ style_html queues.now) }
{
    push_text(page, STYLE)?;
    push_rules(page, queues)?;
    push_text(page, HEADING)?;
    Ok(())
}

fn push_rules(page: &mut Vec<u8>, queues: &[QueueLine]) -> Result<(), AllocError>
    ensures { OnOk result (page.new.items ≡ page.old.items ++ flat_map queue_rule queues.now) }
{
    for queue in queues {
        push_rule(page, queue)?;
    }
    Ok(())
}

// Appends the rule that hides the rows of other queues' jobs.
fn push_rule(page: &mut Vec<u8>, queue: &QueueLine) -> Result<(), AllocError>
    ensures { OnOk result (page.new.items ≡ page.old.items ++ queue_rule queue.now) }
{
    push_target(page, queue.name.as_str())?;
    push_others(page, queue.name.as_str())
}

fn push_target(page: &mut Vec<u8>, name: &str) -> Result<(), AllocError>
    ensures { OnOk result (page.new.items ≡ page.old.items ++ target_part name.now) }
{
    push_text(page, ":root:has(#printer-")?;
    push_escaped(page, name)?;
    push_text(page, ":target) .jobs tbody ")?;
    Ok(())
}

fn push_others(page: &mut Vec<u8>, name: &str) -> Result<(), AllocError>
    ensures { OnOk result (page.new.items ≡ page.old.items ++ others_part name.now) }
{
    push_text(page, "tr:not(.on-")?;
    push_escaped(page, name)?;
    push_text(page, ") { display: none }\n")?;
    Ok(())
}

// Appends a text of the page itself.
fn push_text(page: &mut Vec<u8>, text: &str) -> Result<(), AllocError>
    ensures { OnOk result (page.new.items ≡ page.old.items ++ text.now) }
{
    page.extend_from_slice(text.as_bytes())
}

fn push_refresh(page: &mut Vec<u8>, follows: bool) -> Result<(), AllocError>
    ensures { OnOk result (page.new.items ≡ page.old.items ++ refresh follows) }
{
    if follows {
        page.extend_from_slice(REFRESH.as_bytes())
    } else {
        Ok(())
    }
}

fn push_stamp(page: &mut Vec<u8>, stamp: &str) -> Result<(), AllocError>
    ensures { OnOk result (page.new.items ≡ page.old.items ++ stamp_html stamp.now) }
{
    if stamp.is_empty() {
        Ok(())
    } else {
        push_time(page, stamp)
    }
}

fn push_time(page: &mut Vec<u8>, stamp: &str) -> Result<(), AllocError>
    ensures { OnOk result (page.new.items ≡ page.old.items ++ time_html stamp.now) }
{
    push_text(page, "<p class=\"faint\">As of ")?;
    push_escaped(page, stamp)?;
    push_text(page, "</p>\n")?;
    Ok(())
}

// Appends the filters of the page.
fn push_limits(
    page: &mut Vec<u8>,
    queue: Option<&str>,
    user: Option<&str>,
) -> Result<(), AllocError>
    ensures { OnOk result (page.new.items
        ≡ page.old.items ++ limits_html (option_map (λ name. name.now) queue.entry) (option_map (λ name. name.now) user.entry)) }
{
    push_queue_limit(page, queue)?;
    push_user_limit(page, user)
}

fn push_queue_limit(page: &mut Vec<u8>, queue: Option<&str>) -> Result<(), AllocError>
    ensures { OnOk result (page.new.items ≡ page.old.items ++ queue_limit (option_map (λ name. name.now) queue.entry)) }
{
    match queue {
        Some(name) => push_only(page, "<p>Only the printer ", name),
        None => Ok(()),
    }
}

fn push_user_limit(page: &mut Vec<u8>, user: Option<&str>) -> Result<(), AllocError>
    ensures { OnOk result (page.new.items ≡ page.old.items ++ user_limit (option_map (λ name. name.now) user.entry)) }
{
    match user {
        Some(name) => push_only(page, "<p>Only jobs of ", name),
        None => Ok(()),
    }
}

fn push_only(page: &mut Vec<u8>, words: &str, name: &str) -> Result<(), AllocError>
    ensures { OnOk result (page.new.items ≡ page.old.items ++ only_html words.now name.now) }
{
    page.extend_from_slice(words.as_bytes())?;
    push_isolated(page, name)?;
    page.extend_from_slice(b"</p>\n")
}

fn push_queues(
    page: &mut Vec<u8>,
    queues: &[QueueLine],
    only: Option<&str>,
) -> Result<(), AllocError>
    ensures { OnOk result (page.new.items ≡ page.old.items ++ queues_html queues.now (option_map (λ name. name.now) only.entry)) }
{
    page.extend_from_slice(QUEUES.as_bytes())?;
    push_queue_rows(page, queues, only)
}

fn push_queue_rows(
    page: &mut Vec<u8>,
    queues: &[QueueLine],
    only: Option<&str>,
) -> Result<(), AllocError>
    ensures { OnOk result (page.new.items ≡ page.old.items ++ flat_map (queue_if_shown (option_map (λ name. name.now) only.entry)) queues.now) }
{
    for queue in queues {
        push_queue_if_shown(page, queue, only)?;
    }
    Ok(())
}

fn push_queue_if_shown(
    page: &mut Vec<u8>,
    queue: &QueueLine,
    only: Option<&str>,
) -> Result<(), AllocError>
    ensures { OnOk result (page.new.items ≡ page.old.items ++ queue_if_shown (option_map (λ name. name.now) only.entry) queue.now) }
{
    if is_shown(only, queue.name.as_str()) {
        push_queue(page, queue)
    } else {
        Ok(())
    }
}

// Returns whether a name is the only one that is shown, or all are.
fn is_shown(only: Option<&str>, name: &str) -> bool
    ensures { result ≡ is_shown (option_map (λ name. name.now) only.entry) name.now }
{
    match only {
        Some(only) => name == only,
        None => true,
    }
}

fn push_ageless_jobs(
    page: &mut Vec<u8>,
    queues: &[QueueLine],
    jobs: &[JobLine],
) -> Result<(), AllocError>
    ensures { OnOk result (page.new.items ≡ page.old.items ++ ageless_jobs_html queues.now jobs.now) }
{
    page.extend_from_slice(JOBS.as_bytes())?;
    push_ageless_rows(page, queues, jobs)
}

fn push_ageless_rows(
    page: &mut Vec<u8>,
    queues: &[QueueLine],
    jobs: &[JobLine],
) -> Result<(), AllocError>
    ensures { OnOk result (page.new.items ≡ page.old.items ++ flat_map (ageless_html queues.now) jobs.now) }
{
    for job in jobs {
        push_job(page, queues, job, None, None)?;
    }
    Ok(())
}

fn push_jobs(
    page: &mut Vec<u8>,
    queues: &[QueueLine],
    jobs: &[AgedJob],
    queue: Option<&str>,
    user: Option<&str>,
) -> Result<(), AllocError>
    ensures { OnOk result (page.new.items
        ≡ page.old.items ++ jobs_html queues.now jobs.now (option_map (λ name. name.now) queue.entry) (option_map (λ name. name.now) user.entry)) }
{
    page.extend_from_slice(JOBS.as_bytes())?;
    push_job_rows(page, queues, jobs, queue, user)
}

fn push_job_rows(
    page: &mut Vec<u8>,
    queues: &[QueueLine],
    jobs: &[AgedJob],
    queue: Option<&str>,
    user: Option<&str>,
) -> Result<(), AllocError>
    ensures { OnOk result (page.new.items
        ≡ page.old.items ++ flat_map (job_if_shown queues.now (option_map (λ name. name.now) queue.entry) (option_map (λ name. name.now) user.entry)) jobs.now) }
{
    for job in jobs {
        push_job_if_shown(page, queues, job, queue, user)?;
    }
    Ok(())
}

fn push_job_if_shown(
    page: &mut Vec<u8>,
    queues: &[QueueLine],
    job: &AgedJob,
    queue: Option<&str>,
    user: Option<&str>,
) -> Result<(), AllocError>
    ensures { OnOk result (page.new.items
        ≡ page.old.items ++ job_if_shown queues.now (option_map (λ name. name.now) queue.entry) (option_map (λ name. name.now) user.entry) job.now) }
{
    if is_job_shown(queue, user, &job.line) {
        push_job(page, queues, &job.line, job.age, job.left)
    } else {
        Ok(())
    }
}

fn is_job_shown(queue: Option<&str>, user: Option<&str>, job: &JobLine) -> bool
    ensures { result ≡ is_job_shown (option_map (λ name. name.now) queue.entry) (option_map (λ name. name.now) user.entry) job.now }
{
    is_shown(queue, job.queue.as_str()) && is_shown(user, job.user.as_str())
}

// Appends a cell.
fn push_cell(page: &mut Vec<u8>, text: &str) -> Result<(), AllocError>
    ensures { OnOk result (page.new.items ≡ page.old.items ++ cell text.now) }
{
    page.extend_from_slice(b"<td>")?;
    push_isolated(page, text)?;
    page.extend_from_slice(b"</td>")
}

// Appends a text that a user or a printer chose.
fn push_isolated(page: &mut Vec<u8>, text: &str) -> Result<(), AllocError>
    ensures { OnOk result (page.new.items ≡ page.old.items ++ text_html text.now) }
{
    let cleaned = clean_text(*page.allocator(), text)?;
    page.extend_from_slice(b"<bdi>")?;
    push_escaped(page, cleaned.as_str())?;
    page.extend_from_slice(b"</bdi>")
}

// Appends a cell with the name of a state, whose color depends on the state.
fn push_state(page: &mut Vec<u8>, word: &str) -> Result<(), AllocError>
    ensures { OnOk result (page.new.items ≡ page.old.items ++ state_cell word.now) }
{
    push_class(page, word)?;
    push_escaped(page, word)?;
    page.extend_from_slice(b"</td>")
}

fn push_class(page: &mut Vec<u8>, word: &str) -> Result<(), AllocError>
    ensures { OnOk result (page.new.items ≡ page.old.items ++ state_class word.now) }
{
    push_text(page, "<td class=\"state ")?;
    push_escaped(page, word)?;
    push_text(page, "\">")?;
    Ok(())
}

fn push_queue(page: &mut Vec<u8>, queue: &QueueLine) -> Result<(), AllocError>
    ensures { OnOk result (page.new.items ≡ page.old.items ++ queue_html queue.now) }
{
    push_queue_front(page, queue)?;
    push_queue_rest(page, queue)?;
    Ok(())
}

fn push_queue_rest(page: &mut Vec<u8>, queue: &QueueLine) -> Result<(), AllocError>
    ensures { OnOk result (page.new.items ≡ page.old.items ++ queue_rest queue.now) }
{
    push_cell(page, queue.target.as_str())?;
    push_queue_notes(page, queue)?;
    page.extend_from_slice(b"</tr>\n")
}

fn push_queue_front(page: &mut Vec<u8>, queue: &QueueLine) -> Result<(), AllocError>
    ensures { OnOk result (page.new.items ≡ page.old.items ++ queue_front queue.now) }
{
    push_queue_start(page, queue.name.as_str())?;
    push_queue_cells(page, queue)
}

fn push_queue_cells(page: &mut Vec<u8>, queue: &QueueLine) -> Result<(), AllocError>
    ensures { OnOk result (page.new.items ≡ page.old.items ++ queue_cells queue.now) }
{
    push_name(page, queue.name.as_str())?;
    push_state(page, queue.state.word())?;
    push_cell(page, queue.accepting_word())
}

fn push_queue_start(page: &mut Vec<u8>, name: &str) -> Result<(), AllocError>
    ensures { OnOk result (page.new.items ≡ page.old.items ++ queue_start name.now) }
{
    page.extend_from_slice(b"<tr id=\"printer-")?;
    push_escaped(page, name)?;
    page.extend_from_slice(b"\">")
}

// Appends a cell with the name of a queue, as a link to its row.
fn push_name(page: &mut Vec<u8>, name: &str) -> Result<(), AllocError>
    ensures { OnOk result (page.new.items ≡ page.old.items ++ name_cell name.now) }
{
    page.extend_from_slice(b"<td>")?;
    push_link_start(page, name)?;
    push_isolated(page, name)?;
    page.extend_from_slice(b"</a></td>")
}

fn push_link_start(page: &mut Vec<u8>, name: &str) -> Result<(), AllocError>
    ensures { OnOk result (page.new.items ≡ page.old.items ++ link_start name.now) }
{
    push_text(page, "<a href=\"#printer-")?;
    push_escaped(page, name)?;
    push_text(page, "\">")?;
    Ok(())
}

// Appends the reasons and the message of a queue.
fn push_queue_notes(page: &mut Vec<u8>, queue: &QueueLine) -> Result<(), AllocError>
    ensures { OnOk result (page.new.items ≡ page.old.items ++ queue_notes queue.now) }
{
    page.extend_from_slice(b"<td>")?;
    push_reasons(page, queue.reasons.as_slice())?;
    push_isolated(page, queue.message.as_str())?;
    page.extend_from_slice(b"</td>")
}

fn push_reasons(page: &mut Vec<u8>, reasons: &[Reason]) -> Result<(), AllocError>
    ensures { OnOk result (page.new.items ≡ page.old.items ++ flat_map reason_part reasons.now) }
{
    for reason in reasons {
        push_reason(page, reason)?;
    }
    Ok(())
}

fn push_reason(page: &mut Vec<u8>, reason: &Reason) -> Result<(), AllocError>
    ensures { OnOk result (page.new.items ≡ page.old.items ++ reason_part reason.now) }
{
    page.extend_from_slice(b"<span class=\"faint\">")?;
    push_escaped(page, reason.as_str())?;
    page.extend_from_slice(b"</span> ")
}

// Appends the row of a job, with its age and what is left of a time, if they are known.
fn push_job(
    page: &mut Vec<u8>,
    queues: &[QueueLine],
    job: &JobLine,
    age: Option<u64>,
    left: Option<u64>,
) -> Result<(), AllocError>
    ensures { OnOk result (page.new.items ≡ page.old.items ++ job_html queues.now job.now age left) }
{
    push_job_front(page, job)?;
    push_job_middle(page, job, age)?;
    push_job_notes(page, queues, job, left)?;
    page.extend_from_slice(b"</tr>\n")
}

fn push_job_middle(page: &mut Vec<u8>, job: &JobLine, age: Option<u64>) -> Result<(), AllocError>
    ensures { OnOk result (page.new.items ≡ page.old.items ++ job_middle job.now age) }
{
    push_cell(page, job.user.as_str())?;
    push_age(page, age)?;
    push_job_numbers(page, job)
}

// Appends a cell with an age, which is empty if the age is unknown.
fn push_age(page: &mut Vec<u8>, age: Option<u64>) -> Result<(), AllocError>
    ensures { OnOk result (page.new.items ≡ page.old.items ++ age_cell age) }
{
    push_text(page, "<td class=\"n\">")?;
    push_age_text(page, age)?;
    push_text(page, "</td>")?;
    Ok(())
}

fn push_age_text(page: &mut Vec<u8>, age: Option<u64>) -> Result<(), AllocError>
    ensures { OnOk result (page.new.items ≡ page.old.items ++ age_text age) }
{
    match age {
        Some(seconds) => push_age_words(page, seconds),
        None => Ok(()),
    }
}

fn push_job_front(page: &mut Vec<u8>, job: &JobLine) -> Result<(), AllocError>
    ensures { OnOk result (page.new.items ≡ page.old.items ++ job_front job.now) }
{
    push_job_start(page, job.queue.as_str())?;
    push_job_cells(page, job)
}

fn push_job_cells(page: &mut Vec<u8>, job: &JobLine) -> Result<(), AllocError>
    ensures { OnOk result (page.new.items ≡ page.old.items ++ job_cells job.now) }
{
    push_number(page, job.number.get())?;
    push_cell(page, job.queue.as_str())?;
    push_state(page, job.state_word())
}

fn push_job_start(page: &mut Vec<u8>, queue: &str) -> Result<(), AllocError>
    ensures { OnOk result (page.new.items ≡ page.old.items ++ job_start queue.now) }
{
    push_text(page, "<tr class=\"on-")?;
    push_escaped(page, queue)?;
    push_text(page, "\">")?;
    Ok(())
}

fn push_job_numbers(page: &mut Vec<u8>, job: &JobLine) -> Result<(), AllocError>
    ensures { OnOk result (page.new.items ≡ page.old.items ++ job_numbers job.now) }
{
    push_number(page, job.size)?;
    push_number(page, job.pages)
}

// Appends a cell with a number.
fn push_number(page: &mut Vec<u8>, number: u32) -> Result<(), AllocError>
    ensures { OnOk result (page.new.items ≡ page.old.items ++ number_cell number) }
{
    write!(page, "<td class=\"n\">{number}</td>").map_err(|_| AllocError)
}

// Appends the title of a job, and what it waits for or how it ended.
fn push_job_notes(
    page: &mut Vec<u8>,
    queues: &[QueueLine],
    job: &JobLine,
    left: Option<u64>,
) -> Result<(), AllocError>
    ensures { OnOk result (page.new.items ≡ page.old.items ++ job_notes queues.now job.now left) }
{
    page.extend_from_slice(b"<td>")?;
    push_isolated(page, job.title.as_str())?;
    push_job_waits(page, queues, job, left)?;
    page.extend_from_slice(b"</td>")
}

fn push_job_waits(
    page: &mut Vec<u8>,
    queues: &[QueueLine],
    job: &JobLine,
    left: Option<u64>,
) -> Result<(), AllocError>
    ensures { OnOk result (page.new.items ≡ page.old.items ++ job_waits queues.now job.now left) }
{
    push_note(page, note_text(queues, job))?;
    push_left(page, left)
}

// Appends how long a job still waits for a moment.
fn push_left(page: &mut Vec<u8>, left: Option<u64>) -> Result<(), AllocError>
    ensures { OnOk result (page.new.items ≡ page.old.items ++ left_part left) }
{
    match left {
        Some(seconds) => push_seconds_left(page, seconds),
        None => Ok(()),
    }
}

fn push_seconds_left(page: &mut Vec<u8>, seconds: u64) -> Result<(), AllocError>
    ensures { OnOk result (page.new.items ≡ page.old.items ++ left_html seconds) }
{
    page.extend_from_slice(b" <span class=\"faint\">(")?;
    push_age_words(page, seconds)?;
    page.extend_from_slice(b" left)</span>")
}

fn push_note(page: &mut Vec<u8>, note: &str) -> Result<(), AllocError>
    ensures { OnOk result (page.new.items ≡ page.old.items ++ note_part note.now) }
{
    if note.is_empty() {
        Ok(())
    } else {
        push_faint(page, note)
    }
}

fn push_faint(page: &mut Vec<u8>, text: &str) -> Result<(), AllocError>
    ensures { OnOk result (page.new.items ≡ page.old.items ++ faint_part text.now) }
{
    page.extend_from_slice(b" <span class=\"faint\">")?;
    push_escaped(page, text)?;
    page.extend_from_slice(b"</span>")
}

// Returns what a job waits for, or how it ended, as far as the rows say.
fn note_text<'a>(queues: &[QueueLine], job: &'a JobLine) -> &'a str
    ensures { result.now ≡ note_text queues.now job.now }
{
    match &job.reason {
        Some(reason) => reason_sentence(reason.as_str()),
        None if job.state == JobState::Pending => queue_sentence(queue_state(queues, &job.queue)),
        None => "",
    }
}

fn reason_sentence(reason: &str) -> &str
    ensures { result.now ≡ reason_sentence reason.now }
{
    if reason == "job-incoming" {
        "its document is being sent"
    } else if reason == "job-hold-until-specified" {
        "it is held"
    } else if reason == "retry-later" {
        "an attempt failed, and the next one is not due yet"
    } else {
        reason
    }
}

// Returns the state of the queue with this name.
fn queue_state(queues: &[QueueLine], name: &QueueName) -> Option<PrinterState>
    ensures { result ≡ queue_state name.now queues.now }
{
    for queue in queues {
        if queue.name == *name {
            return Some(queue.state);
        }
    }
    None
}

// Returns why a job without a reason waits, from the state of its queue.
fn queue_sentence(state: Option<PrinterState>) -> &'static str
    ensures { result.now ≡ queue_sentence state }
{
    match state {
        Some(PrinterState::Stopped) => "its queue is stopped",
        Some(PrinterState::Processing) => "its queue prints another job",
        _ => "",
    }
}
