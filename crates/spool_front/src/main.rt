//! The front end: prints files through a service, and shows and changes jobs and queues.
//!
//! The program's name selects the command line, which `front_words` reads: `spool`, or the name of a program of CUPS such as `lp`. These
//! environment variables are used:
//!
//! - `SPOOL_SOCKET`: the socket of the service. `SPOOL_PATIENCE`: how many seconds to wait for a service, by default 30.
//! - `USER` or `LOGNAME`: the owner of jobs, unless the service identifies the user. `LPDEST` or `PRINTER`: the queue if none is named.
//!   `HOME`: the folder of the file with the user's default queue. `COLUMNS`: the width of the terminal.
//! - `SPOOL_TYPES`, `SPOOL_CONVS` and `SPOOL_PROGRAMS`: the service's files, from which `check` determines whether documents can be
//!   converted for a printer and whether the programs can be run.
//!
//! Over each connection the program first proves which user runs it, if the service takes proofs ([`proving`]). A queue is looked up without
//! a proof, since names and states are the same for all clients. Queues that are shown are listed with one, since the service shows their
//! messages to operators only.
//!
//! A command that changes something, and is not part of a submission, is sent once. If its reply is lost, the task ends with status 3. A
//! job number is looked up at one service, since each service numbers its own jobs. The name of a queue is looked up at all services. A
//! submission that runs out of memory ends as if no service were reachable: the reply to its last request counts as lost.
//!
//! # Modules
//!
//! - [`connection`]: the socket of a service, over which `service_client` speaks the protocol. [`client`]: commands and replies over a
//!   connection, and reconnecting.
//! - [`proving`]: the proof of the user. [`refusals`]: explanations of refused commands.
//! - [`commands`]: the bytes of each command (`SentCommands`). `service_replies` has the meaning of each reply.
//! - [`submit`]: submits one document as one job, by the decisions of `front_submission`. [`document`]: the pieces of a document.
//!   [`draft`]: the fields of its job. [`moments`]: moments by the time of the service. [`printing`]: printing files. [`progress`]: the line
//!   that shows how much was sent.
//! - [`tasks`]: the other tasks of `spool`. [`live_table`]: the jobs whenever one changes. [`say`]: commands of the protocol. [`json_lines`]:
//!   JSON. [`check`], [`programs`] and [`chains`]: whether a queue can print. [`web_page`]: the page.
//!   [`cups_forms`]: lpstat and lpq. [`canceling`]: cancel and lprm. [`defaults`]: the default queue. [`output`]: standard output.
//!   [`services`]: the choice of services and queues. [`reasons`]: the system's reasons.
//!
//! # Promises
//!
//! - Commands: the bytes of each command are exact, with each text in quotes (`create_line`, `close_line`, `closeat_line`,
//!   `find_line`, `hold_line`, `job_line`, `name_line`, `info_line`, `queue_line`). A text with a control character, which could end its line, is detected
//!   (`has_control`). An action on a job or a queue is sent as the command for that action (`act_line`, `act_text`).
//! - Owners: a job belongs to the user whom the service has identified, unless the user has named the owner or is an operator (`job_user`).
//! - Refusals: a refused command is explained by exactly one message, which names the job or the queue (`explain_job`, `explain_queue`) or
//!   the cause (`cause_text`), with the sentence of `refusal_sentences`. A client removes its folder unless the service has taken the proof
//!   (`is_left`).
//! - Older services: `cancel` and `end` replace `stop` exactly if the service does not know it (`is_stop`, `is_unknown`).
//! - Replies: `reply_in` returns the meaning of a reply for a submission. After `error disk`, `error dead` or `error busy` it is unknown
//!   whether the command was executed, so such a reply is never taken for a refusal (`failed_as`). `shown_as` returns the state of a job.
//! - Pieces: a piece of a document consists of the bytes that were read last, up to 131,071 bytes, and fewer only at the document's end
//!   (`next_piece`, `piece`). One more byte is read ahead, so it is known whether a piece is the last one: exactly if no byte follows it
//!   (`is_last`). The bytes of a piece that are not known to have been sent (`last_bytes`) are sent by one command of up to 65,536 bytes, or
//!   by two (`parts_of`), and the reply to the piece follows from the replies to both (`joined_reply`).
//! - The last piece: the job is closed by `closeat`, which is sent together with it and requires that the job has all bytes (`piece_texts`,
//!   `closeat_line`). Both have one reply (`closing_reply`). A refusal of this close is never explained: the job is then closed by `close`,
//!   unless the piece was refused (`reply_to_piece`).
//! - Progress: the line has exactly the amount, the speed, and a bar if the length of the document is known (`progress_line`).
//! - The live table: the mirror is told each line of a listing, in order (`tell`).
//! - JSON: each object has exactly these members (`accepted_json`, `running_json`, `printing_json`, `unfit_json`, `news_json`,
//!   `reply_json`, `put_field`).
//! - System errors are reported by their kind (`lost_by`, `unwritten_by`, `unread`, `no_words`).
//! - Moments: a relative moment counts from the time that the service reports, and so does the next time of a day. An absolute one is shifted
//!   by the difference from the system's clock if that is more than two seconds (`second_of`, `until_day`, `shifted`). A service that does not know `now` has the
//!   system's clock (`clocks_of`).
//! - Drafts: the draft of a job has the requested fields, and a title and a file name without control characters (`draft_of`,
//!   `plain_text`). The file name is the part of the path after the last slash (`base_name`).
//! - Queues and services: the named queue is used, at one of the named services (`queue_of`). If there is only one service, it is not asked
//!   for its queues (`socket_of`). A queue is the only one if no other row exists (`note_only`). LPDEST precedes PRINTER (`queue_in`).
//! - Canceling: the jobs of the named queues and of the user that have not ended (`numbers_of`), and the current job of a queue, which is the
//!   one that prints, or else the first one that has not ended (`current_job`). A file is removed only if its job was accepted
//!   (`is_removed`), and an empty document is refused if the program takes none (`is_refused`).
//! - lpstat: a list with the name of no queue is refused (`has_unknown`). Of the jobs those of -W and -u are shown (`keep_asked`). Without a
//!   service only the question whether one is running succeeds (`end_without_service`).
//! - Selections: the jobs of a queue, with numbers and with names are shown, in their order (`keep_of`, `keep_numbered`, `named_jobs`), and
//!   the queues with names (`keep_queues`). A variable that is not set, or is not a number, has its default (`text_or`, `number_or`).
//! - Status: showing, watching, writing a page and changing a queue end with 0 or a fault (`show_status`, `show_queues`, `show_lpstat`,
//!   `show_lpq`, `watch`, `write_page`, `act_on_queue`), and `check` ends with 0, 1 or a fault. `first_failure` returns the first failure
//!   of two statuses.
//! - Steps: after a request the next step is that of a received reply, of a lost reply, or of an unreachable service (`request`). After a
//!   piece it is that of its bytes, or of a document that cannot be read (`read_piece`). A submission is reported as accepted or
//!   unprintable only if the end of the document was read (`submit`), for a reader that reports what is left. Files and standard input use
//!   the same code.
//! - Connections: a connection is closed after a fault (`exchange`, `exchange_both`, `exchange_all`) and after an unclear reply (`after`), and the client knows whether a connection is open (`connect`, `is_connected`). A client changes only its
//!   connection (`kept`).
//! - `spool check`: `lead_to` returns whether filters convert from a type in the file of types, or from that of an unknown document, to a
//!   printer's type (`leads`), by the least chain of `mime_costs`. `kinds_in` returns these types.
//! - The page is that of the rows that were read, and shows the queue and the user that were asked for (`page_at`). A piece of the listing
//!   adds exactly its jobs with their ages, and names the next one (`take_piece`, `list_line`).
//! - Texts that are printed are clean (`clean_texts`): tables and JSON by the clauses of `front_texts`, a line of `watch` by `clean_bytes`, and
//!   the message of a fault since each variant prints its text by `clean`.
//!
//! # Not proved
//!
//! - That the program sends what the decisions ask for, with the piece that was read last; that it passes them the reply that it received,
//!   and no other; that it reports a lost connection as lost; and that the service executes each request completely or not at all. This was
//!   read in the code. `tests/test_front_played.py` tests it with simulated services; `tests/test_front.py` kills a service and refuses each
//!   allocation in turn.
//! - What a file, a socket, the clock or the environment returns, and what is printed. So the contracts allow: a listing of the queues or
//!   jobs of all services that is empty, fails at once, asks no service, or reports none of its faults (`show_lpstat`, `show_lpq`,
//!   `write_page`); a `variable` that is never set; a wait that ends at once with another status; a status for several files, jobs or
//!   services that does not use `first_failure`; a submission that is refused at once (`submit`); a request that is sent twice, is another
//!   request, or has another piece (`request`); a service that is never reachable (`is_connected`); jobs that are not inspected (`look`); a
//!   queue that is refused although it exists (`queue_of`); a command with other text, or sent twice (`exchange`, `ask`); job lines that
//!   are not read (`shown_in`); a proof that is not attempted, or attempted more than once, and a folder that is not made (`first_exchange`);
//!   and a search of the jobs that uses neither question (`find`). `tests/test_front_roles.py` tests the proof with a simulated service.
//! - A command other than a submission that runs out of memory while reading its reply ends with 1, like a command that was not sent,
//!   though it may have been executed.
//!
//! # Errors
//!
//! An error is a line `spool: ..` on standard error. The exit status is:
//!
//! - 0: success.
//! - 1: a failure, or a document that is not printed.
//! - 2: the command line is refused. The line then begins with `error:`. A program of CUPS ends with 1 (`status_after`).
//! - 3: it is unknown whether a job will be printed, or whether a command was executed.
//! - 4: the document of a job cannot be converted for its printer.
//! - 5: a job that the program waited for was not completed.
//!
//! Once a job is accepted, the status says so, even if the line with its number cannot be written.
#![tactic(auto)]

ghost use Rattle.std.specs.Prelude.{◌≡◌, ◌≢◌, MatchResult};
ghost use Rattle.std.specs.IoError.{error_kind};
ghost use Rattle.std.specs.Process.{exit_status};
ghost use Rattle.spool_front.specs.TaskFaults.{status_after, status_of};
ghost use Rattle.spool_front.specs.EnvironmentValues.{IsNumberOr};

mod canceling;
mod chains;
mod check;
mod client;
mod commands;
mod connection;
mod cups_forms;
mod defaults;
mod document;
mod draft;
mod fault;
mod files;
mod host;
mod json_lines;
mod live_table;
mod moments;
mod output;
mod printing;
mod programs;
mod progress;
mod proving;
mod reasons;
mod refusals;
mod room;
mod say;
mod services;
mod submit;
mod tasks;
mod web_page;

use commands::has_control;
use fault::Fault;
use front_words::{Asked, Task, WordsFault, read_words, words_status};
use host::{Screen, number_or, variable};
use services::{Services, patience, usual_socket};
use std::alloc::AllocError;
use std::io::{ErrorKind, IsTerminal};
use std::process::ExitCode;
use std::{env, io};

// The width if `COLUMNS` does not specify it.
const USUAL_WIDTH: u64 = 80;

fn main(rt: HostRuntime) -> ExitCode {
    let shows = rt.stderr().is_terminal();
    let words = match given_words(&rt) {
        Ok(words) => words,
        Err(error) => return no_words(&rt, &error),
    };
    if words.iter().any(|word| has_control(word.as_str())) {
        let _ = eprintln!(rt; "error: an argument contains a control character");
        return ExitCode::from(words_status(words.as_slice()));
    }
    let told = match environment_of(&rt) {
        Ok(told) => told,
        Err(error) => return ended(&rt, Err(Fault::from(error))),
    };
    match read_words(rt.alloc(), words.as_slice()) {
        Ok(asked) => {
            let status = run(&rt, &asked, &told, shows);
            ended(&rt, status)
        }
        Err(WordsFault::Refused(error)) => {
            let _ = error.print(&rt);
            ExitCode::from(status_after(error.exit_code() != 0, words_status(words.as_slice())))
        }
        Err(WordsFault::Memory) => ended(&rt, Err(Fault::Memory)),
    }
}

// Returns the exit status after help, the version or an error was printed, from that of an error.
fn status_after(is_error: bool, refused: u8) -> u8
    ensures { result ≡ status_after is_error refused }
{
    if is_error { refused } else { 0 }
}

fn given_words(rt: &HostRuntime) -> io::Result<Vec<String>> {
    let words = env::args(rt)?.collect(rt.alloc())?;
    Ok(words)
}

// Reports that the arguments could not be read: one is not valid UTF-8, or memory ran out.
fn no_words(rt: &HostRuntime, error: &io::Error) -> ExitCode
    ensures no_text { error_kind error.now ≡ ErrorKind.InvalidData → exit_status result ≡ 2 }
    ensures memory { error_kind error.now ≢ ErrorKind.InvalidData → exit_status result ≡ 1 }
{
    if error.kind() != ErrorKind::InvalidData {
        return ended(rt, Err(Fault::Memory));
    }
    let _ = eprintln!(rt; "error: an argument is not valid UTF-8");
    ExitCode::from(2)
}

// The values of the environment: the default socket, the patience in seconds, and the width of the terminal in columns.
#[derive(Drop)]
struct Environment {
    socket: String,
    patience: u32,
    width: usize,
}

fn environment_of(rt: &HostRuntime) -> Result<Environment, AllocError> {
    let patience = patience(rt)?;
    let width = width(rt)?;
    let socket = usual_socket(rt)?;
    Ok(Environment {
        socket,
        patience,
        width,
    })
}

fn width(rt: &HostRuntime) -> Result<usize, AllocError> {
    let told = variable(rt, "COLUMNS")?;
    Ok(width_in(&told))
}

fn width_in(told: &Option<String>) -> usize
    ensures { IsNumberOr 18446744073709551615 80 told.now result }
{
    number_or(told, u64::MAX, USUAL_WIDTH) as usize
}

// Prints a fault on standard error, and returns the exit status.
fn ended(rt: &HostRuntime, ended: Result<u8, Fault>) -> ExitCode
    ensures { MatchResult ended (λ status. exit_status result ≡ status) (λ fault. exit_status result ≡ status_of fault) }
{
    match ended {
        Ok(status) => ExitCode::from(status),
        Err(fault) => {
            let _ = eprintln!(rt; "spool: {fault}");
            ExitCode::from(fault.status())
        }
    }
}

// Executes the task, at the default socket if the command line names none. `shows` states whether standard error is a terminal.
fn run(rt: &HostRuntime, asked: &Asked<'_>, told: &Environment, shows: bool) -> Result<u8, Fault> {
    let patience = told.patience;
    let screen = Screen {
        shows,
        width: told.width,
    };
    if asked.sockets.is_empty() {
        let usual = [told.socket.as_str()];
        let services = Services {
            sockets: &usual,
            patience,
        };
        return run_task(rt, services, &asked.task, screen);
    }
    let services = Services {
        sockets: asked.sockets.as_slice(),
        patience,
    };
    run_task(rt, services, &asked.task, screen)
}

fn run_task(
    rt: &HostRuntime,
    services: Services<'_, '_>,
    task: &Task<'_>,
    screen: Screen,
) -> Result<u8, Fault> {
    match task {
        Task::Submit(asked) => printing::print_files(rt, services, asked, screen),
        Task::Status(asked) => tasks::show_status(rt, services, *asked, screen),
        Task::Queues { json } => tasks::show_queues(rt, services, *json, screen),
        Task::Watch { json } => tasks::watch(rt, services, *json),
        Task::Jobs { act, jobs } => tasks::act_on_jobs(rt, services, *act, jobs.as_slice()),
        Task::Clear(asked) => canceling::clear(rt, services, asked),
        Task::Remove(asked) => canceling::remove_jobs(rt, services, asked),
        Task::Queue { name, act } => tasks::act_on_queue(rt, services, name, *act),
        Task::Switch { names, act, clears } => {
            tasks::switch_queues(rt, services, names.as_slice(), *act, *clears)
        }
        Task::Default { queue } => defaults::store_queue(rt, services, queue),
        Task::ShowQueue { name, json } => tasks::show_queue(rt, services, name, *json, screen),
        Task::Devices => Err(Fault::Words(
            "the service does not list devices; use `spool_shell --devices`",
        )),
        Task::Check { json } => check::check(rt, services, *json),
        Task::Say(asked) => say::say(rt, services, asked),
        Task::Page(asked) => web_page::write_page(rt, services, *asked),
        Task::Lpstat(asked) => cups_forms::show_lpstat(rt, services, asked),
        Task::Lpq(asked) => cups_forms::show_lpq(rt, services, asked),
    }
}
