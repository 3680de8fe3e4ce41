//! The table of roles.
ghost use Rattle.std.specs.Prelude.{◌≡◌};
ghost use Rattle.spool_types.specs.State.{State};
ghost use Rattle.client_roles.specs.RoleTable.{command_request, concerns, creates, event_request, is_allowed, is_permitted, role_of, word_request};

use client_reader::Ask;
use client_standing::{Caller, Standing};
use command_lines::Command;
use job_table::Table;
use service_texts::OwnWord;
use spool_types::{Event, JobId, UserName};

/// Returns whether the roles allow a request to a client, over the table of jobs before the request.
pub fn is_allowed(client: &Standing, table: &Table, ask: &Ask) -> bool
    ensures { result ≡ is_allowed client.now table.now.state ask.now }
{
    match ask {
        Ask::Command(command) => allows_command(client, table, command),
        Ask::Own(word) => allows_word(client, table, word),
    }
}

fn allows_command(client: &Standing, table: &Table, command: &Command) -> bool
    ensures { result ≡ is_permitted client.now table.now.state (role_of client.now) (command_request command.now) }
{
    match command {
        Command::Apply(event) => allows_event(client, table, event),
        Command::Create(creation) => may_create(client, &creation.user),
        Command::Close { job, .. } => may_change(client, table, *job),
        Command::OversizedSend | Command::Jobs | Command::Queues | Command::Malformed => true,
        Command::Queue(_) | Command::Round | Command::Drain(_) | Command::Checkpoint => {
            client.is_operator()
        }
    }
}

fn allows_event(client: &Standing, table: &Table, event: &Event) -> bool
    ensures { result ≡ is_permitted client.now table.now.state (role_of client.now) (event_request event.now) }
{
    match event {
        Event::Create(job) | Event::CreateBy { job, .. } => may_create(client, &job.user),
        Event::Send { job, .. }
        | Event::Hold { job, .. }
        | Event::Release(job)
        | Event::Cancel(job) => may_change(client, table, *job),
        Event::Close(closing) => may_change(client, table, closing.job),
        _ => client.is_operator(),
    }
}

fn allows_word(client: &Standing, table: &Table, word: &OwnWord) -> bool
    ensures { result ≡ is_permitted client.now table.now.state (role_of client.now) (word_request word.now) }
{
    match word {
        OwnWord::Wait(job)
        | OwnWord::End(job)
        | OwnWord::Stop(job)
        | OwnWord::CloseAs { job, .. }
        | OwnWord::CloseAt { job, .. } => may_change(client, table, *job),
        OwnWord::Shutdown => client.is_operator(),
        _ => true,
    }
}

// Whether the client may create a job of this user. A user creates jobs under its own name alone.
fn may_create(client: &Standing, user: &UserName) -> bool
    ensures { (s : State) → result ≡ is_permitted client.now s (role_of client.now) (creates user.now) }
{
    match client.caller() {
        Caller::Unproved => true,
        Caller::User(name) => *name == *user,
        Caller::Operator(_) => true,
    }
}

// Whether the client may change a job. A job that does not exist may be named: the engine refuses the command.
fn may_change(client: &Standing, table: &Table, job: JobId) -> bool
    ensures { result ≡ is_permitted client.now table.now.state (role_of client.now) (concerns job) }
{
    match table.job(job) {
        Some(row) => client.is_operator() || client.owns(&row.job),
        None => true,
    }
}
