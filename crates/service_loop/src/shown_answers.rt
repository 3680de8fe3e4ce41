//! The text of an answer, as far as a client may see it.
ghost use Rattle.std.specs.Prelude.{◌≡◌, ◌++◌, OnOk};
ghost use Rattle.service_loop.specs.ShownAnswers.{answer_seen, shown_answer};

use client_standing::Standing;
use command_lines::{Answer, push_answer};
use job_table::Table;
use queue_sayings::push_shown_queues;
use service_texts::push_shown_jobs;
use spool_engine::append_answer;
use std::alloc::AllocError;

/// Appends the text of an answer over this table. Of others' jobs title and user, and of queues the message, are shown as empty texts, unless
/// the client sees all.
pub fn append_shown_answer(
    text: &mut Vec<u8>,
    table: &Table,
    answer: &Answer,
    client: &Standing,
) -> Result<(), AllocError>
    ensures { OnOk result (text.new.items ≡ text.old.items ++ shown_answer client.now table.now.state answer.now) }
{
    if client.sees_all() {
        append_answer(text, table, answer)
    } else {
        append_seen(text, table, answer, client)
    }
}

// Does the same for a client that does not see all.
fn append_seen(
    text: &mut Vec<u8>,
    table: &Table,
    answer: &Answer,
    client: &Standing,
) -> Result<(), AllocError>
    ensures { OnOk result (text.new.items ≡ text.old.items ++ answer_seen client.now table.now.state answer.now) }
{
    match answer {
        Answer::Jobs(_) => {
            push_shown_jobs(text, table.jobs(), client, table.now())?;
            push_answer(text, answer)
        }
        Answer::Queues(_) => {
            push_shown_queues(text, table, client)?;
            push_answer(text, answer)
        }
        _ => append_answer(text, table, answer),
    }
}
