//! Lines of the listing of queues, as a client sees them.
ghost use Rattle.std.specs.Prelude.{◌≡◌, ◌++◌, OnOk};
ghost use Rattle.std.specs.FinMap as finite;
ghost use Rattle.command_lines.specs.Replies.{queue_head, queue_rules, queue_text};
ghost use Rattle.queue_sayings.specs.QueueSayings.{all_queues_shown, shown_queue_line, shown_queue_lines, shown_row};

use crate::shown::{has_spoken, push_shown_reasons, shown_message};
use client_standing::Standing;
use command_lines::{Answer, push_answer, push_quoted};
use job_table::Table;
use spool_types::QueueRow;
use std::alloc::AllocError;
use std::io::Write;

/// Appends the line of the listing that shows a queue of the table, as the client sees it. If memory runs out, a part of it may have been
/// appended.
pub fn push_shown_queue(
    text: &mut Vec<u8>,
    table: &Table,
    row: &QueueRow,
    client: &Standing,
) -> Result<(), AllocError>
    ensures { OnOk result (text.new.items ≡ text.old.items ++ shown_queue_line client.now table.now.state row.now) }
{
    let busy = table.processing(&row.name).is_some();
    let spoken = has_spoken(table, &row.name);
    push_row(text, row, client, busy, spoken)
}

/// Appends the lines of all queues of the table, in the order of their names, as the client sees them, and the line that counts them. If
/// memory runs out, a part of them may have been appended.
pub fn push_all_queues(
    text: &mut Vec<u8>,
    table: &Table,
    client: &Standing,
) -> Result<(), AllocError>
    ensures { OnOk result (text.new.items ≡ text.old.items ++ all_queues_shown client.now table.now.state) }
{
    push_shown_queues(text, table, client)?;
    push_answer(text, &Answer::Queues(table.queues().len()))
}

/// Appends the lines of all queues of the table, in the order of their names, as the client sees them. If memory runs out, a part of them may
/// have been appended.
pub fn push_shown_queues(
    text: &mut Vec<u8>,
    table: &Table,
    client: &Standing,
) -> Result<(), AllocError>
    ensures { OnOk result (text.new.items ≡ text.old.items ++ shown_queue_lines client.now table.now.state (finite.values table.now.state.queues)) }
{
    push_lines(text, table, table.queues(), client)
}

fn push_lines(
    text: &mut Vec<u8>,
    table: &Table,
    rows: &[QueueRow],
    client: &Standing,
) -> Result<(), AllocError>
    ensures { OnOk result (text.new.items ≡ text.old.items ++ shown_queue_lines client.now table.now.state rows.now) }
{
    for row in rows {
        push_shown_queue(text, table, row, client)?;
    }
    Ok(())
}

fn push_row(
    text: &mut Vec<u8>,
    row: &QueueRow,
    client: &Standing,
    busy: bool,
    spoken: bool,
) -> Result<(), AllocError>
    ensures { OnOk result (text.new.items ≡ text.old.items ++ queue_text busy (shown_row client.now spoken row.now)) }
{
    push_head(text, row, busy)?;
    push_rules(text, row)?;
    push_shown_reasons(text, row.reasons.as_slice(), spoken)?;
    text.push(b' ')?;
    push_quoted(text, shown_message(client, row, spoken))?;
    text.push(b'\n')?;
    Ok(())
}

fn push_head(text: &mut Vec<u8>, row: &QueueRow, busy: bool) -> Result<(), AllocError>
    ensures { OnOk result (text.new.items ≡ text.old.items ++ queue_head busy row.now) }
{
    let name = row.name.as_str();
    let state = row.printer_state(busy);
    let accepting = if row.accepting {
        "accepting"
    } else {
        "rejecting"
    };
    let target = row.target.as_str();
    write!(text, "queue {name} {state} {accepting} {target} ").map_err(|_| AllocError)
}

fn push_rules(text: &mut Vec<u8>, row: &QueueRow) -> Result<(), AllocError>
    ensures { OnOk result (text.new.items ≡ text.old.items ++ queue_rules row.now) }
{
    let policy = row.policy.word();
    let interval = row.interval.get();
    let limit = row.limit;
    write!(text, "{policy} {interval} {limit} ").map_err(|_| AllocError)
}
