//! Objects of the output as JSON, one a line.
ghost use Rattle.std.specs.Prelude.{◌≡◌, IfOk, OnOk};
ghost use Rattle.std.specs.List.{after_first, before_first};
ghost use Rattle.std.specs.Option.{option_map};
ghost use Rattle.front_texts.specs.ReplyLines.{is_space};
ghost use Rattle.serde_json.specs.View.{members_view, view};
ghost use Rattle.spool_front.specs.JsonLines.{IsNews, accepted_data, line_data, lines_data, news_data, printing_data, reply_data, running_data, unfit_data, with_field};

use crate::fault::Fault;
use clean_texts::clean_bytes;
use front_texts::{WatchLine, job_json, json_text, queue_json, read_watch_line};
use serde_json::{Map, Value, json, put};
use std::alloc::{AllocError, Global};

/// Prints a value on a line.
pub fn print_json(rt: &HostRuntime, value: Value) -> Result<(), Fault> {
    let text = json_text(rt.alloc(), &value);
    drop(value);
    let text = text?;
    println!(rt; "{text}")?;
    Ok(())
}

/// Returns the object of an accepted job.
pub fn accepted_json(alloc: Global, queue: &str, job: u32) -> Result<Value, AllocError>
    ensures { IfOk result (λ object. view object ≡ accepted_data queue.now job) }
{
    json!(in alloc; {"job": job, "queue": queue})
}

/// Returns the object of a service that is running.
pub fn running_json(alloc: Global, socket: &str) -> Result<Value, AllocError>
    ensures { IfOk result (λ object. view object ≡ running_data socket.now) }
{
    json!(in alloc; {"running": true, "service": socket})
}

/// Returns the object of a queue that can print if `why` is none, and else cannot.
pub fn printing_json(alloc: Global, queue: &str, why: Option<&str>) -> Result<Value, AllocError>
    ensures { IfOk result (λ object. view object ≡ printing_data queue.now (option_map (λ text. text.now) why.entry)) }
{
    match why {
        Some(why) => json!(in alloc; {"prints": false, "queue": queue, "why": why}),
        None => json!(in alloc; {"prints": true, "queue": queue}),
    }
}

/// Returns the object of a program that cannot be run.
pub fn unfit_json(alloc: Global, kind: &str, name: &str, why: &str) -> Result<Value, AllocError>
    ensures { IfOk result (λ object. view object ≡ unfit_data kind.now name.now why.now) }
{
    json!(in alloc; {"kind": kind, "name": name, "why": why})
}

/// Returns the object of a line of `watch`.
pub fn news_json(alloc: Global, line: &[u8]) -> Result<Value, AllocError>
    ensures { IfOk result (λ object. IsNews line.now (view object)) }
{
    match read_watch_line(alloc, line)? {
        Some(news) => {
            let object = known_json(alloc, &news);
            drop(news);
            object
        }
        None => other_json(alloc, line),
    }
}

fn known_json(alloc: Global, news: &WatchLine) -> Result<Value, AllocError>
    ensures { IfOk result (λ object. view object ≡ news_data news.now) }
{
    match news {
        WatchLine::Job(job) => {
            let job = job_json(alloc, job)?;
            json!(in alloc; {"job": &job})
        }
        WatchLine::Queue(queue) => {
            let queue = queue_json(alloc, queue)?;
            json!(in alloc; {"queue": &queue})
        }
        WatchLine::GoneJob(job) => json!(in alloc; {"gone_job": job.get()}),
        WatchLine::GoneQueue(name) => json!(in alloc; {"gone_queue": name.as_str()}),
        WatchLine::Missed => json!(in alloc; {"missed": true}),
    }
}

// Returns the object of a line that states neither a job nor a queue, such as the number of a change.
fn other_json(alloc: Global, line: &[u8]) -> Result<Value, AllocError> {
    let text = clean_bytes(alloc, line)?;
    json!(in alloc; {"line": text.as_str()})
}

/// Returns the object of a reply: its rows and its last line.
pub fn reply_json(alloc: Global, rows: &[Vec<u8>], last: &str) -> Result<Value, AllocError>
    ensures { IfOk result (λ object. view object ≡ reply_data rows.now last.now) }
{
    let rows = lines_json(alloc, rows)?;
    json!(in alloc; {"last": last, "rows": &rows})
}

// Returns lines as an array of texts.
fn lines_json(alloc: Global, lines: &[Vec<u8>]) -> Result<Value, AllocError>
    ensures { IfOk result (λ array. view array ≡ lines_data lines.now) }
{
    let mut array = Vec::new(alloc);
    for line in lines {
        array.push(line_json(alloc, line)?)?;
    }
    Ok(Value::Array(array))
}

fn line_json(alloc: Global, line: &Vec<u8>) -> Result<Value, AllocError>
    ensures { IfOk result (λ text. view text ≡ line_data line.now) }
{
    Ok(Value::String(String::from_utf8_lossy(alloc, line.as_slice())?))
}

/// Returns the fields of a queue, which are lines `NAME VALUE`.
pub fn fields_json(alloc: Global, rows: &[Vec<u8>]) -> Result<Value, AllocError> {
    let mut members = Map::new(alloc);
    for row in rows {
        let text = clean_bytes(alloc, row)?;
        put_field(alloc, &mut members, text.as_str())?;
    }
    Ok(Value::Object(members))
}

// Adds the field of a line.
fn put_field(alloc: Global, members: &mut Map<String, Value>, line: &str) -> Result<(), AllocError>
    ensures { OnOk result (members_view members.new.entries ≡ with_field line.now (members_view members.old.entries)) }
{
    let (name, value) = field_of(line);
    put(
        members,
        alloc,
        name,
        Value::String(String::from_str(alloc, value)?),
    )
}

// Returns the name and the value of a field, which a blank separates.
fn field_of(line: &str) -> (&str, &str)
    ensures name { result.0.now ≡ before_first is_space line.now }
    ensures value { result.1.now ≡ after_first is_space line.now }
{
    match line.split_once(' ') {
        Some(parts) => parts,
        None => (line, ""),
    }
}
