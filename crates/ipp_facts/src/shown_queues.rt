//! The rows of a queue.
ghost use Rattle.std.specs.Prelude.{◌≡◌, codes, IfOk, IfSome, Some, is_some};
ghost use Rattle.spool_types.specs.Values.{is_queue_name, media_in, text_in};
ghost use Rattle.front_texts.specs.ReplyFields.{is_word};
ghost use Rattle.ipp_facts.specs.QueueReports.{IsReportOf, formats_for, formats_of, has_type, names_a_queue, value_of};

use crate::shown_jobs::timestamp_at;
use crate::shown_uris::without_user;
use crate::words::{message_in, note_in, number_of, value_of};
use command_lines::job_number;
use mime_costs::Convs;
use printer_answers::{PrinterFacts, formats_to};
use spool_types::{MediaType, QueueName, Reason, Reasons, Uri};
use std::alloc::{AllocError, Global};

// The greatest number of waiting jobs, and the last moment, that are read.
const MOST_JOBS: u64 = 2_147_483_647;

const MOST_SECONDS: u64 = 1_099_511_627_776;

/// Returns the type of the queue.
pub fn queue_target(alloc: Global, rows: &[Vec<u8>]) -> Result<Option<MediaType>, AllocError>
    ensures { IfOk result (λ media. media ≡ media_in (value_of rows.now (codes "type"))) }
{
    MediaType::from_word(alloc, value_of(rows, b"type"))
}

/// Returns whether the queue accepts jobs.
pub fn is_accepting(rows: &[Vec<u8>]) -> bool
    ensures { result ≡ is_word (value_of rows.now (codes "accepting")) (codes "yes") }
{
    value_of(rows, b"accepting") == b"yes".as_slice()
}

/// Returns the facts of a queue, from the lines of `queue NAME`, or `None` if its name or its type is missing.
pub fn printer_facts(
    alloc: Global,
    rows: &[Vec<u8>],
    convs: &Convs,
    types: &[MediaType],
) -> Result<Option<PrinterFacts>, AllocError>
    ensures some { IfOk result (λ facts. IfSome facts (IsReportOf rows.now)) }
    ensures none { IfOk result (λ facts. is_some facts ≡ names_a_queue rows.now) }
    // The formats are the type of the queue and those of which a chain of filters makes it.
    ensures formats { IfOk result (λ facts. IfSome facts (λ facts. facts.formats.items ≡ formats_for convs.now types.now (media_in (value_of rows.now (codes "type"))))) }
{
    let Some(target) = queue_target(alloc, rows)? else {
        return Ok(None);
    };
    match QueueName::from_word(alloc, value_of(rows, b"queue"))? {
        Some(name) => {
            let formats = formats_of(alloc, convs, types, &target)?;
            Ok(Some(facts_with(alloc, rows, name, formats)?))
        }
        None => Ok(None),
    }
}

fn facts_with(
    alloc: Global,
    rows: &[Vec<u8>],
    name: QueueName,
    formats: Vec<MediaType>,
) -> Result<PrinterFacts, AllocError>
    requires { text_in is_queue_name (value_of rows.now (codes "queue")) ≡ Some name }
    ensures report { IfOk result (IsReportOf rows.now) }
    ensures formats { IfOk result (λ facts. facts.formats.items ≡ formats.items) }
{
    let uri = without_user(alloc, value_of(rows, b"uri"))?;
    Ok(PrinterFacts {
        name,
        uri: Uri::from_word(alloc, uri.as_slice())?,
        info: note_in(alloc, value_of(rows, b"info"))?,
        location: note_in(alloc, value_of(rows, b"location"))?,
        accepting: is_accepting(rows),
        stopped: value_of(rows, b"stopped") == b"yes".as_slice(),
        printing: job_number(value_of(rows, b"printing")),
        waiting: number_of(rows, b"waiting", MOST_JOBS) as u32,
        reasons: reasons_in(alloc, value_of(rows, b"reasons"))?,
        message: message_in(alloc, value_of(rows, b"message"))?,
        changed: timestamp_at(number_of(rows, b"changed", MOST_SECONDS)),
        formats,
    })
}

// Returns the types that a queue of this type takes: its own, and those of which a chain of filters makes it.
fn formats_of(
    alloc: Global,
    convs: &Convs,
    types: &[MediaType],
    target: &MediaType,
) -> Result<Vec<MediaType>, AllocError>
    ensures { IfOk result (λ formats. formats.items ≡ formats_of convs.now types.now target.now) }
{
    let mut formats = formats_to(alloc, convs, types, target)?;
    if !has_type(formats.as_slice(), target) {
        formats.push(target.clone()?)?;
    }
    Ok(formats)
}

fn has_type(formats: &[MediaType], target: &MediaType) -> bool
    ensures { result ≡ has_type formats.now target.now }
{
    formats
        .iter()
        .any(|media| media.as_str() == target.as_str())
}

fn reasons_in(alloc: Global, word: &[u8]) -> Result<Reasons, AllocError> {
    let mut reasons = Vec::new(alloc);
    if word != b"none".as_slice() {
        for part in word.split(|b| *b == b',') {
            if let Some(reason) = Reason::from_word(alloc, part)? {
                reasons.push(reason)?;
            }
        }
    }
    match Reasons::new(reasons) {
        Ok(reasons) => Ok(reasons),
        Err(_) => Ok(Reasons::empty(alloc)),
    }
}
