//! Facts of printers and jobs, and the text of a group.

use ipp_answers::{JobFacts, JobReason, Reached, Server, Timestamp};
use ipp_values::{Attribute, DateTime, Group, Value};
use printer_answers::PrinterFacts;
use spool_types::{
    Copies, JobId, MediaType, Message, Note, Priority, QueueName, Reason, Reasons, TextFault,
    Title, UserName,
};
use std::alloc::{AllocError, Global};

/// 2023-11-14 22:13:20 UTC.
pub const NOW: u64 = 1_700_000_000;

pub fn server() -> Server<'static> {
    Server {
        host: "host",
        is_secure: false,
        spool: "host/run/spool.sock",
        moment: Timestamp::of_seconds(NOW),
        configured: Timestamp::of_seconds(NOW - 86_400),
        creation_attributes: &["copies", "media"],
        longest_document: 16_777_216,
        takes_several_documents: false,
        time_out: 300,
    }
}

fn reasons(alloc: Global, words: &[&str]) -> Result<Reasons, TextFault> {
    let mut list = Vec::new(alloc);
    for word in words {
        let reason = Reason::read(alloc, word)?;
        if let Err(failed) = list.push(reason) {
            return Err(AllocError::from(failed).into());
        }
    }
    match Reasons::new(list) {
        Ok(reasons) => Ok(reasons),
        Err(list) => {
            drop(list);
            Err(TextFault::Bad)
        }
    }
}

/// Returns media types.
pub fn formats(alloc: Global, words: &[&str]) -> Result<Vec<MediaType>, TextFault> {
    let mut list = Vec::new(alloc);
    for word in words {
        let media = MediaType::read(alloc, word)?;
        if let Err(failed) = list.push(media) {
            return Err(AllocError::from(failed).into());
        }
    }
    Ok(list)
}

/// A queue that prints job 7 and is to stop after it.
pub fn printer(alloc: Global, words: &[&str]) -> Result<PrinterFacts, TextFault> {
    Ok(PrinterFacts {
        name: QueueName::read(alloc, "lab")?,
        uri: None,
        info: Note::read(alloc, "")?,
        location: Note::read(alloc, "Room 2")?,
        accepting: true,
        stopped: true,
        printing: JobId::new(7),
        waiting: 2,
        reasons: reasons(alloc, &["media-empty-warning"])?,
        message: Message::read(alloc, "Out of paper")?,
        changed: None,
        formats: formats(alloc, words)?,
    })
}

/// Job 7 of ann, or of an owner who is hidden.
pub fn job(alloc: Global, user: Option<UserName>) -> Result<JobFacts, TextFault> {
    Ok(JobFacts {
        id: JobId::new(7).ok_or(TextFault::Bad)?,
        queue: QueueName::read(alloc, "lab")?,
        user,
        title: Title::read(alloc, "Letter")?,
        reason: JobReason::Printing,
        held_until: None,
        copies: Copies::new(2).ok_or(TextFault::Bad)?,
        priority: Priority::new(50).ok_or(TextFault::Bad)?,
        size: 1_025,
        impressions: 3,
        format: None,
        created: at(NOW - 60),
        started: Reached::Unknown,
        ended: Reached::NotYet,
    })
}

fn at(seconds: u64) -> Reached {
    match Timestamp::of_seconds(seconds) {
        Some(timestamp) => Reached::At(timestamp),
        None => Reached::Unknown,
    }
}

/// Returns the attributes of a group, one on each line: the name, and its values after spaces.
pub fn shown(alloc: Global, group: &Group) -> Result<String, AllocError> {
    let mut text = String::new(alloc);
    for attribute in group.attributes.as_slice() {
        push_attribute(alloc, &mut text, attribute)?;
    }
    Ok(text)
}

fn push_attribute(
    alloc: Global,
    text: &mut String,
    attribute: &Attribute,
) -> Result<(), AllocError> {
    text.push_str(attribute.name.as_str())?;
    for value in attribute.values.as_slice() {
        text.push(' ')?;
        push_value(alloc, text, value)?;
    }
    text.push('\n')
}

fn push_value(alloc: Global, text: &mut String, value: &Value) -> Result<(), AllocError> {
    if let Some(word) = value.as_str() {
        return text.push_str(word);
    }
    match value {
        Value::Integer(number) => push_number(alloc, text, *number),
        Value::Enum(number) => push_number(alloc, text, *number),
        Value::Boolean(true) => text.push_str("true"),
        Value::Boolean(false) => text.push_str("false"),
        Value::NoValue => text.push_str("no-value"),
        Value::Unknown => text.push_str("unknown"),
        Value::Resolution(resolution) => push_number(alloc, text, resolution.feed),
        Value::RangeOfInteger(range) => push_number(alloc, text, range.upper),
        Value::DateTime(date) => push_date(alloc, text, date),
        Value::BeginCollection => text.push('{'),
        Value::MemberName(name) => text.push_str(name.as_str()),
        Value::EndCollection => text.push('}'),
        _ => text.push('?'),
    }
}

fn push_number(alloc: Global, text: &mut String, number: i32) -> Result<(), AllocError> {
    let digits = format!(in alloc; "{number}")?;
    text.push_str(digits.as_str())
}

fn push_date(alloc: Global, text: &mut String, date: &DateTime) -> Result<(), AllocError> {
    let (year, month, day) = (date.year, date.month, date.day);
    let (hour, minute, second) = (date.hour, date.minute, date.second);
    let digits = format!(in alloc; "{year}-{month}-{day}T{hour}:{minute}:{second}")?;
    text.push_str(digits.as_str())
}
