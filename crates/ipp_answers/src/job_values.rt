//! The values of the attributes of a job.
ghost use Rattle.std.specs.Prelude.{◌≡◌, ◌∷◌, [], map, string_bytes, IfOk};
ghost use Rattle.std.specs.Option.{option_copied};
ghost use Rattle.ipp_answers.specs.AnswerValues.{date_value, keyword_value, of_option, string_value};
ghost use Rattle.ipp_answers.specs.JobAnswers.{documents, hold_words, kilo_octets, reached_date, reached_seconds, title_values};
ghost use Rattle.ipp_answers.specs.JobSources.{job_address, job_values, number_of, time_of};

use crate::facts::{JobFacts, Reached, Server};
use crate::job_sources::{JobAddress, JobNumber, JobSource, JobTime};
use crate::states::JobReason;
use crate::uris::{JOBS, PRINTERS, decimal, ipp_uri, page_uri, uuid_urn};
use crate::values::{Syntax, enumerated, integer, keywords, one_string, optional_text, seconds};
use ipp_values::{Items, Value};
use std::alloc::{AllocError, Global};

/// Returns the values of an attribute.
pub fn job_values(
    alloc: Global,
    server: &Server<'_>,
    job: &JobFacts,
    source: JobSource,
) -> Result<Items<Value>, AllocError>
    ensures { IfOk result (λ values. values ≡ job_values server.now job.now source) }
{
    match source {
        JobSource::Charset => one_string(alloc, Syntax::Charset, "utf-8"),
        JobSource::Number(number) => Items::one(alloc, integer(number_of(job, number))),
        JobSource::Seconds(time) => Items::one(alloc, reached_seconds(time_of(job, time))),
        JobSource::Date(time) => Items::one(alloc, reached_date(time_of(job, time))),
        JobSource::Address(address) => address_values(alloc, server, job, address),
        JobSource::Title => title_values(alloc, job),
        JobSource::User => optional_text(alloc, Syntax::Name, job.user.as_ref()),
        JobSource::Format => optional_text(alloc, Syntax::MimeMediaType, job.format.as_ref()),
        JobSource::HoldUntil => keywords(alloc, hold_words(job)),
        JobSource::HoldUntilTime => hold_times(alloc, job),
        JobSource::State => {
            Items::one(alloc, enumerated(u64::from(job.reason.state().number())))
        }
        JobSource::StateMessage => one_string(alloc, Syntax::Text, job.reason.word()),
        JobSource::StateReasons => keywords(alloc, job.reason.keywords()),
        JobSource::UpTime => Items::one(alloc, seconds(server.moment)),
    }
}

fn number_of(job: &JobFacts, number: JobNumber) -> u64
    ensures { result ≡ number_of job.now number }
{
    match number {
        JobNumber::Id => u64::from(job.id.get()),
        JobNumber::Copies => u64::from(job.copies.get()),
        JobNumber::Priority => u64::from(job.priority.get()),
        JobNumber::Impressions => u64::from(job.impressions),
        JobNumber::KiloOctets => kilo_octets(job.size),
        JobNumber::Documents => documents(job),
    }
}

// Returns a size in units of 1,024 bytes, rounded up.
fn kilo_octets(size: u32) -> u64
    ensures { result ≡ kilo_octets size }
{
    (u64::from(size) + 1_023) / 1_024
}

fn documents(job: &JobFacts) -> u64
    ensures { result ≡ documents job.now }
{
    if matches!(job.reason, JobReason::Incoming) && job.size == 0 {
        0
    } else {
        1
    }
}

// ## Times

fn time_of(job: &JobFacts, time: JobTime) -> Reached
    ensures { result ≡ time_of job.now time }
{
    match time {
        JobTime::Creation => job.created,
        JobTime::Processing => job.started,
        JobTime::Completion => job.ended,
    }
}

fn reached_seconds(time: Reached) -> Value
    ensures { result ≡ reached_seconds time }
{
    match time {
        Reached::NotYet | Reached::Unknown => Value::NoValue,
        Reached::At(timestamp) => integer(timestamp.seconds),
    }
}

fn reached_date(time: Reached) -> Value
    ensures { result ≡ reached_date time }
{
    match time {
        Reached::NotYet => Value::NoValue,
        Reached::Unknown => Value::Unknown,
        Reached::At(timestamp) => Value::DateTime(timestamp.date),
    }
}

// ## Texts

// Returns the title, if the client may see it.
fn title_values(alloc: Global, job: &JobFacts) -> Result<Items<Value>, AllocError>
    ensures { IfOk result (λ values. values ≡ title_values job.now) }
{
    if job.user.is_none() {
        return Ok(Items::empty(alloc));
    }
    let title = job.title.as_str();
    if title.is_empty() {
        Items::one(alloc, Value::NoValue)
    } else {
        one_string(alloc, Syntax::Name, title)
    }
}

fn address_values(
    alloc: Global,
    server: &Server<'_>,
    job: &JobFacts,
    address: JobAddress,
) -> Result<Items<Value>, AllocError>
    ensures { IfOk result (λ values. values ≡ string_value Syntax.Uri (job_address server.now job.now address) ∷ []) }
{
    let address = address_text(alloc, server, job, address)?;
    one_string(alloc, Syntax::Uri, address.as_str())
}

fn address_text(
    alloc: Global,
    server: &Server<'_>,
    job: &JobFacts,
    address: JobAddress,
) -> Result<String, AllocError>
    ensures { IfOk result (λ text. string_bytes text ≡ job_address server.now job.now address) }
{
    let number = decimal(alloc, job.id.get())?;
    match address {
        JobAddress::Job => ipp_uri(alloc, server, JOBS, number.as_str()),
        JobAddress::Page => page_uri(alloc, server, JOBS, number.as_str()),
        JobAddress::Printer => ipp_uri(alloc, server, PRINTERS, job.queue.as_str()),
        JobAddress::Uuid => uuid_urn(alloc, server, JOBS, number.as_str()),
    }
}

// ## Holds

// Returns the keyword of job-hold-until, if the hold has one.
fn hold_words(job: &JobFacts) -> &'static [&'static str]
    ensures { map (λ word. word.now) result.now ≡ hold_words job.now }
{
    match job.reason {
        JobReason::Incoming => &[],
        JobReason::Held | JobReason::HeldForAuthentication | JobReason::HeldByBackend => {
            if job.held_until.is_some() {
                &[]
            } else {
                &["indefinite"]
            }
        }
        _ => &["no-hold"],
    }
}

fn hold_times(alloc: Global, job: &JobFacts) -> Result<Items<Value>, AllocError>
    ensures { IfOk result (λ values. values ≡ of_option date_value job.now.held_until) }
{
    match job.held_until {
        Some(timestamp) => Items::one(alloc, Value::DateTime(timestamp.date)),
        None => Ok(Items::empty(alloc)),
    }
}
