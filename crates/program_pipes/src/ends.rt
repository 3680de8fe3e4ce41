//! The ends of the programs, and of the chain.
ghost use Rattle.std.specs.Prelude.{◌≡◌, ◌≢◌, ◌<◌, ◌++◌, ℕ, true, pos, Some, IfOk, OnErr, OnOk};
ghost use Rattle.std.specs.String.{string_bytes};
ghost use Rattle.std.specs.Process.{exit_code, exit_signal};
ghost use Rattle.std.specs.List.{flat_map};
ghost use Rattle.program_pipes.specs.ChainEnds.{all_succeeded, backend_level, chain_status, end_line, exited, filter_level, filter_line, level_by, numbered_line, plain_line, report_of, succeeded};

use std::alloc::{AllocError, Global};
use std::io;
use std::os::unix::process::ExitStatusExt;
use std::process::ExitStatus;

/// How a program ended.
#[derive(Clone, Copy)]
pub enum Ended {
    /// With this status.
    Exited(u8),
    /// By this signal.
    Killed(u8),
    /// The system does not say how.
    Unknown,
}

impl Ended {
    fn succeeded(self) -> bool
        ensures { result ≡ succeeded self }
    {
        matches!(self, Ended::Exited(0))
    }

    fn exited(self) -> bool
        ensures { result ≡ exited self }
    {
        matches!(self, Ended::Exited(_))
    }
}

/// The end of a filter of a chain.
#[derive(Clone, Copy)]
pub struct FilterEnd<'a> {
    pub name: &'a str,
    pub ended: Ended,
}

/// The ends of all programs of a chain.
#[derive(Drop)]
pub struct ChainEnd<'a> {
    /// Those of the filters, in order.
    pub filters: Vec<FilterEnd<'a>>,
    /// The name of the backend.
    pub name: &'a str,
    /// The end of the backend.
    pub backend: Ended,
}

/// Returns how a program ended that was waited for.
pub fn ended_by(waited: io::Result<ExitStatus>) -> Ended
    ensures exited { IfOk waited (λ status. (code : ℕ) → code < 256 → exit_code status ≡ Some (pos code) → result ≡ Ended.Exited code) }
    ensures zero { result ≡ Ended.Exited 0 → IfOk waited (λ status. exit_code status ≡ Some (pos 0)) }
    ensures unknown { OnErr waited (result ≡ Ended.Unknown) }
{
    match waited {
        Ok(status) => ended_with(status),
        Err(_) => Ended::Unknown,
    }
}

fn ended_with(status: ExitStatus) -> Ended
    ensures exited { (code : ℕ) → code < 256 → exit_code status ≡ Some (pos code) → result ≡ Ended.Exited code }
    ensures zero { result ≡ Ended.Exited 0 → exit_code status ≡ Some (pos 0) }
{
    if let Some(code) = status.code() {
        return exited_with(code);
    }
    match status.signal() {
        Some(signal) => killed_by(signal),
        None => Ended::Unknown,
    }
}

fn exited_with(code: i32) -> Ended
    ensures exited { (status : ℕ) → status < 256 → code ≡ pos status → result ≡ Ended.Exited status }
    ensures zero { result ≡ Ended.Exited 0 → code ≡ pos 0 }
{
    match u8::try_from(code) {
        Ok(code) => Ended::Exited(code),
        Err(_) => Ended::Unknown,
    }
}

fn killed_by(signal: i32) -> Ended
    ensures { (status : ℕ) → result ≢ Ended.Exited status }
{
    match u8::try_from(signal) {
        Ok(signal) => Ended::Killed(signal),
        Err(_) => Ended::Unknown,
    }
}

/// Returns the exit status of a chain.
pub fn chain_status(end: &ChainEnd<'_>) -> u8
    ensures status { result ≡ chain_status end.now }
    ensures printed { result ≡ 0 → (end.now.backend ≡ Ended.Exited 0) × (all_succeeded end.now.filters.items ≡ true) }
{
    match end.backend {
        Ended::Exited(0) if all_succeeded(&end.filters) => 0,
        Ended::Exited(0) => 1,
        Ended::Exited(status) => status,
        Ended::Killed(_) | Ended::Unknown => 1,
    }
}

fn all_succeeded(filters: &[FilterEnd<'_>]) -> bool
    ensures { result ≡ all_succeeded filters.now }
{
    filters.iter().all(|filter| filter.ended.succeeded())
}

/// Returns the lines that report the ends on standard error, one for each program.
pub fn report_of(alloc: Global, end: &ChainEnd<'_>) -> Result<String, AllocError>
    ensures { IfOk result (λ text. string_bytes text ≡ report_of end.now) }
{
    let mut text = String::new(alloc);
    push_filters(alloc, &mut text, end.backend, &end.filters)?;
    push_end(
        alloc,
        &mut text,
        backend_level(end.backend),
        end.name,
        end.backend,
    )?;
    Ok(text)
}

// Adds the lines of the filters.
fn push_filters(
    alloc: Global,
    text: &mut String,
    backend: Ended,
    filters: &[FilterEnd<'_>],
) -> Result<(), AllocError>
    ensures { OnOk result (string_bytes text.new ≡ string_bytes text.old ++ flat_map (filter_line backend) filters.now) }
{
    for filter in filters {
        let level = filter_level(backend, filter.ended);
        push_end(alloc, text, level, filter.name, filter.ended)?;
    }
    Ok(())
}

// Adds the line of a program.
fn push_end(
    alloc: Global,
    text: &mut String,
    level: &str,
    name: &str,
    ended: Ended,
) -> Result<(), AllocError>
    ensures { OnOk result (string_bytes text.new ≡ string_bytes text.old ++ end_line level.now name.now ended) }
{
    let line = end_line(alloc, level, name, ended)?;
    text.push_str(line.as_str())?;
    Ok(())
}

fn end_line(alloc: Global, level: &str, name: &str, ended: Ended) -> Result<String, AllocError>
    ensures { IfOk result (λ line. string_bytes line ≡ end_line level.now name.now ended) }
{
    match ended {
        Ended::Exited(status) => {
            numbered_line(alloc, level, name, " ended with status ", status, "\n")
        }
        Ended::Killed(signal) => {
            numbered_line(alloc, level, name, " was killed by signal ", signal, "\n")
        }
        Ended::Unknown => plain_line(alloc, level, name, " ended in an unknown way\n"),
    }
}

#[tactic(auto, unfolding(crate::specs::ChainEnds::numbered_line))]
fn numbered_line(
    alloc: Global,
    level: &str,
    name: &str,
    deed: &str,
    number: u8,
    end: &str,
) -> Result<String, AllocError>
    ensures { IfOk result (λ line. string_bytes line ≡ numbered_line level.now name.now deed.now number end.now) }
{
    let line = format!(in alloc; "{level}{name}{deed}{number}{end}")?;
    Ok(line)
}

#[tactic(auto, unfolding(crate::specs::ChainEnds::plain_line))]
fn plain_line(alloc: Global, level: &str, name: &str, deed: &str) -> Result<String, AllocError>
    ensures { IfOk result (λ line. string_bytes line ≡ plain_line level.now name.now deed.now) }
{
    let line = format!(in alloc; "{level}{name}{deed}")?;
    Ok(line)
}

fn level_by(is_error: bool) -> &'static str
    ensures { result.now ≡ level_by is_error }
{
    if is_error { "ERROR: " } else { "DEBUG: " }
}

fn filter_level(backend: Ended, ended: Ended) -> &'static str
    ensures { result.now ≡ filter_level backend ended }
{
    level_by(backend.succeeded() && !ended.succeeded())
}

fn backend_level(ended: Ended) -> &'static str
    ensures { result.now ≡ backend_level ended }
{
    level_by(!ended.exited())
}
