//! The environment and the terminal.
ghost use Rattle.std.specs.Prelude.{◌≡◌, ◌≤◌, IfOk, string_bytes};
ghost use Rattle.spool_front.specs.TaskFaults.{variable_as};
ghost use Rattle.spool_front.specs.EnvironmentValues.{IsNumberOr, text_or};

use std::alloc::{AllocError, Global};
use std::env::{self, VarError};

/// Returns the value of an environment variable, or `None` if it is not set or is not valid UTF-8.
pub fn variable(rt: &HostRuntime, name: &str) -> Result<Option<String>, AllocError> {
    variable_as(env::var(rt, name))
}

// Out of memory is an error: it is not treated as an unset variable.
fn variable_as(told: Result<String, VarError>) -> Result<Option<String>, AllocError>
    ensures { result ≡ variable_as told }
{
    match told {
        Ok(text) => Ok(Some(text)),
        Err(VarError::OutOfMemory) => Err(AllocError),
        Err(_) => Ok(None),
    }
}

/// Returns the value of an environment variable, or the default.
pub fn variable_or(rt: &HostRuntime, name: &str, usual: &str) -> Result<String, AllocError> {
    text_or(rt.alloc(), variable(rt, name)?, usual)
}

fn text_or(alloc: Global, told: Option<String>, usual: &str) -> Result<String, AllocError>
    ensures { IfOk result (λ text. string_bytes text ≡ text_or told usual.now) }
{
    match told {
        Some(text) => Ok(text),
        None => String::from_str(alloc, usual),
    }
}

/// Returns the number in the value if it is at most `most`, or else the default.
pub fn number_or(told: &Option<String>, most: u64, usual: u64) -> u64
    requires { usual ≤ most }
    ensures value { IsNumberOr most usual told.now result }
    ensures bound { result ≤ most }
{
    let Some(text) = told else {
        return usual;
    };
    match text.as_str().parse::<u64>() {
        Ok(number) if number <= most => number,
        _ => usual,
    }
}

/// The terminal that standard error is connected to.
#[derive(Clone, Copy)]
pub struct Screen {
    /// Whether standard error is a terminal, which shows the progress of a job.
    pub shows: bool,
    /// The width of a line in columns.
    pub width: usize,
}
