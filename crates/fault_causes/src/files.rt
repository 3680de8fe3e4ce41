//! The causes of a file of types, conversions or programs that cannot be used.
ghost use Rattle.std.specs.Prelude.{◌≡◌};
ghost use Rattle.fault_causes.specs.LineReasons.{line_reason};

use crate::causes::GivenNames;
use crate::lines::rejected_line;
use std::alloc::{AllocError, Global};
use std::{fs, io};
use system_reasons::reason_of;

/// Returns why a file of the arguments cannot be used, if a second look shows it.
pub fn file_cause(
    rt: &HostRuntime,
    names: GivenNames<'_>,
    name: &str,
) -> Result<Option<String>, AllocError> {
    if !is_given(names, name) || !may_be_read_again(rt, name) {
        return Ok(None);
    }
    match fs::read_to_string(rt, name) {
        Ok(text) if is_name(names.programs, name) => {
            programs_cause(rt.alloc(), name, text.as_str())
        }
        Ok(_) => Ok(None),
        Err(error) => Ok(Some(unread(rt.alloc(), name, &error)?)),
    }
}

fn is_given(names: GivenNames<'_>, name: &str) -> bool {
    is_name(names.types, name) || is_name(names.convs, name) || is_name(names.programs, name)
}

fn is_name(given: Option<&str>, name: &str) -> bool {
    match given {
        Some(given) => given == name,
        None => false,
    }
}

// Returns whether the file can be read twice. A pipe cannot: it would be waited for.
fn may_be_read_again(rt: &HostRuntime, name: &str) -> bool {
    match fs::metadata(rt, name) {
        Ok(found) => found.is_file() || found.is_dir(),
        Err(_) => true,
    }
}

fn unread(alloc: Global, name: &str, error: &io::Error) -> Result<String, AllocError> {
    let reason = reason_of(alloc, error)?;
    let reason = reason.as_str();
    format!(in alloc; "cannot read {name}: {reason}")
}

// Returns the first line of a programs file that is rejected, and why.
fn programs_cause(alloc: Global, name: &str, text: &str) -> Result<Option<String>, AllocError> {
    let Some((before, alone)) = rejected_line(alloc, text)? else {
        return Ok(None);
    };
    let number = before.saturating_add(1);
    let reason = line_reason(alone);
    let cause = format!(in alloc; "cannot read {name}, line {number}: {reason}")?;
    Ok(Some(cause))
}

// Returns why a line is rejected, by whether it would be rejected alone.
fn line_reason(alone: bool) -> &'static str
    ensures { result.now ≡ line_reason alone }
{
    if alone {
        "expected filter, backend or root-backend with NAME PATH [WORD], or side with PATH [WORD]"
    } else {
        "an earlier line is about the same program"
    }
}
