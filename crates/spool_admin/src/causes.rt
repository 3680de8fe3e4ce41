//! The causes of the faults that only this program has.
ghost use Rattle.std.specs.Prelude.{◌≡◌, IfOk, string_bytes};
ghost use Rattle.std.specs.Option.{option_map};
ghost use Rattle.spool_admin.specs.AdminCauses.{admin_cause, folder_cause, grown_cause, listed_cause, queue_cause, request_cause, size_cause, word_cause, word_of};

use crate::fault::AdminFault;
use crate::words::Asked;
use std::alloc::{AllocError, Global};

/// Returns the cause of a fault of this program, by its request, if there is more to say.
pub fn admin_cause(
    alloc: Global,
    asked: &Asked<'_>,
    fault: &AdminFault,
) -> Result<Option<String>, AllocError>
    ensures { IfOk result (λ cause. option_map string_bytes cause ≡ admin_cause asked.now fault.now) }
{
    match fault {
        AdminFault::Smaller | AdminFault::Full => size_cause(alloc, asked, fault),
        AdminFault::Queue
        | AdminFault::Unended
        | AdminFault::Ended
        | AdminFault::BadUri
        | AdminFault::BadMedia => request_cause(alloc, asked, fault),
        _ => folder_cause(alloc, asked.dir(), asked.into_dir(), fault),
    }
}

// Returns why the new file is too small.
fn size_cause(
    alloc: Global,
    asked: &Asked<'_>,
    fault: &AdminFault,
) -> Result<Option<String>, AllocError>
    ensures { IfOk result (λ cause. option_map string_bytes cause ≡ size_cause asked.now fault.now) }
{
    match asked {
        Asked::Grow(dir, size) => grown_cause(alloc, dir, *size, fault),
        _ => listed_cause(alloc, asked.dir(), fault),
    }
}

fn grown_cause(
    alloc: Global,
    dir: &str,
    size: u64,
    fault: &AdminFault,
) -> Result<Option<String>, AllocError>
    ensures { IfOk result (λ cause. option_map string_bytes cause ≡ grown_cause dir.now size fault.now) }
{
    let cause = match fault {
        AdminFault::Smaller => format!(in alloc;
            "{size} is less than the size of {dir}/spool.disk (see spool_admin look {dir})"
        )?,
        AdminFault::Full => format!(in alloc;
            "the contents of {dir}/spool.disk do not fit into half of {size} bytes"
        )?,
        _ => return Ok(None),
    };
    Ok(Some(cause))
}

fn listed_cause(alloc: Global, dir: &str, fault: &AdminFault) -> Result<Option<String>, AllocError>
    ensures { IfOk result (λ cause. option_map string_bytes cause ≡ listed_cause dir.now fault.now) }
{
    match fault {
        AdminFault::Full => Ok(Some(format!(in alloc;
            "the contents do not fit into half of a file of this size (enlarge {dir}/spool.disk first: spool_admin grow)"
        )?)),
        _ => Ok(None),
    }
}

// Returns what is wrong with the folder of the spool, or with that for the part.
fn folder_cause(
    alloc: Global,
    dir: &str,
    into: &str,
    fault: &AdminFault,
) -> Result<Option<String>, AllocError>
    ensures { IfOk result (λ cause. option_map string_bytes cause ≡ folder_cause dir.now into.now fault.now) }
{
    let cause = match fault {
        AdminFault::EpochEnd => format!(in alloc; "{dir}/spool.disk has had its last checkpoint")?,
        AdminFault::Taken => format!(in alloc;
            "{into} has a spool already (move it away, or name another folder)"
        )?,
        AdminFault::Unfinished => format!(in alloc;
            "{dir}/spool.split has the folder and the queues of a split that is not finished (finish that one first)"
        )?,
        AdminFault::Halves => format!(in alloc;
            "failed: the device of {dir} or of {into} failed (see the system's log)"
        )?,
        AdminFault::Missing(name) => queue_cause(alloc, dir, name.as_str())?,
        _ => return Ok(None),
    };
    Ok(Some(cause))
}

fn queue_cause(alloc: Global, dir: &str, name: &str) -> Result<String, AllocError>
    ensures { IfOk result (λ cause. string_bytes cause ≡ queue_cause dir.now name.now) }
{
    format!(in alloc; "the spool in {dir} has no queue {name}")
}

// Returns why a word of the request is refused.
fn request_cause(
    alloc: Global,
    asked: &Asked<'_>,
    fault: &AdminFault,
) -> Result<Option<String>, AllocError>
    ensures { IfOk result (λ cause. option_map string_bytes cause ≡ request_cause asked.now fault.now) }
{
    match word_of(asked, fault) {
        Some(word) => word_cause(alloc, asked.dir(), word, fault),
        None => Ok(None),
    }
}

fn word_cause(
    alloc: Global,
    dir: &str,
    word: &str,
    fault: &AdminFault,
) -> Result<Option<String>, AllocError>
    ensures { IfOk result (λ cause. option_map string_bytes cause ≡ word_cause dir.now word.now fault.now) }
{
    let cause = match fault {
        AdminFault::Queue => queue_cause(alloc, dir, word)?,
        AdminFault::Unended => format!(in alloc;
            "queue {word} of the spool in {dir} (cancel its jobs, or wait for their ends)"
        )?,
        AdminFault::Ended => format!(in alloc; "queue {word} of the spool in {dir}")?,
        AdminFault::BadUri => format!(in alloc;
            "{word} is no absolute URI of up to 1023 characters, such as socket://192.0.2.9/"
        )?,
        AdminFault::BadMedia => format!(in alloc; "{word} is no type such as application/pdf")?,
        _ => return Ok(None),
    };
    Ok(Some(cause))
}

// Returns the word of the request that a fault is about.
fn word_of<'a>(asked: &Asked<'a>, fault: &AdminFault) -> Option<&'a str>
    ensures { option_map (λ word. word.now) result ≡ word_of asked.now fault.now }
{
    match (asked, fault) {
        (Asked::Set(words), AdminFault::BadUri) => words.uri,
        (Asked::Set(words), AdminFault::BadMedia) => words.media,
        (Asked::Set(words), _) => Some(words.name),
        (Asked::Remove(words), _) => Some(words.name),
        _ => None,
    }
}
