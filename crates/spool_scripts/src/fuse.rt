//! When a disk fails: after a number of calls.
ghost use Rattle.std.specs.Prelude.{◌≡◌, ◌^◌, ◌-◌, ◌≤◌, false, [], IfOk};

use crate::fault::CaseFault;

/// When the disk of a case fails: after each number of calls from the first to the last, in turn. The disk fails from
/// then on, or with `once` at one call only.
#[derive(Clone, Copy)]
pub struct Fuse {
    pub first: u64,
    pub last: u64,
    pub once: bool,
}

impl Fuse {
    /// A disk that does not fail.
    pub const NEVER: Fuse = Fuse {
        first: u64::MAX,
        last: u64::MAX,
        once: false,
    };
}

/// Reads two numbers from a text. The first must not be greater than the last, so a case is served at least once. The
/// word `once` may precede them. If the text is empty, the disk does not fail.
pub fn read_fuse(text: &str) -> Result<Fuse, CaseFault>
    ensures never { text.now ≡ [] → IfOk result (λ f. f ≡ record { first = 2 ^ 64 - 1; last = 2 ^ 64 - 1; once = false }) }
    ensures served { IfOk result (λ f. f.first ≤ f.last) }
{
    if text.is_empty() {
        return Ok(Fuse::NEVER);
    }
    let text = text.trim_end();
    match text.strip_prefix("once ") {
        Some(numbers) => fuse_between(numbers, true),
        None => fuse_between(text, false),
    }
}

// Returns the fuse between two numbers of calls.
fn fuse_between(numbers: &str, once: bool) -> Result<Fuse, CaseFault>
    ensures { IfOk result (λ f. f.first ≤ f.last) }
{
    let Some((first, last)) = numbers.split_once(' ') else {
        return Err(CaseFault::NoFuse);
    };
    let first = calls_of(first)?;
    let last = calls_of(last)?;
    if last < first {
        return Err(CaseFault::NoFuse);
    }
    Ok(Fuse { first, last, once })
}

// Returns a number of calls.
fn calls_of(text: &str) -> Result<u64, CaseFault> {
    match text.parse::<u64>() {
        Ok(calls) => Ok(calls),
        Err(_) => Err(CaseFault::NoFuse),
    }
}
