//! Why a service cannot be reached, and what to do.
ghost use Rattle.std.specs.Prelude.{◌≡◌};
ghost use Rattle.spool_front.specs.TaskFaults.{hint_for};

use std::alloc::{AllocError, Global};
use std::io::{self, ErrorKind};
use system_reasons::reason_of;

/// Returns the system's words for an error of a connection, and what to do.
pub fn reason_and_hint(alloc: Global, error: &io::Error) -> Result<String, AllocError> {
    let mut text = reason_of(alloc, error)?;
    text.push_str(hint_for(error.kind()))?;
    Ok(text)
}

// Returns what to do if a service cannot be reached.
fn hint_for(kind: ErrorKind) -> &'static str
    ensures { result.now ≡ hint_for kind }
{
    match kind {
        ErrorKind::NotFound | ErrorKind::ConnectionRefused => {
            " (is cegmandi running? systemctl status cegmandi)"
        }
        ErrorKind::PermissionDenied => " (may this user use the socket? ls -l)",
        _ => "",
    }
}
