//! The proof of who the client is, over a new connection.
ghost use Rattle.std.specs.Prelude.{◌≡◌};
ghost use Rattle.spool_front.specs.Proofs.{is_left};

use crate::client::Answer;
use crate::connection::{Connection, ConnectionFault};
use front_proof::{Caller, ProofPath, Step};
use std::alloc::Global;
use std::fs::{self, DirBuilder, Permissions};
use std::os::unix::fs::{DirBuilderExt, MetadataExt, PermissionsExt};

// The mode of the folder.
const MODE: u32 = 0o700;

/// Sends the first command of a connection and returns its reply. If the service takes proofs, the client first proves who it is: `i-am`
/// takes a round trip of its own, and `made` is sent together with the command.
pub fn first_exchange(
    rt: &HostRuntime,
    connection: &mut Connection,
    text: &[u8],
) -> Result<Answer, ConnectionFault> {
    let alloc = rt.alloc();
    let offer = connection.exchange(alloc, b"i-am\n")?;
    if offer.is_busy() {
        return Ok(offer);
    }
    let step = Step::after_offer(alloc, offer.last.as_bytes());
    drop(offer);
    match after_making(rt, step?, connection.owner()) {
        Step::Claiming(path) => claim(rt, connection, path, text),
        step => {
            drop(step);
            connection.note_caller(Caller::Unproved);
            connection.exchange(alloc, text)
        }
    }
}

// Makes the folder that the service asks for, and returns the next step.
fn after_making(rt: &HostRuntime, step: Step, owner: Option<u32>) -> Step {
    let made = match &step {
        Step::Making(path) => is_of_owner(rt, path, owner) && make_folder(rt, path.as_str()),
        _ => false,
    };
    step.after_making(made)
}

// Returns whether the folder's parent belongs to the owner of the service's socket. The parent of another owner can be that of
// another service, to which this service would pass for the client.
fn is_of_owner(rt: &HostRuntime, path: &ProofPath, owner: Option<u32>) -> bool {
    let (Some(owner), Some(parent)) = (owner, path.parent()) else {
        return false;
    };
    match fs::metadata(rt, parent) {
        Ok(about) => about.uid() == owner,
        Err(_) => false,
    }
}

// Makes the folder with exactly this mode. Nothing may exist at the path.
fn make_folder(rt: &HostRuntime, path: &str) -> bool {
    let mut builder = DirBuilder::new();
    builder.mode(MODE);
    if builder.create(rt, path).is_err() {
        return false;
    }
    if has_mode(rt, path) || set_mode(rt, path) {
        return true;
    }
    remove_folder(rt, path);
    false
}

// Returns whether the folder has this mode: the user's file mode mask may have cleared bits.
fn has_mode(rt: &HostRuntime, path: &str) -> bool {
    match fs::symlink_metadata(rt, path) {
        Ok(about) => about.mode() % 0o10000 == MODE,
        Err(_) => false,
    }
}

fn set_mode(rt: &HostRuntime, path: &str) -> bool {
    fs::set_permissions(rt, path, Permissions::from_mode(MODE)).is_ok()
}

// Does nothing if the service has removed the folder.
fn remove_folder(rt: &HostRuntime, path: &str) {
    let _ = fs::remove_dir(rt, path);
}

// Sends `made` and the command, and removes the folder unless the service has taken the proof.
fn claim(
    rt: &HostRuntime,
    connection: &mut Connection,
    path: ProofPath,
    text: &[u8],
) -> Result<Answer, ConnectionFault> {
    let claimed = send_claim(rt.alloc(), connection, text);
    if is_left(&claimed) {
        remove_folder(rt, path.as_str());
    }
    drop(path);
    let (caller, answer) = claimed?;
    connection.note_caller(caller);
    Ok(answer)
}

// Sends `made` and the command together. Returns the identity of the client, and the reply to the command.
fn send_claim(
    alloc: Global,
    connection: &mut Connection,
    text: &[u8],
) -> Result<(Caller, Answer), ConnectionFault> {
    let (made, answer) = connection.exchange_both(alloc, b"made\n", text)?;
    let caller = Caller::from_reply(alloc, made.last.as_bytes());
    drop(made);
    Ok((caller?, answer))
}

// Returns whether the folder is left: the service removes it only if it takes the proof.
fn is_left(claimed: &Result<(Caller, Answer), ConnectionFault>) -> bool
    ensures { result ≡ is_left claimed.now }
{
    match claimed {
        Ok((caller, _)) => !caller.is_proved(),
        Err(_) => true,
    }
}
