//! Looks up users and groups by getent(1) and id(1), because `std` does not. The programs get no variable of this program, and timeout(1)
//! kills them after two seconds.
ghost use Rattle.std.specs.Prelude.{◌≡◌, ℕ, ◌++◌, ◌∷◌, List, [], None, true, codes, IfOk, OnOk};
ghost use Rattle.std.specs.Process.{SameEnv, clears_env, command_args, command_program, command_var};
ghost use Rattle.spool_service.specs.Lookups.{group_words, groups_words, limit_words, numbers_words, passwd_words, user_words, value_of, without_value};

use spool_runtime::push_number;
use spool_types::UserName;
use std::alloc::{AllocError, Global};
use std::io;
use std::io::{ErrorKind, Read};
use std::process::{Child, ChildStdout, Command, Stdio};
use user_proofs::{UserNumbers, group_in, numbers_in, user_in};

const TIMEOUT: &str = "/usr/bin/timeout";

const GETENT: &str = "/usr/bin/getent";

const ID: &str = "/usr/bin/id";

// The greatest number of bytes that a program may print.
const MOST_OUTPUT: usize = 65_536;

/// Returns the name of a user. Returns none if the system knows no user of this number, or does not answer in time.
pub fn user_of(rt: &HostRuntime, uid: u32) -> Result<Option<UserName>, AllocError> {
    match output_of(rt, user_command(rt.alloc(), uid)?)? {
        Some(line) => user_in(rt.alloc(), &line, uid),
        None => Ok(None),
    }
}

/// Returns the numbers of the user with this name or number, and of its group.
pub fn numbers_of(rt: &HostRuntime, user: &str) -> Result<Option<UserNumbers>, AllocError> {
    match output_of(rt, numbers_command(rt.alloc(), user)?)? {
        Some(line) => numbers_in(rt.alloc(), &line, user),
        None => Ok(None),
    }
}

/// Returns the number of the group with this name or number.
pub fn group_of(rt: &HostRuntime, group: &str) -> Result<Option<u32>, AllocError> {
    match output_of(rt, group_command(rt.alloc(), group)?)? {
        Some(line) => group_in(rt.alloc(), &line, group),
        None => Ok(None),
    }
}

/// Returns the groups of a user, as id(1) prints them.
pub fn groups_of(rt: &HostRuntime, user: &str) -> Result<Option<Vec<u8>>, AllocError> {
    output_of(rt, groups_command(rt.alloc(), user)?)
}

// Returns the output of a program that succeeds and prints no more than it may.
fn output_of(rt: &HostRuntime, command: Command) -> Result<Option<Vec<u8>>, AllocError> {
    let mut command = command;
    command.stdin(Stdio::null());
    command.stdout(Stdio::piped());
    command.stderr(Stdio::null());
    let spawned = command.spawn(rt);
    drop(command);
    match value_of(spawned)? {
        Some(child) => output_of_child(rt.alloc(), child),
        None => Ok(None),
    }
}

// Reads the output of a program, and waits for its end.
fn output_of_child(alloc: Global, child: Child) -> Result<Option<Vec<u8>>, AllocError> {
    let mut child = child;
    let output = match child.stdout.take() {
        Some(pipe) => read_all(alloc, pipe),
        None => Ok(None),
    };
    match child.wait() {
        Ok(status) if status.success() => output,
        _ => Ok(None),
    }
}

// Returns all bytes of a pipe, if they are not too many, and closes it.
fn read_all(alloc: Global, pipe: ChildStdout) -> Result<Option<Vec<u8>>, AllocError> {
    let mut output = Vec::new(alloc);
    let mut limited = pipe.take(MOST_OUTPUT as u64 + 1);
    let read = limited.read_to_end(&mut output);
    drop(limited);
    match value_of(read)? {
        Some(_) if output.len() <= MOST_OUTPUT => Ok(Some(output)),
        _ => Ok(None),
    }
}

/// Returns the value of a call of the system. Returns none if the call failed for another reason than memory.
pub fn value_of<T: Drop>(outcome: io::Result<T>) -> Result<Option<T>, AllocError>
    ensures { result ≡ value_of outcome }
{
    match outcome {
        Ok(value) => Ok(Some(value)),
        Err(error) => without_value(error.kind()),
    }
}

// Returns the result of a call that failed with this kind of error.
fn without_value<T>(kind: ErrorKind) -> Result<Option<T>, AllocError>
    ensures { result ≡ without_value kind }
{
    match kind {
        ErrorKind::OutOfMemory => Err(AllocError),
        _ => Ok(None),
    }
}

// Returns `getent passwd UID`.
fn user_command(alloc: Global, uid: u32) -> Result<Command, AllocError>
    ensures program { IfOk result (λ command. command_program command ≡ codes "/usr/bin/timeout") }
    ensures arguments { IfOk result (λ command. command_args command ≡ user_words uid) }
    ensures cleared { IfOk result (λ command. clears_env command ≡ true) }
    ensures variables { IfOk result (λ command. (name : List ℕ) → command_var command name ≡ None) }
{
    let mut command = passwd(alloc)?;
    push_number(alloc, &mut command, uid)?;
    Ok(command)
}

// Returns `getent passwd -- USER`.
fn numbers_command(alloc: Global, user: &str) -> Result<Command, AllocError>
    ensures program { IfOk result (λ command. command_program command ≡ codes "/usr/bin/timeout") }
    ensures arguments { IfOk result (λ command. command_args command ≡ numbers_words user.now) }
    ensures cleared { IfOk result (λ command. clears_env command ≡ true) }
    ensures variables { IfOk result (λ command. (name : List ℕ) → command_var command name ≡ None) }
{
    let mut command = passwd(alloc)?;
    push_word(&mut command, "--")?;
    push_word(&mut command, user)?;
    Ok(command)
}

// Returns `getent passwd`.
fn passwd(alloc: Global) -> Result<Command, AllocError>
    ensures program { IfOk result (λ command. command_program command ≡ codes "/usr/bin/timeout") }
    ensures arguments { IfOk result (λ command. command_args command ≡ passwd_words) }
    ensures cleared { IfOk result (λ command. clears_env command ≡ true) }
    ensures variables { IfOk result (λ command. (name : List ℕ) → command_var command name ≡ None) }
{
    let mut command = limited(alloc)?;
    push_word(&mut command, GETENT)?;
    push_word(&mut command, "passwd")?;
    Ok(command)
}

// Returns `getent group GROUP`.
fn group_command(alloc: Global, group: &str) -> Result<Command, AllocError>
    ensures program { IfOk result (λ command. command_program command ≡ codes "/usr/bin/timeout") }
    ensures arguments { IfOk result (λ command. command_args command ≡ group_words group.now) }
    ensures cleared { IfOk result (λ command. clears_env command ≡ true) }
    ensures variables { IfOk result (λ command. (name : List ℕ) → command_var command name ≡ None) }
{
    let mut command = limited(alloc)?;
    push_word(&mut command, GETENT)?;
    push_word(&mut command, "group")?;
    push_word(&mut command, group)?;
    Ok(command)
}

// Returns `id -G -- USER`.
fn groups_command(alloc: Global, user: &str) -> Result<Command, AllocError>
    ensures program { IfOk result (λ command. command_program command ≡ codes "/usr/bin/timeout") }
    ensures arguments { IfOk result (λ command. command_args command ≡ groups_words user.now) }
    ensures cleared { IfOk result (λ command. clears_env command ≡ true) }
    ensures variables { IfOk result (λ command. (name : List ℕ) → command_var command name ≡ None) }
{
    let mut command = limited(alloc)?;
    push_word(&mut command, ID)?;
    push_word(&mut command, "-G")?;
    push_word(&mut command, "--")?;
    push_word(&mut command, user)?;
    Ok(command)
}

// Returns timeout(1) with its own arguments, without environment variables.
fn limited(alloc: Global) -> Result<Command, AllocError>
    ensures program { IfOk result (λ command. command_program command ≡ codes "/usr/bin/timeout") }
    ensures arguments { IfOk result (λ command. command_args command ≡ limit_words) }
    ensures cleared { IfOk result (λ command. clears_env command ≡ true) }
    ensures variables { IfOk result (λ command. (name : List ℕ) → command_var command name ≡ None) }
{
    let mut command = bare(alloc)?;
    push_word(&mut command, "-s")?;
    push_word(&mut command, "KILL")?;
    push_word(&mut command, "2")?;
    Ok(command)
}

fn bare(alloc: Global) -> Result<Command, AllocError>
    ensures program { IfOk result (λ command. command_program command ≡ codes "/usr/bin/timeout") }
    ensures arguments { IfOk result (λ command. command_args command ≡ []) }
    ensures cleared { IfOk result (λ command. clears_env command ≡ true) }
    ensures variables { IfOk result (λ command. (name : List ℕ) → command_var command name ≡ None) }
{
    let mut command = Command::new(alloc, TIMEOUT)?;
    command.env_clear();
    Ok(command)
}

// Adds an argument.
fn push_word(command: &mut Command, word: &str) -> Result<(), AllocError>
    ensures args { OnOk result (command_args command.new ≡ command_args command.old ++ word.now ∷ []) }
    ensures program { OnOk result (command_program command.new ≡ command_program command.old) }
    ensures env { OnOk result (SameEnv command.old command.new) }
{
    command.arg(word)?;
    Ok(())
}
