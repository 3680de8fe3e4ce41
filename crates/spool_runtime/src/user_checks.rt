//! Prepares the spool's folder for children with users, and tests whether children can run as these users.
//!
//! The service does this when it starts, after it owns the folder and before it starts a child:
//!
//! 1. All may search the spool's folder and the folder `run` in it. A child reaches its files by these folders, but
//!    cannot list them.
//! 2. Each user is tried. A process runs as the user and searches the folder `run`. If this fails, the service does not
//!    start: it must not run children with more rights than its arguments say.
//! 3. The processes of each user that is of one child at a time are killed, unless a child of an earlier run has it.
//! 4. The folders that children of an earlier run left are removed, each by its own user.
ghost use Rattle.std.specs.Prelude.{◌≡◌, ◌++◌, ◌∷◌, [], Ok, true, codes, map, string_bytes, IfErr, IfOk, OnOk};
ghost use Rattle.std.specs.Process.{SameEnv, clears_env, command_args, command_program};
ghost use Rattle.spool_runtime.specs.ChildScript.{own_word};
ghost use Rattle.spool_runtime.specs.ProgramFaults.{IsOfUsers};
ghost use Rattle.spool_runtime.specs.UserChecks.{fault_by, fault_of_code, identity_word, user_command_words};

use crate::child_users::{ChildUser, RunUser, free_lock, run_path};
use crate::fault::ShellFault;
use crate::leftovers::is_locked;
use crate::script::own_word;
use log::{Log, error};
use std::alloc::{AllocError, Global};
use std::fs::{DirBuilder, Metadata, Permissions};
use std::io::ErrorKind;
use std::os::unix::fs::{DirBuilderExt, MetadataExt, PermissionsExt};
use std::process::{Command, Stdio};
use std::{fs, io};
use thiserror::Error;

const TIMEOUT: &str = "/usr/bin/timeout";

// The rights of the shell of a child's user ([`crate::script`]): no other group, only the capability by which no process
// of the user can trace it, and no way to gain any.
const RIGHTS: [&str; 5] = [
    "--clear-groups",
    "--no-new-privs",
    "--inh-caps=-all,+setpcap",
    "--ambient-caps=-all,+setpcap",
    "--bounding-set=-all,+setpcap",
];

// Kills the processes of the user if it is of one child at a time, and searches a folder. The parameters are `own` or
// nothing, and the folder.
const CHECK: &str = "[ -z \"$1\" ] || kill -s KILL -- -1; [ -x \"$2\" ] || exit 3";

// Empties a folder, and removes it if the user may. The parameters are the same.
const CLEAR: &str = "/usr/bin/chmod -R u+rwx -- \"$2\"; exec /usr/bin/rm -rf -- \"$2\"";

// The permissions of the folder of children's folders, and those that are added to the spool's folder.
const RUN_MODE: u32 = 0o711;

const SEARCH: u32 = 0o011;

/// Why children cannot run as a user.
#[derive(Clone, Copy, Debug, Drop, Error, PartialEq, Eq)]
pub(crate) enum UserFault {
    #[error("root is not allowed")]
    Root,
    #[error("it is the user of the service")]
    Service,
    #[error("it cannot search the folder `run` of the spool: let others search all folders above it")]
    NoWay,
    #[error("the service cannot change to it: run it as root, or with CAP_SETUID, CAP_SETGID, CAP_SETPCAP, CAP_CHOWN and CAP_KILL")]
    Refused,
}

/// Prepares the folder for children that run as these users, and tests the users. The program must own the folder.
/// Fails with `Users` if a user cannot be used, and logs why.
#[tactic(auto, using(crate::proofs::UserFaults::of_folder))]
pub fn prepare_users<L>(
    log: &L,
    rt: &HostRuntime,
    dir: &str,
    users: &[ChildUser],
) -> Result<(), ShellFault>
where
    L: Log,
    ensures none { users.entry.now ≡ [] → result ≡ Ok tt }
    ensures fault { IfErr result IsOfUsers }
{
    let Some((last, others)) = users.split_last() else {
        return Ok(());
    };
    let run = run_path(rt.alloc(), dir)?;
    let service = open_way(rt, dir, run.as_str())?;
    for user in others {
        let lock = free_lock(rt, dir, user.uid)?;
        let is_own = lock.is_some();
        check_user(
            log,
            rt,
            run.as_str(),
            service,
            RunUser {
                user: *user,
                is_own,
            },
        )?;
        drop(lock);
    }
    check_user(
        log,
        rt,
        run.as_str(),
        service,
        RunUser {
            user: *last,
            is_own: false,
        },
    )?;
    clear_folders(log, rt, dir, run.as_str(), service);
    Ok(())
}

// Lets all search the spool's folder, and makes the folder of the children's folders. Returns its owner, the user of
// this program.
fn open_way(rt: &HostRuntime, dir: &str, run: &str) -> io::Result<u32> {
    let mode = fs::metadata(rt, dir)?.permissions().mode();
    fs::set_permissions(rt, dir, Permissions::from_mode(mode | SEARCH))?;
    make_run(rt, run)?;
    let found = fs::symlink_metadata(rt, run)?;
    if !found.is_dir() {
        return Err(io::Error::from(ErrorKind::NotADirectory));
    }
    fs::set_permissions(rt, run, Permissions::from_mode(RUN_MODE))?;
    Ok(found.uid())
}

// Makes the folder, unless its name is taken.
fn make_run(rt: &HostRuntime, run: &str) -> io::Result<()> {
    let mut builder = DirBuilder::new();
    builder.mode(RUN_MODE);
    match builder.create(rt, run) {
        Err(error) if error.kind() == ErrorKind::AlreadyExists => Ok(()),
        made => made,
    }
}

// Tests a user, and logs why it cannot be used.
#[tactic(auto, using(crate::proofs::UserFaults::of_folder))]
fn check_user<L: Log>(
    log: &L,
    rt: &HostRuntime,
    run: &str,
    service: u32,
    run_user: RunUser,
) -> Result<(), ShellFault>
    ensures { IfErr result IsOfUsers }
{
    let uid = run_user.user.uid;
    let fault = match fault_by(uid, service) {
        Some(fault) => Some(fault),
        None => fault_of_code(run_as(rt, run_user, CHECK, run)?),
    };
    match fault {
        Some(fault) => {
            error!(log; "children cannot run as user {uid}: {fault}");
            Err(ShellFault::Users)
        }
        None => Ok(()),
    }
}

// Returns why no child may run as this user, if its number shows that.
fn fault_by(uid: u32, service: u32) -> Option<UserFault>
    ensures { result ≡ fault_by uid service }
{
    if uid == 0 {
        Some(UserFault::Root)
    } else if uid == service {
        Some(UserFault::Service)
    } else {
        None
    }
}

// Returns what the exit status of the test shows. `setpriv` fails with another status than the test.
fn fault_of_code(code: Option<i32>) -> Option<UserFault>
    ensures { result ≡ fault_of_code code }
{
    match code {
        Some(code) if code == 0 => None,
        Some(code) if code == 3 => Some(UserFault::NoWay),
        _ => Some(UserFault::Refused),
    }
}

// Removes the folders that children of an earlier run left, except those of children that still run.
fn clear_folders<L: Log>(log: &L, rt: &HostRuntime, dir: &str, run: &str, service: u32) {
    let Ok(entries) = fs::read_dir(rt, run) else {
        return;
    };
    for entry in entries {
        if let Ok(entry) = entry {
            clear_folder(log, rt, dir, run, service, entry.file_name());
        }
    }
}

fn clear_folder<L: Log>(log: &L, rt: &HostRuntime, dir: &str, run: &str, service: u32, name: &str) {
    if let Ok(false) = try_clear(rt, dir, run, service, name) {
        error!(log; "folder {run}/{name} cannot be removed");
    }
}

// Removes a folder of this name, if no child has it. Returns whether nothing is left to be removed.
fn try_clear(rt: &HostRuntime, dir: &str, run: &str, service: u32, name: &str) -> io::Result<bool> {
    let path = format!(in rt.alloc(); "{run}/{name}")?;
    let found = fs::symlink_metadata(rt, path.as_str())?;
    let output = format!(in rt.alloc(); "{dir}/out-{name}")?;
    if !found.is_dir() || is_locked(rt, output.as_str()) {
        return Ok(true);
    }
    if fs::remove_dir(rt, path.as_str()).is_ok() {
        return Ok(true);
    }
    let user = owner_of(&found);
    if fault_by(user.uid, service).is_none() {
        run_as(
            rt,
            RunUser {
                user,
                is_own: false,
            },
            CLEAR,
            path.as_str(),
        )?;
    }
    Ok(fs::remove_dir(rt, path.as_str()).is_ok())
}

fn owner_of(found: &Metadata) -> ChildUser {
    ChildUser {
        uid: found.uid(),
        gid: found.gid(),
    }
}

// Runs a script as a user, and returns its exit status, or `None` if it has none.
fn run_as(
    rt: &HostRuntime,
    run_user: RunUser,
    script: &str,
    path: &str,
) -> io::Result<Option<i32>> {
    let mut command = user_command(rt.alloc(), run_user, script, path)?;
    command.stdin(Stdio::null());
    command.stdout(Stdio::null());
    command.stderr(Stdio::null());
    Ok(command.status(rt)?.code())
}

// Returns the command that runs a script as a user, for at most ten seconds. The parameters of the script are whether
// no other child has the user, and the path.
fn user_command(
    alloc: Global,
    run_user: RunUser,
    script: &str,
    path: &str,
) -> Result<Command, AllocError>
    ensures program { IfOk result (λ command. command_program command ≡ codes "/usr/bin/timeout") }
    ensures arguments { IfOk result (λ command. command_args command ≡ user_command_words run_user script.now path.now) }
    ensures cleared { IfOk result (λ command. clears_env command ≡ true) }
{
    let mut command = Command::new(alloc, TIMEOUT)?;
    command.env_clear();
    push_user_words(alloc, &mut command, run_user, script, path)?;
    Ok(command)
}

// Adds its arguments to the command, which has none.
fn push_user_words(
    alloc: Global,
    command: &mut Command,
    run_user: RunUser,
    script: &str,
    path: &str,
) -> Result<(), AllocError>
    requires { command_args command.old ≡ [] }
    ensures args { OnOk result (command_args command.new ≡ user_command_words run_user script.now path.now) }
    ensures program { OnOk result (command_program command.new ≡ command_program command.old) }
    ensures env { OnOk result (SameEnv command.old command.new) }
{
    push_words(
        command,
        &["-s", "KILL", "10", "/usr/bin/setpriv", "--reuid"],
    )?;
    push_identity(alloc, command, run_user.user.uid)?;
    push_words(command, &["--regid"])?;
    push_identity(alloc, command, run_user.user.gid)?;
    push_words(command, &RIGHTS)?;
    push_words(command, &["/bin/sh", "-c"])?;
    push_script(command, run_user, script, path)
}

// Adds the number of a user or a group. The plus sign keeps `setpriv` from taking it for a name.
fn push_identity(alloc: Global, command: &mut Command, number: u32) -> Result<(), AllocError>
    ensures args { OnOk result (command_args command.new ≡ command_args command.old ++ identity_word number ∷ []) }
    ensures program { OnOk result (command_program command.new ≡ command_program command.old) }
    ensures env { OnOk result (SameEnv command.old command.new) }
{
    let text = identity_word(alloc, number)?;
    command.arg(text.as_str())?;
    Ok(())
}

fn identity_word(alloc: Global, number: u32) -> Result<String, AllocError>
    ensures { IfOk result (λ text. string_bytes text ≡ identity_word number) }
{
    format!(in alloc; "+{number}")
}

// Adds a script, its name and its parameters.
fn push_script(
    command: &mut Command,
    run_user: RunUser,
    script: &str,
    path: &str,
) -> Result<(), AllocError>
    ensures args { OnOk result (command_args command.new ≡ command_args command.old ++ (script.now ∷ codes "sh" ∷ own_word run_user.is_own ∷ path.now ∷ [])) }
    ensures program { OnOk result (command_program command.new ≡ command_program command.old) }
    ensures env { OnOk result (SameEnv command.old command.new) }
{
    command.arg(script)?;
    command.arg("sh")?;
    command.arg(own_word(run_user.is_own))?;
    command.arg(path)?;
    Ok(())
}

fn push_words(command: &mut Command, words: &[&str]) -> Result<(), AllocError>
    ensures args { OnOk result (command_args command.new ≡ command_args command.old ++ map (λ word. word.now) words.now) }
    ensures program { OnOk result (command_program command.new ≡ command_program command.old) }
    ensures env { OnOk result (SameEnv command.old command.new) }
{
    for word in words {
        command.arg(*word)?;
    }
    Ok(())
}
