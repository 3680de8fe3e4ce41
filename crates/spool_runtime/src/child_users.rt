//! The users that children run as, the limits of their resources, and what each child has for itself.
//!
//! # Users
//!
//! Without users all children run as the user of the spooler. With users each child gets one of them, in the order in
//! which they were given. Each but the last is of one child at a time: the file `run/user-UID` in the spool's folder is
//! locked for as long, and the script of the child has it open as its standard input ([`crate::script`]). The child
//! itself does not have it. So the user is free exactly when the script has ended, also after a crash of the spooler. If
//! all of these are taken, the child gets the last user, which it may share with others.
//!
//! # Folders
//!
//! A child with a user has the folder `run/J-A-S`, which nobody else may use. Its document and the socket of its side
//! channel belong to its user too. The folder `run` and the spool's folder may be searched by all, so that the child
//! reaches these names, but only the spooler may write to them.
//!
//! The spooler may be another user than root, with the capabilities to change users and owners only. Then it cannot look
//! into a child's folder. So only the child's user empties it.
ghost use Rattle.std.specs.Prelude.{◌≡◌, None, [], IfOk, IfSome, string_bytes};
ghost use Rattle.spool_runtime.specs.ChildUsers.{HasUsualLimits, IsAmong, IsUserOf, lock_name, run_folder, run_name, run_user_of, user_prefix};

use std::alloc::{AllocError, Global};
use std::fs::{DirBuilder, File, OpenOptions, Permissions, TryLockError};
use std::io::ErrorKind;
use std::os::unix::fs::{DirBuilderExt, OpenOptionsExt, PermissionsExt, lchown};
use std::process::Stdio;
use std::{fs, io};

// The mode of a child's folder, and that of its document.
const FOLDER_MODE: u32 = 0o700;

const DOCUMENT_MODE: u32 = 0o400;

/// A user that children run as, by numbers.
#[derive(Clone, Copy)]
pub struct ChildUser {
    pub uid: u32,
    /// The only group of its children.
    pub gid: u32,
}

/// The limits of a child. With `None` the limit of the spooler applies.
#[derive(Clone, Copy)]
pub struct ChildLimits {
    /// The size of a file that it writes, in blocks of 512 bytes.
    pub file_blocks: u32,
    /// The memory of each of its processes, in bytes.
    pub memory: Option<u64>,
    /// The number of processes of its user. A child that keeps the user of the spooler has no such limit.
    pub processes: Option<u64>,
    /// The number of open files of each of its processes.
    pub open_files: Option<u64>,
}

/// The users of the children, and their limits.
#[derive(Drop)]
pub struct ChildSettings {
    /// The users, with different numbers. Without any, children run as the user of the spooler.
    pub users: Vec<ChildUser>,
    pub limits: ChildLimits,
}

impl ChildLimits {
    /// Returns the default limits: only that of files, 1 GiB, which Ghostscript's temporary files stay within.
    pub fn usual() -> ChildLimits
        ensures usual { HasUsualLimits result }
    {
        ChildLimits {
            file_blocks: MOST_BLOCKS,
            memory: None,
            processes: None,
            open_files: None,
        }
    }
}

/// The default size limit of a file that a child writes, in blocks of 512 bytes: 1 GiB.
pub const MOST_BLOCKS: u32 = 2_097_152;

impl ChildSettings {
    /// Returns the settings without users, with the default limits.
    pub fn usual(alloc: Global) -> ChildSettings
        ensures users { result.users.items ≡ [] }
        ensures limits { HasUsualLimits result.limits }
    {
        ChildSettings {
            users: Vec::new(alloc),
            limits: ChildLimits::usual(),
        }
    }
}

/// The user of a child that is started.
#[derive(Drop)]
pub(crate) enum TakenUser {
    /// No other child has it while this file is locked.
    Own(ChildUser, File),
    /// Other children may have it too.
    Shared(ChildUser),
}

/// The user that a child runs as.
#[derive(Clone, Copy)]
pub(crate) struct RunUser {
    pub user: ChildUser,
    /// Whether no other child has it.
    pub is_own: bool,
}

impl TakenUser {
    pub fn run_user(&self) -> RunUser
        ensures { result ≡ run_user_of self.now }
    {
        match self {
            TakenUser::Own(user, _) => RunUser {
                user: *user,
                is_own: true,
            },
            TakenUser::Shared(user) => RunUser {
                user: *user,
                is_own: false,
            },
        }
    }

    // Returns the standard input of the script: the locked file, or nothing.
    fn script_input(&self) -> io::Result<Stdio> {
        match self {
            TakenUser::Own(_, lock) => Ok(Stdio::from(lock.try_clone()?)),
            TakenUser::Shared(_) => Ok(Stdio::null()),
        }
    }
}

/// Returns the standard input of the script of a child, which keeps its user for it.
pub(crate) fn script_input(taken: &Option<TakenUser>) -> io::Result<Stdio> {
    match taken {
        Some(user) => user.script_input(),
        None => Ok(Stdio::null()),
    }
}

/// Returns a user for a child: the first that no child has, or the last, which children share.
pub(crate) fn take_user(
    rt: &HostRuntime,
    root: &str,
    users: &[ChildUser],
) -> io::Result<Option<TakenUser>>
    ensures none { users.now ≡ [] → IfOk result (λ taken. taken ≡ None) }
    ensures user { IfOk result (λ taken. IfSome taken (IsUserOf users.now)) }
{
    let Some((last, others)) = users.split_last() else {
        return Ok(None);
    };
    match first_free(rt, root, others)? {
        Some((user, lock)) => Ok(Some(TakenUser::Own(user, lock))),
        None => Ok(Some(TakenUser::Shared(*last))),
    }
}

// Returns the first user that no child has, and its locked file.
fn first_free(
    rt: &HostRuntime,
    root: &str,
    users: &[ChildUser],
) -> io::Result<Option<(ChildUser, File)>>
    ensures { IfOk result (λ found. IfSome found (λ free. IsAmong users.now free.0)) }
{
    for user in users {
        if let Some(lock) = free_lock(rt, root, user.uid)? {
            return Ok(Some((*user, lock)));
        }
    }
    Ok(None)
}

/// Returns the locked file of a user, or `None` if a child has the user.
pub(crate) fn free_lock(rt: &HostRuntime, root: &str, uid: u32) -> io::Result<Option<File>> {
    let path = lock_path(rt.alloc(), root, uid)?;
    let file = OpenOptions::new()
        .write(true)
        .create(true)
        .mode(0o600)
        .open(rt, path.as_str())?;
    match file.try_lock() {
        Ok(()) => Ok(Some(file)),
        Err(TryLockError::WouldBlock) => Ok(None),
        Err(TryLockError::Error(error)) => Err(error),
    }
}

fn lock_path(alloc: Global, root: &str, uid: u32) -> Result<String, AllocError>
    ensures { IfOk result (λ path. string_bytes path ≡ lock_name root.now uid) }
{
    let (run, user) = (run_folder(), user_prefix());
    format!(in alloc; "{root}/{run}/{user}-{uid}")
}

/// Returns the name of the folder of the children's folders, in the spool's folder.
#[tactic(auto, unfolding(crate::specs::ChildUsers::run_folder))]
pub(crate) fn run_folder() -> &'static str
    ensures { result.now ≡ run_folder }
{
    "run"
}

// Returns how the name of a user's lock begins.
#[tactic(auto, unfolding(crate::specs::ChildUsers::user_prefix))]
fn user_prefix() -> &'static str
    ensures { result.now ≡ user_prefix }
{
    "user"
}

/// Returns the path of the folder of the children's folders.
pub(crate) fn run_path(alloc: Global, root: &str) -> Result<String, AllocError>
    ensures { IfOk result (λ path. string_bytes path ≡ run_name root.now) }
{
    let run = run_folder();
    format!(in alloc; "{root}/{run}")
}

/// Makes the folder of a child, for its user alone. Replaces an empty one that a crash left.
pub(crate) fn make_folder(rt: &HostRuntime, path: &str, user: ChildUser) -> io::Result<()> {
    let mut builder = DirBuilder::new();
    builder.mode(FOLDER_MODE);
    match builder.create(rt, path) {
        Err(error) if error.kind() == ErrorKind::AlreadyExists => {
            fs::remove_dir(rt, path)?;
            builder.create(rt, path)?;
        }
        made => made?,
    }
    give(rt, path, user)
}

/// Gives a document to the user of a child, who may read it.
pub(crate) fn give_document(rt: &HostRuntime, path: &str, user: ChildUser) -> io::Result<()> {
    fs::set_permissions(rt, path, Permissions::from_mode(DOCUMENT_MODE))?;
    give(rt, path, user)
}

/// Gives a file or a socket to the user of a child. A link is not followed.
pub(crate) fn give(rt: &HostRuntime, path: &str, user: ChildUser) -> io::Result<()> {
    lchown(rt, path, Some(user.uid), Some(user.gid))
}
