//! Ensures that one program owns a spool's folder, on whatever host.
//!
//! Hosts that share a replicated file system usually do not see each other's lock of a folder, but they see the lock of
//! a file. So an owner has two locks: that of the folder, and that of the file `spool.lock` in it. This file is made
//! before any other name in the folder is examined, and no program removes it. All programs take the locks in this
//! order. So if several start together, one of them gets both: the program that has the file's lock waits for no other.
//! If the file system has no lock of a folder, the lock of the file decides alone.
//!
//! A lock that excludes nobody is useless. So the owner opens the file a second time, and this second opening must be
//! refused the lock. If it gets the lock, nobody can know who owns the folder, and the program does not serve it. This
//! does not detect a file system whose locks exclude only programs on the same host. Two hosts are needed to test that.
//!
//! If a filter removes everything in the folder, the lock's file loses its name along with the spool's file, and gets
//! it back with it ([`crate::named_disk`]).
ghost use Rattle.std.specs.Prelude.{◌≡◌, IfErr};
ghost use Rattle.std.specs.IoError.{error_kind};
ghost use Rattle.spool_runtime.specs.ProgramFaults.{IsOfFolder, kept_out, of_lock};

use crate::device::new_file;
use crate::fault::{DiskCause, ShellFault};
use std::fs::{File, OpenOptions, TryLockError};
use std::io::ErrorKind;
use std::os::unix::fs::{MetadataExt, fchown};
use std::path::Path;
use std::time::Duration;
use std::{io, thread};

/// The name of the lock's file in its folder.
pub(crate) const LOCK: &str = "spool.lock";

// How often a lock that another program has is tried again, and after how many milliseconds each time: one second in
// all.
const MOST_WAITS: u32 = 50;

const WAIT: u64 = 20;

/// Takes the folder of this path. Returns the folder and the lock's file, both locked. The folder is owned as long as
/// both are open.
pub(crate) fn take(rt: &HostRuntime, path: Path<'_>) -> Result<(File, File), ShellFault>
    ensures { IfErr result IsOfFolder }
{
    // By this name only a folder can be opened. By its own name a pipe would wait for a process that writes to it.
    let itself = path.join(rt.alloc(), ".")?;
    let folder = File::open(rt, itself.as_path())?;
    if let Err(TryLockError::WouldBlock) = wait_for_lock(rt, &folder) {
        return Err(ShellFault::Disk(DiskCause::Owned));
    }
    let name = path.join(rt.alloc(), LOCK)?;
    let lock = locked(rt, open_lock(rt, name.as_path(), &folder)?)?;
    let again = open_there(rt, name.as_path())?;
    if !is_same(&lock, &again)? {
        // The file lost its name while this program waited for the lock.
        return Err(ShellFault::Disk(DiskCause::Owned));
    }
    kept_out(again.try_lock())?;
    Ok((folder, lock))
}

/// Returns the file, locked until it is closed. A program that was killed while it started a child holds its lock for
/// some milliseconds longer, until the child runs. So this waits for a moment.
pub(crate) fn locked(rt: &HostRuntime, file: File) -> Result<File, ShellFault>
    ensures { IfErr result IsOfFolder }
{
    wait_for_lock(rt, &file)?;
    Ok(file)
}

/// Locks the file or the folder. Waits up to one second for another program's lock.
fn wait_for_lock(rt: &HostRuntime, file: &File) -> Result<(), TryLockError> {
    for _ in 0..MOST_WAITS {
        match file.try_lock() {
            Err(TryLockError::WouldBlock) => thread::sleep(rt, Duration::from_millis(WAIT)),
            tried => return tried,
        }
    }
    Err(TryLockError::WouldBlock)
}

// Checks the result of the second lock of a locked file, which must be refused.
fn kept_out(second: Result<(), TryLockError>) -> Result<(), ShellFault>
    ensures { result ≡ kept_out second }
{
    match second {
        Ok(()) => Err(ShellFault::Disk(DiskCause::OwnerUnknown)),
        Err(TryLockError::WouldBlock) => Ok(()),
        Err(fault) => Err(ShellFault::from(fault)),
    }
}

/// Converts the error of a lock, of the folder or of its file.
impl From<TryLockError> for ShellFault {
    ghost from_gives = { λ fault told. (told ≡ of_lock fault) × IsOfFolder told };

    fn from(fault: TryLockError) -> ShellFault {
        match fault {
            TryLockError::WouldBlock => ShellFault::Disk(DiskCause::Owned),
            TryLockError::Error(error) => ShellFault::from(error),
        }
    }
}

// Opens the lock's file, and makes it if it does not exist. If two programs make it, one of them succeeds, and both
// open it.
fn open_lock(rt: &HostRuntime, path: Path<'_>, folder: &File) -> io::Result<File> {
    match open_there(rt, path) {
        Err(error) if error.kind() == ErrorKind::NotFound => {}
        opened => return opened,
    }
    match new_lock(rt, path, folder) {
        Err(error) if error.kind() == ErrorKind::AlreadyExists => open_there(rt, path),
        made => made,
    }
}

// Makes the lock's file. Gives it to the owner of the folder if that is allowed, as it is for the superuser. Otherwise
// a user who inspects a spool could lock out its owner.
fn new_lock(rt: &HostRuntime, path: Path<'_>, folder: &File) -> io::Result<File> {
    let file = new_file(rt, path)?;
    let owner = folder.metadata()?;
    let _ = fchown(&file, Some(owner.uid()), Some(owner.gid()));
    Ok(file)
}

// Opens an existing file, for writing too, since some file systems lock no other files.
fn open_there(rt: &HostRuntime, path: Path<'_>) -> io::Result<File> {
    OpenOptions::new().read(true).write(true).open(rt, path)
}

// Returns whether two open files are the same file.
fn is_same(one: &File, other: &File) -> io::Result<bool> {
    let (one, other) = (one.metadata()?, other.metadata()?);
    Ok(one.dev() == other.dev() && one.ino() == other.ino())
}
