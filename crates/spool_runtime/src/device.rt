//! The spool's folder, and the file in it that is the spool's disk.
//!
//! # One owner
//!
//! The program owns the folder by locks, which it takes before it examines any name in the folder and holds until it
//! ends ([`SpoolFolder`], [`crate::ownership`]). If two programs start together on a new folder, on the same host or on
//! different hosts, one of them makes the file. The other ends without a change, except that the lock's file exists. A
//! lock that is taken is tried again for one second, because a program that was killed while it started a child holds
//! its lock for a moment longer. The spool's file is locked too, because a link in another folder may refer to it.
//!
//! # A file is whole or absent
//!
//! The file is made under another name. It is filled with zeros to its last byte, so that a full file system is found
//! at once. Then it is made a spool and synced, and only then it gets its own name. A crash leaves at most the
//! unfinished file, which the next start removes. If a step fails, the unfinished file is removed at once. The file is
//! made only if its name is free: a file that cannot be opened, a folder, or a link to nothing stays as it is.
//!
//! At every start the folder is synced before the first command is read. [`crate::named_disk`] keeps the name while
//! children run.
//!
//! # Errors
//!
//! `memory` if memory ran out. Otherwise `disk`: the folder cannot be opened or locked, another program owns it or its
//! file, the locks of its file system exclude nobody, or the file cannot be examined, opened, made or synced. The
//! contents of the file are checked later, by `Spool::open`.
ghost use Rattle.std.specs.Prelude.{◌≡◌, ◌≢◌, IfErr};
ghost use Rattle.std.specs.IoError.{error_kind};
ghost use Rattle.spool_runtime.specs.ProgramFaults.{IsOfFolder};

use crate::fault::{DiskCause, ShellFault};
use crate::named_disk::NamedDisk;
use crate::ownership::{LOCK, locked, take};
use spool_core::make;
use spool_disk::FileDisk;
use std::alloc::AllocError;
use std::fs::{File, Metadata, OpenFile, OpenOptions};
use std::io::ErrorKind;
use std::os::unix::fs::{MetadataExt, OpenOptionsExt, fchown};
use std::path::Path;
use std::{fs, io};
use whole_writes::write_zeros;

// The name of the spool's file in its folder, and its name until it is a whole spool.
const NAME: &str = "spool.disk";

const UNFINISHED: &str = "spool.disk.new";

/// The folder of a spool, owned by this program. While this value exists, no other program owns the same folder.
#[derive(Drop)]
pub struct SpoolFolder<'a> {
    path: Path<'a>,
    folder: File,
    // Locked while it is open.
    lock: File,
}

impl<'a> SpoolFolder<'a> {
    /// Takes the folder, which must exist. Fails with `Disk` if another program owns it or may own it. Nothing has
    /// changed then, except that the lock's file exists.
    pub fn own(rt: &HostRuntime, dir: &'a str) -> Result<SpoolFolder<'a>, ShellFault>
        ensures { IfErr result IsOfFolder }
    {
        let path = Path::new(dir);
        let (folder, lock) = take(rt, path)?;
        Ok(SpoolFolder { path, folder, lock })
    }

    /// Opens the spool's file. If its name is free, makes it with `size` bytes. An existing file is not changed.
    pub fn device<'r>(&self, rt: &'r HostRuntime, size: u64) -> Result<NamedDisk<'r>, ShellFault>
        ensures { IfErr result IsOfFolder }
    {
        let file = self.file(rt, size)?;
        // At every start: a program that was killed before this sync left a name that a power cut may still remove, and
        // with it all jobs that this program acknowledges.
        self.folder.sync_all()?;
        self.disk(rt, file)
    }

    /// Opens the spool's file, which must exist.
    pub fn device_there<'r>(&self, rt: &'r HostRuntime) -> Result<NamedDisk<'r>, ShellFault>
        ensures { IfErr result IsOfFolder }
    {
        let path = self.path.join(rt.alloc(), NAME)?;
        let file = open_device(rt, path.as_path())?;
        self.disk(rt, file)
    }

    /// Returns the size of the spool's file, in bytes.
    pub fn disk_size(&self, rt: &HostRuntime) -> Result<u64, ShellFault>
        ensures { IfErr result IsOfFolder }
    {
        let path = self.path.join(rt.alloc(), NAME)?;
        let named = fs::metadata(rt, path.as_path())?;
        Ok(named.len())
    }

    /// Makes a file of `size` zeros that will replace the spool's file, with the same owner and mode. It has the name
    /// of an unfinished file until [`replace_device`](SpoolFolder::replace_device) renames it. An unfinished file of an
    /// earlier attempt is removed first. Fails with `NoFile` if the spool's file is not a regular file or has another
    /// name too.
    pub fn next_device(&self, rt: &HostRuntime, size: u64) -> Result<FileDisk, ShellFault>
        ensures { IfErr result IsOfFolder }
    {
        let path = self.path.join(rt.alloc(), NAME)?;
        let named = fs::symlink_metadata(rt, path.as_path())?;
        if !named.is_file() || named.nlink() != 1 {
            return Err(ShellFault::Disk(DiskCause::NoFile));
        }
        let unfinished = self.path.join(rt.alloc(), UNFINISHED)?;
        remove_if_there(rt, unfinished.as_path())?;
        let made = begin_next(rt, unfinished.as_path(), &named, size);
        if made.is_err() {
            let _ = fs::remove_file(rt, unfinished.as_path());
        }
        made
    }

    /// Renames the unfinished file, which must be whole and synced, to the spool's file. The old file is replaced.
    pub fn replace_device(&self, rt: &HostRuntime) -> Result<(), ShellFault>
        ensures { IfErr result IsOfFolder }
    {
        let unfinished = self.path.join(rt.alloc(), UNFINISHED)?;
        let path = self.path.join(rt.alloc(), NAME)?;
        fs::rename(rt, unfinished.as_path(), path.as_path())?;
        Ok(self.folder.sync_all()?)
    }

    /// Removes the unfinished file if it exists.
    pub fn remove_unfinished(&self, rt: &HostRuntime) -> Result<(), ShellFault>
        ensures { IfErr result IsOfFolder }
    {
        let unfinished = self.path.join(rt.alloc(), UNFINISHED)?;
        Ok(remove_if_there(rt, unfinished.as_path())?)
    }

    // Returns the file as the spool's disk.
    fn disk<'r>(&self, rt: &'r HostRuntime, file: File) -> Result<NamedDisk<'r>, ShellFault>
        ensures { IfErr result IsOfFolder }
    {
        let path = self.named(rt, NAME)?;
        let unfinished = self.named(rt, UNFINISHED)?;
        let folder = self.folder.try_clone()?;
        let lock = (self.named(rt, LOCK)?, self.lock.try_clone()?);
        Ok(NamedDisk::new(rt, folder, lock, path, unfinished, file)?)
    }

    // Opens or makes the spool's file, and locks it.
    fn file(&self, rt: &HostRuntime, size: u64) -> Result<File, ShellFault>
        ensures { IfErr result IsOfFolder }
    {
        let path = self.path.join(rt.alloc(), NAME)?;
        if is_absent(rt, path.as_path())? {
            self.make_device(rt, path.as_path(), size)
        } else {
            open_device(rt, path.as_path())
        }
    }

    // Returns the path of this name in the folder.
    fn named(&self, rt: &HostRuntime, name: &str) -> Result<String, AllocError> {
        let path = self.path.join(rt.alloc(), name)?;
        String::from_str(rt.alloc(), path.as_path().as_str())
    }

    // Makes the spool's file. Removes the unfinished file of an earlier start first, and its own unfinished file if a
    // step fails.
    fn make_device(&self, rt: &HostRuntime, path: Path<'_>, size: u64) -> Result<File, ShellFault>
        ensures { IfErr result IsOfFolder }
    {
        let unfinished = self.path.join(rt.alloc(), UNFINISHED)?;
        remove_if_there(rt, unfinished.as_path())?;
        let made = finish_device(rt, unfinished.as_path(), path, size);
        if made.is_err() {
            let _ = fs::remove_file(rt, unfinished.as_path());
        }
        made
    }
}

// Returns whether the name is free: not even a link to nothing has it.
fn is_absent(rt: &HostRuntime, path: Path<'_>) -> io::Result<bool> {
    match fs::symlink_metadata(rt, path) {
        Ok(_) => Ok(false),
        Err(error) if error.kind() == ErrorKind::NotFound => Ok(true),
        Err(error) => Err(error),
    }
}

/// Removes the file or the link of this name. Succeeds if the name is free.
pub fn remove_if_there(rt: &HostRuntime, path: Path<'_>) -> io::Result<()>
    ensures { IfErr result (λ error. error_kind error ≢ ErrorKind.NotFound) }
{
    match fs::remove_file(rt, path) {
        Err(error) if error.kind() != ErrorKind::NotFound => Err(error),
        _ => Ok(()),
    }
}

// Opens and locks the file, which must exist.
fn open_device(rt: &HostRuntime, path: Path<'_>) -> Result<File, ShellFault>
    ensures { IfErr result IsOfFolder }
{
    let file = OpenOptions::new().read(true).write(true).open(rt, path)?;
    locked(rt, file)
}

// Makes a whole spool under the unfinished name, and then renames it.
fn finish_device(
    rt: &HostRuntime,
    unfinished: Path<'_>,
    path: Path<'_>,
    size: u64,
) -> Result<File, ShellFault>
    ensures { IfErr result IsOfFolder }
{
    let mut file = locked(rt, new_file(rt, unfinished)?)?;
    write_zeros(&mut file, size)?;
    file.sync_all()?;
    make_spool(&file)?;
    fs::rename(rt, unfinished, path)?;
    Ok(file)
}

// Makes a file of zeros, with the owner and the mode of the file that it will replace.
fn begin_next(
    rt: &HostRuntime,
    unfinished: Path<'_>,
    replaced: &Metadata,
    size: u64,
) -> Result<FileDisk, ShellFault>
    ensures { IfErr result IsOfFolder }
{
    let mut file = locked(rt, new_file(rt, unfinished)?)?;
    fchown(&file, Some(replaced.uid()), Some(replaced.gid()))?;
    file.set_permissions(replaced.permissions())?;
    write_zeros(&mut file, size)?;
    file.sync_all()?;
    Ok(FileDisk::new(file)?)
}

fn make_spool(file: &File) -> Result<(), ShellFault>
    ensures { IfErr result IsOfFolder }
{
    let mut disk = FileDisk::new(file.try_clone()?)?;
    match make(&mut disk) {
        Ok(()) => Ok(()),
        Err(_) => Err(ShellFault::Disk(DiskCause::Failed)),
    }
}

/// Makes an empty file that only its owner may read. Fails if the name is taken.
pub fn new_file(rt: &HostRuntime, path: Path<'_>) -> io::Result<File> {
    OpenOptions::new()
        .read(true)
        .write(true)
        .create_new(true)
        .mode(0o600)
        .open(rt, path)
}
