//! The spool's file as a disk that keeps its name.
//!
//! The spool's folder is also the folder for the temporary files of children. A filter that removes everything there
//! removes the spool's file too. The program has the file open and loses nothing while it runs, but nobody would find
//! the file later.
//!
//! So each sync checks that the file still has its name, before the sync succeeds and an event is acknowledged. If the
//! name is gone, the sync copies the file under another name, syncs the copy, renames it, and continues with the copy.
//! Before that it restores the lock's file, if that has lost its name too. If another program has made a lock's file by
//! then, that program owns the folder. If any of this fails, the sync fails, and the device counts as failed.
//!
//! The disk promises nothing about its bytes, like any file of the system.
ghost use Rattle.std.specs.Prelude.{◌≡◌, ◌↔◌, ◌<◌, ◌≤◌, ◌+◌, ◌-◌, ◌^◌, length, IfOk, OnOk, IsOk, IsErr};
ghost use Rattle.std.proofs.lemmas.Option.{none-some};
ghost use Rattle.spool_disk.specs.Disk.{Reads, IsSynced, IsWritten, ChangesNothing, ChangesOnly, Counts, HasCause};
ghost use Rattle.spool_runtime.specs.NamedDisk.{named_len, named_faults, seen_of_named};

use crate::device::new_file;
use spool_disk::{DeviceFault, Disk};
use std::fs::File;
use std::io::ErrorKind;
use std::os::unix::fs::{FileExt, MetadataExt};
use std::path::Path;
use std::{fs, io};

// The number of bytes copied at once.
const BLOCK: usize = 65_536;

/// The file of a spool, in its folder. Nobody else may change its length.
#[derive(Drop)]
pub struct NamedDisk<'a> {
    rt: &'a HostRuntime,
    folder: File,
    // The path of the lock's file, and the file.
    lock: (String, File),
    // The path of the spool's file, and the path of an unfinished copy.
    path: String,
    unfinished: String,
    file: File,
    len: u64,
    faults: u64,
}

impl<'a> NamedDisk<'a> {
    /// Returns the disk of a file that is open for reading and writing, has this name in this folder, and keeps its
    /// present length. Returns the system's error if the length cannot be read.
    pub(crate) fn new(
        rt: &'a HostRuntime,
        folder: File,
        lock: (String, File),
        path: String,
        unfinished: String,
        file: File,
    ) -> io::Result<NamedDisk<'a>>
        ensures { IfOk result (λ disk. named_faults disk ≡ 0) }
    {
        let len = file.metadata()?.len();
        Ok(NamedDisk {
            rt,
            folder,
            lock,
            path,
            unfinished,
            file,
            len,
            faults: 0,
        })
    }

    // Returns the system's answer, and counts a failure. At the greatest count no call may fail, so a failure is then
    // returned as Ok. That claims nothing, since this disk promises nothing about its bytes.
    fn counted(&mut self, answer: io::Result<()>) -> Result<(), DeviceFault>
        ensures len { named_len self.new ≡ named_len self.old }
        ensures cause { Counts (named_faults self.old) (named_faults self.new) result }
    {
        if answer.is_ok() || self.faults == u64::MAX {
            return Ok(());
        }
        self.faults += 1;
        Err(DeviceFault)
    }

    // Checks that the file has its name, and otherwise continues with a copy that has it.
    fn keep_name(&mut self) -> io::Result<()>
        ensures len { named_len self.new ≡ named_len self.old }
        ensures faults { named_faults self.new ≡ named_faults self.old }
    {
        if has_name(self.rt, self.path.as_str(), &self.file)? {
            return Ok(());
        }
        if !has_name(self.rt, self.lock.0.as_str(), &self.lock.1)? {
            self.lock.1 = self.new_locked(self.lock.0.as_str())?;
        }
        let copied = self.copy();
        if copied.is_err() {
            let _ = fs::remove_file(self.rt, self.unfinished.as_str());
        }
        self.file = copied?;
        Ok(())
    }

    // Returns a copy of the file that has the file's name.
    fn copy(&self) -> io::Result<File> {
        let _ = fs::remove_file(self.rt, self.unfinished.as_str());
        let copy = self.new_locked(self.unfinished.as_str())?;
        copy_bytes(&self.file, &copy, self.len)?;
        copy.sync_all()?;
        fs::rename(self.rt, self.unfinished.as_str(), self.path.as_str())?;
        self.folder.sync_all()?;
        Ok(copy)
    }

    // Makes and locks a file of this name. The program owns the folder, so nobody else has made or locked it.
    fn new_locked(&self, path: &str) -> io::Result<File> {
        let file = new_file(self.rt, Path::new(path))?;
        if file.try_lock().is_err() {
            return Err(io::Error::from(ErrorKind::ResourceBusy));
        }
        Ok(file)
    }

    fn sync_named(&mut self) -> io::Result<()>
        ensures len { named_len self.new ≡ named_len self.old }
        ensures faults { named_faults self.new ≡ named_faults self.old }
    {
        self.keep_name()?;
        self.file.sync_data()
    }
}

// Returns whether this path refers to this file.
fn has_name(rt: &HostRuntime, path: &str, file: &File) -> io::Result<bool> {
    let named = match fs::metadata(rt, path) {
        Err(error) if error.kind() == ErrorKind::NotFound => return Ok(false),
        found => found?,
    };
    let itself = file.metadata()?;
    Ok(named.dev() == itself.dev() && named.ino() == itself.ino())
}

// Copies the first `count` bytes of a file.
fn copy_bytes(from: &File, to: &File, count: u64) -> io::Result<()> {
    let mut bytes = [0u8; BLOCK];
    let block = BLOCK as u64;
    for index in 0..count / block {
        from.read_exact_at(&mut bytes, index * block)?;
        to.write_all_at(&bytes, index * block)?;
    }
    let rest = count % block;
    from.read_exact_at(&mut bytes[..rest as usize], count - rest)?;
    to.write_all_at(&bytes[..rest as usize], count - rest)
}

impl<'a> Disk for NamedDisk<'a> {
    ghost device = { seen_of_named };

    ghost lawful = { record {
      reads_image = λ d r tells. absurd (none-some r tells);
      image_size = λ d c is. absurd is;
      counts_now = λ d t c le now. now;
      only_now = λ d c left. left;
    } };

    fn len(&self) -> u64 {
        self.len
    }

    fn faults(&self) -> u64 {
        self.faults
    }

    fn read(&mut self, at: u64, into: &mut [u8]) -> Result<(), DeviceFault> {
        let answer = self.file.read_exact_at(into, at);
        self.counted(answer)
    }

    fn write(&mut self, at: u64, from: &[u8]) -> Result<(), DeviceFault> {
        let answer = self.file.write_all_at(from, at);
        self.counted(answer)
    }

    fn sync(&mut self) -> Result<(), DeviceFault> {
        let answer = self.sync_named();
        self.counted(answer)
    }
}
