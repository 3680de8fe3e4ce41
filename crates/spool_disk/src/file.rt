// A file of the system as a disk.
ghost use Rattle.std.specs.Prelude.{◌≡◌, ◌↔◌, ◌<◌, ◌≤◌, ◌+◌, ◌-◌, ◌^◌, length, IfOk, OnOk, IsOk, IsErr};
ghost use Rattle.std.proofs.lemmas.Option.{none-some};
ghost use Rattle.spool_disk.specs.Disk.{Reads, IsSynced, IsWritten, ChangesNothing, ChangesOnly, Counts, HasCause};
ghost use Rattle.spool_disk.specs.File.{file_len, file_faults, seen_of_file};

use crate::{DeviceFault, Disk};
use std::fs::File;
use std::io;
use std::os::unix::fs::FileExt;

/// A file of the system. It reports nothing of its bytes or of its images: the contents of a real file are beyond a proof, so its clauses
/// are about its length and its failures only.
///
/// No other program may change the file's length. `sync` returns after the system has reported that the bytes are on the device. The
/// program that makes the file must sync the file's name.
#[derive(Drop)]
pub struct FileDisk {
    file: File,
    len: u64,
    faults: u64,
}

impl FileDisk {
    /// Takes a file that is open for reading and writing, with its current length. The error is the system's if it does not report the
    /// length.
    pub fn new(file: File) -> io::Result<FileDisk>
        ensures { IfOk result (λ d. file_faults d ≡ 0) }
    {
        let len = file.metadata()?.len();
        Ok(FileDisk {
            file,
            len,
            faults: 0,
        })
    }

    // Returns the system's result, and counts a failure. At the greatest count, where no call may fail, it returns Ok for a failure, which
    // says nothing of a disk that reports nothing.
    fn counted(&mut self, answer: io::Result<()>) -> Result<(), DeviceFault>
        ensures passes { file_faults self.old < 2 ^ 64 - 1 → (IsOk result ↔ IsOk answer) }
        ensures once { IsErr result → file_faults self.new ≡ file_faults self.old + 1 }
        ensures len { file_len self.new ≡ file_len self.old }
        ensures cause { Counts (file_faults self.old) (file_faults self.new) result }
    {
        if answer.is_ok() || self.faults == u64::MAX {
            return Ok(());
        }
        self.faults += 1;
        Err(DeviceFault)
    }
}

impl Disk for FileDisk {
    ghost device = { seen_of_file };

    ghost lawful = { record {
      reads_image = λ d r tells. absurd (none-some r tells);
      image_size = λ d c is. absurd is;
      counts_now = λ d t c le now. now;
      only_now = λ d c left. left;
    } };

    fn len(&self) -> u64 {
        self.len
    }

    fn faults(&self) -> u64 {
        self.faults
    }

    fn read(&mut self, at: u64, into: &mut [u8]) -> Result<(), DeviceFault>
        requires { at + length into.old ≤ file_len self.old }
        ensures data { OnOk result (Reads (seen_of_file.bytes self.old) at into.new) }
        ensures same { ChangesNothing seen_of_file self.old self.new }
        ensures cause { HasCause seen_of_file self.old self.new result }
        ensures once { IsErr result → file_faults self.new ≡ file_faults self.old + 1 }
    {
        let answer = self.file.read_exact_at(into, at);
        self.counted(answer)
    }

    fn write(&mut self, at: u64, from: &[u8]) -> Result<(), DeviceFault>
        requires { at + length from.now ≤ file_len self.old }
        ensures written { OnOk result (IsWritten seen_of_file self.old self.new at from.now) }
        ensures changes { ChangesOnly seen_of_file self.old self.new at (length from.now) }
        ensures cause { HasCause seen_of_file self.old self.new result }
        ensures once { IsErr result → file_faults self.new ≡ file_faults self.old + 1 }
    {
        let answer = self.file.write_all_at(from, at);
        self.counted(answer)
    }

    fn sync(&mut self) -> Result<(), DeviceFault>
        ensures durable { OnOk result (IsSynced seen_of_file self.new) }
        ensures same { ChangesNothing seen_of_file self.old self.new }
        ensures cause { HasCause seen_of_file self.old self.new result }
        ensures once { IsErr result → file_faults self.new ≡ file_faults self.old + 1 }
    {
        let answer = self.file.sync_data();
        self.counted(answer)
    }
}
