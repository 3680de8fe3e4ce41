//! The disk: a device of fixed length, and the bytes that a crash may leave on it.
//!
//! Each crate that stores something across a crash uses the trait [`Disk`] and is generic over it, so its theorems apply to every device
//! that behaves as the trait states. The view of a disk is one value, `DiskView` (its member `device`), and every statement about disks
//! takes it: the bytes, the length, the images, the moment, the images since a moment, and the count of failures.
//!
//! An image is as long as the device. At each byte offset it has the byte that a read returns, except at the offsets written since the last
//! sync that returned Ok, also by a write that failed: there it may have any byte (`IsImage`). The images since a moment are those of that
//! moment or later (`IsImageSince`).
//!
//! # Promises
//!
//! - *Images*: [`Disk`] has the images that a crash may leave now (`image`) and since an earlier moment (`image_since`). The bytes that a
//!   read returns are always one of them (`IsLawful`). `read` and `sync` add no image (`same`, `ChangesNothing`). `write` adds at most old
//!   images with other bytes in the written range, also if it fails (`changes`, `ChangesOnly`). After a `sync` that returned Ok, the bytes
//!   that a read returns are the only image (`durable`). These are upper bounds, so a disk that loses less meets them too and needs no
//!   record of its calls. `ImageDisk` of `disk_images` has exactly the images of the definition, so the trait does not promise more than it
//!   must.
//! - *Data*: a `read` that returns Ok returns the bytes of the device (`data`). A `write` that returns Ok leaves exactly the given bytes at
//!   its offset (`written`). One that fails may leave any bytes there, and leaves all others unchanged (`changes`). A length never changes.
//! - *Failures*: a call returns a fault only if the count `faults` rose during the call, and Ok only if the count is unchanged (`cause`).
//!   At the greatest count no call fails. A call of a higher crate blames the device only if the count rose, and after every other result
//!   the count is unchanged (`Blames`).
//! - [`persist`] writes and syncs, with the clauses of both (`written`, `durable`, `changes`, `cause`).
//! - [`MemDisk`] is bytes in memory, and reports them. It never fails, and a crash leaves its bytes.
//! - [`FuseDisk`] passes a number of calls to another disk, and then fails each call without effect, or only the next one if it is made by
//!   `FuseDisk::once` (`disk`, `calls`, `whole`, `count`, `lasting`, `mended`, `fuse`). It reports what that disk reports. It counts its own
//!   failures and those of that disk. At the greatest count it repeats the call of that disk until it succeeds.
//! - [`FileDisk`] is a file of the system. It reports nothing of its bytes, so only lengths, failures and results are promised for it. It
//!   counts one failure for each call that returns a fault (`once`). It takes the file's length when it is made, and syncs with
//!   `fdatasync`. It does not sync the file's name; the program that makes the file does.
//!
//! # Not proved
//!
//! - What [`FileDisk`] does with its bytes: a body that does nothing meets its clauses. Tests run it on a real file, and
//!   `tests/test_syncs.py` observes its calls.
//! - A power cut of a real device: `tests/test_power_cuts.py` builds the files that one may leave from the program's calls, provided fsync
//!   works.
//!
//! # Errors
//!
//! The only error is [`DeviceFault`]. After a failed `read` the buffer may have any contents, and the disk is unchanged. After a failed
//! `write` the range may have any bytes, now and after a crash. A failed `sync` changes nothing: bytes that were not on the device may
//! still be missing there.
#![tactic(auto)]

mod disk;
mod durable;
mod file;
mod fuse;
mod memory;
mod surely;

pub use disk::{DeviceFault, Disk};
pub use durable::persist;
pub use file::FileDisk;
pub use fuse::FuseDisk;
pub use memory::MemDisk;
