//! A disk with exactly the images of the definition: the worst device that `Disk` allows.
//!
//! The trait `Disk` states an upper bound of the images that a crash may leave, so disks that lose nothing meet it too. A theorem about
//! every disk would say little if no disk had all images within the bound. [`ImageDisk`] has them: its images are those of the definition
//! (`IsImage`), all lists of bytes that are as long as the device and have at each offset the byte that a read returns or, if the offset
//! was written since the last sync that returned Ok, any byte. Its images since a moment are those of the device at each moment from that
//! one on (`IsImageSince`). It is proved to implement `Disk`, so the trait does not promise more than the definition, and a theorem about every
//! disk is true of this one. The product does not use it.
//!
//! # Promises
//!
//! - [`ImageDisk`] is a `Disk` whatever its faults do ([`Faults`] has no contract): they may strike at every call, and a write that fails
//!   may leave any bytes in its range. [`ImageDisk::new`] returns a disk of zero bytes at its first moment, with all bytes synced and no
//!   failure counted (`bytes`, `synced`, `first`, `count`).
//! - A write, also one that fails, makes exactly its range unsynced (`unsynced`). A sync that returns Ok leaves nothing unsynced
//!   (`synced`). A sync that fails leaves the device unchanged, as does a read (`still`).
//! - After each call, the images since a moment are those from before the call, and those that a crash may leave now, and no others
//!   (`since`, `AddsImages`). So they are the union of the images at all moments from that one on. Within a call there is no further image:
//!   a write only adds images, and a sync only removes some.
//!
//! # Not proved
//!
//! - At the greatest count of failures a sync whose moment runs out of memory does not record the moment. So `since` of a sync is promised
//!   below that count.
//!
//! # Cost
//!
//! The disk copies the device at each sync that returns Ok, as it was before the sync, since a write only adds images. If memory for the
//! copy runs out, the sync fails, and that counts as a device error. At the greatest count no call may fail, so the copy is left out there.
#![tactic(auto)]

mod content;
mod disk;
mod faults;

pub use disk::ImageDisk;
pub use faults::Faults;
