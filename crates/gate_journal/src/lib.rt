//! The journal of one area of a disk: a list of records, each after a gate. After a crash a record is whole or absent.
//!
//! The records follow each other from the area's base on. A record is a gate, the payload's length in four bytes with the high byte first,
//! and the payload. The byte after it is the next gate. A gate is open if it is A5, and closed at every other value; a closed gate is
//! written as 00. The entries are the payloads of the records up to the first closed gate (`HasEntries`). The bytes after that gate have no
//! meaning.
//!
//! An append writes twice and syncs twice. The first write stores the length, the payload and the closed next gate after the closed gate.
//! Until that gate opens, a crash may leave anything there, and it has no meaning. After a sync has returned Ok, the second write opens the
//! gate: a crash leaves that one byte A5 or not, and in both cases the whole record after it. After the second sync it is A5 for certain,
//! and only then is the record acknowledged.
//!
//! Several records become durable together. Records after a closed gate are entries of no image, whatever their own gates are. A stage
//! writes a record without a sync. The gate of the first staged record stays closed and is then the held gate, and each later record gets
//! an open gate. `settle` syncs, opens the held gate, and syncs. A crash before its last sync leaves no staged entry or all of them. An
//! append is a stage and a settle.
//!
//! # Promises
//!
//! On every disk that meets `Disk`:
//!
//! - [`entries_law`]: bytes have at most one list of entries.
//! - [`Journal::begin`] leaves no entries: every image has none (`none`), and nothing is unsynced (`durable`). It writes only the first
//!   gate (`written`, `changes`).
//! - [`Journal::resume`] at a closed gate adds nothing, since it calls no device (`base`, `end`, `place`, `alive`).
//! - [`Journal::append`] and [`Journal::append_kept`] (`Appends`), if every image at the start has the old entries and no others
//!   (`KeepsEntries`): after Ok every image has the old entries and the new one (`added`), and nothing is unsynced (`durable`). A crash at
//!   any moment of the call leaves the old entries, or these and the new one, whatever the call returns (`any_moment`, `IsBeforeOrAfter`).
//!   All bytes outside the gate and the written range are unchanged (`changes`, `inside`). Both calls have one definition, for the room
//!   that must stay free after the record. Nothing may be staged when they are called (`none`).
//! - [`Journal::stage`] (`Stages`), if every image at the start has the old entries and no others, and the bytes that the disk reports have
//!   these and the staged ones once the held gate is open (`KeepsStaged`, `shown`): after Ok one more is staged (`staged`), and no image
//!   has changed its entries at any moment (`any_moment`). Only bytes after the held gate change (`behind`). Its results are those of an
//!   append (`dead`, `full`, `blames`, `answer`).
//! - [`Journal::settle`] (`Settles`): after Ok every image has the old entries and all staged ones (`settled`), and nothing is unsynced
//!   (`durable`). A crash at any moment of the call leaves the old entries, or these and all staged ones (`any_moment`, `IsBeforeOrAll`).
//!   At most the held gate changes (`changes`). If nothing is staged, it calls no device (`none`). [`Journal::is_settled`] tests that.
//! - [`next_entry`] returns what is at an offset (`exact`): an entry, the end, or damage if a record extends beyond the area. From the base
//!   on it returns the entries in order, and then the end (`entry`, `at_end`), and after known first entries it returns one more, or the
//!   end if there are no others (`goes_on`). An entry and its next gate are before the end (`lies`). It changes nothing (`same`).
//! - [`Window::read`] has the clauses of the disk's own read (`data`, `same`, `cause`), and reads a whole block at a time. The window's
//!   bytes equal what the disk reports (`Holds`), before and after (`held`). A caller that writes to the disk clears the window first.
//!
//! The promises of `resume`, the appends and `next_entry` apply to every list of entries, so a caller need not know the entries. A frame is
//! shorter than 2^32 bytes, since its length has four bytes, and an area is inside the disk; the caller ensures both.
//!
//! # Invariants
//!
//! - `place` is below `end`, and the held gate before `place`. Unless the journal is dead, the held gate is closed in every image, or the
//!   gate at `place` if nothing is staged.
//! - The window does not hold the disk, so no clause is about another disk than the caller's. Its memory is allocated once, by
//!   `Areas::open`, so no read fails because memory ran out.
//!
//! # Not proved
//!
//! - Entries on disks that do not report their bytes: on such a disk only the results and faults are promised.
//!
//! # Errors
//!
//! - `Dead`, before any other fault, exactly if an earlier call met `Disk`. Nothing has changed.
//! - `Full` exactly if the record and the room reserved after it (7 bytes in `append` and `stage`, 1 in `append_kept`) do not fit before
//!   the area's end. Nothing has changed: not the journal, the disk or the frame. `settle` never returns it.
//! - `Disk` only if the device's count of failures rose during the call. Each image has the old entries, or these and the new or all
//!   staged ones. The journal is dead from then on, and what is still staged never becomes an entry.
//! - `DeviceFault` from `begin`, `next_entry` and `Window::read`, only if that count rose. If a window was being filled, it has no bytes
//!   after that.
//!
//! # Cost
//!
//! An append syncs twice, a stage never, and a settle twice for any number of staged records. A read of 64 KiB or more bypasses the
//! window, so no large payload is copied twice. A block may extend beyond the bytes asked for, and a device that fails anywhere in a block
//! fails that read. The spool builds the frame of a record in a buffer that it retains, so it allocates nothing after the longest record
//! was written.
#![tactic(auto)]

mod add;
mod entry;
mod frame;
mod journal;
mod law;
mod layout;
mod window;

pub use entry::{Found, next_entry};
pub use journal::{Journal, JournalFault};
pub use law::entries_law;
pub use layout::{HEAD_LEN, KEPT_ROOM, OPEN_GATE};
pub use window::Window;
