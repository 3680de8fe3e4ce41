//! The two areas of a spool's device: which one is current, and which payloads its journal contains.
//!
//! # Layout
//!
//! A device has two areas. The first begins at byte 0, the second at half the device's length, rounded down. An area is a
//! header of 16 bytes followed by a journal (`gate_journal`). A header is a gate, the version 1 or 2, an epoch in eight bytes
//! with the high byte first, and six zeros. The current area is the one whose header is open, or, if both headers are open, the
//! one with the higher epoch (`current_area`). Its payloads are those of its journal up to the first closed gate
//! (`HasPayloads`). While an area is current, the header of the other area is closed, or open with a lower epoch
//! (`other_header`), and the remaining bytes of the other area have no meaning.
//!
//! Areas of both versions have the same layout and are read in the same way. The version determines how callers decode the
//! payloads (`known_version`, `Areas::version`). Version 1 is never written: `make` and a checkpoint write version 2. An area of
//! version 1 remains one until the first checkpoint. `HasPayloads` does not state the version, because the payloads do not
//! depend on it. Clauses about images include the version (`HasVersionAndPayloads`).
//!
//! # Promises
//!
//! They hold on every disk that meets `Disk`.
//!
//! - [`areas_law`]: bytes have one reading, that is one list of payloads up to a closed gate, or one up to the gate of a torn
//!   record.
//! - [`make`] leaves an empty spool: area 0 begins with an open header of version 2 and epoch 1 and a closed gate, area 1 begins
//!   with a closed gate, and all other bytes are unchanged (`bytes`, `empty_spool`). Every image is of version 2 and has no
//!   payloads (`made`), and nothing is unsynced (`durable`). A crash during the call leaves the bytes that the device had, with
//!   any byte at the gates of the headers, until both gates are closed and synced. After that it leaves no spool or an empty one
//!   (`ClosesFirst`, `any_moment`).
//! - [`Areas::open`] finds the current area, its payloads and its version (`found`, `version`). If there is no such area, it
//!   returns the disk and the error of its headers (`fault`, `back`). It writes nothing. A crash before its sync returns leaves
//!   an image that was possible before the call, and a crash after that leaves the bytes that a read returns (`synced`). Then
//!   every image has these payloads (`keeps`), unless a record after them exceeds the area; `damage` is the gate of that record.
//! - [`Areas::append`] and [`Areas::append_kept`] add one payload, if every image at their start has the old payloads and no
//!   others (`KeepsPayloads`). After Ok every image has the old payloads and this one (`added`), and nothing is unsynced
//!   (`durable`). A crash at any moment of the call leaves the old payloads, or these and this one (`any_moment`,
//!   `HasBeforeOrAfter`), whatever the call returns. The version, the base and the epoch do not change. Nothing may be staged,
//!   unless the areas are dead (`AreSettled`).
//! - [`Areas::stage`] stages one payload without a sync. No image has it before [`Areas::settle`], which makes all staged
//!   payloads durable with two syncs (`AreaStages`, `AreaSettles`). If every image has the old payloads and the staged ones are
//!   written after them (`KeepsStagedPayloads`), a stage adds one to these (`staged`), and a crash during it leaves the old
//!   payloads (`any_moment`). After `Ok` of a settle every image has the old payloads and the staged ones (`settled`). A crash
//!   during it leaves the old payloads, or these and all staged ones (`any_moment`, `HasBeforeOrAll`). [`Areas::is_settled`]
//!   returns whether nothing is staged or the areas are dead.
//! - A checkpoint writes rows into the other area and makes it current, in steps, so that the caller need not have all rows in
//!   memory. [`Areas::plan`] returns from the lengths of the rows where they will be, or the error, and [`Areas::plan_by_sum`]
//!   does so from the sum of the records' lengths (`exact`, `fits`). [`Areas::begin`] closes the header of the other area and
//!   writes the rest of the header. [`Areas::add_row`] adds a row to a block in memory, which is written as soon as it is long
//!   enough. [`Areas::write_rows`] writes the rest of the block. [`Areas::open_other`] opens the header. Then every image has
//!   these rows and no others, with the next epoch and version 2 (`added`, `changed`), and nothing is unsynced (`durable`).
//!   `Fills` describes the state between the steps: each step preserves it (`begun`, `added`), and so do reads
//!   ([`filling_law`]). A crash leaves the old payloads in their version until the new header is opened. After that it leaves
//!   these, or the rows in version 2, whatever the steps return (`any_moment`). The bytes of the old area do not change
//!   (`changes`).
//! - [`Areas::read_extent`] reads bytes of the current area after its header (`behind`, `inside`), and returns what the disk
//!   reports (`data`). It changes nothing (`keeps`, `staged`).
//!
//! # Not proved
//!
//! - A crash in `make` before both gates are closed: a device that was a spool may still be one.
//! - The number of syncs. No clause counts them; a test counts the calls of a checkpoint over many rows.
//!
//! # How the steps sync
//!
//! While the header of the other area is closed, the bytes after it do not count in any image. So the closed gate is synced
//! first, before anything in that area changes. Then all rows are synced at once, before the header's gate is opened. The open
//! gate is synced last. These are three syncs for any number of rows. A row is written with its gate open, in one write with the
//! rows next to it. All bytes that were written and are not synced are in one range: the other area after its header's gate.
//!
//! # Invariants
//!
//! The current area is one of the two, and both are within the device. Its journal begins right after its header and ends with
//! the area. Its version is 1 or 2. Unless the areas are dead, the journal is alive; the areas record this in addition to the
//! journal, because they are also dead after a failed read or checkpoint, which the journal does not see. The bytes that were
//! read last, a block at a time, equal the bytes that the disk reports (`IsInside`).
//!
//! # Errors
//!
//! - `MakeFault::Full` exactly if an area would have fewer than 23 bytes. Nothing has changed.
//! - `Dead`, before any other error, exactly if an earlier call returned `Disk`. Nothing has changed.
//! - `AreaFault::EpochEnd` exactly if the epoch is the greatest, and `AreaFault::Full` exactly if a row, appended in order, would
//!   fail with `Full` (`plan_of`). Nothing has changed. `begin` never returns `Full`. The steps after it return only `Dead` or
//!   `Disk`.
//! - `JournalFault::Full` exactly if the record and the room reserved after it do not fit. Nothing has changed.
//! - `Disk` only if the device's count of failures rose during the call. The areas are dead from then on. After every other
//!   result the count is unchanged (`blames`).
//!
//! # Cost
//!
//! `Areas::open` returns the extents of all payloads, 16 bytes each. No payload is retained, so this crate does not depend on
//! the format of events.
#![tactic(auto)]

mod areas;
mod fault;
mod filling;
mod header;
mod law;
mod making;
mod opening;
mod records;
mod room;

pub use areas::Areas;
pub use extents::Extent;
pub use fault::{AreaFault, MakeFault, OpenError, OpenFault, ReadFault};
pub use gate_journal::JournalFault;
pub use law::{areas_law, filling_law};
pub use making::make;
pub use opening::Opened;
