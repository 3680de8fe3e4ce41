//! A table of print queues and jobs on a disk, which survives crashes.
//!
//! [`make`] makes a disk a spool, once, and [`Spool::open`] opens it at each start. A [`Spool`] owns the disk and keeps the table
//! in memory. [`Spool::apply`] writes an event to the disk before it changes the table, and acknowledges the event only when a
//! crash can no longer lose it. [`Spool::stage`] does so without a sync, and [`Spool::settle`] makes all staged events durable
//! together. Documents are stored only on the disk; [`Spool::read_document`] reads them from there.
//!
//! # The table of a disk
//!
//! The images of a disk are the bytes that a crash may leave.
//!
//! 1. An image has a *table* if the records of its current area, up to the first closed gate, encode the rows of a table's
//!    listing, if any, followed by events that are accepted in order, starting from the listed table, or from the empty one if
//!    there are no rows (`IsHistory`). The table of the image is the one after these events. If a job is processing in it, at
//!    least 7 bytes of the area are left from that gate on (`HasTable`).
//! 2. The *room* of an image is the number of bytes from that gate to the end of the area (`HasRoom`).
//! 3. Any other image has a *fault* (`HasFault`): no area is current, or a gate is damaged. That is the gate of the first record
//!    that exceeds the area or may not come next (`IsDamagedAt`), or the closed gate, if the document of a listed job is
//!    incomplete (`IsShortAt`) or those 7 bytes are not left (`IsCrampedAt`).
//! 4. A job's *document* in an image is what these rows and events contain for the job (`HasDocument`). `HasWhole` is a table
//!    with its documents, and `documents_after` are the documents after events. Statements about documents (`HasDocuments`) cover
//!    only numbers that are not over (`is_over` of `job_table`). A number that is over stays over (`StayOver`), so inductions
//!    need no facts about whole histories. Documents have clauses of their own, so the clauses about tables also hold on a disk
//!    that does not show its bytes.
//! 5. The version in the header of the area determines how its payloads are read (`number_of`). `HasTable` and the invariant of a
//!    spool ensure that the table and its area have the same version.
//!
//! Callers see an open spool as its disk, table, room, epoch, the gate in front of its staged events, and whether its device has
//! failed (`OpenSpool`). The table shown has the staged events; the images do not have them yet. `shown_bytes` are the bytes of the
//! disk with that gate open: they have the table shown, with its documents.
//!
//! # Promises
//!
//! These hold on every disk that meets `Disk`. The statements about images and tables apply to disks that show their bytes. On
//! other disks the results and their causes are the same.
//!
//! - [`one_reading`]: any bytes have a table or a fault (`some`), never both (`either`), and at most one table, one fault, one
//!   room, and one document of each job (`table`, `fault`, `room`, `document`).
//! - *CrashSafeMake*: after `Ok` of [`make`] every image has the empty table (`made`). Whatever it returns, a crash leaves the
//!   old contents of the device, with any byte at the header gates, until these are closed and synced, and then no spool or the
//!   empty table (`any_moment`, `ClosesFirst`).
//! - *CrashSafeApply*: unless the spool is dead, a crash at any moment of [`Spool::apply`] leaves the table from before the event
//!   or the one after it, whatever the call returns (`any_moment`). The documents are those from before the event, or those with
//!   the part that it sends (`documents`). After `Ok` every image has the table after the event and the part that was sent
//!   (`kept`, `sent`), nothing is unsynced (`durable`), and the table shown and the reply are those of the event (`answer`).
//!   Between calls each image has the table that [`Spool::table`] shows (`kept`, `synced`), unless events are staged. Nothing may
//!   be staged when `apply`, [`Spool::checkpoint`] or [`drive`] is called, unless the spool is dead (`settled`, `IsSettled`).
//!   Each of them leaves it so, and [`Spool::is_settled`] tests it.
//! - *CrashSafeApply* for many events: whatever it returns, a crash at any moment of [`Spool::stage`] leaves the table and the
//!   documents that a crash before it leaves (`any_moment`, `documents`). Its results are those of `apply` (`answer`), and the
//!   documents shown have the part that the event sends (`sent`). A crash at any moment of [`Spool::settle`] leaves the table
//!   without the staged events or the one with all of them, each with its documents (`any_moment`, `documents`). After `Ok` every
//!   image has the table shown, with its documents, and nothing is unsynced (`kept`, `sent`, `durable`).
//! - *RightDocument*: [`Spool::read_document`] returns the bytes, from an offset on, of the document that the disk's bytes
//!   contain for the job, also in staged events (`data`). The document is as long as the table states, unless the job has ended
//!   (`long`, `part`). [`read_whole`] returns all of it, [`read_front`] its first bytes. The call changes neither the table nor the
//!   images (`same`, `still`). It returns `Dead` exactly if the spool is dead (`dead`), and `Disk` only if the device failed
//!   (`blames`).
//! - *CrashSafeCheckpoint*: unless the spool is dead, a crash at any moment of [`Spool::checkpoint`] leaves the table in its
//!   version or in version 2, with its documents, whatever the call returns (`any_moment`, `documents`), and the table shown does
//!   not change (`answer`). After `Ok` every image contains only the rows of the table's listing and no event, in version 2, with
//!   the next epoch, and nothing is unsynced (`listed`, `counts`, `kept`, `durable`). `Dead`, `EpochEnd`, `Memory`, `Full` and
//!   `Disk` are checked in this order, and all but `Disk` change nothing (`answer`, `blames`). Whatever a checkpoint returns, no
//!   memory for new places of documents stays allocated (`moves` of [`Spool::table`]).
//! - *CrashSafeOpen*: if [`Spool::open`] returns `Ok` on a disk with bytes that have a table, the spool has that table, after the
//!   error policy of the queue was applied to each job that was processing (`opened`). No job is processing (`idle`). The spool
//!   has the room that its disk has then (`room`) and the epoch of the bytes (`epoch`), and every image has the table that is
//!   shown (`kept`) and the documents of the bytes (`documents`). If no job was processing, the call writes nothing
//!   (`unwritten`). Otherwise it writes the record of one Reopen, which takes its bytes from the room (`left`). [`Spool::load`]
//!   reads the same way, applies no policy and writes nothing.
//! - *CrashSafeOpen*, during the call: until the first sync has succeeded, a crash leaves an image of the disk that was passed
//!   in. From then on it leaves an image with the table of the bytes or the one after the policy, and with their documents
//!   (`synced`, `IsMidway`).
//! - *CrashSafeOpen*, after an error: the disk is returned, and shows its bytes if it did before (`told_back`). Unless the device
//!   failed, the disk reads as before and has no new image (`back`). If it failed, an image is one that was passed in until the
//!   first sync has succeeded, and from then on it has one of these two tables (`failed`).
//! - *CrashSafeDrive*: [`drive`] applies events in order. It returns the step's reply to each event up to the end of the run
//!   (`replies`). The table is the fold of these events (`table`), and the result says why the run ended (`ending`): with `Disk`
//!   only at an event that fits. Unless the spool is dead, a crash at any moment leaves the table and the documents after a
//!   prefix of the events, which contains the current event only if the device failed (`any_moment`, `documents`).
//! - *CrashSafeDrive*, acknowledged events: no acknowledged event is lost. A chain of disks connects each reply with the next:
//!   between two neighbours a crash leaves the table from before the event or the one after it (`acknowledged`). The chain is
//!   stated once more with the documents: from an event's disk on, the part that it sent is not lost (`whole`). At the end every
//!   image has all parts that the acknowledged events sent (`sent`).
//! - *CrashSafeDrive*, at its end: every image has the table that is shown (`kept`), or after a device failure that table or the
//!   one with the current event (`after_fault`). The room is that after the events (`room`). A dead spool returns `Dead`, even if
//!   no reply could be allocated, and is not changed (`dead`).
//! - *EndedStaysEnded*: the table changes only by accepted events (`answer`), and only its purge changes a job that has ended
//!   (`ended_jobs_stay` of `job_table`). For the events of [`drive`]: such a job stays as it is, or one of the events purged it
//!   (`ended`), and a number that is over stays over (`over`). Events about it are refused (`refused`), and the number is not
//!   assigned again (`number`).
//! - *QueuesApart* (`queues_stay_apart` of `job_table`): the rows of a queue after [`drive`] and after [`replay`] depend only on
//!   the queue's own events (`apart`). `replay` is the same fold from the empty table on, without a disk, and uses 0 as the place
//!   of each payload.
//! - *ManyLives* ([`lives_go_on`]): if a crash left an image with the table after at least the acknowledged events, opening that
//!   image begins the next life (`opened`). Its table is the one after these and some further events: those that the crash left,
//!   and a Reopen (`goes_on`). A life (`Life`) is its events, the number of acknowledged ones and the number that a crash left.
//!   Any number of lives of one version has the tables and the documents of one list of events (`history`, `documents`, `sent`).
//!   A checkpoint that raises the version ends such a list, and the next list begins with the raised table. The tables are legal
//!   (`legal`), and no job is processing when a life begins (`idle`).
//! - *ManyLives*, ended jobs: a job that has ended after the acknowledged events of a life stays ended in all later lives, or was
//!   purged (`ended`, `later_events`, `over`). Events about it are refused, so it is not started again (`refused`), and its
//!   number is not assigned again (`number`). If a crash interrupts an opening, the next opening yields the same table and
//!   documents (`cut`, `cut_documents`).
//! - *ExactRefusals*: each result of `apply` has its cause (`answer`, `IsAnswer`), and the causes are checked in the order of
//!   [`ApplyFault`]. `Dead`: exactly if the device failed before. `Refused`: exactly if the step refuses the event. `Memory`:
//!   only if the event is not refused. `Full`: only if the record and the 7 bytes reserved after it exceed the area, and then the
//!   result is never `Ok` or `Disk`. `Disk`: only if the device's count of failures rose. The same holds for `checkpoint` and
//!   [`CheckpointFault`]: `EpochEnd` is returned exactly at the greatest epoch, and `Full`, unless memory runs out, exactly if
//!   the rows do not fit (`holds_listing`). `open` returns `NotASpool` or `Damaged` only if the image has that fault (`fault`),
//!   and `Disk` only if the count of failures rose (`blames`). `make` returns `Full` exactly if an area would have less than 23
//!   bytes (`full`).
//! - *UnchangedAfterRefusal*: after `Dead`, `Refused`, `Memory` and `Full` of `apply` the spool and its disk are as before, and
//!   after `Disk` the table is (`answer`). A `make` that returns `Full` has changed nothing (`untouched`).
//!
//! # Not proved
//!
//! - That memory had run out when a call returns `Memory`: a body of `apply` or `open` that always returns it meets its clauses.
//!   Tests reject such bodies.
//! - A crash in `make` before its first sync: the device may still have its old contents. At that time the program's file still
//!   has another name, and the program creates it again from scratch.
//!
//! # How it works
//!
//! `apply` does first what can fail, and this changes nothing that callers see: it checks whether the table refuses the event,
//! reserves memory in the table, and encodes the event into a frame (`journal`, which borrows the event). Then it appends the
//! frame to the area, with two syncs. Only then does it move the event to the table, which allocates nothing and cannot fail.
//! After a device failure it is unknown whether the event is on the device: the table does not change and the spool is dead,
//! because the next record might follow an event that the table does not have. A failed read makes the spool dead as well.
//!
//! `stage` does the same without a sync: the record of the first staged event has a closed gate, and those of later ones have open
//! gates, which count in no image before the first gate is open. After a failed `settle` the table still has the staged events,
//! and the images have it or the table without them.
//!
//! `checkpoint` first allocates all its memory: for the new places of the documents, and for one block of rows. The block has
//! room for the longest encoded row, which is below 2^19 bytes (`short` of `encode_row_onto`). So the first pass only adds up the
//! lengths of all records, to check whether they fit. Then `checkpoint` fills the other area: it encodes the rows of the table
//! into the block, reads the bytes of the documents into their pieces, notes the new place of each piece, and has the block
//! written whenever it is long enough. A piece is the only row that this crate encodes itself (`put_piece`), because its bytes
//! are read into the block after its head. Only the last row is followed by a sync. Until the header of that area is opened, its
//! contents have no meaning, so a crash leaves the rows and events of the current area; from then on it leaves the listing, with
//! room for a reopening after it. The documents are read from the current area, which does not change. When the header is open,
//! the table takes the new places of its documents.
//!
//! `open` first builds the table and writes nothing. It syncs, so that a crash leaves the bytes that it reads. It takes each row
//! as the next one of a listing (`Loading` of `job_table`). From the first event on it commits events to the listed table, or to
//! an empty one. A job that is then processing lost the end of its attempt: `open` journals one Reopen, in the 7 bytes that each
//! append leaves free, and commits it. A crash meanwhile leaves that record complete or absent, and the next opening finds no job
//! processing, or does the same again.
//!
//! # Invariants
//!
//! 1. The closed gate is in the area or at its end. If a job is processing, there are at least 7 bytes from the gate to the end:
//!    room for the record of a reopening.
//! 2. The documents that the table has places for are between the header of the area and that gate.
//! 3. Until a device call has failed, each image has the table that is in memory, and the documents are where its rows and events
//!    have them (`IsOpenSpoolAt`). So no clause has this as a premise. If events are staged, each image has one table, from which
//!    they lead to the one in memory, and no document contains the gate in front of them (`IsStagedAt`).
//! 4. The table has noted no new places of documents (`IsOpenSpool`). A checkpoint notes them and discards them before it
//!    returns.
//!
//! # Errors
//!
//! - [`ApplyFault`]: after all but `Disk` nothing has changed. After `Disk`, which is returned only if the device's count of
//!   failures rose, each image has the table from before the event or the one after it, and the spool is dead: every call that
//!   can fail returns `Dead`. A dead spool gives up its disk by [`Spool::into_disk`], and the disk is opened again.
//! - [`CheckpointFault`]: the same, except that after `Disk` each image has the one table.
//! - [`OpenError`] returns the disk with an [`OpenFault`]. After all but `Disk` the disk reads as before. `NotASpool` and
//!   `Damaged` mean that the bytes have no table. `Memory` and `Disk` say nothing about the bytes, and the disk may be opened
//!   again.
//! - [`Unread`], of [`read_whole`] and [`read_front`]: after `Memory` nothing has changed, and `Disk` is as in [`ReadFault`].
//! - [`ReadFault`]: the table and the images are as before. After `Disk`, which is returned only if the device's count of
//!   failures rose, the spool is dead.
//! - [`MakeFault`]: after `Full` nothing has changed. After `Disk` the device may hold no spool, and `make` must be called again.
#![tactic(auto)]

mod driving;
mod fold;
mod laws;
mod making;
mod reading;
mod replaying;
mod spool;

pub use driving::{Driven, Ending, drive};
pub use laws::{lives_go_on, one_reading};
pub use making::make;
pub use reading::{Unread, read_front, read_whole};
pub use replaying::replay;
pub use spool::{ApplyFault, CheckpointFault, Spool};
pub use spool_areas::{MakeFault, OpenError, OpenFault, ReadFault};
