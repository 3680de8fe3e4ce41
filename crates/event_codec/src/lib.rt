//! The binary encoding of events, and of the rows of a listing.
//!
//! The spelling of an event is its kind in one byte, followed by its fields in order. Numbers are big-endian. A text is its
//! length in two bytes, followed by its bytes of UTF-8. `spelling`, in `specs/Spelling`, defines the kinds and fields;
//! `specs/EventReading` defines how bytes are read from left to right.
//!
//! | Byte | Event | Fields |
//! |---|---|---|
//! | 01 | AddQueue | name, URI, target, policy in 1 byte, interval in 4, limit in 2 |
//! | 02 | Info | queue, info, location |
//! | 03 | SetAccept | queue, 0 or 1 in 1 byte |
//! | 04 | SetStop | queue, 0 or 1 in 1 byte |
//! | 05 | Create | queue, job in 4 bytes, user, title, copies in 2, priority in 1, options |
//! | 06 | Send | job in 4 bytes, length in 4, the bytes |
//! | 07 | Close | job in 4 bytes, media type, then 0, or 1, the number of filters in 1 byte, and each filter |
//! | 08 | Hold | job in 4 bytes, then 1 if the hold has no end, or 2 and a moment in 8 bytes |
//! | 09 | Release | job in 4 bytes |
//! | 0A | Cancel | job in 4 bytes |
//! | 0B | Clock | moment in 8 bytes |
//! | 0C | Start | job in 4 bytes |
//! | 0D | Stage | job in 4 bytes, attempt in 4, stage in 1, exit, dropped effects in 4, the number of effects in 2, and each effect |
//! | 0E | Abandon | job in 4 bytes |
//! | 0F | Reopen | none |
//! | 10 | Purge | job in 4 bytes |
//! | 11 | CreateBy | fields of 05, a moment in 8 bytes |
//!
//! In Close, 0 means that no filters convert the document to the queue's target. `01 00` means that it needs none.
//!
//! An exit is 0 and a status in 1 byte; or 1 after a signal, 2 if nothing was started, 3 if the end or the output is unknown. An
//! effect (filter(7)) is its kind in one byte, followed by its fields in order:
//!
//! | Byte | Effect | Fields |
//! |---|---|---|
//! | 01 | Pages | page in 4 bytes, copies in 4 |
//! | 02 | TotalPages | pages in 4 bytes |
//! | 03 | SetReasons | the number of words in 2 bytes, and each word |
//! | 04 | AddReasons | the same, with at least one word |
//! | 05 | DropReasons | the same, with at least one word |
//! | 06 | Attribute | name, value |
//! | 07 | Message | level in 1 byte, from 0 (emergency) to 6 (info), text |
//!
//! The effects of one stage have at most 16,384 bytes in total, without the number of effects.
//!
//! A row is encoded like an event, and the first byte distinguishes them. `specs/RowSpelling` and `specs/RowReading` define the
//! spelling and the reading of rows.
//!
//! | Byte | Row | Fields |
//! |---|---|---|
//! | 40 | Head | highest number in 4 bytes, 0 for none, moment in 8 |
//! | 41 | Queue | fields of 01, info, location, accepting and stopped in 1 byte each, message, the number of reasons in 1, and each, the number of attributes in 1, and each |
//! | 42 | Job | job in 4 bytes, queue, user, title, copies in 2, priority in 1, options, 0, or 1 and its media type, the number of filters in 1, and each, attempts in 4, pages in 4, size in 4, phase; in version 2 also 0, or 1 and a moment in 8 |
//! | 43 | Piece | job in 4 bytes, length in 4, from 1 to 65,536, the bytes |
//!
//! Reasons are in ascending order, and attributes in ascending order of their names, compared by their bytes as in the table. A
//! phase is its kind in 1 byte and its fields: 0 and a hold, incoming; 1, a hold, a moment in 8 bytes and whether it is first in
//! 1, waiting; 2 and the stage in 1, processing; 3 completed; 4 canceled; 5 and the reason in 1, aborted. A hold is 0 if there is
//! none; 1 and its reason in 1; or 2 and a moment in 8. The row of a processing job contains only its stage: its attempt is the
//! number of its attempts, and the number of its stages is the number of its filters plus one. A stage above that number is
//! encoded too; the table refuses such a row.
//!
//! A row is encoded for the version of the area that contains it. The versions differ only in the rows of jobs: in version 2 such
//! a row ends with the moment by which the job must start, if any, and in version 1 no job has such a moment. Version 2 is
//! written, and [`decode_row`] takes the version that it reads.
//!
//! A queue's row begins with the fields of AddQueue (`new_queue_of`), and a job's row with those of Create in another order
//! (`new_job_of`). Both are read and written by the readers and writers of events.
//!
//! # Promises
//!
//! - [`encode`] returns the spelling of its event (`spelled`), which is within its limits (`spellable`). [`encode_onto`] appends
//!   the spelling to bytes.
//! - [`decode`] returns an event only from its spelling (`sound`), and each event from its spelling (`complete`). From other bytes
//!   it returns the first error from the left (`exact`, by `reading`). `complete` and the laws are about events within their
//!   limits (`IsSpellable`), as each value of the type is: a length above 65,535 would not fit in two bytes.
//! - [`no_proper_prefix`]: no spelling is a proper prefix of another. [`one_event`]: bytes are the spelling of at most one event.
//! - The same is true of rows in each version: [`encode_row`], [`encode_row_onto`] and [`decode_row`],
//!   [`no_proper_prefix_of_rows`] and [`one_row`].
//! - [`encode_queue_onto`] and [`encode_job_onto`] append the row of a queue or a job that they borrow, so a checkpoint copies no
//!   row.
//! - The types of a row's fields do not ensure that a queue's lists are in ascending order, that a processing job is in a stage of
//!   its newest attempt, that a number or a size is not too great, and that a piece is not empty (`IsLegalRow`). A row that
//!   violates this is written too, but it is not spellable (`IsRowSpellable`), and [`decode_row`] never returns it.
//! - [`rows_are_no_events`]: the bytes of a row and those of an event differ in their first byte, so neither is a prefix of the
//!   other.
//! - The spelling of an event has fewer than 131,072 bytes, and that of a row fewer than 524,288 (`short`).
//!   [`effects_have_their_size`]: the size of the effects of a stage is `effects_size`.
//!
//! # Not proved
//!
//! - That memory had run out when [`decode`] returns [`CodecFault::Memory`]: a body that always returns it meets the clauses.
//!   Tests refuse it.
//!
//! # Errors
//!
//! [`CodecFault::Kind`] is only for the first byte, if it is not that of an event or a row. It is checked first. Then each field
//! from left to right may have an error: `Length` if it exceeds the bytes, `Utf8` if a text is not UTF-8, `Range` if the value is
//! outside its limits. An unknown effect, level or policy is `Range`, and so is a byte before the filters other than 0 and 1, and
//! an effect that exceeds the 16,384 bytes, whose own errors come first. Bytes after the last field are `Length`, and so is an
//! empty input. A reason or an attribute's name that is not above the previous one is `Range`, before the following bytes are
//! read.
//!
//! `Memory` is returned only if the bytes have a value that is copied (`memory`, by `reaches_copy` and `reaches_row_copy`): a
//! text, the bytes of a send or a piece, an effect. So it is never returned for an event without such a value or for a head, and
//! never before the first such value. No memory is retained then.
//!
//! [`encode`] and [`encode_row`], [`encode_onto`] and [`encode_row_onto`] allocate the whole length at once, and only this can
//! fail. The functions that append do not fail if the capacity suffices (`fits`), and leave the bytes unchanged if they fail
//! (`kept`).
#![tactic(auto)]

mod effect_reading;
mod effect_writing;
mod field_writing;
mod fields;
mod laws;
mod phase_reading;
mod reading;
mod row_reading;
mod row_writing;
mod writing;

pub use field_codec::CodecFault;
pub use laws::{
    effects_have_their_size, no_proper_prefix, no_proper_prefix_of_rows, one_event, one_row,
    rows_are_no_events,
};
pub use reading::decode;
pub use row_reading::decode_row;
pub use row_writing::{encode_job_onto, encode_queue_onto, encode_row, encode_row_onto};
pub use writing::{encode, encode_onto};
