//! The rows of a listing, written one by one to the other area of a spool.
//!
//! A listing is written when a checkpoint makes the other area the current one, and when a spool is split. Both encode each row
//! into a block of memory and end its record with the functions of this crate.
//!
//! # Model
//!
//! A [`Filler`] is a block with records that are not written yet, and their place in the other area. `Filling` is the state of
//! areas that are being filled. Its block has [`BLOCK_ROOM`] bytes, so that it always has room for one more record, and nothing
//! is allocated while rows are added.
//!
//! # Promises
//!
//! These hold on every disk that meets `Disk`.
//!
//! - [`put_row`], [`put_head`], [`put_queue`], [`put_job`] and [`put_piece`] add exactly the encoding of the row to the block,
//!   after five free bytes (`put`, `IsPut`). The row can be represented if it is legal (`spellable`).
//! - [`end_record`] adds the record of that row after those that were added before it (`added`, `AddsRows`). Until the header of
//!   the other area is opened, a crash leaves the payloads of the current area, whatever the result (`on`, `IsFillingOn`). A block
//!   that is long enough is written, without a sync.
//!
//! # Errors
//!
//! [`end_record`] fails only if the device does. The areas are dead then.
#![tactic(auto)]

mod block;
mod filler;

pub use block::{BLOCK_ROOM, PIECE_HEAD, put_head, put_job, put_piece, put_queue, put_row};
pub use filler::{Filler, end_record};
