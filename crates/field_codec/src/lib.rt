//! The fields at the front of bytes that make up the spellings of events and rows: numbers, and texts of a kind.
//!
//! A number is big-endian. A text is its length in two bytes, followed by its bytes of UTF-8. Each reader returns a field and the
//! bytes after it, so readers are called in order from left to right. [`ended`] is the last one: no bytes may be left.
//! `specs/Fields` defines each reader (`part_at`, `number_at`, `ranged`, `text_at`, `whole`).
//!
//! # Promises
//!
//! - Each reader returns the result of its definition, or its first error (`read`), in this order: `Length` if the field exceeds
//!   the bytes, `Utf8` if a text is not UTF-8, `Range` if the value is outside its limits.
//! - [`ended`] returns Ok exactly if no byte is left (`ok`), otherwise `Length` (`fault`).
//!
//! # Errors
//!
//! [`CodecFault`]. Reading a number allocates nothing (`memory`). A text is copied after it is known to be complete and within
//! its limits, and only this copy can run out of memory. No memory is retained then.
#![tactic(auto)]

mod fault;
mod fields;

pub use fault::CodecFault;
pub use fields::{ended, job_id, moment, part_at, ranged, text_at, u8_at, u16_at, u32_at, u64_at};
