//! Documents on a device: extents in place of bytes.
//!
//! An area has a list of payloads: the rows of a listing, if any, and then events. A job's document is among them: the pieces in the
//! listing, and then the bytes that events sent to it (`document_in`). Each of these parts is the end of its payload, after nine bytes: the
//! kind, the job and the length. So the places of a document are a function of the rows and events (`places_in`): a list of extents, one
//! for each piece and each send. Adjacent extents are not merged.
//!
//! # Promises
//!
//! - In every image with these payloads a job's places hold exactly its document ([`moves_law`]: `moved`, `history`; [`placed_law`] for
//!   events alone: `held`). They are after the header of the area and before the gate that follows the payloads (`within`,
//!   `history_within`). One more event adds the extent of its bytes, if it sends any, so at most one extent (`added`, `history_added`). A
//!   document's pieces hold it whole (`pieces`, `listed`), and no bytes of other jobs (`others`). So an append or a checkpoint that keeps
//!   the payloads or adds to them at every moment keeps the documents, and nothing else must be carried over.
//! - [`size_law`]: the lengths of a job's places add up to that of its document (`sent`, `listed`, `history`, `pushed`, `joined`).
//! - [`extents_law`]: extents have the same bytes while nothing changes in their range, also after a device error (`kept`). A part of a
//!   payload is at its offset after the payload's gate (`part`) and before the gate after all payloads (`lies`); one more extent adds its
//!   bytes (`pushed`).
//! - [`read_joined`] reads exactly the bytes of the extents from an offset on (`data`), changes nothing (`same`, `still`, `keeps`), and
//!   returns Dead or Disk only for its cause (`dead`, `blames`, `dies`, `untouched`, `unread`).
//!
//! # Not proved
//!
//! - Documents on a disk that does not report its bytes: for such a disk only the causes of faults are stated, and that nothing changes.
//!
//! # Errors
//!
//! - `Dead`, before anything is read, exactly if an earlier call on the areas met `Disk`. Nothing has changed.
//! - `Disk` only if the device's count of failures rose during the call. The areas are dead from then on.
#![tactic(auto)]

mod laws;
mod reading;

pub use laws::{extents_law, moves_law, placed_law, size_law};
pub use reading::read_joined;
