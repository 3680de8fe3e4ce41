//! The side channel of a backend: packets, answers and sessions.
//!
//! A filter queries the backend of its job for facts that a pipe does not carry: whether the device is bidirectional, its id, its state
//! (backend(7), cups/sidechannel.h). Here the spooler answers for the device, from a [`Device`]. [`serve`] answers the requests of one
//! client, from a reader and to a writer. A [`Session`] is fed the bytes of one client as they arrive, and never waits. [`Packet::read`]
//! and [`Packet::write`] are for the other side.
//!
//! # The answers
//!
//! A packet is a command, a status, the length of its data in two bytes, most significant byte first, and the data. An answer repeats the
//! command.
//!
//! | Command | Status | Data |
//! |---|---|---|
//! | 1 SOFT_RESET, 2 DRAIN_OUTPUT | 1 OK | |
//! | 3 GET_BIDI, 8 GET_CONNECTED | 1 OK | a byte 0 or 1 |
//! | 4 GET_DEVICE_ID | 1 OK | the id, of at most 1,000 bytes |
//! | 5 GET_STATE | 1 OK | a byte of [`state_bits`] |
//! | 6 SNMP_GET, 7 SNMP_GET_NEXT | 7 NOT_IMPLEMENTED | |
//! | 0 NONE, 9 to 255 | 5 BAD_MESSAGE | |
//! | any, with more than 2,048 bytes of data | 6 TOO_BIG | |
//!
//! The status and the data of a request are ignored. Only the packet FF 00 00 00 ends a session. It has no answer.
//!
//! # Promises
//!
//! `specs/` states them over lists of bytes. `Packets` defines packets and the first packet of some bytes (`front_of`), `SideAnswers` the
//! table (`answer_of`), `SideSessions` the joined answers and the ending (`session`), `Streams` the effect of a call on a reader and a
//! writer, and `SessionPieces` the rest of a session that is fed (`to_come`).
//!
//! - *ExactSession*: [`answer`] is `answer_of`. [`Packet::read`] returns the first packet, and leaves the bytes after it (`ReadsPacket`).
//!   [`Packet::write`] and [`Answer::write`] write a packet's bytes, or after an error a prefix of them (`WritesPacket`). [`serve`]
//!   writes the answers of `session` if it ends with End, Stopped or Cut, and a prefix of them after another error (`session`). It
//!   answers the whole packets among the bytes that it read (`answered`), and reads no byte after the end packet.
//! - *ExactSession*, in pieces: a new [`Session`] has `session` to come. [`Session::feed`] takes bytes up to the end of a request and
//!   returns its answer. Its answer and the new `to_come` together are the old `to_come` (`Feeds`). It returns the number of bytes that
//!   it took, so it stores no piece, and the answer borrows the device's id. [`Session::ending`] is the ending if no byte follows. So the
//!   answers and the ending are those of `session`, whatever the pieces: [`any_pieces`] states it for all pieces at once.
//! - A session ends as End at FF 00 00 00, as Stopped at the end of the bytes, and as Cut inside a packet.
//! - [`written_is_read`]: a packet that is written is read again, whatever follows. [`answers_are_joined`]: `session` contains the joined
//!   answers to the requests before the end packet, the end of the input or a truncated packet.
//! - A reader or a writer whose bytes are unknown is served in the same way. The clauses then state as much as is known.
//! - Each call returns. A session makes at most 1,048,576 reads, and [`Packet::read`] at most 4,294,967,295. If the reader has not ended
//!   by then, the call returns Read. An interrupted read or write is repeated, and counts.
//!
//! # Invariants
//!
//! 1. A packet's body has the stated length, or is empty if that is above 2,048.
//! 2. A device's id has at most 1,000 bytes, so each answer fits into a packet.
//! 3. A session that is fed stores fewer than the first four bytes of a request, or the number of bytes of its data that are missing
//!    (`IsHeld`).
//!
//! # Not proved
//!
//! - That Read and Write come only from a reader or a writer that failed. `Read` and `Write` of std do not state when they fail, so a
//!   clause could only repeat that the result is an error. A body of [`serve`] or [`Packet::read`] that returns such an error at once
//!   meets its clauses. The tests reject it: their readers and writers work, or fail as instructed.
//!
//! # Errors
//!
//! [`SideFault`] states why reading or writing stopped. After Read and Memory the bytes that were read contain no further whole packet.
//! After Cut the reader is at its end. Memory is allocated only for the data of a packet that stores them, at most 2,048 bytes, before
//! they are read. Longer data are skipped through a buffer on the stack. A session that is fed allocates nothing, and its only error is
//! Cut at its end.
#![tactic(auto)]

mod answers;
mod codes;
mod devices;
mod endings;
mod laws;
mod packets;
mod pieces;
mod replies;
mod sessions;
mod streams;

pub use answers::answer;
pub use codes::{Command, Status, state_bits};
pub use devices::{Device, DeviceId};
pub use endings::{Ending, SideFault};
pub use laws::{answers_are_joined, any_pieces, written_is_read};
pub use packets::Packet;
pub use pieces::{Fed, Session};
pub use replies::{Answer, AnswerBody};
pub use sessions::serve;
