//! The spelling of messages of the Internet Printing Protocol (RFC 8010).
//!
//! `specs/MessageSpelling` defines the octets of a message (`message_spelling`, RFC 8010, 3.1) and which messages have a spelling
//! (`IsMessage`): each value is within the limits of its syntax (`IsValue`, in `specs/Octets`), each attribute has a name and a
//! value, and each collection is whole and in at most 7 others (`AreWhole`, in `specs/Collections`). `Spells m octets` means both.
//! `specs/Reading` defines how octets are read from left to right, up to the first fault.
//!
//! # Promises
//!
//! - [`decode`] returns a message and the number of its octets only if these octets spell it (`sound`) and it is within the limits:
//!   65,536 octets (`short`) and 4,096 values and marks (`few`). It returns each such message from its spelling, whatever follows
//!   (`complete`). It never looks at the octets after it. From other octets it returns the first fault from the left (`exact`, by
//!   `reading`).
//! - A fault other than `NeedMore` remains the fault when more octets follow (`lasting`). After `NeedMore` more octets can complete a
//!   message, except that octets of a last name or value, which has not arrived whole, are not examined (`unfinished`, by
//!   `CanComplete`).
//! - [`encode`] returns the spelling of its message (`spelled`), and refuses one that has none (`malformed`).
//! - [`decode_reads_what_encode_writes`]: the spelling of a message, followed by a document, is read as that message.
//! - [`one_message`]: octets spell at most one message.
//!
//! # Errors
//!
//! [`DecodeFault`] names the faults of octets. `NeedMore` is returned only for fewer than 65,536 octets that end within the message.
//! Each octet of a length is examined as it arrives, the octets of a name or a value after all of them have. The values are counted
//! at the end. A version, a code or a request-id is never a fault: the requests are examined above.
//!
//! # Cost
//!
//! Decoding and encoding are linear. Decoding copies each name and each value once.
#![tactic(auto)]

mod counts;
mod fault;
mod laws;
mod place;
mod reading;
mod values;
mod writing;

pub use fault::{DecodeFault, EncodeFault};
pub use laws::{decode_reads_what_encode_writes, one_message};
pub use reading::decode;
pub use writing::encode;
