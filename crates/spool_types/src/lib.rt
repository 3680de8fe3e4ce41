//! The data types of the spooler: texts, numbers, rows, phases, effects, events, replies, refusals, warnings and versions.
//!
//! All other crates use these types. A type states the limits of a single value; `IsLegal` of `job_table` states all other
//! conditions of a legal table. A text ([`Text`]) passes the test of its kind, a number ([`Ranged`], [`JobId`], [`Moment`]) is in
//! its range, and a list ([`Items`]) has at most the number of items that its type states. Each kind of text, for example a queue
//! name, a user name, a title or a URI, is a `Text<K>`. A further kind needs a type with one function and one definition.
//!
//! In a contract a text is the list of its bytes, a number is a number, and a list is a list. So a row or an event in a contract
//! is the same record as in the code.
//!
//! `specs/` has the definitions that the other crates share:
//!
//! - `Values`, `Limits`: the bytes that texts may contain, and the maximum of each number and count.
//! - `Effects`: the effects that one stage may have, and the size of their codes.
//! - `Phases`: which phases have ended, which hold is in force, and how a job is shown.
//! - `State`: a table of queues and jobs, and the version of the area that contains it. `Busy`: whether a job of a queue is
//!   processing.
//! - `Sent`: the bytes of documents. They are not part of a table: events send them, and rows have them as pieces.
//! - `Refusals`, `Warnings`: the numbers and names of refusals, and the names of the kinds of warnings.
//!
//! `job_table` defines how an event changes a table, `backend_codes` what happens to a job after its child ends, and
//! `queue_sched` which job is next.
//!
//! # Types
//!
//! - A [`Job`] has the fields of a job. A [`JobRow`] of the table is a `Job` and the extents of its document; a row of a listing
//!   is the `Job` alone.
//! - `JobRow::document` is a `Vec<Extent>`, not `Items`, because a contract must see its capacity: `commit` of `job_table`
//!   allocates nothing.
//! - The attempt and the stage of a `Stage` event have types of their own ([`AttemptNumber`], [`StageNumber`]), so every event
//!   has a spelling (`event_codec`).
//!
//! # Promises
//!
//! - [`JobId::new`], [`Moment::new`], [`Moment::plus`], [`Ranged::new`], [`Items::new`], [`Text::read`] and [`MediaType::read`]
//!   accept exactly the values that their clauses name.
//! - [`MediaType::read`] converts capitals to lower case (`value`). `MediaName::read` accepts lower case only.
//!
//! # Errors
//!
//! Memory can run out only while a value is copied. Then nothing has changed.
#![tactic(auto)]

mod effect;
mod effects;
mod event;
mod items;
mod kinds;
mod limits;
mod listing;
mod media;
mod numbers;
mod phase;
mod ranged;
mod refusal;
mod rows;
mod text;
mod version;
mod warning;

pub use effect::{Attribute, Effect, Exit, Level};
pub use effects::Effects;
pub use event::{Closing, Event, NewJob, NewQueue, QueueNotes, Reply, StageEnd};
pub use extents::Extent;
pub use items::{Attributes, Filters, Items, Piece, Reasons, Words};
pub use kinds::{
    AttributeName, AttributeNameKind, FileName, FileNameKind, FilterName, FilterNameKind, Message,
    MessageKind, Note, NoteKind, OptionText, OptionTextKind, QueueName, QueueNameKind, Reason,
    ReasonKind, Title, TitleKind, Uri, UriKind, UserName, UserNameKind,
};
pub use limits::{LONGEST_DOCUMENT, LONGEST_SEND, MOST_KEPT, MOST_QUEUES};
pub use listing::{Head, Row};
pub use media::{MediaName, MediaType, MediaTypeKind};
pub use numbers::{JobId, Moment};
pub use phase::{AbortReason, Hold, HoldReason, Phase, Policy};
pub use ranged::{AttemptNumber, Copies, Interval, Priority, Ranged, StageNumber};
pub use refusal::Refusal;
pub use rows::{Job, JobRow, QueueRow, is_busy};
pub use text::{Text, TextFault, TextKind};
pub use version::Version;
pub use warning::{Warning, WarningKind};
