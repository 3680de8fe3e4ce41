//! What a queue shows of what its children said.
//!
//! The effects of a child's standard error (filter(7)) are folded into the row of its queue when its stage ends, and the row keeps them:
//! the reasons, the attributes and the message. So a `toner-empty-error` of one document, or a message with the title of a job, would be
//! shown for ever. This crate decides what a service shows of them. The table and the command `queues` of the engine have the row as it is.
//!
//! # Model
//!
//! `QueueSayings` defines what is shown. While an attempt runs in the queue and a stage of it has ended (`has_spoken`), all reasons are
//! shown. In the first stage of an attempt, and while none runs, the row has nothing of a running attempt: then only the reasons that begin
//! with `marker-` or `media-` are shown (`is_lasting`). Attributes are always shown. A message is shown only while an attempt has spoken,
//! and only to clients that see all titles.
//!
//! # Promises
//!
//! - [`has_spoken`] is the definition. It reads one job, that which is processing.
//! - [`push_shown_reasons`], [`shown_message`]: the reasons (`shown_reasons`) and the message (`shown_message`) as a client sees them.
//! - [`push_shown_queue`], [`push_shown_queues`], [`push_all_queues`]: the line of one queue, those of all queues, and the reply that lists
//!   them (`shown_queue_line`, `all_queues_shown`).
//! - [`ended_attempts_are_silent`]: a queue in which no attempt runs shows exactly its lasting reasons and no message.
//!   [`running_attempts_are_shown`]: while an attempt has spoken, everything is shown. [`lasting_reasons_stay`].
//! - [`messages_are_for_those_who_see_all`]: what another client is shown does not depend on the message.
//!
//! # Not proved
//!
//! - From the second stage of an attempt on, what earlier attempts left in the row is shown with what this one said. The row does not
//!   tell them apart.
//! - Reasons and attributes are shown to all clients. A child can put any word there.
//!
//! # Errors
//!
//! The only error is out of memory.
//!
//! # Cost
//!
//! A line takes time in its length. If an attempt has not spoken, the lasting reasons, at most 64, are copied.
#![tactic(auto)]

mod laws;
mod lines;
mod shown;

pub use laws::{
    ended_attempts_are_silent, lasting_reasons_stay, messages_are_for_those_who_see_all,
    running_attempts_are_shown,
};
pub use lines::{push_all_queues, push_shown_queue, push_shown_queues};
pub use shown::{has_spoken, push_shown_reasons, shown_message};
