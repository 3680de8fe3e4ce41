//! The effects of a child's standard error on its job's pages and on its queue.
//!
//! A filter or a backend reports its status on standard error (filter(7)). `stderr_lines` reads these lines as a list
//! of effects. When the child's stage ends, this crate folds the effects in order:
//!
//! - [`pages_after`] returns the pages of the job.
//! - [`fold_queue`] changes the reasons (printer-state-reasons, RFC 8011), the attributes and the message of the queue.
//!
//! The table of jobs changes a row only when nothing can fail any more. So the memory for effects is reserved before,
//! in a [`Spare`].
//!
//! # Effects
//!
//! The definitions in `specs/` state what effects do:
//!
//! - `EffectFold`: one row for each effect, for the pages, the reasons, the attributes and the message; the fold of
//!   many effects. Reasons, attributes and message change independently of one another, so `queue_after` folds the
//!   effects into each of the three.
//! - `QueueReasons`, `QueueAttributes`: the changes of reasons and of attributes. A queue has at most 64 of each. A
//!   further new reason or name is dropped, but an existing name always gets its new value.
//! - `Keys`: lists in ascending order of their keys, as both are. `Room`: the reserved memory.
//!
//! # Promises
//!
//! - *ExactEffects*: [`pages_after`] and [`fold_queue`] are exactly the fold of the effects, in order (`pages_after`;
//!   `row`, by `queue_after`). They cannot fail and do not allocate: words, names, values and texts are moved out of
//!   the effects, and the lists grow in the room of the `Spare`, which does not increase (`reasons`, `attributes`).
//! - [`Spare::reserve`] reserves the room that the effects need (`room`, by `HasRoom`), and allocates only if room is
//!   missing (`ready`). [`Spare::new`] has no room.
//! - [`effects_come_in_turn`]: folding a list of effects is folding its parts in order (`queue`, `pages`), the last
//!   message is stored (`message`), and nothing else of the queue changes (`others`).
//! - [`queues_stay_in_order`]: reasons and attributes stay in ascending order, without duplicates, at most 64 of each
//!   (`begins`, `stays`, by `IsInOrder`).
//! - [`reasons_are_kept`]: the reasons of a queue after words are added, set or dropped (`added`, `set`, `dropped`).
//!   [`attributes_are_set`]: the value of a name (`replaced`, `added`, `full`, `others`). [`pages_add_up`]: the pages
//!   of a job (`total`, `sum`).
//!
//! # Invariants
//!
//! 1. Both lists of a `Spare` are empty; only their room counts.
//! 2. While effects that may add to a list are folded, that list of the queue is in a vector with room for 64: its own,
//!    or the spare one, which is exchanged for it. So a list is moved at most once.
//! 3. Both lists are in ascending order after each effect, so a word or a name is found by binary search.
//!
//! # Errors
//!
//! [`Spare::reserve`] fails if memory runs out. The memory reserved before is kept. Nothing else fails.
#![tactic(auto)]

mod changes;
mod draft;
mod laws;
mod pages;
mod queue;
mod spare;

pub use laws::{
    attributes_are_set, effects_come_in_turn, pages_add_up, queues_stay_in_order, reasons_are_kept,
};
pub use pages::pages_after;
pub use queue::fold_queue;
pub use spare::Spare;
