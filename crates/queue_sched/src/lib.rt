//! The choice of the next job of a queue, and the waiting jobs that cannot be started in time.
//!
//! [`next_job`] chooses for one queue among the rows of all jobs, at a moment. An [`Index`] stores the waiting jobs of
//! one queue in order, and chooses among them. [`Deadlines`] stores the waiting jobs of a table that must start by a
//! moment, the earliest moment first.
//!
//! # The rule
//!
//! A job is *eligible* if it is a waiting job of the queue, no hold of it is in force, its not-before moment has
//! passed, and the queue is neither stopped nor has a processing job. One job *beats* another if only it is marked
//! first, else by the higher priority, else by the lower number. The *next* job is the eligible job that no other
//! eligible job beats. If no job is eligible, there is no next job.
//!
//! # Promises
//!
//! - *ExactChoice* for a queue: [`next_job`] returns the next job (`chosen`, by `IsNextJob`), and None exactly if no
//!   job is eligible (`none`). [`beats`] is the order of the rule (`beats_job`). Neither requires that the rows are
//!   sorted or that their numbers differ.
//! - [`order_law`]: the order is strict (`irreflexive`, `transitive`), and of two jobs with different numbers one beats
//!   the other (`connected`). So at most one next job exists (`only`), and a test of a single job (`next_in`)
//!   identifies it (`tested`). The test reads all jobs for each job that it tests, so programs call [`next_job`] or
//!   [`Index::next`] instead.
//! - *ExactChoice* by an index: [`Index::jobs`] yields the numbers of the entries (`numbers`), each of which comes
//!   before all later ones (`order`, by `InOrder`). [`Index::next`] is the first one that may be started (`chosen`,
//!   `none`). [`index_law`]: the order is that of the rule (`order`, `startable`). If the entries are those of a
//!   queue's waiting jobs (`IsIndexOf`) and the queue is free, the first one that may be started is the next job of the
//!   queue (`next`). If there is none, no job is eligible (`none`).
//! - The entries of an index are exactly those added and not removed: `items` of [`Index::insert`], [`Index::remove`]
//!   and [`Index::replace`]. [`Index::new`] has no entries, and [`Index::of_entries`] has the given ones.
//!   [`Index::advance`] changes only the moment (`items`). [`Index::len`] and [`Index::moment`] return its parts, and
//!   [`Index::entry`] the entry of a job (`found`, `absent`). [`Entry::of_job`] is the entry of a waiting job,
//!   [`Entry::goes_before`] the order, and [`Entry::is_startable`] whether the job may be started.
//! - [`Deadlines::first_before`] returns a job whose moment is before the given one (`found`), and None exactly if no
//!   deadline is (`none`). The deadlines are exactly those added and not removed: `items` of [`Deadlines::insert`],
//!   [`Deadlines::remove`] and [`Deadlines::of_items`]. [`Deadlines::new`] has none. [`Deadlines::len`] and
//!   [`Deadlines::room`] return its parts, and [`Deadlines::get`] the deadline at a position (`item`).
//!   [`Deadlines::count_before`] and [`Deadlines::count_until`] return how many are before a moment, or not after it
//!   (`before`, `behind`).
//!
//! # Not proved
//!
//! - That [`Index::of_entries`] is out of memory only if memory ran out: a body that always reports it meets its
//!   clauses. Tests refuse such a body.
//!
//! # Invariants
//!
//! Of an index:
//!
//! 1. The entries are in order. A removed entry keeps its slot, which is marked as gone. An entry that is added again
//!    with the same order takes its old slot.
//! 2. The entries that may be started now are in a second list of the same kind, in the same order. A hold or a release
//!    replaces the entry in its slot ([`Index::replace`]), and changes only the second list.
//! 3. Before the due moment no other entry may be started. If there is no due moment, no other entry ever may. So a
//!    moment before it changes no list.
//! 4. Each of the two lists has the room of the index, because all entries may become startable.
//! 5. In each list at most half of the slots are gone, and the first slot is not.
//!
//! Of deadlines:
//!
//! 1. Each deadline comes before all later ones: by the moment, and for the same moment by the number of the job
//!    (`InTurn`).
//! 2. The list has the room that it reports.
//!
//! # Errors
//!
//! Only [`Index::of_entries`], [`Index::reserve`] and [`Deadlines::reserve`] allocate, the last two only if room is
//! missing (`ready`). They fail if memory runs out. After an error of `reserve` nothing has changed (`same`). Nothing
//! else fails.
//!
//! # Cost
//!
//! - [`next_job`] reads each row at most twice and does not allocate.
//! - [`Index::next`] reads one entry. Adding and removing find the position by binary search. Adding moves the entries
//!   before it or after it, whichever are fewer. Removing moves none, and an entry with the same order is replaced in
//!   its slot. All gone slots are deleted in one pass when they outnumber the others, or when a new entry finds no free
//!   slot. Each list has 50 % more slots than its room, so either happens only after many removals, and a removal costs
//!   a few moves on average. [`Index::advance`] reads no entry if the moment is before the due one, and all entries
//!   otherwise. [`Index::of_entries`] sorts its entries once.
//! - [`Deadlines::first_before`] reads only the first deadline. Adding, removing and counting find the position by
//!   binary search. Adding and removing move the deadlines before it or after it, whichever are fewer.
//!   [`Deadlines::of_items`] sorts once.
#![tactic(auto)]

mod choice;
mod deadlines;
mod entry;
mod index;
mod jobs;
mod laws;
mod lists;
mod slots;
mod waiting_entries;

pub use choice::{beats, next_job};
pub use deadlines::{Deadline, Deadlines};
pub use entry::Entry;
pub use index::Index;
pub use jobs::Jobs;
pub use laws::{index_law, order_law};
