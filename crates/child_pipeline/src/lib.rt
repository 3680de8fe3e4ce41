//! Children: the orders that start filters and backends, the results of their ends, and the slots of the jobs' stages.
//!
//! A job's filters and its backend are its stages. Each stage is run by a child: [`Children`] starts it by an [`Order`] and waits for its
//! [`Finish`]. [`Runner`] has a slot for each job with an attempt in progress. The slot retains what must outlast a call: the output of a
//! stage until the next stage is started, a child's ticket until the child is finished, and the finish until its event is in the journal.
//!
//! The slot of an attempt passes through these steps; `specs/StageSlots.antt` defines each as a change of a finite map:
//!
//! 1. [`Runner::begin`] reserves it for the first stage.
//! 2. [`Runner::start_stage`] passes the stage's child its input, or stores the finish NoStart if the child could not be started.
//! 3. [`Runner::finish_stage`] waits for the child, stores its finish, and returns the event of its end. If the event ran out of memory or
//!    was not accepted, the call is repeated and returns the same event, without a second child.
//! 4. [`Runner::advance`] turns the output into the input of the next stage, or [`Runner::release`] frees the slot.
//!
//! # Promises
//!
//! - *RightInput, one stage*: [`Runner::start_stage`] makes at most one start, with exactly the stage's order (`order_in`) and with the
//!   document passed in, or the output that the slot holds. It requires that slot and row agree on attempt and stage (`IsDue`): the
//!   environment is made from the row, and the rest of the order from the slot. [`Runner::begin`] reserves a slot for a first stage only; a
//!   later stage without its slot cannot be started, since its input is missing. [`Runner::advance`] moves to the next stage, whose slot
//!   holds exactly the output of the previous one. The law [`right_input`] joins them: the input is the document in the first stage, and
//!   later the output of the previous stage in the same attempt.
//! - *EachFinishedOnce, one child*: after `start_stage` the slot has the child's number exactly if the child was started, otherwise the
//!   finish NoStart (`StartsStage`); if memory ran out nothing was started. [`Runner::finish_stage`] finishes the child of a slot and
//!   stores its finish; if the finish is already stored it changes nothing, also if memory runs out (`finishes`, `ended`, `FinishesStage`).
//!   [`Runner::release`] and `begin` free only a slot without a running child (`ticketless`). The law [`tickets_stay`] joins them: the
//!   slots have exactly the tickets of the running children, each in one slot, and each started child runs or was finished once.
//! - `finish_stage` returns exactly the event of the stored finish (`end`): its exit, and the effects of the first 1,048,576 bytes of
//!   standard error (`end_of`). The finish is stored as it came and the event is made from it at each call, so a call that runs out of
//!   memory loses nothing. A child with more than 16,777,216 bytes of output, or whose end is unknown, is Lost; such output is released at
//!   once, and the standard error stays.
//! - [`Runner::is_due`], [`Runner::is_reporting`], [`Runner::has_next`] and [`Runner::is_running`] are exact. [`Runner::group_of`] returns
//!   the process group of the job's child, if one runs (`some`, `none`, `group`, by [`Children::group`]). [`Runner::slot`] and
//!   [`Runner::next_job`] iterate over the slots, in ascending order of job number.
//! - [`Runner::has_ended`] returns the next answer of the checks, does not wait, and leaves the slots unchanged (`slots`, `looks`).
//!   [`Children::start_room`] changes nothing in the trace, and nothing bounds the starts of children that report (`told`, `always`); other
//!   children say how many may be started (`rooms`, `answer`).
//! - [`MemChildren::new`] reports its three lists, and its `start`, `finish` and `has_ended` answer from them. It reserves an order and a
//!   number for each answer of `start`, so `start` and `finish` do not allocate. A start after the end of the list is an error and records
//!   no order; a check after the end of the list reports that the child has ended. A child of [`NoChildren`] never starts.
//! - A child's order has the name of the job's queue and its URI, the program (a filter, or the backend named by the scheme of the URI),
//!   the job's arguments, in stage 1 with the document's path, and the stage's environment (`Orders`). `words`, `environment` and
//!   `ChildFile::path` of `filter_args` are the parts. The definitions use the table's `Job`, not its row, so that the definition of a
//!   whole run can cite them.
//!
//! # Invariants
//!
//! - A ticket is tied to its order by a number, the position among the orders. `finish` promises something only for a number that is
//!   running. No call of [`Children`] has a `requires`, since a launcher could not check it.
//! - Children that do not report their calls (`tells` is `None`) promise only that they never report. One trait serves both kinds.
//! - The slots are in a slab, with a map from job number to slab key (`RunnerFields`). Callers see a finite map. Only `new`, `slot`,
//!   `next_job`, `exchange`, `insert` and `release` use the two fields. `exchange` cannot fail and does not allocate, nor does `next_job`.
//! - [`Content`], [`Texts`] and [`Scheme`] wrap a `Vec` or a `String` without allocating. Clauses see them as lists, so two orders are
//!   compared by `≡`.
//!
//! # Not proved
//!
//! - That a ticket is not used twice: it is passed by value, and Rust copies none. That an output becomes the next input without a copy is
//!   read in the code.
//! - What real children do: clauses on the children's trace (`ChildTrace`) are about children that report their calls, as [`MemChildren`]
//!   does. The launcher of `spool_runtime` reports nothing.
//!
//! # Errors
//!
//! A child that could not be started is no error: its stage ends with NoStart. The only error is out of memory, and it loses nothing: after
//! `begin` and `start_stage` all is as before, and after `finish_stage` the finish is in its slot.
#![tactic(auto)]

mod children;
mod laws;
mod memory;
mod none;
mod order;
mod orders;
mod reports;
mod runner;
mod texts;

pub use children::Children;
pub use laws::{right_input, tickets_stay};
pub use memory::{MemChildren, MemTicket};
pub use none::{NoChildren, NoTicket};
pub use order::{ChildFault, Finish, Input, Order, Placed, Program};
pub use runner::{Progress, Runner, Slot};
pub use texts::{Content, Scheme, Texts};
