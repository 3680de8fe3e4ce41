//! What a service records of the accepted events: what changed, when, and the lines of its log.
//!
//! The events carry no time, and a table has no history. A service records each event after the engine has accepted it, as a [`Deed`]: what
//! it did to a job or to a queue.
//!
//! - [`Changes`] has the last 4,096 changes of jobs and queues, each with a number, so that a client can ask what changed after one of them.
//! - [`Seen`] has the moments at which each job was created, closed, first started and ended, and at which the state of each queue changed
//!   last. What happened before the service was started is unknown, and no moment is guessed.
//! - [`push_job_event`], [`push_purge_event`] and [`push_queue_event`] append the line of the log about an event.
//!
//! # Promises
//!
//! - [`deed_of`] returns what an event does, by a table with one row for each event (`Deeds`, `deed_of`). [`JobDeed::moves_queue`] returns
//!   whether the event also changes how the job's queue is shown.
//! - *Changes* (`NumberedChanges`): [`Changes::note`] appends one change with the next number, and forgets the first one if there are 4,096
//!   (`with_change`). What changed after a number that is known ([`Changes::is_known`]) are exactly the kept changes from
//!   [`Changes::position_after`] on (`since`). If memory runs out for a name, all changes are forgotten, and no number that was given before
//!   is known (`HasNoted`, `forgotten`).
//! - *Times* (`SeenTimes`): [`Seen::see_job`] changes the times of its job by one event (`HasSeen`, `times_by`), and of no other. So the times
//!   of a job are the fold over its events ([`times_are_folds`]), unless memory ran out; then they stay unknown. A start is the first one only if it
//!   begins the job's first attempt. A purge removes the job.
//! - *Lines* (`EventLines`): `job_event_line` and `queue_event_line` define the texts. A user's name is one word without control characters
//!   (`clear_name`), so a name cannot imitate another line.
//!
//! # Not proved
//!
//! - Which events are recorded, and with which moment: see `service_loop`.
//!
//! # Errors
//!
//! Only out of memory. [`Changes::note`] and [`Seen::see_job`] do not fail: they are called after an event was accepted.
//!
//! # Cost
//!
//! A change takes no search. A time takes a search among the recorded jobs.
#![tactic(auto)]

mod changes;
mod deeds;
mod laws;
mod lines;
mod seen;

pub use changes::{Changes, GREATEST_CHANGE, Subject};
pub use deeds::{Deed, JobDeed, QueueDeed, deed_of};
pub use laws::times_are_folds;
pub use lines::{has_line, push_job_event, push_purge_event, push_queue_event};
pub use seen::{JobTimes, Seen};
