//! The decisions of a service: which clients are connected and served, how long the service waits, which time it has, when it sends its
//! engine the time, and when it purges jobs and makes checkpoints.
//!
//! Moments, counts and sizes are arguments, so this crate knows no socket, clock or process. `service_loop` calls these functions.
//!
//! # Promises
//!
//! - [`admit`]: a new client gets a free place exactly if fewer clients are connected than the service has places; otherwise the place of
//!   the client that was heard least recently, if that was at least 10 s ago; otherwise it is rejected (`IsAdmission`, `IsFirstToGo`).
//!   [`first_to_go`] returns that client. A client that listens (it waits for something to be sent, and has taken all that was sent) is not
//!   idle (`is_idle`). A client that does not read its replies is not served further, so it becomes idle.
//!   [`clients_that_are_not_idle_stay`]: no new client replaces a client that is not idle.
//! - [`may_listen`]: one more client may wait or watch exactly if the others that do so have fewer than three quarters of the places
//!   ([`most_listeners`]), and those of its user fewer than half of these, rounded up ([`user_share`]). Operators have no such share.
//!   [`listeners_leave_places`]: so clients that listen never fill all places, and no user has more than its share, in whatever order
//!   clients begin and end.
//! - [`is_served_on`]: a request of a client is served exactly if fewer than 32 of its requests were served in this turn and fewer than
//!   65,536 bytes of its replies are unread.
//! - [`next_look`]: the pause before the next check of the children is one sixteenth of the time that the youngest child has run, from 0.05
//!   ms to 64 ms; none exactly if no child runs. A child that is alone is first checked after fifteen sixteenths of the time that the
//!   previous child ran, or after 2 ms, whichever is earlier.
//! - [`ends_are_seen_soon`]: so a child's end is seen after at most one sixteenth of the time that it ran, or 0.05 ms, or at its first
//!   check.
//! - [`poll_wait`]: the earlier of the next check and the clock. [`pause_for`]: splits a wait into a nap and a poll, together at most as
//!   long as the wait.
//! - [`ServiceTime`]: the time of the service. It begins with the system's clock, or with the table's moment if that is later. At each
//!   later reading it is the last time and what the steady clock has counted since, or the table's moment if that is later (`base_of`); or
//!   the system's clock, if this is ahead of that by at most a day, or by more for the last ten minutes (`read`). [`time_goes_on`]: so over
//!   any list of readings it never falls (`on`); an interval is over once the steady clock has counted it (`over`); it is not before the
//!   table's moment (`table`); and a clock that is more than a day ahead for less than ten minutes changes nothing (`held`).
//! - [`is_news`]: whether the system's clock agrees with that time ([`clock_state`]) is logged if this has changed since the last line
//!   about it, at least a minute ago.
//! - [`clock_to_announce`]: the second of the service's time exactly if something is due, the table's moment is earlier, and no clock was
//!   sent in that second (`forward`, `later`). The due moment is an argument; if it is too early, a Clock is applied without effect. A Clock
//!   that was refused as Full is sent again one second later.
//! - [`clock_wait`]: the time until then. The wait is over exactly if a clock must be sent (`over`), since the service would loop
//!   otherwise. A wait ends after at most one minute, since a poll does not notice that the system's clock was set or the machine slept.
//! - [`is_wanted`]: a checkpoint is wanted if less room is free than requested or an event was answered Full; and something was written
//!   after the last checkpoint, or that one failed; and the last one took at most a tenth of the time since it. A journal of no bytes is
//!   never short. [`room_in`]: the share is of the room that the last checkpoint left, before the first one of the area.
//!   [`checkpoints_cost_little`]: so checkpoints take at most one eleventh of the time.
//! - [`purge_count`]: the number of ended jobs beyond those to retain, at most 8 a turn. [`jobs_to_purge`]: the first jobs of a list that
//!   have ended and have no running child. The list begins where its caller chooses. [`swept_to`]: a job number; jobs up to it need no
//!   further check. [`swept_jobs_are_skipped`]: above it are exactly the jobs still to check. The caller remembers this number, and lowers
//!   it if a job below it ends.
//! - [`clock_for_retry`]: while a stage runs whose end may lead to a retry, the system's second exactly if the table's moment is earlier and no
//!   clock was sent in that second (`fresh`). So the interval of the retry counts from this second. Otherwise none (`idle`).
//! - [`is_let_in`]: an event that takes room is let in exactly if the reserve is free after it: 64 KiB, or a hundredth of a large area, or a
//!   quarter of a small one ([`reserve_of`]), and the bytes by which a checkpoint may be longer than the records.
//!   [`events_keep_the_reserve`]: so after each event a checkpoint leaves the reserve free. [`jobs_can_be_removed`]: while it does, any jobs
//!   can be canceled and purged one after the other, and what they have freed is let in again.
//! - [`document_room`]: the longest document that is let in, with its job. [`documents_fit`]: its sends need no more than they may.
//! - [`abandoned_until`]: an incoming job whose client has disconnected is abandoned exactly if nothing was sent to it for the limit
//!   (`abandoned`). [`next_check`]: when this is checked next, at most once a second. [`abandoned_jobs_are_found`]: until then no job is abandoned
//!   for more than a second. [`check_wait`]: the time until then.
//! - [`bounds::defaults`]: 32 children, 256 clients, a quarter of the room, 500 ended jobs, 900 seconds for incoming jobs (`children`,
//!   `clients`, `room`, `kept`, `incoming`).
//!
//! # Not proved
//!
//! - That the service calls these functions with the right values at the right moments: see `service_loop`.
//!
//! # Errors
//!
//! No call fails or allocates.
//!
//! # Cost
//!
//! [`admit`] reads each client once if no place is free. [`jobs_to_purge`] reads its jobs up to the last one that it returns, or all if it
//! returns fewer than requested. All others read a few numbers.
#![tactic(auto)]

pub mod bounds;
mod checkpoints;
mod clock_news;
mod clocks;
mod incoming;
mod listening;
mod looks;
mod purges;
mod reserve;
mod service_time;
mod slots;
mod turns;

pub use checkpoints::{Checkpoint, Room, checkpoints_cost_little, is_wanted, room_in};
pub use clock_news::{ClockState, News, clock_state, is_news};
pub use clocks::{Clocks, clock_for_retry, clock_to_announce, clock_wait};
pub use incoming::{abandoned_jobs_are_found, abandoned_until, check_wait, next_check};
pub use listening::{Listening, listeners_leave_places, may_listen, most_listeners, user_share};
pub use looks::{Pause, ends_are_seen_soon, next_look, pause_for, poll_wait};
pub use purges::{Candidate, Purges, jobs_to_purge, purge_count, swept_jobs_are_skipped, swept_to};
pub use reserve::{
    Journal, close_cost, create_cost, document_room, documents_fit, events_keep_the_reserve,
    is_let_in, jobs_can_be_removed, reserve_of, send_cost,
};
pub use service_time::{Reading, ServiceTime, time_goes_on};
pub use slots::{Admission, Client, admit, clients_that_are_not_idle_stay, first_to_go};
pub use turns::is_served_on;
