//! Keeps the reserve of an engine's journal: which commands would take room from it, and a run that refuses them.
//!
//! `service_rules` defines the reserve and the decision over numbers. This crate reads the numbers from an engine and a command.
//! `spool_shell` serves its commands by [`serve_text`] if its arguments ask for it. `service_loop` makes the same decision for requests.
//!
//! # Model
//!
//! - `CommandRoom`: the bytes that a command needs at most (`command_cost`), and whether it would take them from the reserve
//!   (`takes_reserve`). Commands that create or close jobs, or send bytes, take room. All others may use the reserve.
//! - `ReservedRuns`: a run over a text (`IsReservedRun`). Each command is refused, and then its reply is `error full` and the run state
//!   stays as it was (`IsRefusedStep`), or the engine takes its step (`IsLetInStep`). `let_in` has the steps of the engine.
//!
//! # Promises
//!
//! - [`serve_text`] (`run`): a command is refused exactly if `takes_reserve` says so of the run state that it finds. The commands are those
//!   of the text, or after a fault the first of them, and the replies are written as in a run of `spool_engine`.
//! - [`refusals_change_nothing`]: without the refused commands the steps are those of an engine. So its laws of crashes, stages and replies
//!   hold for this run.
//! - [`takes_reserve`], [`command_cost`] and [`journal_of`] are exactly their definitions.
//!
//! # Not proved
//!
//! When a reply is written, as in `spool_engine`.
//!
//! # Errors
//!
//! [`serve_text`] fails as `Engine::run` does. A refusal is a reply, and the run continues.
//!
//! # Cost
//!
//! A decision reads three numbers of the engine. A text is read in pieces of at most 16,384 bytes.
#![tactic(auto)]

mod laws;
mod room;
mod serving;

pub use laws::refusals_change_nothing;
pub use room::{command_cost, journal_of, takes_reserve};
pub use serving::serve_text;
