//! Chains of programs that are joined by pipes: the filters of a document, and the backend that sends their output to the printer while they
//! write it.
//!
//! A stage of a job is a program whose output is kept until it has ended, within the limit of a document. A raster of a page is often longer.
//! So a backend that is a chain runs the last filters of a document and the real backend at the same time, and nothing is kept between them.
//!
//! # The file of a chain
//!
//! It has the form of the programs file (`program_lists`): its lines `filter NAME PATH [WORD]` are the filters of the chain, in order, and
//! its only line `backend NAME PATH [WORD]` is the real backend. A chain has neither `root-backend` nor `side`.
//!
//! # The programs
//!
//! All programs are started before one of them is waited for. The first reads the input of the chain, each other reads the output of the one
//! before it, and all report on the standard error of the chain. Each gets its WORD and the arguments of the job; only the first gets the name
//! of the document's file, because only it makes the copies (filter(7)). In their variable DEVICE_URI the scheme is the name of the backend.
//!
//! # The end
//!
//! | The backend | The filters | Status |
//! |---|---|---|
//! | exits with 0 | all exit with 0 | 0 |
//! | exits with 0 | one fails | 1 |
//! | exits with another status | any | that status |
//! | is killed by a signal, or nobody knows how it ended | any | 1 |
//!
//! A filter that fails may have written a part of its output before, which the backend has sent. So after status 1 the document may be printed
//! in part, and the error policy of the queue decides.
//!
//! # Promises
//!
//! - [`chain_of`] returns the chain of a list exactly if it is one (`chain_in`).
//! - [`program_command`] is the command of a program: its path, its word, and all arguments of the job or the first five of them
//!   (`command_words`). [`backend_uri`] is the variable DEVICE_URI.
//! - [`run_chain`] returns the end of each filter, in order, and that of the backend.
//! - [`chain_status`] is exactly the table above. A chain that exits with 0 has a backend and filters that all did (`printed`).
//! - [`report_of`] has a line for each program, in order.
//! - [`ended_by`] takes a program to have exited with 0 only if the system says so.
//!
//! # Not proved
//!
//! - That `run_chain` starts each program of the chain with its command and joins them, and that the ends are theirs: tests show it.
//!
//! # Errors
//!
//! A program that cannot be started ([`ChainFault`]). The programs before it are killed. The backend is started last, so it has not run then.
#![tactic(auto)]

mod chain;
mod command;
mod ends;
mod running;

pub use chain::{Chain, chain_of};
pub use command::{backend_uri, program_command};
pub use ends::{ChainEnd, Ended, FilterEnd, chain_status, ended_by, report_of};
pub use running::{ChainFault, Print, run_chain};
