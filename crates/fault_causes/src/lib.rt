//! Why a program of a spool ends with status 1: the cause of its fault, for people.
//!
//! `spool_runtime` returns a fault as a word, such as `disk` or `file NAME`. [`report_end`] prints it as `spool: WORD`, and its cause on the
//! next line, `spool: cause: CAUSE`, if the cause is known: what failed, its path, the system's reason, and what to do if there is one thing
//! to do. The cause of a file or of a folder is found by a second look: it is opened and locked again as the program did, and the system's
//! reason is printed. Nothing is changed. The error of a standard stream is noted as it occurs ([`Noted`]), because a second look may find
//! another one.
//!
//! # Parts
//!
//! - [`GivenNames`]: the names that the arguments of a program give.
//! - [`disk`]: the causes of a disk. The word of the cause comes first, as in `spool: cause: owned: ..`.
//! - [`files`]: the causes of a file of types, conversions or programs. Of the programs file this is the first line that is rejected
//!   ([`lines`]).
//! - [`streams`]: standard input and output, which note why they fail. [`report_run`] prints the reason.
//! - [`versions`]: a spool in a version of the format that this program does not know.
//!
//! # Promises
//!
//! - [`report_end`] and [`report_run`] return status 0 after `Ok` and 1 after a fault (`ok`, `fault`).
//! - The line of a programs file is the first that is no list of programs alone or is about a program of an earlier line
//!   (`rejected_line`).
//! - A stream notes the last error of its calls that was not an interruption (`noted`), and reads and writes as before. A fault of a
//!   stream has the error of this stream (`stream_error`), and its sentence is exactly that of a table with the reason (`stream_cause`).
//! - The sentences about a spool's file and the standard streams are exactly a table (`plain_cause`), and so are those about a folder if the
//!   second look finds nothing (`usual_reason`), and about a rejected line (`line_reason`). A missing `spool.disk` is a cause exactly if
//!   the word is `absent` (`is_cause`). The areas of a file begin at its first byte and at its half (`is_header`), and the versions that
//!   `spool_areas` does not read are unknown (`unknown_version`).
//!
//! # Not proved
//!
//! - The findings of a second look, and that [`Noted`] notes each call: `tests/test_faults.py` shows both.
//! - The file may have changed between the two looks. Then the cause is left out, or is that of the changed file.
//!
//! # Errors
//!
//! If memory runs out, the cause of a disk is its word alone, and other causes are left out.
//!
//! # Cost
//!
//! The first line that is rejected is found in time quadratic in the number of lines.
#![tactic(auto)]

mod causes;
mod disk;
mod files;
mod lines;
mod report;
mod streams;
mod versions;

pub use causes::GivenNames;
pub use report::{report_end, report_fault, report_run};
pub use streams::{Noted, StreamErrors};
