//! Reads the command lines of `spool`, and those of the programs of CUPS: `lp`, `lpr`, `lpstat`, `cancel`, `lpq`, `lprm`, `lpoptions`,
//! `lpmove`, `cupsenable`, `cupsdisable`, `cupsaccept` and `cupsreject`.
//!
//! The first arguments determine the form of a command line. Called by the name of a program of CUPS, the form is that program. By any other
//! name the program is `spool`, and its first argument is a task, or `queue` followed by an action on a queue.
//!
//! Each form has its own clap command, and so its own help and its own contract. The command reads the arguments from the last one that
//! selects the form, so options follow the task. The programs of CUPS take the options that they have there, so that scripts run unchanged.
//! Those without an effect are ignored, as their help says. Those that ask for what the service cannot do are refused with the reason.
//!
//! # Promises
//!
//! - The form is a function of the arguments (`form_in` in `specs/Forms`), which `form_of` computes. A program's name is the part after
//!   the last slash of its path.
//! - [`read_words`] (`asked`): returns the task that the values ask for that clap finds by the form's command (`IsAsked`). `Apps` defines
//!   these commands in clap's terms. `AskedTasks` defines the meaning of the values of each form: the jobs, queues and numbers, and the
//!   defaults of options that are not given.
//! - [`read_words`] (`taken`): refuses the arguments exactly if clap finds an error in them or their values fit no task (`Fit`): a number
//!   is out of its range, a moment or a job is invalid, or two arguments exclude each other. Memory may run out in any case. Arguments
//!   without a known task, and requests for help or the version, are always refused.
//! - [`words_status`]: the exit status of refused arguments: 2 for `spool`, and 1 for a program of CUPS, as there.
//! - A number consists of decimal digits only. A moment is digits (seconds since 1970), or `+` and digits (seconds from now): clap's own
//!   numbers would accept `+60` as 60, which is a moment in 1970. A job is its number, alone or after the last hyphen.
//!
//! # Not proved
//!
//! - The texts of help, the version and errors, which clap formats.
//!
//! # Errors
//!
//! [`WordsFault::Refused`] contains the text to print: clap's own error, or an error of the same type that names the invalid value. Its
//! exit status is 0 for help and the version, and else that of [`words_status`]. [`WordsFault::Memory`]: out of memory.
#![tactic(auto)]

mod asked;
mod commands;
mod fault;
mod forms;
mod given;
mod options;
mod parameters;
mod plain_acts;
mod programs;
mod reading;
mod tables;
mod words;

pub use asked::{
    Asked, Clear, Hold, JobAct, Lpq, Lpstat, Moment, NewQueue, PageFile, QueueAct, Removal, Saying,
    Status, Submission, Task, Which,
};
pub use fault::WordsFault;
pub use plain_acts::PlainAct;
pub use words::{read_words, words_status};
