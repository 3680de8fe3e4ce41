//! The parts that the programs of a spool share: arguments, files, the folder, the children, the engine over a disk,
//! and the exit status.
//!
//! `spool_shell` serves the commands on standard input, by [`run`]. Another program, such as a service, uses the parts.
//! It owns a folder ([`SpoolFolder`]), reads the files of types, conversions and programs ([`read_rules`]), makes the
//! launcher of its children and their place ([`launcher_in`]), and opens an engine with them over the folder's disk
//! ([`open_folder_engine`]). It reports its end by `fault_causes`. The programs share the options in [`options`].
//!
//! Arguments: `[--root DIR] [--types FILE] [--convs FILE] [--programs FILE] [--size BYTES] [--reserve] [--devices] [--version]`
//! ([`read_words`]). With `--root` the spool is the file `DIR/spool.disk` ([`device`]), and otherwise a disk in memory
//! ([`memory_device`]). The files specify the types of documents, the filters that convert them, and the paths of
//! filters and backends ([`files`]). The stages of jobs run as child processes ([`launcher`]). Without a folder none
//! can be started. With `--devices` no spool is opened, and the program prints the devices that the backends report
//! ([`devices`]).
//!
//! # Promises
//!
//! - [`read_words`] returns what clap's definition of a simple command finds in the arguments, or the defaults (`root`,
//!   `types`, `convs`, `programs`, `size`, `reserve`, `devices`), each within its limits (`short_root`, `size_in_range`). It
//!   refuses the arguments exactly if clap finds an error or the root is too long (`taken`). A root that is too long is
//!   an invalid value (`mistake`).
//! - [`parse`] returns what clap finds in the arguments of any simple command (`found`, `taken`), and each value passes
//!   its option's parser (`pass`). [`number_given`] and [`flag_given`] return the value of an option. The programs
//!   share them and [`spool_command`]. [`text_option`] makes all options whose values are texts, so no such value is
//!   empty.
//! - A file that is not named counts as empty, and the fault of a file names it ([`read_rules`]). A fault of the folder
//!   is `memory` or `disk` (`IsOfFolder`).
//! - [`open_engine`] opens the spool of a disk. The engine has the table of the disk's bytes after the policy, holds no
//!   slot, and continues with the given rules, children and place (`IsOpened`). Otherwise the disk cannot be opened,
//!   and its bytes have this fault if the fault is one of bytes (`IsUnread`).
//! - [`open_folder_engine`] does the same over a folder's disk, which promises nothing about its bytes (`IsSetUp`). It
//!   fails only for a fault of the folder, of its file, or of the file's contents (`IsOfOpening`).
//! - [`serve`] opens the spool so, and ends as the engine's run does (`HasRun`), or as one that keeps the reserve
//!   (`serve_text` of `engine_reserve`). Ok means that all commands were served and the disk has not failed. A run whose
//!   disk failed answers all commands and ends with `disk`. If the disk cannot be opened, nothing is read or written
//!   (`IsUnopened`).
//! - [`memory_device`] is a spool with an empty table, of exactly the requested number of bytes.
//! - [`place_in`] is the place of the children: the folder, the locale `C`, the search path `/usr/bin:/bin`, and
//!   whether there is a side channel (`IsPlace`). With [`launcher_in`] there is one exactly if the list has a program
//!   that ends it (`place`).
//! - [`script::Call::command`] is `/bin/sh` without environment variables, with exactly the fixed script, the child's
//!   files, the side channel, the user, the limits, the variables, the program and its arguments, in this order
//!   (`arguments_of`). So nothing of a job is ever part of the script's text. The files and the folder are those of the
//!   order (`file_of`, `folder_of`, `ChildPaths::of`). The settings of the launcher and the order are passed on unchanged
//!   (`Launcher::call`).
//! - A program of a `root-backend` line has no user, and any other program may have each of the users (`users_for`).
//!   [`child_users::take_user`] returns none only if there are no users, an own user that is not the last, or the last
//!   one, shared (`IsUserOf`). [`prepare_users`] accepts neither root nor the user of the service (`fault_by`), and fails
//!   only for a user, the folder or memory (`fault`). Its command for a user is exact (`user_command_words`).
//! - [`Launcher`] looks up exactly the program that an order names (`program_for`) and refuses any other order
//!   (`unlisted`). It passes a document only by its name (`input_name`). It reports exactly the end in a child's
//!   status, and no other (`TellsEnd`, `TellsNoEnd`). `finish_of` returns this end with the bytes that were read of the
//!   two output files, and `read_at_most` reads the number of bytes that it may (`ReadsUpTo`). A new launcher has no
//!   users and the default limits (`users`, `limits`).
//! - The decisions about a failed start, a program's first bytes, output that may be cut off, and the reason of a
//!   failure are exactly as defined (`refusal_of`, `shortage_of`, `wants_room`, `begins_right` of `program_fitness`,
//!   `may_be_cut`, `whole`, `bad_end`, `says_why`, `reason_of`, `check_status`). `child_of` returns the child that the
//!   name of a left-over file shows. [`check_child_ends`] fails only if SIGCHLD is ignored or memory runs out
//!   (`IsOfEnds`).
//! - The starts of a round wait 40 times in all, for 50 ms each, and those of a tick never wait ([`shortage`]:
//!   `patient`, `may_wait`, `after_wait`).
//! - A client of a side channel that leaves its answers for more than two seconds is lost (`lost`, `kept` of `wait`), and
//!   no answer that it took is sent again (`all`, `part` of `pass`).
//! - [`NamedDisk`] is the spool's file as a disk that promises nothing about its bytes. It meets the trait `Disk`.
//! - [`side_device::device_of`] returns exactly the device of a URI's options, with their defaults (`device_in`,
//!   `device_for`). `answer_all` appends the answers to a client's bytes, or a prefix of them, to the earlier ones
//!   (`AnswersPiece`).
//! - [`device_lines::print_lines`] prints exactly the lines that parse as device lines, in order and unchanged
//!   (`ArePrinted`). [`print_devices`] prints those of each backend, once, in the order of the file (`PrintsTold`, for
//!   each `Discovery` whose output is known). Its command for a backend is `/usr/bin/env -i` with fixed arguments
//!   (`command_of`). The only errors are of writing and of memory (`IsOfPrinting`). If memory runs out for a line, the
//!   line is not printed (`IsUnprinted`).
//! - Each fault below is reported as it is (`from_gives` in [`fault`]).
//! - If the arguments cannot be used, the exit status is 2, or 0 if they ask for help, or 1 if memory ran out
//!   ([`report_words_fault`], [`no_words`]).
//! - [`LogLines`] is enabled for exactly the levels up to its own (`enables`).
//!
//! # Not proved
//!
//! - The launcher's calls of the system. A launcher that starts no child, knows no end, waits in each poll or always
//!   reports an end, or never has room for a start meets its clauses. `tests/test_children.py` shows that children are
//!   started, and that the script, the files and the sockets work.
//! - The output of a real backend, and that an answer on a side channel reaches the client's socket.
//! - That the launcher moves `first` on, and when it has room for fewer than four starts.
//! - That the side channel of exactly the job that has ended is closed.
//! - That a lock keeps a user for one child, what the script does, and that the system separates users.
//!   `tests/test_hostile.py`
//! - How long a poll and a start take: read in the code. A poll asks the system once. The starts of a round try again
//!   for two seconds in all. A start of a tick does not wait. `tests/test_service_children.py` shows that clients do
//!   not wait for a child.
//! - That [`NamedDisk`] reads and writes its bytes: a body that does nothing meets its clauses. `tests/test_children.py`
//!   shows that the file keeps its name.
//! - That no other program writes the spool's file. The program locks the folder and `spool.lock` in it before it opens
//!   any other file, and holds both locks until it ends. `tests/test_first_start.py` shows this for this program, and
//!   `tests/test_failover.py` over two hosts. A program that takes no lock is not excluded. Over several hosts this is as
//!   good as the locks of the file system, and a host that is cut off must be fenced.
//! - That `main` calls its helpers in their order.
//!
//! # Invariants
//!
//! A [`SpoolFolder`] owns its folder until the value is dropped. A child that was started is finished only by its
//! ticket ([`RunningChild`]), which waits for it.
//!
//! # Errors
//!
//! The program ends with status 0 at the end of input, with 1 after a fault, which it reports on standard error as
//! `spool: WORD` ([`fault`]), and with 2 if the arguments are refused, with clap's text. `--help` and `--version` end
//! with 0. Faults are searched in this order: arguments, signal, file of types, file of conversions, file of programs,
//! spool, commands.
//!
//! - `file NAME`: a file of types, conversions or programs cannot be read or is not UTF-8, or a line of the programs is
//!   invalid.
//! - `not-a-spool`, `damaged PLACE`: a fault of the spool's file, which is not changed.
//! - `disk`: the folder or the file cannot be opened, locked, made or synced ([`device`]), another program owns one of
//!   them, or the disk failed. If it fails during the run, this is reported at the end of input. A second line gives
//!   the cause ([`DiskCause`]). A device that failed while it was served has the cause `failed`.
//! - `sigchld-ignored`: a file of programs is named, but the ends of children cannot be known ([`begun`]).
//! - `children-user`: the children cannot run as the users that they should have ([`user_checks`]).
//! - `memory`: memory ran out. Everything that was acknowledged before stays.
//! - `socket`: the socket of a service cannot be made or waited on.
//! - `read`, `write`: standard input or standard output failed.
//!
//! A line of the files of types and conversions that cannot be read is skipped, and logged on standard error as
//! `spool: warning N KIND` ([`warnings`]). This is not a fault.
//!
//! A child that cannot be started, or whose end cannot be known, is not a fault of the program: its stage fails. The
//! cause is logged in a line `spool: job N ..` ([`reasons`]). A program that cannot be run as it is (`program_fitness`)
//! is logged in a line at the start ([`fitness`]).
//!
//! # Cost
//!
//! Reading a file of programs takes time that grows with the square of its lines.
#![tactic(auto)]

mod begun;
mod child_files;
mod child_users;
mod device;
mod device_lines;
mod devices;
mod ends;
mod fault;
mod files;
mod fitness;
mod launcher;
mod leftovers;
mod named_disk;
mod options;
mod ownership;
mod reasons;
mod running;
mod script;
mod serving;
mod sessions;
mod shell;
mod shortage;
mod side_device;
mod user_checks;
mod warnings;
mod words;

pub use begun::check_child_ends;
pub use child_users::{ChildLimits, ChildSettings, ChildUser};
pub use device::{SpoolFolder, new_file, remove_if_there};
pub use devices::{ChildDiscovery, Discovery, print_devices};
pub use ends::{given_words, no_words, report_words_fault};
pub use fault::{DiskCause, ShellFault};
pub use files::read_rules;
pub use fitness::log_programs;
pub use launcher::{Launcher, RunningChild, launcher_in};
pub use named_disk::NamedDisk;
pub use options::{
    DEFAULT_SIZE, GREATEST_SIZE, LEAST_SIZE, LONGEST_ROOT, WordsFault, flag_given, flag_option,
    long_root, mistake, number_given, number_option, parse, spool_command, text_option,
    words_fault,
};
pub use running::{open_folder_engine, run};
pub use serving::{memory_device, open_engine, place_in, serve};
pub use shell::{push_number, script_shell};
pub use user_checks::prepare_users;
pub use warnings::LogLines;
pub use words::{ShellWords, read_words};
