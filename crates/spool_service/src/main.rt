//! The service: serves a print spool to the clients of a Unix socket while children run.
//!
//! Arguments: `--root DIR [--listen SOCKET] [--mode MODE] [--trust TRUST] [--show-all] [--operators GROUP] [--operators-socket SOCKET]
//! [--proofs FOLDER] [--types FILE] [--convs FILE] [--programs FILE] [--size BYTES] [--keep N] [--room PERCENT] [--children N] [--clients N]
//! [--incoming SECONDS] [--children-user USERS] [--child-memory MIB] [--child-processes N] [--child-file-size MIB] [--child-open-files N]
//! [--quiet] [--verbose]`, or `--help` or `--version` ([`words`]).
//!
//! # Parts
//!
//! `service_loop` contains the loop, which knows no socket, clock or process. This crate implements its traits:
//!
//! - [`words`]: the arguments. The program requires `--root`, not clap, because `spool_shell` shares the option. MODE is read as Rust reads
//!   octal digits, so it may begin with a plus sign.
//! - [`child_words`]: the arguments about children. [`child_users`]: the users of their names, by [`lookups`]. `spool_runtime` tries the users
//!   and starts children as them.
//! - [`start`]: opens the empty device in place of missing standard streams, takes the folder's locks, then opens the spool, and creates
//!   the sockets last. So a `spool.sock` that exists then was left by a killed service.
//! - [`names`]: removes a socket that no program serves, so that its name is free. Any other holder of the name is an error.
//! - [`listening`]: creates the sockets and the folder of proofs, and finds the group of operators.
//! - [`socket`]: the listening sockets and the clients' connections. A token is the key of a client plus two, because the listening sockets
//!   have the tokens 0 and 1. The readiness of a wait is taken in reverse order; no order is promised. Clients of the operators' socket are
//!   accepted first.
//! - [`proving`]: the folder in which clients prove who they are. `user_proofs` decides by what the system reports.
//! - [`lookups`]: names and groups of users, by getent(1) and id(1). The loop waits for them, two seconds each at most.
//! - [`clocks`]: the steady clock, and the time of the service, which starts at the table's moment if the system's clock is before it. What
//!   the system's clock does is logged.
//! - [`kills`]: signals to children that must end. `/bin/sh` sends them. It has no variables, and `cat` is named by its path, so the result
//!   does not depend on who started the service.
//!
//! # Promises
//!
//! - `read_words` returns what clap finds in the arguments, and the default of each missing option (`asked`, `IsMode`), within their limits
//!   (`in_range`). It refuses the arguments exactly if clap finds an error, DIR is missing or too long, MODE is not an octal number up to
//!   777, TRUST is neither `all` nor `none`, or the values about children do not fit (`taken`); all but the first end with status 2
//!   (`mistake`). With users of children DIR must be absolute, and without them there is no limit of processes (`children_fit`).
//! - The limits of a child are those of the arguments in their units, and 0 is no limit (`child_limits`). The users and the limits are passed
//!   on unchanged (`settings_of`).
//! - Without TRUST, each client is trusted exactly if the mode is 0600 or 0660 (`SaysTrust`).
//! - The socket is SOCKET, or `spool.sock` in DIR (`socket_name`), the folder of proofs is FOLDER, or `proof` in DIR (`proofs_name`), and
//!   the disk is `spool.disk` in DIR (`disk_name`). The operators' socket has the permissions 0660 if it has the group of the arguments,
//!   and otherwise 0600 (`operators_mode`). Before the first checkpoint PERCENT refers to half of the disk (`keeping_of`).
//! - A connection has the rules of its listener, and whether it came by the operators' socket (`has_socket`, for each accept). A proof
//!   makes an operator of a client of that socket, or of an operator (`proved_by`).
//! - The programs that look up users are run by timeout(1), without variables, with exactly the arguments of `user_words`, `numbers_words`,
//!   `groups_words` and `group_words`. So no name is an option or part of a script.
//! - `SocketListener::wait` reports the readiness of each event that the system found (`push_readiness`, `readiness_of`). An accept reports
//!   a client, none, or a failure (`accept_outcome_of`).
//! - The clock of the loop never goes back (`never_back` of `SystemTimes::micros`). The time of the service is read by `service_rules` from
//!   the last one, the steady clock and the table's moment, whatever the system's clock shows (`read`, `value` of `SystemTimes::system`).
//! - `command_of` returns `/bin/sh` without variables, with exactly the fixed script, the signal and the number of the child
//!   (`arguments_of`).
//! - The users of children have different numbers (`distinct`). `users_named` fails only for a user or for memory (`IsOfNames`), and then
//!   `push_user` has added nothing (`kept`).
//! - Each error of the loop and of the socket is converted to one of the program (`told_as`, `at_socket`, `opened`). What to do about an
//!   error of a socket is a table (`hint_for`). A folder of proofs that belongs to something else is a fault with its name (`IsOfProofs`).
//!   What clients connect to fails only so, for a socket or for memory (`IsOfListening`), and serving them only so or for the disk
//!   (`IsOfServing` of `serve_at_socket`).
//!
//! # Not proved
//!
//! - What sockets, clocks and signals do. `SocketConnection` reports nothing of its bytes and proofs, so the clauses of `service_loop` say
//!   nothing of them. The code is the same as for connections that report. `tests/test_service_proof.py` shows the program.
//! - That a connection came by the socket that it is counted to, that the folder of a challenge is removed before its owner is believed,
//!   and that a challenge is random: `tests/test_service_proof.py` shows this.
//! - That the folder is locked before the spool is opened, and that the socket is created after both: this is read in the code of `run`.
//!   `tests/test_service_words.py` runs two services on one folder.
//! - That `main` calls its helpers in their order.
//!
//! # Errors
//!
//! As in `spool_shell`: a line `spool: WORD` on standard error, the cause on the next line (`fault_causes`), and status 1, or status 2 for
//! invalid arguments. Why a socket cannot be listened on is logged before `spool: socket`, with its path and the system's reason. If the disk
//! fails, or memory runs out for the service itself, the service ends, so that its supervisor can restart it. If memory runs out for a
//! client's command or reply, the client is disconnected.
#![tactic(auto)]

mod child_users;
mod child_words;
mod clocks;
mod kills;
mod listening;
mod lookups;
mod names;
mod proving;
mod socket;
mod start;
mod words;

use fault_causes::{GivenNames, report_end};
use log::Logged;
use spool_runtime::{LogLines, given_words, no_words, report_words_fault};
use start::run;
use std::process::ExitCode;
use words::read_words;

fn main(rt: HostRuntime) -> ExitCode {
    let given = match given_words(&rt) {
        Ok(given) => given,
        Err(error) => return no_words(&rt, &error),
    };
    let words = match read_words(rt.alloc(), given.as_slice()) {
        Ok(words) => words,
        Err(fault) => return report_words_fault(&rt, &fault),
    };
    let most = words.level;
    let logged = Logged::new(rt, most, LogLines { rt, most });
    let ended = run(&logged, &rt, words);
    let names = GivenNames {
        dir: Some(words.root),
        types: words.types,
        convs: words.convs,
        programs: words.programs,
    };
    report_end(&rt, names, ended)
}
