//! Small filters and backends, and the end of a side-channel session: the tools of `spool_tools`.
//!
//! Arguments: TOOL, the name of a tool, and its own arguments ([`words`]), or `--version`. The spooler adds the five or six arguments of
//! filter(7) and backend(7): the job's number, user, title, copies, options and optionally the name of the document's file. Without a file
//! the document is standard input.
//!
//! | Tool | Effect |
//! |---|---|
//! | `texttoprn` | writes CR LF for each LF of the document and a form feed at the end, and then `PAGE: 1 N` on standard error, N the number of copies |
//! | `prncount` | writes the document unchanged, and then `PAGE: total N` on standard error, N the number of form feeds written |
//! | `spoolfile` | writes the document to the device's file ([`targets`]), and exits with the option `exit`, 0 to 255 |
//! | `meet` | creates the device's file as a mark, unless it exists, and checks up to `turns` times, a second apart, for the file of the option `partner`; if it does not find it, it removes the mark; without `partner` it exits with 1 |
//! | `sideask` | requests the device id on the side channel, and writes it to the device's file |
//! | `appsocket` | sends the document to the network printer of the URI, closes its half of the connection and waits until the printer closes the other ([`network`]); how that ends decides about the status ([`connection_ends`]) |
//! | `through FILE` | prints by the chain of programs in FILE ([`through`], `program_pipes`) |
//! | `side-end SOCKET` | ends the session on the socket with the packet FF 00 00 00 |
//!
//! A file is printed COPIES times, a decimal number from 1 to 9,999, and standard input once. The device's file is the decoded path of the
//! URI in the variable DEVICE_URI, and its options are those of the URI ([`device`], [`options`]). A printer is the host and the port of
//! that URI, by default port 9100 ([`printer`]). The side channel is the Unix socket that the variable SPOOL_SIDE names.
//!
//! A backend without the arguments of a job prints its device line, `file TOOL "Unknown" "TOOL"`; the class of `appsocket` is `network`.
//! `through` prints none.
//!
//! # Promises
//!
//! - [`words::read_words`] returns exactly the request of the arguments (`asked_of`). [`run_words`] states how the program ends (`Ends`);
//!   for other arguments it exits with 1 and writes nothing.
//! - A filter that exits with 0 has written all copies of its result and reported their pages (`Filtered`, `Copied`). Its faults are those
//!   of `IsOfFilter`, `IsOfResult` and `IsUnwritten`, and it reports them (`FilterFails`). If the document cannot be read, its line has the
//!   document's name and then a reason (`unread_line`), unless memory for them runs out. A device line or the version is complete if the status is 0. A backend writes nothing
//!   on standard output.
//! - [`write_copies`] writes the results of a document with known bytes, and counts the form feeds written of any document (`Copied`): no
//!   byte is lost between two pieces.
//! - [`read_device`] returns the path and the options of the URI, and [`read_printer`] its host, port and options. They refuse a text only
//!   if it is not a URI, or if its path is not UTF-8 or it has no host.
//! - [`end_of_connection`] decides by the options [`rules_of`] of the URI what the end of a connection that was seen means, exactly as its
//!   table says. Unless the URI says `waiteof=false`, a document is printed only if the printer closed the connection last (`printed`), or
//!   if it was reset after the last byte and the URI says `afterlast=done`. An unknown value of one of these options is refused.
//!   [`end_line`] is the line that reports the end, and [`ConnectionEnd::status`] its status.
//! - [`exit_of`], [`turns_of`], [`connect_seconds_of`] and [`end_seconds_of`] return the options' numbers or their defaults. If an option
//!   is repeated, the last one counts (`last_value` of `device_options`).
//! - `through` reports the end of each program of its chain, and exits with the status of these ends, or it reports a program that cannot be
//!   started or another fault (`ReportsThrough`).
//! - `report_end` returns the tool's status; after a fault this is 6 if a printer cannot be reached, 4 if an option is unknown, otherwise 1
//!   (`fault_status`). `report_sending` returns the status of a connection's end (`connection_status`). `appsocket` reports the end of its
//!   connection with the printer's address and the number of bytes, unless the document was printed, or it reports a fault (`BackendEnds`).
//!   `spoolfile` exits with its option, by default 0.
//! - A file that a backend may write ([`may_be_replaced`], [`may_be_written`]) is new, or a regular file of its own user. [`is_inside`]:
//!   whether a folder is the spool's folder or below it; no backend writes there (`targets` is read for that, and `tests/test_tools.py` shows it).
//! - [`ask_id`] writes 04 00 00 00 and returns the first packet received. Only an answer with the status OK whose data are stored has an id
//!   ([`id_in`]). [`end_session`] writes FF 00 00 00. `end_silently` returns 0 or 1.
//!
//! # Not proved
//!
//! - What files, sockets and programs the tools reach, what `appsocket` sees of a connection, and how long they wait: `tests/test_tools.py` shows it.
//! - These bodies meet their clauses: a document, a copy, a packet or a device line that is a fault at once, a `spoolfile` that exits with
//!   0 or 1 and writes nothing, an `appsocket` that exits with 0 and sends nothing, and a `through` that reports another chain.
//!
//! # Errors
//!
//! A filter reports a fault on standard error as `ERROR: cannot read NAME: REASON`, `ERROR: cannot write` or `ERROR: out of memory`
//! ([`fault`]), and `spoolfile` each of its faults as `ERROR: cannot write`. NAME is that of the document's file without characters that
//! steer a terminal, or `standard input`, and REASON the system's (`system_reasons`). `through` reports its file so. `appsocket` has the first and the third, `ERROR: no device`, `ERROR: cannot
//! connect`, `ERROR: connection reset` if the printer resets the connection at once, a line for an unknown option, and those of
//! [`end_line`]. The other tools report faults by the status only, because a message of `side-end` after a stage would
//! count as a message of the stage.
//!
//! # Cost
//!
//! A document is read and written in pieces of 65,536 bytes, and a file is read again for each copy, so its length does not matter.
#![tactic(auto)]

mod backends;
mod connection_ends;
mod device;
mod ends;
mod fault;
mod filters;
mod network;
mod numbers;
mod options;
mod printer;
mod results;
mod running;
mod side;
mod sources;
mod targets;
mod through;
mod words;

pub use connection_ends::{
    AfterLast, ConnectionEnd, EndRules, Observed, end_line, end_of_connection, rules_of,
};
pub use device::{Device, read_device};
pub use ends::given_words;
pub use fault::ToolFault;
pub use options::{connect_seconds_of, end_seconds_of, exit_of, partner_of, turns_of};
pub use printer::{Printer, read_printer};
pub use results::{Form, Source, write_copies};
pub use running::run_words;
pub use side::{ask_id, end_session, id_in};
pub use targets::{Named, is_inside, may_be_replaced, may_be_written};
