//! The loop of the service: serves one engine to many clients while children run.
//!
//! The crate reaches the system through traits: [`Listener`] is the listening socket, [`Connection`] a client's connection, [`Times`] the
//! clocks, [`Signals`] sends signals to the children that must end, and `Children` starts the children that print. So this crate knows no
//! socket, clock or process; `spool_service` implements the traits. `service_rules` makes the decisions that depend on numbers alone.
//!
//! # A turn of the loop
//!
//! [`Service::serve`] repeats `Service::turn` (`service.rt`) until the end that a client requested with `shutdown` is reached, the disk
//! fails, the wait fails, or the service itself runs out of memory. No promise depends on the bound of its loop. A turn has these steps:
//!
//! 1. `Service::wait` waits until a connection is ready, but at most until the next check of the children or the next due time
//!    (`Service::pause`), and marks the clients that are ready.
//! 2. `Service::let_in` accepts up to 64 new clients.
//! 3. `Service::serve_clients` serves requests of each client (`Client::serve`, `client.rt`), makes the events of all of them durable and
//!    writes the replies (`Client::send`), handles `shutdown`, and sends signals to the children that must end (`Endings::act`,
//!    `endings.rt`).
//! 4. `Service::refresh_time` sends the engine the time if a stage may end that is retried after an interval. `Service::tick` makes one tick
//!    of the engine (`Shared::tick`, `shared.rt`).
//! 5. `Service::maintain` sends the engine commands: the time, purges of ended jobs, the cancel of an abandoned job, and a checkpoint
//!    (`maintenance.rt`), each only if it is due.
//! 6. `Service::log_events` writes a line to the log for each event that matters, and `Service::notify_changes` sends the watching clients
//!    what changed.
//!
//! After a `shutdown` no client is accepted and no job is started. The loop ends when no job is processing and no child runs, or 60 s after
//! the request.
//!
//! # Where a reply is made
//!
//! `Client::serve` makes up to 256 steps (`Client::step`). A step takes the next request from the client's reader (`client_reader`) and
//! answers it, or reads more text. Each reply is appended to the client's buffer; only `Client::write_some` writes the buffer to the
//! connection.
//!
//! The commands of all clients in a turn of the loop are staged. The first client whose replies are written makes their events durable
//! together (`Shared::settle`), with one pair of syncs for all clients. Once the records of the staged events have a mebibyte, they become
//! durable before the next client is served (`Client::settle_many`). If the device fails at a settle, nothing more is written, and all
//! clients are disconnected: a client knows of no command without a reply whether it was done.
//!
//! | Reply to | Made by |
//! |---|---|
//! | a request that the roles do not allow | `Client::answer`: `error denied`, and nothing is done |
//! | a request that would take room from the reserve | `Client::answer`: `error full`, and nothing is done (`reserve.rt`) |
//! | a command | `Client::answer_command`: the engine's answer (`Shared::execute`), as text (`append_shown_answer`) |
//! | `round`, `drain` | `Client::answer_command`: one tick, and its counts at once; no client waits for the children |
//! | `job`, `watch`, `end`, `shutdown` | `Client::answer_own`; texts of `service_texts` |
//! | `i-am`, `made` | `Client::offer_proof`, `Client::examine_proof`: the connection names the folder and examines it |
//! | `wait`, `watch` while too many clients listen | `Client::wait_for`, `Client::watch`, `Client::watch_after`: `error busy`, and nothing is done |
//! | `wait` | `Client::has_reported_end`, in the first step after the job's end |
//! | nothing: a notice to a watching client | `Client::notify` |
//! | a connection without a place | `send_busy` (`clients.rt`), written at once |
//!
//! # Limits of a client
//!
//! | A client that | Then | Bound |
//! |---|---|---|
//! | sends in pieces | is read by pieces; an incomplete line or send is retained | 65,537 bytes, plus a piece and a line |
//! | stalls in a send | nothing is applied, and no other client waits | one of the places |
//! | never reads | is not served or read further | 65,536 bytes and one reply |
//! | floods | is served 32 commands, then the other clients have their turn | 32 commands a turn |
//! | finds no place | replaces the client that has been idle longest, if that is at least 10 s; otherwise it gets `error busy` | the places |
//! | sends empty lines | becomes idle: only an answered request, bytes of a send, or bytes that it took count (`IsHeard`) | |
//! | waits or watches | has a place for those that listen, or gets `error busy` and stays | three quarters of the places, half of these for a user |
//! | waits for a job | is not read until the job ends, and no other client waits; if it hangs up, its slot is freed | |
//! | watches and does not read | is sent `missed` later | 65,536 bytes and the lines of a turn |
//! | leaves | its complete requests are served, a last line without line feed is not; its incoming jobs are canceled later | `Keeping::incoming` |
//!
//! A client that listens is not replaced: it would lose its answer, while a new one that gets `error busy` knows and may try again. But
//! clients that listen never fill all places.
//!
//! # Promises
//!
//! The clauses on connections hold if the connections report the bytes that they will bring and the bytes written to them ([`Connection`]).
//!
//! - **Engine calls only.** However [`Service::serve`] ends, its engine changed by an engine's calls alone, with the same MIME rules and
//!   the same `Place` of the children (`calls`, `GoesByCalls`). The calls are a list, not a life of an engine, so each law of calls holds
//!   for the service. The list does not say why a call was made: the client steps say so for clients, and `HasAnswered` for maintenance.
//!   `serve` fails with `Disk` only if the disk has failed (`disk`).
//! - **The limit of children.** Children are started only in ticks, each with the limit that [`Service::new`] was given, and no turn changes
//!   it (`calls`, `GoesWithin`). [`services_keep_their_limit`]: so no more children run than the limit after any of these calls.
//! - [`services_order_no_stage_twice`]: over any number of services, each made on the state that the previous one left plus perhaps further
//!   events, no stage of an attempt is ordered twice, if the children report their orders. A life of a service may have no call, if its
//!   first wait fails; as a life of an engine it has a run of no commands.
//! - [`crashes_lose_no_call`]: for each moment at which all events are durable, a later crash leaves the table of that moment, or the table
//!   after a prefix of the events since then.
//! - **Commands and ticks.** `Shared::execute` executes a command as the engine does, and its event is staged (`executed`,
//!   `TakesStagingStep`). `Shared::tick` settles the staged events and is one tick of the engine (`tick`, `IsStagingTick`). A `round` or a
//!   `drain` is answered with one tick.
//! - **Durable replies.** Bytes are written to a client only while all events are durable: each write is an action of the client's turn
//!   (`delivers`), which only such a state allows (`IsAction`, `IsDurable`), and the turn wrote the bytes of these actions and no others
//!   (`wrote` of `GoesGiving`, in `client_step` of `Client::send`). So a client that reads a reply knows that no crash takes back what it
//!   says. A crash before a settle leaves none of the staged events, and a crash in it none or all of them
//!   ([`spool_engine::batches_are_whole`]). A checkpoint or a `round` of a client makes the events before it durable first.
//! - **Tokens.** `Shared::execute` notes a created job for the token of its options and forgets a purged job that is gone; each other entry
//!   stays as it was (`known` of `Shared::execute`, `entry_after`).
//! - **Isolation.** A client's turns are client steps (`client_step` of `Client::serve` and of `Client::send`, `IsClientStep`): actions that
//!   answer, one for one and in order, the first requests of its own connection. Their texts, each byte once, follow the texts sent before
//!   (`Goes`). An action is a command served by the engine, one tick for a `round` or a `drain`, a word of the service answered from the
//!   current table, or the end of the job that the client waits for (`IsAction`). While a client waits for a job's end nothing else is done
//!   for it. Each action continues from the run state that the previous one left (`AreActions`).
//! - **Roles.** Each action is done by the roles for the client at that moment (`IsByRole`, `client_roles`): a request is denied exactly if
//!   they do not allow it (`denies`), and then nothing is done, so a command that is not allowed has no turn of the engine. A listing
//!   shows title and user of a job only if the client may see them (`shown_answer`). So `history` of [`Service::serve`] carries the table
//!   of roles.
//! - **The reserve.** A request whose event would take room from the reserve of the journal is answered with `error full`, and nothing is
//!   done (`reserved` of `Client::answer`, `is_reserved`). Such an answer is an action of its own (`reserves`). A checkpoint is wanted then.
//! - **All clients.** Each slot has its turn for requests, on the engine that the previous slot left, and then each has its turn for replies
//!   (`turns` of `Clients::serve`, `HaveServed`, `HaveTurns`). Only its own turns change a client (`own`, `others`, `HadOwnTurns`). No other
//!   client changes when a watching client is sent what changed (`told` of `Clients::notify`: that text, with or without `missed` before it,
//!   or none of it), when a connection is ready (`Clients::signal`), or when a client is admitted; nothing has been read from the new
//!   connection then (`lets_in` of `Clients::admit`).
//! - **History** (`history` of [`Service::serve`], `GoesByEvents`). However `serve` ends, its engine and the slots of its clients changed by
//!   events of the loop alone, in one list: calls of the service itself, readiness, admissions, turns and notices. So each text that a
//!   client was sent is an answer of its own turn, given on the engine of that moment, or a notice, perhaps after `missed`.
//! - [`clients_leave_for_a_cause`]: in such an event a client leaves its slot only in its own turn (for a cause of `leaves`, or because
//!   memory ran out or the device failed), because memory ran out for a notice while it watched, or because it was idle when a new client
//!   found no free slot.
//! - [`clients_of_a_service_stay_apart`]: each client that has a slot after such events was admitted in one of them, nothing having been
//!   read from its connection, and made client steps since. Each moment of a service is the end of a list of its events.
//! - [`clients_of_the_loop_stay_apart`]: over any list of a client's steps since its admission, its actions answer the first of the
//!   requests in its connection's bytes, whatever may follow them (`asks`). So a last line without its line feed is never served. The bytes
//!   written to its connection, followed by the replies not taken, are the texts of those actions (`texts`). Its rights are those of the
//!   socket that it came by, changed by its actions alone (`standing`): by a job that it created, and by what its connection proved
//!   (`proofs`). So no word of a client says who it is.
//! - **A turn** (`turned` of `Service::turn`, `HasTurned`) is the clients' commands, one tick, and the commands of maintenance. **Nothing
//!   is left undone** unless the turn reports that there is more to do at once: each client was sent all that its connection takes and
//!   cannot be served further (`clients`, `AreAtRest`); the tick started and ended nothing, and maintenance sent no command or tried a
//!   checkpoint in vain (`still`); no listed job remains to be purged (`maintenance`, `HasNoneToPurge`); and no client waits to be admitted
//!   (`listener`). So no wait begins while one of these is left. A tick that ran out of memory or of room is repeated after the wait. If
//!   the clock reports its last result, no due time is left unsent (`KeepsTime`, `IsTimely`). Each time that it reports is at least the
//!   table's moment (`table` of [`Times::system`]).
//! - **Waits.** The wait of a turn is at most the time until the next check of the children, by how long the last child ran, and until
//!   maintenance has something to do; and at most a second while the journal is full, an end was requested, or a client could not be
//!   accepted (`wait` of `Service::pause`, `loop_wait`; `lasted` of `Service::note_times`). A minute after it was requested, an end is
//!   reached (`IsEndedBy`), and before that only when no job is processing and no child runs (`quiet` of `Service::is_over`, `IsQuiet`). A
//!   fault of the device ends the service in the turn that met it (`alive` of `Service::turn`).
//! - **Progress.** After the turns each remaining client was sent all that its connection takes: nothing is unread, or its connection is
//!   marked as taking nothing now (`given` of `Clients::serve`, `IsGiven`). Unless the turn reports that there is more to do at once,
//!   nothing can be done for the client now: it waits for a job's end, its connection is marked as having nothing to read now, or it left
//!   too much unread (`rests` of `Clients::serve`, `HasNoneNow`).
//! - On connections that report the result of their last read and write the marks are true: a connection that is not read or not written
//!   reported last that nothing comes or that it takes nothing now (`IsMarked`). A client is disconnected in its turn only if its connection
//!   is lost, it hung up while it waited, its text has ended and it has taken all replies, or memory ran out or the device failed (`leaves`,
//!   `Leaves`). A read takes a piece, finds none now, or finds the end (`HasRead`). Readiness sets the marks of the connection (`signed`).
//! - **Records** (`events.rt`). Exactly the events that the engine accepted are recorded: those of a command by its answer (`recorded` of
//!   `Shared::execute`, `HasRecordedCommand`), also the jobs that a Clock changes, from any sender, and those of a tick by the engine's
//!   report (`recorded` of `Shared::tick`). An event changes its job or its queue, and the queue of its job if it starts or ends an attempt
//!   (`subjects_of`), and no other. If memory runs out for a queue's name, all changes so far are forgotten, and each client that asks for
//!   them is sent `missed`. The times of jobs and queues are recorded with the moment of the turn (`HasSeenDeed`).
//! - **Watching clients.** At the end of a turn each watching client is sent a line for each job and each queue that changed since the last
//!   notice, each once, as far as it may see them (`news_for`, `noted_since`), or nothing if too much is unread, and then `missed` before
//!   the next notice (`told` of `Clients::notify`, `text_for`, `misses`). A client that said `watch N` is first sent what changed after
//!   change N (`Shared::push_changes_since`, `watch_text`), and each notice with the number of the last change. A change of the turn of its
//!   request may be sent in both.
//! - **Running children.** The service asks its engine which children run, and in which process group.
//! - **Due times.** `Maintenance::look` takes the earliest moment that changes something about a job from the table (`due`, `next_due` of
//!   `job_table`). [`nothing_is_due_before`]: before it the clock changes no row, starts no job and changes no shown state, so an idle
//!   service sends no clock. A due time is sent to the engine as a Clock command, and the engine answers it (`said` and `found` of
//!   `Maintenance::announce_time`, `HasAnswered`).
//! - **Purges.** `Maintenance::look` takes the first 1,024 ended jobs and their number from the table (`listed`, `AreListed`, `ended`). A
//!   purged job is removed from the list and no longer counted (`crossed`, `counted` of `Maintenance::purge`). Each purge is a command that
//!   the engine answers (`purged`).
//! - **Abandoned jobs.** An incoming job whose client has disconnected, and to which nothing was sent for `Keeping::incoming`, is canceled,
//!   one a turn (`found`, `canceled` of `Maintenance::cancel_abandoned`). The jobs of a client that disconnects are noted with the moment of
//!   the turn, unless memory runs out (`noted` of `KnownJobs::leave`), and bytes that are sent to a noted job restart its age (`left` of
//!   `Shared::execute`). Such jobs are checked at most once a second (`next`), and the wait
//!   of the loop ends in time for it (`wait` of `Service::pause`).
//! - **Retries.** Before a tick that may see the end of a last stage of a queue with an interval, or start one, the engine is sent the time
//!   if the table's moment is earlier (`sent` of `Maintenance::refresh_time`, `may_retry`). Otherwise nothing is sent (`idle`).
//! - **Checkpoints.** A checkpoint is wanted by the room that the last one left (`wants_checkpoint`, `left` of `checkpoint`), before the
//!   first one by half of the disk (`keeping_of` of `spool_service`). It is a command that the engine answers (`answered`).
//! - **Admission.** A new client is admitted according to when each client was heard last and which clients listen (`admission` of
//!   `Clients::admit`, `IsAdmission`, `heard_of`, `listens`).
//! - **Listening.** At most three quarters of the places are for clients that wait or watch: each turn of all clients leaves it so
//!   (`listeners` of `Clients::serve`). A client begins to listen only if it may, by how many others do and how many of them are of its
//!   user (`listens` of `Client::serve`, `listening_of`); otherwise its request is answered `error busy` (`turns_away`, `IsAction`). Clients
//!   that have proved nothing count as one user (`is_same_user`).
//! - **Signs of life.** A step leaves the moment when its client was heard, unless it answered a request, or read bytes of a send (`heard`
//!   of `Client::step`, `IsHeard`), or the client took bytes (`heard` of `Client::give`).
//! - **Children to end.** A child that must end is noted by its process group, once (`group` of `Endings::ask`, `with_ending`). It is sent
//!   SIGTERM, and SIGKILL no sooner than 10 s later (`signal_of`). The children still noted are those noted before whose job still runs a
//!   child in that group (`kept` of `Endings::act`, `is_current`). If [`Signals`] reports the signals that it sends, they were sent their
//!   due signals, and nothing else was sent (`sent`, `due`). After the turns of all clients this holds for the children that must still end
//!   (`ended` of `Service::serve_clients`).
//! - **Starts.** A tick may start as many children as there are queues with a processing job whose child does not run or, unless the
//!   service must end, with a next job (`tick` of `Shared::tick`, `limits_of`).
//! - **Marks.** After a command or a tick that did something maintenance checks again, and after one whose event did not fit it makes a
//!   checkpoint (`kept` of `Shared::execute` and of `Shared::tick`, `TurnMarks`).
//!
//! # Not proved
//!
//! - That the loop requests the right decision, with the right values, at the right moment: a turn waits at most as long as `pause` returns,
//!   makes a checkpoint when one is wanted, ends children, and sends watching clients what changed. That is read in the code.
//!   `tests/test_service_*.py` show it for the program: clients that stall, flood, never read, or are too many; slow children and children
//!   that must end; kills; a requested end.
//! - The sockets of the program report their rules and nothing else (`SocketConnection` of `spool_service`), so the clauses on connections
//!   say nothing of their bytes and proofs. The code is the same.
//! - If a client is disconnected because memory ran out, no clause states its replies or its calls in that turn, only that no other client
//!   is changed.
//! - No clause states that a turn that leaves more to do has done something, or that a new client gets a slot. So these bodies meet their
//!   clauses: a `serve_clients` that serves no client and reports that there is more; a `wait` that fails at once; a `note_readiness`,
//!   `let_in`, `handle_turns`, `make_checkpoint`, `note_moment`, `log_events` or `notify_changes` that does nothing.
//! - The clients do not state that they note the jobs of a client that leaves (`Clients::serve`); `tests/test_service_incoming.py` shows it.
//! - No clause states what sockets, clocks and signals do, or which process group the system gives a child. From its start on the number of
//!   the group is exact (`Children::group`, `group` of `Engine::group_of`).
//! - The launcher of the program reports no orders, so the clauses on children say nothing of it. `watched_children_tests` has the laws for
//!   an engine over children in memory.
//!
//! # Errors
//!
//! [`ServiceFault`]: a failed disk, a failed wait, or lack of memory for its own data ends the service, so that its supervisor can restart
//! it. If memory runs out for a client's text or reply, the service disconnects that client. Lack of room for events does not end the
//! service: it tries a checkpoint.
//!
//! # Cost
//!
//! No step of a turn waits for a client or a child; only the disk's syncs take time. A turn looks at each slot three times, at as many as
//! there are places, and a notice at each of 1,000. For a client that may have a request, while half of the places for listening are taken,
//! the clients of its user are counted, which looks at each of 1,000 too. The table is asked for the next due moment and the ended jobs at
//! most once a second, and only if something was done. It finds them, and the jobs that a clock changes, without a search of its jobs
//! (`job_table`). `bench/due.py` measures this.
#![tactic(auto)]

mod bounds;
mod client;
mod clients;
mod connection;
mod endings;
mod events;
mod fault;
mod known_jobs;
mod laws;
mod listener;
mod listeners;
mod maintenance;
mod proof_texts;
mod reserve;
mod service;
mod shared;
mod shown_answers;
mod signals;
mod times;

pub use connection::Connection;
pub use fault::ServiceFault;
pub use laws::{
    clients_leave_for_a_cause, clients_of_a_service_stay_apart, clients_of_the_loop_stay_apart,
    crashes_lose_no_call, nothing_is_due_before, services_keep_their_limit,
    services_order_no_stage_twice,
};
pub use listener::{AcceptOutcome, Listener, Readiness};
pub use service::{Keeping, Limits, Service};
pub use signals::{Signal, Signals};
pub use times::Times;
