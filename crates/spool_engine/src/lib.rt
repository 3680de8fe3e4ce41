//! An engine that reads commands from a text, applies their events to a spool on a disk, and writes a text of replies.
//!
//! An [`Engine`] has a spool, the children of its jobs, the MIME rules, the conversions, and the `Place` of the children (their folder,
//! locale and search path). Each command is one *step*: the engine reads the command, serves it on the spool that it finds, and writes the
//! reply before it takes the next command. The commands are those of the whole text, however the reader splits it into pieces. A server of
//! several clients reads the commands itself: [`Engine::execute`] executes one and returns its [`command_lines::Answer`], a value, whose
//! text [`append_answer`] appends.
//!
//! - Most commands ask for one event. A queue's URI and a job's options are checked before the spool is asked, so their errors also come
//!   before a refusal and from a dead spool. Options that contain an error, or whose printed form has more than 2,048 bytes, are
//!   `error options`. A job stores the printed form. A job that must start by a moment is another event (`creation`), which an area of the
//!   first version refuses.
//! - `close` determines the type of a document from the job's file name and the document's bytes, by the MIME rules in the locale of the
//!   children. If no rule is true, the type is `application/octet-stream`. The filters are those of the least chain of conversions from
//!   this type to the type that the job's queue takes. Without such a chain the document cannot be printed. Both are determined, and the
//!   document is read from the device, only if the job can be closed. If the device fails at the document, the reply is `error disk`, and
//!   no event is tried.
//! - `round` starts the next job of each queue, then a stage of each processing job, and after all starts finishes each child and applies
//!   the event of its end (`print_rounds`). A round first waits for the children that run when it begins. Their finishes are stored in
//!   their slots, and the round applies their events. `drain` runs rounds until one starts and finishes nothing, and at most the given
//!   number. The idle round counts too. A fault ends the drain.
//! - A tick does the same as a round and waits for no child ([`Engine::tick`]), so children may run between two calls. It may have limits
//!   of running children and of starts. [`Engine::is_running`], [`Engine::group_of`] and [`Engine::count_free`] tell which children run. A tick reports
//!   its accepted events ([`print_rounds::Happening`]).
//! - A caller that lets a client name the type of a document gets the event from [`Engine::closing_as`], with the filters of the least chain
//!   from this type, and executes it as a command of one event.
//! - A `purge` of a job whose child runs is withheld by the engine, because the table knows no children: the reply is `error 16 NotEnded`,
//!   and nothing changes.
//! - `checkpoint` lists the table in the other area of the disk, so that the journal has room again (`Spool::checkpoint`). The table is
//!   then in the newest version of the format. Nothing else in it changes (`raised`).
//!
//! - A [`StagingEngine`] makes the events of many commands durable together, with one pair of syncs: [`StagingEngine::execute`] stages an
//!   event, and [`StagingEngine::settle`] settles all staged ones. An answer may be shown only after the settle. A tick, a round and a
//!   checkpoint settle first. An [`Engine`] has nothing staged between its calls.
//!
//! There are four layers. `Executor` applies and stages events over the spool alone. `Printer` executes the commands over it, with the slots
//! and the children, and serves the text of a run. `StagingEngine` lends both the rules, the conversions and the `Place`, which never
//! change, so no clause of a step has to state that they stay. `Engine` has one with nothing staged. The definitions in `specs/`:
//!
//! - `Mime`: the MIME rules, the conversions and the locale of the `Place`, as each call borrows them. `media_of` is the type of a
//!   document.
//! - `Script`: the replies, the events and the state after a text if nothing fails, for a MIME database, a `Place` and a `ScriptState`
//!   (table, slots, children's trace). Each command has one row (`meaning`). It comes with the documents that were read for it (`Asked`),
//!   so Script also covers a device that does not report its bytes; `asked_on` takes them from the documents at the start and from the
//!   sends of the text. A queue whose URI is not a device's, and options that contain an error or are too long, are no events. A round
//!   first waits for the children that run (`settled`). A purge of a job whose child runs is NotEnded (`withholds`).
//! - `EventSteps`, `EngineRounds`, `EngineTicks`, `EngineRuns`: each step, round, tick and run, also if something fails. A command of one
//!   event is defined over the spool alone (`IsEventStep`), a command with rounds over the run state of spool, slots and children
//!   (`IsCommandStep`). Both list the events that were tried. `Setting` groups the view of the device, the MIME database and the `Place`.
//! - `StagedSteps`: a command whose event is staged (`IsStagedStep`), and the settle (`SettlesTo`).
//! - `AnswerTexts`: the text of an answer over a table (`answer_text`). `StepReplies`: the reply of a step in which nothing failed.
//! - `EngineLives`: `IsEngineLife` and `IsEngineHistory` are the lives and the stage histories of engines.
//!
//! # Promises
//!
//! - The clauses: [`Engine::run`] has one clause, `IsRun`, over its steps. A step has its command, outcome, reply and the run state that it
//!   left. [`Engine::round`] has `IsRan`, [`Engine::tick`] `IsTicked`, and [`Engine::execute`] `TakesStep`: the text of its answer over the
//!   table that it leaves is the reply of the step (`executed`). [`Engine::new`] sets the rules, the conversions and the `Place`, and no
//!   call changes them (`mime`, `place`).
//! - The engine has the turn of the queues (`turn`), and only a tick changes it: a queue that was left out for lack of children is before
//!   each chosen one in the next tick (`IsTickInTurn`).
//! - [`Engine::tick`] reports exactly its accepted events, by kind and job (`happened`, `IsTickThat`). [`Engine::closing_as`] returns the event
//!   that closes a job as a type, and the answer that `close` would have (`closing_as`, `closing_line`).
//! - *ExactScript* (`exact`): if a run returns Ok and every command was served, the bytes that it wrote are the replies of Script over
//!   these rules and conversions, and the table is Script's (`table`). If no checkpoint raises the version in between, it is the fold of
//!   Script's events (`fold`). If the children report, and the slots have the tickets of the running children, the new orders and the slots
//!   are Script's too (`telling`). A text without rounds needs no such children (`plain`). This covers readers and writers that report
//!   their bytes. Script has the documents as they were read, for the type of a close and for the input of each first stage. If the disk
//!   reports its bytes and the device works, these are the documents that every image had at the start, plus the bytes that the sends of
//!   the text add (`exact_with`).
//! - *HonestReplies*: a run is a list of steps, each on the spool that the previous one left (`lead`). They serve the commands of the text
//!   (`all`), or after a fault of the run the first of them (`first`). Each command has Script's reply on the table that it found, or an
//!   error's line, and then no row has changed (`how`, by `IsHow` and `IsOutcome`). Only commands with rounds change the slots or run a
//!   child (`IsHeld`).
//! - *HonestReplies*, causes: `error full` comes only if the record of the event, or the listing of a checkpoint, does not fit.
//!   `error disk` comes only if the device failed, and `error dead` only for events and checkpoints after that. `error epoch` comes only
//!   for a checkpoint after the last epoch. `error memory` comes only for an event that is not refused, for a checkpoint, for a queue whose
//!   URI is within its limits, or for a job whose options contain no error (`IsUnread`); no clause shows that memory had run out.
//! - *HonestReplies*, rounds: a `round`, and each round of a `drain`, makes its steps (`IsRoundOf`) and is answered with its counts or with
//!   its first fault in time. The table is that of the events acknowledged in it, so a round that is answered with an error may have
//!   printed. A drain has no round after an idle one or after a fault (`AreAll`). A caller that serves a round by a tick gives the
//!   same answer with [`round_answer`] (`round_line`).
//! - *Crashes* (`crash` and `kept` of each step): unless the device had failed before, a crash at any moment of a step leaves the table
//!   before its command or the one after it. In a checkpoint it leaves that table in its version or in the newest, and in rounds the table
//!   after some of the events that were tried in them, the first of them. The documents are those after the same events (`whole`). A crash
//!   after the step leaves the table that is shown or, after a fault of the device, that table or the one with the current event. While the
//!   device works, the bytes that the step sent are kept (`lasting`). The same holds for rounds (`IsRan`) and ticks (`IsTicked`). This
//!   covers disks that report their bytes.
//! - *Crashes*, between steps: [`crashes_between_replies`] states for whole runs that no answered step is lost as long as the device works:
//!   neither its events (`tables`) nor the bytes that they sent (`documents`). [`crashes_between_calls`] states the same for any list of
//!   rounds, ticks, runs, staged commands and settles.
//! - *Batches* ([`batches_are_whole`]): a crash in a list of staged commands and their settle leaves none of their events or all of them. A
//!   staged command has the outcome and the answer of a durable one (`how`), but no image changes (`still`). The documents shown have the
//!   bytes that it sends (`sent`). After a settle that returns true a crash leaves the table and the documents shown (`kept`).
//! - *EachFinishedOnce* (`finished` of each round): whatever failed, each child that a round started is finished once when the round
//!   returns, and all starts come before the first finish. Children that ran before it were finished once before it began (`settles`,
//!   `IsSettled`). After a tick each child that was started runs or has been finished once, and the slots have the tickets of the running
//!   children (`tickets`, `HasTickets`). [`Engine::into_parts`] waits for each child that runs, also after a fault of the device, and none
//!   runs after it (`finished`).
//! - *NoStageTwice* ([`calls_are_steps`]): each round or tick is a call of a StageHistory, and so is a run, by its steps. Its events are
//!   exactly the accepted ones among the acknowledged ones, each on the table that its command found (`AreTaken`, `AreAcknowledged`). A
//!   StageHistory has each table as the newest version has it. In every StageHistory no stage of an attempt comes twice ([`lives_law`]). So
//!   over any number of engines, each made on the table of the previous one and perhaps further events, no stage is ordered twice
//!   ([`no_stage_is_ordered_twice`]), and none without its acknowledged Start. A page therefore prints twice only in a further attempt: the
//!   end of the earlier attempt was never acknowledged, or its backend failed and the policy or the backend has the job retried. A queue
//!   with `abort-job` and a backend that never exits with 4, 6 or 7 never retries by itself.
//! - *RightInput* ([`stages_have_right_input`]): over any number of calls of one engine each later stage of an attempt gets the whole
//!   output of the stage before it, whichever calls its child was started in and ended in. Each first stage gets its job's document, if the
//!   disk reports its bytes. An attempt never continues in another life of an engine.
//! - [`replies_are_scripts`]: the reply of each step in which nothing failed is Script's on the run state that the step found. So an answer
//!   depends on its own command and on the state alone, whichever client sent the command.
//! - [`quiet_states_stay`]: if no child runs, a round of Script waits for none.
//! - Output (`wrote`): a run that returns Ok, or that ends with a fault of the reader, wrote all replies of its steps. After a fault of the
//!   writer it wrote the earlier replies and a part of the last one, but not all of it. If memory ran out, it wrote all replies, or all but
//!   the last.
//!
//! # Not proved
//!
//! - When a reply is written: `IsRun` states the bytes, not the time. That each reply is written before the next command is taken, and
//!   after its event was acknowledged, is read in the code (`Printer::answer`). `tests/test_syncs.py` observes it in the system calls.
//! - A call that a crash cuts off does not return, so no contract covers its orders. It counts as the same call on a device that fails from
//!   that moment on. That the two agree until then is read in the code.
//! - Whether memory had run out, or a reader or writer had failed: a body of `run` that always runs out of memory, or that reports a failed
//!   reader at once or at the end of the text, meets its clauses. Tests with ample memory and working streams reject such bodies.
//!
//! # Invariants
//!
//! 1. Until the device has failed, and if nothing is staged, a crash leaves the table that the engine shows (`IsPlainIfSettled`, the
//!    invariant of `Executor`). Nothing is staged between the calls of an [`Engine`].
//! 2. If no child runs before a `round` or a `run`, none runs after it (`rests`).
//!
//! # Errors
//!
//! [`RunFault`] says why a run ended: its reader failed, its writer failed, or memory ran out for a piece of the text, a command or the
//! text of a reply. A reader's error may also be reported as out of memory. Events that were applied before stay applied, also the event of
//! a reply that could not be built. Out of memory for an event or a stage, a full area and a failed device do not end the run: the command
//! is answered with the error, and the run continues. [`Engine::met_fault`] returns whether the device has failed, so that a program can
//! exit with 1 at the end of its input.
//!
//! # Cost
//!
//! - A run reads at most 16,384 bytes at a time. Each reply is built in memory and written whole. An answer takes no memory, except for the
//!   name of a type.
//! - `close` reads only the first bytes of the document, up to the last one that a rule examines (`Types::reach`). The definition has the
//!   whole document, with the bytes that are read as its front (`IsFrontOf`).
//! - Options are first checked for errors without allocating. A URI's parser allocates before it knows whether the URI is valid.
//! - `queues` asks each queue's lane whether it is processing, and examines no job. The definition states it over the table's jobs.
#![tactic(auto)]

mod answers;
mod durability;
mod engine;
mod executor;
mod fault;
mod laws;
mod mime;
mod options;
mod printer;
mod staging;

pub use answers::{append_answer, round_answer};
pub use engine::Engine;
pub use fault::RunFault;
pub use laws::{
    batches_are_whole, calls_are_steps, crashes_between_calls, crashes_between_replies, lives_law,
    no_stage_is_ordered_twice, quiet_states_stay, replies_are_scripts, stages_have_right_input,
};
pub use staging::StagingEngine;
