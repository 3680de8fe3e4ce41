//! Rounds and ticks: they start the next job of each queue, and run one stage of each processing job in a child.
//!
//! A [`round`] waits for the ends of all its children, a [`tick`] for none. Both are a pass over a spool, which has the table (`Spool`),
//! the slots of the stages (`Runner`), and the launcher of children (`Children`). `specs/` defines each step, also if something fails:
//!
//! 1. Each slot whose job has left that stage of that attempt is freed, unless its child runs (`idle_slots`).
//! 2. The next job of each queue without a running child is started, in ascending order of the queues' names (`free_queues`).
//! 3. A stage of each processing job without a running child is started, queue by queue. Its slot is made first. Then the document of a
//!    first stage is read from the device, and the order is made. A child that cannot be started ends its stage with NoStart.
//! 4. A round waits for each child, in the same order. A tick checks each child and continues with those that have ended. Each of them is
//!    finished, and the event of its end is applied. If the event is acknowledged, the slot moves on to the next stage or is freed.
//!    Otherwise the slot retains the finish, and the next pass applies its event again without a second child.
//! 5. If a job has left its stage (it was canceled, or its attempt was abandoned), a child that still runs for it keeps its slot until it
//!    has ended, and its queue starts nothing. So no second backend writes to its device. The end of this child is not reported.
//!
//! A tick has limits: how many children may run at once, and how many it may start ([`TickLimits`], `specs/StartLimits.antt`). If these
//! leave room, it asks the children for theirs (`Children::start_room`) once, before the first start, so that no job loses an attempt for
//! lack of a resource. Processing jobs that wait for a child come first, then queues with a next job, in order from the position `turn` on.
//! If some of them were left out, `turn` becomes the position after the last one that was not. A round limits nothing, and requires that no
//! child runs when it begins: [`finish_children`] waits for those that a tick has left.
//!
//! # Promises
//!
//! - *Steps* (`IsRoundOf`, `IsTickOf`): on a spool that is not dead, [`round`] and [`tick`] make the steps of their definitions in order,
//!   each event with the answer of the spool, its cause and its result (`round`; `tick`, `made`), or nothing if their lists run out of
//!   memory. On a dead spool they return Dead and change nothing. The result is the counts, or the first fault (`answer`). The table is
//!   that of the acknowledged events, which are accepted in order (`accepted`, `table`), so no pass changes the version of the area. No
//!   start and no end is refused. A round requires that no child runs (`HasNoneRunning`) and leaves none running (`rest`); a tick waits for
//!   none and requires nothing.
//! - *Ends in a tick*: a tick calls `finish` for exactly the children that a check found ended. It applies the events of the jobs among
//!   them that are still in their stages, and of finishes stored before, and no others.
//! - *Accepted events*: a tick reports its accepted events, by kind and job and in order, and no others (`happened` of [`tick`],
//!   `happenings_of` of `events_in`). Their memory is reserved before anything is done. A round reports none.
//! - *Starts in a tick*: if there is room for a child of each queue, the queues that start are exactly those without a running child, and
//!   the stages those of the processing jobs without one (`AreChosen`: `all`). Otherwise processing jobs come first, then queues with a
//!   next job, as far as room is left (`few`, `full`). In any case a tick uses the room that its limits and the children leave
//!   (`IsTickAsked`, `IsRoomBy`; of children that report the limits alone, `always`), and calls `start` at most that many times (`few`).
//! - *Turn*: if there is room for fewer children than queues, the queues are chosen in the order from position `turn` on (`turn` of
//!   [`tick`], `AreInTurn`). A queue that could start a job and was left out comes after each chosen one in that order (`later`), and
//!   before each in the order of the next tick (`first`), where fewer queues come before it (`nearer`). So while the
//!   queues are the same, one that can start a job in each tick is left out of fewer such ticks than there are queues.
//! - *Limits*: if at most as many children run before a tick as may at once, at most as many run after it (`most`, `count_running`).
//!   [`count_free`] returns how many more may run.
//! - *Crash*: unless the device had failed before, a crash at any moment of a pass leaves the table after the first of the events that were
//!   tried in it, some or all (`any_moment`). These are the acknowledged ones, followed by the event in progress when the device failed, if
//!   it did (`tried_in`, `all_acknowledged`, `in_hand`). A pass without a fault leaves a device that works (`works`). The documents stay as
//!   they are, in a crash (`any_whole`) and at the end (`lasting`), since no event of a pass sends anything. No job is run twice in a round
//!   (`once`). The device's count of failures does not fall (`later`), and a disk that reports its bytes still reports them (`told`).
//! - *ExactScript*: if nothing failed, the children report and a tick has room for each queue, the table, the slots, the children's trace,
//!   the events and the counts are those of the definition, with the documents that were read (`round_of`, `tick_of`, `exact`). A round is
//!   the tick whose checks all report that the child has ended ([`rounds_are_ticks`]).
//! - *EachFinishedOnce*: whatever failed, each child that a round started is finished once and no other is, and every start came before the
//!   first finish (`finished`). Over ticks the running children of the trace are exactly those whose tickets the slots have: each child
//!   that was started runs or was finished once (`tickets`). [`finish_children`] finishes each child that runs, and applies no event
//!   (`steps`, `rest`, `finished`).
//! - *NoStageTwice*: if the children report, a pass is a call of a StageHistory (`turn`, `IsStageCall`), and two consecutive calls are one
//!   call ([`calls_join`]). Finishes alone are a call too ([`finishes_are_a_call`]). A stage that is held between calls was begun and its
//!   end is not reported: its child runs, or its finish is stored. So no stage of an attempt that was ordered is ordered again. Over any
//!   number of lives no stage comes twice in any StageHistory (`StageLives`, [`no_stage_comes_twice`]), and consecutive calls are a life of
//!   one ([`calls_make_a_life`]). A StageHistory has each table as the newest version has it (`raised`), so a checkpoint may come between
//!   calls.
//! - *RightInput*: each start's order is exactly `order_in` of the job's slot, with the document that was read in a first stage, and with
//!   the output in the slot in a later one (`Launched`, `IsLaunch`). A document that was read has the length that the table states
//!   (`IsInput`). If the disk reports its bytes, it is the document that these have for the job (`IsReadFor`, `handed`), which the accepted
//!   events sent. If the device fails at a read, no further stage is started. A later stage that has no slot is not started. If the slots
//!   retain the outputs of earlier orders (`AreKeptFrom`), this applies to consecutive rounds by one law ([`rounds_hand_on`]), and to ticks
//!   by another ([`ticks_hand_on`]): an order has its document, or the output of the order of the previous stage, whichever pass its child
//!   ended in, whatever failed in between, and whatever events came between the passes. The law of rounds pairs orders and answers in the
//!   order of the starts. The law of ticks pairs them in the call that finishes the child (`answers_in`), since children end in another
//!   order.
//!
//! # Invariants
//!
//! - The slots whose jobs have left their stages are freed first, so the end of no stage is refused.
//! - The lists of a pass are reserved before anything else. If memory runs out there, nothing is done. The list of the processing jobs is
//!   fixed after the starts of jobs.
//! - A start or an end changes no queue's name, so the starts of jobs iterate over the queues by position and allocate no list.
//! - Within a part no branch follows a device error, since the spool then answers Dead without a call of the device. Only between the
//!   starts of jobs and the starts of stages a pass asks whether the spool is dead.
//! - A tick checks the children of all current jobs before it finishes the first one, so its ends are one list of steps, as in a round.
//!   Children whose jobs have left their stages are checked after that.
//! - No child runs before a round, so its clause has no blocked queue and no check of a child.
//!
//! # Not proved
//!
//! - How long a tick takes: a check and a start take as long as those of the launcher (`spool_runtime`).
//! - The effect of out of memory on a pass: one refused allocation in a round hinders at most one queue, except those of the lists that a
//!   pass reserves first (`tests/test_refused_scripts.py`).
//!
//! # Errors
//!
//! [`RoundFault`] is the first fault of a pass in time: a pass that met Full and then Disk returns Full, and the next one Dead. After
//! `Dead` nothing was done. `Memory` and `Full` concern one queue or job and do not stop the others; the next pass makes the steps that
//! they prevented. After `Disk`, of an event or of the read of a document, no event is applied and nothing more is started, and a round
//! still finishes all children that it started. The spool must then be opened again.
//!
//! # Cost
//!
//! A pass iterates over the slots three times. The number of slots is about that of the queues. The table returns each queue's next job and
//! its processing job without a search of the rows of jobs. A pass allocates its lists before anything else, and then memory for each order
//! and each event. A document is read only if the slot has no output, into memory of its own, since an order owns its input. A round holds
//! one document at a time, from its read until its child is started, and for each queue the output of its last stage. It holds none of them
//! twice.
#![tactic(auto)]

mod busy;
mod ends;
mod happenings;
mod launches;
mod laws;
mod looks;
mod outcome;
mod passes;
mod rounds;
mod slots;
mod start_room;
mod starts;
mod ticks;

pub use happenings::Happening;
pub use laws::{
    calls_join, calls_make_a_life, finishes_are_a_call, no_stage_comes_twice, rounds_are_ticks,
    rounds_hand_on, ticks_hand_on,
};
pub use outcome::{Launch, Report, Round, RoundFault};
pub use rounds::round;
pub use start_room::{StartRoom, TickLimits, count_free};
pub use ticks::{finish_children, tick};
