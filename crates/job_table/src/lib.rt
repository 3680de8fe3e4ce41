//! The table of queues and jobs in memory, changed by one event at a time.
//!
//! The model of a [`Table`] (`Contents`) has:
//!
//! - the state: finite maps of the queues by name and of the jobs by number, the highest number assigned, the current
//!   moment in seconds, and the version of the area;
//! - the places of the documents: the extents of each job in order. The bytes of documents are on disk only, and are
//!   not part of a state;
//! - the reserved room, and the new places of documents that a checkpoint notes.
//!
//! An event takes two calls. [`Table::prepare`] refuses the event, or reserves the memory that it needs.
//! [`Table::commit`] changes the rows. The caller writes the event to its journal between the two calls, when the event
//! can neither be refused nor run out of memory.
//!
//! A table consists of its rows (`Store`), a lane for each queue (`Lane`), one timetable (`Timetable`) and one agenda
//! (`Agenda`). A lane has the index of the queue's waiting jobs, its processing job, and the number of its jobs that
//! have not ended. The timetable has the deadlines of all waiting jobs that must start by a moment, and counts the jobs
//! that must. The agenda has the ends of holds, the retries and the ended jobs. Lanes, timetable and agenda are derived
//! from the rows, so that neither the choice of a job, a clock event, nor the search for what falls due next reads the
//! rows.
//!
//! # Events
//!
//! The events are AddQueue, Info, SetAccept, SetStop, Create, CreateBy, Send, Close, Hold, Release, Cancel, Clock,
//! Start, Stage, Abandon, Reopen and Purge. The definitions in `specs/` state the effect of each:
//!
//! - `Step`: one row for each event, with the shape of its change, its own causes of refusal in order, and its reply.
//!   All its causes of refusal are `causes`, the new table is `after`, the reply `reply_to`, and either the reply or
//!   the refusal `answer_to`. `Shapes`: the shapes of change, each with the causes that all its events share
//!   (`causes_of`). A shape names a queue, a job, or neither: a Clock and a Reopen concern every queue. CreateBy and
//!   Purge are refused as NeedsCheckpoint in version 1, before any other cause (`lacks_by`, `lacks_purge`).
//! - `EventChanges`: the changes of a row by an event. A Clock sets the later of two moments, cancels each waiting job
//!   of any queue that had to start before it, and changes no other job (`at_clock`, `is_late`). A Purge removes the
//!   row of an ended job (`WithoutJob`), and the highest number stays. `EventFold`: many events in order.
//! - `Attempts`: how an attempt at a job starts, and how its end or its loss changes the job and its queue. The effects
//!   of a stage are applied before the verdict on its exit (`with_effects`); `row_effects` defines the effects.
//!   `lost_by` is the verdict on an attempt without a recorded end, and `reopened` the table after this verdict on
//!   every processing job. `Losses`: how a reopening changes a processing job and its queue.
//! - `Apart`: a queue's part of a table (`IsPart`), which is its row and its jobs (`rows_of`), and the queue's own
//!   events (`events_of`, `own_events`): the events that name it or a job of it, each Clock and each Reopen. The queue
//!   of a job is known from the Creates if the list of events begins with the empty table, and from the table before
//!   the event otherwise.
//! - `Contents`: the extents of each document (`places_at`) and the extents that an event adds (`AddsPlaces`); the new
//!   places noted for a checkpoint (`Noted`, `HasNoMoves`, `HasMoves`); the rows, extents, reasons and attributes that
//!   can be added without allocating (`Room`). `DocumentLengths`: the length of each document (`document_len`,
//!   `AreDocuments`). No event is refused or answered by the contents of documents.
//! - `DueTimes`: the earliest moment at which a clock event changes something about a job or starts one (`due_of`), and
//!   the earliest of all jobs (`next_due`); the jobs that a clock event cancels or whose hold it ends (`IsChangedJob`);
//!   the numbers of the ended jobs in ascending order (`ended_numbers`).
//! - `Over`: the numbers that are over: the job has ended, or no job has the number and it is at most the highest
//!   assigned. `TableVersions`: the same table in the newest version.
//! - `Stages`: a table is in a stage of an attempt (`IsIn`). The stage is spent (`IsSpent`) if the job has ended or was
//!   removed, has had a later attempt, or its last attempt is this one and is neither in this stage nor in a lower one.
//! - `TableCalls`: a call relates a table and its held stages to those after the call (`IsTableCall`). A stage is held
//!   (`IsHeld` of `print_rounds`) if it has begun and its end was not reported. The acknowledged events turn the first
//!   table into the second, both seen in version 2. Each new order comes once and was not held, and the table was in
//!   its stage after some of the events. Each stage that was held or ordered is held or spent afterwards, unless the
//!   device has failed.
//! - `Legal`: the invariant of every state (`IsLegal`). Numbers, moments and pages have no upper bound there. That the
//!   highest number is at most 2,147,483,647 is an invariant of the table (`at_most` of [`Table::highest`]).
//! - `Listing`: the rows that a checkpoint writes for a table: its head, its queues, and its jobs, each followed by the
//!   pieces of its document. `Loading`: which row may come next (`IsPlaced`) and the progress after it (`loaded`), for
//!   one row and for many (`ArePlaced`, `loaded_all`).
//!
//! # Promises
//!
//! - *ExactStep*: [`Table::prepare`] refuses an event exactly if a cause of refusal applies, with the refusal of the
//!   first such cause (`refused`, by `refusal_of`). It changes no row and moves no document, whatever it returns
//!   (`same`, `places`, `moves`). It checks for a refusal first, so it is out of memory only for an event that is not
//!   refused, and only if room is missing (`ready`). After Ok the event is prepared (`ok`, by `IsPrepared`), and stays
//!   so as long as no row changes.
//! - *ExactStep*: [`Table::commit`] of the event just prepared yields the state and the reply of the step (`step`). A
//!   Send adds the extent of its bytes, which begins nine bytes after the place of the payload. No other document moves
//!   (`places`, by `AddsPlaces`), and the list of new places does not change (`moves`).
//! - *ExactStep*: [`Table::new`] is empty, at the moment 0, in version 2 and without room. [`Table::job`],
//!   [`Table::queue`], [`Table::jobs`], [`Table::queues`], [`Table::now`], [`Table::highest`] and [`Table::version`]
//!   return exactly the parts of the state. [`Table::head`] is the first row of the listing. [`Table::close_refusal`]
//!   is the refusal of a Close of this job.
//! - Versions: [`Table::raise`] sets version 2 and changes nothing else. An event that a table accepts is also accepted
//!   in version 2, with the same reply and the same rows ([`versions_rise`]).
//! - Documents: [`Table::job`] returns a document's extents. Their total length is that of the document (`sized`). No
//!   other extents are stored (`own` of [`Table::jobs`]), and there is no room for a job that has ended (`freed`).
//!   [`document_len`] is the length of a job's document.
//! - New places of documents: [`Table::prepare_moves`] reserves room for them, and after an error nothing has changed
//!   (`kept`). [`Table::push_move`] notes an extent. [`Table::commit_moves`] sets all documents to the places that were
//!   noted. [`Table::forget_moves`] frees the list. The spool calls it after every result of a checkpoint, so the list
//!   exists only during one. None of these calls changes the state (`same`) or the rest of the room (`reserved`).
//! - *ExactChoice*: [`Table::next`] returns the job of a queue to start next (`IsNextJob`), which is `next_job` of
//!   `queue_sched`, or None exactly if no job of the queue is eligible (`value`, by `next_of`). That job can be started
//!   (`startable`). A Start of any other waiting job is refused as NotNext (`is_next`). [`Table::index`] returns the
//!   index of a queue, with exactly its waiting jobs (`IsIndexOf`) at the table's moment, each before the jobs that it
//!   beats, and None exactly if the queue does not exist (`absent`). [`Table::processing`] returns the processing job
//!   of a queue (`busy_of`), and [`Table::is_idle`] whether no queue has one (`HasNoProcessing`).
//! - Due times: [`Table::next_due`] returns the earliest due moment of all jobs (`next_due`). [`Table::changed_by`] lists
//!   exactly the jobs that a clock event changes (`IsChangedJob`). [`Table::ended_count`] and [`Table::ended_job`] return
//!   the number of the ended jobs and the one at a position, in ascending order of number (`ended_numbers`).
//! - *Reopening* ([`reopening`]): the event Reopen applies the error policy of its queue to each processing job
//!   (`lost`), and no other job changes (`others`, `absent`). A queue changes only in that it stops, if the policy
//!   requires it (`queues`, `unstopped`, `no_queue`). Nothing else changes (`rest`). No job is processing afterwards
//!   (`none`). If none was processing nothing changes (`idle`), and a second reopening changes nothing (`twice`).
//! - *NoHiddenAllocation*: only [`Table::prepare`] can be out of memory. [`Table::commit`] cannot fail: it uses the
//!   room that `prepare` reserved (`IsPrepared`), and it leaves at most the room that it found (`room`, by
//!   `HasNoMore`). The functions that only read take no allocator.
//! - *EndedStaysEnded* ([`ended_jobs_stay`]): a job that has ended never changes (`unchanged`), and is removed only by
//!   an accepted Purge (`stays`, by `IsKeptOrPurged`). A number that is over stays over (`over`, `accepted`), events
//!   about it are refused (`refused`), and it is not assigned again (`number`).
//! - [`spent_stages_stay_spent`] (by `Stages`): a spent stage of an attempt stays spent, whatever the events (`stays`).
//!   A stage that a table is in is still current or spent after any events (`left`), and is not spent before
//!   (`either`). An accepted end of a stage leaves it (`ended`). So no stage of an attempt comes twice. [`is_in_stage`]
//!   returns exactly whether a phase is in that stage of that attempt.
//! - *QueuesApart* ([`queues_stay_apart`]): refused events leave the table as it is (`skipped`). Of the accepted ones
//!   only a queue's own events determine its row and its jobs (`rows`) and send their documents (`documents`). An event
//!   about the queue or its jobs, except AddQueue and Create, gets the same answer without the other queues
//!   (`answers`). No other event changes anything of the queue (`others`, and `goes_on` from any two tables that agree
//!   on the queue). So queues share only the room in the journal, memory, the limit of 64 queues and the numbers of
//!   jobs. No clause states when an event comes.
//! - [`legal_tables_stay_legal`]: the empty table of either version is legal (`begins`), and a legal table stays legal
//!   after any events (`stays`).
//! - *Loading*: [`Loading::new`] is the empty table. [`Loading::load`] accepts a row exactly if it may come next
//!   (`placed`, `misplaced`), and adds the row (`loaded`); a piece adds its extent (`places`, by `AddsPiece`). After an
//!   error the loading is unchanged (`same`). [`Loading::version`], [`Loading::is_whole`] and [`Loading::into_table`]
//!   return its parts and the loaded table. The listing of a legal table loads the same table (`listed` of
//!   [`listings_are_loaded`]), and only the listing of a legal table is accepted as a whole (`only`).
//!
//! # Not proved
//!
//! - That a call without an allocator allocates nothing. Promised is only that such calls cannot fail.
//!   (`tests/test_allocations.py` counts allocations.)
//! - What removing a row costs.
//! - That [`Table::next`] inspects no row of a job.
//!
//! # Invariants
//!
//! 1. The rows of queues are in ascending order of name, and the rows of jobs in ascending order of number, both
//!    without duplicates; each job is stored under its own number (`IsOrdered`). So a row is found by binary search. A
//!    new queue is inserted where the search ends, and a new job is appended. A purge removes a row and leaves a gap in
//!    the numbers.
//! 2. The state of the rows is legal (`IsLegal`). There are at most 64 queues, and the key of a row is its own name or
//!    number. No job has a number above the highest one assigned. The queue of each job exists, and the phase of a job
//!    fits the rest of its row: its media type and its filters, and fewer than 4,294,967,295 attempts of a job that is
//!    incoming or waiting. A processing job is in a stage of its newest attempt, and a queue has at most one. The size
//!    of a job is at most 16,777,216 bytes. The reasons and the attributes of a queue are in ascending order, without
//!    duplicates, at most 64 of each.
//! 3. No number above 2,147,483,647 was assigned.
//! 4. After `prepare` there is room for one more row, if the event adds a queue or a job; for one more extent of the
//!    job's document, if it is a Send; and for the reasons and attributes that its effects may add, if it ends a stage
//!    (`HasRoom`). A list that grows at least doubles. A new job comes last, because its number is above all others, so
//!    no row moves for it. No call copies a text of an event.
//! 5. The total length of a job's extents is that of its document: its size, or 0 after the job has ended
//!    (`HoldsDocument`). A job that has ended uses no memory for extents (`IsFreedWhenEnded`). A Send of no bytes has
//!    an extent of no bytes. Extents are never joined, because no two are adjacent.
//! 6. Each queue has its lane, in the order of the queues (`AreLanes`). The index of the lane has the queue's waiting
//!    jobs and the table's moment, its processing job is the queue's, and it counts at least the queue's jobs that have
//!    not ended (`IsLane`). It has room for all of these to wait, and for each new job that the table has room for. So
//!    only a new job allocates: an event or a reopening that makes a job wait does not. For every event about a job,
//!    `commit` compares the job's lane state before and after the change of the rows, and one function moves the job
//!    (`Lane::reseat`).
//! 7. The timetable has the deadline of each waiting job that must start by a moment, and no other (`IsTimely`). It
//!    counts at least all jobs that must start by a moment, whatever their phase. It has room for all of these to wait,
//!    and for each new job that the table has room for (`IsInLanes`), so a job that becomes a waiting job allocates
//!    nothing. No event changes the moment by which an existing job must start, so a deadline is only added, removed or
//!    retained (`MayRetime`). A purged job has no deadline and is not counted (`IsDismissed`).
//! 8. The agenda has the end of each hold that has one, the retry of each waiting job that has one, and each ended job,
//!    and nothing else (`AreDates`). The dates do not depend on the current moment, so no clock event changes them. Each
//!    of the three lists has room for all jobs and for each new job that the table has room for (`IsAgenda`,
//!    `IsInLanes`), so no event allocates for them but a new job. For every event about a job, `commit` compares the
//!    job's dates before and after the change of the rows (`Agenda::redate`).
//! 9. The rows of a loading are legal. Its last job is stored apart from them while its document is incomplete: the
//!    document so far consists of full pieces, and the job may be added as the last row (`IsReading`). So the table is
//!    legal after each row. The memory for the row and for the extents of all its pieces is allocated when the job is
//!    loaded; no clause states this. The lanes, the timetable and the agenda are built after the last row.
//!
//! # Errors
//!
//! - [`PrepareFault`]: the event is refused, or memory ran out. The rows are unchanged, as if the event had not come.
//! - [`LoadFault`]: the row may not come next, or memory ran out. The loading is unchanged. A row may not come next if
//!   it is out of place, or if the table would not be legal. [`Loading::load`] also checks conditions that the types of
//!   a row do not state: the highest number of a head, the order of reasons and attributes, and that the phase of a job
//!   fits the rest of its row.
//!
//! # Cost
//!
//! - A row is found by binary search. The next job and the processing job are read from a lane.
//! - An event about a job moves the job's entry in the lane's index, its deadline in the timetable and its dates in the
//!   agenda, each by binary search.
//! - [`Table::next_due`] reads the lanes of at most 64 queues, and four dates, which it finds by binary search.
//!   [`Table::changed_by`] reads the dates of the jobs that it lists, and [`Table::ended_job`] one date. None of them
//!   reads a row.
//! - A clock event inspects the first deadline, and cancels the late jobs one at a time while the old moment is still
//!   in force; each step is a Cancel. For k late jobs of n waiting jobs this costs about k steps. If none is late, no
//!   job is inspected. Then the new moment is set in each lane, which searches the jobs of a lane only if one of them
//!   may be started from then on.
//! - A purge inspects no lane and moves no other row (`job_rows`). It removes the job's entry from the agenda by binary
//!   search; the entry of the oldest ended job is the first, so no other moves.
//! - [`Loading::into_table`] sorts the waiting jobs of each queue once, and the deadlines and the dates once.
#![tactic(auto)]

mod agenda;
mod lane;
mod laws;
mod listing;
mod loading;
mod new_places;
mod places;
mod store;
mod table;
mod timetable;

pub use laws::{
    ended_jobs_stay, legal_tables_stay_legal, listings_are_loaded, queues_stay_apart, reopening,
    spent_stages_stay_spent, versions_rise,
};
pub use loading::{LoadFault, Loading};
pub use places::document_len;
pub use store::is_in_stage;
pub use table::{PrepareFault, Table};
