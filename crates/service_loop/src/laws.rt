//! Laws on the service's clock, its clients and its engine. The functions do nothing: their clauses are the laws.
ghost use Rattle.std.specs.Prelude.{◌≡◌, ◌<◌, ◌≤◌, ◌++◌, ℕ, List, false, None, Some, Ok, IfSome, IsSome};
ghost use Rattle.std.specs.FinMap as finite;
ghost use Rattle.slab.specs.Slab.{Slab, get};
ghost use Rattle.spool_types.specs.Limits.{greatest_moment};
ghost use Rattle.spool_types.specs.Phases.{job_state, job_reason};
ghost use Rattle.spool_types.specs.State.{State, Job, queue_at, job_at};
ghost use Rattle.spool_types.specs.declared.event.Event.TheVariants.{Clock};
ghost use Rattle.spool_types.specs.declared.event.Reply.TheVariants.{Done};
ghost use Rattle.spool_types.specs.declared.rows.QueueRow.{QueueRow};
ghost use Rattle.spool_disk.specs.Disk.{LeavesOnly};
ghost use Rattle.queue_sched.specs.Next.{is_eligible};
ghost use Rattle.job_table.specs.Step.{step};
ghost use Rattle.print_rounds.specs.RoundTicks.{count_running};
ghost use Rattle.job_table.specs.TableCalls.{AreOnce};
ghost use Rattle.spool_engine.specs.EngineCalls.{IsAlongCalls};
ghost use Rattle.spool_engine.specs.EventSteps.{IsKept};
ghost use Rattle.spool_engine.specs.EngineRuns.{Engine};
ghost use Rattle.client_reader.specs.Asks.{asks_of};
ghost use Rattle.client_reader.specs.ReaderCalls.{AreFirstOf};
ghost use Rattle.service_loop.specs.ServiceCalls.{GoesByCalls, GoesWithin, ServiceLife, IsServiceHistory, keys_ordered};
ghost use Rattle.client_standing.specs.ClientStanding.{first_standing};
ghost use Rattle.service_loop.specs.ConnectionViews.{ProofStep};
ghost use Rattle.service_loop.specs.ClientActions.{IsDurable, asks_in, proofs_in, standing_after_all, texts_in};
ghost use Rattle.job_table.specs.DueTimes.{next_due};
ghost use Rattle.service_loop.specs.Due.{IsQuietUntil};
ghost use Rattle.service_loop.specs.ClientSteps.{AreClientSteps, HasAll, IsEntry, ClientStep, actions_of};
ghost use Rattle.service_loop.specs.SlotHistories.{HasServed, IsCause, IsLoopEvent, IsServedRight, LoopEvent};
ghost use Rattle.service_loop.specs.declared.client.Client.{Client};

use crate::connection::Connection;
use spool_disk::Disk;
use spool_engine::{crashes_between_calls, no_stage_is_ordered_twice};

/// A Clock before the next due time changes nothing but the moment, so the service sends none.
pub fn nothing_is_due_before()
    // Nothing is due before the moment that `Maintenance::look` finds over all jobs.
    ensures found { (s : State) (m : ℕ) → s.moment < m → m ≤ greatest_moment → IfSome (next_due s) (λ due. m < due) → IsQuietUntil s m }

    // It changes no row, and its reply is `Done`.
    ensures rows { (s : State) (m : ℕ) → IsQuietUntil s m → step s (Clock m) ≡ Ok (record s { moment = m }, Done) }

    // No job may be started then.
    ensures starts { (s : State) (m : ℕ) → IsQuietUntil s m → (name : List ℕ) (q : QueueRow) → queue_at s name ≡ Some q →
        (j : ℕ) (r : Job) → job_at s j ≡ Some r → is_eligible (finite.values s.jobs) name q.stopped m r ≡ false }

    // Each job's shown state and reason stay the same.
    ensures state { (s : State) (m : ℕ) → IsQuietUntil s m → (j : ℕ) (r : Job) → job_at s j ≡ Some r →
        job_state m r.phase ≡ job_state s.moment r.phase }
    ensures reason { (s : State) (m : ℕ) → IsQuietUntil s m → (j : ℕ) (r : Job) → job_at s j ≡ Some r →
        job_reason m r.phase ≡ job_reason s.moment r.phase }
{}

/// *ClientsApart*: over any list of a client's steps since its admission (a turn, a text of changes, readiness), whatever
/// the engine does for others between them.
pub fn clients_of_the_loop_stay_apart<L: Connection, D: Disk>()
    // Its actions answer, one for one and in order, the first of the requests in the text of its connection, whatever may follow this text. So
    // a last line without its line feed is never served: `cancel 1` may have been cut from `cancel 12`.
    ensures asks { (own : L) (c : Client L) (client_steps : List (ClientStep D L)) (last : Client L) →
        IsEntry L.view own c → AreClientSteps D.device L.view c client_steps last →
        (text : List ℕ) → L.view.remaining own ≡ Some text → (more : List ℕ) → AreFirstOf (asks_in (actions_of client_steps)) (asks_of (text ++ more)) }
    // The bytes written to its connection, followed by the replies not taken, are the texts of these actions, in order and each byte once.
    ensures texts { (own : L) (c : Client L) (client_steps : List (ClientStep D L)) (last : Client L) →
        IsEntry L.view own c → AreClientSteps D.device L.view c client_steps last →
        (said : List ℕ) → L.view.contents own ≡ Some said → HasAll L.view said (texts_in (actions_of client_steps)) last }
    // Its rights are those of the socket that it came by, changed by these actions alone.
    ensures standing { (own : L) (c : Client L) (client_steps : List (ClientStep D L)) (last : Client L) →
        IsEntry L.view own c → AreClientSteps D.device L.view c client_steps last →
        last.standing ≡ standing_after_all (first_standing (L.view.rules own) (L.view.is_operators own)) (actions_of client_steps) }
    // What it has proved by these actions is what its connection reports.
    ensures proofs { (own : L) (c : Client L) (client_steps : List (ClientStep D L)) (last : Client L) →
        IsEntry L.view own c → AreClientSteps D.device L.view c client_steps last →
        (steps : List ProofStep) → L.view.proofs own ≡ Some steps → L.view.proofs last.connection ≡ Some (steps ++ proofs_in (actions_of client_steps)) }
{}

/// *ClientsApart*, through `serve`: each client that has a slot after the events of a service that began without clients was admitted in one of
/// them, with a connection from which nothing was read, and made client steps since. So [`clients_of_the_loop_stay_apart`] holds for it.
/// `history` of [`crate::Service::serve`] shows that a service goes by such events. Each moment of a service ends a list of its events.
pub fn clients_of_a_service_stay_apart<L: Connection, D: Disk>()
    ensures { (old : Engine D) (slots : Slab (Client L)) (events : List (LoopEvent L)) (new : Engine D) (left : Slab (Client L)) →
        HasServed D.device L.view old slots events new left → (key : ℕ) (c : Client L) → get left key ≡ Some c → IsServedRight D.device L.view events c }
{}

/// A client leaves its slot for one of the listed causes alone (`IsCause`): in its own turn it had left, memory ran out for it, or the device
/// failed; it was the idle client that a new one replaced; or memory ran out for a notice while it watched.
pub fn clients_leave_for_a_cause<L: Connection, D: Disk>()
    ensures { (old : Engine D) (slots : Slab (Client L)) (event : LoopEvent L) (new : Engine D) (left : Slab (Client L)) →
        IsLoopEvent D.device L.view old slots event new left → (key : ℕ) (c : Client L) → get slots key ≡ Some c → get left key ≡ None →
        IsCause D.device L.view old slots event new key c }
{}

/// *NoStageTwice*, through the service: over any number of services, each made on the table that the previous one left and perhaps some
/// further events, as an opening finds it, no stage of an attempt is ordered twice. `calls` of [`crate::Service::serve`] shows that a
/// service's engine changes by calls.
pub fn services_order_no_stage_twice<D: Disk>()
    ensures { (lives : List (ServiceLife D)) → IsServiceHistory D.device lives → AreOnce (keys_ordered lives) }
{
    no_stage_is_ordered_twice::<D>();
}

/// *The limit of children*, through the service: if no more children run than the service's limit, no more run after any of its calls. `calls`
/// of [`crate::Service::serve`] shows that a service's engine changes by such calls, and each moment of a service is the end of some.
pub fn services_keep_their_limit<D: Disk>()
    ensures { (most left : ℕ) (old new : Engine D) → GoesWithin D.device most old left new →
        count_running old.run_state.slots ≤ most → count_running new.run_state.slots ≤ left }
{}

/// *A crash*, through the service: as long as the engine changes by calls, a crash leaves the table of any earlier moment at which all events
/// were durable, or the table after a prefix of the events since then.
pub fn crashes_lose_no_call<D: Disk>()
    // From the beginning.
    ensures calls { (old new : Engine D) (goes : GoesByCalls D.device old new) → IsKept D.device old.run_state.spool →
        old.run_state.spool.dead ≡ false → IsSome (D.device.bytes old.run_state.spool.disk) →
        LeavesOnly D.device old.run_state.spool.disk new.run_state.spool.disk (IsAlongCalls old.mime old.run_state goes.calls) }
    // From each moment at which all events are durable. Bytes are written to clients at such moments alone, so no later crash takes a reply
    // back.
    ensures durable { (old mid new : Engine D) (before : GoesByCalls D.device old mid) (after : GoesByCalls D.device mid new) →
        IsKept D.device old.run_state.spool → IsDurable mid.run_state.spool → IsSome (D.device.bytes mid.run_state.spool.disk) →
        LeavesOnly D.device mid.run_state.spool.disk new.run_state.spool.disk (IsAlongCalls old.mime mid.run_state after.calls) }
{
    crashes_between_calls::<D>();
}
