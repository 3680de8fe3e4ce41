//! Applying a list of events in order.
ghost use Rattle.std.specs.Prelude.{◌≡◌, ◌<◌, ◌≤◌, ◌+◌, ◌⊎◌, ◌↔◌, List, ℕ, Some, None, Ok, IsSome, IsTrue, false, length, take, OnOk, IfOk, IfErr, IsErrOf, slice_get, Option};
ghost use Rattle.spool_disk.specs.Disk.{Blames, IsSynced, LeavesOnly};
ghost use Rattle.spool_types.specs.declared.event.Event.{Event};
ghost use Rattle.spool_types.specs.declared.event.NewJob.{NewJob};
ghost use Rattle.spool_types.specs.State.{State, Job, job_at};
ghost use Rattle.job_table.specs.Apart.{IsPart, own_events};
ghost use Rattle.job_table.specs.Legal.{IsLegal};
ghost use Rattle.job_table.specs.Step.{creation, refusal_of};
ghost use Rattle.job_table.specs.EventFold.{after_all, accepted};
ghost use Rattle.job_table.specs.Ended.{HasEndedJob, IsKeptOrPurged, subject};
ghost use Rattle.job_table.specs.Over.{HasOver, late_refusal};
ghost use Rattle.spool_core.specs.Image.{HasTable, HasDocuments, HasBeforeOrAfterEvent, HasWholeBeforeOrAfterEvent, documents_after_one};
ghost use Rattle.spool_core.specs.OpenSpools.{IsFull, IsSettled};
ghost use Rattle.spool_core.specs.Driving.{replies_to, reach, room_after, HasPrefixTable, HasWholePrefix, IsEnding, IsAcknowledged, IsAcknowledgedWhole, KeepsImages, LeavesDocuments, IsOutcome};
ghost use Rattle.spool_core.specs.RunEvents.{DrivesOne};

use crate::spool::{ApplyFault, Spool};
use job_table::{ended_jobs_stay, queues_stay_apart};
use spool_disk::Disk;
use spool_types::{Event, Refusal, Reply};
use std::alloc::Global;

/// Why a run of events ended.
#[derive(Clone, Copy, Debug, PartialEq, Eq)]
pub enum Ending {
    /// Every event was answered.
    End,
    /// Memory ran out for the next event or for its reply.
    Memory,
    /// The record of the next event does not fit into the area.
    Full,
    /// The device failed. The next event may or may not be on it.
    Disk,
    /// The device had failed before.
    Dead,
}

/// The replies to a run of events, and why the run ended.
#[derive(Drop)]
pub struct Driven {
    /// A reply or a refusal for each event, up to the end of the run.
    pub replies: Vec<Result<Reply, Refusal>>,
    pub ending: Ending,
}

// Applies one event. A refusal counts as an answer; any other fault ends the run.
fn drive_one<D: Disk>(spool: &mut Spool<D>, event: Event) -> Result<Result<Reply, Refusal>, Ending>
    requires settled { IsSettled spool.old }
    ensures settled { IsSettled spool.new }
    ensures driven { DrivesOne D.device spool.old event result spool.new }
    ensures blames { Blames (D.device.failures spool.old.disk) (D.device.failures spool.new.disk) (IsErrOf result Ending.Disk) }
    ensures fixed { D.device.size spool.new.disk ≡ D.device.size spool.old.disk }
    ensures told { IsSome (D.device.bytes spool.new.disk) ↔ IsSome (D.device.bytes spool.old.disk) }
    ensures any_moment { spool.old.dead ≡ false → IsSome (D.device.bytes spool.old.disk) →
        LeavesOnly D.device spool.old.disk spool.new.disk (HasBeforeOrAfterEvent spool.old.state event) }
    ensures documents { spool.old.dead ≡ false → (r : List ℕ) (documents : ℕ → List ℕ) → D.device.bytes spool.old.disk ≡ Some r → HasDocuments spool.old.state documents r →
        LeavesOnly D.device spool.old.disk spool.new.disk (HasWholeBeforeOrAfterEvent spool.old.state documents event) }
    ensures kept { OnOk result (IsSome (D.device.bytes spool.old.disk) → KeepsImages D.device spool.old → KeepsImages D.device spool.new) }
    ensures sent { OnOk result ((r : List ℕ) (documents : ℕ → List ℕ) → D.device.bytes spool.old.disk ≡ Some r → HasDocuments spool.old.state documents r →
        LeavesDocuments D.device spool.new.state (documents_after_one spool.old.state documents event) spool.new.disk) }
{
    match spool.apply(event) {
        Ok(reply) => Ok(Ok(reply)),
        Err(ApplyFault::Refused(refusal)) => Ok(Err(refusal)),
        Err(ApplyFault::Memory) => Err(Ending::Memory),
        Err(ApplyFault::Full) => Err(Ending::Full),
        Err(ApplyFault::Disk) => Err(Ending::Disk),
        Err(ApplyFault::Dead) => Err(Ending::Dead),
    }
}

// States the images of a spool before any event is applied.
fn look<D: Disk>(spool: &Spool<D>)
    requires settled { IsSettled spool.now }
    ensures kept { spool.now.dead ≡ false → IsSome (D.device.bytes spool.now.disk) → KeepsImages D.device spool.now }
    ensures synced { spool.now.dead ≡ false → IsSynced D.device spool.now.disk }
{
    spool.table();
}

// Returns whether the first event would be answered with `Dead`.
fn is_over<D: Disk>(spool: &Spool<D>, events: &Vec<Event>) -> bool
    ensures over { IsTrue result → IsTrue spool.now.dead × (0 < length events.now.items) }
    ensures on { result ≡ false → 0 < length events.now.items → spool.now.dead ≡ false }
{
    spool.is_dead() && !events.is_empty()
}

// Applies the events up to the end of the run. Reserves room for each reply before its event is applied.
fn drive_all<D: Disk>(alloc: Global, spool: &mut Spool<D>, events: Vec<Event>) -> Driven
    requires settled { IsSettled spool.old }
    ensures outcome { IsOutcome D.device spool.old events.items result.replies.items result.ending spool.new }
    ensures settled { IsSettled spool.new }
{
    let mut replies = Vec::new(alloc);
    look(spool);
    if is_over(spool, &events) {
        // Returned before memory for a reply is needed.
        let ending = Ending::Dead;
        return Driven { replies, ending };
    }
    for event in events {
        if replies.reserve(1).is_err() {
            drop(event);
            let ending = Ending::Memory;
            return Driven { replies, ending };
        }
        match drive_one(spool, event) {
            Ok(answer) => replies.push(answer).unwrap(),
            Err(ending) => return Driven { replies, ending },
        }
    }
    let ending = Ending::End;
    Driven { replies, ending }
}

/// Applies the events in order, and continues after a refusal. Stops at the first event that is not answered. Nothing may be staged,
/// unless the device has failed.
pub fn drive<D: Disk>(alloc: Global, spool: &mut Spool<D>, events: Vec<Event>) -> Driven
    requires settled { IsSettled spool.old }
    ensures settled { IsSettled spool.new }

    // The replies, and the table after the answered events.
    ensures replies { result.replies.items ≡ replies_to spool.old.state (take (length result.replies.items) events.items) }
    ensures table { spool.new.state ≡ after_all spool.old.state (take (length result.replies.items) events.items) }
    ensures ending { IsEnding D.device spool.old events.items (length result.replies.items) result.ending spool.new }
    ensures alive { 0 < length result.replies.items → spool.old.dead ≡ false }
    ensures room { spool.new.room ≡ room_after spool.old.state spool.old.room (take (length result.replies.items) events.items) }

    // A dead spool answers `Dead` to the first event, whether memory is available or not, and changes nothing.
    ensures dead { IsTrue spool.old.dead → 0 < length events.items → (result.ending ≡ Ending.Dead) × (spool.new ≡ spool.old) }

    // A crash at any moment leaves the table after some of the events.
    ensures any_moment { spool.old.dead ≡ false → IsSome (D.device.bytes spool.old.disk) →
        LeavesOnly D.device spool.old.disk spool.new.disk (HasPrefixTable spool.old.state events.items 0 (reach result.ending (length result.replies.items))) }

    // No acknowledged event is lost: a chain of disks connects each reply with the next, and after a reply a crash leaves a table
    // that contains its event.
    ensures acknowledged { spool.old.dead ≡ false → IsSome (D.device.bytes spool.old.disk) →
        IsAcknowledged D.device spool.old.state events.items (length result.replies.items) (reach result.ending (length result.replies.items)) spool.old.disk spool.new.disk }
    ensures kept { spool.new.dead ≡ false → IsSome (D.device.bytes spool.old.disk) → (c : List ℕ) → D.device.image spool.new.disk c → HasTable spool.new.state c }
    ensures after_fault { spool.old.dead ≡ false → IsSome (D.device.bytes spool.old.disk) → (c : List ℕ) → D.device.image spool.new.disk c →
        HasPrefixTable spool.old.state events.items (length result.replies.items) (reach result.ending (length result.replies.items)) c }

    // The same for documents: at any moment a crash leaves those after some of the events. After a reply the part that its event
    // sent is stored, and at the end the parts that all acknowledged events sent.
    ensures documents { spool.old.dead ≡ false → (r : List ℕ) (documents : ℕ → List ℕ) → D.device.bytes spool.old.disk ≡ Some r → HasDocuments spool.old.state documents r →
        LeavesOnly D.device spool.old.disk spool.new.disk (HasWholePrefix spool.old.state documents events.items 0 (reach result.ending (length result.replies.items))) }
    ensures whole { spool.old.dead ≡ false → (r : List ℕ) (documents : ℕ → List ℕ) → D.device.bytes spool.old.disk ≡ Some r → HasDocuments spool.old.state documents r →
        IsAcknowledgedWhole D.device spool.old.state documents events.items (length result.replies.items) (reach result.ending (length result.replies.items)) spool.old.disk spool.new.disk }
    ensures sent { spool.old.dead ≡ false → (r : List ℕ) (documents : ℕ → List ℕ) → D.device.bytes spool.old.disk ≡ Some r → HasDocuments spool.old.state documents r →
        (c : List ℕ) → D.device.image spool.new.disk c → HasWholePrefix spool.old.state documents events.items (length result.replies.items) (reach result.ending (length result.replies.items)) c }

    // A job that has ended stays as it is, or one of the events purged it. A number that is over stays over: events about it are
    // refused, and it is not assigned again.
    ensures ended { (j : ℕ) (job : Job) → HasEndedJob spool.old.state j job →
        IsKeptOrPurged spool.old.state (take (length result.replies.items) events.items) spool.new.state j job }
    ensures over { (j : ℕ) → HasOver spool.old.state j → HasOver spool.new.state j }
    ensures refused { (j : ℕ) (e : Event) → HasOver spool.old.state j → subject e ≡ Some j → refusal_of spool.new.state e ≡ Some (late_refusal (job_at spool.new.state j)) }
    ensures number { (j : ℕ) (n : NewJob) (by : Option ℕ) → HasOver spool.old.state j → n.job ≡ j → IsSome (refusal_of spool.new.state (creation n by)) }

    // The part of a queue depends only on its own events: another table that is this part of the old table is, after these
    // events, the same part of the new one.
    ensures apart { (name : List ℕ) (t : State) → IsLegal spool.old.state → IsLegal t → IsPart name spool.old.state t →
        IsPart name spool.new.state (after_all t (own_events spool.old.state name (accepted spool.old.state (take (length result.replies.items) events.items)))) }

    ensures blames { Blames (D.device.failures spool.old.disk) (D.device.failures spool.new.disk) (result.ending ≡ Ending.Disk) }
    ensures fixed { D.device.size spool.new.disk ≡ D.device.size spool.old.disk }
    ensures told { IsSome (D.device.bytes spool.new.disk) ↔ IsSome (D.device.bytes spool.old.disk) }
{
    ended_jobs_stay();
    queues_stay_apart();
    drive_all(alloc, spool, events)
}
