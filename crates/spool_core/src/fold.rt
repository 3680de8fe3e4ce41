//! The table that the payloads of an area encode.
ghost use Rattle.std.specs.Prelude.{◌≡◌, ◌<◌, ◌≤◌, ◌+◌, ◌^◌, length, List, ℕ, Some, false, ◌∷◌, [], ◌++◌, None, OnOk, IfOk, IfErr, IsErrOf};
ghost use Rattle.spool_disk.specs.Disk.{Blames};
ghost use Rattle.spool_areas.specs.Header.{header_len, IsVersion};
ghost use Rattle.spool_core.specs.VersionNumbers.{number_of};
ghost use Rattle.spool_types.specs.declared.version.Version.{Version as VersionOf};
ghost use Rattle.spool_areas.specs.Payloads.{gate_after};
ghost use Rattle.spool_areas.specs.PayloadExtents.{payloads_at, Follow};
ghost use Rattle.job_table.specs.Step.{refusal_of, after};
ghost use Rattle.spool_types.specs.Sent.{sent_by};
ghost use Rattle.job_table.specs.Contents.{HasPlace, AddsPlaces, no_moves, places_of};
ghost use Rattle.documents.specs.Documents.{LieIn};
ghost use Rattle.spool_core.specs.SpoolFields.{DocumentsLieIn, HasHistory};
ghost use Rattle.spool_core.specs.Image.{Begins};
ghost use Rattle.spool_core.specs.Folding.{IsPayloadAt, IsRowOrNone, IsReadFault, IsTakeFault, IsNextEvent, IsEventFault, IsCommitFault, IsFinishFault, IsFoldFault, IsRead, AreRows, HasNoneNoted, HasRead, ReadLiesIn, StayOver, decode_fault};

use event_codec::{CodecFault, decode, decode_row};
use gate_journal::HEAD_LEN;
use job_table::{LoadFault, Loading, PrepareFault, Table, ended_jobs_stay};
use spool_areas::{Areas, Extent, OpenFault};
use spool_disk::Disk;
use spool_types::{Event, Row, Version};
use std::alloc::{AllocError, Global};

// The result of the payloads read so far. Rows come first.
#[derive(Drop)]
enum Reading {
    Rows(Loading),
    Events(Table),
}

/// Reads the payloads in order: the rows of a listing, if any, and then events. Each event is committed to the listed table, or
/// to an empty one if there are no rows. The first payload that may not come next is damage at its gate. A listing that is
/// incomplete is damage at the gate that ends it.
pub(crate) fn fold<D: Disk>(
    areas: &mut Areas<D>,
    alloc: Global,
    payloads: &[Extent],
    gate: u64,
) -> Result<Table, OpenFault>
    requires alive { areas.old.dead ≡ false }
    requires known { IsVersion areas.old.version }
    requires lie { Follow (areas.old.base + header_len) payloads.now areas.old.gate }
    requires inside { areas.old.gate ≤ areas.old.end }
    requires ends { gate ≡ areas.old.gate }
    requires sized { areas.old.end < 2 ^ 64 }
    ensures table { IfOk result (λ t. (r : List ℕ) → D.device.bytes areas.old.disk ≡ Some r → HasHistory areas.old.base areas.old.version (payloads_at r payloads.now) t) }

    // The documents are after the header and before the gate, even on a disk that does not show its bytes.
    ensures lie { IfOk result (λ t. DocumentsLieIn (areas.old.base + header_len) areas.old.gate t) }
    ensures unmoved { IfOk result (λ t. t.moves ≡ no_moves) }
    ensures gate { OnOk result ((r : List ℕ) → D.device.bytes areas.old.disk ≡ Some r → areas.old.gate ≡ gate_after areas.old.base (payloads_at r payloads.now)) }
    ensures fault { IfErr result (λ e. (r : List ℕ) (v : VersionOf) → D.device.bytes areas.old.disk ≡ Some r → areas.old.version ≡ number_of v → IsFoldFault v areas.old.base payloads.now r e) }
    ensures blames { Blames (D.device.failures areas.old.disk) (D.device.failures areas.new.disk) (IsErrOf result OpenFault.Disk) }
    ensures alive { OnOk result (areas.new.dead ≡ false) }
    ensures same { IsRead D.device areas.old areas.new }
{
    let version = version_of(areas.version());
    let mut reading = Reading::Rows(Loading::new(alloc, version));
    let mut buffer = Vec::new(alloc);
    for extent in payloads {
        match read_payload(areas, &mut buffer, *extent) {
            Ok(()) => {}
            Err(fault) => {
                drop(reading);
                return Err(fault);
            }
        }
        reading = match take_payload(reading, alloc, &buffer, *extent) {
            Ok(reading) => reading,
            Err(fault) => return Err(fault),
        };
    }
    finish(reading, gate)
}

// Returns the version with this number. There are no other numbers.
fn version_of(number: u8) -> Version
    requires { IsVersion number }
    ensures { number ≡ number_of result }
{
    if number == 1 {
        Version::One
    } else {
        Version::Two
    }
}

// Reads one payload. Reuses the buffer's memory.
fn read_payload<D: Disk>(
    areas: &mut Areas<D>,
    buffer: &mut Vec<u8>,
    extent: Extent,
) -> Result<(), OpenFault>
    requires alive { areas.old.dead ≡ false }
    requires behind { areas.old.base + header_len + 5 ≤ extent.place }
    requires inside { extent.place + extent.len ≤ areas.old.end }
    ensures payload { OnOk result ((r : List ℕ) → D.device.bytes areas.old.disk ≡ Some r → IsPayloadAt r extent buffer.new.items) }
    ensures long { OnOk result (length buffer.new.items ≡ extent.len) }
    ensures fault { IfErr result IsReadFault }
    ensures blames { Blames (D.device.failures areas.old.disk) (D.device.failures areas.new.disk) (IsErrOf result OpenFault.Disk) }
    ensures alive { OnOk result (areas.new.dead ≡ false) }
    ensures same { IsRead D.device areas.old areas.new }
{
    buffer.clear();
    match buffer.resize(extent.len as usize, 0) {
        Ok(()) => {}
        Err(_) => return Err(OpenFault::Memory),
    }
    match areas.read_extent(extent.place, buffer) {
        Ok(()) => Ok(()),
        Err(_) => Err(OpenFault::Disk),
    }
}

// Takes the next payload: a row while rows may come, and then an event.
fn take_payload(
    reading: Reading,
    alloc: Global,
    payload: &[u8],
    extent: Extent,
) -> Result<Reading, OpenFault>
    requires head { 5 ≤ extent.place }
    requires long { length payload.now ≡ extent.len }
    requires inside { extent.place + extent.len < 2 ^ 64 }
    ensures next { IfOk result (λ next. (v : VersionOf) (base : ℕ) (payloads : List (List ℕ)) → HasRead v base reading payloads → extent.place ≡ gate_after base payloads + 5 → HasRead v base next (payloads ++ payload.now ∷ [])) }
    ensures lie { IfOk result (λ next. (low : ℕ) → low ≤ extent.place → ReadLiesIn low extent.place reading → ReadLiesIn low (extent.place + extent.len) next) }
    ensures unmoved { IfOk result (λ next. HasNoneNoted reading → HasNoneNoted next) }
    ensures fault { IfErr result (λ e. (v : VersionOf) (base : ℕ) (payloads : List (List ℕ)) → HasRead v base reading payloads → IsTakeFault v payloads payload.now extent e) }
    ensures never { ¬ (IsErrOf result OpenFault.Disk) }
{
    match reading {
        Reading::Rows(loading) => take_row(loading, alloc, payload, extent),
        Reading::Events(table) => add_event(table, alloc, payload, extent),
    }
}

// Takes a row of the listing, or the first event after it.
fn take_row(
    mut loading: Loading,
    alloc: Global,
    payload: &[u8],
    extent: Extent,
) -> Result<Reading, OpenFault>
    requires head { 5 ≤ extent.place }
    requires long { length payload.now ≡ extent.len }
    requires inside { extent.place + extent.len < 2 ^ 64 }
    ensures next { IfOk result (λ next. (v : VersionOf) (base : ℕ) (payloads : List (List ℕ)) → AreRows v base payloads loading → extent.place ≡ gate_after base payloads + 5 → HasRead v base next (payloads ++ payload.now ∷ [])) }
    ensures lie { IfOk result (λ next. (low : ℕ) → low ≤ extent.place → ((j : ℕ) → LieIn low extent.place (places_of loading.places j)) → ReadLiesIn low (extent.place + extent.len) next) }
    ensures unmoved { IfOk result HasNoneNoted }
    ensures fault { IfErr result (λ e. (v : VersionOf) (payloads : List (List ℕ)) → Begins v payloads loading.progress [] → IsTakeFault v payloads payload.now extent e) }
    ensures never { ¬ (IsErrOf result OpenFault.Disk) }
{
    match read_row(alloc, payload, loading.version()) {
        Ok(Some(row)) => match loading.load(row, extent.place) {
            Ok(()) => Ok(Reading::Rows(loading)),
            Err(LoadFault::Misplaced) => {
                drop(loading);
                Err(OpenFault::Damaged(extent.place - HEAD_LEN))
            }
            Err(LoadFault::Memory) => {
                drop(loading);
                Err(OpenFault::Memory)
            }
        },
        Ok(None) => {
            if loading.is_whole() {
                match loading.into_table() {
                    Ok(table) => add_event(table, alloc, payload, extent),
                    Err(_) => Err(OpenFault::Memory),
                }
            } else {
                drop(loading);
                Err(OpenFault::Damaged(extent.place - HEAD_LEN))
            }
        }
        Err(_) => {
            drop(loading);
            Err(OpenFault::Memory)
        }
    }
}

// Returns the row that the payload encodes in this version, if any.
fn read_row(alloc: Global, payload: &[u8], version: Version) -> Result<Option<Row>, AllocError>
    ensures row { IfOk result (IsRowOrNone version payload.now) }
{
    match decode_row(alloc, payload, version) {
        Ok(row) => Ok(Some(row)),
        Err(CodecFault::Memory) => Err(AllocError),
        Err(CodecFault::Kind) => Ok(None),
        Err(CodecFault::Length) => Ok(None),
        Err(CodecFault::Range) => Ok(None),
        Err(CodecFault::Utf8) => Ok(None),
    }
}

// Reads the next payload as an event, and applies it to the table.
fn add_event(
    mut table: Table,
    alloc: Global,
    payload: &[u8],
    extent: Extent,
) -> Result<Reading, OpenFault>
    requires head { 5 ≤ extent.place }
    requires long { length payload.now ≡ extent.len }
    requires inside { extent.place + extent.len < 2 ^ 64 }
    ensures next { IfOk result (IsNextEvent table payload.now extent.place) }
    ensures fault { IfErr result (IsEventFault table.state payload.now extent) }
{
    match decode(alloc, payload) {
        Ok(event) => match commit_event(&mut table, event, extent) {
            Ok(()) => Ok(Reading::Events(table)),
            Err(fault) => {
                drop(table);
                Err(fault)
            }
        },
        Err(fault) => {
            drop(table);
            Err(fault_of(extent, fault))
        }
    }
}

// Converts the error of a payload that was not decoded.
fn fault_of(extent: Extent, fault: CodecFault) -> OpenFault
    requires { 5 ≤ extent.place }
    ensures { result ≡ decode_fault extent fault }
{
    match fault {
        CodecFault::Memory => OpenFault::Memory,
        _ => OpenFault::Damaged(extent.place - HEAD_LEN),
    }
}

// Applies an event of the journal to the table. A spool writes no event that is refused.
fn commit_event(table: &mut Table, event: Event, extent: Extent) -> Result<(), OpenFault>
    requires head { 5 ≤ extent.place }
    requires at { HasPlace extent.place (sent_by event) }
    ensures accepted { OnOk result (refusal_of table.old.state event ≡ None) }
    ensures table { OnOk result (table.new.state ≡ after table.old.state event) }
    ensures places { OnOk result (AddsPlaces extent.place (sent_by event) table.old table.new) }
    ensures moves { OnOk result (table.new.moves ≡ table.old.moves) }
    ensures lasting { OnOk result (StayOver table.old.state table.new.state) }
    ensures fault { IfErr result (IsCommitFault table.old.state event extent) }
{
    ended_jobs_stay();
    // The table is legal.
    let _jobs = table.jobs();
    match table.prepare(&event) {
        Ok(()) => {
            table.commit(event, extent.place);
            Ok(())
        }
        Err(PrepareFault::Refused(_)) => {
            drop(event);
            Err(OpenFault::Damaged(extent.place - HEAD_LEN))
        }
        Err(PrepareFault::Memory) => {
            drop(event);
            Err(OpenFault::Memory)
        }
    }
}

// Returns the table, unless a document is incomplete.
fn finish(reading: Reading, gate: u64) -> Result<Table, OpenFault>
    ensures table { IfOk result (λ t. (v : VersionOf) (base : ℕ) (payloads : List (List ℕ)) → HasRead v base reading payloads → HasHistory base (number_of v) payloads t) }
    ensures lie { IfOk result (λ t. (low high : ℕ) → ReadLiesIn low high reading → DocumentsLieIn low high t) }
    ensures unmoved { IfOk result (λ t. HasNoneNoted reading → t.moves ≡ no_moves) }
    ensures fault { IfErr result (λ e. (v : VersionOf) (base : ℕ) (payloads : List (List ℕ)) → HasRead v base reading payloads → IsFinishFault v payloads gate e) }
    ensures never { ¬ (IsErrOf result OpenFault.Disk) }
{
    match reading {
        Reading::Rows(loading) => {
            if loading.is_whole() {
                match loading.into_table() {
                    Ok(table) => Ok(table),
                    Err(_) => Err(OpenFault::Memory),
                }
            } else {
                drop(loading);
                Err(OpenFault::Damaged(gate))
            }
        }
        Reading::Events(table) => Ok(table),
    }
}
