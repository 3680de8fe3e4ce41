//! Filling the other area with a table's listing. The rows are encoded into one block, which is written whenever it is long
//! enough. The new places of the documents are noted.
ghost use Rattle.std.specs.Prelude.{◌≡◌, ◌<◌, ◌≤◌, ◌+◌, ◌^◌, ◌∷◌, [], ℕ, List, length, map, replicate, take, drop, false, Ok, None, Some, IsSome, OnOk, vec_len, vec_capacity};
ghost use Rattle.std.specs.FinMap as finite;
ghost use Rattle.std.specs.List.{flat_map, AllByRecursion};
ghost use Rattle.spool_types.specs.Limits.{longest_send};
ghost use Rattle.spool_types.specs.State.{Job as JobOf, job_at};
ghost use Rattle.spool_types.specs.declared.listing.Row.{Row as RowOf};
ghost use Rattle.spool_types.specs.declared.version.Version.TheVariants.{Two};
ghost use Rattle.gate_journal.specs.Appends.{kept_room};
ghost use Rattle.spool_areas.specs.AreaFilling.{block_len};
ghost use Rattle.spool_areas.specs.Header.{header_len};
ghost use Rattle.spool_areas.specs.AreaFields.{IsArea};
ghost use Rattle.spool_areas.specs.Checkpoint.{area_len, other_base, plan_of};
ghost use Rattle.event_codec.specs.RowSpelling.{row_spelling, IsOrderedQueue, IsRowSpellable};
ghost use Rattle.job_table.specs.Contents.{HasNoMoves, move_room, places_at};
ghost use Rattle.job_table.specs.DocumentLengths.{document_len};
ghost use Rattle.job_table.specs.Listing.{listing};
ghost use Rattle.documents.specs.Documents.{joined, LieIn};
ghost use Rattle.spool_core.specs.Checkpointing.{blank, blank_rows, MayBeListed};
ghost use Rattle.spool_core.specs.SpoolFields.{DocumentsLieIn, IsOpenSpoolAt};
ghost use Rattle.spool_core.specs.OpenSpools.{len_at};
ghost use Rattle.listing_rows.specs.RowFilling.{block_room, filling, filling_at, next_place, IsPut, records_len, MayFill, IsFillingOn, AddsRows};
ghost use Rattle.spool_core.specs.ListingFilling.{HasMoveRoom, IsReadOn, TellsBut, IsPieceAdded, IsPieceNoted, IsDue, IsDocumentAdded, IsDocumentNoted, AreJobsAdded, AreJobsNoted, IsListingAdded, AreDocumentsNoted, IsFilledOver};

use documents::read_joined;
use job_table::{Table, document_len, listings_are_loaded};
use listing_rows::{Filler, PIECE_HEAD, end_record, put_head, put_job, put_piece, put_queue};
use spool_areas::{AreaFault, Areas, ReadFault};
use spool_disk::Disk;
use spool_types::{JobId, LONGEST_SEND, QueueRow};

/// Lists a table in the other area, and makes that area the current one. Notes the new places of the documents in the table.
/// Allocates nothing: the block has room for all bytes that are written at once.
pub(super) fn fill_other<D: Disk>(
    areas: &mut Areas<D>,
    table: &mut Table,
    block: Vec<u8>,
) -> Result<(), AreaFault>
    requires alive { areas.old.dead ≡ false }
    requires stands { IsOpenSpoolAt D.device areas.old table.old }
    requires plan { plan_of areas.old [] ≡ Ok (other_base areas.old + header_len) }
    requires room { other_base areas.old + header_len + records_len (listing table.old.state (blank table.old.state)) + kept_room ≤ other_base areas.old + area_len areas.old }
    requires empty { block.items ≡ [] }
    requires spare { block_room ≤ vec_capacity block }
    requires none { HasNoMoves table.old.state table.old.moves }
    requires moves { HasMoveRoom table.old.state table.old.moves }

    ensures over { IsFilledOver D.device table.old areas.old areas.new result }
    ensures settled { OnOk result (areas.new.held ≡ None) }
    ensures same { table.new.state ≡ table.old.state }
    ensures places { table.new.places ≡ table.old.places }
    ensures noted { OnOk result (AreDocumentsNoted table.old.state (other_base areas.old + header_len) table.new.moves) }
{
    let gate = areas.begin()?;
    let mut filler = Filler { gate, block };
    add_listing(areas, table, &mut filler)?;
    let end = areas.write_rows(filler.gate, &mut filler.block)?;
    areas.open_other(end)
}

// Adds the rows of a table's listing.
fn add_listing<D: Disk>(
    areas: &mut Areas<D>,
    table: &mut Table,
    filler: &mut Filler,
) -> Result<(), AreaFault>
    requires may { MayFill D.device (listing table.old.state (blank table.old.state)) (filling_at areas.old filler.old) }
    requires lie { DocumentsLieIn (areas.old.base + header_len) areas.old.end table.old }
    requires spare { block_room ≤ vec_capacity filler.old.block }
    requires none { HasNoMoves table.old.state table.old.moves }
    requires moves { HasMoveRoom table.old.state table.old.moves }

    ensures on { IsFillingOn D.device (filling_at areas.old filler.old) (filling_at areas.new filler.new) result }
    ensures spare { vec_capacity filler.old.block ≤ vec_capacity filler.new.block }
    ensures same { table.new.state ≡ table.old.state }
    ensures places { table.new.places ≡ table.old.places }
    ensures added { OnOk result (IsListingAdded D.device table.old (filling_at areas.old filler.old) (filling_at areas.new filler.new)) }
    ensures noted { OnOk result (AreDocumentsNoted table.old.state (next_place (filling_at areas.old filler.old)) table.new.moves) }
{
    listings_are_loaded();
    // A row can represent the highest number.
    let _highest = table.highest();
    let queues = table.queues();
    let start = put_head(&mut filler.block, table.head());
    end_record(areas, filler, start)?;
    add_queues(areas, filler, queues)?;
    add_jobs(areas, table, filler)
}

// Adds the rows of queues.
fn add_queues<D: Disk>(
    areas: &mut Areas<D>,
    filler: &mut Filler,
    queues: &[QueueRow],
) -> Result<(), AreaFault>
    requires may { MayFill D.device (map (λ q. RowOf.Queue q) queues.now) (filling_at areas.old filler.old) }
    requires spare { block_room ≤ vec_capacity filler.old.block }
    requires ordered { AllByRecursion IsOrderedQueue queues.now }

    ensures on { IsFillingOn D.device (filling_at areas.old filler.old) (filling_at areas.new filler.new) result }
    ensures spare { vec_capacity filler.old.block ≤ vec_capacity filler.new.block }
    ensures added { OnOk result (AddsRows D.device (map (λ q. RowOf.Queue q) queues.now) (filling_at areas.old filler.old) (filling_at areas.new filler.new)) }
{
    for queue in queues {
        let start = put_queue(&mut filler.block, queue);
        end_record(areas, filler, start)?;
    }
    Ok(())
}

// Adds the rows of all jobs, each with those of its document's pieces.
fn add_jobs<D: Disk>(
    areas: &mut Areas<D>,
    table: &mut Table,
    filler: &mut Filler,
) -> Result<(), AreaFault>
    requires may { MayFill D.device (flat_map blank_rows (finite.values table.old.state.jobs)) (filling_at areas.old filler.old) }
    requires lie { DocumentsLieIn (areas.old.base + header_len) areas.old.end table.old }
    requires spare { block_room ≤ vec_capacity filler.old.block }
    requires listed { AllByRecursion MayBeListed (finite.values table.old.state.jobs) }
    requires moves { HasMoveRoom table.old.state table.old.moves }

    ensures on { IsFillingOn D.device (filling_at areas.old filler.old) (filling_at areas.new filler.new) result }
    ensures spare { vec_capacity filler.old.block ≤ vec_capacity filler.new.block }
    ensures same { table.new.state ≡ table.old.state }
    ensures places { table.new.places ≡ table.old.places }
    ensures added { OnOk result (AreJobsAdded D.device table.old (filling_at areas.old filler.old) (filling_at areas.new filler.new)) }
    ensures noted { OnOk result (AreJobsNoted table.old.state (next_place (filling_at areas.old filler.old)) table.old.moves table.new.moves) }
{
    let mut next = table.jobs().first();
    while let Some(job) = next {
        add_job(areas, table, job, filler)?;
        next = table.jobs().next_above(job.get());
    }
    Ok(())
}

// Adds the row of a job and those of its document's pieces.
fn add_job<D: Disk>(
    areas: &mut Areas<D>,
    table: &mut Table,
    job: JobId,
    filler: &mut Filler,
) -> Result<(), AreaFault>
    requires due { IsDue D.device table.old job (filling_at areas.old filler.old) }
    requires spare { block_room ≤ vec_capacity filler.old.block }

    ensures on { IsFillingOn D.device (filling_at areas.old filler.old) (filling_at areas.new filler.new) result }
    ensures spare { vec_capacity filler.old.block ≤ vec_capacity filler.new.block }
    ensures same { table.new.state ≡ table.old.state }
    ensures places { table.new.places ≡ table.old.places }
    ensures added { OnOk result ((r : JobOf) → job_at table.old.state job ≡ Some r →
        IsDocumentAdded D.device (places_at table.old job) r (filling_at areas.old filler.old) (filling_at areas.new filler.new)) }
    ensures noted { OnOk result ((r : JobOf) → job_at table.old.state job ≡ Some r →
        IsDocumentNoted r (next_place (filling_at areas.old filler.old)) table.old.moves table.new.moves) }
{
    let (start, len) = put_row(&mut filler.block, table, job);
    end_record(areas, filler, start)?;
    let mut done = 0;
    while done < len {
        let count = (len - done).min(LONGEST_SEND);
        add_piece(areas, table, job, done, count, filler)?;
        done += count;
    }
    Ok(())
}

// Encodes the row of a job into a block. Returns the index of its record, and the length of its document.
fn put_row(block: &mut Vec<u8>, table: &Table, job: JobId) -> (usize, usize)
    requires few { length block.old.items < block_len }
    requires spare { block_room ≤ vec_capacity block.old }
    requires there { IsSome (job_at table.now.state job) }
    ensures put { (r : JobOf) → job_at table.now.state job ≡ Some r → IsPut (RowOf.Job r) block.old block.new result.0 }
    ensures len { (r : JobOf) → job_at table.now.state job ≡ Some r → result.1 ≡ document_len r }
    ensures spellable { (r : JobOf) → job_at table.now.state job ≡ Some r → MayBeListed r → IsRowSpellable Two (RowOf.Job r) }
{
    match table.job(job) {
        Some(row) => {
            let start = put_job(block, &row.job);
            (start, document_len(&row.job))
        }
        None => unreachable!(),
    }
}

// Adds the row of a piece of a document, `count` bytes from an offset on, and notes their new place.
fn add_piece<D: Disk>(
    areas: &mut Areas<D>,
    table: &mut Table,
    job: JobId,
    at: usize,
    count: usize,
    filler: &mut Filler,
) -> Result<(), AreaFault>
    requires may { MayFill D.device (RowOf.Piece job (replicate count 0) ∷ []) (filling_at areas.old filler.old) }
    requires spare { block_room ≤ vec_capacity filler.old.block }
    requires some { 0 < count }
    requires short { count ≤ longest_send }
    requires lie { LieIn (areas.old.base + header_len) areas.old.end (places_at table.old job) }
    requires inside { at + count ≤ len_at table.old.state job }
    requires room { 0 < move_room table.old.moves job }

    ensures on { IsFillingOn D.device (filling_at areas.old filler.old) (filling_at areas.new filler.new) result }
    ensures spare { vec_capacity filler.old.block ≤ vec_capacity filler.new.block }
    ensures same { table.new.state ≡ table.old.state }
    ensures places { table.new.places ≡ table.old.places }
    ensures added { OnOk result (IsPieceAdded D.device (places_at table.old job) job at count (filling_at areas.old filler.old) (filling_at areas.new filler.new)) }
    ensures noted { OnOk result (IsPieceNoted job count (next_place (filling_at areas.old filler.old)) table.old.moves table.new.moves) }
{
    let start = put_piece(&mut filler.block, job, count);
    match read_piece(
        areas,
        table,
        job,
        at,
        &mut filler.block[start + PIECE_HEAD..],
    ) {
        Ok(()) => {}
        Err(_) => return Err(AreaFault::Disk),
    }
    table.push_move(job, filler.gate + start as u64 + 5, count);
    end_record(areas, filler, start)
}

// Reads bytes of a document from the current area, which has not changed.
fn read_piece<D: Disk>(
    areas: &mut Areas<D>,
    table: &Table,
    job: JobId,
    at: usize,
    into: &mut [u8],
) -> Result<(), ReadFault>
    requires alive { areas.old.dead ≡ false }
    requires area { IsArea areas.old.base areas.old.end (D.device.size areas.old.disk) }
    requires lie { LieIn (areas.old.base + header_len) areas.old.end (places_at table.now job) }
    requires some { 0 < length into.old }
    requires inside { at + length into.old ≤ len_at table.now.state job }

    ensures read { IsReadOn D.device areas.old areas.new result }
    ensures data { OnOk result ((r : List ℕ) → TellsBut D.device areas.old r → into.new ≡ take (length into.old) (drop at (joined r (places_at table.now job)))) }
{
    match table.job(job) {
        Some(row) => read_joined(areas, &row.document, at as u64, into),
        None => unreachable!(),
    }
}
