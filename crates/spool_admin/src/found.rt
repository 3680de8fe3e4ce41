//! The contents of a spool's disk, found without changing it.
ghost use Rattle.std.specs.Prelude.{◌≡◌, ◌+◌, ◌<◌, List, ℕ, Some, IfErr, IfOk, map};
ghost use Rattle.spool_types.specs.State.{State, job_of};
ghost use Rattle.spool_disk.specs.Disk.{ChangesNothing};
ghost use Rattle.spool_areas.specs.Header.{half};
ghost use Rattle.spool_core.specs.Image.{HasTable, IsFaultOf};
ghost use Rattle.spool_admin.specs.DiskContents.{AreCounted, HasArea, HasCounts};

use job_rows::Rows;
use job_table::Table;
use spool_areas::{Areas, Opened};
use spool_core::{OpenFault, Spool};
use spool_disk::Disk;
use std::alloc::Global;

/// Number of jobs, in total and by phase.
#[derive(Clone, Copy)]
pub struct JobCounts {
    pub all: usize,
    /// Jobs that are still receiving their documents.
    pub incoming: usize,
    /// Closed jobs that wait, including held ones.
    pub waiting: usize,
    pub processing: usize,
    pub ended: usize,
}

/// Figures about the contents of a disk.
#[derive(Clone, Copy)]
pub struct Account {
    /// Version and epoch of the current area.
    pub version: u8,
    pub epoch: u64,
    /// Length in bytes of the disk and of an area.
    pub size: u64,
    pub area: u64,
    /// Number of bytes of the current area before its closed gate, and from there on.
    pub used: u64,
    pub free: u64,
    pub queues: usize,
    pub jobs: JobCounts,
}

/// A disk, the offset of its current area, and its figures.
#[derive(Drop)]
pub struct Found<D> {
    pub disk: D,
    pub base: u64,
    pub account: Account,
}

// The offset of a disk's current area, and the values of its header.
#[derive(Clone, Copy)]
struct Place {
    base: u64,
    version: u8,
    epoch: u64,
    used: u64,
    free: u64,
}

/// Reads all of a spool's disk. Writes nothing: an attempt that is running on the disk stays so.
pub fn find<D: Disk + Drop>(alloc: Global, disk: D) -> Result<Found<D>, OpenFault>
    ensures still { IfOk result (λ found. ChangesNothing D.device disk found.disk) }
    ensures counts { IfOk result (λ found. (r : List ℕ) → D.device.bytes disk ≡ Some r → HasCounts found.account.queues found.account.jobs r) }
    ensures area { IfOk result (λ found. (r : List ℕ) → D.device.bytes disk ≡ Some r →
        HasArea found.base found.account.version found.account.epoch found.account.used found.account.free r) }
    ensures size { IfOk result (λ found. (found.account.size ≡ D.device.size disk) × (found.account.area ≡ half (D.device.size disk))) }
    ensures within { IfOk result (λ found. found.base + found.account.used < D.device.size found.disk) }
    ensures short { IfOk result (λ found. found.account.used < found.account.size) }
    // A fault of the bytes is theirs.
    ensures fault { IfErr result (λ fault. (r : List ℕ) → D.device.bytes disk ≡ Some r → IsFaultOf r fault) }
{
    let (disk, queues, jobs) = count_rows(alloc, disk)?;
    let (disk, place) = find_area(alloc, disk)?;
    let size = disk.len();
    let account = Account {
        version: place.version,
        epoch: place.epoch,
        size,
        area: size / 2,
        used: place.used,
        free: place.free,
        queues,
        jobs,
    };
    Ok(Found {
        disk,
        base: place.base,
        account,
    })
}

// Returns the number of queues and of jobs of the spool on a disk.
fn count_rows<D: Disk + Drop>(alloc: Global, disk: D) -> Result<(D, usize, JobCounts), OpenFault>
    ensures still { IfOk result (λ counted. ChangesNothing D.device disk counted.0) }
    ensures counts { IfOk result (λ counted. (r : List ℕ) → D.device.bytes disk ≡ Some r → HasCounts counted.1 counted.2 r) }
    ensures fault { IfErr result (λ fault. (r : List ℕ) → D.device.bytes disk ≡ Some r → IsFaultOf r fault) }
{
    let spool = match Spool::load(alloc, disk) {
        Ok(spool) => spool,
        Err(error) => return Err(error.fault),
    };
    let table: &Table = spool.table();
    let queues = table.queues().len();
    let jobs = count_jobs(table.jobs());
    Ok((spool.into_disk(), queues, jobs))
}

fn count_jobs(rows: &Rows) -> JobCounts
    ensures { AreCounted (map job_of rows.now.items) result }
{
    JobCounts {
        all: rows.len(),
        incoming: rows
            .iter()
            .filter(|row| row.job.phase.is_incoming())
            .count(),
        waiting: rows.iter().filter(|row| row.job.phase.is_waiting()).count(),
        processing: rows
            .iter()
            .filter(|row| row.job.phase.is_processing())
            .count(),
        ended: rows.iter().filter(|row| row.job.phase.has_ended()).count(),
    }
}

// Finds the current area of a disk.
fn find_area<D: Disk + Drop>(alloc: Global, disk: D) -> Result<(D, Place), OpenFault>
    ensures still { IfOk result (λ found. ChangesNothing D.device disk found.0) }
    ensures area { IfOk result (λ found. (r : List ℕ) → D.device.bytes disk ≡ Some r →
        HasArea found.1.base found.1.version found.1.epoch found.1.used found.1.free r) }
    ensures within { IfOk result (λ found. found.1.base + found.1.used < D.device.size disk) }
    ensures short { IfOk result (λ found. found.1.used < half (D.device.size disk)) }
    ensures fault { IfErr result (λ fault. (r : List ℕ) (table : State) → D.device.bytes disk ≡ Some r → HasTable table r → IsFaultOf r fault) }
{
    let Opened {
        areas,
        gate,
        room,
        damage,
        ..
    } = match Areas::open(alloc, disk) {
        Ok(opened) => opened,
        Err(error) => return Err(error.fault),
    };
    match damage {
        None => {}
        Some(place) => return Err(OpenFault::Damaged(place)),
    }
    let base = areas.base();
    let version = areas.version();
    let epoch = areas.epoch();
    let disk = areas.into_disk();
    let place = Place {
        base,
        version,
        epoch,
        used: gate - base,
        free: room,
    };
    Ok((disk, place))
}
