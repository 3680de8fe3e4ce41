//! The rows of a table and the functions that read them.
ghost use Rattle.std.specs.Prelude.{◌≡◌, ◌≤◌, [], true, Some, IfSome, map};
ghost use Rattle.std.specs.Option.{option_copied, option_map};
ghost use Rattle.std.specs.List.{Contains};
ghost use Rattle.std.specs.FinMap as finite;
ghost use Rattle.spool_types.specs.Limits.{greatest_number};
ghost use Rattle.spool_types.specs.State.{Job, nothing_in, job_of, queue_at, job_at};
ghost use Rattle.job_table.specs.Contents.{no_room, places_at, AreSized, HasOwnPlaces, IsFreedWhenEnded};
ghost use Rattle.job_table.specs.DocumentLengths.{document_len};
ghost use Rattle.job_table.specs.Legal.{IsLegal};
ghost use Rattle.job_table.specs.TableRows.{job_entry, place_entry};
ghost use Rattle.job_table.specs.TableVersions.{raised};
ghost use Rattle.extents.specs.Extents.{size_of};
ghost use Rattle.spool_types.specs.Phases.{has_ended};

use job_rows::Rows;
use lookup::queue_position;
use row_effects::Spare;
use spool_types::{JobId, JobRow, Moment, QueueName, QueueRow, Version};
use std::alloc::Global;
use std::marker::Model;

mod attempts;
mod commit;
mod load;
mod lookup;
mod moves;
mod reserve;
mod row_changes;

pub use attempts::is_in_stage;

#[derive(Drop)]
pub(crate) struct Store {
    // In ascending order of name, without duplicates.
    queues: Vec<QueueRow>,
    // Each under its own number.
    jobs: Rows,
    highest: u32,
    moment: Moment,
    version: Version,
    // Memory reserved for the effects of a stage.
    spare: Spare,
}

impl Model for Store {
    ghost use Rattle.job_table.specs.Contents.{Contents};
    ghost use Rattle.std.specs.Coded.{codes};
    ghost use Rattle.std.specs.FinMap as map;

    ghost Value = { Contents };

    ghost coded = { Prim.hlevel (codes, map.code) };

    ghost use Rattle.job_table.specs.TableFields.{contents_of, IsOrdered};

    ghost view = { contents_of };

    ghost invariant = { IsOrdered };
}

impl Store {
    /// Returns rows without queues and jobs, at the moment 0 and in this version of the area. Does not allocate.
    pub fn new(alloc: Global, version: Version) -> Store
        ensures state { result.state ≡ nothing_in version }
        ensures places { result.places ≡ [] }
        ensures room { result.room ≡ no_room }
    {
        Store {
            queues: Vec::new(alloc),
            jobs: Rows::new(alloc),
            highest: 0,
            moment: Moment::ZERO,
            version,
            spare: Spare::new(alloc),
        }
    }

    /// Returns the current moment in seconds: the greatest that a Clock event has set, or 0.
    pub fn now(&self) -> Moment
        ensures { result ≡ self.now.state.moment }
    {
        self.moment
    }

    /// Returns the version of the rows' area.
    pub fn version(&self) -> Version
        ensures { result ≡ self.now.state.version }
    {
        self.version
    }

    /// Sets the version of the area to the newest one. The rows do not change.
    pub fn raise(&mut self)
        ensures state { self.new.state ≡ raised self.old.state }
        ensures places { self.new.places ≡ self.old.places }
        ensures room { self.new.room ≡ self.old.room }
    {
        self.version = Version::Two;
    }

    /// Returns the highest number that was ever assigned to a job, or 0.
    pub fn highest(&self) -> u32
        ensures value { result ≡ self.now.state.highest }
        ensures at_most { result ≤ greatest_number }
    {
        self.highest
    }

    /// Finds the queue of this name by binary search.
    pub fn queue(&self, name: &QueueName) -> Option<&QueueRow>
        ensures { option_copied result ≡ queue_at self.now.state name.now }
    {
        match queue_position(&self.queues, name) {
            Ok(at) => Some(&self.queues[at]),
            Err(_) => None,
        }
    }

    /// Finds the job of this number by binary search.
    pub fn job(&self, id: JobId) -> Option<&JobRow>
        ensures row { option_map job_of (option_copied result) ≡ job_at self.now.state id }
        ensures places { IfSome result (λ r. r.now.document.items ≡ places_at self.now id) }
        ensures sized { IfSome result (λ r. size_of r.now.document.items ≡ document_len r.now.job) }
        ensures ended { IfSome result (λ r. has_ended r.now.job.phase ≡ true → r.now.document.items ≡ []) }
    {
        self.jobs.get(id)
    }

    /// Returns all queues, in ascending order of name.
    pub fn queues(&self) -> &[QueueRow]
        ensures rows { result.now ≡ finite.values self.now.state.queues }
        ensures names { map (λ row. row.name) result.now ≡ finite.keys self.now.state.queues }
        ensures legal { IsLegal self.now.state }
    {
        &self.queues
    }

    /// Returns all jobs, in ascending order of number.
    pub fn jobs(&self) -> &Rows
        ensures rows { map job_of result.now.items ≡ finite.values self.now.state.jobs }
        ensures numbers { result.now.numbers ≡ finite.keys self.now.state.jobs }
        ensures each { result.now.numbers ≡ map (λ row. row.job.id) result.now.items }
        ensures entries { map job_entry result.now.items ≡ finite.entries self.now.state.jobs }
        ensures found { (row : Job) → Contains (finite.values self.now.state.jobs) row → job_at self.now.state row.id ≡ Some row }
        ensures legal { IsLegal self.now.state }
        ensures freed { IsFreedWhenEnded self.now }
        ensures places { map place_entry result.now.items ≡ self.now.places }
        ensures own { HasOwnPlaces self.now }
        ensures sized { AreSized self.now }
    {
        &self.jobs
    }

    pub(crate) fn queue_count(&self) -> usize
        ensures { result ≡ finite.len self.now.state.queues }
    {
        self.queues.len()
    }
}
