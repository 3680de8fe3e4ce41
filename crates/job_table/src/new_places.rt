//! New places of documents. They are noted one extent at a time, and taken for all documents at once.
ghost use Rattle.std.specs.Prelude.{◌≡◌, ℕ, ◌-◌, ◌*◌, ◌==◌, ◌<◌, ◌≤◌, ◌++◌, ◌∷◌, [], Some, IsSome, IsTrue, IfOk, IfErr, map, vec_capacity, vec_len, if◌then◌else◌};
ghost use Rattle.std.specs.Ordering.{nat_cmp};
ghost use Rattle.std.specs.FinMap as finite;
ghost use Rattle.spool_types.specs.Limits.{longest_send};
ghost use Rattle.spool_types.specs.State.{Job};
ghost use Rattle.job_table.specs.Contents.{no_moves, places_of, move_room};
ghost use Rattle.job_table.specs.DocumentLengths.{document_len};
ghost use Rattle.job_table.specs.Noted.{new_entry, new_spare, blank_entry, IsNewFor};
ghost use Rattle.job_rows.specs.RowPositions.{IsPosition, IsGap};
ghost use Rattle.job_table.specs.TableRows.{job_entry};

use crate::places::{document_len, piece_count};
use job_rows::Rows;
use spool_types::{Extent, Job, JobId};
use std::alloc::{AllocError, Global};
use std::marker::Model;
use std::mem;

/// A job, and the new extents of its document so far.
#[derive(Drop)]
struct NewDocument {
    job: JobId,
    extents: Vec<Extent>,
}

#[derive(Drop)]
pub(crate) struct NewPlaces {
    // In ascending order of number, without duplicates.
    documents: Vec<NewDocument>,
}

impl Model for NewPlaces {
    ghost use Rattle.job_table.specs.Contents.{Noted};
    ghost use Rattle.std.specs.Coded.{codes};
    ghost use Rattle.std.specs.FinMap as map;

    ghost Value = { Noted };

    ghost coded = { Prim.hlevel (codes, map.code) };

    ghost use Rattle.job_table.specs.Noted.{noted_of, AreNoted};

    ghost view = { noted_of };

    ghost invariant = { AreNoted };
}

impl NewPlaces {
    /// Returns a list without jobs. Does not allocate.
    pub fn none(alloc: Global) -> NewPlaces
        ensures { result ≡ no_moves }
    {
        NewPlaces {
            documents: Vec::new(alloc),
        }
    }

    /// Returns a list with the job of each row and no extents, with memory for one extent for each piece of its
    /// document.
    pub fn of_rows(alloc: Global, rows: &Rows) -> Result<NewPlaces, AllocError>
        requires { IsTrue (finite.is_sorted nat_cmp (map job_entry rows.now.items)) }
        ensures none { IfOk result (λ noted. noted.places ≡ map blank_entry rows.now.items) }
        ensures room { IfOk result (λ noted. (j : ℕ) (r : Job) → finite.find nat_cmp j (map job_entry rows.now.items) ≡ Some r → document_len r ≤ move_room noted j * longest_send) }
    {
        let mut documents = Vec::with_capacity(alloc, rows.len())?;
        for row in rows.iter() {
            documents.push(new_document(alloc, &row.job)?)?;
        }
        Ok(NewPlaces { documents })
    }

    /// Notes one more extent of a job's document. Does not allocate.
    pub fn note(&mut self, job: JobId, extent: Extent)
        requires { 0 < move_room self.old job }
        ensures noted { (j : ℕ) → places_of self.new.places j ≡ (if job == j then places_of self.old.places j ++ extent ∷ [] else places_of self.old.places j) }
        ensures there { (j : ℕ) → IsSome (finite.find nat_cmp j self.old.places) → IsSome (finite.find nat_cmp j self.new.places) }
        ensures room { (j : ℕ) → move_room self.new j ≡ (if job == j then move_room self.old j - 1 else move_room self.old j) }
    {
        match place(&self.documents, job) {
            Ok(at) => add_extent(&mut self.documents[at], extent),
            Err(_) => unreachable!(),
        }
    }

    /// Takes the new extents of a job's document out of the list.
    pub fn take(&mut self, job: JobId) -> Vec<Extent>
        requires { IsSome (finite.find nat_cmp job self.old.places) }
        ensures value { result.items ≡ places_of self.old.places job }
        ensures room { vec_capacity result - vec_len result ≡ move_room self.old job }
        ensures others { (j : ℕ) → ¬ (j ≡ job) → finite.find nat_cmp j self.new.places ≡ finite.find nat_cmp j self.old.places }
        ensures others_room { (j : ℕ) → ¬ (j ≡ job) → move_room self.new j ≡ move_room self.old j }
    {
        let alloc = *self.documents.allocator();
        match place(&self.documents, job) {
            Ok(at) => take_extents(alloc, &mut self.documents[at]),
            Err(_) => unreachable!(),
        }
    }
}

// Returns the position of the job, or as an error the position at which it would be inserted.
fn place(documents: &[NewDocument], job: JobId) -> Result<usize, usize>
    requires { IsTrue (finite.is_sorted nat_cmp (map new_entry documents.now)) }
    ensures found { IfOk result (IsPosition nat_cmp (λ d. d.job) documents.now job) }
    ensures absent { IfErr result (IsGap nat_cmp (λ d. d.job) documents.now job) }
{
    documents.binary_search_by_key(&job, |document| document.job)
}

// Returns an entry for this job without extents, with memory for one extent for each piece of its document.
fn new_document(alloc: Global, job: &Job) -> Result<NewDocument, AllocError>
    ensures { IfOk result (IsNewFor job.now) }
{
    let count = piece_count(document_len(job));
    let extents = Vec::with_capacity(alloc, count)?;
    Ok(NewDocument {
        job: job.id,
        extents,
    })
}

fn add_extent(document: &mut NewDocument, extent: Extent)
    requires { 0 < new_spare document.old }
    ensures job { document.new.job ≡ document.old.job }
    ensures added { document.new.extents.items ≡ document.old.extents.items ++ extent ∷ [] }
    ensures room { new_spare document.new ≡ new_spare document.old - 1 }
{
    document.extents.push_reserved(extent);
}

fn take_extents(alloc: Global, document: &mut NewDocument) -> Vec<Extent>
    ensures value { result ≡ document.old.extents }
    ensures job { document.new.job ≡ document.old.job }
{
    mem::replace(&mut document.extents, Vec::new(alloc))
}
