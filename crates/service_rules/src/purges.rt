//! Which ended jobs to purge, so that the table does not grow forever.
ghost use Rattle.std.specs.Prelude.{◌≡◌, ℕ, ◌-◌, ◌≤◌, List, [], drop, filter, length};
ghost use Rattle.std.specs.Iterator.{item_count, YieldsFirst};
ghost use Rattle.service_rules.specs.Bounds.{most_purges};
ghost use Rattle.service_rules.specs.Purges.{above, is_purgeable, IsSweptTo, purge_count, purged, RisesFrom, swept_to};
ghost use Rattle.service_rules.specs.declared.purges.Candidate.{Candidate as AnyCandidate};

use crate::bounds::MOST_PURGES;
use spool_types::JobId;
use std::marker::Model;

/// A job: its number, whether it has ended, and whether its child still runs.
#[derive(Clone, Copy)]
pub struct Candidate {
    pub id: JobId,
    pub ended: bool,
    pub runs: bool,
}

/// How many jobs to purge in this turn, if `ended` jobs have ended and `keep` are retained.
pub fn purge_count(ended: usize, keep: usize) -> usize
    ensures value { result ≡ purge_count ended keep }
    ensures few { result ≤ most_purges }
    ensures kept { result ≤ ended - keep }
{
    ended.saturating_sub(keep).min(MOST_PURGES)
}

/// The jobs to purge among these, in ascending order of number: the first `count` that have ended and have no running child. Does not
/// allocate.
pub fn jobs_to_purge(jobs: &[Candidate], count: usize) -> Purges<'_>
    ensures { result ≡ purged count jobs.now }
{
    Purges { jobs, left: count }
}

/// The numbers of the jobs to purge, in the order of the jobs.
#[derive(Drop)]
pub struct Purges<'a> {
    jobs: &'a [Candidate],
    left: usize,
}

impl<'a> Model for Purges<'a> {
    ghost use Rattle.std.specs.Prelude.{List, ℕ};

    ghost Value = { List ℕ };

    ghost use Rattle.service_rules.specs.Purges.{purged};

    ghost view = { λ it. purged it.left it.jobs.now };
}

impl<'a> Iterator for Purges<'a> {
    type Item = JobId;

    ghost next_gives = { YieldsFirst (λ numbers. numbers) };

    ghost remaining = { item_count (λ numbers. numbers) };

    fn next(&mut self) -> Option<JobId> {
        if self.left == 0 {
            return None;
        }
        while let Some((job, rest)) = self.jobs.split_first() {
            self.jobs = rest;
            if is_purgeable(job) {
                self.left -= 1;
                return Some(job.id);
            }
        }
        None
    }
}

/// The number of the last job that needs no further check after the first `count` purgeable ones were returned. The jobs are in ascending
/// order and above the cursor. The next turn begins above this number.
pub fn swept_to(jobs: &[Candidate], count: usize, cursor: u32) -> u32
    ensures { result ≡ swept_to cursor count jobs.now }
{
    let mut left = count;
    let mut swept = cursor;
    for job in jobs {
        if is_purgeable(job) {
            if left == 0 {
                return swept;
            }
            left -= 1;
        }
        swept = job.id.get();
    }
    swept
}

fn is_purgeable(job: &Candidate) -> bool
    ensures { result ≡ is_purgeable job.now }
{
    ended_jobs::is_purgeable(job.ended, job.runs)
}

/// Jobs that were checked need no further check. So the service remembers the number of the last checked job, and lowers it if a job at or
/// below it ends, or the child of one.
pub fn swept_jobs_are_skipped()
    // If none may be purged up to a number, the jobs above it give the same result.
    ensures skipped { (cursor count : ℕ) (jobs : List AnyCandidate) → IsSweptTo cursor jobs → purged count (above cursor jobs) ≡ purged count jobs }

    // In a list that ascends from the cursor, the purgeable jobs above the returned number are exactly those that were not returned.
    ensures rest { (cursor count : ℕ) (jobs : List AnyCandidate) → RisesFrom cursor jobs →
        filter is_purgeable (above (swept_to cursor count jobs) jobs) ≡ drop count (filter is_purgeable jobs) }

    // If all purgeable jobs were returned, no job is above it.
    ensures ended { (cursor count : ℕ) (jobs : List AnyCandidate) → RisesFrom cursor jobs → length (filter is_purgeable jobs) ≤ count →
        above (swept_to cursor count jobs) jobs ≡ [] }
{}
