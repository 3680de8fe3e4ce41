//! The jobs of a queue with a latest start.
ghost use Rattle.std.specs.Prelude.{◌≡◌, IfOk};
ghost use Rattle.queue_sched.specs.Deadlines.{HasEachDeadlineOnce};

use crate::samples::moment;
use queue_sched::{Deadline, Deadlines};
use spool_types::JobId;
use std::alloc::Global;
use std::test::Fail;

// A job with this number and this latest start.
fn deadline(number: u32, seconds: u64) -> Result<Deadline, Fail>
    ensures { IfOk result (λ d. d.id ≡ number) }
{
    Ok(Deadline {
        by: moment(seconds)?,
        id: JobId::new(number).ok_or("no number of a job")?,
    })
}

// Whether the first deadline that has passed at a moment is that of this job; 0 means that none has.
fn passes(deadlines: &Deadlines, seconds: u64, number: u32) -> Result<bool, Fail> {
    Ok(deadlines.first_before(moment(seconds)?) == JobId::new(number))
}

// The deadline of a single job, with memory reserved for it.
fn of_one(alloc: Global) -> Result<Deadlines, Fail> {
    let mut deadlines = Deadlines::new(alloc);
    deadlines.reserve(1)?;
    deadlines.insert(deadline(7, 100)?);
    Ok(deadlines)
}

#[test]
fn a_deadline_passes_behind_its_moment(rt: HostRuntime) -> Result<(), Fail> {
    let deadlines = of_one(rt.alloc())?;
    assert!(rt; passes(&deadlines, 100, 0)?);
    assert!(rt; passes(&deadlines, 101, 7)?);
    Ok(())
}

// Unsorted deadlines. Two have the same moment.
fn disordered(alloc: Global) -> Result<Vec<Deadline>, Fail>
    ensures { IfOk result (λ deadlines. HasEachDeadlineOnce deadlines.items) }
{
    Ok(vec![in alloc; deadline(3, 100)?, deadline(1, 200)?, deadline(2, 100)?]?)
}

#[test]
fn the_earliest_deadline_passes_first(rt: HostRuntime) -> Result<(), Fail> {
    let deadlines = Deadlines::of_items(disordered(rt.alloc())?);
    assert!(rt; passes(&deadlines, 100, 0)?);
    assert!(rt; passes(&deadlines, 101, 2)?);
    Ok(())
}
