//! The accepted events of a tick, as values.
ghost use Rattle.std.specs.Prelude.{◌≡◌, ◌≤◌, ◌+◌, ◌++◌, ◌∷◌, [], length, vec_capacity};

use spool_types::JobId;

/// An accepted event of a tick.
#[derive(Clone, Copy)]
pub enum Happening {
    /// The job was started.
    Started(JobId),
    /// The end of a stage of the job was acknowledged.
    Ended(JobId),
}

// Appends a happening, if the list has room. The list of a round has none.
pub(crate) fn note(happened: &mut Vec<Happening>, happening: Happening)
    ensures items { length happened.old.items + 1 ≤ vec_capacity happened.old → happened.new.items ≡ happened.old.items ++ happening ∷ [] }
    ensures few { length happened.new.items ≤ length happened.old.items + 1 }
    ensures capacity { vec_capacity happened.new ≡ vec_capacity happened.old }
{
    if happened.len() < happened.capacity() {
        happened.push_reserved(happening);
    }
}
