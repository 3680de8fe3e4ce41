//! Binary search among the rows.
ghost use Rattle.std.specs.Prelude.{IsSome, IsTrue, IfOk, IfErr, map};
ghost use Rattle.std.specs.Ordering.{nat_cmp};
ghost use Rattle.std.specs.Cmp.Lexicographic.{slice_cmp};
ghost use Rattle.std.specs.FinMap as finite;
ghost use Rattle.spool_types.specs.State.{queue_at};
ghost use Rattle.job_table.specs.Legal.{IsLegal};
ghost use Rattle.job_rows.specs.RowPositions.{IsPosition, IsGap};
ghost use Rattle.job_table.specs.QueuePositions.{IsNameAt, IsNameGap};
ghost use Rattle.job_table.specs.TableRows.{queue_entry};

use super::Store;
use spool_types::{QueueName, QueueRow};

impl Store {
    // Returns the position of the queue, or as an error the position where a queue of this name would be inserted.
    pub(crate) fn queue_position(&self, name: &QueueName) -> Result<usize, usize>
        ensures found { IfOk result (IsNameAt (finite.keys self.now.state.queues) name.now) }
        ensures there { IfOk result (λ at. IsSome (queue_at self.now.state name.now)) }
        ensures absent { IfErr result (IsNameGap self.now.state.queues name.now) }
        ensures legal { IsLegal self.now.state }
    {
        queue_position(&self.queues, name)
    }
}

// Returns the position of the queue, or as an error the position where a queue of this name would be inserted.
pub(super) fn queue_position(queues: &[QueueRow], name: &QueueName) -> Result<usize, usize>
    requires { IsTrue (finite.is_sorted (slice_cmp nat_cmp) (map queue_entry queues.now)) }
    ensures found { IfOk result (IsPosition (slice_cmp nat_cmp) (λ r. r.name) queues.now name.now) }
    ensures absent { IfErr result (IsGap (slice_cmp nat_cmp) (λ r. r.name) queues.now name.now) }
{
    queues.binary_search_by(|row| row.name.as_str().cmp(name.as_str()))
}
