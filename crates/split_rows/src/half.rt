//! Which queues a half has.
ghost use Rattle.std.specs.Prelude.{◌≡◌};
ghost use Rattle.split_rows.specs.Half.{is_named, takes};

use spool_types::QueueName;

/// One of the two halves: the one with the queues of these names, or the one with all others.
#[derive(Clone, Copy)]
pub struct Half<'a> {
    pub names: &'a [QueueName],
    /// Whether the half has the queues with these names.
    pub named: bool,
}

impl<'a> Half<'a> {
    /// Returns whether the half has the queue with this name, and its jobs.
    pub fn takes(&self, name: &QueueName) -> bool
        ensures { result ≡ takes self.now.named self.now.names.now name.now }
    {
        is_named(self.names, name) == self.named
    }
}

// Returns whether `name` is one of the names.
fn is_named(names: &[QueueName], name: &QueueName) -> bool
    ensures { result ≡ is_named names.now name.now }
{
    names.iter().any(|one| *one == *name)
}
