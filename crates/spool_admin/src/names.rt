//! The names of queues that are moved to another spool.
ghost use Rattle.std.specs.Prelude.{◌≡◌, ◌⊎◌, ◌++◌, ◌∷◌, [], IfErr, IfOk, OnOk, false, is_some, map};
ghost use Rattle.std.specs.List.{list_all};
ghost use Rattle.std.specs.Option.{option_map};
ghost use Rattle.spool_types.specs.State.{queue_at};
ghost use Rattle.spool_types.specs.Values.{is_queue_name};
ghost use Rattle.spool_runtime.specs.declared.fault.ShellFault.TheVariants.{Memory};
ghost use Rattle.spool_admin.specs.AdminFaults.{IsMissing, IsNoName, missing_queue};
ghost use Rattle.spool_admin.specs.declared.fault.AdminFault.TheVariants.{Shell};

use crate::fault::AdminFault;
use job_table::Table;
use spool_types::{QueueName, TextFault};
use std::alloc::{AllocError, Global};

/// Returns the words as names of queues. A word that cannot be a name is that of no queue.
pub fn names_of(alloc: Global, queues: &[&str]) -> Result<Vec<QueueName>, AdminFault>
    ensures names { IfOk result (λ names. names.items ≡ map (λ queue. queue.now) queues.now) }
    ensures fault { IfErr result (λ fault. (fault ≡ Shell Memory) ⊎ (IsNoName fault × (list_all (λ queue. is_queue_name queue.now) queues.now ≡ false))) }
{
    let mut names = Vec::new(alloc);
    for queue in queues {
        let name = name_of(alloc, queue)?;
        push_name(&mut names, name)?;
    }
    Ok(names)
}

fn push_name(names: &mut Vec<QueueName>, name: QueueName) -> Result<(), AllocError>
    ensures { OnOk result (names.new.items ≡ names.old.items ++ (name ∷ [])) }
{
    Ok(names.push(name)?)
}

/// Returns the word as the name of a queue.
pub fn name_of(alloc: Global, queue: &str) -> Result<QueueName, AdminFault>
    ensures name { IfOk result (λ name. name ≡ queue.now) }
    ensures fault { IfErr result (λ fault. (fault ≡ Shell Memory) ⊎ (IsMissing queue.now fault × (is_queue_name queue.now ≡ false))) }
{
    match QueueName::read(alloc, queue) {
        Ok(name) => Ok(name),
        Err(TextFault::Bad) => Err(missing(alloc, queue)?),
        Err(TextFault::Memory) => Err(AdminFault::from(AllocError)),
    }
}

/// Returns the first of these queues that the table does not have.
pub fn missing_queue<'a>(table: &Table, names: &'a [QueueName]) -> Option<&'a QueueName>
    ensures { option_map (λ name. name.now) result ≡ missing_queue table.now.state names.now }
{
    names.iter().find(|name| !has_queue(table, name))
}

fn has_queue(table: &Table, name: &QueueName) -> bool
    ensures { result ≡ is_some (queue_at table.now.state name.now) }
{
    table.queue(name).is_some()
}

/// Returns the fault of a queue that the spool does not have.
pub fn missing(alloc: Global, name: &str) -> Result<AdminFault, AllocError>
    ensures { IfOk result (IsMissing name.now) }
{
    Ok(AdminFault::Missing(String::from_str(alloc, name)?))
}
