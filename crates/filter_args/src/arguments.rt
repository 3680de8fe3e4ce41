//! The arguments of a child.
ghost use Rattle.std.specs.Prelude.{◌≡◌, IfOk};
ghost use Rattle.std.specs.Option.{option_map};
ghost use Rattle.filter_args.specs.FilterArguments.{arguments};
ghost use Rattle.filter_args.specs.OptionFields.{texts};

use spool_types::Job;
use std::alloc::{AllocError, Global};

/// Returns the arguments after the program: the job's number, its user, its title, the number of copies, its options, and the document's
/// path if the child reads a file (filter(7)).
pub fn words(alloc: Global, job: &Job, file: Option<&str>) -> Result<Vec<String>, AllocError>
    ensures { IfOk result (λ words. texts words ≡ arguments job.now (option_map (λ path. path.now) file.entry)) }
{
    let number = job.id.get();
    let copies = job.copies.get();
    let mut words = Vec::with_capacity(alloc, 6)?;
    words.push(format!(in alloc; "{number}")?)?;
    words.push(String::from_str(alloc, job.user.as_str())?)?;
    words.push(String::from_str(alloc, job.title.as_str())?)?;
    words.push(format!(in alloc; "{copies}")?)?;
    words.push(String::from_str(alloc, job.options.as_str())?)?;
    if let Some(path) = file {
        words.push(String::from_str(alloc, path)?)?;
    }
    Ok(words)
}
