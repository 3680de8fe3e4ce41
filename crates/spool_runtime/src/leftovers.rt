//! Removes the files that the children of an earlier program left in the spool's folder.
//!
//! A program that is killed leaves the files of the children that ran then: `in-`, `out-`, `err-` and `side-`, each
//! with a job, an attempt and a stage. After a spool is opened, no attempt in its table is in progress: the opening
//! ended it, or it had ended before. So only a child that still runs needs these files. Such a child has its standard
//! output open, which is locked for as long ([`crate::child_files::output_to_hand`]). Its files stay, and a line is
//! logged. All other files of children are removed.
//!
//! Nothing here is an error: a file that cannot be examined or removed stays.
ghost use Rattle.std.specs.Prelude.{◌≡◌, ◌≢◌, MatchOption};
ghost use Rattle.std.specs.Char.{is_ascii_digit};
ghost use Rattle.std.specs.List.{list_all};
ghost use Rattle.filter_args.specs.Files.{prefix_of};
ghost use Rattle.filter_args.specs.declared.files.ChildFile.{ChildFile as AnyFile};
ghost use Rattle.spool_runtime.specs.Leftovers.{IsNameOf, IsNoName, are_numbers, is_number};

use filter_args::ChildFile;
use log::{Log, error};
use std::alloc::AllocError;
use std::fs;
use std::fs::{File, TryLockError};

// The child of a file, as the file's name shows it.
#[derive(Clone, Copy)]
struct LeftChild<'a> {
    job: &'a str,
    attempt: &'a str,
    stage: &'a str,
}

impl LeftChild<'_> {
    fn has_numbers(&self) -> bool
        ensures { result ≡ are_numbers self.now.job.now self.now.attempt.now self.now.stage.now }
    {
        is_number(self.job) && is_number(self.attempt) && is_number(self.stage)
    }
}

/// Removes the files that children of an earlier program left in the folder, and logs the children that still run. The
/// spool must be open, and none of its children started.
pub(crate) fn clear_leftovers<L: Log>(log: &L, rt: &HostRuntime, dir: &str) {
    let Ok(entries) = fs::read_dir(rt, dir) else {
        return;
    };
    for entry in entries {
        if let Ok(entry) = entry {
            clear(log, rt, dir, entry.file_name());
        }
    }
}

// Removes the file of this name, if it belongs to a child that does not run.
fn clear<L: Log>(log: &L, rt: &HostRuntime, dir: &str, name: &str) {
    let Some((file, child)) = child_of(name) else {
        return;
    };
    match runs(rt, dir, child) {
        Ok(false) => {
            let _ = remove(rt, dir, name);
        }
        Ok(true) if file == ChildFile::Output => log_leftover(log, child),
        _ => {}
    }
}

fn log_leftover<L: Log>(log: &L, child: LeftChild<'_>) {
    let LeftChild {
        job,
        attempt,
        stage,
    } = child;
    error!(log; "job {job} attempt {attempt} stage {stage}: a child of an earlier run is still running");
}

fn remove(rt: &HostRuntime, dir: &str, name: &str) -> Result<(), AllocError> {
    let path = format!(in rt.alloc(); "{dir}/{name}")?;
    let _ = fs::remove_file(rt, path.as_str());
    Ok(())
}

// Returns whether a process still has the standard output of this child open.
fn runs(rt: &HostRuntime, dir: &str, child: LeftChild<'_>) -> Result<bool, AllocError> {
    let LeftChild {
        job,
        attempt,
        stage,
    } = child;
    let path = format!(in rt.alloc(); "{dir}/out-{job}-{attempt}-{stage}")?;
    Ok(is_locked(rt, path.as_str()))
}

/// Returns whether another process holds the lock of this file. Anything but a regular file, such as a link or a pipe,
/// is not opened.
pub(crate) fn is_locked(rt: &HostRuntime, path: &str) -> bool {
    match fs::symlink_metadata(rt, path) {
        Ok(found) if found.is_file() => {}
        _ => return false,
    }
    match File::open(rt, path) {
        Ok(file) => matches!(file.try_lock(), Err(TryLockError::WouldBlock)),
        Err(_) => false,
    }
}

// Returns the child and the kind of file that this name belongs to, if it is the name of a child's file.
fn child_of(name: &str) -> Option<(ChildFile, LeftChild<'_>)>
    ensures { MatchOption result (IsNoName name.now)
        (λ found. IsNameOf name.now found.0 found.1.job.now found.1.attempt.now found.1.stage.now) }
{
    let (kind, rest) = name.split_once('-')?;
    let (job, rest) = rest.split_once('-')?;
    let (attempt, stage) = rest.split_once('-')?;
    let file = kind_of(kind)?;
    let child = LeftChild {
        job,
        attempt,
        stage,
    };
    if child.has_numbers() {
        Some((file, child))
    } else {
        None
    }
}

fn kind_of(text: &str) -> Option<ChildFile>
    ensures { MatchOption result ((file : AnyFile) → text.now ≢ prefix_of file) (λ file. text.now ≡ prefix_of file) }
{
    match text {
        "in" => Some(ChildFile::Input),
        "out" => Some(ChildFile::Output),
        "err" => Some(ChildFile::Errors),
        "side" => Some(ChildFile::Side),
        _ => None,
    }
}

fn is_number(text: &str) -> bool
    ensures { result ≡ is_number text.now }
{
    1 <= text.len() && has_only_digits(text)
}

fn has_only_digits(text: &str) -> bool
    ensures { result ≡ list_all is_ascii_digit text.now }
{
    text.as_bytes().iter().all(|b| b.is_ascii_digit())
}
