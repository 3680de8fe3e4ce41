//! Administers a spool that no other program has open: shows how full it is, enlarges its file, splits it by queues, or changes or
//! removes a queue.
//!
//! Words: `look DIR`, `grow DIR BYTES` or `split DIR INTO QUEUE..` ([`words`]), `queue set DIR NAME` with options, or
//! `queue remove DIR NAME` ([`queue_words`]). The spool is the file `DIR/spool.disk`. No other program may have the folder open
//! meanwhile. All but `look` reject a file with a second name. The new files get the owner and the mode of the old one.
//!
//! # look
//!
//! `look` prints the version and the epoch, the number of bytes of the file and of one of its areas, the number of used and of
//! free bytes in the current area, and the number of queues and of jobs, one value a line ([`look`]). It reads the spool as the
//! first half of an opening does (`Spool::load`), and the areas once more for their figures. It writes nothing to the file: a job
//! that is processing on the disk stays so.
//!
//! # grow
//!
//! A spool's file keeps its length, so a spool whose table does not fit stays full. `grow` creates a file of BYTES bytes next to
//! the old one, with the same table and documents, and renames it to the old name ([`grow`]). It never writes to the old file.
//!
//! 1. It reads the whole old spool ([`found`]). Faults are reported as for an opening.
//! 2. It creates a file of zeros under the name of an unfinished one.
//! 3. It copies the bytes of the current area, up to the closed gate after its records, to the beginning of the new file
//!    ([`copying`]). These bytes do not contain the place of the area, so the new file is then a spool with the same records.
//! 4. It opens the new file like any spool, which gives up each attempt that was running. A checkpoint lists the table in the
//!    other area, in the newest version, with the most room that this table can have.
//! 5. The new file is synced by then. `grow` renames it to the old file's name, and syncs the folder.
//!
//! If the program is killed at any moment, the name refers to the old or to the new spool, complete. The next `grow` removes an
//! unfinished file. For power cuts: no byte of the new file is unsynced when it gets the name.
//!
//! # split
//!
//! `split` moves some queues, with their jobs and documents, to a spool of their own in the folder INTO; the spool of DIR
//! continues without them ([`split`]). It never writes to the old file. The names in both folders show at each moment what must
//! be done next, and each folder is synced before the next one changes:
//!
//! 1. Create a file for the rows that stay, `DIR/spool.rest`. Then note the words and the name of the part in `DIR/spool.split`.
//! 2. Create a file for the queues, `INTO/spool.part.TIME`. Write each half of the rows to its file, and read both files back
//!    (`spool_halves`). The name has the time in it, so a part that another spool left in INTO is never mistaken for this one.
//! 3. Rename `spool.rest` to `spool.disk`. This is the change over: from now on the jobs of the queues are only in the part.
//! 4. Rename the part to `INTO/spool.disk`, and remove `spool.split`.
//!
//! If a call was killed, a later call with the same words continues: from step 4 if `spool.rest` is gone; otherwise it removes
//! the new files and begins again. Until then other words are rejected.
//!
//! # queue
//!
//! `queue set` gives fields of a queue other values, and `queue remove` removes a queue, with its ended jobs if `--purge` is given
//! ([`queue`], [`edit`]). The old file is never written to.
//!
//! 1. Load the old spool. If the edit is refused (`queue_edits`), end without a change.
//! 2. Create a file of zeros with the old length under the name of an unfinished one, as `grow` does.
//! 3. Write the rows of the edited table with all documents to it, read it back and compare it (`spool_halves`). The new file is
//!    synced then.
//! 4. Rename it to the old file's name, and sync the folder.
//!
//! If the program is killed at any moment, the name refers to the old or to the new spool, complete. The next `queue` or `grow`
//! removes an unfinished file.
//!
//! # Promises
//!
//! - [`read_words`] returns what clap's definition of the command of their form finds in the words (`asked`). It rejects them
//!   exactly if clap finds an error or they are not those of a task (`taken`).
//! - [`change::change_in`] returns exactly the values of the words (`IsChangeOf`). It fails only for a value that it names, or for
//!   memory (`IsOfChange`).
//! - [`edit::list_edited`]: afterwards a crash leaves exactly the edited table (`edited`, `after_edit`), and each job that has not
//!   ended has the document of the old disk (`documents`). The edit was allowed (`allowed`). The new disk is synced (`synced`), and
//!   nothing changes on the old one (`state`, `still`). [`edit::refusal_of`] returns exactly why an edit is refused, and the fault
//!   of `list_edited` shows exactly this (`refused`, `IsOfEdit`).
//! - [`found::find`] changes nothing on the disk (`still`), and returns the current area of its bytes (`area`, `HasArea`) and the
//!   number of queues and jobs of their table (`counts`, `HasCounts`). A fault of the bytes is theirs (`fault`).
//! - [`copying::copy`] leaves exactly the copied bytes at the beginning of the target, and changes nothing else (`copied`,
//!   `copied_over`, `still`).
//! - [`grow::list`] copies an area and lists its contents: afterwards a crash leaves only images with the table that an opening
//!   of the copy yields, and its documents (`grown`, `IsGrownFrom`). The new disk is returned synced (`synced`), with the same
//!   length (`fixed`). The result is `Smaller` exactly if it is shorter than the old one (`smaller`).
//! - [`halves::list_halves`]: afterwards a crash leaves exactly the rows of the named queues on one disk and exactly all others
//!   on the other, each with the documents of the old disk (`part`, `rest`, `LeavesHalf`, as `list_half` of `spool_halves`). Both
//!   disks are synced (`synced`), and nothing changes on the old disk (`still`).
//! - [`names::names_of`] returns exactly the words (`names`). A word that cannot be a name is reported as that of a missing queue
//!   (`fault`). [`names::missing_queue`] returns the first queue that the table does not have.
//! - [`record::part_in`] finds a split that was begun exactly if [`record::noted`] noted it with the same words (`some`, `none`,
//!   `IsNoted`).
//! - `look`, `grow` and `queue` have the faults of an opening (`IsOfLoading`), and only those of their own in addition
//!   (`IsOfLooking`, `IsOfGrowth`, `IsOfEdit`).
//! - [`fault::report_admin_end`] returns status 0 after `Ok` and 1 after a fault (`ok`, `fault`). [`fault::at_target`] marks exactly the
//!   faults of the folder INTO. The causes of the faults that only this program has are exactly a table ([`causes::admin_cause`]).
//!
//! # Not proved
//!
//! - That an edit is one step. `list_edited` is proved for every disk and every table. `tests/test_admin_queues.py` shows that a kill at any
//!   moment leaves the old file or the new one, and that the same command then ends with the new one.
//! - That a split and a growth are one step each. `list_halves` is proved for every disk and every table, `list` for every disk.
//!   No clause covers files, their names and the moments between their changes. The code of `split` and `tests/test_admin_split.py` show:
//!   `part` is INTO's file and `rest` is FROM's; a kill at any moment leaves either the old spool, with none in INTO, or each job
//!   in exactly one of the two files; the same command finishes or undoes it.
//! - That the rows read back are those written, so that `list_half` never returns `Disk` on a sound disk: shown by tests.
//! - That the bytes which `grow` copies have the table and the documents of the old disk, although the area is now at another
//!   place and zeros follow it: shown by `tests/test_admin_grow.py`.
//! - That the calls succeed: a `list_halves` that always returns `Full`, a copy that always returns a fault of the device, and
//!   calls on files that do nothing (`Folder`) meet their clauses. Both tests need each of these to work.
//!
//! # Errors
//!
//! Status 0, 1 and 2, and the lines on standard error, are those of `spool_runtime`, with the causes of `fault_causes`, and those of
//! [`causes`] for the errors that only this program has. These are, in addition to those of `spool_runtime`: `smaller`, if
//! BYTES is less than the length of the file; `full`, if the table, or a half of it, does not fit into half of the file; `queue`,
//! if the spool has no such queue; the sentences of [`fault`] if the jobs of the queue or a value forbid the
//! edit; `taken`, if INTO has a spool; `unfinished`, if a split with other words is not finished; and
//! `epoch-end`, if the spool has the greatest epoch. After an error the old spool exists unchanged, unless the last sync of the
//! folder failed: then the new file already has the name.
#![tactic(auto)]

ghost use Rattle.spool_admin.specs.AdminForms.{IsInRange};
ghost use Rattle.spool_admin.specs.QueueArguments.{AreInRange};

mod causes;
mod change;
mod copying;
mod edit;
mod fault;
mod folder;
mod found;
mod grow;
mod halves;
mod look;
mod names;
mod queue;
mod queue_words;
mod record;
mod split;
mod whole;
mod words;

use crate::change::change_in;
use crate::edit::QueueEdit;
use crate::fault::{AdminFault, report_admin_end};
use crate::grow::grow;
use crate::look::look;
use crate::names::name_of;
use crate::queue::edit_queue;
use crate::queue_words::{RemoveWords, SetWords};
use crate::split::split;
use crate::words::{Asked, read_words};
use fault_causes::{Noted, StreamErrors};
use spool_runtime::{given_words, no_words, report_words_fault};
use std::io::Write;
use std::process::ExitCode;

fn main(rt: HostRuntime) -> ExitCode {
    let given = match given_words(&rt) {
        Ok(given) => given,
        Err(error) => return no_words(&rt, &error),
    };
    let asked = match read_words(rt.alloc(), given.as_slice()) {
        Ok(asked) => asked,
        Err(fault) => return report_words_fault(&rt, &fault),
    };
    let mut output = Noted::new(rt.stdout());
    let ended = done(&rt, &asked, &mut output);
    let errors = StreamErrors {
        input: None,
        output: output.error(),
    };
    report_admin_end(&rt, &asked, errors, ended)
}

// Does the task that the words request.
fn done<W: Write>(rt: &HostRuntime, asked: &Asked<'_>, output: &mut W) -> Result<(), AdminFault>
    requires { IsInRange asked.now }
{
    match asked {
        Asked::Look(dir) => Ok(look(rt, dir, output)?),
        Asked::Grow(dir, size) => grow(rt, dir, *size),
        Asked::Split(parts) => split(rt, parts),
        Asked::Set(words) => set(rt, words),
        Asked::Remove(words) => remove(rt, words),
    }
}

// Sets fields of a queue.
fn set(rt: &HostRuntime, words: &SetWords<'_>) -> Result<(), AdminFault>
    requires { AreInRange words.now }
{
    let change = change_in(rt.alloc(), words)?;
    let name = name_of(rt.alloc(), words.name)?;
    edit_queue(rt, words.dir, &name, &QueueEdit::Set(change))
}

fn remove(rt: &HostRuntime, words: &RemoveWords<'_>) -> Result<(), AdminFault> {
    let name = name_of(rt.alloc(), words.name)?;
    edit_queue(rt, words.dir, &name, &QueueEdit::Remove(words.purge))
}
