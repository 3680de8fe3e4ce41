//! The files of a child, in the spool's folder.
ghost use Rattle.std.specs.Prelude.{◌≡◌, ◌++◌, IfOk, codes};
ghost use Rattle.std.specs.String.{string_bytes};
ghost use Rattle.spool_runtime.specs.ChildFiles.{ReadsUpTo, file_of, folder_of, wants_room};
ghost use Rattle.filter_args.specs.declared.files.ChildFile.TheVariants as files;

use crate::child_users::run_folder;
use crate::device::new_file;
use child_pipeline::Order;
use filter_args::{ChildFile, Place};
use spool_types::LONGEST_DOCUMENT;
use std::alloc::{AllocError, Global};
use std::fs::{File, OpenOptions};
use std::io::{ErrorKind, Read, Write};
use std::os::unix::fs::FileExt;
use std::path::Path;
use std::{fs, io};

// The number of bytes read at once.
const PIECE: usize = 65_536;

#[derive(Drop)]
pub(crate) struct ChildPaths {
    pub input: String,
    pub output: String,
    pub errors: String,
    /// The socket of its side channel.
    pub side: String,
    /// Its own folder, if it has a user.
    pub folder: String,
}

impl ChildPaths {
    /// Returns the paths of the files of the order's child.
    pub fn of(alloc: Global, place: &Place, order: &Order) -> Result<ChildPaths, AllocError>
        ensures input { IfOk result (λ paths. string_bytes paths.input ≡ file_of files.Input (string_bytes place.now.root) order.now) }
        ensures output { IfOk result (λ paths. string_bytes paths.output ≡ file_of files.Output (string_bytes place.now.root) order.now) }
        ensures errors { IfOk result (λ paths. string_bytes paths.errors ≡ file_of files.Errors (string_bytes place.now.root) order.now) }
        ensures side { IfOk result (λ paths. string_bytes paths.side ≡ file_of files.Side (string_bytes place.now.root) order.now) }
        ensures folder { IfOk result (λ paths. string_bytes paths.folder ≡ folder_of (string_bytes place.now.root) order.now) }
    {
        Ok(ChildPaths {
            input: path_of(alloc, ChildFile::Input, place, order)?,
            output: path_of(alloc, ChildFile::Output, place, order)?,
            errors: path_of(alloc, ChildFile::Errors, place, order)?,
            side: path_of(alloc, ChildFile::Side, place, order)?,
            folder: folder_path(alloc, place, order)?,
        })
    }

    /// Removes the files that exist and, with `side`, the socket, but not the folder. Errors are ignored.
    pub fn remove(&self, rt: &HostRuntime, side: bool) {
        for path in [&self.input, &self.output, &self.errors] {
            let _ = fs::remove_file(rt, path.as_str());
        }
        if side {
            let _ = fs::remove_file(rt, self.side.as_str());
        }
    }
}

fn path_of(
    alloc: Global,
    file: ChildFile,
    place: &Place,
    order: &Order,
) -> Result<String, AllocError>
    ensures { IfOk result (λ path. string_bytes path ≡ file_of file (string_bytes place.now.root) order.now) }
{
    let stage = order.stage.get() as u8;
    file.path(alloc, place, order.job, order.attempt.get(), stage)
}

// Returns the path of the child's own folder.
fn folder_path(alloc: Global, place: &Place, order: &Order) -> Result<String, AllocError>
    ensures { IfOk result (λ path. string_bytes path ≡ folder_of (string_bytes place.now.root) order.now) }
{
    let (root, run) = (place.root.as_str(), run_folder());
    let (job, attempt, stage) = (order.job.get(), order.attempt.get(), order.stage.get());
    format!(in alloc; "{root}/{run}/{job}-{attempt}-{stage}")
}

/// Makes a file that only its owner may read. If the name is taken, it first removes the file that a crash left there,
/// or the link: a link is never followed. Usually the name is free, so removal is not tried first.
pub(crate) fn make_file(rt: &HostRuntime, path: &str) -> io::Result<File> {
    let path = Path::new(path);
    match new_file(rt, path) {
        Err(error) if error.kind() == ErrorKind::AlreadyExists => {
            fs::remove_file(rt, path)?;
            new_file(rt, path)
        }
        made => made,
    }
}

/// Returns the path of the file that tests whether the folder has room. It is named like the file of a child, so the
/// next start removes it after a crash. No job has the number 0.
pub(crate) fn probe_path(alloc: Global, place: &Place) -> Result<String, AllocError>
    ensures { IfOk result (λ path. string_bytes path ≡ string_bytes place.now.root ++ codes "/out-0-0-0") }
{
    let root = place.root.as_str();
    format!(in alloc; "{root}/out-0-0-0")
}

/// Opens the output file, which must exist, to pass it to the child as its standard output. The file is locked while a
/// process of the child has it open, so that the next opening sees which children still run ([`crate::leftovers`]).
pub(crate) fn output_to_hand(rt: &HostRuntime, path: &str) -> io::Result<File> {
    let output = OpenOptions::new().write(true).open(rt, path)?;
    if output.try_lock().is_err() {
        return Err(io::Error::from(ErrorKind::ResourceBusy));
    }
    Ok(output)
}

/// Makes a file with these bytes.
pub(crate) fn make_file_of(rt: &HostRuntime, path: &str, bytes: &[u8]) -> io::Result<()> {
    make_file(rt, path)?.write_all(bytes)
}

/// Returns whether one more byte can be written after the child's bytes. The byte is written, so the file must be
/// removed afterwards. If it cannot be written, an earlier write of the child may have been cut off.
///
/// A file that is longer than a document is not tested, since its end is not read. If the spooler's own files are
/// limited as those of the child are, a byte after such a file may exceed the limit, and the signal for that would end
/// the spooler.
pub(crate) fn has_room(file: &File) -> bool {
    let Ok(found) = file.metadata() else {
        return true;
    };
    if found.len() > LONGEST_DOCUMENT as u64 {
        return true;
    }
    match file.write_all_at(b"\n", found.len()) {
        Ok(()) => true,
        Err(error) => !wants_room(error.kind()),
    }
}

fn wants_room(kind: ErrorKind) -> bool
    ensures { result ≡ wants_room kind }
{
    matches!(kind, ErrorKind::StorageFull | ErrorKind::QuotaExceeded)
}

/// Reads at most `most` bytes, and leaves the rest unread. Returns the reader's error if it fails before that.
pub(crate) fn read_at_most<R: Read>(
    alloc: Global,
    reader: &mut R,
    most: usize,
) -> io::Result<Vec<u8>>
    ensures { IfOk result (λ bytes. ReadsUpTo most (R.remaining reader.old) (R.remaining reader.new) bytes.items) }
{
    let mut piece = [0u8; PIECE];
    let mut bytes = Vec::new(alloc);
    'pieces: for _ in 0..u64::MAX {
        let room = PIECE.min(most - bytes.len());
        if room == 0 {
            return Ok(bytes);
        }
        match reader.read(&mut piece[..room]) {
            Ok(0) => return Ok(bytes),
            Ok(n) => bytes.extend_from_slice(&piece[..n])?,
            Err(error) => {
                if error.kind() != ErrorKind::Interrupted {
                    return Err(error);
                }
            }
        }
    }
    Err(io::Error::from(ErrorKind::Other))
}
