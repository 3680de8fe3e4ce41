//! The files that backends write.
//!
//! A URI of a device may name any file, and each person who may add a queue chooses one. So a backend
//!
//! - writes no file in the spool's folder or below it, because that could be the spool itself,
//! - follows no link at the end of the path,
//! - leaves alone a link, a folder, a device, a pipe, a socket and the files of other users,
//! - writes a new file next to the target, `.new` added to its name, and renames it when it is complete. So a reader never sees half a
//!   document, and a failed attempt leaves the old file.
//!
//! With the option `replace` in the URI the contents of an existing file are replaced in place, for those who watch the file itself. Such a
//! file must have one name only, because another name could lie in the spool's folder.
//!
//! The spooler sets TMPDIR to the spool's folder. A tool that was not started by the spooler (without SPOOL_STAGE) knows no such folder.
ghost use Rattle.std.specs.Prelude.{◌≡◌, ◌↔◌, ◌++◌, codes, IfOk, IsTrue};
ghost use Rattle.std.specs.String.{string_bytes};
ghost use Rattle.std.specs.Path.{PathStartsWith};
ghost use Rattle.builtin_stages.specs.Targets.{exists, may_be_replaced, may_be_written};

use crate::backends::variable;
use crate::fault::ToolFault;
use std::alloc::{AllocError, Global};
use std::fs::{File, Files, Metadata, OpenFile, OpenOptions, Permissions};
use std::io::ErrorKind;
use std::os::unix::fs::{MetadataExt, PermissionsExt};
use std::path::Path;
use std::rt::Env;
use std::{fs, io};

/// Where a name leads, without following a link.
#[derive(Clone, Copy)]
pub enum Named {
    Nothing,
    /// A regular file: its user, and how many names it has.
    File { owner: u32, names: u64 },
    /// A link, a folder, a device, a pipe or a socket.
    Other,
}

/// A new file, which takes the target's name once it is complete.
#[derive(Drop)]
pub struct Draft {
    pub file: File,
    path: String,
    target: String,
    named: Named,
}

impl Draft {
    /// Makes an empty file next to the target. A file that a killed backend left there is removed. The new file gets the permissions of the
    /// one that it replaces, without the bits that set the user or the group: its contents are those of a document.
    pub fn open<H: Files<File = File> + Env + AllocGlobal>(
        rt: &H,
        path: &str,
    ) -> Result<Draft, ToolFault> {
        let target = real_path(rt, path)?;
        let draft = draft_name(rt.alloc(), target.as_str())?;
        let named = look(rt, target.as_str())?;
        remove_draft(rt, draft.as_str())?;
        let draft = Draft {
            file: new_file(rt, draft.as_str())?,
            path: draft,
            target,
            named,
        };
        draft.check(rt)?;
        Ok(draft)
    }

    // Removes the new file and fails unless it may replace the target.
    fn check<H: Files<File = File>>(&self, rt: &H) -> Result<(), ToolFault> {
        if may_be_replaced(self.named, self.user()?) {
            return Ok(());
        }
        self.discard(rt);
        Err(ToolFault::Write)
    }

    // The user that this program runs as, who owns the new file.
    fn user(&self) -> Result<u32, ToolFault> {
        match self.file.metadata() {
            Ok(about) => Ok(about.uid()),
            Err(_) => Err(ToolFault::Write),
        }
    }

    /// Whether the target existed.
    pub fn replaces(&self) -> bool
        ensures { result ≡ exists self.now.named }
    {
        !matches!(self.named, Named::Nothing)
    }

    /// Syncs the file and gives it the target's name. Fails if another program has put a file in its place meanwhile.
    pub fn publish<H: Files<File = File>>(&self, rt: &H) -> Result<(), ToolFault> {
        if !is_file_of(rt, self.path.as_str(), &self.file) {
            return Err(ToolFault::Write);
        }
        match self.finish(rt) {
            Ok(()) => Ok(()),
            Err(_) => Err(ToolFault::Write),
        }
    }

    fn finish<H: Files<File = File>>(&self, rt: &H) -> io::Result<()> {
        if self.replaces() {
            let old = fs::symlink_metadata(rt, self.target.as_str())?;
            let mode = old.permissions().mode() & 0o777;
            self.file.set_permissions(Permissions::from_mode(mode))?;
        }
        self.file.sync_all()?;
        fs::rename(rt, self.path.as_str(), self.target.as_str())
    }

    /// Removes the file, unless another program has put one in its place meanwhile.
    pub fn discard<H: Files<File = File>>(&self, rt: &H) {
        if is_file_of(rt, self.path.as_str(), &self.file) {
            let _ = fs::remove_file(rt, self.path.as_str());
        }
    }
}

/// Opens the target itself and empties it, or makes it if there is nothing.
pub fn open_in_place<H: Files<File = File> + Env + AllocGlobal>(
    rt: &H,
    path: &str,
) -> Result<File, ToolFault> {
    let draft = Draft::open(rt, path)?;
    let user = draft.user();
    draft.discard(rt);
    let target = draft.target.as_str();
    if !may_be_written(draft.named, user?) {
        return Err(ToolFault::Write);
    }
    if !draft.replaces() {
        return new_file(rt, target);
    }
    let Ok(file) = OpenOptions::new().write(true).open(rt, target) else {
        return Err(ToolFault::Write);
    };
    // Emptied only now, since a link could have taken the file's place meanwhile.
    if !is_file_of(rt, target, &file) || file.set_len(0).is_err() {
        return Err(ToolFault::Write);
    }
    Ok(file)
}

// Returns the path without links in the names of its folders. Fails with `Write` if it names no file, or one in the spool's folder.
fn real_path<H: Files<File = File> + Env + AllocGlobal>(
    rt: &H,
    path: &str,
) -> Result<String, ToolFault> {
    let (Some(folder), Some(name)) = (Path::new(path).parent(), Path::new(path).file_name()) else {
        return Err(ToolFault::Write);
    };
    let folder = real_folder(rt, folder.as_str())?;
    if let Some(spool) = spool_folder(rt)? {
        if is_inside(folder.as_str(), spool.as_str()) {
            return Err(ToolFault::Write);
        }
    }
    let path = Path::new(folder.as_str()).join(rt.alloc(), name)?;
    Ok(path.as_str().to_string(rt.alloc())?)
}

// The folder of the spool that started this program, if one did.
fn spool_folder<H: Files<File = File> + Env + AllocGlobal>(
    rt: &H,
) -> Result<Option<String>, ToolFault> {
    match variable(rt, "SPOOL_STAGE") {
        Ok(_) => {}
        Err(ToolFault::Memory) => return Err(ToolFault::Memory),
        Err(_) => return Ok(None),
    }
    let folder = variable(rt, "TMPDIR")?;
    Ok(Some(real_folder(rt, folder.as_str())?))
}

fn real_folder<H: Files<File = File> + AllocGlobal>(
    rt: &H,
    folder: &str,
) -> Result<String, ToolFault> {
    let folder = if folder.is_empty() { "." } else { folder };
    match fs::canonicalize(rt, folder) {
        Ok(path) => Ok(path.as_str().to_string(rt.alloc())?),
        Err(_) => Err(ToolFault::Write),
    }
}

/// Returns whether a folder is the spool's folder or below it. Both are absolute paths without links (realpath(3)).
pub fn is_inside(folder: &str, spool: &str) -> bool
    ensures { IsTrue result ↔ PathStartsWith folder.now spool.now }
{
    Path::new(folder).starts_with(spool)
}

/// Returns whether a new file of this user may take the name.
pub fn may_be_replaced(named: Named, user: u32) -> bool
    ensures { result ≡ may_be_replaced named user }
{
    match named {
        Named::Nothing => true,
        Named::File { owner, .. } => owner == user,
        Named::Other => false,
    }
}

/// Returns whether this user may write the file in place. A file with another name could be one in the spool's folder.
pub fn may_be_written(named: Named, user: u32) -> bool
    ensures { result ≡ may_be_written named user }
{
    match named {
        Named::Nothing => true,
        Named::File { owner, names } => owner == user && names == 1,
        Named::Other => false,
    }
}

// The name of the new file.
fn draft_name(alloc: Global, target: &str) -> Result<String, AllocError>
    ensures { IfOk result (λ name. string_bytes name ≡ target.now ++ codes ".new") }
{
    let mut name = target.to_string(alloc)?;
    name.push_str(".new")?;
    Ok(name)
}

// Looks where the path leads, without following a link.
fn look<H: Files<File = File>>(rt: &H, path: &str) -> Result<Named, ToolFault> {
    match fs::symlink_metadata(rt, path) {
        Ok(about) => Ok(named_by(&about)),
        Err(error) if error.kind() == ErrorKind::NotFound => Ok(Named::Nothing),
        Err(_) => Err(ToolFault::Write),
    }
}

fn named_by(about: &Metadata) -> Named {
    if about.is_file() {
        Named::File {
            owner: about.uid(),
            names: about.nlink(),
        }
    } else {
        Named::Other
    }
}

// Removes a file that a killed backend left under the name of the new file. A folder is no such file, and stays.
fn remove_draft<H: Files<File = File>>(rt: &H, draft: &str) -> Result<(), ToolFault> {
    match look(rt, draft)? {
        Named::Nothing => Ok(()),
        Named::File { .. } | Named::Other => match fs::remove_file(rt, draft) {
            Ok(()) => Ok(()),
            Err(_) => Err(ToolFault::Write),
        },
    }
}

// Makes an empty file. Fails if the name is taken, also by a link.
fn new_file<H: Files<File = File>>(rt: &H, path: &str) -> Result<File, ToolFault> {
    let made = OpenOptions::new()
        .write(true)
        .create_new(true)
        .open(rt, path);
    made.ok().ok_or(ToolFault::Write)
}

// Whether the path names this open file, and not by a link.
fn is_file_of<H: Files<File = File>>(rt: &H, path: &str, file: &File) -> bool {
    match (fs::symlink_metadata(rt, path), file.metadata()) {
        (Ok(named), Ok(open)) => named.dev() == open.dev() && named.ino() == open.ino(),
        _ => false,
    }
}
