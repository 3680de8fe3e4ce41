//! A folder that is owned, and the names in it.
ghost use Rattle.std.specs.Prelude.{IfErr};
ghost use Rattle.spool_runtime.specs.ProgramFaults.{IsOfFolder};

use spool_disk::FileDisk;
use spool_runtime::{ShellFault, SpoolFolder, new_file, remove_if_there};
use std::fs;
use std::fs::{File, Metadata, OpenFile, OpenOptions};
use std::io::{ErrorKind, Write};
use std::os::unix::fs::{MetadataExt, OpenOptionsExt, fchown};
use std::path::Path;
use whole_writes::write_zeros;

/// A folder that no other program owns meanwhile.
#[derive(Drop)]
pub struct Folder<'a> {
    pub owned: SpoolFolder<'a>,
    path: Path<'a>,
    folder: File,
}

impl<'a> Folder<'a> {
    /// Takes ownership of the folder, which must exist.
    pub fn own(rt: &HostRuntime, dir: &'a str) -> Result<Folder<'a>, ShellFault>
        ensures { IfErr result IsOfFolder }
    {
        let owned = SpoolFolder::own(rt, dir)?;
        let path = Path::new(dir);
        let itself = path.join(rt.alloc(), ".")?;
        let folder = File::open(rt, itself.as_path())?;
        Ok(Folder {
            owned,
            path,
            folder,
        })
    }

    /// Returns whether the name exists.
    pub fn has(&self, rt: &HostRuntime, name: &str) -> Result<bool, ShellFault>
        ensures { IfErr result IsOfFolder }
    {
        let path = self.path.join(rt.alloc(), name)?;
        match fs::symlink_metadata(rt, path.as_path()) {
            Ok(_) => Ok(true),
            Err(error) if error.kind() == ErrorKind::NotFound => Ok(false),
            Err(error) => Err(ShellFault::from(error)),
        }
    }

    /// Returns the metadata of the file with this name.
    pub fn about(&self, rt: &HostRuntime, name: &str) -> Result<Metadata, ShellFault>
        ensures { IfErr result IsOfFolder }
    {
        let path = self.path.join(rt.alloc(), name)?;
        Ok(fs::symlink_metadata(rt, path.as_path())?)
    }

    /// Renames a file, and syncs the folder.
    pub fn rename(&self, rt: &HostRuntime, from: &str, to: &str) -> Result<(), ShellFault>
        ensures { IfErr result IsOfFolder }
    {
        let from = self.path.join(rt.alloc(), from)?;
        let to = self.path.join(rt.alloc(), to)?;
        fs::rename(rt, from.as_path(), to.as_path())?;
        self.sync()
    }

    /// Removes the file with this name, if it exists, and syncs the folder.
    pub fn remove(&self, rt: &HostRuntime, name: &str) -> Result<(), ShellFault>
        ensures { IfErr result IsOfFolder }
    {
        let path = self.path.join(rt.alloc(), name)?;
        remove_if_there(rt, path.as_path())?;
        self.sync()
    }

    /// Returns the text of the file with this name, or nothing if it does not exist.
    pub fn text(&self, rt: &HostRuntime, name: &str) -> Result<Option<String>, ShellFault>
        ensures { IfErr result IsOfFolder }
    {
        let path = self.path.join(rt.alloc(), name)?;
        match fs::read_to_string(rt, path.as_path()) {
            Ok(text) => Ok(Some(text)),
            Err(error) if error.kind() == ErrorKind::NotFound => Ok(None),
            Err(error) => Err(ShellFault::from(error)),
        }
    }

    /// Creates a file with this text, and syncs it. Does not sync the folder.
    pub fn put_text(&self, rt: &HostRuntime, name: &str, text: &str) -> Result<(), ShellFault>
        ensures { IfErr result IsOfFolder }
    {
        let path = self.path.join(rt.alloc(), name)?;
        let mut file = new_file(rt, path.as_path())?;
        file.write_all(text.as_bytes())?;
        Ok(file.sync_all()?)
    }

    /// Creates a file of `size` zeros, with the owner and the mode that `about` has, and syncs both the file and the folder.
    pub fn put_zeros(
        &self,
        rt: &HostRuntime,
        name: &str,
        size: u64,
        about: &Metadata,
    ) -> Result<FileDisk, ShellFault>
        ensures { IfErr result IsOfFolder }
    {
        let path = self.path.join(rt.alloc(), name)?;
        let mut file = new_file(rt, path.as_path())?;
        fchown(&file, Some(about.uid()), Some(about.gid()))?;
        file.set_permissions(about.permissions())?;
        write_zeros(&mut file, size)?;
        file.sync_all()?;
        self.sync()?;
        Ok(FileDisk::new(file)?)
    }

    /// Syncs the names of the folder.
    pub fn sync(&self) -> Result<(), ShellFault>
        ensures { IfErr result IsOfFolder }
    {
        Ok(self.folder.sync_all()?)
    }
}
