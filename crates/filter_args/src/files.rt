//! The files of a child.
ghost use Rattle.std.specs.Prelude.{◌≡◌, IfOk};
ghost use Rattle.std.specs.String.{string_bytes};
ghost use Rattle.filter_args.specs.Files.{prefix_of, file_name};

use crate::place::Place;
use spool_types::JobId;
use std::alloc::{AllocError, Global};

/// A file of a child in the spool's folder.
#[derive(Clone, Copy, PartialEq, Eq)]
pub enum ChildFile {
    /// Its input: for the first stage the document.
    Input,
    /// Its standard output.
    Output,
    /// Its standard error.
    Errors,
    /// The socket of its side channel.
    Side,
}

impl ChildFile {
    // Returns the front of its name.
    fn prefix(self) -> &'static str
        ensures { result.now ≡ prefix_of self }
    {
        match self {
            ChildFile::Input => "in",
            ChildFile::Output => "out",
            ChildFile::Errors => "err",
            ChildFile::Side => "side",
        }
    }

    /// Returns the path of the file for a stage of an attempt.
    pub fn path(
        self,
        alloc: Global,
        place: &Place,
        job: JobId,
        attempt: u32,
        stage: u8,
    ) -> Result<String, AllocError>
        ensures { IfOk result (λ path. string_bytes path ≡ file_name self (string_bytes place.now.root) job attempt stage) }
    {
        let root = place.root.as_str();
        let prefix = self.prefix();
        let number = job.get();
        let path = format!(in alloc; "{root}/{prefix}-{number}-{attempt}-{stage}")?;
        Ok(path)
    }
}
