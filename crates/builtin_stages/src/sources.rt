//! The documents of a tool.
ghost use Rattle.std.specs.Prelude.{◌≡◌, IfOk, None};

use crate::fault::ToolFault;
use crate::results::Source;
use std::fs::{File, Files};
use std::io::Stdin;

/// The file of this name, which is opened again for each copy.
#[derive(Drop)]
pub struct DocumentFile<'a, H> {
    pub rt: &'a H,
    pub name: &'a str,
}

impl<'a, H: Files<File = File>> Source for DocumentFile<'a, H> {
    type Reader = File;

    fn open(&self) -> Result<File, ToolFault> {
        File::open(self.rt, self.name).map_err(|error| ToolFault::Read(error))
    }
}

/// Standard input, which is printed once.
impl Source for Stdin {
    type Reader = Stdin;

    fn open(&self) -> Result<Stdin, ToolFault> {
        Ok(*self)
    }
}
