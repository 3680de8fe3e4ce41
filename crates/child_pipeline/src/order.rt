//! The order that starts a child, and the result of its end.
ghost use Rattle.std.specs.Prelude.{◌≡◌};
ghost use Rattle.child_pipeline.specs.Finishes.{no_start, lost, bounded};

use crate::texts::{Content, Scheme, Texts};
use spool_types::{
    AttemptNumber, Exit, FilterName, JobId, LONGEST_DOCUMENT, QueueName, StageNumber, Uri,
};
use std::alloc::Global;

/// The program that a child runs.
#[derive(Drop)]
pub enum Program {
    Filter(FilterName),
    /// The backend of this scheme.
    Backend(Scheme),
}

/// The input of a child.
#[derive(Drop)]
pub enum Input {
    /// The job's document, as the file that the last word names. Standard input is empty.
    Document(Content),
    /// The output of the previous stage, on standard input.
    Bytes(Content),
}

/// All that determines the child of a stage.
#[derive(Drop)]
pub struct Order {
    pub job: JobId,
    pub attempt: AttemptNumber,
    pub stage: StageNumber,
    /// The job's queue, and the URI of its device.
    pub queue: QueueName,
    pub uri: Uri,
    pub program: Program,
    /// The arguments after the program (filter(7)).
    pub words: Texts,
    /// The variables, each as `NAME=value` (filter(7), backend(7)).
    pub environment: Texts,
    pub input: Input,
}

/// How a child ended, and all that it wrote to standard output and standard error.
#[derive(Drop)]
pub struct Finish {
    pub exit: Exit,
    pub output: Content,
    pub errors: Content,
}

impl Finish {
    // The finish of a child that could not be started.
    pub(crate) fn unstarted(alloc: Global) -> Finish
        ensures { result ≡ no_start }
    {
        Finish {
            exit: Exit::NoStart,
            output: Content::empty(alloc),
            errors: Content::empty(alloc),
        }
    }

    // The finish of a child whose end is unknown.
    pub(crate) fn lost(alloc: Global) -> Finish
        ensures { result ≡ lost }
    {
        Finish {
            exit: Exit::Lost,
            output: Content::empty(alloc),
            errors: Content::empty(alloc),
        }
    }

    // The same, but Lost if its output, which the next stage reads, is longer than a document may be.
    pub(crate) fn within_bounds(self, alloc: Global) -> Finish
        ensures { result ≡ bounded self }
    {
        if LONGEST_DOCUMENT < self.output.as_slice().len() {
            Finish {
                exit: Exit::Lost,
                output: Content::empty(alloc),
                errors: self.errors,
            }
        } else {
            self
        }
    }
}

/// A child could not be started, or its end is unknown.
#[derive(Clone, Copy, PartialEq, Eq)]
pub struct ChildFault;

/// An order, and how many children were finished before it.
#[derive(Drop)]
pub struct Placed {
    pub order: Order,
    pub before: usize,
}
