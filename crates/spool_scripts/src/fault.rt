//! Why a case cannot be served.

use spool_core::{MakeFault, OpenFault};
use spool_disk::DeviceFault;
use std::alloc::AllocError;
use std::{fmt, io};
use thiserror::Error;

/// Why a case cannot be served. Its text follows the name of the case.
#[derive(Debug, Drop, Error)]
pub enum CaseFault {
    #[error("has no script")]
    NoScript,
    #[error("has no replies")]
    NoReplies,
    /// A file of the case is not UTF-8.
    #[error("has a file that is not valid UTF-8")]
    NoText,
    /// The file of the disk's length does not contain a number.
    #[error("has an invalid size")]
    NoSize,
    /// The file of the version does not contain a number from 0 to 255.
    #[error("has an invalid version")]
    NoVersion,
    /// The file of the disk's calls does not contain two numbers, the first not greater than the last.
    #[error("has an invalid fuse")]
    NoFuse,
    /// The file of limits is invalid.
    #[error("has invalid limits")]
    NoLimits,
    /// The file of children is invalid.
    #[error("has an invalid list of children")]
    NoChildren,
    /// A file exists but cannot be read.
    #[error("cannot be read: {0}")]
    Unread(io::Error),
    /// The disk is too short for a spool.
    #[error("is on a disk that is too short")]
    ShortDisk,
    /// The disk failed while the spool was made.
    #[error("is on a disk that fails")]
    FailedDisk,
    /// The disk does not contain a valid spool.
    #[error("cannot be opened: {0:?}")]
    Unopened(OpenFault),
    #[error("runs out of memory")]
    Memory,
}

impl From<AllocError> for CaseFault {
    fn from(_error: AllocError) -> CaseFault {
        CaseFault::Memory
    }
}

impl From<io::Error> for CaseFault {
    fn from(error: io::Error) -> CaseFault {
        CaseFault::Unread(error)
    }
}

impl From<MakeFault> for CaseFault {
    fn from(_fault: MakeFault) -> CaseFault {
        CaseFault::ShortDisk
    }
}

impl From<DeviceFault> for CaseFault {
    fn from(_fault: DeviceFault) -> CaseFault {
        CaseFault::FailedDisk
    }
}

impl From<OpenFault> for CaseFault {
    fn from(fault: OpenFault) -> CaseFault {
        CaseFault::Unopened(fault)
    }
}

impl From<fmt::Error> for CaseFault {
    fn from(_error: fmt::Error) -> CaseFault {
        CaseFault::Memory
    }
}
