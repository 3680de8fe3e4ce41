//! The user whom a folder proves.
ghost use Rattle.std.specs.Prelude.{◌≡◌, ◌↔◌, ◌%◌};
ghost use Rattle.std.specs.Fs.{IsDir, IsSymlink, file_type, metadata_mode};
ghost use Rattle.user_proofs.specs.FolderProofs.{is_folder, is_of_service, is_proof, judged};

use std::fs::Metadata;
use std::os::unix::fs::MetadataExt;

// The mode of a folder that only its owner can use.
const OWN_MODE: u32 = 0o700;

// The user who represents unknown users.
const NOBODY: u32 = 65_534;

// The bits of a mode that are permissions.
const PERMISSIONS: u32 = 0o10_000;

/// The kind of a file. A link is not followed.
#[derive(Clone, Copy)]
pub enum FoundKind {
    Folder,
    Link,
    Other,
}

/// The report of lstat(2) on a file.
#[derive(Clone, Copy)]
pub struct Found {
    pub kind: FoundKind,
    /// The permissions, with the bits for set-user-ID, set-group-ID and the sticky bit.
    pub mode: u32,
    /// The device of its file system.
    pub device: u64,
    /// The user who owns it.
    pub owner: u32,
}

impl Found {
    /// Reads the metadata, without its times and its length.
    pub fn of(metadata: &Metadata) -> Found
        ensures folder { (result.kind ≡ FoundKind.Folder) ↔ IsDir (file_type metadata.now) }
        ensures link { (result.kind ≡ FoundKind.Link) ↔ IsSymlink (file_type metadata.now) }
        ensures mode { result.mode ≡ metadata_mode metadata.now % 4096 }
    {
        Found {
            kind: kind_of(metadata),
            mode: metadata.mode() % PERMISSIONS,
            device: metadata.dev(),
            owner: metadata.uid(),
        }
    }
}

fn kind_of(metadata: &Metadata) -> FoundKind
    ensures folder { (result ≡ FoundKind.Folder) ↔ IsDir (file_type metadata.now) }
    ensures link { (result ≡ FoundKind.Link) ↔ IsSymlink (file_type metadata.now) }
{
    if metadata.is_symlink() {
        FoundKind::Link
    } else if metadata.is_dir() {
        FoundKind::Folder
    } else {
        FoundKind::Other
    }
}

/// Returns the user whom a folder proves, if its name is that of a challenge on this device.
pub fn judged(found: Found, device: u64) -> Option<u32>
    ensures value { result ≡ judged device found }
{
    if is_proof(found, device) {
        Some(found.owner)
    } else {
        None
    }
}

/// Returns whether a name belongs to a folder of the service.
pub fn is_of_service(found: Found, service: u32) -> bool
    ensures value { result ≡ is_of_service service found }
{
    is_folder(found.kind) && found.owner == service
}

fn is_proof(found: Found, device: u64) -> bool
    ensures { result ≡ is_proof device found }
{
    is_folder(found.kind)
        && found.mode == OWN_MODE
        && found.device == device
        && found.owner != NOBODY
}

fn is_folder(kind: FoundKind) -> bool
    ensures { result ≡ is_folder kind }
{
    match kind {
        FoundKind::Folder => true,
        FoundKind::Link => false,
        FoundKind::Other => false,
    }
}
