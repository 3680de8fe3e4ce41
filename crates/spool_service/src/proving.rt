//! The proofs of clients: the folder in which they prove who they are, and the users whose names are known.
//!
//! A challenge is the path of a folder that does not exist yet, in the folder of proofs. Its name is 16 random bytes of the system
//! (getentropy(3)), so nobody can guess it. It is sent to one client and is never logged. `user_proofs` decides whom the folder proves.
//!
//! Anybody may create names in the folder of proofs (mode 1733), nobody but the service can list them, and by the sticky bit nobody but
//! their owner and the service can rename or remove them.
ghost use Rattle.std.specs.Prelude.{◌≡◌, IfErr};
ghost use Rattle.std.specs.IoError.{error_kind};
ghost use Rattle.spool_service.specs.Proving.{folder_fault_of};
ghost use Rattle.spool_service.specs.ServiceFaults.{IsOfCall};

use crate::lookups::{groups_of, user_of, value_of};
use spool_types::{FileName, TextFault};
use std::alloc::AllocError;
use std::cell::RefCell;
use std::fs::{DirBuilder, Permissions};
use std::io::ErrorKind;
use std::os::unix::fs::{DirBuilderExt, PermissionsExt};
use std::random::RandomSource;
use std::time::Instant;
use std::{fs, io};
use user_proofs::{
    Found, Identity, KnownUser, KnownUsers, challenge_of, is_always_operator, is_of_service,
    is_operator, judged,
};

// The permissions of the folder of proofs while it is made, and afterwards.
const FIRST_MODE: u32 = 0o700;

const MODE: u32 = 0o1733;

// The greatest number of milliseconds since the start.
const MOST_MILLIS: u128 = 1 << 60;

/// The folder of proofs.
#[derive(Drop)]
pub struct ProofFolder {
    path: FileName,
    device: u64,
}

/// Why there is no folder of proofs.
#[derive(Clone, Copy)]
pub enum FolderFault {
    /// The name does not belong to a folder of the service.
    Foreign,
    /// The folder cannot be made or used.
    Unusable,
    /// Out of memory.
    Memory,
}

impl From<io::Error> for FolderFault {
    ghost from_gives = { λ error fault. fault ≡ folder_fault_of (error_kind error) };

    fn from(error: io::Error) -> FolderFault {
        folder_fault_of(error.kind())
    }
}

// Returns the fault if a call on the folder failed with this kind of error.
fn folder_fault_of(kind: ErrorKind) -> FolderFault
    ensures { result ≡ folder_fault_of kind }
{
    match kind {
        ErrorKind::OutOfMemory => FolderFault::Memory,
        _ => FolderFault::Unusable,
    }
}

impl From<TextFault> for FolderFault {
    ghost use Rattle.spool_service.specs.Proving.{fault_of_path};

    ghost from_gives = { λ error fault. fault ≡ fault_of_path error };

    fn from(error: TextFault) -> FolderFault {
        match error {
            TextFault::Bad => FolderFault::Unusable,
            TextFault::Memory => FolderFault::Memory,
        }
    }
}

/// Makes the folder of proofs, or takes the one that a killed service left, and removes what clients left in it. `service` is the user of
/// the service. Any other folder stays as it is, unless it is an empty one of the service.
pub fn open_folder(rt: &HostRuntime, path: &str, service: u32) -> Result<ProofFolder, FolderFault> {
    if !is_made(rt, path)? {
        take_folder(rt, path, service)?;
    }
    fs::set_permissions(rt, path, Permissions::from_mode(MODE))?;
    let found = fs::symlink_metadata(rt, path)?;
    let path = whole_path(rt, path)?;
    Ok(ProofFolder {
        path,
        device: Found::of(&found).device,
    })
}

// Makes the folder. Returns false if the name is taken.
fn is_made(rt: &HostRuntime, path: &str) -> io::Result<bool> {
    let mut builder = DirBuilder::new();
    builder.mode(FIRST_MODE);
    match builder.create(rt, path) {
        Ok(()) => Ok(true),
        Err(error) if error.kind() == ErrorKind::AlreadyExists => Ok(false),
        Err(error) => Err(error),
    }
}

// Takes an existing folder.
fn take_folder(rt: &HostRuntime, path: &str, service: u32) -> Result<(), FolderFault> {
    let found = Found::of(&fs::symlink_metadata(rt, path)?);
    if !is_of_service(found, service) {
        return Err(FolderFault::Foreign);
    }
    if found.mode == MODE {
        clear(rt, path);
        return Ok(());
    }
    if fs::remove_dir(rt, path).is_err() {
        return Err(FolderFault::Foreign);
    }
    if is_made(rt, path)? {
        Ok(())
    } else {
        Err(FolderFault::Foreign)
    }
}

// Removes the empty folders in this one.
fn clear(rt: &HostRuntime, path: &str) {
    let Ok(entries) = fs::read_dir(rt, path) else {
        return;
    };
    for entry in entries {
        if let Ok(entry) = entry {
            let _ = fs::remove_dir(rt, entry.path().as_str());
        }
    }
}

// Removes the folder of a challenge, or what else has its name. Returns whether it was an empty folder.
fn remove(rt: &HostRuntime, path: &str) -> bool {
    let removed = fs::remove_dir(rt, path).is_ok();
    if !removed {
        let _ = fs::remove_file(rt, path);
    }
    removed
}

// Returns the path from the root.
fn whole_path(rt: &HostRuntime, path: &str) -> Result<FileName, FolderFault>
    ensures { IfErr result IsOfCall }
{
    let whole = fs::canonicalize(rt, path)?;
    Ok(FileName::read(rt.alloc(), whole.as_path().as_str())?)
}

/// Makes challenges, and finds out whom the folders of clients prove.
#[derive(Drop)]
pub struct Proofs {
    rt: HostRuntime,
    folder: Option<ProofFolder>,
    // The user of the service, and the group of operators.
    service: u32,
    operators: Option<u32>,
    begun: Option<Instant>,
    users: RefCell<KnownUsers>,
}

impl Proofs {
    /// Proofs in this folder. Without one none are offered.
    pub fn new(
        rt: &HostRuntime,
        folder: Option<ProofFolder>,
        service: u32,
        operators: Option<u32>,
    ) -> Proofs
        ensures { (result.folder ≡ folder) × (result.service ≡ service) × (result.operators ≡ operators) }
    {
        Proofs {
            rt: *rt,
            folder,
            service,
            operators,
            begun: Instant::now(rt).ok(),
            users: RefCell::new(KnownUsers::new(rt.alloc())),
        }
    }

    /// Returns a new challenge: the path of the folder that a client must make. Returns none if proofs are not offered.
    pub fn challenge(&self) -> Result<Option<String>, AllocError> {
        let Some(folder) = &self.folder else {
            return Ok(None);
        };
        let mut bytes = [0; 16];
        if self.rt.fill_bytes(&mut bytes).is_err() {
            return Ok(None);
        }
        let path = challenge_of(self.rt.alloc(), folder.path.as_str(), &bytes)?;
        Ok(Some(path))
    }

    /// Removes the folder of a challenge, and returns whom it proves. It proves nobody if it was not empty.
    pub fn prove(&self, path: &str) -> Result<Option<Identity>, AllocError> {
        let Some(folder) = &self.folder else {
            return Ok(None);
        };
        let Some(found) = value_of(fs::symlink_metadata(&self.rt, path))? else {
            return Ok(None);
        };
        let owner = judged(Found::of(&found), folder.device);
        let removed = remove(&self.rt, path);
        match owner {
            Some(uid) if removed => self.identity(uid),
            _ => Ok(None),
        }
    }

    /// Removes the folder of a challenge that is no longer valid.
    pub fn withdraw(&self, path: &str) {
        remove(&self.rt, path);
    }

    /// Removes the folder of proofs.
    pub fn close(&self) {
        if let Some(folder) = &self.folder {
            clear(&self.rt, folder.path.as_str());
            let _ = fs::remove_dir(&self.rt, folder.path.as_str());
        }
    }

    // Returns who a user is, if the system knows it.
    fn identity(&self, uid: u32) -> Result<Option<Identity>, AllocError> {
        if let Some(identity) = self.known(uid)? {
            return Ok(identity);
        }
        let identity = self.look_up(uid)?;
        self.note(uid, identity)?;
        match self.known(uid)? {
            Some(identity) => Ok(identity),
            None => Ok(None),
        }
    }

    // Returns an earlier answer that is still valid.
    fn known(&self, uid: u32) -> Result<Option<Option<Identity>>, AllocError> {
        match self.users.try_borrow() {
            Ok(users) => answer_in(&users, uid, self.millis()),
            Err(_) => Ok(None),
        }
    }

    fn note(&self, uid: u32, identity: Option<Identity>) -> Result<(), AllocError> {
        let user = KnownUser {
            uid,
            since: self.millis(),
            identity,
        };
        match self.users.try_borrow_mut() {
            Ok(mut users) => users.note(user),
            Err(_) => Ok(()),
        }
    }

    // The milliseconds since the start.
    fn millis(&self) -> u64 {
        let Some(begun) = self.begun else {
            return 0;
        };
        match begun.elapsed(&self.rt) {
            Ok(passed) => passed.as_millis().min(MOST_MILLIS) as u64,
            Err(_) => 0,
        }
    }

    // Asks the system who a user is.
    fn look_up(&self, uid: u32) -> Result<Option<Identity>, AllocError> {
        let Some(name) = user_of(&self.rt, uid)? else {
            return Ok(None);
        };
        match self.is_operator(uid, name.as_str())? {
            Some(is_operator) => Ok(Some(Identity { name, is_operator })),
            None => Ok(None),
        }
    }

    // Returns whether a user is an operator, if the system knows the groups.
    fn is_operator(&self, uid: u32, name: &str) -> Result<Option<bool>, AllocError> {
        if self.operators.is_none() || is_always_operator(self.service, uid) {
            return Ok(Some(is_operator(self.service, None, uid, &[])));
        }
        match groups_of(&self.rt, name)? {
            Some(groups) => Ok(Some(is_operator(self.service, self.operators, uid, &groups))),
            None => Ok(None),
        }
    }
}

// Returns the answer for a user that is valid at the moment `now`.
fn answer_in(
    users: &KnownUsers,
    uid: u32,
    now: u64,
) -> Result<Option<Option<Identity>>, AllocError> {
    let Some(user) = users.find(uid, now) else {
        return Ok(None);
    };
    match &user.identity {
        Some(identity) => Ok(Some(Some(identity.try_clone()?))),
        None => Ok(Some(None)),
    }
}
