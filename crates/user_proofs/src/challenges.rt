//! The names of challenges.
ghost use Rattle.std.specs.Prelude.{◌≡◌, ◌++◌, IfOk, codes, string_bytes};
ghost use Rattle.user_proofs.specs.ChallengeNames.{challenge_of};

use std::alloc::{AllocError, Global};

/// Returns the path of the folder that a client makes to prove its user, in the folder of proofs. The bytes must be random.
pub fn challenge_of(alloc: Global, folder: &str, bytes: &[u8; 16]) -> Result<String, AllocError>
    ensures value { IfOk result (λ path. string_bytes path ≡ challenge_of folder.now bytes.now) }
{
    let name = hex::encode(alloc, bytes)?;
    path_of(alloc, folder, name.as_str())
}

// Returns the path of this name in the folder.
fn path_of(alloc: Global, folder: &str, name: &str) -> Result<String, AllocError>
    ensures { IfOk result (λ path. string_bytes path ≡ folder.now ++ codes "/" ++ name.now) }
{
    let mut path = String::from_str(alloc, folder)?;
    path.push_str("/")?;
    path.push_str(name)?;
    Ok(path)
}
