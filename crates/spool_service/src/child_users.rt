//! The users that children run as, by their names.
ghost use Rattle.std.specs.Prelude.{◌≡◌, ◌+◌, IfErr, IfOk, OnErr, OnOk, eqb, length, map};
ghost use Rattle.std.specs.List.{IsDistinct, list_any};
ghost use Rattle.std.specs.Option.{option_map};
ghost use Rattle.spool_service.specs.ChildArguments.{user_names, user_numbers};
ghost use Rattle.spool_service.specs.ServiceFaults.{IsOfNames};

use crate::lookups::numbers_of;
use log::{Log, error};
use spool_runtime::{ChildUser, ShellFault};
use std::alloc::{AllocError, Global};
use user_proofs::UserNumbers;

/// Returns the users of these names, which commas separate, one for each name, with different numbers. Fails with `Users` if the system does
/// not know one of them, or if one is given twice, and logs which.
pub fn users_named<L: Log>(
    logged: &L,
    rt: &HostRuntime,
    names: Option<&str>,
) -> Result<Vec<ChildUser>, ShellFault>
    ensures count { IfOk result (λ users. length users.items ≡ length (user_names (option_map (λ text. text.now) names.entry))) }
    ensures distinct { IfOk result (λ users. IsDistinct eqb (user_numbers users.items)) }
    ensures fault { IfErr result IsOfNames }
{
    let mut users = Vec::new(rt.alloc());
    let names = user_names(rt.alloc(), names)?;
    for name in &names {
        push_user(logged, rt, &mut users, name)?;
    }
    Ok(users)
}

// Returns the names between the commas of a list.
fn user_names<'a>(alloc: Global, names: Option<&'a str>) -> Result<Vec<&'a str>, AllocError>
    ensures { IfOk result (λ list. map (λ name. name.now) list.items ≡ user_names (option_map (λ text. text.now) names.entry)) }
{
    match names {
        Some(text) => text.split(',').collect(alloc),
        None => Ok(Vec::new(alloc)),
    }
}

// Adds the user of a name. No other one may have its number.
fn push_user<L: Log>(
    logged: &L,
    rt: &HostRuntime,
    users: &mut Vec<ChildUser>,
    name: &str,
) -> Result<(), ShellFault>
    ensures count { OnOk result (length users.new.items ≡ length users.old.items + 1) }
    ensures distinct { IsDistinct eqb (user_numbers users.old.items) → OnOk result (IsDistinct eqb (user_numbers users.new.items)) }
    ensures kept { OnErr result (users.new.items ≡ users.old.items) }
    ensures fault { IfErr result IsOfNames }
{
    let Some(found) = numbers_of(rt, name)? else {
        error!(logged; "unknown user of children: {name}");
        return Err(ShellFault::Users);
    };
    if has_number(users, found.uid) {
        error!(logged; "user of children given twice: {name}");
        return Err(ShellFault::Users);
    }
    users.reserve(1)?;
    users.push_reserved(child_user(found));
    Ok(())
}

// Returns whether one of the users has this number.
fn has_number(users: &[ChildUser], uid: u32) -> bool
    ensures { result ≡ list_any (eqb uid) (user_numbers users.now) }
{
    users.iter().any(|user| user.uid == uid)
}

// Returns the user with these numbers. Its children have the group of the user alone.
fn child_user(found: UserNumbers) -> ChildUser
    ensures uid { result.uid ≡ found.uid }
    ensures gid { result.gid ≡ found.gid }
{
    ChildUser {
        uid: found.uid,
        gid: found.gid,
    }
}
