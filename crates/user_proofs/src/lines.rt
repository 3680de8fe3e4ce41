//! The lines of passwd(5) and group(5), and the groups of a user.
ghost use Rattle.std.specs.Prelude.{◌≡◌, IfOk, map};
ghost use Rattle.user_proofs.specs.UserLines.{fields_of, group_by, group_in, id_in, is_colon, is_gap, is_id, is_member, is_word, numbers_by, numbers_in, numbers_of, user_by, user_if, user_in};

use line_words::decimal;
use spool_types::UserName;
use std::alloc::{AllocError, Global};

/// The numbers of a user and of its group.
#[derive(Clone, Copy)]
pub struct UserNumbers {
    pub uid: u32,
    pub gid: u32,
}

/// Returns the name in a line of passwd(5), if the line is that of the user with this number. `getent passwd UID` prints such a line.
pub fn user_in(alloc: Global, line: &[u8], uid: u32) -> Result<Option<UserName>, AllocError>
    ensures value { IfOk result (λ user. user ≡ user_in uid line.now) }
{
    let fields = fields_of(alloc, line)?;
    user_by(alloc, &fields, uid)
}

/// Returns the number in a line of group(5), if the line is that of the group with this name or number. `getent group GROUP` prints such
/// a line.
pub fn group_in(alloc: Global, line: &[u8], group: &str) -> Result<Option<u32>, AllocError>
    ensures value { IfOk result (λ gid. gid ≡ group_in group.now line.now) }
{
    let fields = fields_of(alloc, line)?;
    Ok(group_by(&fields, group.as_bytes()))
}

/// Returns the numbers in a line of passwd(5), if the line is that of the user with this name or number. `getent passwd USER` prints such
/// a line.
pub fn numbers_in(alloc: Global, line: &[u8], user: &str) -> Result<Option<UserNumbers>, AllocError>
    ensures value { IfOk result (λ numbers. numbers ≡ numbers_in user.now line.now) }
{
    let fields = fields_of(alloc, line)?;
    Ok(numbers_by(&fields, user.as_bytes()))
}

/// Returns whether `id -G USER` has printed this group.
pub(crate) fn is_member(groups: &[u8], gid: u32) -> bool
    ensures value { result ≡ is_member gid groups.now }
{
    groups.split(|b| is_gap(*b)).any(|word| is_id(word, gid))
}

// Returns the fields of a line.
fn fields_of<'a>(alloc: Global, line: &'a [u8]) -> Result<Vec<&'a [u8]>, AllocError>
    ensures { IfOk result (λ fields. map (λ field. field.now) fields.items ≡ fields_of line.now) }
{
    line.split(|b| is_colon(*b)).collect(alloc)
}

fn user_by(alloc: Global, fields: &[&[u8]], uid: u32) -> Result<Option<UserName>, AllocError>
    ensures { IfOk result (λ user. user ≡ user_by uid (map (λ field. field.now) fields.now)) }
{
    let [name, _, id, _, _, _, _] = fields else {
        return Ok(None);
    };
    user_if(alloc, name, id, uid)
}

// Returns the name of a user with this number.
fn user_if(alloc: Global, name: &[u8], id: &[u8], uid: u32) -> Result<Option<UserName>, AllocError>
    ensures { IfOk result (λ user. user ≡ user_if uid id.now name.now) }
{
    if is_id(id, uid) {
        UserName::from_word(alloc, name)
    } else {
        Ok(None)
    }
}

fn group_by(fields: &[&[u8]], group: &[u8]) -> Option<u32>
    ensures { result ≡ group_by group.now (map (λ field. field.now) fields.now) }
{
    let [name, _, id, _] = fields else {
        return None;
    };
    if is_word(name, group) || is_word(id, group) {
        id_in(id)
    } else {
        None
    }
}

fn numbers_by(fields: &[&[u8]], user: &[u8]) -> Option<UserNumbers>
    ensures { result ≡ numbers_by user.now (map (λ field. field.now) fields.now) }
{
    let [name, _, id, group, _, _, _] = fields else {
        return None;
    };
    if is_word(name, user) || is_word(id, user) {
        numbers_of(id, group)
    } else {
        None
    }
}

fn numbers_of(id: &[u8], group: &[u8]) -> Option<UserNumbers>
    ensures { result ≡ numbers_of id.now group.now }
{
    let uid = id_in(id)?;
    let gid = id_in(group)?;
    Some(UserNumbers { uid, gid })
}

fn is_word(word: &[u8], other: &[u8]) -> bool
    ensures { result ≡ is_word word.now other.now }
{
    word == other
}

// Returns the number of a user or of a group.
fn id_in(word: &[u8]) -> Option<u32>
    ensures { result ≡ id_in word.now }
{
    u32::try_from(decimal(word, 4_294_967_295)?).ok()
}

fn is_id(word: &[u8], id: u32) -> bool
    ensures { result ≡ is_id id word.now }
{
    match id_in(word) {
        Some(number) => number == id,
        None => false,
    }
}

fn is_colon(b: u8) -> bool
    ensures { result ≡ is_colon b }
{
    b == b':'
}

fn is_gap(b: u8) -> bool
    ensures { result ≡ is_gap b }
{
    b == b' ' || b == b'\n'
}
