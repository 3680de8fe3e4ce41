//! Who is an operator.
ghost use Rattle.std.specs.Prelude.{◌≡◌};
ghost use Rattle.user_proofs.specs.OperatorRules.{group_writes, is_always_operator, is_operator, usual_operators};

use crate::lines::is_member;

/// Returns whether a user is an operator. `service` is the user of the service, `operators` the group of operators, if there is one, and
/// `groups` the output of `id -G` for the user.
pub fn is_operator(service: u32, operators: Option<u32>, uid: u32, groups: &[u8]) -> bool
    ensures value { result ≡ is_operator service operators uid groups.now }
{
    if is_always_operator(service, uid) {
        return true;
    }
    match operators {
        Some(operators) => is_member(groups, operators),
        None => false,
    }
}

/// Returns whether a user is an operator whatever the groups are.
pub fn is_always_operator(service: u32, uid: u32) -> bool
    ensures value { result ≡ is_always_operator service uid }
{
    uid == 0 || uid == service
}

/// Returns the group of operators of a socket with these permissions and this group, unless another one is chosen: the group of the
/// socket, if it can connect.
pub fn usual_operators(mode: u32, gid: u32) -> Option<u32>
    ensures value { result ≡ usual_operators mode gid }
{
    if group_writes(mode) { Some(gid) } else { None }
}

fn group_writes(mode: u32) -> bool
    ensures { result ≡ group_writes mode }
{
    mode / 16 % 2 == 1
}
