//! Creates what clients connect to: the sockets, and the folder of proofs.
ghost use Rattle.std.specs.Prelude.{◌≡◌, IfErr, IfOk, string_bytes};
ghost use Rattle.spool_service.specs.ServiceFaults.{IsOfListening, IsOfProofs, IsOfSocket, opened};
ghost use Rattle.spool_service.specs.Start.{at_socket, hint_for, operators_mode, proofs_of, socket_of};

use crate::lookups::group_of;
use crate::names::{Holder, holder_of, remove_left_socket};
use crate::proving::{FolderFault, ProofFolder, Proofs, open_folder};
use crate::socket::{SocketListener, open_operators_socket, open_socket};
use crate::words::ServiceWords;
use client_standing::RoleRules;
use log::{Log, error};
use mio::net::UnixListener;
use spool_runtime::{ShellFault, remove_if_there};
use std::alloc::{AllocError, Global};
use std::io::ErrorKind;
use std::os::unix::fs::MetadataExt;
use std::path::Path;
use std::{fs, io};
use system_reasons::reason_of;
use user_proofs::usual_operators;

/// Creates the sockets and the folder of proofs.
pub fn open_listener<L: Log>(
    logged: &L,
    rt: &HostRuntime,
    words: &ServiceWords<'_>,
    socket: &str,
) -> Result<SocketListener, ShellFault>
    ensures { IfErr result (IsOfListening (proofs_of words.now.root.now words.now.proofs)) }
{
    free_name(logged, rt, socket)?;
    let created = open_socket(rt, socket, words.mode);
    let clients = opened(logged, rt, socket, created)?;
    let (service, group) = owner_of(logged, rt, socket)?;
    let operators = operators_of(logged, rt, words, group)?;
    let folder = folder_of(logged, rt, words, service)?;
    let proofs = Proofs::new(rt, folder, service, operators);
    let rules = RoleRules {
        trust: words.trust,
        show_all: words.show_all,
    };
    let second = operators_socket(logged, rt, words, operators)?;
    let listening = SocketListener::new(rt, (clients, second), rules, proofs);
    opened(logged, rt, socket, listening)
}

/// Removes the sockets, once this program serves them no longer.
pub fn remove_sockets(rt: &HostRuntime, words: &ServiceWords<'_>, socket: &str) {
    let _ = remove_left_socket(rt, socket);
    if let Some(path) = words.operators_socket {
        let _ = remove_left_socket(rt, path);
    }
}

// Removes the socket of this name that a killed service left. Another holder of the name is an error.
fn free_name<L: Log>(logged: &L, rt: &HostRuntime, path: &str) -> Result<(), ShellFault>
    ensures { IfErr result IsOfSocket }
{
    match opened(logged, rt, path, holder_of(rt, path))? {
        Holder::Nobody => Ok(()),
        Holder::LeftSocket => {
            let removed = remove_if_there(rt, Path::new(path));
            opened(logged, rt, path, removed)
        }
        Holder::ServedSocket => {
            error!(logged; "cannot listen on {path}: another program serves this socket");
            Err(ShellFault::Socket)
        }
        Holder::Other => {
            error!(logged; "cannot listen on {path}: it exists and is no socket");
            Err(ShellFault::Socket)
        }
    }
}

// Returns the owner of the socket, who is the user of the service, and its group.
fn owner_of<L: Log>(logged: &L, rt: &HostRuntime, socket: &str) -> Result<(u32, u32), ShellFault>
    ensures { IfErr result IsOfSocket }
{
    let found = opened(logged, rt, socket, fs::symlink_metadata(rt, socket))?;
    Ok((found.uid(), found.gid()))
}

// Returns the group of operators: that of the arguments, or that of the socket. A group that is not known has no members.
fn operators_of<L: Log>(
    logged: &L,
    rt: &HostRuntime,
    words: &ServiceWords<'_>,
    group: u32,
) -> Result<Option<u32>, AllocError> {
    let Some(name) = words.operators else {
        return Ok(usual_operators(words.mode, group));
    };
    let found = group_of(rt, name)?;
    if found.is_none() {
        error!(logged; "unknown group of operators: {name}");
    }
    Ok(found)
}

// Creates the operators' socket, if the arguments name one.
fn operators_socket<L: Log>(
    logged: &L,
    rt: &HostRuntime,
    words: &ServiceWords<'_>,
    operators: Option<u32>,
) -> Result<Option<UnixListener>, ShellFault>
    ensures { IfErr result IsOfSocket }
{
    let Some(path) = words.operators_socket else {
        return Ok(None);
    };
    free_name(logged, rt, path)?;
    let group = match words.operators {
        Some(_) => operators,
        None => None,
    };
    let mode = operators_mode(group);
    let created = open_operators_socket(rt, path, mode, group);
    Ok(Some(opened(logged, rt, path, created)?))
}

// Returns the permissions of the operators' socket.
fn operators_mode(group: Option<u32>) -> u32
    ensures { result ≡ operators_mode group }
{
    match group {
        Some(_) => 0o660,
        None => 0o600,
    }
}

// Makes the folder of proofs. If that is not possible, no proofs are offered. A name that belongs to something else is a fault.
fn folder_of<L: Log>(
    logged: &L,
    rt: &HostRuntime,
    words: &ServiceWords<'_>,
    service: u32,
) -> Result<Option<ProofFolder>, ShellFault>
    ensures { IfErr result (IsOfProofs (proofs_of words.now.root.now words.now.proofs)) }
{
    let path = proofs_name(rt, words)?;
    match open_folder(rt, path.as_str(), service) {
        Ok(folder) => Ok(Some(folder)),
        Err(FolderFault::Unusable) => {
            error!(logged; "no proofs are offered: cannot make {}", path.as_str());
            Ok(None)
        }
        Err(FolderFault::Foreign) => {
            error!(logged; "{} is not a folder of this service", path.as_str());
            Err(ShellFault::File(path))
        }
        Err(FolderFault::Memory) => Err(ShellFault::Memory),
    }
}

// Converts the result of a call on a socket, and logs why the call failed.
fn opened<L: Log, T: Drop>(
    logged: &L,
    rt: &HostRuntime,
    path: &str,
    outcome: io::Result<T>,
) -> Result<T, ShellFault>
    ensures { result ≡ opened outcome }
{
    match outcome {
        Ok(value) => Ok(value),
        Err(error) => {
            log_reason(logged, rt.alloc(), path, &error);
            Err(at_socket(error.kind()))
        }
    }
}

// Logs why the system refuses to listen on a socket, and what to do.
fn log_reason<L: Log>(logged: &L, alloc: Global, path: &str, error: &io::Error) {
    match reason_of(alloc, error) {
        Ok(reason) => {
            let reason = reason.as_str();
            let hint = hint_for(error.kind());
            error!(logged; "cannot listen on {path}: {reason}{hint}");
        }
        Err(_) => error!(logged; "cannot listen on {path}"),
    }
}

// Returns what to do about an error of this kind.
fn hint_for(kind: ErrorKind) -> &'static str
    ensures { result.now ≡ hint_for kind }
{
    match kind {
        ErrorKind::NotFound => " (does the folder of the socket exist?)",
        ErrorKind::InvalidInput => " (the path of a socket has at most 107 bytes)",
        _ => "",
    }
}

// Returns the fault if the socket cannot be created, by the kind of the system's error.
fn at_socket(kind: ErrorKind) -> ShellFault
    ensures { result ≡ at_socket kind }
{
    match kind {
        ErrorKind::OutOfMemory => ShellFault::Memory,
        _ => ShellFault::Socket,
    }
}

/// Returns the clients' socket of the arguments, or that of the folder.
pub fn socket_name(rt: &HostRuntime, words: &ServiceWords<'_>) -> Result<String, AllocError>
    ensures { IfOk result (λ name. string_bytes name ≡ socket_of words.now.root.now words.now.listen) }
{
    match words.listen {
        Some(socket) => String::from_str(rt.alloc(), socket),
        None => {
            let root = words.root;
            format!(in rt.alloc(); "{root}/spool.sock")
        }
    }
}

// Returns the folder of proofs of the arguments, or that of the folder.
fn proofs_name(rt: &HostRuntime, words: &ServiceWords<'_>) -> Result<String, AllocError>
    ensures { IfOk result (λ name. string_bytes name ≡ proofs_of words.now.root.now words.now.proofs) }
{
    match words.proofs {
        Some(folder) => String::from_str(rt.alloc(), folder),
        None => {
            let root = words.root;
            format!(in rt.alloc(); "{root}/proof")
        }
    }
}
