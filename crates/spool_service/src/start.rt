//! Starts the service: takes the folder's locks, opens the spool, and then creates the sockets.
ghost use Rattle.std.specs.Prelude.{◌≡◌, IfErr, IfOk, string_bytes};
ghost use Rattle.spool_service.specs.ChildArguments.{child_limits};
ghost use Rattle.spool_service.specs.ServiceArguments.{AreInRange};
ghost use Rattle.spool_service.specs.ServiceFaults.{IsOfDevice, IsOfServing};
ghost use Rattle.spool_service.specs.Start.{disk_of, keeping_of, proofs_of, told_of};

use crate::child_users::users_named;
use crate::child_words::child_limits;
use crate::clocks::SystemTimes;
use crate::kills::Kills;
use crate::listening::{open_listener, remove_sockets, socket_name};
use crate::socket::SocketListener;
use crate::words::ServiceWords;
use child_pipeline::Children;
use filter_args::Place;
use log::{Log, info};
use mime_costs::Convs;
use mime_rules::Types;
use service_loop::{Keeping, Limits, Service, ServiceFault, Times};
use spool_disk::Disk;
use spool_engine::Engine;
use spool_runtime::{
    ChildSettings, ChildUser, DiskCause, ShellFault, check_child_ends, launcher_in, log_programs,
    open_folder_engine, prepare_users, read_rules,
};
use std::alloc::{AllocError, Global};
use std::fs::{File, Files, OpenOptions};
use std::io::ErrorKind;
use std::path::Path;
use std::{fs, io};
use watched_children::WatchedChildren;

// The empty device.
const NOTHING: &str = "/dev/null";

// The empty device, opened as often as a program has standard streams.
#[derive(Drop)]
struct Streams {
    input: File,
    output: File,
    errors: File,
}

/// Opens the spool, and serves the clients of the socket until a client ends the service.
pub fn run<L>(logged: &L, rt: &HostRuntime, words: ServiceWords<'_>) -> Result<(), ShellFault>
where
    L: Files<File = File> + AllocGlobal + Log,
    requires { AreInRange words }
{
    let streams = occupy_streams(rt)?;
    if words.programs.is_some() {
        check_child_ends(rt)?;
    }
    let (types, convs, programs) = read_rules(logged, words.types, words.convs, words.programs)?;
    log_programs(logged, rt, &programs);
    let users = users_named(logged, rt, words.child.users)?;
    let (launcher, place) = launcher_in(logged, rt, words.root, programs)?;
    let settings = settings_of(&words, &users)?;
    let launcher = launcher.with_settings(settings);
    let children = WatchedChildren::new(logged, rt.alloc(), launcher);
    let rules = (types, convs);
    let served = serve_children(logged, rt, &words, &users, (children, place), rules);
    // They are open until the files of the spool are closed.
    drop(streams);
    served
}

// Returns the users and the limits of children.
fn settings_of(
    words: &ServiceWords<'_>,
    users: &Vec<ChildUser>,
) -> Result<ChildSettings, AllocError>
    requires { AreInRange words.now }
    ensures users { IfOk result (λ settings. settings.users.items ≡ users.now.items) }
    ensures limits { IfOk result (λ settings. settings.limits ≡ child_limits words.now.child) }
{
    Ok(ChildSettings {
        users: users.clone()?,
        limits: child_limits(words.child),
    })
}

// Opens the empty device for each standard stream, before any other file. The system gives out the lowest number that is free. So if the
// program was started without a stream, no file of the spool gets its number, and the log is not written into it.
fn occupy_streams(rt: &HostRuntime) -> Result<Streams, ShellFault> {
    Ok(Streams {
        input: open_nothing(rt)?,
        output: open_nothing(rt)?,
        errors: open_nothing(rt)?,
    })
}

fn open_nothing(rt: &HostRuntime) -> io::Result<File> {
    OpenOptions::new()
        .read(true)
        .write(true)
        .open(rt, Path::new(NOTHING))
}

// Opens the spool, and serves the clients of the socket with these children.
fn serve_children<L, C>(
    logged: &L,
    rt: &HostRuntime,
    words: &ServiceWords<'_>,
    users: &[ChildUser],
    children: (C, Place),
    rules: (Types, Convs),
) -> Result<(), ShellFault>
where
    L: Log,
    C: Children + Drop,
{
    let (folder, engine) = open_folder_engine(logged, rt, words.root, words.size, children, rules)?;
    let served = match prepare_users(logged, rt, words.root, users) {
        Ok(()) => serve_engine(logged, rt, words, engine),
        Err(fault) => {
            drop(engine);
            Err(fault)
        }
    };
    // The program owns the folder until the service has ended.
    drop(folder);
    served
}

// Serves the clients of the socket with this engine.
fn serve_engine<L, D, C>(
    logged: &L,
    rt: &HostRuntime,
    words: &ServiceWords<'_>,
    engine: Engine<D, C>,
) -> Result<(), ShellFault>
where
    L: Log,
    D: Disk + Drop,
    C: Children + Drop,
{
    let keeping = keeping_of(words, disk_size(rt, words.root)?);
    let mut times = SystemTimes::new(logged, rt);
    // The milliseconds since 1970, so that the next service does not know the numbers of this one.
    let last_change = times.system(engine.table().now()).unwrap_or(0);
    let mut service = Service::new(
        logged,
        rt.alloc(),
        limits_of(words),
        engine,
        keeping,
        last_change,
    )?;
    serve_at_socket(logged, rt, words, &mut times, &mut service)
}

// Creates the sockets, serves their clients, and removes them when the service has ended.
fn serve_at_socket<L, D, C>(
    logged: &L,
    rt: &HostRuntime,
    words: &ServiceWords<'_>,
    times: &mut SystemTimes<'_, L, HostRuntime>,
    service: &mut Service<'_, L, D, C, SocketListener>,
) -> Result<(), ShellFault>
where
    L: Log,
    D: Disk + Drop,
    C: Children + Drop,
    ensures { IfErr result (IsOfServing (proofs_of words.now.root.now words.now.proofs)) }
{
    let socket = socket_name(rt, words)?;
    let served = listen(logged, rt, words, socket.as_str(), times, service);
    remove_sockets(rt, words, socket.as_str());
    served
}

// Creates the sockets, and serves their clients.
fn listen<L, D, C>(
    logged: &L,
    rt: &HostRuntime,
    words: &ServiceWords<'_>,
    socket: &str,
    times: &mut SystemTimes<'_, L, HostRuntime>,
    service: &mut Service<'_, L, D, C, SocketListener>,
) -> Result<(), ShellFault>
where
    L: Log,
    D: Disk + Drop,
    C: Children + Drop,
    ensures { IfErr result (IsOfServing (proofs_of words.now.root.now words.now.proofs)) }
{
    let mut listener = open_listener(logged, rt, words, socket)?;
    info!(logged; "listening on {socket}");
    let served = service.serve(&mut listener, times, &mut Kills::new(rt));
    listener.close();
    told_as(served)
}

// Returns the size of the folder's disk in bytes.
fn disk_size(rt: &HostRuntime, root: &str) -> Result<u64, ShellFault>
    ensures { IfErr result IsOfDevice }
{
    let name = disk_name(rt.alloc(), root)?;
    match fs::metadata(rt, name.as_str()) {
        Ok(disk) => Ok(disk.len()),
        Err(error) if error.kind() == ErrorKind::OutOfMemory => Err(ShellFault::Memory),
        Err(_) => Err(ShellFault::Disk(DiskCause::Failed)),
    }
}

fn disk_name(alloc: Global, root: &str) -> Result<String, AllocError>
    ensures { IfOk result (λ name. string_bytes name ≡ disk_of root.now) }
{
    format!(in alloc; "{root}/spool.disk")
}

// Returns the limits on what the service does at once.
fn limits_of(words: &ServiceWords<'_>) -> Limits
    ensures { result ≡ record { children = words.now.children; clients = words.now.clients } }
{
    Limits {
        children: words.children,
        clients: words.clients,
    }
}

// Returns the settings of maintenance over a disk of `size` bytes.
fn keeping_of(words: &ServiceWords<'_>, size: u64) -> Keeping
    ensures { result ≡ keeping_of words.now.keep words.now.room words.now.incoming size }
{
    Keeping {
        jobs: words.keep,
        room: words.room,
        area: size / 2,
        incoming: words.incoming.saturating_mul(1_000),
    }
}

// Converts the end of the service.
fn told_as(served: Result<(), ServiceFault>) -> Result<(), ShellFault>
    ensures { result ≡ told_of served }
{
    match served {
        Ok(()) => Ok(()),
        Err(ServiceFault::Memory) => Err(ShellFault::Memory),
        Err(ServiceFault::Disk) => Err(ShellFault::Disk(DiskCause::Failed)),
        Err(ServiceFault::Socket) => Err(ShellFault::Socket),
    }
}
