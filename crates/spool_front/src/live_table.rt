//! The live table of jobs: the jobs are shown again whenever one changes.
ghost use Rattle.std.specs.Prelude.{◌≡◌, IfOk};

use crate::client::Client;
use crate::fault::Fault;
use crate::host::Screen;
use crate::services::{Services, client_at, only_socket};
use crate::tasks::{keep_of, print_jobs};
use front_texts::{JobLine, read_job_line};
use front_words::Status;
use service_client::Mirror;
use std::alloc::{AllocError, Global};
use std::io::IsTerminal;

/// Shows the jobs, or those of a queue, until the connection is lost.
pub fn watch_jobs(
    rt: &HostRuntime,
    services: Services<'_, '_>,
    asked: Status<'_>,
    screen: Screen,
) -> Result<u8, Fault>
    ensures { IfOk result (λ status. status ≡ 0) }
{
    let mut client = client_at(rt, services, only_socket(services)?);
    let ended = follow(rt, &mut client, asked, screen);
    drop(client);
    ended?;
    Ok(0)
}

fn follow(
    rt: &HostRuntime,
    client: &mut Client<'_>,
    asked: Status<'_>,
    screen: Screen,
) -> Result<(), Fault> {
    let mut mirror = Mirror::new(rt.alloc());
    let ended = follow_by(rt, client, &mut mirror, asked, screen);
    drop(mirror);
    ended
}

fn follow_by(
    rt: &HostRuntime,
    client: &mut Client<'_>,
    mirror: &mut Mirror,
    asked: Status<'_>,
    screen: Screen,
) -> Result<(), Fault> {
    drop(client.ask(b"watch\n")?);
    for _ in 0..u64::MAX {
        if mirror.must_list() {
            list_all(client, mirror)?;
        }
        if mirror.is_whole() {
            show(rt, mirror, asked, screen)?;
        }
        let lines = client.receive_lines()?;
        let told = mirror.tell_all(&lines);
        drop(lines);
        told?;
    }
    Ok(())
}

// Lists all jobs and queues. Notices that come meanwhile are rows of the replies.
fn list_all(client: &mut Client<'_>, mirror: &mut Mirror) -> Result<(), Fault> {
    mirror.begin();
    let (jobs, queues) = client.exchange_both(b"jobs\n", b"queues\n")?;
    let told = jobs.tell(mirror);
    drop(jobs);
    let next = queues.tell(mirror);
    drop(queues);
    told?;
    Ok(next?)
}

// Shows the jobs of the mirror in place of those before.
fn show(rt: &HostRuntime, mirror: &Mirror, asked: Status<'_>, screen: Screen) -> Result<(), Fault> {
    let mut jobs = jobs_in(rt.alloc(), mirror)?;
    keep_of(&mut jobs, asked.queue);
    let shown = show_again(rt, &jobs, asked.json, screen);
    drop(jobs);
    shown
}

fn show_again(rt: &HostRuntime, jobs: &[JobLine], json: bool, screen: Screen) -> Result<(), Fault> {
    if !json {
        if rt.stdout().is_terminal() {
            print!(rt; "\u{1b}[H\u{1b}[J")?;
        } else {
            println!(rt; "")?;
        }
    }
    print_jobs(rt, jobs, json, screen)
}

// Returns the jobs of the mirror, in the order of their numbers.
fn jobs_in(alloc: Global, mirror: &Mirror) -> Result<Vec<JobLine>, AllocError> {
    let mut jobs = Vec::new(alloc);
    for (_, row) in mirror.jobs() {
        if let Some(job) = read_job_line(alloc, row.as_slice())? {
            jobs.push(job)?;
        }
    }
    Ok(jobs)
}
