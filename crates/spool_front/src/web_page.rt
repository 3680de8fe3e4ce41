//! The page of the queues and jobs, written to a file.
ghost use Rattle.std.specs.Prelude.{◌≡◌, IfOk};
ghost use Rattle.spool_front.specs.StatusPages.{IsPage};

use crate::fault::Fault;
use crate::files::write_as;
use crate::moments::now;
use crate::services::{Services, all_aged_jobs, all_queues};
use front_texts::{AgedJob, PageView, QueueLine, aged_page, moment_text};
use front_words::PageFile;
use spool_types::Moment;
use std::time::Duration;

// The seconds between two pages.
const PAGE_SECONDS: u64 = 5;

/// Writes the page to a temporary file, which is then renamed. With `--follow` this is repeated every five seconds.
pub fn write_page(
    rt: &HostRuntime,
    services: Services<'_, '_>,
    asked: PageFile<'_>,
) -> Result<u8, Fault>
    ensures { IfOk result (λ status. status ≡ 0) }
{
    write_one_page(rt, services, asked)?;
    if asked.follow {
        for _ in 0..u64::MAX {
            std::thread::sleep(rt, Duration::from_secs(PAGE_SECONDS));
            write_one_page(rt, services, asked)?;
        }
    }
    Ok(0)
}

fn write_one_page(
    rt: &HostRuntime,
    services: Services<'_, '_>,
    asked: PageFile<'_>,
) -> Result<(), Fault> {
    let queues = all_queues(rt, services)?;
    let text = page_of(rt, services, &queues, asked);
    drop(queues);
    write_as(rt, asked.file, &text?)
}

// Returns the page of these queues and of the jobs of all services.
fn page_of(
    rt: &HostRuntime,
    services: Services<'_, '_>,
    queues: &[QueueLine],
    asked: PageFile<'_>,
) -> Result<Vec<u8>, Fault> {
    let jobs = all_aged_jobs(rt, services)?;
    let text = page_at(rt, queues, &jobs, asked);
    drop(jobs);
    text
}

// Returns the page with the current time, and with these filters.
fn page_at(
    rt: &HostRuntime,
    queues: &[QueueLine],
    jobs: &[AgedJob],
    asked: PageFile<'_>,
) -> Result<Vec<u8>, Fault>
    ensures { IfOk result (λ page. IsPage queues.now jobs.now asked.entry page.items) }
{
    let alloc = rt.alloc();
    let stamp = moment_text(alloc, Moment::ZERO.plus(now(rt)?))?;
    let view = PageView {
        queue: asked.queue,
        user: asked.user,
        follows: asked.follow,
    };
    Ok(aged_page(alloc, queues, jobs, view, stamp.as_str())?)
}
