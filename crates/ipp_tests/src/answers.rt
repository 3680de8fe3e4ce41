//! The answers about a printer and a job. The UUIDs are those of Python's `uuid.uuid5`, the dates those of `date -u`.

use crate::samples::{NOW, formats, job, printer, server, shown};
use ipp_answers::{JobFacts, JobQuery, JobSelection, Timestamp, WhichJobs, job_group, select_jobs};
use ipp_printers::PrinterList;
use ipp_values::{Keyword, Value};
use mime_costs::Convs;
use printer_answers::{PrinterSelection, formats_to, printer_group};
use requested_attributes::Asked;
use spool_types::{MediaType, UserName};
use std::alloc::{AllocError, Global};
use std::test::Fail;

const PRINTER: &str = "media iso_a5_148x210mm iso_a4_210x297mm
color yes
resolutions 300 600
";

fn keywords(alloc: Global, words: &[&str]) -> Result<Vec<Value>, AllocError> {
    let mut values = Vec::new(alloc);
    for word in words {
        match Keyword::read(alloc, word) {
            Ok(keyword) => values.push(Value::Keyword(keyword))?,
            Err(_) => return Err(AllocError),
        }
    }
    Ok(values)
}

fn printers_of_file(alloc: Global) -> Result<PrinterList, AllocError> {
    match PrinterList::read(alloc, PRINTER) {
        Ok(list) => Ok(list),
        Err(_) => Err(AllocError),
    }
}

// The attributes of the sample printer that these words ask for.
fn printer_answer(alloc: Global, words: &[&str], formats: &[&str]) -> Result<String, Fail> {
    let list = printers_of_file(alloc)?;
    let values = keywords(alloc, words)?;
    let facts = printer(alloc, formats)?;
    let asked = Asked::These(values.as_slice());
    let group = printer_group(alloc, asked, &server(), &list.printer("lab"), &facts)?;
    Ok(shown(alloc, &group)?)
}

// The attributes of the sample job that these words ask for.
fn job_answer(alloc: Global, user: Option<UserName>, words: &[&str]) -> Result<String, Fail> {
    let values = keywords(alloc, words)?;
    let facts = job(alloc, user)?;
    let group = job_group(alloc, Asked::These(values.as_slice()), &server(), &facts)?;
    Ok(shown(alloc, &group)?)
}

#[test]
fn printers(rt: HostRuntime) -> Result<(), Fail> {
    let words = [
        "printer-state",
        "printer-state-reasons",
        "printer-state-message",
        "printer-info",
        "queued-job-count",
        "printer-location",
    ];
    let text = printer_answer(rt.alloc(), &words, &[])?;
    assert_eq!(rt;
        text.as_str(),
        "printer-info lab\n\
printer-location Room 2\n\
printer-state 4\n\
printer-state-message Out of paper\n\
printer-state-reasons media-empty-warning moving-to-paused\n\
queued-job-count 3\n"
    );
    Ok(())
}

#[test]
fn printer_times_and_addresses(rt: HostRuntime) -> Result<(), Fail> {
    let words = [
        "printer-up-time",
        "printer-current-time",
        "printer-state-change-time",
        "printer-uri-supported",
        "printer-uuid",
        "printer-more-info",
    ];
    let text = printer_answer(rt.alloc(), &words, &[])?;
    assert_eq!(rt;
        text.as_str(),
        "printer-current-time 2023-11-14T22:13:20\n\
printer-more-info http://host/printers/lab\n\
printer-state-change-time no-value\n\
printer-up-time 1700000000\n\
printer-uri-supported ipp://host/printers/lab\n\
printer-uuid urn:uuid:fe79ffec-5086-52f9-ad13-e9f7931bb66c\n"
    );
    Ok(())
}

#[test]
fn formats_and_rasters(rt: HostRuntime) -> Result<(), Fail> {
    let words = [
        "document-format-supported",
        "urf-supported",
        "pwg-raster-document-type-supported",
    ];
    let formats = [
        "image/urf",
        "application/octet-stream",
        "application/vnd.cups-raster",
        "application/pdf",
    ];
    let text = printer_answer(rt.alloc(), &words, &formats)?;
    assert_eq!(rt;
        text.as_str(),
        "document-format-supported application/octet-stream image/urf application/pdf\n\
urf-supported V1.4 CP1 W8 SRGB24 RS300-600\n"
    );
    Ok(())
}

const CONVERSIONS: &str = "text/* application/pdf 10 texttopdf
application/pdf application/vnd.cups-raster 50 pdftoraster
application/vnd.cups-raster printer/raw 0 rastertoraw
image/urf image/pwg-raster 10 urftopwg
";

// The types that lead to the type of a queue, each after a space.
fn types_of_queue(alloc: Global, words: &[&str]) -> Result<String, Fail> {
    let (convs, _) = Convs::read(alloc, CONVERSIONS)?;
    let types = formats(alloc, words)?;
    let to = MediaType::read(alloc, "printer/raw")?;
    let mut text = String::new(alloc);
    for media in &formats_to(alloc, &convs, &types, &to)? {
        text.push(' ')?;
        text.push_str(media.as_str())?;
    }
    Ok(text)
}

#[test]
fn types_with_a_chain(rt: HostRuntime) -> Result<(), Fail> {
    let words = [
        "image/urf",
        "text/plain",
        "printer/raw",
        "application/vnd.cups-raster",
        "image/png",
    ];
    let text = types_of_queue(rt.alloc(), &words)?;
    assert_eq!(rt;
        text.as_str(),
        " text/plain printer/raw application/vnd.cups-raster"
    );
    Ok(())
}

#[test]
fn media(rt: HostRuntime) -> Result<(), Fail> {
    let text = printer_answer(
        rt.alloc(),
        &[
            "media-col-default",
            "media-default",
            "printer-resolution-default",
        ],
        &[],
    )?;
    assert_eq!(rt;
        text.as_str(),
        "media-col-default { media-size { x-dimension 14800 y-dimension 21000 } media-size-name iso_a5_148x210mm }\n\
media-default iso_a5_148x210mm\n\
printer-resolution-default 300\n"
    );
    Ok(())
}

#[test]
fn server_facts(rt: HostRuntime) -> Result<(), Fail> {
    let words = [
        "job-creation-attributes-supported",
        "job-k-octets-supported",
        "multiple-operation-time-out",
        "which-jobs-supported",
        "printer-type",
    ];
    let text = printer_answer(rt.alloc(), &words, &[])?;
    assert_eq!(rt;
        text.as_str(),
        "job-creation-attributes-supported copies media\n\
job-k-octets-supported 16384\n\
multiple-operation-time-out 300\n\
printer-type 204\n\
which-jobs-supported aborted all canceled completed not-completed pending pending-held processing processing-stopped\n"
    );
    Ok(())
}

// A selection answers about each printer as `printer_group` does.
#[test]
fn selections(rt: HostRuntime) -> Result<(), Fail> {
    let alloc = rt.alloc();
    let list = printers_of_file(alloc)?;
    let facts = printer(alloc, &[])?;
    let selection = PrinterSelection::of(alloc, Asked::All)?;
    let group = selection.group(alloc, &server(), &list.printer("lab"), &facts)?;
    assert!(rt; group.attribute("media-col-database").is_none());
    assert!(rt; group.attribute("sides-supported").is_some());
    Ok(())
}

#[test]
fn jobs(rt: HostRuntime) -> Result<(), Fail> {
    let user = UserName::read(rt.alloc(), "ann")?;
    let words = [
        "job-id",
        "job-k-octets",
        "job-name",
        "job-originating-user-name",
        "job-printer-uri",
        "job-state",
        "job-state-reasons",
        "copies",
    ];
    let text = job_answer(rt.alloc(), Some(user), &words)?;
    assert_eq!(rt;
        text.as_str(),
        "copies 2\n\
job-id 7\n\
job-k-octets 2\n\
job-name Letter\n\
job-originating-user-name ann\n\
job-printer-uri ipp://host/printers/lab\n\
job-state 5\n\
job-state-reasons job-printing\n"
    );
    Ok(())
}

#[test]
fn job_times(rt: HostRuntime) -> Result<(), Fail> {
    let words = [
        "time-at-creation",
        "time-at-processing",
        "time-at-completed",
        "date-time-at-creation",
        "date-time-at-processing",
        "date-time-at-completed",
        "job-uuid",
    ];
    let text = job_answer(rt.alloc(), None, &words)?;
    assert_eq!(rt;
        text.as_str(),
        "date-time-at-completed no-value\n\
date-time-at-creation 2023-11-14T22:12:20\n\
date-time-at-processing unknown\n\
job-uuid urn:uuid:a62d7581-8a3f-5c0c-87d5-0a92ff6a90d7\n\
time-at-completed no-value\n\
time-at-creation 1699999940\n\
time-at-processing no-value\n"
    );
    Ok(())
}

// A job whose owner is hidden has neither an owner nor a title.
#[test]
fn hidden_jobs(rt: HostRuntime) -> Result<(), Fail> {
    let text = job_answer(
        rt.alloc(),
        None,
        &["job-id", "job-name", "job-originating-user-name"],
    )?;
    assert_eq!(rt; text.as_str(), "job-id 7\n");
    Ok(())
}

#[test]
fn listed_jobs(rt: HostRuntime) -> Result<(), Fail> {
    let alloc = rt.alloc();
    let facts = job(alloc, None)?;
    let selection = JobSelection::of(alloc, Asked::JobIds)?;
    let group = selection.group(alloc, &server(), &facts)?;
    assert_eq!(rt;
        shown(alloc, &group)?.as_str(),
        "job-id 7\njob-uri ipp://host/jobs/7\n"
    );
    Ok(())
}

const EVERY_JOB: JobQuery<'static> = JobQuery {
    queue: None,
    which: WhichJobs::All,
    user: None,
    first_id: None,
    first_index: None,
    limit: None,
};

fn count(alloc: Global, query: JobQuery<'_>, jobs: &[&JobFacts]) -> Result<usize, AllocError> {
    Ok(select_jobs(alloc, query, jobs)?.len())
}

#[test]
fn queries(rt: HostRuntime) -> Result<(), Fail> {
    let alloc = rt.alloc();
    let hidden = job(alloc, None)?;
    let own = job(alloc, Some(UserName::read(alloc, "ann")?))?;
    let jobs = [&hidden, &own, &hidden];
    assert_eq!(rt; count(alloc, EVERY_JOB, &jobs)?, 3);
    assert_eq!(rt;
        count(
            alloc,
            JobQuery {
                user: Some("ann"),
                ..EVERY_JOB
            },
            &jobs
        )?,
        1
    );
    assert_eq!(rt;
        count(
            alloc,
            JobQuery {
                limit: Some(2),
                ..EVERY_JOB
            },
            &jobs
        )?,
        2
    );
    assert_eq!(rt;
        count(
            alloc,
            JobQuery {
                first_index: Some(3),
                ..EVERY_JOB
            },
            &jobs
        )?,
        1
    );
    assert_eq!(rt;
        count(
            alloc,
            JobQuery {
                which: WhichJobs::Completed,
                ..EVERY_JOB
            },
            &jobs
        )?,
        0
    );
    assert_eq!(rt;
        count(
            alloc,
            JobQuery {
                queue: Some("hall"),
                ..EVERY_JOB
            },
            &jobs
        )?,
        0
    );
    Ok(())
}

#[test]
fn dates(rt: HostRuntime) -> Result<(), Fail> {
    let leap = Timestamp::of_seconds(951_782_400).ok_or("leap")?.date;
    assert!(rt; leap.year == 2000 && leap.month == 2 && leap.day == 29 && leap.hour == 0);
    let now = Timestamp::of_seconds(NOW).ok_or("now")?.date;
    assert!(rt; now.year == 2023 && now.month == 11 && now.day == 14 && now.hour == 22);
    assert!(rt; Timestamp::of_seconds(253_402_300_799).is_some());
    assert!(rt; Timestamp::of_seconds(253_402_300_800).is_none());
    Ok(())
}
