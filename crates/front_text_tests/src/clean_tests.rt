//! Texts whose characters would steer a terminal. Expected texts are written by hand, from ECMA-48, UAX 9 and RFC 8259.

use crate::tests::has;
use clean_texts::{clean, clean_bytes, clean_json, clean_text};
use front_texts::{
    JobLine, fitted, job_page, job_shown_json, jobs_json, jobs_table, json_text, lpq, lpstat_jobs,
    page, queue_page, read_job_line, read_job_shown, read_queue_line,
};
use std::alloc::{AllocError, Global};
use std::test::Fail;

// A job whose user and title contain U+0085, U+009B, U+009D and U+202E.
const HOSTILE: &str = "job 8 lab 3 none \"a\u{202e}b\" 3 0 \"\u{9b}31m\u{85}\u{9d}2;x\u{202e}z\"";

const HOSTILE_SHOWN: &str =
    "job 7\nqueue lab\nuser \"a\u{2066}b\"\ntitle \"P\u{9b}2J\"\noptions \"media=\u{85}a4\"\ncopies 2\npriority 50\nsize 65536\npages 1\nattempts 1\nstate 5\nreason job-printing\nstage 1 of 2 attempt 1\n";

const LAB: &str = "queue lab 4 accepting application/x-prn abort-job 30 5 none \"\"";

fn hostile_jobs(alloc: Global) -> Result<Vec<JobLine>, AllocError> {
    let mut jobs = Vec::new(alloc);
    if let Some(job) = read_job_line(alloc, HOSTILE.as_bytes())? {
        jobs.push(job)?;
    }
    Ok(jobs)
}

fn joined(alloc: Global, lines: &[String]) -> Result<String, AllocError> {
    let mut text = String::new(alloc);
    for line in lines {
        text.push_str(line.as_str())?;
        text.push('\n')?;
    }
    Ok(text)
}

fn hostile_page(alloc: Global) -> Result<Vec<u8>, AllocError> {
    page(alloc, &[], &hostile_jobs(alloc)?, "now", false)
}

fn shown_text(alloc: Global) -> Result<String, AllocError> {
    match read_job_shown(alloc, HOSTILE_SHOWN.as_bytes())? {
        Some(job) => joined(alloc, &job_page(alloc, &job, 80)?),
        None => Ok(String::new(alloc)),
    }
}

fn shown_json(alloc: Global) -> Result<String, AllocError> {
    match read_job_shown(alloc, HOSTILE_SHOWN.as_bytes())? {
        Some(job) => json_text(alloc, &job_shown_json(alloc, &job, None)?),
        None => Ok(String::new(alloc)),
    }
}

fn queue_entries(alloc: Global) -> Result<Vec<u8>, AllocError> {
    match read_queue_line(alloc, LAB.as_bytes())? {
        Some(queue) => lpq(alloc, &queue, &hostile_jobs(alloc)?, false),
        None => Ok(Vec::new(alloc)),
    }
}

#[test]
fn texts(rt: HostRuntime) -> Result<(), Fail> {
    let alloc = rt.alloc();
    assert_eq!(rt;
        clean_text(alloc, "plain \u{e9}\u{4e2d}")?.as_str(),
        "plain \u{e9}\u{4e2d}"
    );
    assert_eq!(rt;
        clean_text(alloc, "a\u{1b}[2J\u{7f}\u{85}\u{9b}\u{9d}\n\t")?.as_str(),
        "a\u{fffd}[2J\u{fffd}\u{fffd}\u{fffd}\u{fffd}\u{fffd}\u{fffd}"
    );
    assert_eq!(rt;
        clean_text(
            alloc,
            "\u{61c}\u{200e}\u{202e}\u{2028}\u{2066}\u{200b}\u{feff}\u{ad}\u{e0041}"
        )?
        .as_str(),
        "\u{fffd}\u{fffd}\u{fffd}\u{fffd}\u{fffd}\u{fffd}\u{fffd}\u{fffd}\u{fffd}"
    );
    // Characters that choose the shape of their neighbors stay.
    assert_eq!(rt;
        clean_text(alloc, "\u{645}\u{200c}\u{2764}\u{fe0f}\u{200d}")?.as_str(),
        "\u{645}\u{200c}\u{2764}\u{fe0f}\u{200d}"
    );
    assert_eq!(rt;
        clean_bytes(alloc, b"ok\x1b]\xff\xc2\x9b\xe4\xb8\xad\xc2")?.as_str(),
        "ok\u{fffd}]\u{fffd}\u{fffd}\u{4e2d}\u{fffd}"
    );
    let printed = format!(in alloc; "<{}>", clean("a\u{9b}b"))?;
    assert_eq!(rt; printed.as_str(), "<a\u{fffd}b>");
    assert_eq!(rt;
        fitted(alloc, "\u{65e5}\u{672c}\u{8a9e}", 4)?.as_str(),
        "\u{65e5}\u{2026}"
    );
    Ok(())
}

#[test]
fn escapes(rt: HostRuntime) -> Result<(), Fail> {
    let alloc = rt.alloc();
    assert_eq!(rt;
        clean_json(alloc, "{\"a\":[1,\"\u{e9}\"]}")?.as_str(),
        "{\"a\":[1,\"\u{e9}\"]}"
    );
    assert_eq!(rt;
        clean_json(alloc, "\"\u{7f}\u{9b}\u{202e}\u{feff}\u{e0041}\"")?.as_str(),
        "\"\\u007f\\u009b\\u202e\\ufeff\\udb40\\udc41\""
    );
    assert_eq!(rt;
        json_text(alloc, &jobs_json(alloc, &hostile_jobs(alloc)?)?)?.as_str(),
        "[{\"number\":8,\"pages\":0,\"queue\":\"lab\",\"reason\":null,\"size\":3,\"state\":\"pending\",\"title\":\"\\u009b31m\\u0085\\u009d2;x\\u202ez\",\"user\":\"a\\u202eb\"}]"
    );
    assert!(rt;
        shown_json(alloc)?.as_str().starts_with(
            "{\"asked\":{\"copies\":2,\"number\":7,\"options\":\"media=\\u0085a4\",\"priority\":50,\"queue\":\"lab\",\"title\":\"P\\u009b2J\",\"user\":\"a\\u2066b\"}"
        )
    );
    Ok(())
}

#[test]
fn terminals(rt: HostRuntime) -> Result<(), Fail> {
    let alloc = rt.alloc();
    assert_eq!(rt;
        joined(alloc, &jobs_table(alloc, &hostile_jobs(alloc)?, 80)?)?.as_str(),
        "   JOB  QUEUE  STATE       USER      SIZE  PAGES  TITLE\n     8  lab    pending     a\u{fffd}b        3 B      0  \u{fffd}31m\u{fffd}\u{fffd}2;x\u{fffd}z\n"
    );
    assert!(rt;
        shown_text(alloc)?.as_str().starts_with(
            "job         7\nqueue       lab\nuser        a\u{fffd}b\ntitle       P\u{fffd}2J\noptions     media=\u{fffd}a4\n"
        )
    );
    let mut rows = Vec::new(alloc);
    rows.push(Vec::from_slice(alloc, "info \"\u{9b}2J\"".as_bytes())?)?;
    assert_eq!(rt;
        joined(alloc, &queue_page(alloc, rows.as_slice(), 60)?)?.as_str(),
        "info        \u{fffd}2J\n"
    );
    Ok(())
}

#[test]
fn forms(rt: HostRuntime) -> Result<(), Fail> {
    let alloc = rt.alloc();
    assert!(rt;
        lpstat_jobs(alloc, &hostile_jobs(alloc)?, false)?.as_slice()
            == "lab-8                   a\u{fffd}b                  3 -\n".as_bytes()
    );
    assert!(rt;
        queue_entries(alloc)?.ends_with(
            "1st     a\u{fffd}b     8       \u{fffd}31m\u{fffd}\u{fffd}2;x\u{fffd}z                     3 bytes\n".as_bytes()
        )
    );
    let page = hostile_page(alloc)?;
    assert!(rt;
        has(
            &page,
            "<td><bdi>\u{fffd}31m\u{fffd}\u{fffd}2;x\u{fffd}z</bdi></td>".as_bytes()
        )
    );
    assert!(rt; has(&page, "<td><bdi>a\u{fffd}b</bdi></td>".as_bytes()));
    Ok(())
}
