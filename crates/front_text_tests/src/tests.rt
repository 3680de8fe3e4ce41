//! Expected texts are written by hand, from RFC 8011 (names of states), RFC 9110 (a date) and the output of CUPS's `lpstat` and `lpq`.

ghost use Rattle.std.specs.Prelude.{◌≤◌};

use front_texts::{
    AgedJob, JobLine, LastLine, PageView, QueueLine, WatchLine, aged_page, device_in, escape,
    fitted, job_page, job_shown_json, jobs_json, jobs_table, lpq, lpstat_accepting, lpstat_device,
    lpstat_jobs, lpstat_names, lpstat_printers, moment_text, next_in, now_in, page, queue_page,
    queues_json, queues_table, read_aged_jobs, read_job_line, read_job_shown, read_last_line,
    read_queue_line, read_watch_line, size_text,
};
use program_version::with_version;
use spool_types::Moment;
use std::alloc::{AllocError, Global};
use std::test::Fail;

const PRINTING: &str = "job 7 lab 5 job-printing \"ann\" 65536 2 \"Report \\\"Q1\\\"\"";

const WAITING: &str = "job 8 lab 3 none \"bob\" 3 0 \"<b>&'x'\"";

const ARRIVING: &str = "job 10 lab 4 job-incoming \"ann\" 0 0 \"\"";

// A job that the service does not show to the client.
const HIDDEN: &str = "job 11 lab 3 none \"\" 5 0 \"\"";

const LAB: &str = "queue lab 4 accepting application/x-prn abort-job 30 5 none \"\"";

const DEN: &str =
    "queue den 5 rejecting text/plain retry-job 0 0 media-empty,toner-low \"tray \\\"2\\\" is empty\"";

const SHOWN: &str =
    "job 7\nqueue lab\nuser \"ann\"\ntitle \"P \\\"1\\\"\"\noptions \"media=A4\"\ncopies 2\npriority 50\nsize 65536\npages 1\nattempts 1\ntype text/plain\nby 1700000000\nstate 5\nreason job-printing\nstage 1 of 2 attempt 1\n";

// The lines that a service adds which reports times.
const TIMES: &str = "created 1700000000\nclosed 1700000001\nstarted unknown\n";

// A page of all queues and jobs.
const ALL: PageView<'static> = PageView {
    queue: None,
    user: None,
    follows: true,
};

// Ages in seconds, and the words for them.
const AGES: [(u64, &str); 8] = [
    (0, "0 s"),
    (59, "59 s"),
    (60, "1 min"),
    (3_599, "59 min"),
    (3_600, "1 h"),
    (172_799, "47 h"),
    (172_800, "2 d"),
    (8_640_000, "100 d"),
];

const FOOTER: &str = with_version!(
    "</tbody>\n</table>\n<p class=\"faint\">Cegmandi ",
    "</p>\n</body>\n</html>\n"
);

fn jobs(alloc: Global, rows: &[&str]) -> Result<Vec<JobLine>, AllocError> {
    let mut jobs = Vec::new(alloc);
    for row in rows {
        if let Some(job) = read_job_line(alloc, row.as_bytes())? {
            jobs.push(job)?;
        }
    }
    Ok(jobs)
}

// Returns the jobs with this age.
fn aged(alloc: Global, rows: &[&str], age: Option<u64>) -> Result<Vec<AgedJob>, AllocError> {
    let mut aged = Vec::new(alloc);
    for line in jobs(alloc, rows)? {
        aged.push(AgedJob {
            line,
            age,
            left: age,
        })?;
    }
    Ok(aged)
}

// Returns the page of two jobs of this age.
fn page_of(alloc: Global, view: PageView<'_>, age: Option<u64>) -> Result<Vec<u8>, AllocError> {
    let queues = queues(alloc, &[DEN, LAB])?;
    aged_page(
        alloc,
        &queues,
        &aged(alloc, &[WAITING, ARRIVING], age)?,
        view,
        "then",
    )
}

fn queues(alloc: Global, rows: &[&str]) -> Result<Vec<QueueLine>, AllocError> {
    let mut queues = Vec::new(alloc);
    for row in rows {
        if let Some(queue) = read_queue_line(alloc, row.as_bytes())? {
            queues.push(queue)?;
        }
    }
    Ok(queues)
}

// Returns the lines, each with its line feed.
fn joined(alloc: Global, lines: &[String]) -> Result<String, AllocError> {
    let mut text = String::new(alloc);
    for line in lines {
        text.push_str(line.as_str())?;
        text.push('\n')?;
    }
    Ok(text)
}

// Returns a word for the type of a line of `watch`.
fn told(alloc: Global, line: &str) -> Result<&'static str, AllocError> {
    let word = match read_watch_line(alloc, line.as_bytes())? {
        Some(WatchLine::Job(_)) => "job",
        Some(WatchLine::Queue(_)) => "queue",
        Some(WatchLine::GoneJob(_)) => "gone job",
        Some(WatchLine::GoneQueue(_)) => "gone queue",
        Some(WatchLine::Missed) => "missed",
        None => "nothing",
    };
    Ok(word)
}

// Returns a word for the type of a last line, and a part of the line.
fn ended(line: &str) -> (&'static str, &str) {
    match read_last_line(line) {
        Some(LastLine::Done { words }) => ("done", words),
        Some(LastLine::Refused { name, .. }) => ("refused", name),
        Some(LastLine::Failed { word }) => ("failed", word),
        None => ("nothing", ""),
    }
}

// Returns the job as it is printed.
fn shown_lines(alloc: Global, times: &str) -> Result<String, AllocError> {
    let text = format!(in alloc; "{SHOWN}{times}")?;
    match read_job_shown(alloc, text.as_bytes())? {
        Some(job) => joined(alloc, &job_page(alloc, &job, 60)?),
        None => Ok(String::new(alloc)),
    }
}

fn shown_json(alloc: Global) -> Result<String, AllocError> {
    let text = format!(in alloc; "{SHOWN}{TIMES}")?;
    match read_job_shown(alloc, text.as_bytes())? {
        Some(job) => job_shown_json(alloc, &job, Some("it is held"))?.to_string(alloc),
        None => Ok(String::new(alloc)),
    }
}

fn table_of_jobs(alloc: Global, width: usize) -> Result<String, AllocError>
    requires { 1 ≤ width }
{
    let jobs = jobs(alloc, &[PRINTING])?;
    joined(alloc, &jobs_table(alloc, &jobs, width)?)
}

fn table_of_queues(alloc: Global) -> Result<String, AllocError> {
    let queues = queues(alloc, &[LAB, DEN])?;
    joined(alloc, &queues_table(alloc, &queues, 80)?)
}

fn printers(alloc: Global) -> Result<Vec<u8>, AllocError> {
    let jobs = jobs(alloc, &[PRINTING, WAITING])?;
    lpstat_printers(alloc, &queues(alloc, &[LAB, DEN])?, &jobs, false)
}

fn entries(alloc: Global, row: &str) -> Result<Vec<u8>, AllocError> {
    let jobs = jobs(alloc, &[PRINTING, WAITING, ARRIVING])?;
    match read_queue_line(alloc, row.as_bytes())? {
        Some(queue) => lpq(alloc, &queue, &jobs, false),
        None => Ok(Vec::new(alloc)),
    }
}

fn long_entries(alloc: Global) -> Result<Vec<u8>, AllocError> {
    let jobs = jobs(alloc, &[PRINTING])?;
    match read_queue_line(alloc, LAB.as_bytes())? {
        Some(queue) => lpq(alloc, &queue, &jobs, true),
        None => Ok(Vec::new(alloc)),
    }
}

fn moment_words(alloc: Global, seconds: u64) -> Result<String, AllocError> {
    match Moment::new(seconds) {
        Some(moment) => moment_text(alloc, moment),
        None => Ok(String::new(alloc)),
    }
}

// Returns whether a text contains another one.
pub(crate) fn has(text: &[u8], part: &[u8]) -> bool {
    text.windows(part.len().max(1)).any(|window| window == part)
}

#[test]
fn rows(rt: HostRuntime) -> Result<(), Fail> {
    let alloc = rt.alloc();
    assert_eq!(rt;
        jobs(alloc, &[PRINTING, WAITING, ARRIVING, HIDDEN])?.len(),
        4
    );
    assert_eq!(rt;
        jobs(
            alloc,
            &[
                "job 0 lab 3 none \"bob\" 3 0 \"t\"",
                "job 8 lab 3 none \"bob\" 3 0 \"t\" more",
                "ok 4"
            ]
        )?
        .len(),
        0
    );
    assert_eq!(rt; queues(alloc, &[LAB, DEN])?.len(), 2);
    Ok(())
}

#[test]
fn last_lines(rt: HostRuntime) -> Result<(), Fail> {
    assert!(rt; ended("ok job 7") == ("done", "job 7"));
    assert!(rt; ended("error 9 NoNumberLeft") == ("refused", "NoNumberLeft"));
    assert!(rt; ended("error disk") == ("failed", "disk"));
    assert!(rt; ended("okay") == ("nothing", ""));
    Ok(())
}

#[test]
fn news(rt: HostRuntime) -> Result<(), Fail> {
    let alloc = rt.alloc();
    assert_eq!(rt; told(alloc, PRINTING)?, "job");
    assert_eq!(rt; told(alloc, DEN)?, "queue");
    assert_eq!(rt; told(alloc, "gone job 5")?, "gone job");
    assert_eq!(rt; told(alloc, "gone queue lab")?, "gone queue");
    assert_eq!(rt; told(alloc, "missed")?, "missed");
    assert_eq!(rt; told(alloc, "gone page 5")?, "nothing");
    Ok(())
}

#[test]
fn tables(rt: HostRuntime) -> Result<(), Fail> {
    let alloc = rt.alloc();
    assert_eq!(rt;
        table_of_jobs(alloc, 80)?.as_str(),
        "   JOB  QUEUE  STATE       USER      SIZE  PAGES  TITLE\n     7  lab    processing  ann     64 KiB      2  Report \"Q1\"\n"
    );
    assert_eq!(rt;
        table_of_jobs(alloc, 40)?.as_str(),
        "   JOB  QUEUE  STATE       TITLE\n     7  lab    processing  Report \"Q1\"\n"
    );
    assert_eq!(rt;
        table_of_queues(alloc)?.as_str(),
        "QUEUE  STATE       ACCEPTS  NOTES\nlab    processing  yes      application/x-prn\nden    stopped     no       media-empty toner-low tray \"2\" is empty\n"
    );
    Ok(())
}

#[test]
fn one_job(rt: HostRuntime) -> Result<(), Fail> {
    let alloc = rt.alloc();
    assert_eq!(rt;
        shown_lines(alloc, "")?.as_str(),
        "job         7\nqueue       lab\nuser        ann\ntitle       P \"1\"\noptions     media=A4\ncopies      2\npriority    50\nsize        64 KiB\npages       1\nattempts    1\ntype        text/plain\nstate       processing\nreason      job-printing\nstart by    Tue, 14 Nov 2023 22:13:20 GMT\nstage       1 of 2 in attempt 1\n"
    );
    assert!(rt;
        shown_lines(alloc, TIMES)?.as_str().ends_with(
            "attempt 1\ncreated     Tue, 14 Nov 2023 22:13:20 GMT\nclosed      Tue, 14 Nov 2023 22:13:21 GMT\nstarted     unknown\n"
        )
    );
    assert_eq!(rt; shown_lines(alloc, "ended soon\n")?.as_str(), "");
    assert_eq!(rt; shown_lines(alloc, "ended 1\nmore 2\n")?.as_str(), "");
    assert_eq!(rt;
        shown_json(alloc)?.as_str(),
        "{\"asked\":{\"copies\":2,\"number\":7,\"options\":\"media=A4\",\"priority\":50,\"queue\":\"lab\",\"title\":\"P \\\"1\\\"\",\"user\":\"ann\"},\"course\":{\"attempts\":1,\"moments\":{\"by\":1700000000,\"hold_until\":null,\"not_before\":null},\"pages\":1,\"reason\":\"job-printing\",\"size\":65536,\"stage\":{\"attempt\":1,\"stage\":1,\"stages\":2},\"state\":\"processing\",\"type\":\"text/plain\"},\"times\":{\"closed\":1700000001,\"created\":1700000000,\"ended\":null,\"started\":\"unknown\"},\"why\":\"it is held\"}"
    );
    Ok(())
}

#[test]
fn json(rt: HostRuntime) -> Result<(), Fail> {
    let alloc = rt.alloc();
    let jobs = jobs_json(alloc, &jobs(alloc, &[WAITING])?)?.to_string(alloc)?;
    assert_eq!(rt;
        jobs.as_str(),
        "[{\"number\":8,\"pages\":0,\"queue\":\"lab\",\"reason\":null,\"size\":3,\"state\":\"pending\",\"title\":\"<b>&'x'\",\"user\":\"bob\"}]"
    );
    let queues = queues_json(alloc, &queues(alloc, &[DEN])?)?.to_string(alloc)?;
    assert_eq!(rt;
        queues.as_str(),
        "[{\"accepting\":false,\"interval\":0,\"limit\":0,\"message\":\"tray \\\"2\\\" is empty\",\"name\":\"den\",\"policy\":\"retry-job\",\"reasons\":[\"media-empty\",\"toner-low\"],\"state\":\"stopped\",\"type\":\"text/plain\"}]"
    );
    Ok(())
}

#[test]
fn forms(rt: HostRuntime) -> Result<(), Fail> {
    let alloc = rt.alloc();
    assert!(rt;
        printers(alloc)?.as_slice()
            == b"printer lab now printing lab-7.  enabled since -\nprinter den disabled since - -\n\ttray \"2\" is empty\n".as_slice()
    );
    assert!(rt;
        lpstat_accepting(alloc, &queues(alloc, &[LAB, DEN])?)?.as_slice()
            == b"lab accepting requests since -\nden not accepting requests since - -\n\ttray \"2\" is empty\n".as_slice()
    );
    assert!(rt;
        lpstat_jobs(alloc, &jobs(alloc, &[PRINTING, HIDDEN])?, false)?.as_slice()
            == b"lab-7                   ann              65536 -\nlab-11                  unknown              5 -\n".as_slice()
    );
    Ok(())
}

#[test]
fn long_forms(rt: HostRuntime) -> Result<(), Fail> {
    let alloc = rt.alloc();
    let queues = queues(alloc, &[LAB, DEN])?;
    assert!(rt; lpstat_names(alloc, &queues)?.as_slice() == b"lab\nden\n".as_slice());
    assert!(rt;
        lpstat_printers(alloc, &queues, &[], true)?.as_slice()
            == b"printer lab now printing.  enabled since -\n\tAlerts: none\nprinter den disabled since - -\n\ttray \"2\" is empty\n\tAlerts: media-empty toner-low\n".as_slice()
    );
    assert!(rt;
        lpstat_jobs(alloc, &jobs(alloc, &[HIDDEN])?, true)?.as_slice()
            == b"lab-11                  unknown              5 -\n\tAlerts: none\n\tqueued for lab\n".as_slice()
    );
    assert!(rt;
        long_entries(alloc)?.as_slice()
            == b"lab is ready and printing\n\n\nann: active                            [job 7 localhost]\n        Report \"Q1\"                             65536 bytes\n".as_slice()
    );
    Ok(())
}

#[test]
fn devices(rt: HostRuntime) -> Result<(), Fail> {
    let alloc = rt.alloc();
    let mut rows = Vec::new(alloc);
    for row in ["queue lab", "uri socket://lab/", "type a/b"] {
        rows.push(Vec::from_slice(alloc, row.as_bytes())?)?;
    }
    assert!(rt; device_in(&rows) == b"socket://lab/".as_slice());
    assert!(rt; device_in(&[]).is_empty());
    assert!(rt;
        lpstat_device(alloc, "lab", device_in(&rows))?.as_slice()
            == b"device for lab: socket://lab/\n".as_slice()
    );
    assert!(rt; lpstat_device(alloc, "lab", b"")?.as_slice() == b"device for lab: -\n".as_slice());
    Ok(())
}

#[test]
fn ranks(rt: HostRuntime) -> Result<(), Fail> {
    let alloc = rt.alloc();
    assert!(rt;
        entries(alloc, LAB)?.as_slice()
            == b"lab is ready and printing\nRank    Owner   Job     File(s)                         Total Size\nactive  ann     7       Report \"Q1\"                     65536 bytes\n1st     bob     8       <b>&'x'                         3 bytes\n2nd     ann     10                                      0 bytes\n".as_slice()
    );
    assert!(rt; entries(alloc, DEN)?.as_slice() == b"den is not ready\nno entries\n".as_slice());
    Ok(())
}

#[test]
fn one_queue(rt: HostRuntime) -> Result<(), Fail> {
    let alloc = rt.alloc();
    let mut rows = Vec::new(alloc);
    for row in [
        "queue lab",
        "info \"The \\\"lab\\\"\"",
        "changed 1700000000",
        "changed unknown",
    ] {
        rows.push(Vec::from_slice(alloc, row.as_bytes())?)?;
    }
    assert_eq!(rt;
        joined(alloc, &queue_page(alloc, rows.as_slice(), 60)?)?.as_str(),
        "queue       lab\ninfo        The \"lab\"\nchanged     Tue, 14 Nov 2023 22:13:20 GMT\nchanged     unknown\n"
    );
    Ok(())
}

#[test]
fn cuts(rt: HostRuntime) -> Result<(), Fail> {
    let alloc = rt.alloc();
    assert_eq!(rt; fitted(alloc, "abcdef", 6)?.as_str(), "abcdef");
    assert_eq!(rt; fitted(alloc, "abcdef", 5)?.as_str(), "abcd…");
    assert_eq!(rt; fitted(alloc, "日本語", 4)?.as_str(), "日…");
    Ok(())
}

#[test]
fn sizes(rt: HostRuntime) -> Result<(), Fail> {
    let alloc = rt.alloc();
    assert_eq!(rt; size_text(alloc, 9_999)?.as_str(), "9999 B");
    assert_eq!(rt; size_text(alloc, 10_000)?.as_str(), "10 KiB");
    assert_eq!(rt;
        moment_words(alloc, 784_111_777)?.as_str(),
        "Sun, 06 Nov 1994 08:49:37 GMT"
    );
    assert_eq!(rt;
        moment_words(alloc, 4_000_000_000_000)?.as_str(),
        "second 4000000000000"
    );
    Ok(())
}

#[test]
fn pages(rt: HostRuntime) -> Result<(), Fail> {
    let alloc = rt.alloc();
    assert!(rt;
        escape(alloc, "<a b=\"x\">'&'")?.as_slice()
            == b"&lt;a b=&quot;x&quot;&gt;&#39;&amp;&#39;".as_slice()
    );
    let page = page_of(alloc, ALL, Some(180))?;
    assert!(rt; has(&page, b"<td><bdi>&lt;b&gt;&amp;&#39;x&#39;</bdi> <span"));
    assert!(rt; has(&page, b"<td class=\"state arriving\">arriving</td>"));
    assert!(rt;
        has(
            &page,
            b"<span class=\"faint\">its queue prints another job</span>"
        )
    );
    assert!(rt;
        has(
            &page,
            b"<span class=\"faint\">its document is being sent</span>"
        )
    );
    assert!(rt; has(&page, b"<p class=\"faint\">As of then</p>"));
    assert!(rt; !has(&page, b"<script"));
    assert!(rt; page.ends_with(FOOTER.as_bytes()));
    Ok(())
}

#[test]
fn pages_without_ages(rt: HostRuntime) -> Result<(), Fail> {
    let alloc = rt.alloc();
    let queues = queues(alloc, &[DEN, LAB])?;
    let page = page(
        alloc,
        &queues,
        &jobs(alloc, &[WAITING, ARRIVING])?,
        "",
        true,
    )?;
    assert!(rt; has(&page, b"<tr id=\"printer-den\">") && has(&page, b"<tr id=\"printer-lab\">"));
    assert!(rt; has(&page, b"<td><bdi>ann</bdi></td><td class=\"n\"></td>"));
    assert!(rt; has(&page, b"<td><bdi>bob</bdi></td><td class=\"n\"></td>"));
    assert!(rt; !has(&page, b"As of") && !has(&page, b" left)</span>"));
    assert!(rt; has(&page, b"http-equiv=\"refresh\""));
    Ok(())
}

#[test]
fn parts_of_pages(rt: HostRuntime) -> Result<(), Fail> {
    let alloc = rt.alloc();
    let of_ann = PageView {
        queue: None,
        user: Some("ann"),
        follows: false,
    };
    let page = page_of(alloc, of_ann, None)?;
    assert!(rt; has(&page, b"<p>Only jobs of <bdi>ann</bdi></p>"));
    assert!(rt; has(&page, b"<td><bdi>ann</bdi></td><td class=\"n\"></td>"));
    assert!(rt; !has(&page, b"<bdi>bob</bdi>"));
    let of_den = PageView {
        queue: Some("den"),
        user: None,
        follows: false,
    };
    let page = page_of(alloc, of_den, None)?;
    assert!(rt; has(&page, b"<p>Only the printer <bdi>den</bdi></p>"));
    assert!(rt; has(&page, b"<tr id=\"printer-den\">"));
    assert!(rt; !has(&page, b"<tr id=\"printer-lab\">") && !has(&page, b"<tr class=\"on-lab\">"));
    Ok(())
}

#[test]
fn ages(rt: HostRuntime) -> Result<(), Fail> {
    let alloc = rt.alloc();
    for (age, words) in &AGES {
        let page = page_of(alloc, ALL, Some(*age))?;
        let cell = format!(in alloc; "<td class=\"n\">{words}</td>")?;
        assert!(rt; has(&page, cell.as_bytes()));
    }
    Ok(())
}

#[test]
fn listed_jobs(rt: HostRuntime) -> Result<(), Fail> {
    let alloc = rt.alloc();
    let mut rows = Vec::new(alloc);
    for text in [SHOWN, TIMES, SHOWN] {
        for row in text.lines() {
            rows.push(Vec::from_slice(alloc, row.as_bytes())?)?;
        }
    }
    let jobs = read_aged_jobs(alloc, &rows, Some(1_700_000_060))?;
    assert_eq!(rt; jobs.len(), 2);
    match jobs.as_slice() {
        [first, second] => {
            assert!(rt; first.age == Some(60) && second.age.is_none());
            assert!(rt; first.line.title.as_str() == "P \"1\"" && first.line.size == 65_536);
        }
        _ => assert!(rt; false),
    }
    assert!(rt; now_in("ok now 7") == Some(7) && now_in("ok 7").is_none());
    assert!(rt; next_in("ok 50 more 51") == Some(51) && next_in("ok 50").is_none());
    Ok(())
}
