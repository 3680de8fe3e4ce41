use front_words::{
    Hold, JobAct, Moment, QueueAct, Task, Which, WordsFault, read_words, words_status,
};
use program_version::with_version;
use std::test::Fail;

// What a command line asks for.
#[derive(Clone, Copy)]
enum Wanted {
    Letter,
    Held,
    Usual,
    AtNoon,
    ByLpr,
    Raw,
    HoldUntilNine,
    Resume,
    KeepsPrinting,
    RemovesOne,
    RemovesCurrent,
    ClearsOfAnn,
    ClearsOffice,
    ClearsUsual,
    OfPrinters,
    OfCompleted,
    OfAnn,
    Watched,
    Said,
    SaidAsJson,
    Followed,
    PageOfAnn,
    Adds,
    Rejects,
    Shows,
    IsDefault,
    Disables,
}

// Command lines, and what each asks for.
const TASKS: [(&[&str], Wanted); 27] = [
    (
        &[
            "/usr/bin/spool",
            "submit",
            "office",
            "a.pdf",
            "-",
            "--title",
            "Letter",
            "--copies",
            "3",
            "--priority",
            "7",
            "-o",
            "sides=two",
            "--at",
            "+60",
            "--by",
            "4000",
            "--wait",
            "-o",
            "media=A4 fit",
            "--type",
            "text/plain",
        ],
        Wanted::Letter,
    ),
    (
        &[
            "lp", "-d", "office", "-n2", "-q", "100", "-t", "T", "-P", "1-2", "-s", "-H", "hold",
            "x",
        ],
        Wanted::Held,
    ),
    (&["/bin/lp"], Wanted::Usual),
    (
        &["lp", "-m", "-H", "12:30", "-h", "localhost:631", "-E", "x"],
        Wanted::AtNoon,
    ),
    (
        &["lpr", "-Poffice", "-#3", "-J", "T", "-q", "--", "-x"],
        Wanted::ByLpr,
    ),
    (&["lpr", "-r", "-l", "-p", "-w", "80", "x"], Wanted::Raw),
    (
        &["spool", "hold", "1", "office-12", "--until", "9"],
        Wanted::HoldUntilNine,
    ),
    (&["lp", "-i", "lab-7", "-H", "resume"], Wanted::Resume),
    (
        &["spool", "cancel", "8", "--keep-printing"],
        Wanted::KeepsPrinting,
    ),
    (&["cancel", "a-b-7", "office"], Wanted::RemovesOne),
    (&["lprm", "-P", "office"], Wanted::RemovesCurrent),
    (
        &["cancel", "-u", "ann", "-x", "office"],
        Wanted::ClearsOfAnn,
    ),
    (&["lprm", "-P", "office", "-"], Wanted::ClearsOffice),
    (&["lprm", "-"], Wanted::ClearsUsual),
    (
        &["lpstat", "-p", "-d", "-o", "office", "-a"],
        Wanted::OfPrinters,
    ),
    (
        &["lpstat", "-W", "completed", "-l", "-u", "ann"],
        Wanted::OfCompleted,
    ),
    (&["lpq", "-P", "office", "3", "ann"], Wanted::OfAnn),
    (&["spool", "status", "--json", "--watch"], Wanted::Watched),
    (
        &["spool", "say", "jobs", "--until-end", "queues"],
        Wanted::Said,
    ),
    (&["spool", "say", "--json", "jobs"], Wanted::SaidAsJson),
    (&["spool", "page", "x.html", "--follow"], Wanted::Followed),
    (
        &["spool", "page", "-q", "lab", "x.html", "--user", "ann"],
        Wanted::PageOfAnn,
    ),
    (
        &[
            "spool",
            "queue",
            "add",
            "office",
            "socket://p",
            "--limit",
            "0",
        ],
        Wanted::Adds,
    ),
    (&["spool", "queue", "reject", "office"], Wanted::Rejects),
    (
        &["spool", "queue", "show", "office", "--json"],
        Wanted::Shows,
    ),
    (&["lpoptions", "-d", "office"], Wanted::IsDefault),
    (
        &["cupsdisable", "-c", "-r", "no paper", "office", "lab"],
        Wanted::Disables,
    ),
];

// Command lines that are refused with a line that says why.
const REFUSED: [&[&str]; 23] = [
    &["lp", "-h", "host", "x"],
    &["lp", "-H", "24:00", "x"],
    &["lp", "-H", "12:60", "x"],
    &["lp", "-H", "night", "x"],
    &["lp", "-i", "7", "-n", "2"],
    &["lp", "-i", "7", "-H", "restart"],
    &["lp", "-n", "0", "x"],
    &["lp", "-q", "101", "x"],
    &["spool"],
    &["spool", "print"],
    &["spool", "submit", "q"],
    &["spool", "cancel", "x"],
    &["spool", "cancel", "1", "0"],
    &["spool", "status", "1", "-q", "x"],
    &["spool", "status", "1", "--watch"],
    &["spool", "queue", "add", "a", "b", "--policy", "c"],
    &["spool", "queue"],
    &["cancel", "-U", "ann", "1"],
    &["lpq", "+10"],
    &["lpstat", "-W", "done"],
    &["lpmove", "1", "office"],
    &["lpoptions"],
    &["lpoptions", "-d", "office", "-o", "a=b"],
];

const HELPED: [&[&str]; 3] = [
    &["spool", "--help"],
    &["spool", "submit", "--help"],
    &["lpstat", "--help"],
];

fn task_of<'a>(rt: &HostRuntime, words: &'a [&'a str]) -> Result<Task<'a>, Fail> {
    match read_words(rt.alloc(), words) {
        Ok(asked) => Ok(asked.task),
        Err(WordsFault::Memory) => Err("memory")?,
        Err(WordsFault::Refused(error)) => {
            println!(rt; "{error}")?;
            Err("refused")?
        }
    }
}

// Returns the exit code of a command line that asks for no task, after its text was printed.
fn refusal(rt: &HostRuntime, words: &[&str]) -> Result<Option<i32>, Fail> {
    match read_words(rt.alloc(), words) {
        Err(WordsFault::Refused(error)) => {
            println!(rt; "{error}")?;
            Ok(Some(error.exit_code()))
        }
        _ => Ok(None),
    }
}

fn is_letter(task: &Task<'_>) -> bool {
    let Task::Submit(asked) = task else {
        return false;
    };
    asked.queue == Some("office")
        && asked.files.as_slice() == ["a.pdf", "-"].as_slice()
        && asked.title == Some("Letter")
        && asked.user.is_none()
        && asked.copies == 3
        && asked.priority == 7
        && asked.media == Some("text/plain")
        && asked.options.as_slice() == ["sides=two", "media=A4 fit"].as_slice()
        && matches!(asked.hold, Hold::Until(Moment::FromNow(60)))
        && matches!(asked.by, Some(Moment::Epoch(4000)))
        && asked.wait
        && !asked.quiet
}

fn is_held(task: &Task<'_>) -> bool {
    let Task::Submit(asked) = task else {
        return false;
    };
    asked.queue == Some("office")
        && asked.files.as_slice() == ["x"].as_slice()
        && asked.copies == 2
        && asked.priority == 100
        && asked.title == Some("T")
        && asked.page_ranges == Some("1-2")
        && asked.quiet
        && matches!(asked.hold, Hold::Indefinite)
}

fn is_usual(task: &Task<'_>) -> bool {
    let Task::Submit(asked) = task else {
        return false;
    };
    asked.queue.is_none() && asked.files.is_empty() && asked.copies == 1 && asked.priority == 50
}

fn is_by_lpr(task: &Task<'_>) -> bool {
    let Task::Submit(asked) = task else {
        return false;
    };
    asked.queue == Some("office")
        && asked.copies == 3
        && asked.title == Some("T")
        && matches!(asked.hold, Hold::Indefinite)
        && asked.files.as_slice() == ["-x"].as_slice()
}

fn is_at_noon(task: &Task<'_>) -> bool {
    let Task::Submit(asked) = task else {
        return false;
    };
    asked.quiet
        && asked.filled
        && !asked.remove
        && matches!(asked.hold, Hold::Until(Moment::OfDay(45_000)))
}

fn is_raw(task: &Task<'_>) -> bool {
    let Task::Submit(asked) = task else {
        return false;
    };
    asked.remove && asked.raw && asked.quiet
}

fn is_hold_until_nine(task: &Task<'_>) -> bool {
    let Task::Jobs { act, jobs } = task else {
        return false;
    };
    matches!(act, JobAct::Hold(Some(Moment::Epoch(9)))) && jobs.as_slice() == [1, 12].as_slice()
}

fn is_resume(task: &Task<'_>) -> bool {
    let Task::Jobs { act, jobs } = task else {
        return false;
    };
    matches!(act, JobAct::Resume) && jobs.as_slice() == [7].as_slice()
}

fn keeps_printing(task: &Task<'_>) -> bool {
    let Task::Jobs { act, jobs } = task else {
        return false;
    };
    matches!(act, JobAct::CancelOnly) && jobs.as_slice() == [8].as_slice()
}

fn removes(task: &Task<'_>, jobs: &[u32]) -> bool {
    let Task::Remove(asked) = task else {
        return false;
    };
    asked.jobs.as_slice() == jobs
        && asked.queues.as_slice() == ["office"].as_slice()
        && !asked.purge
}

fn clears(task: &Task<'_>, queues: &[&str], user: Option<&str>, usual: bool) -> bool {
    let Task::Clear(asked) = task else {
        return false;
    };
    asked.queues.as_slice() == queues
        && asked.user == user
        && asked.usual == usual
        && asked.purge == user.is_some()
}

fn is_of_printers(task: &Task<'_>) -> bool {
    let Task::Lpstat(asked) = task else {
        return false;
    };
    asked.printers == Some("")
        && asked.usual
        && asked.jobs == Some("office")
        && asked.accepting == Some("")
        && asked.devices.is_none()
        && !asked.all
        && !asked.scheduler
        && asked.names.is_empty()
}

fn is_of_completed(task: &Task<'_>) -> bool {
    let Task::Lpstat(asked) = task else {
        return false;
    };
    matches!(asked.which, Which::Completed)
        && asked.long
        && asked.users == Some("ann")
        && asked.jobs.is_none()
}

fn is_of_ann(task: &Task<'_>) -> bool {
    let Task::Lpq(asked) = task else {
        return false;
    };
    asked.users.as_slice() == ["ann"].as_slice()
        && !asked.long
        && asked.queue == Some("office")
        && asked.jobs.as_slice() == [3].as_slice()
        && !asked.all
}

fn is_watched(task: &Task<'_>) -> bool {
    let Task::Status(asked) = task else {
        return false;
    };
    asked.json && asked.watch && asked.job.is_none() && asked.queue.is_none()
}

fn is_said(task: &Task<'_>) -> bool {
    let Task::Say(asked) = task else {
        return false;
    };
    asked.commands.as_slice() == ["jobs", "queues"].as_slice() && asked.until_end && !asked.json
}

fn is_said_as_json(task: &Task<'_>) -> bool {
    let Task::Say(asked) = task else {
        return false;
    };
    asked.commands.as_slice() == ["jobs"].as_slice() && !asked.until_end && asked.json
}

fn is_followed(task: &Task<'_>) -> bool {
    let Task::Page(asked) = task else {
        return false;
    };
    asked.file == "x.html" && asked.queue.is_none() && asked.user.is_none() && asked.follow
}

fn is_page_of_ann(task: &Task<'_>) -> bool {
    let Task::Page(asked) = task else {
        return false;
    };
    asked.file == "x.html"
        && asked.queue == Some("lab")
        && asked.user == Some("ann")
        && !asked.follow
}

fn is_default(task: &Task<'_>) -> bool {
    matches!(task, Task::Default { queue: "office" })
}

fn disables(task: &Task<'_>) -> bool {
    let Task::Switch { names, act, clears } = task else {
        return false;
    };
    names.as_slice() == ["office", "lab"].as_slice() && matches!(act, QueueAct::Disable) && *clears
}

fn adds(task: &Task<'_>) -> bool {
    let Task::Queue {
        name: "office",
        act: QueueAct::Add(queue),
    } = task
    else {
        return false;
    };
    queue.uri == "socket://p"
        && queue.media == "application/pdf"
        && queue.policy == "retry-job"
        && queue.interval == 30
        && queue.limit == 0
}

fn rejects(task: &Task<'_>) -> bool {
    matches!(
        task,
        Task::Queue {
            name: "office",
            act: QueueAct::Reject
        }
    )
}

fn shows(task: &Task<'_>) -> bool {
    matches!(
        task,
        Task::ShowQueue {
            name: "office",
            json: true
        }
    )
}

fn is_wanted(task: &Task<'_>, wanted: Wanted) -> bool {
    match wanted {
        Wanted::Letter => is_letter(task),
        Wanted::Held => is_held(task),
        Wanted::Usual => is_usual(task),
        Wanted::AtNoon => is_at_noon(task),
        Wanted::ByLpr => is_by_lpr(task),
        Wanted::Raw => is_raw(task),
        Wanted::HoldUntilNine => is_hold_until_nine(task),
        Wanted::Resume => is_resume(task),
        Wanted::KeepsPrinting => keeps_printing(task),
        Wanted::RemovesOne => removes(task, &[7]),
        Wanted::RemovesCurrent => removes(task, &[]),
        Wanted::ClearsOfAnn => clears(task, &["office"], Some("ann"), false),
        Wanted::ClearsOffice => clears(task, &["office"], None, false),
        Wanted::ClearsUsual => clears(task, &[], None, true),
        Wanted::OfPrinters => is_of_printers(task),
        Wanted::OfCompleted => is_of_completed(task),
        Wanted::OfAnn => is_of_ann(task),
        Wanted::Watched => is_watched(task),
        Wanted::Said => is_said(task),
        Wanted::SaidAsJson => is_said_as_json(task),
        Wanted::Followed => is_followed(task),
        Wanted::PageOfAnn => is_page_of_ann(task),
        Wanted::Adds => adds(task),
        Wanted::Rejects => rejects(task),
        Wanted::Shows => shows(task),
        Wanted::IsDefault => is_default(task),
        Wanted::Disables => disables(task),
    }
}

#[test]
fn asks_for_a_task(rt: HostRuntime) -> Result<(), Fail> {
    for (words, wanted) in &TASKS {
        for word in *words {
            print!(rt; "{word} ")?;
        }
        assert!(rt; is_wanted(&task_of(&rt, words)?, *wanted));
    }
    Ok(())
}

#[test]
fn refuses(rt: HostRuntime) -> Result<(), Fail> {
    for words in &REFUSED {
        assert!(rt; refusal(&rt, words)? == Some(2));
    }
    Ok(())
}

#[test]
fn ends_as_cups_does(rt: HostRuntime) -> Result<(), Fail> {
    assert!(rt; words_status(&["/usr/bin/lp", "-x"]) == 1);
    assert!(rt; words_status(&["cupsreject"]) == 1);
    assert!(rt; words_status(&["spool", "lp"]) == 2);
    Ok(())
}

#[test]
fn helps(rt: HostRuntime) -> Result<(), Fail> {
    for words in &HELPED {
        assert!(rt; refusal(&rt, words)? == Some(0));
    }
    Ok(())
}

#[test]
fn prints_the_version(rt: HostRuntime) -> Result<(), Fail> {
    let Err(WordsFault::Refused(error)) = read_words(rt.alloc(), &["spool", "--version"]) else {
        return Err("no version")?;
    };
    let text = format!(in rt.alloc(); "{error}")?;
    assert_eq!(rt; text.as_str(), with_version!("spool (Cegmandi) ", "\n"));
    assert!(rt; error.exit_code() == 0);
    Ok(())
}
