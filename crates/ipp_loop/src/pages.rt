//! The pages for browsers, and the counts for a monitor.
use front_texts::{
    AgedJob, PageView, QueueLine, aged_page, moment_text, next_in, now_in, read_aged_jobs,
    read_queue_line,
};
use http_requests::{Page, printer_of};
use ipp_tasks::list_line;
use service_client::Reply;
use spool_types::Moment;
use std::alloc::{AllocError, Global};

/// A page that waits for the rows of the service.
#[derive(Drop)]
pub struct Shown {
    // Whether it is the text of counts.
    is_counts: bool,
    // The printer that it shows, or all.
    printer: Option<String>,
    queues: Vec<QueueLine>,
    jobs: Vec<AgedJob>,
    // The time of the service, at which the jobs have their ages.
    now: Option<u64>,
    // The command that is not answered yet.
    command: Vec<u8>,
    waits_for: Rows,
    is_sent: bool,
}

// What the command asks for.
#[derive(Clone, Copy)]
enum Rows {
    Queues,
    Time,
    Jobs,
}

/// The next step of a page.
#[derive(Drop)]
pub enum ShownPage {
    /// A command is to be sent.
    Going,
    /// The printer does not exist.
    Missing,
    /// The page, with its media type.
    Whole(&'static str, Vec<u8>),
}

impl Shown {
    /// The page of this target.
    pub fn new(alloc: Global, page: Page, target: &str) -> Result<Shown, AllocError> {
        let printer = match page {
            Page::Printer => Some(String::from_str(alloc, printer_of(target))?),
            _ => None,
        };
        Ok(Shown {
            is_counts: matches!(page, Page::Metrics),
            printer,
            queues: Vec::new(alloc),
            jobs: Vec::new(alloc),
            now: None,
            command: Vec::from_slice(alloc, b"printers\n")?,
            waits_for: Rows::Queues,
            is_sent: false,
        })
    }

    /// Returns the command that is not sent yet.
    pub fn unsent(&self) -> Option<&[u8]> {
        if self.is_sent {
            None
        } else {
            Some(self.command.as_slice())
        }
    }

    /// Notes that the command is sent.
    pub fn note_sent(&mut self) {
        self.is_sent = true;
    }

    /// Notes that the connection was lost before the reply.
    pub fn lost(&mut self) {
        self.is_sent = false;
    }

    /// Takes the reply to the command. Returns the page once it is whole.
    pub fn heard(&mut self, alloc: Global, reply: &Reply) -> Result<ShownPage, AllocError> {
        let last = text_of(reply);
        match self.waits_for {
            Rows::Queues => {
                self.add_queues(alloc, reply)?;
                let command = Vec::from_slice(alloc, b"now\n")?;
                self.ask(Rows::Time, command);
                Ok(ShownPage::Going)
            }
            Rows::Time => {
                self.now = now_in(last);
                self.go_on(alloc, Some(1))
            }
            Rows::Jobs => {
                self.add_jobs(alloc, reply)?;
                self.go_on(alloc, next_job(last))
            }
        }
    }

    fn ask(&mut self, rows: Rows, command: Vec<u8>) {
        self.command = command;
        self.waits_for = rows;
        self.is_sent = false;
    }

    // Asks for the jobs from a number on. Without a number the page is whole.
    fn go_on(&mut self, alloc: Global, next: Option<u32>) -> Result<ShownPage, AllocError> {
        match next {
            Some(next) => {
                let command = list_line(alloc, &None, next)?;
                self.ask(Rows::Jobs, command);
                Ok(ShownPage::Going)
            }
            None if self.is_found() => Ok(ShownPage::Whole(self.media(), self.text(alloc)?)),
            None => Ok(ShownPage::Missing),
        }
    }

    fn add_queues(&mut self, alloc: Global, reply: &Reply) -> Result<(), AllocError> {
        for row in &reply.rows {
            if let Some(queue) = read_queue_line(alloc, row.as_slice())? {
                self.queues.push(queue)?;
            }
        }
        Ok(())
    }

    fn add_jobs(&mut self, alloc: Global, reply: &Reply) -> Result<(), AllocError> {
        let mut jobs = read_aged_jobs(alloc, reply.rows.as_slice(), self.now)?;
        self.jobs.append(&mut jobs)?;
        Ok(())
    }

    // Returns whether the printer exists, or all are shown.
    fn is_found(&self) -> bool {
        match &self.printer {
            Some(printer) => self
                .queues
                .iter()
                .any(|queue| queue.name.as_str() == printer.as_str()),
            None => true,
        }
    }

    // Returns the media type of the text.
    fn media(&self) -> &'static str {
        if self.is_counts {
            "text/plain; charset=utf-8"
        } else {
            "text/html; charset=utf-8"
        }
    }

    // Returns the text.
    fn text(&self, alloc: Global) -> Result<Vec<u8>, AllocError> {
        if self.is_counts {
            return self.counts(alloc);
        }
        let stamp = stamp_of(alloc, self.now)?;
        let view = PageView {
            queue: self.printer_name(),
            user: None,
            follows: true,
        };
        aged_page(
            alloc,
            self.queues.as_slice(),
            self.jobs.as_slice(),
            view,
            stamp.as_str(),
        )
    }

    fn printer_name(&self) -> Option<&str> {
        match &self.printer {
            Some(printer) => Some(printer.as_str()),
            None => None,
        }
    }

    // Returns the numbers of printers and of jobs in each state.
    fn counts(&self, alloc: Global) -> Result<Vec<u8>, AllocError> {
        let mut text = Vec::new(alloc);
        push_count(alloc, &mut text, "cegmandi_printers", "", self.queues.len())?;
        let words = [
            "pending",
            "held",
            "processing",
            "stopped",
            "canceled",
            "aborted",
            "completed",
        ];
        for word in words {
            let count = self.in_state(word);
            push_count(alloc, &mut text, "cegmandi_jobs", word, count)?;
        }
        Ok(text)
    }

    fn in_state(&self, word: &str) -> usize {
        self.jobs
            .iter()
            .filter(|job| job.line.state.word() == word)
            .count()
    }
}

// Returns the last line of a reply.
fn text_of(reply: &Reply) -> &str {
    match std::str::from_utf8(reply.last.as_slice()) {
        Ok(last) => last,
        Err(_) => "",
    }
}

// Returns the number of the job from which the listing goes on, if it does.
fn next_job(last: &str) -> Option<u32> {
    match next_in(last) {
        Some(number) => u32::try_from(number).ok(),
        None => None,
    }
}

// Returns the time of the service as a text, which is empty if it is unknown.
fn stamp_of(alloc: Global, now: Option<u64>) -> Result<String, AllocError> {
    match now {
        Some(now) => moment_text(alloc, Moment::ZERO.plus(now)),
        None => Ok(String::new(alloc)),
    }
}

fn push_count(
    alloc: Global,
    text: &mut Vec<u8>,
    name: &str,
    state: &str,
    count: usize,
) -> Result<(), AllocError> {
    let line = if state.is_empty() {
        format!(in alloc; "{name} {count}\n")?
    } else {
        format!(in alloc; "{name}{{state=\"{state}\"}} {count}\n")?
    };
    text.extend_from_slice(line.as_bytes())
}
