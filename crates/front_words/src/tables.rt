//! The parameters of each command. `Apps` defines them in clap's terms.
use crate::parameters::Parameter::{
    self, Flag, Letter, LetterFlag, Letters, List, NeededWord, NeededWords, Text, ThreeLetters,
    Word, Words,
};

pub static SUBMIT: [Parameter<'static>; 15] = [
    NeededWord("queue", "QUEUE", "The queue"),
    NeededWords("file", "FILE", "The files; `-` is standard input"),
    Text(
        "title",
        "TITLE",
        "The title of the job [default: the file's name]",
    ),
    Text(
        "user",
        "USER",
        "The owner of the job [default: the current user]",
    ),
    Text(
        "copies",
        "N",
        "The number of copies, from 1 to 9999 [default: 1]",
    ),
    Text("priority", "P", "The priority, from 1 to 100 [default: 50]"),
    Text("pages", "PAGES", "Print only these pages, such as 1-4,7"),
    Text(
        "type",
        "TYPE",
        "The media type of the files [default: the service detects it]",
    ),
    Letters(
        'o',
        "option",
        "NAME=VALUE",
        "Set an option of the printer or of a filter",
    ),
    Flag("hold", "Hold the job until it is released"),
    Text(
        "at",
        "MOMENT",
        "Hold the job until then: seconds since 1970, or +SECONDS from now",
    ),
    Text(
        "by",
        "MOMENT",
        "Cancel the job if it has not started by then",
    ),
    Flag("wait", "Wait until the job has ended"),
    Flag(
        "quiet",
        "Print nothing for an accepted job, and show no progress",
    ),
    Flag("json", "Print JSON: one line for each accepted job"),
];

pub static STATUS: [Parameter<'static>; 4] = [
    Word("job", "JOB", "Show only this job"),
    Letter('q', "queue", "QUEUE", "Show only the jobs of this queue"),
    Flag("json", "Print JSON"),
    Flag("watch", "Show the jobs again whenever one changes"),
];

pub static WATCH: [Parameter<'static>; 1] = [Flag("json", "Print JSON: one line for each change")];

pub static CHECK: [Parameter<'static>; 1] = [Flag("json", "Print JSON")];

pub static QUEUES: [Parameter<'static>; 1] = [Flag("json", "Print JSON")];

pub static JOBS: [Parameter<'static>; 1] = [NeededWords(
    "job",
    "JOB",
    "The jobs, such as 12 or office-12",
)];

pub static CANCEL_TASK: [Parameter<'static>; 2] = [
    NeededWords("job", "JOB", "The jobs, such as 12 or office-12"),
    Flag(
        "keep-printing",
        "Do not terminate the filter or backend that prints the job",
    ),
];

pub static HOLD: [Parameter<'static>; 2] = [
    NeededWords("job", "JOB", "The jobs, such as 12 or office-12"),
    Text(
        "until",
        "MOMENT",
        "Hold the jobs until then: seconds since 1970, or +SECONDS from now",
    ),
];

pub static QUEUE: [Parameter<'static>; 1] = [NeededWord("name", "NAME", "The queue")];

pub static QUEUE_SHOW: [Parameter<'static>; 2] = [
    NeededWord("name", "NAME", "The queue"),
    Flag("json", "Print JSON"),
];

pub static QUEUE_ADD: [Parameter<'static>; 6] = [
    NeededWord("name", "NAME", "The queue"),
    NeededWord("uri", "URI", "The device"),
    Text(
        "media",
        "TYPE",
        "The media type that the device takes [default: application/pdf]",
    ),
    Text(
        "policy",
        "POLICY",
        "What to do with a job that fails: abort-job, retry-job, retry-current-job or stop-printer [default: retry-job]",
    ),
    Text(
        "interval",
        "SECONDS",
        "The time before another attempt, up to 86400 [default: 30]",
    ),
    Text(
        "limit",
        "N",
        "The number of attempts at a job, up to 65535; 0 means no limit [default: 5]",
    ),
];

pub static QUEUE_SET: [Parameter<'static>; 3] = [
    NeededWord("name", "NAME", "The queue"),
    Text("info", "TEXT", "The description [default: empty]"),
    Text("location", "TEXT", "The location [default: empty]"),
];

pub static PAGE: [Parameter<'static>; 4] = [
    NeededWord("file", "FILE", "The file to write"),
    Letter('q', "queue", "QUEUE", "Show only this queue and its jobs"),
    Text("user", "USER", "Show only the jobs of this user"),
    Flag("follow", "Rewrite the file every five seconds"),
];

pub static SAY: [Parameter<'static>; 3] = [
    Words(
        "command",
        "COMMAND",
        "The commands, each as one argument [default: the lines of standard input]",
    ),
    Flag("until-end", "Wait until the service has ended"),
    Flag("json", "Print JSON: one line for each reply"),
];

pub static TASK: [Parameter<'static>; 1] = [NeededWords("task", "TASK", "One of the tasks below")];

pub static LP: [Parameter<'static>; 20] = [
    Words(
        "file",
        "FILE",
        "The files; `-` or no file is standard input",
    ),
    Letter('d', "queue", "DEST", "The queue"),
    Letter(
        't',
        "title",
        "TITLE",
        "The title of the job [default: the file's name]",
    ),
    Letter(
        'U',
        "user",
        "USER",
        "The owner of the job [default: the current user]",
    ),
    Letter(
        'n',
        "copies",
        "N",
        "The number of copies, from 1 to 9999 [default: 1]",
    ),
    Letter(
        'q',
        "priority",
        "P",
        "The priority, from 1 to 100 [default: 50]",
    ),
    Letters(
        'o',
        "option",
        "NAME=VALUE",
        "Set an option of the printer or of a filter",
    ),
    Letter(
        'P',
        "pages",
        "PAGES",
        "Print only these pages, such as 1-4,7",
    ),
    Letter(
        'H',
        "handling",
        "WHEN",
        "When to print: hold, immediate, HH:MM (UTC), seconds since 1970, or +SECONDS from now",
    ),
    LetterFlag('c', "copy", "Ignored: a copy of the file is always printed"),
    LetterFlag('s', "quiet", "Do not print the number of the job"),
    Letter('i', "job", "JOB", "Hold or resume this job, with -H"),
    LetterFlag('m', "mail", "The same as -s: no mail is sent"),
    LetterFlag('w', "write", "The same as -s: no message is written"),
    Letter('f', "form", "FORM", "Ignored: there are no forms"),
    Letter('S', "wheel", "NAME", "Ignored: there are no print wheels"),
    Letter('y', "mode", "MODE", "Ignored: there are no modes"),
    Letter(
        'T',
        "content",
        "TYPE",
        "Ignored: the service detects the type",
    ),
    Letter(
        'h',
        "host",
        "HOST",
        "The service: localhost, or the path of its socket",
    ),
    LetterFlag(
        'E',
        "encrypt",
        "Ignored: the connection does not leave this machine",
    ),
];

pub static LPR: [Parameter<'static>; 24] = [
    Words(
        "file",
        "FILE",
        "The files; `-` or no file is standard input",
    ),
    Letter('P', "queue", "DEST", "The queue"),
    ThreeLetters(
        'T',
        'J',
        'C',
        "title",
        "TITLE",
        "The title of the job, also -J and -C [default: the file's name]",
    ),
    Letter(
        'U',
        "user",
        "USER",
        "The owner of the job [default: the current user]",
    ),
    Letter(
        '#',
        "copies",
        "N",
        "The number of copies, from 1 to 9999 [default: 1]",
    ),
    Letters(
        'o',
        "option",
        "NAME=VALUE",
        "Set an option of the printer or of a filter",
    ),
    LetterFlag('q', "hold", "Hold the job until it is released"),
    LetterFlag('h', "no-banner", "Ignored: there is never a banner"),
    LetterFlag('l', "literal", "Set the option raw"),
    LetterFlag('m', "mail", "Ignored: no mail is sent"),
    LetterFlag('r', "remove", "Remove each file once its job is accepted"),
    LetterFlag('s', "link", "Ignored: a copy of the file is always printed"),
    LetterFlag('p', "pretty", "Ignored: the service detects the type"),
    LetterFlag('c', "cifplot", "Ignored: the service detects the type"),
    LetterFlag('d', "dvi", "Ignored: the service detects the type"),
    LetterFlag('f', "fortran", "Ignored: the service detects the type"),
    LetterFlag('g', "graph", "Ignored: the service detects the type"),
    LetterFlag('n', "ditroff", "Ignored: the service detects the type"),
    LetterFlag('t', "troff", "Ignored: the service detects the type"),
    LetterFlag('v', "raster", "Ignored: the service detects the type"),
    Letter('i', "indent", "N", "Ignored: the text is not indented"),
    Letter('w', "columns", "N", "Ignored: a filter chooses the width"),
    Letter(
        'H',
        "host",
        "HOST",
        "The service: localhost, or the path of its socket",
    ),
    LetterFlag(
        'E',
        "encrypt",
        "Ignored: the connection does not leave this machine",
    ),
];

pub static LPSTAT: [Parameter<'static>; 20] = [
    Words(
        "name",
        "NAME",
        "Show the jobs of these queues, and these jobs",
    ),
    LetterFlag('r', "scheduler", "Show whether the service is running"),
    LetterFlag('d', "usual", "Show the default queue"),
    LetterFlag('t', "all", "Show all of this"),
    List('p', "printers", "Show whether these queues print"),
    List('a', "accepting", "Show whether these queues accept jobs"),
    List('v', "devices", "Show the devices of these queues"),
    List('o', "jobs", "Show the jobs of these queues"),
    List('c', "classes", "Show nothing: there are no classes"),
    List('u', "users", "Show the jobs of these users"),
    Letter(
        'W',
        "which",
        "WHICH",
        "The jobs that are shown: not-completed, completed or all [default: not-completed]",
    ),
    LetterFlag('e', "destinations", "Show the names of the queues"),
    LetterFlag('s', "summary", "Show the default queue and all devices"),
    LetterFlag('l', "long", "Show more of each queue and job"),
    LetterFlag('D', "described", "Show more of each queue"),
    LetterFlag('R', "ranks", "Ignored: the jobs are listed in their order"),
    LetterFlag('H', "server", "Show the socket of the service"),
    Letter(
        'h',
        "host",
        "HOST",
        "The service: localhost, or the path of its socket",
    ),
    LetterFlag(
        'E',
        "encrypt",
        "Ignored: the connection does not leave this machine",
    ),
    Letter(
        'U',
        "as-user",
        "USER",
        "Not supported: the service knows who runs the command",
    ),
];

pub static CANCEL: [Parameter<'static>; 7] = [
    Words(
        "job",
        "JOB",
        "The jobs, such as 12 or office-12, or queues: the current job of each",
    ),
    LetterFlag(
        'a',
        "all",
        "Cancel all jobs of these queues, or of all queues",
    ),
    Letter('u', "user", "USER", "Cancel all jobs of this user"),
    LetterFlag('x', "purge", "Remove the canceled jobs too"),
    Letter(
        'h',
        "host",
        "HOST",
        "The service: localhost, or the path of its socket",
    ),
    LetterFlag(
        'E',
        "encrypt",
        "Ignored: the connection does not leave this machine",
    ),
    Letter(
        'U',
        "as-user",
        "USER",
        "Not supported: the service knows who runs the command",
    ),
];

pub static LPQ: [Parameter<'static>; 7] = [
    Words(
        "job",
        "JOB",
        "Show only these jobs, such as 12 or office-12, and the jobs of these users",
    ),
    Letter('P', "queue", "DEST", "The queue"),
    LetterFlag('a', "all", "Show the jobs of all queues"),
    LetterFlag('l', "long", "Show more of each job"),
    Letter(
        'h',
        "host",
        "HOST",
        "The service: localhost, or the path of its socket",
    ),
    LetterFlag(
        'E',
        "encrypt",
        "Ignored: the connection does not leave this machine",
    ),
    Letter(
        'U',
        "as-user",
        "USER",
        "Not supported: the service knows who runs the command",
    ),
];

pub static LPRM: [Parameter<'static>; 5] = [
    Words(
        "job",
        "JOB",
        "The jobs, such as 12 or office-12; `-` means all jobs of the queue",
    ),
    Letter('P', "queue", "DEST", "The queue"),
    Letter(
        'h',
        "host",
        "HOST",
        "The service: localhost, or the path of its socket",
    ),
    LetterFlag(
        'E',
        "encrypt",
        "Ignored: the connection does not leave this machine",
    ),
    Letter(
        'U',
        "as-user",
        "USER",
        "Not supported: the service knows who runs the command",
    ),
];

pub static LPOPTIONS: [Parameter<'static>; 9] = [
    Letter('d', "default", "DEST", "Make this queue the default"),
    Letter('p', "queue", "DEST", "Not supported: no options are stored"),
    LetterFlag('l', "list", "Not supported: the service reports no options"),
    Letters(
        'o',
        "option",
        "NAME=VALUE",
        "Not supported: no options are stored",
    ),
    Letter('r', "drop", "NAME", "Not supported: no options are stored"),
    Letter(
        'x',
        "forget",
        "DEST",
        "Not supported: no options are stored",
    ),
    Letter(
        'h',
        "host",
        "HOST",
        "The service: localhost, or the path of its socket",
    ),
    LetterFlag(
        'E',
        "encrypt",
        "Ignored: the connection does not leave this machine",
    ),
    Letter(
        'U',
        "as-user",
        "USER",
        "Not supported: the service knows who runs the command",
    ),
];

pub static LPMOVE: [Parameter<'static>; 4] = [
    Words("job", "JOB", "Not supported: a job stays in its queue"),
    Letter(
        'h',
        "host",
        "HOST",
        "The service: localhost, or the path of its socket",
    ),
    LetterFlag(
        'E',
        "encrypt",
        "Ignored: the connection does not leave this machine",
    ),
    Letter(
        'U',
        "as-user",
        "USER",
        "Not supported: the service knows who runs the command",
    ),
];

pub static SWITCH: [Parameter<'static>; 8] = [
    Words("name", "NAME", "The queues"),
    Letter('r', "reason", "TEXT", "Ignored: a queue has no such text"),
    LetterFlag('c', "cancel", "Cancel all jobs of these queues too"),
    Flag("hold", "Ignored: a job that prints always continues"),
    Flag("release", "Ignored: no job was held"),
    Letter(
        'h',
        "host",
        "HOST",
        "The service: localhost, or the path of its socket",
    ),
    LetterFlag(
        'E',
        "encrypt",
        "Ignored: the connection does not leave this machine",
    ),
    Letter(
        'U',
        "as-user",
        "USER",
        "Not supported: the service knows who runs the command",
    ),
];
