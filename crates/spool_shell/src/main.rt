//! `spool_shell`: serves the commands on standard input, and writes the replies on standard output.
//!
//! Arguments: `[--root DIR] [--types FILE] [--convs FILE] [--programs FILE] [--size BYTES] [--reserve] [--devices]`, or `--help` or `--version`.
//!
//! # Promises
//!
//! Those of `spool_runtime`, which reads the arguments and runs the program, and of `fault_causes`, which reports its errors. That `main`
//! calls their functions in order is not proved.
#![tactic(auto)]

use fault_causes::{GivenNames, Noted, StreamErrors, report_run};
use log::{Level, Logged};
use spool_runtime::{LogLines, given_words, no_words, read_words, report_words_fault, run};
use std::process::ExitCode;

fn main(rt: HostRuntime) -> ExitCode {
    let given = match given_words(&rt) {
        Ok(given) => given,
        Err(error) => return no_words(&rt, &error),
    };
    let words = match read_words(rt.alloc(), given.as_slice()) {
        Ok(words) => words,
        Err(fault) => return report_words_fault(&rt, &fault),
    };
    let most = Level::Warn;
    let logged = Logged::new(rt, most, LogLines { rt, most });
    let mut input = Noted::new(rt.stdin());
    let mut output = Noted::new(rt.stdout());
    let ended = run(&logged, &rt, words, &mut input, &mut output);
    let names = GivenNames {
        dir: words.root,
        types: words.types,
        convs: words.convs,
        programs: words.programs,
    };
    let errors = StreamErrors {
        input: input.error(),
        output: output.error(),
    };
    report_run(&rt, names, errors, ended)
}
