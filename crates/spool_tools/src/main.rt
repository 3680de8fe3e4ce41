//! `spool_tools`: small filters and backends, and the end of a side-channel session.
//!
//! Arguments: the name of a tool and its own arguments, or `--version`.
//!
//! # Promises
//!
//! Those of `builtin_stages`, which reads the arguments, runs the tool and reports its errors. That `main` calls its functions in order
//! is not proved.
#![tactic(auto)]

use builtin_stages::{given_words, run_words};
use std::process::ExitCode;

fn main(rt: HostRuntime) -> ExitCode {
    match given_words(&rt) {
        Ok(words) => run_words(
            &rt,
            words.as_slice(),
            &rt.stdin(),
            &mut rt.stdout(),
            &mut rt.stderr(),
        ),
        Err(_) => ExitCode::FAILURE,
    }
}
