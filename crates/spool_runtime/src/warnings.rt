//! The program's log: warnings, errors and events, each as a line on standard error.
ghost use Rattle.std.specs.Prelude.{nat_le, Some, []};
ghost use Rattle.log.specs.Level.{level_rank};

use log::kv::Source;
use log::span::Spans;
use log::{Level, Log, Metadata, Record, warn};
use spool_types::Warning;
use std::fmt::Display;

/// Writes each record up to a level to the standard error of `R` in one write: a warning as `spool: warning MESSAGE`,
/// any other record as `spool: MESSAGE`. A record that cannot be written is lost and changes no status.
#[derive(Clone, Copy, Drop)]
pub struct LogLines<R> {
    pub rt: R,
    pub most: Level,
}

impl<R: Eprint> Log for LogLines<R> {
    ghost enables = { λ log level _. Some (nat_le (level_rank level) (level_rank log.most)) };

    ghost target_of = { λ _. Some [] };

    fn enabled(&self, metadata: &Metadata<'_>) -> bool {
        metadata.level() <= self.most
    }

    fn log<D: Display, K: Source, S: Spans>(&self, record: &Record<'_, D, K, S>) {
        if record.level() > self.most {
            return;
        }
        if record.level() == Level::Warn {
            let _ = eprintln!(self.rt; "spool: warning {}", record.args());
        } else {
            let _ = eprintln!(self.rt; "spool: {}", record.args());
        }
    }

    fn flush(&self) {}

    fn target(&self) -> &str {
        ""
    }
}

/// Logs the line number and the kind of each warning.
pub(crate) fn warn_each<L: Log>(log: &L, warnings: &[Warning]) {
    for warning in warnings {
        warn!(log; "{} {}", warning.line, warning.kind.name());
    }
}
