//! Why a command line is refused.
ghost use Rattle.std.specs.Prelude.{◌≡◌};
ghost use Rattle.clap.specs.Words.{kind_of};
ghost use Rattle.clap.specs.declared.error.kind.ErrorKind.TheVariants.{OutOfMemory};
ghost use Rattle.front_words.specs.declared.fault.Wrong.TheVariants.{Memory};
ghost use Rattle.front_words.specs.WordFaults.{IsMistake, RefusesOnly};

use clap::error::ErrorKind;
use clap::{Command, Error};
use std::alloc::AllocError;

/// Why a command line is refused.
#[derive(Drop)]
pub enum WordsFault {
    /// The arguments are invalid, or ask for help or the version. The error contains the text to print.
    Refused(Error),
    /// Out of memory while reading the arguments or formatting the text.
    Memory,
}

// Why the values that clap found are refused.
#[derive(Clone, Copy)]
pub enum Wrong {
    // A value is invalid. The text says which one.
    Value(&'static str),
    // Out of memory.
    Memory,
}

impl From<AllocError> for Wrong {
    ghost from_gives = { λ _ wrong. wrong ≡ Memory };

    fn from(_error: AllocError) -> Wrong {
        Wrong::Memory
    }
}

// Converts an error of clap.
pub fn words_fault(error: Error) -> WordsFault
    ensures { RefusesOnly (kind_of error ≡ OutOfMemory) result }
{
    if error.kind() == ErrorKind::OutOfMemory {
        WordsFault::Memory
    } else {
        WordsFault::Refused(error)
    }
}

// Returns an invalid value as an error of clap.
pub fn mistake(command: &mut Command<'_>, wrong: Wrong) -> WordsFault
    ensures { IsMistake wrong result }
{
    let Wrong::Value(text) = wrong else {
        return WordsFault::Memory;
    };
    match command.error(ErrorKind::ValueValidation, text) {
        Ok(error) => WordsFault::Refused(error),
        Err(_) => WordsFault::Memory,
    }
}
