//! Reading the command line.
ghost use Rattle.std.specs.Prelude.{◌≡◌, IfOk, MatchResult, map};
ghost use Rattle.clap.specs.Words.{found_of, rows_of};
ghost use Rattle.front_words.specs.AskedTasks.{AreTaken, Fit, IsAsked, IsAskedIn};
ghost use Rattle.front_words.specs.Forms.{form_in, refusal_status};
ghost use Rattle.front_words.specs.WordFaults.{RefusesOnly};

use crate::asked::Asked;
use crate::commands::command_for;
use crate::fault::{WordsFault, mistake};
use crate::forms::{Form, form_of, own_words, refusal_status};
use crate::options::parse;
use crate::reading::asked_in;
use clap::{ArgMatches, Command};
use std::alloc::Global;
use std::convert::AsStr;

/// Returns the exit status if these arguments are refused, including the program's name: 2 for `spool`, and 1 for a program with its own
/// name, as in CUPS.
pub fn words_status<S: AsStr>(words: &[S]) -> u8
    ensures { result ≡ refusal_status (form_in (map S.text words.now)) }
{
    refusal_status(form_of(words))
}

/// Reads the arguments of the command line, including the program's name.
pub fn read_words<'a, S: AsStr>(alloc: Global, words: &'a [S]) -> Result<Asked<'a>, WordsFault>
    ensures asked { IfOk result (IsAsked (map S.text words.entry.now)) }
    ensures taken { MatchResult result (λ _. AreTaken (map S.text words.entry.now))
        (RefusesOnly (AreTaken (map S.text words.entry.now))) }
{
    let form = form_of(words);
    let Ok(mut command) = command_for(alloc, form) else {
        return Err(WordsFault::Memory);
    };
    match parse(&mut command, own_words(form, words)) {
        Ok(matches) => asked_or_mistake(alloc, form, &mut command, &matches),
        Err(fault) => Err(fault),
    }
}

// Returns the task that the values ask for, or an error of clap if a value is invalid.
fn asked_or_mistake<'a>(
    alloc: Global,
    form: Form,
    command: &mut Command<'_>,
    matches: &ArgMatches<'a>,
) -> Result<Asked<'a>, WordsFault>
    ensures asked { IfOk result (IsAskedIn form (rows_of (found_of matches.now))) }
    ensures fit { MatchResult result (λ _. Fit form (rows_of (found_of matches.now)))
        (RefusesOnly (Fit form (rows_of (found_of matches.now)))) }
{
    match asked_in(alloc, form, matches) {
        Ok(asked) => Ok(asked),
        Err(wrong) => Err(mistake(command, wrong)),
    }
}
