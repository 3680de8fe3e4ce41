//! The parameters of a command: its options and arguments, as rows of a table.
ghost use Rattle.std.specs.Prelude.{◌≡◌, IfOk, false};
ghost use Rattle.clap.specs.Words.{app_of, rule_of, with_rule};
ghost use Rattle.front_words.specs.CommandParameters.{rule_for, with_parameters};

use crate::options::{
    flag_option, letter_flag, letter_list, letter_option, letter_options, lettered, needed_word,
    needed_words, text_option, word, words,
};
use clap::{Arg, Command};
use std::alloc::{AllocError, Global};

/// An option or an argument of a command. Its texts are its name, the name of its value in the help, and its description there.
#[derive(Clone, Copy)]
pub enum Parameter<'a> {
    /// An optional argument.
    Word(&'a str, &'a str, &'a str),
    /// A required argument.
    NeededWord(&'a str, &'a str, &'a str),
    /// An argument that can be repeated, and can be missing.
    Words(&'a str, &'a str, &'a str),
    /// An argument that can be repeated, and is required at least once.
    NeededWords(&'a str, &'a str, &'a str),
    /// An option `--NAME` with a value.
    Text(&'a str, &'a str, &'a str),
    /// An option of one letter with a value.
    Letter(char, &'a str, &'a str, &'a str),
    /// The same with two further letters.
    ThreeLetters(char, char, char, &'a str, &'a str, &'a str),
    /// An option of one letter that can be repeated.
    Letters(char, &'a str, &'a str, &'a str),
    /// An option of one letter whose value can be omitted and is then empty.
    List(char, &'a str, &'a str),
    /// A flag `--NAME`.
    Flag(&'a str, &'a str),
    /// A flag of one letter.
    LetterFlag(char, &'a str, &'a str),
}

/// Returns the command with these parameters too.
pub fn with_parameters<'a>(
    alloc: Global,
    command: Command<'a>,
    parameters: &[Parameter<'a>],
) -> Result<Command<'a>, AllocError>
    ensures { IfOk result (λ more. app_of more ≡ with_parameters (app_of command.entry) parameters.now) }
{
    let mut command = command;
    for parameter in parameters {
        command = with_parameter(alloc, command, *parameter)?;
    }
    Ok(command)
}

fn with_parameter<'a>(
    alloc: Global,
    command: Command<'a>,
    parameter: Parameter<'a>,
) -> Result<Command<'a>, AllocError>
    ensures { IfOk result (λ more. app_of more ≡ with_rule (app_of command.entry) (rule_for parameter.entry)) }
{
    command.arg(arg_of(alloc, parameter)?)
}

fn arg_of<'a>(alloc: Global, parameter: Parameter<'a>) -> Result<Arg<'a>, AllocError>
    ensures rule { IfOk result (λ arg. rule_of arg ≡ rule_for parameter.entry) }
    ensures local { IfOk result (λ arg. arg.global ≡ false) }
{
    let arg = match parameter {
        Parameter::Word(name, value, help) => word(alloc, name, value, help),
        Parameter::NeededWord(name, value, help) => needed_word(alloc, name, value, help),
        Parameter::Words(name, value, help) => words(alloc, name, value, help),
        Parameter::NeededWords(name, value, help) => needed_words(alloc, name, value, help),
        Parameter::Text(name, value, help) => text_option(alloc, name, value, help),
        Parameter::Letter(letter, name, value, help) => {
            letter_option(alloc, letter, name, value, help)
        }
        Parameter::ThreeLetters(letter, second, third, name, value, help) => {
            let arg = letter_option(alloc, letter, name, value, help);
            return lettered(lettered(arg, second)?, third);
        }
        Parameter::Letters(letter, name, value, help) => {
            letter_options(alloc, letter, name, value, help)
        }
        Parameter::List(letter, name, help) => letter_list(alloc, letter, name, help),
        Parameter::Flag(name, help) => flag_option(alloc, name, help),
        Parameter::LetterFlag(letter, name, help) => letter_flag(alloc, letter, name, help),
    };
    Ok(arg)
}
