//! The values that clap found.
ghost use Rattle.std.specs.Prelude.{◌≡◌, ◌<◌, ◌≤◌, ◌^◌, IfOk, IfSome, IsSome, MatchResult, Some, map};
ghost use Rattle.std.specs.List.{after_first, before_first};
ghost use Rattle.std.specs.Option.{option_map};
ghost use Rattle.clap.specs.Words.{first_of, found_of, rows_of};
ghost use Rattle.front_words.specs.WordFaults.{BlamesOnly};
ghost use Rattle.front_words.specs.ArgumentValues.{clock_of, day_moment, is_colon, is_name, jobs_among, names_among, seconds_in};
ghost use Rattle.front_words.specs.ArgumentValues.{all_in, is_told, is_word, job_of, job_or_none, jobs_of, last_part, moment_of, moment_or_none, number_in, number_or};

use crate::asked::Moment;
use crate::fault::Wrong;
use clap::ArgMatches;
use line_words::decimal;
use std::alloc::{AllocError, Global};

// The greatest job number, and the greatest moment.
const GREATEST_JOB: u32 = 2_147_483_647;

const GREATEST_MOMENT: u64 = 4_000_000_000_000;

// Returns the value of an option or argument.
pub fn text_given<'a>(matches: &ArgMatches<'a>, name: &str) -> Option<&'a str>
    ensures { option_map (λ text. text.now) result ≡ first_of name.now (rows_of (found_of matches.now)) }
{
    matches.get_str(name)
}

// Returns the value of a required argument.
pub fn text_needed<'a>(matches: &ArgMatches<'a>, name: &str) -> Result<&'a str, Wrong>
    ensures { MatchResult result (λ text. first_of name.now (rows_of (found_of matches.now)) ≡ Some text.now)
        (BlamesOnly (IsSome (first_of name.now (rows_of (found_of matches.now))))) }
{
    match text_given(matches, name) {
        Some(text) => Ok(text),
        None => Err(Wrong::Value("a required argument is missing")),
    }
}

// Returns whether a flag is set.
pub fn flag_given(matches: &ArgMatches<'_>, name: &str) -> bool
    ensures { result ≡ is_told (first_of name.now (rows_of (found_of matches.now))) }
{
    word_given(matches, name, "true")
}

// Returns whether the option or argument has this value.
pub fn word_given(matches: &ArgMatches<'_>, name: &str, word: &str) -> bool
    ensures { result ≡ is_word word.now (first_of name.now (rows_of (found_of matches.now))) }
{
    match text_given(matches, name) {
        Some(text) => text == word,
        None => false,
    }
}

// Returns all values of an option or argument.
pub fn texts_given<'a>(
    alloc: Global,
    matches: &ArgMatches<'a>,
    name: &str,
) -> Result<Vec<&'a str>, AllocError>
    ensures { IfOk result (λ texts. map (λ text. text.now) texts.items ≡ all_in name.now (rows_of (found_of matches.now))) }
{
    let found = matches.get_strs(name);
    match found {
        Some(found) => copy_of(alloc, found),
        None => Ok(Vec::new(alloc)),
    }
}

fn copy_of<'a>(alloc: Global, found: &[&'a str]) -> Result<Vec<&'a str>, AllocError>
    ensures { IfOk result (λ texts. texts.items ≡ found.now) }
{
    let mut texts = Vec::new(alloc);
    texts.extend_from_slice(found)?;
    Ok(texts)
}

// Returns the number of an option, or its default.
pub fn number_given(
    matches: &ArgMatches<'_>,
    name: &str,
    range: (u32, u32),
    usual: u32,
    refusal: &'static str,
) -> Result<u32, Wrong>
    ensures { MatchResult result (λ number. number_or range.0 range.1 usual (first_of name.now (rows_of (found_of matches.now))) ≡ Some number)
        (BlamesOnly (IsSome (number_or range.0 range.1 usual (first_of name.now (rows_of (found_of matches.now)))))) }
{
    let Some(text) = text_given(matches, name) else {
        return Ok(usual);
    };
    match number_in(text.as_bytes(), range.0, range.1) {
        Some(number) => Ok(number),
        None => Err(Wrong::Value(refusal)),
    }
}

// Returns the decimal number if it is in the range.
fn number_in(text: &[u8], least: u32, most: u32) -> Option<u32>
    ensures value { result ≡ number_in least most text.now }
    ensures bound { IfSome result (λ number. number ≤ most) }
{
    let number = decimal(text, u64::from(most))? as u32;
    if least <= number { Some(number) } else { None }
}

// Returns the moment of an option.
pub fn moment_given(
    matches: &ArgMatches<'_>,
    name: &str,
    refusal: &'static str,
) -> Result<Option<Moment>, Wrong>
    ensures { MatchResult result (λ moment. moment_or_none (first_of name.now (rows_of (found_of matches.now))) ≡ Some moment)
        (BlamesOnly (IsSome (moment_or_none (first_of name.now (rows_of (found_of matches.now)))))) }
{
    let Some(text) = text_given(matches, name) else {
        return Ok(None);
    };
    match moment_of(text.as_bytes()) {
        Some(moment) => Ok(Some(moment)),
        None => Err(Wrong::Value(refusal)),
    }
}

// Returns the moment in a text: seconds since 1970, or `+` and seconds from now.
pub fn moment_of(text: &[u8]) -> Option<Moment>
    ensures { result ≡ moment_of text.now }
{
    let (first, seconds) = text.split_first()?;
    if *first == b'+' {
        Some(Moment::FromNow(decimal(seconds, GREATEST_MOMENT)?))
    } else {
        Some(Moment::Epoch(decimal(text, GREATEST_MOMENT)?))
    }
}

// Returns the moment in a text: a time of day in UTC, seconds since 1970, or `+` and seconds from now.
pub fn day_moment(text: &str) -> Option<Moment>
    ensures { result ≡ day_moment text.now }
{
    match clock_of(text) {
        Some(moment) => Some(moment),
        None => moment_of(text.as_bytes()),
    }
}

// Returns the next moment at a time of day, `HH:MM` or `HH:MM:SS`.
fn clock_of(text: &str) -> Option<Moment>
    ensures { result ≡ clock_of text.now }
{
    let (hours, rest) = parted(text);
    let (minutes, seconds) = parted(rest);
    let hours = number_in(hours.as_bytes(), 0, 23)?;
    let minutes = number_in(minutes.as_bytes(), 0, 59)?;
    let seconds = seconds_in(seconds.as_bytes())?;
    Some(Moment::OfDay(hours * 3_600 + minutes * 60 + seconds))
}

// Returns the seconds of a time of day, which can be missing.
fn seconds_in(text: &[u8]) -> Option<u32>
    ensures value { result ≡ seconds_in text.now }
    ensures bound { IfSome result (λ seconds. seconds ≤ 59) }
{
    if text.is_empty() {
        return Some(0);
    }
    number_in(text, 0, 59)
}

// Splits a text at its first colon, which is dropped.
pub fn parted(text: &str) -> (&str, &str)
    ensures first { result.0.now ≡ before_first is_colon text.now }
    ensures rest { result.1.now ≡ after_first is_colon text.now }
{
    match text.split_once(':') {
        Some(parts) => parts,
        None => (text, ""),
    }
}

// Returns the job of an option or argument, if one is given.
pub fn job_given(matches: &ArgMatches<'_>, name: &str) -> Result<Option<u32>, Wrong>
    ensures { MatchResult result (λ job. job_or_none (first_of name.now (rows_of (found_of matches.now))) ≡ Some job)
        (BlamesOnly (IsSome (job_or_none (first_of name.now (rows_of (found_of matches.now)))))) }
{
    let Some(text) = text_given(matches, name) else {
        return Ok(None);
    };
    match job_of(text.as_bytes()) {
        Some(job) => Ok(Some(job)),
        None => Err(NO_JOB),
    }
}

const NO_JOB: Wrong = Wrong::Value("JOB must be the number of a job, such as 12 or office-12");

// Returns the jobs of an argument.
pub fn jobs_given(alloc: Global, matches: &ArgMatches<'_>, name: &str) -> Result<Vec<u32>, Wrong>
    ensures { MatchResult result (λ jobs. jobs_of (all_in name.now (rows_of (found_of matches.now))) ≡ Some jobs.items)
        (BlamesOnly (IsSome (jobs_of (all_in name.now (rows_of (found_of matches.now)))))) }
{
    let texts = texts_given(alloc, matches, name)?;
    match jobs_of(alloc, texts.as_slice())? {
        Some(jobs) => Ok(jobs),
        None => Err(NO_JOB),
    }
}

// Returns the jobs in the texts, or `None` if a text is not a job.
fn jobs_of(alloc: Global, texts: &[&str]) -> Result<Option<Vec<u32>>, AllocError>
    ensures { IfOk result (λ jobs. option_map (λ jobs. jobs.items) jobs ≡ jobs_of (map (λ text. text.now) texts.now)) }
{
    let mut jobs = Vec::new(alloc);
    for text in texts {
        let Some(job) = job_of(text.as_bytes()) else {
            return Ok(None);
        };
        jobs.push(job)?;
    }
    Ok(Some(jobs))
}

// Returns the jobs among the values of an argument.
pub fn jobs_among(
    alloc: Global,
    matches: &ArgMatches<'_>,
    name: &str,
) -> Result<Vec<u32>, AllocError>
    ensures { IfOk result (λ jobs. jobs.items ≡ jobs_among (all_in name.now (rows_of (found_of matches.now)))) }
{
    let texts = texts_given(alloc, matches, name)?;
    jobs_in(alloc, texts.as_slice())
}

fn jobs_in(alloc: Global, texts: &[&str]) -> Result<Vec<u32>, AllocError>
    ensures { IfOk result (λ jobs. jobs.items ≡ jobs_among (map (λ text. text.now) texts.now)) }
{
    let mut jobs = Vec::new(alloc);
    for text in texts {
        if let Some(job) = job_of(text.as_bytes()) {
            jobs.push(job)?;
        }
    }
    Ok(jobs)
}

// Returns the values of an argument that are no jobs.
pub fn names_among<'a>(
    alloc: Global,
    matches: &ArgMatches<'a>,
    name: &str,
) -> Result<Vec<&'a str>, AllocError>
    ensures { IfOk result (λ names. map (λ text. text.now) names.items ≡ names_among (all_in name.now (rows_of (found_of matches.now)))) }
{
    let texts = texts_given(alloc, matches, name)?;
    names_in(alloc, texts.as_slice())
}

fn names_in<'a>(alloc: Global, texts: &[&'a str]) -> Result<Vec<&'a str>, AllocError>
    ensures { IfOk result (λ names. map (λ text. text.now) names.items ≡ names_among (map (λ text. text.now) texts.now)) }
{
    let mut names = Vec::new(alloc);
    for text in texts {
        if is_name(text) {
            names.push(*text)?;
        }
    }
    Ok(names)
}

// Returns whether a text is no job.
fn is_name(text: &str) -> bool
    ensures { result ≡ is_name text.now }
{
    job_of(text.as_bytes()).is_none()
}

// Returns the number of a job, which may follow the name of a queue and a hyphen.
fn job_of(text: &[u8]) -> Option<u32>
    ensures { result ≡ job_of text.now }
{
    number_in(last_part(text, b'-'), 1, GREATEST_JOB)
}

// Returns the part after the last such byte, or the whole text if there is none.
pub fn last_part(text: &[u8], mark: u8) -> &[u8]
    ensures { result.now ≡ last_part mark text.now }
{
    let mut part = text;
    let mut rest = text;
    while let Some((byte, behind)) = rest.split_first() {
        if *byte == mark {
            part = behind;
        }
        rest = behind;
    }
    part
}
