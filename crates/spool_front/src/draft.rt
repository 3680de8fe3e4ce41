//! The fields of the job that a document becomes.
ghost use Rattle.std.specs.Prelude.{◌≡◌, ◌++◌, IfOk, IfSome, OnOk, is_some, string_bytes, unwrap_or};
ghost use Rattle.std.specs.Option.{option_map};
ghost use Rattle.spool_front.specs.ServiceMoments.{second_of};
ghost use Rattle.spool_front.specs.JobDrafts.{option_text, options_of, page_ranges_option, plain_char, plain_text, raw_option, until_of};

use crate::commands::{Draft, Until};
use crate::fault::Fault;
use crate::host::variable;
use crate::moments::Clocks;
use front_words::{Hold, Moment, Submission};
use std::alloc::{AllocError, Global};
use std::random::RandomSource;

/// Returns the job of a document for a queue, with its moments by these clocks. `title` is the title if the user gives none, and `name` is the name of the document's file.
pub fn draft_of(
    rt: &HostRuntime,
    asked: &Submission<'_>,
    clocks: Clocks,
    queue: &str,
    title: &str,
    name: &str,
) -> Result<Draft, Fault>
    ensures queue { IfOk result (λ draft. string_bytes draft.queue ≡ queue.now) }
    ensures user { IfOk result (λ draft. IfSome asked.now.user (λ user. string_bytes draft.user ≡ user.now)) }
    ensures named { IfOk result (λ draft. draft.is_named ≡ is_some asked.now.user) }
    ensures media { IfOk result (λ draft. option_map string_bytes draft.media ≡ option_map (λ media. media.now) asked.now.media) }
    ensures title { IfOk result (λ draft. string_bytes draft.title ≡ plain_text (unwrap_or (option_map (λ asked. asked.now) asked.now.title) title.now)) }
    ensures copies { IfOk result (λ draft. draft.copies ≡ asked.now.copies) }
    ensures priority { IfOk result (λ draft. draft.priority ≡ asked.now.priority) }
    ensures options { IfOk result (λ draft. string_bytes draft.options ≡ options_of asked.now (string_bytes draft.token)) }
    ensures by { IfOk result (λ draft. draft.by ≡ option_map (second_of clocks) asked.now.by) }
    ensures hold { IfOk result (λ draft. draft.hold ≡ until_of clocks asked.now.hold) }
    ensures name { IfOk result (λ draft. string_bytes draft.name ≡ plain_text name.now) }
{
    let alloc = rt.alloc();
    let by = by_of(clocks, asked.by);
    let hold = until_of(clocks, asked.hold);
    let token = token_option(rt)?;
    let media = media_of(alloc, asked.media)?;
    Ok(Draft {
        queue: String::from_str(alloc, queue)?,
        user: user_of(rt, asked.user)?,
        is_named: asked.user.is_some(),
        title: plain_text(alloc, asked.title.unwrap_or(title))?,
        copies: asked.copies,
        priority: asked.priority,
        options: options_of(alloc, asked, token.as_str())?,
        token,
        by,
        hold,
        name: plain_text(alloc, name)?,
        media,
    })
}

fn media_of(alloc: Global, media: Option<&str>) -> Result<Option<String>, AllocError>
    ensures { IfOk result (λ told. option_map string_bytes told ≡ option_map (λ media. media.now) media.entry) }
{
    match media {
        Some(media) => Ok(Some(String::from_str(alloc, media)?)),
        None => Ok(None),
    }
}

fn by_of(clocks: Clocks, by: Option<Moment>) -> Option<u64>
    ensures { result ≡ option_map (second_of clocks) by }
{
    match by {
        Some(moment) => Some(clocks.second_of(moment)),
        None => None,
    }
}

fn until_of(clocks: Clocks, hold: Hold) -> Option<Until>
    ensures { result ≡ until_of clocks hold }
{
    match hold {
        Hold::No => None,
        Hold::Indefinite => Some(Until::Released),
        Hold::Until(moment) => Some(Until::Reached(clocks.second_of(moment))),
    }
}

// Returns the text with `?` for each control character. No command may contain a control character.
fn plain_text(alloc: Global, text: &str) -> Result<String, AllocError>
    ensures { IfOk result (λ plain. string_bytes plain ≡ plain_text text.now) }
{
    text.chars().map(|c| plain_char(c)).collect(alloc)
}

fn plain_char(c: char) -> char
    ensures { result ≡ plain_char c }
{
    if c.is_ascii_control() { '?' } else { c }
}

// Returns the owner: the given one, that of the environment, or `anonymous`.
fn user_of(rt: &HostRuntime, user: Option<&str>) -> Result<String, AllocError>
    ensures { IfOk result (λ name. IfSome user.entry (λ user. string_bytes name ≡ user.now)) }
{
    if let Some(user) = user {
        return String::from_str(rt.alloc(), user);
    }
    for name in ["USER", "LOGNAME"] {
        if let Some(user) = variable(rt, name)? {
            return plain_text(rt.alloc(), user.as_str());
        }
    }
    String::from_str(rt.alloc(), "anonymous")
}

// Returns an option whose value is 32 random hexadecimal digits, which no other submission has.
fn token_option(rt: &HostRuntime) -> Result<String, Fault> {
    let high = random_number(rt)?;
    let low = random_number(rt)?;
    Ok(format!(in rt.alloc(); "submission={high:016x}{low:016x}")?)
}

fn random_number(rt: &HostRuntime) -> Result<u64, Fault> {
    let mut bytes = [0u8; 8];
    match rt.fill_bytes(&mut bytes) {
        Ok(()) => Ok(u64::from_be_bytes(bytes)),
        Err(_) => Err(Fault::Words("cannot get random bytes from the system")),
    }
}

// Returns the options, the page ranges and the token, separated by blanks.
fn options_of(alloc: Global, asked: &Submission<'_>, token: &str) -> Result<String, AllocError>
    ensures { IfOk result (λ options. string_bytes options ≡ options_of asked.now token.now) }
{
    let mut options = String::new(alloc);
    for option in &asked.options {
        push_option(&mut options, option)?;
    }
    push_raw(&mut options, asked.raw)?;
    push_page_ranges(&mut options, asked.page_ranges)?;
    options.push_str(token)?;
    Ok(options)
}

fn push_raw(options: &mut String, raw: bool) -> Result<(), AllocError>
    ensures { OnOk result (string_bytes options.new ≡ string_bytes options.old ++ raw_option raw) }
{
    if raw {
        options.push_str("raw ")?;
    }
    Ok(())
}

fn push_page_ranges(options: &mut String, ranges: Option<&str>) -> Result<(), AllocError>
    ensures { OnOk result (string_bytes options.new ≡ string_bytes options.old ++ page_ranges_option (option_map (λ ranges. ranges.now) ranges.entry)) }
{
    let Some(ranges) = ranges else {
        return Ok(());
    };
    options.push_str("page-ranges=")?;
    push_option(options, ranges)?;
    Ok(())
}

// Appends a text and a blank.
fn push_option(options: &mut String, text: &str) -> Result<(), AllocError>
    ensures { OnOk result (string_bytes options.new ≡ string_bytes options.old ++ option_text text.now) }
{
    options.push_str(text)?;
    options.push_str(" ")
}
