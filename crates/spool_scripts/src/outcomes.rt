//! How the children of a case behave.
//!
//! A text describes the children in the order of their starts, with an empty line between two. The first line of a
//! child is its end: `exit STATUS`, `signal` or `lost`, `unknown` if its end is not known, or `no start` if it cannot
//! be started. The next lines are its output, one line for each piece: `output COUNT TEXT` is the text on standard
//! output, repeated COUNT times, `errors COUNT TEXT` is the same on standard error, and `line COUNT TEXT` is the text
//! and a line feed on standard error. Children after the last one cannot be started, and add no order to the account.
//!
//! With ticks, children may end in another order than that of their starts. Their ends and output are then listed in
//! the order of their finishes.
//!
//! Before the first child, a line may list the answers of polls of children, in the order of the polls: `looks`,
//! followed by a word for each, `yes` if the child has ended, or `no`. An empty line follows it. After these answers
//! each poll reports that its child has ended.
ghost use Rattle.std.specs.Prelude.{◌≡◌, ◌≢◌, ◌<◌, ◌∷◌, ◌++◌, ℕ, List, [], codes, length, map, is_ok, IfOk, IfSome, OnOk};
ghost use Rattle.child_pipeline.specs.ChildTraces.{finish_in};
ghost use Rattle.spool_scripts.specs.Outcomes.{is_started, ends_of, first_line, look_word, look_words, TellsLooks};

use crate::fault::CaseFault;
use child_pipeline::{ChildFault, Content, Finish, MemChildren};
use spool_types::Exit;
use std::alloc::{AllocError, Global};

// The word that begins the line of polls.
const LOOKS: &str = "looks";

// How a child behaves.
#[derive(Drop)]
enum Outcome {
    NoStart,
    Unknown,
    Ended(Finish),
}

/// Returns the children that a text describes. None of them has been started. If the text is empty, none can be.
pub fn read_children(alloc: Global, text: &str) -> Result<MemChildren, CaseFault>
    ensures unstarted { IfOk result (λ c. c.orders ≡ []) }
    ensures unfinished { IfOk result (λ c. c.finished ≡ 0) }
    ensures none { text.now ≡ [] → IfOk result (λ c. c.starts ≡ []) }
    ensures looks { IfOk result (λ c. TellsLooks (first_line text.now) c.looks) }
{
    let mut starts = Vec::new(alloc);
    let mut finishes = Vec::new(alloc);
    let looks = read_looks(alloc, first_line(text))?;
    let children = behind_looks(text);
    if children.is_empty() {
        return Ok(MemChildren::new(alloc, starts, finishes, looks)?);
    }
    for child in children.split("\n\n") {
        let outcome = read_outcome(alloc, child)?;
        push_outcome(&mut starts, &mut finishes, outcome)?;
    }
    Ok(MemChildren::new(alloc, starts, finishes, looks)?)
}

fn first_line(text: &str) -> &[u8]
    ensures { result.now ≡ first_line text.now }
{
    match text.split_once('\n') {
        Some((line, _)) => line.as_bytes(),
        None => text.as_bytes(),
    }
}

// Returns the text after the line of polls, or the whole text if it has no such line.
fn behind_looks(text: &str) -> &str
    ensures none { text.now ≡ [] → result.now ≡ [] }
    ensures all { ((rest : List ℕ) → text.now ≢ codes "looks" ++ rest) → result.now ≡ text.now }
{
    if !text.starts_with(LOOKS) {
        return text;
    }
    match text.split_once("\n\n") {
        Some((_, children)) => children,
        None => "",
    }
}

// Returns the answers of polls in the first line.
fn read_looks(alloc: Global, line: &[u8]) -> Result<Vec<bool>, CaseFault>
    ensures { IfOk result (λ looks. TellsLooks line.now looks.items) }
{
    match line.strip_prefix(LOOKS.as_bytes()) {
        Some(words) => read_look_words(alloc, words),
        None => Ok(Vec::new(alloc)),
    }
}

// Returns the answers of polls that these words list.
fn read_look_words(alloc: Global, words: &[u8]) -> Result<Vec<bool>, CaseFault>
    ensures { IfOk result (λ looks. look_words looks.items ≡ words.now) }
{
    let mut looks = Vec::new(alloc);
    let mut rest = words;
    while let Some((ended, behind)) = next_look(rest) {
        match looks.push(ended) {
            Ok(()) => rest = behind,
            Err(_) => return Err(CaseFault::Memory),
        }
    }
    if rest.is_empty() {
        Ok(looks)
    } else {
        Err(CaseFault::NoChildren)
    }
}

// Returns the answer that the first word represents, and the other words.
fn next_look(words: &[u8]) -> Option<(bool, &[u8])>
    ensures word { IfSome result (λ found. words.now ≡ look_word found.0 ++ found.1.now) }
    ensures fewer { IfSome result (λ found. length found.1.now < length words.now) }
{
    if let Some(rest) = words.strip_prefix(b" yes".as_slice()) {
        return Some((true, rest));
    }
    match words.strip_prefix(b" no".as_slice()) {
        Some(rest) => Some((false, rest)),
        None => None,
    }
}

// Adds the answer to a child's start and, if it was started, to the wait for its end.
fn push_outcome(
    starts: &mut Vec<Result<(), ChildFault>>,
    finishes: &mut Vec<Result<Finish, ChildFault>>,
    outcome: Outcome,
) -> Result<(), AllocError>
    ensures starts { OnOk result (map is_ok starts.new.items ≡ map is_ok starts.old.items ++ is_started outcome ∷ []) }
    ensures finishes { OnOk result (map finish_in finishes.new.items ≡ map finish_in finishes.old.items ++ ends_of outcome) }
{
    match outcome {
        Outcome::NoStart => starts.push(Err(ChildFault))?,
        Outcome::Unknown => {
            starts.push(Ok(()))?;
            finishes.push(Err(ChildFault))?;
        }
        Outcome::Ended(finish) => {
            starts.push(Ok(()))?;
            finishes.push(Ok(finish))?;
        }
    }
    Ok(())
}

// Returns how a child behaves, from its lines.
fn read_outcome(alloc: Global, child: &str) -> Result<Outcome, CaseFault> {
    let (ending, pieces) = match child.split_once('\n') {
        Some(halves) => halves,
        None => (child, ""),
    };
    match ending {
        "no start" => Ok(Outcome::NoStart),
        "unknown" => Ok(Outcome::Unknown),
        _ => {
            let exit = exit_of(ending)?;
            Ok(Outcome::Ended(read_finish(alloc, exit, pieces)?))
        }
    }
}

fn exit_of(ending: &str) -> Result<Exit, CaseFault> {
    match ending {
        "signal" => Ok(Exit::Signal),
        "lost" => Ok(Exit::Lost),
        _ => match ending.strip_prefix("exit ") {
            Some(status) => status_of(status),
            None => Err(CaseFault::NoChildren),
        },
    }
}

fn status_of(text: &str) -> Result<Exit, CaseFault> {
    match text.parse::<u8>() {
        Ok(status) => Ok(Exit::Code(status)),
        Err(_) => Err(CaseFault::NoChildren),
    }
}

// Returns the finish of a child that writes these pieces.
fn read_finish(alloc: Global, exit: Exit, pieces: &str) -> Result<Finish, CaseFault> {
    let mut output = Vec::new(alloc);
    let mut errors = Vec::new(alloc);
    for line in pieces.lines() {
        let Some((kind, piece)) = line.split_once(' ') else {
            return Err(CaseFault::NoChildren);
        };
        match kind {
            "output" => push_piece(alloc, &mut output, piece, "")?,
            "errors" => push_piece(alloc, &mut errors, piece, "")?,
            "line" => push_piece(alloc, &mut errors, piece, "\n")?,
            _ => return Err(CaseFault::NoChildren),
        }
    }
    Ok(Finish {
        exit,
        output: Content::new(output),
        errors: Content::new(errors),
    })
}

// Adds a text and its end the number of times that the piece specifies.
fn push_piece(alloc: Global, bytes: &mut Vec<u8>, piece: &str, end: &str) -> Result<(), CaseFault> {
    let (count, text) = match piece.split_once(' ') {
        Some(halves) => halves,
        None => (piece, ""),
    };
    let Ok(count) = count.parse::<usize>() else {
        return Err(CaseFault::NoChildren);
    };
    let text = format!(in alloc; "{text}{end}")?;
    let text = text.repeat(alloc, count)?;
    bytes.extend_from_slice(text.as_bytes())?;
    Ok(())
}
