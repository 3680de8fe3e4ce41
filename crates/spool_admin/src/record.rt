//! The record of a split that was begun: the name of the file with the queues, and then the words of the command, one a line.
ghost use Rattle.std.specs.Prelude.{◌≡◌, ◌++◌, ◌∷◌, List, ℕ, [], IfNone, IfOk, IfSome, OnOk, codes, map, nat_eq, not, string_bytes};
ghost use Rattle.std.specs.List.{list_all};
ghost use Rattle.std.specs.Fmt.{decimal};
ghost use Rattle.spool_admin.specs.Record.{IsNoted, is_part, lines_of};

use std::alloc::{AllocError, Global};

// Prefix of the name of the file with the queues, until it is `spool.disk`.
const PART: &str = "spool.part.";

/// Returns the words after the first folder, one a line.
pub fn words_of(alloc: Global, into: &str, queues: &[&str]) -> Result<String, AllocError>
    ensures { IfOk result (λ text. string_bytes text ≡ lines_of (into.now ∷ map (λ queue. queue.now) queues.now)) }
{
    let mut text = String::new(alloc);
    push_line(&mut text, into)?;
    for queue in queues {
        push_line(&mut text, queue)?;
    }
    Ok(text)
}

fn push_line(text: &mut String, word: &str) -> Result<(), AllocError>
    ensures { OnOk result (string_bytes text.new ≡ string_bytes text.old ++ (word.now ++ (10 ∷ []))) }
{
    write!(text, "{word}\n")
}

/// Returns the text that notes a part and these words.
pub fn noted(alloc: Global, part: &str, words: &str) -> Result<String, AllocError>
    ensures { IfOk result (λ text. string_bytes text ≡ part.now ++ (10 ∷ words.now)) }
{
    format!(in alloc; "{part}\n{words}")
}

/// Returns the part that a text notes with these words, if it is such a text.
pub fn part_in<'a>(text: &'a str, words: &str) -> Option<&'a str>
    ensures some { IfSome result (λ part. IsNoted part.now words.now text.now) }
    ensures none { IfNone result ((part : List ℕ) → ¬ (IsNoted part words.now text.now)) }
{
    let (part, others) = text.split_once('\n')?;
    if others == words && is_part(part) {
        Some(part)
    } else {
        None
    }
}

// Returns whether a part may have this name.
fn is_part(name: &str) -> bool
    ensures { result ≡ is_part name.now }
{
    name.starts_with(PART) && has_no_slash(name.as_bytes())
}

fn has_no_slash(name: &[u8]) -> bool
    ensures { result ≡ list_all (λ b. not (nat_eq b 47)) name.now }
{
    name.iter().all(|b| *b != b'/')
}

/// Returns the name of a part that is begun at this time.
pub fn part_name(alloc: Global, seconds: u64, nanos: u32) -> Result<String, AllocError>
    ensures { IfOk result (λ name. string_bytes name ≡ codes "spool.part." ++ (decimal seconds ++ (46 ∷ decimal nanos))) }
{
    format!(in alloc; "{PART}{seconds}.{nanos}")
}
