//! The jobs by the tokens of their submissions.
ghost use Rattle.std.specs.Prelude.{◌≡◌, ℕ, List, None, Some, IfOk, IfSome, IsTrue, OnOk};
ghost use Rattle.std.specs.FinMap as finite;
ghost use Rattle.std.specs.Option.{option_copied};
ghost use Rattle.spool_types.specs.Values.{text_in};
ghost use Rattle.service_texts.specs.FoundTexts.{found_text};
ghost use Rattle.service_texts.specs.SubmissionTokens.{HasPlace, HasSame, IsPut, all_noted_for, entry_for, found, has_token, is_job, is_token, last_word, left_for, noted_for, token_in, token_of};

use crate::token::{TokenKind, TokenText};
use job_table::Table;
use line_words::is_blank;
use spool_types::{Job, JobId, OptionText, TextFault, TextKind};
use std::alloc::{AllocError, Global};
use std::collections::BTreeMap;
use std::io::Write;

// The option whose value is a token.
const OPTION: &[u8] = b"submission=";

/// The job that was noted last for each token. A token may have a place before its job is created.
#[derive(Drop)]
pub struct Tokens {
    jobs: BTreeMap<TokenText, Option<JobId>>,
}

impl Tokens {
    /// No job. Does not allocate.
    pub fn new(alloc: Global) -> Tokens
        ensures { (token : List ℕ) → entry_for result token ≡ None }
    {
        Tokens {
            jobs: BTreeMap::new(alloc),
        }
    }

    /// The jobs of a table.
    pub fn of_table(alloc: Global, table: &Table) -> Result<Tokens, AllocError>
        ensures entries { IfOk result (λ tokens. (token : List ℕ) → entry_for tokens token ≡ all_noted_for token None (finite.values table.now.state.jobs)) }
    {
        let mut tokens = Tokens::new(alloc);
        for row in table.jobs().iter() {
            tokens.note_row(alloc, &row.job)?;
        }
        Ok(tokens)
    }

    // Notes a job, if it has a token.
    fn note_row(&mut self, alloc: Global, job: &Job) -> Result<(), AllocError>
        ensures { OnOk result ((token : List ℕ) → entry_for self.new token ≡ noted_for token (entry_for self.old token) job.now) }
    {
        let Some(token) = token_of(alloc, &job.options)? else {
            return Ok(());
        };
        match self.jobs.insert(token, Some(job.id)) {
            Ok(_) => Ok(()),
            Err(_) => Err(AllocError),
        }
    }

    /// Makes a place for a token, if it has none, so that its job can be noted without memory.
    pub fn prepare(&mut self, token: TokenText) -> Result<(), AllocError>
        ensures place { OnOk result (HasPlace self.new token) }
        ensures same { HasSame self.old self.new }
    {
        if self.jobs.contains_key(&token) {
            return Ok(());
        }
        match self.jobs.insert(token, None) {
            Ok(_) => Ok(()),
            Err(_) => Err(AllocError),
        }
    }

    /// Notes a job for a token that has a place. Does not allocate.
    pub fn note(&mut self, token: &TokenText, job: JobId)
        ensures noted { HasPlace self.old token.now → IsPut self.old token.now (Some job) self.new }
    {
        match self.jobs.get_mut(token) {
            Some(entry) => {
                *entry = Some(job);
            }
            None => {}
        }
    }

    /// Removes the place of a token that has no job.
    pub fn tidy(&mut self, token: &TokenText)
        ensures same { HasSame self.old self.new }
    {
        match self.entry(token) {
            None => {
                self.jobs.remove(token);
            }
            Some(_) => {}
        }
    }

    /// Forgets a job that had this token. Another job with the same token stays.
    pub fn forget(&mut self, token: &TokenText, job: JobId)
        ensures { (other : List ℕ) → entry_for self.new other ≡ left_for other (entry_for self.old other) token.now job }
    {
        if self.is_entry(token, job) {
            self.jobs.remove(token);
        }
    }

    // Returns the job of a token.
    fn entry(&self, token: &TokenText) -> Option<JobId>
        ensures { result ≡ entry_for self.now token.now }
    {
        *self.jobs.get(token)?
    }

    // Returns whether the entry of a token is this job.
    fn is_entry(&self, token: &TokenText, job: JobId) -> bool
        ensures { result ≡ is_job (entry_for self.now token.now) job }
    {
        match self.entry(token) {
            Some(other) => other == job,
            None => false,
        }
    }

    /// Returns the job that was noted last for this token, if its row has the token. So no entry makes a wrong answer.
    pub fn find(&self, table: &Table, token: &TokenText) -> Option<JobId>
        ensures value { result ≡ found table.now.state self.now token.now }
    {
        let job = self.entry(token)?;
        if has_token(&table.job(job)?.job, token) {
            Some(job)
        } else {
            None
        }
    }

    /// The reply to `find`: `ok job N`, or `error job`.
    pub fn found_text(
        &self,
        alloc: Global,
        table: &Table,
        token: &TokenText,
    ) -> Result<Vec<u8>, AllocError>
        ensures { IfOk result (λ text. text.items ≡ found_text self.now table.now.state token.now) }
    {
        let Some(job) = self.find(table, token) else {
            return Vec::from_slice(alloc, b"error job\n");
        };
        let number = job.get();
        let mut text = Vec::new(alloc);
        write!(text, "ok job {number}\n").map_err(|_| AllocError)?;
        Ok(text)
    }
}

// Returns whether the last word of the job's options names this token.
fn has_token(job: &Job, token: &TokenText) -> bool
    ensures { result ≡ has_token token.now job.now }
{
    match token_in(last_word(job.options.as_str().as_bytes())) {
        Some(text) => text == token.as_str(),
        None => false,
    }
}

/// Returns the token that the last word of a job's options names, if any.
pub fn token_of(alloc: Global, options: &OptionText) -> Result<Option<TokenText>, AllocError>
    ensures { IfOk result (λ token. token ≡ token_of options.now) }
{
    let Some(text) = token_in(last_word(options.as_str().as_bytes())) else {
        return Ok(None);
    };
    match TokenText::read(alloc, text) {
        Ok(token) => Ok(Some(token)),
        Err(TextFault::Bad) => unreachable!(),
        Err(TextFault::Memory) => Err(AllocError),
    }
}

// Returns the token that a word names, if any.
fn token_in(word: &[u8]) -> Option<&str>
    ensures value { option_copied result ≡ token_in word.now }
    ensures allowed { IfSome result (λ text. IsTrue (is_token text.now)) }
{
    let bytes = word.strip_prefix(OPTION)?;
    token_text(bytes)
}

// Returns these bytes as a text, if they are a token.
fn token_text(bytes: &[u8]) -> Option<&str>
    ensures value { option_copied result ≡ text_in is_token bytes.now }
    ensures allowed { IfSome result (λ text. IsTrue (is_token text.now)) }
{
    let Ok(text) = str::from_utf8(bytes) else {
        return None;
    };
    if TokenKind::allows(text) {
        Some(text)
    } else {
        None
    }
}

// Returns the bytes after the last blank.
fn last_word(text: &[u8]) -> &[u8]
    ensures { result.now ≡ last_word text.now }
{
    let mut word = text;
    let mut rest = text;
    while let Some((b, behind)) = rest.split_first() {
        if is_blank(*b) {
            word = behind;
        }
        rest = behind;
    }
    word
}
