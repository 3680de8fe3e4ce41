//! A reader of a client's requests.
ghost use Rattle.std.specs.Prelude.{◌≡◌, ◌⊎◌, ℕ, ◌<◌, ◌≤◌, true, false, List, ◌++◌, length, take, drop, slice_index, vec_len, OnErr, OnOk, IfOk};
ghost use Rattle.command_lines.specs.TextLines.{has_lf};
ghost use Rattle.command_lines.specs.PendingCommands.{IsPartial};
ghost use Rattle.command_lines.specs.Waits.{wanted_of};
ghost use Rattle.client_reader.specs.Asks.{asks_of, own_of};
ghost use Rattle.client_reader.specs.AwaitedRequests.{Awaits, ComesFurther, Gives, ends_within, is_in_send};
ghost use Rattle.client_reader.specs.declared.ask.Ask.{Ask as AskOf};

use crate::ask::{Ask, Next};
use command_lines::{Commands, Wanted, line_by_line, line_feed_at};
use service_texts::{OwnWord, own_word};
use std::alloc::{AllocError, Global};

const LINE_FEED: u8 = b'\n';

// The limit in bytes for a line with a word of the service. A longer line is passed to the reader of commands before its end has arrived.
const LONGEST_LINE: usize = 4_096;

/// Reads a client's requests from a text that arrives in pieces.
#[derive(Drop)]
pub struct Reader {
    commands: Commands,
    // The bytes that have arrived and that the reader of commands has not got.
    text: Vec<u8>,
    // Whether the reader of commands got the front of a line last.
    within: bool,
}

impl Reader {
    /// A reader before any text. Does not allocate.
    pub fn new(alloc: Global) -> Reader
        ensures { Awaits result asks_of }
    {
        Reader {
            commands: Commands::new(alloc),
            text: Vec::new(alloc),
            within: false,
        }
    }

    /// Takes the next piece of the text.
    pub fn take(&mut self, piece: &[u8]) -> Result<(), AllocError>
        ensures awaits { (asks : List ℕ → List AskOf) → Awaits self.old asks → OnOk result (Awaits self.new (λ more. asks (piece.now ++ more))) }
        ensures send { is_in_send self.new ≡ is_in_send self.old }
    {
        self.text.extend_from_slice(piece)?;
        Ok(())
    }

    /// Whether it waits for the bytes of a send, after [`Reader::next`] has returned [`Next::Text`].
    pub fn is_in_send(&self) -> bool
        ensures { result ≡ is_in_send self.now }
    {
        matches!(self.commands.wanted(), Wanted::Bytes(_))
    }

    /// The next request. An error has lost nothing, and the call may be repeated. Calls without a request make progress: at most as often
    /// as the text has bytes they return [`Next::Again`] in a row.
    pub fn next(&mut self) -> Result<Next, AllocError>
        ensures ok { (asks : List ℕ → List AskOf) → Awaits self.old asks → IfOk result (λ next. Gives asks next self.new) }
        ensures err { (asks : List ℕ → List AskOf) → Awaits self.old asks → OnErr result (Awaits self.new asks) }
        ensures further { IfOk result (λ next. ComesFurther (length self.old.text.items) next self.new) }
    {
        line_by_line();
        match self.commands.next()? {
            Some(command) => Ok(Next::Asked(Ask::Command(command))),
            None => self.next_of_text(),
        }
    }

    // The same, if the reader of commands has none.
    fn next_of_text(&mut self) -> Result<Next, AllocError>
        requires { IsPartial self.old.commands.mode self.old.commands.held }
        ensures ok { (asks : List ℕ → List AskOf) → Awaits self.old asks → IfOk result (λ next. Gives asks next self.new) }
        ensures err { (asks : List ℕ → List AskOf) → Awaits self.old asks → OnErr result (Awaits self.new asks) }
        ensures further { IfOk result (λ next. ComesFurther (length self.old.text.items) next self.new) }
    {
        if self.text.is_empty() {
            return Ok(Next::Text);
        }
        match self.commands.wanted() {
            Wanted::Bytes(count) => self.give_send(count),
            Wanted::Line => self.next_of_part(),
            Wanted::Rest => self.next_of_part(),
        }
    }

    // The same, if the reader of commands waits for a line or the rest of one.
    fn next_of_part(&mut self) -> Result<Next, AllocError>
        requires partial { IsPartial self.old.commands.mode self.old.commands.held }
        requires wanted { (wanted_of self.old.commands ≡ Wanted.Line) ⊎ (wanted_of self.old.commands ≡ Wanted.Rest) }
        requires some { 0 < length self.old.text.items }
        ensures ok { (asks : List ℕ → List AskOf) → Awaits self.old asks → IfOk result (λ next. Gives asks next self.new) }
        ensures err { (asks : List ℕ → List AskOf) → Awaits self.old asks → OnErr result (Awaits self.new asks) }
        ensures further { IfOk result (λ next. ComesFurther (length self.old.text.items) next self.new) }
    {
        if self.within {
            self.give_rest()
        } else {
            self.next_of_line()
        }
    }

    // The same, if the text is at the beginning of a line.
    fn next_of_line(&mut self) -> Result<Next, AllocError>
        requires partial { IsPartial self.old.commands.mode self.old.commands.held }
        requires wanted { (wanted_of self.old.commands ≡ Wanted.Line) ⊎ (wanted_of self.old.commands ≡ Wanted.Rest) }
        requires begins { self.old.within ≡ false }
        ensures ok { (asks : List ℕ → List AskOf) → Awaits self.old asks → IfOk result (λ next. Gives asks next self.new) }
        ensures err { (asks : List ℕ → List AskOf) → Awaits self.old asks → OnErr result (Awaits self.new asks) }
        ensures further { IfOk result (λ next. ComesFurther (length self.old.text.items) next self.new) }
    {
        match line_feed_at(&self.text) {
            Some(at) => self.take_line(at),
            None if LONGEST_LINE < self.text.len() => self.give_front(),
            None => Ok(Next::Text),
        }
    }

    // Takes a line that is a word of the service, or passes it to the reader of commands.
    fn take_line(&mut self, at: usize) -> Result<Next, AllocError>
        requires partial { IsPartial self.old.commands.mode self.old.commands.held }
        requires wanted { (wanted_of self.old.commands ≡ Wanted.Line) ⊎ (wanted_of self.old.commands ≡ Wanted.Rest) }
        requires begins { self.old.within ≡ false }
        requires at { at < length self.old.text.items }
        requires before { has_lf (take at self.old.text.items) ≡ false }
        requires there { slice_index self.old.text.items at ≡ 10 }
        ensures ok { (asks : List ℕ → List AskOf) → Awaits self.old asks → IfOk result (λ next. Gives asks next self.new) }
        ensures err { (asks : List ℕ → List AskOf) → Awaits self.old asks → OnErr result (Awaits self.new asks) }
        ensures further { IfOk result (λ next. ComesFurther (length self.old.text.items) next self.new) }
    {
        line_by_line();
        let own = own_of(*self.text.allocator(), &self.text[..at])?;
        match own {
            Some(word) => {
                self.skip(at + 1);
                Ok(Next::Asked(Ask::Own(word)))
            }
            None => {
                self.give(at + 1)?;
                Ok(Next::Again)
            }
        }
    }

    // Passes on the front of a line that is too long.
    fn give_front(&mut self) -> Result<Next, AllocError>
        requires partial { IsPartial self.old.commands.mode self.old.commands.held }
        requires wanted { (wanted_of self.old.commands ≡ Wanted.Line) ⊎ (wanted_of self.old.commands ≡ Wanted.Rest) }
        requires begins { self.old.within ≡ false }
        requires none { has_lf self.old.text.items ≡ false }
        requires long { 4096 < length self.old.text.items }
        ensures ok { (asks : List ℕ → List AskOf) → Awaits self.old asks → IfOk result (λ next. Gives asks next self.new) }
        ensures err { (asks : List ℕ → List AskOf) → Awaits self.old asks → OnErr result (Awaits self.new asks) }
        ensures further { IfOk result (λ next. ComesFurther (length self.old.text.items) next self.new) }
    {
        line_by_line();
        let count = self.text.len();
        self.give(count)?;
        Ok(Next::Again)
    }

    // Passes on the rest of a line, or part of it.
    fn give_rest(&mut self) -> Result<Next, AllocError>
        requires partial { IsPartial self.old.commands.mode self.old.commands.held }
        requires wanted { (wanted_of self.old.commands ≡ Wanted.Line) ⊎ (wanted_of self.old.commands ≡ Wanted.Rest) }
        requires within { self.old.within ≡ true }
        requires some { 0 < length self.old.text.items }
        ensures ok { (asks : List ℕ → List AskOf) → Awaits self.old asks → IfOk result (λ next. Gives asks next self.new) }
        ensures err { (asks : List ℕ → List AskOf) → Awaits self.old asks → OnErr result (Awaits self.new asks) }
        ensures further { IfOk result (λ next. ComesFurther (length self.old.text.items) next self.new) }
    {
        line_by_line();
        match line_feed_at(&self.text) {
            Some(at) => {
                self.give(at + 1)?;
                Ok(Next::Again)
            }
            None => {
                let count = self.text.len();
                self.give(count)?;
                Ok(Next::Again)
            }
        }
    }

    // Passes on bytes of a send, at most the missing ones.
    fn give_send(&mut self, count: usize) -> Result<Next, AllocError>
        requires partial { IsPartial self.old.commands.mode self.old.commands.held }
        requires wanted { wanted_of self.old.commands ≡ Wanted.Bytes count }
        requires some { 0 < length self.old.text.items }
        ensures ok { (asks : List ℕ → List AskOf) → Awaits self.old asks → IfOk result (λ next. Gives asks next self.new) }
        ensures err { (asks : List ℕ → List AskOf) → Awaits self.old asks → OnErr result (Awaits self.new asks) }
        ensures further { IfOk result (λ next. ComesFurther (length self.old.text.items) next self.new) }
    {
        line_by_line();
        let there = self.text.len();
        self.give(count.min(there))?;
        Ok(Next::Again)
    }

    // Drops the first bytes of the text.
    fn skip(&mut self, count: usize)
        requires { count ≤ vec_len self.old.text }
        ensures commands { self.new.commands ≡ self.old.commands }
        ensures text { self.new.text.items ≡ drop count self.old.text.items }
        ensures within { self.new.within ≡ self.old.within }
    {
        self.text.drain(..count);
    }

    // Moves the first bytes of the text to the reader of commands.
    fn give(&mut self, count: usize) -> Result<(), AllocError>
        requires { count ≤ vec_len self.old.text }
        ensures commands { OnOk result (self.new.commands ≡ record self.old.commands { held = self.old.commands.held ++ take count self.old.text.items }) }
        ensures text { OnOk result (self.new.text.items ≡ drop count self.old.text.items) }
        ensures within { OnOk result (self.new.within ≡ ends_within (take count self.old.text.items)) }
        ensures lost_none { OnErr result (self.new.commands ≡ self.old.commands) }
        ensures same_text { OnErr result (self.new.text.items ≡ self.old.text.items) }
        ensures same_within { OnErr result (self.new.within ≡ self.old.within) }
    {
        let piece = &self.text[..count];
        let within = ends_within(piece);
        self.commands.feed(piece)?;
        self.within = within;
        self.text.drain(..count);
        Ok(())
    }
}

// The request to the service itself on a line.
fn own_of(alloc: Global, line: &[u8]) -> Result<Option<OwnWord>, AllocError>
    ensures { IfOk result (λ word. word ≡ own_of line.now) }
{
    if line.len() <= LONGEST_LINE {
        own_word(alloc, line)
    } else {
        Ok(None)
    }
}

// Whether bytes end within a line.
fn ends_within(bytes: &[u8]) -> bool
    ensures { result ≡ ends_within bytes.now }
{
    match bytes.last() {
        Some(b) => *b != LINE_FEED,
        None => true,
    }
}
