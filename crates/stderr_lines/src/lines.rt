//! A reader of standard error.
ghost use Rattle.std.specs.Prelude.{◌≡◌, ◌∷◌, false, [], ℕ, List, OnOk, OnErr, IfOk, IfErr};
ghost use Rattle.std.specs.List.{list_any};
ghost use Rattle.stderr_lines.specs.LineEffects.{is_lf, without_cr, kept_line, line_effects};
ghost use Rattle.stderr_lines.specs.Reports.{told_by, report_of};
ghost use Rattle.stderr_lines.specs.PendingEffects.{Pending, Takes, to_come};
ghost use Rattle.stderr_lines.specs.Tallies.{begun, joined, keep_all};
ghost use Rattle.stderr_lines.specs.CurrentLine.{IsHeld};

use crate::line::add_line;
use crate::tally::Tally;
use line_pieces::hold_piece;
use spool_types::Effect;
use std::alloc::{AllocError, AllocFailed, Global};
use std::marker::Model;

const LINE_FEED: u8 = b'\n';

const CARRIAGE_RETURN: u8 = b'\r';

/// The report of a child's standard error.
#[derive(Drop)]
pub struct Report {
    /// The effects in the order of their lines. Their codes have at most 16,384 bytes.
    pub effects: Vec<Effect>,
    /// The number of later effects, which were dropped, up to 4,294,967,295.
    pub dropped: u32,
}

/// A reader of a child's standard error, which arrives in pieces.
#[derive(Drop)]
pub struct Lines {
    // The current line as far as it was read, at most 1,023 bytes.
    line: Vec<u8>,
    // The effects of the lines before it.
    tally: Tally,
}

impl Model for Lines {
    ghost use Rattle.stderr_lines.specs.PendingEffects.{Pending};
    ghost use Rattle.stderr_lines.specs.CurrentLine.{IsHeld};

    ghost Value = { Pending };

    ghost view = { λ a. record { held = a.line.items; tally = a.tally } };

    ghost invariant = { λ a. IsHeld a.line.items };
}

impl Lines {
    /// Returns a reader before any text. Allocates nothing.
    pub fn new(alloc: Global) -> Lines
        ensures whole { (text : List ℕ) → to_come result text ≡ report_of text }
    {
        Lines {
            line: Vec::new(alloc),
            tally: Tally::new(alloc),
        }
    }

    /// Takes the next piece of the text, of any length. An `Err` has taken nothing.
    pub fn feed(&mut self, piece: &[u8]) -> Result<(), AllocError>
        ensures ok { OnOk result (Takes self.old piece.now self.new) }
        ensures err { OnErr result (self.new ≡ self.old) }
    {
        if !has_line_feed(piece) {
            return self.hold(piece);
        }
        let mut line = Vec::from_slice(*self.line.allocator(), &self.line)?;
        let mut tally = self.tally.begun();
        take_piece(&mut tally, &mut line, piece)?;
        self.tally.join(tally)?;
        self.line = line;
        Ok(())
    }

    // Takes a piece of the current line.
    fn hold(&mut self, piece: &[u8]) -> Result<(), AllocError>
        requires { list_any is_lf piece.now ≡ false }
        ensures ok { OnOk result (Takes self.old piece.now self.new) }
        ensures err { OnErr result (self.new ≡ self.old) }
    {
        hold_piece(&mut self.line, piece)?;
        Ok(())
    }

    /// Returns the report if the text ends here. The last line counts even without a line feed. An `Err` returns the unchanged reader,
    /// and the call may be repeated.
    pub fn finish(mut self) -> Result<Report, AllocFailed<Lines>>
        ensures ok { IfOk result (λ report. told_by report ≡ to_come self []) }
        ensures err { IfErr result (λ failed. failed.value ≡ self) }
    {
        match self.end() {
            Ok(()) => {
                let Lines { line: _, tally } = self;
                Ok(tally.into_report())
            }
            Err(AllocError) => Err(AllocFailed { value: self }),
        }
    }

    // Takes the last line.
    fn end(&mut self) -> Result<(), AllocError>
        ensures ok { OnOk result (self.new ≡ record { held = []; tally = joined self.old.tally (keep_all (begun self.old.tally) (line_effects (kept_line self.old.held))) }) }
        ensures err { OnErr result (self.new ≡ self.old) }
        ensures whole { list_any is_lf self.old.held ≡ false }
    {
        let mut line = Vec::from_slice(*self.line.allocator(), &self.line)?;
        let mut tally = self.tally.begun();
        end_line(&mut tally, &mut line)?;
        self.tally.join(tally)?;
        self.line = line;
        Ok(())
    }
}

// Takes a piece byte by byte.
fn take_piece(tally: &mut Tally, line: &mut Vec<u8>, piece: &[u8]) -> Result<(), AllocError>
    requires { IsHeld line.old.items }
    ensures held { OnOk result (IsHeld line.new.items) }
    ensures takes { OnOk result (Takes (record { held = line.old.items; tally = tally.old }) piece.now (record { held = line.new.items; tally = tally.new })) }
{
    for b in piece {
        take_byte(tally, line, *b)?;
    }
    Ok(())
}

fn take_byte(tally: &mut Tally, line: &mut Vec<u8>, b: u8) -> Result<(), AllocError>
    requires { IsHeld line.old.items }
    ensures held { OnOk result (IsHeld line.new.items) }
    ensures takes { OnOk result (Takes (record { held = line.old.items; tally = tally.old }) (b ∷ []) (record { held = line.new.items; tally = tally.new })) }
{
    if b == LINE_FEED {
        end_line(tally, line)
    } else {
        hold_piece(line, &[b])
    }
}

// Ends the current line.
fn end_line(tally: &mut Tally, line: &mut Vec<u8>) -> Result<(), AllocError>
    requires { IsHeld line.old.items }
    ensures { OnOk result ((line.new.items ≡ []) × (tally.new ≡ keep_all tally.old (line_effects (kept_line line.old.items)))) }
{
    let end = without_cr(line).len();
    add_line(tally, &mut line[..end])?;
    line.clear();
    Ok(())
}

// Returns a line without a carriage return at its end.
fn without_cr(line: &[u8]) -> &[u8]
    ensures { result.now ≡ without_cr line.now }
{
    match line.split_last() {
        Some((b, before)) if *b == CARRIAGE_RETURN => before,
        _ => line,
    }
}

fn has_line_feed(piece: &[u8]) -> bool
    ensures { result ≡ list_any is_lf piece.now }
{
    piece.iter().any(|b| *b == LINE_FEED)
}
