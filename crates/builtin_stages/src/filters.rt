//! The filters (filter(7)).
//!
//! | Filter | Standard output | Standard error |
//! |---|---|---|
//! | `texttoprn` | CR LF for each LF, and a form feed at the end | `PAGE: 1 N`, N the number of copies |
//! | `prncount` | the document unchanged | `PAGE: total N`, N the number of form feeds written |
ghost use Rattle.std.specs.Prelude.{◌≡◌, IfErr, IfOk, OnOk};
ghost use Rattle.std.specs.String.{string_bytes};
ghost use Rattle.builtin_stages.specs.Filters.{FailsAsFilter, Filtered, form_of, page_line};

use crate::fault::ToolFault;
use crate::results::{Form, Source, write_copies};
use crate::words::Filter;
use std::alloc::{AllocError, Global};
use std::io::Write;
use whole_writes::write_whole;

/// Writes `copies` copies of the filter's result, and then reports the pages.
pub fn run_filter<S: Source, W: Write, E: Write>(
    alloc: Global,
    filter: Filter,
    source: &S,
    copies: u32,
    writer: &mut W,
    errors: &mut E,
) -> Result<(), ToolFault>
    ensures filtered { OnOk result (Filtered filter copies (S.known source.now) (W.contents writer.old) (W.contents writer.new)
        (E.contents errors.old) (E.contents errors.new)) }
    ensures fault { IfErr result (λ fault. FailsAsFilter fault (E.contents errors.old) (E.contents errors.new)) }
{
    let feeds = write_copies(alloc, form_of(filter), source, copies, writer)?;
    let line = page_line(alloc, filter, copies, feeds)?;
    write_whole(errors, line.as_bytes())?;
    Ok(())
}

fn form_of(filter: Filter) -> Form
    ensures { result ≡ form_of filter }
{
    match filter {
        Filter::TextToPrn => Form::Lines,
        Filter::PrnCount => Form::Plain,
    }
}

// Returns the line that reports the pages to the spooler.
fn page_line(alloc: Global, filter: Filter, copies: u32, feeds: u64) -> Result<String, AllocError>
    ensures { IfOk result (λ line. string_bytes line ≡ page_line filter copies feeds) }
{
    match filter {
        Filter::TextToPrn => format!(in alloc; "PAGE: 1 {copies}\n"),
        Filter::PrnCount => format!(in alloc; "PAGE: total {feeds}\n"),
    }
}
