//! The options that a job stores.
ghost use Rattle.std.specs.Prelude.{◌≡◌, cond, None, Some, IfOk, OnErr};
ghost use Rattle.std.specs.Result.{IsOk};
ghost use Rattle.spool_types.specs.Values.{is_options};
ghost use Rattle.filter_args.specs.OptionTexts.{reading};
ghost use Rattle.spool_engine.specs.Script.{job_options};

use filter_args::{OptionFault, Options};
use spool_types::{OptionText, TextFault};
use std::alloc::{AllocError, Global};

/// Returns the printed form of these options, which the job stores, or `None` if they contain an error or are too long.
pub fn job_options(alloc: Global, text: &str) -> Result<Option<OptionText>, AllocError>
    ensures value { IfOk result (λ options. options ≡ job_options text.now) }
    // Out of memory is returned only if the options contain no error.
    ensures memory { OnErr result (IsOk (reading text.now)) }
{
    match Options::parse(alloc, text) {
        Ok(options) => {
            let printed = options.print()?;
            option_text(alloc, printed.as_str())
        }
        Err(OptionFault::Memory) => Err(AllocError),
        Err(OptionFault::BadName | OptionFault::Unclosed | OptionFault::Collection) => Ok(None),
    }
}

// Returns the text as a value of its type, or `None` if it is too long.
fn option_text(alloc: Global, text: &str) -> Result<Option<OptionText>, AllocError>
    ensures { IfOk result (λ options. options ≡ cond (is_options text.now) (Some text.now) None) }
{
    match OptionText::read(alloc, text) {
        Ok(options) => Ok(Some(options)),
        Err(TextFault::Bad) => Ok(None),
        Err(TextFault::Memory) => Err(AllocError),
    }
}
