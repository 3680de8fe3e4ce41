//! Laws about reading and writing.
ghost use Rattle.front_texts.specs.Escape.{NoMarkup};
ghost use Rattle.front_texts.specs.ReadBack.{JobRowsReadBack};

/// Each row that the spooler prints for a job reads as that job, at the same moment.
pub fn job_rows_read_back()
    ensures { JobRowsReadBack }
{}

/// An escaped text cannot open or close anything in a page.
pub fn escaped_texts_have_no_markup()
    ensures { NoMarkup }
{}
