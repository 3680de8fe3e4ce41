//! Examples of job attributes, stated as facts: each clause is a table that the check computes.
//!
//! The tables are in `specs/`, and the function here does nothing. A table states the results of a definition for given values. That the
//! code returns the same is the clause of the function that cites the definition: `read_settings`, `stated_attributes`, `hold_in` and
//! `hold_time_in` in `ipp_options`. `lp` of CUPS 2.4 sends these job attributes, and date(1) prints these moments.
//!
//! # Errors
//!
//! None: nothing here is ever called.
#![tactic(auto)]

ghost use Rattle.ipp_option_examples.specs.JobExamples.{PlainRows, ManyRows, InjectionRows, BadRows, KeptRows, HoldRows, DateRows, MediaRows, StatedRows, GivenRows};

/// Job attributes and their settings.
pub fn job_examples()
    ensures plain { PlainRows }
    ensures many { ManyRows }
    ensures injection { InjectionRows }
    ensures bad { BadRows }
    ensures kept { KeptRows }
    ensures hold { HoldRows }
    ensures date { DateRows }
    ensures media { MediaRows }
    ensures stated { StatedRows }
    ensures given { GivenRows }
{}
