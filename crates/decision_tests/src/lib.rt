//! Tests of the crates that decide, read and encode, for results that no clause states.
//!
//! Rows of functions that only compute are facts in `decision_examples`. Functions that allocate run here once with ample memory, since
//! their clauses allow them to report that memory ran out. The other tests are of the index of waiting jobs, change by change, of
//! deadlines, and of the client that is replaced by a new one.
#![tactic(auto)]

#[cfg(test)]
mod clients;
#[cfg(test)]
mod codec;
#[cfg(test)]
mod deadlines;
#[cfg(test)]
mod indexes;
#[cfg(test)]
mod options;
#[cfg(test)]
mod samples;
#[cfg(test)]
mod texts;
