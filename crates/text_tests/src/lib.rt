//! Tests of the crates that read device URIs, device lines and packets.
//!
//! Each public function that allocates memory is called with enough memory, and its answer is compared. The meaning of the texts is shown
//! by the examples of `text_examples`. The stored scripts call all other functions that read texts: words, lines, commands, replies, files
//! of rules and of conversions, and standard error.
#![tactic(auto)]

#[cfg(test)]
mod sessions;
#[cfg(test)]
mod uris;
