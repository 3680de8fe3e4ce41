//! Tests of the texts of `front_texts` and `clean_texts`, byte by byte.
#![tactic(auto)]

#[cfg(test)]
mod clean_tests;
#[cfg(test)]
mod tests;
