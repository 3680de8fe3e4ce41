//! Tests of `front_words` with command lines as users write them. No clause states that each program has the options that its users know:
//! these tests show it.
#![tactic(auto)]

#[cfg(test)]
mod words;
