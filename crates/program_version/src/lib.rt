//! The version of Cegmandi, which each program prints with `--version`.
//!
//! A release changes [`with_version`], and nothing else in the code.
//!
//! # Promises
//!
//! None: the crate has constants only.
#![tactic(auto)]

/// Expands to the version between two texts.
#[macro_export]
macro_rules! with_version {
    ($before:literal, $after:literal) => {
        concat!($before, "0.4.0", $after)
    };
}

/// The product and its version, as a program prints them after its name.
pub const VERSION: &str = with_version!("(Cegmandi) ", "");
