//! Which attributes a client of the Internet Printing Protocol asks for, and the attributes of an answer.
//!
//! A request names attributes and groups of attributes in `requested-attributes` ([`Asked`], [`AttributeGroup`]). `AttributeGroups` defines
//! the answer for any table of rows: the rows that are asked for, in their order, without those that have no values (`answered`).
//!
//! # Promises
//!
//! - [`is_wanted`] decides exactly whether an attribute is asked for, by its name and its group (`is_wanted`).
//! - [`push_attribute`] appends exactly the attribute with a name and values, and none if there are no values (`named_attribute`).
//!
//! # Errors
//!
//! The only error is out of memory.
//!
//! # Cost
//!
//! [`is_wanted`] compares the name with each value of `requested-attributes`.
#![tactic(auto)]

mod groups;
mod pushing;

pub use groups::{Asked, AttributeGroup, is_wanted};
pub use pushing::push_attribute;
