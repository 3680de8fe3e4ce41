//! The rows of jobs, each under its number, in ascending order of number.
//!
//! [`Rows`] stores the rows of a table's jobs. A new row is appended. A row is found, changed and removed by its
//! number, and no other row moves. Callers see the list of numbers, the list of the rows under them, and the number of
//! rows that can be added without allocating (`Listed`).
//!
//! # Promises
//!
//! - The numbers are in ascending order, without duplicates (`ascending` of [`Rows::len`]). [`Rows::len`] is the number
//!   of rows (`numbers`, `items`), [`Rows::is_empty`] whether it is 0. [`Rows::new`] has no rows.
//! - [`Rows::push`] appends a row and its number (`numbers`, `items`).
//! - [`Rows::get`] finds the row under a number (`found`, by `HasRow`), and returns None exactly if the number does not
//!   occur (`there`, by `HasNumber`; `absent`).
//! - [`Rows::row_mut`] returns a `&mut` to the row under a number. The row that is written there stays under that
//!   number, and no other row changes (`lends`, by `LendsRow`).
//! - [`Rows::remove`] removes the row and its number, and nothing else (`rows`, by `without_row`).
//! - [`Rows::iter`] yields all rows in order (`rows`), and there are fewer than 2^64 (`fits`). [`Rows::first`] returns
//!   the least number, [`Rows::last`] the row of the greatest, and [`Rows::next_above`] the least number above a given
//!   one (`value`, by `first_above`; `behind`, `above`, `there`). So a caller can visit all rows while it changes or
//!   removes them.
//! - *NoHiddenAllocation*: only [`Rows::reserve`] allocates, and only if room is missing (`ready`). A removal leaves at
//!   least as much room (`room`).
//!
//! # Not proved
//!
//! - What removing a row costs.
//!
//! # Invariants
//!
//! A removed row leaves its slot, which keeps the number and is marked as gone.
//!
//! 1. The slots, including the gone ones, are in ascending order of number, without duplicates. So a number is found by
//!    binary search.
//! 2. The last slot has a row. So a number above those of all rows is above those of all slots.
//! 3. The number of gone slots is stored. It is at most half of all slots.
//!
//! A row is stored under the number that it had in `push`. A caller that changes the row must keep its number.
//!
//! # Errors
//!
//! [`Rows::reserve`] fails if memory runs out, and leaves the rows unchanged. Nothing else fails.
//!
//! # Cost
//!
//! n rows have at most 2n slots. A removal marks one slot, and deletes the gone slots at the end. When more than half
//! of the slots are gone, one pass deletes them all and moves each row at most once. So a removal costs a search and a
//! few moves on average. [`Rows::next_above`] skips the gone slots before the next row, so visiting all rows reads each
//! slot once.
#![tactic(auto)]

mod iter;
mod rows;
mod slot;

pub use iter::Iter;
pub use rows::Rows;
