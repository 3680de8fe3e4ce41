//! The conversions of mime.convs(5), and the cheapest chain of them from one media type to another.
//!
//! # The lines
//!
//! A line has four words: source, destination, cost and filter. The source is a media type, a super type and `/*`, or `*/*`. The
//! destination is a media type. The cost is a number from 0 to 10,000. The filter is the name of a program, or `-` for none. Any other
//! line is skipped, with a warning of its first error from left to right.
//!
//! # The rule
//!
//! A *walk* from one type to another is a list of at most 15 conversions. The first accepts the type at the start of the walk, each later
//! one accepts the destination of the one before, and the last has the type at the end of the walk as its destination. A walk from a type
//! to itself may be empty. Its cost is the sum of its conversions' costs. One walk *beats* another by lower cost, then by fewer lines,
//! then by the lexicographically smaller list of line numbers.
//!
//! # Promises
//!
//! - [`Convs::read`] returns exactly the conversions of a text (`conversions`, by `conversions_of`) and its warnings (`warnings`, by
//!   `warnings_of`), each in the order of the lines.
//! - *LeastChain*: [`Convs::chain`] returns the lines and the cost of a walk (`reached`, by `IsReached`) that no walk beats (`least`, by
//!   `IsLeast`). It returns `None` only if no walk exists (`none`, by `IsApart`).
//! - [`least_law`]: `least_walk`, a function of the conversions that compares all walks, is a walk that none beats. If it is none, no
//!   walk exists. [`Convs::chain`] returns its cost and its lines (`walk`).
//! - [`Convs::filters`] returns the programs of that walk in order (`value`, by `filters_between`), without those whose filter is `-`. So
//!   a walk may have no programs (`Some []`), as from a type to itself. `None` means that no walk exists.
//! - [`Convs::filter`] returns the filter of the conversion with a line number (`value`). Each line of a chain is the line of a
//!   conversion (`lines`).
//! - [`order_law`]: the order is strict, and of two walks of different cost or lines one beats the other. So there is at most one least
//!   chain.
//!
//! # Invariants
//!
//! Each conversion is stored with the positions of the sources that accept its destination (`links_in`). So once the type at the start of
//! a chain has been looked up, the chain is found without comparing texts. The line numbers ascend, and no cost is above 10,000.
//!
//! # Errors
//!
//! The only error is out of memory.
//!
//! # Cost
//!
//! The search runs backwards from the wanted type. It computes 15 rows of least costs, one for each number of lines, and examines every
//! conversion a fixed number of times per row. It then takes the first conversion in each row that keeps the cost, so it never compares
//! lists of line numbers. [`Convs::filters`] looks up each filter by its line, which is at most 15 lookups. Reading takes a few lookups
//! per line in a map of the sources, which is filled from the last conversion to the first.
//!
//! `convs_code` is for values whose own code must be written by hand, such as values with finite maps next to the conversions.
#![tactic(auto)]

mod chain;
mod conversion;
mod convs;
mod costs;
mod laws;
mod links;
mod reading;

pub use chain::Chain;
pub use convs::Convs;
pub use laws::{least_law, order_law};
