//! Detects the media type of a document from its name and contents, by the rules of a file of mime.types(5).
//!
//! # The rules
//!
//! A line is a media type and a list of rules. Lines joined by backslashes are one line, and blank lines and comments are skipped
//! (`mime_lines`). Each line is an alternative: a document has the type if the list is true of it.
//!
//! - A list consists of items, separated by blanks or commas, and is true if any item is true. An item consists of factors, joined by `+`
//!   or `&&`, and is true if all of them are true. A factor is `!` and a factor, a list in parentheses, or a test. Blanks next to `+` and
//!   `&&` and after `!` are ignored. Parentheses are nested at most 16 deep.
//! - A bare word tests the name: the name must end with a dot and the word, compared without regard to case. `match(p)` also tests the
//!   name (`*`, `?` and sets). `ascii(o,n)`, `printable(o,n)` and `contains(o,n,t)` test the n bytes from byte offset o on.
//!   `string(o,t)`, `istring(o,t)`, `char(o,v)`, `short(o,v)` and `int(o,v)` test the bytes at o. `locale(t)` tests the locale.
//! - `priority(n)` is no test. Its item ignores it. The last one of a line sets the priority: 0 to 200, by default 100. An item without
//!   tests is false.
//! - A text consists of bare bytes, bytes in quotes, and pairs of hexadecimal digits in `<>`. A value is a number, or a text of its
//!   width.
//! - The pattern of `match` continues at the first position where the bytes between two stars match. It never backtracks further.
//! - A token that cannot be read is an error only if the grammar reaches it.
//!
//! Of the true alternatives the one with the highest priority wins. Of those with equal priorities it is the type that is alphabetically
//! first.
//!
//! cegmandi_programs(5) lists the differences from CUPS, and `text_examples` has examples.
//!
//! # Promises
//!
//! *ExactTyping*: only the file's text determines which alternatives and warnings are read, and the definitions name the result.
//!
//! - [`Types::read`] returns exactly the alternatives of the text, in order (`types`, by `alternatives_of`), and its warnings
//!   (`warnings`, by `warnings_of`): for each invalid line its number and the kind of its first error from left to right
//!   (`specs/RuleLines`). A line is defined in two steps: its tokens up to the first that cannot be read (`Tokens`, with `TestArguments`
//!   and `Patterns`), and the grammar over them by recursive descent (`RuleGrammar`). The meaning of a rule is a function that is true or
//!   false for each name, bytes and locale (`Tests`).
//! - [`Types::type_of`] returns exactly the type of the `best` of the true alternatives (`value`, `BestType`). It allocates nothing and
//!   cannot fail.
//! - [`Types::reach`] returns the number of first bytes that the rules examine (`value`). These bytes have the type of the whole document
//!   (`enough`). The number is the greatest end of a range that a rule examines, and at most the length of the document (`Reach`). Every
//!   range has an end. A rule such as `contains(0,4294967295,t)` makes it the whole document.
//! - [`best_law`]: the best is a true alternative that no true one beats, and all such alternatives have one type. If none is best, no
//!   alternative is true. [`order_law`]: the order is strict, and of any two alternatives of different type or priority one beats the
//!   other.
//!
//! Contracts see [`Types`] as its alternatives, each with its rule as a tree (`TypesValue`): the meaning of a rule is a function, which
//! the value of a model cannot contain. `types_of` maps the trees to their meanings.
//!
//! # Errors
//!
//! The only error is out of memory, and only [`Types::read`] returns it.
//!
//! # Cost
//!
//! Reading a file takes time in proportion to its text, and allocates the rules. [`Types::type_of`] reads the range of each rule at most
//! once: `contains` is one search by the Two-Way algorithm. A pattern takes at most the length of the name times its own length, since
//! only the last run before a mismatch is tried again.
#![tactic(auto)]

mod arguments;
mod grammar;
mod laws;
mod line;
mod meaning;
mod names;
mod pattern;
mod reach;
mod rule;
mod stop;
mod tokens;
mod types;

pub use laws::{best_law, order_law};
pub use types::Types;
