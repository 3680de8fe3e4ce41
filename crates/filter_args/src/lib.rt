//! The input of a filter or a backend apart from the document: the options of its job, its arguments, its environment, and its files.
//!
//! # Options
//!
//! A text of options consists of words separated by blanks (spaces and tabs). A word is a name, or a name, `=` and a value. A name
//! consists of letters, digits, `-`, `_` and `.`, and is not empty. In a value `'` and `"` quote, and a backslash takes the next byte
//! literally, in quotes too. A blank ends a word only outside of both. A name alone is true: `duplex` is `duplex=true`. A name alone with
//! `no` before it is false: `nocollate` is `collate=false` (filter(7)). `no` itself is a name. A repeated name keeps its position and
//! takes the last value. A value that begins with a bare `{` would be a collection, which is rejected.
//!
//! # Promises
//!
//! - *ExactOptions*: [`Options::parse`] returns exactly the options of the text, or its first error from the left (`value`, by `reading`
//!   of `specs/OptionTexts.antt`). It reports out of memory only for a text without an error (`memory`). [`Options::print`] returns
//!   exactly their text (`value`), which is read as these options again (`read_back`). [`Options::get`] returns the value of a name.
//! - [`words`] returns exactly the arguments of a job (`specs/FilterArguments.antt`), [`environment`] its variables
//!   (`specs/Environment.antt`), and [`ChildFile::path`] the path of a child's file (`specs/Files.antt`). They are fixed lists over the
//!   job, its queue and the [`Place`] of the children.
//!
//! # Errors
//!
//! [`OptionFault`] lists the errors of a text of options. `Memory` is returned only if an allocation failed. [`Options::get`] cannot
//! fail. The only error of the other functions is out of memory.
//!
//! # Cost
//!
//! A text is read in time linear in its length: first for its errors, without memory, and then for its pairs. Names, and values without
//! quotes and backslashes, are borrowed from the text. The other values and the map of the names are allocated. [`Options::get`]
//! allocates nothing.
#![tactic(auto)]

mod arguments;
mod fault;
mod files;
mod options;
mod place;
mod printing;
mod reading;
mod variables;

pub use arguments::words;
pub use fault::OptionFault;
pub use files::ChildFile;
pub use options::Options;
pub use place::Place;
pub use reading::is_option_name;
pub use variables::environment;
