//! The URIs of devices, and the lines with which backends report devices.
//!
//! A [`DeviceUri`] is the destination of a backend: an absolute URL of the URL Standard, whose query contains the backend's options. A
//! [`DeviceLine`] is the line that a backend prints for each device that it knows, if it runs without arguments (backend(7)): its class,
//! its URI, its make and model, a description, and optionally its device ID and its location.
//!
//! `specs/` defines them:
//!
//! - `DeviceUris`, `UriOptions`: a URI is seen as its text and the URL record that `parse_url` of `url` reads from it without a base. Its
//!   options are the pairs of the record's query, as `form_urlencoded` splits and decodes them.
//! - `QuotedFields`, `BackendLines`: a line is its fields in order, separated by blanks. The last four are in quotes. `Quotes` of
//!   `line_words` defines the meaning of a backslash in them, and every other byte is literal. Nothing precedes the class, and nothing
//!   follows the last quote: no blank, and no carriage return.
//!
//! # Promises
//!
//! - *ExactUri*: [`DeviceUri::parse`] returns Ok only for a text within the limits of a queue's URI that the URL parser accepts, and
//!   stores the text unchanged, with its record (`value`, `record`, `device`, by `Reads`). It returns BadUri for every text beyond the
//!   limits (`limits`), and otherwise only if the parser rejects the text for another reason than its size (`bad`, `no_device`, by
//!   `IsBadUri`). [`DeviceUri::scheme`] and [`DeviceUri::path`] are the record's, and [`DeviceUri::text`] is the text.
//!   [`DeviceUri::options`] returns exactly the decoded pairs in order (`value`, by `options_of`), and BadOption exactly if there are
//!   more than 64 or one has no name (`bad`, by `is_bad`).
//! - *ExactLine*: [`read_device_line`] returns Ok only for a device line, with its fields (`value`, by `IsDeviceLine`), and BadLine only
//!   if no fields have that line (`bad`).
//!
//! # Errors
//!
//! Memory means out of memory, or a URL of 4 GB or more, which the URL parser rejects for its size. Nothing has changed then. The number
//! and the names of options are checked before memory is allocated. The quoted fields of a device line are stored as bytes, since they
//! need not be UTF-8.
#![tactic(auto)]

mod fields;
mod line;
mod options;
mod uri;

pub use fields::Field;
pub use line::{DeviceClass, DeviceClassKind, DeviceLine, LineFault, read_device_line};
pub use options::{DeviceOption, OptionsFault};
pub use uri::{DeviceUri, UriFault};
