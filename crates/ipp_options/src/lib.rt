//! Job attributes of the Internet Printing Protocol (IPP) as the words and the options of a job, and back.
//!
//! # The attributes
//!
//! - `copies` and `job-priority` are words of `create`.
//! - `job-hold-until` and `job-hold-until-time` become the [`Hold`] of the job.
//! - `job-sheets` may only be `none`, since the spooler prints no banners. Likewise the attributes of other holds and of banners that the
//!   spooler does not have, such as `job-sheets-col` and `job-delay-output-until` (`absent_names` of `specs/JobSettings.antt`).
//! - `media`, `sides`, `number-up`, `orientation-requested`, `page-ranges`, `print-quality`, `print-color-mode`, `print-scaling`,
//!   `printer-resolution`, `output-bin`, `finishings` and `multiple-document-handling` become options of the same name, if the printer
//!   supports the value. Their values are written as CUPS's scheduler does: a range is `1-3` or `7`, a resolution `600x600dpi`.
//! - `media-col` becomes the option `media`, if its size is at most half a millimetre from one of the printer. Margins are ignored. With
//!   any other member that has another value than the usual one the attribute is returned too, as not supported in full.
//! - Any other attribute with one keyword, name, text, integer or boolean becomes an option, as those of a PPD file do, but not with
//!   fidelity. An attribute whose name begins with `job-` does not, and `submission` does not, which is the spooler's own option.
//!
//! Any other attribute with a value that the printer does not support has no effect and is returned, and so is one whose value has a
//! control character. With fidelity the request is refused.
//!
//! # Promises
//!
//! - *ExactSettings*: [`read_settings`] returns exactly the words, the hold and the options that the attributes ask for, in their order,
//!   and the attributes that the printer does not support (`copies`, `priority`, `hold`, `options`, `unsupported`, by `settings_of` of
//!   `specs/JobSettings.antt`).
//! - *NoInjection*: the text of the options reads back as exactly these options (`read_back`). So no value ends an option and begins
//!   another.
//! - *HoldKept*: if the request is accepted, the job has the hold of each attribute that asks for one, and no attribute asks for a banner or
//!   for a hold of another kind (`hold_kept`, by `IsKept` of `specs/KeptHolds.antt`). A hold that is not supported, two different holds, or
//!   a banner refuse the request.
//! - *Fidelity*: a request is accepted exactly if nothing forbids it (`accepted`, `fault`, by `is_refused`). With fidelity that is any
//!   attribute that the printer does not support.
//! - *StatedOptions*: [`stated_attributes`] returns exactly the job template attributes that a client asks for and that the options of a
//!   job state (`answered` of `requested_attributes`, over `stated_rows` of `specs/StatedAttributes.antt`). An option whose text is no value
//!   of the attribute is absent. An attribute with a word or a single number becomes the same option if a client asks for it again
//!   ([`stated_values_are_taken_again`]). `copies`, `job-priority` and the hold are words of the job, which `ipp_answers` returns.
//! - [`hold_in`] and [`hold_time_in`] return exactly the hold of a value (`value`). [`Hold::keyword`] returns the word of a hold without a
//!   moment (`value`), which is read as this hold again (`read_back`).
//!
//! # Errors
//!
//! [`SettingsFault`] lists them. A refused request changes nothing. `TooLong` is returned only for options whose text has more than 2,048
//! bytes (`fault`). The only error of [`stated_attributes`] is out of memory.
//!
//! # Cost
//!
//! Each attribute is compared with the names of a fixed table, and read once. Values that need no quoting are borrowed until the text is
//! made.
#![tactic(auto)]

mod choice;
mod hold;
mod laws;
mod moments;
mod paper;
mod read;
mod settings;
mod stated;
mod values;
mod words;

pub use hold::{Hold, hold_in, hold_time_in};
pub use laws::stated_values_are_taken_again;
pub use read::{JobSettings, SettingsFault, read_settings};
pub use settings::Unsupported;
pub use stated::stated_attributes;
