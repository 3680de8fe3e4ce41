//! The options that a backend reads from its device's URI.
//!
//! The options are the pairs of the URI's query (`device_uri`), as for the backends of CUPS (backend(7)). A backend looks up the names
//! that it knows, and ignores the others. Only this crate defines which options a backend reads, which of two values counts, and the
//! meaning of options that cannot be read. The small backends and the spooler's side channel use it. The engine does not, so it is
//! separate from `device_uri`.
//!
//! # Promises
//!
//! - [`options_or_none`] returns exactly all options in order, or none if one has no name or there are more than 64 (`options_or_none`).
//!   Without options each option has its default.
//! - [`last_value`] returns exactly the value of the last option of a name, as programs usually read a query that repeats a name
//!   (`last_value`).
//!
//! # Errors
//!
//! The only error is out of memory, and only [`options_or_none`] returns it. Nothing has changed then.
#![tactic(auto)]

ghost use Rattle.std.specs.Prelude.{◌≡◌, IfOk};
ghost use Rattle.std.specs.Option.{option_map};
ghost use Rattle.device_options.specs.DeviceOptions.{last_value, options_or_none};

use device_uri::{DeviceOption, DeviceUri, OptionsFault};
use std::alloc::{AllocError, Global};

/// Returns the options of a device, or none if they cannot be read: one has no name, or there are more than 64.
pub fn options_or_none(alloc: Global, uri: &DeviceUri) -> Result<Vec<DeviceOption>, AllocError>
    ensures { IfOk result (λ options. options.items ≡ options_or_none uri.now.url) }
{
    match uri.options() {
        Ok(options) => Ok(options),
        Err(OptionsFault::BadOption) => Ok(Vec::new(alloc)),
        Err(OptionsFault::Memory) => Err(AllocError),
    }
}

/// Returns the value of the last option of this name, compared byte for byte. It may be empty. Returns `None` if no option has the name.
pub fn last_value<'a>(options: &'a [DeviceOption], name: &str) -> Option<&'a str>
    ensures { option_map (λ value. value.now) result ≡ last_value name.now options.now }
{
    let mut found = None;
    for option in options {
        if option.name() == name {
            found = Some(option.value());
        }
    }
    found
}
