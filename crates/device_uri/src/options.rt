//! The options of a device's URI.
ghost use Rattle.std.specs.Prelude.{◌≡◌, IfOk, map};
ghost use Rattle.form_urlencoded.specs.Form as form;
ghost use Rattle.device_uri.specs.UriOptions.{text_of, option_of, is_bad};

use form_urlencoded::{decode, raw_pairs};
use std::alloc::{AllocError, Global};
use std::marker::Model;

/// Why the options of a device's URI were rejected.
#[derive(Clone, Copy, PartialEq, Eq)]
pub enum OptionsFault {
    /// There are more than 64 pairs, or one has no name.
    BadOption,
    /// Out of memory.
    Memory,
}

impl From<AllocError> for OptionsFault {
    ghost use Rattle.device_uri.specs.declared.options.OptionsFault.TheVariants.{Memory};

    ghost from_gives = { λ _ e. e ≡ Memory };

    fn from(_error: AllocError) -> OptionsFault {
        OptionsFault::Memory
    }
}

// The maximum number of pairs of a query.
const MOST_PAIRS: usize = 64;

/// A name and its value in a URI's query. Contracts see it as the pair of their bytes.
#[derive(Drop)]
pub struct DeviceOption {
    name: String,
    value: String,
}

impl Model for DeviceOption {
    ghost use Rattle.std.specs.Prelude.{List, ℕ};
    ghost use Rattle.std.specs.String.{string_bytes};

    ghost Value = { List ℕ × List ℕ };

    ghost view = { λ a. (string_bytes a.name, string_bytes a.value) };
}

impl DeviceOption {
    /// Returns the decoded name.
    pub fn name(&self) -> &str
        ensures { result.now ≡ self.now.0 }
    {
        self.name.as_str()
    }

    /// Returns the decoded value.
    pub fn value(&self) -> &str
        ensures { result.now ≡ self.now.1 }
    {
        self.value.as_str()
    }
}

/// Returns whether a query has too many pairs, or one without a name.
pub fn has_bad_pair(query: &[u8]) -> bool
    ensures { result ≡ is_bad (form.raw_pairs query.now) }
{
    let mut count = 0;
    for (name, _) in raw_pairs(query) {
        if name.is_empty() || count == MOST_PAIRS {
            return true;
        }
        count += 1;
    }
    false
}

/// Returns the decoded pairs of a query.
pub fn read_options(alloc: Global, query: &[u8]) -> Result<Vec<DeviceOption>, AllocError>
    ensures { IfOk result (λ options. options.items ≡ map option_of (form.raw_pairs query.now)) }
{
    let mut options = Vec::new(alloc);
    for (name, value) in raw_pairs(query) {
        let option = read_option(alloc, name, value)?;
        options.push(option)?;
    }
    Ok(options)
}

fn read_option(alloc: Global, name: &[u8], value: &[u8]) -> Result<DeviceOption, AllocError>
    ensures { IfOk result (λ option. option ≡ option_of (name.now, value.now)) }
{
    Ok(DeviceOption {
        name: decode(alloc, name)?.into_owned(alloc)?,
        value: decode(alloc, value)?.into_owned(alloc)?,
    })
}
