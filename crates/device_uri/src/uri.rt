//! A device's URI.
ghost use Rattle.std.specs.Prelude.{◌≡◌, ◌↔◌, [], false, unwrap_or, IfOk, OnOk, IsErrOf, IsTrue};
ghost use Rattle.spool_types.specs.Values.{is_uri};
ghost use Rattle.device_uri.specs.DeviceUris.{Reads, IsBadUri, is_device_uri};
ghost use Rattle.device_uri.specs.UriOptions.{pairs_of, options_of, is_bad};

use crate::options::{DeviceOption, OptionsFault, has_bad_pair, read_options};
use spool_types::{TextFault, Uri};
use std::alloc::{AllocError, Global};
use std::marker::Model;
use url::{ParseError, Url};

/// Why a device's URI was rejected.
#[derive(Clone, Copy, Debug, PartialEq, Eq)]
pub enum UriFault {
    /// The text is beyond the limits of a queue's URI, or is not an absolute URL.
    BadUri,
    /// Out of memory.
    Memory,
}

impl From<AllocError> for UriFault {
    ghost use Rattle.device_uri.specs.declared.uri.UriFault.TheVariants.{Memory};

    ghost from_gives = { λ _ e. e ≡ Memory };

    fn from(_error: AllocError) -> UriFault {
        UriFault::Memory
    }
}

/// A device's URI: an absolute URL (URL Standard), stored with the text that it was read from.
#[derive(Drop)]
pub struct DeviceUri {
    // The allocator of the options.
    alloc: Global,
    text: Uri,
    url: Url,
}

impl Model for DeviceUri {
    ghost use Rattle.device_uri.specs.DeviceUris.{Device, device_code};

    ghost Value = { Device };

    ghost coded = { device_code };

    ghost use Rattle.device_uri.specs.DeviceUris.{Reads};

    ghost view = { λ a. record { text = a.text; url = a.url } };

    ghost invariant = { λ a. Reads a.text a.url };
}

impl DeviceUri {
    /// Reads a text of 1 to 1,023 bytes of ASCII without blanks that the parser of the URL Standard accepts without a base.
    pub fn parse(alloc: Global, text: &str) -> Result<DeviceUri, UriFault>
        ensures value { IfOk result (λ uri. uri.text ≡ text.now) }
        ensures record { IfOk result (λ uri. Reads text.now uri.url) }
        ensures device { OnOk result (IsTrue (is_device_uri text.now)) }
        ensures bad { IsErrOf result UriFault.BadUri → IsBadUri text.now }
        ensures no_device { IsErrOf result UriFault.BadUri → is_device_uri text.now ≡ false }
        ensures limits { is_uri text.now ≡ false → IsErrOf result UriFault.BadUri }
    {
        let kept = match Uri::read(alloc, text) {
            Ok(kept) => kept,
            Err(TextFault::Bad) => return Err(UriFault::BadUri),
            Err(TextFault::Memory) => return Err(UriFault::Memory),
        };
        match Url::parse(alloc, text) {
            Ok(url) => Ok(DeviceUri {
                alloc,
                text: kept,
                url,
            }),
            Err(ParseError::Overflow | ParseError::OutOfMemory) => Err(UriFault::Memory),
            Err(_) => Err(UriFault::BadUri),
        }
    }

    /// Returns the text unchanged.
    pub fn text(&self) -> &str
        ensures value { result.now ≡ self.now.text }
        ensures record { Reads self.now.text self.now.url }
    {
        self.text.as_str()
    }

    /// Returns the scheme, in lower case and without its colon.
    pub fn scheme(&self) -> &str
        ensures value { result.now ≡ self.now.url.scheme }
    {
        self.url.scheme()
    }

    /// Returns the path, percent-encoded.
    pub fn path(&self) -> &str
        ensures value { result.now ≡ self.now.url.path }
    {
        self.url.path()
    }

    /// Returns the decoded pairs of the query in order, or an empty list if there is no query. A value may be empty.
    pub fn options(&self) -> Result<Vec<DeviceOption>, OptionsFault>
        ensures value { IfOk result (λ options. options.items ≡ options_of self.now.url) }
        ensures bad { IsErrOf result OptionsFault.BadOption ↔ IsTrue (is_bad (pairs_of self.now.url)) }
    {
        let query = self.query();
        if has_bad_pair(query) {
            return Err(OptionsFault::BadOption);
        }
        match read_options(self.alloc, query) {
            Ok(options) => Ok(options),
            Err(_) => Err(OptionsFault::Memory),
        }
    }

    // Returns the query, or no bytes if there is none.
    fn query(&self) -> &[u8]
        ensures { result.now ≡ unwrap_or self.now.url.query [] }
    {
        match self.url.query() {
            Some(query) => query.as_bytes(),
            None => &[],
        }
    }
}
