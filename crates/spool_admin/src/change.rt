//! The change of a queue that the words request.
ghost use Rattle.std.specs.Prelude.{◌≡◌, ◌≤◌, ◌⊎◌, false, IfErr, IfOk, IfSome, IsTrue};
ghost use Rattle.std.specs.Option.{option_map};
ghost use Rattle.std.specs.Str.{str_to_ascii_lowercase};
ghost use Rattle.spool_types.specs.Values.{is_media_type};
ghost use Rattle.device_uri.specs.DeviceUris.{is_device_uri};
ghost use Rattle.spool_runtime.specs.declared.fault.ShellFault.TheVariants.{Memory};
ghost use Rattle.spool_admin.specs.declared.fault.AdminFault.TheVariants.{BadMedia, BadUri, Shell};
ghost use Rattle.spool_admin.specs.QueueArguments.{AreInRange, IsChangeOf, IsOfChange, IsOfMedia, IsOfUri};

use crate::fault::AdminFault;
use crate::queue_words::SetWords;
use device_uri::{DeviceUri, UriFault};
use queue_edits::QueueChange;
use spool_types::{Interval, MediaType, TextFault, Uri};
use std::alloc::{AllocError, Global};

/// Returns the change that the words request. A URI must be that of a device, and a media type one.
pub fn change_in(alloc: Global, words: &SetWords<'_>) -> Result<QueueChange, AdminFault>
    requires { AreInRange words.now }
    ensures change { IfOk result (IsChangeOf words.now) }
    ensures fault { IfErr result (IsOfChange words.now) }
{
    let uri = uri_in(alloc, words.uri)?;
    let media = media_in(alloc, words.media)?;
    Ok(QueueChange {
        uri,
        media,
        policy: words.policy,
        interval: interval_in(words.interval),
        limit: limit_in(words.limit),
    })
}

fn uri_in(alloc: Global, given: Option<&str>) -> Result<Option<Uri>, AdminFault>
    ensures uri { IfOk result (λ uri. uri ≡ option_map (λ text. text.now) given.entry) }
    ensures fault { IfErr result (IsOfUri (option_map (λ text. text.now) given.entry)) }
{
    match given {
        Some(text) => Ok(Some(uri_of(alloc, text)?)),
        None => Ok(None),
    }
}

fn uri_of(alloc: Global, text: &str) -> Result<Uri, AdminFault>
    ensures uri { IfOk result (λ uri. (uri ≡ text.now) × IsTrue (is_device_uri text.now)) }
    ensures fault { IfErr result (λ fault. (fault ≡ Shell Memory) ⊎ ((fault ≡ BadUri) × (is_device_uri text.now ≡ false))) }
{
    match DeviceUri::parse(alloc, text) {
        Ok(uri) => drop(uri),
        Err(UriFault::BadUri) => return Err(AdminFault::BadUri),
        Err(UriFault::Memory) => return Err(AdminFault::from(AllocError)),
    }
    match Uri::read(alloc, text) {
        Ok(uri) => Ok(uri),
        Err(TextFault::Bad) => Err(AdminFault::BadUri),
        Err(TextFault::Memory) => Err(AdminFault::from(AllocError)),
    }
}

fn media_in(alloc: Global, given: Option<&str>) -> Result<Option<MediaType>, AdminFault>
    ensures media { IfOk result (λ media. media ≡ option_map (λ text. str_to_ascii_lowercase text.now) given.entry) }
    ensures fault { IfErr result (IsOfMedia (option_map (λ text. text.now) given.entry)) }
{
    match given {
        Some(text) => Ok(Some(media_of(alloc, text)?)),
        None => Ok(None),
    }
}

fn media_of(alloc: Global, text: &str) -> Result<MediaType, AdminFault>
    ensures media { IfOk result (λ media. media ≡ str_to_ascii_lowercase text.now) }
    ensures fault { IfErr result (λ fault. (fault ≡ Shell Memory) ⊎ ((fault ≡ BadMedia) × (is_media_type (str_to_ascii_lowercase text.now) ≡ false))) }
{
    match MediaType::read(alloc, text) {
        Ok(media) => Ok(media),
        Err(TextFault::Bad) => Err(AdminFault::BadMedia),
        Err(TextFault::Memory) => Err(AdminFault::from(AllocError)),
    }
}

fn interval_in(given: Option<u64>) -> Option<Interval>
    requires { IfSome given (λ n. n ≤ 86400) }
    ensures { result ≡ given }
{
    match given {
        Some(seconds) => Interval::new(seconds as u32),
        None => None,
    }
}

fn limit_in(given: Option<u64>) -> Option<u16>
    requires { IfSome given (λ n. n ≤ 65535) }
    ensures { result ≡ given }
{
    match given {
        Some(limit) => Some(limit as u16),
        None => None,
    }
}
