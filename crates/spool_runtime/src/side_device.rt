//! The device that the side channel describes, from the options of its URI.
//!
//! | Option | Value | Default |
//! |---|---|---|
//! | `bidi`, `connected` | `0` or `1` | `1` |
//! | `state` | a decimal number up to 255 | `1`, which is ONLINE |
//! | `id` | up to 1,000 bytes | empty |
//!
//! If two options have the same name, the last one counts. An option with an invalid value has its default. All have
//! their defaults if the URI or its options cannot be parsed.
ghost use Rattle.std.specs.Prelude.{◌≡◌, IfOk};
ghost use Rattle.std.specs.Option.{option_map};
ghost use Rattle.line_words.specs.DecimalNumbers.{decimal};
ghost use Rattle.spool_runtime.specs.SideDevice.{device_in, flag_in, id_in, options_in, state_in};

use device_options::{last_value, options_or_none};
use device_uri::{DeviceOption, DeviceUri, UriFault};
use line_words::decimal;
use side_channel::{Device, DeviceId};
use std::alloc::{AllocError, Global};

// The state of a device that specifies none: it is ready.
const ONLINE: u8 = 1;

/// Returns the device of a URI.
pub(crate) fn device_of(alloc: Global, uri: &str) -> Result<Device, AllocError>
    ensures { IfOk result (λ device. device ≡ device_in uri.now) }
{
    let options = options_of(alloc, uri)?;
    let id = id_of(alloc, last_value(&options, "id"))?;
    Ok(Device {
        bidi: flag_of(last_value(&options, "bidi")),
        connected: flag_of(last_value(&options, "connected")),
        state: state_of(last_value(&options, "state")),
        id,
    })
}

// Returns the options of a URI, or none if it is not a URI or they cannot be parsed.
fn options_of(alloc: Global, uri: &str) -> Result<Vec<DeviceOption>, AllocError>
    ensures { IfOk result (λ options. options.items ≡ options_in uri.now) }
{
    match DeviceUri::parse(alloc, uri) {
        Ok(uri) => options_or_none(alloc, &uri),
        Err(UriFault::BadUri) => Ok(Vec::new(alloc)),
        Err(UriFault::Memory) => Err(AllocError),
    }
}

fn flag_of(value: Option<&str>) -> bool
    ensures { result ≡ flag_in (option_map (λ value. value.now) value.entry) }
{
    match value {
        Some(text) => text != "0",
        None => true,
    }
}

fn state_of(value: Option<&str>) -> u8
    ensures { result ≡ state_in (option_map (λ value. value.now) value.entry) }
{
    match value {
        Some(text) => state_number(text.as_bytes()).unwrap_or(ONLINE),
        None => ONLINE,
    }
}

// Returns the number that the digits represent, of any count, if it is at most 255.
fn state_number(digits: &[u8]) -> Option<u8>
    ensures { result ≡ decimal 255 digits.now }
{
    u8::try_from(decimal(digits, 255)?).ok()
}

fn id_of(alloc: Global, value: Option<&str>) -> Result<DeviceId, AllocError>
    ensures { IfOk result (λ id. id ≡ id_in (option_map (λ value. value.now) value.entry)) }
{
    let Some(text) = value else {
        return Ok(DeviceId::empty(alloc));
    };
    if text.len() > DeviceId::MOST {
        return Ok(DeviceId::empty(alloc));
    }
    let mut bytes = Vec::new(alloc);
    bytes.extend_from_slice(text.as_bytes())?;
    Ok(DeviceId::new(bytes).unwrap())
}
