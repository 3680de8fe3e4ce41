//! Reads the URI of a device that is a file.
ghost use Rattle.std.specs.Prelude.{◌≡◌, ◌⊎◌, IfErr, IfOk, IsErrOf, IsUtf8};
ghost use Rattle.std.specs.String.{string_bytes};
ghost use Rattle.percent_encoding.specs.Percent.{percent_decode};
ghost use Rattle.device_uri.specs.DeviceUris.{IsBadUri, Reads};
ghost use Rattle.builtin_stages.specs.ToolDevices.{IsDevice, IsNoDevice};

use crate::fault::ToolFault;
use device_options::options_or_none;
use device_uri::{DeviceOption, DeviceUri, UriFault};
use percent_encoding::{DecodeError, percent_decode};
use std::alloc::Global;

/// The file and the options that a device's URI names.
#[derive(Drop)]
pub struct Device {
    /// The URI's path, decoded.
    pub path: String,
    /// Empty if they cannot be read, so that each has its default.
    pub options: Vec<DeviceOption>,
}

/// Reads the URI of a device. Fails with `Device` or `Memory`.
pub fn read_device(alloc: Global, text: &str) -> Result<Device, ToolFault>
    ensures value { IfOk result (λ device. IsDevice device text.now) }
    ensures refused { IsErrOf result ToolFault.Device → IsNoDevice text.now }
    ensures faults { IfErr result (λ fault. (fault ≡ ToolFault.Device) ⊎ (fault ≡ ToolFault.Memory)) }
{
    let uri = read_uri(alloc, text)?;
    let path = read_path(alloc, uri.path())?;
    let options = options_or_none(alloc, &uri)?;
    Ok(Device { path, options })
}

/// Reads the URI of a device of any kind.
pub(crate) fn read_uri(alloc: Global, text: &str) -> Result<DeviceUri, ToolFault>
    ensures value { IfOk result (λ uri. Reads text.now uri.url) }
    ensures refused { IsErrOf result ToolFault.Device → IsBadUri text.now }
    ensures faults { IfErr result (λ fault. (fault ≡ ToolFault.Device) ⊎ (fault ≡ ToolFault.Memory)) }
{
    match DeviceUri::parse(alloc, text) {
        Ok(uri) => Ok(uri),
        Err(UriFault::BadUri) => Err(ToolFault::Device),
        Err(UriFault::Memory) => Err(ToolFault::Memory),
    }
}

// Returns the name of the file that a path represents.
fn read_path(alloc: Global, path: &str) -> Result<String, ToolFault>
    ensures value { IfOk result (λ name. string_bytes name ≡ percent_decode path.now) }
    ensures refused { IsErrOf result ToolFault.Device → ¬ (IsUtf8 (percent_decode path.now)) }
    ensures faults { IfErr result (λ fault. (fault ≡ ToolFault.Device) ⊎ (fault ≡ ToolFault.Memory)) }
{
    match percent_decode(path.as_bytes()).decode_utf8(alloc) {
        Ok(name) => Ok(name.into_owned(alloc)?),
        Err(DecodeError::Utf8(_)) => Err(ToolFault::Device),
        Err(DecodeError::OutOfMemory) => Err(ToolFault::Memory),
    }
}
