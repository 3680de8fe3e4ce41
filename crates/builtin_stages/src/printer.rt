//! Reads the URI of a network printer.
ghost use Rattle.std.specs.Prelude.{◌≡◌, ◌⊎◌, None, Some, unwrap_or, IfErr, IfOk, IsErrOf};
ghost use Rattle.device_uri.specs.DeviceUris.{Reads};
ghost use Rattle.url.specs.Host.{owned_host};
ghost use Rattle.url.specs.Parts.{Parts, nonempty_host};
ghost use Rattle.builtin_stages.specs.ToolDevices.{HasNoHost, IsNoPrinter, IsPrinter};

use crate::device::read_uri;
use crate::fault::ToolFault;
use device_options::options_or_none;
use device_uri::{DeviceOption, DeviceUri};
use std::alloc::Global;
use url::{Host, ParseError, Url};

// The port of a printer whose URI has none.
const USUAL_PORT: u16 = 9_100;

/// The host, the port and the options that a printer's URI names.
#[derive(Drop)]
pub struct Printer {
    pub host: Host<String>,
    pub port: u16,
    /// Empty if they cannot be read, so that each has its default.
    pub options: Vec<DeviceOption>,
}

/// Reads the URI of a printer. Fails with `Device` or `Memory`.
pub fn read_printer(alloc: Global, text: &str) -> Result<Printer, ToolFault>
    ensures value { IfOk result (λ printer. IsPrinter printer text.now) }
    ensures refused { IsErrOf result ToolFault.Device → IsNoPrinter text.now }
    ensures faults { IfErr result (λ fault. (fault ≡ ToolFault.Device) ⊎ (fault ≡ ToolFault.Memory)) }
{
    let uri = read_uri(alloc, text)?;
    let (host, port) = read_address(alloc, &uri)?;
    let options = options_or_none(alloc, &uri)?;
    Ok(Printer {
        host,
        port,
        options,
    })
}

// Returns the host and the port of the URI. Parses its text a second time, because `DeviceUri` has neither.
fn read_address(alloc: Global, uri: &DeviceUri) -> Result<(Host<String>, u16), ToolFault>
    ensures host { IfOk result (λ address. nonempty_host uri.now.url ≡ Some (owned_host address.0)) }
    ensures port { IfOk result (λ address. address.1 ≡ unwrap_or uri.now.url.port 9100) }
    ensures refused { IsErrOf result ToolFault.Device → nonempty_host uri.now.url ≡ None }
    ensures faults { IfErr result (λ fault. (fault ≡ ToolFault.Device) ⊎ (fault ≡ ToolFault.Memory)) }
{
    let url = match Url::parse(alloc, uri.text()) {
        Ok(url) => url,
        Err(ParseError::Overflow | ParseError::OutOfMemory) => return Err(ToolFault::Memory),
        // The text was parsed as a URL before.
        Err(_) => unreachable!(),
    };
    let Some(host) = url.host() else {
        return Err(ToolFault::Device);
    };
    let port = url.port().unwrap_or(USUAL_PORT);
    Ok((host.to_owned(alloc)?, port))
}
