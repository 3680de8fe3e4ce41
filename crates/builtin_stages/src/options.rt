//! The options of a device's URI that the backends use.
//!
//! | Option | Backend | Value | Default |
//! |---|---|---|---|
//! | `replace` | `spoolfile` | any; an existing file is replaced in place | a new file takes its name |
//! | `exit` | `spoolfile` | the exit status, 0 to 255 | 0 |
//! | `partner` | `meet` | the name of the partner's file | none |
//! | `turns` | `meet` | the number of checks, up to 4,294,967,295 | 20 |
//! | `contimeout` | `appsocket` | the seconds to try to connect, up to 4,294,967,295; 0 for the limit of the system | 30 |
//! | `endtimeout` | `appsocket` | the seconds to wait until the printer closes the connection, up to 4,294,967,295 | 90 |
//!
//! [`crate::connection_ends`] has the options `waiteof` and `afterlast` of `appsocket`.
//!
//! If an option is repeated, the last one counts. A value that is not a number in its range is replaced by the default. If the URI has more
//! than 64 options, or one without a name, all have their defaults.
ghost use Rattle.std.specs.Prelude.{◌≡◌, codes, unwrap_or};
ghost use Rattle.std.specs.Option.{option_map};
ghost use Rattle.device_options.specs.DeviceOptions.{last_value};
ghost use Rattle.builtin_stages.specs.BackendOptions.{connect_seconds_of, end_seconds_of, exit_of, number_of, replaces_in_place, turns_of};

use crate::numbers::ranged;
use device_options::last_value;
use device_uri::DeviceOption;

/// Returns the exit status of `spoolfile`.
pub fn exit_of(options: &[DeviceOption]) -> u8
    ensures { result ≡ exit_of options.now }
{
    number_of(options, "exit", 255, 0) as u8
}

/// Returns whether `spoolfile` replaces the contents of an existing file in place.
pub fn replaces_in_place(options: &[DeviceOption]) -> bool
    ensures { result ≡ replaces_in_place options.now }
{
    last_value(options, "replace").is_some()
}

/// Returns how often `meet` checks for its partner.
pub fn turns_of(options: &[DeviceOption]) -> u32
    ensures { result ≡ turns_of options.now }
{
    number_of(options, "turns", u32::MAX, 20)
}

/// Returns the seconds that `appsocket` tries to connect, or 0 for the limit of the system.
pub fn connect_seconds_of(options: &[DeviceOption]) -> u32
    ensures { result ≡ connect_seconds_of options.now }
{
    number_of(options, "contimeout", u32::MAX, 30)
}

/// Returns the seconds that `appsocket` waits until the printer closes the connection.
pub fn end_seconds_of(options: &[DeviceOption]) -> u32
    ensures { result ≡ end_seconds_of options.now }
{
    number_of(options, "endtimeout", u32::MAX, 90)
}

/// Returns the name of the partner's file.
pub fn partner_of(options: &[DeviceOption]) -> Option<&str>
    ensures { option_map (λ name. name.now) result ≡ last_value (codes "partner") options.now }
{
    last_value(options, "partner")
}

// Returns the number of the option, or the default.
fn number_of(options: &[DeviceOption], name: &str, most: u32, default: u32) -> u32
    ensures { result ≡ number_of name.now most default options.now }
{
    match last_value(options, name) {
        Some(value) => ranged(value, 0, most).unwrap_or(default),
        None => default,
    }
}
