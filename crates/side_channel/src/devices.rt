//! The properties of a device for the side channel.
ghost use Rattle.std.specs.Prelude.{◌≡◌, ◌↔◌, ◌≤◌, [], length, IsSome, IfSome};

use std::alloc::Global;
use std::marker::Model;

/// A device's id (IEEE 1284), of at most 1,000 bytes.
#[derive(Drop)]
pub struct DeviceId {
    bytes: Vec<u8>,
}

impl Model for DeviceId {
    ghost use Rattle.std.specs.Prelude.{◌≤◌, List, ℕ, length};

    ghost Value = { List ℕ };

    ghost view = { λ a. a.bytes.items };

    ghost invariant = { λ a. length a.bytes.items ≤ 1000 };
}

impl DeviceId {
    /// The maximum number of bytes of an id.
    pub const MOST: usize = 1000;

    /// Returns an id of these bytes, if there are at most [`DeviceId::MOST`]. Allocates nothing.
    pub fn new(bytes: Vec<u8>) -> Option<DeviceId>
        ensures fits { IsSome result ↔ (length bytes.items ≤ 1000) }
        ensures value { IfSome result (λ id. id ≡ bytes.items) }
    {
        if bytes.len() <= DeviceId::MOST {
            Some(DeviceId { bytes })
        } else {
            None
        }
    }

    /// Returns the id of a device without one. Allocates nothing.
    pub fn empty(alloc: Global) -> DeviceId
        ensures { result ≡ [] }
    {
        DeviceId {
            bytes: Vec::new(alloc),
        }
    }

    /// Returns the bytes.
    pub fn as_slice(&self) -> &[u8]
        ensures value { result.now ≡ self.now }
        ensures bound { length result.now ≤ 1000 }
    {
        &self.bytes
    }

    /// Returns the bytes.
    pub fn into_vec(self) -> Vec<u8>
        ensures { result.items ≡ self }
    {
        self.bytes
    }
}

/// The properties of a device.
#[derive(Drop)]
pub struct Device {
    /// Whether the device is bidirectional.
    pub bidi: bool,
    /// Whether the device is connected.
    pub connected: bool,
    /// The bits of its state, from [`state_bits`](crate::state_bits).
    pub state: u8,
    pub id: DeviceId,
}
