// When a device fails, and the state after a failed call.

/// The faults of a device. There is no contract: whatever they do, a disk with these faults meets the promises of `Disk`.
pub trait Faults {
    /// Returns whether the device fails at this call.
    fn strikes(&mut self) -> bool;

    /// Leaves any bytes in the range of a write that fails, or in the buffer of a read that fails.
    fn leave(&mut self, range: &mut [u8]);
}
