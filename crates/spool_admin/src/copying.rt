//! Copying bytes of one disk to the beginning of another.
ghost use Rattle.std.specs.Prelude.{◌≡◌, ◌+◌, ◌≤◌, List, ℕ, Some, OnOk, take, drop};
ghost use Rattle.std.specs.Option.{option_map};
ghost use Rattle.spool_disk.specs.Disk.{ChangesNothing, overwritten};
ghost use Rattle.spool_admin.specs.Grown.{copied_over};

use spool_disk::{DeviceFault, Disk};

// Number of bytes copied at once.
const PIECE: usize = 65_536;

/// Copies `count` bytes of a disk, from offset `from` on, to the beginning of another. After a fault any of these may have any
/// value.
pub fn copy<S: Disk, T: Disk>(
    source: &mut S,
    from: u64,
    count: u64,
    target: &mut T,
) -> Result<(), DeviceFault>
    requires inside { from + count ≤ S.device.size source.old }
    requires room { count ≤ T.device.size target.old }
    ensures copied { OnOk result ((r t : List ℕ) → S.device.bytes source.old ≡ Some r → T.device.bytes target.old ≡ Some t →
        T.device.bytes target.new ≡ Some (copied_over from count r t)) }
    ensures still { ChangesNothing S.device source.old source.new }
    ensures fixed { T.device.size target.new ≡ T.device.size target.old }
{
    // The clause of this call states that the device's offsets fit their type.
    let _size = source.len();
    let mut piece = [0; PIECE];
    let mut rest = count;
    while rest > 0 {
        let done = count - rest;
        let len = rest.min(PIECE as u64);
        copy_piece(source, from + done, target, done, &mut piece, len)?;
        rest -= len;
    }
    Ok(())
}

// Copies `len` bytes through the buffer.
fn copy_piece<S: Disk, T: Disk>(
    source: &mut S,
    from: u64,
    target: &mut T,
    to: u64,
    piece: &mut [u8; PIECE],
    len: u64,
) -> Result<(), DeviceFault>
    requires short { len ≤ 65536 }
    requires inside { from + len ≤ S.device.size source.old }
    requires room { to + len ≤ T.device.size target.old }
    ensures copied { OnOk result ((r : List ℕ) → S.device.bytes source.old ≡ Some r →
        T.device.bytes target.new ≡ option_map (overwritten to (take len (drop from r))) (T.device.bytes target.old)) }
    ensures still { ChangesNothing S.device source.old source.new }
    ensures fixed { T.device.size target.new ≡ T.device.size target.old }
{
    let bytes = &mut piece[..len as usize];
    source.read(from, bytes)?;
    target.write(to, bytes)
}
