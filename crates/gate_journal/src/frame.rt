// The frame that a caller passes: four free bytes, the payload, and one free byte.
ghost use Rattle.std.specs.Prelude.{◌≡◌, ◌<◌, ◌≤◌, ◌^◌, length};
ghost use Rattle.gate_journal.specs.Frame.{payload_of, framed};

// Writes the payload's length before it, and the closed gate after it.
pub(crate) fn fill(frame: &mut [u8])
    requires whole { 5 ≤ length frame.old }
    requires short { length frame.old < 2 ^ 32 }
    ensures { frame.new ≡ framed (payload_of frame.old) }
{
    let len = frame.len() - 5;
    frame[..4].copy_from_slice(&(len as u32).to_be_bytes());
    frame[len + 4] = 0;
}
