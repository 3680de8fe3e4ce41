//! The replies to `room` and `now`.
ghost use Rattle.std.specs.Prelude.{◌≡◌, ◌++◌, OnOk};
ghost use Rattle.service_texts.specs.MeasuredTexts.{now_text, room_text};

use std::alloc::AllocError;
use std::io::Write;

/// Appends the reply to `room`: the length of the greatest document that is accepted now.
pub fn push_room(text: &mut Vec<u8>, bytes: u64) -> Result<(), AllocError>
    ensures { OnOk result (text.new.items ≡ text.old.items ++ room_text bytes) }
{
    write!(text, "ok room {bytes}\n").map_err(|_| AllocError)
}

/// Appends the reply to `now`: the moment of the service.
pub fn push_now(text: &mut Vec<u8>, moment: u64) -> Result<(), AllocError>
    ensures { OnOk result (text.new.items ≡ text.old.items ++ now_text moment) }
{
    write!(text, "ok now {moment}\n").map_err(|_| AllocError)
}
