//! When to make a checkpoint, so that the journal does not fill up.
ghost use Rattle.std.specs.Prelude.{◌≡◌, ℕ, ◌+◌, ◌*◌, ◌≤◌, List, ◌∷◌};
ghost use Rattle.service_rules.specs.Bounds.{checkpoint_parts};
ghost use Rattle.service_rules.specs.Checkpoints.{all_took, ArePaidFor, is_paid_for, is_short, is_wanted, may_free, room_in};
ghost use Rattle.service_rules.specs.declared.checkpoints.Checkpoint.{Checkpoint as AnyCheckpoint};

use crate::bounds::CHECKPOINT_PARTS;

/// How many bytes of the journal are used, and its size.
#[derive(Clone, Copy)]
pub struct Room {
    pub used: u64,
    pub size: u64,
}

/// The room of a journal in an area of `area` bytes, with `free` bytes free. `left` is the number of bytes that were free after the last
/// checkpoint, if one was made. Before the first checkpoint its result is unknown, so the whole area counts: rows and documents use some of
/// it, which is a reason to make a checkpoint, and from then on the room that it left counts.
pub fn room_in(area: u64, left: Option<u64>, free: u64) -> Room
    ensures { result ≡ room_in area left free }
{
    let size = left.unwrap_or(area);
    Room {
        used: size.saturating_sub(free),
        size,
    }
}

/// A checkpoint that was made or tried: its beginning and its end in milliseconds.
#[derive(Clone, Copy)]
pub struct Checkpoint {
    pub began: u64,
    pub ended: u64,
    /// How many bytes of the journal were used after it, if it was made.
    pub left: Option<u64>,
}

/// Whether to make a checkpoint now, at a moment in milliseconds: less than this percentage of the journal is free, or an event was refused
/// as Full; something was written after the last checkpoint, or it failed; and the last one is paid for.
pub fn is_wanted(
    room: Room,
    percent: u8,
    was_full: bool,
    last: Option<Checkpoint>,
    now: u64,
) -> bool
    ensures { result ≡ is_wanted room percent was_full last now }
{
    (was_full || is_short(room, percent)) && may_free(last, room.used) && is_paid_for(last, now)
}

fn is_short(room: Room, percent: u8) -> bool
    ensures { result ≡ is_short room percent }
{
    let free = room.size.saturating_sub(room.used);
    u128::from(free) * 100 < u128::from(room.size) * u128::from(percent)
}

// If nothing was written after a checkpoint, another one frees nothing, and an idle service makes none.
fn may_free(last: Option<Checkpoint>, used: u64) -> bool
    ensures { result ≡ may_free last used }
{
    let Some(last) = last else {
        return true;
    };
    match last.left {
        Some(left) => left < used,
        None => true,
    }
}

// A moment before the end of the last checkpoint pays for nothing.
fn is_paid_for(last: Option<Checkpoint>, now: u64) -> bool
    ensures { result ≡ is_paid_for last now }
{
    match last {
        Some(last) => {
            let took = last.ended.saturating_sub(last.began);
            took <= now.saturating_sub(last.ended) / CHECKPOINT_PARTS
        }
        None => true,
    }
}

/// If each checkpoint is made only when the previous one is paid for, checkpoints take at most one eleventh of the time since the beginning
/// of the first, so less than a tenth.
pub fn checkpoints_cost_little()
    ensures { (c : AnyCheckpoint) (later : List AnyCheckpoint) (now : ℕ) → ArePaidFor (c ∷ later) now →
        c.began + (checkpoint_parts + 1) * all_took (c ∷ later) ≤ now }
{}
