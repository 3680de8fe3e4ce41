//! The effects on the queue of a job.
ghost use Rattle.std.specs.Prelude.{◌≡◌, ◌≤◌, [], vec_len, vec_capacity};
ghost use Rattle.row_effects.specs.Keys.{most_kept};
ghost use Rattle.row_effects.specs.EffectFold.{queue_after, IsInOrder};
ghost use Rattle.row_effects.specs.Room.{HasRoom};

use crate::draft::Draft;
use crate::spare::Spare;
use spool_types::{Effect, Items, MOST_KEPT, Message, QueueRow};
use std::mem;

/// Folds the effects into the queue, in order. Does not allocate: words, names, values and texts are moved out of the
/// effects, and the lists grow in the memory of `spare`. `spare` may get a smaller vector of the queue in exchange.
pub fn fold_queue(row: &mut QueueRow, spare: &mut Spare, effects: Vec<Effect>)
    requires order { IsInOrder row.old }
    requires room { HasRoom spare.old effects.items }
    ensures row { row.new ≡ queue_after effects.items row.old }

    // The spare room does not grow.
    ensures reasons { spare.new.reasons ≤ spare.old.reasons }
    ensures attributes { spare.new.attributes ≤ spare.old.attributes }
{
    let alloc = *effects.allocator();
    let reasons = mem::replace(&mut row.reasons, Items::empty(alloc)).into_vec();
    let attributes = mem::replace(&mut row.attributes, Items::empty(alloc)).into_vec();
    let mut draft = Draft {
        reasons: roomy(&mut spare.reasons, reasons),
        attributes: roomy(&mut spare.attributes, attributes),
        message: mem::replace(&mut row.message, Message::empty(alloc)),
    };
    draft.apply_all(effects);
    row.reasons = Items::new(draft.reasons).unwrap();
    row.attributes = Items::new(draft.attributes).unwrap();
    row.message = draft.message;
}

// Returns the items in a vector with room for 64, if their own vector or the spare one has it. The other vector becomes
// the spare one.
fn roomy<T>(spare: &mut Vec<T>, items: Vec<T>) -> Vec<T>
    requires empty { vec_len spare.old ≡ 0 }
    requires few { vec_len items ≤ most_kept }
    ensures items { result.items ≡ items.items }
    ensures room { most_kept ≤ vec_capacity spare.old → most_kept ≤ vec_capacity result }
    ensures spare { vec_len spare.new ≡ 0 }
    ensures smaller { vec_capacity spare.new ≤ vec_capacity spare.old }
{
    if MOST_KEPT <= items.capacity() || spare.capacity() < MOST_KEPT {
        return items;
    }
    let mut moved = mem::replace(spare, items);
    moved.append(spare).unwrap();
    moved
}
