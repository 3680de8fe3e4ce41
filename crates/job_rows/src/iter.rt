//! Iteration over the rows.
ghost use Rattle.std.specs.Iterator.{YieldsFirstRef, item_count};

use crate::slot::Slot;
use spool_types::JobRow;
use std::marker::Model;

/// The remaining rows, in ascending order of number.
#[derive(Drop)]
pub struct Iter<'a> {
    pub(crate) slots: &'a [Slot],
}

impl<'a> Model for Iter<'a> {
    ghost use Rattle.std.specs.Prelude.{List};
    ghost use Rattle.spool_types.specs.declared.rows.JobRow.{JobRow};

    ghost Value = { List JobRow };

    ghost use Rattle.job_rows.specs.RowSlots.{held};

    ghost view = { λ it. held it.slots.now };
}

impl<'a> Iterator for Iter<'a> {
    type Item = &'a JobRow;

    ghost next_gives = { YieldsFirstRef (λ rest. rest) };

    ghost remaining = { item_count (λ rest. rest) };

    fn next(&mut self) -> Option<&'a JobRow> {
        while let Some((slot, rest)) = self.slots.split_first() {
            self.slots = rest;
            if let Slot::Held(_, row) = slot {
                return Some(row);
            }
        }
        None
    }
}
