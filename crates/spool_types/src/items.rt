//! Lists with a maximum length.
ghost use Rattle.std.specs.Prelude.{◌≡◌, ◌≤◌, ◌↔◌, [], length, IfOk, IfErr, IsOk};

use crate::effect::Attribute;
use crate::kinds::{FilterName, Reason};
use crate::limits::{LONGEST_SEND, MOST_KEPT};
use std::alloc::{AllocError, Global};
use std::marker::Model;

/// At most `MOST` items in order. Its value in contracts is a list.
#[derive(Clone, Drop)]
pub struct Items<T, const MOST: usize> {
    items: Vec<T>,
}

impl<T, const MOST: usize> Model for Items<T, MOST> {
    ghost use Rattle.std.specs.Prelude.{List, ◌≤◌, length};

    ghost Value = { List T };

    ghost view = { λ a. a.items.items };

    ghost invariant = { λ a. length a.items.items ≤ MOST };
}

impl<T, const MOST: usize> Items<T, MOST> {
    /// Returns the items, or the `Vec` as an error if it has more than `MOST` items. It allocates nothing.
    pub fn new(items: Vec<T>) -> Result<Items<T, MOST>, Vec<T>>
        ensures short { IsOk result ↔ (length items.items ≤ MOST) }
        ensures value { IfOk result (λ list. list ≡ items.items) }
        ensures returned { IfErr result (λ same. same ≡ items) }
    {
        if items.len() <= MOST {
            Ok(Items { items })
        } else {
            Err(items)
        }
    }

    /// Returns no items. It allocates nothing.
    pub fn empty(alloc: Global) -> Items<T, MOST>
        ensures { result ≡ [] }
    {
        Items {
            items: Vec::new(alloc),
        }
    }

    /// Returns the items in order.
    pub fn as_slice(&self) -> &[T]
        ensures value { result.now ≡ self.now }
        ensures short { length self.now ≤ MOST }
    {
        &self.items
    }

    /// Returns the items as they were passed to `new`.
    pub fn into_vec(self) -> Vec<T>
        ensures value { result.items ≡ self }
        ensures short { length result.items ≤ MOST }
    {
        self.items
    }
}

impl<T: PartialEq, const MOST: usize> PartialEq for Items<T, MOST> {
    ghost use Rattle.std.specs.Cmp.Lexicographic.{pointwise, lists_per};

    ghost eq = { pointwise T.eq };

    ghost laws = { lists_per T.laws };

    fn eq(&self, other: &Items<T, MOST>) -> bool {
        self.as_slice() == other.as_slice()
    }
}

impl<T: Eq, const MOST: usize> Eq for Items<T, MOST> {
    ghost use Rattle.std.specs.Cmp.Lexicographic.{lists_equiv};

    ghost laws = { lists_equiv T.Eq.laws };
}

/// The filters of a job, in the order in which they run.
pub type Filters = Items<FilterName, 15>;

/// The bytes of one send.
pub type Piece = Items<u8, LONGEST_SEND>;

/// The printer-state-reasons of a queue.
pub type Reasons = Items<Reason, MOST_KEPT>;

/// The reasons that an effect names.
pub type Words = Items<Reason, 65_535>;

/// The attributes of a queue.
pub type Attributes = Items<Attribute, MOST_KEPT>;
