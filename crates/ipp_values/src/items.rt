//! Lists of items, and of octets up to a limit.
ghost use Rattle.std.specs.Prelude.{◌≡◌, ◌≤◌, ◌<◌, ◌↔◌, ◌++◌, ◌∷◌, [], length, IfOk, OnOk, OnErr, IsErrOf};

use crate::fault::ValueFault;
use std::alloc::{AllocError, Global};
use std::marker::Model;

/// Items in order. Its value in contracts is the list.
#[derive(Drop)]
pub struct Items<T> {
    items: Vec<T>,
}

impl<T> Model for Items<T> {
    ghost use Rattle.std.specs.Prelude.{List};

    ghost Value = { List T };

    ghost view = { λ a. a.items.items };
}

impl<T> Items<T> {
    /// Returns no items. It allocates nothing.
    pub fn empty(alloc: Global) -> Items<T>
        ensures { result ≡ [] }
    {
        Items {
            items: Vec::new(alloc),
        }
    }

    /// Converts a `Vec`. It allocates nothing.
    pub fn new(items: Vec<T>) -> Items<T>
        ensures { result ≡ items.items }
    {
        Items { items }
    }

    /// Returns the items in order.
    pub fn as_slice(&self) -> &[T]
        ensures { result.now ≡ self.now }
    {
        &self.items
    }
}

impl<T: Drop> Items<T> {
    /// Returns one item.
    pub fn one(alloc: Global, item: T) -> Result<Items<T>, AllocError>
        ensures { IfOk result (λ items. items ≡ item ∷ []) }
    {
        let mut items = Items::empty(alloc);
        items.push(item)?;
        Ok(items)
    }

    /// Appends an item. An error changes nothing.
    pub fn push(&mut self, item: T) -> Result<(), AllocError>
        ensures ok { OnOk result (self.new ≡ self.old ++ item ∷ []) }
        ensures err { OnErr result (self.new ≡ self.old) }
    {
        self.items.push(item)?;
        Ok(())
    }
}

/// At most `MOST` octets. Its value in contracts is the list of them.
#[derive(Drop)]
pub struct Octets<const MOST: usize> {
    octets: Vec<u8>,
}

impl<const MOST: usize> Model for Octets<MOST> {
    ghost use Rattle.std.specs.Prelude.{List, ℕ, ◌≤◌, length};

    ghost Value = { List ℕ };

    ghost view = { λ a. a.octets.items };

    ghost invariant = { λ a. length a.octets.items ≤ MOST };
}

impl<const MOST: usize> Octets<MOST> {
    /// Copies at most `MOST` octets.
    pub fn read(alloc: Global, octets: &[u8]) -> Result<Octets<MOST>, ValueFault>
        ensures value { IfOk result (λ copy. copy ≡ octets.now) }
        ensures allowed { OnOk result (length octets.now ≤ MOST) }
        ensures bad { IsErrOf result ValueFault.Bad ↔ (MOST < length octets.now) }
    {
        if MOST < octets.len() {
            return Err(ValueFault::Bad);
        }
        Ok(Octets {
            octets: Vec::from_slice(alloc, octets)?,
        })
    }

    /// Returns the octets.
    pub fn as_slice(&self) -> &[u8]
        ensures value { result.now ≡ self.now }
        ensures allowed { length self.now ≤ MOST }
    {
        &self.octets
    }
}
