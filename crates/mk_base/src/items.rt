ghost use Rattle.std.specs.Prelude.{◌≡◌, ◌≤◌, ◌<◌, ◌^◌, [], ◌∷◌, ◌++◌, length, IfOk, OnOk, OnErr, IsTrue, ◌↔◌};

use std::alloc::{AllocError, AllocFailed, Global};
use std::marker::Model;
use thiserror::Error;

/// Memory was wanted and not found.
#[derive(Clone, Copy, Debug, PartialEq, Eq, Error)]
#[error("out of memory")]
pub struct Memory;

impl From<AllocError> for Memory {
    fn from(_error: AllocError) -> Memory {
        Memory
    }
}

impl<T: Drop> From<AllocFailed<T>> for Memory {
    fn from(_error: AllocFailed<T>) -> Memory {
        Memory
    }
}

/// A list, which contracts see as the list of its items. It has fewer than 2^32 items.
#[derive(Debug, Drop)]
pub struct Items<T> {
    items: Vec<T>,
}

/// A list of bytes.
pub type Bytes = Items<u8>;

/// A list of words, each a list of bytes.
pub type Words = Items<Bytes>;

impl<T> Model for Items<T> {
    ghost use Rattle.std.specs.Prelude.{List, ◌<◌, ◌^◌, length};
    ghost use Rattle.std.specs.Coded.{coded_list};

    ghost Value = { List T };

    ghost coded = { coded_list T.code };

    ghost view = { λ it. it.items.items };

    ghost invariant = { λ it. length it.items.items < 2 ^ 32 };
}

impl<T> Items<T> {
    /// The empty list. It takes no memory.
    pub fn new(alloc: Global) -> Items<T>
        ensures { result ≡ [] }
    {
        Items {
            items: Vec::new(alloc),
        }
    }

    /// The list of the items of a vector, which are fewer than 2^32. It takes no memory.
    pub fn from_vec(items: Vec<T>) -> Items<T>
        requires { length items.items < 2 ^ 32 }
        ensures { result ≡ items.items }
    {
        Items { items }
    }

    /// How many items there are.
    pub fn len(&self) -> usize
        ensures count { result ≡ length self.now }
        ensures small { result < 2 ^ 32 }
    {
        self.items.len()
    }

    /// Whether there is no item.
    pub fn is_empty(&self) -> bool
        ensures { IsTrue result ↔ (self.now ≡ []) }
    {
        self.items.is_empty()
    }

    /// The items, in order.
    pub fn as_slice(&self) -> &[T]
        ensures items { result.now ≡ self.now }
        ensures small { length result.now < 2 ^ 32 }
    {
        self.items.as_slice()
    }
}

impl<T: Drop> Items<T> {
    /// The list of the items of a vector. No list has memory for 2^32 items. It takes no memory.
    pub fn try_from_vec(items: Vec<T>) -> Result<Items<T>, Memory>
        ensures ok { IfOk result (λ list. list ≡ items.items) }
        ensures memory { OnErr result (2 ^ 32 ≤ length items.items) }
    {
        if items.len() >= 0x1_0000_0000 {
            return Err(Memory);
        }
        Ok(Items { items })
    }

    /// Appends an item. After `Memory` the list is as before. No list has memory for 2^32 items.
    pub fn push(&mut self, item: T) -> Result<(), Memory>
        ensures ok { OnOk result (self.new ≡ self.old ++ item ∷ []) }
        ensures memory { OnErr result (self.new ≡ self.old) }
    {
        if self.items.len() >= 0xffff_ffff {
            return Err(Memory);
        }
        self.items.push(item)?;
        Ok(())
    }
}

impl<T: Copy> Items<T> {
    /// An equal list.
    pub fn copy(&self, alloc: Global) -> Result<Items<T>, Memory>
        ensures { IfOk result (λ copied. copied ≡ self.now) }
    {
        let items = Vec::from_slice(alloc, self.items.as_slice())?;
        Ok(Items { items })
    }
}

#[cfg(test)]
mod tests {
    use super::*;

    #[test]
    fn pushes_and_copies(rt: HostRuntime) -> Result<(), Memory> {
        let mut items = Items::new(rt.alloc());
        for item in [3u8, 1, 2] {
            items.push(item)?;
        }
        let copied = items.copy(rt.alloc())?;
        assert_eq!(rt; copied.as_slice(), [3, 1, 2].as_slice());
        assert_eq!(rt; copied.len(), 3);
        Ok(())
    }
}
