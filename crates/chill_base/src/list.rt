// The one list, which contracts see as the list of its items, and the lists of numbers.
ghost use Rattle.std.specs.Borrow.{Lends, sem};
ghost use Rattle.std.specs.Prelude.{◌≡◌, ◌<◌, ◌++◌, ◌↔◌, [], ◌∷◌, length, slice_get, IsTrue, IsNone, IfOk, OnOk, OnErr, option_to_list};

use crate::Memory;
use std::alloc::Global;
use std::marker::Model;

/// What a list may hold if it is to be copied and compared.
pub trait Item: Drop {
    /// An equal value.
    fn copy(&self) -> Result<Self, Memory>
        ensures { IfOk result (λ copy. copy ≡ self.now) };

    /// Whether the two are equal.
    fn equals(&self, other: &Self) -> bool
        ensures { IsTrue result ↔ (self.now ≡ other.now) };
}

/// A list. Contracts see its items and nothing of its room; where room is promised, the list is lent as a vector.
#[derive(Debug, Drop)]
pub struct List<T> {
    items: Vec<T>,
}

/// Bytes.
pub type Text = List<u8>;

/// Numbers of things: instances, exceptions, places in a list.
pub type Numbers = List<u32>;

/// The flat scalars of a value.
pub type Scalars = List<i64>;

impl<T> Model for List<T> {
    ghost use Rattle.std.specs.Prelude.{List};
    ghost use Rattle.std.specs.Coded.{coded_list};

    ghost Value = { List T };

    ghost coded = { coded_list T.code };

    ghost view = { λ l. l.items.items };
}

impl<T: Drop> List<T> {
    ghost use Rattle.chill_base.specs.contracts.list.List.{the_row as list_row};
    ghost use Rattle.std.specs.contracts.vec.Vec.{the_row as vec_row};
    ghost use Rattle.std.specs.contracts.alloc.Global as heap;
    ghost use Rattle.std.specs.contracts.impls.GlobalAllocator.TheImpl.{ghosts};

    /// The empty list. It takes no memory.
    pub fn new(alloc: Global) -> Self
        ensures { result ≡ [] }
    {
        List {
            items: Vec::new(alloc),
        }
    }

    /// The list of a vector's items. It takes no memory.
    pub fn from_vec(items: Vec<T>) -> Self
        ensures { result ≡ items.items }
    {
        List { items }
    }

    /// The list as a vector. It takes no memory.
    pub fn into_vec(self) -> Vec<T>
        ensures { result.items ≡ self }
    {
        self.items
    }

    /// The list as a vector, for as long as it is lent. A contract can speak of the vector's room.
    pub fn room(&mut self) -> &mut Vec<T>
        ensures* lends { sem 𝓛 (Lends (list_row T.row) (vec_row T.row heap.the_row ghosts) self.entry result (λ v. v.items)) }
        ensures items { result.now.items ≡ self.old }
    {
        &mut self.items
    }

    /// The number of items.
    pub fn len(&self) -> usize
        ensures { result ≡ length self.now }
    {
        self.items.len()
    }

    /// Whether there is no item.
    pub fn is_empty(&self) -> bool
        ensures { IsTrue result ↔ (self.now ≡ []) }
    {
        self.items.is_empty()
    }

    /// The item at a place, counted from 0.
    pub fn at(&self, i: usize) -> &T
        requires { i < length self.now }
        ensures { slice_get self.now i ≡ Some result.now }
    {
        &self.items[i]
    }

    /// Puts an item behind the last.
    pub fn push(&mut self, item: T) -> Result<(), Memory>
        ensures ok { OnOk result (self.new ≡ self.old ++ item ∷ []) }
        ensures err { OnErr result (self.new ≡ self.old) }
    {
        self.items.push(item)?;
        Ok(())
    }

    /// Takes out the last item.
    pub fn pop(&mut self) -> Option<T>
        ensures items { self.old ≡ self.new ++ option_to_list result }
        ensures none { IsNone result ↔ (self.old ≡ []) }
    {
        self.items.pop()
    }

    /// The allocator that the list was made with.
    pub fn allocator(&self) -> Global {
        *self.items.allocator()
    }

    /// The items in order.
    pub fn as_slice(&self) -> &[T]
        ensures { result.now ≡ self.now }
    {
        &self.items
    }
}

impl<T: Item> Item for List<T> {
    fn copy(&self) -> Result<Self, Memory> {
        let mut copy = Vec::with_capacity(*self.items.allocator(), self.len())?;
        for item in self.as_slice() {
            copy.push(item.copy()?)?;
        }
        Ok(List { items: copy })
    }

    fn equals(&self, other: &Self) -> bool {
        if self.len() != other.len() {
            return false;
        }
        let (mine, theirs) = (self.as_slice(), other.as_slice());
        for i in 0..mine.len() {
            if !mine[i].equals(&theirs[i]) {
                return false;
            }
        }
        true
    }
}

impl Item for u8 {
    fn copy(&self) -> Result<Self, Memory> {
        Ok(*self)
    }

    fn equals(&self, other: &Self) -> bool {
        *self == *other
    }
}

impl Item for u32 {
    fn copy(&self) -> Result<Self, Memory> {
        Ok(*self)
    }

    fn equals(&self, other: &Self) -> bool {
        *self == *other
    }
}

impl Item for i64 {
    fn copy(&self) -> Result<Self, Memory> {
        Ok(*self)
    }

    fn equals(&self, other: &Self) -> bool {
        *self == *other
    }
}
