//! Lists that contracts see as the list of their items.

ghost use Rattle.std.specs.Prelude.{◌≡◌, ◌<◌, List, [], ◌∷◌, ◌++◌, length, IsTrue, ◌↔◌, IfOk, OnOk, OnErr, slice_set};
ghost use Rattle.std.specs.Borrow.{sem};
ghost use Rattle.hg_base.specs.Items.{LendsItems};

use hg_defs::{Move, NoMemory};
use std::alloc::Global;
use std::marker::Model;

/// A value of which an exact copy can be made, where there is memory.
pub trait TryClone {
    /// Makes a copy of the value.
    fn try_clone(&self) -> Result<Self, NoMemory>
        ensures { IfOk result (λ copy. copy ≡ self.now) };
}

/// A list that owns its items.
#[derive(Debug, Drop)]
pub struct Items<T> {
    items: Vec<T>,
}

/// The block of each vertex.
pub type Blocks = Items<u32>;

/// Vertices, in any order.
pub type Verts = Items<u32>;

/// The number of the cluster of each vertex.
pub type MapList = Items<u32>;

/// Gains: how much lower a cost became.
pub type Gains = Items<i64>;

/// A flag for each of some things.
pub type Flags = Items<bool>;

/// The maps of several levels, the finest first.
pub type MapStack = Items<MapList>;

impl<T> Model for Items<T> {
    ghost use Rattle.std.specs.Prelude.{List};

    ghost Value = { List T };

    ghost view = { λ l. l.items.items };
}

impl<T> Items<T> {
    /// Makes an empty list, which takes no memory yet.
    pub fn new(alloc: Global) -> Self
        ensures { result ≡ [] }
    {
        Items {
            items: Vec::new(alloc),
        }
    }

    /// Makes a list of the items of a `Vec`, in its memory.
    pub fn from_vec(items: Vec<T>) -> Self
        ensures { result ≡ items.items }
    {
        Items { items }
    }

    /// Gives the items back as a `Vec`, in the same memory.
    pub fn into_vec(self) -> Vec<T>
        ensures { result.items ≡ self }
    {
        let Items { items } = self;
        items
    }

    /// How many items there are.
    pub fn len(&self) -> usize
        ensures { result ≡ length self.now }
    {
        self.items.len()
    }

    /// Whether there are none.
    pub fn is_empty(&self) -> bool
        ensures { IsTrue result ↔ (self.now ≡ []) }
    {
        self.items.is_empty()
    }

    /// The items, in order.
    pub fn slice(&self) -> &[T]
        ensures { result.now ≡ self.now }
    {
        self.items.as_slice()
    }

    /// The items, in order, to be changed in place.
    pub fn slice_mut(&mut self) -> &mut [T]
        ensures* writes_back { sem 𝓛 (LendsItems T.row self.entry result) }
        ensures value { result.now ≡ self.old }
    {
        self.items.as_mut_slice()
    }
}

impl<T: Drop> Items<T> {
    /// Adds an item at the end. Where there is no memory, the item is dropped and the list stays.
    pub fn push(&mut self, item: T) -> Result<(), NoMemory>
        ensures ok { OnOk result (self.new ≡ self.old ++ item ∷ []) }
        ensures err { OnErr result (self.new ≡ self.old) }
    {
        self.items.push(item)?;
        Ok(())
    }
}

impl<T: TryClone + Drop> Items<T> {
    /// Makes a list of copies of the items.
    pub fn copy(&self) -> Result<Self, NoMemory>
        ensures { IfOk result (λ copy. copy ≡ self.now) }
    {
        let mut items = Vec::with_capacity(*self.items.allocator(), self.items.len())?;
        for item in &self.items {
            items.push(item.try_clone()?)?;
        }
        Ok(Items { items })
    }
}

impl Items<u32> {
    /// Replaces the item at place `i`, below the length.
    pub fn set(&mut self, i: usize, item: u32)
        requires { i < length self.old }
        ensures { self.new ≡ slice_set self.old i item }
    {
        self.items[i] = item;
    }
}

impl TryClone for u32 {
    fn try_clone(&self) -> Result<Self, NoMemory> {
        Ok(*self)
    }
}

impl TryClone for i64 {
    fn try_clone(&self) -> Result<Self, NoMemory> {
        Ok(*self)
    }
}

impl TryClone for bool {
    fn try_clone(&self) -> Result<Self, NoMemory> {
        Ok(*self)
    }
}

impl TryClone for Move {
    fn try_clone(&self) -> Result<Self, NoMemory> {
        Ok(*self)
    }
}

impl<T: TryClone + Drop> TryClone for Items<T> {
    fn try_clone(&self) -> Result<Self, NoMemory> {
        self.copy()
    }
}
