//! Arrays of a fixed size. Contracts see the sizes alone.

ghost use Rattle.std.specs.Prelude.{◌≡◌, ℕ, ◌*◌, ◌^◌, ◌<◌, ◌≤◌, length, All, IfOk};
ghost use Rattle.place_search.specs.Shapes.{Size, Range};

use std::alloc::{AllocError, Global};
use std::marker::Model;

/// A list of a fixed length.
#[derive(Drop)]
pub(crate) struct Cells<T> {
    items: Vec<T>,
}

impl<T> Model for Cells<T> {
    ghost use Rattle.std.specs.Prelude.{ℕ, length};

    ghost Value = { ℕ };

    ghost view = { λ s. length s.items.items };
}

impl<T: Copy> Cells<T> {
    /// Makes a list of this item.
    pub(crate) fn of(items: Vec<T>) -> Self
        ensures { result ≡ length items.items }
    {
        Cells { items }
    }

    /// The item at place `i`.
    pub(crate) fn get(&self, i: u32) -> T
        requires { i < self.now }
    {
        self.items[i as usize]
    }

    /// Replaces the item at place `i`.
    pub(crate) fn set(&mut self, i: u32, item: T)
        requires { i < self.old }
        ensures { self.new ≡ self.old }
    {
        self.items[i as usize] = item;
    }

    /// Replaces all items.
    pub(crate) fn fill(&mut self, item: T)
        ensures { self.new ≡ self.old }
    {
        for place in self.items.iter_mut() {
            *place = item;
        }
    }

    /// Takes over the items of another list.
    pub(crate) fn copy_from(&mut self, other: &Cells<T>)
        requires { other.now ≡ self.old }
        ensures { self.new ≡ self.old }
    {
        self.items
            .as_mut_slice()
            .copy_from_slice(other.items.as_slice());
    }
}

/// Numbers below a bound, in a list of a fixed length.
#[derive(Drop)]
pub(crate) struct Labels {
    items: Vec<u32>,
    bound: u32,
}

impl Model for Labels {
    ghost use Rattle.std.specs.Prelude.{◌<◌, All, length};
    ghost use Rattle.place_search.specs.Shapes.{Range};

    ghost Value = { Range };

    ghost view = { λ s. record { count = length s.items.items; bound = s.bound } };

    ghost invariant = { λ s. All (λ x. x < s.bound) s.items.items };
}

impl Labels {
    /// Makes a list of this number.
    pub(crate) fn start(
        alloc: Global,
        count: u32,
        bound: u32,
        item: u32,
    ) -> Result<Self, AllocError>
        requires { item < bound }
        ensures { IfOk result (λ labels. labels ≡ record { count = count; bound = bound }) }
    {
        Ok(Labels {
            items: vec![in alloc; item; count as usize]?,
            bound,
        })
    }

    /// The number at place `i`.
    pub(crate) fn get(&self, i: u32) -> u32
        requires { i < self.now.count }
        ensures { result < self.now.bound }
    {
        self.items[i as usize]
    }

    /// Replaces the number at place `i`.
    pub(crate) fn set(&mut self, i: u32, item: u32)
        requires place { i < self.old.count }
        requires item { item < self.old.bound }
        ensures { self.new ≡ self.old }
    {
        self.items[i as usize] = item;
    }

    /// Takes over the numbers of another list.
    pub(crate) fn copy_from(&mut self, other: &Labels)
        requires { other.now ≡ self.old }
        ensures { self.new ≡ self.old }
    {
        self.items.as_mut_slice().copy_from_slice(other.slice());
    }

    /// Takes over the numbers of a slice.
    pub(crate) fn copy_slice(&mut self, items: &[u32])
        requires count { length items.now ≡ self.old.count }
        requires below { All (λ x. x < self.old.bound) items.now }
        ensures { self.new ≡ self.old }
    {
        self.items.as_mut_slice().copy_from_slice(items);
    }

    /// The numbers.
    pub(crate) fn slice(&self) -> &[u32]
        ensures count { length result.now ≡ self.now.count }
        ensures below { All (λ x. x < self.now.bound) result.now }
    {
        self.items.as_slice()
    }

    /// Gives the numbers back as a `Vec`.
    pub(crate) fn into_vec(self) -> Vec<u32>
        ensures count { length result.items ≡ self.count }
        ensures below { All (λ x. x < self.bound) result.items }
    {
        let Labels { items, bound: _ } = self;
        items
    }
}

/// A table of rows of equal length.
#[derive(Drop)]
pub(crate) struct Grid<T> {
    items: Vec<T>,
    rows: u32,
    columns: u32,
}

impl<T> Model for Grid<T> {
    ghost use Rattle.std.specs.Prelude.{◌≡◌, ◌*◌, length};
    ghost use Rattle.place_search.specs.Shapes.{Size};

    ghost Value = { Size };

    ghost view = { λ s. record { rows = s.rows; columns = s.columns } };

    ghost invariant = { λ s. length s.items.items ≡ s.rows * s.columns };
}

impl<T: Copy> Grid<T> {
    /// Makes a table of the items of its rows.
    pub(crate) fn of(items: Vec<T>, rows: u32, columns: u32) -> Self
        requires { length items.items ≡ rows * columns }
        ensures { result ≡ record { rows = rows; columns = columns } }
    {
        Grid {
            items,
            rows,
            columns,
        }
    }

    /// The item of a row and a column.
    pub(crate) fn get(&self, row: u32, column: u32) -> T
        requires row { row < self.now.rows }
        requires column { column < self.now.columns }
    {
        self.items[row as usize * self.columns as usize + column as usize]
    }

    /// Replaces the item of a row and a column.
    pub(crate) fn set(&mut self, row: u32, column: u32, item: T)
        requires row { row < self.old.rows }
        requires column { column < self.old.columns }
        ensures { self.new ≡ self.old }
    {
        let place = row as usize * self.columns as usize + column as usize;
        self.items[place] = item;
    }

    /// Replaces all items.
    pub(crate) fn fill(&mut self, item: T)
        ensures { self.new ≡ self.old }
    {
        for place in self.items.iter_mut() {
            *place = item;
        }
    }
}
