//! A list of vertices that are to be looked at again.

ghost use Rattle.std.specs.Prelude.{◌≡◌, ℕ, ◌+◌, ◌<◌, ◌^◌, IfOk, IfSome};

use crate::cells::Labels;
use std::alloc::{AllocError, Global};
use std::marker::Model;

/// Vertices below a bound, each listed once until it is taken.
#[derive(Drop)]
pub(crate) struct Listed {
    links: Labels,
    first: u32,
    vertices: u32,
}

impl Model for Listed {
    ghost use Rattle.std.specs.Prelude.{◌≡◌, ℕ, ◌+◌, ◌^◌, ◌<◌, ◌≤◌};

    ghost Value = { ℕ };

    ghost view = { λ s. s.vertices };

    ghost invariant = { λ s. (s.links ≡ record { count = s.vertices; bound = s.vertices + 2 }) ×
        (s.first ≤ s.vertices) × (s.vertices < 2 ^ 31) };
}

impl Listed {
    /// An empty list.
    pub(crate) fn start(alloc: Global, vertices: u32) -> Result<Self, AllocError>
        requires { vertices < 2 ^ 31 }
        ensures { IfOk result (λ listed. listed ≡ vertices) }
    {
        Ok(Listed {
            links: Labels::start(alloc, vertices, vertices + 2, vertices + 1)?,
            first: vertices,
            vertices,
        })
    }

    /// Lists a vertex, unless it is listed.
    pub(crate) fn add(&mut self, v: u32)
        requires { v < self.old }
        ensures { self.new ≡ self.old }
    {
        if self.links.get(v) > self.vertices {
            self.links.set(v, self.first);
            self.first = v;
        }
    }

    /// Takes the vertex that was listed last.
    pub(crate) fn take(&mut self) -> Option<u32>
        ensures same { self.new ≡ self.old }
        ensures vertex { IfSome result (λ v. v < self.old) }
    {
        let v = self.first;
        if v == self.vertices {
            return None;
        }
        self.first = self.links.get(v).min(self.vertices);
        self.links.set(v, self.vertices + 1);
        Some(v)
    }
}
