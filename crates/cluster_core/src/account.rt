ghost use Rattle.std.specs.Prelude.{◌≡◌};
ghost use Rattle.cluster_core.specs.Events.{vertex_at, root_at, is_idle, is_added, is_granted};

use std::collections::LinkedList;

/// Where a pass stands.
#[derive(Clone, Copy, Debug, PartialEq, Eq)]
pub enum Stage {
    /// Between two tries.
    Idle,
    /// It added the weight of the vertex to the root's mass and found no room, and has still to take
    /// it back.
    Refused { vertex: u32, root: u32 },
    /// It added the weight of the vertex to the root's mass and found room.
    Granted { vertex: u32, root: u32 },
}

/// The account of a pass. It is what contracts see of a pass; no value of it is made.
pub struct Account {
    /// Whether the pass may still step.
    pub live: bool,
    /// The vertices that it has taken and not decided, in rising number.
    pub taken: LinkedList<u32>,
    /// The roots that it knows, in rising number.
    pub known: LinkedList<u32>,
    /// Where it stands.
    pub stage: Stage,
}

impl Stage {
    /// The vertex of the stage, 0 where it has none.
    pub(crate) fn vertex(self) -> u32
        ensures { result ≡ vertex_at self }
    {
        match self {
            Stage::Idle => 0,
            Stage::Refused { vertex, .. } => vertex,
            Stage::Granted { vertex, .. } => vertex,
        }
    }

    /// The root of the stage, 0 where it has none.
    pub(crate) fn root(self) -> u32
        ensures { result ≡ root_at self }
    {
        match self {
            Stage::Idle => 0,
            Stage::Refused { root, .. } => root,
            Stage::Granted { root, .. } => root,
        }
    }

    pub(crate) fn is_idle(self) -> bool
        ensures { result ≡ is_idle self }
    {
        match self {
            Stage::Idle => true,
            Stage::Refused { .. } | Stage::Granted { .. } => false,
        }
    }

    pub(crate) fn is_added(self) -> bool
        ensures { result ≡ is_added self }
    {
        match self {
            Stage::Idle => false,
            Stage::Refused { .. } | Stage::Granted { .. } => true,
        }
    }

    pub(crate) fn is_granted(self) -> bool
        ensures { result ≡ is_granted self }
    {
        match self {
            Stage::Granted { .. } => true,
            Stage::Idle | Stage::Refused { .. } => false,
        }
    }
}
