//! The table of marks and masses that the workers share, and the rule that it keeps.

use atomic_table::{Join, Play, Shared, Split, TableRule};
use cluster_core::Account;
use incidence::Hypergraph;
use std::marker::{Brand, PhantomData};
use std::snapshot::Snapshot;

/// What the table is over.
#[derive(Drop)]
pub(crate) struct Key {
    pub(crate) graph: Snapshot<Hypergraph>,
    pub(crate) cap: u64,
    pub(crate) workers: u32,
}

/// What a seat knows. No value of it is made.
pub(crate) struct View {
    /// How many passes its pass may still make.
    pub(crate) spare: u32,
    pub(crate) account: Account,
}

/// The rule: the marks and the masses are in balance with the accounts of all passes.
pub(crate) struct Balanced;

impl TableRule<(), View, Key> for Balanced {
    ghost use Rattle.std.specs.Prelude.{◌-◌, true};
    ghost use Rattle.cluster_core.specs.State.{blank};
    ghost use Rattle.cluster_claim.specs.Board.{IsKept, setup_at, view};

    ghost holds = { λ key. IsKept (setup_at key) key.workers };

    ghost first = { λ key. view (key.workers - 1) (blank true) };
}

/// The words: the marks of all vertices, and then their masses.
pub(crate) type Words = Shared<(), View, Key, Balanced>;

/// Which event a step is. A call picks it.
pub(crate) trait Deed {
    ghost use Rattle.cluster_core.specs.State.{Setup};
    ghost use Rattle.cluster_core.specs.declared.events.ClusterEvent.{ClusterEvent};

    ghost setup: { Setup };

    ghost event: { ClusterEvent };
}

impl Deed for Brand {
    ghost use Rattle.cluster_core.specs.declared.events.ClusterEvent.TheVariants as event;
    ghost use Rattle.cluster_claim.specs.Steps.{no_setup};

    ghost setup = { no_setup };

    ghost event = { event.Split 0 };
}

/// A step that is one event.
pub(crate) struct Does<D> {
    marker: PhantomData<D>,
}

impl<D: Deed> Play<(), View> for Does<D> {
    ghost use Rattle.cluster_claim.specs.Steps.{IsDone};

    ghost then = { λ _ me found after. IsDone D.setup D.event me found after };
}

/// A pass that makes another one.
pub(crate) struct Another;

impl Split<View> for Another {
    ghost use Rattle.std.specs.Prelude.{◌-◌, true};
    ghost use Rattle.cluster_core.specs.State.{blank};
    ghost use Rattle.cluster_claim.specs.Board.{view};

    ghost left = { λ v. view (v.spare - 1) v.account };

    ghost right = { λ _. view 0 (blank true) };
}

/// A pass that takes over what another one has, which ends.
pub(crate) struct TakingOver;

impl Join<View> for TakingOver {
    ghost use Rattle.std.specs.Prelude.{◌+◌, false};
    ghost use Rattle.cluster_core.specs.State.{blank};
    ghost use Rattle.cluster_core.specs.Events.{joined_with};
    ghost use Rattle.cluster_claim.specs.Board.{view};

    ghost both = { λ v w. view (v.spare + w.spare) (joined_with v.account w.account) };

    ghost spent = { view 0 (blank false) };
}
