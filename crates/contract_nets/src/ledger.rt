//! Where each net of a hypergraph went in a contraction.

ghost use Rattle.std.specs.Prelude.{◌≡◌, ◌<◌, length, map};
ghost use Rattle.contract_nets.specs.Ledger.{place_of};
ghost use Rattle.contract_nets.specs.Places.{read_place};

use std::marker::Model;

/// Stands in a ledger for a net that was dropped.
pub(crate) const DROPPED: u32 = u32::MAX;

/// Where a net went in a contraction.
#[derive(Clone, Copy, Debug, PartialEq, Eq)]
pub enum Merged {
    /// The net touches fewer than two clusters, and was dropped.
    Dropped,
    /// The net was merged into the coarse net of this number.
    Into(u32),
}

/// Where each net went in a contraction, by number.
#[derive(Debug, Drop)]
pub struct MergeLedger {
    places: Vec<u32>,
}

impl Model for MergeLedger {
    ghost use Rattle.std.specs.Prelude.{List, map};
    ghost use Rattle.contract_nets.specs.declared.ledger.Merged.{Merged};
    ghost use Rattle.contract_nets.specs.Places.{read_place};

    ghost Value = { List Merged };

    ghost view = { λ l. map read_place l.places.items };
}

impl MergeLedger {
    /// Reads places, where `DROPPED` stands for a net that was dropped.
    pub(crate) fn from_places(places: Vec<u32>) -> Self
        ensures { result ≡ map read_place places.items }
    {
        MergeLedger { places }
    }

    /// Where the net of a number went.
    pub fn at(&self, e: u32) -> Merged
        requires { e < length self.now }
        ensures { result ≡ place_of self.now e }
    {
        match self.places[e as usize] {
            DROPPED => Merged::Dropped,
            place => Merged::Into(place),
        }
    }
}
