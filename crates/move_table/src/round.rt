//! The round: its words, and where each of them stands.

ghost use Rattle.std.specs.Prelude.{◌≡◌, ◌+◌, ◌*◌, ◌/◌, ◌%◌, ◌<◌, ◌≤◌};
ghost use Rattle.hg_defs.specs.Sums.{sum_below};
ghost use Rattle.hg_defs.specs.Hypergraph.{vertex_count, net_count};
ghost use Rattle.hg_defs.specs.Partition.{block_of};
ghost use Rattle.hg_base.specs.Packed.{IsWidth, fields_of};
ghost use Rattle.pin_plain.specs.Counts.{net_bits, net_words};
ghost use Rattle.move_table.specs.Places.{next_place, cursor_place, name_place, load_place, net_place};
ghost use Rattle.move_table.specs.Places.{counts_place, field_place, word_count};
ghost use Rattle.move_table.specs.Standing.{terms_setup, IsTerms};

use crate::place::{CountPlace, NetPlace};
use crate::rule::Balanced;
use crate::steps::Words;
use crate::view::{Terms, View};
use atomic_table::Table;
use hg_base::place_of;
use incidence::Hypergraph;
use std::alloc::Global;
use std::marker::Model;

/// A round over a hypergraph and a partition of it: words that any number of threads share, each
/// with a pass of its own.
#[derive(Drop)]
pub struct Round<'h> {
    pub(crate) hyper: &'h Hypergraph,
    pub(crate) terms: Terms,
    pub(crate) table: Table<(), View, Terms, Balanced, Global>,
    pub(crate) opening_cost: u64,
}

impl<'h> Model for Round<'h> {
    ghost use Rattle.move_table.specs.Calls.{RacedRound, IsRound};

    ghost Value = { RacedRound };

    ghost view = { λ r. record { table = r.table.shared.table_id; terms = r.terms } };

    ghost invariant = { λ r. IsRound r.hyper.now r.terms r.table.shared.table_id r.table.shared.key
        r.opening_cost };
}

impl<'h> Round<'h> {
    /// How many words the table of the round has.
    pub fn words(&self) -> u64
        ensures { let h = self.now.terms.part.hyper in let k = self.now.terms.part.k in result ≡ 2 * vertex_count h +
            k + 2 + net_count h + sum_below (net_words h k) (net_count h) }
    {
        self.table.word_count() as u64
    }

    /// How many bits each count of a net takes: 8, 16 or 32.
    pub fn count_bits(&self, e: u32) -> u32
        requires { e < net_count self.now.terms.part.hyper }
        ensures bits { result ≡ net_bits self.now.terms.part.hyper e }
        ensures width { IsWidth result }
    {
        self.net(e).bits
    }

    /// The words, as passes step on them.
    pub(crate) fn shared(&self) -> &Words
        ensures table { result.now.table_id ≡ self.now.table }
        ensures key { result.now.key ≡ self.now.terms }
        ensures wide { result.now.table_id.words ≡ word_count (terms_setup self.now.terms) }
        ensures terms { IsTerms self.now.terms }
    {
        &self.table.shared
    }

    /// The hypergraph.
    pub(crate) fn hyper(&self) -> &Hypergraph
        ensures same { result.now ≡ self.now.terms.part.hyper }
        ensures terms { IsTerms self.now.terms }
    {
        self.hyper
    }

    /// The block of a vertex at the opening.
    pub fn opening(&self, v: u32) -> u32
        requires { v < vertex_count self.now.terms.part.hyper }
        ensures same { result ≡ block_of self.now.terms.part.blocks v }
        ensures block { result < self.now.terms.part.k }
    {
        let _vertices = self.hyper.vertices();
        self.terms.part.blocks()[v as usize]
    }

    /// The limit on a load.
    pub(crate) fn limit(&self) -> u64
        ensures { result ≡ self.now.terms.part.limit }
    {
        self.terms.part.limit()
    }

    pub(crate) fn next_place(&self) -> usize
        ensures { result ≡ next_place (terms_setup self.now.terms) }
    {
        self.hyper.vertices() as usize
    }

    pub(crate) fn cursor_place(&self) -> usize
        ensures { result ≡ cursor_place (terms_setup self.now.terms) }
    {
        self.hyper.vertices() as usize + 1
    }

    pub(crate) fn name_place(&self, v: u32) -> usize
        ensures { result ≡ name_place (terms_setup self.now.terms) v }
    {
        self.hyper.vertices() as usize + 2 + v as usize
    }

    pub(crate) fn load_place(&self, b: u32) -> usize
        ensures { result ≡ load_place (terms_setup self.now.terms) b }
    {
        2 * self.hyper.vertices() as usize + 2 + b as usize
    }

    /// Where the words of a net stand.
    pub(crate) fn net(&self, e: u32) -> NetPlace
        requires { e < net_count self.now.terms.part.hyper }
        ensures start { result.start ≡ net_place (terms_setup self.now.terms) e }
        ensures bits { result.bits ≡ net_bits self.now.terms.part.hyper e }
        ensures width { IsWidth result.bits }
    {
        let (start, bits) = self.terms.part.place_of_net(e);
        NetPlace { start, bits }
    }

    /// Where the count of a net in a block stands.
    pub(crate) fn count_place(&self, e: u32, b: u32) -> CountPlace
        requires net { e < net_count self.now.terms.part.hyper }
        ensures word { result.word ≡ counts_place (terms_setup self.now.terms) e b }
        ensures bits { result.bits ≡ net_bits self.now.terms.part.hyper e }
        ensures field { result.field ≡ field_place (terms_setup self.now.terms) e b }
        ensures width { IsWidth result.bits × (result.field < fields_of result.bits) }
    {
        let net = self.net(e);
        let (word, field) = place_of(net.bits, b);
        CountPlace {
            word: net.start as usize + 1 + word as usize,
            bits: net.bits,
            field,
        }
    }
}
