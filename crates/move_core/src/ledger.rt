ghost use Rattle.std.specs.Prelude.{◌≡◌, ◌<◌, ◌≤◌, ◌^◌, All, true, length, ℕ};
ghost use Rattle.hg_defs.specs.Hypergraph.{vertex_count, net_count};
ghost use Rattle.hg_defs.specs.Partition.{block_of};
ghost use Rattle.hg_defs.specs.Incidence.{nets_of};
ghost use Rattle.move_core.specs.State.{readings, read, written, account, count_place};
ghost use Rattle.move_core.specs.Events.{is_word, first_word};
ghost use Rattle.move_core.specs.declared.events.Word.TheVariants.{Name};

use crate::events::Word;
use crate::pass::Pass;
use hg_base::{FlatHyper, Verts};
use std::alloc::Global;
use std::marker::Model;
use std::snapshot::Snapshot;

/// The words and the accounts of a round, whatever they tell.
#[derive(Drop)]
pub(crate) struct Ledger {
    pub(crate) alloc: Global,
    pub(crate) graph: Snapshot<FlatHyper>,
    pub(crate) blocks: u32,
    pub(crate) limit: u64,
    pub(crate) opening: Vec<u32>,
    pub(crate) index: Vec<Verts>,
    pub(crate) claims: Vec<u64>,
    pub(crate) names: Vec<u32>,
    pub(crate) loads: Vec<u64>,
    pub(crate) counts: Vec<u64>,
    pub(crate) spreads: Vec<u64>,
    pub(crate) next: u64,
    pub(crate) cursor: u64,
    pub(crate) passes: Vec<Pass>,
}

impl Model for Ledger {
    ghost use Rattle.std.specs.Prelude.{◌≡◌, map};
    ghost use Rattle.hg_defs.specs.Hypergraph.{vertices};
    ghost use Rattle.hg_defs.specs.Incidence.{nets_of};
    ghost use Rattle.move_core.specs.State.{State};
    ghost use Rattle.move_core.specs.Balance.{IsSetup, IsShaped};

    ghost Value = { State };

    ghost view = { λ a. record {
      setup = record { graph = a.graph.value; blocks = a.blocks; limit = a.limit; opening = a.opening.items };
      claims = a.claims.items;
      names = a.names.items;
      loads = a.loads.items;
      counts = a.counts.items;
      spreads = a.spreads.items;
      next = a.next;
      cursor = a.cursor;
      accounts = a.passes.items;
    } };

    ghost invariant = { λ a.
        (a.index.items ≡ map (nets_of a.graph.value) (vertices a.graph.value))
        × IsSetup (record { graph = a.graph.value; blocks = a.blocks; limit = a.limit; opening = a.opening.items })
        × IsShaped (record {
          setup = record { graph = a.graph.value; blocks = a.blocks; limit = a.limit; opening = a.opening.items };
          claims = a.claims.items;
          names = a.names.items;
          loads = a.loads.items;
          counts = a.counts.items;
          spreads = a.spreads.items;
          next = a.next;
          cursor = a.cursor;
          accounts = a.passes.items;
        }) };
}

impl Ledger {
    /// The number of blocks.
    pub(crate) fn blocks(&self) -> u32
        ensures { result ≡ self.now.setup.blocks }
    {
        self.blocks
    }

    /// The block of the vertex at the opening.
    pub(crate) fn opening(&self, v: u32) -> u32
        requires { v < vertex_count self.now.setup.graph }
        ensures { result ≡ block_of self.now.setup.opening v }
    {
        self.opening[v as usize]
    }

    /// The nets of a vertex.
    pub(crate) fn nets(&self, v: u32) -> &[u32]
        requires { v < vertex_count self.now.setup.graph }
        ensures nets { result.now ≡ nets_of self.now.setup.graph v }
        ensures few { length result.now ≤ 2 ^ 22 }
    {
        self.index[v as usize].slice()
    }

    /// How many passes were made.
    pub(crate) fn passes(&self) -> usize
        ensures { result ≡ length self.now.accounts }
    {
        self.passes.len()
    }

    /// What the pass has.
    pub(crate) fn pass(&self, pass: u32) -> &Pass
        requires { pass < length self.now.accounts }
        ensures { result.now ≡ account self.now pass }
    {
        &self.passes[pass as usize]
    }

    /// Where the count of a net in a block stands.
    fn count_place(&self, e: u32, b: u32) -> usize
        requires net { e < net_count self.now.setup.graph }
        requires block { b < self.now.setup.blocks }
        ensures place { result ≡ count_place self.now.setup.blocks e b }
        ensures below { result < length self.now.counts }
    {
        e as usize * self.blocks as usize + b as usize
    }

    /// The number in a word.
    pub(crate) fn read(&self, word: Word) -> u64
        requires { is_word self.now.setup word ≡ true }
        ensures { result ≡ read (readings self.now) word }
    {
        match word {
            Word::Claim(v) => self.claims[v as usize],
            Word::Name(v) => u64::from(self.names[v as usize]),
            Word::Load(b) => self.loads[b as usize],
            Word::Count(e, b) => self.counts[self.count_place(e, b)],
            Word::Spread(e) => self.spreads[e as usize],
            Word::Next => self.next,
            Word::Cursor => self.cursor,
        }
    }

    /// Puts a number into a word.
    pub(crate) fn write(&mut self, word: Word, value: u64)
        requires word { is_word self.old.setup word ≡ true }
        requires name { (v : ℕ) → word ≡ Name v → value < 2 ^ 32 }
        ensures { self.new ≡ written self.old word value }
    {
        match word {
            Word::Claim(v) => self.claims[v as usize] = value,
            Word::Name(v) => self.names[v as usize] = value as u32,
            Word::Load(b) => self.loads[b as usize] = value,
            Word::Count(e, b) => {
                let place = self.count_place(e, b);
                self.counts[place] = value;
            }
            Word::Spread(e) => self.spreads[e as usize] = value,
            Word::Next => self.next = value,
            Word::Cursor => self.cursor = value,
        }
    }

    /// What a Split or a Join reads.
    pub(crate) fn first_word(&self) -> Word
        ensures { result ≡ first_word self.now.setup }
    {
        match self.claims.first() {
            Some(_claim) => Word::Claim(0),
            None => Word::Next,
        }
    }
}
