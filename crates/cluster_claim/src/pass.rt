//! The steps of a pass. Each is one event of the clustering, and none tries again.

ghost use Rattle.std.specs.Prelude.{◌≡◌, ◌≢◌, ◌+◌, ◌-◌, ◌*◌, ◌<◌, ◌≤◌, ℕ, true, false, [], IsTrue};
ghost use Rattle.hg_defs.specs.Hypergraph.{vertex_count, weight_of, IsFree};
ghost use Rattle.cluster_core.specs.declared.account.Stage.TheVariants as stage;
ghost use Rattle.cluster_core.specs.declared.events.ClusterEvent.TheVariants as event;
ghost use Rattle.cluster_core.specs.State.{setup_of, times, blank};
ghost use Rattle.cluster_core.specs.Events.{is_idle, root_at, vertex_at};
ghost use Rattle.cluster_claim.specs.Board.{IsBoard, setup_at, view};
ghost use Rattle.cluster_claim.specs.Steps.{IsDone, IsPass, CanMake, KeepsTaken, HasTaken, Knows, account_in};

use crate::board::{Another, Deed, Does, TakingOver, View, Words};
use atomic_table::Seat;
use incidence::Hypergraph;
use std::marker::Brand;

/// A pass over the table.
#[derive(Drop)]
pub(crate) struct Pass {
    pub(crate) seat: Seat<(), View>,
}

// The steps, each with the event that it is.

fn take_as<D: Deed>(words: &Words, pass: &mut Pass, h: &Hypergraph, cap: u64, vertex: u32) -> u64
    requires setup { D.setup ≡ setup_of h.now cap }
    requires event { D.event ≡ event.Take pass.old.seat.id vertex }
    requires board { IsBoard words.now.key words.now.table_id h.now cap }
    requires can { CanMake (setup_of h.now cap) words.now.table_id (event.Take pass.old.seat.id vertex) pass.old }
    ensures seat { (pass.new.seat.table_id ≡ pass.old.seat.table_id) × (pass.new.seat.id ≡ pass.old.seat.id) }
    ensures done { IsDone D.setup D.event pass.old.seat.me result pass.new.seat.me }
{
    words.compare_exchange::<Does<D>>(&mut pass.seat, vertex as usize, 0, 1)
}

fn root_as<D: Deed>(words: &Words, pass: &mut Pass, h: &Hypergraph, cap: u64, vertex: u32)
    requires setup { D.setup ≡ setup_of h.now cap }
    requires event { D.event ≡ event.Root pass.old.seat.id vertex }
    requires board { IsBoard words.now.key words.now.table_id h.now cap }
    requires can { CanMake (setup_of h.now cap) words.now.table_id (event.Root pass.old.seat.id vertex) pass.old }
    ensures seat { (pass.new.seat.table_id ≡ pass.old.seat.table_id) × (pass.new.seat.id ≡ pass.old.seat.id) }
    ensures done { IsDone D.setup D.event pass.old.seat.me (vertex + 2) pass.new.seat.me }
{
    words.store::<Does<D>>(&mut pass.seat, vertex as usize, u64::from(vertex) + 2)
}

fn add_as<D: Deed>(
    words: &Words,
    pass: &mut Pass,
    h: &Hypergraph,
    cap: u64,
    vertex: u32,
    root: u32,
) -> u64
    requires setup { D.setup ≡ setup_of h.now cap }
    requires event { D.event ≡ event.Add pass.old.seat.id vertex root }
    requires board { IsBoard words.now.key words.now.table_id h.now cap }
    requires can { CanMake (setup_of h.now cap) words.now.table_id (event.Add pass.old.seat.id vertex root) pass.old }
    ensures seat { (pass.new.seat.table_id ≡ pass.old.seat.table_id) × (pass.new.seat.id ≡ pass.old.seat.id) }
    ensures done { IsDone D.setup D.event pass.old.seat.me result pass.new.seat.me }
{
    let place = h.vertices() as usize + root as usize;
    words.fetch_add::<Does<D>>(&mut pass.seat, place, h.vertex_weight(vertex))
}

fn take_back_as<D: Deed>(
    words: &Words,
    pass: &mut Pass,
    h: &Hypergraph,
    cap: u64,
    vertex: u32,
    root: u32,
)
    requires setup { D.setup ≡ setup_of h.now cap }
    requires event { D.event ≡ event.TakeBack pass.old.seat.id }
    requires board { IsBoard words.now.key words.now.table_id h.now cap }
    requires pass { IsPass words.now.table_id (stage.Refused vertex root) pass.old }
    requires vertex { vertex < vertex_count h.now }
    requires root { root < vertex_count h.now }
    ensures seat { (pass.new.seat.table_id ≡ pass.old.seat.table_id) × (pass.new.seat.id ≡ pass.old.seat.id) }
    ensures done { (found : ℕ) × IsDone D.setup D.event pass.old.seat.me found pass.new.seat.me }
{
    let place = h.vertices() as usize + root as usize;
    words.fetch_sub::<Does<D>>(&mut pass.seat, place, h.vertex_weight(vertex));
}

fn follow_as<D: Deed>(
    words: &Words,
    pass: &mut Pass,
    h: &Hypergraph,
    cap: u64,
    vertex: u32,
    root: u32,
)
    requires setup { D.setup ≡ setup_of h.now cap }
    requires event { D.event ≡ event.Follow pass.old.seat.id }
    requires board { IsBoard words.now.key words.now.table_id h.now cap }
    requires pass { IsPass words.now.table_id (stage.Granted vertex root) pass.old }
    requires vertex { vertex < vertex_count h.now }
    ensures seat { (pass.new.seat.table_id ≡ pass.old.seat.table_id) × (pass.new.seat.id ≡ pass.old.seat.id) }
    ensures done { IsDone D.setup D.event pass.old.seat.me (root + 2) pass.new.seat.me }
{
    words.store::<Does<D>>(&mut pass.seat, vertex as usize, u64::from(root) + 2)
}

fn peek_as<D: Deed>(words: &Words, pass: &mut Pass, h: &Hypergraph, cap: u64, vertex: u32) -> u64
    requires setup { D.setup ≡ setup_of h.now cap }
    requires event { D.event ≡ event.Peek pass.old.seat.id vertex }
    requires board { IsBoard words.now.key words.now.table_id h.now cap }
    requires can { CanMake (setup_of h.now cap) words.now.table_id (event.Peek pass.old.seat.id vertex) pass.old }
    ensures seat { (pass.new.seat.table_id ≡ pass.old.seat.table_id) × (pass.new.seat.id ≡ pass.old.seat.id) }
    ensures done { IsDone D.setup D.event pass.old.seat.me result pass.new.seat.me }
{
    words.load::<Does<D>>(&mut pass.seat, vertex as usize)
}

impl Pass {
    /// Reads the mark of a vertex: 0, 1, or 2 more than its root, which the pass knows from now on.
    pub(crate) fn peek(&mut self, words: &Words, h: &Hypergraph, cap: u64, vertex: u32) -> u64
        requires board { IsBoard words.now.key words.now.table_id h.now cap }
        requires pass { IsPass words.now.table_id stage.Idle self.old }
        requires vertex { vertex < vertex_count h.now }
        ensures pass { IsPass words.now.table_id stage.Idle self.new }
        ensures taken { (account_in self.new).taken ≡ (account_in self.old).taken }
        ensures below { 2 ≤ result → result - 2 < vertex_count h.now }
        ensures known { 2 ≤ result → Knows self.new (result - 2) }
    {
        peek_as::<Brand>(words, self, h, cap, vertex)
    }

    /// Tries to take a free vertex, and tells whether it did.
    pub(crate) fn take(&mut self, words: &Words, h: &Hypergraph, cap: u64, vertex: u32) -> bool
        requires board { IsBoard words.now.key words.now.table_id h.now cap }
        requires pass { IsPass words.now.table_id stage.Idle self.old }
        requires vertex { vertex < vertex_count h.now }
        requires free { IsFree h.now vertex }
        ensures pass { IsPass words.now.table_id stage.Idle self.new }
        ensures kept { KeepsTaken self.old self.new }
        ensures taken { result ≡ true → HasTaken self.new vertex }
        ensures fresh { result ≡ true → times vertex (account_in self.old).taken ≡ 0 }
    {
        take_as::<Brand>(words, self, h, cap, vertex) == 0
    }

    /// Makes a vertex that the pass has taken a root.
    pub(crate) fn root(&mut self, words: &Words, h: &Hypergraph, cap: u64, vertex: u32)
        requires board { IsBoard words.now.key words.now.table_id h.now cap }
        requires pass { IsPass words.now.table_id stage.Idle self.old }
        requires vertex { vertex < vertex_count h.now }
        requires taken { HasTaken self.old vertex }
        ensures pass { IsPass words.now.table_id stage.Idle self.new }
        ensures others { (u : ℕ) → u ≢ vertex → times u (account_in self.new).taken ≡ times u
            (account_in self.old).taken }
        ensures known { Knows self.new vertex }
    {
        root_as::<Brand>(words, self, h, cap, vertex);
    }

    /// Adds the weight of a vertex that the pass has taken to the mass of a root that it knows, and
    /// tells whether there was room.
    fn add(&mut self, words: &Words, h: &Hypergraph, cap: u64, vertex: u32, root: u32) -> bool
        requires board { IsBoard words.now.key words.now.table_id h.now cap }
        requires pass { IsPass words.now.table_id stage.Idle self.old }
        requires vertex { vertex < vertex_count h.now }
        requires root { root < vertex_count h.now }
        requires taken { HasTaken self.old vertex }
        requires known { Knows self.old root }
        ensures granted { result ≡ true → IsPass words.now.table_id (stage.Granted vertex root) self.new }
        ensures refused { result ≡ false → IsPass words.now.table_id (stage.Refused vertex root) self.new }
        ensures kept { (account_in self.new).taken ≡ (account_in self.old).taken }
    {
        let found = add_as::<Brand>(words, self, h, cap, vertex, root);
        found + h.vertex_weight(vertex) <= cap
    }

    fn take_back(&mut self, words: &Words, h: &Hypergraph, cap: u64, vertex: u32, root: u32)
        requires board { IsBoard words.now.key words.now.table_id h.now cap }
        requires pass { IsPass words.now.table_id (stage.Refused vertex root) self.old }
        requires vertex { vertex < vertex_count h.now }
        requires root { root < vertex_count h.now }
        ensures pass { IsPass words.now.table_id stage.Idle self.new }
        ensures kept { (account_in self.new).taken ≡ (account_in self.old).taken }
    {
        take_back_as::<Brand>(words, self, h, cap, vertex, root);
    }

    fn follow(&mut self, words: &Words, h: &Hypergraph, cap: u64, vertex: u32, root: u32)
        requires board { IsBoard words.now.key words.now.table_id h.now cap }
        requires pass { IsPass words.now.table_id (stage.Granted vertex root) self.old }
        requires vertex { vertex < vertex_count h.now }
        ensures pass { IsPass words.now.table_id stage.Idle self.new }
    {
        follow_as::<Brand>(words, self, h, cap, vertex, root);
    }

    /// Tries once to let a vertex that the pass has taken follow a root that it knows, and tells
    /// whether it follows.
    pub(crate) fn join(
        &mut self,
        words: &Words,
        h: &Hypergraph,
        cap: u64,
        vertex: u32,
        root: u32,
    ) -> bool
        requires board { IsBoard words.now.key words.now.table_id h.now cap }
        requires pass { IsPass words.now.table_id stage.Idle self.old }
        requires vertex { vertex < vertex_count h.now }
        requires root { root < vertex_count h.now }
        requires taken { HasTaken self.old vertex }
        requires known { Knows self.old root }
        ensures pass { IsPass words.now.table_id stage.Idle self.new }
        ensures kept { result ≡ false → (account_in self.new).taken ≡ (account_in self.old).taken }
    {
        if self.add(words, h, cap, vertex, root) {
            self.follow(words, h, cap, vertex, root);
            true
        } else {
            self.take_back(words, h, cap, vertex, root);
            false
        }
    }

    /// Makes another pass. This one must be able to make one more.
    pub(crate) fn split(&mut self, words: &Words, h: &Hypergraph, cap: u64) -> Pass
        requires board { IsBoard words.now.key words.now.table_id h.now cap }
        requires pass { IsPass words.now.table_id stage.Idle self.old }
        requires spare { 0 < self.old.seat.me.0.spare }
        ensures pass { IsPass words.now.table_id stage.Idle self.new }
        ensures spare { self.new.seat.me.0.spare + 1 ≡ self.old.seat.me.0.spare }
        ensures other { IsPass words.now.table_id stage.Idle result }
    {
        Pass {
            seat: words.split_seat::<Another>(&mut self.seat),
        }
    }

    /// Takes over what another pass has, which ends.
    pub(crate) fn take_over(&mut self, words: &Words, _h: &Hypergraph, _cap: u64, other: Pass)
        requires board { IsBoard words.now.key words.now.table_id _h.now _cap }
        requires pass { IsPass words.now.table_id stage.Idle self.old }
        requires other { IsPass words.now.table_id stage.Idle other }
        ensures { IsPass words.now.table_id stage.Idle self.new }
    {
        let Pass { seat } = other;
        words.join_seat::<TakingOver>(&mut self.seat, seat);
    }
}
