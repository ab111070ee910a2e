//! A worker: how it visits its run, and what it tries for each vertex.

ghost use Rattle.std.specs.Prelude.{◌≡◌, ◌+◌, ◌-◌, ◌<◌, ◌≤◌, true, false, length, vec_len};
ghost use Rattle.hg_defs.specs.Hypergraph.{vertex_count, net_count, net_of};
ghost use Rattle.cluster_core.specs.declared.account.Stage.TheVariants as stage;
ghost use Rattle.cluster_claim.specs.Board.{IsBoard};
ghost use Rattle.cluster_claim.specs.Steps.{IsPass, KeepsTaken, HasTaken, Knows, account_in};
ghost use Rattle.cluster_claim.specs.Workers.{IsWorker};

use crate::board::Words;
use crate::pass::Pass;
use crate::ratings::{Named, Ratings};
use crate::shared::Shared;
use crew::{Gate, Span, span_of};
use hg_base::{FREE, NoMemory};
use incidence::Hypergraph;
use rand_core::utils::NextWord;
use rand_pcg::Lcg64Xsh32;
use std::sync::atomic::Ordering::SeqCst;

/// Nets of more pins aren't used.
const MOST_PINS: usize = 1000;

/// So many vertices are tried at most.
const MOST_TRIES: u32 = 8;

/// A worker takes so many visits of a run at once.
const SHARE: usize = 1024;

/// Room between what one worker writes and what others read, so that no line of the cache holds both.
pub(crate) type Apart = [u64; 16];

/// What a worker owns.
#[derive(Drop)]
pub(crate) struct Worker {
    pub(crate) pass: Pass,
    pub(crate) ratings: Ratings,
    /// The last vertex without a neighbour that the worker made a root.
    pub(crate) lone: Option<u32>,
    /// How many visits it made.
    pub(crate) turn: u64,
    /// Whether there was no memory.
    pub(crate) failed: bool,
    pub(crate) apart: Apart,
}

/// Takes a vertex that is free and that nobody has.
fn take(words: &Words, pass: &mut Pass, h: &Hypergraph, cap: u64, vertex: u32) -> bool
    requires board { IsBoard words.now.key words.now.table_id h.now cap }
    requires pass { IsPass words.now.table_id stage.Idle pass.old }
    requires vertex { vertex < vertex_count h.now }
    ensures pass { IsPass words.now.table_id stage.Idle pass.new }
    ensures kept { KeepsTaken pass.old pass.new }
    ensures taken { result ≡ true → HasTaken pass.new vertex }
    ensures fresh { result ≡ true → HasTaken pass.old vertex → false ≡ true }
{
    h.fix(vertex) == FREE && pass.take(words, h, cap, vertex)
}

/// Takes a vertex that is free and that nobody has, and makes it a root.
fn lead(words: &Words, pass: &mut Pass, h: &Hypergraph, cap: u64, vertex: u32) -> bool
    requires board { IsBoard words.now.key words.now.table_id h.now cap }
    requires pass { IsPass words.now.table_id stage.Idle pass.old }
    requires vertex { vertex < vertex_count h.now }
    ensures pass { IsPass words.now.table_id stage.Idle pass.new }
    ensures kept { KeepsTaken pass.old pass.new }
    ensures known { result ≡ true → Knows pass.new vertex }
{
    let taken = take(words, pass, h, cap, vertex);
    if taken {
        pass.root(words, h, cap, vertex);
    }
    taken
}

/// Tries to let a vertex follow a root, which its own mark tells.
fn join(words: &Words, pass: &mut Pass, h: &Hypergraph, cap: u64, vertex: u32, root: u32) -> bool
    requires board { IsBoard words.now.key words.now.table_id h.now cap }
    requires pass { IsPass words.now.table_id stage.Idle pass.old }
    requires vertex { vertex < vertex_count h.now }
    requires root { root < vertex_count h.now }
    requires taken { HasTaken pass.old vertex }
    ensures pass { IsPass words.now.table_id stage.Idle pass.new }
    ensures kept { result ≡ false → HasTaken pass.new vertex }
{
    pass.peek(words, h, cap, root) == u64::from(root) + 2 && pass.join(words, h, cap, vertex, root)
}

/// Tries one vertex that was named. One that named itself is made a root first.
fn try_named(
    words: &Words,
    pass: &mut Pass,
    h: &Hypergraph,
    cap: u64,
    vertex: u32,
    named: Named,
) -> bool
    requires board { IsBoard words.now.key words.now.table_id h.now cap }
    requires pass { IsPass words.now.table_id stage.Idle pass.old }
    requires vertex { vertex < vertex_count h.now }
    requires root { named.vertex < vertex_count h.now }
    requires taken { HasTaken pass.old vertex }
    ensures pass { IsPass words.now.table_id stage.Idle pass.new }
    ensures kept { result ≡ false → HasTaken pass.new vertex }
{
    if !named.own {
        return join(words, pass, h, cap, vertex, named.vertex);
    }
    h.vertex_weight(named.vertex) + h.vertex_weight(vertex) <= cap
        && lead(words, pass, h, cap, named.vertex)
        && pass.join(words, h, cap, vertex, named.vertex)
}

/// Tries the best rated, one after the other, and tells whether the vertex follows one.
fn follow_best(
    words: &Words,
    pass: &mut Pass,
    ratings: &mut Ratings,
    h: &Hypergraph,
    cap: u64,
    vertex: u32,
) -> bool
    requires board { IsBoard words.now.key words.now.table_id h.now cap }
    requires pass { IsPass words.now.table_id stage.Idle pass.old }
    requires vertex { vertex < vertex_count h.now }
    requires ratings { vec_len ratings.old.places ≡ vertex_count h.now }
    requires taken { HasTaken pass.old vertex }
    ensures pass { IsPass words.now.table_id stage.Idle pass.new }
    ensures ratings { vec_len ratings.new.places ≡ vertex_count h.now }
    ensures kept { result ≡ false → HasTaken pass.new vertex }
{
    'tries: for _ in 0..MOST_TRIES {
        let Some(named) = ratings.take_best() else {
            return false;
        };
        if try_named(words, pass, h, cap, vertex, named) {
            return true;
        }
    }
    false
}

/// Rates what the neighbours on a net name: a decided one its root, and a free one that nobody has
/// itself.
fn rate_net(
    words: &Words,
    pass: &mut Pass,
    ratings: &mut Ratings,
    h: &Hypergraph,
    cap: u64,
    vertex: u32,
    net: u32,
) -> Result<(), NoMemory>
    requires board { IsBoard words.now.key words.now.table_id h.now cap }
    requires pass { IsPass words.now.table_id stage.Idle pass.old }
    requires ratings { vec_len ratings.old.places ≡ vertex_count h.now }
    requires net { net < net_count h.now }
    requires pins { 2 ≤ length (net_of h.now net).pins }
    ensures pass { IsPass words.now.table_id stage.Idle pass.new }
    ensures ratings { vec_len ratings.new.places ≡ vertex_count h.now }
    ensures taken { (account_in pass.new).taken ≡ (account_in pass.old).taken }
{
    let pins = h.pins(net);
    let score = 1000 * h.net_weight(net) / (pins.len() as u64 - 1);
    'pins: for pin in pins {
        if *pin != vertex {
            let mark = pass.peek(words, h, cap, *pin);
            let own = mark == 0 && h.fix(*pin) == FREE;
            if mark >= 2 || own {
                let named = if own { *pin } else { (mark - 2) as u32 };
                ratings.name(Named {
                    vertex: named,
                    own,
                    net,
                    sum: score,
                })?;
            }
        }
    }
    Ok(())
}

/// Rates what the neighbours of a vertex name, and tells whether it has none.
fn rate(
    words: &Words,
    pass: &mut Pass,
    ratings: &mut Ratings,
    h: &Hypergraph,
    cap: u64,
    vertex: u32,
) -> Result<bool, NoMemory>
    requires board { IsBoard words.now.key words.now.table_id h.now cap }
    requires pass { IsPass words.now.table_id stage.Idle pass.old }
    requires vertex { vertex < vertex_count h.now }
    requires ratings { vec_len ratings.old.places ≡ vertex_count h.now }
    ensures pass { IsPass words.now.table_id stage.Idle pass.new }
    ensures ratings { vec_len ratings.new.places ≡ vertex_count h.now }
    ensures taken { (account_in pass.new).taken ≡ (account_in pass.old).taken }
{
    ratings.clear();
    let mut alone = true;
    'nets: for net in h.nets_of(vertex) {
        let pins = h.pins(*net).len();
        if pins >= 2 && pins <= MOST_PINS {
            alone = false;
            rate_net(words, pass, ratings, h, cap, vertex, *net)?;
        }
    }
    Ok(alone)
}

impl Worker {
    /// Visits a vertex: where nobody has it, it follows a root or becomes one.
    fn visit(
        &mut self,
        words: &Words,
        h: &Hypergraph,
        cap: u64,
        vertex: u32,
    ) -> Result<(), NoMemory>
        requires board { IsBoard words.now.key words.now.table_id h.now cap }
        requires worker { IsWorker words.now.table_id (vertex_count h.now) self.old }
        requires ratings { vec_len self.old.ratings.places ≡ vertex_count h.now }
        requires vertex { vertex < vertex_count h.now }
        ensures worker { IsWorker words.now.table_id (vertex_count h.now) self.new }
        ensures ratings { vec_len self.new.ratings.places ≡ vertex_count h.now }
    {
        if !take(words, &mut self.pass, h, cap, vertex) {
            return Ok(());
        }
        let alone = rate(words, &mut self.pass, &mut self.ratings, h, cap, vertex)?;
        let follows = if alone {
            match self.lone {
                Some(root) => join(words, &mut self.pass, h, cap, vertex, root),
                None => false,
            }
        } else {
            follow_best(words, &mut self.pass, &mut self.ratings, h, cap, vertex)
        };
        if !follows {
            self.pass.root(words, h, cap, vertex);
            if alone {
                self.lone = Some(vertex);
            }
        }
        Ok(())
    }

    /// Visits the vertices of a share of a run, which goes round from a place on, and passes the gate before each.
    fn visit_share<G: Gate>(
        &mut self,
        shared: &Shared<'_>,
        gate: &G,
        number: u32,
        run: Span,
        place: u32,
        share: Span,
    ) -> Result<(), NoMemory>
        requires worker { IsWorker shared.now.words.now.table_id (vertex_count shared.now.h.now) self.old }
        requires ratings { vec_len self.old.ratings.places ≡ vertex_count shared.now.h.now }
        requires run { run.to ≤ vertex_count shared.now.h.now }
        requires share { run.from + share.to ≤ run.to }
        requires place { run.from + place < run.to }
        ensures worker { IsWorker shared.now.words.now.table_id (vertex_count shared.now.h.now) self.new }
        ensures ratings { vec_len self.new.ratings.places ≡ vertex_count shared.now.h.now }
    {
        let before_end = run.to - run.from - place;
        'visits: for i in share.from..share.to {
            gate.pass(number, self.turn);
            self.turn = self.turn.wrapping_add(1);
            let vertex = if i < before_end {
                run.from + place + i
            } else {
                run.from + (i - before_end)
            };
            self.visit(shared.words, shared.h, shared.cap, vertex)?;
        }
        Ok(())
    }

    /// Takes shares of the run of a worker, one after the other, until all of it is taken, and visits their vertices.
    fn visit_shares<G: Gate>(
        &mut self,
        shared: &Shared<'_>,
        gate: &G,
        number: u32,
        whose: u32,
    ) -> Result<(), NoMemory>
        requires worker { IsWorker shared.now.words.now.table_id (vertex_count shared.now.h.now) self.old }
        requires ratings { vec_len self.old.ratings.places ≡ vertex_count shared.now.h.now }
        requires whose { whose < shared.now.workers }
        ensures worker { IsWorker shared.now.words.now.table_id (vertex_count shared.now.h.now) self.new }
        ensures ratings { vec_len self.new.ratings.places ≡ vertex_count shared.now.h.now }
    {
        let run = span_of(shared.h.vertices(), shared.workers, whose);
        let count = run.to - run.from;
        if count == 0 {
            return Ok(());
        }
        let place = Lcg64Xsh32::new(shared.seed, u64::from(whose)).next_word() % count;
        'shares: for _ in 0..count {
            let from = shared.taken[whose as usize].fetch_add(SHARE, SeqCst);
            if from >= count as usize {
                return Ok(());
            }
            let share = Span {
                from: from as u32,
                to: from.saturating_add(SHARE).min(count as usize) as u32,
            };
            self.visit_share(shared, gate, number, run, place, share)?;
        }
        Ok(())
    }

    /// Visits the vertices of its run in rising number, from a place that the seed tells on, and goes round, and then
    /// those of other runs that nobody has taken yet, since not all processors are equally fast.
    fn visit_runs<G: Gate>(
        &mut self,
        shared: &Shared<'_>,
        gate: &G,
        number: u32,
    ) -> Result<(), NoMemory>
        requires worker { IsWorker shared.now.words.now.table_id (vertex_count shared.now.h.now) self.old }
        requires number { number < shared.now.workers }
        ensures { IsWorker shared.now.words.now.table_id (vertex_count shared.now.h.now) self.new }
    {
        self.ratings.fill(shared.h.vertices())?;
        'runs: for others in 0..shared.workers {
            let mut whose = number + others;
            if whose >= shared.workers {
                whose -= shared.workers;
            }
            self.visit_shares(shared, gate, number, whose)?;
        }
        Ok(())
    }

    /// Fills the ratings and makes its visits, and notes where there is no memory.
    pub(crate) fn run<G: Gate>(&mut self, shared: &Shared<'_>, gate: &G, number: u32)
        requires worker { IsWorker shared.now.words.now.table_id (vertex_count shared.now.h.now) self.old }
        requires number { number < shared.now.workers }
        ensures { IsWorker shared.now.words.now.table_id (vertex_count shared.now.h.now) self.new }
    {
        self.failed = self.visit_runs(shared, gate, number).is_err();
    }
}
