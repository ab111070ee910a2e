//! What vertices may do where a round opens. Threads read it off the partition before the workers search, and again
//! only around the vertices that moved since. So a search that starts from many vertices reads none of them that it
//! doesn't come to. It draws its rows up from it: from the whole rows, which are kept on small levels, and in two
//! blocks from what a vertex may do.

ghost use Rattle.std.specs.Prelude.{◌≡◌, ◌≢◌, ◌+◌, ◌*◌, ◌^◌, ◌<◌, ◌≤◌, All, IfSome, length};
ghost use Rattle.hg_defs.specs.Hypergraph.{vertex_count, net_count};
ghost use Rattle.fm_search.specs.Opened.{IsBelow};

use crate::beside::each_chunk_beside;
use crate::cells::{BLANK, Cell, Used, share, start_of};
use crate::reading::{Choice, Entered, WORDS_A_PIN, enter, scored};
use crew::each_chunk;
use hg_base::FREE;
use incidence::Hypergraph;
use move_table::Terms;
use std::thread::Threads;

/// A thread more reads vertices for each so many nets: to start one costs as much.
pub(crate) const LEAST_NETS: u32 = 4096;

/// What one vertex may do.
#[derive(Clone, Copy)]
pub(crate) enum Opening {
    /// It wasn't read since a vertex next to it moved.
    Unread,
    /// It is fixed, or no net of it has a pin in another block.
    Stays,
    /// Where it gains most, the lowest block at a tie, whether there is room or not.
    Moves(Choice),
}

/// What is known of all vertices where a round opens, or of none: what they may do, and their rows one after the other
/// where whole rows are kept.
#[derive(Clone, Copy)]
pub(crate) struct Known<'a> {
    pub(crate) openings: &'a [Opening],
    pub(crate) rows: &'a [Cell],
}

/// Enters a net by its counts in all blocks, until all of its pins are found.
fn enter_blocks(
    terms: &Terms,
    row: &mut [Cell],
    used: &mut Used,
    entered: &Entered,
    e: u32,
    others: u64,
)
    requires net { e < net_count terms.now.part.hyper }
    requires row { length row.old ≡ terms.now.part.k }
    requires few { terms.now.part.k ≤ 256 }
    ensures { length row.new ≡ length row.old }
{
    let mut left = others;
    'blocks: for b in 0..terms.part.k() {
        if left == 0 {
            return;
        }
        let count = terms.count(e, b);
        if b != entered.block && count > 0 {
            enter(row, used, entered, b, count);
            left = left.saturating_sub(count);
        }
    }
}

/// Enters a net by the blocks of its pins.
fn enter_pins(
    h: &Hypergraph,
    terms: &Terms,
    row: &mut [Cell],
    used: &mut Used,
    entered: &Entered,
    e: u32,
)
    requires belongs { terms.now.part.hyper ≡ h.now }
    requires net { e < net_count h.now }
    requires row { length row.old ≡ terms.now.part.k }
    requires few { terms.now.part.k ≤ 256 }
    ensures { length row.new ≡ length row.old }
{
    'pins: for u in h.pins(e) {
        let b = terms.part.blocks()[*u as usize];
        if b == entered.block {
            continue;
        }
        used.reach(row, b);
        if row[b as usize].last != e {
            row[b as usize].last = e;
            enter(row, used, entered, b, terms.count(e, b));
        }
    }
}

/// Enters a net of a vertex in `block`.
fn enter_net(h: &Hypergraph, terms: &Terms, row: &mut [Cell], used: &mut Used, e: u32, block: u32)
    requires belongs { terms.now.part.hyper ≡ h.now }
    requires net { e < net_count h.now }
    requires block { block < terms.now.part.k }
    requires row { length row.old ≡ terms.now.part.k }
    requires few { terms.now.part.k ≤ 256 }
    ensures { length row.new ≡ length row.old }
{
    let size = h.pins(e).len() as u32;
    if size < 2 {
        return;
    }
    let net = scored(h, e);
    let entered = Entered {
        net,
        share: share(&net),
        block,
    };
    let own = terms.count(e, block);
    enter(row, used, &entered, block, own);
    let others = u64::from(size).saturating_sub(own);
    if terms.part.k() <= WORDS_A_PIN * size {
        enter_blocks(terms, row, used, &entered, e, others);
    } else if others > 0 {
        enter_pins(h, terms, row, used, &entered, e);
    }
}

/// The other block of the highest gain of a vertex in `block`, by its row; the lowest one at a tie.
fn highest(row: &[Cell], used: &Used, block: u32) -> Option<Choice>
    requires few { length row.now ≤ 256 }
    requires block { block < length row.now }
    ensures { IfSome result (λ c. c.to < length row.now) }
{
    let k = row.len() as u32;
    let own = row[block as usize];
    let mut best: Option<Choice> = None;
    let mut from = 0u32;
    'places: for _ in 0..k {
        let Some(b) = used.next(from, k) else {
            break;
        };
        from = b + 1;
        let cell = row[b as usize];
        let gain = cell.weight.wrapping_sub(own.weight);
        if b == block || cell.nets == 0 {
            continue;
        }
        if let Some(choice) = best {
            if gain <= choice.gain {
                continue;
            }
        }
        best = Some(Choice {
            to: b,
            nets: cell.nets,
            gain,
            pull: cell.pull.wrapping_sub(own.pull),
        });
    }
    best
}

/// Enters the nets of a vertex in `block` into its row, in which no cell is used. That of its own block is then.
fn read_row(h: &Hypergraph, terms: &Terms, row: &mut [Cell], used: &mut Used, v: u32, block: u32)
    requires belongs { terms.now.part.hyper ≡ h.now }
    requires vertex { v < vertex_count h.now }
    requires block { block < terms.now.part.k }
    requires row { length row.old ≡ terms.now.part.k }
    requires few { terms.now.part.k ≤ 256 }
    ensures row { length row.new ≡ length row.old }
{
    used.reach(row, block);
    'nets: for e in h.nets_of(v) {
        enter_net(h, terms, row, used, *e, block);
    }
}

/// What a free vertex in `block` may do, by its row.
fn opening_of(row: &[Cell], used: &Used, block: u32) -> Opening
    requires few { length row.now ≤ 256 }
    requires block { block < length row.now }
    ensures below { IsBelow (length row.now) result }
{
    match highest(row, used, block) {
        Some(choice) => Opening::Moves(choice),
        None => Opening::Stays,
    }
}

/// Reads what a vertex may do.
fn read_opening(h: &Hypergraph, terms: &Terms, row: &mut [Cell], v: u32) -> Opening
    requires belongs { terms.now.part.hyper ≡ h.now }
    requires vertex { v < vertex_count h.now }
    requires row { length row.old ≡ terms.now.part.k }
    requires few { terms.now.part.k ≤ 256 }
    ensures row { length row.new ≡ length row.old }
    ensures below { IsBelow terms.now.part.k result }
{
    if h.fix(v) != FREE {
        return Opening::Stays;
    }
    let block = terms.part.blocks()[v as usize];
    let mut used = Used::none();
    read_row(h, terms, row, &mut used, v, block);
    opening_of(row, &used, block)
}

/// Whether a vertex wasn't read and is marked.
fn is_due(opening: &Opening, cut: bool) -> bool {
    match opening {
        Opening::Unread => cut,
        Opening::Stays | Opening::Moves(_) => false,
    }
}

/// Reads the marked vertices of a run that weren't read.
pub(crate) fn read_run(
    h: &Hypergraph,
    terms: &Terms,
    cut: &[bool],
    first: usize,
    run: &mut [Opening],
)
    requires belongs { terms.now.part.hyper ≡ h.now }
    requires few { terms.now.part.k ≤ 256 }
    requires marks { length cut.now ≡ vertex_count h.now }
    requires within { first + length run.old ≤ vertex_count h.now }
    requires below { All (IsBelow terms.now.part.k) run.old }
    ensures long { length run.new ≡ length run.old }
    ensures below { All (IsBelow terms.now.part.k) run.new }
{
    let _vertices = h.vertices();
    let mut cells = [BLANK; 256];
    let row = &mut cells[..terms.part.k() as usize];
    'vertices: for i in 0..run.len() {
        if is_due(&run[i], cut[first + i]) {
            run[i] = read_opening(h, terms, row, (first + i) as u32);
        }
    }
}

/// Reads the whole rows of the marked free vertices that weren't read, by what is known of the vertices from a first
/// one on, into a run that begins with the row of the first one, until either ends.
fn read_rows(
    h: &Hypergraph,
    terms: &Terms,
    cut: &[bool],
    first: usize,
    known: &[Opening],
    run: &mut [Cell],
)
    requires belongs { terms.now.part.hyper ≡ h.now }
    requires marks { length cut.now ≡ vertex_count h.now }
    requires within { first + length known.now ≤ vertex_count h.now }
    ensures { length run.new ≡ length run.old }
{
    let _vertices = h.vertices();
    let blocks = terms.part.blocks();
    let k = terms.part.k();
    'vertices: for i in 0..known.len() {
        let start = start_of(i as u32, k);
        let Some(row) = run.get_mut(start..start + k as usize) else {
            return;
        };
        let v = first + i;
        if is_due(&known[i], cut[v]) && h.fix(v as u32) == FREE {
            row.fill(BLANK);
            read_row(h, terms, row, &mut Used::none(), v as u32, blocks[v]);
        }
    }
}

/// The rows from the one at a place on, or none where they end before.
fn rows_from(rows: &[Cell], place: u32, k: u32) -> &[Cell]
    requires { k ≤ 256 }
{
    &rows[start_of(place, k).min(rows.len())..]
}

/// Tells what a vertex may do, by its whole row, with which the rows begin. One that is fixed, or has no row, stays.
fn choose(h: &Hypergraph, terms: &Terms, rows: &[Cell], v: u32) -> Opening
    requires belongs { terms.now.part.hyper ≡ h.now }
    requires vertex { v < vertex_count h.now }
    ensures { IsBelow terms.now.part.k result }
{
    let block = terms.part.blocks()[v as usize];
    match rows.get(..terms.part.k() as usize) {
        Some(row) if h.fix(v) == FREE => opening_of(row, &Used::all(), block),
        _ => Opening::Stays,
    }
}

/// Tells what the marked vertices of a run may do that weren't read, by their whole rows, which begin with that of the
/// first one.
fn choose_run(
    h: &Hypergraph,
    terms: &Terms,
    cut: &[bool],
    first: usize,
    rows: &[Cell],
    run: &mut [Opening],
)
    requires belongs { terms.now.part.hyper ≡ h.now }
    requires marks { length cut.now ≡ vertex_count h.now }
    requires within { first + length run.old ≤ vertex_count h.now }
    requires below { All (IsBelow terms.now.part.k) run.old }
    ensures long { length run.new ≡ length run.old }
    ensures below { All (IsBelow terms.now.part.k) run.new }
{
    let _vertices = h.vertices();
    let _blocks = terms.part.blocks();
    let k = terms.part.k();
    'vertices: for i in 0..run.len() {
        if is_due(&run[i], cut[first + i]) {
            let rows = rows_from(rows, i as u32, k);
            run[i] = choose(h, terms, rows, (first + i) as u32);
        }
    }
}

/// Reads what the marked vertices of a run may do that weren't read, by their whole rows where these are kept.
pub(crate) fn read_own(
    h: &Hypergraph,
    terms: &Terms,
    cut: &[bool],
    first: usize,
    run: &mut [Opening],
    rows: &mut [Cell],
)
    requires belongs { terms.now.part.hyper ≡ h.now }
    requires few { terms.now.part.k ≤ 256 }
    requires marks { length cut.now ≡ vertex_count h.now }
    requires within { first + length run.old ≤ vertex_count h.now }
    requires below { All (IsBelow terms.now.part.k) run.old }
    ensures long { length run.new ≡ length run.old }
    ensures below { All (IsBelow terms.now.part.k) run.new }
{
    if rows.is_empty() {
        read_run(h, terms, cut, first, run);
    } else {
        read_rows(h, terms, cut, first, run, rows);
        choose_run(h, terms, cut, first, rows, run);
    }
}

/// Reads what the marked vertices may do that weren't read, a thread for each run of so many, and does `own` in this
/// thread meanwhile. Answers what that answered.
fn read_all<H: Threads + Sync, A, G: FnMut() -> A>(
    rt: &H,
    h: &Hypergraph,
    terms: &Terms,
    cut: &[bool],
    size: usize,
    all: &mut [Opening],
    own: &mut G,
) -> A
    requires belongs { terms.now.part.hyper ≡ h.now }
    requires few { terms.now.part.k ≤ 256 }
    requires size { 0 < size }
    requires marks { length cut.now ≡ vertex_count h.now }
    requires long { length all.old ≤ vertex_count h.now }
    requires below { All (IsBelow terms.now.part.k) all.old }
    requires own { G.pre own.old }
    ensures long { length all.new ≡ length all.old }
    ensures below { All (IsBelow terms.now.part.k) all.new }
    ensures own { G.step own.old result own.new }
{
    each_chunk_beside(
        rt,
        all,
        size,
        &|first: usize, run: &mut [Opening]|
            requires { (first + length run.now ≤ vertex_count h.now) × (terms.now.part.hyper ≡ h.now)
                × (terms.now.part.k ≤ 256) × (length cut.now ≡ vertex_count h.now)
                × All (IsBelow terms.now.part.k) run.now }
            ensures { (length run.exit.now ≡ length run.entry.now)
                × All (IsBelow terms.entry.now.part.k) run.exit.now }
        { read_run(h, terms, cut, first, run) },
        own,
    )
}

/// Reads the whole rows of the marked vertices that weren't read, a thread for each run of so many, and does `own` in
/// this thread meanwhile: of the first vertices of a level. Answers what `own` answered.
fn read_all_rows<H: Threads + Sync, A, G: FnMut() -> A>(
    rt: &H,
    h: &Hypergraph,
    terms: &Terms,
    cut: &[bool],
    size: u32,
    known: &[Opening],
    rows: &mut [Cell],
    own: &mut G,
) -> A
    requires belongs { terms.now.part.hyper ≡ h.now }
    requires marks { length cut.now ≡ vertex_count h.now }
    requires long { length known.now ≤ vertex_count h.now }
    requires own { G.pre own.old }
    ensures { G.step own.old result own.new }
{
    let _blocks = terms.part.blocks();
    let k = terms.part.k();
    each_chunk_beside(
        rt,
        rows,
        start_of(size, k).max(1),
        &|place: usize, run: &mut [Cell]|
            requires { (2 ≤ k) × (terms.now.part.hyper ≡ h.now) × (length cut.now ≡ vertex_count h.now)
                × (length known.now ≤ vertex_count h.now) }
            ensures { length run.exit.now ≡ length run.entry.now }
        {
            let first = (place / k as usize).min(known.len());
            read_rows(h, terms, cut, first, &known[first..], run)
        },
        own,
    )
}

/// Tells what the marked vertices may do that weren't read, by their whole rows, a thread for each run of so many but
/// the last, which this one takes: of the first vertices of a level.
fn choose_all<H: Threads + Sync>(
    rt: &H,
    h: &Hypergraph,
    terms: &Terms,
    cut: &[bool],
    size: u32,
    rows: &[Cell],
    all: &mut [Opening],
)
    requires belongs { terms.now.part.hyper ≡ h.now }
    requires size { 0 < size }
    requires marks { length cut.now ≡ vertex_count h.now }
    requires long { length all.old ≤ vertex_count h.now }
    requires below { All (IsBelow terms.now.part.k) all.old }
    ensures long { length all.new ≡ length all.old }
    ensures below { All (IsBelow terms.now.part.k) all.new }
{
    let _blocks = terms.part.blocks();
    let _vertices = h.vertices();
    let k = terms.part.k();
    each_chunk(
        rt,
        all,
        size as usize,
        &|first: usize, run: &mut [Opening]|
            requires { (first + length run.now ≤ vertex_count h.now) × (terms.now.part.hyper ≡ h.now)
                × (vertex_count h.now < 2 ^ 32) × (k ≤ 256) × (length cut.now ≡ vertex_count h.now)
                × All (IsBelow terms.now.part.k) run.now }
            ensures { (length run.exit.now ≡ length run.entry.now)
                × All (IsBelow terms.entry.now.part.k) run.exit.now }
        { choose_run(h, terms, cut, first, rows_from(rows, first as u32, k), run) },
    );
}

/// Reads what the marked vertices may do that weren't read, by at most so many threads and by their whole rows where
/// these are kept, and does `own` in this thread meanwhile: of the first vertices of a level. Answers what `own`
/// answered.
pub(crate) fn read_marked<H: Threads + Sync, A, G: FnMut() -> A>(
    rt: &H,
    h: &Hypergraph,
    terms: &Terms,
    cut: &[bool],
    threads: u32,
    all: &mut [Opening],
    rows: &mut [Cell],
    own: &mut G,
) -> A
    requires belongs { terms.now.part.hyper ≡ h.now }
    requires threads { (1 ≤ threads) × (threads ≤ 64) }
    requires marks { length cut.now ≡ vertex_count h.now }
    requires long { length all.old ≤ vertex_count h.now }
    requires below { All (IsBelow terms.now.part.k) all.old }
    requires own { G.pre own.old }
    ensures long { length all.new ≡ length all.old }
    ensures below { All (IsBelow terms.now.part.k) all.new }
    ensures own { G.step own.old result own.new }
{
    let _blocks = terms.part.blocks();
    let _vertices = h.vertices();
    let runs = threads.min(1 + h.nets() / LEAST_NETS);
    let size = (all.len() as u32).div_ceil(runs).max(1);
    if rows.is_empty() {
        return read_all(rt, h, terms, cut, size as usize, all, own);
    }
    let answer = read_all_rows(rt, h, terms, cut, size, all, rows, own);
    choose_all(rt, h, terms, cut, size, rows, all);
    answer
}
