//! Where searches begin: the vertices on nets that touch several blocks.

ghost use Rattle.std.specs.Prelude.{◌≡◌, ◌↔◌, ◌<◌, ◌≤◌, ◌^◌, All, IfOk, IsTrue, length, vec_len};
ghost use Rattle.hg_defs.specs.Hypergraph.{vertex_count, net_count, net_of};
ghost use Rattle.hg_defs.specs.Cost.{connectivity};

use crate::beside::each_chunk_beside;
use crew::{Span, span_of};
use hg_base::NoMemory;
use incidence::Hypergraph;
use move_table::Terms;
use rand_core::utils::NextWord;
use rand_pcg::Lcg64Xsh32;
use std::alloc::Global;
use std::thread::Threads;

/// A thread more marks pins for each so many nets: to start one costs as much.
const LEAST_NETS: u32 = 16384;

/// Whether a net touches two blocks at least. No pin is looked at: the net's first word has 64 and the number of blocks
/// that it touches.
fn is_cut(terms: &Terms, e: u32) -> bool
    requires { e < net_count terms.now.part.hyper }
    ensures { IsTrue result ↔ (2 ≤ connectivity terms.now.part.blocks (net_of terms.now.part.hyper e).pins) }
{
    let (place, _) = terms.part.place_of_net(e);
    let touched = terms.part.words()[place as usize] - 64;
    touched > 1
}

/// Marks the pins of the cut nets of a span.
fn mark_span(h: &Hypergraph, terms: &Terms, span: Span, cut: &mut [bool])
    requires belongs { terms.now.part.hyper ≡ h.now }
    requires within { span.to ≤ net_count h.now }
    requires long { length cut.old ≡ vertex_count h.now }
{
    for e in span.from..span.to {
        if is_cut(terms, e) {
            for v in h.pins(e) {
                cut[*v as usize] = true;
            }
        }
    }
}

/// A mark for each vertex, and those of the vertices on cut nets are set, all in this thread.
pub(crate) fn cut_marks(alloc: Global, h: &Hypergraph, terms: &Terms) -> Result<Vec<bool>, NoMemory>
    requires belongs { terms.now.part.hyper ≡ h.now }
    ensures { IfOk result (λ cut. vec_len cut ≡ vertex_count h.now) }
{
    let mut cut = vec![in alloc; false; h.vertices() as usize]?;
    let all = Span {
        from: 0,
        to: h.nets(),
    };
    mark_span(h, terms, all, cut.as_mut_slice());
    Ok(cut)
}

/// Marks the pins of the cut nets of one of so many shares of the nets, in the only list of a part.
fn mark_share(h: &Hypergraph, terms: &Terms, shares: u32, place: u32, part: &mut [Vec<bool>])
    requires belongs { terms.now.part.hyper ≡ h.now }
    requires shares { shares ≤ 64 }
    requires place { place < shares }
    requires alone { length part.old ≡ 1 }
    requires long { All (λ cut. vec_len cut ≡ vertex_count h.now) part.old }
    ensures long { All (λ cut. vec_len cut ≡ vertex_count h.now) part.new }
{
    let cut = &mut part[0];
    mark_span(
        h,
        terms,
        span_of(h.nets(), shares, place),
        cut.as_mut_slice(),
    );
}

/// Marks the pins of the cut nets, each list of marks those of its share of the nets, by a thread each, and does
/// `own` in this thread meanwhile. Answers what that answered.
pub(crate) fn mark_all<H: Threads + Sync, A, G: FnMut() -> A>(
    rt: &H,
    h: &Hypergraph,
    terms: &Terms,
    cuts: &mut [Vec<bool>],
    own: &mut G,
) -> A
    requires belongs { terms.now.part.hyper ≡ h.now }
    requires few { length cuts.old ≤ 64 }
    requires long { All (λ cut. vec_len cut ≡ vertex_count h.now) cuts.old }
    requires own { G.pre own.old }
    ensures long { All (λ cut. vec_len cut ≡ vertex_count h.now) cuts.new }
    ensures own { G.step own.old result own.new }
{
    let shares = cuts.len() as u32;
    each_chunk_beside(
        rt,
        cuts,
        1,
        &|place: usize, part: &mut [Vec<bool>]|
            requires { (place < shares) × (shares ≤ 64) × (terms.now.part.hyper ≡ h.now) × (length part.now ≡ 1)
                × All (λ cut. vec_len cut ≡ vertex_count h.now) part.now }
            ensures { (length part.exit.now ≡ length part.entry.now)
                × All (λ cut. vec_len cut ≡ vertex_count h.entry.now) part.exit.now }
        { mark_share(h, terms, shares, place as u32, part) },
        own,
    )
}

/// Adds the marks of one list to those of another one.
fn add_marks(cut: &mut [bool], more: &[bool])
    requires { length more.now ≡ length cut.old }
    ensures { length cut.new ≡ length cut.old }
{
    for v in 0..cut.len() {
        cut[v] |= more[v];
    }
}

/// A list of marks, none of which is set, for each of the threads that mark vertices, of which there are at most so
/// many.
pub(crate) fn blank_marks(
    alloc: Global,
    h: &Hypergraph,
    threads: u32,
) -> Result<Vec<Vec<bool>>, NoMemory>
    ensures long { IfOk result (λ cuts. All (λ cut. vec_len cut ≡ vertex_count h.now) cuts.items) }
    ensures few { IfOk result (λ cuts. vec_len cuts ≤ threads) }
{
    let lists = threads.min(1 + h.nets() / LEAST_NETS);
    let vertices = h.vertices() as usize;
    let mut cuts = Vec::with_capacity(alloc, lists as usize)?;
    'lists: for _list in 0..lists {
        cuts.push(vec![in alloc; false; vertices]?)?;
    }
    Ok(cuts)
}

/// A mark for each vertex, and those are set that are set in a list.
pub(crate) fn united(
    alloc: Global,
    h: &Hypergraph,
    cuts: &[Vec<bool>],
) -> Result<Vec<bool>, NoMemory>
    requires { All (λ cut. vec_len cut ≡ vertex_count h.now) cuts.now }
    ensures { IfOk result (λ cut. vec_len cut ≡ vertex_count h.now) }
{
    let mut all = vec![in alloc; false; h.vertices() as usize]?;
    'lists: for cut in cuts {
        add_marks(all.as_mut_slice(), cut.as_slice());
    }
    Ok(all)
}

/// The places that are marked.
pub(crate) fn marked(alloc: Global, cut: &[bool]) -> Result<Vec<u32>, NoMemory>
    requires { length cut.now < 2 ^ 32 }
    ensures below { IfOk result (λ seeds. All (λ v. v < length cut.now) seeds.items) }
    ensures few { IfOk result (λ seeds. vec_len seeds ≤ length cut.now) }
{
    let mut seeds = Vec::new(alloc);
    'vertices: for v in 0..cut.len() as u32 {
        if cut[v as usize] {
            seeds.push(v)?;
        }
    }
    Ok(seeds)
}

/// The place of the first seed that is drawn, of so many, on a level.
pub(crate) fn first_place(count: usize, seed: u64, level: u32) -> u32
    requires { count < 2 ^ 31 }
    ensures { result ≤ count }
{
    match count as u32 {
        0 => 0,
        all => Lcg64Xsh32::new(seed, u64::from(level)).next_word() % all,
    }
}
