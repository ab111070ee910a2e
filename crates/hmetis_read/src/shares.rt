//! The lines of the nets, shared out among threads.

ghost use Rattle.std.specs.Prelude.{◌≡◌, ℕ, ◌+◌, ◌*◌, ◌^◌, ◌<◌, ◌≤◌, ◌++◌, [], length, All, IfOk, IfSome, vec_len};
ghost use Rattle.std.specs.Prelude.{slice_index, slice_index_or, Ok, OnSome};
ghost use Rattle.std.specs.Ordering.{nat_cmp};
ghost use Rattle.hg_defs.specs.Hypergraph.{net_count};
ghost use Rattle.hg_defs.specs.Sorting.{set_of};
ghost use Rattle.hg_text.specs.Kept.{field_lists};
ghost use Rattle.hmetis_read.specs.Graph.{graph};
ghost use Rattle.hmetis_read.specs.Shares.{SpellsNets, pins_spelt, AreLight, AreCuts, part_of, with_nets};

use crate::flat::FlatNets;
use crate::header::{Shape, read_header};
use crate::net::{MOST_PINS, read_net};
use crate::{GraphFault, LineKind};
use crew::each;
use hg_base::{FlatHyper, NoMemory};
use hg_text::{Lines, end_of_line};
use std::alloc::{AllocError, Global};
use std::thread::Threads;

/// The nets that lines spell, and how many pins they are spelt with, repeats included.
#[derive(Drop)]
struct ReadNets {
    nets: FlatNets,
    pins: u32,
}

/// Reads the hypergraph that a text spells, by so many threads at most, each of which reads a part of
/// the nets' lines by itself. It answers None for whatever else the text may be: a text that spells no
/// hypergraph, or weights of vertices, or too little memory. Then the text is to be read from its start:
/// a part doesn't know the numbers of its lines, nor how many pins are before it, and so no first fault.
pub(crate) fn read_shares<R: Threads + Sync>(
    rt: &R,
    alloc: Global,
    bytes: &[u8],
    threads: u32,
) -> Option<FlatHyper>
    requires bytes { length bytes.now ≤ 2 ^ 29 }
    requires threads { 0 < threads }
    ensures { IfSome result (λ h. graph bytes.now ≡ Ok h) }
{
    let mut lines = Lines::over(bytes);
    let Ok(shape) = read_header(&mut lines) else {
        return None;
    };
    if shape.vertex_weights {
        return None;
    }
    let hyper = read_parts(rt, alloc, lines.rest(), &shape, threads)?;
    if hyper.nets() != shape.nets {
        return None;
    }
    Some(hyper)
}

/// Reads the nets of a text of lines of nets, by so many threads at most: the hypergraph of the shape's
/// vertices with these nets.
fn read_parts<R: Threads + Sync>(
    rt: &R,
    alloc: Global,
    text: &[u8],
    shape: &Shape,
    threads: u32,
) -> Option<FlatHyper>
    requires bytes { length text.now ≤ 2 ^ 29 }
    requires nets { shape.now.nets ≤ 2 ^ 22 }
    requires vertices { shape.now.vertices ≤ 2 ^ 22 }
    requires threads { 0 < threads }
    ensures nets { IfSome result (λ h.
        SpellsNets shape.now (field_lists text.now) h.nets (pins_spelt shape.now (field_lists text.now))) }
    ensures others { IfSome result (λ h. h ≡ with_nets shape.now h.nets) }
{
    let Ok(cuts) = cuts_of(alloc, text, threads) else {
        return None;
    };
    let Ok(parts) = fill_parts(rt, alloc, text, shape, &cuts) else {
        return None;
    };
    let mut hyper = start_for(alloc, shape, &parts).ok()?;
    let mut pins = 0;
    for j in 0..parts.len() {
        let Some(part) = &parts[j] else {
            return None;
        };
        pins = add_part(shape, &mut hyper, pins, part)?;
    }
    Some(hyper)
}

/// Places that cut a text into parts of about one size, so many at most, between two lines.
fn cuts_of(alloc: Global, text: &[u8], parts: u32) -> Result<Vec<usize>, AllocError>
    requires bytes { length text.now ≤ 2 ^ 29 }
    requires parts { 0 < parts }
    ensures { IfOk result (λ cuts. AreCuts text.now (length text.now) cuts.items) }
{
    let size = text.len() / parts as usize + 1;
    let mut cuts = vec![in alloc; 0usize]?;
    let mut end = 0;
    'parts: while end < text.len() {
        end += end_of_line(&text[end..], size.min(text.len() - end));
        cuts.push(end)?;
    }
    Ok(cuts)
}

/// The nets of each part, or None where it has a fault. Their room is made here, since the memory that
/// a thread takes stays with the thread's arena.
fn fill_parts<R: Threads + Sync>(
    rt: &R,
    alloc: Global,
    text: &[u8],
    shape: &Shape,
    cuts: &[usize],
) -> Result<Vec<Option<ReadNets>>, NoMemory>
    requires bytes { length text.now ≤ 2 ^ 29 }
    requires nets { shape.now.nets ≤ 2 ^ 22 }
    requires cuts { AreCuts text.now (length text.now) cuts.now }
    ensures count { IfOk result (λ parts. vec_len parts + 1 ≡ length cuts.now) }
    ensures each { IfOk result (λ parts. (j : ℕ) (d : _) → j < vec_len parts →
        IfSome (slice_index_or parts.items j d) (λ part.
        SpellsNets shape.now (field_lists (part_of text.now cuts.now j)) part.nets part.pins)) }
{
    let mut parts = empty_parts(alloc, shape, cuts)?;
    each(
        rt,
        parts.as_mut_slice(),
        &|j: usize, part: &mut Option<ReadNets>|
            requires { (j + 1 < length cuts.now) × (length text.now ≤ 2 ^ 29) × (shape.now.nets ≤ 2 ^ 22)
                × AreCuts text.now (length text.now) cuts.now × IfSome part.now (λ part. part.nets ≡ []) }
            ensures { IfSome part.exit.now (λ part. SpellsNets shape.entry.now
                (field_lists (part_of text.entry.now cuts.entry.now j)) part.nets part.pins) }
        { fill_part(alloc, text, shape, cuts, j, part) },
    );
    Ok(parts)
}

/// Room for the nets of each part: for all that so many bytes may spell, of which each takes a byte, and
/// each of its pins two. What isn't written to of so large a room takes no memory.
fn empty_parts(
    alloc: Global,
    shape: &Shape,
    cuts: &[usize],
) -> Result<Vec<Option<ReadNets>>, NoMemory>
    requires some { 0 < length cuts.now }
    requires rising { (j : ℕ) → j + 1 < length cuts.now → slice_index cuts.now j ≤ slice_index cuts.now (j + 1) }
    ensures count { IfOk result (λ parts. vec_len parts + 1 ≡ length cuts.now) }
    ensures empty { IfOk result (λ parts. All (λ one. IfSome one (λ part. part.nets ≡ [])) parts.items) }
{
    let mut parts = Vec::new(alloc);
    for j in 0..cuts.len() - 1 {
        let bytes = cuts[j + 1] - cuts[j];
        let nets = bytes.min(shape.nets as usize);
        let pins = (bytes / 2).min(MOST_PINS as usize);
        parts.push(Some(ReadNets {
            nets: FlatNets::with_room(alloc, nets, pins)?,
            pins: 0,
        }))?;
    }
    Ok(parts)
}

/// Reads the lines of part `j` into its room. The thread has the lengths of its lists to itself meanwhile,
/// since a line of the cache that holds those of two parts would go to and fro between threads.
fn fill_part(
    alloc: Global,
    text: &[u8],
    shape: &Shape,
    cuts: &[usize],
    j: usize,
    part: &mut Option<ReadNets>,
)
    requires bytes { length text.now ≤ 2 ^ 29 }
    requires nets { shape.now.nets ≤ 2 ^ 22 }
    requires part { j + 1 < length cuts.now }
    requires cuts { AreCuts text.now (length text.now) cuts.now }
    requires empty { IfSome part.old (λ part. part.nets ≡ []) }
    ensures { IfSome part.new (λ part.
        SpellsNets shape.now (field_lists (part_of text.now cuts.now j)) part.nets part.pins) }
{
    if let Some(room) = part.take() {
        *part = read_part(alloc, &text[cuts[j]..cuts[j + 1]], shape, room.nets).ok();
    }
}

/// Reads lines of nets, no more than the header says, and adds the nets to a list that has none. In a fault
/// lines are numbered from the text's first.
fn read_part(
    alloc: Global,
    text: &[u8],
    shape: &Shape,
    room: FlatNets,
) -> Result<ReadNets, GraphFault>
    requires bytes { length text.now ≤ 2 ^ 29 }
    requires nets { shape.now.nets ≤ 2 ^ 22 }
    requires room { room ≡ [] }
    ensures { IfOk result (λ part. SpellsNets shape.now (field_lists text.now) part.nets part.pins) }
{
    let mut nets = room;
    let mut before = 0;
    let mut lines = Lines::over(text);
    let mut pins = Vec::new(alloc);
    while let Some(mut line) = lines.next_kept() {
        if nets.len() == shape.nets as usize {
            return Err(GraphFault::Bad {
                line: line.line(),
                kind: LineKind::ExtraLine,
            });
        }
        let weight = read_net(&mut line, shape, before, &mut pins)?;
        before += pins.len() as u32;
        sort_set(&mut pins);
        nets.push(weight, pins.as_slice())?;
    }
    Ok(ReadNets { nets, pins: before })
}

/// Makes a list the set of its numbers.
fn sort_set(numbers: &mut Vec<u32>)
    ensures { numbers.new.items ≡ set_of nat_cmp numbers.old.items }
{
    numbers.sort_unstable();
    numbers.dedup();
}

/// The vertices without nets, with room for the nets of parts.
fn start_for(
    alloc: Global,
    shape: &Shape,
    parts: &[Option<ReadNets>],
) -> Result<FlatHyper, NoMemory>
    requires { shape.now.vertices ≤ 2 ^ 22 }
    ensures { IfOk result (λ h. h ≡ with_nets shape.now []) }
{
    let mut nets: usize = 0;
    let mut pins: usize = 0;
    for part in parts {
        if let Some(part) = part {
            nets = nets.saturating_add(part.nets.len());
            pins = pins.saturating_add(part.pins as usize);
        }
    }
    let mut hyper = FlatHyper::start(alloc, shape.vertices)?;
    hyper.reserve(nets, pins)?;
    Ok(hyper)
}

/// Adds the nets of a part behind those of others, where all of them are within the limits, and answers how
/// many pins they are spelt with.
fn add_part(shape: &Shape, hyper: &mut FlatHyper, others: u32, part: &ReadNets) -> Option<u32>
    requires nets { shape.now.nets ≤ 2 ^ 22 }
    requires vertices { shape.now.vertices ≤ 2 ^ 22 }
    requires hyper { hyper.old ≡ with_nets shape.now hyper.old.nets }
    requires others { AreLight shape.now hyper.old.nets others }
    requires part { AreLight shape.now part.now.nets part.now.pins }
    ensures hyper { OnSome result (hyper.new ≡ with_nets shape.now (hyper.old.nets ++ part.now.nets)) }
    ensures pins { IfSome result (λ pins. pins ≡ others + part.now.pins) }
    ensures limit { IfSome result (λ pins. pins ≤ 2 ^ 25) }
    ensures count { OnSome result (net_count hyper.new ≤ shape.now.nets) }
{
    let pins = others + part.pins;
    if pins > MOST_PINS || hyper.nets() as usize + part.nets.len() > shape.nets as usize {
        return None;
    }
    let Ok(()) = part.nets.add_to(hyper) else {
        return None;
    };
    Some(pins)
}
