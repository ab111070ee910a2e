ghost use Rattle.std.specs.Prelude.{◌≡◌, [], ◌∷◌, map, if◌then◌else◌};
ghost use Rattle.std.specs.List.{flat_map};
ghost use Rattle.hg_io.specs.Faults.{HasCause};
ghost use Rattle.hg_io.specs.Transfers.{PutsAll, Writes};
ghost use Rattle.hg_defs.specs.Hypergraph.{net_count, vertex_count};
ghost use Rattle.part_text.specs.NumberLines.{numbers_line};
ghost use Rattle.hg_make.specs.Text.{are_nets_weighted, are_vertices_weighted, format, net_numbers, hypergraph_text};

use crate::numbers::{put_numbers, put_pins, put_token, separator};
use hg_base::FlatHyper;
use hg_io::{Failed, Pen, Sink};

/// Writes a hypergraph: the number of nets and of vertices, a line for each net, and one for each
/// vertex where one doesn't weigh 1. Pins are counted from 1, in rising order. Nets have their
/// weights where one doesn't weigh 1 or has no pins.
///
/// It takes no memory over a sink that takes none.
pub fn put_hypergraph<K: Sink>(sink: &mut K, h: &FlatHyper) -> Result<(), Failed>
    ensures bytes { PutsAll (K.got sink.old) (K.got sink.new) result (hypergraph_text h.now) }
    ensures cause { HasCause (K.faults sink.old) (K.faults sink.new) result }
{
    let net_weights = has_weighted_nets(h);
    let vertex_weights = has_weighted_vertices(h);
    let mut pen = Pen::new();
    put_header(&mut pen, sink, h, net_weights, vertex_weights)?;
    put_nets(&mut pen, sink, h, net_weights)?;
    put_weights(&mut pen, sink, h, vertex_weights)?;
    pen.end(sink)
}

// Whether the weights of nets must be written.
fn has_weighted_nets(h: &FlatHyper) -> bool
    ensures { result ≡ are_nets_weighted h.now }
{
    'nets: for e in 0..h.nets() {
        if h.net_weight(e) != 1 || h.pins(e).is_empty() {
            return true;
        }
    }
    false
}

// Whether the weights of vertices must be written.
fn has_weighted_vertices(h: &FlatHyper) -> bool
    ensures { result ≡ are_vertices_weighted h.now }
{
    'vertices: for v in 0..h.vertices() {
        if h.vertex_weight(v) != 1 {
            return true;
        }
    }
    false
}

fn put_header<K: Sink>(
    pen: &mut Pen,
    sink: &mut K,
    h: &FlatHyper,
    nets: bool,
    vertices: bool,
) -> Result<(), Failed>
    ensures bytes { Writes (K.got sink.old) (K.got sink.new) pen.old pen.new result
        (numbers_line (net_count h.now ∷ vertex_count h.now ∷ format nets vertices)) }
    ensures cause { HasCause (K.faults sink.old) (K.faults sink.new) result }
{
    let m = u64::from(h.nets());
    let n = u64::from(h.vertices());
    match (nets, vertices) {
        (false, false) => put_numbers(pen, sink, &[m, n]),
        (true, false) => put_numbers(pen, sink, &[m, n, 1]),
        (false, true) => put_numbers(pen, sink, &[m, n, 10]),
        (true, true) => put_numbers(pen, sink, &[m, n, 11]),
    }
}

fn put_nets<K: Sink>(
    pen: &mut Pen,
    sink: &mut K,
    h: &FlatHyper,
    weighted: bool,
) -> Result<(), Failed>
    ensures bytes { Writes (K.got sink.old) (K.got sink.new) pen.old pen.new result
        (flat_map numbers_line (map (net_numbers weighted) h.now.nets)) }
    ensures cause { HasCause (K.faults sink.old) (K.faults sink.new) result }
{
    'nets: for e in 0..h.nets() {
        put_net(pen, sink, weighted, h.net_weight(e), h.pins(e))?;
    }
    Ok(())
}

fn put_net<K: Sink>(
    pen: &mut Pen,
    sink: &mut K,
    weighted: bool,
    weight: u64,
    pins: &[u32],
) -> Result<(), Failed>
    ensures bytes { Writes (K.got sink.old) (K.got sink.new) pen.old pen.new result
        (numbers_line (net_numbers weighted (record { weight = weight; pins = pins.now }))) }
    ensures cause { HasCause (K.faults sink.old) (K.faults sink.new) result }
{
    if !weighted {
        return put_pins(pen, sink, pins);
    }
    put_token(pen, sink, weight, separator(pins.len()))?;
    put_pins(pen, sink, pins)
}

fn put_weights<K: Sink>(
    pen: &mut Pen,
    sink: &mut K,
    h: &FlatHyper,
    weighted: bool,
) -> Result<(), Failed>
    ensures bytes { Writes (K.got sink.old) (K.got sink.new) pen.old pen.new result
        (flat_map numbers_line (if weighted then map (λ w. w ∷ []) h.now.weights else [])) }
    ensures cause { HasCause (K.faults sink.old) (K.faults sink.new) result }
{
    if !weighted {
        return Ok(());
    }
    'weights: for v in 0..h.vertices() {
        put_token(pen, sink, h.vertex_weight(v), b'\n')?;
    }
    Ok(())
}
