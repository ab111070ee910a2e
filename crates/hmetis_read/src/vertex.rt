ghost use Rattle.std.specs.Prelude.{◌≡◌, ◌^◌, ◌<◌, length, All, IfOk, OnOk};
ghost use Rattle.hg_defs.specs.Hypergraph.{vertex_count};
ghost use Rattle.hmetis_read.specs.Graph.{vertex_in, each, first_in, read_on};
ghost use Rattle.hmetis_read.specs.Reads.{Reads};

use crate::net::{missing, read_weight};
use crate::{GraphFault, LineKind};
use hg_base::FlatHyper;
use hg_text::{Kept, Lines};

// Reads a vertex's line: answers its weight.
fn read_vertex(line: &mut Kept) -> Result<u64, GraphFault>
    requires { 0 < length line.old.fields }
    ensures value { result ≡ vertex_in line.old }
    ensures bound { IfOk result (λ weight. weight < 2 ^ 32) }
{
    let weight = read_weight(line);
    if line.fields() > 0 {
        return Err(GraphFault::Bad {
            line: line.line(),
            kind: LineKind::FieldCount,
        });
    }
    weight
}

// Reads the lines of the vertices, and sets the vertices' weights.
pub(crate) fn read_vertices(lines: &mut Lines, hyper: &mut FlatHyper) -> Result<(), GraphFault>
    requires { All (λ weight. weight < 2 ^ 32) hyper.old.weights }
    ensures weights { Reads result hyper.new.weights (first_in (vertex_count hyper.old) (each vertex_in) lines.old) }
    ensures others { hyper.new ≡ record hyper.old { weights = hyper.new.weights } }
    ensures rest { OnOk result (lines.new ≡ read_on (vertex_count hyper.old) lines.old) }
{
    for vertex in 0..hyper.vertices() {
        let Some(mut line) = lines.next_kept() else {
            return Err(missing(lines));
        };
        hyper.set_vertex_weight(vertex, read_vertex(&mut line)?);
    }
    Ok(())
}
