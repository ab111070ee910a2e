ghost use Rattle.std.specs.Prelude.{◌^◌, ◌≤◌, length};
ghost use Rattle.hmetis_read.specs.Graph.{graph};
ghost use Rattle.hmetis_read.specs.Reads.{Answers};

use crate::header::read_header;
use crate::net::read_nets;
use crate::shares::read_shares;
use crate::vertex::read_vertices;
use crate::{GraphFault, LineKind};
use hg_base::FlatHyper;
use hg_text::Lines;
use std::alloc::Global;
use std::thread::Threads;

/// A text of fewer bytes is read by one thread: to start others takes longer than to read it.
const MANY: usize = 1 << 16;

/// So many threads read a text at most: what they read is put together by one.
const MOST_THREADS: u32 = 8;

/// Reads the hypergraph that a text of at most 2^29 bytes spells, or answers its first fault.
///
/// Lines are read from the first to the last, and fields from the left.
pub fn read_hypergraph(alloc: Global, bytes: &[u8]) -> Result<FlatHyper, GraphFault>
    requires { length bytes.now ≤ 2 ^ 29 }
    ensures graph { Answers result (graph bytes.now) }
{
    let mut lines = Lines::over(bytes);
    let shape = read_header(&mut lines)?;
    let mut hyper = FlatHyper::start(alloc, shape.vertices)?;
    // A net takes a line: a text has no more nets than bytes, whatever its header says.
    hyper.reserve((shape.nets as usize).min(bytes.len()), 0)?;
    read_nets(alloc, &mut lines, &shape, &mut hyper)?;
    if shape.vertex_weights {
        read_vertices(&mut lines, &mut hyper)?;
    }
    match lines.next_kept() {
        Some(line) => Err(GraphFault::Bad {
            line: line.line(),
            kind: LineKind::ExtraLine,
        }),
        None => Ok(hyper),
    }
}

/// Reads what `read_hypergraph` reads, with the same answer, by so many threads at most.
///
/// Where the threads find no hypergraph, the text is read once more from its start, which finds its first
/// fault.
pub fn read_with<R: Threads + Sync>(
    rt: &R,
    alloc: Global,
    bytes: &[u8],
    threads: u32,
) -> Result<FlatHyper, GraphFault>
    requires { length bytes.now ≤ 2 ^ 29 }
    ensures graph { Answers result (graph bytes.now) }
{
    if threads > 1 && bytes.len() >= MANY {
        if let Some(hyper) = read_shares(rt, alloc, bytes, threads.min(MOST_THREADS)) {
            return Ok(hyper);
        }
    }
    read_hypergraph(alloc, bytes)
}
