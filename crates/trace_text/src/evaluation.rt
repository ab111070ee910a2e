ghost use Rattle.std.specs.Prelude.{◌≡◌, ◌≤◌};
ghost use Rattle.hg_io.specs.Faults.{HasCause};
ghost use Rattle.hg_io.specs.Transfers.{PutsAll};
ghost use Rattle.hg_defs.specs.Partition.{IsPartition};
ghost use Rattle.trace_text.specs.Evaluation.{evaluation_text};

use crate::lines::{put_fits, put_line, put_loads, put_objective, put_sizes};
use crate::loads::{all_within, sum_loads};
use hg_base::{FlatHyper, cost_of, limit_of};
use hg_io::{Failed, Pen, Sink};

/// Writes the evaluation of a partition into `k` blocks, 2 to 256, with `eps` thousandths, at most
/// 100,000: sizes, the limit on loads, the exact cost, the load of each block, and whether the
/// partition fits. There is one block below `k` for each vertex.
///
/// It takes no memory over a sink that takes none.
pub fn put_evaluation<K: Sink>(
    sink: &mut K,
    h: &FlatHyper,
    k: u32,
    eps: u32,
    blocks: &[u32],
) -> Result<(), Failed>
    requires least_k { 2 ≤ k }
    requires most_k { k ≤ 256 }
    requires eps { eps ≤ 100000 }
    requires partition { IsPartition h.now k blocks.now }
    ensures bytes { PutsAll (K.got sink.old) (K.got sink.new) result (evaluation_text h.now k eps blocks.now) }
    ensures cause { HasCause (K.faults sink.old) (K.faults sink.new) result }
{
    let all_loads = sum_loads(h, blocks);
    let loads = &all_loads[..k as usize];
    let limit = limit_of(h.total_weight(), k, eps);
    let mut pen = Pen::new();
    put_sizes(&mut pen, sink, h, k, limit)?;
    put_objective(&mut pen, sink, h.objective())?;
    put_line(&mut pen, sink, b"cost ", cost_of(h, blocks, k))?;
    put_loads(&mut pen, sink, loads)?;
    put_fits(&mut pen, sink, all_within(loads, limit))?;
    pen.end(sink)
}
