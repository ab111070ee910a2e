ghost use Rattle.std.specs.Prelude.{◌≡◌};
ghost use Rattle.hg_io.specs.Faults.{HasCause};
ghost use Rattle.hg_io.specs.Transfers.{PutsAll};
ghost use Rattle.hg_defs.specs.Cost.{cost};
ghost use Rattle.hg_defs.specs.LeastLoaded.{greedy as greedy_placement};
ghost use Rattle.trace_text.specs.Summary.{summary_text};

use crate::lines::put_line;
use hg_base::FlatHyper;
use hg_io::{Failed, Pen, Sink};

/// What holds of every outcome.
const OUTCOME: &[u8] = b"fits yes\nsettled yes\nabove greedy no\ngains exact yes\n";

/// Writes what is the same at each run on `h` with `k` blocks: sizes, the limit on loads, the cost
/// of greedy placement, which is `greedy`, and what holds of every outcome.
///
/// It takes no memory over a sink that takes none.
pub fn put_summary<K: Sink>(
    sink: &mut K,
    h: &FlatHyper,
    k: u32,
    limit: u64,
    greedy: u64,
) -> Result<(), Failed>
    requires { greedy ≡ cost h.now (greedy_placement h.now k) }
    ensures bytes { PutsAll (K.got sink.old) (K.got sink.new) result (summary_text h.now k limit) }
    ensures cause { HasCause (K.faults sink.old) (K.faults sink.new) result }
{
    let mut pen = Pen::new();
    put_line(&mut pen, sink, b"vertices ", u64::from(h.vertices()))?;
    put_line(&mut pen, sink, b"nets ", u64::from(h.nets()))?;
    put_line(&mut pen, sink, b"blocks ", u64::from(k))?;
    put_line(&mut pen, sink, b"limit ", limit)?;
    put_line(&mut pen, sink, b"greedy ", greedy)?;
    pen.write(sink, OUTCOME)?;
    pen.end(sink)
}
