ghost use Rattle.std.specs.Prelude.{◌≡◌, ◌+◌, ◌*◌, ◌%◌, ◌<◌, ◌≤◌, ◌^◌, [], ◌∷◌, All, IfOk};
ghost use Rattle.hg_make.specs.Made.{made};

use hg_base::{FlatHyper, NoMemory};
use std::alloc::Global;

/// Makes the hypergraph of `n` vertices and `n` nets, 1 to 2^22, in which net i has the vertices i,
/// i + 1 and i * i + 3, modulo n. All weights are 1, and all vertices are free.
pub fn make(alloc: Global, n: u32) -> Result<FlatHyper, NoMemory>
    requires least { 1 ≤ n }
    requires most { n ≤ 2 ^ 22 }
    ensures { IfOk result (λ h. h ≡ made n) }
{
    let mut h = FlatHyper::start(alloc, n)?;
    'nets: for i in 0..n {
        h.push_net(1, &pins_of(i, n))?;
    }
    Ok(h)
}

// The vertices of net `i` of `n`.
fn pins_of(i: u32, n: u32) -> [u32; 3]
    requires least { i < n }
    requires most { n ≤ 2 ^ 22 }
    ensures pins { result ≡ i ∷ (i + 1) % n ∷ (i * i + 3) % n ∷ [] }
    ensures below { All (λ v. v < n) result }
{
    let square = u64::from(i) * u64::from(i);
    let third = (square + 3) % u64::from(n);
    [i, (i + 1) % n, third as u32]
}
