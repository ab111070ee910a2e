//! Clusters numbered by rising root.

ghost use Rattle.std.specs.Prelude.{◌≡◌, ◌<◌, ◌^◌, length, IfOk, OnOk};
ghost use Rattle.hg_defs.specs.Numbering.{numbered};
ghost use Rattle.coarsen.specs.Numbers.{AreRoots, AreNumbers};

use std::alloc::{AllocError, Global};

/// Puts the number of its cluster in the place of the root of each vertex. Roots are numbered in
/// rising order.
pub(crate) fn number_clusters(alloc: Global, roots: &mut [u32]) -> Result<(), AllocError>
    requires few { length roots.old < 2 ^ 32 }
    requires roots { AreRoots (length roots.old) roots.old }
    ensures { OnOk result (roots.new ≡ numbered roots.old) }
{
    let numbers = number_roots(alloc, roots)?;
    for root in roots.iter_mut() {
        *root = numbers[*root as usize];
    }
    Ok(())
}

/// The number of each root at its place: how many roots are below it. Other places say nothing.
fn number_roots(alloc: Global, roots: &[u32]) -> Result<Vec<u32>, AllocError>
    requires { length roots.now < 2 ^ 32 }
    ensures { IfOk result (λ numbers. AreNumbers roots.now (length roots.now) numbers.items) }
{
    let mut numbers = vec![in alloc; 0u32; roots.len()]?;
    let mut count = 0;
    for v in 0..roots.len() {
        if roots[v] as usize == v {
            numbers[v] = count;
            count += 1;
        }
    }
    Ok(numbers)
}
