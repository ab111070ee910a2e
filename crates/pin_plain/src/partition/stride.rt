//! Where the words of nets begin that have counts of one width.

ghost use Rattle.std.specs.Prelude.{◌≡◌, ℕ, ◌<◌, ◌≤◌, ◌↔◌, All, length, IfSome, IsSome, IsTrue};
ghost use Rattle.pin_plain.specs.Counts.{HasWidths, HasStride};

use incidence::Hypergraph;

/// Nets whose counts are of one width: each has as many words as any other.
#[derive(Clone, Copy)]
pub struct Stride {
    /// How many bits each count takes.
    pub bits: u32,
    /// Where the words of the first net begin.
    pub first: u32,
    /// How many words each net has.
    pub words: u32,
}

/// Whether all counts are of one width. No branch ends the look early, so that many widths are compared at once.
fn all_are(widths: &[u8], width: u8) -> bool
    ensures { IsTrue result ↔ All (λ w. w ≡ width) widths.now }
{
    let mut same = true;
    for other in widths {
        same &= *other == width;
    }
    same
}

/// The stride of nets with counts of these widths, where they are of one width.
pub fn stride_of(h: &Hypergraph, k: u32, widths: &[u8]) -> Option<Stride>
    requires few { k ≤ 256 }
    requires wide { HasWidths h.now widths.now }
    ensures stride { IfSome result (λ s. HasStride h.now k s.bits s.first s.words) }
    ensures found { (bits : ℕ) → 0 < length widths.now → All (λ w. w ≡ bits) widths.now → IsSome result }
{
    let width = *widths.first()?;
    if !all_are(widths, width) {
        return None;
    }
    let bits = u32::from(width);
    Some(Stride {
        bits,
        first: 2 * h.vertices() + 2 + k,
        words: 1 + (k * bits).div_ceil(64),
    })
}
