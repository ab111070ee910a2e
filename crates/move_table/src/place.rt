//! Where the words of a net stand.

ghost use Rattle.std.specs.Prelude.{◌≡◌, ◌*◌, ◌≤◌};
ghost use Rattle.hg_base.specs.Packed.{IsWidth, fields_of};

/// Where the words of a net begin, and how many bits each of its counts takes.
#[derive(Clone, Copy)]
pub struct NetPlace {
    /// The place of the net's spread, after which its counts follow.
    pub start: u32,
    /// The bits of a count: 8, 16 or 32.
    pub bits: u32,
}

/// Where a count stands: the word, the bits of a field, and the field.
#[derive(Clone, Copy)]
pub struct CountPlace {
    pub word: usize,
    pub bits: u32,
    pub field: u32,
}

/// The first block of which a word of a net has the count.
pub(crate) fn first_block(bits: u32, index: u32) -> u32
    requires width { IsWidth bits }
    requires few { index * fields_of bits ≤ 256 }
    ensures { result ≡ index * fields_of bits }
{
    if bits == 8 {
        index * 8
    } else if bits == 16 {
        index * 4
    } else {
        index * 2
    }
}
