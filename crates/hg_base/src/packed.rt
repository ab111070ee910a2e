//! Counts packed into words of 64 bits. The count of block `b` stands in the field at place
//! `b % (64 / bits)` of word `b / (64 / bits)` of its net.

ghost use Rattle.std.specs.Prelude.{◌≡◌, ℕ, ◌+◌, ◌-◌, ◌/◌, ◌%◌, ◌<◌, ◌≤◌, ◌^◌, nat_eq, if◌then◌else◌};
ghost use Rattle.hg_base.specs.Packed as packed;
ghost use Rattle.hg_base.specs.Packed.{IsWidth, fields_of};

/// How many bits a count takes in a net of this many pins: 8 where they are at most 255, 16 where they are at most
/// 65,535, else 32.
pub fn bits_of(pins: u32) -> u32
    ensures value { result ≡ packed.bits_of pins }
    ensures width { IsWidth result }
{
    if pins <= 255 {
        8
    } else if pins <= 65535 {
        16
    } else {
        32
    }
}

/// How many words the counts of `k` blocks take in a net of this many pins; `k` is at most 256.
pub fn words_of(pins: u32, k: u32) -> u32
    requires { k ≤ 256 }
    ensures { result ≡ packed.words_of pins k }
{
    (k * bits_of(pins)).div_ceil(64)
}

/// The word of a net in which the count of block `b` stands, from its first one on, and the place of its field there.
pub fn place_of(bits: u32, b: u32) -> (u32, u32)
    requires { IsWidth bits }
    ensures word { result.0 ≡ b / fields_of bits }
    ensures place { result.1 ≡ b % fields_of bits }
    ensures below { result.1 < fields_of bits }
{
    if bits == 8 {
        (b / 8, b % 8)
    } else if bits == 16 {
        (b / 4, b % 4)
    } else {
        (b / 2, b % 2)
    }
}

/// The number in the field at a place, below `64 / bits`, of a word with fields of 8, 16 or 32 bits.
pub fn field(word: u64, bits: u32, place: u32) -> u64
    requires width { IsWidth bits }
    requires place { place < fields_of bits }
    ensures value { result ≡ packed.field word bits place }
    ensures bound { result < 2 ^ bits }
{
    (word >> (place * bits)) & ((1 << bits) - 1)
}

/// The word with 1 in the field at a place, below `64 / bits`, and 0 elsewhere.
pub fn unit(bits: u32, place: u32) -> u64
    requires width { IsWidth bits }
    requires place { place < fields_of bits }
    ensures { result ≡ packed.unit bits place }
{
    1 << (place * bits)
}

/// The word with one more in the field at a place, below `64 / bits`, which must have room for it.
#[tactic(auto, using(crate::proofs::PackedLaws::raised_field_fits))]
pub fn raise_field(word: u64, bits: u32, place: u32) -> u64
    requires width { IsWidth bits }
    requires place { place < fields_of bits }
    requires room { packed.field word bits place + 1 < 2 ^ bits }
    ensures word { result ≡ word + packed.unit bits place }
    ensures fields { (q : ℕ) → packed.field result bits q ≡ packed.field word bits q +
        (if nat_eq q place then 1 else 0) }
{
    word + unit(bits, place)
}

/// The word with one less in the field at a place, below `64 / bits`, which must hold one at least.
#[tactic(auto, using(crate::proofs::PackedLaws::lowered_field_within))]
pub fn lower_field(word: u64, bits: u32, place: u32) -> u64
    requires width { IsWidth bits }
    requires place { place < fields_of bits }
    requires some { 0 < packed.field word bits place }
    ensures word { result ≡ word - packed.unit bits place }
    ensures fields { (q : ℕ) → packed.field result bits q + (if nat_eq q place then 1 else 0) ≡ packed.field word bits
        q }
{
    word - unit(bits, place)
}
