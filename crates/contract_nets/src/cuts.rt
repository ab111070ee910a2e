//! Sorted keys cut into parts that threads can merge by themselves.

ghost use Rattle.std.specs.Prelude.{◌≡◌, ◌≤◌, ◌<◌, All, IfOk, length};
ghost use Rattle.contract_nets.specs.Keys.{IsKey};
ghost use Rattle.contract_nets.specs.Cuts.{IsCut, AreCuts};

use crate::images::Images;
use crate::keys::{Key, have_same_pins};
use std::alloc::{AllocError, Global};

/// A part has so many keys at least, but for the last one: to start a thread for it costs as much
/// as to merge a thousand nets.
const LEAST_KEYS: usize = 4096;

/// Places that cut the keys into parts of about one size, so many at most, between nets with different pins.
pub(crate) fn cuts_of(
    alloc: Global,
    nets: &Images<'_>,
    keys: &[Key],
    parts: u32,
) -> Result<Vec<usize>, AllocError>
    requires keys { All (IsKey nets.now) keys.now }
    requires parts { 0 < parts }
    ensures { IfOk result (λ cuts. AreCuts nets.now keys.now (length keys.now) cuts.items) }
{
    let size = keys.len().div_ceil(parts as usize).max(LEAST_KEYS);
    let mut cuts = vec![in alloc; 0usize]?;
    let mut end = 0;
    'parts: while end < keys.len() {
        end = next_cut(nets, keys, end + size.min(keys.len() - end));
        cuts.push(end)?;
    }
    Ok(cuts)
}

/// The first place from one on before which the pins differ from those there, or the end.
fn next_cut(nets: &Images<'_>, keys: &[Key], from: usize) -> usize
    requires keys { All (IsKey nets.now) keys.now }
    requires some { 0 < from }
    requires within { from ≤ length keys.now }
    ensures from { from ≤ result }
    ensures within { result ≤ length keys.now }
    ensures cut { IsCut nets.now keys.now result }
{
    for i in from..keys.len() {
        if !have_same_pins(nets, &keys[i - 1], &keys[i]) {
            return i;
        }
    }
    keys.len()
}
