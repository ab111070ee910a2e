//! Sets of numbers, as strictly rising lists.

ghost use Rattle.std.specs.Prelude.{◌≡◌, ◌≤◌, ◌<◌, ◌+◌, ◌^◌, ◌++◌, length, take, IsTrue, ◌↔◌};
ghost use Rattle.std.specs.Prelude.{All, OnOk, OnErr, map, nat_eq, vec_len};
ghost use Rattle.std.specs.List.{dedup};
ghost use Rattle.std.specs.List.Sorted.{IsStrictlyIncreasing};
ghost use Rattle.std.specs.Ordering.{nat_cmp};
ghost use Rattle.hg_defs.specs.Sorting.{set_of};

use std::alloc::AllocError;

/// Whether each number is below the next.
fn is_rising(numbers: &[u32]) -> bool
    ensures { IsTrue result ↔ IsStrictlyIncreasing numbers.now }
{
    for i in 1..numbers.len() {
        if numbers[i - 1] >= numbers[i] {
            return false;
        }
    }
    true
}

/// Moves the numbers that differ from the one before them to the front, and answers how many they are.
fn drop_repeats(numbers: &mut [u32]) -> usize
    ensures count { result ≤ length numbers.old }
    ensures kept { take result numbers.new ≡ dedup nat_eq numbers.old }
{
    if numbers.is_empty() {
        return 0;
    }
    let mut last = 0;
    for i in 1..numbers.len() {
        if numbers[i] != numbers[last] {
            last += 1;
            numbers[last] = numbers[i];
        }
    }
    last + 1
}

/// Moves the set of the numbers to the front, and answers how many it has.
fn sort_set(numbers: &mut [u32]) -> usize
    ensures count { result ≤ length numbers.old }
    ensures set { take result numbers.new ≡ set_of nat_cmp numbers.old }
{
    numbers.sort_unstable();
    drop_repeats(numbers)
}

/// Appends the set of some numbers to a list, without memory beside the list's own.
pub(crate) fn append_set(list: &mut Vec<u32>, numbers: &[u32]) -> Result<(), AllocError>
    ensures ok { OnOk result (list.new.items ≡ list.old.items ++ set_of nat_cmp numbers.now) }
    ensures err { OnErr result (list.new.items ≡ list.old.items) }
{
    let start = list.len();
    list.extend_from_slice(numbers)?;
    if !is_rising(numbers) {
        let count = sort_set(&mut list[start..]);
        list.truncate(start + count);
    }
    Ok(())
}

/// Adds a number to each number.
fn raise(numbers: &mut [u32], by: u32)
    requires { All (λ n. n + by < 2 ^ 32) numbers.old }
    ensures { numbers.new ≡ map (λ n. n + by) numbers.old }
{
    for number in numbers.iter_mut() {
        *number += by;
    }
}

/// Appends some numbers to a list, with a number added to each.
pub(crate) fn append_raised(list: &mut Vec<u32>, numbers: &[u32], by: u32) -> Result<(), AllocError>
    requires { All (λ n. n + by < 2 ^ 32) numbers.now }
    ensures ok { OnOk result (list.new.items ≡ list.old.items ++ map (λ n. n + by) numbers.now) }
    ensures err { OnErr result (list.new.items ≡ list.old.items) }
{
    let start = list.len();
    list.extend_from_slice(numbers)?;
    raise(&mut list[start..], by);
    Ok(())
}
