//! Memory that stays with the process.

use std::alloc::Global;

/// One block of so many bytes. The C library takes blocks of 32 megabytes and more from the system in any case.
const LARGE_BLOCK: usize = 31 << 20;

/// Takes one large block and gives it back at once, untouched. From then on the GNU C library takes blocks of that size
/// and less from memory that the process keeps, of which only what stands free at its end past twice that size goes
/// back to the system. Else it would ask the system for each block past 128 kilobytes, have its pages cleared, and give
/// them back, until a larger one was given back. Where there is no memory, nothing is changed.
pub(crate) fn keep_pages(alloc: Global) {
    let _block: Result<Vec<u8>, _> = Vec::with_capacity(alloc, LARGE_BLOCK);
}
