// The memory that was freed stays with the program.
use std::alloc::Global;

// How many bytes are asked for, and given back at once.
const BLOCK: usize = 2 << 20;

// Makes the allocator keep what is freed for the next pieces. The C library of GNU gives the end of its memory back to the system once
// 128 KiB of it are free. The next piece of 64 KiB then costs sixteen page faults. Once a block that has a mapping of its own was freed, that
// bound is twice the size of the block. No page of this one is touched but the first.
pub(crate) fn keep_freed(alloc: Global) {
    drop(block(alloc));
}

// A block of memory, if there is so much. It is not inlined, so that the compiler does not leave it out.
#[inline(never)]
fn block(alloc: Global) -> Option<Vec<u8>> {
    Vec::with_capacity(alloc, BLOCK).ok()
}
