// The rounds of the benchmark, for callers in C and the like.
#![tactic(auto)]

use std::alloc::Global;

#[unsafe(no_mangle)]
pub extern "C" fn undo_rounds(heap: Global, count: u32) -> u64 {
    speed::undo_rounds(heap, count)
}

#[unsafe(no_mangle)]
pub extern "C" fn replay_rounds(heap: Global, count: u32) -> u64 {
    speed::replay_rounds(heap, count)
}
