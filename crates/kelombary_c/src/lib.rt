// The checker for callers in C: include/kelombary.h declares what stands here.
#![tactic(auto)]

ghost use Rattle.checker.specs.declared.TheConstants.{SCRATCH_MOST};
ghost use Rattle.checker.specs.Promises.{AllPromises};
ghost use Rattle.kelombary_c.specs.Answered.{Answered, Tells};

use checker::{Unwritten, list_into};
use std::alloc::Global;

/// The number of an answer whose listing is written.
pub const LISTED: u8 = 0;

/// Whether there is a listing, or why there is none, and how long it is. Plain numbers, since C is told them.
#[repr(C)]
pub struct Answer {
    /// 0 where the listing is written, 27 where the buffer is shorter than it, 28 where memory is lacking.
    pub number: u32,
    /// The listing's length in bytes, or 0 where none is written.
    pub length: usize,
}

/// Writes the listing of a file into a caller's buffer, whole or not at all; 20,480 bytes are always enough. For C `heap` is
/// no parameter, and each slice is a pointer and a length.
#[unsafe(no_mangle)]
pub extern "C" fn kelombary_list(heap: Global, file: &[u8], buffer: &mut [u8]) -> Answer
    ensures text { Answered SCRATCH_MOST file.now buffer.old result buffer.new }
    ensures promised { AllPromises }
{
    answer_for(list_into(heap, file, buffer))
}

// What C is told of an answer.
fn answer_for(listed: Result<usize, Unwritten>) -> Answer
    ensures { Tells listed result }
{
    match listed {
        Ok(length) => Answer {
            number: u32::from(LISTED),
            length,
        },
        Err(unwritten) => Answer {
            number: u32::from(unwritten.number()),
            length: 0,
        },
    }
}
