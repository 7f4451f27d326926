//! What tests share and no library has: a pointer type whose generations wrap soon, an allocator
//! that refuses a request, and scripts of calls. A `Call` is the words of a line, a `Transcript`
//! what was called and what came of it. The programs `script_..` read sections of calls, one a
//! line, and write each line again with the call's answer behind it. What they must write stands
//! beside them in `stdout`.
#![tactic(auto)]

mod call;
mod narrow_ptr;
mod refusing_allocator;
mod transcript;

pub use call::{Call, ShownPtr, generation, index, pointer};
pub use narrow_ptr::{Gen3, N3, N3Kind};
pub use refusing_allocator::RefusingAllocator;
pub use transcript::Transcript;
