//! The arenas of a section, over the stack that its header names.
use crate::section;
use script_calls::{Limited, Unlimited};
use std::alloc::Allocator;
use test_kit::{Call, Transcript};
use triple_arena::{
    Arena, ArenaSlot, DirectArena, DirectSlot, NonZeroInxArray, NonZeroInxBoxedSlice,
    NonZeroInxGenericStack, NonZeroInxLimitedStack, NonZeroInxLimitedVec, NonZeroInxVec, Ptr,
    ReallocationError,
};

type Slot<P> = ArenaSlot<P, u64>;

type Place<P> = DirectSlot<P, u64>;

/// Five slots.
pub type InArray<P> = NonZeroInxArray<Slot<P>, 5>;

/// Five slots of a direct arena.
pub type DirectInArray<P> = NonZeroInxArray<Place<P>, 5>;

/// Makes the calls of a section over vectors.
pub fn over_heap<P: Ptr, H: Allocator + Copy + Drop>(
    heap: H,
    transcript: &mut Transcript,
    header: &Call<'_>,
    calls: &str,
) -> Result<(), ReallocationError> {
    over::<P, H, NonZeroInxVec<Slot<P>, H>, NonZeroInxVec<Place<P>, H>>(
        heap, transcript, header, calls,
    )
}

/// Makes them over vectors that take a limit.
pub fn over_limited_vec<P: Ptr, H: Allocator + Copy + Drop>(
    heap: H,
    transcript: &mut Transcript,
    header: &Call<'_>,
    calls: &str,
) -> Result<(), ReallocationError> {
    over_limited::<P, H, NonZeroInxLimitedVec<Slot<P>, H>, NonZeroInxLimitedVec<Place<P>, H>>(
        heap, transcript, header, calls,
    )
}

/// Makes them over boxed slices.
pub fn over_boxed<P: Ptr, H: Allocator + Copy + Drop>(
    heap: H,
    transcript: &mut Transcript,
    header: &Call<'_>,
    calls: &str,
) -> Result<(), ReallocationError> {
    over::<P, H, NonZeroInxBoxedSlice<Slot<P>, H>, NonZeroInxBoxedSlice<Place<P>, H>>(
        heap, transcript, header, calls,
    )
}

/// Makes them over stacks of any kind. The bounds are those of which `ArenaSlots` and `DirectSlots`
/// are short forms. A stack meets them in half the time.
pub fn over<
    P: Ptr,
    H: Copy + Drop,
    S: NonZeroInxGenericStack<Item = Slot<P>, Alloc = H> + Drop,
    D: NonZeroInxGenericStack<Item = Place<P>, Alloc = H> + Drop,
>(
    alloc: H,
    transcript: &mut Transcript,
    header: &Call<'_>,
    calls: &str,
) -> Result<(), ReallocationError> {
    section::play::<H, Arena<P, u64, S>, DirectArena<P, u64, D>, Unlimited>(
        alloc, transcript, header, calls,
    )
}

// Over stacks that take a limit.
fn over_limited<
    P: Ptr,
    H: Copy + Drop,
    S: NonZeroInxLimitedStack<Item = Slot<P>, Alloc = H> + Drop,
    D: NonZeroInxLimitedStack<Item = Place<P>, Alloc = H> + Drop,
>(
    alloc: H,
    transcript: &mut Transcript,
    header: &Call<'_>,
    calls: &str,
) -> Result<(), ReallocationError> {
    section::play::<H, Arena<P, u64, S>, DirectArena<P, u64, D>, Limited>(
        alloc, transcript, header, calls,
    )
}
