//! The stacks that a section is played over.
use crate::section;
use script_calls::{Limited, Unlimited};
use std::alloc::Allocator;
use test_kit::{Call, Transcript};
use triple_arena::{
    Arena, ArenaSlot, NonZeroInxArray, NonZeroInxBoxedSlice, NonZeroInxGenericStack,
    NonZeroInxLimitedStack, NonZeroInxLimitedVec, NonZeroInxVec, Ptr, ReallocationError,
};
use triple_arena_chain::{ChainArena, LinkNoGen};

type Slot<P> = ArenaSlot<P, LinkNoGen<P, u64>>;

type Value<P> = ArenaSlot<P, u64>;

/// Eight slots.
pub type InArray<P> = NonZeroInxArray<Slot<P>, 8>;

/// Eight slots of an arena of values.
pub type ValuesInArray<P> = NonZeroInxArray<Value<P>, 8>;

/// Makes a section's calls over vectors.
pub fn over_heap<P: Ptr, H: Allocator + Copy + Drop>(
    heap: H,
    transcript: &mut Transcript,
    header: &Call<'_>,
    calls: &str,
) -> Result<(), ReallocationError> {
    over::<P, H, NonZeroInxVec<Slot<P>, H>, NonZeroInxVec<Value<P>, H>>(
        heap, transcript, header, calls,
    )
}

/// Makes them over vectors that take a limit.
pub fn over_limited_vec<P: Ptr, H: Allocator + Copy + Drop>(
    heap: H,
    transcript: &mut Transcript,
    header: &Call<'_>,
    calls: &str,
) -> Result<(), ReallocationError> {
    over_limited::<P, H, NonZeroInxLimitedVec<Slot<P>, H>, NonZeroInxLimitedVec<Value<P>, H>>(
        heap, transcript, header, calls,
    )
}

/// Makes them over boxed slices.
pub fn over_boxed<P: Ptr, H: Allocator + Copy + Drop>(
    heap: H,
    transcript: &mut Transcript,
    header: &Call<'_>,
    calls: &str,
) -> Result<(), ReallocationError> {
    over::<P, H, NonZeroInxBoxedSlice<Slot<P>, H>, NonZeroInxBoxedSlice<Value<P>, H>>(
        heap, transcript, header, calls,
    )
}

/// Makes them over stacks of any kind. The bounds are those of which `ChainSlots` and `ArenaSlots`
/// are short forms. A stack meets them in half the time.
pub fn over<
    P: Ptr,
    H: Copy + Drop,
    S: NonZeroInxGenericStack<Item = Slot<P>, Alloc = H> + Drop,
    V: NonZeroInxGenericStack<Item = Value<P>, Alloc = H> + Drop,
>(
    alloc: H,
    transcript: &mut Transcript,
    header: &Call<'_>,
    calls: &str,
) -> Result<(), ReallocationError> {
    section::play::<
        H,
        ChainArena<P, u64, S>,
        Arena<P, LinkNoGen<P, u64>, S>,
        Arena<P, u64, V>,
        Unlimited,
    >(alloc, transcript, header, calls)
}

// Over stacks that take a limit.
fn over_limited<
    P: Ptr,
    H: Copy + Drop,
    S: NonZeroInxLimitedStack<Item = Slot<P>, Alloc = H> + Drop,
    V: NonZeroInxGenericStack<Item = Value<P>, Alloc = H> + Drop,
>(
    alloc: H,
    transcript: &mut Transcript,
    header: &Call<'_>,
    calls: &str,
) -> Result<(), ReallocationError> {
    section::play::<
        H,
        ChainArena<P, u64, S>,
        Arena<P, LinkNoGen<P, u64>, S>,
        Arena<P, u64, V>,
        Limited,
    >(alloc, transcript, header, calls)
}
