//! An optional index of a free slot, in a word as wide as the index.
ghost use Rattle.std.specs.Prelude.{◌≡◌, ◌≤◌, ◌<◌, ◌^◌, Some, IfSome, ⊤};
ghost use Rattle.std.specs.Int.NonZero.{non_zero_usize_get as at};
ghost use Rattle.std.specs.Option.{option_map};

use proof_marks::unreached;
use std::num::NonZeroUsize;
use triple_arena_ptr::{OptionalInx, PtrCore, PtrInxCore};

// The index of a free slot, or none, in a word as wide as the index.
pub(crate) type FreeInx<P> = OptionalInx<
    <P as PtrCore>::Inx,
    <<P as PtrCore>::Inx as PtrInxCore>::Word,
>;

// The index with this number.
#[inline(always)]
pub(crate) fn free_at<P: PtrCore>(i: NonZeroUsize) -> FreeInx<P>
    requires fits { at i ≤ P.Inx.greatest }
    requires no_more { ⊤ }
    ensures { result ≡ Some (at i) }
{
    match P::Inx::try_from_usize(i) {
        Some(i) => OptionalInx::some(i),
        None => unreached!(),
    }
}

// The number of the index, which is a `usize`, if there is one.
#[inline(always)]
pub(crate) fn place_of<P: PtrCore>(i: FreeInx<P>) -> Option<NonZeroUsize>
    requires fits { IfSome i (λ i. i < 2 ^ 64) }
    requires no_more { ⊤ }
    ensures { option_map at result ≡ i }
{
    match i.get() {
        Some(i) => match i.try_into_usize() {
            Some(i) => Some(i),
            None => unreached!(),
        },
        None => None,
    }
}
