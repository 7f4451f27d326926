//! Where the indexes of each type end.

use std::num::{NonZeroU8, NonZeroU16, NonZeroU32, NonZeroU64, NonZeroU128, NonZeroUsize};
use std::process::Abort;
use std::test::Fail;
use triple_arena_ptr::{PtrInx, PtrInxCore};

// 1 and the greatest index have an index of this type and come back from it; what follows the
// greatest has none.
fn ends_at<I: PtrInx>(rt: &impl Abort, greatest: NonZeroUsize) {
    for number in [NonZeroUsize::MIN, greatest] {
        let back = match I::try_from_usize(number) {
            Some(inx) => inx.try_into_usize(),
            None => None,
        };
        assert!(rt; back == Some(number));
    }
    if let Some(past) = greatest.checked_add(1) {
        assert!(rt; I::try_from_usize(past).is_none());
    }
    assert!(rt; I::max_index().try_into_usize() == Some(greatest));
    assert!(rt; I::best_effort_invalid() == I::max_index());
}

#[test]
fn each_index_type_ends_at_its_greatest(rt: HostRuntime) -> Result<(), Fail> {
    let numbered = |number: usize| NonZeroUsize::new(number).ok_or("not 0");
    ends_at::<NonZeroU8>(&rt, numbered(255)?);
    ends_at::<NonZeroU16>(&rt, numbered(65_535)?);
    ends_at::<NonZeroU32>(&rt, numbered(4_294_967_295)?);
    ends_at::<NonZeroU64>(&rt, NonZeroUsize::MAX);
    ends_at::<NonZeroU128>(&rt, NonZeroUsize::MAX);
    ends_at::<NonZeroUsize>(&rt, NonZeroUsize::MAX);
    Ok(())
}
