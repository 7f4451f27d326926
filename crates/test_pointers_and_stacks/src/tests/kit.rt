//! What tests share: a pointer type whose generations wrap soon, and an allocator that refuses a
//! request.
use std::alloc::{AllocError, Allocator};
use std::num::NonZeroU8;
use std::test::Fail;
use test_kit::{Gen3, N3, RefusingAllocator};
use triple_arena_ptr::{PtrCore, PtrGenCore};

#[test]
fn generations_start_again_at_two(rt: HostRuntime) -> Result<(), Fail> {
    let mut generation = Gen3::one();
    for (want, wraps) in [
        ("N3[1](2)", false),
        ("N3[1](3)", false),
        ("N3[1](2)", true),
        ("N3[1](3)", false),
    ] {
        let (next, wrapped) = generation.generational_inc();
        let p = N3::_from_raw(NonZeroU8::MIN, next);
        assert_eq!(rt; format!(in rt.alloc(); "{p:?}")?.as_str(), want);
        assert_eq!(rt; wrapped, wraps);
        generation = next;
    }
    Ok(())
}

#[test]
fn just_the_nth_is_refused(rt: HostRuntime) -> Result<(), Fail> {
    for nth in 1..5u64 {
        let heap = RefusingAllocator::new(rt.alloc(), nth);
        for request in 1..8u64 {
            assert_eq!(rt; heap.has_refused(), request > nth);
            assert_eq!(rt; Box::new(&heap, request).is_err(), request == nth);
        }
    }
    Ok(())
}

// A list that grows asks its allocator again, by a `&` to it that is copied.
fn listed<A: Allocator>(heap: A, count: u8) -> Result<usize, AllocError> {
    let mut list = Vec::new(heap);
    for item in 0..count {
        list.push(item)?;
    }
    Ok(list.len())
}

#[test]
fn growths_are_requests(rt: HostRuntime) -> Result<(), Fail> {
    let heap = RefusingAllocator::new(rt.alloc(), 2);
    assert_eq!(rt; listed(&heap, 8), Ok(8));
    assert_eq!(rt; listed(&heap, 8), Err(AllocError));
    assert_eq!(rt; listed(&heap, 40), Ok(40));
    Ok(())
}
