//! Capacities with ample memory.
use std::alloc::Global;
use std::process::Abort;
use std::test::Fail;
use triple_arena_ptr::{MaxCapacityReductionError, NotWithinCapacityError, ReallocationError};
use triple_arena_stack::{
    NonZeroInxArray, NonZeroInxBoxedSlice, NonZeroInxGenericStack, NonZeroInxLimitedVec,
    NonZeroInxVec, SetMaxCapacity,
};

// Pushes one item for each of `capacities`, which are those after each push.
fn pushes<S: NonZeroInxGenericStack<Item = u64>>(
    rt: &impl Abort,
    stack: &mut S,
    capacities: &[usize],
) {
    for capacity in capacities {
        let len = stack.len();
        match stack.push(len as u64) {
            Ok(i) => assert!(rt; i.get() - 1 == len),
            Err(_) => panic!(rt; "a push is refused"),
        }
        assert!(rt; stack.capacity() == *capacity);
    }
    for (place, item) in stack.as_slice().iter().enumerate() {
        assert!(rt; *item == place as u64);
    }
}

// The stack is full, and nothing makes it greater.
fn is_at_limit<S: NonZeroInxGenericStack<Item = u64>>(rt: &impl Abort, stack: &mut S) {
    let len = stack.len();
    assert!(rt; stack.max_capacity() == Some(len));
    assert!(rt; stack.push_within_capacity(7) == Err(NotWithinCapacityError));
    assert!(rt; stack.push(7) == Err(ReallocationError::BeyondMaxCapacity));
    assert!(rt; stack.push_reallocating(7) == Err(ReallocationError::BeyondMaxCapacity));
    assert!(rt; stack.reallocate_min_capacity(len) == Ok(()));
    if len < usize::MAX {
        assert!(rt;
            stack.reallocate_min_capacity(len + 1) == Err(ReallocationError::BeyondMaxCapacity)
        );
    }
    assert!(rt; stack.len() == len);
    assert!(rt; stack.capacity() == len);
}

const GROWN: [usize; 20] = [
    4, 4, 4, 4, 8, 8, 8, 8, 16, 16, 16, 16, 16, 16, 16, 16, 32, 32, 32, 32,
];

const TWENTY: [usize; 20] = [20; 20];

#[test]
fn growth(rt: HostRuntime) -> Result<(), Fail> {
    let mut vec = NonZeroInxVec::<u64, Global>::new(rt.alloc());
    assert!(rt; vec.capacity() == 0);
    pushes(&rt, &mut vec, &GROWN);
    assert!(rt; vec.max_capacity() == None);

    let mut limited = NonZeroInxLimitedVec::<u64, Global>::new(rt.alloc());
    pushes(&rt, &mut limited, &GROWN);
    assert!(rt; limited.max_capacity() == None);

    let mut boxed = NonZeroInxBoxedSlice::<u64, Global>::with_min_capacity(rt.alloc(), 20)?;
    pushes(&rt, &mut boxed, &TWENTY);
    is_at_limit(&rt, &mut boxed);

    let mut array = NonZeroInxArray::<u64, 20>::new(());
    pushes(&rt, &mut array, &TWENTY);
    is_at_limit(&rt, &mut array);
    Ok(())
}

#[test]
fn a_capacity_that_is_asked_for(rt: HostRuntime) -> Result<(), Fail> {
    let mut vec = NonZeroInxVec::<u64, Global>::with_min_capacity(rt.alloc(), 3)?;
    pushes(&rt, &mut vec, &[3, 3, 3, 6]);
    vec.reallocate_min_capacity(5)?;
    assert!(rt; vec.capacity() == 6);
    vec.reallocate_min_capacity(7)?;
    assert!(rt; vec.capacity() == 7);
    vec.clear();
    pushes(&rt, &mut vec, &[7, 7]);

    let mut limited = NonZeroInxLimitedVec::<u64, Global>::with_min_capacity(rt.alloc(), 3)?;
    pushes(&rt, &mut limited, &[3, 3, 3, 6]);
    limited.reallocate_min_capacity(7)?;
    assert!(rt; limited.capacity() == 7);

    let mut none = NonZeroInxBoxedSlice::<u64, Global>::new(rt.alloc());
    is_at_limit(&rt, &mut none);

    let mut array = NonZeroInxArray::<u64, 2>::with_min_capacity((), 2)?;
    pushes(&rt, &mut array, &[2, 2]);
    let more = NonZeroInxArray::<u64, 2>::with_min_capacity((), 3);
    assert!(rt; more.err() == Some(ReallocationError::BeyondMaxCapacity));
    Ok(())
}

#[test]
fn a_limit_that_is_set(rt: HostRuntime) -> Result<(), Fail> {
    let mut stack = NonZeroInxLimitedVec::<u64, Global>::new(rt.alloc());
    stack.set_max_capacity(0)?;
    is_at_limit(&rt, &mut stack);
    stack.set_max_capacity(1)?;
    pushes(&rt, &mut stack, &[1]);
    is_at_limit(&rt, &mut stack);
    stack.set_max_capacity(9)?;
    pushes(&rt, &mut stack, &[4, 4, 4, 8, 8, 8, 8, 9]);
    is_at_limit(&rt, &mut stack);

    // One short of what is in use.
    assert!(rt; stack.set_max_capacity(8) == Err(MaxCapacityReductionError));
    assert!(rt; stack.max_capacity() == Some(9));

    // The reserved slots stay if the limit falls, and come back if it rises.
    stack.pop();
    stack.pop();
    stack.set_max_capacity(7)?;
    is_at_limit(&rt, &mut stack);
    stack.set_max_capacity(20)?;
    assert!(rt; stack.capacity() == 9);
    Ok(())
}
