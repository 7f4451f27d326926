//! With ample memory every size is had: no stack refuses itself.
use super::refusals::{push_by_entry, push_by_reallocating_entry};
use std::alloc::Global;
use std::process::Abort;
use std::test::Fail;
use triple_arena_stack::{
    NonZeroInxBoxedSlice, NonZeroInxGenericStack, NonZeroInxGenericStackEntries,
    NonZeroInxLimitedVec, NonZeroInxVec,
};

const SIZES: usize = 5_000;

// Makes a stack for each size up to `SIZES`, and for the powers of 2 past it.
fn makes<S: NonZeroInxGenericStack<Item = u64, Alloc = Global> + Drop>(
    rt: &impl Abort,
    alloc: Global,
) {
    for size in 0..SIZES {
        makes_for::<S>(rt, alloc, size);
    }
    for power in 12..24u32 {
        makes_for::<S>(rt, alloc, 1 << power);
    }
}

fn makes_for<S: NonZeroInxGenericStack<Item = u64, Alloc = Global> + Drop>(
    rt: &impl Abort,
    alloc: Global,
    size: usize,
) {
    match S::with_min_capacity(alloc, size) {
        Ok(stack) => assert!(rt; stack.capacity() == size),
        Err(_) => panic!(rt; "a stack of {size} is refused"),
    }
}

// Grows an empty stack by one slot at a time, and then to the powers of 2.
fn reallocates<S: NonZeroInxGenericStack<Item = u64>>(rt: &impl Abort, stack: &mut S) {
    for size in 0..SIZES {
        assert!(rt; stack.reallocate_min_capacity(size).is_ok());
        assert!(rt; stack.capacity() == size);
    }
    for power in 13..24u32 {
        assert!(rt; stack.reallocate_min_capacity(1 << power).is_ok());
    }
}

// Fills a stack by each of the pushes in turn.
fn fills<S: NonZeroInxGenericStackEntries<Item = u64>>(rt: &impl Abort, stack: &mut S) {
    for round in 0..100_000u64 {
        let pushed = match round % 4 {
            0 => stack.push(round).is_ok(),
            1 => stack.push_reallocating(round).is_ok(),
            2 => push_by_entry(stack, round).is_ok(),
            _ => push_by_reallocating_entry(stack, round).is_ok(),
        };
        assert!(rt; pushed);
    }
    assert!(rt; stack.len() == 100_000);
}

#[test]
fn every_size(rt: HostRuntime) -> Result<(), Fail> {
    makes::<NonZeroInxVec<u64, Global>>(&rt, rt.alloc());
    makes::<NonZeroInxLimitedVec<u64, Global>>(&rt, rt.alloc());
    makes::<NonZeroInxBoxedSlice<u64, Global>>(&rt, rt.alloc());
    reallocates(&rt, &mut NonZeroInxVec::<u64, Global>::new(rt.alloc()));
    reallocates(
        &rt,
        &mut NonZeroInxLimitedVec::<u64, Global>::new(rt.alloc()),
    );
    fills(&rt, &mut NonZeroInxVec::<u64, Global>::new(rt.alloc()));
    fills(
        &rt,
        &mut NonZeroInxLimitedVec::<u64, Global>::new(rt.alloc()),
    );
    Ok(())
}
