//! Each call that can take memory, with each of its requests refused in turn.
use std::alloc::Global;
use std::num::NonZeroUsize;
use std::process::Abort;
use std::test::Fail;
use test_kit::RefusingAllocator;
use triple_arena_ptr::ReallocationError;
use triple_arena_stack::{
    NonZeroInxBoxedSlice, NonZeroInxGenericStack, NonZeroInxGenericStackEntries,
    NonZeroInxGenericStackPushEntryTrait, NonZeroInxLimitedVec, NonZeroInxVec,
};

type Heap = RefusingAllocator<Global>;

// The stack holds its own indexes, from 0 on, and has this length and capacity.
fn holds<S: NonZeroInxGenericStack<Item = u64>>(
    rt: &impl Abort,
    stack: &S,
    len: usize,
    capacity: usize,
) {
    assert!(rt; stack.len() == len);
    assert!(rt; stack.capacity() == capacity);
    for (place, item) in stack.as_slice().iter().enumerate() {
        assert!(rt; *item == place as u64);
    }
}

// What a call finds.
#[derive(Drop)]
struct Before {
    has_refused: bool,
    len: usize,
    capacity: usize,
}

fn seen<S: NonZeroInxGenericStack<Item = u64>>(heap: &Heap, stack: &S) -> Before {
    Before {
        has_refused: heap.has_refused(),
        len: stack.len(),
        capacity: stack.capacity(),
    }
}

// The call was refused exactly if the heap refused it the memory, and left the stack as it was.
fn is_refused_with_the_heap<T, S: NonZeroInxGenericStack<Item = u64>>(
    rt: &impl Abort,
    heap: &Heap,
    stack: &S,
    was: &Before,
    answer: Result<T, ReallocationError>,
)
where
    T: Drop,
{
    assert!(rt; answer.is_err() == (heap.has_refused() != was.has_refused));
    if let Err(refused) = answer {
        assert!(rt; refused == ReallocationError::AllocError);
        holds(rt, stack, was.len, was.capacity);
    }
}

pub(super) fn push_by_entry<S: NonZeroInxGenericStackEntries<Item = u64>>(
    stack: &mut S,
    x: u64,
) -> Result<NonZeroUsize, ReallocationError> {
    Ok(stack.entry_push()?.push(x))
}

pub(super) fn push_by_reallocating_entry<S: NonZeroInxGenericStackEntries<Item = u64>>(
    stack: &mut S,
    x: u64,
) -> Result<NonZeroUsize, ReallocationError> {
    Ok(stack.entry_push_reallocating()?.push(x))
}

// Each call that can take memory.
fn grows<S: NonZeroInxGenericStackEntries<Item = u64>>(
    rt: &impl Abort,
    heap: &Heap,
    stack: &mut S,
) {
    for _ in 0..6 {
        let was = seen(heap, stack);
        let pushed = stack.push(was.len as u64);
        is_refused_with_the_heap(rt, heap, stack, &was, pushed);

        let was = seen(heap, stack);
        let pushed = stack.push_reallocating(was.len as u64);
        is_refused_with_the_heap(rt, heap, stack, &was, pushed);

        let was = seen(heap, stack);
        let pushed = push_by_entry(stack, was.len as u64);
        is_refused_with_the_heap(rt, heap, stack, &was, pushed);

        let was = seen(heap, stack);
        let pushed = push_by_reallocating_entry(stack, was.len as u64);
        is_refused_with_the_heap(rt, heap, stack, &was, pushed);

        let was = seen(heap, stack);
        let grown = stack.reallocate_min_capacity(was.capacity.saturating_add(1));
        is_refused_with_the_heap(rt, heap, stack, &was, grown);
    }
}

// A stack for three items, whose one request the heap may refuse.
fn makes<'a, S: NonZeroInxGenericStack<Item = u64, Alloc = &'a Heap> + Drop>(
    rt: &impl Abort,
    heap: &'a Heap,
) {
    let had_refused = heap.has_refused();
    let made = S::with_min_capacity(heap, 3);
    assert!(rt; made.is_err() == (heap.has_refused() != had_refused));
    match made {
        Ok(made) => holds(rt, &made, 0, 3),
        Err(refused) => assert!(rt; refused == ReallocationError::AllocError),
    }
}

fn runs<'a, S: NonZeroInxGenericStackEntries<Item = u64, Alloc = &'a Heap> + Drop>(
    rt: &impl Abort,
    heap: &'a Heap,
) {
    let mut stack = S::new(heap);
    grows(rt, heap, &mut stack);
    makes::<S>(rt, heap);
}

#[test]
fn each_request_in_turn(rt: HostRuntime) -> Result<(), Fail> {
    let mut refusals = 0;
    for nth in 1..100u64 {
        let first = RefusingAllocator::new(rt.alloc(), nth);
        runs::<NonZeroInxVec<u64, &Heap>>(&rt, &first);
        let second = RefusingAllocator::new(rt.alloc(), nth);
        runs::<NonZeroInxLimitedVec<u64, &Heap>>(&rt, &second);
        assert!(rt; first.has_refused() == second.has_refused());
        let third = RefusingAllocator::new(rt.alloc(), nth);
        makes::<NonZeroInxBoxedSlice<u64, &Heap>>(&rt, &third);
        assert!(rt; third.has_refused() == (nth == 1));
        if !first.has_refused() {
            break;
        }
        refusals = nth;
    }
    assert!(rt; 0 < refusals);
    assert!(rt; refusals < 99);
    Ok(())
}

// A stack that is made empty asks for nothing, nor does what takes items out of it.
fn asks_for_nothing<'a, S: NonZeroInxGenericStack<Item = u64, Alloc = &'a Heap> + Drop>(
    rt: &impl Abort,
    heap: &'a Heap,
) {
    let mut stack = S::new(heap);
    assert!(rt; stack.pop() == None);
    stack.clear();
    assert!(rt; stack.capacity() == 0);
    assert!(rt; !heap.has_refused());
}

#[test]
fn empty_stacks_ask_for_nothing(rt: HostRuntime) {
    let heap = RefusingAllocator::new(rt.alloc(), 1);
    asks_for_nothing::<NonZeroInxVec<u64, &Heap>>(&rt, &heap);
    asks_for_nothing::<NonZeroInxLimitedVec<u64, &Heap>>(&rt, &heap);
    asks_for_nothing::<NonZeroInxBoxedSlice<u64, &Heap>>(&rt, &heap);
}
