//! Callers that know a stack by its bound alone. None of them needs a proof file.
ghost use Rattle.std.specs.Prelude.{◌≡◌, ◌≤◌, ◌↔◌, Some, length, IsTrue, OnOk, OnErr, false, []};
ghost use Rattle.std.specs.Prelude.{◌∷◌, ◌++◌};
ghost use Rattle.std.specs.Int.NonZero.{non_zero_usize_get};
ghost use Rattle.triple_arena_stack.specs.Room.{limited};
ghost use Rattle.triple_arena_stack.specs.Stack.{item_at, with_item};

use std::alloc::Global;
use std::mem;
use std::num::NonZeroUsize;
use std::process::Abort;
use std::test::Fail;
use triple_arena_ptr::GetDisjointMutError;
use triple_arena_stack::{
    NonZeroInxArray, NonZeroInxBoxedSlice, NonZeroInxGenericStack, NonZeroInxGenericStackEntries,
    NonZeroInxGenericStackPushEntryTrait, NonZeroInxLimitedStack, NonZeroInxLimitedVec,
    NonZeroInxVec, SetMaxCapacity, get_disjoint_mut,
};

// Writes `x` at `i`, and says whether there was an item.
fn write_at<T: Drop, S: NonZeroInxGenericStack<Item = T>>(
    stack: &mut S,
    i: NonZeroUsize,
    x: T,
) -> bool
    ensures found { IsTrue result ↔ (non_zero_usize_get i ≤ length (S.items stack.old)) }
    ensures items { IsTrue result
        → S.items stack.new ≡ with_item (S.items stack.old) (non_zero_usize_get i) x }
    ensures missed { result ≡ false → S.items stack.new ≡ S.items stack.old }
    ensures room { S.room stack.new ≡ S.room stack.old }
{
    match stack.get_mut(i) {
        Some(place) => {
            *place = x;
            true
        }
        None => false,
    }
}

// Pushes `x` by an entry.
fn push_by_entry<S: NonZeroInxGenericStackEntries<Item = u64>>(stack: &mut S, x: u64) -> bool
    ensures { IsTrue result → S.items stack.new ≡ S.items stack.old ++ x ∷ [] }
{
    match stack.entry_push_within_capacity() {
        Ok(entry) => {
            entry.push(x);
            true
        }
        Err(_) => false,
    }
}

// The same at one type, if a refusal is known to leave the stack as it was.
fn push_to_array_by_entry(stack: &mut NonZeroInxArray<u64, 4>, x: u64) -> bool
    ensures pushed { IsTrue result → stack.new.array.items ≡ stack.old.array.items ++ x ∷ [] }
    ensures refused { result ≡ false → stack.new ≡ stack.old }
{
    match stack.entry_push_within_capacity() {
        Ok(entry) => {
            entry.push(x);
            true
        }
        Err(_) => false,
    }
}

// Exchanges two items that are borrowed at once, and answers whether there were two.
fn exchange<T: Drop, S: NonZeroInxGenericStack<Item = T>>(
    stack: &mut S,
    i: NonZeroUsize,
    j: NonZeroUsize,
) -> Result<(), GetDisjointMutError>
    ensures exchanged { (x y : T)
        → Some x ≡ item_at (S.items stack.old) (non_zero_usize_get i)
        → Some y ≡ item_at (S.items stack.old) (non_zero_usize_get j)
        → OnOk result (S.items stack.new
        ≡ with_item (with_item (S.items stack.old) (non_zero_usize_get i) y)
        (non_zero_usize_get j) x) }
    ensures refused { OnErr result (S.items stack.new ≡ S.items stack.old) }
    ensures room { S.room stack.new ≡ S.room stack.old }
{
    stack.check_disjoint(i, j)?;
    let (first, second) = get_disjoint_mut(stack.as_mut_slice(), i, j);
    mem::swap(first, second);
    Ok(())
}

// Writes `x` at index 1 by the slice of the items.
fn write_first<S: NonZeroInxGenericStack<Item = u64>>(stack: &mut S, x: u64)
    requires { 1 ≤ length (S.items stack.old) }
    ensures items { S.items stack.new ≡ with_item (S.items stack.old) 1 x }
    ensures room { S.room stack.new ≡ S.room stack.old }
{
    stack.as_mut_slice()[0] = x;
}

// Sets a limit.
fn limit_to<S: NonZeroInxLimitedStack<Item = u64>>(stack: &mut S, max: usize) -> bool
    ensures accepted { IsTrue result ↔ (length (S.items stack.old) ≤ max) }
    ensures items { S.items stack.new ≡ S.items stack.old }
    ensures room { IsTrue result → S.room stack.new ≡ limited (S.room stack.old) max }
    ensures refused { result ≡ false → S.room stack.new ≡ S.room stack.old }
{
    stack.set_max_capacity(max).is_ok()
}

fn three<S: NonZeroInxGenericStackEntries<Item = u64>>(rt: &impl Abort, stack: &mut S) {
    assert!(rt; stack.is_empty());
    match stack.entry_push_reallocating() {
        Ok(entry) => {
            assert!(rt; entry.inx() == NonZeroUsize::MIN);
            entry.push(5);
        }
        Err(_) => panic!(rt; "an entry is refused"),
    }
    assert!(rt; stack.push(6).is_ok());
    match stack.entry_push() {
        Ok(entry) => assert!(rt; entry.push(7).get() == 3),
        Err(_) => panic!(rt; "an entry is refused"),
    }
    drop(stack.entry_push_within_capacity());
    assert!(rt; stack.len() == 3);
    assert!(rt; push_by_entry(stack, 9));
    assert!(rt; stack.pop() == Some(9));
}

fn reads_and_writes<S: NonZeroInxGenericStackEntries<Item = u64>>(rt: &impl Abort, stack: &mut S) {
    three(rt, stack);
    let Some(two) = NonZeroUsize::new(2) else {
        return;
    };
    assert!(rt; write_at(stack, two, 8));
    assert!(rt; stack.get(two) == Some(&8));
    write_first(stack, 4);
    assert!(rt; exchange(stack, two, NonZeroUsize::MIN) == Ok(()));
    assert!(rt; stack.as_slice() == [8u64, 4, 7].as_slice());
    assert!(rt; exchange(stack, NonZeroUsize::MIN, two) == Ok(()));
    assert!(rt; stack.as_slice() == [4u64, 8, 7].as_slice());
    assert!(rt;
        exchange(stack, two, NonZeroUsize::MAX) == Err(GetDisjointMutError::IndexOutOfBounds)
    );
    assert!(rt; exchange(stack, two, two) == Err(GetDisjointMutError::OverlappingIndices));
    assert!(rt; stack.pop() == Some(7));
    stack.clear();
    assert!(rt; !write_at(stack, NonZeroUsize::MIN, 9));
    assert!(rt; stack.get(NonZeroUsize::MIN) == None);
    assert!(rt; stack.pop() == None);
}

#[test]
fn all_stacks(rt: HostRuntime) -> Result<(), Fail> {
    reads_and_writes(&rt, &mut NonZeroInxVec::<u64, Global>::new(rt.alloc()));
    let mut limited = NonZeroInxLimitedVec::<u64, Global>::new(rt.alloc());
    assert!(rt; limit_to(&mut limited, 4));
    reads_and_writes(&rt, &mut limited);
    assert!(rt; limited.capacity() == 4);
    reads_and_writes(
        &rt,
        &mut NonZeroInxBoxedSlice::<u64, Global>::with_min_capacity(rt.alloc(), 4)?,
    );
    let mut array = NonZeroInxArray::<u64, 4>::new(());
    reads_and_writes(&rt, &mut array);
    assert!(rt; push_to_array_by_entry(&mut array, 3));
    Ok(())
}
