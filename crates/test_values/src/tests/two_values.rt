//! Two values of an arena, borrowed at once. A script is generic in its memory, and so knows no
//! size of an arena, which such a borrow asks for.
ghost use Rattle.std.specs.Mem.{FitsInMemory};

use super::calls::{remove, store};
use std::alloc::Global;
use std::process::Abort;
use std::{mem, slice};
use triple_arena::{
    ArenaDirectInsertEntryTrait, ArenaDirectInsertTrait, ArenaTrait, ArrayArena, DirectArena,
    DirectSlots, DisjointableArenaTrait, GetDisjointMutError, HeapArena, HeapDirectArena, P0, P3,
    PtrCore, get_disjoint_inx_mut, get_disjoint_mut,
};

// Stores a value in a direct arena, under a pointer that is free there.
fn store_at<P: PtrCore, S: DirectSlots<P, u64>>(
    rt: &impl Abort,
    table: &mut DirectArena<P, u64, S>,
    p: P,
    value: u64,
) {
    match table.direct_insert_within_capacity(p) {
        Ok(place) => place.insert(value),
        Err(_) => panic!(rt; "a value is not stored"),
    }
}

// What stands at a pointer that is live.
fn at<P: PtrCore, A: ArenaTrait<P, u64>>(rt: &impl Abort, arena: &A, p: P) -> u64 {
    match arena.get(p) {
        Some(value) => *value,
        None => panic!(rt; "nothing stands there"),
    }
}

// Each call at pointers to 10 and to 20, and at one that has ended.
fn lends_two<P: PtrCore, A: DisjointableArenaTrait<P, u64>>(
    rt: &impl Abort,
    arena: &mut A,
    p: P,
    q: P,
    gone: P,
)
    requires { FitsInMemory A.row }
{
    match get_disjoint_mut(slice::from_mut(arena), q, p) {
        Some((second, first)) => *second = second.wrapping_add(*first),
        None => panic!(rt; "two values are not lent"),
    }
    assert!(rt; at(rt, arena, p) == 10 && at(rt, arena, q) == 30);
    match get_disjoint_inx_mut(slice::from_mut(arena), p.inx(), q.inx()) {
        Some((first, second)) => mem::swap(first, second),
        None => panic!(rt; "two values are not lent"),
    }
    assert!(rt; at(rt, arena, p) == 30 && at(rt, arena, q) == 10);
    assert!(rt; get_disjoint_mut(slice::from_mut(arena), p, p).is_none());
    assert!(rt; get_disjoint_mut(slice::from_mut(arena), gone, q).is_none());
    assert!(rt; get_disjoint_inx_mut(slice::from_mut(arena), q.inx(), q.inx()).is_none());
    let overlap = Err(GetDisjointMutError::OverlappingIndices);
    assert!(rt; arena.check_disjoint(q, q) == overlap);
    assert!(rt; arena.check_disjoint_inx(q.inx(), q.inx()) == overlap);
    let outside = Err(GetDisjointMutError::IndexOutOfBounds);
    assert!(rt; arena.check_disjoint(p, gone) == outside);
    assert!(rt; arena.check_disjoint(gone, gone) == outside);
    assert!(rt; at(rt, arena, p) == 30 && at(rt, arena, q) == 10);
}

#[test]
fn an_arena_lends_two(rt: HostRuntime) {
    let mut arena: HeapArena<P0, u64, Global> = HeapArena::new(rt.alloc());
    let p = store(&rt, &mut arena, 10);
    let gone = store(&rt, &mut arena, 0);
    let q = store(&rt, &mut arena, 20);
    remove(&rt, &mut arena, gone);
    lends_two(&rt, &mut arena, p, q, gone);
    let mut arena: ArrayArena<P3, u64, 4> = ArrayArena::new(());
    let gone = store(&rt, &mut arena, 0);
    let p = store(&rt, &mut arena, 10);
    remove(&rt, &mut arena, gone);
    let q = store(&rt, &mut arena, 20);
    lends_two(&rt, &mut arena, p, q, gone);
}

#[test]
fn a_direct_arena_lends_two(rt: HostRuntime) {
    let mut names: HeapArena<P0, (), Global> = HeapArena::new(rt.alloc());
    let p = store(&rt, &mut names, ());
    let q = store(&rt, &mut names, ());
    let gone = store(&rt, &mut names, ());
    let mut table: HeapDirectArena<P0, u64, Global> = HeapDirectArena::new(rt.alloc());
    assert!(&rt; table.reallocate_min_capacity(3).is_ok());
    store_at(&rt, &mut table, p, 10);
    store_at(&rt, &mut table, q, 20);
    lends_two(&rt, &mut table, p, q, gone);
}
