//! Keys from the greatest to the least, which all searches go by.
ghost use Rattle.std.proofs.Common.{rules};
ghost use Rattle.std.specs.Cmp.{partial_order_from_own_ties};
ghost use Rattle.std.specs.Cmp.Rules.{comparing};
ghost use Rattle.std.specs.Ordering.{nat_cmp, on, flip_args, as_partial_cmp};

use crate::tests::calls::put_in;
use std::alloc::Global;
use std::cmp::Ordering;
use std::process::Abort;
use triple_arena::{ArenaSlot, ArenaTrait, NonZeroInxGenericStack, NonZeroInxVec, P0, PtrCore};
use triple_arena_chain::LinkNoGen;
use triple_arena_ord::{OrdPair, Probes, SimpleOrdArena, SimpleOrdArenaNode};

// A number. The greater one comes first.
#[derive(Clone, Copy, PartialEq, Eq)]
struct Falling {
    n: u64,
}

impl Ord for Falling {
    ghost cmp = { flip_args (on (λ k. k.n) nat_cmp) };

    ghost total = { Prim.search (comparing, rules) };

    ghost matches_partial_cmp = { Prim.search (comparing, rules) };

    ghost matches_eq = { Prim.search (comparing, rules) };

    fn cmp(&self, other: &Self) -> Ordering {
        other.n.cmp(&self.n)
    }
}

impl PartialOrd for Falling {
    ghost partial_cmp = { as_partial_cmp (flip_args (on (λ k. k.n) nat_cmp)) };

    ghost laws = { partial_order_from_own_ties (Prim.search (comparing, rules))
        (Prim.search (comparing, rules)) };

    fn partial_cmp(&self, other: &Self) -> Option<Ordering> {
        Some(self.cmp(other))
    }
}

type Falls = OrdPair<Falling, u64>;

type Node<P> = ArenaSlot<P, LinkNoGen<P, SimpleOrdArenaNode<P, Falls>>>;

// The keys 1 to 7, put in shuffled, and the values along the list as digits.
fn falls<P: PtrCore, S: NonZeroInxGenericStack<Item = Node<P>> + Drop>(
    rt: &impl Abort,
    arena: &mut SimpleOrdArena<P, Falls, S>,
) -> u64 {
    for n in [4, 7, 3, 6, 2, 5, 1] {
        put_in(rt, arena, OrdPair::new(Falling { n }, n));
    }
    let mut digits: u64 = 0;
    for (_, item) in arena.iter_ordered() {
        digits = digits.wrapping_mul(10).wrapping_add(*item.v());
    }
    digits
}

// The value at a pointer that a search found, and 0 for none.
fn value<P: PtrCore, S: NonZeroInxGenericStack<Item = Node<P>> + Drop>(
    arena: &SimpleOrdArena<P, Falls, S>,
    found: Option<P>,
) -> u64 {
    match found {
        Some(p) => arena.get(p).map_or(0, |item| *item.v()),
        None => 0,
    }
}

// What the searches for an equal key find, from the root, along the list and by a closure.
fn equal<P: PtrCore, S: NonZeroInxGenericStack<Item = Node<P>> + Drop>(
    arena: &SimpleOrdArena<P, Falls, S>,
    start: P,
    k: Falling,
    probes: &mut Probes,
) -> [u64; 3] {
    [
        value(arena, arena.find_key_counted(&k, probes)),
        value(arena, arena.find_key_linear(start, 3, &k)),
        value(arena, arena.find_with(|_, item| k.cmp(item.k()))),
    ]
}

// What the searches for the nearest key find.
fn nearest<P: PtrCore, S: NonZeroInxGenericStack<Item = Node<P>> + Drop>(
    arena: &SimpleOrdArena<P, Falls, S>,
    start: P,
    k: Falling,
) -> [u64; 3] {
    let by_key = arena.find_similar_key(&k);
    let along = arena.find_similar_key_linear(start.inx(), 3, &k);
    let by_closure = arena.find_similar_with(|_, item| k.cmp(item.k()));
    [
        value(arena, by_key.map(|it| it.0)),
        value(arena, along.map(|it| it.0)),
        value(arena, by_closure.map(|it| it.0)),
    ]
}

// All searches go by the order of the keys, and compare within the bound: seven entries allow five
// comparisons.
fn searches<P: PtrCore, S: NonZeroInxGenericStack<Item = Node<P>> + Drop>(
    rt: &impl Abort,
    alloc: S::Alloc,
) {
    let mut arena = SimpleOrdArena::<P, Falls, S>::new(alloc);
    assert!(rt; falls(rt, &mut arena) == 7654321);
    let Some(start) = arena.first() else {
        panic!(rt; "there is no first entry");
    };
    for n in 0..9u64 {
        let mut probes = Probes::new();
        let wanted = if 1 <= n && n <= 7 { n } else { 0 };
        assert!(rt; equal(&arena, start, Falling { n }, &mut probes) == [wanted; 3]);
        assert!(rt; probes.count() <= 5);
        assert!(rt; nearest(&arena, start, Falling { n }) == [n.max(1).min(7); 3]);
    }
}

#[test]
fn keys_in_falling_order(rt: HostRuntime) {
    searches::<P0, NonZeroInxVec<Node<P0>, Global>>(&rt, rt.alloc());
}
