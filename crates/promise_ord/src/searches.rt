//! Searches by key: what each finds, and how often it compares.
ghost use Rattle.std.specs.Prelude.{◌≡◌, ◌+◌, ◌≤◌, None, IsSome, IfSome};
ghost use Rattle.std.specs.declared.cmp.Ordering.{Ordering as Way};
ghost use Rattle.rank_tree.specs.Comparisons.{most_comparisons};
ghost use Rattle.linked_lists.specs.LinkedLists.{On};
ghost use Rattle.triple_arena_ord.specs.Bounds.{IsBound};
ghost use Rattle.triple_arena_ord.specs.Ordered.{IsAscending, order_in, entry_in, size_in};
ghost use Rattle.triple_arena_ord.specs.Ordered.{comparisons};
ghost use Rattle.triple_arena_ord.specs.Found.{item_found, IsFoundByKey};
ghost use Rattle.triple_arena_ord.specs.Near.{IsKeyNear, IsKeySearchCounted};
ghost use Rattle.triple_arena.specs.Steps.{Finds};

use triple_arena::PtrCore;
use triple_arena_ord::{OrdSlots, Probes, SimpleOrdArena, SimpleOrdItem};

/// The most comparisons of a search among 1, 2, 3, 4 and 7 entries.
pub fn bounds_of_small_arenas()
    ensures one { most_comparisons 1 ≡ 1 }
    ensures two { most_comparisons 2 ≡ 2 }
    ensures three { most_comparisons 3 ≡ 3 }
    ensures four { most_comparisons 4 ≡ 3 }
    ensures seven { most_comparisons 7 ≡ 5 }
{}

/// Finds an entry with an equal key; in a list whose keys ascend, exactly if there is one. Each
/// comparison is a tick.
pub fn find_key_counted<P: PtrCore, T: SimpleOrdItem + Drop, S: OrdSlots<P, T>>(
    arena: &SimpleOrdArena<P, T, S>,
    k: &T::Key,
    probes: &mut Probes,
) -> Option<P>
    ensures found { IsFoundByKey P.index P.generation T.Key.cmp T.key_of k.now result arena.now }
    ensures ticks { probes.new ≡ probes.old + comparisons T.Key.cmp T.key_of k.now arena.now }
    ensures bound { probes.new ≤ probes.old + most_comparisons (size_in arena.now) }
{
    let found = arena.find_key_counted(k, probes);
    found
}

/// Finds an entry with an equal key, along the list from an entry first, for so many comparisons;
/// in a list whose keys ascend, exactly if there is one. Each comparison is a tick.
pub fn find_key_linear_counted<P: PtrCore, T: SimpleOrdItem + Drop, S: OrdSlots<P, T>>(
    arena: &SimpleOrdArena<P, T, S>,
    p_init: P,
    num: usize,
    k: &T::Key,
    probes: &mut Probes,
) -> Option<P>
    ensures found { IsFoundByKey P.index P.generation T.Key.cmp T.key_of k.now result arena.now }
    ensures rises { probes.old ≤ probes.new }
    ensures bound { probes.new ≤ probes.old + (num + most_comparisons (size_in arena.now)) }
    ensures gone { item_found P.index P.generation arena.now p_init ≡ None
        → probes.new ≡ probes.old + comparisons T.Key.cmp T.key_of k.now arena.now }
    ensures counted { IsSome (item_found P.index P.generation arena.now p_init)
        → (on : On (order_in arena.now) (P.index p_init))
        → IsKeySearchCounted T.Key.cmp T.key_of num k.now arena.now on probes.old probes.new }
    ensures near { IsAscending T.Key.cmp T.key_of arena.now
        → IsSome (item_found P.index P.generation arena.now p_init)
        → IsKeyNear T.Key.cmp T.key_of (P.index p_init) num k.now arena.now
        → probes.new ≤ probes.old + num }
{
    let found = arena.find_key_linear_counted(p_init, num, k, probes);
    found
}

/// Finds the first entry whose key is not less, in a list whose keys ascend: so the first of those
/// with an equal key, if there is one.
pub fn lower_bound<P: PtrCore, T: SimpleOrdItem + Drop, S: OrdSlots<P, T>>(
    arena: &SimpleOrdArena<P, T, S>,
    k: &T::Key,
) -> Option<P>
    ensures bound { IsAscending T.Key.cmp T.key_of arena.now
        → IsBound P.index P.generation
        (λ t. T.Key.cmp k.now (T.key_of t) ≡ Way.Greater) result arena.now }
    ensures live { IfSome result (λ p. Finds entry_in arena.now (P.index p, P.generation p)) }
{
    let bound = arena.lower_bound(k);
    bound
}
