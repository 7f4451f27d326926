//! Nodes that a map makes of other ones, where the map sees items alone.
ghost use Rattle.std.specs.Prelude.{◌≡◌, map as list_map};
ghost use Rattle.triple_arena_ptr.specs.InvalidationOption.{overflowed};
ghost use Rattle.triple_arena.specs.Changes.{IsCompressed};
ghost use Rattle.triple_arena.specs.Compression.{compression_wraps, generation_of, value_of};
ghost use Rattle.triple_arena.specs.Compression.{IsMapped};
ghost use Rattle.triple_arena_ord.specs.Copies.{listed_items};

use crate::ord_arena::link_moves::HoldsItem;
use triple_arena::{ArenaTrait, InvalidationOption, PtrCore};

// Moves the nodes to the first indexes, each with what `map` makes of its item, and forgets the
// tree.
pub(crate) fn compact_nodes<P, N, T, A, F>(
    arena: &mut A,
    reset: bool,
    mut map: F,
) -> InvalidationOption<()>
where
    P: PtrCore,
    N: HoldsItem<T> + Drop,
    T: Drop,
    A: ArenaTrait<P, N>,
    F: FnMut(P, T, P) -> T,
    requires { F.IsAlwaysCallable map }
    ensures mapped { IsMapped P.index P.generation F.step map
        (listed_items N.item (A.live_entries arena.old))
        (listed_items N.item (A.live_entries arena.new)) }
    ensures overflow { overflowed result ≡ compression_wraps P.Gen.last reset (A.counter arena.old)
        (list_map generation_of (A.live_entries arena.old)) }
    ensures compressed { IsCompressed A.entry_at A.live_count A.counter A.room P.Gen.last
        A.live_entries reset arena.old arena.new }
    ensures exact { A.is_compressed arena.old reset
        (list_map value_of (A.live_entries arena.new)) arena.new }
{
    arena.compress_with(
        reset,
        move |from, node, to| -> N
            requires { F.IsAlwaysCallable map }
            ensures step { F.step map.entry from (N.item node) to (N.item result) map.exit }
            ensures again { F.IsAlwaysCallable map.exit }
        { N::leaf(map(from, node.into_item(), to)) },
    )
}
