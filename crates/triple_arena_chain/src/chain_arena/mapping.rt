//! Links that a map makes of other ones, where the map sees values alone.
ghost use Rattle.std.specs.Prelude.{◌≡◌, None, map as list_map, ⊤};
ghost use Rattle.std.specs.List.{AllZip};
ghost use Rattle.triple_arena_ptr.specs.InvalidationOption.{overflowed};
ghost use Rattle.triple_arena.specs.Changes.{IsCompressed};
ghost use Rattle.triple_arena.specs.Compression.{compression_wraps, generation_of, value_of};
ghost use Rattle.triple_arena.specs.Compression.{IsMapped};
ghost use Rattle.triple_arena_chain.specs.Listed.{listed_value};
ghost use Rattle.triple_arena_chain.specs.Renaming.{IsLeftWithNext, IsLeftInPlace};

use crate::IndexLink;
use triple_arena::{ArenaTrait, InvalidationOption, PtrCore, PtrInxCore};
use triple_arena_ptr::OptionalInx;

// What `compress_with` does, with a clause that asks no more: the answer to a lone one would cost
// far more to state.
fn compress_by<P, L, A, G>(arena: &mut A, reset: bool, map: G) -> InvalidationOption<()>
where
    P: PtrCore,
    L: Drop,
    A: ArenaTrait<P, L>,
    G: FnMut(P, L, P) -> L,
    requires callable { G.IsAlwaysCallable map }
    requires no_more { ⊤ }
    ensures mapped { IsMapped P.index P.generation G.step map (A.live_entries arena.old)
        (A.live_entries arena.new) }
    ensures overflow { overflowed result ≡ compression_wraps P.Gen.last reset (A.counter arena.old)
        (list_map generation_of (A.live_entries arena.old)) }
    ensures compressed { IsCompressed A.entry_at A.live_count A.counter A.room P.Gen.last
        A.live_entries reset arena.old arena.new }
    ensures exact { A.is_compressed arena.old reset
        (list_map value_of (A.live_entries arena.new)) arena.new }
    ensures formed { A.is_formed arena.new }
{
    arena.compress_with(reset, map)
}

// Moves the links to the first indexes, each with what `map` makes of its value, and forgets the
// previous indexes.
pub(crate) fn compact_links<P, I, W, T, A, F>(
    arena: &mut A,
    reset: bool,
    mut map: F,
) -> InvalidationOption<()>
where
    P: PtrCore,
    I: PtrInxCore<Word = W>,
    W: Copy,
    T: Drop,
    A: ArenaTrait<P, IndexLink<OptionalInx<I, W>, T>>,
    F: FnMut(P, T, P) -> T,
    requires callable { F.IsAlwaysCallable map }
    requires no_more { ⊤ }
    ensures mapped { IsMapped P.index P.generation F.step map
        (list_map listed_value (A.live_entries arena.old))
        (list_map listed_value (A.live_entries arena.new)) }
    ensures links { AllZip IsLeftWithNext (A.live_entries arena.old) (A.live_entries arena.new) }
    ensures overflow { overflowed result ≡ compression_wraps P.Gen.last reset (A.counter arena.old)
        (list_map generation_of (A.live_entries arena.old)) }
    ensures compressed { IsCompressed A.entry_at A.live_count A.counter A.room P.Gen.last
        A.live_entries reset arena.old arena.new }
    ensures exact { A.is_compressed arena.old reset
        (list_map value_of (A.live_entries arena.new)) arena.new }
    ensures formed { A.is_formed arena.new }
{
    compress_by(
        arena,
        reset,
        move |from, link, to| -> IndexLink<OptionalInx<I, W>, T>
            requires { F.IsAlwaysCallable map }
            ensures step { F.step map.entry from link.t to result.t map.exit }
            ensures ends { (result.prev ≡ None) × (result.next ≡ link.next) }
            ensures again { F.IsAlwaysCallable map.exit }
        {
            IndexLink {
                prev: OptionalInx::none(),
                next: link.next,
                t: map(from, link.t, to),
            }
        },
    )
}

// Renews the generations of links that stay if they are, each with what `map` makes of its value.
pub(crate) fn renew_links<P, I, W, T, A, F>(
    arena: &mut A,
    reset: bool,
    mut map: F,
) -> InvalidationOption<()>
where
    P: PtrCore,
    I: PtrInxCore<Word = W>,
    W: Copy,
    T: Drop,
    A: ArenaTrait<P, IndexLink<OptionalInx<I, W>, T>>,
    F: FnMut(P, T, P) -> T,
    requires callable { F.IsAlwaysCallable map }
    requires no_more { ⊤ }
    ensures mapped { IsMapped P.index P.generation F.step map
        (list_map listed_value (A.live_entries arena.old))
        (list_map listed_value (A.live_entries arena.new)) }
    ensures links { AllZip IsLeftInPlace (A.live_entries arena.old) (A.live_entries arena.new) }
    ensures overflow { overflowed result ≡ compression_wraps P.Gen.last reset (A.counter arena.old)
        (list_map generation_of (A.live_entries arena.old)) }
    ensures compressed { IsCompressed A.entry_at A.live_count A.counter A.room P.Gen.last
        A.live_entries reset arena.old arena.new }
    ensures exact { A.is_compressed arena.old reset
        (list_map value_of (A.live_entries arena.new)) arena.new }
    ensures formed { A.is_formed arena.new }
{
    compress_by(
        arena,
        reset,
        move |old, link, renewed| -> IndexLink<OptionalInx<I, W>, T>
            requires { F.IsAlwaysCallable map }
            ensures step { F.step map.entry old link.t renewed result.t map.exit }
            ensures ends { (result.prev ≡ link.prev) × (result.next ≡ link.next) }
            ensures again { F.IsAlwaysCallable map.exit }
        {
            IndexLink {
                prev: link.prev,
                next: link.next,
                t: map(old, link.t, renewed),
            }
        },
    )
}
