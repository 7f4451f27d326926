//! Removals, which give the link back.
ghost use Rattle.std.specs.Prelude.{◌≡◌, IfSome, IfNone, OnSome};
ghost use Rattle.std.specs.Option.{option_map};
ghost use Rattle.triple_arena_ptr.specs.Generation.{next_wraps};
ghost use Rattle.triple_arena_ptr.specs.InvalidationOption.{value_of, overflowed};
ghost use Rattle.triple_arena_ptr.specs.InvalidationResult.{answer_of};
ghost use Rattle.triple_arena.specs.Content.{get, entry_at, removed};
ghost use Rattle.triple_arena_chain.specs.Links.{bridged_over, IsChained, IsTakenOut};

use triple_arena::{InvalidationResult, PtrCore};
use triple_arena_chain::{ChainArenaTrait, LinkNoGen};

/// Removes the link of a pointer, and joins its neighbors.
pub fn remove_link_no_gen<P: PtrCore, T: Drop, C: ChainArenaTrait<P, T>>(
    chains: &mut C,
    p: P,
) -> InvalidationResult<LinkNoGen<P, T>>
    ensures value { option_map value_of (answer_of result)
        ≡ get (C.links chains.old) (P.index p) (P.generation p) }
    ensures overflow { IfSome (answer_of result)
        (λ a. overflowed a ≡ next_wraps P.Gen.last (C.links chains.old).counter) }
    ensures taken { OnSome (answer_of result) (IsTakenOut P.Gen.last
        (P.index p) (C.links chains.old) (C.links chains.new)) }
    ensures exact { IfSome (answer_of result) (λ a. C.links chains.new ≡ removed P.Gen.last
        (bridged_over (C.links chains.old) (value_of a)) (P.index p)) }
    ensures formed { IsChained (C.links chains.new) }
    ensures invalid { IfNone (answer_of result) (chains.new ≡ chains.old) }
{
    let removed = chains.remove_link_no_gen(p);
    removed
}

/// Removes the link at an index, and joins its neighbors.
pub fn remove_inx_link_no_gen<P: PtrCore, T: Drop, C: ChainArenaTrait<P, T>>(
    chains: &mut C,
    i: P::Inx,
) -> InvalidationResult<(P::Gen, LinkNoGen<P, T>)>
    ensures value { option_map (λ a. (P.Gen.number (value_of a).0, (value_of a).1))
        (answer_of result) ≡ entry_at (C.links chains.old) (P.Inx.number i) }
    ensures overflow { IfSome (answer_of result)
        (λ a. overflowed a ≡ next_wraps P.Gen.last (C.links chains.old).counter) }
    ensures taken { OnSome (answer_of result) (IsTakenOut P.Gen.last
        (P.Inx.number i) (C.links chains.old) (C.links chains.new)) }
    ensures exact { IfSome (answer_of result) (λ a. C.links chains.new ≡ removed P.Gen.last
        (bridged_over (C.links chains.old) (value_of a).1) (P.Inx.number i)) }
    ensures formed { IsChained (C.links chains.new) }
    ensures invalid { IfNone (answer_of result) (chains.new ≡ chains.old) }
{
    let removed = chains.remove_inx_link_no_gen(i);
    removed
}
