//! Moves of links to a chain arena, where the map sees the items alone.
ghost use Rattle.std.specs.Prelude.{◌≡◌, ◌≤◌, ◌↔◌, ℕ, List, Option, map as list_map, IsTrue, IsOk};
ghost use Rattle.std.specs.Prelude.{OnOk, OnErr, ⊤};
ghost use Rattle.triple_arena_ptr.specs.Errors.{IsBeyondMaxCapacity, IsAllocError};
ghost use Rattle.triple_arena_ptr.specs.declared.invalidation.InvalidationOption.{InvalidationOption as Removal};
ghost use Rattle.triple_arena_ptr.specs.InvalidationOption.{value_of, overflowed};
ghost use Rattle.triple_arena_stack.specs.Room.{IsBeyond};
ghost use Rattle.triple_arena.specs.ArenaRoom.{room_with};
ghost use Rattle.triple_arena.specs.Content.{live_count, some_counter, arena_capacity};
ghost use Rattle.triple_arena.specs.Drains.{drained};
ghost use Rattle.triple_arena.specs.Iterators.{with_part};
ghost use Rattle.triple_arena.specs.Transfer.{IsTransferred, IsFilled};
ghost use Rattle.triple_arena_chain.specs.CanonicalTransfer.{IsMovedAlong};
ghost use Rattle.triple_arena_chain.specs.Links.{values_in, IsChained};
ghost use Rattle.triple_arena_chain.specs.Listed.{listed_values};
ghost use Rattle.triple_arena_chain.specs.Values.{room_in};

use crate::IndexNode;
use triple_arena::{InvalidationOption, PtrCore, PtrInxCore, ReallocationError};
use triple_arena_chain::{ChainArena, ChainSlots};
use triple_arena_ptr::OptionalInx;

// What takes over the links of a source of the type `A`. It stands between the chain arena's call
// and `move_items`, so that the closure there is in a function that knows nothing of arenas: the
// check of its call grows with what is known.
pub(crate) trait MovesLinks<Q: Copy, V: Drop, P: Copy, W: Drop, N, A> {
    ghost number: { N → ℕ };

    ghost old_index: { Q → ℕ };

    ghost old_generation: { Q → ℕ };

    ghost index: { P → ℕ };

    ghost generation: { P → ℕ };

    // The greatest generation of the source's pointers.
    ghost last: { Option ℕ };

    ghost values: { Self → List (ℕ × (ℕ × W)) };

    ghost counter: { A → Option ℕ };

    // What the links of a source are after a move that took their values in this order.
    ghost is_moved: { A → List (ℕ × (ℕ × V)) → Self → Type 0 };

    // The rest of what a move leaves: the generation, the source, and the target before and after.
    ghost is_filled: { ℕ → A → Self → Self → Type 0 };

    ghost given_up: { A → A };

    ghost fits: { A → Self → Type 0 };

    ghost is_beyond: { A → Self → Type 0 };

    ghost takes_memory: { Type 0 };

    ghost is_formed: { Self → Type 0 };

    ghost is_source_formed: { A → Type 0 };

    fn move_from<G>(
        &mut self,
        new_generation: N,
        source: &mut A,
        map: G,
    ) -> Result<(), ReallocationError>
    where
        G: FnMut(Q, InvalidationOption<V>, P) -> W,
        requires callable { G.IsAlwaysCallable map }
        requires no_more { ⊤ }
        ensures moved { OnOk result ((order : List (ℕ × (ℕ × V)))
            × (is_moved source.old order self.new
            × IsTransferred old_index old_generation index generation G.step map last
            (counter source.old) order (values self.new))) }
        ensures filled { OnOk result
            (is_filled (number new_generation) source.old self.old self.new) }
        ensures given_up { OnOk result (source.new ≡ given_up source.old) }
        ensures formed { is_formed self.new }
        ensures source_formed { is_source_formed source.new }
        ensures succeeds { fits source.old self.old → IsOk result }
        ensures beyond { IsBeyondMaxCapacity result ↔ is_beyond source.old self.old }
        ensures memory { IsAllocError result → takes_memory }
        ensures err { OnErr result (self.new ≡ self.old) }
        ensures source_err { OnErr result (source.new ≡ source.old) };
}

impl<Q, V, P, W, R, S> MovesLinks<Q, V, P, W, P::Gen, ChainArena<Q, V, R>> for ChainArena<P, W, S>
where
    Q: PtrCore,
    V: Drop,
    P: PtrCore,
    W: Drop,
    R: ChainSlots<Q, V>,
    S: ChainSlots<P, W>,
{
    ghost number = { P.Gen.number };

    ghost old_index = { Q.index };

    ghost old_generation = { Q.generation };

    ghost index = { P.index };

    ghost generation = { P.generation };

    ghost last = { Q.Gen.last };

    ghost values = { listed_values };

    ghost counter = { some_counter };

    ghost is_moved = { λ a order b. IsMovedAlong order a b };

    ghost is_filled = { λ g a old new. IsFilled values_in live_count some_counter room_in
        listed_values
        (live_count a) g (room_with (live_count a) (room_in old)) old new };

    ghost given_up = { drained Q.Gen.last };

    ghost fits = { λ a b. live_count a ≤ arena_capacity b };

    ghost is_beyond = { λ a b. IsBeyond (room_in b).limit (live_count a) };

    ghost takes_memory = { IsTrue S.takes_memory };

    ghost is_formed = { λ b. IsChained b };

    ghost is_source_formed = { λ a. IsChained a };

    fn move_from<G>(
        &mut self,
        new_generation: P::Gen,
        source: &mut ChainArena<Q, V, R>,
        map: G,
    ) -> Result<(), ReallocationError>
    where
        G: FnMut(Q, InvalidationOption<V>, P) -> W,
    {
        self.transfer_canonical_reallocating(new_generation, source, map)
    }
}

// A node with an item. So that `move_items` knows of no index, for the same reason.
pub(crate) trait HoldsItem<T: Drop> {
    ghost item: { Self → T };

    fn into_item(self) -> T
        ensures { result ≡ item self };

    // A node without neighbors in the tree.
    fn leaf(t: T) -> Self
        ensures { item result ≡ t };
}

impl<I: PtrInxCore<Word = W>, W: Copy, T: Drop> HoldsItem<T> for IndexNode<OptionalInx<I, W>, T> {
    ghost item = { λ node. node.t };

    fn into_item(self) -> T {
        self.t
    }

    fn leaf(t: T) -> Self {
        IndexNode::under(None, t)
    }
}

// The item of a node, with what the removal of its entry told.
fn item_of<V: HoldsItem<U>, U: Drop>(node: InvalidationOption<V>) -> InvalidationOption<U>
    ensures value { value_of result ≡ V.item (value_of node) }
    ensures wraps { overflowed result ≡ overflowed node }
{
    match node {
        InvalidationOption::Success(node) => InvalidationOption::Success(node.into_item()),
        InvalidationOption::GenerationOverflow(node) => {
            InvalidationOption::GenerationOverflow(node.into_item())
        }
    }
}

// Moves the nodes of `source` to `target`, each with what `map` makes of its item, and forgets the
// tree.
pub(crate) fn move_items<Q, V, U, P, W, T, N, A, B, F>(
    target: &mut B,
    new_generation: N,
    source: &mut A,
    mut map: F,
) -> Result<(), ReallocationError>
where
    Q: Copy,
    V: HoldsItem<U> + Drop,
    U: Drop,
    P: Copy,
    W: HoldsItem<T> + Drop,
    T: Drop,
    B: MovesLinks<Q, V, P, W, N, A>,
    F: FnMut(Q, InvalidationOption<U>, P) -> T,
    requires { F.IsAlwaysCallable map }
    ensures moved { OnOk result ((order : List (ℕ × (ℕ × V)))
        × (B.is_moved source.old order target.new
        × IsTransferred B.old_index B.old_generation B.index B.generation F.step map B.last
        (B.counter source.old) (list_map (with_part V.item) order)
        (list_map (with_part W.item) (B.values target.new)))) }
    ensures filled { OnOk result
        (B.is_filled (B.number new_generation) source.old target.old target.new) }
    ensures given_up { OnOk result (source.new ≡ B.given_up source.old) }
    ensures formed { B.is_formed target.new }
    ensures source_formed { B.is_source_formed source.new }
    ensures succeeds { B.fits source.old target.old → IsOk result }
    ensures beyond { IsBeyondMaxCapacity result ↔ B.is_beyond source.old target.old }
    ensures memory { IsAllocError result → B.takes_memory }
    ensures err { OnErr result (target.new ≡ target.old) }
    ensures source_err { OnErr result (source.new ≡ source.old) }
{
    target.move_from(
        new_generation,
        source,
        move |from, node, to| -> W
            requires { F.IsAlwaysCallable map }
            ensures step { (item : Removal U) × ((value_of item ≡ V.item (value_of node))
                × ((overflowed item ≡ overflowed node)
                × ((t : T) × ((W.item result ≡ t) × F.step map.entry from item to t map.exit)))) }
            ensures again { F.IsAlwaysCallable map.exit }
        { W::leaf(map(from, item_of(node), to)) },
    )
}
