//! The canonical transfer: the links of a chain arena moved to another, each chain to successive
//! indexes.
ghost use Rattle.std.specs.Prelude.{◌≡◌, ◌≢◌, ◌↔◌, IsTrue, ◌+◌, ◌<◌, ◌≤◌, ℕ, Some, None, IsSome};
ghost use Rattle.std.specs.Prelude.{IfSome, IfNone, IsOk, OnOk, OnErr, []};
ghost use Rattle.std.specs.Fn.{iterate};
ghost use Rattle.std.specs.Option.{option_map};
ghost use Rattle.triple_arena_ptr.specs.Errors.{IsBeyondMaxCapacity, IsAllocError};
ghost use Rattle.triple_arena_ptr.specs.Generation.{next_generation, next_wraps};
ghost use Rattle.triple_arena_ptr.specs.Index.{max_index_of};
ghost use Rattle.triple_arena_ptr.specs.InvalidationOption.{value_of, overflowed};
ghost use Rattle.triple_arena_stack.specs.Room.{IsBeyond};
ghost use Rattle.triple_arena.specs.ArenaRoom.{room_with};
ghost use Rattle.triple_arena.specs.Changes.{IsRemoved};
ghost use Rattle.triple_arena.specs.Content.{entry_at, live_count, some_counter, arena_capacity};
ghost use Rattle.triple_arena.specs.Content.{inserted, IsWellFormed};
ghost use Rattle.triple_arena.specs.Drains.{drained};
ghost use Rattle.triple_arena_chain.specs.CanonicalTransfer.{IsMovedInOrder, ClosesChain};
ghost use Rattle.triple_arena_chain.specs.CanonicalTransfer.{IsFilledWithLinks};
ghost use Rattle.linked_lists.specs.LinkedLists.{next_at};
ghost use Rattle.triple_arena_chain.specs.Links.{ends_in, values_in, IsChained};
ghost use Rattle.triple_arena_chain.specs.Values.{room_in};

use crate::chain_arena::canonical_layout::{behind, chain_start, is_one};
use crate::{ChainArena, ChainSlots, IndexLink, LinkNoGen};
use proof_marks::{recall, unreached};
use std::num::NonZeroUsize;
use triple_arena::{
    Advancer, Arena, ArenaInsertTrait, ArenaTrait, InvalidationOption, PtrCore, PtrInxCore,
    ReallocationError,
};
use triple_arena_ptr::OptionalInx;

// Takes the link at `i`, which is live, out of an arena, and leaves the interlinks of all others as
// they are. It returns the pointer, the value with what its removal tells, and the next index.
fn take_link<Q, U, R>(
    source: &mut Arena<Q, LinkNoGen<Q, U>, R>,
    i: Q::Inx,
) -> (Q, InvalidationOption<U>, Option<Q::Inx>)
where
    Q: PtrCore,
    U: Drop,
    R: ChainSlots<Q, U>,
    requires { IsSome (entry_at source.old (Q.Inx.number i)) }
    ensures index { Q.index result.0 ≡ Q.Inx.number i }
    ensures entry { values_in source.old (Q.Inx.number i)
        ≡ Some (Q.generation result.0, value_of result.1) }
    ensures overflow { overflowed result.1 ≡ next_wraps Q.Gen.last source.old.counter }
    ensures next { option_map Q.Inx.number result.2
        ≡ next_at (ends_in source.old) (Q.Inx.number i) }
    ensures removed { IsRemoved entry_at live_count some_counter room_in Q.Gen.last
        (Q.Inx.number i) source.old source.new }
    ensures formed { IsWellFormed source.new }
{
    match source.remove_inx(i).overflowing() {
        Some(taken) => {
            let ((generation, link), wrapped) = taken;
            let from = Q::_from_raw(i, generation);
            let next = link.next();
            if wrapped {
                (from, InvalidationOption::GenerationOverflow(link.t), next)
            } else {
                (from, InvalidationOption::Success(link.t), next)
            }
        }
        None => unreached!(),
    }
}

// The new index for the next of a link, where the chain begins at `start`, which has the new index
// `first`, and so many links are placed.
fn next_place<J: PtrInxCore, I: PtrInxCore>(
    next: Option<J>,
    start: J,
    first: I,
    placed: usize,
) -> Option<I>
    ensures end { option_map J.number next ≡ None → option_map I.number result ≡ None }
    ensures round { option_map J.number next ≡ Some (J.number start)
        → option_map I.number result ≡ Some (I.number first) }
    ensures on { (j : ℕ) → option_map J.number next ≡ Some j → j ≢ J.number start
        → placed + 1 ≤ max_index_of I.greatest → option_map I.number result ≡ Some (placed + 1) }
{
    match next {
        Some(j) => {
            if is_one(j, start) {
                Some(first)
            } else {
                I::try_from_usize(NonZeroUsize::MIN.saturating_add(placed))
            }
        }
        None => None,
    }
}

// Puts a link at the next index, if there is room.
fn append_link<P, T, S>(target: &mut Arena<P, LinkNoGen<P, T>, S>, link: LinkNoGen<P, T>)
where
    P: PtrCore,
    T: Drop,
    S: ChainSlots<P, T>,
    ensures exact { live_count target.old < arena_capacity target.old
        → target.new ≡ inserted target.old link }
    ensures formed { IsWellFormed target.new }
{
    let _ = target.insert_within_capacity(link);
}

// Where the way along a chain goes on, or nowhere after its last link. The first link of a ring
// then gets its previous one, which is the last one that was placed.
fn go_on<J, P, T, S>(
    target: &mut Arena<P, LinkNoGen<P, T>, S>,
    next: Option<J>,
    start: J,
    first: P::Inx,
    last: P::Inx,
) -> Option<J>
where
    J: PtrInxCore,
    P: PtrCore,
    T: Drop,
    S: ChainSlots<P, T>,
    ensures on { IfSome result (λ j. (option_map J.number next ≡ Some (J.number j))
        × (J.number j ≢ J.number start) × (target.new ≡ target.old)) }
    ensures over { IfNone result (ClosesChain (option_map J.number next) (J.number start)
        (P.Inx.number first) (P.Inx.number last) target.old target.new) }
{
    match next {
        Some(j) => {
            if is_one(j, start) {
                if let Some(link) = target.get_inx_mut(first) {
                    link.prev = OptionalInx::of(Some(last));
                }
                None
            } else {
                Some(j)
            }
        }
        None => None,
    }
}

// Moves each chain to `target`, which has no link, has room for all, and gives its links this
// generation. The chains go in the order of their least indexes, and the links of each one after
// another.
fn move_chains<Q, U, R, P, T, S, F>(
    source: &mut Arena<Q, LinkNoGen<Q, U>, R>,
    target: &mut Arena<P, LinkNoGen<P, T>, S>,
    generation: P::Gen,
    mut map: F,
)
where
    Q: PtrCore,
    U: Drop,
    R: ChainSlots<Q, U>,
    P: PtrCore,
    T: Drop,
    S: ChainSlots<P, T>,
    F: FnMut(Q, InvalidationOption<U>, P) -> T,
    requires callable { F.IsAlwaysCallable map }
    requires chained { IsChained source.old }
    requires empty { target.old.slots ≡ [] }
    requires free { target.old.free ≡ [] }
    requires counter { target.old.counter ≡ P.Gen.number generation }
    requires fits { live_count source.old ≤ arena_capacity target.old }
    ensures moved { IsMovedInOrder Q.index Q.generation P.index P.generation
        F.step map Q.Gen.last source.old target.new }
    ensures filled { IsFilledWithLinks (live_count source.old) (P.Gen.number generation)
        target.old.room target.old target.new }
    ensures formed { IsChained target.new }
    ensures source_formed { IsChained source.new }
    ensures emptied { live_count source.new ≡ 0 }
    ensures counter { source.new.counter
        ≡ iterate (next_generation Q.Gen.last) (live_count source.old) source.old.counter }
    ensures room { source.new.room ≡ source.old.room }
{
    // Each live index is one of the pointers'.
    recall!(target.capacity());
    let mut advancer = source.advancer();
    'chain: while let Some(p) = advancer.advance(source) {
        let start = chain_start(source, p.inx());
        let first = behind(target.len());
        let mut last: Option<P::Inx> = None;
        let mut at = start;
        'link: loop {
            let placed = target.len();
            let place: P::Inx = behind(placed);
            let to = P::_from_raw(place, generation);
            let taken = take_link(source, at);
            let t = map(taken.0, taken.1, to);
            let next = next_place(taken.2, start, first, placed + 1);
            append_link(
                target,
                IndexLink {
                    prev: OptionalInx::of(last),
                    next: OptionalInx::of(next),
                    t,
                },
            );
            last = Some(place);
            match go_on(target, taken.2, start, first, place) {
                Some(j) => at = j,
                None => break,
            }
        }
    }
}

impl<P: PtrCore, T: Drop, S: ChainSlots<P, T>> ChainArena<P, T, S> {
    /// Drops what the arena holds, and moves the links of `source` here, each chain to successive
    /// indexes from 1 on. The chains go in the order of the least index of each in `source`: a
    /// linear one from its start, a ring from that index. Each link keeps its neighbors, and gets
    /// `new_generation` and what `map` makes of its value. The counter is `new_generation` too, and
    /// no index is free.
    ///
    /// `map` is called once for each link, in that order, with the pointer that it had in `source`,
    /// the value, and the pointer that it gets. `source` is left with no link and no slot in the
    /// room that it had, and its counter is stepped once for each link: if that step wrapped, `map`
    /// gets the value as a `GenerationOverflow`.
    ///
    /// A pointer of what this arena held before may find a link that came in, if `new_generation`
    /// is its generation.
    ///
    /// Memory is taken only if `source` has more links than fit: then the arena first grows to
    /// exactly so many. It returns `BeyondMaxCapacity` if they are more than the greatest capacity,
    /// and `AllocError` if the memory was refused. An error leaves both arenas as they were.
    pub fn transfer_canonical_reallocating<Q, U, R, F>(
        &mut self,
        new_generation: P::Gen,
        source: &mut ChainArena<Q, U, R>,
        map: F,
    ) -> Result<(), ReallocationError>
    where
        Q: PtrCore,
        U: Drop,
        R: ChainSlots<Q, U>,
        F: FnMut(Q, InvalidationOption<U>, P) -> T,
        requires { F.IsAlwaysCallable map }
        ensures moved { OnOk result (IsMovedInOrder Q.index Q.generation P.index P.generation
            F.step map Q.Gen.last source.old self.new) }
        ensures filled { OnOk result (IsFilledWithLinks (live_count source.old)
            (P.Gen.number new_generation) (room_with (live_count source.old) self.old.room) self.old
            self.new) }
        ensures source_exact { OnOk result (source.new ≡ drained Q.Gen.last source.old) }
        ensures formed { IsChained self.new }
        ensures source_formed { IsChained source.new }

        // No memory is asked for if the links fit.
        ensures succeeds { live_count source.old ≤ arena_capacity self.old → IsOk result }
        ensures beyond { IsBeyondMaxCapacity result
            ↔ IsBeyond self.old.room.limit (live_count source.old) }
        ensures memory { IsAllocError result → IsTrue S.takes_memory }
        ensures err { OnErr result (self.new ≡ self.old) }
        ensures source_err { OnErr result (source.new ≡ source.old) }
    {
        self.arena.reallocate_min_capacity(source.arena.len())?;
        let _ = self.arena.clear();
        self.arena.set_generation(new_generation);
        move_chains(&mut source.arena, &mut self.arena, new_generation, map);
        // Only free slots are left.
        source.arena.take_all();
        Ok(())
    }
}
