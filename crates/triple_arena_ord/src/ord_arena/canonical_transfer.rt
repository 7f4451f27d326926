//! The canonical transfer: the entries of an ordered arena moved to another, in the order of the
//! list.
ghost use Rattle.std.specs.Prelude.{◌≡◌, ◌≤◌, ◌↔◌, IsTrue, IsOk, OnOk, OnErr};
ghost use Rattle.triple_arena_ptr.specs.Errors.{IsBeyondMaxCapacity, IsAllocError};
ghost use Rattle.triple_arena_stack.specs.Room.{capacity as capacity_of, IsBeyond};
ghost use Rattle.triple_arena.specs.ArenaRoom.{room_with};
ghost use Rattle.triple_arena.specs.Transfer.{IsFilled};
ghost use Rattle.triple_arena_ord.specs.CanonicalTransfer.{IsTransferredInOrder};
ghost use Rattle.triple_arena_ord.specs.Indexed.{indexed};
ghost use Rattle.triple_arena_ord.specs.Ordered.{IsOrdered, entry_in, size_in, counter_in, room_in};
ghost use Rattle.triple_arena_ord.specs.States.{drained_in};

use crate::ord_arena::canonical_layout::ends_of_run;
use crate::ord_arena::link_moves::move_items;
use crate::rebuild_run::rebuild_run;
use crate::{OrdSlots, SimpleOrdArena, SimpleOrdArenaNode};
use proof_marks::recall;
use triple_arena::{ArenaTrait, InvalidationOption, PtrCore, ReallocationError};
use triple_arena_chain::ChainArena;

impl<P: PtrCore, T: Drop, S: OrdSlots<P, T>> SimpleOrdArena<P, T, S> {
    /// Drops what the arena holds, and moves the entries of `source` to the indexes from 1 on, in
    /// the order of its list. Each gets `new_generation` and what `map` makes of its item. The
    /// counter is `new_generation` too, no index is free, and the tree is written anew, also if the
    /// new items' keys do not ascend along the list.
    ///
    /// `map` is called once for each entry, along the list, with the pointer that it had in
    /// `source`, the item, and the pointer that it gets. `source` is left with no entry and no slot
    /// in the room that it had, and its counter is stepped once for each entry: if that step
    /// wrapped, `map` gets the item as a `GenerationOverflow`.
    ///
    /// A pointer of what this arena held before may find an entry that came in, if `new_generation`
    /// is its generation.
    ///
    /// Memory is taken only if `source` has more entries than fit: then the arena first grows to
    /// exactly so many. It returns `BeyondMaxCapacity` if they are more than the greatest capacity,
    /// and `AllocError` if the memory was refused. An error leaves both arenas as they were.
    pub fn transfer_canonical_reallocating<Q, U, R, F>(
        &mut self,
        new_generation: P::Gen,
        source: &mut SimpleOrdArena<Q, U, R>,
        map: F,
    ) -> Result<(), ReallocationError>
    where
        Q: PtrCore,
        U: Drop,
        R: OrdSlots<Q, U>,
        F: FnMut(Q, InvalidationOption<U>, P) -> T,
        requires { F.IsAlwaysCallable map }
        ensures moved { OnOk result (IsTransferredInOrder Q.index Q.generation P.index P.generation
            F.step map Q.Gen.last source.old self.new) }
        ensures filled { OnOk result (IsFilled entry_in size_in counter_in room_in indexed
            (size_in source.old) (P.Gen.number new_generation)
            (room_with (size_in source.old) (room_in self.old)) self.old self.new) }
        ensures source_exact { OnOk result (source.new ≡ drained_in Q.Gen.last source.old) }
        ensures ordered { IsOrdered self.new }
        ensures source_ordered { IsOrdered source.new }

        // No memory is asked for if the entries fit.
        ensures succeeds { size_in source.old ≤ capacity_of (room_in self.old) → IsOk result }
        ensures beyond { IsBeyondMaxCapacity result
            ↔ IsBeyond (room_in self.old).limit (size_in source.old) }
        ensures memory { IsAllocError result → IsTrue S.takes_memory }
        ensures err { OnErr result (self.new ≡ self.old) }
        ensures source_err { OnErr result (source.new ≡ source.old) }
    {
        move_items::<
            Q,
            SimpleOrdArenaNode<Q, U>,
            U,
            P,
            SimpleOrdArenaNode<P, T>,
            T,
            P::Gen,
            ChainArena<Q, SimpleOrdArenaNode<Q, U>, R>,
            ChainArena<P, SimpleOrdArenaNode<P, T>, S>,
            F,
        >(&mut self.chains, new_generation, &mut source.chains, map)?;
        source.root = None;
        source.first = None;
        source.last = None;
        // So many indexes are the pointers'.
        recall!(self.chains.capacity());
        let (first, last) = ends_of_run(self.chains.len());
        self.first = first;
        self.last = last;
        self.root = rebuild_run(&mut self.chains);
        Ok(())
    }
}
