//! The entries of an arena moved to another, and those of another moved here.
ghost use Rattle.std.specs.Prelude.{◌≡◌, ◌≤◌, map as list_map};
ghost use Rattle.triple_arena.specs.Compression.{compacted, value_of};
ghost use Rattle.triple_arena.specs.Content.{entry_at, live_count, some_counter, arena_capacity};
ghost use Rattle.triple_arena.specs.Content.{IsWellFormed};
ghost use Rattle.triple_arena.specs.Drains.{drained};
ghost use Rattle.triple_arena.specs.LiveEntries.{live_entries};
ghost use Rattle.triple_arena.specs.Transfer.{filled as filled_of, IsTransferred, IsFilled};
ghost use Rattle.triple_arena.specs.Transfer.{IsGivenUp};

use crate::arena::Arena;
use crate::slot::EntrySlot;
use crate::transfer::{ArenaTransferSource, ArenaTransferTrait, move_entries};
use crate::{ArenaSlots, ArenaTrait};
use proof_marks::recall;
use triple_arena_ptr::{InvalidationOption, OptionalInx, PtrCore, ReallocationError};
use triple_arena_stack::NonZeroInxGenericStack;

impl<Q: PtrCore, U: Drop, R: ArenaSlots<Q, U>> ArenaTransferSource<Q, U> for Arena<Q, U, R> {
    ghost given_up = { drained Q.Gen.last };

    fn give_up<
        P: PtrCore,
        T: Drop,
        L: EntrySlot<P, T> + Drop,
        S: NonZeroInxGenericStack<Item = L>,
        F,
    >(&mut self, slots: &mut S, generation: P::Gen, map: F)
    where
        F: FnMut(Q, InvalidationOption<U>, P) -> T,
    {
        // The slots are within the capacity, and so are their indexes.
        recall!(self.own_capacity());
        let counter = move_entries(&mut self.slots, Some(self.counter), slots, generation, map);
        match counter {
            Some(counter) => self.counter = counter,
            None => unreachable!(),
        }
        self.head = OptionalInx::none();
        self.len = 0;
        // The arena is well-formed after.
        self.recall_formed();
    }
}

impl<P: PtrCore, T: Drop, S: ArenaSlots<P, T>> ArenaTransferTrait<P, T> for Arena<P, T, S> {
    ghost filled = { filled_of };

    fn transfer_reallocating<Q: PtrCore, U: Drop, Source: ArenaTransferSource<Q, U>, F>(
        &mut self,
        new_generation: P::Gen,
        source: &mut Source,
        map: F,
    ) -> Result<(), ReallocationError>
    where
        F: FnMut(Q, InvalidationOption<U>, P) -> T,
    {
        let len = source.len();
        match self.reallocate_min_capacity(len) {
            Ok(()) => {
                self.take_over(new_generation, source, len, map);
                Ok(())
            }
            Err(refused) => Err(refused),
        }
    }
}

impl<P: PtrCore, T: Drop, S: ArenaSlots<P, T>> Arena<P, T, S> {
    // Drops what the arena holds, and moves the entries of `source` here, so many, which fit.
    fn take_over<Q: PtrCore, U: Drop, Source: ArenaTransferSource<Q, U>, F>(
        &mut self,
        generation: P::Gen,
        source: &mut Source,
        len: usize,
        map: F,
    )
    where
        F: FnMut(Q, InvalidationOption<U>, P) -> T,
        requires callable { F.IsAlwaysCallable map }
        requires counted { len ≡ Source.live_count source.old }
        requires fits { len ≤ arena_capacity self.old }
        ensures mapped { IsTransferred Q.index Q.generation P.index P.generation F.step map
            Q.Gen.last (Source.counter source.old) (Source.live_entries source.old)
            (live_entries self.new) }
        ensures filled { IsFilled entry_at live_count some_counter (λ c. c.room) live_entries len
            (P.Gen.number generation) self.old.room self.old self.new }
        ensures exact { self.new ≡ compacted (P.Gen.number generation)
            (list_map value_of (live_entries self.new)) self.old }
        ensures formed { IsWellFormed self.new }
        ensures given_up { IsGivenUp Source.entry_at Source.live_count Source.counter Source.room
            Q.Gen.last source.old source.new }
        ensures source_exact { source.new ≡ Source.given_up source.old }
        ensures source_formed { Source.is_formed source.new }
    {
        // The entries fit in the stack, and so do their indexes.
        recall!(self.own_capacity());
        self.slots.clear();
        source.give_up(&mut self.slots, generation, map);
        self.counter = generation;
        self.head = OptionalInx::none();
        self.len = len;
        // The arena is well-formed after.
        self.recall_formed();
    }
}
