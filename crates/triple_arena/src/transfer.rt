//! The entries of one arena moved to another.
ghost use Rattle.std.specs.Prelude.{◌≡◌, ℕ, ◌+◌, ◌∷◌, ◌++◌, ◌<◌, ◌≤◌, ◌↔◌, List, [], Some, None};
ghost use Rattle.std.specs.Prelude.{IsOk, OnOk, OnErr, IsTrue, Option, length};
ghost use Rattle.std.specs.Prelude.{map as list_map, is_some, count_by};
ghost use Rattle.std.specs.Fn.{iterate};
ghost use Rattle.std.specs.Option.{option_map};
ghost use Rattle.triple_arena_ptr.specs.Errors.{IsBeyondMaxCapacity, IsAllocError};
ghost use Rattle.triple_arena_ptr.specs.Generation.{next_generation};
ghost use Rattle.triple_arena_ptr.specs.InvalidationOption.{value_of, overflowed};
ghost use Rattle.triple_arena_stack.specs.Room.{capacity as capacity_of, IsBeyond};
ghost use Rattle.triple_arena.specs.ArenaRoom.{room_with};
ghost use Rattle.triple_arena.specs.Compression.{value_of as value_of_entry};
ghost use Rattle.triple_arena.specs.Entries.{counter_wraps};
ghost use Rattle.triple_arena.specs.SlotTransfer.{MovesOut};
ghost use Rattle.triple_arena.specs.Transfer.{IsTransferred, IsGivenUp, IsFilled};
ghost use Rattle.triple_arena.specs.LiveEntries.{listed_by};

use crate::ArenaTrait;
use crate::answers::answer;
use crate::arena::{pointer_at, take_entry};
use crate::slot::EntrySlot;
use std::num::NonZeroUsize;
use triple_arena_ptr::{InvalidationOption, PtrCore, PtrGenCore, ReallocationError};
use triple_arena_stack::NonZeroInxGenericStack;

/// An arena whose entries `transfer_reallocating` of another arena takes.
pub trait ArenaTransferSource<Q: PtrCore, U: Drop>: ArenaTrait<Q, U> {
    // The arena without an entry and a slot, its counter, if it has one, stepped once for each
    // entry.
    ghost given_up: { Self → Self };

    /// Appends what `map` makes of each entry to `slots`, which have room for all, in the order of
    /// the indexes, and leaves no entry and no slot.
    fn give_up<
        P: PtrCore,
        T: Drop,
        L: EntrySlot<P, T> + Drop,
        S: NonZeroInxGenericStack<Item = L>,
        F,
    >(&mut self, slots: &mut S, generation: P::Gen, map: F)
    where
        F: FnMut(Q, InvalidationOption<U>, P) -> T,
        requires callable { F.IsAlwaysCallable map }
        requires empty { S.items slots.old ≡ [] }
        requires fits { Self.live_count self.old ≤ capacity_of (S.room slots.old) }
        requires indexes { Self.live_count self.old ≤ P.Inx.greatest }
        ensures moved { MovesOut Q.index Q.generation P.index P.generation F.step map Q.Gen.last
            (Self.counter self.old) (P.Gen.number generation) (Self.live_entries self.old)
            (list_map L.entry (S.items slots.new)) }
        ensures room { S.room slots.new ≡ S.room slots.old }
        ensures given_up { IsGivenUp Self.entry_at Self.live_count Self.counter Self.room Q.Gen.last
            self.old self.new }
        ensures exact { self.new ≡ given_up self.old }
        ensures formed { Self.is_formed self.new };
}

/// The arenas that take over the entries of another arena.
pub trait ArenaTransferTrait<P: PtrCore, T: Drop>: ArenaTrait<P, T> {
    // The arena with these values alone, so many, at the indexes from 1 on, with this generation,
    // in a room for them.
    ghost filled: { Self → ℕ → ℕ → List T → Self };

    /// Drops what the arena holds, and moves the entries of `source` to the indexes from 1 on, in
    /// the order of their indexes there. Each gets `new_generation` and what `map` makes of its
    /// value; an arena with a counter has `new_generation` there too, and no free index.
    ///
    /// `map` is called once for each entry, in that order, with the pointer that it had in
    /// `source`, the value, and the pointer that it gets. `source` is left with no entry and no
    /// slot in the room that it had, and its counter, if it has one, is stepped once for each
    /// entry, as if they were removed one after another: if that step wrapped, `map` gets the value
    /// as a `GenerationOverflow`.
    ///
    /// A pointer of what this arena held before may find an entry that came in, if `new_generation`
    /// is its generation.
    ///
    /// Memory is taken only if `source` has more entries than fit: then the arena first grows to
    /// exactly so many. It returns `BeyondMaxCapacity` if they are more than the greatest capacity,
    /// and `AllocError` if the memory was refused. An error leaves both arenas as they were.
    fn transfer_reallocating<Q: PtrCore, U: Drop, Source: ArenaTransferSource<Q, U>, F>(
        &mut self,
        new_generation: P::Gen,
        source: &mut Source,
        map: F,
    ) -> Result<(), ReallocationError>
    where
        F: FnMut(Q, InvalidationOption<U>, P) -> T,
        requires { F.IsAlwaysCallable map }
        ensures mapped { OnOk result (IsTransferred Q.index Q.generation P.index P.generation F.step
            map Q.Gen.last (Source.counter source.old) (Source.live_entries source.old)
            (Self.live_entries self.new)) }
        ensures filled { OnOk result (IsFilled Self.entry_at Self.live_count Self.counter Self.room
            Self.live_entries (Source.live_count source.old) (P.Gen.number new_generation)
            (room_with (Source.live_count source.old) (Self.room self.old)) self.old self.new) }
        ensures exact { OnOk result (self.new ≡ filled self.old (Source.live_count source.old)
            (P.Gen.number new_generation)
            (list_map value_of_entry (Self.live_entries self.new))) }
        ensures given_up { OnOk result (IsGivenUp Source.entry_at Source.live_count Source.counter
            Source.room Q.Gen.last source.old source.new) }
        ensures source_exact { OnOk result (source.new ≡ Source.given_up source.old) }
        ensures formed { Self.is_formed self.new }
        ensures source_formed { Source.is_formed source.new }

        // No memory is asked for if the entries fit.
        ensures succeeds { Source.live_count source.old ≤ capacity_of (Self.room self.old)
            → IsOk result }
        ensures beyond { IsBeyondMaxCapacity result
            ↔ IsBeyond (Self.room self.old).limit (Source.live_count source.old) }
        ensures memory { IsAllocError result → IsTrue Self.takes_memory }
        ensures err { OnErr result (self.new ≡ self.old) }
        ensures source_err { OnErr result (source.new ≡ source.old) };
}

// A value as its removal answers it, and the counter after that, if there is one.
fn removal<G: PtrGenCore, U>(counter: Option<G>, value: U) -> (Option<G>, InvalidationOption<U>)
    ensures value { value_of result.1 ≡ value }
    ensures wraps { overflowed result.1 ≡ counter_wraps G.last (option_map G.number counter) }
    ensures counter { option_map G.number result.0
        ≡ option_map (next_generation G.last) (option_map G.number counter) }
{
    match counter {
        Some(generation) => {
            let (next, wrapped) = generation.generational_inc();
            (Some(next), answer(wrapped, value))
        }
        None => (None, InvalidationOption::Success(value)),
    }
}

// Appends an entry to slots that have room for it.
fn append_entry<
    P: PtrCore,
    T: Drop,
    L: EntrySlot<P, T> + Drop,
    S: NonZeroInxGenericStack<Item = L>,
>(slots: &mut S, generation: P::Gen, value: T)
    ensures slots { length (S.items slots.old) < capacity_of (S.room slots.old)
        → list_map L.entry (S.items slots.new)
        ≡ list_map L.entry (S.items slots.old) ++ Some (P.Gen.number generation, value) ∷ [] }
    ensures room { S.room slots.new ≡ S.room slots.old }
{
    let _ = slots.push_within_capacity(L::holding(generation, value));
}

// Takes each entry out of `from` in turn, steps the counter, if there is one, and appends to `to`,
// which is empty and has room for all, what `map` makes of the value, with the given generation. It
// returns the counter.
pub(crate) fn move_entries<Q, U, K, R, P, T, L, S, F>(
    from: &mut R,
    mut counter: Option<Q::Gen>,
    to: &mut S,
    generation: P::Gen,
    mut map: F,
) -> Option<Q::Gen>
where
    Q: PtrCore,
    U: Drop,
    K: EntrySlot<Q, U> + Drop,
    R: NonZeroInxGenericStack<Item = K>,
    P: PtrCore,
    T: Drop,
    L: EntrySlot<P, T> + Drop,
    S: NonZeroInxGenericStack<Item = L>,
    F: FnMut(Q, InvalidationOption<U>, P) -> T,
    requires from_indexes { length (R.items from.old) ≤ Q.Inx.greatest }
    requires callable { F.IsAlwaysCallable map }
    requires empty { S.items to.old ≡ [] }
    requires fits { count_by is_some (list_map K.entry (R.items from.old))
        ≤ capacity_of (S.room to.old) }
    requires indexes { count_by is_some (list_map K.entry (R.items from.old)) ≤ P.Inx.greatest }
    ensures moved { MovesOut Q.index Q.generation P.index P.generation F.step map Q.Gen.last
        (option_map Q.Gen.number counter) (P.Gen.number generation)
        (listed_by K.entry (R.items from.old)) (list_map L.entry (S.items to.new)) }
    ensures counter { option_map Q.Gen.number result
        ≡ option_map (iterate (next_generation Q.Gen.last)
        (count_by is_some (list_map K.entry (R.items from.old))))
        (option_map Q.Gen.number counter) }
    ensures emptied { R.items from.new ≡ [] }
    ensures from_room { R.room from.new ≡ R.room from.old }
    ensures room { S.room to.new ≡ S.room to.old }
{
    for at in 0..from.len() {
        let old = NonZeroUsize::MIN.saturating_add(at);
        let Some(entry) = take_entry(from, old) else {
            continue;
        };
        let new = NonZeroUsize::MIN.saturating_add(to.len());
        let (stepped, item) = removal(counter, entry.1);
        let before = pointer_at(old, entry.0);
        let after = pointer_at(new, generation);
        let value = map(before, item, after);
        append_entry(to, generation, value);
        counter = stepped;
    }
    from.clear();
    counter
}
