//! What users rely on most in an arena, said once more of functions whose body is the call alone.
//! That each is proved shows that the arena's contract says so much, and `must-fail/` has a wrong
//! body for each promise, which its clause refuses. A wrong body here makes the calls that are
//! public; those of the arena's own files are in its `wrong-bodies.txt`.
#![tactic(auto)]

ghost use Rattle.std.specs.Prelude.{◌≡◌, ℕ, length, ◌<◌, ◌↔◌, None, Some, IsOk, IfOk, IfSome};
ghost use Rattle.std.specs.Prelude.{IfNone, OnOk, OnSome, OnErr, option_copied, ◌≤◌};
ghost use Rattle.std.specs.Prelude.{IsTrue};
ghost use Rattle.std.specs.Fn.{iterate};
ghost use Rattle.std.specs.Int.NonZero.{non_zero_usize_get};
ghost use Rattle.std.specs.Option.{option_map};
ghost use Rattle.triple_arena_ptr.specs.Errors.{IsBeyondMaxCapacity, IsAllocError};
ghost use Rattle.triple_arena_ptr.specs.Generation.{next_generation};
ghost use Rattle.triple_arena_ptr.specs.InvalidationOption.{value_of, overflowed};
ghost use Rattle.triple_arena_ptr.specs.InvalidationResult.{answer_of};
ghost use Rattle.triple_arena_stack.specs.Room.{capacity as capacity_of, IsBeyond};
ghost use Rattle.triple_arena.specs.ArenaRoom.{room_with};
ghost use Rattle.triple_arena.specs.Changes.{IsInserted, IsRemoved};
ghost use Rattle.triple_arena.specs.Content.{entry_at, live_count, arena_capacity, next_index};
ghost use Rattle.triple_arena.specs.Content.{inserted};
ghost use Rattle.triple_arena.specs.Drains.{drained};
ghost use Rattle.triple_arena.specs.Entries.{value_if, counter_wraps, generation_at};
ghost use Rattle.triple_arena.specs.FreeLinks.{neighbors};
ghost use Rattle.triple_arena.specs.Transfer.{IsTransferred, IsGivenUp, IsFilled};

use std::num::NonZeroUsize;
use triple_arena::{
    Arena, ArenaCloneFromWith, ArenaInsertTrait, ArenaSlots, ArenaTrait, ArenaTransferSource,
    ArenaTransferTrait, InvalidationOption, InvalidationResult, NotWithinCapacityError, PtrCore,
    ReallocationError,
};

/// Stores a value exactly if there is room, under a pointer that finds it.
pub fn insert_within_capacity<P: PtrCore, A: ArenaInsertTrait<P, u64>>(
    arena: &mut A,
    t: u64,
) -> Result<P, NotWithinCapacityError>
    ensures variant { IsOk result ↔ (A.live_count arena.old < capacity_of (A.room arena.old)) }
    ensures inserted { IfOk result (λ p. IsInserted A.entry_at A.live_count A.counter
        (A.next_index arena.old) (P.index p) (P.generation p) t arena.old arena.new) }
    ensures exact { OnOk result (arena.new ≡ A.inserted arena.old t) }
    ensures err { OnErr result (arena.new ≡ arena.old) }
{
    let inserted = arena.insert_within_capacity(t);
    inserted
}

/// Stores a value at the index that was left last, and only then in a new slot.
pub fn insert_at_the_next_index<P: PtrCore, S: ArenaSlots<P, u64>>(
    arena: &mut Arena<P, u64, S>,
    t: u64,
) -> Result<P, NotWithinCapacityError>
    ensures variant { IsOk result ↔ (live_count arena.old < arena_capacity arena.old) }
    ensures index { IfOk result (λ p. P.index p ≡ next_index arena.old) }
    ensures exact { OnOk result (arena.new ≡ inserted arena.old t) }
    ensures err { OnErr result (arena.new ≡ arena.old) }
{
    let stored = arena.insert_within_capacity(t);
    stored
}

/// Finds the value that a pointer was given for, and nothing by the pointer of an entry that has
/// gone.
pub fn get<P: PtrCore, T: Drop, A: ArenaTrait<P, T>>(arena: &A, p: P) -> Option<&T>
    ensures { option_copied result ≡ value_if (P.generation p) (A.entry_at arena.now (P.index p)) }
{
    let found = arena.get(p);
    found
}

/// The free indexes before and after that of a slot, in the order in which insertions take them.
pub fn free_neighbors<P: PtrCore, T: Drop, S: ArenaSlots<P, T>>(
    arena: &Arena<P, T, S>,
    i: NonZeroUsize,
) -> Option<(Option<P::Inx>, Option<P::Inx>)>
    requires is_slot { non_zero_usize_get i ≤ length arena.now.slots }
    ensures { option_map (λ l. (option_map P.Inx.number l.0, option_map P.Inx.number l.1)) result
        ≡ neighbors arena.now.free (non_zero_usize_get i) }
{
    match arena.backing().get(i) {
        Some(slot) => slot.free_links(),
        None => unreachable!(),
    }
}

/// Removes a value, and tells where the step of the counter wrapped.
pub fn remove<P: PtrCore, T: Drop, A: ArenaTrait<P, T>>(
    arena: &mut A,
    p: P,
) -> InvalidationResult<T>
    ensures value { option_map value_of (answer_of result)
        ≡ value_if (P.generation p) (A.entry_at arena.old (P.index p)) }
    ensures overflow { IfSome (answer_of result)
        (λ a. overflowed a ≡ counter_wraps P.Gen.last (A.counter arena.old)) }
    ensures removed { OnSome (answer_of result) (IsRemoved A.entry_at A.live_count A.counter A.room
        P.Gen.last (P.index p) arena.old arena.new) }
    ensures invalid { IfNone (answer_of result) (arena.new ≡ arena.old) }
{
    let removed = arena.remove(p);
    removed
}

/// Takes the first entry out by a drain, which takes the rest if it is let go, each by a step of
/// the counter.
#[tactic(auto, using(triple_arena::specs::TransferLaws::drains))]
pub fn take_first_by_drain<P: PtrCore, T: Drop, S: ArenaSlots<P, T>>(
    arena: &mut Arena<P, T, S>,
) -> Option<InvalidationOption<(P, T)>>
    ensures exact { arena.new ≡ drained P.Gen.last arena.old }
    ensures entries { (j : ℕ) → entry_at arena.new j ≡ None }
    ensures counter { arena.new.counter
        ≡ iterate (next_generation P.Gen.last) (live_count arena.old) arena.old.counter }
{
    let mut drain = arena.drain();
    let first = drain.next();
    first
}

/// Makes an arena a copy of another one, with its pointers and its counter.
pub fn copy<P: PtrCore, S: ArenaSlots<P, u64>, R: ArenaSlots<P, u64>>(
    arena: &mut Arena<P, u64, S>,
    source: &Arena<P, u64, R>,
) -> Result<(), ReallocationError>
    ensures pointers { OnOk result ((j : ℕ) → generation_at (entry_at arena.new) j
        ≡ generation_at (entry_at source.now) j) }
    ensures counter { OnOk result (arena.new.counter ≡ source.now.counter) }
{
    let copied = arena.clone_from_with(source, |_, value| Ok(*value));
    copied
}

/// Moves the entries of one arena to another, each under the generation that is given, with what
/// `map` makes of its value. It is refused exactly if that must be, and then both stay as they
/// were.
pub fn transfer<P, Q, A, B, F>(
    arena: &mut A,
    generation: P::Gen,
    source: &mut B,
    map: F,
) -> Result<(), ReallocationError>
where
    P: PtrCore,
    Q: PtrCore,
    A: ArenaTransferTrait<P, u64>,
    B: ArenaTransferSource<Q, u64>,
    F: FnMut(Q, InvalidationOption<u64>, P) -> u64,
    requires { F.IsAlwaysCallable map }
    ensures mapped { OnOk result (IsTransferred Q.index Q.generation P.index P.generation F.step
        map Q.Gen.last (B.counter source.old) (B.live_entries source.old)
        (A.live_entries arena.new)) }
    ensures filled { OnOk result (IsFilled A.entry_at A.live_count A.counter A.room A.live_entries
        (B.live_count source.old) (P.Gen.number generation)
        (room_with (B.live_count source.old) (A.room arena.old)) arena.old arena.new) }
    ensures given_up { OnOk result (IsGivenUp B.entry_at B.live_count B.counter B.room Q.Gen.last
        source.old source.new) }
    ensures succeeds { B.live_count source.old ≤ capacity_of (A.room arena.old) → IsOk result }
    ensures beyond { IsBeyondMaxCapacity result
        ↔ IsBeyond (A.room arena.old).limit (B.live_count source.old) }
    ensures memory { IsAllocError result → IsTrue A.takes_memory }
    ensures err { OnErr result (arena.new ≡ arena.old) }
    ensures source_err { OnErr result (source.new ≡ source.old) }
{
    let moved = arena.transfer_reallocating(generation, source, map);
    moved
}
