//! Removals: all other entries stay, in the same order, under the same pointers.
ghost use Rattle.std.specs.Prelude.{◌≡◌, ◌≢◌, ℕ, All, Some, IfSome, IfNone, OnSome};
ghost use Rattle.std.specs.Option.{option_map};
ghost use Rattle.std.specs.declared.cmp.Ordering.{Ordering as Way};
ghost use Rattle.triple_arena_ptr.specs.Generation.{next_wraps};
ghost use Rattle.triple_arena_ptr.specs.InvalidationOption.{value_of, overflowed};
ghost use Rattle.triple_arena_ptr.specs.InvalidationResult.{answer_of};
ghost use Rattle.triple_arena.specs.Entries.{value_if};
ghost use Rattle.triple_arena_ord.specs.Ordered.{Ordered, IsOrdered, IsAscending};
ghost use Rattle.triple_arena_ord.specs.Ordered.{entry_in, ordered_entries};
ghost use Rattle.triple_arena_ord.specs.OrderedDrains.{TakesFirst};
ghost use Rattle.triple_arena_ord.specs.Removal.{IsEntryRemoved};

use triple_arena::{ArenaTrait, InvalidationOption, InvalidationResult, PtrCore};
use triple_arena_ord::{OrdSlots, SimpleOrdArena, SimpleOrdItem};

/// Removes the item that `p` points to, and steps the counter.
pub fn remove<P: PtrCore, T: Drop, S: OrdSlots<P, T>>(
    arena: &mut SimpleOrdArena<P, T, S>,
    p: P,
) -> InvalidationResult<T>
    ensures value { option_map value_of (answer_of result)
        ≡ value_if (P.generation p) (entry_in arena.old (P.index p)) }
    ensures overflow { IfSome (answer_of result)
        (λ a. overflowed a ≡ next_wraps P.Gen.last arena.old.chains.counter) }
    ensures removed { OnSome (answer_of result)
        (IsEntryRemoved P.Gen.last (P.index p) arena.old arena.new) }
    ensures invalid { IfNone (answer_of result) (arena.new ≡ arena.old) }
    ensures ordered { IsOrdered arena.new }
{
    let removed = arena.remove(p);
    removed
}

/// Takes the first entry of the list out.
pub fn pop_first<P: PtrCore, T: Drop, S: OrdSlots<P, T>>(
    arena: &mut SimpleOrdArena<P, T, S>,
) -> Option<InvalidationOption<(P, T)>>
    ensures { TakesFirst P.Gen.last P.index P.generation result arena.old arena.new }
{
    let popped = arena.pop_first();
    popped
}

/// If the keys ascend, no key is less than that of the entry that is taken so.
pub fn the_first_taken_is_the_least<P: PtrCore, T: SimpleOrdItem>()
    ensures { (old new : Ordered T) (item : InvalidationOption (P × T))
        → TakesFirst P.Gen.last P.index P.generation (Some item) old new
        → IsAscending T.Key.cmp T.key_of old
        → All (λ (e : ℕ × (ℕ × T)). T.Key.cmp (T.key_of e.1.1) (T.key_of (value_of item).1)
        ≢ Way.Less) (ordered_entries new) }
{}
