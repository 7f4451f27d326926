//! What the rules of each exact state give to a function that names them.
ghost use Rattle.std.specs.Prelude.{◌≡◌, ◌==◌, ◌-◌, ℕ, [], ◌∷◌, length, drop, max, OnOk, OnSome};
ghost use Rattle.std.specs.Prelude.{if◌then◌else◌};
ghost use Rattle.triple_arena_ptr.specs.InvalidationResult.{answer_of};
ghost use Rattle.triple_arena.specs.DirectContent.{entry_at as direct_entry_at};
ghost use Rattle.triple_arena.specs.DirectContent.{live_count as direct_live_count};
ghost use Rattle.triple_arena.specs.Content.{entry_at, live_count, next_index};

use proof_marks::recall;
use triple_arena::{
    Arena, ArenaInsertTrait, ArenaSlots, ArenaTrait, DirectArena, DirectSlots,
    DisjointableArenaTrait, GetDisjointMutError, InvalidationOption, InvalidationResult,
    NotWithinCapacityError, PtrCore, ReallocationError,
};

/// The slots and the free indexes after an insertion.
#[tactic(auto, using(triple_arena::specs::InsertionLaws::insertions))]
pub fn insert<P: PtrCore, T: Drop, S: ArenaSlots<P, T>>(
    arena: &mut Arena<P, T, S>,
    t: T,
) -> Result<P, NotWithinCapacityError>
    ensures slots { OnOk result (length arena.new.slots
        ≡ max (length arena.old.slots) (next_index arena.old)) }
    ensures free { OnOk result (arena.new.free ≡ drop 1 arena.old.free) }
{
    // Well-formed before.
    recall!(arena.len());
    arena.insert_within_capacity(t)
}

/// The entries after a growth.
#[tactic(auto, using(triple_arena::specs::InsertionLaws::growths))]
pub fn grow<P: PtrCore, T: Drop, S: ArenaSlots<P, T>>(
    arena: &mut Arena<P, T, S>,
    min: usize,
) -> Result<(), ReallocationError>
    ensures entries { OnOk result ((j : ℕ) → entry_at arena.new j ≡ entry_at arena.old j) }
{
    arena.reallocate_min_capacity(min)
}

/// The slots after a growth of an arena to which the caller gives the pointers.
#[tactic(auto, using(triple_arena::specs::DirectLaws::direct_growths))]
pub fn grow_direct<P: PtrCore, T: Drop, S: DirectSlots<P, T>>(
    arena: &mut DirectArena<P, T, S>,
    min: usize,
) -> Result<(), ReallocationError>
    ensures entries { OnOk result ((j : ℕ) → direct_entry_at arena.new j
        ≡ direct_entry_at arena.old j) }
    ensures slots { OnOk result (length arena.new.slots ≡ length arena.old.slots) }
    ensures count { OnOk result (direct_live_count arena.new ≡ direct_live_count arena.old) }
{
    arena.reallocate_min_capacity(min)
}

/// The entries where the counter stepped.
pub fn inc_generation<P: PtrCore, T: Drop, S: ArenaSlots<P, T>>(
    arena: &mut Arena<P, T, S>,
) -> InvalidationOption<()>
    ensures entries { (j : ℕ) → entry_at arena.new j ≡ entry_at arena.old j }
    ensures count { live_count arena.new ≡ live_count arena.old }
    ensures free { arena.new.free ≡ arena.old.free }
{
    arena.inc_generation()
}

/// The slots and the free indexes after a removal.
#[tactic(auto, using(triple_arena::specs::RemovalLaws::removals))]
pub fn remove<P: PtrCore, T: Drop, S: ArenaSlots<P, T>>(
    arena: &mut Arena<P, T, S>,
    p: P,
) -> InvalidationResult<T>
    ensures slots { OnSome (answer_of result) (length arena.new.slots
        ≡ (if P.index p == length arena.old.slots then P.index p - 1 else length arena.old.slots)) }
    ensures free { OnSome (answer_of result) (arena.new.free
        ≡ (if P.index p == length arena.old.slots then arena.old.free
        else (P.index p ∷ arena.old.free))) }
{
    arena.remove(p)
}

/// The slots and the free indexes after a compression.
#[tactic(auto, using(triple_arena::specs::CompactedLaws::compressions))]
pub fn compress<P: PtrCore, T: Drop, S: ArenaSlots<P, T>>(
    arena: &mut Arena<P, T, S>,
    reset: bool,
) -> InvalidationOption<()>
    ensures slots { length arena.new.slots ≡ live_count arena.old }
    ensures free { arena.new.free ≡ [] }
{
    arena.compress(reset)
}

/// The slots after a compression of an arena to which the caller gives the pointers.
#[tactic(auto, using(triple_arena::specs::CompactedLaws::direct_compressions))]
pub fn compress_direct<P: PtrCore, T: Drop, S: DirectSlots<P, T>>(
    arena: &mut DirectArena<P, T, S>,
    reset: bool,
) -> InvalidationOption<()>
    ensures slots { length arena.new.slots ≡ direct_live_count arena.old }
{
    arena.compress(reset)
}

/// The slots and the next index after a clearing.
#[tactic(auto, using(triple_arena::specs::RemovalLaws::clearings))]
pub fn clear<P: PtrCore, T: Drop, S: ArenaSlots<P, T>>(
    arena: &mut Arena<P, T, S>,
) -> InvalidationOption<()>
    ensures slots { length arena.new.slots ≡ 0 }
    ensures free { arena.new.free ≡ [] }
    ensures next { next_index arena.new ≡ 1 }
{
    arena.clear()
}

/// The slots and the free indexes after a pointer ended.
#[tactic(auto, using(triple_arena::specs::GenerationLaws::invalidations))]
pub fn invalidate<P: PtrCore, T: Drop, S: ArenaSlots<P, T>>(
    arena: &mut Arena<P, T, S>,
    p: P,
) -> InvalidationResult<P>
    ensures slots { OnSome (answer_of result) (length arena.new.slots ≡ length arena.old.slots) }
    ensures free { OnSome (answer_of result) (arena.new.free ≡ arena.old.free) }
{
    arena.invalidate(p)
}

/// The slots and the free indexes after an exchange.
#[tactic(auto, using(triple_arena::specs::ExchangeLaws::exchanges))]
pub fn swap<P: PtrCore, T: Drop, S: ArenaSlots<P, T>>(
    arena: &mut Arena<P, T, S>,
    p: P,
    q: P,
) -> Result<(), GetDisjointMutError>
    ensures slots { OnOk result (length arena.new.slots ≡ length arena.old.slots) }
    ensures free { OnOk result (arena.new.free ≡ arena.old.free) }
{
    arena.swap(p, q)
}

/// The slots and the entries where the free ones at the end are gone.
#[tactic(auto, using(triple_arena::specs::FreeListLaws::free_end_removals))]
pub fn remove_free_end_slots<P: PtrCore, T: Drop, S: ArenaSlots<P, T>>(arena: &mut Arena<P, T, S>)
    ensures entries { (j : ℕ) → entry_at arena.new j ≡ entry_at arena.old j }
    ensures count { live_count arena.new ≡ live_count arena.old }
{
    arena.remove_free_end_slots();
}

/// The entries where the free indexes rise.
#[tactic(auto, using(triple_arena::specs::FreeListLaws::canonical_orders))]
pub fn canonicalize_freelist<P: PtrCore, T: Drop, S: ArenaSlots<P, T>>(arena: &mut Arena<P, T, S>)
    ensures entries { (j : ℕ) → entry_at arena.new j ≡ entry_at arena.old j }
    ensures slots { length arena.new.slots ≡ length arena.old.slots }
{
    arena.canonicalize_freelist();
}
