//! What callers know of an arena to which they give the pointers.
ghost use Rattle.std.specs.Prelude.{◌≡◌, ◌+◌, ◌↔◌, Some, None, IsOk, OnOk, OnErr, IsErrOf, IsSome};
ghost use Rattle.std.specs.Prelude.{IfSome, OnSome, false};
ghost use Rattle.triple_arena_ptr.specs.InvalidationOption.{overflowed};
ghost use Rattle.triple_arena_ptr.specs.InvalidationResult.{answer_of};
ghost use Rattle.triple_arena.specs.DirectContent.{entry_at, live_count, inserted, removed};
ghost use Rattle.triple_arena.specs.DirectContent.{IsPlace};

use triple_arena::{
    ArenaDirectInsertEntryTrait, ArenaDirectInsertTrait, ArenaTrait, DirectArena,
    DirectInsertionError, DirectSlots, InvalidationOption, InvalidationResult, PtrCore,
};

/// An entry under a pointer of the caller's choice.
pub fn put<P: PtrCore, S: DirectSlots<P, u64>>(
    arena: &mut DirectArena<P, u64, S>,
    p: P,
    t: u64,
) -> Result<(), DirectInsertionError>
    ensures variant { IsOk result ↔ IsPlace arena.old (P.index p) }
    ensures exact { OnOk result (arena.new
        ≡ inserted arena.old (P.index p) (P.generation p) t) }
    ensures found { OnOk result (entry_at arena.new (P.index p) ≡ Some (P.generation p, t)) }
    ensures count { OnOk result (live_count arena.new ≡ live_count arena.old + 1) }
    ensures existing { IsErrOf result DirectInsertionError.ExistingElementAtIndex
        ↔ IsSome (entry_at arena.old (P.index p)) }
    ensures kept { OnErr result (arena.new ≡ arena.old) }
{
    match arena.direct_insert_within_capacity(p) {
        Ok(place) => {
            place.insert(t);
            Ok(())
        }
        Err(error) => Err(error),
    }
}

/// A removal never wraps, and leaves the slot.
pub fn take<P: PtrCore, S: DirectSlots<P, u64>>(
    arena: &mut DirectArena<P, u64, S>,
    p: P,
) -> InvalidationResult<u64>
    ensures never { IfSome (answer_of result) (λ a. overflowed a ≡ false) }
    ensures exact { OnSome (answer_of result) (arena.new ≡ removed arena.old (P.index p)) }
    ensures gone { OnSome (answer_of result) (entry_at arena.new (P.index p) ≡ None) }
{
    arena.remove(p)
}

/// Nor does `clear`.
pub fn clear<P: PtrCore, S: DirectSlots<P, u64>>(
    arena: &mut DirectArena<P, u64, S>,
) -> InvalidationOption<()>
    ensures none { live_count arena.new ≡ 0 }
    ensures never { overflowed result ≡ false }
{
    arena.clear()
}
