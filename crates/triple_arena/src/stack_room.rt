//! The room of an arena, in that of its stack.
ghost use Rattle.std.specs.Prelude.{◌≡◌, ◌^◌, ◌<◌, ◌≤◌, ◌↔◌, None, IsOk, OnOk, OnErr};
ghost use Rattle.std.specs.Prelude.{IsTrue};
ghost use Rattle.triple_arena_ptr.specs.Errors.{IsBeyondMaxCapacity, IsAllocError};
ghost use Rattle.triple_arena_ptr.specs.Index.{max_index_of};
ghost use Rattle.triple_arena_stack.specs.Room.{capacity, IsBeyond};
ghost use Rattle.triple_arena.specs.ArenaRoom.{room_of, room_with};

use crate::arena::max_index;
use triple_arena_ptr::{PtrCore, ReallocationError};
use triple_arena_stack::NonZeroInxGenericStack;

// How many entries fit with no growth.
pub(crate) fn capacity_over<P: PtrCore, X: Drop, S: NonZeroInxGenericStack<Item = X>>(
    slots: &S,
) -> usize
    ensures value { result ≡ capacity (room_of P.Inx.greatest (S.room slots.now)) }
    ensures can_double { (room_of P.Inx.greatest (S.room slots.now)).limit ≡ None
        → result < 2 ^ 63 }
    ensures bounded { result ≤ max_index_of P.Inx.greatest }
{
    slots.capacity().min(max_index::<P>())
}

// The greatest capacity, if there is one.
pub(crate) fn limit_over<P: PtrCore, X: Drop, S: NonZeroInxGenericStack<Item = X>>(
    slots: &S,
) -> Option<usize>
    ensures { result ≡ (room_of P.Inx.greatest (S.room slots.now)).limit }
{
    let max = max_index::<P>();
    match slots.max_capacity() {
        Some(limit) => Some(limit.min(max)),
        None if max < usize::MAX => Some(max),
        None => None,
    }
}

// Makes room for `min` entries, by a growth to exactly that if there is less.
pub(crate) fn reallocate_over<P: PtrCore, X: Drop, S: NonZeroInxGenericStack<Item = X>>(
    slots: &mut S,
    min: usize,
) -> Result<(), ReallocationError>
    ensures items { S.items slots.new ≡ S.items slots.old }
    ensures room { OnOk result (room_of P.Inx.greatest (S.room slots.new)
        ≡ room_with min (room_of P.Inx.greatest (S.room slots.old))) }
    ensures fits { OnOk result (min ≤ capacity (room_of P.Inx.greatest (S.room slots.new))) }
    ensures succeeds { min ≤ capacity (room_of P.Inx.greatest (S.room slots.old)) → IsOk result }
    ensures kept { min ≤ capacity (room_of P.Inx.greatest (S.room slots.old))
        → slots.new ≡ slots.old }
    ensures beyond { IsBeyondMaxCapacity result
        ↔ IsBeyond (room_of P.Inx.greatest (S.room slots.old)).limit min }
    ensures memory { IsAllocError result → IsTrue S.takes_memory }
    ensures err { OnErr result (slots.new ≡ slots.old) }
{
    if min <= capacity_over::<P, X, S>(slots) {
        return Ok(());
    }
    if let Some(limit) = limit_over::<P, X, S>(slots)
        && limit < min
    {
        return Err(ReallocationError::BeyondMaxCapacity);
    }
    slots.reallocate_min_capacity(min)
}
