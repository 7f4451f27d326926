//! Order books that are moved, as into one over narrower pointers.
ghost use Rattle.std.specs.Prelude.{◌≡◌, ◌≤◌, ◌↔◌, OnOk, OnErr, IsOk, IsTrue};
ghost use Rattle.std.specs.Prelude.{map as list_map};
ghost use Rattle.std.specs.List.{range_with_len};
ghost use Rattle.triple_arena_ptr.specs.Errors.{IsBeyondMaxCapacity, IsAllocError};
ghost use Rattle.triple_arena_stack.specs.Room.{capacity as capacity_of, IsBeyond};
ghost use Rattle.triple_arena.specs.ArenaRoom.{room_with};
ghost use Rattle.triple_arena.specs.Transfer.{IsFilled};
ghost use Rattle.triple_arena_ord.specs.Indexed.{indexed};
ghost use Rattle.triple_arena_ord.specs.Ordered.{entry_in, size_in, counter_in, room_in, order_in};
ghost use Rattle.triple_arena_ord.specs.Ordered.{ordered_entries};
ghost use Rattle.triple_arena_ord.specs.States.{drained_in};
ghost use Rattle.example_ord.specs.OrderBooks.{listed_order};

use crate::order_book::{OrderBook, OrderSlot};
use triple_arena::{NonZeroInxGenericStack, PtrCore, ReallocationError};
use triple_arena_ord::OrdPair;
use triple_arena_ord::laws::canonical_transfers_list_by_index;

/// Drops the orders of `book`, and moves those of `source` there, to the indexes from 1 on along
/// its list, which is that of its prices. Each new pointer has `generation`, and the counter is
/// `generation` too, so a pointer that `book` gave under it may find an order that came in.
/// `source` is left with no order and no slot, in its room, and its counter has stepped once for
/// each order.
///
/// Memory is taken only if there are more orders than fit, and then for so many exactly. It returns
/// `BeyondMaxCapacity` if they are more than the greatest capacity, and `AllocError` if the memory
/// was refused. An error leaves both books as they were.
pub fn move_orders<P, Q, V, S, R>(
    book: &mut OrderBook<P, V, S>,
    generation: P::Gen,
    source: &mut OrderBook<Q, V, R>,
) -> Result<(), ReallocationError>
where
    P: PtrCore,
    Q: PtrCore,
    V: Drop,
    S: NonZeroInxGenericStack<Item = OrderSlot<P, V>> + Drop,
    R: NonZeroInxGenericStack<Item = OrderSlot<Q, V>> + Drop,
    ensures orders { OnOk result (list_map listed_order (ordered_entries book.new)
        ≡ list_map listed_order (ordered_entries source.old)) }
    ensures indexes { OnOk result (order_in book.new ≡ range_with_len 1 (size_in source.old)) }
    ensures filled { OnOk result
        (IsFilled entry_in size_in counter_in room_in indexed (size_in source.old)
        (P.Gen.number generation) (room_with (size_in source.old) (room_in book.old))
        book.old book.new) }
    ensures source_exact { OnOk result (source.new ≡ drained_in Q.Gen.last source.old) }
    ensures succeeds { size_in source.old ≤ capacity_of (room_in book.old) → IsOk result }
    ensures beyond { IsBeyondMaxCapacity result
        ↔ IsBeyond (room_in book.old).limit (size_in source.old) }
    ensures memory { IsAllocError result → IsTrue S.takes_memory }
    ensures err { OnErr result (book.new ≡ book.old) }
    ensures source_err { OnErr result (source.new ≡ source.old) }
{
    canonical_transfers_list_by_index::<P, OrdPair<u64, V>>();
    book.transfer_canonical_reallocating(generation, source, |_, order, _| order.allow())
}
