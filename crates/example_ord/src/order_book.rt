//! Order books: the orders of one side of a market in an ordered arena, by price, and those of one
//! price in the order in which they came. Two books are a market: of the one the best order is the
//! first with the least price, of the other the first with the greatest.
ghost use Rattle.std.specs.Prelude.{◌≡◌, ◌≤◌, ◌↔◌, ℕ, List, None, Some, IsTrue, IsOk, IsSome, IfOk};
ghost use Rattle.std.specs.Prelude.{IfSome, IfNone, IfErr, OnErr, OnSome, IsErrOf};
ghost use Rattle.triple_arena_stack.specs.Room.{capacity as capacity_of, IsBeyond};
ghost use Rattle.triple_arena.specs.ArenaRoom.{room_of};
ghost use Rattle.triple_arena.specs.Content.{live_count, arena_capacity};
ghost use Rattle.triple_arena.specs.Entries.{with_entry, without, value_if};
ghost use Rattle.triple_arena_ptr.specs.Errors.{IsBeyondMaxCapacity, IsAllocError};
ghost use Rattle.triple_arena_ptr.specs.Generation.{next_generation};
ghost use Rattle.triple_arena_ord.specs.Inserted.{Replaces, StandsAt};
ghost use Rattle.triple_arena_ord.specs.Ordered.{IsOrdered, size_in, order_in};
ghost use Rattle.triple_arena_ord.specs.Removal.{Loses};
ghost use Rattle.example_ord.specs.OrderBooks.{orders_in, IsBehind, IsBook, IsBestAsk};
ghost use Rattle.example_ord.specs.OrderBooks.{IsBestBid, IsNext, IsLast};
ghost use Rattle.triple_arena_ord.specs.Found.{place_by, IsLivePlace};
ghost use Rattle.triple_arena.specs.Steps.{Finds};

use proof_marks::recall;
use std::cmp::Ordering;
use triple_arena::{
    Advancer, ArenaSlot, ArenaTrait, NonZeroInxGenericStack, PtrCore, ReallocationError,
};
use triple_arena_chain::LinkNoGen;
use triple_arena_ord::laws::{
    insertions_keep_keys_ascending, keys_ascend_along_the_list, removals_keep_keys_ascending,
};
use triple_arena_ord::{OrdInsertionError, OrdPair, SimpleOrdArena, SimpleOrdArenaNode};

/// The orders of one side, by their prices.
pub type OrderBook<P, V, S> = SimpleOrdArena<P, OrdPair<u64, V>, S>;

/// A slot of an order book.
pub type OrderSlot<P, V> = ArenaSlot<P, LinkNoGen<P, SimpleOrdArenaNode<P, OrdPair<u64, V>>>>;

/// A book without an order, with room for so many. It returns `BeyondMaxCapacity` if no book of
/// this type has so much room, and `AllocError` if the memory was refused.
pub fn open_book<P: PtrCore, V: Drop, S: NonZeroInxGenericStack<Item = OrderSlot<P, V>> + Drop>(
    alloc: S::Alloc,
    orders: usize,
) -> Result<OrderBook<P, V, S>, ReallocationError>
    ensures vacant { IfOk result (λ book. (i : ℕ) → orders_in book i ≡ None) }
    ensures fits { IfOk result (λ book. orders ≤ arena_capacity book.chains) }
    ensures succeeds { orders ≤ capacity_of (room_of P.Inx.greatest (S.room_at 0)) → IsOk result }
    ensures beyond { IsBeyondMaxCapacity result
        ↔ IsBeyond (room_of P.Inx.greatest (S.room_at orders)).limit orders }
    ensures memory { IsAllocError result → IsTrue S.takes_memory }
    ensures book { IfOk result (λ book. IsBook book) }
{
    SimpleOrdArena::with_min_capacity(alloc, orders)
}

// Where an order goes that comes behind all whose price is not greater.
fn place_behind<P: PtrCore, V: Drop, S: NonZeroInxGenericStack<Item = OrderSlot<P, V>> + Drop>(
    book: &OrderBook<P, V, S>,
    price: u64,
) -> Option<(P::Inx, Ordering)>
    requires { IsBook book.now }
    ensures live { IsLivePlace P.Inx.number book.now result }
    ensures empty { result ≡ None → size_in book.now ≡ 0 }
    ensures new { Replaces (place_by P.Inx.number result) → ⊥ }
    ensures behind { (w : List ℕ) (i : ℕ)
        → StandsAt (place_by P.Inx.number result) (order_in book.now) w i
        → IsBehind book.now price i (order_in book.now) w }
    ensures ordered { IsOrdered book.now }
{
    // The book is ordered.
    recall!(book.len());
    match book.upper_bound(&price) {
        Some(next) => Some((next.inx(), Ordering::Less)),
        None => match book.last() {
            Some(last) => Some((last.inx(), Ordering::Greater)),
            None => None,
        },
    }
}

/// Puts an order in at a price, behind all that stand there, and returns its pointer. It returns
/// `NotWithinCapacity` if there is no room; the book stays as it is then.
pub fn add_order<P: PtrCore, V: Drop, S: NonZeroInxGenericStack<Item = OrderSlot<P, V>> + Drop>(
    book: &mut OrderBook<P, V, S>,
    price: u64,
    order: V,
) -> Result<P, OrdInsertionError>
    requires { IsBook book.old }
    ensures added { IfOk result (λ p. (i : ℕ) → orders_in book.new i
        ≡ with_entry (orders_in book.old) (P.index p) (P.generation p, (price, order)) i) }
    ensures fresh { IfOk result (λ p. (orders_in book.old (P.index p) ≡ None)
        × (P.generation p ≡ book.old.chains.counter)) }
    ensures behind { IfOk result (λ p. IsBehind book.old price (P.index p)
        (order_in book.old) (order_in book.new)) }
    ensures error { IfErr result (λ e. e ≡ OrdInsertionError.NotWithinCapacity) }
    ensures full { IsErrOf result OrdInsertionError.NotWithinCapacity
        ↔ (arena_capacity book.old.chains ≤ live_count book.old.chains) }
    ensures counter { book.new.chains.counter ≡ book.old.chains.counter }
    ensures room { book.new.chains.room ≡ book.old.chains.room }
    ensures book { IsBook book.new }
    ensures err { OnErr result (book.new ≡ book.old) }
{
    insertions_keep_keys_ascending::<P, OrdPair<u64, V>>();
    if book.len() >= book.capacity() {
        return Err(OrdInsertionError::NotWithinCapacity);
    }
    let place = place_behind(book, price);
    Ok(book.insert_inx_manual_within_capacity(place, OrdPair::new(price, order)))
}

/// Takes the order that `p` points to out, with its price. All other pointers find their orders,
/// which stay in their order. It returns `None`, and changes nothing, if `p` points to none.
pub fn cancel_order<P: PtrCore, V: Drop, S: NonZeroInxGenericStack<Item = OrderSlot<P, V>> + Drop>(
    book: &mut OrderBook<P, V, S>,
    p: P,
) -> Option<(u64, V)>
    requires { IsBook book.old }
    ensures order { result ≡ value_if (P.generation p) (orders_in book.old (P.index p)) }
    ensures gone { OnSome result
        ((i : ℕ) → orders_in book.new i ≡ without (orders_in book.old) (P.index p) i) }
    ensures list { OnSome result (Loses (order_in book.old) (order_in book.new) (P.index p)) }
    ensures counter { OnSome result
        (book.new.chains.counter ≡ next_generation P.Gen.last book.old.chains.counter) }
    ensures room { book.new.chains.room ≡ book.old.chains.room }
    ensures book { IsBook book.new }
    ensures none { IfNone result (book.new ≡ book.old) }
{
    removals_keep_keys_ascending::<P, OrdPair<u64, V>>();
    let pair = book.remove(p).allow()?;
    Some(pair.into_k_v())
}

/// The pointer to the order of a seller that is matched next: the one that came first of those with
/// the least price. `None` if there is no order.
pub fn best_ask<P: PtrCore, V: Drop, S: NonZeroInxGenericStack<Item = OrderSlot<P, V>> + Drop>(
    book: &OrderBook<P, V, S>,
) -> Option<P>
    requires { IsBook book.now }
    ensures live { IfSome result (λ p. Finds orders_in book.now (P.index p, P.generation p)) }
    ensures best { IfSome result (λ p. IsBestAsk book.now (P.index p)) }
    ensures none { IfNone result (live_count book.now.chains ≡ 0) }
{
    keys_ascend_along_the_list::<P, OrdPair<u64, V>>();
    // The book is ordered.
    recall!(book.len());
    book.first()
}

/// The pointer to the order of a buyer that is matched next: the one that came first of those with
/// the greatest price. `None` if there is no order.
pub fn best_bid<P: PtrCore, V: Drop, S: NonZeroInxGenericStack<Item = OrderSlot<P, V>> + Drop>(
    book: &OrderBook<P, V, S>,
) -> Option<P>
    requires { IsBook book.now }
    ensures live { IfSome result (λ p. Finds orders_in book.now (P.index p, P.generation p)) }
    ensures best { IfSome result (λ p. IsBestBid book.now (P.index p)) }
    ensures none { IfNone result (live_count book.now.chains ≡ 0) }
{
    keys_ascend_along_the_list::<P, OrdPair<u64, V>>();
    // The book is ordered.
    recall!(book.len());
    let last = book.last()?;
    let price = *book.get(last)?.k();
    book.lower_bound(&price)
}

/// The pointer to the order directly behind that of `p`: the next one at its price, or else the
/// first at the next greater price. It returns `None` if `p` points to none, or to the last.
pub fn next_order<P: PtrCore, V: Drop, S: NonZeroInxGenericStack<Item = OrderSlot<P, V>> + Drop>(
    book: &OrderBook<P, V, S>,
    p: P,
) -> Option<P>
    ensures from { IsSome result
        → IsSome (value_if (P.generation p) (orders_in book.now (P.index p))) }
    ensures live { IfSome result (λ q. Finds orders_in book.now (P.index q, P.generation q)) }
    ensures next { IfSome result (λ q. IsNext book.now (P.index p) (P.index q)) }
    ensures none { IfNone result
        (IsSome (value_if (P.generation p) (orders_in book.now (P.index p)))
        → IsLast book.now (P.index p)) }
{
    let mut walk = book.advancer_ordered(p, false)?;
    walk.advance(book)?;
    walk.advance(book)
}
