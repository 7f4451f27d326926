//! Items that go to arenas over other pointers: after a pack each has the index there that it had.
ghost use Rattle.std.specs.Prelude.{◌≡◌, ◌≤◌, ℕ, [], IsSome, Some, ⊤};
ghost use Rattle.std.specs.List.{range_with_len};
ghost use Rattle.triple_arena_ptr.specs.Generation.{second_generation};
ghost use Rattle.triple_arena_ptr.specs.Index.{max_index_of};
ghost use Rattle.triple_arena.specs.Content.{arena_capacity, entry_at, live_count};
ghost use Rattle.triple_arena_chain.specs.CanonicalLayout.{IsLaidOut};
ghost use Rattle.linked_lists.specs.LinkedLists.{next_at};
ghost use Rattle.triple_arena_chain.specs.Links.{ends_in, values_in};
ghost use Rattle.triple_arena_ord.specs.Ordered.{entry_in, order_in, size_in};
ghost use Rattle.route_book.specs.Book.{in_order};
ghost use Rattle.route_book.specs.Item.{reference_of};
ghost use Rattle.route_book.specs.Moving.{AreTransferred, mark_over, over, stop_over};
ghost use Rattle.route_book.specs.Removals.{AreFirst};

use crate::items::{Mark, Place, Ref, Stop};
use proof_marks::{recall, unreached};
use std::marker::PhantomData;
use triple_arena::{Arena, ArenaSlots, ArenaTrait, ArenaTransferTrait};
use triple_arena_chain::{ChainArena, ChainSlots};
use triple_arena_ord::laws::{canonical_transfers_list_by_index, entries_stand_in_the_list};
use triple_arena_ord::{OrdSlots, SimpleOrdArena};
use triple_arena_ptr::{PtrCore, PtrGenCore, at_index_of};

// The reference over other pointers: with the same index, or with the greatest one if their type
// has no such index.
fn over<P: PtrCore, Q: PtrCore>(to: Ref<P>) -> Ref<Q>
    ensures { reference_of Q.index Q.generation result
        ≡ over (max_index_of Q.Inx.greatest) (second_generation Q.Gen.last)
        (reference_of P.index P.generation to) }
{
    match to {
        Ref::To(p) => Ref::To(at_index_of(p)),
        Ref::Gone => Ref::Gone,
    }
}

// A closure that calls one of these has to name its result's type by what it captures, so the type
// is passed.
impl<P: PtrCore> Stop<P> {
    fn over<Q: PtrCore>(self, _over: PhantomData<Stop<Q>>) -> Stop<Q>
        ensures { result
            ≡ stop_over (max_index_of Q.Inx.greatest) (second_generation Q.Gen.last) self }
    {
        Stop::new(self.ticket(), over(self.place))
    }
}

impl<P: PtrCore> Mark<P> {
    fn over<Q: PtrCore>(self, _over: PhantomData<Mark<Q>>) -> Mark<Q>
        ensures { result
            ≡ mark_over (max_index_of Q.Inx.greatest) (second_generation Q.Gen.last) self }
    {
        Mark::new(self.ticket(), over(self.place), over(self.stop))
    }
}

// Moves the places, which fit.
pub(crate) fn transfer_places<P: PtrCore, S: OrdSlots<P, Place>, Q: PtrCore, R: OrdSlots<Q, Place>>(
    from: SimpleOrdArena<P, Place, S>,
    to: &mut SimpleOrdArena<Q, Place, R>,
)
    requires fits { size_in from ≤ arena_capacity to.old.chains }
    requires no_more { ⊤ }
    ensures entries { order_in from ≡ range_with_len 1 (size_in from)
        → AreTransferred Q.Gen.last (λ p. p) (entry_in from) (entry_in to.new) }
    ensures within { order_in from ≡ range_with_len 1 (size_in from)
        → (k : ℕ) → IsSome (entry_in from k) → k ≤ max_index_of Q.Inx.greatest }
    ensures order { in_order to.new ≡ in_order from }
    ensures run { order_in to.new ≡ range_with_len 1 (size_in from) }
    ensures size { size_in to.new ≡ size_in from }
    ensures free { to.new.chains.free ≡ [] }
    ensures counter { to.new.chains.counter ≡ second_generation Q.Gen.last }
    ensures room { to.new.chains.room ≡ to.old.chains.room }
{
    canonical_transfers_list_by_index::<Q, Place>();
    entries_stand_in_the_list::<P, Place>();
    let mut source = from;
    // The list is as it must be, and each live index will be one of the pointers'.
    recall!(source.len());
    recall!(to.capacity());
    let moved = to.transfer_canonical_reallocating(
        Q::Gen::two(),
        &mut source,
        |_, place, _| place.allow(),
    );
    match moved {
        Ok(()) => {}
        Err(_) => unreached!(),
    }
}

// Moves the stops, which fit.
pub(crate) fn transfer_stops<
    P: PtrCore,
    S: ChainSlots<P, Stop<P>>,
    Q: PtrCore,
    R: ChainSlots<Q, Stop<Q>>,
>(from: ChainArena<P, Stop<P>, S>, to: &mut ChainArena<Q, Stop<Q>, R>)
    requires fits { live_count from ≤ arena_capacity to.old }
    requires no_more { ⊤ }
    ensures entries { IsLaidOut (ends_in from) (live_count from)
        → AreTransferred Q.Gen.last
        (stop_over (max_index_of Q.Inx.greatest) (second_generation Q.Gen.last)) (values_in from)
        (values_in to.new) }
    ensures within { IsLaidOut (ends_in from) (live_count from)
        → (k : ℕ) → IsSome (values_in from k) → k ≤ max_index_of Q.Inx.greatest }
    ensures on { (i k : ℕ) → next_at (ends_in from) i ≡ Some k → IsSome (values_in from k) }
    ensures next { IsLaidOut (ends_in from) (live_count from)
        → (k : ℕ) → IsSome (values_in from k)
        → next_at (ends_in to.new) k ≡ next_at (ends_in from) k }
    ensures laid { IsLaidOut (ends_in from) (live_count from)
        → IsLaidOut (ends_in to.new) (live_count from) }
    ensures live { live_count to.new ≡ live_count from }
    ensures free { to.new.free ≡ [] }
    ensures counter { to.new.counter ≡ second_generation Q.Gen.last }
    ensures room { to.new.room ≡ to.old.room }
{
    let mut source = from;
    // The links are as they must be, and each live index will be one of the pointers'.
    recall!(source.len());
    recall!(to.capacity());
    let over = PhantomData::<Stop<Q>>;
    let moved = to.transfer_canonical_reallocating(Q::Gen::two(), &mut source, |_, stop, _| {
        stop.allow().over(over)
    });
    match moved {
        Ok(()) => {}
        Err(_) => unreached!(),
    }
}

// Moves the marks, which fit.
pub(crate) fn transfer_marks<
    P: PtrCore,
    S: ArenaSlots<P, Mark<P>>,
    Q: PtrCore,
    R: ArenaSlots<Q, Mark<Q>>,
>(from: Arena<P, Mark<P>, S>, to: &mut Arena<Q, Mark<Q>, R>)
    requires fits { live_count from ≤ arena_capacity to.old }
    requires no_more { ⊤ }
    ensures entries { AreFirst (entry_at from) (live_count from)
        → AreTransferred Q.Gen.last
        (mark_over (max_index_of Q.Inx.greatest) (second_generation Q.Gen.last)) (entry_at from)
        (entry_at to.new) }
    ensures within { AreFirst (entry_at from) (live_count from)
        → (k : ℕ) → IsSome (entry_at from k) → k ≤ max_index_of Q.Inx.greatest }
    ensures live { live_count to.new ≡ live_count from }
    ensures free { to.new.free ≡ [] }
    ensures counter { to.new.counter ≡ second_generation Q.Gen.last }
    ensures room { to.new.room ≡ to.old.room }
{
    let mut source = from;
    // Each live index will be one of the pointers'.
    recall!(to.capacity());
    let over = PhantomData::<Mark<Q>>;
    let moved = to.transfer_reallocating(Q::Gen::two(), &mut source, |_, mark, _| {
        mark.allow().over(over)
    });
    match moved {
        Ok(()) => {}
        Err(_) => unreached!(),
    }
}
