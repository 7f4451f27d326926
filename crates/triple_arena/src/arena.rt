//! The generational arena.
ghost use Rattle.std.specs.Prelude.{◌≡◌, ◌<◌, ◌≤◌, ℕ, [], Some, length, map, ⊤};
ghost use Rattle.std.specs.Int.NonZero.{non_zero_usize_get as at};
ghost use Rattle.triple_arena_ptr.specs.Generation.{second_generation};
ghost use Rattle.triple_arena_ptr.specs.Index.{max_index_of};
ghost use Rattle.triple_arena.specs.ArenaRoom.{room_of};
ghost use Rattle.triple_arena.specs.Slot.{Slot, entry_of, free_links};
ghost use Rattle.triple_arena.specs.FreeLinks.{neighbors};
ghost use Rattle.triple_arena_stack.specs.Stack.{item_at};
ghost use Rattle.triple_arena.specs.Content.{live_count, empty, IsWellFormed};

mod calls;
mod compression;
mod copy;
mod entry;
mod exchange;
mod free_slots;
mod generation;
mod indexing;
mod insertion;
mod iterators;
mod lending;
mod max_capacity;
mod reading;
mod recast;
mod recaster;
mod removal;
mod room;
mod text;
mod transfer;

use crate::free_inx::FreeInx;
use crate::{ArenaSlot, ArenaSlots};
pub(crate) use compression::{compact, keep_first, take_entry};
pub use entry::{ArenaInsertEntries, ArenaInsertEntry, ArenaInsertEntryTrait};
use proof_marks::{recall, unreached};
pub(crate) use reading::ValueAtMut;
pub(crate) use recast::{RecastByIndex, recast_values};
pub use recaster::{compress_recaster, compress_recaster_into};
pub(crate) use removal::equal_uncounted;
use std::marker::{Model, PhantomData};
use std::num::NonZeroUsize;
pub(crate) use text::write_entries;
use triple_arena_ptr::{OptionalInx, PtrCore, PtrGenCore, PtrInxCore};
use triple_arena_stack::{
    NonZeroInxArray, NonZeroInxBoxedSlice, NonZeroInxLimitedVec, NonZeroInxVec,
};

/// A generational arena, which keeps its slots in the stack `S`.
///
/// Each value that is inserted gets a pointer of type `P`: an index of a slot, and the generation
/// of the arena's counter. Each removal steps the counter. If generations are counted, a pointer
/// finds its own value or nothing, until the generations wrap, or a call sets, resets or copies the
/// counter.
#[derive(Drop)]
pub struct Arena<P: PtrCore, T: Drop, S: ArenaSlots<P, T>> {
    slots: S,
    counter: P::Gen,
    // The first free index.
    head: FreeInx<P>,
    // How many slots are live.
    len: usize,
    values: PhantomData<T>,
}

impl<P: PtrCore, T: Drop, S: ArenaSlots<P, T>> Model for Arena<P, T, S> {
    ghost use Rattle.triple_arena.specs.ArenaRoom.{room_of};
    ghost use Rattle.triple_arena.specs.Content.{Content, content_code};
    ghost use Rattle.triple_arena.specs.Layout.{content_of, IsSound};

    ghost Value = { Content T };

    ghost coded = { content_code T.code };

    ghost view = { λ a. content_of (S.items a.slots) (room_of P.Inx.greatest (S.room a.slots))
        (P.Gen.number a.counter) a.head };

    ghost invariant = { λ a. IsSound (S.items a.slots) a.len a.head
        (room_of P.Inx.greatest (S.room a.slots)) };
}

/// An arena in a vector, which grows without a limit of its own.
pub type HeapArena<P, T, A> = Arena<P, T, NonZeroInxVec<ArenaSlot<P, T>, A>>;

/// An arena in a vector, which grows up to a limit that can be set.
pub type LimitedArena<P, T, A> = Arena<P, T, NonZeroInxLimitedVec<ArenaSlot<P, T>, A>>;

/// An arena in a boxed slice, which keeps the capacity that it is made with.
pub type BoxedArena<P, T, A> = Arena<P, T, NonZeroInxBoxedSlice<ArenaSlot<P, T>, A>>;

/// An arena in an array, which takes no memory.
pub type ArrayArena<P, T, const LIMIT: usize> = Arena<
    P,
    T,
    NonZeroInxArray<ArenaSlot<P, T>, LIMIT>,
>;

// The greatest index that is a number.
pub(crate) fn max_index<P: PtrCore>() -> usize
    ensures { result ≡ max_index_of P.Inx.greatest }
{
    match P::Inx::max_index().try_into_usize() {
        Some(max) => max.get(),
        None => unreached!(),
    }
}

// The pointer with this index and generation.
pub(crate) fn pointer_at<P: PtrCore>(index: NonZeroUsize, generation: P::Gen) -> P
    requires fits { at index ≤ P.Inx.greatest }
    requires no_more { ⊤ }
    ensures has_index { P.index result ≡ at index }
    ensures has_generation { P.generation result ≡ P.Gen.number generation }
{
    match P::Inx::try_from_usize(index) {
        Some(inx) => P::_from_raw(inx, generation),
        None => unreached!(),
    }
}

impl<P: PtrCore, T: Drop, S: ArenaSlots<P, T>> Arena<P, T, S> {
    // An arena over an empty stack.
    pub(crate) fn over(slots: S) -> Self
        requires { S.items slots ≡ [] }
        ensures value { result ≡ empty (second_generation P.Gen.last)
            (room_of P.Inx.greatest (S.room slots)) }
        ensures formed { IsWellFormed result }
    {
        Arena {
            slots,
            counter: P::Gen::two(),
            head: OptionalInx::none(),
            len: 0,
            values: PhantomData,
        }
    }

    // How many entries are live.
    pub(crate) fn live(&self) -> usize
        ensures value { result ≡ live_count self.now }
        ensures formed { IsWellFormed self.now }
    {
        self.len
    }

    // Tells the proof that the arena is well-formed, as each one is. It does nothing.
    #[inline(always)]
    pub(crate) fn recall_formed(&self)
        ensures { IsWellFormed self.now }
    {
        recall!(self.live());
    }

    // The number of slots.
    pub(crate) fn slot_count(&self) -> usize
        ensures { result ≡ length self.now.slots }
    {
        self.slots.len()
    }

    /// The stack that the slots are kept in. `free_links` of a slot returns the neighbors of its
    /// index on the list of the free indexes, which stand in the order in which insertions take
    /// them.
    pub fn backing(&self) -> &S
        ensures entries { map entry_of (S.items result.now) ≡ self.now.slots }
        ensures links { (i : ℕ) (slot : Slot T) → 0 < i → item_at (S.items result.now) i ≡ Some slot
            → free_links P.Inx.greatest slot ≡ neighbors self.now.free i }
        ensures room { room_of P.Inx.greatest (S.room result.now) ≡ self.now.room }
    {
        // The slots are within the capacity, and so are their indexes.
        recall!(self.own_capacity());
        &self.slots
    }
}
