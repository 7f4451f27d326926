//! The arena whose pointers the caller gives.
ghost use Rattle.std.specs.Prelude.{◌≡◌, []};
ghost use Rattle.triple_arena.specs.ArenaRoom.{room_of};
ghost use Rattle.triple_arena.specs.DirectContent.{live_count, empty, IsWellFormed};

mod calls;
mod copy;
mod entry;
mod exchange;
mod indexing;
mod insertion;
mod iterators;
mod lending;
mod max_capacity;
mod reading;
mod recast;
mod removal;
mod room;
mod text;
mod transfer;

use crate::{DirectSlot, DirectSlots};
pub use entry::ArenaDirectInsertEntry;
use proof_marks::recall;
use std::marker::{Model, PhantomData};
use triple_arena_ptr::PtrCore;
use triple_arena_stack::{
    NonZeroInxArray, NonZeroInxBoxedSlice, NonZeroInxLimitedVec, NonZeroInxVec,
};

/// An arena without a counter and without a list of free indexes, which keeps its slots in the
/// stack `S`. The caller gives each entry its whole pointer.
///
/// It serves as a mirror of another arena, or as a map from its pointers.
#[derive(Drop)]
pub struct DirectArena<P: PtrCore, T: Drop, S: DirectSlots<P, T>> {
    slots: S,
    // How many slots are live.
    len: usize,
    values: PhantomData<(P, T)>,
}

impl<P: PtrCore, T: Drop, S: DirectSlots<P, T>> Model for DirectArena<P, T, S> {
    ghost use Rattle.triple_arena.specs.ArenaRoom.{room_of};
    ghost use Rattle.triple_arena.specs.DirectContent.{DirectContent, direct_code};
    ghost use Rattle.triple_arena.specs.DirectLayout.{direct_of, IsSound};

    ghost Value = { DirectContent T };

    ghost coded = { direct_code T.code };

    ghost view = { λ a. direct_of (S.items a.slots) (room_of P.Inx.greatest (S.room a.slots)) };

    ghost invariant = { λ a. IsSound (S.items a.slots) a.len
        (room_of P.Inx.greatest (S.room a.slots)) };
}

/// A direct arena in a vector, which grows without a limit of its own.
pub type HeapDirectArena<P, T, A> = DirectArena<P, T, NonZeroInxVec<DirectSlot<P, T>, A>>;

/// A direct arena in a vector, which grows up to a limit that can be set.
pub type LimitedDirectArena<P, T, A> = DirectArena<P, T, NonZeroInxLimitedVec<DirectSlot<P, T>, A>>;

/// A direct arena in a boxed slice, which keeps the capacity that it is made with.
pub type BoxedDirectArena<P, T, A> = DirectArena<P, T, NonZeroInxBoxedSlice<DirectSlot<P, T>, A>>;

/// A direct arena in an array, which takes no memory.
pub type ArrayDirectArena<P, T, const LIMIT: usize> = DirectArena<
    P,
    T,
    NonZeroInxArray<DirectSlot<P, T>, LIMIT>,
>;

impl<P: PtrCore, T: Drop, S: DirectSlots<P, T>> DirectArena<P, T, S> {
    // An arena over an empty stack.
    pub(crate) fn over(slots: S) -> Self
        requires { S.items slots ≡ [] }
        ensures value { result ≡ empty (room_of P.Inx.greatest (S.room slots)) }
        ensures formed { IsWellFormed result }
    {
        DirectArena {
            slots,
            len: 0,
            values: PhantomData,
        }
    }

    // How many entries are live.
    pub(crate) fn live(&self) -> usize
        ensures value { result ≡ live_count self.now }
        ensures formed { IsWellFormed self.now }
    {
        self.len
    }

    // Tells the proof that the arena is well-formed, as each one is. It does nothing.
    #[inline(always)]
    pub(crate) fn recall_formed(&self)
        ensures { IsWellFormed self.now }
    {
        recall!(self.live());
    }

    /// The stack that the slots are kept in.
    pub fn backing(&self) -> &S
        ensures slots { S.items result.now ≡ self.now.slots }
        ensures room { room_of P.Inx.greatest (S.room result.now) ≡ self.now.room }
    {
        &self.slots
    }
}
