//! Removal, and the end of a pointer.
ghost use Rattle.std.specs.Prelude.{◌≡◌, Some, IsSome};
ghost use Rattle.std.specs.Int.NonZero.{non_zero_usize_get as at};
ghost use Rattle.triple_arena.specs.Changes.{IsRemoved};
ghost use Rattle.triple_arena.specs.DirectContent.{entry_at, live_count, no_counter};
ghost use Rattle.triple_arena.specs.DirectContent.{with_generation, removed, cleared};
ghost use Rattle.triple_arena.specs.DirectContent.{IsWellFormed};

use crate::arena::pointer_at;
use crate::direct::DirectArena;
use crate::{DirectSlot, DirectSlots};
use std::mem;
use std::num::NonZeroUsize;
use triple_arena_ptr::PtrCore;

impl<P: PtrCore, T: Drop, S: DirectSlots<P, T>> DirectArena<P, T, S> {
    // Removes the entry at `i`, which is live.
    pub(crate) fn remove_at(&mut self, i: NonZeroUsize) -> (P::Gen, T)
        requires { IsSome (entry_at self.old (at i)) }
        ensures value { self.new ≡ removed self.old (at i) }
        ensures entry { Some (P.Gen.number result.0, result.1) ≡ entry_at self.old (at i) }
        ensures removed { IsRemoved entry_at live_count no_counter (λ d. d.room) P.Gen.last
            (at i) self.old self.new }
        ensures formed { IsWellFormed self.new }
    {
        let entry = self.take_at(i);
        // The arena is well-formed after.
        self.recall_formed();
        entry
    }

    // Takes the entry at `i`, which is live, and leaves a free slot.
    fn take_at(&mut self, i: NonZeroUsize) -> (P::Gen, T)
        requires { IsSome (entry_at self.old (at i)) }
        ensures value { self.new ≡ removed self.old (at i) }
        ensures entry { Some (P.Gen.number result.0, result.1) ≡ entry_at self.old (at i) }
    {
        let slot = mem::replace(self.slots.item_mut(i), DirectSlot::free());
        self.len -= 1;
        slot.into_entry()
    }

    // Gives the entry at `i`, which is live, this generation.
    pub(crate) fn renew_at(&mut self, i: NonZeroUsize, generation: P::Gen) -> P
        requires { IsSome (entry_at self.old (at i)) }
        ensures value { self.new ≡ with_generation self.old (at i) (P.Gen.number generation) }
        ensures has_index { P.index result ≡ at i }
        ensures has_generation { P.generation result ≡ P.Gen.number generation }
    {
        self.slots.item_mut(i).set_generation(generation);
        pointer_at(i, generation)
    }

    // Drops every entry and every slot.
    pub(crate) fn empty(&mut self)
        ensures value { self.new ≡ cleared self.old }
    {
        self.slots.clear();
        self.len = 0;
    }
}
