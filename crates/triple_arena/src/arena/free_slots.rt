//! The free slots: the list of them, its order, and those at the end.
ghost use Rattle.std.specs.Prelude.{◌≡◌, ◌≤◌, ℕ, Some, IsSome, IsTrue, IsFalse, length};
ghost use Rattle.std.specs.Prelude.{map as list_map, slice_get, ⊤};
ghost use Rattle.std.specs.Int.NonZero.{non_zero_usize_get};
ghost use Rattle.std.specs.Option.{option_map};
ghost use Rattle.linked_lists.specs.LinkedLists.{with_prev_if, with_next_if};
ghost use Rattle.triple_arena.specs.Slot.{entry_of};
ghost use Rattle.triple_arena.specs.Layout.{links_at, head_after, without_last, IsFreeList};
ghost use Rattle.triple_arena.specs.Content.{without_free_end, vacant_from, canonicalized};
ghost use Rattle.triple_arena.specs.Content.{last_index, IsVacant, IsWellFormed};

use crate::ArenaSlots;
use crate::arena::Arena;
use crate::free_inx::{FreeInx, free_at, place_of};
use proof_marks::recall;
use std::num::NonZeroUsize;
use triple_arena_ptr::{OptionalInx, PtrCore};

impl<P: PtrCore, T: Drop, S: ArenaSlots<P, T>> Arena<P, T, S> {
    /// The first of the free indexes, which the next insertion takes, or `None` if no slot is free.
    pub fn freelist_root(&self) -> Option<P::Inx>
        ensures { option_map P.Inx.number result ≡ slice_get self.now.free 0 }
    {
        self.head.get()
    }

    /// Pops the free slots at the end, until the last slot is live or none is left. The other free
    /// indexes keep their order.
    pub fn remove_free_end_slots(&mut self)
        ensures value { self.new ≡ without_free_end self.old }
        ensures formed { IsWellFormed self.new }
    {
        while self.pop_free_slot() {}
        // The arena is well-formed after.
        self.recall_formed();
    }

    // Takes out the last slot, if it is free, by its own links, and says whether it is.
    fn pop_free_slot(&mut self) -> bool
        ensures popped { IsTrue result → self.new ≡ without_last self.old }
        ensures free { IsTrue result → IsVacant self.old (length self.old.slots) }
        ensures kept { IsFalse result → self.new ≡ self.old }
        ensures live { IsFalse result → last_index self.old ≡ length self.old.slots }
        ensures formed { IsWellFormed self.old }
    {
        // The arena is well-formed before.
        self.recall_formed();
        let Some(last) = NonZeroUsize::new(self.slots.len()) else {
            return false;
        };
        let Some(links) = links_in::<P, T, S>(&self.slots, last) else {
            return false;
        };
        set_next_at::<P, T, S>(&mut self.slots, links.0, links.1);
        set_prev_at::<P, T, S>(&mut self.slots, links.1, links.0);
        self.head = head_without::<P>(self.head, links.0, links.1);
        drop(self.slots.pop());
        true
    }

    /// Orders the free indexes, so that insertions take the smallest one first.
    pub fn canonicalize_freelist(&mut self)
        ensures value { self.new ≡ canonicalized self.old }
        ensures formed { IsWellFormed self.new }
    {
        // Each slot has an index of the pointer type.
        recall!(self.own_capacity());
        self.head = link_rising::<P, T, S>(&mut self.slots);
        // The arena is well-formed after.
        self.recall_formed();
    }
}

// Links the free slots by rising index, and returns the first one.
pub(crate) fn link_rising<P: PtrCore, T: Drop, S: ArenaSlots<P, T>>(slots: &mut S) -> FreeInx<P>
    requires fits { length (S.items slots.old) ≤ P.Inx.greatest }
    requires no_more { ⊤ }
    ensures entries { list_map entry_of (S.items slots.new)
        ≡ list_map entry_of (S.items slots.old) }
    ensures listed { IsFreeList (S.items slots.new) result
        (vacant_from 1 (list_map entry_of (S.items slots.old))) }
    ensures room { S.room slots.new ≡ S.room slots.old }
{
    let mut head: FreeInx<P> = OptionalInx::none();
    let mut left = slots.len();
    while let Some(i) = NonZeroUsize::new(left) {
        if slots.item_mut(i).relink(head) {
            let first = free_at::<P>(i);
            set_prev_at::<P, T, S>(slots, head, first);
            head = first;
        }
        left -= 1;
    }
    head
}

// The links of the slot at `i`, if it is free.
fn links_in<P: PtrCore, T: Drop, S: ArenaSlots<P, T>>(
    slots: &S,
    i: NonZeroUsize,
) -> Option<(FreeInx<P>, FreeInx<P>)>
    ensures { result ≡ links_at (S.items slots.now) (non_zero_usize_get i) }
{
    match slots.get(i) {
        Some(slot) => slot.links(),
        None => None,
    }
}

// Gives the slot at this index, if there is one, another link to the one before. The slot must
// be free.
pub(crate) fn set_prev_at<P: PtrCore, T: Drop, S: ArenaSlots<P, T>>(
    slots: &mut S,
    at: FreeInx<P>,
    prev: FreeInx<P>,
)
    requires free { (i : ℕ) → at ≡ Some i → IsSome (links_at (S.items slots.old) i) }
    requires no_more { ⊤ }
    ensures links { (i : ℕ) → links_at (S.items slots.new) i
        ≡ with_prev_if (links_at (S.items slots.old)) at prev i }
    ensures entries { list_map entry_of (S.items slots.new)
        ≡ list_map entry_of (S.items slots.old) }
    ensures room { S.room slots.new ≡ S.room slots.old }
{
    // The number of slots is a `usize`, so the index of each is one.
    recall!(slots.len());
    if let Some(i) = place_of::<P>(at) {
        slots.item_mut(i).set_prev(prev);
    }
}

// Gives the slot at this index, if there is one, another link to the one after. The slot must be
// free.
fn set_next_at<P: PtrCore, T: Drop, S: ArenaSlots<P, T>>(
    slots: &mut S,
    at: FreeInx<P>,
    next: FreeInx<P>,
)
    requires free { (i : ℕ) → at ≡ Some i → IsSome (links_at (S.items slots.old) i) }
    requires no_more { ⊤ }
    ensures links { (i : ℕ) → links_at (S.items slots.new) i
        ≡ with_next_if (links_at (S.items slots.old)) at next i }
    ensures entries { list_map entry_of (S.items slots.new)
        ≡ list_map entry_of (S.items slots.old) }
    ensures room { S.room slots.new ≡ S.room slots.old }
{
    // The number of slots is a `usize`, so the index of each is one.
    recall!(slots.len());
    if let Some(i) = place_of::<P>(at) {
        slots.item_mut(i).set_next(next);
    }
}

// The first free index after a slot with these links has left the list.
fn head_without<P: PtrCore>(head: FreeInx<P>, prev: FreeInx<P>, next: FreeInx<P>) -> FreeInx<P>
    ensures { result ≡ head_after head prev next }
{
    match prev.get() {
        Some(_) => head,
        None => next,
    }
}
