//! Insertion at a pointer of the caller's choice.
ghost use Rattle.std.specs.Prelude.{◌≡◌, ◌<◌, ◌≤◌, ◌↔◌, IsOk, IfOk, IsErrOf, IsSome, ⊤};
ghost use Rattle.std.specs.Int.NonZero.{non_zero_usize_get as at};
ghost use Rattle.triple_arena.specs.Changes.{IsDirectlyInserted};
ghost use Rattle.triple_arena.specs.DirectContent.{entry_at, live_count, no_counter};
ghost use Rattle.triple_arena.specs.DirectContent.{arena_capacity, reaching, inserted, IsPlace};
ghost use Rattle.triple_arena.specs.DirectContent.{IsWellFormed};
ghost use Rattle.triple_arena_stack.specs.Room.{capacity};

use crate::direct::DirectArena;
use crate::{DirectSlot, DirectSlots};
use proof_marks::{recall, unreached};
use std::num::NonZeroUsize;
use triple_arena_ptr::{DirectInsertionError, PtrCore, PtrInxCore};

// Appends free slots, so that there are `n` at least.
fn reach<P: PtrCore, T: Drop, S: DirectSlots<P, T>>(slots: &mut S, n: usize)
    requires { n ≤ capacity (S.room slots.old) }
    ensures slots { S.items slots.new ≡ reaching n (S.items slots.old) }
    ensures room { S.room slots.new ≡ S.room slots.old }
{
    while slots.len() < n {
        match slots.push_within_capacity(DirectSlot::free()) {
            Ok(_) => {}
            Err(_) => unreached!(),
        }
    }
}

impl<P: PtrCore, T: Drop, S: DirectSlots<P, T>> DirectArena<P, T, S> {
    // The index of `p`, where an entry may be stored there.
    pub(crate) fn place(&self, p: P) -> Result<NonZeroUsize, DirectInsertionError>
        ensures index { IfOk result (λ i. at i ≡ P.index p) }
        ensures place { IfOk result (λ i. IsPlace self.now (at i)) }
        ensures variant { IsOk result ↔ IsPlace self.now (P.index p) }
        ensures not_within { IsErrOf result DirectInsertionError.NotWithinCapacity
            ↔ (arena_capacity self.now < P.index p) }
        ensures existing { IsErrOf result DirectInsertionError.ExistingElementAtIndex
            ↔ IsSome (entry_at self.now (P.index p)) }
    {
        let capacity = self.own_capacity();
        match p.inx().try_into_usize() {
            Some(i) if i.get() <= capacity => {
                if self.is_live(i) {
                    Err(DirectInsertionError::ExistingElementAtIndex)
                } else {
                    Ok(i)
                }
            }
            _ => Err(DirectInsertionError::NotWithinCapacity),
        }
    }

    // Stores `t` with this generation at `i`, which is a place for it.
    fn put_at(&mut self, i: NonZeroUsize, generation: P::Gen, t: T)
        requires { IsPlace self.old (at i) }
        ensures value { self.new ≡ inserted self.old (at i) (P.Gen.number generation) t }
    {
        // The capacity is a `usize`, so one live entry more can be counted.
        recall!(self.own_capacity());
        reach(&mut self.slots, i.get());
        *self.slots.item_mut(i) = DirectSlot::used(generation, t);
        self.len += 1;
    }

    // Stores `t` as `put_at` does, and says what is at each index then.
    pub(crate) fn insert_at(&mut self, i: NonZeroUsize, generation: P::Gen, t: T)
        requires place { IsPlace self.old (at i) }
        requires no_more { ⊤ }
        ensures value { self.new ≡ inserted self.old (at i) (P.Gen.number generation) t }
        ensures inserted { IsDirectlyInserted entry_at live_count no_counter (λ d. d.room)
            (at i) (P.Gen.number generation) t self.old self.new }
        ensures formed { IsWellFormed self.new }
    {
        // The arena is well-formed before.
        self.recall_formed();
        self.put_at(i, generation, t);
        // And after.
        self.recall_formed();
    }
}
