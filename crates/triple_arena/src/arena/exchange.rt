//! Two values that change places.
ghost use Rattle.std.specs.Prelude.{◌≡◌, ◌≢◌, IsSome};
ghost use Rattle.std.specs.Int.NonZero.{non_zero_usize_get as at};
ghost use Rattle.triple_arena.specs.Changes.{IsExchanged};
ghost use Rattle.triple_arena.specs.Content.{entry_at, some_counter, live_count, with_exchange};
ghost use Rattle.triple_arena.specs.Content.{IsWellFormed};

use crate::arena::Arena;
use crate::slot::exchange_values;
use crate::two_values::lend_in_either_order;
use crate::{ArenaSlots, DisjointableArenaTrait};
use proof_marks::unreached;
use std::num::NonZeroUsize;
use triple_arena_ptr::PtrCore;

impl<P: PtrCore, T: Drop, S: ArenaSlots<P, T>> DisjointableArenaTrait<P, T> for Arena<P, T, S> {
    ghost exchanged = { with_exchange };

    fn swap_inx(&mut self, i: P::Inx, j: P::Inx) {
        // The arena is well-formed before.
        self.recall_formed();
        match (self.live_inx(i), self.live_inx(j)) {
            (Some(i), Some(j)) => {
                if i != j {
                    self.exchange_at(i, j);
                }
            }
            _ => unreached!(),
        }
    }

    fn lend_two(these: &mut [Self], i: P::Inx, j: P::Inx) -> (&mut T, &mut T) {
        let first = these[0].slots_before(i);
        let second = these[0].slots_before(j);
        lend_in_either_order(these, first, second)
    }
}

impl<P: PtrCore, T: Drop, S: ArenaSlots<P, T>> Arena<P, T, S> {
    // Exchanges the values at `i` and `j`, which are two and both live.
    pub(crate) fn exchange_at(&mut self, i: NonZeroUsize, j: NonZeroUsize)
        requires i_is_live { IsSome (entry_at self.old (at i)) }
        requires j_is_live { IsSome (entry_at self.old (at j)) }
        requires two { at i ≢ at j }
        ensures value { self.new ≡ with_exchange self.old (at i) (at j) }
        ensures exchanged { IsExchanged entry_at live_count some_counter (λ c. c.room)
            (at i) (at j) self.old self.new }
        ensures formed { IsWellFormed self.new }
    {
        exchange_values(&mut self.slots, i, j);
        // The arena is well-formed after.
        self.recall_formed();
    }
}
