//! The stack of a chain arena's slots.
ghost use Rattle.std.specs.Prelude.{◌≡◌, ◌<◌, ℕ, Some, map};
ghost use Rattle.triple_arena.specs.ArenaRoom.{room_of};
ghost use Rattle.triple_arena.specs.FreeLinks.{neighbors};
ghost use Rattle.triple_arena.specs.Slot.{Slot, entry_of, free_links};
ghost use Rattle.triple_arena_chain.specs.LinkShape.{IndexLink};
ghost use Rattle.triple_arena_stack.specs.Stack.{item_at};

use crate::{ChainArena, ChainSlots};
use triple_arena::PtrCore;

impl<P: PtrCore, T: Drop, S: ChainSlots<P, T>> ChainArena<P, T, S> {
    /// The stack that the slots are kept in. `free_links` of a slot returns the neighbors of its
    /// index on the list of the free indexes, which stand in the order in which insertions take
    /// them.
    pub fn backing(&self) -> &S
        ensures entries { map entry_of (S.items result.now) ≡ self.now.slots }
        ensures links { (i : ℕ) (slot : Slot (IndexLink T)) → 0 < i
            → item_at (S.items result.now) i ≡ Some slot
            → free_links P.Inx.greatest slot ≡ neighbors self.now.free i }
        ensures room { room_of P.Inx.greatest (S.room result.now) ≡ self.now.room }
    {
        self.arena.backing()
    }
}
