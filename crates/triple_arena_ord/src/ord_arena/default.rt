//! An ordered arena in an array without more ado.
ghost use Rattle.std.specs.Prelude.{◌≡◌, Some};
ghost use Rattle.triple_arena_ptr.specs.Generation.{second_generation};
ghost use Rattle.triple_arena.specs.ArenaRoom.{room_of};
ghost use Rattle.triple_arena.specs.Content.{empty};
ghost use Rattle.triple_arena_ord.specs.Ordered.{IsOrdered};

use crate::{SimpleOrdArena, SimpleOrdArenaNode};
use triple_arena::{ArenaSlot, ArenaTrait, NonZeroInxArray, PtrCore};
use triple_arena_chain::LinkNoGen;

impl<P: PtrCore, T: Drop, const LIMIT: usize> Default
    for SimpleOrdArena<
        P,
        T,
        NonZeroInxArray<ArenaSlot<P, LinkNoGen<P, SimpleOrdArenaNode<P, T>>>, LIMIT>,
    > {
    ghost is_default = { λ o. (o.chains ≡ empty (second_generation P.Gen.last)
        (room_of P.Inx.greatest (record { reserved = LIMIT; limit = Some LIMIT })))
        × IsOrdered o };

    /// An arena without an entry, in an array.
    fn default() -> Self {
        SimpleOrdArena::new(())
    }
}
