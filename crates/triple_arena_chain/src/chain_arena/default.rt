//! A chain arena in an array without more ado.
ghost use Rattle.std.specs.Prelude.{◌≡◌, Some};
ghost use Rattle.triple_arena_ptr.specs.Generation.{second_generation};
ghost use Rattle.triple_arena.specs.ArenaRoom.{room_of};
ghost use Rattle.triple_arena.specs.Content.{empty};

use crate::{ChainArena, LinkNoGen};
use triple_arena::{ArenaSlot, ArenaTrait, NonZeroInxArray, PtrCore};

impl<P: PtrCore, T: Drop, const LIMIT: usize> Default
    for ChainArena<P, T, NonZeroInxArray<ArenaSlot<P, LinkNoGen<P, T>>, LIMIT>> {
    ghost is_default = { λ c. c ≡ empty (second_generation P.Gen.last)
        (room_of P.Inx.greatest (record { reserved = LIMIT; limit = Some LIMIT })) };

    /// An arena without a link, in an array.
    fn default() -> Self {
        ChainArena::new(())
    }
}
