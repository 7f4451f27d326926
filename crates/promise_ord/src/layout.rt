//! The canonical layout: the indexes go by the list, and the tree is the halving tree.
ghost use Rattle.std.specs.Prelude.{◌≡◌};
ghost use Rattle.triple_arena_ptr.specs.InvalidationOption.{overflowed};
ghost use Rattle.triple_arena.specs.Compression.{renewal_wraps};
ghost use Rattle.triple_arena_ord.specs.Ordered.{IsOrdered};
ghost use Rattle.triple_arena_ord.specs.CanonicalLayout.{IsLaidInOrder};

use triple_arena::{InvalidationOption, PtrCore};
use triple_arena_ord::{OrdSlots, SimpleOrdArena};

/// Moves the entries to the indexes from 1 on, in the order of the list, and writes the tree anew.
pub fn compress_canonical<P: PtrCore, T: Drop, S: OrdSlots<P, T>>(
    arena: &mut SimpleOrdArena<P, T, S>,
    reset: bool,
) -> InvalidationOption<()>
    ensures overflow { overflowed result ≡ renewal_wraps P.Gen.last reset arena.old.chains.counter }
    ensures laid { IsLaidInOrder P.Gen.last reset arena.old arena.new }
    ensures ordered { IsOrdered arena.new }
{
    let answer = arena.compress_canonical(reset);
    answer
}
