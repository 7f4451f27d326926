//! Documents whose nodes name one another by pointers, which are compressed and keep their names.
ghost use Rattle.std.specs.Prelude.{◌≡◌, ◌≤◌, ◌↔◌, ℕ, false, Option, IsOk, OnOk, OnErr};
ghost use Rattle.std.specs.Prelude.{IsTrue};
ghost use Rattle.triple_arena_ptr.specs.Errors.{IsBeyondMaxCapacity, IsAllocError};
ghost use Rattle.triple_arena_stack.specs.Room.{capacity, IsBeyond};
ghost use Rattle.triple_arena.specs.ArenaRoom.{room_of};
ghost use Rattle.triple_arena.specs.Compression.{renewed};
ghost use Rattle.triple_arena.specs.Content.{last_index, IsWellFormed};
ghost use Rattle.triple_arena.specs.Recasting.{content_items};
ghost use Rattle.example_chain.specs.Documents.{AllNamed, IsRenamedDocument};

use triple_arena::{
    Arena, ArenaSlots, DirectSlots, PtrCore, ReallocationError, Recast, compress_recaster,
};

/// Moves the nodes to the first indexes, in their order, and has each name follow the node that it
/// names.
///
/// The memory for the new names is taken from `alloc` before, for as many slots as the last live
/// index says: it returns `BeyondMaxCapacity` if there can't be so many, and `AllocError` if the
/// memory was refused. An error leaves the document as it was.
pub fn tidy<P, T, S, R>(
    nodes: &mut Arena<P, T, S>,
    alloc: R::Alloc,
) -> Result<(), ReallocationError>
where
    P: PtrCore,
    T: Recast<P> + Drop,
    S: ArenaSlots<P, T>,
    R: DirectSlots<P, P>,
    requires { AllNamed P.index P.generation T.items nodes.old (content_items T.items nodes.old) }
    ensures renamed { OnOk result ((new_name : ℕ → ℕ → Option P)
        × IsRenamedDocument P.index P.generation T.items
        (renewed P.Gen.last false nodes.old.counter) new_name
        (T.recasted (λ p. new_name (P.index p) (P.generation p))) nodes.old nodes.new) }
    ensures formed { OnOk result (IsWellFormed nodes.new) }

    // No memory is asked for if new names have the room already.
    ensures succeeds { last_index nodes.old ≤ capacity (room_of P.Inx.greatest (R.room_at 0))
        → IsOk result }
    ensures beyond { IsBeyondMaxCapacity result
        ↔ IsBeyond (room_of P.Inx.greatest (R.room_at (last_index nodes.old))).limit
        (last_index nodes.old) }
    ensures memory { IsAllocError result → IsTrue R.takes_memory }
    ensures err { OnErr result (nodes.new ≡ nodes.old) }
{
    let map = compress_recaster::<P, T, S, R>(nodes, false, alloc)?;
    match nodes.recast(&map) {
        Ok(()) => Ok(()),
        Err(_) => unreachable!(),
    }
}
