//! A caller at a known arena, whose code names `triple_arena` alone.
ghost use Rattle.std.specs.Prelude.{◌≡◌, ◌+◌, ◌<◌, OnOk, IfOk, IsOk, Some};
ghost use Rattle.triple_arena.specs.Content.{entry_at, live_count, arena_capacity, inserted};
ghost use Rattle.triple_arena.specs.Content.{grown_if_full};

use std::alloc::Global;
use triple_arena::{ArenaInsertTrait, ArenaTrait, HeapArena, P0, PtrCore, ReallocationError};

pub fn make(alloc: Global) -> HeapArena<P0, u64, Global>
    ensures { live_count result ≡ 0 }
{
    HeapArena::<P0, u64, Global>::new(alloc)
}

pub fn store(arena: &mut HeapArena<P0, u64, Global>, t: u64) -> Result<P0, ReallocationError>
    ensures count { OnOk result (live_count arena.new ≡ live_count arena.old + 1) }
    ensures exact { OnOk result (arena.new ≡ inserted (grown_if_full arena.old) t) }
    ensures stored { IfOk result (λ p. entry_at arena.new (⟦<P0 as PtrCore>⟧.index p)
        ≡ Some (arena.old.counter, t)) }
    ensures succeeds { live_count arena.old < arena_capacity arena.old → IsOk result }
{
    arena.insert(t)
}
