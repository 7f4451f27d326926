//! A mirror of an arena: a direct arena with the same pointers, in which each finds itself.
ghost use Rattle.std.specs.Prelude.{◌≡◌, ◌≤◌, ℕ};
ghost use Rattle.triple_arena.specs.Content.{entry_at, live_count};
ghost use Rattle.triple_arena.specs.Copy.{last_listed, directly_copied};
ghost use Rattle.triple_arena.specs.DirectContent.{arena_capacity, entry_at as mirrored_at};
ghost use Rattle.triple_arena.specs.DirectContent.{live_count as mirrored_count};
ghost use Rattle.triple_arena.specs.DirectContent.{live_entries as mirrored_entries};
ghost use Rattle.triple_arena.specs.Entries.{generation_at};
ghost use Rattle.triple_arena.specs.LiveEntries.{live_entries};
ghost use Rattle.triple_arena.specs.Recaster.{IsRecaster};

use triple_arena::{Arena, ArenaCloneFromWith, ArenaSlots, DirectArena, DirectSlots, PtrCore};

/// Makes `mirror`, which has room for the last live index of `arena`, hold exactly its pointers,
/// each under itself. What it held is dropped, and its capacity stays. It cannot fail.
pub fn reflect<P: PtrCore, T: Drop, S, R>(arena: &Arena<P, T, S>, mirror: &mut DirectArena<P, P, R>)
where
    S: ArenaSlots<P, T>,
    R: DirectSlots<P, P>,
    requires { last_listed (live_entries arena.now) ≤ arena_capacity mirror.old }
    ensures pointers { (j : ℕ) → generation_at (mirrored_at mirror.new) j
        ≡ generation_at (entry_at arena.now) j }
    ensures live { mirrored_count mirror.new ≡ live_count arena.now }
    ensures itself { IsRecaster P.index P.generation (live_entries arena.now)
        (live_entries arena.now) (mirrored_entries mirror.new) }
    ensures exact { mirror.new ≡ directly_copied mirror.old (mirrored_entries mirror.new) }
{
    match mirror.clone_from_with(arena, |p, _| Ok(p)) {
        Ok(()) => {}
        Err(_) => unreachable!(),
    }
}
