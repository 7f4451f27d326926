//! What a caller learns of insertions by an entry.
ghost use Rattle.std.specs.Prelude.{◌≡◌, ◌<◌, false, IfSome, IfNone, IsTrue};
ghost use Rattle.triple_arena_stack.specs.Room.{grown};
ghost use Rattle.triple_arena.specs.Content.{live_count, arena_capacity, next_index, inserted};
ghost use Rattle.triple_arena.specs.Content.{in_room};

use triple_arena::{Arena, ArenaInsertEntries, ArenaInsertEntryTrait, ArenaSlots, PtrCore};

/// Stores `t` by an entry, and answers the pointer that the entry told before.
pub fn insert_by_entry<P: PtrCore, S: ArenaSlots<P, u64>>(
    arena: &mut Arena<P, u64, S>,
    t: u64,
) -> Option<P>
    ensures stored { live_count arena.old < arena_capacity arena.old
        → IfSome result (λ p. arena.new ≡ inserted arena.old t) }
    ensures stored_in_more { live_count arena.old ≡ arena_capacity arena.old
        → IfSome result (λ p. arena.new ≡ inserted (in_room arena.old (grown arena.old.room)) t) }
    ensures index { IfSome result (λ p. P.index p ≡ next_index arena.old) }
    ensures generation { IfSome result (λ p. P.generation p ≡ arena.old.counter) }
    ensures refused { IfNone result (arena.new ≡ arena.old) }
{
    match arena.entry_insert() {
        Ok(entry) => {
            let told = entry.ptr();
            entry.insert(t);
            Some(told)
        }
        Err(_) => None,
    }
}

/// Makes an entry that it does not use, and says whether there was one.
pub fn only_asks<P: PtrCore, S: ArenaSlots<P, u64>>(arena: &mut Arena<P, u64, S>) -> bool
    ensures kept { live_count arena.old < arena_capacity arena.old → arena.new ≡ arena.old }
    ensures grown { live_count arena.old ≡ arena_capacity arena.old
        → IsTrue result → arena.new ≡ in_room arena.old (grown arena.old.room) }
    ensures refused { result ≡ false → arena.new ≡ arena.old }
{
    match arena.entry_insert_reallocating() {
        Ok(_) => true,
        Err(_) => false,
    }
}
