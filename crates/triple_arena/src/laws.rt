//! What follows from the calls of an arena: laws on the pointers that a caller keeps, and on walks
//! over the entries.
//!
//! `specs/Steps.antt` has the words of the laws on pointers: a history is a list of steps, each
//! with the arena that it left, and what a step changes is what the calls' contracts say. If
//! generations are counted (`P::Gen` is no `()`), and as long as no step wraps the counter and
//! nobody sets, resets or copies it, a pointer never comes to mean another entry.
//!
//! `specs/Walk.antt` has the words of the laws on walks.
ghost use Rattle.std.specs.Prelude.{◌≡◌, ◌↔◌, ℕ, List, length, map as list_map, Option, Some};
ghost use Rattle.std.specs.List.{FoldsTo};
ghost use Rattle.triple_arena.specs.Entries.{generation_at, pointer_by, IsOneOf};
ghost use Rattle.triple_arena.specs.Steps.{drain, write, give_up_copy, keep, AreNew, Finds};
ghost use Rattle.triple_arena.specs.Steps.{Takes, IsStep, Happens, History, IsReached, all_given};
ghost use Rattle.triple_arena.specs.Steps.{reached};
ghost use Rattle.triple_arena.specs.Walk.{Walk, IsAhead, GoesOverAll, GoInOrder, given_by};
ghost use Rattle.triple_arena.specs.Walk.{pointers_ahead};
ghost use Rattle.triple_arena.specs.Compression.{pointer_of};
ghost use Rattle.triple_arena.specs.Content.{Content, without_free_end, canonicalized};
ghost use Rattle.triple_arena.specs.Content.{with_limit};
ghost use Rattle.triple_arena.specs.Content.{grown_if_full, cleared, reallocated};
ghost use Rattle.triple_arena.specs.Recasting.{content_recasted};
ghost use Rattle.triple_arena.specs.DirectContent.{DirectContent};
ghost use Rattle.triple_arena.specs.Drains.{drained};
ghost use Rattle.triple_arena.specs.IterMut.{with_values};
ghost use Rattle.triple_arena.specs.LiveEntries.{live_entries};
ghost use Rattle.triple_arena.specs.Recaster.{IsRecasterOf, IsRenaming};

use crate::ArenaTrait;
use triple_arena_ptr::PtrCore;

/// From a new arena on, each pointer that an insertion, an `invalidate` or a compression gives is
/// one that no earlier step gave.
pub fn pointers_are_given_once<P: PtrCore, T: Drop, A: ArenaTrait<P, T>>()
    ensures { (history : History A T) (arena : A)
        → IsReached A.entry_at A.live_count A.counter A.room A.live_entries P.Gen.last history arena
        → AreNew (all_given A.live_entries history) }
{}

/// A pointer that was given and has ended finds nothing ever after.
pub fn ended_pointers_find_nothing<P: PtrCore, T: Drop, A: ArenaTrait<P, T>>()
    ensures { (before after : History A T) (arena : A) (p : ℕ × ℕ)
        → IsReached A.entry_at A.live_count A.counter A.room A.live_entries P.Gen.last before arena
        → Happens A.entry_at A.live_count A.counter A.room A.live_entries P.Gen.last arena after
        → IsOneOf (all_given A.live_entries before) p → (Finds A.entry_at arena p → ⊥)
        → Finds A.entry_at (reached arena after) p → ⊥ }
{}

/// A pointer with the first generation, as `invalid()` has, finds nothing after any history of a
/// new arena's calls.
pub fn invalid_pointers_find_nothing<P: PtrCore, T: Drop, A: ArenaTrait<P, T>>()
    ensures { (history : History A T) (arena : A) (index : ℕ)
        → IsReached A.entry_at A.live_count A.counter A.room A.live_entries P.Gen.last history arena
        → Finds A.entry_at arena (index, 1) → ⊥ }
{}

/// A write of a value through a borrow is a step of a history.
pub fn writes_are_steps<P: PtrCore, T: Drop, A: ArenaTrait<P, T>>()
    ensures { (arena : A) (index : ℕ) (value : T) → Takes A.entry_at A.live_count A.counter A.room
        A.live_entries P.Gen.last (write index value) arena (A.with_value arena index value) }
{}

/// What is done to an `Arena` and leaves each pointer is a step of a history too: a recast, a loop
/// that writes values, the free slots put in order or taken from the end, a limit that is set, and
/// the growth for a place that is let go.
pub fn what_keeps_pointers_is_a_step<I, P: PtrCore, T: Drop>()
    ensures recast { (items : T → List I) (image : I → Option I) (recasted : T → T)
        (arena : Content T)
        → IsStep P.Gen.last keep arena (content_recasted items image recasted arena) }
    ensures values { (arena : Content T) (values : List (Option T))
        → IsStep P.Gen.last keep arena (with_values arena values) }
    ensures order { (arena : Content T) → IsStep P.Gen.last keep arena (canonicalized arena) }
    ensures free_end { (arena : Content T) → IsStep P.Gen.last keep arena (without_free_end arena) }
    ensures limit { (arena : Content T) (max : ℕ)
        → IsStep P.Gen.last keep arena (with_limit P.Inx.greatest arena max) }
    ensures growth { (arena : Content T) → IsStep P.Gen.last keep arena (grown_if_full arena) }
{}

/// What a drain of an `Arena` leaves, however far it went, is a step of a history, and so is what a
/// transfer from here leaves; and what is left of a copy to here whose map refused.
pub fn what_takes_all_is_a_step<P: PtrCore, T: Drop>()
    ensures drain { (arena : Content T) → IsStep P.Gen.last drain arena (drained P.Gen.last arena) }
    ensures refused_copy { (arena : Content T) (n : ℕ) → IsStep P.Gen.last (give_up_copy n) arena
        (cleared P.Gen.last (reallocated arena n)) }
{}

/// Over an arena that stays as it is, an advancer gives the pointers ahead of it in turn, one a
/// call, and then nothing. They are the pointers of the live entries from its start on, each once,
/// by rising index, or by falling index where it falls. What `advancer` returns has all of them
/// ahead.
pub fn advancers_give_each_entry_once<P: PtrCore, T: Drop, A: ArenaTrait<P, T>>()
    ensures given { (arena : A) (advancer left : A.PtrAdvancer) (given : List (Option P))
        → FoldsTo (λ before p after. A.PtrAdvancer.advance_gives before arena p after)
        advancer given left → list_map (pointer_by P.index P.generation) given
        ≡ given_by (length given) (pointers_ahead (A.walk advancer) (A.live_entries arena)) }
    ensures live { (arena : A) (walk : Walk) (p : ℕ × ℕ)
        → IsOneOf (pointers_ahead walk (A.live_entries arena)) p
        ↔ (IsAhead walk p.0 × (generation_at (A.entry_at arena) p.0 ≡ Some p.1)) }
    ensures order { (arena : A) (walk : Walk)
        → GoInOrder walk.falls (pointers_ahead walk (A.live_entries arena)) }
    ensures all { (arena : A) (walk : Walk) → GoesOverAll walk (A.entry_at arena)
        → pointers_ahead walk (A.live_entries arena) ≡ list_map pointer_of (A.live_entries arena) }
{}

/// The map that `compress_recaster` returns is one-to-one and onto: each pointer that was valid,
/// and no other, has a new name, two have two, and the new names are the pointers that are valid
/// afterwards. Each finds what its pointer found.
pub fn recasters_rename_one_to_one<P: PtrCore, T: Drop>()
    ensures { (before after : Content T) (map : DirectContent P)
        → IsRecasterOf P.index P.generation before after map
        → IsRenaming P.index P.generation before after map }
{}
