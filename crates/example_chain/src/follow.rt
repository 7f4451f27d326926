//! Pointers that follow their entries through a compression.
ghost use Rattle.std.specs.Prelude.{◌≡◌, ℕ, ◌-◌, ◌↔◌, false, Some, IsSome, IfSome, map as list_map};
ghost use Rattle.std.specs.Prelude.{slice_get, slice_index_or};
ghost use Rattle.std.specs.Option.{option_map};
ghost use Rattle.std.specs.List.{AllZip};
ghost use Rattle.triple_arena.specs.Entries.{value_if};
ghost use Rattle.triple_arena.specs.Changes.{IsCompressed};
ghost use Rattle.triple_arena.specs.Compression.{index_of, value_of};
ghost use Rattle.example_chain.specs.Follow.{IsFollowed, IsNamed, IsNamedBy, Keeps};

use triple_arena::{Advancer, ArenaTrait, Ptr, PtrCore};

/// A value with the pointer that its entry had before the entries moved.
#[derive(Drop)]
pub struct Moved<P: PtrCore, T> {
    pub was: P,
    pub value: T,
}

// Moves the entries to the first indexes, and has each keep the pointer that it had.
fn remember<P: PtrCore, T: Drop, A: ArenaTrait<P, Moved<P, T>>>(arena: &mut A)
    ensures kept { AllZip (Keeps P.index P.generation (λ m. m.was) (λ m. m.value))
        (A.live_entries arena.old) (A.live_entries arena.new) }
    ensures values { list_map (λ m. m.value) (list_map value_of (A.live_entries arena.new))
        ≡ list_map (λ m. m.value) (list_map value_of (A.live_entries arena.old)) }
    ensures compressed { IsCompressed A.entry_at A.live_count A.counter A.room P.Gen.last
        A.live_entries false arena.old arena.new }
{
    arena.compress_with(
        false,
        |from, moved, _| Moved {
            was: from,
            value: moved.value,
        },
    );
}

// The pointer to the entry that has `p` as its old pointer.
fn find_moved<P: Ptr, T: Drop, A: ArenaTrait<P, Moved<P, T>>>(arena: &A, p: P) -> Option<P>
    ensures { IsNamed (λ m. m.was) P.index P.generation (A.entry_at arena.now) p result }
{
    let mut advancer = arena.advancer();
    while let Some(q) = advancer.advance(arena) {
        if let Some(moved) = arena.get(q) {
            if moved.was == p {
                return Some(q);
            }
        }
    }
    None
}

/// Moves the entries to the first indexes, and follows `p`: answers the pointer that its entry has
/// then, or `None` if `p` pointed to none.
pub fn compress_and_follow<P: Ptr, T: Drop, A: ArenaTrait<P, Moved<P, T>>>(
    arena: &mut A,
    p: P,
) -> Option<P>
    ensures variant { IsSome result
        ↔ IsSome (value_if (P.generation p) (A.entry_at arena.old (P.index p))) }
    ensures follows { IfSome result (λ q. option_map (λ m. m.value)
        (value_if (P.generation q) (A.entry_at arena.new (P.index q)))
        ≡ option_map (λ m. m.value)
        (value_if (P.generation p) (A.entry_at arena.old (P.index p)))) }
    ensures place { IfSome result (λ q. option_map index_of
        (slice_get (A.live_entries arena.old) (P.index q - 1)) ≡ Some (P.index p)) }
    ensures values { list_map (λ m. m.value) (list_map value_of (A.live_entries arena.new))
        ≡ list_map (λ m. m.value) (list_map value_of (A.live_entries arena.old)) }
    ensures compressed { IsCompressed A.entry_at A.live_count A.counter A.room P.Gen.last
        A.live_entries false arena.old arena.new }
{
    remember(arena);
    find_moved(arena, p)
}

// Replaces each pointer of `table` by the one to the entry that has it as its old pointer.
fn find_all_moved<P: Ptr, T: Drop, A: ArenaTrait<P, Moved<P, T>>>(
    arena: &A,
    table: &mut [Option<P>],
)
    ensures { (k : ℕ) → IsNamedBy (λ m. m.was) P.index P.generation (A.entry_at arena.now)
        (slice_index_or table.old k None) (slice_index_or table.new k None) }
{
    for at in 0..table.len() {
        table[at] = match table[at] {
            Some(p) => find_moved(arena, p),
            None => None,
        };
    }
}

/// Moves the entries to the first indexes, and has the pointers of `table` follow them: a pointer
/// that found no entry becomes `None`.
pub fn compress_with_table<P: Ptr, T: Drop, A: ArenaTrait<P, Moved<P, T>>>(
    arena: &mut A,
    table: &mut [Option<P>],
)
    ensures table { (k : ℕ) → IsFollowed
        (λ p. option_map (λ m. m.value)
        (value_if (P.generation p) (A.entry_at arena.old (P.index p))))
        (λ p. option_map (λ m. m.value)
        (value_if (P.generation p) (A.entry_at arena.new (P.index p))))
        (slice_index_or table.old k None) (slice_index_or table.new k None) }

    // Which entry that is: the one that has the old pointer now.
    ensures named { (k : ℕ) → IsNamedBy (λ m. m.was) P.index P.generation (A.entry_at arena.new)
        (slice_index_or table.old k None) (slice_index_or table.new k None) }
    ensures kept { AllZip (Keeps P.index P.generation (λ m. m.was) (λ m. m.value))
        (A.live_entries arena.old) (A.live_entries arena.new) }
    ensures compressed { IsCompressed A.entry_at A.live_count A.counter A.room P.Gen.last
        A.live_entries false arena.old arena.new }
{
    remember(arena);
    find_all_moved(arena, table);
}
