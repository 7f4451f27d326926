//! What a caller learns of reads and searches, from bounds alone.
ghost use Rattle.std.specs.Prelude.{◌≡◌, ℕ, ◌<◌, Some, None, IfSome, IfNone, IfOk, OnErr};
ghost use Rattle.std.specs.Prelude.{option_copied};
ghost use Rattle.std.specs.Option.{option_map};
ghost use Rattle.triple_arena.specs.Entries.{value_if, generation_at};

use triple_arena::{ArenaInsertTrait, ArenaTrait, PtrCore, PtrGenCore, ReallocationError};

/// The value under a pointer.
pub fn get<P: PtrCore, T: Drop, A: ArenaTrait<P, T>>(arena: &A, p: P) -> Option<&T>
    ensures { option_copied result
        ≡ value_if (P.generation p) (A.entry_at arena.now (P.index p)) }
{
    arena.get(p)
}

/// The generation and the value at an index.
pub fn get_inx<P: PtrCore, T: Drop, A: ArenaTrait<P, T>>(
    arena: &A,
    i: P::Inx,
) -> Option<(P::Gen, &T)>
    ensures { option_map (λ e. (P.Gen.number e.0, e.1.now)) result
        ≡ A.entry_at arena.now (P.Inx.number i) }
{
    arena.get_inx(i)
}

/// The pointer of a value that was just stored finds it.
pub fn store_and_get<P: PtrCore, A: ArenaInsertTrait<P, u64>>(
    arena: &mut A,
    t: u64,
) -> Result<u64, ReallocationError>
    ensures found { IfOk result (λ found. found ≡ t) }
    ensures err { OnErr result (arena.new ≡ arena.old) }
{
    let p = arena.insert(t)?;
    match arena.get(p) {
        Some(found) => Ok(*found),
        None => unreachable!(),
    }
}

/// The entry with the least index.
pub fn first<P: PtrCore, T: Drop, A: ArenaTrait<P, T>>(arena: &A) -> Option<P>
    ensures live { IfSome result (λ p. generation_at (A.entry_at arena.now) (P.index p)
        ≡ Some (P.generation p)) }
    ensures first { IfSome result (λ p. (j : ℕ) → j < P.index p → A.entry_at arena.now j ≡ None) }
    ensures none { IfNone result ((j : ℕ) → A.entry_at arena.now j ≡ None) }
{
    arena.find_first_inx_ptr()
}

/// The entry with the greatest index.
pub fn last<P: PtrCore, T: Drop, A: ArenaTrait<P, T>>(arena: &A) -> Option<P>
    ensures live { IfSome result (λ p. generation_at (A.entry_at arena.now) (P.index p)
        ≡ Some (P.generation p)) }
    ensures last { IfSome result (λ p. (j : ℕ) → P.index p < j → A.entry_at arena.now j ≡ None) }
    ensures none { IfNone result ((j : ℕ) → A.entry_at arena.now j ≡ None) }
{
    arena.find_last_inx_ptr()
}
