//! What a caller learns of a write through a borrowed value, and of `arena[p]`.
ghost use Rattle.std.specs.Prelude.{◌≡◌, ℕ, ◌↔◌, false, IsTrue, IsSome};
ghost use Rattle.triple_arena.specs.Content.{get, with_value};
ghost use Rattle.triple_arena.specs.Entries.{value_if, with_value_at};

use triple_arena::{Arena, ArenaSlots, ArenaTrait, PtrCore};

/// Changes the value at an index, and says whether there was one.
pub fn write_at<P: PtrCore, A: ArenaTrait<P, u64>>(arena: &mut A, i: P::Inx, value: u64) -> bool
    ensures variant { IsTrue result ↔ IsSome (A.entry_at arena.old (P.Inx.number i)) }
    ensures entries { IsTrue result → (j : ℕ) → A.entry_at arena.new j
        ≡ with_value_at (A.entry_at arena.old) (P.Inx.number i) value j }
    ensures live { A.live_count arena.new ≡ A.live_count arena.old }
    ensures counter { A.counter arena.new ≡ A.counter arena.old }
    ensures missed { result ≡ false → arena.new ≡ arena.old }
{
    match arena.get_inx_mut(i) {
        Some(own) => {
            *own = value;
            true
        }
        None => false,
    }
}

/// Changes the value that a pointer points to, and says whether there was one.
pub fn write<P: PtrCore, A: ArenaTrait<P, u64>>(arena: &mut A, p: P, value: u64) -> bool
    ensures variant { IsTrue result
        ↔ IsSome (value_if (P.generation p) (A.entry_at arena.old (P.index p))) }
    ensures entries { IsTrue result → (j : ℕ) → A.entry_at arena.new j
        ≡ with_value_at (A.entry_at arena.old) (P.index p) value j }
    ensures missed { result ≡ false → arena.new ≡ arena.old }
{
    match arena.get_mut(p) {
        Some(own) => {
            *own = value;
            true
        }
        None => false,
    }
}

/// The value by `arena[p]`, if there is one.
pub fn read_by_pointer<P: PtrCore, S: ArenaSlots<P, u64>>(
    arena: &Arena<P, u64, S>,
    p: P,
) -> Option<u64>
    ensures { result ≡ get arena.now (P.index p) (P.generation p) }
{
    if arena.contains(p) {
        Some(arena[p])
    } else {
        None
    }
}

/// Changes it by `arena[p]`, and says whether there was one.
pub fn write_by_pointer<P: PtrCore, S: ArenaSlots<P, u64>>(
    arena: &mut Arena<P, u64, S>,
    p: P,
    value: u64,
) -> bool
    ensures variant { IsTrue result ↔ IsSome (get arena.old (P.index p) (P.generation p)) }
    ensures written { IsTrue result → arena.new ≡ with_value arena.old (P.index p) value }
    ensures missed { result ≡ false → arena.new ≡ arena.old }
{
    if !arena.contains(p) {
        return false;
    }
    arena[p] = value;
    true
}
