//! Writing each value of an arena: an advancer goes over the pointers, and each value is borrowed
//! in turn.
ghost use Rattle.std.specs.Prelude.{◌≡◌, ℕ, ◌+◌, ◌%◌, ◌^◌};
ghost use Rattle.std.specs.Option.{option_map};

use triple_arena::{Advancer, ArenaTrait, PtrCore};

/// Adds `by` to each value. Past the greatest number it goes on from 0. No pointer ends.
pub fn raise_each<P: PtrCore, A: ArenaTrait<P, u64>>(arena: &mut A, by: u64)
    ensures entries { (j : ℕ) → A.entry_at arena.new j
        ≡ option_map (λ e. (e.0, (e.1 + by) % 2 ^ 64)) (A.entry_at arena.old j) }
    ensures live { A.live_count arena.new ≡ A.live_count arena.old }
    ensures counter { A.counter arena.new ≡ A.counter arena.old }
    ensures room { A.room arena.new ≡ A.room arena.old }
{
    let mut advancer = arena.advancer();
    while let Some(p) = advancer.advance(arena) {
        if let Some(value) = arena.get_mut(p) {
            *value = value.wrapping_add(by);
        }
    }
}
