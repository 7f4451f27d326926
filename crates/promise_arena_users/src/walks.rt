//! A caller that goes over an arena which changes meanwhile.
ghost use Rattle.std.specs.Prelude.{◌≡◌, ℕ, None};

use triple_arena::{Advancer, ArenaTrait, PtrCore};

/// Removes the entries one by one: the advancer comes to each of them.
pub fn remove_each<P: PtrCore, T: Drop, A: ArenaTrait<P, T>>(arena: &mut A)
    ensures { (j : ℕ) → A.entry_at arena.new j ≡ None }
{
    let mut advancer = arena.advancer();
    while let Some(p) = advancer.advance(arena) {
        let _ = arena.remove(p);
    }
}
