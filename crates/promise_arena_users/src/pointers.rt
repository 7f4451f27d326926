//! Code over `P: Ptr`: it calls what the arenas ask of `P: PtrCore`, and orders and compares
//! pointers.
ghost use Rattle.std.specs.Prelude.{◌≡◌, IfOk, OnErr, ◌==◌};
ghost use Rattle.std.specs.Ordering.{nat_cmp, on, then_cmp};
ghost use Rattle.triple_arena.specs.Content.{live_count, get as get_of};

use std::cmp::Ordering;
use triple_arena::{Arena, ArenaInsertTrait, ArenaSlots, ArenaTrait, Ptr, ReallocationError};

/// Stores a value, reads it, and removes it again.
pub fn there_and_back<P: Ptr, S: ArenaSlots<P, u64>>(
    arena: &mut Arena<P, u64, S>,
    t: u64,
) -> Result<u64, ReallocationError>
    ensures seen { IfOk result (λ seen. seen ≡ t) }
    ensures live { IfOk result (λ _. live_count arena.new ≡ live_count arena.old) }
    ensures err { OnErr result (arena.new ≡ arena.old) }
{
    let p = arena.insert(t)?;
    let seen = match arena.get(p) {
        Some(seen) => *seen,
        None => unreachable!(),
    };
    let _ = arena.remove(p);
    Ok(seen)
}

/// What is under the first of two pointers, by index and then by generation.
pub fn first_of<P: Ptr, S: ArenaSlots<P, u64>>(arena: &Arena<P, u64, S>, p: P, q: P) -> Option<u64>
    ensures { (then_cmp (on P.index nat_cmp) (on P.generation nat_cmp) p q ≡ Ordering.Less)
        → result ≡ get_of arena.now (P.index p) (P.generation p) }
{
    match p.cmp(&q) {
        Ordering::Less => arena.get(p).copied(),
        _ => arena.get(q).copied(),
    }
}

/// Whether two pointers have the same index, by the index's own `==`.
pub fn same_inx<P: Ptr>(p: P, q: P) -> bool
    ensures { result ≡ (P.index p == P.index q) }
{
    p.inx() == q.inx()
}
