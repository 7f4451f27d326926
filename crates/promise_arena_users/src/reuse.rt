//! Slots that are used again while pointers to what stood in them are kept.
ghost use Rattle.std.specs.Prelude.{◌≡◌, ◌↔◌, ℕ, Option, Some, IsSome, IfSome, IfNone, false};
ghost use Rattle.triple_arena.specs.Entries.{value_if, with_entry, without, counter_wraps, IsOneOf};
ghost use Rattle.triple_arena.specs.Steps.{Finds, Happens, History, IsReached, all_given, reached};

use proof_marks::recall;
use triple_arena::laws::{ended_pointers_find_nothing, pointers_are_given_once};
use triple_arena::{ArenaInsertTrait, InvalidationResult, PtrCore};

/// Removes what `p` points to, and stores `t` if there is room now. It answers the pointer of `t`,
/// or `None`, and changes nothing, if `p` points to no entry.
///
/// If generations are counted, whatever was done with the arena since it was new, and as long as no
/// step wrapped the generations: that pointer is none of those that the arena gave before, and `p`,
/// if the arena gave it, finds nothing ever after.
pub fn replace<P: PtrCore, T: Drop, A: ArenaInsertTrait<P, T>>(
    arena: &mut A,
    p: P,
    t: T,
) -> Option<P>
    ensures variant { IsSome result
        ↔ IsSome (value_if (P.generation p) (A.entry_at arena.old (P.index p))) }
    ensures found { IfSome result (λ q. value_if (P.generation q) (A.entry_at arena.new (P.index q))
        ≡ Some t) }
    ensures others { IfSome result (λ q. (k : ℕ) → A.entry_at arena.new k
        ≡ with_entry (without (A.entry_at arena.old) (P.index p)) (P.index q)
        (P.generation q, t) k) }
    ensures live { A.live_count arena.new ≡ A.live_count arena.old }
    ensures missed { IfNone result (arena.new ≡ arena.old) }
    ensures never_given { (history : History A T)
        → IsReached A.entry_at A.live_count A.counter A.room A.live_entries P.Gen.last
        history arena.old → counter_wraps P.Gen.last (A.counter arena.old) ≡ false
        → IfSome result (λ q. IsOneOf (all_given A.live_entries history) (P.index q, P.generation q)
        → ⊥) }
    ensures ended { (history later : History A T)
        → IsReached A.entry_at A.live_count A.counter A.room A.live_entries P.Gen.last
        history arena.old → counter_wraps P.Gen.last (A.counter arena.old) ≡ false
        → IsOneOf (all_given A.live_entries history) (P.index p, P.generation p)
        → Happens A.entry_at A.live_count A.counter A.room A.live_entries P.Gen.last arena.new later
        → IsSome result → Finds A.entry_at (reached arena.new later) (P.index p, P.generation p)
        → ⊥ }
{
    pointers_are_given_once::<P, T, A>();
    ended_pointers_find_nothing::<P, T, A>();
    // No more entries are live than fit.
    recall!(arena.len());
    match arena.remove(p) {
        InvalidationResult::InvalidPtr => None,
        _ => match arena.insert_within_capacity(t) {
            Ok(q) => Some(q),
            Err(_) => unreachable!(),
        },
    }
}
