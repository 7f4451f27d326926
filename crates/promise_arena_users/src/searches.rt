//! Searches over the values of an arena, by its iterators.
ghost use Rattle.std.specs.Prelude.{◌≡◌};
ghost use Rattle.std.specs.Fn.{FnReturnsAt};
ghost use Rattle.std.specs.Option.{option_map};
ghost use Rattle.triple_arena.specs.Content.{entry_at};
ghost use Rattle.triple_arena.specs.DirectContent.{entry_at as direct_entry_at};
ghost use Rattle.triple_arena.specs.Iterators.{SearchFinds};

use triple_arena::{Arena, ArenaSlots, DirectArena, DirectSlots, PtrCore};

/// The pointer to the first value, in the order of the indexes, that passes the test, or `None` if
/// each fails it.
pub fn find_first<P: PtrCore, T: Drop, S: ArenaSlots<P, T>, F: Fn(&T) -> bool>(
    arena: &Arena<P, T, S>,
    test: F,
) -> Option<P>
    requires { F.IsAlwaysCallable test }
    ensures { SearchFinds (λ t b. FnReturnsAt F.Fn test t b) (entry_at arena.now)
        (option_map (λ p. (P.index p, P.generation p)) result) }
{
    for (p, value) in arena.iter() {
        if test(value) {
            return Some(p);
        }
    }
    None
}

/// The pointer to the first value of a direct arena that is equal to this one, in the order of the
/// indexes, or `None` if there is none.
pub fn find_equal<P: PtrCore, T: PartialEq + Drop, S: DirectSlots<P, T>>(
    arena: &DirectArena<P, T, S>,
    wanted: &T,
) -> Option<P>
    ensures { SearchFinds (λ t b. b ≡ T.eq t wanted.now) (direct_entry_at arena.now)
        (option_map (λ p. (P.index p, P.generation p)) result) }
{
    for (p, value) in arena {
        if value == wanted {
            return Some(p);
        }
    }
    None
}
