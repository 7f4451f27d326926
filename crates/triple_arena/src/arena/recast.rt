//! Renaming what the values of an arena hold, and renaming by an arena of pointers.
ghost use Rattle.std.specs.Prelude.{◌≡◌, ◌↔◌, ℕ, IsTrue, IsSome, Some, length, refl};
ghost use Rattle.std.specs.Int.NonZero.{non_zero_usize_get as at};
ghost use Rattle.triple_arena_ptr.specs.Recast.{recast_answer};
ghost use Rattle.triple_arena.specs.Content.{Content, entry_at, with_value, get as get_of};
ghost use Rattle.triple_arena.specs.Recasting.{content_items, content_recasted};
ghost use Rattle.triple_arena.specs.RecastingLaws.{items-recasted};
ghost use Rattle.triple_arena.specs.Entries.{value_in};

use crate::arena::Arena;
use crate::arena::reading::ValueAtMut;
use crate::{ArenaSlots, ArenaTrait};
use std::num::NonZeroUsize;
use triple_arena_ptr::{PtrCore, Recast, Recaster};

// An arena whose values are recast one index after another.
pub(crate) trait RecastByIndex<T>: ValueAtMut<T> {
    // The arena as the words on a content ask for it.
    ghost content: { Self → Content T };

    // The number of slots.
    fn indexes(&self) -> usize
        ensures { result ≡ length (content self.now).slots };

    // Whether the index is live.
    fn is_live_at(&self, i: NonZeroUsize) -> bool
        ensures { IsTrue result ↔ IsSome (entry_at (content self.now) (at i)) };

    ghost has_its_value: { (s : Self) (i : ℕ) → IsSome (entry_at (content s) i)
        → Self.has_value s i };

    ghost value_of_entry: { (s : Self) (i : ℕ) → Self.value_at s i
        ≡ value_in (entry_at (content s) i) };

    ghost content_written: { (s : Self) (i : ℕ) (t : T)
        → content (Self.with_value_at s i t) ≡ with_value (content s) i t };
}

// Recasts each value in the order of the indexes, up to the first that holds an item without an
// image.
pub(crate) fn recast_values<I, T: Recast<I> + Drop, A: RecastByIndex<T>, R: Recaster<Item = I>>(
    arena: &mut A,
    recaster: &R,
) -> Result<(), I>
    ensures value { A.content arena.new ≡ content_recasted T.items (R.image recaster.now)
        (T.recasted (R.image recaster.now)) (A.content arena.old) }
    ensures answer { result ≡ recast_answer (R.image recaster.now)
        (content_items T.items (A.content arena.old)) }
{
    for before in 0..arena.indexes() {
        let i = NonZeroUsize::MIN.saturating_add(before);
        if arena.is_live_at(i) {
            arena.value_at_mut(i).recast(recaster)?;
        }
    }
    Ok(())
}

/// A recast renames the items that the values hold, in the order of the indexes.
impl<I, P: PtrCore, T: Recast<I> + Drop, S: ArenaSlots<P, T>> Recast<I> for Arena<P, T, S> {
    ghost items = { content_items T.items };

    ghost recasted = { λ f c. content_recasted T.items f (T.recasted f) c };

    ghost items_recasted = { λ f c. items-recasted T.items f (T.recasted f)
        (T.items_recasted f) c };

    fn recast<R: Recaster<Item = I>>(&mut self, recaster: &R) -> Result<(), I> {
        recast_values(self, recaster)
    }
}

impl<P: PtrCore, T: Drop, S: ArenaSlots<P, T>> RecastByIndex<T> for Arena<P, T, S> {
    ghost content = { λ c. c };

    ghost has_its_value = { λ c i some. some };

    ghost value_of_entry = { λ c i. refl };

    ghost content_written = { λ c i t. refl };

    fn indexes(&self) -> usize {
        self.slot_count()
    }

    fn is_live_at(&self, i: NonZeroUsize) -> bool {
        self.pointer(i).is_some()
    }
}

/// An arena of pointers renames each pointer that is valid in it to the pointer that it finds.
impl<P: PtrCore, S: ArenaSlots<P, P>> Recaster for Arena<P, P, S> {
    type Item = P;

    ghost image = { λ c p. get_of c (P.index p) (P.generation p) };

    fn recast_item(&self, item: &mut P) -> Result<(), P> {
        match self.get(*item) {
            Some(image) => {
                *item = *image;
                Ok(())
            }
            None => Err(*item),
        }
    }
}
