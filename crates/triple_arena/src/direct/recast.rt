//! Renaming what the values of a direct arena hold, and renaming by a direct arena of pointers.
ghost use Rattle.std.specs.Prelude.{refl};
ghost use Rattle.triple_arena.specs.DirectContent.{as_content, get as get_of};
ghost use Rattle.triple_arena.specs.DirectLaws.{content-with_value};
ghost use Rattle.triple_arena.specs.Recasting.{content_items, directly_recasted};
ghost use Rattle.triple_arena.specs.RecastingLaws.{items-recasted};

use crate::arena::{RecastByIndex, recast_values};
use crate::direct::DirectArena;
use crate::{ArenaTrait, DirectSlots};
use std::num::NonZeroUsize;
use triple_arena_ptr::{PtrCore, Recast, Recaster};

/// A recast renames the items that the values hold, in the order of the indexes.
impl<I, P: PtrCore, T: Recast<I> + Drop, S: DirectSlots<P, T>> Recast<I> for DirectArena<P, T, S> {
    ghost items = { λ d. content_items T.items (as_content d) };

    ghost recasted = { λ f d. directly_recasted T.items f (T.recasted f) d };

    ghost items_recasted = { λ f d. items-recasted T.items f (T.recasted f) (T.items_recasted f)
        (as_content d) };

    fn recast<R: Recaster<Item = I>>(&mut self, recaster: &R) -> Result<(), I> {
        recast_values(self, recaster)
    }
}

impl<P: PtrCore, T: Drop, S: DirectSlots<P, T>> RecastByIndex<T> for DirectArena<P, T, S> {
    ghost content = { as_content };

    ghost has_its_value = { λ d i some. some };

    ghost value_of_entry = { λ d i. refl };

    ghost content_written = { content-with_value };

    fn indexes(&self) -> usize {
        self.slot_count()
    }

    fn is_live_at(&self, i: NonZeroUsize) -> bool {
        self.is_live(i)
    }
}

/// A direct arena of pointers renames each pointer that is valid in it to the pointer that it
/// finds.
impl<P: PtrCore, S: DirectSlots<P, P>> Recaster for DirectArena<P, P, S> {
    type Item = P;

    ghost image = { λ d p. get_of d (P.index p) (P.generation p) };

    fn recast_item(&self, item: &mut P) -> Result<(), P> {
        match self.get(*item) {
            Some(image) => {
                *item = *image;
                Ok(())
            }
            None => Err(*item),
        }
    }
}
