//! Renaming the items, such as pointers, that a value holds.
ghost use Rattle.std.specs.Prelude.{◌≡◌, List, [], ◌∷◌, ◌++◌, Option, Some, None, refl};
ghost use Rattle.triple_arena_ptr.specs.Recast.{renamed_item, recast_answer, renamed, where_ok};

/// A renaming of items: each item has an image or none.
pub trait Recaster {
    /// What is renamed.
    type Item;

    ghost image: { Self → Self.Item → Option Self.Item };

    /// Renames the item. One that has no image is returned as `Err(item)`, and stays.
    fn recast_item(&self, item: &mut Self::Item) -> Result<(), Self::Item>
        ensures value { item.new ≡ renamed_item (image self.now item.old) item.old }
        ensures answer { result ≡ recast_answer (image self.now) (item.old ∷ []) };
}

/// A value that holds items which a `Recaster` can rename.
pub trait Recast<I> {
    // The items that the value holds, in the order in which they are renamed.
    ghost items: { Self → List I };

    // The value after a recast by this renaming.
    ghost recasted: { (I → Option I) → Self → Self };

    /// Renames each item in turn, up to the first that the recaster has no image for. That item is
    /// returned as `Err(item)`; those before it are renamed, and it and those after it stay.
    fn recast<R: Recaster<Item = I>>(&mut self, recaster: &R) -> Result<(), I>
        ensures value { self.new ≡ recasted (R.image recaster.now) self.old }
        ensures answer { result ≡ recast_answer (R.image recaster.now) (items self.old) };

    // The items of the value after a recast are the renamed items.
    ghost items_recasted: { (f : I → Option I) (x : Self)
        → items (recasted f x) ≡ renamed f (items x) };
}

impl<I> Recast<I> for u64 {
    ghost items = { λ _. [] };

    ghost recasted = { λ _ n. n };

    ghost items_recasted = { λ _ _. refl };

    fn recast<R: Recaster<Item = I>>(&mut self, _recaster: &R) -> Result<(), I> {
        Ok(())
    }
}

impl<I, T: Recast<I>> Recast<I> for Option<T> {
    ghost use Rattle.triple_arena_ptr.specs.Recast.{option_items, option_recasted};
    ghost use Rattle.triple_arena_ptr.specs.RecastLaws.{option_items_recasted};

    ghost items = { option_items T.items };

    ghost recasted = { λ f o. option_recasted (T.recasted f) o };

    ghost items_recasted = { λ f o. option_items_recasted T.items (T.recasted f) f
        (T.items_recasted f) o };

    fn recast<R: Recaster<Item = I>>(&mut self, recaster: &R) -> Result<(), I> {
        match self {
            Some(value) => value.recast(recaster),
            None => Ok(()),
        }
    }
}

impl<I, A: Recast<I>, B: Recast<I>> Recast<I> for (A, B) {
    ghost use Rattle.triple_arena_ptr.specs.RecastLaws.{pair_items_recasted};

    ghost items = { λ x. A.items x.0 ++ B.items x.1 };

    ghost recasted = { λ f x.
        (A.recasted f x.0, where_ok (recast_answer f (A.items x.0)) (B.recasted f x.1) x.1) };

    ghost items_recasted = { λ f x. pair_items_recasted A.items B.items (A.recasted f)
        (B.recasted f) f (A.items_recasted f) (B.items_recasted f) x.0 x.1 };

    fn recast<R: Recaster<Item = I>>(&mut self, recaster: &R) -> Result<(), I> {
        self.0.recast(recaster)?;
        self.1.recast(recaster)
    }
}
