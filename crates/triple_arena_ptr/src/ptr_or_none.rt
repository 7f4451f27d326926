//! A pointer that a renaming may forget.
ghost use Rattle.std.specs.Prelude.{◌≡◌, [], Option, refl};
ghost use Rattle.triple_arena_ptr.specs.Recast.{image_of};

use crate::recast::{Recast, Recaster};

/// A pointer, or none: a recast makes none of a pointer that the recaster has no image for, as of
/// one whose entry had ended.
///
/// A value that refers to entries which may be removed keeps such pointers. A recast of a plain
/// pointer, or of an `Option` of one, stops there with an error.
#[derive(Clone, Copy, Debug, PartialEq, Eq, Hash, Drop)]
pub struct PtrOrNone<P> {
    /// The pointer, if there is one.
    pub ptr: Option<P>,
}

// As it holds no item that a recast needs an image of, it shows none.
impl<P: Copy> Recast<P> for PtrOrNone<P> {
    ghost items = { λ _. [] };

    ghost recasted = { λ f it. record { ptr = image_of f it.ptr } };

    ghost items_recasted = { λ _ _. refl };

    fn recast<R: Recaster<Item = P>>(&mut self, recaster: &R) -> Result<(), P> {
        if let Some(ptr) = &mut self.ptr {
            if recaster.recast_item(ptr).is_err() {
                self.ptr = None;
            }
        }
        Ok(())
    }
}
