//! What a free slot of an arena keeps where an allocated one keeps its generation.
ghost use Rattle.std.specs.Prelude.{◌≡◌};

use std::marker::Model;

/// What a free slot keeps where an allocated one keeps a generation of 32 bits: a word that is 0,
/// as no generation is. So one comparison tells an arena both that a slot is allocated and that it
/// has the generation of a pointer.
#[derive(Clone, Copy)]
pub struct FreeMark {
    pub(crate) word: u32,
}

impl Model for FreeMark {
    ghost use Rattle.std.specs.Prelude.{◌≡◌, ℕ};

    ghost Value = { ℕ };

    ghost view = { λ m. m.word };

    ghost invariant = { λ m. m.word ≡ 0 };

    ghost inverse = { λ word. record { word = word } };
}

impl FreeMark {
    /// The mark.
    #[inline(always)]
    pub fn new() -> Self
        ensures { result ≡ 0 }
    {
        FreeMark { word: 0 }
    }
}
