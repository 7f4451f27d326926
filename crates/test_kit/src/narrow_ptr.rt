//! A pointer type for tests, with 255 indexes and the generations 1 to 3, which wrap soon.

ghost use Rattle.std.specs.Prelude.{Some, codes};
ghost use Rattle.std.specs.Cmp.Rules.{comparing};
ghost use Rattle.std.specs.Int.NonZero.{non_zero_u8_get};
ghost use Rattle.std.proofs.Common.{rules};
ghost use Rattle.triple_arena_ptr.specs.NonZeros.{u8_determined};

use std::fmt;
use std::marker::Model;
use std::num::NonZeroU8;
use triple_arena_ptr::{Pointer, PtrGen, PtrGenCore, PtrKind};

/// A pointer with a `u8` index and a generation from 1 to 3.
pub type N3 = Pointer<NonZeroU8, Gen3, N3Kind>;

/// The kind of `N3`.
#[derive(Clone, Copy, PartialEq, Eq, PartialOrd, Ord, Hash)]
pub struct N3Kind;

impl PtrKind for N3Kind {
    ghost name = { codes "N3" };

    fn name() -> &'static str {
        "N3"
    }
}

/// A generation from 1 to 3.
#[derive(Clone, Copy, Debug, PartialEq, Eq, PartialOrd, Ord, Hash)]
pub struct Gen3 {
    number: NonZeroU8,
}

impl Model for Gen3 {
    ghost use Rattle.std.specs.Prelude.{◌≤◌};
    ghost use Rattle.std.specs.Int.NonZero.{non_zero_u8_get};
    ghost use Rattle.std.specs.declared.num.NonZeroU8.{NonZeroU8};

    ghost Value = { NonZeroU8 };

    ghost view = { λ g. g.number };

    ghost invariant = { λ g. non_zero_u8_get g.number ≤ 3 };

    ghost inverse = { λ number. record { number = number } };
}

impl PtrGenCore for Gen3 {
    ghost number = { non_zero_u8_get };

    ghost last = { Some 3 };

    ghost counts_to_two = { λ g h. Prim.search rules };

    ghost positive = { λ a. a.ok };

    ghost determined = { u8_determined };

    ghost equal = { λ a b. Prim.search (comparing, rules) };

    ghost cloned = { λ a b same. same };

    ghost always_clones = { λ a. Prim.search rules };

    fn one() -> Self {
        Gen3 {
            number: NonZeroU8::MIN,
        }
    }

    fn two() -> Self {
        Gen3 {
            number: NonZeroU8::MIN.saturating_add(1),
        }
    }

    fn generational_inc(self) -> (Self, bool) {
        if self.number.get() == 3 {
            (Self::two(), true)
        } else {
            let number = self.number.saturating_add(1);
            (Gen3 { number }, false)
        }
    }

    fn fmt_hex<W: fmt::Write>(&self, f: &mut fmt::Formatter<W>) -> fmt::Result {
        let number = self.number.get();
        write!(f, "{number:x}")
    }
}

impl PtrGen for Gen3 {
    ghost ordered = { λ a b. Prim.search (comparing, rules) };
}
