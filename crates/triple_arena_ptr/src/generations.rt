//! The generations: std's integers that are not 0, and `()` if generations are not counted.
ghost use Rattle.std.specs.Prelude.{Some, None, ◌-◌, ◌^◌, refl};
ghost use Rattle.std.specs.Cmp.Rules.{comparing};
ghost use Rattle.std.specs.Int.NonZero.{non_zero_u8_get, non_zero_u16_get, non_zero_u32_get};
ghost use Rattle.std.specs.Int.NonZero.{non_zero_u64_get, non_zero_u128_get, non_zero_usize_get};
ghost use Rattle.std.proofs.Common.{rules};
ghost use Rattle.triple_arena_ptr.specs.NonZeros.{u8_determined, u16_determined, u32_determined};
ghost use Rattle.triple_arena_ptr.specs.NonZeros.{u64_determined, u128_determined};
ghost use Rattle.triple_arena_ptr.specs.NonZeros.{usize_determined};

use crate::free_mark::FreeMark;
use crate::hexadecimal;
use crate::ptr::{PtrGen, PtrGenCore};
use std::fmt;
use std::num::{NonZeroU8, NonZeroU16, NonZeroU32, NonZeroU64, NonZeroU128, NonZeroUsize};

impl PtrGenCore for () {
    ghost number = { λ _. 1 };

    ghost last = { None };

    ghost counts_to_two = { λ g h. Prim.search rules };

    ghost positive = { λ a. Prim.search rules };

    ghost determined = { λ a b h. Prim.search rules };

    ghost equal = { λ a b. refl };

    ghost cloned = { λ a b same. same };

    ghost always_clones = { λ a. Prim.search rules };

    fn one() -> Self {}

    fn two() -> Self {}

    fn generational_inc(self) -> ((), bool) {
        ((), false)
    }

    fn fmt_hex<W: fmt::Write>(&self, _f: &mut fmt::Formatter<W>) -> fmt::Result {
        Ok(())
    }
}

impl PtrGen for () {
    ghost ordered = { λ a b. refl };
}

impl PtrGenCore for NonZeroU8 {
    ghost number = { non_zero_u8_get };

    ghost last = { Some 255 };

    ghost counts_to_two = { λ g h. Prim.search rules };

    ghost positive = { λ a. a.ok };

    ghost determined = { u8_determined };

    ghost equal = { λ a b. Prim.search (comparing, rules) };

    ghost cloned = { λ a b same. same };

    ghost always_clones = { λ a. Prim.search rules };

    fn one() -> Self {
        NonZeroU8::MIN
    }

    fn two() -> Self {
        NonZeroU8::MIN.saturating_add(1)
    }

    fn generational_inc(self) -> (Self, bool) {
        match self.checked_add(1) {
            Some(next) => (next, false),
            None => (NonZeroU8::two(), true),
        }
    }

    fn fmt_hex<W: fmt::Write>(&self, f: &mut fmt::Formatter<W>) -> fmt::Result {
        let number = self.get();
        write!(f, "{number:x}")
    }
}

impl PtrGen for NonZeroU8 {
    ghost ordered = { λ a b. Prim.search (comparing, rules) };
}

impl PtrGenCore for NonZeroU16 {
    ghost number = { non_zero_u16_get };

    ghost last = { Some (2 ^ 16 - 1) };

    ghost counts_to_two = { λ g h. Prim.search rules };

    ghost positive = { λ a. a.ok };

    ghost determined = { u16_determined };

    ghost equal = { λ a b. Prim.search (comparing, rules) };

    ghost cloned = { λ a b same. same };

    ghost always_clones = { λ a. Prim.search rules };

    fn one() -> Self {
        NonZeroU16::MIN
    }

    fn two() -> Self {
        NonZeroU16::MIN.saturating_add(1)
    }

    fn generational_inc(self) -> (Self, bool) {
        match self.checked_add(1) {
            Some(next) => (next, false),
            None => (NonZeroU16::two(), true),
        }
    }

    fn fmt_hex<W: fmt::Write>(&self, f: &mut fmt::Formatter<W>) -> fmt::Result {
        let number = self.get();
        write!(f, "{number:x}")
    }
}

impl PtrGen for NonZeroU16 {
    ghost ordered = { λ a b. Prim.search (comparing, rules) };
}

impl PtrGenCore for NonZeroU32 {
    ghost number = { non_zero_u32_get };

    ghost last = { Some (2 ^ 32 - 1) };

    ghost counts_to_two = { λ g h. Prim.search rules };

    ghost positive = { λ a. a.ok };

    ghost determined = { u32_determined };

    ghost equal = { λ a b. Prim.search (comparing, rules) };

    ghost cloned = { λ a b same. same };

    ghost always_clones = { λ a. Prim.search rules };

    fn one() -> Self {
        NonZeroU32::MIN
    }

    fn two() -> Self {
        NonZeroU32::MIN.saturating_add(1)
    }

    fn generational_inc(self) -> (Self, bool) {
        match self.checked_add(1) {
            Some(next) => (next, false),
            None => (NonZeroU32::two(), true),
        }
    }

    #[inline(always)]
    fn is_free_mark(self, mark: FreeMark) -> bool {
        mark.word == self.get()
    }

    fn fmt_hex<W: fmt::Write>(&self, f: &mut fmt::Formatter<W>) -> fmt::Result {
        let number = self.get();
        write!(f, "{number:x}")
    }
}

impl PtrGen for NonZeroU32 {
    ghost ordered = { λ a b. Prim.search (comparing, rules) };
}

impl PtrGenCore for NonZeroU64 {
    ghost number = { non_zero_u64_get };

    ghost last = { Some (2 ^ 64 - 1) };

    ghost counts_to_two = { λ g h. Prim.search rules };

    ghost positive = { λ a. a.ok };

    ghost determined = { u64_determined };

    ghost equal = { λ a b. Prim.search (comparing, rules) };

    ghost cloned = { λ a b same. same };

    ghost always_clones = { λ a. Prim.search rules };

    fn one() -> Self {
        NonZeroU64::MIN
    }

    fn two() -> Self {
        NonZeroU64::MIN.saturating_add(1)
    }

    fn generational_inc(self) -> (Self, bool) {
        match self.checked_add(1) {
            Some(next) => (next, false),
            None => (NonZeroU64::two(), true),
        }
    }

    fn fmt_hex<W: fmt::Write>(&self, f: &mut fmt::Formatter<W>) -> fmt::Result {
        let number = self.get();
        write!(f, "{number:x}")
    }
}

impl PtrGen for NonZeroU64 {
    ghost ordered = { λ a b. Prim.search (comparing, rules) };
}

impl PtrGenCore for NonZeroU128 {
    ghost number = { non_zero_u128_get };

    ghost last = { Some (2 ^ 128 - 1) };

    ghost counts_to_two = { λ g h. Prim.search rules };

    ghost positive = { λ a. a.ok };

    ghost determined = { u128_determined };

    ghost equal = { λ a b. Prim.search (comparing, rules) };

    ghost cloned = { λ a b same. same };

    ghost always_clones = { λ a. Prim.search rules };

    fn one() -> Self {
        NonZeroU128::MIN
    }

    fn two() -> Self {
        NonZeroU128::MIN.saturating_add(1)
    }

    fn generational_inc(self) -> (Self, bool) {
        match self.checked_add(1) {
            Some(next) => (next, false),
            None => (NonZeroU128::two(), true),
        }
    }

    fn fmt_hex<W: fmt::Write>(&self, f: &mut fmt::Formatter<W>) -> fmt::Result {
        hexadecimal::fmt_u128(self.get(), f)
    }
}

impl PtrGen for NonZeroU128 {
    ghost ordered = { λ a b. Prim.search (comparing, rules) };
}

impl PtrGenCore for NonZeroUsize {
    ghost number = { non_zero_usize_get };

    ghost last = { Some (2 ^ 64 - 1) };

    ghost counts_to_two = { λ g h. Prim.search rules };

    ghost positive = { λ a. a.ok };

    ghost determined = { usize_determined };

    ghost equal = { λ a b. Prim.search (comparing, rules) };

    ghost cloned = { λ a b same. same };

    ghost always_clones = { λ a. Prim.search rules };

    fn one() -> Self {
        NonZeroUsize::MIN
    }

    fn two() -> Self {
        NonZeroUsize::MIN.saturating_add(1)
    }

    fn generational_inc(self) -> (Self, bool) {
        match self.checked_add(1) {
            Some(next) => (next, false),
            None => (NonZeroUsize::two(), true),
        }
    }

    fn fmt_hex<W: fmt::Write>(&self, f: &mut fmt::Formatter<W>) -> fmt::Result {
        let number = self.get();
        write!(f, "{number:x}")
    }
}

impl PtrGen for NonZeroUsize {
    ghost ordered = { λ a b. Prim.search (comparing, rules) };
}
