//! The indexes: std's integers that are not 0.
ghost use Rattle.std.specs.Prelude.{◌-◌, ◌^◌, refl};
ghost use Rattle.std.specs.Cmp.Rules.{comparing};
ghost use Rattle.std.specs.Int.NonZero.{non_zero_u8_get, non_zero_u16_get, non_zero_u32_get};
ghost use Rattle.std.specs.Int.NonZero.{non_zero_u64_get, non_zero_u128_get, non_zero_usize_get};
ghost use Rattle.std.proofs.Common.{ap, rules};
ghost use Rattle.triple_arena_ptr.specs.NonZeros.{u8_determined, u16_determined, u32_determined};
ghost use Rattle.triple_arena_ptr.specs.NonZeros.{u64_determined, u128_determined};
ghost use Rattle.triple_arena_ptr.specs.NonZeros.{usize_determined};
ghost use Rattle.triple_arena_ptr.specs.Words.{held_in, word_for, word-held, held-word};

use crate::hexadecimal;
use crate::ptr::{PtrInx, PtrInxCore};
use proof_marks::unreached;
use std::fmt;
use std::num::{NonZeroU8, NonZeroU16, NonZeroU32, NonZeroU64, NonZeroU128, NonZeroUsize};

impl PtrInxCore for NonZeroU8 {
    type Word = u8;

    ghost number = { non_zero_u8_get };

    ghost greatest = { 255 };

    ghost positive = { λ a. a.ok };

    ghost determined = { u8_determined };

    ghost equal = { λ a b. Prim.search (comparing, rules) };

    ghost cloned = { λ a b same. same };

    ghost always_clones = { λ a. Prim.search rules };

    fn try_from_usize(inx: NonZeroUsize) -> Option<Self> {
        match u8::try_from(inx.get()) {
            Ok(number) => NonZeroU8::new(number),
            Err(_) => None,
        }
    }

    fn try_into_usize(self) -> Option<NonZeroUsize> {
        match NonZeroUsize::new(self.get() as usize) {
            Some(number) => Some(number),
            None => unreached!(),
        }
    }

    fn max_index() -> Self {
        NonZeroU8::MAX
    }

    fn best_effort_invalid() -> Self {
        NonZeroU8::max_index()
    }

    ghost held = { held_in (λ n ok. record { value = n; ok = ok }) non_zero_u8_get };

    ghost word = { word_for };

    ghost word_held = { word-held (λ n ok. record { value = n; ok = ok }) non_zero_u8_get
        (λ n ok. refl) };

    ghost held_none = { refl };

    ghost held_some = { held-word (λ n ok. record { value = n; ok = ok }) non_zero_u8_get
        (λ n ok. refl) u8_determined (λ i. i.ok) };

    fn no_word() -> u8 {
        0
    }

    fn into_word(self) -> u8 {
        self.get()
    }

    fn from_word(word_raw: u8) -> Option<Self> {
        NonZeroU8::new(word_raw)
    }

    fn fmt_hex<W: fmt::Write>(&self, f: &mut fmt::Formatter<W>) -> fmt::Result {
        let number = self.get();
        write!(f, "{number:x}")
    }
}

impl PtrInx for NonZeroU8 {
    ghost ordered = { λ a b. Prim.search (comparing, rules) };
}

impl PtrInxCore for NonZeroU16 {
    type Word = u16;

    ghost number = { non_zero_u16_get };

    ghost greatest = { 2 ^ 16 - 1 };

    ghost positive = { λ a. a.ok };

    ghost determined = { u16_determined };

    ghost equal = { λ a b. Prim.search (comparing, rules) };

    ghost cloned = { λ a b same. same };

    ghost always_clones = { λ a. Prim.search rules };

    fn try_from_usize(inx: NonZeroUsize) -> Option<Self> {
        match u16::try_from(inx.get()) {
            Ok(number) => NonZeroU16::new(number),
            Err(_) => None,
        }
    }

    fn try_into_usize(self) -> Option<NonZeroUsize> {
        match NonZeroUsize::new(self.get() as usize) {
            Some(number) => Some(number),
            None => unreached!(),
        }
    }

    fn max_index() -> Self {
        NonZeroU16::MAX
    }

    fn best_effort_invalid() -> Self {
        NonZeroU16::max_index()
    }

    ghost held = { held_in (λ n ok. record { value = n; ok = ok }) non_zero_u16_get };

    ghost word = { word_for };

    ghost word_held = { word-held (λ n ok. record { value = n; ok = ok }) non_zero_u16_get
        (λ n ok. refl) };

    ghost held_none = { refl };

    ghost held_some = { held-word (λ n ok. record { value = n; ok = ok }) non_zero_u16_get
        (λ n ok. refl) u16_determined (λ i. i.ok) };

    fn no_word() -> u16 {
        0
    }

    fn into_word(self) -> u16 {
        self.get()
    }

    fn from_word(word_raw: u16) -> Option<Self> {
        NonZeroU16::new(word_raw)
    }

    fn fmt_hex<W: fmt::Write>(&self, f: &mut fmt::Formatter<W>) -> fmt::Result {
        let number = self.get();
        write!(f, "{number:x}")
    }
}

impl PtrInx for NonZeroU16 {
    ghost ordered = { λ a b. Prim.search (comparing, rules) };
}

impl PtrInxCore for NonZeroU32 {
    type Word = u32;

    ghost number = { non_zero_u32_get };

    ghost greatest = { 2 ^ 32 - 1 };

    ghost positive = { λ a. a.ok };

    ghost determined = { u32_determined };

    ghost equal = { λ a b. Prim.search (comparing, rules) };

    ghost cloned = { λ a b same. same };

    ghost always_clones = { λ a. Prim.search rules };

    fn try_from_usize(inx: NonZeroUsize) -> Option<Self> {
        match u32::try_from(inx.get()) {
            Ok(number) => NonZeroU32::new(number),
            Err(_) => None,
        }
    }

    fn try_into_usize(self) -> Option<NonZeroUsize> {
        match NonZeroUsize::new(self.get() as usize) {
            Some(number) => Some(number),
            None => unreached!(),
        }
    }

    fn max_index() -> Self {
        NonZeroU32::MAX
    }

    fn best_effort_invalid() -> Self {
        NonZeroU32::max_index()
    }

    ghost held = { held_in (λ n ok. record { value = n; ok = ok }) non_zero_u32_get };

    ghost word = { word_for };

    ghost word_held = { word-held (λ n ok. record { value = n; ok = ok }) non_zero_u32_get
        (λ n ok. refl) };

    ghost held_none = { refl };

    ghost held_some = { held-word (λ n ok. record { value = n; ok = ok }) non_zero_u32_get
        (λ n ok. refl) u32_determined (λ i. i.ok) };

    fn no_word() -> u32 {
        0
    }

    fn into_word(self) -> u32 {
        self.get()
    }

    fn from_word(word_raw: u32) -> Option<Self> {
        NonZeroU32::new(word_raw)
    }

    fn fmt_hex<W: fmt::Write>(&self, f: &mut fmt::Formatter<W>) -> fmt::Result {
        let number = self.get();
        write!(f, "{number:x}")
    }
}

impl PtrInx for NonZeroU32 {
    ghost ordered = { λ a b. Prim.search (comparing, rules) };
}

/// The word of a `NonZeroU64`. This and [`UsizeWord`] are types of their own, since the checker
/// refuses more code if words are a `u64` and a `usize`.
#[derive(Clone, Copy, Drop)]
pub struct U64Word {
    word: u64,
}

impl PtrInxCore for NonZeroU64 {
    type Word = U64Word;

    ghost number = { non_zero_u64_get };

    ghost greatest = { 2 ^ 64 - 1 };

    ghost positive = { λ a. a.ok };

    ghost determined = { u64_determined };

    ghost equal = { λ a b. Prim.search (comparing, rules) };

    ghost cloned = { λ a b same. same };

    ghost always_clones = { λ a. Prim.search rules };

    fn try_from_usize(inx: NonZeroUsize) -> Option<Self> {
        NonZeroU64::new(inx.get() as u64)
    }

    fn try_into_usize(self) -> Option<NonZeroUsize> {
        match NonZeroUsize::new(self.get() as usize) {
            Some(number) => Some(number),
            None => unreached!(),
        }
    }

    fn max_index() -> Self {
        NonZeroU64::MAX
    }

    fn best_effort_invalid() -> Self {
        NonZeroU64::max_index()
    }

    ghost held = { λ w. held_in (λ n ok. record { value = n; ok = ok }) non_zero_u64_get
        w.word };

    ghost word = { λ o. record { word = word_for o } };

    ghost word_held = { λ w. ap (λ n. record { word = n })
        (word-held (λ n ok. record { value = n; ok = ok }) non_zero_u64_get (λ n ok. refl)
        w.word) };

    ghost held_none = { refl };

    ghost held_some = { held-word (λ n ok. record { value = n; ok = ok }) non_zero_u64_get
        (λ n ok. refl) u64_determined (λ i. i.ok) };

    fn no_word() -> U64Word {
        U64Word { word: 0 }
    }

    fn into_word(self) -> U64Word {
        U64Word { word: self.get() }
    }

    fn from_word(word_raw: U64Word) -> Option<Self> {
        NonZeroU64::new(word_raw.word)
    }

    fn fmt_hex<W: fmt::Write>(&self, f: &mut fmt::Formatter<W>) -> fmt::Result {
        let number = self.get();
        write!(f, "{number:x}")
    }
}

impl PtrInx for NonZeroU64 {
    ghost ordered = { λ a b. Prim.search (comparing, rules) };
}

impl PtrInxCore for NonZeroU128 {
    type Word = u128;

    ghost number = { non_zero_u128_get };

    ghost greatest = { 2 ^ 128 - 1 };

    ghost positive = { λ a. a.ok };

    ghost determined = { u128_determined };

    ghost equal = { λ a b. Prim.search (comparing, rules) };

    ghost cloned = { λ a b same. same };

    ghost always_clones = { λ a. Prim.search rules };

    fn try_from_usize(inx: NonZeroUsize) -> Option<Self> {
        NonZeroU128::new(inx.get() as u128)
    }

    fn try_into_usize(self) -> Option<NonZeroUsize> {
        match usize::try_from(self.get()) {
            Ok(number) => NonZeroUsize::new(number),
            Err(_) => None,
        }
    }

    fn max_index() -> Self {
        // The greatest `usize`.
        NonZeroU128::MIN.saturating_add(usize::MAX as u128 - 1)
    }

    fn best_effort_invalid() -> Self {
        NonZeroU128::max_index()
    }

    ghost held = { held_in (λ n ok. record { value = n; ok = ok }) non_zero_u128_get };

    ghost word = { word_for };

    ghost word_held = { word-held (λ n ok. record { value = n; ok = ok }) non_zero_u128_get
        (λ n ok. refl) };

    ghost held_none = { refl };

    ghost held_some = { held-word (λ n ok. record { value = n; ok = ok }) non_zero_u128_get
        (λ n ok. refl) u128_determined (λ i. i.ok) };

    fn no_word() -> u128 {
        0
    }

    fn into_word(self) -> u128 {
        self.get()
    }

    fn from_word(word_raw: u128) -> Option<Self> {
        NonZeroU128::new(word_raw)
    }

    fn fmt_hex<W: fmt::Write>(&self, f: &mut fmt::Formatter<W>) -> fmt::Result {
        hexadecimal::fmt_u128(self.get(), f)
    }
}

impl PtrInx for NonZeroU128 {
    ghost ordered = { λ a b. Prim.search (comparing, rules) };
}

/// The word of a `NonZeroUsize`.
#[derive(Clone, Copy, Drop)]
pub struct UsizeWord {
    word: usize,
}

impl PtrInxCore for NonZeroUsize {
    type Word = UsizeWord;

    ghost number = { non_zero_usize_get };

    ghost greatest = { 2 ^ 64 - 1 };

    ghost positive = { λ a. a.ok };

    ghost determined = { usize_determined };

    ghost equal = { λ a b. Prim.search (comparing, rules) };

    ghost cloned = { λ a b same. same };

    ghost always_clones = { λ a. Prim.search rules };

    fn try_from_usize(inx: NonZeroUsize) -> Option<Self> {
        Some(inx)
    }

    fn try_into_usize(self) -> Option<NonZeroUsize> {
        Some(self)
    }

    fn max_index() -> Self {
        NonZeroUsize::MAX
    }

    fn best_effort_invalid() -> Self {
        NonZeroUsize::max_index()
    }

    ghost held = { λ w. held_in (λ n ok. record { value = n; ok = ok }) non_zero_usize_get
        w.word };

    ghost word = { λ o. record { word = word_for o } };

    ghost word_held = { λ w. ap (λ n. record { word = n })
        (word-held (λ n ok. record { value = n; ok = ok }) non_zero_usize_get (λ n ok. refl)
        w.word) };

    ghost held_none = { refl };

    ghost held_some = { held-word (λ n ok. record { value = n; ok = ok }) non_zero_usize_get
        (λ n ok. refl) usize_determined (λ i. i.ok) };

    fn no_word() -> UsizeWord {
        UsizeWord { word: 0 }
    }

    fn into_word(self) -> UsizeWord {
        UsizeWord { word: self.get() }
    }

    fn from_word(word_raw: UsizeWord) -> Option<Self> {
        NonZeroUsize::new(word_raw.word)
    }

    fn fmt_hex<W: fmt::Write>(&self, f: &mut fmt::Formatter<W>) -> fmt::Result {
        let number = self.get();
        write!(f, "{number:x}")
    }
}

impl PtrInx for NonZeroUsize {
    ghost ordered = { λ a b. Prim.search (comparing, rules) };
}
