//! What an index, a generation and a pointer are.
ghost use Rattle.std.specs.Prelude.{◌≡◌, ℕ, ◌<◌, ◌≤◌, ◌^◌, ◌==◌, ◌&&◌, ◌↔◌, List, Option, Some};
ghost use Rattle.std.specs.Prelude.{None, IsNone, IfSome, false};
ghost use Rattle.std.specs.Option.{option_map};
ghost use Rattle.std.specs.Ordering.{nat_cmp, on, then_cmp};
ghost use Rattle.std.specs.Fmt.{WritesOnOk};
ghost use Rattle.std.specs.Int.NonZero.{non_zero_usize_get};
ghost use Rattle.triple_arena_ptr.specs.Generation.{IsGeneration, second_generation};
ghost use Rattle.triple_arena_ptr.specs.Generation.{next_generation, next_wraps};
ghost use Rattle.triple_arena_ptr.specs.Hexadecimal.{hexadecimal};
ghost use Rattle.triple_arena_ptr.specs.Index.{max_index_of};
ghost use Rattle.triple_arena_ptr.specs.Pointer.{generation_digits, pointer_text};

use crate::free_mark::FreeMark;
use std::fmt;
use std::fmt::Debug;
use std::hash::Hash;
use std::num::NonZeroUsize;

/// A generation: one of the numbers from 1 to a greatest one, or the one value of `()`, whose
/// number is 1. [`PtrGen`] stands above it, and asks that it is ordered, hashed and shown too.
pub trait PtrGenCore: Copy + PartialEq + Drop {
    ghost number: { Self → ℕ };

    // The greatest generation, or `None` if generations are not counted.
    ghost last: { Option ℕ };

    /// The first generation, 1, to which no step leads if generations are counted.
    fn one() -> Self
        ensures { number result ≡ 1 };

    /// The generation 2, with which an arena's counter starts, or the one value of `()`.
    fn two() -> Self
        ensures { number result ≡ second_generation last };

    /// The generation that follows, and whether it wrapped to 2.
    fn generational_inc(self) -> (Self, bool)
        ensures next { number result.0 ≡ next_generation last (number self) }
        ensures wraps { result.1 ≡ next_wraps last (number self) }
        ensures counted { IsGeneration last (number self) };

    /// Writes the generation in lower-case hexadecimal digits without a prefix, or nothing if
    /// generations are not counted.
    fn fmt_hex<W: fmt::Write>(&self, f: &mut fmt::Formatter<W>) -> fmt::Result
        ensures { WritesOnOk W.write_str_gives f.old result
            (generation_digits last (number self.now)) f.new };

    /// Whether the generation is the mark of a free slot: it never is. Generations of 32 bits
    /// compare their bits, which lie where the mark does; no other type needs to write this.
    fn is_free_mark(self, _mark: FreeMark) -> bool
        ensures { result ≡ false }
    {
        false
    }

    // If generations are counted, they count to 2 at least.
    ghost counts_to_two: { (g : ℕ) → last ≡ Some g → 2 ≤ g };

    ghost positive: { (a : Self) → 0 < number a };

    // The number determines the generation.
    ghost determined: { (a b : Self) → number a ≡ number b → a ≡ b };

    ghost equal: { (a b : Self) → Self.eq a b ≡ (number a == number b) };

    // A clone is the generation itself, and is always made.
    ghost cloned: { (a b : Self) → Self.is_clone a b → b ≡ a };

    ghost always_clones: { (a : Self) → Self.is_infallible a };
}

/// An index, from 1 to a greatest one. [`PtrInx`] stands above it, and asks that it is ordered,
/// hashed and shown too.
pub trait PtrInxCore: Copy + PartialEq + Drop {
    /// A word as wide as the index, which holds an index or none: [`crate::OptionalInx`].
    type Word: Copy + Drop;

    ghost number: { Self → ℕ };

    // The greatest index of the type.
    ghost greatest: { ℕ };

    /// The index with this number, or `None` if it is past `max_index`.
    fn try_from_usize(inx: NonZeroUsize) -> Option<Self>
        ensures past { IsNone result ↔ (greatest < non_zero_usize_get inx) }
        ensures same { IfSome result (λ x. number x ≡ non_zero_usize_get inx) };

    /// The number of the index, or `None` if it is past `max_index`.
    fn try_into_usize(self) -> Option<NonZeroUsize>
        ensures past { IsNone result ↔ (2 ^ 64 ≤ number self) }
        ensures same { IfSome result (λ n. non_zero_usize_get n ≡ number self) }
        ensures bounded { number self ≤ greatest };

    /// The greatest index that is a `usize` too.
    fn max_index() -> Self
        ensures { number result ≡ max_index_of greatest };

    /// The index that an arena is least likely to hold: `max_index`.
    fn best_effort_invalid() -> Self
        ensures { number result ≡ max_index_of greatest };

    // What a word holds.
    ghost held: { Self.Word → Option Self };

    // The word that holds the index with this number, or none.
    ghost word: { Option ℕ → Self.Word };

    /// The word that holds no index.
    fn no_word() -> Self::Word
        ensures { result ≡ word None };

    /// The word that holds the index.
    fn into_word(self) -> Self::Word
        ensures { result ≡ word (Some (number self)) };

    /// The index that the word holds, or `None` if it holds none.
    fn from_word(word_raw: Self::Word) -> Option<Self>
        ensures { result ≡ held word_raw };

    // Each word holds one thing, and each thing has its word.
    ghost word_held: { (w : Self.Word) → word (option_map number (held w)) ≡ w };

    ghost held_none: { held (word None) ≡ None };

    ghost held_some: { (i : Self) → held (word (Some (number i))) ≡ Some i };

    /// Writes the index in lower-case hexadecimal digits without a prefix.
    fn fmt_hex<W: fmt::Write>(&self, f: &mut fmt::Formatter<W>) -> fmt::Result
        ensures { WritesOnOk W.write_str_gives f.old result (hexadecimal (number self.now)) f.new };

    ghost positive: { (a : Self) → 0 < number a };

    // The number determines the index.
    ghost determined: { (a b : Self) → number a ≡ number b → a ≡ b };

    ghost equal: { (a b : Self) → Self.eq a b ≡ (number a == number b) };

    // A clone is the index itself, and is always made.
    ghost cloned: { (a b : Self) → Self.is_clone a b → b ≡ a };

    ghost always_clones: { (a : Self) → Self.is_infallible a };
}

/// What an arena asks of a pointer: an index and a generation. [`Ptr`] stands above it, and asks
/// that it is ordered, hashed and shown too. The arenas ask no more than this, since each bound is
/// a cost to the proof of each generic function.
pub trait PtrCore: Copy + Drop {
    /// The type of the index.
    type Inx: PtrInxCore;

    /// The type of the generation.
    type Gen: PtrGenCore;

    ghost index: { Self → ℕ };

    ghost generation: { Self → ℕ };

    ghost name: { List ℕ };

    /// The type's name, as it stands before the index in a pointer's text.
    fn name() -> &'static str
        ensures { result.now ≡ name };

    /// The index `best_effort_invalid` and the generation `one`, to which no step of an arena's
    /// counter leads if generations are counted.
    fn invalid() -> Self
        ensures has_index { index result ≡ max_index_of Self.Inx.greatest }
        ensures has_generation { generation result ≡ 1 };

    /// The index.
    fn inx(self) -> Self::Inx
        ensures { Self.Inx.number result ≡ index self };

    /// The generation.
    fn generation(self) -> Self::Gen
        ensures { Self.Gen.number result ≡ generation self };

    /// The pointer with this index and generation. An arena need not hold it.
    fn _from_raw(inx: Self::Inx, gen_raw: Self::Gen) -> Self
        ensures has_index { index result ≡ Self.Inx.number inx }
        ensures has_generation { generation result ≡ Self.Gen.number gen_raw };

    ghost index_positive: { (p : Self) → 0 < index p };

    ghost generation_positive: { (p : Self) → 0 < generation p };

    // The index and the generation determine the pointer.
    ghost determined: { (p q : Self) → index p ≡ index q → generation p ≡ generation q → p ≡ q };

    // A clone is the pointer itself, and is always made.
    ghost cloned: { (p q : Self) → Self.is_clone p q → q ≡ p };

    ghost always_clones: { (p : Self) → Self.is_infallible p };
}

/// A generation that is ordered, hashed and shown as its number.
pub trait PtrGen: PtrGenCore + Debug + Hash + Ord {
    ghost ordered: { (a b : Self) → Self.cmp a b ≡ nat_cmp (Self.number a) (Self.number b) };
}

/// An index that is ordered, hashed and shown as its number.
pub trait PtrInx: PtrInxCore + Debug + Hash + Ord {
    ghost ordered: { (a b : Self) → Self.cmp a b ≡ nat_cmp (Self.number a) (Self.number b) };
}

/// A pointer into an arena: an index and a generation. It is ordered, hashed and shown by these.
pub trait Ptr: PtrCore<Inx: PtrInx, Gen: PtrGen> + Debug + Hash + Ord {
    // By index, and then by generation.
    ghost ordered: { (p q : Self)
        → Self.cmp p q ≡ then_cmp (on Self.index nat_cmp) (on Self.generation nat_cmp) p q };

    ghost equal: { (p q : Self)
        → Self.eq p q ≡ ((Self.index p == Self.index q) &&
        (Self.generation p == Self.generation q)) };

    // What `{:?}` writes.
    ghost shown: { (p : Self)
        → Self.debug_output p
        ≡ Some (pointer_text Self.name Self.Gen.last (Self.index p) (Self.generation p)) };
}
