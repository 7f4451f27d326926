//! An optional index in one word.
ghost use Rattle.std.specs.Prelude.{◌≡◌, ℕ, Option, Some, None, is_none, ⊤};
ghost use Rattle.std.specs.Option.{option_map};
ghost use Rattle.std.specs.Cmp.Rules.{comparing};
ghost use Rattle.std.proofs.Common.{rules};
ghost use Rattle.triple_arena_ptr.specs.OptionLaws.{options_agree, options_fed, options_per};
ghost use Rattle.triple_arena_ptr.specs.OptionLaws.{options_po, options_tied, per_by, po_by};
ghost use Rattle.triple_arena_ptr.specs.OptionLaws.{total_by};

use crate::ptr::PtrInxCore;
use std::alloc::AllocError;
use std::cmp::Ordering;
use std::fmt;
use std::hash::{Hash, Hasher};
use std::marker::{Model, PhantomData};

/// An optional index in one word, as wide as the index. An `Option<I>` takes two.
///
/// Contracts see its number, if there is one.
pub struct OptionalInx<I: PtrInxCore<Word = W>, W: Copy> {
    word: W,
    kind: PhantomData<I>,
}

impl<I: PtrInxCore<Word = W>, W: Copy> Model for OptionalInx<I, W> {
    ghost use Rattle.std.proofs.Common.{ap};
    ghost use Rattle.std.specs.Prelude.{ℕ, Option};
    ghost use Rattle.std.specs.Option.{option_map};

    ghost Value = { Option ℕ };

    ghost view = { λ o. option_map I.number (I.held o.word) };

    ghost inverse = { λ i. record { word = I.word i; kind = record {} } };

    ghost inverse_ok = { λ o h. ap (λ w. record { word = w; kind = record {} })
        (I.word_held o.word) };
}

impl<I: PtrInxCore<Word = W>, W: Copy> OptionalInx<I, W> {
    /// No index.
    #[inline(always)]
    pub fn none() -> Self
        ensures { result ≡ None }
    {
        OptionalInx {
            word: I::no_word(),
            kind: PhantomData,
        }
    }

    /// An optional index that is `i`.
    #[inline(always)]
    pub fn some(i: I) -> Self
        ensures { result ≡ Some (I.number i) }
    {
        OptionalInx {
            word: i.into_word(),
            kind: PhantomData,
        }
    }

    /// The optional index that the `Option` is.
    #[inline(always)]
    pub fn of(i: Option<I>) -> Self
        ensures { result ≡ option_map I.number i }
    {
        match i {
            Some(i) => OptionalInx::some(i),
            None => OptionalInx::none(),
        }
    }

    /// The index as an `Option`: `None` if there is no index.
    #[inline(always)]
    pub fn get(self) -> Option<I>
        ensures { option_map I.number result ≡ self }
    {
        I::from_word(self.word)
    }

    /// Whether there is none.
    #[inline(always)]
    pub fn is_none(self) -> bool
        ensures { result ≡ is_none self }
    {
        match self.get() {
            Some(_) => false,
            None => true,
        }
    }
}

// A clone is the value itself, and is always made.
impl<I: PtrInxCore<Word = W>, W: Copy> Clone for OptionalInx<I, W> {
    ghost is_clone = { λ x y. y ≡ x };

    ghost is_infallible = { λ _. ⊤ };

    fn clone(&self) -> Result<Self, AllocError> {
        Ok(*self)
    }
}

impl<I: PtrInxCore<Word = W>, W: Copy> Copy for OptionalInx<I, W> {}

impl<I: PtrInxCore<Word = W>, W: Copy> PartialEq for OptionalInx<I, W> {
    ghost eq = { λ x y. ⟦<Option<I> as PartialEq>⟧.eq (I.held (I.word x)) (I.held (I.word y)) };

    ghost laws = { per_by ⟦<Option<I> as PartialEq>⟧.eq (λ (o : Option ℕ). I.held (I.word o))
        (Prim.search (options_per, rules)) };

    fn eq(&self, other: &Self) -> bool {
        self.get() == other.get()
    }
}

impl<I: PtrInxCore<Word = W> + Eq, W: Copy> Eq for OptionalInx<I, W> {
    ghost laws = { Prim.search (comparing, rules) };
}

// `None` is less than each index.
impl<I: PtrInxCore<Word = W> + PartialOrd, W: Copy> PartialOrd for OptionalInx<I, W> {
    ghost partial_cmp = { λ x y. ⟦<Option<I> as PartialOrd>⟧.partial_cmp (I.held (I.word x))
        (I.held (I.word y)) };

    ghost laws = { po_by ⟦<Option<I> as PartialEq>⟧.eq ⟦<Option<I> as PartialOrd>⟧.partial_cmp
        (λ (o : Option ℕ). I.held (I.word o)) (Prim.search (options_po, rules)) };

    fn partial_cmp(&self, other: &Self) -> Option<Ordering> {
        self.get().partial_cmp(&other.get())
    }
}

impl<I: PtrInxCore<Word = W> + Ord, W: Copy> Ord for OptionalInx<I, W> {
    ghost cmp = { λ x y. ⟦<Option<I> as Ord>⟧.cmp (I.held (I.word x)) (I.held (I.word y)) };

    ghost total = { total_by ⟦<Option<I> as Ord>⟧.cmp (λ (o : Option ℕ). I.held (I.word o))
        (Prim.search (comparing, rules)) };

    ghost matches_partial_cmp = { Prim.search (options_agree, rules) };

    ghost matches_eq = { Prim.search (options_tied, rules) };

    fn cmp(&self, other: &Self) -> Ordering {
        self.get().cmp(&other.get())
    }
}

impl<I: PtrInxCore<Word = W> + Hash, W: Copy> Hash for OptionalInx<I, W> {
    ghost hash_input = { λ x. ⟦<Option<I> as Hash>⟧.hash_input (I.held (I.word x)) };

    ghost respects_eq = { Prim.search (options_fed, rules) };

    fn hash<H: Hasher>(&self, state: &mut H) {
        self.get().hash(state);
    }
}

/// The text is that of the `Option` that the index is.
impl<I: PtrInxCore<Word = W> + fmt::Debug, W: Copy> fmt::Debug for OptionalInx<I, W> {
    ghost debug_output = { λ x. ⟦<Option<I> as fmt::Debug>⟧.debug_output (I.held (I.word x)) };

    fn fmt<V: fmt::Write>(&self, f: &mut fmt::Formatter<V>) -> fmt::Result {
        fmt::Debug::fmt(&self.get(), f)
    }
}
