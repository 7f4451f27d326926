//! The pointer type: an index and a generation, of a kind.
ghost use Rattle.std.specs.Prelude.{◌≡◌, List, ℕ, [], ◌∷◌, Some, refl};
ghost use Rattle.std.specs.Cmp.Rules.{comparing};
ghost use Rattle.std.proofs.Common.{rules};
ghost use Rattle.triple_arena_ptr.specs.Index.{max_index_of};
ghost use Rattle.triple_arena_ptr.specs.Pointer.{pointer_text};
ghost use Rattle.triple_arena_ptr.specs.Recast.{renamed_item};
ghost use Rattle.triple_arena_ptr.specs.RecastLaws.{renamed-one};

use crate::pointer_text::fmt_pointer;
use crate::ptr::{Ptr, PtrCore, PtrGen, PtrGenCore, PtrInx, PtrInxCore};
use crate::recast::{Recast, Recaster};
use std::fmt;
use std::hash::Hash;
use std::marker::PhantomData;

/// What tells pointer types apart that have the same index and the same generation: an empty type,
/// with the name that stands before the index in a pointer's text. Its values are never made.
pub trait PtrKind: Copy + Drop {
    ghost name: { List ℕ };

    /// The name of the pointer type.
    fn name() -> &'static str
        ensures { result.now ≡ name };
}

/// A pointer with an index `I` and a generation `G`. What asks for a pointer of one kind takes none
/// of another.
#[derive(Clone, Copy, PartialEq, Eq, PartialOrd, Ord, Hash)]
pub struct Pointer<I: PtrInxCore, G: PtrGenCore, K: PtrKind> {
    inx: I,
    generation: G,
    kind: PhantomData<K>,
}

impl<I: PtrInxCore, G: PtrGenCore, K: PtrKind> PtrCore for Pointer<I, G, K> {
    type Inx = I;

    type Gen = G;

    ghost index = { λ p. I.number p.inx };

    ghost generation = { λ p. G.number p.generation };

    ghost name = { K.name };

    ghost index_positive = { λ p. I.positive p.inx };

    ghost generation_positive = { λ p. G.positive p.generation };

    ghost determined = { λ p q e g i. record {
      inx = I.determined p.inx q.inx e i;
      generation = G.determined p.generation q.generation g i;
      kind = p.kind;
    } };

    ghost cloned = { λ p q c i. record {
      inx = I.cloned p.inx q.inx c.0 i;
      generation = G.cloned p.generation q.generation c.1.0 i;
      kind = c.1.1 i;
    } };

    ghost always_clones = { λ p. (I.always_clones p.inx, (G.always_clones p.generation, tt)) };

    fn name() -> &'static str {
        K::name()
    }

    fn invalid() -> Self {
        Self::_from_raw(PtrInxCore::best_effort_invalid(), PtrGenCore::one())
    }

    fn inx(self) -> I {
        self.inx
    }

    fn generation(self) -> G {
        self.generation
    }

    fn _from_raw(inx: I, gen_raw: G) -> Self {
        Pointer {
            inx,
            generation: gen_raw,
            kind: PhantomData,
        }
    }
}

impl<I: PtrInx, G: PtrGen, K: PtrKind + Hash + Ord> Ptr for Pointer<I, G, K> {
    ghost ordered = { λ p q. Prim.search (comparing, rules) };

    ghost equal = { λ p q. Prim.search (comparing, rules) };

    ghost shown = { λ p. refl };
}

impl<I: PtrInxCore, G: PtrGenCore, K: PtrKind> Default for Pointer<I, G, K> {
    ghost is_default = { λ p. (I.number p.inx ≡ max_index_of I.greatest)
        × (G.number p.generation ≡ 1) };

    fn default() -> Self {
        Self::invalid()
    }
}

impl<I: PtrInxCore, G: PtrGenCore, K: PtrKind> fmt::Debug for Pointer<I, G, K> {
    ghost debug_output = { λ p. Some
        (pointer_text K.name G.last (I.number p.inx) (G.number p.generation)) };

    fn fmt<W: fmt::Write>(&self, f: &mut fmt::Formatter<W>) -> fmt::Result {
        fmt_pointer(K::name(), self.inx, self.generation, f)
    }
}

impl<I: PtrInxCore, G: PtrGenCore, K: PtrKind> fmt::Display for Pointer<I, G, K> {
    ghost output = { ⟦<Pointer<I, G, K> as fmt::Debug>⟧.debug_output };

    fn fmt<W: fmt::Write>(&self, f: &mut fmt::Formatter<W>) -> fmt::Result {
        fmt::Debug::fmt(self, f)
    }
}

impl<I: PtrInxCore, G: PtrGenCore, K: PtrKind> Recast<Pointer<I, G, K>> for Pointer<I, G, K> {
    ghost items = { λ p. p ∷ [] };

    ghost recasted = { λ f p. renamed_item (f p) p };

    ghost items_recasted = { λ f p. renamed-one f p };

    fn recast<R: Recaster<Item = Pointer<I, G, K>>>(
        &mut self,
        recaster: &R,
    ) -> Result<(), Pointer<I, G, K>> {
        recaster.recast_item(self)
    }
}
