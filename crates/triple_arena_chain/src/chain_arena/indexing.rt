//! Reading and writing by `chains[p]`.
ghost use Rattle.std.specs.Prelude.{◌≡◌, Some, IsSome};
ghost use Rattle.triple_arena.specs.Entries.{value_if};
ghost use Rattle.triple_arena_chain.specs.Links.{values_in};

use crate::{ChainArena, ChainSlots};
use proof_marks::unreached;
use std::ops::{Index, IndexMut};
use triple_arena::{ArenaTrait, PtrCore};

impl<P: PtrCore, T: Drop, S: ChainSlots<P, T>> Index<P> for ChainArena<P, T, S> {
    type Output = T;

    ghost can_index = { λ c p. IsSome (value_if (P.generation p) (values_in c (P.index p))) };

    ghost index_gives = { λ c p value. value_if (P.generation p) (values_in c (P.index p))
        ≡ Some value };

    fn index(&self, p: P) -> &T {
        match self.get(p) {
            Some(value) => value,
            None => unreached!(),
        }
    }
}

impl<P: PtrCore, T: Drop, S: ChainSlots<P, T>> IndexMut<P> for ChainArena<P, T, S> {
    ghost use Rattle.std.specs.Prelude.{◌≡◌, Some, IsSome};
    ghost use Rattle.std.specs.Borrow.{sem, Lends};
    ghost use Rattle.triple_arena.specs.Entries.{value_if};
    ghost use Rattle.triple_arena_chain.specs.Links.{values_in, with_value_in};
    ghost use Rattle.triple_arena_chain.specs.contracts.chain_arena.ChainArena.{the_row};

    fn index_mut(&mut self, p: P) -> &mut T
        requires { IsSome (value_if (P.generation p) (values_in self.old (P.index p))) }
        ensures* writes_back { sem 𝓛 (Lends
            (the_row P.row T.row S.row P.Inx.row P.Gen.row P.Inx.Word.row S.Alloc.row
            P.PtrCore P.Inx.PtrInxCore.own P.Inx.PartialEq P.Gen.PtrGenCore.own P.Gen.PartialEq
            S.NonZeroInxGenericStack) T.row self.entry result
            (with_value_in self.old (P.index p))) }
        ensures value { value_if (P.generation p) (values_in self.old (P.index p))
            ≡ Some result.now }
    {
        if !self.contains(p) {
            unreached!();
        }
        self.get_inx_mut_unwrap(p.inx())
    }
}
