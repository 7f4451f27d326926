//! Reading and writing by `arena[p]`.
ghost use Rattle.std.specs.Prelude.{◌≡◌, Some, IsSome};
ghost use Rattle.triple_arena.specs.Entries.{value_if};
ghost use Rattle.triple_arena_ord.specs.Ordered.{entry_in};

use crate::{OrdSlots, SimpleOrdArena};
use proof_marks::unreached;
use std::ops::{Index, IndexMut};
use triple_arena::{ArenaTrait, PtrCore};

impl<P: PtrCore, T: Drop, S: OrdSlots<P, T>> Index<P> for SimpleOrdArena<P, T, S> {
    type Output = T;

    ghost can_index = { λ o p. IsSome (value_if (P.generation p) (entry_in o (P.index p))) };

    ghost index_gives = { λ o p item. value_if (P.generation p) (entry_in o (P.index p))
        ≡ Some item };

    fn index(&self, p: P) -> &T {
        match self.get(p) {
            Some(item) => item,
            None => unreached!(),
        }
    }
}

impl<P: PtrCore, T: Drop, S: OrdSlots<P, T>> IndexMut<P> for SimpleOrdArena<P, T, S> {
    ghost use Rattle.std.specs.Prelude.{◌≡◌, Some, IsSome};
    ghost use Rattle.std.specs.Borrow.{sem, Lends};
    ghost use Rattle.triple_arena.specs.Entries.{value_if};
    ghost use Rattle.triple_arena_ord.specs.Ordered.{entry_in};
    ghost use Rattle.triple_arena_ord.specs.States.{with_item};
    ghost use Rattle.triple_arena_ord.specs.contracts.ord_arena.SimpleOrdArena.{the_row};

    fn index_mut(&mut self, p: P) -> &mut T
        requires { IsSome (value_if (P.generation p) (entry_in self.old (P.index p))) }
        ensures* writes_back { sem 𝓛 (Lends
            (the_row P.row T.row S.row P.Inx.row P.Gen.row P.Inx.Word.row S.Alloc.row
            P.PtrCore P.Inx.PtrInxCore.own P.Inx.PartialEq P.Gen.PtrGenCore.own P.Gen.PartialEq
            S.NonZeroInxGenericStack) T.row self.entry result
            (with_item self.old (P.index p))) }
        ensures value { value_if (P.generation p) (entry_in self.old (P.index p))
            ≡ Some result.now }
    {
        if !self.contains(p) {
            unreached!();
        }
        self.get_inx_mut_unwrap(p.inx())
    }
}
