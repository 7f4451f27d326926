//! Reading and writing by `arena[p]`.
ghost use Rattle.std.specs.Prelude.{◌≡◌, Some, IsSome};
ghost use Rattle.std.specs.Borrow.{sem, Lends};
ghost use Rattle.triple_arena.specs.DirectContent.{get, with_value as with_value_of};

use crate::{ArenaTrait, DirectArena, DirectSlots};
use proof_marks::unreached;
use std::ops::{Index, IndexMut};
use triple_arena_ptr::PtrCore;

impl<P: PtrCore, T: Drop, S: DirectSlots<P, T>> Index<P> for DirectArena<P, T, S> {
    type Output = T;

    ghost can_index = { λ d p. IsSome (get d (P.index p) (P.generation p)) };

    ghost index_gives = { λ d p value. get d (P.index p) (P.generation p) ≡ Some value };

    fn index(&self, p: P) -> &T {
        match self.get(p) {
            Some(value) => value,
            None => unreached!(),
        }
    }
}

impl<P: PtrCore, T: Drop, S: DirectSlots<P, T>> IndexMut<P> for DirectArena<P, T, S> {
    ghost use Rattle.std.specs.Prelude.{◌≡◌, Some, IsSome};
    ghost use Rattle.std.specs.Borrow.{sem, Lends};
    ghost use Rattle.triple_arena.specs.DirectContent.{get, with_value as with_value_of};
    ghost use Rattle.triple_arena.specs.contracts.direct.DirectArena.{the_row};

    fn index_mut(&mut self, p: P) -> &mut T
        requires { IsSome (get self.old (P.index p) (P.generation p)) }
        ensures* writes_back { sem 𝓛 (Lends
            (the_row P.row T.row S.row P.Inx.row P.Gen.row P.Inx.Word.row S.Alloc.row
            P.PtrCore P.Inx.PtrInxCore.own P.Inx.PartialEq P.Gen.PtrGenCore.own P.Gen.PartialEq
            S.NonZeroInxGenericStack) T.row self.entry result
            (with_value_of self.old (P.index p))) }
        ensures value { get self.old (P.index p) (P.generation p) ≡ Some result.now }
    {
        if !self.contains(p) {
            unreached!();
        }
        self.get_inx_mut_unwrap(p.inx())
    }
}
