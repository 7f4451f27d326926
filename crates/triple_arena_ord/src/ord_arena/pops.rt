//! Removals at the ends of the list.
ghost use Rattle.std.specs.Prelude.{IsSome};
ghost use Rattle.triple_arena_ord.specs.Node.{nodes_in};
ghost use Rattle.triple_arena_ord.specs.OrderedDrains.{IsItemTaken, TakesFirst, TakesLast};

use crate::ord_arena::removal::neighbors;
use crate::{OrdSlots, SimpleOrdArena};
use triple_arena::{InvalidationOption, PtrCore};

impl<P: PtrCore, T: Drop, S: OrdSlots<P, T>> SimpleOrdArena<P, T, S> {
    // The entry at a live index leaves, and is given with the pointer to it.
    fn take_live(&mut self, i: P::Inx) -> InvalidationOption<(P, T)>
        requires { IsSome (nodes_in self.old.chains (P.Inx.number i)) }
        ensures { IsItemTaken P.Gen.last P.index P.generation (P.Inx.number i) result self.old
            self.new }
    {
        let (prev, next) = neighbors(&self.chains, i);
        let ((generation, t), wrapped) = self.remove_live(i, prev, next);
        let item = (P::_from_raw(i, generation), t);
        if wrapped {
            InvalidationOption::GenerationOverflow(item)
        } else {
            InvalidationOption::Success(item)
        }
    }

    /// Removes the first entry of the list, which has the least key if the keys ascend, and returns
    /// it with its pointer; `None` if there is no entry. It makes no search and compares no key.
    /// Like each removal it steps the counter, and `GenerationOverflow` says that the generations
    /// wrapped.
    pub fn pop_first(&mut self) -> Option<InvalidationOption<(P, T)>>
        ensures { TakesFirst P.Gen.last P.index P.generation result self.old self.new }
    {
        let i = self.first_index()?;
        Some(self.take_live(i))
    }

    /// Removes the last entry of the list, which has the greatest key if the keys ascend, and
    /// returns it with its pointer; `None` if there is no entry. It makes no search and compares no
    /// key. Like each removal it steps the counter, and `GenerationOverflow` says that the
    /// generations wrapped.
    pub fn pop_last(&mut self) -> Option<InvalidationOption<(P, T)>>
        ensures { TakesLast P.Gen.last P.index P.generation result self.old self.new }
    {
        let i = self.last_index()?;
        Some(self.take_live(i))
    }
}
