//! Canonical renumbering: the entries at the indexes from 1 on, in the order of the list.
ghost use Rattle.std.specs.Prelude.{◌≡◌, ◌≤◌, None};
ghost use Rattle.std.specs.List.{range_with_len};
ghost use Rattle.std.specs.Option.{option_map};
ghost use Rattle.triple_arena_ptr.specs.Index.{max_index_of};
ghost use Rattle.triple_arena_ptr.specs.InvalidationOption.{overflowed};
ghost use Rattle.triple_arena.specs.Compression.{renewal_wraps};
ghost use Rattle.linked_lists.specs.LinkedLists.{first_or, last_or};
ghost use Rattle.triple_arena_ord.specs.Ordered.{IsOrdered};
ghost use Rattle.triple_arena_ord.specs.CanonicalLayout.{IsLaidInOrder};

use crate::rebuild_run::rebuild_run;
use crate::{OrdSlots, SimpleOrdArena};
use proof_marks::recall;
use std::num::NonZeroUsize;
use triple_arena::{ArenaTrait, InvalidationOption, PtrCore, PtrInxCore};

// The first and the last of so many indexes from 1 on.
pub(crate) fn ends_of_run<I: PtrInxCore>(len: usize) -> (Option<I>, Option<I>)
    requires { len ≤ max_index_of I.greatest }
    ensures first { option_map I.number result.0 ≡ first_or (range_with_len 1 len) None }
    ensures last { option_map I.number result.1 ≡ last_or None (range_with_len 1 len) }
{
    match NonZeroUsize::new(len) {
        Some(last) => (
            I::try_from_usize(NonZeroUsize::MIN),
            I::try_from_usize(last),
        ),
        None => (None, None),
    }
}

impl<P: PtrCore, T: Drop, S: OrdSlots<P, T>> SimpleOrdArena<P, T, S> {
    /// Moves the entries to the indexes from 1 on, in the order of the list, and writes the tree
    /// anew. The generations and the answer are as by `compress`. No memory is taken.
    pub fn compress_canonical(&mut self, reset: bool) -> InvalidationOption<()>
        ensures overflow { overflowed result
            ≡ renewal_wraps P.Gen.last reset self.old.chains.counter }
        ensures laid { IsLaidInOrder P.Gen.last reset self.old self.new }
        ensures ordered { IsOrdered self.new }
    {
        let answer = self.chains.compress_canonical(reset);
        // So many indexes are the pointers'.
        recall!(self.chains.capacity());
        let (first, last) = ends_of_run(self.chains.len());
        self.first = first;
        self.last = last;
        self.root = rebuild_run(&mut self.chains);
        answer
    }
}
