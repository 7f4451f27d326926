//! Insertions that leave an entry with an equal key as it is.
ghost use Rattle.std.specs.Prelude.{◌≡◌, ◌+◌, ◌≤◌, Some, None};
ghost use Rattle.rank_tree.specs.Comparisons.{most_comparisons};
ghost use Rattle.triple_arena_ord.specs.Inserted.{GetsOrInserts};
ghost use Rattle.triple_arena_ord.specs.Ordered.{size_in, comparisons};

use crate::ord_arena::search::found::found_at;
use crate::{OrdSlots, SimpleOrdArena, SimpleOrdItem};
use triple_arena::PtrCore;
use triple_arena_ptr::{OrdInsertionError, Probes};

impl<P: PtrCore, T: SimpleOrdItem + Drop, S: OrdSlots<P, T>> SimpleOrdArena<P, T, S> {
    /// Makes one search for the key of `t`, as `find_key` does. An entry that is found stays as it
    /// is, and the call returns its pointer, and `t` back. If none is found, `t` goes in where its
    /// key belongs, and the call returns the new pointer and `None`. If there is no room for a new
    /// entry, `NotWithinCapacity` changes nothing, and `t` is dropped.
    pub fn get_or_insert_within_capacity(
        &mut self,
        t: T,
    ) -> Result<(P, Option<T>), OrdInsertionError>
        ensures { GetsOrInserts T.Key.cmp T.key_of P.index P.generation None
            t result self.old self.new }
    {
        let place = self.seek(t.key(), &mut Probes::new());
        match found_at(&self.chains, place) {
            Some(p) => Ok((p, Some(t))),
            None => self.add_at_within_capacity(place, t),
        }
    }

    /// Makes one search for the key of `t`, as `find_key` does. An entry that is found stays as it
    /// is, and the call returns its pointer, and `t` back. If none is found, `t` goes in where its
    /// key belongs, and the call returns the new pointer and `None`. If there is no room for a new
    /// entry, the arena grows, in the steps of `insert_reallocating`; `BeyondMaxCapacity` and
    /// `AllocError` change nothing, and `t` is dropped.
    ///
    /// Each comparison is a tick, and there are as many at most as `find_key_counted` says.
    pub fn get_or_insert_counted(
        &mut self,
        t: T,
        probes: &mut Probes,
    ) -> Result<(P, Option<T>), OrdInsertionError>
        ensures gets { GetsOrInserts T.Key.cmp T.key_of P.index P.generation
            (Some S.takes_memory) t result self.old self.new }
        ensures ticks { probes.new ≡ probes.old
            + comparisons T.Key.cmp T.key_of (T.key_of t) self.old }
        ensures few { probes.new ≤ probes.old + most_comparisons (size_in self.old) }
    {
        let place = self.seek(t.key(), probes);
        match found_at(&self.chains, place) {
            Some(p) => Ok((p, Some(t))),
            None => self.add_at_reallocating(place, t),
        }
    }

    /// Makes one search for the key of `t`, as `find_key` does. An entry that is found stays as it
    /// is, and the call returns its pointer, and `t` back. If none is found, `t` goes in where its
    /// key belongs, and the call returns the new pointer and `None`. If there is no room for a new
    /// entry, the arena grows; `BeyondMaxCapacity` and `AllocError` change nothing, and `t` is
    /// dropped.
    pub fn get_or_insert(&mut self, t: T) -> Result<(P, Option<T>), OrdInsertionError>
        ensures { GetsOrInserts T.Key.cmp T.key_of P.index P.generation
            (Some S.takes_memory) t result self.old self.new }
    {
        self.get_or_insert_counted(t, &mut Probes::new())
    }
}
