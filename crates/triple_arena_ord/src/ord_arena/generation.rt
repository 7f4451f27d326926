//! The counter of an ordered arena.
ghost use Rattle.std.specs.Prelude.{◌≡◌};
ghost use Rattle.triple_arena_ptr.specs.Generation.{next_wraps};
ghost use Rattle.triple_arena_ptr.specs.InvalidationOption.{overflowed};
ghost use Rattle.triple_arena_ord.specs.Ordered.{IsOrdered};
ghost use Rattle.triple_arena_ord.specs.States.{with_counter_in, stepped_in};

use crate::{OrdSlots, SimpleOrdArena};
use triple_arena::{InvalidationOption, PtrCore};

impl<P: PtrCore, T: Drop, S: OrdSlots<P, T>> SimpleOrdArena<P, T, S> {
    /// The counter, which is the generation of the next entry.
    pub fn generation(&self) -> P::Gen
        ensures { P.Gen.number result ≡ self.now.chains.counter }
    {
        self.chains.generation()
    }

    /// Sets the counter. A pointer that ended may be given again if the counter goes back.
    pub fn set_generation(&mut self, generation: P::Gen)
        ensures exact { self.new ≡ with_counter_in self.old (P.Gen.number generation) }
        ensures ordered { IsOrdered self.new }
    {
        self.chains.set_generation(generation);
    }

    /// Steps the counter once, as a removal does, and says whether the generations wrapped.
    pub fn inc_generation(&mut self) -> InvalidationOption<()>
        ensures exact { self.new ≡ stepped_in P.Gen.last self.old }
        ensures overflow { overflowed result ≡ next_wraps P.Gen.last self.old.chains.counter }
        ensures ordered { IsOrdered self.new }
    {
        self.chains.inc_generation()
    }
}
