//! The counter of a chain arena.
ghost use Rattle.std.specs.Prelude.{◌≡◌};
ghost use Rattle.triple_arena_ptr.specs.Generation.{next_wraps};
ghost use Rattle.triple_arena_ptr.specs.InvalidationOption.{overflowed};
ghost use Rattle.triple_arena.specs.Content.{with_counter, stepped};
ghost use Rattle.triple_arena_chain.specs.Links.{IsChained};

use crate::{ChainArena, ChainSlots};
use triple_arena::{InvalidationOption, PtrCore};

impl<P: PtrCore, T: Drop, S: ChainSlots<P, T>> ChainArena<P, T, S> {
    /// The counter, which is the generation of the next link.
    pub fn generation(&self) -> P::Gen
        ensures { P.Gen.number result ≡ self.now.counter }
    {
        self.arena.generation()
    }

    /// Sets the counter. A pointer that ended may be given again if the counter goes back.
    pub fn set_generation(&mut self, generation: P::Gen)
        ensures value { self.new ≡ with_counter self.old (P.Gen.number generation) }
        ensures formed { IsChained self.new }
    {
        self.arena.set_generation(generation);
    }

    /// Steps the counter once, as a removal does, and says whether the generations wrapped.
    pub fn inc_generation(&mut self) -> InvalidationOption<()>
        ensures exact { self.new ≡ stepped P.Gen.last self.old }
        ensures overflow { overflowed result ≡ next_wraps P.Gen.last self.old.counter }
        ensures formed { IsChained self.new }
    {
        self.arena.inc_generation()
    }
}
