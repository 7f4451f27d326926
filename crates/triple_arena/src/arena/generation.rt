//! The counter of an arena.
ghost use Rattle.std.specs.Prelude.{◌≡◌, IsTrue};
ghost use Rattle.triple_arena_ptr.specs.Generation.{next_wraps};
ghost use Rattle.triple_arena_ptr.specs.InvalidationOption.{overflowed};
ghost use Rattle.triple_arena.specs.Changes.{IsStepped};
ghost use Rattle.triple_arena.specs.Content.{entry_at, live_count, some_counter, with_counter};
ghost use Rattle.triple_arena.specs.Content.{stepped, IsWellFormed};

use crate::ArenaSlots;
use crate::answers::answer;
use crate::arena::Arena;
use triple_arena_ptr::{InvalidationOption, PtrCore, PtrGenCore};

impl<P: PtrCore, T: Drop, S: ArenaSlots<P, T>> Arena<P, T, S> {
    /// The counter, which is the generation of the next entry.
    pub fn generation(&self) -> P::Gen
        ensures { P.Gen.number result ≡ self.now.counter }
    {
        self.counter
    }

    /// Sets the counter. A pointer that ended may be given again if the counter goes back.
    pub fn set_generation(&mut self, generation: P::Gen)
        ensures value { self.new ≡ with_counter self.old (P.Gen.number generation) }
        ensures formed { IsWellFormed self.new }
    {
        self.counter = generation;
        // The arena is well-formed after.
        self.recall_formed();
    }

    /// Steps the counter once, as a removal does, and says whether the generations wrapped.
    pub fn inc_generation(&mut self) -> InvalidationOption<()>
        ensures stepped { IsStepped entry_at live_count some_counter (λ c. c.room) P.Gen.last
            self.old self.new }
        ensures exact { self.new ≡ stepped P.Gen.last self.old }
        ensures overflow { overflowed result ≡ next_wraps P.Gen.last self.old.counter }
        ensures formed { IsWellFormed self.new }
    {
        let wrapped = self.step();
        // The arena is well-formed after.
        self.recall_formed();
        answer(wrapped, ())
    }

    // Steps the counter, and says whether the generations wrapped.
    pub(crate) fn step(&mut self) -> bool
        ensures value { self.new ≡ stepped P.Gen.last self.old }
        ensures wraps { result ≡ next_wraps P.Gen.last self.old.counter }
    {
        let (counter, wrapped) = self.counter.generational_inc();
        if wrapped {
            self.restart();
        } else {
            self.counter = counter;
        }
        wrapped
    }

    // The counter wraps, which few steps do: a branch to this is foreseen, where a choice of the
    // next number would wait for the last one.
    #[cold]
    #[inline(never)]
    fn restart(&mut self)
        requires { IsTrue (next_wraps P.Gen.last self.old.counter) }
        ensures { self.new ≡ stepped P.Gen.last self.old }
    {
        self.counter = P::Gen::two();
    }
}
