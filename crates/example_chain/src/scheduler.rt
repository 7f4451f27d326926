//! Tasks in an arena, named by pointers.
ghost use Rattle.std.specs.Prelude.{◌≡◌, ◌≢◌, ◌⊎◌, ◌+◌, ◌-◌, ◌^◌, ◌<◌, ◌≤◌, ◌↔◌, ℕ, Some, None};
ghost use Rattle.std.specs.Prelude.{false, IsOk, IsTrue, IsSome, IfOk, IfNone, OnErr};
ghost use Rattle.std.specs.Prelude.{option_copied, option_map};
ghost use Rattle.triple_arena_ptr.specs.Errors.{IsBeyondMaxCapacity};
ghost use Rattle.triple_arena.specs.Content.{live_count, arena_capacity};
ghost use Rattle.example_chain.specs.Scheduler.{HasEnded, endings_left, task_at};

use std::alloc::Global;
use std::marker::Model;
use triple_arena::{ArenaInsertTrait, ArenaTrait, HeapArena, P0, PtrCore, ReallocationError};

/// A task, with the steps that it has left.
#[derive(Drop)]
pub struct Task {
    pub left: u64,
}

/// Tasks, each named by the pointer that `spawn` gave.
///
/// A pointer finds its own task until that is cancelled, and then nothing: no later task gets it,
/// though one may get its slot.
#[derive(Drop)]
pub struct Scheduler {
    tasks: HeapArena<P0, Task, Global>,
    // Every generation was given, so that no pointer is left for a further task.
    is_spent: bool,
}

impl Model for Scheduler {
    ghost use Rattle.example_chain.specs.Scheduler.{IsSound, State};

    ghost Value = { State };

    ghost view = { λ s. record { tasks = s.tasks; is_spent = s.is_spent } };

    ghost invariant = { λ s. IsSound (record { tasks = s.tasks; is_spent = s.is_spent }) };
}

impl Scheduler {
    /// A scheduler without a task. It takes no memory.
    pub fn new(alloc: Global) -> Self
        ensures empty { (index generation : ℕ) → task_at result index generation ≡ None }
        ensures lasts { endings_left result ≡ 2 ^ 64 - 2 }
        ensures room { result.tasks.room.reserved ≡ 0 }
    {
        Scheduler {
            tasks: HeapArena::<P0, Task, Global>::new(alloc),
            is_spent: false,
        }
    }

    /// Takes in a task, and gives the pointer that finds it from now on, which found none before.
    ///
    /// It returns `AllocError` if the memory was refused, and `BeyondMaxCapacity` if no pointer is
    /// left to give. Then nothing changes.
    pub fn spawn(&mut self, task: Task) -> Result<P0, ReallocationError>
        ensures vacant { IfOk result (λ p. task_at self.old (⟦<P0 as PtrCore>⟧.index p)
            (⟦<P0 as PtrCore>⟧.generation p) ≡ None) }
        ensures stored { IfOk result (λ p. task_at self.new (⟦<P0 as PtrCore>⟧.index p)
            (⟦<P0 as PtrCore>⟧.generation p) ≡ Some task) }
        ensures others { IfOk result (λ p. (index generation : ℕ)
            → (index ≢ ⟦<P0 as PtrCore>⟧.index p) ⊎ (generation ≢ ⟦<P0 as PtrCore>⟧.generation p)
            → task_at self.new index generation ≡ task_at self.old index generation) }
        ensures ended { (index generation : ℕ) → HasEnded self.old index generation
            → HasEnded self.new index generation }
        ensures succeeds { 0 < endings_left self.old
            → live_count self.old.tasks < arena_capacity self.old.tasks → IsOk result }
        ensures lasts { endings_left self.new ≡ endings_left self.old }
        ensures beyond { IsBeyondMaxCapacity result ↔ IsTrue self.old.is_spent }
        ensures err { OnErr result (self.new ≡ self.old) }
    {
        if self.is_spent {
            return Err(ReallocationError::BeyondMaxCapacity);
        }
        self.tasks.insert(task)
    }

    /// The task that `p` names; none once it was cancelled, whatever happened since.
    pub fn get(&self, p: P0) -> Option<&Task>
        ensures found { option_copied result ≡ task_at self.now (⟦<P0 as PtrCore>⟧.index p)
            (⟦<P0 as PtrCore>⟧.generation p) }
        ensures ended { HasEnded self.now (⟦<P0 as PtrCore>⟧.index p)
            (⟦<P0 as PtrCore>⟧.generation p)
            → result ≡ None }
    {
        self.tasks.get(p)
    }

    /// Ends the task that `p` names, and gives it back.
    pub fn cancel(&mut self, p: P0) -> Option<Task>
        ensures task { result ≡ task_at self.old (⟦<P0 as PtrCore>⟧.index p)
            (⟦<P0 as PtrCore>⟧.generation p) }
        ensures ends { IsSome result → HasEnded self.new (⟦<P0 as PtrCore>⟧.index p)
            (⟦<P0 as PtrCore>⟧.generation p) }
        ensures ended { (index generation : ℕ) → HasEnded self.old index generation
            → HasEnded self.new index generation }
        ensures others { (index generation : ℕ)
            → (index ≢ ⟦<P0 as PtrCore>⟧.index p) ⊎ (generation ≢ ⟦<P0 as PtrCore>⟧.generation p)
            → task_at self.new index generation ≡ task_at self.old index generation }
        ensures lasts { endings_left self.old ≤ endings_left self.new + 1 }
        ensures room { self.new.tasks.room ≡ self.old.tasks.room }
        ensures none { IfNone result (self.new ≡ self.old) }
    {
        let removed = self.tasks.remove(p);
        if removed.is_overflow() {
            self.is_spent = true;
        }
        removed.allow()
    }

    /// Does a step of the task that `p` names, and says whether there is one.
    #[tactic(auto, using(triple_arena::specs::ContentLaws::writes))]
    pub fn run(&mut self, p: P0) -> bool
        ensures task { task_at self.new (⟦<P0 as PtrCore>⟧.index p) (⟦<P0 as PtrCore>⟧.generation p)
            ≡ option_map (λ task. record { left = task.left - 1 })
            (task_at self.old (⟦<P0 as PtrCore>⟧.index p) (⟦<P0 as PtrCore>⟧.generation p)) }
        ensures ran { IsTrue result ↔ IsSome (task_at self.old (⟦<P0 as PtrCore>⟧.index p)
            (⟦<P0 as PtrCore>⟧.generation p)) }
        ensures ended { (index generation : ℕ) → HasEnded self.old index generation
            → HasEnded self.new index generation }
        ensures others { (index generation : ℕ)
            → (index ≢ ⟦<P0 as PtrCore>⟧.index p) ⊎ (generation ≢ ⟦<P0 as PtrCore>⟧.generation p)
            → task_at self.new index generation ≡ task_at self.old index generation }
        ensures lasts { endings_left self.new ≡ endings_left self.old }
        ensures room { self.new.tasks.room ≡ self.old.tasks.room }
        ensures none { result ≡ false → self.new ≡ self.old }
    {
        match self.tasks.get_mut(p) {
            Some(task) => {
                task.left = task.left.saturating_sub(1);
                true
            }
            None => false,
        }
    }
}
