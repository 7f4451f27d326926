//! A slot of a `DirectArena`.
ghost use Rattle.std.specs.Prelude.{◌≡◌, ℕ, Option, Some, None, IsSome, IsTrue, ◌↔◌, ⊤};
ghost use Rattle.std.specs.Option.{option_map};
ghost use Rattle.triple_arena.specs.DirectSlot.{value_of, with_slot_value, with_slot_generation};

use crate::lent_slots::{LentValue, SlotKey};
use crate::slot::{EntrySlot, ValueMut};
use proof_marks::unreached;
use std::marker::Model;
use triple_arena_ptr::PtrCore;

/// A slot of a `DirectArena`: free, or allocated, with a generation and a value.
#[derive(Drop)]
pub struct DirectSlot<P: PtrCore, T> {
    state: DirectState<P::Gen, T>,
}

#[derive(Drop)]
enum DirectState<G, T> {
    Free,
    Used(G, T),
}

impl<G, T> ValueMut<T> for DirectState<G, T> {
    ghost use Rattle.triple_arena.specs.DirectState.{state_value, with_state_value};

    ghost held = { state_value };

    ghost with_held = { with_state_value };

    fn value_mut(&mut self) -> &mut T {
        match self {
            DirectState::Used(_, value) => value,
            DirectState::Free => unreached!(),
        }
    }
}

impl<G, T> LentValue<T> for DirectState<G, T> {
    ghost use Rattle.triple_arena.specs.DirectState.{state_value, with_state_value};

    ghost held = { state_value };

    ghost with_held = { with_state_value };

    fn value_mut_if(&mut self) -> Option<&mut T> {
        match self {
            DirectState::Used(_, value) => Some(value),
            DirectState::Free => None,
        }
    }
}

impl<P: PtrCore, T> Model for DirectSlot<P, T> {
    ghost use Rattle.std.specs.Prelude.{ℕ, Option};
    ghost use Rattle.triple_arena.specs.DirectState.{slot_of};

    ghost Value = { Option (ℕ × T) };

    ghost view = { λ s. slot_of P.Gen.number s.state };
}

impl<P: PtrCore, T> DirectSlot<P, T> {
    pub(crate) fn free() -> Self
        ensures { result ≡ None }
    {
        DirectSlot {
            state: DirectState::Free,
        }
    }

    pub(crate) fn used(generation: P::Gen, value: T) -> Self
        ensures { result ≡ Some (P.Gen.number generation, value) }
    {
        DirectSlot {
            state: DirectState::Used(generation, value),
        }
    }

    // The generation and the value, if the slot is allocated.
    pub(crate) fn entry(&self) -> Option<(P::Gen, &T)>
        ensures { option_map (λ e. (P.Gen.number e.0, e.1.now)) result ≡ self.now }
    {
        match &self.state {
            DirectState::Used(generation, value) => Some((*generation, value)),
            DirectState::Free => None,
        }
    }

    // Whether the slot is allocated.
    pub(crate) fn is_used(&self) -> bool
        ensures { IsTrue result ↔ IsSome self.now }
    {
        match &self.state {
            DirectState::Used(_, _) => true,
            DirectState::Free => false,
        }
    }

    // Gives an allocated slot another generation.
    pub(crate) fn set_generation(&mut self, generation: P::Gen)
        ensures { self.new ≡ with_slot_generation self.old (P.Gen.number generation) }
    {
        match &mut self.state {
            DirectState::Used(own, _) => *own = generation,
            DirectState::Free => {}
        }
    }

    // The generation and the value. The slot must be allocated.
    pub(crate) fn into_entry(self) -> (P::Gen, T)
        requires used { IsSome self }
        requires no_more { ⊤ }
        ensures { Some (P.Gen.number result.0, result.1) ≡ self }
    {
        let DirectSlot { state } = self;
        match state {
            DirectState::Used(generation, value) => (generation, value),
            DirectState::Free => unreached!(),
        }
    }
}

impl<P: PtrCore, T> EntrySlot<P, T> for DirectSlot<P, T> {
    ghost entry = { λ s. s };

    fn vacant() -> Self {
        DirectSlot::default()
    }

    fn holding(generation: P::Gen, value: T) -> Self {
        DirectSlot::used(generation, value)
    }

    fn into_live(self) -> Option<(P::Gen, T)> {
        let DirectSlot { state } = self;
        match state {
            DirectState::Used(generation, value) => Some((generation, value)),
            DirectState::Free => None,
        }
    }
}

impl<P: PtrCore, T> ValueMut<T> for DirectSlot<P, T> {
    ghost held = { value_of };

    ghost with_held = { with_slot_value };

    fn value_mut(&mut self) -> &mut T {
        self.state.value_mut()
    }
}

impl<P: PtrCore, T> LentValue<T> for DirectSlot<P, T> {
    ghost held = { value_of };

    ghost with_held = { with_slot_value };

    fn value_mut_if(&mut self) -> Option<&mut T> {
        self.state.value_mut_if()
    }
}

impl<P: PtrCore, T> SlotKey<P::Gen> for DirectSlot<P, T> {
    ghost number_of = { P.Gen.number };

    ghost key_number = { λ s. option_map (λ e. e.0) s };

    fn slot_key(&mut self) -> Option<P::Gen> {
        match &self.state {
            DirectState::Used(generation, _) => Some(*generation),
            DirectState::Free => None,
        }
    }
}

impl<P: PtrCore, T> Default for DirectSlot<P, T> {
    ghost is_default = { λ s. s ≡ None };

    /// A free slot.
    fn default() -> Self {
        DirectSlot::free()
    }
}
