//! A slot of an arena.
ghost use Rattle.std.specs.Prelude.{◌≡◌, ◌≢◌, ◌≤◌, ℕ, length, Option, Some, None, option_copied};
ghost use Rattle.std.specs.Prelude.{IsTrue, ◌↔◌, IsSome, ⊤};
ghost use Rattle.std.specs.Borrow.{Lends, sem};
ghost use Rattle.std.specs.Int.NonZero.{non_zero_usize_get as at};
ghost use Rattle.std.specs.Option.{option_map};
ghost use Rattle.triple_arena.specs.Slot.{Slot, entry_of, free, used, value_of, links_of};
ghost use Rattle.triple_arena.specs.Slot.{index_up_to, free_links as free_links_of, with_links};
ghost use Rattle.triple_arena.specs.Slot.{with_prev, with_next, with_slot_value};
ghost use Rattle.triple_arena.specs.Slot.{with_slot_generation};
ghost use Rattle.triple_arena_stack.specs.Stack.{item_at};
ghost use Rattle.triple_arena.specs.Entries.{value_if};
ghost use Rattle.triple_arena.specs.TwoValues.{HaveValuesExchanged};

use crate::free_inx::FreeInx;
use crate::lent_slots::{LentValue, SlotKey};
use proof_marks::unreached;
use std::marker::Model;
use std::mem;
use std::num::NonZeroUsize;
use triple_arena_ptr::{FreeMark, OptionalInx, PtrCore, PtrGenCore, PtrInxCore};
use triple_arena_stack::{NonZeroInxGenericStack, get_disjoint_mut};

/// A slot of an arena: free, with links to the free ones before and after it, or allocated, with a
/// generation and a value.
#[derive(Drop)]
pub struct ArenaSlot<P: PtrCore, T> {
    state: SlotState<FreeInx<P>, P::Gen, T>,
}

#[derive(Drop)]
enum SlotState<O, G, T> {
    // A mark where the other has its generation, the free index after it, and the one before it: in
    // this order a removal's writes are fewest.
    Free(FreeMark, O, O),
    Used(G, T),
}

// A type that keeps one value, if any, which can be borrowed.
pub(crate) trait ValueMut<T> {
    ghost held: { Self → Option T };

    ghost with_held: { Self → T → Self };

    fn value_mut(&mut self) -> &mut T
        requires used { IsSome (held self.old) }
        requires no_more { ⊤ }
        ensures* lends { sem 𝓛 (Lends Self.row T.row self.entry result (with_held self.old)) }
        ensures value { held self.old ≡ Some result.now };
}

impl<O, G, T> ValueMut<T> for SlotState<O, G, T> {
    ghost use Rattle.triple_arena.specs.SlotState.{state_value, with_state_value};

    ghost held = { state_value };

    ghost with_held = { with_state_value };

    fn value_mut(&mut self) -> &mut T {
        match self {
            SlotState::Used(_, value) => value,
            SlotState::Free(_, _, _) => unreached!(),
        }
    }
}

impl<O, G, T> LentValue<T> for SlotState<O, G, T> {
    ghost use Rattle.triple_arena.specs.SlotState.{state_value, with_state_value};

    ghost held = { state_value };

    ghost with_held = { with_state_value };

    fn value_mut_if(&mut self) -> Option<&mut T> {
        match self {
            SlotState::Used(_, value) => Some(value),
            SlotState::Free(_, _, _) => None,
        }
    }
}

// A slot as compressions, copies and transfers use it: made, read, filled and emptied.
pub(crate) trait EntrySlot<P: PtrCore, T> {
    // The generation and the value, if it is allocated.
    ghost entry: { Self → Option (ℕ × T) };

    fn vacant() -> Self
        ensures { entry result ≡ None };

    fn holding(generation: P::Gen, value: T) -> Self
        ensures { entry result ≡ Some (P.Gen.number generation, value) };

    fn into_live(self) -> Option<(P::Gen, T)>
        ensures { option_map (λ e. (P.Gen.number e.0, e.1)) result ≡ entry self };
}

impl<P: PtrCore, T> Model for ArenaSlot<P, T> {
    ghost use Rattle.triple_arena.specs.Slot.{Slot};
    ghost use Rattle.triple_arena.specs.SlotState.{slot_of};

    ghost Value = { Slot T };

    ghost view = { λ s. slot_of P.Gen.number s.state };
}

impl<P: PtrCore, T> ArenaSlot<P, T> {
    pub(crate) fn free(prev: FreeInx<P>, next: FreeInx<P>) -> Self
        ensures { result ≡ free prev next }
    {
        ArenaSlot {
            state: SlotState::Free(FreeMark::new(), next, prev),
        }
    }

    pub(crate) fn used(generation: P::Gen, value: T) -> Self
        ensures { result ≡ used (P.Gen.number generation) value }
    {
        ArenaSlot {
            state: SlotState::Used(generation, value),
        }
    }

    // The generation and the value, if the slot is allocated.
    pub(crate) fn entry(&self) -> Option<(P::Gen, &T)>
        ensures { option_map (λ e. (P.Gen.number e.0, e.1.now)) result ≡ entry_of self.now }
    {
        match &self.state {
            SlotState::Used(generation, value) => Some((*generation, value)),
            SlotState::Free(_, _, _) => None,
        }
    }

    // Gives an allocated slot another generation.
    pub(crate) fn set_generation(&mut self, generation: P::Gen)
        ensures { self.new ≡ with_slot_generation self.old (P.Gen.number generation) }
    {
        match &mut self.state {
            SlotState::Used(own, _) => *own = generation,
            SlotState::Free(_, _, _) => {}
        }
    }

    // The value, if the slot is allocated.
    pub(crate) fn value(&self) -> Option<&T>
        ensures { option_copied result ≡ value_of self.now }
    {
        match &self.state {
            SlotState::Used(_, value) => Some(value),
            SlotState::Free(_, _, _) => None,
        }
    }

    // Whether the slot is allocated with this generation. The mark of a free slot lies where an
    // allocated one has its generation, and is none, so one comparison tells both.
    pub(crate) fn is_at(&self, generation: P::Gen) -> bool
        ensures { IsTrue result ↔ IsSome (value_if (P.Gen.number generation) (entry_of self.now)) }
    {
        match &self.state {
            SlotState::Used(own, _) => *own == generation,
            SlotState::Free(mark, _, _) => generation.is_free_mark(*mark),
        }
    }

    // The links, if the slot is free.
    pub(crate) fn links(&self) -> Option<(FreeInx<P>, FreeInx<P>)>
        ensures { result ≡ links_of self.now }
    {
        match &self.state {
            SlotState::Used(_, _) => None,
            SlotState::Free(_, next, prev) => Some((*prev, *next)),
        }
    }

    /// The free index before this one in the order in which the free indexes are taken, and the one
    /// after it, as the slot itself holds them; `None` if the slot is allocated.
    /// [`crate::Arena::backing`] says which they are.
    pub fn free_links(&self) -> Option<(Option<P::Inx>, Option<P::Inx>)>
        ensures { option_map (λ l. (option_map P.Inx.number l.0, option_map P.Inx.number l.1))
            result ≡ free_links_of P.Inx.greatest self.now }
    {
        match &self.state {
            SlotState::Used(_, _) => None,
            SlotState::Free(_, next, prev) => Some((index_of::<P>(*prev), index_of::<P>(*next))),
        }
    }

    // Links a free slot to the next one, with none before it, and says whether the slot is free.
    pub(crate) fn relink(&mut self, next: FreeInx<P>) -> bool
        ensures value { self.new ≡ with_links self.old None next }
        ensures free { IsTrue result ↔ (value_of self.old ≡ None) }
    {
        match &mut self.state {
            SlotState::Used(_, _) => false,
            SlotState::Free(_, own_next, own_prev) => {
                *own_prev = OptionalInx::none();
                *own_next = next;
                true
            }
        }
    }

    // Gives the slot, which must be free, another link to the one before.
    pub(crate) fn set_prev(&mut self, prev: FreeInx<P>)
        requires free { IsSome (links_of self.old) }
        requires no_more { ⊤ }
        ensures { self.new ≡ with_prev self.old prev }
    {
        match &mut self.state {
            SlotState::Used(_, _) => unreached!(),
            SlotState::Free(_, _, own) => *own = prev,
        }
    }

    // Gives the slot, which must be free, another link to the one after.
    pub(crate) fn set_next(&mut self, next: FreeInx<P>)
        requires free { IsSome (links_of self.old) }
        requires no_more { ⊤ }
        ensures { self.new ≡ with_next self.old next }
    {
        match &mut self.state {
            SlotState::Used(_, _) => unreached!(),
            SlotState::Free(_, own, _) => *own = next,
        }
    }

    // The link to the next one. The slot must be free.
    pub(crate) fn into_next(self) -> FreeInx<P>
    where
        T: Drop,
        requires free { IsSome (links_of self) }
        requires no_more { ⊤ }
        ensures { option_map (λ l. l.1) (links_of self) ≡ Some result }
    {
        let ArenaSlot { state } = self;
        match state {
            SlotState::Used(_, _) => unreached!(),
            SlotState::Free(_, next, _) => next,
        }
    }

    // The generation and the value. The slot must be allocated.
    pub(crate) fn into_entry(self) -> (P::Gen, T)
        requires used { IsSome (entry_of self) }
        requires no_more { ⊤ }
        ensures { Some (P.Gen.number result.0, result.1) ≡ entry_of self }
    {
        let ArenaSlot { state } = self;
        match state {
            SlotState::Used(generation, value) => (generation, value),
            SlotState::Free(_, _, _) => unreached!(),
        }
    }
}

// The index, which is at most the greatest one of the pointer type.
fn index_of<P: PtrCore>(i: FreeInx<P>) -> Option<P::Inx>
    ensures { option_map P.Inx.number result ≡ index_up_to P.Inx.greatest i }
{
    match i.get() {
        Some(i) => {
            // No index is past the greatest one.
            let _ = i.try_into_usize();
            Some(i)
        }
        None => None,
    }
}

impl<P: PtrCore, T> EntrySlot<P, T> for ArenaSlot<P, T> {
    ghost entry = { entry_of };

    fn vacant() -> Self {
        ArenaSlot::default()
    }

    fn holding(generation: P::Gen, value: T) -> Self {
        ArenaSlot::used(generation, value)
    }

    fn into_live(self) -> Option<(P::Gen, T)> {
        let ArenaSlot { state } = self;
        match state {
            SlotState::Used(generation, value) => Some((generation, value)),
            SlotState::Free(_, _, _) => None,
        }
    }
}

impl<P: PtrCore, T> ValueMut<T> for ArenaSlot<P, T> {
    ghost held = { value_of };

    ghost with_held = { with_slot_value };

    fn value_mut(&mut self) -> &mut T {
        self.state.value_mut()
    }
}

impl<P: PtrCore, T> LentValue<T> for ArenaSlot<P, T> {
    ghost held = { value_of };

    ghost with_held = { with_slot_value };

    fn value_mut_if(&mut self) -> Option<&mut T> {
        self.state.value_mut_if()
    }
}

impl<P: PtrCore, T> SlotKey<P::Gen> for ArenaSlot<P, T> {
    ghost number_of = { P.Gen.number };

    ghost key_number = { λ s. option_map (λ e. e.0) (entry_of s) };

    fn slot_key(&mut self) -> Option<P::Gen> {
        match &self.state {
            SlotState::Used(generation, _) => Some(*generation),
            SlotState::Free(_, _, _) => None,
        }
    }
}

// Exchanges what two slots keep. Each keeps its generation.
fn exchange_value<T, L: ValueMut<T>>(first: &mut L, second: &mut L)
    requires first { IsSome (L.held first.old) }
    requires second { IsSome (L.held second.old) }
    ensures first { (t : T) → L.held second.old ≡ Some t → first.new ≡ L.with_held first.old t }
    ensures second { (t : T) → L.held first.old ≡ Some t → second.new ≡ L.with_held second.old t }
{
    mem::swap(first.value_mut(), second.value_mut());
}

// Exchanges the values of the allocated slots at two indexes.
pub(crate) fn exchange_values<T, L: ValueMut<T> + Drop, S: NonZeroInxGenericStack<Item = L>>(
    slots: &mut S,
    i: NonZeroUsize,
    j: NonZeroUsize,
)
    requires i_in_bounds { at i ≤ length (S.items slots.old) }
    requires j_in_bounds { at j ≤ length (S.items slots.old) }
    requires two { at i ≢ at j }
    requires i_is_used { (x : L) → Some x ≡ item_at (S.items slots.old) (at i) → IsSome (L.held x) }
    requires j_is_used { (y : L) → Some y ≡ item_at (S.items slots.old) (at j) → IsSome (L.held y) }
    ensures items { HaveValuesExchanged L.held L.with_held (at i) (at j) (S.items slots.old)
        (S.items slots.new) }
    ensures room { S.room slots.new ≡ S.room slots.old }
{
    let (first, second) = get_disjoint_mut(slots.as_mut_slice(), i, j);
    exchange_value(first, second);
}

impl<P: PtrCore, T> Default for ArenaSlot<P, T> {
    ghost is_default = { λ s. s ≡ free None None };

    /// A free slot without links.
    fn default() -> Self {
        ArenaSlot::free(OptionalInx::none(), OptionalInx::none())
    }
}
