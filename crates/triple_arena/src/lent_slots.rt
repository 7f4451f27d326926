//! The values of slots, borrowed one by one, while each slot keeps all else.
ghost use Rattle.std.specs.Prelude.{◌≡◌, ◌<◌, ℕ, List, length, ◌∷◌, Option, map};
ghost use Rattle.std.specs.Borrow.{sem, follows, LendsIf};
ghost use Rattle.std.specs.Option.{option_map};
ghost use base.Fml.{GName};
ghost use denote.RawPtr.{block_ptr};
ghost use Rattle.triple_arena.specs.LentSlots.{row_owned, one_owned};

use std::marker::{Model, PhantomData};

/// A slot whose value can be borrowed, if it has one.
pub trait LentValue<T> {
    ghost held: { Self → Option T };

    ghost with_held: { Self → T → Self };

    /// The value, for writing, if the slot is allocated.
    fn value_mut_if(&mut self) -> Option<&mut T>
        ensures* lends { sem 𝓛 (LendsIf Self.row T.row self.entry result (with_held self.old)
            self.old) }
        ensures value { option_map (λ r. r.now) result ≡ held self.old };
}

/// A slot that tells the key of its value.
pub trait SlotKey<G> {
    // What a contract sees of a key.
    ghost number_of: { G → ℕ };

    ghost key_number: { Self → Option ℕ };

    /// The key, if the slot is allocated. It is read through a `&mut`, since a loan of slots gives
    /// no other borrow.
    fn slot_key(&mut self) -> Option<G>
        ensures same { self.new ≡ self.old }
        ensures key { option_map number_of result ≡ key_number self.old };
}

// The key of a slot.
fn key_of<G, E: SlotKey<G>>(slot: &mut E) -> Option<G>
    ensures same { slot.new ≡ slot.old }
    ensures key { option_map E.number_of result ≡ E.key_number slot.old }
{
    slot.slot_key()
}

// The value of a slot.
fn lend_value<T, E: LentValue<T>>(slot: &mut E) -> Option<&mut T>
    ensures* lends { sem 𝓛 (LendsIf E.row T.row slot.entry result (E.with_held slot.old) slot.old) }
    ensures value { option_map (λ r. r.now) result ≡ E.held slot.old }
{
    slot.value_mut_if()
}

/// The slots whose values are still to be borrowed. `name` is the loan of the values; what holds
/// the slots ends as the loan `tie` does.
#[derive(Drop)]
pub struct LentSlots<'a, T, E: LentValue<T>> {
    pub(crate) at: *mut E,
    pub(crate) mark: PhantomData<&'a mut (E, T)>,
    ghost name: { GName },
    ghost tie: { GName },
    ghost block: { ℕ },
    ghost offset: { ℕ },
    ghost run: { List E },
    ghost placed: { at ≡ block_ptr block offset },
}

impl<'a, T, E: LentValue<T>> Model for LentSlots<'a, T, E> {
    ghost also_owns = { λ l. row_owned 'a T.row E.row E.with_held l.name l.block l.offset l.run };
}

/// A slot whose value is to be borrowed.
#[derive(Drop)]
pub struct LentSlot<'a, T, E: LentValue<T>> {
    at: *mut E,
    mark: PhantomData<&'a mut (E, T)>,
    ghost name: { GName },
    ghost block: { ℕ },
    ghost offset: { ℕ },
    ghost slot: { E },
    ghost placed: { at ≡ block_ptr block offset },
}

impl<'a, T, E: LentValue<T>> Model for LentSlot<'a, T, E> {
    ghost also_owns = { λ l. one_owned 'a T.row E.row E.with_held l.name l.block l.offset l.slot };
}

impl<'a, T, E: LentValue<T>> LentSlots<'a, T, E> {
    // The first slot.
    pub(crate) fn pop(&mut self) -> LentSlot<'a, T, E>
        requires { 0 < length self.old.run }
        ensures { (self.old.run ≡ result.slot ∷ self.new.run) × (self.new.tie ≡ self.old.tie) }
    {
        let at = self.at;
        self.at = unsafe { at.add(1) };
        LentSlot {
            at,
            mark: PhantomData,
        }
    }
}

impl<'a, T, E: LentValue<T>> LentSlot<'a, T, E> {
    // Its key, if it is allocated.
    pub(crate) fn key<G>(&mut self) -> Option<G>
    where
        E: SlotKey<G>,
        ensures { (option_map E.number_of result ≡ E.key_number self.old.slot)
            × (self.new ≡ self.old) }
    {
        let at = self.at;
        key_of(unsafe { &mut *at })
    }

    // Its value, if it is allocated.
    pub(crate) fn into_value(self) -> Option<&'a mut T>
        ensures { option_map (λ r. r.now) result ≡ E.held self.entry.slot }
    {
        let LentSlot { at, mark: _ } = self;
        lend_value(unsafe { &mut *at })
    }
}

// A type whose slots can all have their values borrowed.
pub(crate) trait LendsSlots<T, E: LentValue<T>> {
    // It, with the values of another one.
    ghost with_values_of: { Self → Self → Self };

    // The generation and the value of a slot, and those at each index, from index 1 on.
    ghost slot_entry: { E → Option (ℕ × T) };

    ghost slot_entries: { Self → List (Option (ℕ × T)) };

    fn lend_slots(&mut self) -> LentSlots<'_, T, E>
        ensures* writes_back { sem 𝓛 (follows Self.row Self.row self.entry.ghost_name result.tie
            (with_values_of self.old)) }
        ensures run { map slot_entry result.run ≡ slot_entries self.old };
}
