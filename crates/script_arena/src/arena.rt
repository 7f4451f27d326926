//! The calls of an `Arena`.
ghost use Rattle.std.specs.Prelude.{IfOk};

use crate::any_arena;
use crate::player::Player;
use std::fmt::Debug;
use test_kit::{Call, ShownPtr, Transcript, generation};
use triple_arena::arena_iterators::{IterMut, ValsMut};
use triple_arena::{
    Arena, ArenaInsertEntries, ArenaInsertEntryTrait, ArenaSlots, ArenaTrait, Ptr, PtrCore,
    PtrInxCore, ReallocationError,
};

impl<P: Ptr, S: ArenaSlots<P, u64>> Player for Arena<P, u64, S> {
    type Alloc = S::Alloc;

    fn with_room(alloc: S::Alloc, room: usize) -> Result<Self, ReallocationError> {
        Self::with_min_capacity(alloc, room)
    }

    fn call(&mut self, transcript: &mut Transcript, call: &Call<'_>) {
        // A text asks more of its pointers than the calls do.
        if call.verb == "show" {
            transcript.answer(call.line, self);
        } else {
            call_without_text(self, transcript, call);
        }
    }

    fn become_clone(&mut self, source: &Self, transcript: &mut Transcript, call: &Call<'_>) {
        transcript.answer(call.line, &self.clone_from(source));
    }

    fn show_clone(&self, alloc: S::Alloc, transcript: &mut Transcript) {
        transcript.answer("a clone", &self.clone(alloc));
    }

    fn go_over(self, transcript: &mut Transcript) {
        for entry in self {
            transcript.answer("b into_iter", &entry);
        }
    }
}

fn call_without_text<P: ShownPtr, S: ArenaSlots<P, u64>>(
    arena: &mut Arena<P, u64, S>,
    transcript: &mut Transcript,
    call: &Call<'_>,
) {
    if !(any_arena::call_or_insert(arena, transcript, call)
        || reads(arena, transcript, call)
        || enters(arena, transcript, call)
        || changes(arena, transcript, call))
    {
        transcript.answer(call.line, &"no such call");
    }
}

fn reads<P: ShownPtr, S: ArenaSlots<P, u64>>(
    arena: &Arena<P, u64, S>,
    transcript: &mut Transcript,
    call: &Call<'_>,
) -> bool {
    let line = call.line;
    match call.verb {
        "generation" => transcript.answer(line, &arena.generation()),
        "freelist_root" => transcript.answer(line, &arena.freelist_root()),
        "slots" => transcript.answer(line, &arena.backing().len()),
        "free_links" => free_links(arena, transcript, call),
        "ptrs" => ptrs(arena, transcript, line),
        "vals" => vals(arena, transcript, line),
        "iter" => iter(arena, transcript, line),
        _ => return false,
    }
    true
}

// Tells which free indexes the slot at an index names.
fn free_links<P: ShownPtr, S: ArenaSlots<P, u64>>(
    arena: &Arena<P, u64, S>,
    transcript: &mut Transcript,
    call: &Call<'_>,
) {
    let slot = match call.index::<P::Inx>().try_into_usize() {
        Some(i) => arena.backing().get(i),
        None => None,
    };
    match slot {
        Some(slot) => transcript.answer(call.line, &slot.free_links()),
        None => transcript.answer(call.line, &"no such slot"),
    }
}

fn ptrs<P: PtrCore + Debug, S: ArenaSlots<P, u64>>(
    arena: &Arena<P, u64, S>,
    transcript: &mut Transcript,
    line: &str,
) {
    for p in arena.ptrs() {
        transcript.answer(line, &p);
    }
}

fn vals<P: PtrCore, S: ArenaSlots<P, u64>>(
    arena: &Arena<P, u64, S>,
    transcript: &mut Transcript,
    line: &str,
) {
    for value in arena.vals() {
        transcript.answer(line, value);
    }
}

fn iter<P: PtrCore + Debug, S: ArenaSlots<P, u64>>(
    arena: &Arena<P, u64, S>,
    transcript: &mut Transcript,
    line: &str,
) {
    for entry in arena {
        transcript.answer(line, &entry);
    }
}

fn changes<P: PtrCore + Debug, S: ArenaSlots<P, u64>>(
    arena: &mut Arena<P, u64, S>,
    transcript: &mut Transcript,
    call: &Call<'_>,
) -> bool {
    let line = call.line;
    match call.verb {
        "set_generation" => {
            arena.set_generation(generation(call.first));
            transcript.line(line);
        }
        "inc_generation" => transcript.answer(line, &arena.inc_generation()),
        "canonicalize_freelist" => {
            arena.canonicalize_freelist();
            transcript.line(line);
        }
        "remove_free_end_slots" => {
            arena.remove_free_end_slots();
            transcript.line(line);
        }
        "add_to_each" => {
            add_to_each(arena.vals_mut(), call);
            transcript.line(line);
        }
        "add_to_first" => add_to_first(arena.iter_mut(), transcript, call),
        _ => return false,
    }
    true
}

// Adds the first number to each value.
fn add_to_each<P: PtrCore>(values: ValsMut<'_, P, u64>, call: &Call<'_>) {
    for value in values {
        *value = value.wrapping_add(call.first);
    }
}

// Adds the first number to so many of the first values as the second says. It tells their pointers,
// and how many values are left, which stay.
fn add_to_first<P: PtrCore + Debug>(
    mut entries: IterMut<'_, P, u64>,
    transcript: &mut Transcript,
    call: &Call<'_>,
) {
    for _ in 0..call.second {
        match entries.next() {
            Some((p, value)) => {
                *value = value.wrapping_add(call.first);
                transcript.answer(call.line, &p);
            }
            None => break,
        }
    }
    transcript.answer(call.line, &entries.len());
}

// Makes an insertion by an entry, and says whether there is one of that name.
fn enters<P: PtrCore + Debug, S: ArenaSlots<P, u64>>(
    arena: &mut Arena<P, u64, S>,
    transcript: &mut Transcript,
    call: &Call<'_>,
) -> bool {
    match call.verb {
        "entry_insert" => enter(arena.entry_insert(), transcript, call),
        "entry_insert_reallocating" => enter_reallocating(arena, transcript, call),
        "entry_insert_within_capacity" => enter_within_capacity(arena, transcript, call),
        _ => return false,
    }
    true
}

fn enter_reallocating<P: PtrCore + Debug, S: ArenaSlots<P, u64>>(
    arena: &mut Arena<P, u64, S>,
    transcript: &mut Transcript,
    call: &Call<'_>,
) {
    enter(arena.entry_insert_reallocating(), transcript, call)
}

fn enter_within_capacity<P: PtrCore + Debug, S: ArenaSlots<P, u64>>(
    arena: &mut Arena<P, u64, S>,
    transcript: &mut Transcript,
    call: &Call<'_>,
) {
    enter(arena.entry_insert_within_capacity(), transcript, call)
}

// Tells an entry's pointer, and stores the first number by it, unless the second one is 1.
fn enter<P: PtrCore + Debug, E: ArenaInsertEntryTrait<P, u64> + Drop, Refusal: Debug + Drop>(
    entry: Result<E, Refusal>,
    transcript: &mut Transcript,
    call: &Call<'_>,
)
    requires { IfOk entry (λ e. E.has_room e) }
{
    match entry {
        Ok(entry) => {
            transcript.answer(call.line, &entry.ptr());
            if call.second != 1 {
                transcript.answer(call.line, &entry.insert(call.first));
            }
        }
        Err(refusal) => transcript.answer(call.line, &refusal),
    }
}
