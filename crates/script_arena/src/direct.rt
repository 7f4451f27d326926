//! The calls of a `DirectArena`.
use crate::any_arena;
use crate::player::Player;
use std::fmt::Debug;
use test_kit::{Call, ShownPtr, Transcript};
use triple_arena::direct_iterators::{IterMut, ValsMut};
use triple_arena::{
    ArenaDirectInsertEntryTrait, ArenaDirectInsertTrait, ArenaTrait, DirectArena, DirectSlots, Ptr,
    PtrCore, ReallocationError,
};

impl<P: Ptr, S: DirectSlots<P, u64>> Player for DirectArena<P, u64, S> {
    type Alloc = S::Alloc;

    fn with_room(alloc: S::Alloc, room: usize) -> Result<Self, ReallocationError> {
        Self::with_min_capacity(alloc, room)
    }

    fn call(&mut self, transcript: &mut Transcript, call: &Call<'_>) {
        // A text asks more of its pointers than the calls do.
        if call.verb == "show" {
            transcript.answer(call.line, self);
        } else {
            call_without_text(self, transcript, call);
        }
    }

    fn become_clone(&mut self, source: &Self, transcript: &mut Transcript, call: &Call<'_>) {
        transcript.answer(call.line, &self.clone_from(source));
    }

    fn show_clone(&self, alloc: S::Alloc, transcript: &mut Transcript) {
        transcript.answer("d clone", &self.clone(alloc));
    }

    fn go_over(self, transcript: &mut Transcript) {
        for entry in self {
            transcript.answer("e into_iter", &entry);
        }
    }
}

fn call_without_text<P: ShownPtr, S: DirectSlots<P, u64>>(
    arena: &mut DirectArena<P, u64, S>,
    transcript: &mut Transcript,
    call: &Call<'_>,
) {
    if !(any_arena::call(arena, transcript, call)
        || reads(arena, transcript, call)
        || changes(arena, transcript, call))
    {
        transcript.answer(call.line, &"no such call");
    }
}

fn reads<P: ShownPtr, S: DirectSlots<P, u64>>(
    arena: &DirectArena<P, u64, S>,
    transcript: &mut Transcript,
    call: &Call<'_>,
) -> bool {
    let line = call.line;
    match call.verb {
        "slots" => transcript.answer(line, &arena.backing().len()),
        "ptrs" => ptrs(arena, transcript, line),
        "vals" => vals(arena, transcript, line),
        "iter" => iter(arena, transcript, line),
        _ => return false,
    }
    true
}

fn ptrs<P: PtrCore + Debug, S: DirectSlots<P, u64>>(
    arena: &DirectArena<P, u64, S>,
    transcript: &mut Transcript,
    line: &str,
) {
    for p in arena.ptrs() {
        transcript.answer(line, &p);
    }
}

fn vals<P: PtrCore, S: DirectSlots<P, u64>>(
    arena: &DirectArena<P, u64, S>,
    transcript: &mut Transcript,
    line: &str,
) {
    for value in arena.vals() {
        transcript.answer(line, value);
    }
}

fn iter<P: PtrCore + Debug, S: DirectSlots<P, u64>>(
    arena: &DirectArena<P, u64, S>,
    transcript: &mut Transcript,
    line: &str,
) {
    for entry in arena {
        transcript.answer(line, &entry);
    }
}

fn changes<P: PtrCore + Debug, S: DirectSlots<P, u64>>(
    arena: &mut DirectArena<P, u64, S>,
    transcript: &mut Transcript,
    call: &Call<'_>,
) -> bool {
    let line = call.line;
    match call.verb {
        "direct_insert" => direct_insert(arena, transcript, call),
        "pop_free_end_slots" => {
            arena.pop_free_end_slots();
            transcript.line(line);
        }
        "add_to_each" => {
            add_to_each(arena.vals_mut(), call);
            transcript.line(line);
        }
        "add_to_first" => add_to_first(arena.iter_mut(), transcript, call),
        _ => return false,
    }
    true
}

// Adds the first number to each value.
fn add_to_each<P: PtrCore>(values: ValsMut<'_, P, u64>, call: &Call<'_>) {
    for value in values {
        *value = value.wrapping_add(call.first);
    }
}

// Adds the first number to so many of the first values as the second says. It tells their pointers,
// and how many values are left, which stay.
fn add_to_first<P: PtrCore + Debug>(
    mut entries: IterMut<'_, P, u64>,
    transcript: &mut Transcript,
    call: &Call<'_>,
) {
    for _ in 0..call.second {
        match entries.next() {
            Some((p, value)) => {
                *value = value.wrapping_add(call.first);
                transcript.answer(call.line, &p);
            }
            None => break,
        }
    }
    transcript.answer(call.line, &entries.len());
}

// Makes a place, and stores the third number there, unless it is 0.
fn direct_insert<P: PtrCore, S: DirectSlots<P, u64>>(
    arena: &mut DirectArena<P, u64, S>,
    transcript: &mut Transcript,
    call: &Call<'_>,
) {
    match arena.direct_insert_within_capacity(call.pointer()) {
        Ok(place) => {
            if call.third != 0 {
                place.insert(call.third);
            }
            transcript.answer(call.line, &());
        }
        Err(refusal) => transcript.answer(call.line, &refusal),
    }
}
