//! The calls that can change an arena.
use std::fmt::Debug;
use test_kit::{Call, ShownPtr, Transcript};
use triple_arena::{Advancer, ArenaTrait, PtrCore};

/// Makes a call that can change the arena, and says whether there is one of that name. The values
/// are those that the line stores at a pointer, and at an index.
pub fn change<P: ShownPtr, T: Copy + Debug, A: ArenaTrait<P, T>>(
    arena: &mut A,
    transcript: &mut Transcript,
    call: &Call<'_>,
    at_pointer: T,
    at_index: T,
) -> bool {
    removes(arena, transcript, call)
        || goes_over(arena, transcript, call)
        || writes(arena, transcript, call, at_pointer, at_index)
}

/// Makes such a call at an arena of numbers, where a value follows the pointer or the index, and
/// says whether there is one of that name.
pub fn change_numbers<P: ShownPtr, A: ArenaTrait<P, u64>>(
    arena: &mut A,
    transcript: &mut Transcript,
    call: &Call<'_>,
) -> bool {
    if call.verb == "compress_with" {
        compress_with(arena, transcript, call.line, call.first == 1);
        return true;
    }
    change(arena, transcript, call, call.third, call.second)
}

fn removes<P: ShownPtr, T: Debug + Drop, A: ArenaTrait<P, T>>(
    arena: &mut A,
    transcript: &mut Transcript,
    call: &Call<'_>,
) -> bool {
    let line = call.line;
    match call.verb {
        "remove" => transcript.answer(line, &arena.remove(call.pointer())),
        "remove_inx" => transcript.answer(line, &arena.remove_inx(call.index())),
        "invalidate" => transcript.answer(line, &arena.invalidate(call.pointer())),
        "clear" => transcript.answer(line, &arena.clear()),
        _ => return false,
    }
    true
}

// The calls that come to each entry, or may move it.
fn goes_over<P: ShownPtr, T: Debug + Drop, A: ArenaTrait<P, T>>(
    arena: &mut A,
    transcript: &mut Transcript,
    call: &Call<'_>,
) -> bool {
    let line = call.line;
    match call.verb {
        "reallocate_min_capacity" => {
            transcript.answer(line, &arena.reallocate_min_capacity(call.first as usize))
        }
        "compress" => transcript.answer(line, &arena.compress(call.first == 1)),
        "walk_and_remove" => walk_and_remove(arena, transcript, line),
        "drain" => drain(arena, transcript, call),
        _ => return false,
    }
    true
}

fn writes<P: ShownPtr, T: Copy + Debug, A: ArenaTrait<P, T>>(
    arena: &mut A,
    transcript: &mut Transcript,
    call: &Call<'_>,
    at_pointer: T,
    at_index: T,
) -> bool {
    let line = call.line;
    match call.verb {
        "set" => transcript.answer(line, &set(arena, call.pointer(), at_pointer)),
        "set_inx" => transcript.answer(line, &set_inx(arena, call.index(), at_index)),
        "set_inx_unwrap" => transcript.answer(line, &set_inx_unwrap(arena, call.index(), at_index)),
        _ => return false,
    }
    true
}

// Writes through `get_mut`, and answers what stood there.
fn set<P: PtrCore, T: Copy, A: ArenaTrait<P, T>>(arena: &mut A, p: P, value: T) -> Option<T> {
    match arena.get_mut(p) {
        Some(own) => {
            let was = *own;
            *own = value;
            Some(was)
        }
        None => None,
    }
}

// Writes through `get_inx_mut`, and answers what stood there.
fn set_inx<P: PtrCore, T: Copy, A: ArenaTrait<P, T>>(
    arena: &mut A,
    i: P::Inx,
    value: T,
) -> Option<T> {
    match arena.get_inx_mut(i) {
        Some(own) => {
            let was = *own;
            *own = value;
            Some(was)
        }
        None => None,
    }
}

// Writes at an index that is live without a test of it, and says whether it is.
fn set_inx_unwrap<P: PtrCore, T: Copy, A: ArenaTrait<P, T>>(
    arena: &mut A,
    i: P::Inx,
    value: T,
) -> bool {
    let is_live = arena.get_inx(i).is_some();
    if is_live {
        *arena.get_inx_mut_unwrap(i) = value;
    }
    is_live
}

// Goes over an arena that changes: each entry that the advancer comes to is removed.
fn walk_and_remove<P: PtrCore, T: Debug + Drop, A: ArenaTrait<P, T>>(
    arena: &mut A,
    transcript: &mut Transcript,
    line: &str,
) {
    let mut advancer = arena.advancer();
    for _ in 0..256 {
        match advancer.advance(arena) {
            Some(p) => transcript.answer(line, &arena.remove(p)),
            None => break,
        }
    }
}

// Takes so many items of a drain, and tells how many are left when it is let go.
fn drain<P: PtrCore + Debug, T: Debug + Drop, A: ArenaTrait<P, T>>(
    arena: &mut A,
    transcript: &mut Transcript,
    call: &Call<'_>,
) {
    let mut drain = arena.drain();
    for _ in 0..call.first {
        transcript.answer(call.line, &drain.next());
    }
    transcript.answer(call.line, &drain.len());
}

// Compresses with a map that tells what it gets, and adds 1.
fn compress_with<P: PtrCore + Debug, A: ArenaTrait<P, u64>>(
    arena: &mut A,
    transcript: &mut Transcript,
    line: &str,
    reset: bool,
) {
    let answer = arena.compress_with(reset, |from, value, to| {
        transcript.answer(line, &(from, value, to));
        value.wrapping_add(1)
    });
    transcript.answer(line, &answer);
}
