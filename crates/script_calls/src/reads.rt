//! The calls that change nothing.
use std::fmt::Debug;
use test_kit::{Call, ShownPtr, Transcript};
use triple_arena::{Advancer, ArenaTrait, PtrCore};

/// Makes a call that changes nothing, and says whether there is one of that name.
pub fn read<P: ShownPtr, T: Debug + Drop, A: ArenaTrait<P, T>>(
    arena: &A,
    transcript: &mut Transcript,
    call: &Call<'_>,
) -> bool {
    asks(arena, transcript, call) || gets(arena, transcript, call) || walks(arena, transcript, call)
}

fn asks<P: ShownPtr, T: Drop, A: ArenaTrait<P, T>>(
    arena: &A,
    transcript: &mut Transcript,
    call: &Call<'_>,
) -> bool {
    let line = call.line;
    match call.verb {
        "capacity" => transcript.answer(line, &arena.capacity()),
        "max_capacity" => transcript.answer(line, &arena.max_capacity()),
        "len" => transcript.answer(line, &arena.len()),
        "is_empty" => transcript.answer(line, &arena.is_empty()),
        "singular_generation" => transcript.answer(line, &arena.singular_generation()),
        "find_first_inx_ptr" => transcript.answer(line, &arena.find_first_inx_ptr()),
        "find_last_inx_ptr" => transcript.answer(line, &arena.find_last_inx_ptr()),
        _ => return false,
    }
    true
}

fn gets<P: ShownPtr, T: Debug + Drop, A: ArenaTrait<P, T>>(
    arena: &A,
    transcript: &mut Transcript,
    call: &Call<'_>,
) -> bool {
    let line = call.line;
    match call.verb {
        "get" => transcript.answer(line, &arena.get(call.pointer())),
        "get_inx" => transcript.answer(line, &arena.get_inx(call.index())),
        "get_inx_unwrap" => get_inx_unwrap(arena, transcript, call),
        "contains" => transcript.answer(line, &arena.contains(call.pointer())),
        _ => return false,
    }
    true
}

// The value at an index, by the call on the caller's condition that there is one.
fn get_inx_unwrap<P: ShownPtr, T: Debug + Drop, A: ArenaTrait<P, T>>(
    arena: &A,
    transcript: &mut Transcript,
    call: &Call<'_>,
) {
    let i = call.index();
    if arena.get_inx(i).is_some() {
        transcript.answer(call.line, &Some(arena.get_inx_unwrap(i)));
    } else {
        transcript.answer(call.line, &None::<()>);
    }
}

// Goes over the arena by an advancer, and says whether there is a walk of that name.
fn walks<P: ShownPtr, T: Drop, A: ArenaTrait<P, T>>(
    arena: &A,
    transcript: &mut Transcript,
    call: &Call<'_>,
) -> bool {
    let line = call.line;
    match call.verb {
        "walk" => walk(arena, transcript, line, arena.advancer()),
        "walk_nowhere" => walk(arena, transcript, line, A::PtrAdvancer::empty()),
        "walk_from" => walk(
            arena,
            transcript,
            line,
            arena.advancer_inx(call.index(), false),
        ),
        "walk_back_from" => walk(
            arena,
            transcript,
            line,
            arena.advancer_inx(call.index(), true),
        ),
        _ => return false,
    }
    true
}

// The pointers that an advancer comes to, up to its end.
fn walk<P: PtrCore + Debug, T: Drop, A: ArenaTrait<P, T>>(
    arena: &A,
    transcript: &mut Transcript,
    line: &str,
    advancer: A::PtrAdvancer,
) {
    let mut advancer = advancer;
    for _ in 0..256 {
        match advancer.advance(arena) {
            Some(p) => transcript.answer(line, &p),
            None => break,
        }
    }
    transcript.answer(line, &advancer.advance(arena));
}
