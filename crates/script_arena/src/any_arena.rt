//! The calls of every arena, with insertions and swaps.
use std::fmt::Debug;
use test_kit::{Call, ShownPtr, Transcript, index};
use triple_arena::{Advancer, ArenaInsertTrait, DisjointableArenaTrait, PtrCore};

/// Makes a call that every arena has, and says whether there is one of that name. That an arena
/// keeps the traits' clauses is proved once for all of them, which costs the proof most.
pub fn call<P: ShownPtr, A: DisjointableArenaTrait<P, u64>>(
    arena: &mut A,
    transcript: &mut Transcript,
    call: &Call<'_>,
) -> bool {
    script_calls::read(arena, transcript, call)
        || script_calls::change_numbers(arena, transcript, call)
        || swaps(arena, transcript, call)
}

/// Makes such a call or an insertion, and says whether there is one of that name.
pub fn call_or_insert<P: ShownPtr, A: ArenaInsertTrait<P, u64> + DisjointableArenaTrait<P, u64>>(
    arena: &mut A,
    transcript: &mut Transcript,
    line: &Call<'_>,
) -> bool {
    call(arena, transcript, line) || inserts(arena, transcript, line)
}

// Makes an insertion, and says whether there is one of that name.
fn inserts<P: PtrCore + Debug, A: ArenaInsertTrait<P, u64>>(
    arena: &mut A,
    transcript: &mut Transcript,
    call: &Call<'_>,
) -> bool {
    let (line, value) = (call.line, call.first);
    match call.verb {
        "insert" => transcript.answer(line, &arena.insert(value)),
        "insert_reallocating" => transcript.answer(line, &arena.insert_reallocating(value)),
        "insert_within_capacity" => transcript.answer(line, &arena.insert_within_capacity(value)),
        "fill" => transcript.answer(line, &fill(arena, value)),
        "walk_and_insert" => walk_and_insert(arena, transcript, call),
        _ => return false,
    }
    true
}

// Stores so many values, 0 and on, up to the first that is refused, and answers how many entries
// there are.
fn fill<P: PtrCore, A: ArenaInsertTrait<P, u64>>(arena: &mut A, count: u64) -> usize {
    for value in 0..count {
        if arena.insert(value).is_err() {
            break;
        }
    }
    arena.len()
}

// Goes over an arena that changes after the first step: the first number is stored, and the entry
// at the index of the second goes. The number is stored once more if the walk has ended, which then
// gives no more.
fn walk_and_insert<P: PtrCore + Debug, A: ArenaInsertTrait<P, u64>>(
    arena: &mut A,
    transcript: &mut Transcript,
    call: &Call<'_>,
) {
    let line = call.line;
    let mut advancer = arena.advancer();
    transcript.answer(line, &advancer.advance(arena));
    transcript.answer(line, &arena.insert(call.first));
    let _ = arena.remove_inx(index(call.second));
    for _ in 0..256 {
        match advancer.advance(arena) {
            Some(p) => transcript.answer(line, &p),
            None => break,
        }
    }
    transcript.answer(line, &arena.insert(call.first));
    transcript.answer(line, &advancer.advance(arena));
}

// Swaps two values, and says whether there is such a call.
fn swaps<P: PtrCore, A: DisjointableArenaTrait<P, u64>>(
    arena: &mut A,
    transcript: &mut Transcript,
    call: &Call<'_>,
) -> bool {
    match call.verb {
        "swap" => swap(arena, transcript, call),
        "swap_inx" => swap_inx(arena, transcript, call),
        _ => return false,
    }
    true
}

// Swaps the values that two pointers point to.
fn swap<P: PtrCore, A: DisjointableArenaTrait<P, u64>>(
    arena: &mut A,
    transcript: &mut Transcript,
    call: &Call<'_>,
) {
    let other = test_kit::pointer(call.third, call.fourth);
    transcript.answer(call.line, &arena.swap(call.pointer(), other));
}

// Swaps the values at two indexes, if both are live.
fn swap_inx<P: PtrCore, A: DisjointableArenaTrait<P, u64>>(
    arena: &mut A,
    transcript: &mut Transcript,
    call: &Call<'_>,
) {
    let (i, j) = (call.index(), index(call.second));
    let are_live = arena.get_inx(i).is_some() && arena.get_inx(j).is_some();
    if are_live {
        arena.swap_inx(i, j);
    }
    transcript.answer(call.line, &are_live);
}
