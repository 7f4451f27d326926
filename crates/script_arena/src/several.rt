//! Calls among the arenas of a section.
use crate::player::Partner;
use std::alloc::AllocError;
use std::fmt::Debug;
use test_kit::{Call, Transcript, generation};
use triple_arena::{
    Arena, ArenaCloneFromWith, ArenaCloneSource, ArenaSlots, ArenaTransferSource,
    ArenaTransferTrait, DirectArena, DirectSlots, Ptr, PtrCore,
};

/// What is copied and moved, from and to.
pub trait Movable<P: PtrCore>: ArenaCloneFromWith<P, u64>
    + ArenaCloneSource<P, u64>
    + ArenaTransferTrait<P, u64>
    + ArenaTransferSource<P, u64> {}

// An `impl` for all that keep these bounds would be proved twice as long wherever an arena meets
// it.
impl<P: PtrCore, S: ArenaSlots<P, u64>> Movable<P> for Arena<P, u64, S> {}

impl<P: PtrCore, D: DirectSlots<P, u64>> Movable<P> for DirectArena<P, u64, D> {}

impl<P: Ptr, S: ArenaSlots<P, u64>, D: DirectSlots<P, u64>> Partner<DirectArena<P, u64, D>>
    for Arena<P, u64, S> {
    fn call_among(
        &mut self,
        b: &mut Self,
        d: &mut DirectArena<P, u64, D>,
        e: &mut DirectArena<P, u64, D>,
        transcript: &mut Transcript,
        call: &Call<'_>,
    ) {
        among(self, b, d, e, transcript, call)
    }
}

fn among<P: PtrCore + Debug, A: Movable<P>, D: Movable<P>>(
    a: &mut A,
    b: &mut A,
    d: &mut D,
    e: &mut D,
    transcript: &mut Transcript,
    call: &Call<'_>,
) {
    match call.whom {
        "a=b" => copy(a, b, transcript, call),
        "a=d" => copy(a, d, transcript, call),
        "d=a" => copy(d, a, transcript, call),
        "d=e" => copy(d, e, transcript, call),
        "a<b" => transfer(a, b, transcript, call),
        "a<d" => transfer(a, d, transcript, call),
        "d<a" => transfer(d, a, transcript, call),
        "d<e" => transfer(d, e, transcript, call),
        _ => transcript.line(call.line),
    }
}

// Makes the target a copy of the source, by a map that tells what it gets, adds 1, and refuses at
// this call.
fn copy<P: PtrCore + Debug, A: ArenaCloneFromWith<P, u64>, S: ArenaCloneSource<P, u64>>(
    target: &mut A,
    source: &S,
    transcript: &mut Transcript,
    call: &Call<'_>,
) {
    let line = call.line;
    let mut left = call.first;
    let answer = target.clone_from_with(source, |p, value| {
        transcript.answer(line, &(p, *value));
        left = left.wrapping_sub(1);
        if left == 0 {
            Err(AllocError)
        } else {
            Ok(value.wrapping_add(1))
        }
    });
    transcript.answer(line, &answer);
}

// Moves the source's entries to the target, by a map that tells what it gets, and adds 1.
fn transfer<P: PtrCore + Debug, A: ArenaTransferTrait<P, u64>, S: ArenaTransferSource<P, u64>>(
    target: &mut A,
    source: &mut S,
    transcript: &mut Transcript,
    call: &Call<'_>,
) {
    let line = call.line;
    let answer = target.transfer_reallocating(generation(call.first), source, |from, item, to| {
        transcript.answer(line, &(from, &item, to));
        item.allow().wrapping_add(1)
    });
    transcript.answer(line, &answer);
}
