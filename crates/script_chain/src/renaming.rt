//! Calls at chains whose values are pointers, and at names for pointers.
use crate::kind::kind;
use std::alloc::Allocator;
use std::fmt::Debug;
use test_kit::{Call, ShownPtr, Transcript, generation, index, pointer};
use triple_arena::{
    Arena, ArenaDirectInsertEntryTrait, ArenaDirectInsertTrait, ArenaInsertTrait, ArenaSlot,
    ArenaSlots, ArenaTrait, DirectArena, DirectSlot, DirectSlots, NonZeroInxGenericStack,
    NonZeroInxVec, Ptr, PtrCore, ReallocationError, Recast, Recaster, compress_recaster,
};
use triple_arena_chain::{ChainArena, ChainArenaTrait, ChainSlots, LinkNoGen};

type Holding<P> = ArenaSlot<P, LinkNoGen<P, P>>;

type Target<P> = ArenaSlot<P, u64>;

type Name<P> = DirectSlot<P, P>;

/// Over vectors.
pub fn over_heap<P: Ptr + Recast<P>, H: Allocator + Copy + Drop>(
    heap: H,
    transcript: &mut Transcript,
    calls: &str,
) -> Result<(), ReallocationError> {
    over::<
        P,
        H,
        NonZeroInxVec<Holding<P>, H>,
        NonZeroInxVec<Target<P>, H>,
        NonZeroInxVec<Name<P>, H>,
    >(heap, transcript, calls)
}

// Makes the calls of a section, and then compresses the arena of targets and recasts the chains by
// the map of that, twice.
// The bounds are written out, as in `stacks.rt`.
fn over<
    P: Ptr + Recast<P>,
    H: Copy + Drop,
    S: NonZeroInxGenericStack<Item = Holding<P>, Alloc = H> + Drop,
    V: NonZeroInxGenericStack<Item = Target<P>, Alloc = H> + Drop,
    R: NonZeroInxGenericStack<Item = Name<P>, Alloc = H> + Drop,
>(alloc: H, transcript: &mut Transcript, calls: &str) -> Result<(), ReallocationError> {
    let mut chains = ChainArena::<P, P, S>::new(alloc);
    let mut targets = Arena::<P, u64, V>::new(alloc);
    match DirectArena::<P, P, R>::with_min_capacity(alloc, 5) {
        Ok(names) => {
            let mut names = names;
            play(&mut chains, &mut targets, &mut names, transcript, calls)
        }
        Err(refused) => transcript.answer("names", &refused),
    }
    let map = compress_recaster::<P, u64, V, R>(&mut targets, false, alloc)?;
    transcript.answer("compress_recaster", &map);
    recast_twice(&mut chains, &map, transcript);
    Ok(())
}

fn recast_twice<P: PtrCore + Debug, A: Recast<P> + Debug, R: Recaster<Item = P>>(
    chains: &mut A,
    map: &R,
    transcript: &mut Transcript,
) {
    transcript.answer("recast", &recast(chains, map));
    transcript.answer("show", chains);
    transcript.answer("recast again", &recast(chains, map));
    transcript.answer("show", chains);
}

// An arena of such a section. As in `player.rt`, it promises nothing, so that what plays the
// section is proved without the clauses of the arenas' calls.
trait Part {
    fn call(&mut self, transcript: &mut Transcript, call: &Call<'_>);
}

fn play<P: PtrCore + Debug, X: Part + Recast<P>, T: Part, N: Part + Recaster<Item = P>>(
    chains: &mut X,
    targets: &mut T,
    names: &mut N,
    transcript: &mut Transcript,
    calls: &str,
) {
    for line in calls.lines() {
        let call = Call::new(line);
        match call.whom {
            "t" => targets.call(transcript, &call),
            "n" => names.call(transcript, &call),
            "x" => chains.call(transcript, &call),
            "x<n" => transcript.answer(line, &recast(chains, names)),
            _ => transcript.line(line),
        }
    }
}

// Renames the pointers in an arena.
fn recast<P: PtrCore, A: Recast<P>, R: Recaster<Item = P>>(
    arena: &mut A,
    names: &R,
) -> Result<(), P> {
    arena.recast(names)
}

// The arena of targets.
impl<P: Ptr, V: ArenaSlots<P, u64>> Part for Arena<P, u64, V> {
    fn call(&mut self, transcript: &mut Transcript, call: &Call<'_>) {
        match call.verb {
            "insert" => transcript.answer(call.line, &self.insert(call.first)),
            "remove" => transcript.answer(call.line, &self.remove(call.pointer())),
            "show" => transcript.answer(call.line, self),
            _ => transcript.line(call.line),
        }
    }
}

// The chains: a call with a kind stores a link that holds the pointer of the first two numbers,
// between the neighbors that the other numbers name by their indexes.
impl<P: Ptr, S: ChainSlots<P, P>> Part for ChainArena<P, P, S> {
    fn call(&mut self, transcript: &mut Transcript, call: &Call<'_>) {
        match kind(call.verb, &indexes(call)) {
            Some(kind) => {
                let held = pointer(call.first, call.second);
                transcript.answer(call.line, &self.insert_reallocating(kind, held))
            }
            None => ask(self, transcript, call),
        }
    }
}

// The line's numbers without the first one.
fn indexes<'a>(call: &Call<'a>) -> Call<'a> {
    Call {
        first: call.second,
        second: call.third,
        third: call.fourth,
        ..*call
    }
}

fn ask<P: Ptr, S: ChainSlots<P, P>>(
    chains: &mut ChainArena<P, P, S>,
    transcript: &mut Transcript,
    call: &Call<'_>,
) {
    match call.verb {
        "get_link" => transcript.answer(call.line, &chains.get_link(call.pointer())),
        "remove_inx" => transcript.answer(call.line, &chains.remove_inx(call.index())),
        "show" => transcript.answer(call.line, chains),
        _ => transcript.line(call.line),
    }
}

// The names: a call gives the pointer of the first two numbers a name, with the index of the third
// and the same generation.
impl<P: Ptr, R: DirectSlots<P, P>> Part for DirectArena<P, P, R> {
    fn call(&mut self, transcript: &mut Transcript, call: &Call<'_>) {
        name(self, transcript, call);
        transcript.answer(call.line, self);
    }
}

fn name<P: ShownPtr, R: DirectSlots<P, P>>(
    names: &mut DirectArena<P, P, R>,
    transcript: &mut Transcript,
    call: &Call<'_>,
) {
    let target = P::_from_raw(index(call.third), generation(call.second));
    match names.direct_insert_within_capacity(call.pointer()) {
        Ok(place) => place.insert(target),
        Err(refusal) => transcript.answer(call.line, &refusal),
    }
}
