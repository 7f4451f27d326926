//! Calls among several arenas over stacks of one kind: the chain arenas `a` and `b`, the arena `l`
//! of links, which can become a chain arena, and the arena `v` of values.
use crate::player::{Partner, Player};
use std::alloc::AllocError;
use std::mem;
use std::num::NonZeroUsize;
use test_kit::{Call, ShownPtr, Transcript, generation, index};
use triple_arena::{
    Arena, ArenaCloneFromWith, ArenaInsertTrait, ArenaSlots, ArenaTrait, Ptr, PtrInxCore,
    ReallocationError,
};
use triple_arena_chain::{ChainArena, ChainSlots, IndexLink, LinkCloneSource, LinkNoGen};

impl<
    P: Ptr,
    H: Copy + Drop,
    S: ChainSlots<P, u64, Alloc = H>,
    V: ArenaSlots<P, u64, Alloc = H>,
> Partner<Arena<P, LinkNoGen<P, u64>, S>, Arena<P, u64, V>> for ChainArena<P, u64, S> {
    fn become_copy(
        &mut self,
        source: &Self,
        alloc: H,
        transcript: &mut Transcript,
        call: &Call<'_>,
    ) {
        copies(self, source, alloc, transcript, call)
    }

    fn take_chains(&mut self, source: &mut Self, transcript: &mut Transcript, call: &Call<'_>) {
        transfer(self, source, transcript, call)
    }

    fn take_links(
        &mut self,
        links: &mut Arena<P, LinkNoGen<P, u64>, S>,
        alloc: H,
        transcript: &mut Transcript,
        call: &Call<'_>,
    ) {
        becomes(self, links, alloc, transcript, call)
    }

    fn copy_values(
        &self,
        values: &mut Arena<P, u64, V>,
        transcript: &mut Transcript,
        call: &Call<'_>,
    ) {
        clone_to_arena(values, self, transcript, call)
    }
}

impl<P: Ptr, S: ChainSlots<P, u64>> Player for Arena<P, LinkNoGen<P, u64>, S> {
    type Alloc = S::Alloc;

    fn with_room(alloc: S::Alloc, room: usize) -> Result<Self, ReallocationError> {
        Self::with_min_capacity(alloc, room)
    }

    fn call(&mut self, transcript: &mut Transcript, call: &Call<'_>) {
        match call.verb {
            "interlinks_agree" => {
                transcript.answer(call.line, &ChainArena::<P, u64, S>::interlinks_agree(self))
            }
            "show" => transcript.answer(call.line, self),
            _ => link_by_link(self, transcript, call),
        }
    }
}

// The values are shown, whatever the call is.
impl<P: Ptr, V: ArenaSlots<P, u64>> Player for Arena<P, u64, V> {
    type Alloc = V::Alloc;

    fn with_room(alloc: V::Alloc, room: usize) -> Result<Self, ReallocationError> {
        Self::with_min_capacity(alloc, room)
    }

    fn call(&mut self, transcript: &mut Transcript, call: &Call<'_>) {
        transcript.answer(call.line, self);
    }
}

// Makes the chain arena `a` a copy of `b`.
fn copies<P: ShownPtr, H: Copy, S: ChainSlots<P, u64, Alloc = H>>(
    a: &mut ChainArena<P, u64, S>,
    b: &ChainArena<P, u64, S>,
    alloc: H,
    transcript: &mut Transcript,
    call: &Call<'_>,
) {
    match call.verb {
        "clone_from_with" => clone_from_with(a, b, transcript, call),
        "clone_from" => clone_from(a, b, transcript, call),
        "clone" => clone(a, b, alloc, transcript, call),
        _ => transcript.answer(call.line, &"no such call"),
    }
}

// By a map that tells what it gets, adds 1, and refuses at the call of the first number.
fn clone_from_with<P: ShownPtr, S: ChainSlots<P, u64>>(
    target: &mut ChainArena<P, u64, S>,
    source: &ChainArena<P, u64, S>,
    transcript: &mut Transcript,
    call: &Call<'_>,
) {
    let line = call.line;
    let mut left = call.first;
    let answer = target.clone_from_with(source, |p, link| {
        transcript.answer(line, &(p, link));
        left = left.wrapping_sub(1);
        if left == 0 {
            Err(AllocError)
        } else {
            Ok(link.t.wrapping_add(1))
        }
    });
    transcript.answer(line, &answer);
}

fn clone_from<P: ShownPtr, S: ChainSlots<P, u64>>(
    target: &mut ChainArena<P, u64, S>,
    source: &ChainArena<P, u64, S>,
    transcript: &mut Transcript,
    call: &Call<'_>,
) {
    transcript.answer(call.line, &target.clone_from(source));
}

// The target becomes the clone, if that is made.
fn clone<P: ShownPtr, H: Copy, S: ChainSlots<P, u64, Alloc = H>>(
    target: &mut ChainArena<P, u64, S>,
    source: &ChainArena<P, u64, S>,
    alloc: H,
    transcript: &mut Transcript,
    call: &Call<'_>,
) {
    match source.clone(alloc) {
        Ok(made) => {
            *target = made;
            transcript.line(call.line);
        }
        Err(refused) => transcript.answer(call.line, &refused),
    }
}

// Makes the arena of values a copy of the chain arena, by the same map.
fn clone_to_arena<P: ShownPtr, S: ChainSlots<P, u64>, A: ArenaCloneFromWith<P, u64>>(
    target: &mut A,
    source: &ChainArena<P, u64, S>,
    transcript: &mut Transcript,
    call: &Call<'_>,
) {
    let line = call.line;
    let mut left = call.first;
    let answer = source.clone_to_arena(target, |p, link| {
        transcript.answer(line, &(p, link));
        left = left.wrapping_sub(1);
        if left == 0 {
            Err(AllocError)
        } else {
            Ok(link.t.wrapping_add(1))
        }
    });
    transcript.answer(line, &answer);
}

// Moves the chains of the source to the target, by a map that tells what it gets, and adds 1.
fn transfer<P: ShownPtr, S: ChainSlots<P, u64>>(
    target: &mut ChainArena<P, u64, S>,
    source: &mut ChainArena<P, u64, S>,
    transcript: &mut Transcript,
    call: &Call<'_>,
) {
    let line = call.line;
    let to = generation(call.first);
    let answer = target.transfer_canonical_reallocating(to, source, |from, item, to| {
        transcript.answer(line, &(from, &item, to));
        item.allow().wrapping_add(1)
    });
    transcript.answer(line, &answer);
}

// Makes the links of the arena the chain arena's.
fn becomes<P: ShownPtr, H: Copy, S: ChainSlots<P, u64, Alloc = H>>(
    chains: &mut ChainArena<P, u64, S>,
    links: &mut Arena<P, LinkNoGen<P, u64>, S>,
    alloc: H,
    transcript: &mut Transcript,
    call: &Call<'_>,
) {
    match call.verb {
        "exchange_arena" => transcript.answer(call.line, &chains.exchange_arena(links)),
        "from_arena" => from_arena(chains, links, alloc, transcript, call),
        _ => transcript.answer(call.line, &"no such call"),
    }
}

// The arena is new if its links are taken, and is handed back if they are not.
fn from_arena<P: ShownPtr, H: Copy, S: ChainSlots<P, u64, Alloc = H>>(
    chains: &mut ChainArena<P, u64, S>,
    links: &mut Arena<P, LinkNoGen<P, u64>, S>,
    alloc: H,
    transcript: &mut Transcript,
    call: &Call<'_>,
) {
    let taken = mem::replace(links, Arena::new(alloc));
    match ChainArena::from_arena(taken) {
        Ok(made) => {
            *chains = made;
            transcript.line(call.line);
        }
        Err(back) => {
            *links = back;
            transcript.answer(call.line, &"handed back");
        }
    }
}

// Inserts a link with the value of the first number between the indexes of the next two, or removes
// one.
fn link_by_link<P: ShownPtr, A: ArenaInsertTrait<P, LinkNoGen<P, u64>>>(
    links: &mut A,
    transcript: &mut Transcript,
    call: &Call<'_>,
) {
    let line = call.line;
    match call.verb {
        "insert" => {
            let prev_next = (neighbor(call.second), neighbor(call.third));
            let link = IndexLink::new(prev_next, call.first);
            transcript.answer(line, &links.insert(link))
        }
        "remove" => transcript.answer(line, &links.remove(call.pointer())),
        "clear" => transcript.answer(line, &links.clear()),
        _ => transcript.answer(line, &"no such call"),
    }
}

// No index for 0.
fn neighbor<I: PtrInxCore>(number: u64) -> Option<I> {
    match NonZeroUsize::new(number as usize) {
        Some(_) => Some(index(number)),
        None => None,
    }
}
