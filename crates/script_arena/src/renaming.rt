//! Sections whose arenas hold pointers.
//!
//! `h` and `k` hold numbers, each with a pointer or none: `h hold V`, `h point V I G`; and `k`, to
//! which the script gives the pointers, `k hold I G V`, `k point I G V J H`. `n` and `m` rename
//! pointers: `n name I G J H` gives (I, G) the name (J, H), and `m name J H` gives that name to the
//! pointer that it answers. `h=n recast` renames what `h` holds by `n`. `h compress_recaster RESET`
//! compresses `h`, and renames by the map of that what `h` and `k` hold. `h| set_generation G` sets
//! the counter of `h`.
use std::alloc::Allocator;
use std::fmt::Debug;
use test_kit::{Call, Transcript, generation, pointer};
use triple_arena::{
    Arena, ArenaDirectInsertEntryTrait, ArenaDirectInsertTrait, ArenaInsertTrait, ArenaSlot,
    ArenaSlots, ArenaTrait, DirectArena, DirectSlot, DirectSlots, NonZeroInxArray,
    NonZeroInxGenericStack, NonZeroInxVec, P0, Ptr, PtrCore, ReallocationError, Recast, Recaster,
    compress_recaster,
};

// A number, and the pointer beside it.
type Held<P> = (u64, Option<P>);

type Holding<P> = ArenaSlot<P, Held<P>>;

type DirectHolding<P> = DirectSlot<P, Held<P>>;

type Name<P> = DirectSlot<P, P>;

type OwnName<P> = ArenaSlot<P, P>;

/// Over vectors.
pub fn over_heap<P: Ptr + Recast<P>, H: Allocator + Copy + Drop>(
    heap: H,
    transcript: &mut Transcript,
    header: &Call<'_>,
    calls: &str,
) -> Result<(), ReallocationError> {
    over::<
        P,
        H,
        NonZeroInxVec<Holding<P>, H>,
        NonZeroInxVec<DirectHolding<P>, H>,
        NonZeroInxVec<Name<P>, H>,
        NonZeroInxVec<OwnName<P>, H>,
    >(heap, transcript, header, calls)
}

/// Over arrays: five slots for numbers, and four for names.
pub fn over_array(
    transcript: &mut Transcript,
    header: &Call<'_>,
    calls: &str,
) -> Result<(), ReallocationError> {
    over::<
        P0,
        (),
        NonZeroInxArray<Holding<P0>, 5>,
        NonZeroInxArray<DirectHolding<P0>, 5>,
        NonZeroInxArray<Name<P0>, 4>,
        NonZeroInxArray<OwnName<P0>, 4>,
    >((), transcript, header, calls)
}

// The bounds are written out, as in `stacks.rt`.
fn over<
    P: Ptr + Recast<P>,
    H: Copy + Drop,
    S: NonZeroInxGenericStack<Item = Holding<P>, Alloc = H> + Drop,
    D: NonZeroInxGenericStack<Item = DirectHolding<P>, Alloc = H> + Drop,
    N: NonZeroInxGenericStack<Item = Name<P>, Alloc = H> + Drop,
    M: NonZeroInxGenericStack<Item = OwnName<P>, Alloc = H> + Drop,
>(
    alloc: H,
    transcript: &mut Transcript,
    header: &Call<'_>,
    calls: &str,
) -> Result<(), ReallocationError> {
    play::<
        P,
        H,
        Arena<P, Held<P>, S>,
        DirectArena<P, Held<P>, D>,
        DirectArena<P, P, N>,
        Arena<P, P, M>,
    >(alloc, transcript, header, calls)
}

// An arena of such a section. As in `player.rt`, it promises nothing, so that what plays the
// section is proved without the clauses of the arenas' calls.
trait Part: Drop {
    type Alloc;

    fn with_room(alloc: Self::Alloc, room: usize) -> Result<Self, ReallocationError>;

    fn call(&mut self, transcript: &mut Transcript, call: &Call<'_>);
}

// An arena that is compressed, while `K` and it rename what they hold by a map of type `N`.
trait Compressing<K, N: Part> {
    fn compress(
        &mut self,
        k: &mut K,
        alloc: N::Alloc,
        transcript: &mut Transcript,
        call: &Call<'_>,
    );
}

// `h`, which chooses where a number stands.
impl<P: Ptr, S: ArenaSlots<P, Held<P>>> Part for Arena<P, Held<P>, S> {
    type Alloc = S::Alloc;

    fn with_room(alloc: S::Alloc, room: usize) -> Result<Self, ReallocationError> {
        Self::with_min_capacity(alloc, room)
    }

    fn call(&mut self, transcript: &mut Transcript, call: &Call<'_>) {
        let line = call.line;
        match call.verb {
            "hold" => transcript.answer(line, &self.insert((call.first, None))),
            "point" => {
                let held = (call.first, Some(pointer(call.second, call.third)));
                transcript.answer(line, &self.insert(held))
            }
            "remove" => transcript.answer(line, &self.remove(call.pointer())),
            "generation" => transcript.answer(line, &self.singular_generation()),
            "set_generation" => {
                self.set_generation(generation(call.first));
                transcript.line(line);
            }
            _ => transcript.answer(line, self),
        }
    }
}

// `k`, to which the script gives the pointers.
impl<P: Ptr, D: DirectSlots<P, Held<P>>> Part for DirectArena<P, Held<P>, D> {
    type Alloc = D::Alloc;

    fn with_room(alloc: D::Alloc, room: usize) -> Result<Self, ReallocationError> {
        Self::with_min_capacity(alloc, room)
    }

    fn call(&mut self, transcript: &mut Transcript, call: &Call<'_>) {
        match call.verb {
            "hold" => put(self, (call.third, None), transcript, call),
            "point" => {
                let held = (call.third, Some(pointer(call.fourth, call.fifth)));
                put(self, held, transcript, call)
            }
            _ => transcript.answer(call.line, self),
        }
    }
}

// `n`, whose names the script gives to pointers.
impl<P: Ptr, N: DirectSlots<P, P>> Part for DirectArena<P, P, N> {
    type Alloc = N::Alloc;

    fn with_room(alloc: N::Alloc, room: usize) -> Result<Self, ReallocationError> {
        Self::with_min_capacity(alloc, room)
    }

    fn call(&mut self, transcript: &mut Transcript, call: &Call<'_>) {
        match call.verb {
            "name" => put(self, pointer(call.third, call.fourth), transcript, call),
            "remove" => transcript.answer(call.line, &self.remove(call.pointer())),
            "recast_item" => recast_item(self, transcript, call),
            _ => transcript.answer(call.line, self),
        }
    }
}

// `m`, which chooses the pointer that gets a name.
impl<P: Ptr, M: ArenaSlots<P, P>> Part for Arena<P, P, M> {
    type Alloc = M::Alloc;

    fn with_room(alloc: M::Alloc, room: usize) -> Result<Self, ReallocationError> {
        Self::with_min_capacity(alloc, room)
    }

    fn call(&mut self, transcript: &mut Transcript, call: &Call<'_>) {
        match call.verb {
            "name" => transcript.answer(call.line, &self.insert(call.pointer())),
            "remove" => transcript.answer(call.line, &self.remove(call.pointer())),
            "recast_item" => recast_item(self, transcript, call),
            _ => transcript.answer(call.line, self),
        }
    }
}

impl<
    P: Ptr + Recast<P>,
    S: ArenaSlots<P, Held<P>>,
    D: DirectSlots<P, Held<P>>,
    N: DirectSlots<P, P>,
> Compressing<DirectArena<P, Held<P>, D>, DirectArena<P, P, N>> for Arena<P, Held<P>, S> {
    fn compress(
        &mut self,
        k: &mut DirectArena<P, Held<P>, D>,
        alloc: N::Alloc,
        transcript: &mut Transcript,
        call: &Call<'_>,
    ) {
        match compress_recaster::<P, Held<P>, S, N>(self, call.first == 1, alloc) {
            Ok(map) => {
                transcript.answer(call.line, &map);
                transcript.answer(call.line, &map.capacity());
                transcript.answer(call.line, &recast(self, &map));
                transcript.answer(call.line, &recast(k, &map));
            }
            Err(refused) => transcript.answer(call.line, &refused),
        }
    }
}

fn play<
    P: PtrCore + Debug,
    H: Copy + Drop,
    A: Part<Alloc = H> + Recast<P> + Compressing<K, N>,
    K: Part<Alloc = H> + Recast<P>,
    N: Part<Alloc = H> + Recaster<Item = P>,
    M: Part<Alloc = H> + Recaster<Item = P>,
>(
    alloc: H,
    transcript: &mut Transcript,
    header: &Call<'_>,
    calls: &str,
) -> Result<(), ReallocationError> {
    let room = header.first as usize;
    let mut h = A::with_room(alloc, room)?;
    let mut k = K::with_room(alloc, room)?;
    let mut n = N::with_room(alloc, room)?;
    let mut m = M::with_room(alloc, room)?;
    for line in calls.lines() {
        let call = Call::new(line);
        if call.verb == "compress_recaster" {
            h.compress(&mut k, alloc, transcript, &call);
        } else {
            play_line(&mut h, &mut k, &mut n, &mut m, transcript, &call);
        }
    }
    Ok(())
}

fn play_line<
    P: PtrCore + Debug,
    A: Part + Recast<P>,
    K: Part + Recast<P>,
    N: Part + Recaster<Item = P>,
    M: Part + Recaster<Item = P>,
>(h: &mut A, k: &mut K, n: &mut N, m: &mut M, transcript: &mut Transcript, call: &Call<'_>) {
    match call.whom {
        "h=n" | "h=m" => rename(h, n, m, transcript, call),
        "k=n" | "k=m" => rename(k, n, m, transcript, call),
        "h" | "h|" => h.call(transcript, call),
        "k" => k.call(transcript, call),
        "n" => n.call(transcript, call),
        "m" => m.call(transcript, call),
        _ => transcript.line(call.line),
    }
}

// Renames what an arena holds.
fn rename<P: PtrCore + Debug, A: Recast<P>, R: Recaster<Item = P>, Q: Recaster<Item = P>>(
    holder: &mut A,
    n: &R,
    m: &Q,
    transcript: &mut Transcript,
    call: &Call<'_>,
) {
    match call.whom {
        "h=n" | "k=n" => transcript.answer(call.line, &recast(holder, n)),
        _ => transcript.answer(call.line, &recast(holder, m)),
    }
}

// Renames the pointers in an arena.
fn recast<P: PtrCore, A: Recast<P>, R: Recaster<Item = P>>(
    arena: &mut A,
    names: &R,
) -> Result<(), P> {
    arena.recast(names)
}

// Renames a pointer, and tells what it is then.
fn recast_item<P: PtrCore + Debug, R: Recaster<Item = P>>(
    names: &R,
    transcript: &mut Transcript,
    call: &Call<'_>,
) {
    let mut item: P = call.pointer();
    transcript.answer(call.line, &names.recast_item(&mut item));
    transcript.answer(call.line, &item);
}

// Stores what is held under the pointer of the first two numbers.
fn put<P: PtrCore, T: Drop, D: DirectSlots<P, T>>(
    arena: &mut DirectArena<P, T, D>,
    held: T,
    transcript: &mut Transcript,
    call: &Call<'_>,
) {
    match arena.direct_insert_within_capacity(call.pointer()) {
        Ok(place) => {
            place.insert(held);
            transcript.answer(call.line, &());
        }
        Err(refusal) => transcript.answer(call.line, &refusal),
    }
}
