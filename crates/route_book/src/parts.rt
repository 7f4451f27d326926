//! The parts of a new store. Each has a function of its own, which knows of no other part.
ghost use Rattle.std.specs.Prelude.{◌≡◌, ◌+◌, ◌<◌, ◌≤◌, None, Some, [], IfOk, IfErr, IsTrue, ⊤};
ghost use Rattle.triple_arena.specs.ArenaRoom.{room_of};
ghost use Rattle.triple_arena.specs.Content.{arena_capacity, empty};
ghost use Rattle.triple_arena.specs.DirectContent.{empty as no_pointers};
ghost use Rattle.triple_arena_ord.specs.Ordered.{IsOrdered};
ghost use Rattle.triple_arena_ptr.specs.Generation.{second_generation};
ghost use Rattle.triple_arena_ptr.specs.Index.{max_index_of};
ghost use Rattle.triple_arena_stack.specs.Room.{IsBeyond};
ghost use Rattle.route_book.specs.Rooms.{counts_short, refusal_of};

use crate::backing::BookBacking;
use crate::items::{Mark, Place, Stop};
use route_lines::RoomError;
use ticket_book::{Entry, TicketBook};
use triple_arena::{Arena, ArenaSlots, ArenaTrait, DirectArena, DirectSlots};
use triple_arena_chain::{ChainArena, ChainSlots};
use triple_arena_ord::{OrdSlots, SimpleOrdArena};
use triple_arena_ptr::{PtrCore, PtrGenCore, PtrInxCore, ReallocationError};

// Whether the generations do not count to 3.
fn counts_short<P: PtrCore>() -> bool
    ensures { result ≡ counts_short P.Gen.last }
{
    P::Gen::two().generational_inc().0 == P::Gen::two()
}

// The greatest index that is a number.
fn max_index<P: PtrCore>() -> usize
    ensures { result ≡ max_index_of P.Inx.greatest }
{
    match P::Inx::max_index().try_into_usize() {
        Some(max) => max.get(),
        None => unreachable!(),
    }
}

// The sum of the rooms, or why they are refused.
pub(crate) fn room_sum<P: PtrCore, B: BookBacking<P>>(
    places: usize,
    stops: usize,
    marks: usize,
) -> Result<usize, RoomError>
    ensures sum { IfOk result (λ n. n ≡ places + stops + marks) }
    ensures accepted { IfOk result (λ n. refusal_of P.Gen.last P.Inx.greatest B.limit n ≡ None) }
    ensures refused { IfErr result (λ e.
        refusal_of P.Gen.last P.Inx.greatest B.limit (places + stops + marks) ≡ Some e) }
{
    if counts_short::<P>() {
        return Err(RoomError::Generation);
    }
    if stops > usize::MAX - places || marks > usize::MAX - places - stops {
        return Err(RoomError::Index);
    }
    let sum = places + stops + marks;
    if sum > max_index::<P>() {
        return Err(RoomError::Index);
    }
    match B::limit() {
        Some(limit) if limit < sum => Err(RoomError::Stack),
        _ => Ok(sum),
    }
}

// What a refused part makes of the store.
fn refusal(error: ReallocationError) -> RoomError
    requires { error ≡ ReallocationError.AllocError }
    ensures { result ≡ RoomError.Memory }
{
    match error {
        ReallocationError::AllocError => RoomError::Memory,
        ReallocationError::BeyondMaxCapacity => unreachable!(),
    }
}

// The arena of the places.
fn make_places<P: PtrCore, S: OrdSlots<P, Place>>(
    memory: S::Alloc,
    room: usize,
) -> Result<SimpleOrdArena<P, Place, S>, RoomError>
    requires { IsBeyond (room_of P.Inx.greatest (S.room_at room)).limit room → ⊥ }
    ensures exact { IfOk result (λ a. a.chains
        ≡ empty (second_generation P.Gen.last) (room_of P.Inx.greatest (S.room_at room))) }
    ensures fits { IfOk result (λ a. room ≤ arena_capacity a.chains) }
    ensures ordered { IfOk result (λ a. IsOrdered a) }
    ensures refused { IfErr result (λ e. (e ≡ RoomError.Memory) × IsTrue S.takes_memory
        × (0 < room)) }
{
    match SimpleOrdArena::with_min_capacity(memory, room) {
        Ok(arena) => Ok(arena),
        Err(error) => Err(refusal(error)),
    }
}

// The arena of the stops.
fn make_stops<P: PtrCore, S: ChainSlots<P, Stop<P>>>(
    memory: S::Alloc,
    room: usize,
) -> Result<ChainArena<P, Stop<P>, S>, RoomError>
    requires { IsBeyond (room_of P.Inx.greatest (S.room_at room)).limit room → ⊥ }
    ensures exact { IfOk result (λ a. a
        ≡ empty (second_generation P.Gen.last) (room_of P.Inx.greatest (S.room_at room))) }
    ensures fits { IfOk result (λ a. room ≤ arena_capacity a) }
    ensures refused { IfErr result (λ e. (e ≡ RoomError.Memory) × IsTrue S.takes_memory
        × (0 < room)) }
{
    match ChainArena::with_min_capacity(memory, room) {
        Ok(arena) => Ok(arena),
        Err(error) => Err(refusal(error)),
    }
}

// The arena of the marks.
fn make_marks<P: PtrCore, S: ArenaSlots<P, Mark<P>>>(
    memory: S::Alloc,
    room: usize,
) -> Result<Arena<P, Mark<P>, S>, RoomError>
    requires { IsBeyond (room_of P.Inx.greatest (S.room_at room)).limit room → ⊥ }
    ensures exact { IfOk result (λ a. a
        ≡ empty (second_generation P.Gen.last) (room_of P.Inx.greatest (S.room_at room))) }
    ensures fits { IfOk result (λ a. room ≤ arena_capacity a) }
    ensures refused { IfErr result (λ e. (e ≡ RoomError.Memory) × IsTrue S.takes_memory
        × (0 < room)) }
{
    match Arena::with_min_capacity(memory, room) {
        Ok(arena) => Ok(arena),
        Err(error) => Err(refusal(error)),
    }
}

// The ticket book.
pub(crate) fn make_book<P: PtrCore, S: OrdSlots<P, Entry<P>>>(
    memory: S::Alloc,
    room: usize,
) -> Result<TicketBook<P, S>, RoomError>
    requires fits { IsBeyond (room_of P.Inx.greatest (S.room_at room)).limit room → ⊥ }
    requires no_more { ⊤ }
    ensures empty { IfOk result (λ b. b.entries ≡ []) }
    ensures fits { IfOk result (λ b. room ≤ b.capacity) }
    ensures refused { IfErr result (λ e. (e ≡ RoomError.Memory) × IsTrue S.takes_memory
        × (0 < room)) }
{
    match TicketBook::with_room(memory, room) {
        Ok(book) => Ok(book),
        Err(error) => Err(refusal(error)),
    }
}

// A mirror for an arena of so many items.
fn make_mirror<P: PtrCore, S: DirectSlots<P, P>>(
    memory: S::Alloc,
    room: usize,
) -> Result<DirectArena<P, P, S>, RoomError>
    requires { IsBeyond (room_of P.Inx.greatest (S.room_at room)).limit room → ⊥ }
    ensures exact { IfOk result (λ d. d ≡ no_pointers (room_of P.Inx.greatest (S.room_at room))) }
    ensures refused { IfErr result (λ e. (e ≡ RoomError.Memory) × IsTrue S.takes_memory
        × (0 < room)) }
{
    match DirectArena::with_min_capacity(memory, room) {
        Ok(mirror) => Ok(mirror),
        Err(error) => Err(refusal(error)),
    }
}

// The arenas of a store.
#[derive(Drop)]
pub(crate) struct Arenas<P: PtrCore, B: BookBacking<P>> {
    pub(crate) places: SimpleOrdArena<P, Place, B::Places>,
    pub(crate) stops: ChainArena<P, Stop<P>, B::Stops>,
    pub(crate) marks: Arena<P, Mark<P>, B::Marks>,
}

// The arenas of a new store.
pub(crate) fn make_arenas<P: PtrCore, B: BookBacking<P>>(
    backing: &B,
    places: usize,
    stops: usize,
    marks: usize,
) -> Result<Arenas<P, B>, RoomError>
    requires places { IsBeyond (room_of P.Inx.greatest (B.Places.room_at places)).limit places → ⊥ }
    requires stops { IsBeyond (room_of P.Inx.greatest (B.Stops.room_at stops)).limit stops → ⊥ }
    requires marks { IsBeyond (room_of P.Inx.greatest (B.Marks.room_at marks)).limit marks → ⊥ }
    ensures places { IfOk result (λ a. a.places.chains
        ≡ empty (second_generation P.Gen.last) (room_of P.Inx.greatest (B.Places.room_at places))) }
    ensures ordered { IfOk result (λ a. IsOrdered a.places) }
    ensures stops { IfOk result (λ a. a.stops
        ≡ empty (second_generation P.Gen.last) (room_of P.Inx.greatest (B.Stops.room_at stops))) }
    ensures marks { IfOk result (λ a. a.marks
        ≡ empty (second_generation P.Gen.last) (room_of P.Inx.greatest (B.Marks.room_at marks))) }
    ensures places_fit { IfOk result (λ a. places ≤ arena_capacity a.places.chains) }
    ensures stops_fit { IfOk result (λ a. stops ≤ arena_capacity a.stops) }
    ensures marks_fit { IfOk result (λ a. marks ≤ arena_capacity a.marks) }
    ensures refused { IfErr result (λ e. (e ≡ RoomError.Memory) × IsTrue B.takes_memory
        × (0 < places + stops + marks)) }
{
    Ok(Arenas {
        places: make_places(backing.places_memory(), places)?,
        stops: make_stops(backing.stops_memory(), stops)?,
        marks: make_marks(backing.marks_memory(), marks)?,
    })
}

// The mirrors of a store.
#[derive(Drop)]
pub(crate) struct Mirrors<P: PtrCore, S: DirectSlots<P, P>> {
    pub(crate) places: DirectArena<P, P, S>,
    pub(crate) stops: DirectArena<P, P, S>,
    pub(crate) marks: DirectArena<P, P, S>,
}

// The mirrors of a new store.
pub(crate) fn make_mirrors<P: PtrCore, B: BookBacking<P>>(
    backing: &B,
    places: usize,
    stops: usize,
    marks: usize,
) -> Result<Mirrors<P, B::Mirror>, RoomError>
    requires places { IsBeyond (room_of P.Inx.greatest (B.Mirror.room_at places)).limit places → ⊥ }
    requires stops { IsBeyond (room_of P.Inx.greatest (B.Mirror.room_at stops)).limit stops → ⊥ }
    requires marks { IsBeyond (room_of P.Inx.greatest (B.Mirror.room_at marks)).limit marks → ⊥ }
    ensures places { IfOk result
        (λ m. m.places ≡ no_pointers (room_of P.Inx.greatest (B.Mirror.room_at places))) }
    ensures stops { IfOk result
        (λ m. m.stops ≡ no_pointers (room_of P.Inx.greatest (B.Mirror.room_at stops))) }
    ensures marks { IfOk result
        (λ m. m.marks ≡ no_pointers (room_of P.Inx.greatest (B.Mirror.room_at marks))) }
    ensures refused { IfErr result (λ e. (e ≡ RoomError.Memory) × IsTrue B.takes_memory
        × (0 < places + stops + marks)) }
{
    Ok(Mirrors {
        places: make_mirror(backing.mirror_memory(), places)?,
        stops: make_mirror(backing.mirror_memory(), stops)?,
        marks: make_mirror(backing.mirror_memory(), marks)?,
    })
}
