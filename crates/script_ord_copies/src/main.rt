//! `script_ord_copies` reads sections of calls from the standard input, makes each call at arenas
//! that are copied into others, and writes each line again with the call's answer behind it.
//!
//! Sections are split by an empty line. The first line of one is `POINTER STACK FIRST LAST`, where
//! the stack is `copying-heap`, `copying-limited`, `copying-array` or `renaming`. A section is
//! played once for each request for memory from the first to the last, which is refused; 0 refuses
//! none. The other lines are calls: `WHOM CALL NUMBERS`.
//!
//! The copies are among arenas over stacks of one kind: the ordered arenas `a` and `c`, the chain
//! arena `h`, and the arena `v` of values. Over stacks that take a limit they are `a` and `c`
//! alone. `a<c transfer_canonical G` moves the entries of `c` to `a`, under that generation;
//! `a* compress_with 1` compresses `a` with a reset. `renaming.rt` has the arenas of the other
//! sections.
#![tactic(auto)]

ghost use Rattle.std.specs.Prelude.{◌<◌};

mod copies;
mod items;
mod players;
mod renaming;

use items::{Item, Links, Pairs, Slot, Values};
use renaming::NamedSlot;
use script_ord_calls::{play_copies, play_limited_copies};
use std::alloc::{Allocator, Global};
use std::io;
use test_kit::{Call, N3, RefusingAllocator, Transcript};
use triple_arena::{
    Arena, ArenaSlot, ArenaTrait, NonZeroInxArray, NonZeroInxGenericStack, NonZeroInxLimitedStack,
    NonZeroInxLimitedVec, NonZeroInxVec, P0, P1, P5, Ptr, ReallocationError, Recast,
};
use triple_arena_chain::{ChainArena, LinkNoGen};
use triple_arena_ord::SimpleOrdArena;

// A heap that refuses a request.
type Heap<'a> = &'a RefusingAllocator<Global>;

type ChainSlot<P> = ArenaSlot<P, LinkNoGen<P, u64>>;

type Value<P> = ArenaSlot<P, u64>;

fn main(rt: HostRuntime) -> io::Result<()> {
    let script = io::read_to_string(rt.alloc(), rt.reader())?;
    let mut transcript = Transcript::new(rt.alloc());
    for section in script.split("\n\n") {
        play(rt.alloc(), &mut transcript, section);
    }
    rt.print(transcript.text())?;
    Ok(())
}

// Makes the calls of a section once for each request for memory that is refused.
fn play(alloc: Global, transcript: &mut Transcript, section: &str) {
    let (header, lines) = section.split_once('\n').unwrap_or((section, ""));
    transcript.line(header);
    let header = Call::new(header);
    for nth in header.first..=header.second {
        transcript.answer("refused request", &nth);
        let heap = RefusingAllocator::new(alloc, refused(nth));
        let made = match header.whom {
            "P0" => play_over::<P0, Heap<'_>>(&heap, transcript, header.verb, lines),
            "P1" => over_array(transcript, lines),
            "P5" => play_over::<P5, Heap<'_>>(&heap, transcript, header.verb, lines),
            "N3" => play_over::<N3, Heap<'_>>(&heap, transcript, header.verb, lines),
            _ => Err(ReallocationError::BeyondMaxCapacity),
        };
        if let Err(refused) = made {
            transcript.answer(header.line, &refused);
        }
    }
}

fn refused(nth: u64) -> u64
    ensures { 0 < result }
{
    if nth == 0 { u64::MAX } else { nth }
}

// Over arrays, whose size is known only where the pointer type is.
fn over_array(transcript: &mut Transcript, lines: &str) -> Result<(), ReallocationError> {
    over::<
        P1,
        (),
        NonZeroInxArray<Slot<P1>, 8>,
        NonZeroInxArray<ChainSlot<P1>, 8>,
        NonZeroInxArray<Value<P1>, 8>,
    >((), transcript, lines);
    Ok(())
}

// Over stacks in a heap. It is generic in the heap, since what vectors owe an arena costs more to
// prove if the heap is known.
fn play_over<P: Ptr + Recast<P>, H: Allocator + Copy>(
    heap: H,
    transcript: &mut Transcript,
    stack: &str,
    lines: &str,
) -> Result<(), ReallocationError> {
    if stack == "renaming" {
        renaming::over::<P, NonZeroInxVec<NamedSlot<P>, H>, NonZeroInxVec<ArenaSlot<P, P>, H>>(
            heap, heap, transcript, lines,
        );
        return Ok(());
    }
    beside_vectors::<P, H, NonZeroInxVec<ChainSlot<P>, H>, NonZeroInxVec<Value<P>, H>>(
        heap, transcript, stack, lines,
    )
}

// Over one of two stacks for `a` and `c`, and vectors for `h` and `v`, which are vectors to the
// caller alone. The bounds are those of which `ChainSlots` and its kin are short forms. A stack
// meets them in half the time.
fn beside_vectors<
    P: Ptr,
    H: Allocator + Copy,
    C: NonZeroInxGenericStack<Item = ChainSlot<P>, Alloc = H> + Drop,
    V: NonZeroInxGenericStack<Item = Value<P>, Alloc = H> + Drop,
>(heap: H, transcript: &mut Transcript, stack: &str, lines: &str) -> Result<(), ReallocationError> {
    match stack {
        "copying-heap" => over::<P, H, NonZeroInxVec<Slot<P>, H>, C, V>(heap, transcript, lines),
        "copying-limited" => {
            over_limited::<P, H, NonZeroInxLimitedVec<Slot<P>, H>>(heap, transcript, lines)
        }
        _ => return Err(ReallocationError::BeyondMaxCapacity),
    }
    Ok(())
}

fn over<
    P: Ptr,
    H: Copy,
    S: NonZeroInxGenericStack<Item = Slot<P>, Alloc = H> + Drop,
    C: NonZeroInxGenericStack<Item = ChainSlot<P>, Alloc = H> + Drop,
    V: NonZeroInxGenericStack<Item = Value<P>, Alloc = H> + Drop,
>(alloc: H, transcript: &mut Transcript, lines: &str) {
    let mut a = Pairs {
        arena: SimpleOrdArena::<P, Item, S>::new(alloc),
    };
    let mut c = Pairs {
        arena: SimpleOrdArena::<P, Item, S>::new(alloc),
    };
    let mut h = Links {
        chains: ChainArena::<P, u64, C>::new(alloc),
    };
    let mut v = Values {
        arena: Arena::<P, u64, V>::new(alloc),
    };
    play_copies(&mut a, &mut c, &mut h, &mut v, alloc, transcript, lines);
}

// Over stacks that take a limit.
fn over_limited<P: Ptr, H: Copy, S: NonZeroInxLimitedStack<Item = Slot<P>, Alloc = H> + Drop>(
    alloc: H,
    transcript: &mut Transcript,
    lines: &str,
) {
    let mut a = Pairs {
        arena: SimpleOrdArena::<P, Item, S>::new(alloc),
    };
    let mut c = Pairs {
        arena: SimpleOrdArena::<P, Item, S>::new(alloc),
    };
    play_limited_copies(&mut a, &mut c, alloc, transcript, lines);
}
