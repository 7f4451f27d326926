//! `script_ord_search` reads sections of calls that search an ordered arena, or put items in, from
//! the standard input. It makes each call, and writes each line again with the call's answer behind
//! it.
//!
//! Sections are split by an empty line. The first line of one is `POINTER STACK ROOM FIRST LAST`,
//! and the others are calls, one a line: `a CALL NUMBERS`. The arena is over that pointer and
//! stack, with that room. The items are pairs of a key and a value; the keys count their
//! comparisons. A section is played once for each request for memory from the first to the last,
//! which is refused; 0 refuses none.
#![tactic(auto)]

ghost use Rattle.std.specs.Prelude.{◌<◌};

mod entries;
mod finds;
mod insertions;
mod items;
mod nodes;
mod reads;

use items::{CountingKey, Item, Key, Pairs, Slot, item};
use script_ord_calls::{CountingPlayer, call_any, call_tree, play_counted};
use std::alloc::{Allocator, Global};
use std::cell::Cell;
use std::io;
use test_kit::{Call, N3, RefusingAllocator, Transcript};
use triple_arena::{
    ArenaTrait, NonZeroInxArray, NonZeroInxBoxedSlice, NonZeroInxGenericStack,
    NonZeroInxLimitedVec, NonZeroInxVec, P0, P1, P3, P5, Ptr, ReallocationError,
};
use triple_arena_ord::{OrdSlots, SimpleOrdArena};

type Heap<'a> = &'a RefusingAllocator<Global>;

type InArray<'a, P> = NonZeroInxArray<Slot<P, Key<'a>>, 8>;

fn main(rt: HostRuntime) -> io::Result<()> {
    let script = io::read_to_string(rt.alloc(), rt.reader())?;
    let mut transcript = Transcript::new(rt.alloc());
    for section in script.split("\n\n") {
        play(rt.alloc(), &mut transcript, section);
    }
    rt.print(transcript.text())?;
    Ok(())
}

fn play(alloc: Global, transcript: &mut Transcript, section: &str) {
    let (header, calls) = section.split_once('\n').unwrap_or((section, ""));
    transcript.line(header);
    let header = Call::new(header);
    for nth in header.second..=header.third {
        transcript.answer("refused request", &nth);
        let heap = RefusingAllocator::new(alloc, refused(nth));
        let count = Cell::new(0u64);
        let script = Script {
            header,
            lines: calls,
        };
        if let Err(refused) = play_over(&heap, Key::zero(&count), transcript, script) {
            transcript.answer(header.line, &refused);
        }
    }
}

fn refused(nth: u64) -> u64
    ensures { 0 < result }
{
    if nth == 0 { u64::MAX } else { nth }
}

// The calls of a section.
#[derive(Clone, Copy)]
struct Script<'a> {
    header: Call<'a>,
    lines: &'a str,
}

fn play_over<'a>(
    heap: Heap<'a>,
    zero: Key<'a>,
    transcript: &mut Transcript,
    script: Script<'_>,
) -> Result<(), ReallocationError> {
    if script.header.verb == "array" {
        return over_array(zero, transcript, script);
    }
    match script.header.whom {
        "P0" => over_stack::<P0, Key<'a>, Heap<'a>>(heap, zero, transcript, script),
        "P1" => over_stack::<P1, Key<'a>, Heap<'a>>(heap, zero, transcript, script),
        "P3" => over_stack::<P3, Key<'a>, Heap<'a>>(heap, zero, transcript, script),
        "P5" => over_stack::<P5, Key<'a>, Heap<'a>>(heap, zero, transcript, script),
        "N3" => over_stack::<N3, Key<'a>, Heap<'a>>(heap, zero, transcript, script),
        _ => Err(ReallocationError::BeyondMaxCapacity),
    }
}

// Over arrays, whose size is known only where the pointer type is.
fn over_array<'a>(
    zero: Key<'a>,
    transcript: &mut Transcript,
    script: Script<'_>,
) -> Result<(), ReallocationError> {
    match script.header.whom {
        "P0" => over::<P0, Key<'a>, InArray<'a, P0>>((), zero, transcript, script),
        "P1" => over::<P1, Key<'a>, InArray<'a, P1>>((), zero, transcript, script),
        _ => Err(ReallocationError::BeyondMaxCapacity),
    }
}

// Over stacks in a heap. It is generic in the keys and the heap, since what a stack owes its arena
// costs more to prove if these are known.
fn over_stack<P: Ptr, K: CountingKey, H: Allocator + Copy>(
    heap: H,
    zero: K,
    transcript: &mut Transcript,
    script: Script<'_>,
) -> Result<(), ReallocationError> {
    match script.header.verb {
        "heap" => { over::<P, K, NonZeroInxVec<Slot<P, K>, H>>(heap, zero, transcript, script) }
        "limited" => {
            over::<P, K, NonZeroInxLimitedVec<Slot<P, K>, H>>(heap, zero, transcript, script)
        }
        "boxed" => {
            over::<P, K, NonZeroInxBoxedSlice<Slot<P, K>, H>>(heap, zero, transcript, script)
        }
        _ => Err(ReallocationError::BeyondMaxCapacity),
    }
}

// The arena has so much room, which is asked for if it is not 0. The bound is that of which
// `OrdSlots` is a short form. A stack meets it in half the time.
fn over<P: Ptr, K: CountingKey, S: NonZeroInxGenericStack<Item = Slot<P, K>> + Drop>(
    alloc: S::Alloc,
    zero: K,
    transcript: &mut Transcript,
    script: Script<'_>,
) -> Result<(), ReallocationError> {
    let room = script.header.first as usize;
    let arena = if room == 0 {
        SimpleOrdArena::<P, Item<K>, S>::new(alloc)
    } else {
        SimpleOrdArena::<P, Item<K>, S>::with_min_capacity(alloc, room)?
    };
    let mut arena = Pairs { arena };
    play_counted(&mut arena, zero, transcript, script.lines);
    Ok(())
}

// The text of an arena asks more of its pointers than the calls do.
impl<P: Ptr, K: CountingKey, S: OrdSlots<P, Item<K>>> CountingPlayer<K> for Pairs<P, K, S> {
    fn play_counting(&mut self, transcript: &mut Transcript, call: &Call<'_>, zero: K) {
        if call.verb == "show" {
            transcript.answer(call.line, &self.arena);
        } else {
            let at_pointer = item(call.third, call.fourth, zero);
            let at_index = item(call.second, call.third, zero);
            if !call_any(&mut self.arena, transcript, call, at_pointer, at_index) {
                call_tree(self, transcript, call, zero);
            }
        }
    }
}
