//! `script_ord` reads sections of calls from the standard input, makes each call at an ordered
//! arena, and writes each line again with the call's answer behind it.
//!
//! Sections are split by an empty line. The first line of one is `POINTER STACK`, and the others
//! are calls, one a line: `WHOM CALL NUMBERS`. The arena `a` is over that pointer and stack, the
//! arena `b` over `P1` and a vector. The items are pairs of a key and a value. Insertions of each
//! kind, searches and the tree are in `script_ord_search`, copies of arenas in `script_ord_copies`.
#![tactic(auto)]

mod changes;
mod items;
mod reads;
mod several;
mod walks;

use items::{Item, Pairs, Slot};
use script_ord_calls::{Player, call_any, call_list, play_beside};
use std::alloc::Global;
use std::io;
use test_kit::{Call, N3, Transcript};
use triple_arena::{
    ArenaTrait, NonZeroInxArray, NonZeroInxGenericStack, NonZeroInxVec, P0, P1, P3, P5, Ptr,
};
use triple_arena_ord::{OrdPair, OrdSlots, SimpleOrdArena};

type InArray<P> = NonZeroInxArray<Slot<P>, 8>;

type OnHeap<P> = NonZeroInxVec<Slot<P>, Global>;

fn main(rt: HostRuntime) -> io::Result<()> {
    let script = io::read_to_string(rt.alloc(), rt.reader())?;
    let mut transcript = Transcript::new(rt.alloc());
    for section in script.split("\n\n") {
        play(rt.alloc(), &mut transcript, section);
    }
    rt.print(transcript.text())?;
    Ok(())
}

fn play(heap: Global, transcript: &mut Transcript, section: &str) {
    let (header, lines) = section.split_once('\n').unwrap_or((section, ""));
    transcript.line(header);
    match header {
        "P0 heap" => on_heap::<P0>(heap, transcript, lines),
        "P3 heap" => on_heap::<P3>(heap, transcript, lines),
        "N3 heap" => on_heap::<N3>(heap, transcript, lines),
        "P0 array" => beside::<P0, InArray<P0>>((), heap, transcript, lines),
        "P1 array" => beside::<P1, InArray<P1>>((), heap, transcript, lines),
        "P5 array" => beside::<P5, InArray<P5>>((), heap, transcript, lines),
        _ => transcript.line("no such arena"),
    }
}

// Over vectors. What a stack owes its arena is proved here once for all pointers.
fn on_heap<P: Ptr>(heap: Global, transcript: &mut Transcript, lines: &str) {
    beside::<P, OnHeap<P>>(heap, heap, transcript, lines);
}

// Over a stack for `a`, and a vector for `b`. The bounds are those of which `OrdSlots` is a short
// form. A stack meets them in half the time.
fn beside<P: Ptr, S: NonZeroInxGenericStack<Item = Slot<P>> + Drop>(
    alloc: S::Alloc,
    heap: Global,
    transcript: &mut Transcript,
    lines: &str,
) {
    beside_vector::<P, P1, S>(alloc, heap, transcript, lines);
}

// What the vector owes costs more if its pointers are known.
fn beside_vector<P: Ptr, Q: Ptr, S: NonZeroInxGenericStack<Item = Slot<P>> + Drop>(
    alloc: S::Alloc,
    heap: Global,
    transcript: &mut Transcript,
    lines: &str,
) {
    over::<P, Q, S, OnHeap<Q>>(alloc, heap, transcript, lines);
}

// Makes the calls of a section at two new arenas.
fn over<
    P: Ptr,
    Q: Ptr,
    S: NonZeroInxGenericStack<Item = Slot<P>> + Drop,
    R: NonZeroInxGenericStack<Item = Slot<Q>> + Drop,
>(first: S::Alloc, second: R::Alloc, transcript: &mut Transcript, lines: &str) {
    let mut a = Pairs {
        arena: SimpleOrdArena::<P, Item, S>::new(first),
    };
    let mut b = Pairs {
        arena: SimpleOrdArena::<Q, Item, R>::new(second),
    };
    play_beside(&mut a, &mut b, transcript, lines);
}

// The text of an arena asks more of its pointers than the calls do.
impl<P: Ptr, S: OrdSlots<P, Item>> Player for Pairs<P, S> {
    fn play(&mut self, transcript: &mut Transcript, call: &Call<'_>) {
        if call.verb == "show" {
            transcript.answer(call.line, &self.arena);
        } else {
            let at_pointer = OrdPair::new(call.third, call.fourth);
            let at_index = OrdPair::new(call.second, call.third);
            if !call_any(&mut self.arena, transcript, call, at_pointer, at_index) {
                call_list(self, transcript, call);
            }
        }
    }
}
