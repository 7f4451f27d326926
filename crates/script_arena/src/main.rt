//! `script_arena` reads sections of calls from the standard input, makes each call at an arena, and
//! writes each line again with the call's answer behind it. An empty line ends a section.
//!
//! A section begins with its header, `POINTERS STACKS ROOM FIRST LAST MORE END`:
//!
//! - POINTERS are pointer types, with `,` between them: `P0` to `P5`, `Q2`, or `N3`, whose
//!   generations end at 3;
//! - STACKS are kinds of stack: `heap`, `limited`, `boxed`, or `array`, which has five slots. Of
//!   these pairs the program plays over those of `kinds.rt`;
//! - ROOM is the capacity that the arenas are made with, and MORE what `b` and `e` have beyond it;
//! - each time the calls are made once for each request for memory from FIRST to LAST, which is
//!   refused. Request 0 is none;
//! - with END 1 they end with a clone of `a`, one of `d`, and `b` and `e` gone over by value.
//!
//! There are the arenas `a` and `b`, and `d` and `e`, to which the script gives the pointers. A
//! line names whose call it is, the call, and its numbers: `a insert 7` stores 7 in `a`.
//! `a=b copy`, `a<b transfer` and `a~b clone_from` make `a` a copy of `b`, or move what `b` has to
//! `a`; `a| set_max_capacity 3` limits a limited arena. Over the stacks `renaming` and
//! `renaming_array` the arenas hold pointers, and `renaming.rt` says what they are. A line of no
//! arena is written as it is, so that `#` begins a comment. A number that a line lacks is 0. A
//! pointer is two numbers, index and generation.
#![tactic(auto)]

ghost use Rattle.std.specs.Prelude.{◌<◌};

mod any_arena;
mod arena;
mod direct;
mod kinds;
mod player;
mod renaming;
mod section;
mod several;
mod stacks;

use std::alloc::Global;
use std::io;
use test_kit::{Call, RefusingAllocator, Transcript};

fn main(rt: HostRuntime) -> io::Result<()> {
    let script = io::read_to_string(rt.alloc(), rt.reader())?;
    let mut transcript = Transcript::new(rt.alloc());
    for section in script.split("\n\n") {
        play(rt.alloc(), &mut transcript, section);
    }
    rt.print(transcript.text())?;
    Ok(())
}

// Makes the calls of a section over each of its pointer types and stacks, once, or once for each
// request for memory that is refused.
fn play(alloc: Global, transcript: &mut Transcript, section: &str) {
    let (header, calls) = section.split_once('\n').unwrap_or((section, ""));
    transcript.line(header);
    let header = Call::new(header);
    for kind in header.whom.split(',') {
        for stack in header.verb.split(',') {
            if kinds::has(kind, stack) {
                for nth in header.second..=header.third {
                    play_once(alloc, transcript, &Run { kind, stack, nth }, &header, calls);
                }
            }
        }
    }
}

// Over which pointer type and stack a section is played, and the request for memory that is
// refused.
#[derive(Clone, Copy)]
struct Run<'a> {
    kind: &'a str,
    stack: &'a str,
    nth: u64,
}

fn play_once(
    alloc: Global,
    transcript: &mut Transcript,
    run: &Run<'_>,
    header: &Call<'_>,
    calls: &str,
) {
    transcript.answer("over", &(run.kind, run.stack, run.nth));
    let heap = RefusingAllocator::new(alloc, refused(run.nth));
    let kind = (run.kind, run.stack);
    if let Err(refused) = kinds::play_over(&heap, transcript, kind, header, calls) {
        transcript.answer("made", &refused);
    }
    transcript.answer("was refused", &heap.has_refused());
}

fn refused(nth: u64) -> u64
    ensures { 0 < result }
{
    if nth == 0 { u64::MAX } else { nth }
}
