//! The calls of a `ChainArena`.
ghost use Rattle.std.specs.Prelude.{IfOk};

use crate::kind::kind;
use crate::links;
use crate::player::Player;
use std::fmt::Debug;
use test_kit::{Call, ShownPtr, Transcript, generation};
use triple_arena::{ArenaInsertEntryTrait, ArenaTrait, Ptr, ReallocationError};
use triple_arena_chain::{ChainArena, ChainArenaTrait, ChainSlots, LinkInsertKind};

impl<P: Ptr, S: ChainSlots<P, u64>> Player for ChainArena<P, u64, S> {
    type Alloc = S::Alloc;

    fn with_room(alloc: S::Alloc, room: usize) -> Result<Self, ReallocationError> {
        Self::with_min_capacity(alloc, room)
    }

    fn call(&mut self, transcript: &mut Transcript, call: &Call<'_>) {
        // A text asks more of its pointers than the calls do.
        if call.verb == "show" {
            transcript.answer(call.line, self);
        } else {
            call_without_text(self, transcript, call);
        }
    }
}

fn call_without_text<P: ShownPtr, S: ChainSlots<P, u64>>(
    chains: &mut ChainArena<P, u64, S>,
    transcript: &mut Transcript,
    call: &Call<'_>,
) {
    if !(links::call(chains, transcript, call)
        || reads(chains, transcript, call)
        || changes(chains, transcript, call)
        || enters(chains, transcript, call))
    {
        transcript.answer(call.line, &"no such call");
    }
}

fn reads<P: ShownPtr, S: ChainSlots<P, u64>>(
    chains: &ChainArena<P, u64, S>,
    transcript: &mut Transcript,
    call: &Call<'_>,
) -> bool {
    let line = call.line;
    match call.verb {
        "generation" => transcript.answer(line, &chains.generation()),
        "slots" => transcript.answer(line, &chains.backing().len()),
        "ptrs" => ptrs(chains, transcript, line),
        "vals" => vals(chains, transcript, line),
        "iter" => iter(chains, transcript, line),
        "iter_link_no_gen" => iter_link_no_gen(chains, transcript, line),
        "iter_chain" => iter_chain(chains, transcript, call),
        "at" => at(chains, transcript, call),
        _ => return false,
    }
    true
}

fn ptrs<P: ShownPtr, S: ChainSlots<P, u64>>(
    chains: &ChainArena<P, u64, S>,
    transcript: &mut Transcript,
    line: &str,
) {
    for p in chains.ptrs() {
        transcript.answer(line, &p);
    }
}

fn vals<P: ShownPtr, S: ChainSlots<P, u64>>(
    chains: &ChainArena<P, u64, S>,
    transcript: &mut Transcript,
    line: &str,
) {
    for value in chains.vals() {
        transcript.answer(line, value);
    }
}

fn iter<P: ShownPtr, S: ChainSlots<P, u64>>(
    chains: &ChainArena<P, u64, S>,
    transcript: &mut Transcript,
    line: &str,
) {
    for entry in chains {
        transcript.answer(line, &entry);
    }
}

fn iter_link_no_gen<P: ShownPtr, S: ChainSlots<P, u64>>(
    chains: &ChainArena<P, u64, S>,
    transcript: &mut Transcript,
    line: &str,
) {
    for entry in chains.iter_link_no_gen() {
        transcript.answer(line, &entry);
    }
}

fn iter_chain<P: ShownPtr, S: ChainSlots<P, u64>>(
    chains: &ChainArena<P, u64, S>,
    transcript: &mut Transcript,
    call: &Call<'_>,
) {
    match chains.iter_chain(call.pointer()) {
        Some(links) => {
            for entry in links {
                transcript.answer(call.line, &entry);
            }
        }
        None => transcript.answer(call.line, &"no chain"),
    }
}

// Reads by `chains[p]`.
fn at<P: ShownPtr, S: ChainSlots<P, u64>>(
    chains: &ChainArena<P, u64, S>,
    transcript: &mut Transcript,
    call: &Call<'_>,
) {
    let p = call.pointer();
    if chains.contains(p) {
        transcript.answer(call.line, &chains[p]);
    } else {
        transcript.answer(call.line, &"not live");
    }
}

fn changes<P: ShownPtr, S: ChainSlots<P, u64>>(
    chains: &mut ChainArena<P, u64, S>,
    transcript: &mut Transcript,
    call: &Call<'_>,
) -> bool {
    let line = call.line;
    match call.verb {
        "set_generation" => {
            chains.set_generation(generation(call.first));
            transcript.line(line);
        }
        "inc_generation" => transcript.answer(line, &chains.inc_generation()),
        "next_ptr" => transcript.answer(line, &chains.next_ptr()),
        "make_room" => transcript.answer(line, &chains.make_room()),
        "insert_in_gap_within_capacity" => transcript.answer(
            line,
            &chains.insert_in_gap_within_capacity(None, None, call.first),
        ),
        "insert_in_gap_reallocating" => transcript.answer(
            line,
            &chains.insert_in_gap_reallocating(None, None, call.first),
        ),
        "put" => put(chains, transcript, call),
        "compress_canonical" => transcript.answer(
            line,
            &chains.compress_canonical(call.first == 1),
        ),
        "drain_chain" => drain_chain(chains, transcript, call),
        "move_next_to" => {
            let (p, q) = links::pointers(call);
            transcript.answer(line, &chains.move_next_to(p, q))
        }
        "move_prev_to" => {
            let (p, q) = links::pointers(call);
            transcript.answer(line, &chains.move_prev_to(p, q))
        }
        _ => return false,
    }
    true
}

// Writes by `chains[p]`.
fn put<P: ShownPtr, S: ChainSlots<P, u64>>(
    chains: &mut ChainArena<P, u64, S>,
    transcript: &mut Transcript,
    call: &Call<'_>,
) {
    let p = call.pointer();
    if chains.contains(p) {
        chains[p] = call.third;
        transcript.line(call.line);
    } else {
        transcript.answer(call.line, &"not live");
    }
}

// Takes so many items of the drain of a chain, and lets it go.
fn drain_chain<P: ShownPtr, S: ChainSlots<P, u64>>(
    chains: &mut ChainArena<P, u64, S>,
    transcript: &mut Transcript,
    call: &Call<'_>,
) {
    match chains.drain_chain(call.pointer()) {
        Some(drain) => {
            let mut drain = drain;
            for _ in 0..call.third {
                transcript.answer(call.line, &drain.next());
            }
        }
        None => transcript.answer(call.line, &"no chain"),
    }
}

// Makes a place for a link, and says whether there is such a call.
fn enters<P: ShownPtr, S: ChainSlots<P, u64>>(
    chains: &mut ChainArena<P, u64, S>,
    transcript: &mut Transcript,
    call: &Call<'_>,
) -> bool {
    let (form, name) = call.verb.split_once(':').unwrap_or((call.verb, ""));
    match kind(name, call) {
        Some(kind) => enter_by(chains, transcript, call, form, kind),
        None => false,
    }
}

fn enter_by<P: ShownPtr, S: ChainSlots<P, u64>>(
    chains: &mut ChainArena<P, u64, S>,
    transcript: &mut Transcript,
    call: &Call<'_>,
    form: &str,
    kind: LinkInsertKind<P>,
) -> bool {
    match form {
        "entry_insert" => enter_where_met(chains, transcript, call, kind),
        "entry_insert_reallocating" => enter_growing(chains, transcript, call, kind),
        "entry_insert_within_capacity" => {
            enter(chains.entry_insert_within_capacity(kind), transcript, call)
        }
        _ => return false,
    }
    true
}

fn enter_growing<P: ShownPtr, S: ChainSlots<P, u64>>(
    chains: &mut ChainArena<P, u64, S>,
    transcript: &mut Transcript,
    call: &Call<'_>,
    kind: LinkInsertKind<P>,
) {
    enter(chains.entry_insert_reallocating(kind), transcript, call);
}

fn enter_where_met<P: ShownPtr, S: ChainSlots<P, u64>>(
    chains: &mut ChainArena<P, u64, S>,
    transcript: &mut Transcript,
    call: &Call<'_>,
    kind: LinkInsertKind<P>,
) {
    if chains.meets(&kind) {
        enter(chains.entry_insert(kind), transcript, call);
    } else {
        transcript.answer(call.line, &"not met");
    }
}

// Tells an entry's pointer, and stores the first number by it, unless that is 0.
fn enter<P: ShownPtr, E: ArenaInsertEntryTrait<P, u64> + Drop, Refusal: Debug + Drop>(
    entry: Result<E, Refusal>,
    transcript: &mut Transcript,
    call: &Call<'_>,
)
    requires { IfOk entry (λ e. E.has_room e) }
{
    match entry {
        Ok(entry) => {
            transcript.answer(call.line, &entry.ptr());
            if call.first != 0 {
                transcript.answer(call.line, &entry.insert(call.first));
            }
        }
        Err(refusal) => transcript.answer(call.line, &refusal),
    }
}
