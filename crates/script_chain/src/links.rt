//! The calls of every arena of chains, on its links.
use crate::kind::kind;
use test_kit::{Call, ShownPtr, Transcript, index, pointer};
use triple_arena::Advancer;
use triple_arena_chain::{ChainArenaTrait, LinkInsertKind};

/// Makes a call that every arena of chains has, and says whether there is one of that name. That an
/// arena of chains keeps the trait's clauses is proved once for all of them, which costs the proof
/// most.
pub fn call<P: ShownPtr, A: ChainArenaTrait<P, u64>>(
    chains: &mut A,
    transcript: &mut Transcript,
    call: &Call<'_>,
) -> bool {
    script_calls::read(chains, transcript, call)
        || script_calls::change_numbers(chains, transcript, call)
        || reads(chains, transcript, call)
        || changes(chains, transcript, call)
        || inserts(chains, transcript, call)
}

// Makes a call that changes nothing, and says whether there is one of that name.
fn reads<P: ShownPtr, A: ChainArenaTrait<P, u64>>(
    chains: &A,
    transcript: &mut Transcript,
    call: &Call<'_>,
) -> bool {
    let line = call.line;
    let (p, q) = pointers::<P>(call);
    match call.verb {
        "get_link" => transcript.answer(line, &chains.get_link(p)),
        "get_link_no_gen" => transcript.answer(line, &chains.get_link_no_gen(p)),
        "get_inx_link_no_gen" => transcript.answer(line, &chains.get_inx_link_no_gen(call.index())),
        "are_neighbors" => transcript.answer(line, &chains.are_neighbors(p, q)),
        "are_neighbors_inx" => {
            let next = index(call.second);
            transcript.answer(line, &chains.are_neighbors_inx(call.index(), next))
        }
        "walk_chain" => walk_chain(chains, transcript, line, p),
        _ => return false,
    }
    true
}

// The pointers of the first two numbers and of the next two.
pub fn pointers<P: ShownPtr>(call: &Call<'_>) -> (P, P) {
    (call.pointer(), pointer(call.third, call.fourth))
}

// The pointers that an advancer comes to along a chain, up to its end.
fn walk_chain<P: ShownPtr, A: ChainArenaTrait<P, u64>>(
    chains: &A,
    transcript: &mut Transcript,
    line: &str,
    p: P,
) {
    match chains.advancer_chain(p) {
        Some(advancer) => {
            let mut advancer = advancer;
            for _ in 0..256 {
                match advancer.advance(chains) {
                    Some(p) => transcript.answer(line, &p),
                    None => break,
                }
            }
            transcript.answer(line, &advancer.advance(chains));
        }
        None => transcript.answer(line, &"no chain"),
    }
}

// Makes a call that can change the interlinks, and says whether there is one of that name.
fn changes<P: ShownPtr, A: ChainArenaTrait<P, u64>>(
    chains: &mut A,
    transcript: &mut Transcript,
    call: &Call<'_>,
) -> bool {
    let line = call.line;
    let (p, q) = pointers::<P>(call);
    match call.verb {
        "connect" => transcript.answer(line, &chains.connect(p, q)),
        "break_next" => transcript.answer(line, &chains.break_next(p)),
        "break_prev" => transcript.answer(line, &chains.break_prev(p)),
        "exchange_next" => transcript.answer(line, &chains.exchange_next(p, q)),
        "remove_link_no_gen" => transcript.answer(line, &chains.remove_link_no_gen(p)),
        "remove_inx_link_no_gen" => {
            transcript.answer(line, &chains.remove_inx_link_no_gen(call.index()))
        }
        "walk_chain_and_remove" => walk_chain_and_remove(chains, transcript, line, p),
        "walk_chain_and_break" => walk_chain_and_break(chains, transcript, line, p),
        _ => return false,
    }
    true
}

// Goes along a chain that changes: each link that the advancer comes to is removed.
fn walk_chain_and_remove<P: ShownPtr, A: ChainArenaTrait<P, u64>>(
    chains: &mut A,
    transcript: &mut Transcript,
    line: &str,
    p: P,
) {
    match chains.advancer_chain(p) {
        Some(advancer) => {
            let mut advancer = advancer;
            for _ in 0..256 {
                match advancer.advance(chains) {
                    Some(p) => transcript.answer(line, &chains.remove(p)),
                    None => break,
                }
            }
        }
        None => transcript.answer(line, &"no chain"),
    }
}

// Goes along a chain that changes: each link that the advancer comes to is parted from its next.
fn walk_chain_and_break<P: ShownPtr, A: ChainArenaTrait<P, u64>>(
    chains: &mut A,
    transcript: &mut Transcript,
    line: &str,
    p: P,
) {
    match chains.advancer_chain(p) {
        Some(advancer) => {
            let mut advancer = advancer;
            for _ in 0..256 {
                match advancer.advance(chains) {
                    Some(p) => transcript.answer(line, &(p, chains.break_next(p))),
                    None => break,
                }
            }
        }
        None => transcript.answer(line, &"no chain"),
    }
}

// Makes a call that takes a kind, as `insert:NextTo`, and says whether there is one of that name.
fn inserts<P: ShownPtr, A: ChainArenaTrait<P, u64>>(
    chains: &mut A,
    transcript: &mut Transcript,
    call: &Call<'_>,
) -> bool {
    let (form, name) = call.verb.split_once(':').unwrap_or((call.verb, ""));
    match kind(name, call) {
        Some(kind) => insert(chains, transcript, call, form, kind),
        None => false,
    }
}

fn insert<P: ShownPtr, A: ChainArenaTrait<P, u64>>(
    chains: &mut A,
    transcript: &mut Transcript,
    call: &Call<'_>,
    form: &str,
    kind: LinkInsertKind<P>,
) -> bool {
    let (line, value) = (call.line, call.first);
    match form {
        "insert_within_capacity" => {
            transcript.answer(line, &chains.insert_within_capacity(kind, value))
        }
        "insert_reallocating" => transcript.answer(line, &chains.insert_reallocating(kind, value)),
        "insert" => insert_where_met(chains, transcript, call, kind),
        "meets" => transcript.answer(line, &chains.meets(&kind)),
        _ => return false,
    }
    true
}

// The insertion on the caller's condition that the kind's requirement is met.
fn insert_where_met<P: ShownPtr, A: ChainArenaTrait<P, u64>>(
    chains: &mut A,
    transcript: &mut Transcript,
    call: &Call<'_>,
    kind: LinkInsertKind<P>,
) {
    if chains.meets(&kind) {
        transcript.answer(call.line, &chains.insert(kind, call.first));
    } else {
        transcript.answer(call.line, &"not met");
    }
}
