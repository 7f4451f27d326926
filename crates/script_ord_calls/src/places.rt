//! The searches by their names, and what is told of the places that they find.
use crate::finds::{Finds, Found, search};
use crate::nodes::ShowsNodes;
use crate::work::{Counting, Limit, Work, most};
use std::cmp::Ordering;
use test_kit::{Call, ShownPtr, Transcript, pointer};
use triple_arena::PtrCore;

/// What is told of the place that a search found, as far as the rules fix it.
#[derive(Clone, Copy, Debug, PartialEq, Eq)]
pub enum Place<P> {
    /// No entry.
    Nowhere,
    /// The only entry with an equal key.
    At(P),
    /// One of several entries with this key.
    OneOf(u64),
    /// An entry on one side of the gap between these two.
    Between(Option<P>, Option<P>),
    /// No entry, or one that lives, if the keys do not ascend.
    Anywhere,
    /// An entry that does not live.
    Dead(P),
}

/// Makes a search, and says whether there is one of that name.
pub fn searches<P: ShownPtr, K: Counting, A: Finds<P, K> + ShowsNodes<P>>(
    arena: &A,
    transcript: &mut Transcript,
    call: &Call<'_>,
    zero: K,
) -> bool {
    let k = zero.with(call.first);
    let start = pointer(call.third, call.fourth);
    match search(arena, call.verb, &k, call.second, start) {
        Some(found) => {
            let ascends = arena.ascends();
            let told = place_of(arena, found.place, ascends);
            let work = found.work(arena, call.verb, call.second, start, ascends);
            transcript.answer(call.line, &(told, work));
            true
        }
        None => false,
    }
}

impl<P: PtrCore + PartialEq> Found<P> {
    /// What is told of its comparisons.
    pub fn work<A: ShowsNodes<P>>(
        &self,
        arena: &A,
        verb: &str,
        num: u64,
        start: P,
        ascends: bool,
    ) -> Work {
        let is_exact = ascends && self.place.is_some();
        let limit = limit_of_search(arena, verb, num, start, is_exact);
        limit.held(self.ticks, self.comparisons)
    }
}

// How many comparisons a search may make. One for a key that is not there goes on from the root,
// and else their number depends on the list alone if one along it came to its end there.
fn limit_of_search<P: PtrCore + PartialEq, A: ShowsNodes<P>>(
    arena: &A,
    verb: &str,
    num: u64,
    start: P,
    is_exact: bool,
) -> Limit {
    let is_live = arena.ptr(start.inx()) == Some(start);
    match verb {
        "find_key_linear" | "find_key_linear_counted" if is_live => Limit {
            along: num,
            most: most(arena.size()),
            is_exact,
        },
        "find_similar_key_linear" | "find_similar_key_linear_counted" => {
            limit_from(arena, start.inx(), num, is_exact)
        }
        _ => Limit::from_root(arena.size()),
    }
}

/// How many comparisons a search may make that goes along the list from an index until it comes to
/// the place of the key.
pub fn limit_from<P: PtrCore, A: ShowsNodes<P>>(
    arena: &A,
    start: P::Inx,
    num: u64,
    is_exact: bool,
) -> Limit {
    if arena.ptr(start).is_none() {
        return Limit::from_root(arena.size());
    }
    Limit {
        along: num,
        most: most(arena.size()),
        is_exact,
    }
}

/// What is told of a place.
pub fn place_of<P: PtrCore + PartialEq, A: ShowsNodes<P>>(
    arena: &A,
    place: Option<(P, Ordering)>,
    ascends: bool,
) -> Place<P> {
    if !ascends {
        return anywhere(arena, place);
    }
    match place {
        Some((p, answer)) => match answer {
            Ordering::Equal => at(arena, p),
            Ordering::Less => Place::Between(beside(arena, p, true), Some(p)),
            Ordering::Greater => Place::Between(Some(p), beside(arena, p, false)),
        },
        None => Place::Nowhere,
    }
}

fn anywhere<P: PtrCore + PartialEq, A: ShowsNodes<P>>(
    arena: &A,
    place: Option<(P, Ordering)>,
) -> Place<P> {
    match place {
        Some((p, _)) => if arena.ptr(p.inx()) == Some(p) {
            Place::Anywhere
        } else {
            Place::Dead(p)
        },
        None => Place::Anywhere,
    }
}

// The entry of a pointer, or its key, if a neighbor has the same.
fn at<P: PtrCore, A: ShowsNodes<P>>(arena: &A, p: P) -> Place<P> {
    match arena.node(p.inx()) {
        Some(node) => {
            let is_one_of = key_at(arena, node.prev) == Some(node.key)
                || key_at(arena, node.next) == Some(node.key);
            if is_one_of {
                Place::OneOf(node.key)
            } else {
                Place::At(p)
            }
        }
        None => Place::Dead(p),
    }
}

// The key at an index, if there is an entry.
fn key_at<P: PtrCore, A: ShowsNodes<P>>(arena: &A, i: Option<P::Inx>) -> Option<u64> {
    match i {
        Some(i) => match arena.node(i) {
            Some(node) => Some(node.key),
            None => None,
        },
        None => None,
    }
}

// The pointer to the neighbor of an entry, before it or after it.
fn beside<P: PtrCore, A: ShowsNodes<P>>(arena: &A, p: P, is_before: bool) -> Option<P> {
    match arena.node(p.inx()) {
        Some(node) => {
            let i = if is_before { node.prev } else { node.next };
            match i {
                Some(i) => arena.ptr(i),
                None => None,
            }
        }
        None => None,
    }
}
