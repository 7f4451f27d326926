//! What a search finds, and what makes the searches: the six and their counted forms, from the root
//! and along the list.
use crate::work::{Counting, Since};
use std::cmp::Ordering;
use triple_arena::PtrCore;
use triple_arena_ptr::Probes;

/// What a search found, and its comparisons: as it ticked them, and as the keys, or the closure,
/// counted them.
#[derive(Clone, Copy)]
pub struct Found<P> {
    pub place: Option<(P, Ordering)>,
    pub ticks: u64,
    pub comparisons: u64,
}

impl<P> Found<P> {
    /// An entry with an equal key.
    pub fn equal(found: Option<P>, ticks: u64, comparisons: u64) -> Self {
        let place = match found {
            Some(p) => Some((p, Ordering::Equal)),
            None => None,
        };
        Found {
            place,
            ticks,
            comparisons,
        }
    }

    /// An entry with a similar key, and on which side of it the asked one is.
    pub fn similar(place: Option<(P, Ordering)>, ticks: u64, comparisons: u64) -> Self {
        Found {
            place,
            ticks,
            comparisons,
        }
    }
}

/// What makes each search, by a key that counts, or by a closure that compares with a number.
pub trait Finds<P, K> {
    fn by_key(&self, k: &K) -> Option<P>;

    fn by_key_counted(&self, k: &K, probes: &mut Probes) -> Option<P>;

    fn by_similar_key(&self, k: &K) -> Option<(P, Ordering)>;

    fn by_similar_key_counted(&self, k: &K, probes: &mut Probes) -> Option<(P, Ordering)>;

    fn along(&self, k: &K, num: u64, start: P) -> Option<P>;

    fn along_counted(&self, k: &K, num: u64, start: P, probes: &mut Probes) -> Option<P>;

    fn similar_along(&self, k: &K, num: u64, start: P) -> Option<(P, Ordering)>;

    fn similar_along_counted(
        &self,
        k: &K,
        num: u64,
        start: P,
        probes: &mut Probes,
    ) -> Option<(P, Ordering)>;

    fn with(&self, n: u64) -> Found<P>;

    fn with_counted(&self, n: u64) -> Found<P>;

    fn similar_with(&self, n: u64) -> Found<P>;

    fn similar_with_counted(&self, n: u64) -> Found<P>;

    fn similar_by_counted(&self, n: u64) -> Found<P>;

    /// The first entry with the key, as a closure that is borrowed notes it: the one behind a gap.
    fn first_noted(&self, n: u64) -> Found<P>;

    /// The last entry whose key is not above, as a closure that is borrowed notes it: the one
    /// before a gap.
    fn last_noted(&self, n: u64) -> Found<P>;

    /// Goes left at each entry but at that of the pointer: it finds the first one.
    fn with_the_pointer(&self, start: P) -> Found<P>;
}

/// What a search finds, if there is one of that name.
pub fn search<P: PtrCore, K: Counting, A: Finds<P, K>>(
    arena: &A,
    verb: &str,
    k: &K,
    num: u64,
    start: P,
) -> Option<Found<P>> {
    match verb {
        "find_key" => Some(by_key(arena, k)),
        "find_key_counted" => Some(by_key_counted(arena, k)),
        "find_similar_key" => Some(by_similar_key(arena, k)),
        "find_similar_key_counted" => Some(by_similar_key_counted(arena, k)),
        "find_key_linear" => Some(along(arena, k, num, start)),
        "find_key_linear_counted" => Some(along_counted(arena, k, num, start)),
        "find_similar_key_linear" => Some(similar_along(arena, k, num, start)),
        "find_similar_key_linear_counted" => Some(similar_along_counted(arena, k, num, start)),
        _ => search_with(arena, verb, k.n(), start),
    }
}

// What a search by a closure finds, if there is one of that name.
fn search_with<P: PtrCore, K, A: Finds<P, K>>(
    arena: &A,
    verb: &str,
    n: u64,
    start: P,
) -> Option<Found<P>> {
    match verb {
        "find_with" => Some(arena.with(n)),
        "find_with_counted" => Some(arena.with_counted(n)),
        "find_similar_with" => Some(arena.similar_with(n)),
        "find_similar_with_counted" => Some(arena.similar_with_counted(n)),
        "find_similar_by_counted" => Some(arena.similar_by_counted(n)),
        "find_first_noted" => Some(arena.first_noted(n)),
        "find_last_noted" => Some(arena.last_noted(n)),
        "find_with_the_pointer" => Some(arena.with_the_pointer(start)),
        _ => None,
    }
}

fn by_key<P: PtrCore, K: Counting, A: Finds<P, K>>(arena: &A, k: &K) -> Found<P> {
    let since = Since::now(*k);
    let found = arena.by_key(k);
    Found::equal(found, since.count(), since.count())
}

fn by_key_counted<P: PtrCore, K: Counting, A: Finds<P, K>>(arena: &A, k: &K) -> Found<P> {
    let since = Since::now(*k);
    let mut probes = Probes::new();
    let found = arena.by_key_counted(k, &mut probes);
    Found::equal(found, probes.count(), since.count())
}

fn by_similar_key<P: PtrCore, K: Counting, A: Finds<P, K>>(arena: &A, k: &K) -> Found<P> {
    let since = Since::now(*k);
    let found = arena.by_similar_key(k);
    Found::similar(found, since.count(), since.count())
}

fn by_similar_key_counted<P: PtrCore, K: Counting, A: Finds<P, K>>(arena: &A, k: &K) -> Found<P> {
    let since = Since::now(*k);
    let mut probes = Probes::new();
    let found = arena.by_similar_key_counted(k, &mut probes);
    Found::similar(found, probes.count(), since.count())
}

fn along<P: PtrCore, K: Counting, A: Finds<P, K>>(
    arena: &A,
    k: &K,
    num: u64,
    start: P,
) -> Found<P> {
    let since = Since::now(*k);
    let found = arena.along(k, num, start);
    Found::equal(found, since.count(), since.count())
}

fn along_counted<P: PtrCore, K: Counting, A: Finds<P, K>>(
    arena: &A,
    k: &K,
    num: u64,
    start: P,
) -> Found<P> {
    let since = Since::now(*k);
    let mut probes = Probes::new();
    let found = arena.along_counted(k, num, start, &mut probes);
    Found::equal(found, probes.count(), since.count())
}

fn similar_along<P: PtrCore, K: Counting, A: Finds<P, K>>(
    arena: &A,
    k: &K,
    num: u64,
    start: P,
) -> Found<P> {
    let since = Since::now(*k);
    let found = arena.similar_along(k, num, start);
    Found::similar(found, since.count(), since.count())
}

fn similar_along_counted<P: PtrCore, K: Counting, A: Finds<P, K>>(
    arena: &A,
    k: &K,
    num: u64,
    start: P,
) -> Found<P> {
    let since = Since::now(*k);
    let mut probes = Probes::new();
    let found = arena.similar_along_counted(k, num, start, &mut probes);
    Found::similar(found, probes.count(), since.count())
}
