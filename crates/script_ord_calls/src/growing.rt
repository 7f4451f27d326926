//! Many calls in a row, of whose comparisons one answer tells the most.
use crate::entries::limit_of;
use crate::finds::{Finds, search};
use crate::nodes::ShowsNodes;
use crate::places::{Place, place_of};
use crate::work::{Counting, Since, Work};
use test_kit::{Call, ShownPtr, Transcript, index, pointer};
use triple_arena::PtrCore;

// The keys of a script go up to this prime. The products of all lesser numbers with one of them,
// modulo the prime, are all of them again in another order.
const PRIME: u64 = 1009;

/// What takes items in and out by their keys.
pub trait Takes<P: PtrCore, K> {
    /// Puts an item of a key and a value in: by an entry of the kind of this name, whose search
    /// begins at an index and goes so far along the list, or by `insert` if there is no such kind.
    /// It answers the item's index, or the one that it began with if there was no room.
    fn take(&mut self, name: &str, item: &(K, u64), start: P::Inx, num: u64) -> P::Inx;

    /// Removes an entry with this key, if there is one.
    fn give_up(&mut self, k: &K);
}

/// Makes such calls, and says whether there are some of that name.
pub fn grows<P: ShownPtr, K: Counting, A: Finds<P, K> + ShowsNodes<P> + Takes<P, K>>(
    arena: &mut A,
    transcript: &mut Transcript,
    call: &Call<'_>,
    zero: K,
) -> bool {
    let (what, name) = call.verb.split_once(':').unwrap_or((call.verb, ""));
    match what {
        "grow" => {
            let work = grow(arena, name, call, zero);
            transcript.answer(call.line, &(arena.size(), work));
        }
        "remove_odd" => {
            remove_odd(arena, call, zero);
            transcript.answer(call.line, &arena.size());
        }
        "each" => {
            let tally = each(arena, name, call, zero);
            transcript.answer(call.line, &tally);
        }
        _ => return false,
    }
    true
}

// Puts the keys up to the second number in, in the order of their products with the first one. It
// does so by `insert`, or by an entry of a kind. That one's search begins at an index, or, if that
// is 0, at the entry that was put in before.
fn grow<P: PtrCore, K: Counting, A: ShowsNodes<P> + Takes<P, K>>(
    arena: &mut A,
    name: &str,
    call: &Call<'_>,
    zero: K,
) -> Work {
    // If the keys ascend, they still do after each insertion by key.
    let ascends = arena.ascends();
    let mut worst = Work::Nothing;
    let mut start = index(call.fourth);
    for i in 1..PRIME {
        let n = i.wrapping_mul(call.first) % PRIME;
        if n <= call.second {
            let (p, work) = put(
                arena,
                name,
                &(zero.with(n), n.wrapping_mul(2)),
                start,
                call.third,
                ascends,
            );
            worst = worse(worst, work);
            if call.fourth == 0 {
                start = p;
            }
        }
    }
    worst
}

// Puts one item in, and answers its index.
fn put<P: PtrCore, K: Counting, A: ShowsNodes<P> + Takes<P, K>>(
    arena: &mut A,
    name: &str,
    item: &(K, u64),
    start: P::Inx,
    num: u64,
    ascends: bool,
) -> (P::Inx, Work) {
    let limit = limit_of(arena, name, start, num, ascends);
    let since = Since::now(item.0);
    let i = arena.take(name, item, start, num);
    let comparisons = since.count();
    (i, limit.held(comparisons, comparisons))
}

// The one of two that tells more: the first that is past its limit, or the greater number along the
// list.
fn worse(first: Work, second: Work) -> Work {
    match (first, second) {
        (Work::Past { .. }, _) => first,
        (_, Work::Past { .. }) => second,
        (Work::Within, _) => first,
        (_, Work::Within) => second,
        (Work::Along(n), Work::Along(m)) => Work::Along(n.max(m)),
        (Work::Nothing, _) => second,
        (_, Work::Nothing) => first,
    }
}

// Removes each odd key up to the first number.
fn remove_odd<P: PtrCore, K: Counting, A: Takes<P, K>>(arena: &mut A, call: &Call<'_>, zero: K) {
    for n in 0..call.first.saturating_add(1) {
        if n % 2 == 1 {
            arena.give_up(&zero.with(n));
        }
    }
}

// How many searches found the key, its gap, nothing, or what is wrong, and their comparisons.
#[derive(Clone, Copy, Debug)]
struct Tally {
    equal: u64,
    beside: u64,
    nowhere: u64,
    wrong: u64,
    work: Work,
}

// The search of a name for each key from the first number to the second, with a start.
fn each<P: ShownPtr, K: Counting, A: Finds<P, K> + ShowsNodes<P>>(
    arena: &A,
    name: &str,
    call: &Call<'_>,
    zero: K,
) -> Tally {
    let mut tally = Tally {
        equal: 0,
        beside: 0,
        nowhere: 0,
        wrong: 0,
        work: Work::Nothing,
    };
    let start = pointer(call.fourth, call.fifth);
    let ascends = arena.ascends();
    for n in call.first..call.second.saturating_add(1) {
        let k = zero.with(n);
        if let Some(found) = search(arena, name, &k, call.third, start) {
            let work = found.work(arena, name, call.third, start, ascends);
            tally.work = worse(tally.work, work);
            tally.counts(arena, n, place_of(arena, found.place, ascends));
        }
    }
    tally
}

impl Tally {
    fn counts<P: PtrCore, A: ShowsNodes<P>>(&mut self, arena: &A, n: u64, place: Place<P>) {
        match place {
            Place::At(p) if key_of(arena, Some(p)) == Some(n) => {
                self.equal = self.equal.saturating_add(1);
            }
            Place::Between(p, q) if parts(key_of(arena, p), n, key_of(arena, q)) => {
                self.beside = self.beside.saturating_add(1);
            }
            Place::Nowhere => self.nowhere = self.nowhere.saturating_add(1),
            _ => self.wrong = self.wrong.saturating_add(1),
        }
    }
}

// Whether a key is greater than the one before it, and less than the one after it, as far as there
// are such.
fn parts(before: Option<u64>, n: u64, after: Option<u64>) -> bool {
    let follows = match before {
        Some(before) => before < n,
        None => true,
    };
    let goes_before = match after {
        Some(after) => n < after,
        None => true,
    };
    follows && goes_before
}

fn key_of<P: PtrCore, A: ShowsNodes<P>>(arena: &A, p: Option<P>) -> Option<u64> {
    match p {
        Some(p) => match arena.node(p.inx()) {
            Some(node) => Some(node.key),
            None => None,
        },
        None => None,
    }
}
