//! Walks along the list, by advancers and by iterators, and iterators by index.
ghost use Rattle.std.specs.Iterator.{IsFinite};

use std::fmt::Debug;
use test_kit::{Call, ShownPtr, Transcript};
use triple_arena::{Advancer, ArenaTrait};

// More than the longest list of a script.
const LONGEST: u64 = 4096;

/// What goes over its entries, and answers each that it comes to.
pub trait GoesAlong {
    fn walk_ptrs(&self, transcript: &mut Transcript, line: &str);

    fn walk_vals(&self, transcript: &mut Transcript, line: &str);

    fn walk_iter(&self, transcript: &mut Transcript, line: &str);

    fn walk_iter_ordered(&self, transcript: &mut Transcript, line: &str);

    fn walk_into_iter(&self, transcript: &mut Transcript, line: &str);

    /// Goes along the list from a pointer.
    fn walk_ordered(&self, transcript: &mut Transcript, call: &Call<'_>);

    /// Goes along the list from a pointer, and removes each entry that it comes to.
    fn walk_and_remove(&mut self, transcript: &mut Transcript, call: &Call<'_>);

    /// Goes along the list from a pointer over an arena that changes: after the first step the
    /// entry at an index is removed, and an item is put in.
    fn walk_over_a_change(&mut self, transcript: &mut Transcript, call: &Call<'_>);

    /// Takes so many items of a drain along the list, and tells how many are left when it is let
    /// go.
    fn drain_along(&mut self, transcript: &mut Transcript, call: &Call<'_>);
}

/// Answers each item that an iterator gives, up to its end.
pub fn answer_each<I: Iterator<Item: Debug + Drop> + Drop>(
    items: I,
    transcript: &mut Transcript,
    line: &str,
)
    requires { I.can_next items × IsFinite (I.remaining items) }
{
    for item in items {
        transcript.answer(line, &item);
    }
}

/// The pointers that an advancer comes to, up to its end.
pub fn walk<P: ShownPtr, C, W: Advancer<C, Item = P> + Drop>(
    arena: &C,
    transcript: &mut Transcript,
    line: &str,
    advancer: W,
) {
    let mut advancer = advancer;
    for _ in 0..LONGEST {
        match advancer.advance(arena) {
            Some(p) => transcript.answer(line, &p),
            None => break,
        }
    }
    transcript.answer(line, &advancer.advance(arena));
}

/// Removes each entry that an advancer comes to.
pub fn remove_along<
    P: ShownPtr,
    T: Debug + Drop,
    A: ArenaTrait<P, T>,
    W: Advancer<A, Item = P> + Drop,
>(arena: &mut A, transcript: &mut Transcript, line: &str, advancer: W) {
    let mut advancer = advancer;
    for _ in 0..LONGEST {
        match advancer.advance(arena) {
            Some(p) => transcript.answer(line, &arena.remove(p)),
            None => break,
        }
    }
}

/// Makes a walk, and says whether there is one of that name.
pub fn goes_over<A: GoesAlong>(
    arena: &mut A,
    transcript: &mut Transcript,
    call: &Call<'_>,
) -> bool {
    let line = call.line;
    match call.verb {
        "ptrs" => arena.walk_ptrs(transcript, line),
        "vals" => arena.walk_vals(transcript, line),
        "iter" => arena.walk_iter(transcript, line),
        "iter_ordered" => arena.walk_iter_ordered(transcript, line),
        "into_iter" => arena.walk_into_iter(transcript, line),
        "advancer_ordered" => arena.walk_ordered(transcript, call),
        "walk_ordered_and_remove" => arena.walk_and_remove(transcript, call),
        "walk_over_a_change" => arena.walk_over_a_change(transcript, call),
        "drain_ordered" => arena.drain_along(transcript, call),
        _ => return false,
    }
    true
}
